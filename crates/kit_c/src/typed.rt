//! A type of handle for each kind, so that C tells them apart.
//!
//! All of them are one `KitHandle`, which an empty one of any kind is: so `kit_free` is of all.
ghost use Rattle.std.specs.Prelude.{◌≡◌, true};
ghost use Rattle.kit_c.specs.Typed.{is_archive, is_ask, is_attributes, is_bytes, is_export, is_exports, is_gateway, is_incarnations, is_instruments, is_keys, is_message, is_pairs, is_plan, is_recorder, is_rows, is_seat, is_streams, is_text, is_view, is_views, is_writer};

use crate::handle::KitHandle;

/// Pairs of attributes that are written down, or nothing.
#[repr(C)]
#[derive(Drop)]
pub struct KitPairs {
    pub handle: KitHandle,
    pub ghost kind: { is_pairs handle.inner.value ≡ true },
}

/// A set of attributes, or nothing.
#[repr(C)]
#[derive(Drop)]
pub struct KitAttributes {
    pub handle: KitHandle,
    pub ghost kind: { is_attributes handle.inner.value ≡ true },
}

/// Instruments that are written down, or nothing.
#[repr(C)]
#[derive(Drop)]
pub struct KitInstruments {
    pub handle: KitHandle,
    pub ghost kind: { is_instruments handle.inner.value ≡ true },
}

/// A view that is being made, or nothing.
#[repr(C)]
#[derive(Drop)]
pub struct KitView {
    pub handle: KitHandle,
    pub ghost kind: { is_view handle.inner.value ≡ true },
}

/// Views that are written down, or nothing.
#[repr(C)]
#[derive(Drop)]
pub struct KitViews {
    pub handle: KitHandle,
    pub ghost kind: { is_views handle.inner.value ≡ true },
}

/// Keys of attributes that are written down, or nothing.
#[repr(C)]
#[derive(Drop)]
pub struct KitKeys {
    pub handle: KitHandle,
    pub ghost kind: { is_keys handle.inner.value ≡ true },
}

/// A plan, or nothing.
#[repr(C)]
#[derive(Drop)]
pub struct KitPlan {
    pub handle: KitHandle,
    pub ghost kind: { is_plan handle.inner.value ≡ true },
}

/// A writer, or nothing.
#[repr(C)]
#[derive(Drop)]
pub struct KitWriter {
    pub handle: KitHandle,
    pub ghost kind: { is_writer handle.inner.value ≡ true },
}

/// A thread's own log of recordings, or nothing.
#[repr(C)]
#[derive(Drop)]
pub struct KitRecorder {
    pub handle: KitHandle,
    pub ghost kind: { is_recorder handle.inner.value ≡ true },
}

/// An export, or nothing.
#[repr(C)]
#[derive(Drop)]
pub struct KitExport {
    pub handle: KitHandle,
    pub ghost kind: { is_export handle.inner.value ≡ true },
}

/// Exports that were read, or nothing.
#[repr(C)]
#[derive(Drop)]
pub struct KitExports {
    pub handle: KitHandle,
    pub ghost kind: { is_exports handle.inner.value ≡ true },
}

/// A gateway, which shows no point that an archive adopted, or nothing.
#[repr(C)]
#[derive(Drop)]
pub struct KitGateway {
    pub handle: KitHandle,
    pub ghost kind: { is_gateway handle.inner.value ≡ true },
}

/// A message of a gateway, or nothing.
#[repr(C)]
#[derive(Drop)]
pub struct KitMessage {
    pub handle: KitHandle,
    pub ghost kind: { is_message handle.inner.value ≡ true },
}

/// A writer that adopts ended incarnations of others, or nothing.
#[repr(C)]
#[derive(Drop)]
pub struct KitArchive {
    pub handle: KitHandle,
    pub ghost kind: { is_archive handle.inner.value ≡ true },
}

/// A place at a writer that threads share, or nothing.
#[repr(C)]
#[derive(Drop)]
pub struct KitSeat {
    pub handle: KitHandle,
    pub ghost kind: { is_seat handle.inner.value ≡ true },
}

/// An ask of a gateway, or nothing.
#[repr(C)]
#[derive(Drop)]
pub struct KitAsk {
    pub handle: KitHandle,
    pub ghost kind: { is_ask handle.inner.value ≡ true },
}

/// Rows that a gateway answered, or nothing.
#[repr(C)]
#[derive(Drop)]
pub struct KitRows {
    pub handle: KitHandle,
    pub ghost kind: { is_rows handle.inner.value ≡ true },
}

/// Streams, or nothing.
#[repr(C)]
#[derive(Drop)]
pub struct KitStreams {
    pub handle: KitHandle,
    pub ghost kind: { is_streams handle.inner.value ≡ true },
}

/// Incarnations of which there are points, or nothing.
#[repr(C)]
#[derive(Drop)]
pub struct KitIncarnations {
    pub handle: KitHandle,
    pub ghost kind: { is_incarnations handle.inner.value ≡ true },
}

/// A text, or nothing.
#[repr(C)]
#[derive(Drop)]
pub struct KitText {
    pub handle: KitHandle,
    pub ghost kind: { is_text handle.inner.value ≡ true },
}

/// An export, a message or a request as bytes, or nothing.
#[repr(C)]
#[derive(Drop)]
pub struct KitBytes {
    pub handle: KitHandle,
    pub ghost kind: { is_bytes handle.inner.value ≡ true },
}
