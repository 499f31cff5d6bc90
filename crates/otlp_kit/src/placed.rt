//! Points with their window.
use point_kit::ExportPoint;

/// A point of an export, and the window that it covers: from its start, excluded, to its time, in nanoseconds since the Unix
/// epoch.
#[derive(Drop)]
pub(crate) struct Placed {
    pub(crate) start: u64,
    pub(crate) time: u64,
    pub(crate) point: ExportPoint,
}
