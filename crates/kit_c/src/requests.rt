//! Exports that other senders bring by OTLP, read by their numbers.
ghost use Rattle.std.specs.Prelude.{◌≡◌, ◌≢◌, ◌∷◌, [], pos, length, position, slice_get, true, None, Some, IfErr, IfOk, IfSome, OnOk};
ghost use Rattle.otlp_kit.specs.Reading.{said_of};
ghost use Rattle.attr_kit.specs.Refusing.{first};
ghost use Rattle.kit_c.specs.Calls.{code_for, full_fault, if_any, of_one};
ghost use Rattle.kit_c.specs.Codes.{code_of, no_memory};
ghost use Rattle.kit_c.specs.Formats.{HasBrought, bringing_fault, has_reserved};
ghost use Rattle.kit_c.specs.Held.{export_of, exports_of};
ghost use Rattle.kit_c.specs.Items.{item_fault};
ghost use Rattle.kit_c.specs.Places.{TellsPlace};
ghost use Rattle.kit_c.specs.Typed.{exports_in, is_exports};

use crate::content::Content;
use crate::fault::{FULL, Fault, NOTHING, OK, WRONG_KIND, code_with_place};
use crate::list::item;
use crate::typed::{KitExport, KitExports};
use crate::with::{fill_or_tell, put, with};
use archive_kit::SCOPE;
use attr_kit::Seq;
use otlp_kit::decode_otlp;
use point_kit::Export;
use std::alloc::Global;

// Whether an export has a point in the scope of tombstones.
fn has_reserved(export: &Export) -> bool
    ensures { result ≡ has_reserved (said_of export.now) }
{
    let mut points = export.points().iter();
    points.any(|point| point.stream.get().scope.as_str() == SCOPE)
}

// The least place of an export that has such a point.
fn reserved_at(exports: &[Export]) -> Option<usize>
    ensures { result ≡ position (λ e. has_reserved (said_of e)) exports.now }
{
    exports.iter().position(has_reserved)
}

#[tactic(auto, using(crate::proofs::Brought::brings_all, crate::proofs::Brought::brings_reserved))]
fn decode(alloc: Global, bytes: &[u8]) -> Result<Box<Content>, Fault>
    ensures kind { IfOk result (λ made. is_exports (Some made.value) ≡ true) }
    ensures ok { OnOk result (bringing_fault bytes.now ≡ None) }
    ensures value { IfOk result (λ made. HasBrought bytes.now (exports_in (Some made.value))) }
    ensures err { IfErr result (λ f. code_of f ≢ no_memory → bringing_fault bytes.now ≡ Some f) }
{
    let exports = match decode_otlp(alloc, bytes) {
        Ok(exports) => exports,
        Err(fault) => return Err(Fault::Request(fault)),
    };
    match reserved_at(exports.as_slice()) {
        None => Ok(Box::new(alloc, Content::Exports(Seq::from_vec(exports)))?),
        Some(place) => Err(Fault::ReservedPoint(place)),
    }
}

/// The exports that the body of a POST to `/v1/metrics` brings (OTLP, with `Content-Type: application/x-protobuf`). Who made the bytes is
/// not known here: of whom each export is, `kit_export_read` and `kit_export_service` tell.
///
/// Refused, in this order: `FULL`; then for the first thing that is wrong with the bytes, with its place: `MALFORMED`, `NOT_TEXT`,
/// `TOO_LONG_TEXT`; then for the first that they say and that no export has, in the order of the request, with the place of the resource,
/// scope, metric, point or export: `NO_SERVICE` to `NO_EXPORT`, `TOO_MANY_ATTRIBUTES`; `RESERVED_POINT` with the place of the first export
/// that has a point in the scope kotskhin.archive, which would hide points of others; `NO_MEMORY`.
#[unsafe(no_mangle)]
pub extern "C" fn kit_exports_of_otlp(
    alloc: Global,
    exports: &mut KitExports,
    bytes: &[u8],
    place: &mut u64,
) -> i32
    ensures code { result ≢ no_memory
        → result ≡ code_for (first (full_fault (exports_of exports.old) ∷ bringing_fault bytes.now ∷ [])) }
    ensures value { result ≡ pos 0 → HasBrought bytes.now (exports_of exports.new) }
    ensures place { TellsPlace result (first (full_fault (exports_of exports.old) ∷ bringing_fault bytes.now ∷ [])) place.old place.new }
    ensures unchanged { result ≢ pos 0 → exports_of exports.new ≡ exports_of exports.old }
{
    put!(exports => decode(alloc, bytes), fault => fault, place)
}

/// Tells how many exports there are: they are numbered from 0.
///
/// Refused: `NOTHING`. O(1), takes no memory.
#[unsafe(no_mangle)]
pub extern "C" fn kit_exports_len(alloc: Global, exports: &mut KitExports, count: &mut usize) -> i32
    ensures code { result ≡ code_for (of_one (exports_of exports.old) if_any) }
    ensures value { result ≡ pos 0 → IfSome (exports_of exports.old) (λ es. count.new ≡ length es) }
    ensures told { result ≢ pos 0 → count.new ≡ count.old }
    ensures kept { exports_of exports.new ≡ exports_of exports.old }
{
    *count = with!(alloc, exports => Exports(held), held.len());
    OK
}

fn copy(exports: &Seq<Export>, number: usize) -> Result<Export, Fault>
    ensures ok { OnOk result (item_fault number exports.now ≡ None) }
    ensures value { IfOk result (λ e. slice_get exports.now number ≡ Some e) }
    ensures err { IfErr result (λ f. code_of f ≢ no_memory → item_fault number exports.now ≡ Some f) }
{
    Ok(item(exports, number)?.try_copy()?)
}

/// The export of a number. The exports stay.
///
/// Refused, in this order: `FULL`; `NOTHING` of the exports; `NO_ITEM` where there is no export of this number; `NO_MEMORY`.
#[unsafe(no_mangle)]
pub extern "C" fn kit_exports_read(
    alloc: Global,
    exports: &mut KitExports,
    number: usize,
    export: &mut KitExport,
) -> i32
    ensures code { result ≢ no_memory → result
        ≡ code_for (first (full_fault (export_of export.old) ∷ of_one (exports_of exports.old) (item_fault number) ∷ [])) }
    ensures value { result ≡ pos 0 → IfSome (exports_of exports.old) (λ es. slice_get es number ≡ export_of export.new) }
    ensures unchanged { result ≢ pos 0 → export_of export.new ≡ export_of export.old }
    ensures kept { exports_of exports.new ≡ exports_of exports.old }
{
    fill_or_tell!(alloc, export => with!(alloc, exports => Exports(held), copy(held, number)), made => Content::Export(made))
}
