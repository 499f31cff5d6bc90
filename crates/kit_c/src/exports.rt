//! Exports, read by those who take them in from others, and as bytes for other processes.
ghost use Rattle.std.specs.Prelude.{◌≡◌, ◌≢◌, pos, length, IfSome, ◌∷◌, [], true, None, Some, IfErr, IfOk};
ghost use Rattle.kit_c.specs.Calls.{code_for, filled, if_any, of_one, full_fault};
ghost use Rattle.kit_c.specs.Exports.{Reads};
ghost use Rattle.kit_c.specs.Held.{export_of, bytes_of as bytes_in};
ghost use Rattle.std.specs.Option.{option_map, unwrap_or};
ghost use Rattle.attr_kit.specs.Refusing.{first};
ghost use Rattle.bytes_kit.specs.Fits.{IsExport};
ghost use Rattle.bytes_kit.specs.Format.{bytes_of};
ghost use Rattle.kit_c.specs.Bytes.{HasExportForm, IsDecodeFault, IsReadFrom};
ghost use Rattle.kit_c.specs.Codes.{code_of, no_memory};
ghost use Rattle.kit_c.specs.Places.{place_of};
ghost use Rattle.kit_c.specs.Typed.{export_in, is_export};
ghost use Rattle.kit_c.specs.declared.fault.Fault.{Fault};
ghost use Rattle.point_kit.specs.declared.export.Export.{Export};

use crate::content::Content;
use crate::fault::{FULL, Fault, NO_MEMORY, NOTHING, OK, WRONG_KIND, code_with_place};
use crate::text::copy_front;
use crate::typed::{KitBytes, KitExport};
use crate::with::{fill, put, with};
use attr_kit::Seq;
use bytes_kit::{decode_export, encode_export};
use point_kit::Export;
use std::alloc::Global;

// What an export says of itself: its instance as two numbers, its start, its time, and how many points it has.
fn read(export: &Export) -> (u64, u64, u64, u64, usize)
    ensures { Reads export.now result.0 result.1 result.2 result.3 result.4 }
{
    let (high, low) = export.writer().instance.as_u64_pair();
    (
        high,
        low,
        export.start(),
        export.time(),
        export.points().len(),
    )
}

/// Tells who made an export, its instance as two numbers, and of when and how many points it is: so that who takes it in from another
/// process can compare it with what is known of that one. `kit_export_service` tells the service.
///
/// Refused: `NOTHING`. O(1), takes no memory.
#[unsafe(no_mangle)]
pub extern "C" fn kit_export_read(
    alloc: Global,
    export: &mut KitExport,
    instance_high: &mut u64,
    instance_low: &mut u64,
    start: &mut u64,
    time: &mut u64,
    points: &mut usize,
) -> i32
    ensures code { result ≡ code_for (of_one (export_of export.old) if_any) }
    ensures value { result ≡ pos 0
        → IfSome (export_of export.old) (λ e. Reads e instance_high.new instance_low.new start.new time.new points.new) }
    ensures instance_told { result ≢ pos 0 → (instance_high.new ≡ instance_high.old) × (instance_low.new ≡ instance_low.old) }
    ensures told { result ≢ pos 0 → (start.new ≡ start.old) × (time.new ≡ time.old) × (points.new ≡ points.old) }
    ensures kept { export_of export.new ≡ export_of export.old }
{
    let (high, low, from, at, len) = with!(alloc, export => Export(held), read(held));
    *instance_high = high;
    *instance_low = low;
    *start = from;
    *time = at;
    *points = len;
    OK
}

fn copy_service(export: &Export, into: &mut [u8]) -> usize
    ensures value { into.new ≡ filled export.now.writer.service into.old }
    ensures len { result ≡ length export.now.writer.service }
{
    copy_front(export.writer().service.as_str().as_bytes(), into)
}

/// Copies the front of the service of an export's writer that has room, and tells in `len` how many bytes it has, in UTF-8 and with no 0
/// at its end.
///
/// Refused: `NOTHING`. Takes no memory.
#[unsafe(no_mangle)]
pub extern "C" fn kit_export_service(
    alloc: Global,
    export: &mut KitExport,
    into: &mut [u8],
    len: &mut usize,
) -> i32
    ensures code { result ≡ code_for (of_one (export_of export.old) if_any) }
    ensures value { result ≡ pos 0 → IfSome (export_of export.old) (λ e. into.new ≡ filled e.writer.service into.old) }
    ensures len { result ≡ pos 0 → IfSome (export_of export.old) (λ e. len.new ≡ length e.writer.service) }
    ensures told { result ≢ pos 0 → (into.new ≡ into.old) × (len.new ≡ len.old) }
    ensures kept { export_of export.new ≡ export_of export.old }
{
    *len = with!(alloc, export => Export(held), copy_service(held, into));
    OK
}

/// The bytes of an export, which stays: they may go to another process. Each export has one form.
///
/// Refused, in this order: `FULL`; `NOTHING`; `NO_MEMORY`.
#[unsafe(no_mangle)]
pub extern "C" fn kit_export_encode(
    alloc: Global,
    export: &mut KitExport,
    bytes: &mut KitBytes,
) -> i32
    ensures code { result ≢ no_memory
        → result ≡ code_for (first (full_fault (bytes_in bytes.old) ∷ of_one (export_of export.old) if_any ∷ [])) }
    ensures value { result ≡ pos 0 → bytes_in bytes.new ≡ option_map (λ e. bytes_of e) (export_of export.old) }
    ensures form { result ≡ pos 0 → HasExportForm (export_of export.old) }
    ensures unchanged { result ≢ pos 0 → bytes_in bytes.new ≡ bytes_in bytes.old }
    ensures kept { export_of export.new ≡ export_of export.old }
{
    fill!(alloc, bytes => with!(alloc, export => Export(held), encode_export(alloc, held)), made => Content::Bytes(Seq::from_vec(made)))
}

/// Copies the front of bytes that has room, and tells in `len` how many there are. They stay.
///
/// Refused: `NOTHING`. Takes no memory.
#[unsafe(no_mangle)]
pub extern "C" fn kit_bytes_copy(
    alloc: Global,
    bytes: &mut KitBytes,
    into: &mut [u8],
    len: &mut usize,
) -> i32
    ensures code { result ≡ code_for (of_one (bytes_in bytes.old) if_any) }
    ensures value { result ≡ pos 0 → IfSome (bytes_in bytes.old) (λ b. into.new ≡ filled b into.old) }
    ensures len { result ≡ pos 0 → IfSome (bytes_in bytes.old) (λ b. len.new ≡ length b) }
    ensures told { result ≢ pos 0 → (into.new ≡ into.old) × (len.new ≡ len.old) }
    ensures kept { bytes_in bytes.new ≡ bytes_in bytes.old }
{
    *len = with!(alloc, bytes => Bytes(held), copy_front(held.as_slice(), into));
    OK
}

fn decode(alloc: Global, bytes: &[u8]) -> Result<Box<Content>, Fault>
    ensures kind { IfOk result (λ made. is_export (Some made.value) ≡ true) }
    ensures value { IfOk result (λ made. IsReadFrom bytes.now (export_in (Some made.value))) }
    ensures err { IfErr result (λ f. code_of f ≢ no_memory → IsDecodeFault bytes.now f) }
    ensures found { (e : Export) → IsExport e → bytes.now ≡ bytes_of e → IfErr result (λ f. code_of f ≡ no_memory) }
{
    match decode_export(alloc, bytes) {
        Ok(export) => Ok(Box::new(alloc, Content::Export(export))?),
        Err(fault) => Err(Fault::Decode(fault)),
    }
}

/// The export of bytes that `kit_export_encode` made, here or in another process.
///
/// Refused, in this order: `FULL`; then for the first thing that is wrong with the bytes, with its place: `TRUNCATED`, `BAD_MAGIC`,
/// `BAD_VERSION`, `NOT_CANONICAL`, `NOT_TEXT`, `BAD_CHECKSUM`, `BAD_EXPORT` which tells none; `NO_MEMORY` alone where they are an
/// export's.
#[unsafe(no_mangle)]
pub extern "C" fn kit_export_decode(
    alloc: Global,
    export: &mut KitExport,
    bytes: &[u8],
    place: &mut u64,
) -> i32
    ensures ok { result ≡ pos 0 → full_fault (export_of export.old) ≡ None }
    ensures value { result ≡ pos 0 → IsReadFrom bytes.now (export_of export.new) }
    ensures told { result ≡ pos 0 → place.new ≡ place.old }
    ensures full { export_of export.old ≢ None → (result ≡ pos 4) × (place.new ≡ place.old) }
    ensures err { result ≢ pos 0 → result ≢ no_memory → export_of export.old ≡ None
        → (f : Fault) × (result ≡ code_of f) × (place.new ≡ unwrap_or (place_of f) place.old) × IsDecodeFault bytes.now f }
    ensures found { (e : Export) → IsExport e → bytes.now ≡ bytes_of e → export_of export.old ≡ None → result ≢ pos 0
        → result ≡ no_memory }
    ensures no_memory { result ≡ no_memory → place.new ≡ place.old }
    ensures unchanged { result ≢ pos 0 → export_of export.new ≡ export_of export.old }
{
    put!(export => decode(alloc, bytes), fault => fault, place)
}
