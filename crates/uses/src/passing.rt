//! Exports that come from elsewhere: made by hand, or read from bytes.
ghost use Rattle.std.specs.Prelude.{◌≡◌, ◌∷◌, [], IfOk, OnOk, OnErr};
ghost use Rattle.bytes_kit.specs.Fits.{IsExport};
ghost use Rattle.bytes_kit.specs.Format.{bytes_of};
ghost use Rattle.point_kit.specs.declared.export.Export.{Export};
ghost use Rattle.point_kit.specs.declared.payload.Payload.TheVariants as payloads;
ghost use Rattle.uses.specs.Passing.{with_export};

use attr_kit::{AttrSet, NoMemory, Seq};
use bytes_kit::{DecodeFault, decode_export, encode_export};
use gateway_kit::Gateway;
use point_kit::{Export, ExportFault, ExportPoint, Payload, SharedStream, Stream, WriterId};
use std::alloc::Global;

// A list of one point.
fn only(
    alloc: Global,
    stream: Stream,
    attrs: AttrSet,
    sum: i64,
) -> Result<Seq<ExportPoint>, NoMemory>
    ensures { IfOk result (λ points. points ≡ record { stream = stream; attrs = attrs; payload = payloads.Sum sum } ∷ []) }
{
    let mut points = Vec::new(alloc);
    points.push(ExportPoint {
        stream: SharedStream::new(alloc, stream)?,
        attrs,
        payload: Payload::Sum(sum),
    })?;
    Ok(Seq::from_vec(points))
}

/// An export of one sum that was added up elsewhere, from 100 to 200. Refused where stream and sum do not fit together.
pub fn export_of_sum(
    alloc: Global,
    writer: WriterId,
    stream: Stream,
    attrs: AttrSet,
    sum: i64,
) -> Result<Export, ExportFault>
    ensures { IfOk result (λ e. e.points ≡ record { stream = stream; attrs = attrs; payload = payloads.Sum sum } ∷ []) }
{
    let points = only(alloc, stream, attrs, sum)?;
    Export::build(alloc, writer, 100, 200, points)
}

/// Takes an export that came as bytes. Bytes of an export are taken as that export, and where bytes are refused nothing changes.
pub fn take_bytes(alloc: Global, gateway: &mut Gateway, bytes: &[u8]) -> Result<u64, DecodeFault>
    ensures taken { (e : Export) → IsExport e → bytes.now ≡ bytes_of e
        → OnOk result (gateway.new.points ≡ with_export gateway.old.points e) }
    ensures unchanged { OnErr result (gateway.new ≡ gateway.old) }
{
    let export = decode_export(alloc, bytes)?;
    Ok(gateway.take(&export)?)
}

/// The bytes of an export, in the one form that it has: what a gateway elsewhere takes.
pub fn give_bytes(alloc: Global, export: &Export) -> Result<Vec<u8>, NoMemory>
    ensures form { IfOk result (λ bytes. bytes.items ≡ bytes_of export.now) }
    ensures sound { OnOk result (IsExport export.now) }
{
    encode_export(alloc, export)
}
