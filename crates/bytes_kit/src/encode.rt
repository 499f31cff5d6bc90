//! The bytes of an export.
ghost use Rattle.std.specs.Prelude.{◌≡◌, ◌++◌, [], IfOk, OnOk, OnErr};
ghost use Rattle.bytes_kit.specs.Fits.{IsExport};
ghost use Rattle.bytes_kit.specs.Format.{fields_of, fields, bytes_of, with_checksum};

use crate::checksum::checksum;
use crate::history::History;
use crate::passage::Passage;
use crate::passages::write_list_behind;
use crate::piece::Piece;
use attr_kit::NoMemory;
use point_kit::Export;
use std::alloc::Global;

// The letters by which an export is known, and the version.
const HEAD: [u8; 5] = [75, 84, 83, 75, 2];

/// Puts the checksum of all bytes behind them.
#[tactic(auto, unfolding(crate::specs::Format::with_checksum))]
pub(crate) fn seal(out: &mut Vec<u8>) -> Result<(), NoMemory>
    ensures { OnOk result (out.new.items ≡ with_checksum out.old.items) }
{
    let sum = checksum(out.as_slice());
    out.extend_from_slice(&sum.to_be_bytes())?;
    Ok(())
}

// What stands between the head and the checksum.
fn write_fields(export: &Export, out: &mut Vec<u8>) -> Result<(), NoMemory>
    ensures written { OnOk result (out.new.items ≡ out.old.items ++ fields (fields_of export.now)) }
    ensures value { OnOk result (IsExport export.now) }
{
    let mut history = History::new(*out.allocator())?;
    export.writer().write_behind(&mut history, out)?;
    export.start().write(out)?;
    export.time().write(out)?;
    write_list_behind(export.points(), &mut history, out)
}

// Head, fields and checksum.
fn write_sealed(export: &Export, out: &mut Vec<u8>) -> Result<(), NoMemory>
    requires { out.old.items ≡ [] }
    ensures written { OnOk result (out.new.items ≡ bytes_of export.now) }
    ensures value { OnOk result (IsExport export.now) }
{
    out.extend_from_slice(&HEAD)?;
    write_fields(export, out)?;
    seal(out)
}

/// Makes the bytes of an export in a buffer. What the buffer held is gone; its memory is used again.
///
/// Each export has one form, told in docs/design/BYTES.md, and [`crate::decode_export`] gives the export back of it: that asks for
/// values of the sizes that the types have, which `value` says of every export that was written. Refused only where memory
/// is; the buffer is then empty. O(n) in the bytes, and a look-up for each text but those that came of late; beside the
/// buffer memory for each text of at most 64 bytes that comes, once.
pub fn encode_export_into(export: &Export, out: &mut Vec<u8>) -> Result<(), NoMemory>
    ensures ok { OnOk result (out.new.items ≡ bytes_of export.now) }
    ensures value { OnOk result (IsExport export.now) }
    ensures err { OnErr result (out.new.items ≡ []) }
{
    out.clear();
    let written = write_sealed(export, out);
    if written.is_err() {
        out.clear();
    }
    written
}

/// The bytes of an export: see [`encode_export_into`].
pub fn encode_export(alloc: Global, export: &Export) -> Result<Vec<u8>, NoMemory>
    ensures ok { IfOk result (λ bytes. bytes.items ≡ bytes_of export.now) }
    ensures value { OnOk result (IsExport export.now) }
{
    let mut bytes = Vec::new(alloc);
    encode_export_into(export, &mut bytes)?;
    Ok(bytes)
}
