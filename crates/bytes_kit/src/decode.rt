//! The export of bytes.
ghost use Rattle.std.specs.Prelude.{◌≡◌, ◌≢◌, ◌++◌, List, ℕ, ◌∷◌, ◌⊎◌, IfOk, IfErr, OnOk, OnErr};
ghost use Rattle.std.specs.Int.{w32, to_be_bytes};
ghost use Rattle.point_kit.specs.declared.export.Export.{Export};
ghost use Rattle.bytes_kit.specs.Explaining.{Explains, IsFieldsFault, IsHeadFault, IsReadFault, IsSealFault, HasOther};
ghost use Rattle.bytes_kit.specs.Faults.{GivesBack};
ghost use Rattle.bytes_kit.specs.Fits.{IsFields, IsExport};
ghost use Rattle.bytes_kit.specs.Format.{Fields, fields, head, head_of, bytes_of_fields, bytes_of};
ghost use Rattle.bytes_kit.specs.Reading.{Reads};
ghost use Rattle.bytes_kit.specs.declared.fault.DecodeFault.TheVariants as faults;

use crate::DecodeFault;
use crate::checksum::checksum;
use crate::history::History;
use crate::passage::Passage;
use crate::reader::Reader;
use attr_kit::Seq;
use point_kit::{Export, ExportPoint, WriterId};
use std::alloc::Global;

// The byte that must come next.
fn expect(reader: &mut Reader<'_>, wanted: u8, fault: DecodeFault) -> Result<(), DecodeFault>
    ensures ok { OnOk result (reader.old.rest ≡ wanted ∷ reader.new.rest) }
    ensures err { OnErr result ((rest : List ℕ) → reader.old.rest ≢ wanted ∷ rest) }
    ensures end { reader.new.end ≡ reader.old.end }
    ensures fault { IfErr result (λ f. (f ≡ faults.Truncated reader.old.end) ⊎ ((f ≡ fault) × HasOther wanted reader.old.rest)) }
{
    if reader.byte()? != wanted {
        return Err(fault);
    }
    Ok(())
}

/// The letters by which a thing of the kit is known, of which the last says what it is, and the version.
pub(crate) fn read_head(reader: &mut Reader<'_>, letter: u8) -> Result<(), DecodeFault>
    ensures ok { OnOk result (reader.old.rest ≡ head_of letter ++ reader.new.rest) }
    ensures err { OnErr result ((rest : List ℕ) → reader.old.rest ≢ head_of letter ++ rest) }
    ensures end { reader.new.end ≡ reader.old.end }
    ensures fault { IfErr result (IsHeadFault letter reader.old.end reader.old.rest) }
{
    expect(reader, b'K', DecodeFault::BadMagic(0))?;
    expect(reader, b'T', DecodeFault::BadMagic(1))?;
    expect(reader, b'S', DecodeFault::BadMagic(2))?;
    expect(reader, letter, DecodeFault::BadMagic(3))?;
    expect(reader, 2, DecodeFault::BadVersion(4))
}

/// The checksum, and nothing behind it.
pub(crate) fn read_seal(reader: &mut Reader<'_>, sum: u32) -> Result<(), DecodeFault>
    ensures ok { OnOk result (reader.old.rest ≡ to_be_bytes w32 sum) }
    ensures err { OnErr result (reader.old.rest ≢ to_be_bytes w32 sum) }
    ensures fault { IfErr result (IsSealFault reader.old.end reader.old.rest sum) }
{
    let place = reader.place();
    let found = reader.take(4)?;
    if found != sum.to_be_bytes().as_slice() {
        return Err(DecodeFault::BadChecksum(place));
    }
    if reader.rest_len() > 0 {
        return Err(DecodeFault::NotCanonical(reader.place()));
    }
    Ok(())
}

// Writer, start, time and points.
fn read_written(
    alloc: Global,
    reader: &mut Reader<'_>,
) -> Result<(WriterId, (u64, (u64, Seq<ExportPoint>))), DecodeFault>
    ensures found { Reads fields IsFields reader.old.rest result reader.new.rest }
    ensures value { IfOk result IsFields }
    ensures end { reader.new.end ≡ reader.old.end }
    ensures fault { IfErr result (IsReadFault reader.old.end) }
{
    let mut history = History::new(alloc)?;
    <(WriterId, (u64, (u64, Seq<ExportPoint>)))>::read_behind(reader, &mut history)
}

// The same of all bytes, between head and checksum.
fn read_fields(
    alloc: Global,
    bytes: &[u8],
) -> Result<(WriterId, (u64, (u64, Seq<ExportPoint>))), DecodeFault>
    ensures ok { IfOk result (λ p. bytes.now ≡ bytes_of_fields p) }
    ensures value { IfOk result IsFields }
    ensures err { IfErr result (λ f. f ≢ faults.NoMemory → (p : Fields) → IsFields p → bytes.now ≢ bytes_of_fields p) }
    ensures fault { IfErr result (λ f. IsFieldsFault head fields bytes.now f) }
{
    let mut reader = Reader::new(alloc, bytes);
    read_head(&mut reader, b'K')?;
    let fields = read_written(alloc, &mut reader)?;
    let (body, _) = bytes.split_at(bytes.len() - reader.rest_len());
    read_seal(&mut reader, checksum(body))?;
    Ok(fields)
}

/// The export whose bytes these are, in the one form that docs/design/BYTES.md tells.
///
/// What is read is sound as `Export::build` has it. A fault other than `NoMemory` comes only where these are the bytes of
/// no export. O(n) in the bytes, whatever they are, as docs/design/BYTES.md counts it ("Time."): texts that are new are looked up,
/// and `Export::build` puts the hashes of keys in order. Memory for at most a fixed number of values for each byte: a
/// number of values or bytes is compared with the bytes that are left before it is used, and [`crate::weighs_no_more`] says
/// what is held in the end.
pub fn decode_export(alloc: Global, bytes: &[u8]) -> Result<Export, DecodeFault>
    // What is read has these bytes.
    ensures ok { IfOk result (λ e. bytes_of e ≡ bytes.now) }
    // It is an export: its numbers have the sizes of their types, and its texts are UTF-8.
    ensures value { IfOk result IsExport }
    // What each fault says of the bytes.
    ensures fault { IfErr result (Explains bytes.now) }
    // The export that has these bytes is read, or there is no memory.
    ensures found { (e : Export) → IsExport e → bytes.now ≡ bytes_of e → GivesBack result e }
{
    let (writer, (start, (time, points))) = read_fields(alloc, bytes)?;
    Ok(Export::build(alloc, writer, start, time, points)?)
}
