//! Keys behind one another: what a key shares with the one before it is not written again.
ghost use Rattle.std.specs.Prelude.{◌≡◌, ◌≢◌, ◌++◌, IfErr, IfOk, OnOk};
ghost use Rattle.bytes_kit.specs.Explaining.{IsReadFault};
ghost use Rattle.bytes_kit.specs.KeyForms.{Inherits, IsAny, IsKeyLike, IsKeyRest, key_before, key_at};
ghost use Rattle.bytes_kit.specs.MessageFits.{IsKey};
ghost use Rattle.bytes_kit.specs.Messages.{common, common_form, common_fields, key, past_key, key_rest, past_rest};
ghost use Rattle.bytes_kit.specs.Reading.{Reads, NoneAt};
ghost use Rattle.bytes_kit.specs.declared.fault.DecodeFault.TheVariants as faults;

use crate::DecodeFault;
use crate::history::History;
use crate::light::{is_light, is_short};
use crate::passage::Passage;
use crate::piece::Piece;
use crate::reader::Reader;
use attr_kit::{AttrSet, NoMemory};
use gateway_kit::PointRef;
use point_kit::{Key, Stream, WriterId};

/// What a key shares with the one before it: nothing that counts, writer and start, or its stream too.
#[derive(Clone, Copy, PartialEq, Eq)]
pub(crate) enum Shared {
    Nothing,
    Incarnation,
    Stream,
}

// What writer, start and stream of a key share with the key of the point before it.
fn common(before: Option<PointRef<'_>>, writer: &WriterId, start: u64, stream: &Stream) -> Shared
    ensures { result ≡ common_fields (key_before before.entry) writer.now start stream.now }
{
    let Some(before) = before else {
        return Shared::Nothing;
    };
    if *before.writer != *writer || before.start != start || !is_short(&writer.service) {
        return Shared::Nothing;
    }
    if *before.stream == *stream && is_light(stream) {
        Shared::Stream
    } else {
        Shared::Incarnation
    }
}

fn write_rest(
    shared: Shared,
    point: PointRef<'_>,
    history: &mut History,
    out: &mut Vec<u8>,
) -> Result<(), NoMemory>
    ensures written { OnOk result
        (out.new.items ≡ out.old.items ++ (common_form shared ++ key_rest history.old shared (key_at point.entry))) }
    ensures history { OnOk result (history.new ≡ past_rest history.old shared (key_at point.entry)) }
    ensures value { OnOk result (IsKeyRest shared (key_at point.entry)) }
{
    match shared {
        Shared::Nothing => {
            out.push(0)?;
            point.writer.write_behind(history, out)?;
            point.start.write(out)?;
            point.stream.write_behind(history, out)?;
            point.attrs.write_behind(history, out)
        }
        Shared::Incarnation => {
            out.push(1)?;
            point.stream.write_behind(history, out)?;
            point.attrs.write_behind(history, out)
        }
        Shared::Stream => {
            out.push(2)?;
            point.attrs.write_behind(history, out)
        }
    }
}

/// The key of a point behind that of the point before it.
pub(crate) fn write_key(
    before: Option<PointRef<'_>>,
    point: PointRef<'_>,
    history: &mut History,
    out: &mut Vec<u8>,
) -> Result<(), NoMemory>
    ensures written { OnOk result (out.new.items ≡ out.old.items ++ key (history.old, key_before before.entry) (key_at point.entry)) }
    ensures history { OnOk result (history.new ≡ past_key (history.old, key_before before.entry) (key_at point.entry)) }
    ensures value { OnOk result (IsKeyRest (common (key_before before.entry) (key_at point.entry)) (key_at point.entry)) }
{
    let shared = common(before, point.writer, point.start, point.stream);
    write_rest(shared, point, history, out)
}

fn read_shared(reader: &mut Reader<'_>) -> Result<Shared, DecodeFault>
    ensures found { Reads common_form IsAny reader.old.rest result reader.new.rest }
    ensures end { reader.new.end ≡ reader.old.end }
    ensures fault { IfErr result (IsReadFault reader.old.end) }
{
    let place = reader.place();
    match reader.byte()? {
        0 => Ok(Shared::Nothing),
        1 => Ok(Shared::Incarnation),
        2 => Ok(Shared::Stream),
        _ => Err(DecodeFault::NotCanonical(place)),
    }
}

// A key of which nothing is known.
fn read_whole(reader: &mut Reader<'_>, history: &mut History) -> Result<Key, DecodeFault>
    ensures found { Reads (key_rest history.old Shared.Nothing) IsKey reader.old.rest result reader.new.rest }
    ensures value { IfOk result IsKey }
    ensures history { IfOk result (λ k. history.new ≡ past_rest history.old Shared.Nothing k) }
    ensures end { reader.new.end ≡ reader.old.end }
    ensures fault { IfErr result (IsReadFault reader.old.end) }
{
    let (writer, (start, (stream, attrs))) = <(WriterId, (u64, (Stream, AttrSet)))>::read_behind(
        reader, history,
    )?;
    Ok(Key {
        writer,
        start,
        stream,
        attrs,
    })
}

// A key of a known incarnation.
fn read_stream(
    before: PointRef<'_>,
    reader: &mut Reader<'_>,
    history: &mut History,
) -> Result<Key, DecodeFault>
    ensures found { Reads (key_rest history.old Shared.Incarnation) IsKey reader.old.rest result reader.new.rest }
    ensures value { IfOk result (IsKeyRest Shared.Incarnation) }
    ensures history { IfOk result (λ k. history.new ≡ past_rest history.old Shared.Incarnation k) }
    ensures inherits { IfOk result (Inherits (key_before (Some before.entry)) Shared.Incarnation) }
    ensures end { reader.new.end ≡ reader.old.end }
    ensures fault { IfErr result (IsReadFault reader.old.end) }
{
    let (stream, attrs) = <(Stream, AttrSet)>::read_behind(reader, history)?;
    Ok(Key {
        writer: before.writer.try_copy()?,
        start: before.start,
        stream,
        attrs,
    })
}

// A key of a known stream.
fn read_attrs(
    before: PointRef<'_>,
    reader: &mut Reader<'_>,
    history: &mut History,
) -> Result<Key, DecodeFault>
    ensures found { Reads (key_rest history.old Shared.Stream) IsKey reader.old.rest result reader.new.rest }
    ensures value { IfOk result (IsKeyRest Shared.Stream) }
    ensures history { IfOk result (λ k. history.new ≡ past_rest history.old Shared.Stream k) }
    ensures inherits { IfOk result (Inherits (key_before (Some before.entry)) Shared.Stream) }
    ensures end { reader.new.end ≡ reader.old.end }
    ensures fault { IfErr result (IsReadFault reader.old.end) }
{
    let attrs = AttrSet::read_behind(reader, history)?;
    Ok(Key {
        writer: before.writer.try_copy()?,
        start: before.start,
        stream: before.stream.try_copy()?,
        attrs,
    })
}

// What a key does not share with the one before it, and from there what it does.
fn read_rest(
    shared: Shared,
    before: Option<PointRef<'_>>,
    reader: &mut Reader<'_>,
    history: &mut History,
) -> Result<Key, DecodeFault>
    ensures ok { IfOk result (λ k. reader.old.rest ≡ key_rest history.old shared k ++ reader.new.rest) }
    ensures value { IfOk result (IsKeyRest shared) }
    ensures history { IfOk result (λ k. history.new ≡ past_rest history.old shared k) }
    ensures inherits { IfOk result (Inherits (key_before before.entry) shared) }
    ensures err { IfErr result
        (λ f. f ≢ faults.NoMemory → NoneAt (key_rest history.old shared) (IsKeyLike (key_before before.entry) shared) reader.old.rest) }
    ensures end { reader.new.end ≡ reader.old.end }
    ensures fault { IfErr result (IsReadFault reader.old.end) }
{
    match (shared, before) {
        (Shared::Nothing, _) => read_whole(reader, history),
        (Shared::Incarnation, Some(before)) => read_stream(before, reader, history),
        (Shared::Stream, Some(before)) => read_attrs(before, reader, history),
        (_, None) => Err(DecodeFault::NotCanonical(reader.place())),
    }
}

/// The key that comes next, behind that of the point before it.
pub(crate) fn read_key(
    before: Option<PointRef<'_>>,
    reader: &mut Reader<'_>,
    history: &mut History,
) -> Result<Key, DecodeFault>
    ensures found { Reads (key (history.old, key_before before.entry)) IsKey reader.old.rest result reader.new.rest }
    ensures value { IfOk result (λ k. IsKeyRest (common (key_before before.entry) k) k) }
    ensures history { IfOk result (λ k. history.new ≡ past_key (history.old, key_before before.entry) k) }
    ensures end { reader.new.end ≡ reader.old.end }
    ensures fault { IfErr result (IsReadFault reader.old.end) }
{
    let place = reader.place();
    let shared = read_shared(reader)?;
    let key = read_rest(shared, before, reader, history)?;
    if common(before, &key.writer, key.start, &key.stream) != shared {
        return Err(DecodeFault::NotCanonical(place));
    }
    Ok(key)
}
