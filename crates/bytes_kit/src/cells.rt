//! Cells under their keys, in the order of the keys.
ghost use Rattle.std.specs.Prelude.{◌≡◌, ◌++◌, length, IfErr, IfOk, OnOk};
ghost use Rattle.std.specs.FinMap.Entries.{is_sorted};
ghost use Rattle.gateway_kit.specs.Walks.{keyed_cell_of_ref, points_left};
ghost use Rattle.point_kit.specs.Orders.{key_cmp};
ghost use Rattle.bytes_kit.specs.Explaining.{IsReadFault};
ghost use Rattle.bytes_kit.specs.KeyForms.{IsKeyRest, key_at, key_before};
ghost use Rattle.bytes_kit.specs.MessageFits.{IsCell, IsCells, IsEntry, IsHeld, IsListed};
ghost use Rattle.bytes_kit.specs.MessageLaws.{cell_code, cell_bytes, payload_or_conflict_code, payload_or_conflict_bytes};
ghost use Rattle.bytes_kit.specs.Messages.{cell, cells, common, entry, past_key, payload_or_conflict, last_key};
ghost use Rattle.bytes_kit.specs.Reading.{Reads};

use crate::DecodeFault;
use crate::history::History;
use crate::keys::{read_key, write_key};
use crate::piece::Piece;
use crate::pieces::room;
use crate::reader::Reader;
use attr_kit::{NoMemory, Seq};
use gateway_kit::{PointRef, Points};
use point_kit::{Cell, Held, Key, Payload};

// What is written of a conflict, where else a payload's first byte stands.
const CONFLICT: u8 = 4;

impl Piece for Held {
    ghost code = { payload_or_conflict };

    ghost is_value = { IsHeld };

    fn write(&self, out: &mut Vec<u8>) -> Result<(), NoMemory> {
        match self {
            Held::One(payload) => payload.write(out),
            Held::Conflict => {
                out.push(CONFLICT)?;
                Ok(())
            }
        }
    }

    fn read(reader: &mut Reader<'_>) -> Result<Held, DecodeFault> {
        if reader.passes(CONFLICT) {
            return Ok(Held::Conflict);
        }
        Ok(Held::One(Payload::read(reader)?))
    }

    ghost is_code = { payload_or_conflict_code };

    ghost has_bytes = { payload_or_conflict_bytes };
}

impl Piece for Cell {
    ghost code = { cell };

    ghost is_value = { IsCell };

    fn write(&self, out: &mut Vec<u8>) -> Result<(), NoMemory> {
        self.time.write(out)?;
        self.held.write(out)
    }

    fn read(reader: &mut Reader<'_>) -> Result<Cell, DecodeFault> {
        let (time, held) = <(u64, Held)>::read(reader)?;
        Ok(Cell { time, held })
    }

    ghost is_code = { cell_code };

    ghost has_bytes = { cell_bytes };
}

// A cell behind that of the point before it.
fn write_entry(
    before: Option<PointRef<'_>>,
    point: PointRef<'_>,
    history: &mut History,
    out: &mut Vec<u8>,
) -> Result<(), NoMemory>
    ensures written { OnOk result
        (out.new.items ≡ out.old.items ++ entry (history.old, key_before before.entry) (keyed_cell_of_ref point.entry)) }
    ensures history { OnOk result (history.new ≡ past_key (history.old, key_before before.entry) (key_at point.entry)) }
    ensures key { OnOk result (IsKeyRest (common (key_before before.entry) (key_at point.entry)) (key_at point.entry)) }
    ensures cell { OnOk result (IsCell (keyed_cell_of_ref point.entry).1) }
{
    write_key(before, point, history, out)?;
    point.cell.write(out)
}

/// So many points: how many there are, and each behind the one before it.
pub(crate) fn write_cells(
    points: Points<'_>,
    count: usize,
    out: &mut Vec<u8>,
) -> Result<(), NoMemory>
    requires { count ≡ length (points_left points) }
    ensures written { OnOk result (out.new.items ≡ out.old.items ++ cells (points_left points.entry)) }
    ensures value { OnOk result (IsListed (points_left points.entry)) }
{
    (count as u64).write(out)?;
    let mut history = History::new(*out.allocator())?;
    let mut before = None;
    for point in points {
        write_entry(before, point, &mut history, out)?;
        before = Some(point);
    }
    Ok(())
}

// The point that an entry is lent as.
fn lent(entry: &(Key, Cell)) -> PointRef<'_>
    ensures { keyed_cell_of_ref result ≡ entry.now }
{
    let (key, cell) = entry;
    PointRef {
        writer: &key.writer,
        start: key.start,
        stream: &key.stream,
        attrs: &key.attrs,
        cell,
    }
}

// The last of some cells.
#[tactic(auto, using(crate::proofs::Behind::last_is))]
fn last_point(entries: &[(Key, Cell)]) -> Option<PointRef<'_>>
    ensures { key_before result ≡ last_key entries.now }
{
    match entries.last() {
        Some(entry) => Some(lent(entry)),
        None => None,
    }
}

// The cell that comes next behind those that came.
fn read_entry(
    earlier: &[(Key, Cell)],
    reader: &mut Reader<'_>,
    history: &mut History,
) -> Result<(Key, Cell), DecodeFault>
    ensures found { Reads (entry (history.old, last_key earlier.now)) IsEntry reader.old.rest result reader.new.rest }
    ensures key { IfOk result (λ e. IsKeyRest (common (last_key earlier.now) e.0) e.0) }
    ensures cell { IfOk result (λ e. IsCell e.1) }
    ensures history { IfOk result (λ e. history.new ≡ past_key (history.old, last_key earlier.now) e.0) }
    ensures end { reader.new.end ≡ reader.old.end }
    ensures fault { IfErr result (IsReadFault reader.old.end) }
{
    let key = read_key(last_point(earlier), reader, history)?;
    let cell = Cell::read(reader)?;
    Ok((key, cell))
}

// So many cells, each behind the one before it.
fn read_listed(reader: &mut Reader<'_>) -> Result<Seq<(Key, Cell)>, DecodeFault>
    ensures found { Reads cells IsListed reader.old.rest result reader.new.rest }
    ensures value { IfOk result IsListed }
    ensures end { reader.new.end ≡ reader.old.end }
    ensures fault { IfErr result (IsReadFault reader.old.end) }
{
    let count = u64::read(reader)?;
    let count = reader.within(count)?;
    let mut history = History::new(reader.alloc())?;
    let mut items = room(reader, count)?;
    for _ in 0..count {
        let item = read_entry(items.as_slice(), reader, &mut history)?;
        items.push(item)?;
    }
    Ok(Seq::from_vec(items))
}

// Whether each key is below the next.
fn rises(entries: &[(Key, Cell)]) -> bool
    ensures { result ≡ is_sorted key_cmp entries.now }
{
    entries.is_sorted_by(|entry, next| entry.0.cmp(&next.0).is_lt())
}

/// The cells that come next, in the order of their keys.
pub(crate) fn read_cells(reader: &mut Reader<'_>) -> Result<Seq<(Key, Cell)>, DecodeFault>
    ensures found { Reads cells IsCells reader.old.rest result reader.new.rest }
    ensures value { IfOk result IsCells }
    ensures end { reader.new.end ≡ reader.old.end }
    ensures fault { IfErr result (IsReadFault reader.old.end) }
{
    let place = reader.place();
    let cells = read_listed(reader)?;
    if !rises(cells.as_slice()) {
        return Err(DecodeFault::NotCanonical(place));
    }
    Ok(cells)
}
