//! What becomes of a cell when another is joined in.
ghost use Rattle.std.specs.Prelude.{◌≡◌, IfOk, IsTrue, ◌↔◌, ◌≢◌, option_copied, ◌<◌, nat_lt};
ghost use Rattle.point_kit.specs.Join.{join_held};
ghost use Rattle.point_kit.specs.Equality.{payload_eq};
ghost use Rattle.gateway_kit.specs.Changing.{IsUpdate, held_as};
ghost use Rattle.gateway_kit.specs.Tallies.{conflict, rank};

use attr_kit::{NoMemory, TryCopy};
use point_kit::{Cell, Held, Payload};
use std::alloc::AllocError;

/// 1 where different payloads came at the time of a cell, else 0.
pub(crate) fn conflict_of(cell: &Cell) -> u64
    ensures { result ≡ conflict cell.now }
{
    match &cell.held {
        Held::One(_) => 0,
        Held::Conflict => 1,
    }
}

/// Whether a cell is further than one that is held: later, or a conflict of its time where none is held.
pub(crate) fn is_further(cell: &Cell, held: &Cell) -> bool
    ensures { result ≡ nat_lt (rank held.now) (rank cell.now) }
{
    if held.time == cell.time {
        conflict_of(held) < conflict_of(cell)
    } else {
        held.time < cell.time
    }
}

/// The payload, or that there are several.
pub(crate) fn copy_held(payload: Option<&Payload>) -> Result<Held, NoMemory>
    ensures { IfOk result (λ held. held ≡ held_as (option_copied payload.entry)) }
{
    match payload {
        Some(payload) => Ok(Held::One(payload.try_copy()?)),
        None => Ok(Held::Conflict),
    }
}

/// The payload of a cell, none where there are several.
pub(crate) fn payload_of(cell: &Cell) -> Option<&Payload>
    ensures { held_as (option_copied result) ≡ cell.now.held }
{
    match &cell.held {
        Held::One(payload) => Some(payload),
        Held::Conflict => None,
    }
}

// Whether what is held is another when a payload of its time comes in.
fn clashes(held: &Held, payload: Option<&Payload>) -> bool
    ensures { IsTrue result ↔ (join_held payload_eq held.now (held_as (option_copied payload.entry)) ≢ held.now) }
{
    match (held, payload) {
        (Held::One(mine), Some(theirs)) => mine != theirs,
        (Held::One(_), None) => true,
        (Held::Conflict, _) => false,
    }
}

/// What a cell becomes when another is joined in: nothing where it stays as it is. Copies what comes in, or nothing.
pub(crate) fn update_of(
    mine: &Cell,
    time: u64,
    payload: Option<&Payload>,
) -> Result<Option<Cell>, NoMemory>
    ensures { IfOk result (λ update. IsUpdate mine.now (record { time = time; held = held_as (option_copied payload.entry) }) update) }
{
    if time < mine.time {
        return Ok(None);
    }
    if mine.time < time {
        let held = copy_held(payload)?;
        return Ok(Some(Cell { time, held }));
    }
    if clashes(&mine.held, payload) {
        return Ok(Some(Cell {
            time,
            held: Held::Conflict,
        }));
    }
    Ok(None)
}

/// What a cell becomes when another is joined in: nothing where it stays as it is. Takes no memory.
pub(crate) fn joined_cell(mine: &Cell, theirs: Cell) -> Option<Cell>
    ensures { IsUpdate mine.now theirs result }
{
    if theirs.time < mine.time {
        return None;
    }
    if mine.time < theirs.time {
        return Some(theirs);
    }
    if clashes(&mine.held, payload_of(&theirs)) {
        return Some(Cell {
            time: theirs.time,
            held: Held::Conflict,
        });
    }
    None
}
