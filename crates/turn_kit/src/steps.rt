//! The atomic steps of a turn. Each function makes one, on one word of the table.
ghost use Rattle.std.specs.Prelude.{◌≡◌, [], true, Some};
ghost use Rattle.turn_kit.specs.declared.knowledge.Stage.TheVariants.{Idle};
ghost use Rattle.turn_kit.specs.TableSeats.{IsAt, IsIdle, IsSameTableSeat, Asks, HasTurn, SeesAll};
ghost use Rattle.turn_kit.specs.TableSeats.{HasRoom, Grows, IsWhole, IsMade, HasSeatLeft, Draws, HasDrawn};

use crate::board::{CHANGES, MADE, OUT, TURN, TableSeat, Top};
use crate::giving::GiveBack;
use crate::machine::Machine;
use crate::plays::{Ask, ChangeEntry, Commit, Count, CountOut, Draw, Give, LookMade};

/// Nobody holds the turn.
const FREE: u64 = 0;

/// The turn is held.
const HELD: u64 = 1;

/// The turn is held, and threads sleep until it is given back.
pub(crate) const AWAITED: u32 = 2;

/// Asks for the turn once, and says whether it is had.
pub(crate) fn ask<M: Machine>(top: &Top<M>, table_seat: &mut TableSeat<M>) -> bool
    requires table_seat { IsAt top.now.table_id table_seat.old }
    requires idle { IsIdle table_seat.old }
    ensures table_seat { IsSameTableSeat table_seat.old table_seat.new }
    ensures turn { Asks M.state M.after result table_seat.old.me table_seat.new.me }
{
    top.compare_exchange::<Ask>(table_seat, TURN, FREE, HELD) == FREE
}

/// Asks for the turn, notes that it is awaited, and says whether it is had.
pub(crate) fn ask_and_await<M: Machine>(top: &Top<M>, table_seat: &mut TableSeat<M>) -> bool
    requires table_seat { IsAt top.now.table_id table_seat.old }
    requires idle { IsIdle table_seat.old }
    ensures table_seat { IsSameTableSeat table_seat.old table_seat.new }
    ensures turn { Asks M.state M.after result table_seat.old.me table_seat.new.me }
{
    top.swap::<Ask>(table_seat, TURN, AWAITED as u64) == FREE
}

/// The number of changes, all of which the holder has then seen.
pub(crate) fn count<M: Machine>(top: &Top<M>, table_seat: &mut TableSeat<M>) -> u64
    requires table_seat { IsAt top.now.table_id table_seat.old }
    requires turn { HasTurn M.state M.after table_seat.old.me }
    ensures table_seat { IsSameTableSeat table_seat.old table_seat.new }
    ensures told { SeesAll M.state M.after table_seat.old.me result table_seat.new.me }
{
    top.load::<Count>(table_seat, CHANGES)
}

/// Adds the entry of a change to the history. Snapshots of what it was changed by give the entry.
pub(crate) fn commit<M: Machine, B, J: ChangeEntry<M::Entry>>(
    top: &Top<M>,
    table_seat: &mut TableSeat<M>,
    by: &B,
)
    requires entry { (e : M.Entry) × (J.entry ≡ Some e) }
    requires table_seat { IsAt top.now.table_id table_seat.old }
    requires seated { table_seat.old.me.0.who.seated ≡ true }
    requires room { HasRoom table_seat.old.me }
    ensures table_seat { IsSameTableSeat table_seat.old table_seat.new }
    ensures told { (e : M.Entry) → J.entry ≡ Some e → Grows e table_seat.old.me table_seat.new.me }
{
    let _ = by;
    top.fetch_add::<Commit<J>>(table_seat, CHANGES, 1);
}

/// Gives back the machine and the turn.
pub(crate) fn give<G: GiveBack, M: Machine>(top: &Top<M>, table_seat: &mut TableSeat<M>)
    requires table_seat { IsAt top.now.table_id table_seat.old }
    requires seated { table_seat.old.me.0.who.seated ≡ true }
    requires whole { IsWhole M.state M.after table_seat.old.me }
    ensures table_seat { IsSameTableSeat table_seat.old table_seat.new }
    ensures told { table_seat.new.me ≡ (record table_seat.old.me.0 { stage = Idle }, []) }
{
    if top.swap::<Give>(table_seat, TURN, FREE) == AWAITED as u64 {
        G::wake(top);
    }
}

/// How many seats were made.
pub(crate) fn seats_made<M: Machine>(top: &Top<M>, table_seat: &mut TableSeat<M>) -> u64
    requires table_seat { IsAt top.now.table_id table_seat.old }
    requires turn { HasTurn M.state M.after table_seat.old.me }
    ensures table_seat { IsSameTableSeat table_seat.old table_seat.new }
    ensures known { table_seat.new.me ≡ (record table_seat.old.me.0 { made = result }, table_seat.old.me.1) }
    ensures told { IsMade table_seat.old.me result }
{
    top.load::<LookMade>(table_seat, MADE)
}

/// Draws the number for a new seat.
pub(crate) fn draw<M: Machine>(top: &Top<M>, table_seat: &mut TableSeat<M>)
    requires table_seat { IsAt top.now.table_id table_seat.old }
    requires turn { HasTurn M.state M.after table_seat.old.me }
    requires room { HasSeatLeft table_seat.old.me }
    ensures table_seat { IsSameTableSeat table_seat.old table_seat.new }
    ensures told { Draws table_seat.old.me table_seat.new.me }
{
    top.fetch_add::<Draw>(table_seat, MADE, 1);
}

/// Counts the new seat out.
pub(crate) fn count_out<M: Machine>(top: &Top<M>, table_seat: &mut TableSeat<M>)
    requires table_seat { IsAt top.now.table_id table_seat.old }
    requires drawn { HasDrawn table_seat.old.me.0.who }
    ensures table_seat { IsSameTableSeat table_seat.old table_seat.new }
    ensures told { let w = record table_seat.old.me.0.who { weight = 2; credit = 0 } in
        table_seat.new.me ≡ (record table_seat.old.me.0 { who = w }, table_seat.old.me.1) }
{
    top.fetch_add::<CountOut>(table_seat, OUT, 1);
}
