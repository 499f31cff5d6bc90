//! What the holder of the turn does before it gives the turn back. The machine lies in its slot throughout.
ghost use Rattle.std.specs.Prelude.{◌≡◌, ℕ, [], ◌∷◌, IfSome, IfNone};
ghost use Rattle.turn_kit.specs.TableSeats.{IsAt, IsIdle, Owns, IsSameTableSeat, HasTurn, StepsTo, IsAnswer, AfterLook, WasSplit, WasFull};

use crate::board::{MACHINE, TableSeat, Top};
use crate::fault::ChangeFault;
use crate::giving::GiveBack;
use crate::look::Look;
use crate::machine::Machine;
use crate::plays::Cut;
use crate::step::Step;
use crate::steps::{commit, count, count_out, draw, give, seats_made};
use std::marker::Brand;
use std::snapshot::Snapshot;

/// The most seats that a turn makes in its life, the first included.
const MOST_SEATS: u64 = 4096;

/// Makes the step on the machine where it lies.
fn step_in_place<M: Machine, T: Step<M>>(
    top: &Top<M>,
    table_seat: &mut TableSeat<M>,
    step: T,
) -> Result<T::Reply, T::Refusal>
    requires table_seat { table_seat.old.table_id ≡ top.now.table_id }
    requires hand { (x : M) × (table_seat.old.me.1 ≡ (0, x) ∷ []) }
    ensures table_seat { IsSameTableSeat table_seat.old table_seat.new }
    ensures did { StepsTo M.state M.after (T.entry step) (T.replies step) (T.refuses step) table_seat.old.me table_seat.new.me result }
{
    step.step(table_seat.slot_mut(top, MACHINE))
}

/// Looks at the machine where it lies.
fn look_in_place<M: Machine, T: Look<M>>(
    top: &Top<M>,
    table_seat: &mut TableSeat<M>,
    look: T,
) -> T::Answer
    requires table_seat { table_seat.old.table_id ≡ top.now.table_id }
    requires hand { (x : M) × (table_seat.old.me.1 ≡ (0, x) ∷ []) }
    ensures table_seat { IsSameTableSeat table_seat.old table_seat.new × (table_seat.new.me ≡ table_seat.old.me) }
    ensures answer { (x : M) × (table_seat.old.me.1 ≡ (0, x) ∷ []) × T.answers look x result }
{
    look.look(&*table_seat.slot_mut(top, MACHINE))
}

/// Makes the step, where the limit leaves room for one more, and gives the turn back.
pub(crate) fn change_held<G: GiveBack, M: Machine, T: Step<M>>(
    top: &Top<M>,
    table_seat: &mut TableSeat<M>,
    limit: u64,
    step: T,
) -> Result<T::Reply, ChangeFault<T::Refusal>>
    requires table_seat { IsAt top.now.table_id table_seat.old }
    requires limit { limit ≡ table_seat.old.me.0.limit }
    requires turn { HasTurn M.state M.after table_seat.old.me }
    ensures table_seat { IsSameTableSeat table_seat.old table_seat.new × IsIdle table_seat.new }
    ensures own { Owns table_seat.new.me.0 }
    ensures answer { IsAnswer M.state M.after ⊥ table_seat.old.me.0 table_seat.new.me.0
        (T.entry step) (T.replies step) (T.refuses step) result }
{
    if count(top, table_seat) >= limit {
        give::<G, _>(top, table_seat);
        return Err(ChangeFault::Exhausted);
    }
    let before = Snapshot::of(&step);
    match step_in_place(top, table_seat, step) {
        Ok(reply) => {
            commit::<M, Snapshot<T>, Brand>(top, table_seat, &before);
            give::<G, _>(top, table_seat);
            Ok(reply)
        }
        Err(refusal) => {
            give::<G, _>(top, table_seat);
            Err(ChangeFault::Refused(refusal))
        }
    }
}

/// Looks at the machine, and gives the turn back.
pub(crate) fn look_held<G: GiveBack, M: Machine, T: Look<M>>(
    top: &Top<M>,
    table_seat: &mut TableSeat<M>,
    look: T,
) -> T::Answer
    requires table_seat { IsAt top.now.table_id table_seat.old }
    requires turn { HasTurn M.state M.after table_seat.old.me }
    ensures table_seat { IsSameTableSeat table_seat.old table_seat.new × IsIdle table_seat.new }
    ensures own { Owns table_seat.new.me.0 }
    ensures answer { (m : M) × AfterLook M.state M.after table_seat.old.me.0 table_seat.new.me.0 m × T.answers look m result }
{
    count(top, table_seat);
    let answer = look_in_place(top, table_seat, look);
    give::<G, _>(top, table_seat);
    answer
}

/// Makes a new seat, where the turn has made fewer than it may, and gives the turn back.
pub(crate) fn split_held<G: GiveBack, M: Machine>(
    top: &Top<M>,
    table_seat: &mut TableSeat<M>,
) -> Option<TableSeat<M>>
    requires table_seat { IsAt top.now.table_id table_seat.old }
    requires turn { HasTurn M.state M.after table_seat.old.me }
    requires own { Owns table_seat.old.me.0 }
    ensures table_seat { IsSameTableSeat table_seat.old table_seat.new × IsIdle table_seat.new }
    ensures own { Owns table_seat.new.me.0 }
    ensures full { IfNone result (WasFull table_seat.old.me.0 table_seat.new.me.0) }
    ensures new { IfSome result (λ p. p.table_id ≡ table_seat.old.table_id) }
    ensures split { IfSome result (λ p. (n : ℕ) × WasSplit n table_seat.old.me.0 table_seat.new.me.0 p.me) }
{
    if seats_made(top, table_seat) >= MOST_SEATS {
        give::<G, _>(top, table_seat);
        return None;
    }
    draw(top, table_seat);
    count_out(top, table_seat);
    let new = top.split_seat::<Cut>(table_seat);
    give::<G, _>(top, table_seat);
    Some(new)
}
