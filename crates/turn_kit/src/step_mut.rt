//! Changes that are made with a value which the caller keeps.
ghost use Rattle.std.specs.Prelude.{◌≡◌, [], ◌∷◌, true, Some, IfOk, IfErr, OnOk, OnErr};
ghost use Rattle.turn_kit.specs.TableSeats.{IsAnswer, Grows, HasRoom, HasTurn, IsAt, IsIdle, IsSameTableSeat, Owns, StepsTo};
ghost use Rattle.turn_kit.specs.Public.{IsOf, IsLeft, Enters, Exhausts, Refuses, opening, limit_of};
ghost use Rattle.turn_kit.specs.Public.{AtBusy, AtExhausted, AtRefused};

use crate::board::{MACHINE, TableSeat, Top};
use crate::fault::ChangeFault;
use crate::giving::{GiveBack, Waking};
use crate::machine::Machine;
use crate::seat::Seat;
use crate::steps::{ask, commit, count, give};
use crate::turn::Turn;
use crate::waits::ask_until;
use std::marker::Brand;
use std::snapshot::Snapshot;
use std::sync::Wait;

/// One change that is made with a value which its caller keeps, while the turn is held.
///
/// `Ok` is one accepted entry, which the value before the change and the value after it tell together: so a step that takes as much as
/// it can of the value enters what it took. `Err` leaves the state and the value as they were.
pub trait StepMut<M: Machine> {
    type Reply;

    type Refusal;

    // The entry that the step adds to the history where it is accepted, by the value before and after.
    ghost entry: { Self → Self → M.Entry };

    // What it may reply, with the value that it leaves, and how it may refuse, where it found the machine so.
    ghost replies: { Self → M → Self.Reply → Self → Type 0 };

    ghost refuses: { Self → M → Self.Refusal → Type 0 };

    fn step_mut(&mut self, machine: &mut M) -> Result<Self::Reply, Self::Refusal>
        ensures accepted { OnOk result (M.after (M.state machine.old) (entry self.old self.new) ≡ Some (M.state machine.new)) }
        ensures ok { IfOk result (λ r. replies self.old machine.old r self.new) }
        ensures unchanged { OnErr result (M.state machine.new ≡ M.state machine.old) }
        ensures kept { OnErr result (self.new ≡ self.old) }
        ensures err { IfErr result (refuses self.old machine.old) };
}

/// Makes the step on the machine where it lies, with the value that is kept.
fn step_in_place_mut<M: Machine, T: StepMut<M>>(
    top: &Top<M>,
    table_seat: &mut TableSeat<M>,
    step: &mut T,
) -> Result<T::Reply, T::Refusal>
    requires table_seat { table_seat.old.table_id ≡ top.now.table_id }
    requires hand { (x : M) × (table_seat.old.me.1 ≡ (0, x) ∷ []) }
    ensures table_seat { IsSameTableSeat table_seat.old table_seat.new }
    ensures did { StepsTo M.state M.after (T.entry step.old step.new) (λ m r. T.replies step.old m r step.new) (T.refuses step.old)
        table_seat.old.me table_seat.new.me result }
    ensures kept { OnErr result (step.new ≡ step.old) }
{
    step.step_mut(table_seat.slot_mut(top, MACHINE))
}

/// Makes the step with the value that is kept, where the limit leaves room for one more, and gives the turn back.
fn change_held_mut<G: GiveBack, M: Machine, T: StepMut<M>>(
    top: &Top<M>,
    table_seat: &mut TableSeat<M>,
    limit: u64,
    step: &mut T,
) -> Result<T::Reply, ChangeFault<T::Refusal>>
    requires table_seat { IsAt top.now.table_id table_seat.old }
    requires limit { limit ≡ table_seat.old.me.0.limit }
    requires turn { HasTurn M.state M.after table_seat.old.me }
    ensures table_seat { IsSameTableSeat table_seat.old table_seat.new × IsIdle table_seat.new }
    ensures own { Owns table_seat.new.me.0 }
    ensures answer { IsAnswer M.state M.after ⊥ table_seat.old.me.0 table_seat.new.me.0
        (T.entry step.old step.new) (λ m r. T.replies step.old m r step.new) (T.refuses step.old) result }
    ensures kept { OnErr result (step.new ≡ step.old) }
{
    if count(top, table_seat) >= limit {
        give::<G, _>(top, table_seat);
        return Err(ChangeFault::Exhausted);
    }
    let before = Snapshot::of(&*step);
    match step_in_place_mut(top, table_seat, step) {
        Ok(reply) => {
            let by = (before, Snapshot::of(&*step));
            commit::<M, (Snapshot<T>, Snapshot<T>), Brand>(top, table_seat, &by);
            give::<G, _>(top, table_seat);
            Ok(reply)
        }
        Err(refusal) => {
            give::<G, _>(top, table_seat);
            Err(ChangeFault::Refused(refusal))
        }
    }
}

impl<M: Machine, G: GiveBack> Turn<M, G> {
    /// Asks for the turn once, and makes the step with a value that the caller keeps where it is had, as `try_change` does.
    ///
    /// Refused as `try_change` is. The value is as it was then.
    pub fn try_change_mut<T: StepMut<M>>(
        &self,
        seat: &mut Seat<M>,
        step: &mut T,
    ) -> Result<T::Reply, ChangeFault<T::Refusal>>
        requires { IsOf self.now seat.old }
        ensures seat { IsOf self.now seat.new }
        ensures ok { IfOk result (λ r. Enters M.state M.after (opening self.now) (limit_of self.now)
            (T.entry step.old step.new) (λ m. T.replies step.old m r step.new) seat.old seat.new) }
        ensures kept { OnErr result (step.new ≡ step.old) }
        ensures busy { IfErr result (AtBusy (IsLeft seat.old seat.new)) }
        ensures exhausted { IfErr result (AtExhausted (Exhausts M.state M.after (opening self.now)
            (limit_of self.now) seat.old seat.new)) }
        ensures refused { IfErr result (AtRefused (λ r. Refuses M.state M.after (opening self.now)
            (limit_of self.now) (λ m. T.refuses step.old m r) seat.old seat.new)) }
    {
        let top = &self.board.shared;
        if !ask(top, &mut seat.table_seat) {
            return Err(ChangeFault::Busy);
        }
        change_held_mut::<G, _, _>(top, &mut seat.table_seat, self.limit, step)
    }
}

impl<M: Machine> Turn<M> {
    /// Asks for the turn until it is had, and then makes the step with a value that the caller keeps, once.
    ///
    /// Refused as `change` is. The value is as it was then.
    pub fn change_mut<T: StepMut<M>, R: Wait>(
        &self,
        rt: &R,
        seat: &mut Seat<M>,
        step: &mut T,
    ) -> Result<T::Reply, ChangeFault<T::Refusal>>
        requires { IsOf self.now seat.old }
        ensures seat { IsOf self.now seat.new }
        ensures ok { IfOk result (λ r. Enters M.state M.after (opening self.now) (limit_of self.now)
            (T.entry step.old step.new) (λ m. T.replies step.old m r step.new) seat.old seat.new) }
        ensures kept { OnErr result (step.new ≡ step.old) }
        ensures busy { IfErr result (AtBusy ⊥) }
        ensures exhausted { IfErr result (AtExhausted (Exhausts M.state M.after (opening self.now)
            (limit_of self.now) seat.old seat.new)) }
        ensures refused { IfErr result (AtRefused (λ r. Refuses M.state M.after (opening self.now)
            (limit_of self.now) (λ m. T.refuses step.old m r) seat.old seat.new)) }
    {
        let top = &self.board.shared;
        ask_until(rt, top, &mut seat.table_seat);
        change_held_mut::<Waking, _, _>(top, &mut seat.table_seat, self.limit, step)
    }
}
