//! The calls that ask for the turn until they have it.
ghost use Rattle.std.specs.Prelude.{IfOk, IfErr};
ghost use Rattle.turn_kit.specs.TableSeats.{IsAt, IsIdle, IsSameTableSeat, Takes};
ghost use Rattle.turn_kit.specs.Public.{IsOf, Enters, Looks, Splits, IsFull, Exhausts, Refuses, opening, limit_of};
ghost use Rattle.turn_kit.specs.Public.{AtBusy, AtExhausted, AtRefused, AtSplitBusy, AtSeatsFull};

use crate::board::{TURN, TableSeat, Top};
use crate::fault::{ChangeFault, SplitFault};
use crate::giving::Waking;
use crate::held::{change_held, look_held, split_held};
use crate::look::Look;
use crate::machine::Machine;
use crate::seat::Seat;
use crate::step::Step;
use crate::steps::{AWAITED, ask, ask_and_await};
use crate::turn::Turn;
use std::sync::Wait;
use std::thread;

/// How often a thread asks, and lets others run, before it sleeps.
const ASKS: u32 = 100;

/// Asks for the turn until it is had.
///
/// A turn is mostly held for less than it takes to fall asleep and wake, so a thread asks some times first and
/// gives way each time, that the holder may run. Then it sleeps until the turn is given back.
pub(crate) fn ask_until<M: Machine, R: Wait>(rt: &R, top: &Top<M>, table_seat: &mut TableSeat<M>)
    requires table_seat { IsAt top.now.table_id table_seat.old }
    requires idle { IsIdle table_seat.old }
    ensures table_seat { IsSameTableSeat table_seat.old table_seat.new }
    ensures turn { Takes M.state M.after table_seat.old.me table_seat.new.me }
{
    for _ in 0..ASKS {
        if ask(top, table_seat) {
            return;
        }
        thread::yield_now();
    }
    for _ in rt.forever() {
        if ask_and_await(top, table_seat) {
            return;
        }
        top.park(rt, TURN, AWAITED);
    }
    unreachable!()
}

impl<M: Machine> Turn<M> {
    /// Asks for the turn until it is had, and then makes the step, once.
    ///
    /// Refused: `Exhausted` where as many changes were accepted as the limit allows; `Refused` where the step
    /// refuses. It never answers `Busy`.
    pub fn change<T: Step<M>, R: Wait>(
        &self,
        rt: &R,
        seat: &mut Seat<M>,
        step: T,
    ) -> Result<T::Reply, ChangeFault<T::Refusal>>
        requires { IsOf self.now seat.old }
        ensures seat { IsOf self.now seat.new }
        ensures ok { IfOk result (λ r. Enters M.state M.after (opening self.now) (limit_of self.now)
            (T.entry step) (λ m. T.replies step m r) seat.old seat.new) }
        ensures busy { IfErr result (AtBusy ⊥) }
        ensures exhausted { IfErr result (AtExhausted (Exhausts M.state M.after (opening self.now)
            (limit_of self.now) seat.old seat.new)) }
        ensures refused { IfErr result (AtRefused (λ r. Refuses M.state M.after (opening self.now)
            (limit_of self.now) (λ m. T.refuses step m r) seat.old seat.new)) }
    {
        let top = &self.board.shared;
        ask_until(rt, top, &mut seat.table_seat);
        change_held::<Waking, _, _>(top, &mut seat.table_seat, self.limit, step)
    }

    /// Asks for the turn until it is had, and then looks at the machine.
    pub fn look<T: Look<M>, R: Wait>(&self, rt: &R, seat: &mut Seat<M>, look: T) -> T::Answer
        requires { IsOf self.now seat.old }
        ensures seat { IsOf self.now seat.new }
        ensures value { Looks M.state M.after (opening self.now) (λ m. T.answers look m result) seat.old seat.new }
    {
        let top = &self.board.shared;
        ask_until(rt, top, &mut seat.table_seat);
        look_held::<Waking, _, _>(top, &mut seat.table_seat, look)
    }

    /// Asks for the turn until it is had, and then splits off a new seat.
    ///
    /// Refused: `SeatsFull` where the turn has made 4,096 seats. It never answers `Busy`.
    pub fn split<R: Wait>(&self, rt: &R, seat: &mut Seat<M>) -> Result<Seat<M>, SplitFault>
        requires { IsOf self.now seat.old }
        ensures seat { IsOf self.now seat.new }
        ensures new { IfOk result (λ s. IsOf self.now s) }
        ensures ok { IfOk result (λ s. Splits seat.old seat.new s) }
        ensures busy { IfErr result (AtSplitBusy ⊥) }
        ensures seats_full { IfErr result (AtSeatsFull (IsFull seat.old seat.new)) }
    {
        let top = &self.board.shared;
        ask_until(rt, top, &mut seat.table_seat);
        match split_held::<Waking, _>(top, &mut seat.table_seat) {
            Some(table_seat) => Ok(Seat { table_seat }),
            None => Err(SplitFault::SeatsFull),
        }
    }
}
