//! The calls that ask for the turn once and wait for nobody. That they don't wait is held by their types: with no
//! bound `Wait` a body that waits is refused by the compiler.
ghost use Rattle.std.specs.Prelude.{OnErr, IfOk, IfErr};
ghost use Rattle.turn_kit.specs.Public.{IsOf, IsLeft, Enters, Looks, Splits, IsFull, Exhausts, Refuses, opening, limit_of};
ghost use Rattle.turn_kit.specs.Public.{AtBusy, AtExhausted, AtRefused, AtSplitBusy, AtSeatsFull};

use crate::fault::{Busy, ChangeFault, SplitFault};
use crate::giving::GiveBack;
use crate::held::{change_held, look_held, split_held};
use crate::look::Look;
use crate::machine::Machine;
use crate::seat::Seat;
use crate::step::Step;
use crate::steps::ask;
use crate::turn::Turn;

impl<M: Machine, G: GiveBack> Turn<M, G> {
    /// Asks for the turn once, and makes the step where it is had: four atomic steps beside the step itself.
    ///
    /// Refused: `Busy` where the turn is held, which it never is to the first seat before its first split;
    /// `Exhausted` where as many changes were accepted as the limit allows; `Refused` where the step refuses.
    pub fn try_change<T: Step<M>>(
        &self,
        seat: &mut Seat<M>,
        step: T,
    ) -> Result<T::Reply, ChangeFault<T::Refusal>>
        requires { IsOf self.now seat.old }
        ensures seat { IsOf self.now seat.new }
        ensures ok { IfOk result (λ r. Enters M.state M.after (opening self.now) (limit_of self.now)
            (T.entry step) (λ m. T.replies step m r) seat.old seat.new) }
        ensures busy { IfErr result (AtBusy (IsLeft seat.old seat.new)) }
        ensures exhausted { IfErr result (AtExhausted (Exhausts M.state M.after (opening self.now)
            (limit_of self.now) seat.old seat.new)) }
        ensures refused { IfErr result (AtRefused (λ r. Refuses M.state M.after (opening self.now)
            (limit_of self.now) (λ m. T.refuses step m r) seat.old seat.new)) }
    {
        let top = &self.board.shared;
        if !ask(top, &mut seat.table_seat) {
            return Err(ChangeFault::Busy);
        }
        change_held::<G, _, _>(top, &mut seat.table_seat, self.limit, step)
    }

    /// Asks for the turn once, and looks at the machine where it is had. A look is not counted.
    ///
    /// Refused where the turn is held.
    pub fn try_look<T: Look<M>>(&self, seat: &mut Seat<M>, look: T) -> Result<T::Answer, Busy>
        requires { IsOf self.now seat.old }
        ensures seat { IsOf self.now seat.new }
        ensures ok { IfOk result (λ r. Looks M.state M.after (opening self.now)
            (λ m. T.answers look m r) seat.old seat.new) }
        ensures busy { OnErr result (IsLeft seat.old seat.new) }
    {
        let top = &self.board.shared;
        if !ask(top, &mut seat.table_seat) {
            return Err(Busy);
        }
        Ok(look_held::<G, _, _>(top, &mut seat.table_seat, look))
    }

    /// Asks for the turn once, and splits off a new seat where it is had. The new seat has seen what this one has.
    ///
    /// Refused: `Busy` where the turn is held; `SeatsFull` where the turn has made 4,096 seats.
    pub fn try_split(&self, seat: &mut Seat<M>) -> Result<Seat<M>, SplitFault>
        requires { IsOf self.now seat.old }
        ensures seat { IsOf self.now seat.new }
        ensures new { IfOk result (λ s. IsOf self.now s) }
        ensures ok { IfOk result (λ s. Splits seat.old seat.new s) }
        ensures busy { IfErr result (AtSplitBusy (IsLeft seat.old seat.new)) }
        ensures seats_full { IfErr result (AtSeatsFull (IsFull seat.old seat.new)) }
    {
        let top = &self.board.shared;
        if !ask(top, &mut seat.table_seat) {
            return Err(SplitFault::Busy);
        }
        match split_held::<G, _>(top, &mut seat.table_seat) {
            Some(table_seat) => Ok(Seat { table_seat }),
            None => Err(SplitFault::SeatsFull),
        }
    }
}
