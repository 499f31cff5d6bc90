//! A machine of one's own under a turn: threads share it, and each change stands in one history.
ghost use Rattle.std.specs.Prelude.{◌≡◌, ◌≤◌, ◌<◌, ℕ, None, IfOk, IfErr, IfSome, OnOk, OnErr};
ghost use Rattle.turn_kit.specs.Public.{IsOf, IsLeft, IsFull, Closes, AtBusy, AtRefused, opening};
ghost use Rattle.uses.specs.Turning.{IsNotRaised, Raises, mark_after};

use std::alloc::Global;
use std::marker::Model;
use std::sync::Wait;
use turn_kit::{
    Busy, ChangeFault, GiveBack, Machine, Quiet, Seat, SeatsOut, SplitFault, Step, StepMut, Turn,
    TurnFault, Waking,
};

/// A mark that only rises.
#[derive(Drop)]
pub struct Mark {
    height: u64,
}

impl Model for Mark {
    ghost Value = { ℕ };

    ghost view = { λ m. m.height };
}

impl Machine for Mark {
    type Entry = u64;

    ghost State = { ℕ };

    ghost state = { λ height. height };

    ghost after = { mark_after };
}

/// Raises the mark to a height, and answers the old one.
#[derive(Drop)]
pub struct Raise {
    pub to: u64,
}

/// The mark is not below that height.
#[derive(Clone, Copy, Debug, PartialEq, Eq, Drop)]
pub struct NotHigher;

impl Step<Mark> for Raise {
    type Reply = u64;

    type Refusal = NotHigher;

    ghost entry = { λ r. r.to };

    ghost replies = { λ _ old reply. reply ≡ old };

    ghost refuses = { λ r old _. r.to ≤ old };

    fn step(self, mark: &mut Mark) -> Result<u64, NotHigher> {
        let old = mark.height;
        if self.to <= old {
            return Err(NotHigher);
        }
        mark.height = self.to;
        Ok(old)
    }
}

/// Raises the mark to a height, and keeps the one that it had. Whoever raises it often makes one lift.
#[derive(Drop)]
pub struct Lift {
    pub to: u64,
    pub from: u64,
}

impl StepMut<Mark> for Lift {
    type Reply = ();

    type Refusal = NotHigher;

    ghost entry = { λ l _. l.to };

    ghost replies = { λ old height _ new. (new.from ≡ height) × (new.to ≡ old.to) };

    ghost refuses = { λ l height _. l.to ≤ height };

    fn step_mut(&mut self, mark: &mut Mark) -> Result<(), NotHigher> {
        if self.to <= mark.height {
            return Err(NotHigher);
        }
        self.from = mark.height;
        mark.height = self.to;
        Ok(())
    }
}

/// Raises a mark that threads share. The answer is the height of the mark at this change's place in the one history of all.
pub fn raise_to<R: Wait>(
    rt: &R,
    turn: &Turn<Mark>,
    seat: &mut Seat<Mark>,
    to: u64,
) -> Result<u64, ChangeFault<NotHigher>>
    requires { IsOf turn.now seat.old }
    ensures seat { IsOf turn.now seat.new }
    ensures raised { IfOk result (λ old. Raises turn.now old to seat.old seat.new) }
    ensures refused { IfErr result (AtRefused (λ _. IsNotRaised turn.now to seat.old seat.new)) }
{
    turn.change(rt, seat, Raise { to })
}

/// Raises a mark that threads share by a lift, which then has the height of the mark at this change's place in the history. A lift
/// that is refused is as it was.
pub fn raise_by<R: Wait>(
    rt: &R,
    turn: &Turn<Mark>,
    seat: &mut Seat<Mark>,
    lift: &mut Lift,
) -> Result<(), ChangeFault<NotHigher>>
    requires { IsOf turn.now seat.old }
    ensures seat { IsOf turn.now seat.new }
    ensures raised { OnOk result (Raises turn.now lift.new.from lift.old.to seat.old seat.new) }
    ensures kept { OnErr result (lift.new ≡ lift.old) }
{
    turn.change_mut(rt, seat, lift)
}

/// A mark of height 0 in a turn without calls that wait, for programs that may not sleep, and the turn's first seat.
pub fn quiet_mark(alloc: Global) -> Result<(Turn<Mark, Quiet>, Seat<Mark>), TurnFault>
    ensures low { IfOk result (λ made. opening made.0 ≡ 0) }
    ensures seat { IfOk result (λ made. IsOf made.0 made.1) }
{
    match Turn::new(alloc, Mark { height: 0 }, 1000) {
        Ok((turn, seat)) => Ok((turn.into_quiet(), seat)),
        Err((_mark, fault)) => Err(fault),
    }
}

/// The same without waiting, in a turn of either sort: where the turn is held, the answer is `Busy` and the seat is as it was.
pub fn raise_at_once<G: GiveBack>(
    turn: &Turn<Mark, G>,
    seat: &mut Seat<Mark>,
    to: u64,
) -> Result<u64, ChangeFault<NotHigher>>
    requires { IsOf turn.now seat.old }
    ensures seat { IsOf turn.now seat.new }
    ensures raised { IfOk result (λ old. Raises turn.now old to seat.old seat.new) }
    ensures busy { IfErr result (AtBusy (IsLeft seat.old seat.new)) }
{
    turn.try_change(seat, Raise { to })
}

/// A seat for another thread, without waiting; none where the turn has made 4,096. Refused where the turn is held, and the seat is
/// then as it was.
pub fn another_seat<G: GiveBack>(
    turn: &Turn<Mark, G>,
    seat: &mut Seat<Mark>,
) -> Result<Option<Seat<Mark>>, Busy>
    requires { IsOf turn.now seat.old }
    ensures seat { IsOf turn.now seat.new }
    ensures new { IfOk result (λ made. IfSome made (λ other. IsOf turn.now other)) }
    ensures full { IfOk result (λ made. made ≡ None → IsFull seat.old seat.new) }
    ensures busy { OnErr result (IsLeft seat.old seat.new) }
{
    match turn.try_split(seat) {
        Ok(other) => Ok(Some(other)),
        Err(SplitFault::SeatsFull) => Ok(None),
        Err(SplitFault::Busy) => Err(Busy),
    }
}

/// The mark's height in the end, once every other seat was joined into this one: what the one history makes of the first height. Where
/// seats are out, how many.
pub fn last_height(turn: Turn<Mark, Waking>, seat: Seat<Mark>) -> Result<u64, u64>
    requires { IsOf turn seat }
    ensures height { IfOk result (Closes (λ m. m) mark_after (opening turn) seat) }
    ensures out { IfErr result (λ out. 0 < out) }
{
    match turn.close(seat) {
        Ok(mark) => Ok(mark.height),
        Err(
            SeatsOut {
                turn: _turn,
                seat: _seat,
                out,
            },
        ) => Err(out),
    }
}
