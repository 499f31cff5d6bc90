//! A lock round a machine, whose every answer is tied to one history.
//!
//! A [`Turn`] owns a [`Machine`]. Threads hold [`Seat`]s and take the turn one at a time: who has it makes a [`Step`] on the
//! machine, or one by a [`StepMut`] that the caller keeps, or takes a [`Look`] at it. The accepted steps, in their order, are the
//! turn's history, a list of (seat number, entry). It exists in the proofs alone and takes no memory. Each answer says which
//! beginning of the history its seat has seen, and that it is the answer of one thread there.
//!
//! Calls that begin with `try_` wait for nobody, and answer [`Busy`] where the turn is held. `change`, `change_mut`, `look`
//! and `split` ask until they have the turn. Which calls may wait is no clause of theirs but their type: a
//! function can wait only by a bound `Wait`, its own or that of a step or a look that it is given, and only those
//! four have one. A turn that is [`Quiet`] has none of the four, and wakes nobody when it is given back; one that is
//! [`Waking`] has them. Code for both is generic over [`GiveBack`].
//!
//! A [`Note`] tells another seat what one has seen, a seat that has done its work is joined into another, and `close`
//! gives the machine back with the whole history known, or, by [`SeatsOut`], itself and how many seats are out. A [`TurnFault`] says
//! why there is no turn, a [`ChangeFault`] why no step was made, a [`SplitFault`] why there is no other seat.
//!
//! A caller whose machine is a mark that only rises, from `crates/uses/src/turning.rt`:
//!
//!     match Turn::new(alloc, Mark { height: 0 }, 1000) {
//!
//!     turn.change(rt, seat, Raise { to })
//!
//!     match turn.close(seat) {
//!         Ok(mark) => Ok(mark.height),
#![tactic(auto)]

mod board;
mod fault;
mod giving;
mod held;
mod knowledge;
mod look;
mod machine;
mod meet;
mod note;
mod plays;
mod seat;
mod step;
mod step_mut;
mod steps;
#[cfg(test)]
mod tests;
mod tries;
mod turn;
mod waits;

pub use fault::{Busy, ChangeFault, SplitFault, TurnFault};
pub use giving::{GiveBack, Quiet, Waking};
pub use look::Look;
pub use machine::Machine;
pub use note::Note;
pub use seat::Seat;
pub use step::Step;
pub use step_mut::StepMut;
pub use turn::{SeatsOut, Turn};
