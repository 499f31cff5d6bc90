//! Recorders: logs of recordings, which a tally takes in.
//!
//! - A [`Recorder`] is a thread's own log, of as many recordings as its maker says: by instrument and set, or by the number of a
//!   held point. It needs no tally and no lock. A recording takes 32 bytes; a set is kept once.
//! - [`Recorder::give_to`] measures them in a tally, one after the other, all at once or in pieces, and tells by a [`Taken`] how
//!   many were recorded and refused. The tally is then what it would be had each been measured there in that order, so limits,
//!   the overflow set, gauges and sums that fall mean what they mean in a tally ([`pieces_are_the_whole`]).
//! - A [`RecordFault`] says why a recorder has no place for a recording.
//!
//! A caller (`crates/uses/src/taking_in.rt`), where the writer gives its tally:
//!
//!     let mut recorder = Recorder::new(alloc, 3)?;
//!     recorder.measure(0, attrs, 3)?;
//!     recorder.measure(0, attrs, -1)?;
//!     recorder.measure(0, attrs, 4)?;
//!     Ok(writer.take_in(&mut recorder, usize::MAX)?)
//!
//! Of a counter, -1 is refused by itself, and told; the others are recorded. `src/tests.rt` has one that is run.
//!
//! A number means the point that is held under it in the tally that takes the log in, when it does: a log that was filled before the
//! tally began anew counts from the new beginning.
//!
//! What contracts cite stands in `specs/Log.antt`: a log is a list of recordings, and `taken_in` is what it comes to.
#![tactic(auto)]

mod fault;
mod laws;
mod line;
mod names;
mod recorder;
mod taken;
#[cfg(test)]
mod tests;

pub use fault::RecordFault;
pub use laws::pieces_are_the_whole;
pub use recorder::Recorder;
pub use taken::Taken;
