//! Rounds: what a tally holds at a time, in an arena (OpenTelemetry Metrics SDK, "MetricReader", Collect).
//!
//! - [`place`] puts every point of a tally into an arena, a `bumpalo::Bump` that is the caller's, and answers a [`Round`].
//!   It takes no other memory and leaves the tally as it is, so it is done while a writer is held.
//! - A round is read where it lies. Each [`RoundPoint`] has a [`RoundStream`] with its [`RoundShape`], a [`RoundSet`] of keys and
//!   [`RoundValue`]s (a short text is a [`RoundText`]), and a [`RoundPayload`]: a number, or a [`RoundHistogram`].
//! - `Round::copy_out` makes a round an `Export` of a writer, which borrows nothing of the arena. It is done after.
//! - The caller resets the arena. A round, and whatever borrows of it, can't be used after that: it doesn't compile.
//!
//! A caller, from `crates/uses/src/recording.rt`, whose writer calls `place`:
//!
//!     let arena = Bump::new(alloc);
//!     let round = writer.collect(&arena, 200)?;
//!     Ok(round.copy_out(alloc, writer.id())?)
//!
//! Every text, list and set of a round is a final slice of the arena; points of one stream share it. What contracts cite stands
//! in `specs/`: `Placed` (what a value in an arena stands for) and `Rounds` (the points of a tally in their order).
#![tactic(auto)]

mod payload;
mod round;
mod set;
mod stream;
mod text;

pub use payload::{RoundHistogram, RoundPayload};
pub use round::{Round, RoundPoint, place};
pub use set::{RoundSet, RoundValue};
pub use stream::{RoundShape, RoundStream};
pub use text::RoundText;

#[cfg(test)]
mod tests;
