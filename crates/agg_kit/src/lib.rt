//! Tallies: what a plan's streams come to, one recording after the other (OpenTelemetry Metrics SDK, "Aggregation" and
//! "Cardinality limits"; Metrics Data Model, "Sums", "Gauge", "Histogram").
//!
//! - A [`Tally`] has the points of every stream of a plan, each in the order of its first recording. `Tally::measure` records
//!   a value: at each feed of the instrument it goes to the point of the kept attributes, or to that of the overflow set
//!   where the stream's limit is reached.
//! - A [`TallyFault`] says why a value is refused: no such instrument, a value that the kind refuses, a sum that would leave
//!   its range, or want of memory. A refused value is recorded nowhere.
//! - A held point is a number of a tally: `Tally::hold` gives one to an instrument and a set, and `Tally::measure_held` records
//!   there as `measure` does. From the first value on no set is looked up, and no memory is taken where no feed copies what it keeps of
//!   the set: it keeps all keys, or none that the set has. Numbers outlive a restart.
//! - [`Places`] are for crates that take logs of recordings in: `Tally::measure_at` looks each set of a log up once.
//!
//! A caller (`crates/uses/src/holding.rt`), over the writer that has the tally:
//!
//!     let number = writer.hold(instrument, attrs)?;
//!     writer.measure_held(number, first)?;
//!     writer.measure_held(number, second)?;
//!
//! Both values go to the one point of that instrument and set.
//!
//! What a tally stands for is a list of recordings: [`steps_are_recordings`] and [`rounds_have_what_was_fed`] are the laws; that
//! a known place stays one is the law [`places_stay`]. What contracts cite stands in `specs/`: `Tallies` (what contracts see of one),
//! `Measuring` (a step and its refusals), `Rounds` (what a list of recordings comes to), `Held`, `Refusals`, `Entries`, `Feeding`.
#![tactic(auto)]

mod fault;
mod held;
mod laws;
mod payload;
mod recording;
mod series;
mod streams;
mod tally;

pub use fault::TallyFault;
pub use held::Places;
pub use laws::{places_stay, rounds_have_what_was_fed, steps_are_recordings};
pub use tally::Tally;
