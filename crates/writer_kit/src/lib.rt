//! Writers: the points that one process records, and the times of their collections (OpenTelemetry Metrics SDK,
//! "MetricReader"; Metrics Data Model, "Single-Writer" and "Resets and Gaps").
//!
//! - A [`Writer`] counts under a plan from its start on. `Writer::measure` records a value, `Writer::collect` places the
//!   points since the start in an arena, and `Writer::shutdown` does so for the last time. `Writer::restart` begins anew
//!   under a later start: what was recorded before is of an incarnation of its own. The times of an incarnation's
//!   collections rise, as later ones are refused otherwise.
//! - A [`MeasureFault`], a [`CollectFault`] or a [`RestartFault`] says why a call is refused, which then changes nothing.
//! - A [`Pace`] says when the next collection is due.
//! - `Writer::hold` gives a number to an instrument and a set; `Writer::measure_held` records there by the number.
//! - `Writer::take_in` takes in what a thread noted in a [`Recorder`](recorder_kit::Recorder), as many recordings as asked: each as if it
//!   was measured then, one after the other. [`Closed`] says that the writer takes none.
//! - A [`SharedWriter`] is a writer that threads record with and collect from, each by a seat of its own. Whatever they do at
//!   once, there is one history, and each round is that of all that the history has before it. Contracts speak of the history's
//!   entries, each a [`WriterChange`]. Recordings of a log that are taken in by one call are one change ([`Recordings`]).
//!   It is closed unless other seats are out ([`SeatsOut`]).
//!
//! A caller, from `crates/uses/src/recording.rt`:
//!
//!     let mut writer = Writer::start(alloc, id, plan, 100)?;
//!     writer.measure(0, &none, 3)?;
//!     writer.measure(0, &none, 4)?;
//!     let arena = Bump::new(alloc);
//!     let round = writer.collect(&arena, 200)?;
//!
//! The laws [`steps_are_events`], [`refusals_are_of_recordings`] and [`changes_are_recordings`] tell of a writer by its accepted events.
//!
//! Times are nanoseconds since the Unix epoch. What contracts cite stands in `specs/`: `Written` (what contracts see of a
//! writer), `Refusals`, `Recording` (what accepted calls make of it), `Schedules` (the events that a writer
//! accepts, and what is read off them), `Following` (what a writer is after them), `Taking` (logs that a writer takes in),
//! `Recorded` (what is accepted of recordings), `Shared` (the history of a shared writer), `Pacing`.
#![tactic(auto)]

mod fault;
mod laws;
mod pace;
mod shared;
mod writer;

pub use fault::{Closed, CollectFault, MeasureFault, RestartFault};
pub use laws::{changes_are_recordings, refusals_are_of_recordings, steps_are_events};
pub use pace::{DEFAULT_INTERVAL, Pace};
pub use shared::{Recordings, SeatsOut, SharedWriter, WriterChange};
pub use writer::Writer;

#[cfg(test)]
mod tests;
