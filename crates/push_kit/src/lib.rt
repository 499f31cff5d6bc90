//! Push exporters, and the periodic reader that hands them its collections (OpenTelemetry Metrics SDK, "Push Metric
//! Exporter" and "Periodic exporting MetricReader").
//!
//! - An [`Exporter`] takes one export at a time: by `&mut`, so that one exporter is never called twice at once. Its ghost
//!   members say what it promises of itself after an export that it took and after one that it refused ([`ExportRefused`]).
//! - A [`MemoryExporter`] keeps a copy of each export.
//! - A [`ChannelExporter`] sends a copy of each export, and may wait; so may a periodic reader over it, and nothing else here.
//! - A [`Periodic`] owns a writer and an exporter. `Periodic::tick` collects where a [`writer_kit::Pace`] says that it is
//!   due, hands the exporter the round and answers a [`Tick`] or a [`TickFault`]; `Periodic::flush` does so at once. It records
//!   in each of a writer's ways: `Periodic::measure`, `hold` and `measure_held`, and `take_in` of a recorder's log.
//!
//! A caller with an exporter of its own, from `crates/uses/src/pushing.rt`:
//!
//!     let pace = Pace::new(DEFAULT_INTERVAL, first);
//!     let nothing = Newest { time: 0, points: 0 };
//!     Periodic::new(alloc, writer, nothing, pace)
//!
//!     let arena = Bump::new(alloc);
//!     reader.tick(&arena, now)
//!
//! Times are nanoseconds since the Unix epoch. What contracts cite stands in `specs/`: `Faults`
//! (why a push is refused) and `Pushing` (what it hands to the exporter, and when).
#![tactic(auto)]

mod channel;
mod exporter;
mod fault;
mod memory;
mod periodic;

pub use channel::ChannelExporter;
pub use exporter::Exporter;
pub use fault::{ExportRefused, TickFault};
pub use memory::MemoryExporter;
pub use periodic::{Periodic, Tick};

#[cfg(test)]
mod tests;
