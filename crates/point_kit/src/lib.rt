//! Metric points after the OpenTelemetry Metrics Data Model: who writes them, what they are of, what they say, and how
//! two of one key become one.
//!
//! - A writer is a [`WriterId`], a stream of points a [`Stream`] with its [`Shape`]. Points of one stream share it, as a
//!   [`SharedStream`]. A [`Key`] is what a point is of: writer, start, stream and attributes. Their orders are [`Ordered`].
//! - A [`Payload`] is the value of a point. A [`Cell`] is what is held under a key, and `Cell::join` makes one cell of
//!   two: of the later time, and a conflict where different payloads meet at one time ([`Held`]).
//! - An [`Export`] is one collection of a writer, a list of [`ExportPoint`]s. `Export::build` refuses points that are not sound,
//!   and an [`ExportFault`] says why.
//!
//! A caller, from `crates/uses/src/passing.rt`:
//!
//!     let mut points = Vec::new(alloc);
//!     points.push(ExportPoint {
//!         stream: SharedStream::new(alloc, stream)?,
//!         attrs,
//!         payload: Payload::Sum(sum),
//!     })?;
//!     Ok(Seq::from_vec(points))
//!
//!     Export::build(alloc, writer, 100, 200, points)
//!
//! Times are nanoseconds since the Unix epoch. What contracts cite stands in `specs/`: `Best` (what all points under a
//! key come to), `Join`, `States` and `Exports` (finite maps from keys to cells), `Changes`, `Payload` (which payloads
//! are sound), `ExportFaults`, `Orders`.
#![tactic(auto)]

mod cell;
mod exact;
mod export;
mod export_fault;
mod export_point;
mod key;
mod ordered;
mod payload;
mod shape;
mod shared_stream;
mod stream;
mod try_copy;
mod writer_id;

pub use cell::{Cell, Held};
pub use export::Export;
pub use export_fault::ExportFault;
pub use export_point::ExportPoint;
pub use key::Key;
pub use ordered::Ordered;
pub use payload::Payload;
pub use shape::Shape;
pub use shared_stream::SharedStream;
pub use stream::Stream;
pub use writer_id::WriterId;

#[cfg(test)]
mod tests;
