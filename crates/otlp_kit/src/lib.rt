//! Exports as OTLP, the protocol of OpenTelemetry: so any Collector or backend that speaks it can take them, and what Collectors and
//! SDKs send can be read.
//!
//! - [`encode_otlp`] makes the bytes of an `ExportMetricsServiceRequest` that brings an export.
//! - An [`OtlpFault`] says why an export has no such request.
//! - [`decode_otlp`] reads the exports that a request brings.
//! - A [`RequestFault`] says why a request is not read, by a [`RequestReason`], and where.
//!
//! A caller (`crates/uses/src/sending.rt`):
//!
//!     encode_otlp(alloc, export)
//!
//! What contracts cite stands in `specs/`. `Limits` says how much a text and a point may have. Of writing: `Wire` (the pieces of
//! a message of Protocol Buffers), `Doubles` (whole numbers as binary64), `Runs` (neighbours that share a message), `Request`
//! (each message and its fields, by the numbers that opentelemetry-proto gives them) and `Refusals`. Of reading: `Spans`,
//! `Fields` and `Contents` (bytes, and the fields that they are), `Messages` (what the fields of each message say), `Exact`
//! (whole numbers of doubles), `Walks` (lists that are gone through), and `Reading` (the exports of a request, or its first
//! refusal). `Sent` says which exports come back, by the law [`comes_back`].
#![tactic(auto)]

mod attributes;
mod decode;
mod doubles;
mod encode;
mod exact;
mod fault;
mod field;
mod first_places;
mod group;
mod histogram_point;
mod key_value;
mod laws;
#[cfg(test)]
mod limit_tests;
mod limits;
mod lists;
mod message;
mod metric;
mod metrics;
mod number_point;
mod placed;
mod point_attributes;
mod points;
#[cfg(test)]
mod read_tests;
mod reading;
mod refusals;
mod request_fault;
mod resource;
mod runs;
mod scope;
mod span;
#[cfg(test)]
mod tests;
#[cfg(test)]
mod text_tests;
mod wire;
mod writer;

pub use decode::decode_otlp;
pub use encode::encode_otlp;
pub use fault::OtlpFault;
pub use laws::comes_back;
pub use request_fault::{RequestFault, RequestReason};
