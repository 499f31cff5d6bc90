//! A test kit for services: instruments, views, writers and asks in few words, an exporter that refuses when told, and what
//! was exported as one text.
//!
//! - [`counter`], [`instrument`], [`view`], [`writer`] and [`ask`] make what tests begin with, with the defaults of the kit.
//! - A [`FailingExporter`] refuses at chosen calls, and keeps a copy of each other export.
//! - [`tables_of`] is a text of exports, a table for each; [`table_of`] is the table that a gateway answers which took them all.
//!
//! A caller, from `crates/test_kit/src/tests.rt`:
//!
//!     let counter = counter(alloc, "app", "requests", "1")?;
//!     let writer = writer(alloc, "shop", 1, counter, 0)?;
//!     let exporter = FailingExporter::at(alloc, calls);
//!     Ok(Periodic::new(alloc, writer, exporter, Pace::new(10, 10)))
//!
//!     let each = tables_of(alloc, exporter.copies(), &ask)?;
//!
//! This crate stands above all that it builds and reads, so tests inside those crates can't use it. What contracts cite
//! stands in `specs/`: `Defaults` (what the builders make), `Failing` and `Texts`.
#![tactic(auto)]

mod builders;
mod failing;
#[cfg(test)]
mod tests;
mod texts;

pub use builders::{ask, counter, instrument, view, writer};
pub use failing::FailingExporter;
pub use texts::{table_of, tables_of};
