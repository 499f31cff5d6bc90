//! A gateway's points as a page that Prometheus scrapes, and whatever else reads OpenMetrics.
//!
//! - [`openmetrics`] makes the page in OpenMetrics 1.0, and [`prometheus`] in Prometheus' text format 0.0.4: of the points of one
//!   service, or of all, and without a scope where one is to be left out.
//!
//! A caller (`crates/page_kit/src/tests.rt`):
//!
//!     let page = openmetrics(alloc, &gateway, None, None)?;
//!
//! Laws: rows and families differ ([`laws::rows_and_families_differ`]), and each number of a page is what was recorded
//! ([`laws::numbers_are_recorded`]).
//!
//! What contracts cite stands in `specs/`: `Page` (the page and the kit's own families), `Families` (metrics, and which are
//! shown), `Rows`, `Bounds` and `Totals` (what rows say), `Labels`, `Metrics`, `Units` and `Names` (how things are called), `Lines`
//! (how they are written) and `Groups` (values by their keys); `Laws` and `Recorded` say what the laws do.
#![tactic(auto)]

mod bounds;
mod claims;
mod families;
mod groups;
mod histograms;
mod labels;
pub mod laws;
mod metric;
mod names;
mod own;
mod page;
mod rows;
mod text;
mod totals;
mod units;

pub use page::{openmetrics, prometheus};

#[cfg(test)]
mod tests;
