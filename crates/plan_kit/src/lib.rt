//! Plans: which instruments feed which streams (OpenTelemetry Metrics SDK, "View").
//!
//! - An [`Instrument`] has a scope, a name, a unit and a [`Kind`].
//! - A [`View`] matches instruments by a [`NameRule`], a kind and a scope. It gives them another name, keeps some of their keys, or
//!   has another [`Aggregation`].
//! - A [`Plan`] is made of both by `Plan::build`; a [`PlanFault`] says why not. Each view that matches an instrument gives a
//!   [`Feed`]: a stream, and the keys that are kept. Where no view matches, the instrument has one feed that keeps all keys.
//! - `Plan::feeds` reads the feeds of an instrument, and `Plan::stream` the stream of a number.
//!
//! A caller, from `crates/uses/src/recording.rt`:
//!
//!     let mut instruments = Vec::new(alloc);
//!     instruments.push(requests(alloc)?)?;
//!     Ok(Plan::build(
//!         alloc,
//!         Seq::from_vec(instruments),
//!         Seq::new(alloc),
//!         DEFAULT_LIMIT,
//!     )?)
//!
//! The limit is how many attribute sets of a stream have points of their own.
#![tactic(auto)]

mod build;
mod clashes;
mod fault;
mod feed;
mod finish;
mod fit;
mod instrument;
mod kept;
mod misfit;
mod names;
mod owners;
mod plan;
mod refusals;
mod try_copy;
mod view;
mod view_index;
mod wanted;

pub use fault::PlanFault;
pub use feed::Feed;
pub use instrument::{Instrument, Kind};
pub use plan::{DEFAULT_LIMIT, Plan};
pub use view::{Aggregation, NameRule, View};
