//! Worlds: writers, gateways, and what goes between them, by one list of events and without threads.
//!
//! - A [`Setup`] names writers, each a [`WriterSetup`], and gateways. A [`World`] is made of one; a [`SetupFault`] says why not.
//! - `World::apply` does one [`Event`] and gives its [`Reply`]. An event that is refused is answered by its [`Refusal`], and changes
//!   nothing.
//! - [`replay`] does a list of events from the beginning; a [`ReplayFault`] says why it did not.
//!
//! A caller, from `crates/uses/src/replaying.rt`:
//!
//!     let (_world, said) = replay(alloc, setup, events)?;
//!     Ok(said)
//!
//! Which events are accepted, what is replied and what each gateway took are definitions over the list of events (specs `Judged`,
//! `States`); a world stands for its events (specs `Stands`). From that follows that gateways that took the same exports hold equal
//! points ([`gateways_converge`]). Where no two writers share an identity, each incarnation's part of a gateway is its newest round taken,
//! or nothing ([`parts_are_newest_rounds`]), and a roll-up is what was recorded ([`roll_ups_are_recorded`]).
//! Schedules of a world are the kit's own; the OpenTelemetry specification has none.
#![tactic(auto)]

mod apply;
mod build;
mod event;
mod fault;
mod gather;
mod laws;
mod replaying;
mod setup;
mod world;
mod write;

pub use event::{Event, Refusal, Reply};
pub use fault::{ReplayFault, SetupFault};
pub use laws::{gateways_converge, parts_are_newest_rounds, roll_ups_are_recorded};
pub use replaying::replay;
pub use setup::{Setup, WriterSetup};
pub use world::World;
