//! Fleets: recorder threads that share writers, and gateway threads that take what the writers collected.
//!
//! - A [`FleetSetup`] has writers, gateways, and a [`Job`] for each recorder thread: which writer it records with, and what.
//! - A [`Gate`] is asked before each recording, and may end a job; [`Open`] is never shut.
//! - [`run_fleet`] runs each job in a thread of its own, all jobs of a writer on one shared writer. A thread notes its recordings
//!   in a log, which the writer takes in whenever it is full. After the joins each writer is collected once, and each gateway's
//!   thread is told of the collections over a channel. A [`FleetFault`] says why a fleet gives no answer.
//!
//! A caller, from `crates/uses/src/fleets.rt`:
//!
//!     let gateways = run_fleet(rt, alloc, setup, &Open)?;
//!     match gateways.get(0) {
//!         Some(gateway) => Ok(Some(rollup(alloc, gateway, ask)?)),
//!         None => Ok(None),
//!     }
//!
//! A fleet that ends without a fault has exactly the totals of its jobs at every gateway, whatever its threads did in between:
//! `run_fleet` says so of every query of sums or histograms. Fleets are the kit's own; the OpenTelemetry specification has none.
//!
//! What contracts cite stands in `specs/`: `Setups` (the writers and jobs of a setup), `Checks` and `Faults` (why a fleet is refused),
//! `Ends` and `Halts` (how jobs end, and which reason is told), `Jobs`, `Noting` and `Recorded` (what recorders note, and what their seats
//! recorded), `Collected` (a closed writer's export), `Posting` and `Serving` (what gateways are told and take).
#![tactic(auto)]

mod checks;
mod fault;
mod fleet;
mod gate;
mod gateways;
mod halt;
mod posts;
mod recorders;
mod setup;
mod writers;

pub use fault::FleetFault;
pub use fleet::run_fleet;
pub use gate::{Gate, Open};
pub use setup::{FleetSetup, Job};

#[cfg(test)]
mod tests;
