//! Schedules: which events of writers and gateways are accepted, what each gateway took, and what follows from that.
//!
//! It is definitions and laws over them, for any payload that adds up, and has no types and no code to run. A writer's schedule
//! is its accepted events; its start, its last time, its entries and its collections are read off them. A world's schedule has
//! the events of all writers, gateways and mails.
//!
//! - [`same_exports_give_one_state`]: gateways that took the same exports hold the same.
//! - [`parts_are_newest_collections`]: each incarnation counts up to its newest collection.
//! - [`roll_ups_are_recorded`]: a roll-up is what was recorded, each recording once.
//!
//! Whoever writes a contract over schedules cites the definitions, as `agree_after` of `crates/uses/src/replaying.rt` does. They
//! stand in `specs/`: `Schedule` (one writer), `Deeds` (a world), `Rounds`, `Taken`, `Rows`, `Totals`, `Mixed` (lists with the
//! same elements).
#![tactic(auto)]

mod laws;

pub use laws::{
    mixed_lists_add_up, parts_are_newest_collections, roll_ups_are_recorded,
    same_exports_give_one_state,
};
