//! Histories of nodes that gossip and forget what they hide, archives among the writers.
//!
//! It is definitions and laws over them, and one history at work that meets all that they ask: [`adopt_beside`]. A history is a list of
//! steps: the deeds of a schedule, and nodes that drop keys which they hide. What a step makes of a node is what the contract of the call
//! promises that does it: `take`, `merge`, `send`, `hand` and `forget` of gossip_kit.
//!
//! - [`forgetting_loses_nothing`]: nodes that took the same exports show the same, and roll-ups of what they show count what was
//!   recorded: of an adopted incarnation up to its adopted collection, of any other up to its newest one, each once.
//! - [`nodes_show_what_they_took`]: a node shows what the state of the exports shows that it took. Without tombstones it holds that state.
//! - [`nodes_hold_newest_collections`]: of an incarnation that it does not hide it holds the newest collection that it took.
//! - [`held_collections_tell_what_was_fed`]: so what an archive adopts of it tells what the incarnation fed.
//! - [`nodes_count_adopted_once`]: roll-ups of nodes where archives are as the laws of archive_kit ask, however they come to be so.
//! - [`rows_count_adopted_once`], [`pages_count_adopted_once`]: so are the rows of asks, and the numbers of pages.
//! - [`archives_change_no_answer`]: where each adopted collection is the last, and none is adopted twice, answers are those without any
//!   archive. [`archives_change_no_page`]: so are pages. [`incarnations_are_adopted_once`] says when none is.
//! - [`archives_are_asked_as_adopted`], [`payloads_add_up`]: what the laws of rows rest on.
//! - [`adopt_beside`]: a worker, an archive that adopts it, a keeper, and a node that hears of no archive. All that is asked holds.
//!
//! A history at work, whose calls are proved to be such steps (`crates/archive_world_kit/src/tests.rt`):
//!
//!     take(one, &adopted)?;
//!     let forgotten = forget(one, worker, 100);
//!
//! What contracts cite stands in `specs/`: `Steps` (histories), `Adopted` (archives that adopt what was held), `Apart` (when none is
//! adopted twice), `Answers` (what is fed, and when archives change no answer), `Alike` (rows of two pages), `Instance` (that all of it can
//! be met at once).
#![tactic(auto)]

mod laws;
#[cfg(test)]
mod tests;
mod witness;

pub use laws::{
    archives_are_asked_as_adopted, archives_change_no_answer, archives_change_no_page,
    forgetting_loses_nothing, held_collections_tell_what_was_fed, incarnations_are_adopted_once,
    nodes_count_adopted_once, nodes_hold_newest_collections, nodes_show_what_they_took,
    pages_count_adopted_once, payloads_add_up, rows_count_adopted_once,
};
pub use witness::adopt_beside;
