//! Gateways: the newest point of every key, of all writers (OpenTelemetry Metrics Data Model, "Single-Writer", "Overlap").
//!
//! - A [`Gateway`] takes exports (`take`), merges with others (`merge`), and is asked what it holds: `find`, `points`,
//!   `points_of`, `part`, `newest`, `incarnations`, `services`, `conflicts`. What it holds is the join of all that it took, so
//!   order and repeats do not matter.
//! - [`Points`] walks over what is held in key order, each point a [`PointRef`]. The points of one incarnation are lent as a
//!   slice, each a [`PartItem`].
//! - [`Incarnations`] lists of which incarnations points are held, each an [`IncarnationRef`]; [`Services`], of which services.
//! - [`states_join`] has the laws of that join as its contract: it is the least state above both.
//! - `take_numbered`, `merge_numbered` and `since` number each key by its last change, for those who tell others what is new.
//! - A [`SharedGateway`] is one that threads take exports into, each by a seat of its own, with one history. Contracts speak of
//!   that history's entries, each a [`GatewayChange`]. It is closed unless other seats are out ([`SeatsOut`]).
//!
//! A caller, from `crates/uses/src/gathering.rt`:
//!
//!     let mut one = Gateway::new(alloc, 1);
//!     one.take(here)?;
//!     one.take(there)?;
//!
//!     Ok(one.same(&other))
//!
//! Times are nanoseconds since the Unix epoch. What contracts cite stands in `specs/`: `GatewayState` (what contracts see of a
//! gateway), `Queries`, `Listing`, `Numbers` and `Numbering`, `Recent`, `Shared`; joins are those of `point_kit`.
#![tactic(auto)]

mod bounds;
mod cells;
mod changes;
mod draft;
mod gateway;
mod growth;
mod hint;
mod incarnation;
mod incarnations;
mod items;
mod laws;
mod listing;
mod merge_draft;
mod merging;
mod ordered;
mod part_item;
mod points;
mod shared;
mod tally;
mod targets;
#[cfg(test)]
mod tests;
mod trail;
mod weave;

pub use gateway::Gateway;
pub use laws::states_join;
pub use listing::{IncarnationRef, Incarnations, Services};
pub use part_item::PartItem;
pub use points::{PointRef, Points};
pub use shared::{GatewayChange, SeatsOut, SharedGateway};
