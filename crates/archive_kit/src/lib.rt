//! Archives: writers that adopt ended incarnations of others, so that what a state shows can leave these out.
//!
//! - An [`Archive`] adopts an incarnation that a keeper holds (`adopt`): it adds the sums and histograms to its own, or says in an
//!   [`AdoptFault`] why not. Its exports (`export`) have these totals and a tombstone for each incarnation that it adopted, or an
//!   [`ExportRefusal`] comes. Under a later start it begins anew (`seal`), once it exported all that it adopted ([`SealRefusal`]).
//! - A [`Keeper`] is a gateway whose points are always what is shown: it skips what a tombstone names and forgets what comes to be
//!   named (`take`, `merge`). To an export it answers a [`Taking`].
//! - [`build_plan`] makes the plan of a writer whose points lie beside those of archives: the scope of tombstones is refused
//!   ([`PlanRefusal`]).
//! - A state shows its points but for those that a tombstone names. Laws say that what is shown joins as states do
//!   ([`shown_states_join`], [`deltas_bring`], [`same_exports_show_the_same`]), and that roll-ups of it count each adopted
//!   incarnation once ([`roll_ups_count_adopted_once`], [`archives_change_no_total`]). Archives that write what these calls export
//!   are such ([`exports_tell_what_was_adopted`], [`driven_archives_are_lawful`]).
//!
//! A caller (`crates/archive_kit/src/tests/builders.rt`):
//!
//!     archive.adopt(keeper, &writer, start)?;
//!     let made = archive.export(time)?;
//!
//! What contracts cite stands in `specs/`: `Archive` (what contracts see of one, its refusals and exports), `Totals`, `Adding` and
//! `Telling` (what is added up), `Driving` (what calls make of one), `Keeping` and `Named` (what a keeper holds and answers),
//! `Planning` (which plans lie beside archives), `Tombstones`, `Showing` and `Stories` (what is shown), `Adopting`, `Archived` and
//! `Written` (what counts).
#![tactic(auto)]

mod adding;
mod adopt_fault;
mod archive;
mod dropping;
mod early;
mod export_refusal;
mod held;
mod keeper;
mod laws;
mod name;
mod names;
mod plan_refusal;
mod planning;
mod seal_refusal;
mod taking;
#[cfg(test)]
mod tests;
mod tombstone;
mod totals;

pub use adopt_fault::AdoptFault;
pub use archive::Archive;
pub use export_refusal::ExportRefusal;
pub use keeper::Keeper;
pub use laws::{
    adopted_are_recorded, adoptions_add_up, adoptions_are_exported, archives_can_be_added,
    archives_change_no_total, archivists_adopt_once, deltas_bring, driven_archives_are_lawful,
    exports_tell_what_was_adopted, hidden_points_may_be_forgotten, hidden_points_may_be_skipped,
    roll_ups_count_adopted_once, same_exports_show_the_same, shown_states_are_ordered,
    shown_states_join, sums_are_sound, tombstones_name_no_tombstone,
};
pub use plan_refusal::PlanRefusal;
pub use planning::build_plan;
pub use seal_refusal::SealRefusal;
pub use taking::Taking;
pub use tombstone::SCOPE;
