//! Plans of writers whose points lie beside those of archives.
ghost use Rattle.std.specs.Prelude.{◌≡◌, ◌≢◌, All, None, Some, IfErr, IfOk, OnOk, position};
ghost use Rattle.plan_kit.specs.Feeds.{plan_of};
ghost use Rattle.plan_kit.specs.PlanFaults.{own_fault};
ghost use Rattle.plan_kit.specs.declared.fault.PlanFault.TheVariants as faults;
ghost use Rattle.archive_kit.specs.Planning.{is_reserved, plan_refusal};
ghost use Rattle.archive_kit.specs.Tombstones.{tombstones};

use crate::PlanRefusal;
use crate::tombstone::SCOPE;
use attr_kit::Seq;
use plan_kit::{Instrument, Plan, View};
use std::alloc::Global;

// The least place of an instrument that has the scope of tombstones.
fn reserved_at(instruments: &[Instrument]) -> Option<usize>
    ensures { result ≡ position is_reserved instruments.now }
{
    instruments.iter().position(|i| i.scope.as_str() == SCOPE)
}

/// The plan of a writer whose points may lie beside those of archives: the one that `Plan::build` makes. None of its streams
/// has the scope of tombstones, so no point of the writer is one, and none of them hides points of others.
///
/// Refused, in this order: what `Plan::build` refuses, `ReservedScope`. Cost: one comparison for each instrument beside that of
/// `Plan::build`, and no memory.
#[tactic(auto, using(crate::proofs::Reserved::streams_apart))]
pub fn build_plan(
    alloc: Global,
    instruments: Seq<Instrument>,
    views: Seq<View>,
    limit: u64,
) -> Result<Plan, PlanRefusal>
    ensures ok { OnOk result (plan_refusal instruments views limit ≡ None) }
    ensures value { IfOk result (λ plan. plan ≡ plan_of instruments views limit) }
    ensures apart { IfOk result (λ plan. All (λ s. s.scope ≢ tombstones.scope) plan.streams) }
    ensures err { IfErr result (λ f. f ≢ PlanRefusal.Plan faults.NoMemory → plan_refusal instruments views limit ≡ Some f) }
    ensures no_memory { IfErr result (λ f. f ≡ PlanRefusal.Plan faults.NoMemory → own_fault instruments views ≡ None) }
{
    let reserved = reserved_at(instruments.as_slice());
    let plan = Plan::build(alloc, instruments, views, limit)?;
    match reserved {
        Some(place) => Err(PlanRefusal::ReservedScope(place)),
        None => Ok(plan),
    }
}
