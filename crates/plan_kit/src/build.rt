//! How a plan is built from instruments and views.
ghost use Rattle.std.specs.Prelude.{◌≡◌, ◌≢◌, Some, None, true, not, map, IfOk, IfErr, OnOk};
ghost use Rattle.std.specs.List.{list_all};
ghost use Rattle.plan_kit.specs.Aggregations.{has_bad_bounds};
ghost use Rattle.plan_kit.specs.Feeds.{wanted_of, plan_from, plan_of};
ghost use Rattle.plan_kit.specs.PlanFaults.{own_fault, joint_fault, plan_fault};
ghost use Rattle.plan_kit.specs.Views.{with_name_lowered};

use crate::clashes::same_stream;
use crate::misfit::misfit_at;
use crate::names::in_lower_case;
use crate::owners::owners;
use crate::refusals::fault_of_its_own;
use crate::view_index::ViewIndex;
use crate::wanted::wanted_feeds;
use crate::{Instrument, Plan, PlanFault, View};
use attr_kit::{NoMemory, Seq};
use std::alloc::Global;

fn with_lower_name(instrument: Instrument) -> Instrument
    ensures { result ≡ with_name_lowered instrument }
{
    Instrument {
        scope: instrument.scope,
        name: in_lower_case(instrument.name),
        unit: instrument.unit,
        kind: instrument.kind,
    }
}

// The instruments with their names in lower case. Copies no text.
fn with_lower_names(
    alloc: Global,
    instruments: Vec<Instrument>,
) -> Result<Vec<Instrument>, NoMemory>
    ensures { IfOk result (λ named. named.items ≡ map with_name_lowered instruments.items) }
{
    Ok(instruments.into_iter().map(with_lower_name).collect(alloc)?)
}

// The plan of lowered instruments and of views that are good by themselves.
#[tactic(auto, unfolding(crate::specs::PlanFaults::joint_fault))]
fn joint(alloc: Global, named: &[Instrument], views: &[View], limit: u64) -> Result<Plan, PlanFault>
    requires { list_all (λ v. not (has_bad_bounds v.aggregation)) views.now ≡ true }
    ensures ok { OnOk result (joint_fault named.now views.now limit ≡ None) }
    ensures value { IfOk result (λ plan. plan ≡ plan_from named.now (wanted_of views.now named.now) limit) }
    ensures err { IfErr result (λ f. f ≢ PlanFault.NoMemory → joint_fault named.now views.now limit ≡ Some f) }
{
    let feeding = ViewIndex::build(alloc, views, false)?;
    let dropping = ViewIndex::build(alloc, views, true)?;
    let owners = owners(alloc, named)?;
    if let Some((instrument, view)) = misfit_at(alloc, &feeding, views, named, owners.as_slice())? {
        return Err(PlanFault::BadAggregation(instrument, view));
    }
    let wanted = wanted_feeds(alloc, &feeding, &dropping, views, named, owners.as_slice())?;
    if let Some((first, second)) = same_stream(alloc, wanted.as_slice())? {
        return Err(PlanFault::SameStream(first, second));
    }
    if limit == 0 {
        return Err(PlanFault::BadLimit);
    }
    Ok(Plan::finish(alloc, named, owners.as_slice(), wanted.as_slice(), limit)?)
}

impl Plan {
    /// The plan that instruments and views give (OpenTelemetry Metrics SDK, "View"), in which each stream has points of
    /// their own for so many attribute sets.
    ///
    /// The first refusal that fits is answered, in the order of `PlanFault`, with the least place: the name of an
    /// instrument, its unit, the bounds of a view, its new name, a new name for every name, an aggregation that does not
    /// fit an instrument that the view matches, two feeds of one stream, a limit of 0. Memory is wanted only after the first
    /// five.
    ///
    /// An instrument equal to an earlier one (scope, unit and kind equal, names equal but for the case of ASCII letters)
    /// has the feeds of that one. Streams are numbered from 0 in the order of the feeds.
    ///
    /// Cost: two hash look-ups for each view, three for each instrument and one for each feed, and a walk over the views that
    /// match an instrument's name; a view of every name is walked at each instrument, but of those that drop only up to the
    /// first that matches. Only where two feeds have one stream are all feeds compared.
    #[tactic(auto, unfolding(crate::specs::PlanFaults::plan_fault, crate::specs::Feeds::plan_of))]
    pub fn build(
        alloc: Global,
        instruments: Seq<Instrument>,
        views: Seq<View>,
        limit: u64,
    ) -> Result<Plan, PlanFault>
        ensures ok { OnOk result (plan_fault instruments views limit ≡ None) }
        ensures value { IfOk result (λ plan. plan ≡ plan_of instruments views limit) }
        ensures err { IfErr result (λ f. f ≢ PlanFault.NoMemory → plan_fault instruments views limit ≡ Some f) }
        ensures no_memory { IfErr result (λ f. f ≡ PlanFault.NoMemory → own_fault instruments views ≡ None) }
    {
        match fault_of_its_own(instruments.as_slice(), views.as_slice()) {
            Some(fault) => Err(fault),
            None => {
                let named = with_lower_names(alloc, instruments.into_vec())?;
                joint(alloc, named.as_slice(), views.as_slice(), limit)
            }
        }
    }
}
