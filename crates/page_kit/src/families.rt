//! The metrics of points, and which of them are shown.
ghost use Rattle.std.specs.Prelude.{◌≡◌, ◌++◌, ◌∷◌, [], if◌then◌else◌, IfOk, OnOk};
ghost use Rattle.page_kit.specs.Families.{metrics_of, rank_of, ranked, by_name, own_names, IsClaimed, shown_after, hidden_after, shown_metrics, hidden_metrics};
ghost use Rattle.page_kit.specs.Views.{cells, cell_lists, with_cells, all_measured};

use crate::claims::{claim, is_claimed};
use crate::groups::{list_of, put, values_of};
use crate::metric::Metric;
use crate::own::own_names;
use crate::totals::born_of;
use attr_kit::{NoMemory, Txt};
use gateway_kit::PointRef;
use std::alloc::Global;
use std::cmp::Reverse;
use std::collections::{BTreeMap, BTreeSet};

/// A metric and its points.
#[derive(Drop)]
pub(crate) struct Measured<'a> {
    pub(crate) metric: Metric,
    pub(crate) points: Vec<PointRef<'a>>,
}

/// Whose names come first: the metric that was born last, and of these the least.
#[derive(PartialEq, Eq, PartialOrd, Ord, Drop)]
pub(crate) struct Rank {
    born: Reverse<u64>,
    metric: Metric,
}

/// Metrics that are shown, and those that are not.
#[derive(Drop)]
pub(crate) struct Families<'a> {
    pub(crate) shown: Vec<Measured<'a>>,
    pub(crate) hidden: Vec<Measured<'a>>,
}

// The points by their metrics.
#[tactic(auto, unfolding(crate::specs::Families::metrics_of))]
fn by_metric<'a>(
    alloc: Global,
    points: &[PointRef<'a>],
) -> Result<Vec<(Metric, Vec<PointRef<'a>>)>, NoMemory>
    ensures { IfOk result (λ list. cell_lists list.items ≡ metrics_of (cells points.now)) }
{
    let mut groups = BTreeMap::new(alloc);
    for point in points {
        let metric = Metric::of(point.stream)?;
        put(alloc, &mut groups, metric, *point)?;
    }
    list_of(alloc, groups)
}

fn metrics_of<'a>(alloc: Global, points: &[PointRef<'a>]) -> Result<Vec<Measured<'a>>, NoMemory>
    ensures { IfOk result (λ metrics. all_measured metrics.items ≡ metrics_of (cells points.now)) }
{
    let mut metrics = Vec::new(alloc);
    let groups = by_metric(alloc, points)?;
    for (metric, points) in groups {
        metrics.push(Measured { metric, points })?;
    }
    Ok(metrics)
}

fn rank_of(measured: &Measured<'_>) -> Result<Rank, NoMemory>
    ensures { IfOk result (λ rank. rank ≡ rank_of (with_cells measured.now)) }
{
    Ok(Rank {
        born: Reverse(born_of(measured.points.as_slice())),
        metric: measured.metric.try_copy()?,
    })
}

// The metrics in the order of their ranks.
#[tactic(auto, unfolding(crate::specs::Families::ranked))]
fn ranked<'a>(alloc: Global, metrics: Vec<Measured<'a>>) -> Result<Vec<Measured<'a>>, NoMemory>
    ensures { IfOk result (λ list. all_measured list.items
        ≡ ranked (all_measured metrics.entry.items)) }
{
    let mut groups = BTreeMap::new(alloc);
    for measured in metrics {
        let rank = rank_of(&measured)?;
        put(alloc, &mut groups, rank, measured)?;
    }
    values_of(alloc, groups)
}

// The metrics in the order of their families' names.
#[tactic(auto, unfolding(crate::specs::Families::by_name))]
fn by_name<'a>(alloc: Global, metrics: Vec<Measured<'a>>) -> Result<Vec<Measured<'a>>, NoMemory>
    ensures { IfOk result (λ list. all_measured list.items
        ≡ by_name (all_measured metrics.entry.items)) }
{
    let mut groups = BTreeMap::new(alloc);
    for measured in metrics {
        let family = measured.metric.family(alloc)?;
        let name = Txt::from_string(family);
        put(alloc, &mut groups, name, measured)?;
    }
    values_of(alloc, groups)
}

// Puts a metric to those that are shown, or to the others.
fn add<'a>(
    families: &mut Families<'a>,
    measured: Measured<'a>,
    is_claimed: bool,
) -> Result<(), NoMemory>
    ensures shown { OnOk result (families.new.shown.items
        ≡ (if is_claimed then families.old.shown.items else families.old.shown.items ++ measured.entry ∷ [])) }
    ensures hidden { OnOk result (families.new.hidden.items
        ≡ (if is_claimed then families.old.hidden.items ++ measured.entry ∷ [] else families.old.hidden.items)) }
{
    if is_claimed {
        families.hidden.push(measured)?;
    } else {
        families.shown.push(measured)?;
    }
    Ok(())
}

// None yet.
fn nothing<'a>(alloc: Global) -> Families<'a>
    ensures shown { result.shown.items ≡ [] }
    ensures hidden { result.hidden.items ≡ [] }
{
    Families {
        shown: Vec::new(alloc),
        hidden: Vec::new(alloc),
    }
}

// The names of the kit's own, claimed.
fn own_claims(alloc: Global) -> Result<BTreeSet<Txt>, NoMemory>
    ensures { IfOk result (λ claimed. IsClaimed own_names claimed.keys) }
{
    let mut claimed = BTreeSet::new(alloc);
    claim(&mut claimed, own_names(alloc)?)?;
    Ok(claimed)
}

// Metrics that claim names which none before them claims, nor the kit, and the others.
fn told_apart<'a>(alloc: Global, metrics: Vec<Measured<'a>>) -> Result<Families<'a>, NoMemory>
    ensures shown { IfOk result (λ f. all_measured f.shown.items
        ≡ shown_after own_names (all_measured metrics.entry.items)) }
    ensures hidden { IfOk result (λ f. all_measured f.hidden.items
        ≡ hidden_after own_names (all_measured metrics.entry.items)) }
{
    let mut claimed = own_claims(alloc)?;
    let mut families = nothing(alloc);
    for measured in metrics {
        let claims = measured.metric.claims(alloc)?;
        let taken = is_claimed(&claimed, claims.as_slice());
        claim(&mut claimed, claims)?;
        add(&mut families, measured, taken)?;
    }
    Ok(families)
}

/// The metrics of points: those that are shown, in the order of their families' names, and the others.
#[tactic(auto, unfolding(crate::specs::Families::shown_metrics, crate::specs::Families::hidden_metrics))]
pub(crate) fn families_of<'a>(
    alloc: Global,
    points: &[PointRef<'a>],
) -> Result<Families<'a>, NoMemory>
    ensures shown { IfOk result (λ f. all_measured f.shown.items ≡ shown_metrics (cells points.now)) }
    ensures hidden { IfOk result (λ f. all_measured f.hidden.items ≡ hidden_metrics (cells points.now)) }
{
    let metrics = metrics_of(alloc, points)?;
    let ranked = ranked(alloc, metrics)?;
    let Families { shown, hidden } = told_apart(alloc, ranked)?;
    let shown = by_name(alloc, shown)?;
    Ok(Families { shown, hidden })
}
