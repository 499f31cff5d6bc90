//! The bounds that histograms have in common.
ghost use Rattle.std.specs.Prelude.{◌≡◌, ◌+◌, ◌++◌, ◌∷◌, [], ℤ, filter, slice_index, int_le, if◌then◌else◌, IfOk, OnOk};
ghost use Rattle.std.specs.List.{list_any};
ghost use Rattle.std.specs.Option.{option_map};
ghost use Rattle.std.specs.Ordering.{eq_by_cmp, int_cmp};
ghost use Rattle.gateway_kit.specs.Walks.{keyed_cell_of_ref};
ghost use Rattle.page_kit.specs.Bounds.{bounds_in, buckets_in, is_shown, rising, bounds_with, AreBounds, count_up_to, within_room, values_up_to};
ghost use Rattle.page_kit.specs.Views.{cells};

use attr_kit::{NoMemory, Txt};
use gateway_kit::PointRef;
use point_kit::{Held, Payload, Shape};
use std::alloc::Global;
use std::collections::{BTreeMap, BTreeSet};

// Beyond it two numbers may be one double.
const MOST: i64 = 9007199254740992;

// The bounds of a point's stream.
fn bounds_in<'a>(point: PointRef<'a>) -> &'a [i64]
    ensures { result.now ≡ bounds_in (keyed_cell_of_ref point.entry) }
{
    match &point.stream.shape {
        Shape::Histogram { bounds } => bounds.as_slice(),
        Shape::Sum { .. } | Shape::Gauge => &[],
    }
}

// The counts of a point's buckets.
fn buckets_in<'a>(point: PointRef<'a>) -> &'a [u64]
    ensures { result.now ≡ buckets_in (keyed_cell_of_ref point.entry).1.held }
{
    match &point.cell.held {
        Held::One(Payload::Hist { buckets, .. }) => buckets.as_slice(),
        _ => &[],
    }
}

fn is_shown(bound: i64) -> bool
    ensures { result ≡ is_shown bound }
{
    0 <= bound && bound <= MOST
}

// The bounds as a set.
fn set_of(alloc: Global, bounds: &[i64]) -> Result<BTreeSet<i64>, NoMemory>
    ensures keys { IfOk result (λ set. set.keys ≡ rising bounds.now) }
    ensures has { IfOk result (λ set. (q : ℤ) → list_any (eq_by_cmp int_cmp q) set.keys ≡ list_any (eq_by_cmp int_cmp q) bounds.now) }
{
    let mut set = BTreeSet::new(alloc);
    for bound in bounds {
        set.insert(*bound)?;
    }
    Ok(set)
}

// Puts a bound behind others, if it passes.
fn push_if(bounds: &mut Vec<i64>, bound: i64, passes: bool) -> Result<(), NoMemory>
    ensures { OnOk result (bounds.new.items ≡ (if passes then bounds.old.items ++ bound ∷ [] else bounds.old.items)) }
{
    if !passes {
        return Ok(());
    }
    bounds.push(bound)?;
    Ok(())
}

// Puts a bound behind others, if it can be shown.
fn push_shown(bounds: &mut Vec<i64>, bound: i64) -> Result<(), NoMemory>
    ensures { OnOk result (bounds.new.items ≡ bounds.old.items ++ filter is_shown (bound ∷ [])) }
{
    if !is_shown(bound) {
        return Ok(());
    }
    bounds.push(bound)?;
    Ok(())
}

// Those that can be shown, rising.
fn shown(alloc: Global, bounds: &[i64]) -> Result<Vec<i64>, NoMemory>
    ensures { IfOk result (λ shown. shown.items ≡ filter is_shown (rising bounds.now)) }
{
    let set = set_of(alloc, bounds)?;
    let mut shown = Vec::new(alloc);
    for bound in set {
        push_shown(&mut shown, bound)?;
    }
    Ok(shown)
}

// Those that stand among others.
fn kept(alloc: Global, bounds: &[i64], others: &[i64]) -> Result<Vec<i64>, NoMemory>
    ensures { IfOk result (λ kept. kept.items ≡ filter (λ bound. list_any (eq_by_cmp int_cmp bound) others.now) bounds.now) }
{
    let set = set_of(alloc, others)?;
    let mut kept = Vec::new(alloc);
    for bound in bounds {
        let passes = set.contains(bound);
        push_if(&mut kept, *bound, passes)?;
    }
    Ok(kept)
}

// The bounds that are shared by so many points, and by one more with these bounds.
fn bounds_with(
    alloc: Global,
    shared: Option<&Vec<i64>>,
    bounds: &[i64],
) -> Result<Vec<i64>, NoMemory>
    ensures { IfOk result (λ both. both.items ≡ bounds_with (option_map (λ v. v.now.items) shared.entry) bounds.now) }
{
    match shared {
        Some(shared) => kept(alloc, shared.as_slice(), bounds),
        None => {
            let shown = shown(alloc, bounds)?;
            kept(alloc, shown.as_slice(), bounds)
        }
    }
}

/// The bounds that all points of a service have, rising, of those that can be shown; under each service.
pub(crate) fn bounds_of_services(
    alloc: Global,
    points: &[PointRef],
) -> Result<BTreeMap<Txt, Vec<i64>>, NoMemory>
    ensures { IfOk result (λ services. AreBounds (λ v. v.items) (cells points.now) services.entries) }
{
    let mut services = BTreeMap::new(alloc);
    for point in points {
        let service = &point.writer.service;
        let bounds = bounds_with(alloc, services.get(service), bounds_in(*point))?;
        services.insert(service.try_copy()?, bounds)?;
    }
    Ok(services)
}

// The count of the bucket at a place, where its own bound is at most this one.
fn counted(limit: &i64, bound: &i64, buckets: &[u64], place: usize) -> u64
    ensures { result ≡ (if int_le limit.now bound.now then slice_index buckets.now place else 0) }
{
    if *limit <= *bound && place < buckets.len() {
        buckets[place]
    } else {
        0
    }
}

// Adds the counts of the buckets whose own bound is at most this one.
fn add_up_to(count: u128, bound: &i64, limits: &[i64], buckets: &[u64]) -> u128
    ensures { result ≡ within_room (count + count_up_to bound.now limits.now buckets.now) }
{
    let mut total = count;
    for (place, limit) in limits.iter().enumerate() {
        let more = counted(limit, bound, buckets, place);
        total = total.saturating_add(u128::from(more));
    }
    total
}

/// How many values of all points are not above a bound.
pub(crate) fn values_up_to(bound: &i64, points: &[PointRef]) -> u128
    ensures { result ≡ values_up_to bound.now (cells points.now) }
{
    let mut count = 0;
    for point in points {
        count = add_up_to(count, bound, bounds_in(*point), buckets_in(*point));
    }
    count
}
