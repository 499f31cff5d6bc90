//! How a recording goes into the streams of its feeds.
ghost use Rattle.std.specs.Prelude.{◌≡◌, ◌≢◌, ◌<◌, ℕ, true, length, slice_get, Some, None, IfOk, IfErr, IfSome, OnOk, OnErr, IsTrue};
ghost use Rattle.std.specs.Option.{unwrap_or};
ghost use Rattle.plan_kit.specs.Plans.{is_proper, AreFeeds, lacks};
ghost use Rattle.attr_kit.specs.Keeping.{kept};
ghost use Rattle.agg_kit.specs.Feeding.{overflow_set};
ghost use Rattle.agg_kit.specs.Feeds.{series_at, entries_of, shape_at, early_out_at, is_copied, out_at, points_with, AreHeld};
ghost use Rattle.agg_kit.specs.Held.{lone_feed, place_of, KnowPlaces, MayGive, StandAt};
ghost use Rattle.agg_kit.specs.Sound.{AllSound};
ghost use Rattle.agg_kit.specs.declared.fault.TallyFault.TheVariants as faults;

use crate::TallyFault;
use crate::series::Series;
use attr_kit::{AttrSet, Keep, NoMemory};
use plan_kit::{Feed, Plan};
use point_kit::Shape;

/// What the feeds of a recording found so far: each the memory that it wanted, or one of them none.
#[derive(Clone, Copy)]
enum Memory {
    Found,
    Short,
}

// The shape of a stream.
#[inline(always)]
fn shape_of(plan: &Plan, stream: usize) -> &Shape
    requires { stream < length plan.now.streams }
    ensures value { result.now ≡ shape_at plan.now stream }
    ensures proper { IsTrue (is_proper result.now) }
{
    &plan.stream(stream).unwrap().shape
}

/// The set that a feed keeps of the attributes, or none where it keeps them all: they are not copied. Takes no memory where it keeps none.
pub(crate) fn restricted(attrs: &AttrSet, keep: &Keep) -> Result<Option<AttrSet>, NoMemory>
    ensures value { IfOk result (λ set. unwrap_or set attrs.now ≡ kept keep.now attrs.now) }
    ensures no_memory { OnErr result (is_copied keep.now attrs.now ≡ true) }
{
    match keep {
        Keep::All => Ok(None),
        Keep::Only(_) => Ok(Some(attrs.kept(keep)?)),
    }
}

/// That set, or the attributes where there is none.
pub(crate) fn set_or<'a>(only: &'a Option<AttrSet>, attrs: &'a AttrSet) -> &'a AttrSet
    ensures { result.now ≡ unwrap_or only.now attrs.now }
{
    match only {
        Some(set) => set,
        None => attrs,
    }
}

// The place of the point that a set feeds, if it is there: the first of the places that are given, or that which is found.
#[inline(always)]
fn place_in(
    points: &Series,
    limit: u64,
    overflow: &AttrSet,
    set: &AttrSet,
    places: &[usize],
) -> Option<usize>
    requires overflow { overflow.now ≡ overflow_set }
    requires given { MayGive places.now (place_of limit points.now.entries set.now) }
    ensures { result ≡ place_of limit points.now.entries set.now }
{
    match places.split_first() {
        Some((place, _)) => Some(*place),
        None => points.find(limit, overflow, set),
    }
}

/// Records a value in every feed's stream, or in none. Where the stream of a lone feed is given and the point is there, the
/// point's place alone is needed. `places` are those of the feeds' points, or none.
#[inline(always)]
pub(crate) fn record(
    plan: &Plan,
    overflow: &AttrSet,
    series: &mut Vec<Series>,
    lone: Option<usize>,
    feeds: &[Feed],
    attrs: &AttrSet,
    places: &[usize],
    value: i64,
) -> Result<(), TallyFault>
    requires overflow { overflow.now ≡ overflow_set }
    requires lone { IfSome lone (λ m. feeds.now ≡ lone_feed m) }
    requires feeds { AreFeeds (length series.old.items) feeds.now }
    requires sound { AllSound plan.now.streams (entries_of series.old.items) }
    requires known { KnowPlaces plan.now feeds.now places.now attrs.now series.old.items }
    ensures value { OnOk result (entries_of series.new.items ≡ points_with plan.now feeds.now attrs.now value series.old.items) }
    ensures ok { OnOk result (out_at plan.now attrs.now value series.old.items feeds.now ≡ None) }
    ensures unchanged { OnErr result (entries_of series.new.items ≡ entries_of series.old.items) }
    ensures err { IfErr result (λ f. f ≢ faults.NoMemory → out_at plan.now attrs.now value series.old.items feeds.now ≡ Some f) }
    ensures no_memory { IfErr result (λ f. f ≡ faults.NoMemory → early_out_at plan.now attrs.now value series.old.items feeds.now ≡ None) }
    ensures held { AreHeld plan.now feeds.now attrs.now series.old.items → IfErr result (λ f. f ≢ faults.NoMemory) }
{
    if let Some(stream) = lone
        && let Some(place) = place_in(&series[stream], plan.limit(), overflow, attrs, places)
    {
        return add_own(plan, series, stream, place, attrs, value);
    }
    if places.is_empty() {
        record_each(plan, overflow, series, feeds, attrs, value, Memory::Found)
    } else {
        record_at(plan, series, feeds, attrs, places, value)
    }
}

/// Records a value at the place of a set's point, in the stream of a feed that has no other beside it and keeps all keys.
#[inline(always)]
pub(crate) fn add_own(
    plan: &Plan,
    series: &mut Vec<Series>,
    stream: usize,
    place: usize,
    attrs: &AttrSet,
    value: i64,
) -> Result<(), TallyFault>
    requires stream { stream < length series.old.items }
    requires sound { AllSound plan.now.streams (entries_of series.old.items) }
    requires at { place_of plan.now.limit (series_at (entries_of series.old.items) stream) attrs.now ≡ Some place }
    ensures value { OnOk result (entries_of series.new.items ≡ points_with plan.now (lone_feed stream) attrs.now value series.old.items) }
    ensures ok { OnOk result (out_at plan.now attrs.now value series.old.items (lone_feed stream) ≡ None) }
    ensures unchanged { OnErr result (entries_of series.new.items ≡ entries_of series.old.items) }
    ensures err { IfErr result (λ f. out_at plan.now attrs.now value series.old.items (lone_feed stream) ≡ Some f) }
    ensures memory { IfErr result (λ f. f ≢ faults.NoMemory) }
{
    let _ = attrs;
    let shape = shape_of(plan, stream);
    let points = &mut series[stream];
    if !points.try_add(place, shape, value) {
        return Err(TallyFault::Overflow(stream));
    }
    Ok(())
}

// Records a value in every feed's stream, or in none, where the places of the feeds' points are known.
fn record_at(
    plan: &Plan,
    series: &mut Vec<Series>,
    feeds: &[Feed],
    attrs: &AttrSet,
    places: &[usize],
    value: i64,
) -> Result<(), TallyFault>
    requires feeds { AreFeeds (length series.old.items) feeds.now }
    requires sound { AllSound plan.now.streams (entries_of series.old.items) }
    requires at { StandAt plan.now feeds.now places.now attrs.now series.old.items }
    ensures value { OnOk result (entries_of series.new.items ≡ points_with plan.now feeds.now attrs.now value series.old.items) }
    ensures ok { OnOk result (out_at plan.now attrs.now value series.old.items feeds.now ≡ None) }
    ensures unchanged { OnErr result (entries_of series.new.items ≡ entries_of series.old.items) }
    ensures err { IfErr result (λ f. out_at plan.now attrs.now value series.old.items feeds.now ≡ Some f) }
    ensures memory { IfErr result (λ f. f ≢ faults.NoMemory) }
    ensures len { length series.new.items ≡ length series.old.items }
    ensures others { (m : ℕ) → lacks m feeds.now → slice_get series.new.items m ≡ slice_get series.old.items m }
{
    let Some((feed, rest)) = feeds.split_first() else {
        return Ok(());
    };
    let (place, later) = places.split_first().unwrap();
    let shape = shape_of(plan, feed.stream);
    let points = &series[feed.stream];
    if !points.takes(*place, value) {
        return Err(TallyFault::Overflow(feed.stream));
    }
    record_at(plan, series, rest, attrs, later, value)?;
    series[feed.stream].add(*place, shape, value);
    Ok(())
}

// Records a value in every feed's stream, or in none. `memory` is what the earlier feeds found.
fn record_each(
    plan: &Plan,
    overflow: &AttrSet,
    series: &mut Vec<Series>,
    feeds: &[Feed],
    attrs: &AttrSet,
    value: i64,
    memory: Memory,
) -> Result<(), TallyFault>
    requires overflow { overflow.now ≡ overflow_set }
    requires feeds { AreFeeds (length series.old.items) feeds.now }
    requires sound { AllSound plan.now.streams (entries_of series.old.items) }
    ensures value { OnOk result (entries_of series.new.items ≡ points_with plan.now feeds.now attrs.now value series.old.items) }
    ensures ok { OnOk result (out_at plan.now attrs.now value series.old.items feeds.now ≡ None) }
    ensures had { OnOk result (memory ≡ Memory.Found) }
    ensures unchanged { OnErr result (entries_of series.new.items ≡ entries_of series.old.items) }
    ensures err { IfErr result (λ f. f ≢ faults.NoMemory → out_at plan.now attrs.now value series.old.items feeds.now ≡ Some f) }
    ensures no_memory { IfErr result (λ f. f ≡ faults.NoMemory → early_out_at plan.now attrs.now value series.old.items feeds.now ≡ None) }
    ensures held { memory ≡ Memory.Found → AreHeld plan.now feeds.now attrs.now series.old.items → IfErr result (λ f. f ≢ faults.NoMemory) }
    ensures len { length series.new.items ≡ length series.old.items }
    ensures others { (m : ℕ) → lacks m feeds.now → slice_get series.new.items m ≡ slice_get series.old.items m }
{
    let Some((feed, rest)) = feeds.split_first() else {
        return match memory {
            Memory::Found => Ok(()),
            Memory::Short => Err(TallyFault::NoMemory),
        };
    };
    let only = restricted(attrs, &feed.keep)?;
    let set = set_or(&only, attrs);
    let limit = plan.limit();
    let shape = shape_of(plan, feed.stream);
    let points = &mut series[feed.stream];
    let Some(place) = points.find(limit, overflow, set) else {
        let Ok(fresh) = points.fresh(limit, overflow, set, shape, value) else {
            // It is refused, and the feeds that follow say why.
            return record_each(plan, overflow, series, rest, attrs, value, Memory::Short);
        };
        record_each(plan, overflow, series, rest, attrs, value, memory)?;
        series[feed.stream].insert(fresh);
        return Ok(());
    };
    if !points.takes(place, value) {
        return Err(TallyFault::Overflow(feed.stream));
    }
    record_each(plan, overflow, series, rest, attrs, value, memory)?;
    series[feed.stream].add(place, shape, value);
    Ok(())
}
