//! Held points: an instrument and a set, with the places where their values go.
ghost use Rattle.std.specs.Prelude.{◌≡◌, ◌≤◌, ◌<◌, ◌&&◌, ℕ, ℤ, pos, int_lt, false, [], length, slice_get, Some, IfOk, IfSome, vec_capacity};
ghost use Rattle.agg_kit.specs.Feeding.{overflow_set};
ghost use Rattle.agg_kit.specs.Feeds.{is_copied, AreHeld};
ghost use Rattle.agg_kit.specs.Held.{held_of, lone_feed, place_at, AreOf, HasRoom, HaveRoom, IsPlaceless, KnowPlaces, StandAt};
ghost use Rattle.agg_kit.specs.declared.held.HeldPoint.{HeldPoint};
ghost use Rattle.plan_kit.specs.Plans.{Planned, feeds_of, AreFeeds};
ghost use Rattle.agg_kit.specs.Refusals.{is_negative_for};
ghost use Rattle.agg_kit.specs.Tallies.{Tallied};
ghost use Rattle.attr_kit.specs.declared.attr_set.AttrSet.{AttrSet};

use crate::recording::{restricted, set_or};
use crate::series::Series;
use attr_kit::{AttrSet, Keep, NoMemory};
use plan_kit::{Feed, Kind, Plan};
use std::alloc::Global;

/// The place of a point, where the instrument has one feed, which keeps all keys; and whether the instrument takes no value below 0.
#[derive(Clone, Copy)]
pub(crate) struct OwnPlace {
    pub(crate) stream: usize,
    pub(crate) place: usize,
    pub(crate) rises: bool,
}

/// An instrument and a set that are held.
#[derive(Drop)]
pub(crate) struct HeldPoint {
    pub(crate) instrument: usize,
    pub(crate) attrs: AttrSet,
    pub(crate) places: Places,
}

/// Where the values of an instrument and a set go in a tally, as far as it is known. `Tally::measure_at` keeps it true.
#[derive(Drop)]
pub struct Places {
    // The place of each feed's point, in the order of the feeds, or none.
    pub(crate) each: Vec<usize>,
    // A short way there, where it is known.
    pub(crate) own: Option<OwnPlace>,
}

impl Places {
    /// Of which nothing is known. Takes no memory.
    pub fn unknown(alloc: Global) -> Places
        ensures none { IsPlaceless result }
        ensures known { (t : Tallied) (i : ℕ) (a : AttrSet) → AreOf t i a result }
    {
        Places {
            each: Vec::new(alloc),
            own: None,
        }
    }

    /// Of which nothing is known, with room for those of an instrument, so that they are found without memory.
    pub(crate) fn unknown_of(
        alloc: Global,
        plan: &Plan,
        instrument: usize,
    ) -> Result<Places, NoMemory>
        ensures none { IfOk result (λ k. IsPlaceless k) }
        ensures room { IfOk result (λ k. HasRoom (feeds_of plan.now instrument) k) }
    {
        let mut places = Places::unknown(alloc);
        let Some(feeds) = plan.feeds(instrument) else {
            return Ok(places);
        };
        if lone_stream(feeds).is_some() {
            return Ok(places);
        }
        places.each.reserve_exact(feeds.len())?;
        Ok(places)
    }
}

/// The stream of a feed that has no other beside it and keeps all keys: a short way leads to its points.
pub(crate) fn lone_stream(feeds: &[Feed]) -> Option<usize>
    ensures { IfSome result (λ m. feeds.now ≡ lone_feed m) }
{
    let Some((feed, rest)) = feeds.split_first() else {
        return None;
    };
    if !rest.is_empty() {
        return None;
    }
    match &feed.keep {
        Keep::All => Some(feed.stream),
        Keep::Only(_) => None,
    }
}

/// Fills in the place of each feed's point, in the order of the feeds, or none where a point is not there or memory is refused. It asks
/// for no memory where there is room for all and no feed copies what it keeps.
pub(crate) fn fill_places(
    each: &mut Vec<usize>,
    plan: &Plan,
    overflow: &AttrSet,
    series: &Vec<Series>,
    feeds: &[Feed],
    attrs: &AttrSet,
)
    requires empty { each.old.items ≡ [] }
    requires overflow { overflow.now ≡ overflow_set }
    requires feeds { AreFeeds (length series.now.items) feeds.now }
    ensures known { KnowPlaces plan.now feeds.now each.new.items attrs.now series.now.items }
    ensures found { length feeds.now ≤ vec_capacity each.old → AreHeld plan.now feeds.now attrs.now series.now.items
        → StandAt plan.now feeds.now each.new.items attrs.now series.now.items }
    ensures room { vec_capacity each.old ≤ vec_capacity each.new }
{
    if each.reserve_exact(feeds.len()).is_err() {
        return;
    }
    for feed in feeds {
        let Some(place) = place_at(plan, overflow, series, feed, attrs) else {
            each.clear();
            return;
        };
        each.push_reserved(place);
    }
}

// Where the point stands to which a feed brings values of a set, if it is there and memory is.
fn place_at(
    plan: &Plan,
    overflow: &AttrSet,
    series: &Vec<Series>,
    feed: &Feed,
    attrs: &AttrSet,
) -> Option<usize>
    requires overflow { overflow.now ≡ overflow_set }
    requires stream { feed.now.stream < length series.now.items }
    ensures at { IfSome result (λ i. place_at plan.now attrs.now series.now.items feed.now ≡ Some i) }
    ensures found { is_copied feed.now.keep attrs.now ≡ false → result ≡ place_at plan.now attrs.now series.now.items feed.now }
{
    let Ok(only) = restricted(attrs, &feed.keep) else {
        return None;
    };
    series[feed.stream].find(plan.limit(), overflow, set_or(&only, attrs))
}

/// Whether an instrument of the kind takes no value below 0.
#[inline(always)]
pub(crate) fn only_rises(kind: Option<Kind>) -> bool
    ensures { (v : ℤ) → is_negative_for kind v ≡ (result && int_lt v (pos 0)) }
{
    matches!(kind, Some(Kind::Counter | Kind::Histogram))
}

/// Forgets all places. The room for them stays.
pub(crate) fn forget_places(held: &mut Vec<HeldPoint>)
    ensures room { (p : Planned) → HaveRoom p held.old.items → HaveRoom p held.new.items }
    ensures same { held_of held.new.items ≡ held_of held.old.items }
    ensures none { (n : ℕ) (h : HeldPoint) → slice_get held.new.items n ≡ Some h → IsPlaceless h.places }
{
    for index in 0..held.len() {
        let point = &mut held[index];
        point.places.each.clear();
        point.places.own = None;
    }
}

/// Equal held points of a plan, which know no places and have room for them.
pub(crate) fn copy_held(plan: &Plan, held: &Vec<HeldPoint>) -> Result<Vec<HeldPoint>, NoMemory>
    ensures room { IfOk result (λ copy. HaveRoom plan.now copy.items) }
    ensures same { IfOk result (λ copy. held_of copy.items ≡ held_of held.now.items) }
    ensures none { IfOk result (λ copy. (n : ℕ) (h : HeldPoint) → slice_get copy.items n ≡ Some h → IsPlaceless h.places) }
{
    let alloc = *held.allocator();
    let mut copy = Vec::with_capacity(alloc, held.len())?;
    for point in held {
        copy.push(HeldPoint {
            instrument: point.instrument,
            attrs: point.attrs.try_copy()?,
            places: Places::unknown_of(alloc, plan, point.instrument)?,
        })?;
    }
    Ok(copy)
}
