//! The streams of a plan with their points.
ghost use Rattle.std.specs.Prelude.{◌≡◌, ◌≤◌, ◌&&◌, [], ℕ, pos, int_lt, length, replicate, slice_get, Some, IfOk, IfSome, OnErr, OnOk, vec_capacity};
ghost use Rattle.std.specs.Option.{option_map};
ghost use Rattle.agg_kit.specs.Entries.{entry_of};
ghost use Rattle.agg_kit.specs.Feeding.{overflow_set};
ghost use Rattle.agg_kit.specs.Feeds.{entries_of};
ghost use Rattle.agg_kit.specs.Held.{lone_feed, AreKnown, AreOf, IsFed, IsOwnPlace};
ghost use Rattle.agg_kit.specs.Kept.{AreLone};
ghost use Rattle.agg_kit.specs.Measuring.{emptied_tally, empty_tally, IsMeasured};
ghost use Rattle.agg_kit.specs.Sound.{AllSound};
ghost use Rattle.plan_kit.specs.Plans.{feeds_of, AreFeeds};

use crate::held::{OwnPlace, fill_places, lone_stream, only_rises};
use crate::recording::{add_own, record};
use crate::series::Series;
use crate::{Places, TallyFault};
use attr_kit::{AttrSet, AttrValue, Keep, NoMemory, Txt};
use plan_kit::{Feed, Plan};
use std::alloc::Global;
use std::marker::Model;

/// The streams of a plan with their points: a tally that holds nothing.
#[derive(Drop)]
pub(crate) struct Streams {
    plan: Plan,
    overflow: AttrSet,
    series: Vec<Series>,
    // Of each instrument with one feed, which keeps all keys, the feed's stream: a short way to its points.
    lone: Vec<Option<usize>>,
}

impl Model for Streams {
    ghost use Rattle.std.specs.Prelude.{[]};
    ghost use Rattle.agg_kit.specs.Feeds.{entries_of};
    ghost use Rattle.agg_kit.specs.Tallies.{Tallied};
    ghost use Rattle.agg_kit.specs.Kept.{AreStreams};

    ghost Value = { Tallied };

    ghost view = { λ s. record { plan = s.plan; series = entries_of s.series.items; held = [] } };

    ghost invariant = { λ s. AreStreams s.plan s.overflow (entries_of s.series.items) s.lone.items };
}

impl Streams {
    /// Those of a plan, without points.
    pub(crate) fn new(alloc: Global, plan: Plan) -> Result<Streams, NoMemory>
        ensures value { IfOk result (λ streams. streams ≡ empty_tally plan) }
    {
        let overflow = overflow_attrs(alloc)?;
        let series = no_points(alloc, plan.streams_len())?;
        let lone = lone_streams(alloc, &plan)?;
        Ok(Streams {
            plan,
            overflow,
            series,
            lone,
        })
    }

    /// Records a value by what is known of the places where it goes, and finds them where nothing is known.
    #[inline(always)]
    pub(crate) fn measure_at(
        &mut self,
        places: &mut Places,
        instrument: usize,
        attrs: &AttrSet,
        value: i64,
    ) -> Result<(), TallyFault>
        requires { AreOf self.old instrument attrs.now places.old }
        ensures measured { IsMeasured self.old self.new (entry_of instrument attrs.now value) result }
        ensures places { AreOf self.new instrument attrs.now places.new }
        ensures room { vec_capacity places.old.each ≤ vec_capacity places.new.each }
    {
        if let Some(own) = places.own {
            return self.measure_own(own, instrument, attrs, value);
        }
        self.measure_anew(places, instrument, attrs, value)
    }

    // The same where there is no short way.
    #[inline(never)]
    fn measure_anew(
        &mut self,
        places: &mut Places,
        instrument: usize,
        attrs: &AttrSet,
        value: i64,
    ) -> Result<(), TallyFault>
        requires { AreOf self.old instrument attrs.now places.old }
        ensures measured { IsMeasured self.old self.new (entry_of instrument attrs.now value) result }
        ensures places { AreOf self.new instrument attrs.now places.new }
        ensures room { vec_capacity places.old.each ≤ vec_capacity places.new.each }
    {
        self.find_places(places, instrument, attrs);
        if let Some(own) = places.own {
            return self.measure_own(own, instrument, attrs, value);
        }
        let told = self.measure_by(places.each.as_slice(), instrument, attrs, value);
        // A point that was new is there now.
        self.find_places(places, instrument, attrs);
        told
    }

    // Looks places up of which nothing is known, as far as the points are there and memory is.
    fn find_places(&self, places: &mut Places, instrument: usize, attrs: &AttrSet)
        requires { AreOf self.now instrument attrs.now places.old }
        ensures known { AreOf self.now instrument attrs.now places.new }
        ensures room { vec_capacity places.old.each ≤ vec_capacity places.new.each }
    {
        let Some(feeds) = self.plan.feeds(instrument) else {
            return;
        };
        if !places.each.is_empty() {
            return;
        }
        if let Some(stream) = lone_stream(feeds) {
            places.own = self.own_place(stream, instrument, attrs);
            return;
        }
        fill_places(
            &mut places.each,
            &self.plan,
            &self.overflow,
            &self.series,
            feeds,
            attrs,
        );
    }

    /// Records a value in the stream of every feed of the instrument, or in none. `places` are those of the feeds' points, or none.
    #[inline(always)]
    pub(crate) fn measure_by(
        &mut self,
        places: &[usize],
        instrument: usize,
        attrs: &AttrSet,
        value: i64,
    ) -> Result<(), TallyFault>
        requires { AreKnown self.old.plan (feeds_of self.old.plan instrument) places.now attrs.now self.old.series }
        ensures measured { IsMeasured self.old self.new (entry_of instrument attrs.now value) result }
    {
        let Some(feeds) = self.plan.feeds(instrument) else {
            return Err(TallyFault::NoInstrument);
        };
        if is_below(only_rises(self.plan.kind(instrument)), value) {
            return Err(TallyFault::Negative);
        }
        record(
            &self.plan,
            &self.overflow,
            &mut self.series,
            lone_at(&self.lone, instrument),
            feeds,
            attrs,
            places,
            value,
        )
    }

    // Records a value by the short way to its point.
    #[inline(always)]
    fn measure_own(
        &mut self,
        own: OwnPlace,
        instrument: usize,
        attrs: &AttrSet,
        value: i64,
    ) -> Result<(), TallyFault>
        requires fed { IsFed self.old.plan instrument }
        requires own { IsOwnPlace self.old.plan self.old.series instrument attrs.now own }
        ensures measured { IsMeasured self.old self.new (entry_of instrument attrs.now value) result }
    {
        if is_below(own.rises, value) {
            return Err(TallyFault::Negative);
        }
        add_own(
            &self.plan,
            &mut self.series,
            own.stream,
            own.place,
            attrs,
            value,
        )
    }

    // The short way to a point in the stream of an instrument's one feed, which keeps all keys, if the point is there.
    fn own_place(&self, stream: usize, instrument: usize, attrs: &AttrSet) -> Option<OwnPlace>
        requires feeds { AreFeeds (length self.now.plan.streams) (feeds_of self.now.plan instrument) }
        requires lone { feeds_of self.now.plan instrument ≡ lone_feed stream }
        ensures { IfSome result (λ o. IsOwnPlace self.now.plan self.now.series instrument attrs.now o) }
    {
        let points = &self.series[stream];
        let Some(place) = points.find(self.plan.limit(), &self.overflow, attrs) else {
            return None;
        };
        Some(OwnPlace {
            stream,
            place,
            rises: only_rises(self.plan.kind(instrument)),
        })
    }

    /// Begins anew, without points.
    pub(crate) fn restart(&mut self) -> Result<(), NoMemory>
        ensures value { OnOk result (self.new ≡ emptied_tally self.old) }
        ensures unchanged { OnErr result (self.new ≡ self.old) }
    {
        let alloc = *self.series.allocator();
        let series = no_points(alloc, self.plan.streams_len())?;
        self.series = series;
        Ok(())
    }

    /// Equal streams.
    pub(crate) fn try_copy(&self) -> Result<Streams, NoMemory>
        ensures value { IfOk result (λ copy. copy ≡ self.now) }
    {
        Ok(Streams {
            plan: self.plan.try_copy()?,
            overflow: self.overflow.try_copy()?,
            series: copy_series(&self.series)?,
            lone: Vec::from_slice(*self.lone.allocator(), self.lone.as_slice())?,
        })
    }

    /// The plan.
    pub(crate) fn plan(&self) -> &Plan
        ensures value { result.now ≡ self.now.plan }
        ensures sound { AllSound self.now.plan.streams self.now.series }
    {
        &self.plan
    }

    /// The points of a stream.
    pub(crate) fn series(&self, stream: usize) -> Option<&Series>
        ensures value { option_map (λ s. s.now.entries) result ≡ slice_get self.now.series stream }
    {
        self.series.get(stream)
    }
}

// Whether the value is below 0 where none may be.
#[inline(always)]
fn is_below(rises: bool, value: i64) -> bool
    ensures { result ≡ (rises && int_lt value (pos 0)) }
{
    rises && value < 0
}

// The set that stands for those past the limit.
fn overflow_attrs(alloc: Global) -> Result<AttrSet, NoMemory>
    ensures { IfOk result (λ set. set ≡ overflow_set) }
{
    let key = Txt::from_str(alloc, "otel.metric.overflow")?;
    AttrSet::single(alloc, key, AttrValue::Truth(true))
}

// No points for each of so many streams.
fn no_points(alloc: Global, streams: usize) -> Result<Vec<Series>, NoMemory>
    ensures { IfOk result (λ series. entries_of series.items ≡ replicate streams []) }
{
    let mut series = Vec::new(alloc);
    for _stream in 0..streams {
        series.push(Series::new(alloc))?;
    }
    Ok(series)
}

// Equal series.
fn copy_series(series: &Vec<Series>) -> Result<Vec<Series>, NoMemory>
    ensures { IfOk result (λ copy. entries_of copy.items ≡ entries_of series.now.items) }
{
    let mut copy = Vec::with_capacity(*series.allocator(), series.len())?;
    for points in series {
        copy.push(points.try_copy()?)?;
    }
    Ok(copy)
}

// The stream of each instrument's one feed, which keeps all keys, if it is so.
#[tactic(auto, using(crate::proofs::Records::lone_none, crate::proofs::Records::lone_push))]
fn lone_streams(alloc: Global, plan: &Plan) -> Result<Vec<Option<usize>>, NoMemory>
    ensures { IfOk result (λ lone. AreLone plan.now lone.items) }
{
    let mut lone = Vec::new(alloc);
    for instrument in 0..usize::MAX {
        let Some(feeds) = plan.feeds(instrument) else {
            return Ok(lone);
        };
        lone.push(lone_stream(feeds))?;
    }
    Ok(lone)
}

// That stream of an instrument, if it is kept.
#[inline(always)]
fn lone_at(lone: &Vec<Option<usize>>, instrument: usize) -> Option<usize>
    ensures { IfSome result (λ m. slice_get lone.now.items instrument ≡ Some (Some m)) }
{
    match lone.get(instrument) {
        Some(stream) => *stream,
        None => None,
    }
}
