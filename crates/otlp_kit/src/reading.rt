//! Points, metrics and scopes, one after another.
ghost use Rattle.std.specs.Prelude.{◌≡◌, ◌≢◌, ◌+◌, ◌<◌, ◌%◌, ◌==◌, ◌&&◌, ◌||◌, ◌++◌, [], ◌∷◌, not, true, length, slice_get, map, Ok, Err, IfOk, IfErr, IfSome, OnOk};
ghost use Rattle.otlp_kit.specs.Reading.{text_or_empty, or_zero, recorded, started, whole, number_placed, gauge_point, sum_point, histogram_point, histogram_payload, buckets_of, with_point, add_gauge_point, add_sum_point, add_histogram_point, cumulative, named, add_data, add_metric, add_metrics, is_alike, differs, name_of, version_of, attributes_in, scope_name, is_other, add_scope, nothing_read};
ghost use Rattle.otlp_kit.specs.Walks.{walk};

use crate::exact::{bounds_of, range_of, sum_of};
use crate::first_places::first_places;
use crate::histogram_point::HistogramPoint;
use crate::lists::push;
use crate::metric::{Data, Metric};
use crate::number_point::{Number, NumberPoint};
use crate::placed::Placed;
use crate::point_attributes::attributes;
use crate::scope::{Scope, ScopeMetrics};
use crate::{RequestFault, RequestReason};
use attr_kit::{NoMemory, Seq, TryCopy, Txt};
use point_kit::{ExportPoint, Payload, Shape, SharedStream, Stream};
use std::alloc::Global;

/// The places that the next scope, metric and point have, and the points of a resource so far.
#[derive(Drop)]
pub(crate) struct Reading {
    pub(crate) scopes: usize,
    pub(crate) metrics: usize,
    pub(crate) points: usize,
    pub(crate) placed: Seq<Placed>,
}

// One more. No memory has as many messages as there are numbers.
fn next(place: usize) -> Result<usize, NoMemory>
    ensures { IfOk result (λ next. next ≡ place + 1) }
{
    match place.checked_add(1) {
        Some(next) => Ok(next),
        None => Err(NoMemory),
    }
}

fn recorded(point: usize, flags: Option<u64>) -> Result<(), RequestFault>
    ensures { result ≡ recorded point flags }
{
    if flags.unwrap_or(0) % 2 == 1 {
        return Err(RequestReason::NoRecordedValue.at(point));
    }
    Ok(())
}

fn started(point: usize, start: Option<u64>) -> Result<(), RequestFault>
    ensures { result ≡ started point start }
{
    if start.unwrap_or(0) == 0 {
        return Err(RequestReason::UnknownStart.at(point));
    }
    Ok(())
}

fn whole(point: usize, value: &Option<Number>) -> Result<i64, RequestFault>
    ensures { result ≡ whole point value.now }
{
    match value {
        Some(Number::Whole(bits)) => Ok(bits.cast_signed()),
        Some(Number::Double) => Err(RequestReason::FloatValue.at(point)),
        None => Err(RequestReason::NoValue.at(point)),
    }
}

// A point of a number, which is a sum or a gauge.
#[inline(always)]
fn number_placed(
    alloc: Global,
    place: usize,
    stream: &SharedStream,
    said: &NumberPoint,
    payload: Payload,
) -> Result<Placed, RequestFault>
    ensures ok { IfOk result (λ p. number_placed place stream.now said.now payload ≡ Ok p) }
    ensures err { IfErr result (λ f. f.why ≢ RequestReason.NoMemory
        → number_placed place stream.now said.now payload ≡ Err f) }
{
    let attrs = attributes(alloc, place, said.attributes.as_slice())?;
    Ok(Placed {
        start: said.start.unwrap_or(0),
        time: said.time.unwrap_or(0),
        point: ExportPoint {
            stream: stream.try_copy()?,
            attrs,
            payload,
        },
    })
}

#[tactic(auto, unfolding(crate::specs::Reading::gauge_point))]
fn gauge_point(
    alloc: Global,
    place: usize,
    stream: &SharedStream,
    said: &NumberPoint,
) -> Result<Placed, RequestFault>
    ensures ok { IfOk result (λ p. gauge_point place stream.now said.now ≡ Ok p) }
    ensures err { IfErr result (λ f. f.why ≢ RequestReason.NoMemory → gauge_point place stream.now said.now ≡ Err f) }
{
    recorded(place, said.flags)?;
    let value = whole(place, &said.value)?;
    number_placed(alloc, place, stream, said, Payload::Gauge(value))
}

#[tactic(auto, unfolding(crate::specs::Reading::sum_point))]
fn sum_point(
    alloc: Global,
    place: usize,
    stream: &SharedStream,
    said: &NumberPoint,
) -> Result<Placed, RequestFault>
    ensures ok { IfOk result (λ p. sum_point place stream.now said.now ≡ Ok p) }
    ensures err { IfErr result (λ f. f.why ≢ RequestReason.NoMemory → sum_point place stream.now said.now ≡ Err f) }
{
    recorded(place, said.flags)?;
    started(place, said.start)?;
    let value = whole(place, &said.value)?;
    number_placed(alloc, place, stream, said, Payload::Sum(value))
}

// The buckets of a histogram: one, where it has neither buckets nor bounds.
fn buckets_of(alloc: Global, said: &HistogramPoint) -> Result<Seq<u64>, NoMemory>
    ensures { IfOk result (λ buckets. buckets ≡ buckets_of said.now) }
{
    if said.buckets.is_empty() && said.bounds.is_empty() {
        let mut buckets = Vec::new(alloc);
        buckets.push(said.count.unwrap_or(0))?;
        return Ok(Seq::from_vec(buckets));
    }
    said.buckets.try_copy()
}

// The bounds of a histogram, and its value.
#[tactic(auto, unfolding(crate::specs::Reading::histogram_payload))]
fn histogram_payload(
    alloc: Global,
    place: usize,
    said: &HistogramPoint,
) -> Result<(Seq<i64>, Payload), RequestFault>
    ensures ok { IfOk result (λ p. histogram_payload place said.now ≡ Ok p) }
    ensures err { IfErr result (λ f. f.why ≢ RequestReason.NoMemory → histogram_payload place said.now ≡ Err f) }
{
    let sum = sum_of(place, said.sum)?;
    let bounds = bounds_of(alloc, place, said.bounds.as_slice())?;
    let range = range_of(place, said.least, said.greatest)?;
    let payload = Payload::Hist {
        count: said.count.unwrap_or(0),
        sum,
        buckets: buckets_of(alloc, said)?,
        range,
    };
    Ok((Seq::from_vec(bounds), payload))
}

#[tactic(auto, unfolding(crate::specs::Reading::histogram_point))]
fn histogram_point(
    alloc: Global,
    place: usize,
    names: &Names<'_>,
    last: &Option<SharedStream>,
    said: &HistogramPoint,
) -> Result<Placed, RequestFault>
    requires { IfSome last.now (λ s. s ≡ named names.now.scope.now names.now.name.now names.now.unit.now s.shape) }
    ensures stream { IfOk result (λ p. p.point.stream
        ≡ named names.now.scope.now names.now.name.now names.now.unit.now p.point.stream.shape) }
    ensures ok { IfOk result (λ p. histogram_point place names.now.scope.now names.now.name.now names.now.unit.now said.now
        ≡ Ok p) }
    ensures err { IfErr result (λ f. f.why ≢ RequestReason.NoMemory
        → histogram_point place names.now.scope.now names.now.name.now names.now.unit.now said.now ≡ Err f) }
{
    recorded(place, said.flags)?;
    started(place, said.start)?;
    let (bounds, payload) = histogram_payload(alloc, place, said)?;
    let attrs = attributes(alloc, place, said.attributes.as_slice())?;
    Ok(Placed {
        start: said.start.unwrap_or(0),
        time: said.time.unwrap_or(0),
        point: ExportPoint {
            stream: names.stream_after(alloc, last, Shape::Histogram { bounds })?,
            attrs,
            payload,
        },
    })
}

// Whether a stream has this shape.
#[tactic(auto, using(point_kit::specs::Exact::exact_shapes))]
fn has_shape(stream: &SharedStream, shape: &Shape) -> bool
    ensures { result ≡ true → stream.now.shape ≡ shape.now }
{
    stream.get().shape == *shape
}

/// What the streams of a metric have in common.
#[derive(Drop)]
pub(crate) struct Names<'a> {
    scope: &'a str,
    name: &'a str,
    unit: &'a str,
}

fn text_or_empty(text: &Option<Txt>) -> &str
    ensures { result.now ≡ text_or_empty text.now }
{
    match text {
        Some(text) => text.as_str(),
        None => "",
    }
}

impl<'a> Names<'a> {
    // The stream of this shape.
    fn stream(&self, alloc: Global, shape: Shape) -> Result<SharedStream, NoMemory>
        ensures { IfOk result (λ s. s ≡ named self.now.scope.now self.now.name.now self.now.unit.now shape) }
    {
        let stream = Stream {
            scope: Txt::from_str(alloc, self.scope)?,
            name: Txt::from_str(alloc, self.name)?,
            unit: Txt::from_str(alloc, self.unit)?,
            shape,
        };
        SharedStream::new(alloc, stream)
    }

    // The same, shared with the last point where that has this shape.
    fn stream_after(
        &self,
        alloc: Global,
        last: &Option<SharedStream>,
        shape: Shape,
    ) -> Result<SharedStream, NoMemory>
        requires { IfSome last.now (λ s. s ≡ named self.now.scope.now self.now.name.now self.now.unit.now s.shape) }
        ensures { IfOk result (λ s. s ≡ named self.now.scope.now self.now.name.now self.now.unit.now shape) }
    {
        if let Some(last) = last
            && has_shape(last, &shape)
        {
            return last.try_copy();
        }
        self.stream(alloc, shape)
    }
}

// Sums and histograms must be cumulative.
fn cumulative(metric: usize, temporality: Option<u64>) -> Result<(), RequestFault>
    ensures { result ≡ cumulative metric temporality }
{
    match temporality.unwrap_or(0) {
        1 => Err(RequestReason::Delta.at(metric)),
        2 => Ok(()),
        _ => Err(RequestReason::NoTemporality.at(metric)),
    }
}

impl Reading {
    /// Nothing is read.
    pub(crate) fn new(alloc: Global) -> Reading
        ensures { result ≡ nothing_read }
    {
        Reading {
            scopes: 0,
            metrics: 0,
            points: 0,
            placed: Seq::new(alloc),
        }
    }

    #[inline(always)]
    fn push(&mut self, alloc: Global, point: Placed) -> Result<(), NoMemory>
        ensures { OnOk result (self.new ≡ with_point self.old point) }
    {
        self.points = next(self.points)?;
        push(alloc, &mut self.placed, point)
    }

    #[tactic(auto, unfolding(crate::specs::Walks::walk))]
    fn add_gauge(
        &mut self,
        alloc: Global,
        stream: &SharedStream,
        points: &[NumberPoint],
    ) -> Result<(), RequestFault>
        ensures ok { OnOk result (walk (add_gauge_point stream.now) self.old points.now ≡ Ok self.new) }
        ensures err { IfErr result (λ f. f.why ≢ RequestReason.NoMemory
            → walk (add_gauge_point stream.now) self.old points.now ≡ Err f) }
    {
        for point in points {
            let placed = gauge_point(alloc, self.points, stream, point)?;
            self.push(alloc, placed)?;
        }
        Ok(())
    }

    #[tactic(auto, unfolding(crate::specs::Walks::walk))]
    fn add_sum(
        &mut self,
        alloc: Global,
        stream: &SharedStream,
        points: &[NumberPoint],
    ) -> Result<(), RequestFault>
        ensures ok { OnOk result (walk (add_sum_point stream.now) self.old points.now ≡ Ok self.new) }
        ensures err { IfErr result (λ f. f.why ≢ RequestReason.NoMemory
            → walk (add_sum_point stream.now) self.old points.now ≡ Err f) }
    {
        for point in points {
            let placed = sum_point(alloc, self.points, stream, point)?;
            self.push(alloc, placed)?;
        }
        Ok(())
    }

    #[tactic(auto, unfolding(crate::specs::Walks::walk))]
    fn add_histogram(
        &mut self,
        alloc: Global,
        names: &Names<'_>,
        points: &[HistogramPoint],
    ) -> Result<(), RequestFault>
        ensures ok { OnOk result (walk (add_histogram_point names.now.scope.now names.now.name.now names.now.unit.now) self.old points.now
            ≡ Ok self.new) }
        ensures err { IfErr result (λ f. f.why ≢ RequestReason.NoMemory
            → walk (add_histogram_point names.now.scope.now names.now.name.now names.now.unit.now) self.old points.now ≡ Err f) }
    {
        let mut last = None;
        for point in points {
            let placed = histogram_point(alloc, self.points, names, &last, point)?;
            last = Some(placed.point.stream.try_copy()?);
            self.push(alloc, placed)?;
        }
        Ok(())
    }

    fn add_data(&mut self, alloc: Global, scope: &str, metric: &Metric) -> Result<(), RequestFault>
        ensures ok { OnOk result (add_data scope.now metric.now self.old metric.now.kind ≡ Ok self.new) }
        ensures err { IfErr result (λ f. f.why ≢ RequestReason.NoMemory
            → add_data scope.now metric.now self.old metric.now.kind ≡ Err f) }
    {
        let names = Names {
            scope,
            name: text_or_empty(&metric.name),
            unit: text_or_empty(&metric.unit),
        };
        match &metric.kind {
            Some(Data::Gauge(gauge)) => {
                let stream = names.stream(alloc, Shape::Gauge)?;
                self.add_gauge(alloc, &stream, gauge.points.as_slice())
            }
            Some(Data::Sum(sum)) => {
                cumulative(self.metrics, sum.temporality)?;
                let monotonic = sum.monotonic.unwrap_or(0) != 0;
                let stream = names.stream(alloc, Shape::Sum { monotonic })?;
                self.add_sum(alloc, &stream, sum.points.as_slice())
            }
            Some(Data::Histogram(histogram)) => {
                cumulative(self.metrics, histogram.temporality)?;
                self.add_histogram(alloc, &names, histogram.points.as_slice())
            }
            Some(Data::ExponentialHistogram) => {
                Err(RequestReason::ExponentialHistogram.at(self.metrics))
            }
            Some(Data::Summary) => Err(RequestReason::Summary.at(self.metrics)),
            None => Err(RequestReason::NoData.at(self.metrics)),
        }
    }

    #[tactic(auto, unfolding(crate::specs::Reading::add_metric, crate::specs::Walks::walk))]
    fn add_metrics(
        &mut self,
        alloc: Global,
        scope: &str,
        metrics: &[Metric],
    ) -> Result<(), RequestFault>
        ensures ok { OnOk result (add_metrics scope.now self.old metrics.now ≡ Ok self.new) }
        ensures err { IfErr result (λ f. f.why ≢ RequestReason.NoMemory
            → add_metrics scope.now self.old metrics.now ≡ Err f) }
    {
        for metric in metrics {
            self.add_data(alloc, scope, metric)?;
            self.metrics = next(self.metrics)?;
        }
        Ok(())
    }

    /// The points of scopes, of which a later one of a name may not differ.
    #[tactic(auto, unfolding(crate::specs::Reading::add_scope, crate::specs::Walks::walk))]
    pub(crate) fn add_scopes(
        &mut self,
        alloc: Global,
        scopes: &[ScopeMetrics],
    ) -> Result<(), RequestFault>
        ensures ok { OnOk result (walk (add_scope scopes.now) self.old scopes.now ≡ Ok self.new) }
        ensures err { IfErr result (λ f. f.why ≢ RequestReason.NoMemory
            → walk (add_scope scopes.now) self.old scopes.now ≡ Err f) }
    {
        let names = scope_names(alloc, scopes)?;
        let firsts = first_places(alloc, names.as_slice())?;
        for place in 0..scopes.len() {
            let scope = &scopes[place];
            if differs(scopes, firsts[place], scope) {
                return Err(RequestReason::ScopeTwice.at(self.scopes));
            }
            self.add_metrics(alloc, scope_name(scope), scope.metrics.as_slice())?;
            self.scopes = next(self.scopes)?;
        }
        Ok(())
    }
}

fn scope_name(metrics: &ScopeMetrics) -> &str
    ensures { result.now ≡ scope_name metrics.now }
{
    match &metrics.scope {
        Some(scope) => text_or_empty(&scope.name),
        None => "",
    }
}

fn version_of(scope: &Option<Scope>) -> &str
    ensures { result.now ≡ version_of scope.now }
{
    match scope {
        Some(scope) => text_or_empty(&scope.version),
        None => "",
    }
}

fn attributes_in(scope: &Option<Scope>) -> &[Seq<u8>]
    ensures { result.now ≡ attributes_in scope.now }
{
    match scope {
        Some(scope) => scope.attributes.as_slice(),
        None => &[],
    }
}

fn is_alike(metrics: &ScopeMetrics, other: &ScopeMetrics) -> bool
    ensures { result ≡ is_alike metrics.now other.now }
{
    version_of(&metrics.scope) == version_of(&other.scope)
        && attributes_in(&metrics.scope) == attributes_in(&other.scope)
}

// Whether the scope that stands at a place has another version or other attributes.
fn differs(scopes: &[ScopeMetrics], first: usize, metrics: &ScopeMetrics) -> bool
    ensures { result ≡ differs metrics.now (slice_get scopes.now first) }
{
    match scopes.get(first) {
        Some(other) => !is_alike(metrics, other),
        None => false,
    }
}

fn scope_names(alloc: Global, scopes: &[ScopeMetrics]) -> Result<Vec<Txt>, NoMemory>
    ensures { IfOk result (λ names. names.items ≡ map scope_name scopes.now) }
{
    let mut names = Vec::with_capacity(alloc, scopes.len())?;
    for scope in scopes {
        names.push(Txt::from_str(alloc, scope_name(scope))?)?;
    }
    Ok(names)
}
