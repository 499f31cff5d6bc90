//! Which aggregations fit which kinds.
ghost use Rattle.std.specs.Prelude.{◌≡◌, IfOk};
ghost use Rattle.plan_kit.specs.Aggregations.{fit, is_refused, has_bad_bounds};
ghost use Rattle.plan_kit.specs.Bounds.{are_bounds, rise, default_bounds};

use crate::{Aggregation, Kind};
use attr_kit::{NoMemory, Seq, TryCopy};
use point_kit::Shape;
use std::alloc::Global;

/// What an aggregation makes of the values of an instrument.
#[derive(Debug, Drop)]
pub(crate) enum Fit {
    Stream(Shape),
    Nothing,
    Refused,
}

/// How many bounds a histogram may have.
const MOST_BOUNDS: usize = 1024;

// The bounds of OpenTelemetry's default explicit-bucket histogram.
const DEFAULT_BOUNDS: [i64; 15] = [
    0, 5, 10, 25, 50, 75, 100, 250, 500, 750, 1000, 2500, 5000, 7500, 10000,
];

// A histogram with the bounds for which no view says others.
fn default_histogram(alloc: Global) -> Result<Shape, NoMemory>
    ensures { IfOk result (λ shape. shape ≡ Shape.Histogram default_bounds) }
{
    Ok(Shape::Histogram {
        bounds: Seq::from_vec(Vec::from_slice(alloc, &DEFAULT_BOUNDS)?),
    })
}

/// What an aggregation makes of the values of an instrument of this kind.
pub(crate) fn fit_of(alloc: Global, kind: Kind, aggregation: &Aggregation) -> Result<Fit, NoMemory>
    ensures { IfOk result (λ f. f ≡ fit kind aggregation.now) }
{
    Ok(match (kind, aggregation) {
        (_, Aggregation::Drop) => Fit::Nothing,
        (Kind::Counter, Aggregation::Default) => Fit::Stream(Shape::Sum { monotonic: true }),
        (Kind::Counter, Aggregation::Sum) => Fit::Stream(Shape::Sum { monotonic: true }),
        (Kind::Counter, Aggregation::Buckets(bounds)) => Fit::Stream(histogram(bounds)?),
        (Kind::UpDown, Aggregation::Default) => Fit::Stream(Shape::Sum { monotonic: false }),
        (Kind::UpDown, Aggregation::Sum) => Fit::Stream(Shape::Sum { monotonic: false }),
        (Kind::Gauge, Aggregation::Default) => Fit::Stream(Shape::Gauge),
        (Kind::Gauge, Aggregation::LastValue) => Fit::Stream(Shape::Gauge),
        (Kind::Histogram, Aggregation::Default) => Fit::Stream(default_histogram(alloc)?),
        (Kind::Histogram, Aggregation::Sum) => Fit::Stream(Shape::Sum { monotonic: true }),
        (Kind::Histogram, Aggregation::Buckets(bounds)) => Fit::Stream(histogram(bounds)?),
        _ => Fit::Refused,
    })
}

fn histogram(bounds: &Seq<i64>) -> Result<Shape, NoMemory>
    ensures { IfOk result (λ shape. shape ≡ Shape.Histogram bounds.now) }
{
    Ok(Shape::Histogram {
        bounds: bounds.try_copy()?,
    })
}

/// Whether an aggregation does not fit this kind. Takes no memory.
pub(crate) fn refuses(kind: Kind, aggregation: &Aggregation) -> bool
    ensures { result ≡ is_refused kind aggregation.now }
{
    match (kind, aggregation) {
        (Kind::Counter, Aggregation::LastValue) => true,
        (Kind::UpDown, Aggregation::LastValue) => true,
        (Kind::UpDown, Aggregation::Buckets(_)) => true,
        (Kind::Gauge, Aggregation::Sum) => true,
        (Kind::Gauge, Aggregation::Buckets(_)) => true,
        (Kind::Histogram, Aggregation::LastValue) => true,
        _ => false,
    }
}

// Whether each number is below the next.
fn rises(numbers: &[i64]) -> bool
    ensures { result ≡ rise numbers.now }
{
    let Some((first, rest)) = numbers.split_first() else {
        return true;
    };
    let mut below = *first;
    for number in rest {
        if *number <= below {
            return false;
        }
        below = *number;
    }
    true
}

/// Whether the bounds of this aggregation do not strictly rise, or are more than 1,024.
#[tactic(auto, unfolding(crate::specs::Bounds::are_bounds))]
pub(crate) fn bounds_are_bad(aggregation: &Aggregation) -> bool
    ensures { result ≡ has_bad_bounds aggregation.now }
{
    match aggregation {
        Aggregation::Buckets(bounds) => !(rises(bounds.as_slice()) && bounds.len() <= MOST_BOUNDS),
        _ => false,
    }
}
