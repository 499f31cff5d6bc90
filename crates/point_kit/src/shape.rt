//! The shape of a stream's points.
ghost use Rattle.std.specs.Prelude.{◌≡◌, IfOk};

use attr_kit::{NoMemory, Seq, TryCopy};

/// What the points of a stream are (Metrics Data Model, "Sums", "Gauge", "Histogram"). Ordered as sums that may fall,
/// sums that only rise, gauges, histograms; histograms by their list of bounds, a proper prefix being less.
#[derive(Debug, PartialEq, Eq, PartialOrd, Ord, Hash, Drop)]
pub enum Shape {
    /// A cumulative sum. A monotonic one only rises.
    Sum { monotonic: bool },
    /// The last value.
    Gauge,
    /// Counts in buckets. With bounds b0, b1, .. the buckets are (-inf, b0], (b0, b1], .., and one above the last bound.
    Histogram { bounds: Seq<i64> },
}

impl Shape {
    /// An equal shape.
    pub fn try_copy(&self) -> Result<Shape, NoMemory>
        ensures value { IfOk result (λ copy. copy ≡ self.now) }
    {
        Ok(match self {
            Shape::Sum { monotonic } => Shape::Sum {
                monotonic: *monotonic,
            },
            Shape::Gauge => Shape::Gauge,
            Shape::Histogram { bounds } => Shape::Histogram {
                bounds: bounds.try_copy()?,
            },
        })
    }
}
