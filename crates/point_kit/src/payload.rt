//! What a point says.
ghost use Rattle.std.specs.Prelude.{◌≡◌, IfOk, OnErr, IsTrue};
ghost use Rattle.point_kit.specs.Payload.{has_buckets};

use attr_kit::{NoMemory, Seq, TryCopy};

/// The value of a point, over the window from its start, excluded, to its time, included (Metrics Data Model, "Metric
/// points"). Equal payloads are equal in all parts, the range included.
#[derive(Debug, PartialEq, Eq, Drop)]
pub enum Payload {
    /// The sum of all increments.
    Sum(i64),
    /// The last value.
    Gauge(i64),
    /// An explicit bucket histogram: how many values there were, their sum, how many lie in each bucket, and, where it
    /// is known, the least and the greatest of them.
    Hist {
        count: u64,
        sum: i64,
        buckets: Seq<u64>,
        range: Option<(i64, i64)>,
    },
}

impl Payload {
    /// An equal payload. That of a sum or a gauge takes no memory.
    pub fn try_copy(&self) -> Result<Payload, NoMemory>
        ensures value { IfOk result (λ copy. copy ≡ self.now) }
        ensures no_memory { OnErr result (IsTrue (has_buckets self.now)) }
    {
        Ok(match self {
            Payload::Sum(sum) => Payload::Sum(*sum),
            Payload::Gauge(value) => Payload::Gauge(*value),
            Payload::Hist {
                count,
                sum,
                buckets,
                range,
            } => Payload::Hist {
                count: *count,
                sum: *sum,
                buckets: buckets.try_copy()?,
                range: *range,
            },
        })
    }
}
