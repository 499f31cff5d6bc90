//! Payloads whose buckets lie in an arena.
ghost use Rattle.std.specs.Prelude.{◌≡◌, IfOk};
ghost use Rattle.round_kit.specs.Placed.{payload_of};

use attr_kit::{NoMemory, Seq};
use bumpalo::Bump;
use point_kit::Payload;
use std::alloc::Global;

/// What a histogram has counted, its buckets in an arena.
#[derive(Clone, Copy, Debug)]
pub struct RoundHistogram<'b> {
    pub count: u64,
    pub sum: i64,
    pub buckets: &'b [u64],
    /// The least and the greatest value, where there are values.
    pub range: Option<(i64, i64)>,
}

/// The value of a point. A histogram's parts lie in an arena, so that a point of another kind takes no room for them.
#[derive(Clone, Copy, Debug)]
pub enum RoundPayload<'b> {
    Sum(i64),
    Gauge(i64),
    Hist(&'b RoundHistogram<'b>),
}

impl<'b> RoundPayload<'b> {
    pub(crate) fn place(bump: &'b Bump, payload: &Payload) -> Result<RoundPayload<'b>, NoMemory>
        ensures { IfOk result (λ placed. payload_of placed ≡ payload.now) }
    {
        Ok(match payload {
            Payload::Sum(sum) => RoundPayload::Sum(*sum),
            Payload::Gauge(value) => RoundPayload::Gauge(*value),
            Payload::Hist {
                count,
                sum,
                buckets,
                range,
            } => RoundPayload::Hist(bump.try_alloc(RoundHistogram {
                count: *count,
                sum: *sum,
                buckets: bump.try_alloc_slice_copy(buckets.as_slice())?,
                range: *range,
            })?),
        })
    }

    pub(crate) fn copy_out(&self, alloc: Global) -> Result<Payload, NoMemory>
        ensures { IfOk result (λ payload. payload ≡ payload_of self.now) }
    {
        Ok(match self {
            RoundPayload::Sum(sum) => Payload::Sum(*sum),
            RoundPayload::Gauge(value) => Payload::Gauge(*value),
            RoundPayload::Hist(histogram) => Payload::Hist {
                count: histogram.count,
                sum: histogram.sum,
                buckets: Seq::from_vec(Vec::from_slice(alloc, histogram.buckets)?),
                range: histogram.range,
            },
        })
    }
}
