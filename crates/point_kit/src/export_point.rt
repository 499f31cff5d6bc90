//! A point of an export.
ghost use Rattle.std.specs.Prelude.{◌≡◌, ◌==◌, IfOk, sum};
ghost use Rattle.point_kit.specs.Payload.{wrong_shape, wrong_buckets, wrong_count, negative, wrong_range};

use crate::{Payload, Shape, SharedStream};
use attr_kit::{AttrSet, NoMemory};

/// A point of an export: its stream, its attributes and its value. Writer, start and time are the export's.
#[derive(Debug, PartialEq, Eq, Drop)]
pub struct ExportPoint {
    pub stream: SharedStream,
    pub attrs: AttrSet,
    pub payload: Payload,
}

impl ExportPoint {
    pub(crate) fn has_wrong_shape(&self) -> bool
        ensures { result ≡ wrong_shape self.now.stream.shape self.now.payload }
    {
        match (&self.stream.get().shape, &self.payload) {
            (Shape::Sum { .. }, Payload::Sum(_)) => false,
            (Shape::Gauge, Payload::Gauge(_)) => false,
            (Shape::Histogram { .. }, Payload::Hist { .. }) => false,
            _ => true,
        }
    }

    pub(crate) fn has_wrong_buckets(&self) -> bool
        ensures { result ≡ wrong_buckets self.now.stream.shape self.now.payload }
    {
        match (&self.stream.get().shape, &self.payload) {
            (Shape::Histogram { bounds }, Payload::Hist { buckets, .. }) => {
                buckets.is_empty() || buckets.len() - 1 != bounds.len()
            }
            _ => false,
        }
    }

    pub(crate) fn has_wrong_count(&self) -> bool
        ensures { result ≡ wrong_count self.now.payload }
    {
        match &self.payload {
            Payload::Hist { count, buckets, .. } => !adds_up(buckets.as_slice(), *count),
            _ => false,
        }
    }

    pub(crate) fn is_negative(&self) -> bool
        ensures { result ≡ negative self.now.stream.shape self.now.payload }
    {
        match (&self.stream.get().shape, &self.payload) {
            (Shape::Sum { monotonic }, Payload::Sum(sum)) => *monotonic && *sum < 0,
            (Shape::Histogram { .. }, Payload::Hist { sum, .. }) => *sum < 0,
            _ => false,
        }
    }

    pub(crate) fn has_wrong_range(&self) -> bool
        ensures { result ≡ wrong_range self.now.payload }
    {
        match &self.payload {
            Payload::Hist {
                count,
                range: Some((least, greatest)),
                ..
            } => { *count == 0 || *greatest < *least }
            _ => false,
        }
    }
}

impl ExportPoint {
    /// An equal point, of the same shared stream.
    pub fn try_copy(&self) -> Result<ExportPoint, NoMemory>
        ensures value { IfOk result (λ copy. copy ≡ self.now) }
    {
        Ok(ExportPoint {
            stream: self.stream.try_copy()?,
            attrs: self.attrs.try_copy()?,
            payload: self.payload.try_copy()?,
        })
    }
}

// Whether the numbers add up to the total.
fn adds_up(numbers: &[u64], total: u64) -> bool
    ensures { result ≡ (sum numbers.now == total) }
{
    let mut rest = total;
    for number in numbers {
        if *number > rest {
            return false;
        }
        rest -= *number;
    }
    rest == 0
}
