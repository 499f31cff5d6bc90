//! Two payloads of one stream added up.
ghost use Rattle.std.specs.Prelude.{◌≡◌, IfOk, IfSome};
ghost use Rattle.std.specs.Option.{is_some};
ghost use Rattle.archive_kit.specs.Adding.{add_buckets, add_payloads, joined_range};
ghost use Rattle.archive_kit.specs.Totals.{buckets_fit, fit_together};

use attr_kit::{NoMemory, Seq};
use point_kit::Payload;
use std::alloc::Global;

// The range of the values of two histograms: unknown where one has values and tells none.
fn joined_range(
    count: u64,
    range: Option<(i64, i64)>,
    more: u64,
    other: Option<(i64, i64)>,
) -> Option<(i64, i64)>
    ensures { result ≡ joined_range count range more other }
{
    if more == 0 {
        return if count == 0 { None } else { range };
    }
    if count == 0 {
        return other;
    }
    match (range, other) {
        (Some((least, greatest)), Some((low, high))) => {
            Some((least.min(low), greatest.max(high)))
        }
        _ => None,
    }
}

// The buckets of both, count by count, where there are as many and each can be counted.
fn added_buckets(alloc: Global, counts: &[u64], more: &[u64]) -> Result<Option<Seq<u64>>, NoMemory>
    ensures fits { IfOk result (λ sums. is_some sums ≡ buckets_fit counts.now more.now) }
    ensures value { IfOk result (λ sums. IfSome sums (λ sums. sums ≡ add_buckets counts.now more.now)) }
{
    if counts.len() != more.len() {
        return Ok(None);
    }
    let mut sums = Vec::with_capacity(alloc, counts.len())?;
    for place in 0..counts.len() {
        match counts[place].checked_add(more[place]) {
            Some(sum) => sums.push(sum)?,
            None => return Ok(None),
        }
    }
    Ok(Some(Seq::from_vec(sums)))
}

/// Both payloads added up, where they are of one shape and stay in range.
pub(crate) fn added(
    alloc: Global,
    payload: &Payload,
    more: &Payload,
) -> Result<Option<Payload>, NoMemory>
    ensures fits { IfOk result (λ sum. is_some sum ≡ fit_together payload.now more.now) }
    ensures value { IfOk result (λ sum. IfSome sum (λ sum. sum ≡ add_payloads payload.now more.now)) }
{
    match (payload, more) {
        (Payload::Sum(a), Payload::Sum(b)) => Ok(match a.checked_add(*b) {
            Some(sum) => Some(Payload::Sum(sum)),
            None => None,
        }),
        (
            Payload::Hist {
                count,
                sum,
                buckets,
                range,
            },
            Payload::Hist {
                count: more,
                sum: total,
                buckets: counts,
                range: other,
            },
        ) => {
            let range = joined_range(*count, *range, *more, *other);
            let Some(count) = count.checked_add(*more) else {
                return Ok(None);
            };
            let Some(sum) = sum.checked_add(*total) else {
                return Ok(None);
            };
            Ok(
                match added_buckets(alloc, buckets.as_slice(), counts.as_slice())? {
                    Some(buckets) => Some(Payload::Hist {
                        count,
                        sum,
                        buckets,
                        range,
                    }),
                    None => None,
                },
            )
        }
        _ => Ok(None),
    }
}
