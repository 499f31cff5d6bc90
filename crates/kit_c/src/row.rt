//! What a row tells as numbers.
ghost use Rattle.std.specs.Prelude.{◌≡◌};
ghost use Rattle.kit_c.specs.Rows.{buckets_in, count_in, newest_in, range_in, shape_in, sum_in, told_count, told_row};

use rollup_kit::{Row, Total};

/// A count of 128 bits: `high` times 2^64, and `low`.
#[repr(C)]
#[derive(Clone, Copy)]
pub struct KitCount {
    pub high: u64,
    pub low: u64,
}

/// A row as numbers: what its shape has none of is 0 or false. A sum and a count have 128 bits: the high half times 2^64, and the low half.
#[repr(C)]
#[derive(Clone, Copy)]
pub struct KitRow {
    /// Of how many points the total is.
    pub points: u64,
    /// How many keys hold a conflict, of which nothing is in the total.
    pub conflicts: u64,
    /// What the values of a sum or of a histogram come to.
    pub sum_high: i64,
    pub sum_low: u64,
    /// How many values a histogram is of.
    pub count_high: u64,
    pub count_low: u64,
    /// Of a gauge the newest point, where `has_value`: a row of conflicts alone has none.
    pub time: u64,
    pub value: i64,
    /// Of a histogram the least and the greatest value, where `has_range`: one without values has none.
    pub least: i64,
    pub greatest: i64,
    /// How many buckets a histogram has: one more than bounds.
    pub buckets: usize,
    /// 1 a sum, 2 a gauge, 3 a histogram, as of streams.
    pub shape: u8,
    pub has_value: bool,
    pub has_range: bool,
}

fn shape_in(total: &Total) -> u8
    ensures { result ≡ shape_in total.now }
{
    match total {
        Total::Sum(_) => 1,
        Total::Gauge(_) => 2,
        Total::Hist { .. } => 3,
    }
}

fn sum_in(total: &Total) -> i128
    ensures { result ≡ sum_in total.now }
{
    match total {
        Total::Sum(sum) => *sum,
        Total::Gauge(_) => 0,
        Total::Hist { sum, .. } => *sum,
    }
}

fn count_in(total: &Total) -> u128
    ensures { result ≡ count_in total.now }
{
    match total {
        Total::Hist { count, .. } => *count,
        _ => 0,
    }
}

fn newest_in(total: &Total) -> Option<(u64, i64)>
    ensures { result ≡ newest_in total.now }
{
    match total {
        Total::Gauge(newest) => *newest,
        _ => None,
    }
}

fn range_in(total: &Total) -> Option<(i64, i64)>
    ensures { result ≡ range_in total.now }
{
    match total {
        Total::Hist { range, .. } => *range,
        _ => None,
    }
}

pub(crate) fn buckets_in(total: &Total) -> &[u128]
    ensures { result.now ≡ buckets_in total.now }
{
    match total {
        Total::Hist { buckets, .. } => buckets.as_slice(),
        _ => &[],
    }
}

impl KitCount {
    pub(crate) fn of(count: u128) -> KitCount
        ensures { result ≡ told_count count }
    {
        KitCount {
            high: (count >> 64) as u64,
            low: (count & 0xffff_ffff_ffff_ffff) as u64,
        }
    }
}

impl KitRow {
    pub(crate) fn of(row: &Row) -> KitRow
        ensures { result ≡ told_row row.now }
    {
        let sum = KitCount::of(sum_in(&row.total).cast_unsigned());
        let count = KitCount::of(count_in(&row.total));
        let newest = newest_in(&row.total);
        let (time, value) = newest.unwrap_or((0, 0));
        let range = range_in(&row.total);
        let (least, greatest) = range.unwrap_or((0, 0));
        KitRow {
            points: row.points,
            conflicts: row.conflicts,
            sum_high: sum.high.cast_signed(),
            sum_low: sum.low,
            count_high: count.high,
            count_low: count.low,
            time,
            value,
            least,
            greatest,
            buckets: buckets_in(&row.total).len(),
            shape: shape_in(&row.total),
            has_value: newest.is_some(),
            has_range: range.is_some(),
        }
    }
}
