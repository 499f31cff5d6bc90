//! What the points of a row come to.
ghost use Rattle.std.specs.Prelude.{◌≡◌};
ghost use Rattle.std.specs.List.{list_any};
ghost use Rattle.gateway_kit.specs.Walks.{keyed_cell_of_ref};
ghost use Rattle.page_kit.specs.Totals.{is_conflict, sum_in, count_in, sum_of, count_of, later, newest_with, newest_of, born, latest};
ghost use Rattle.page_kit.specs.Views.{cells};

use gateway_kit::PointRef;
use point_kit::{Cell, Held, Payload};

/// Whether a cell holds a conflict.
pub(crate) fn is_conflict(point: PointRef) -> bool
    ensures { result ≡ is_conflict (keyed_cell_of_ref point.entry) }
{
    match &point.cell.held {
        Held::One(_) => false,
        Held::Conflict => true,
    }
}

/// Whether some cell holds a conflict.
pub(crate) fn has_conflict(points: &[PointRef]) -> bool
    ensures { result ≡ list_any is_conflict (cells points.now) }
{
    for point in points {
        if is_conflict(*point) {
            return true;
        }
    }
    false
}

// What a cell adds to a sum.
fn sum_in(held: &Held) -> i64
    ensures { result ≡ sum_in held.now }
{
    match held {
        Held::One(Payload::Sum(sum)) => *sum,
        Held::One(Payload::Hist { sum, .. }) => *sum,
        Held::One(Payload::Gauge(_)) | Held::Conflict => 0,
    }
}

// How many values it is of.
fn count_in(held: &Held) -> u64
    ensures { result ≡ count_in held.now }
{
    match held {
        Held::One(Payload::Hist { count, .. }) => *count,
        _ => 0,
    }
}

/// The sum of all.
#[tactic(auto, unfolding(crate::specs::Totals::sum_of))]
pub(crate) fn sum_of(points: &[PointRef]) -> i128
    ensures { result ≡ sum_of (cells points.now) }
{
    let mut sum = 0;
    for point in points {
        sum += i128::from(sum_in(&point.cell.held));
    }
    sum
}

/// The number of their values.
#[tactic(auto, unfolding(crate::specs::Totals::count_of))]
pub(crate) fn count_of(points: &[PointRef]) -> u128
    ensures { result ≡ count_of (cells points.now) }
{
    let mut count = 0;
    for point in points {
        count += u128::from(count_in(&point.cell.held));
    }
    count
}

// The later of a gauge's value and one that stands behind it.
fn later(newest: Option<(u64, i64)>, time: u64, value: i64) -> (u64, i64)
    ensures { result ≡ later newest (time, value) }
{
    match newest {
        Some(held) if time < held.0 => held,
        _ => (time, value),
    }
}

fn newest_with(newest: Option<(u64, i64)>, cell: &Cell) -> Option<(u64, i64)>
    ensures { result ≡ newest_with newest cell.now.time cell.now.held }
{
    match &cell.held {
        Held::One(Payload::Gauge(value)) => Some(later(newest, cell.time, *value)),
        _ => newest,
    }
}

/// The value of the greatest time, and of these the last.
#[tactic(auto, unfolding(crate::specs::Totals::newest_of))]
pub(crate) fn newest_of(points: &[PointRef]) -> Option<i64>
    ensures { result ≡ newest_of (cells points.now) }
{
    let mut newest = None;
    for point in points {
        newest = newest_with(newest, point.cell);
    }
    match newest {
        Some((_, value)) => Some(value),
        None => None,
    }
}

/// The greatest start.
#[tactic(auto, unfolding(crate::specs::Totals::born))]
pub(crate) fn born_of(points: &[PointRef]) -> u64
    ensures { result ≡ born (cells points.now) }
{
    let mut born = 0;
    for point in points {
        born = born.max(point.start);
    }
    born
}

/// The greatest time.
#[tactic(auto, unfolding(crate::specs::Totals::latest))]
pub(crate) fn latest_of(points: &[PointRef]) -> u64
    ensures { result ≡ latest (cells points.now) }
{
    let mut latest = 0;
    for point in points {
        latest = latest.max(point.cell.time);
    }
    latest
}
