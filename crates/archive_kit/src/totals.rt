//! Totals: points by stream and set, to which others are added.
ghost use Rattle.std.specs.Prelude.{◌≡◌, ◌++◌, ◌∷◌, [], ◌<◌, OnOk, OnErr, IfOk, true, length, get_or, slice_set, position};
ghost use Rattle.std.specs.List.{IsDistinct};
ghost use Rattle.point_kit.specs.ExportFaults.{same_key};
ghost use Rattle.archive_kit.specs.Totals.{add_total, fits_total, add_totals, fit_together, fit_totals, is_gauge, plus_payload};

use crate::adding::added;
use attr_kit::NoMemory;
use point_kit::{ExportPoint, Payload};
use std::alloc::Global;

// Whether two points are of the same stream and set. Sets come first: of two that differ their hashes do, and streams compare texts.
fn are_of_one_key(point: &ExportPoint, other: &ExportPoint) -> bool
    ensures { result ≡ same_key point.now other.now }
{
    point.attrs == other.attrs && point.stream == other.stream
}

// The place of the point of the same stream and set. Looks at a guess first, and walks where it is not there.
fn place_of(points: &[ExportPoint], point: &ExportPoint, guess: usize) -> Option<usize>
    requires { IsDistinct same_key points.now }
    ensures { result ≡ position (λ q. same_key point.now q) points.now }
{
    if guess < points.len() && are_of_one_key(point, &points[guess]) {
        return Some(guess);
    }
    points.iter().position(|q| are_of_one_key(point, q))
}

// Whether a point is a gauge's.
fn is_gauge(payload: &Payload) -> bool
    ensures { result ≡ is_gauge payload.now }
{
    match payload {
        Payload::Gauge(_) => true,
        Payload::Sum(_) | Payload::Hist { .. } => false,
    }
}

/// Puts a point behind the others.
pub(crate) fn push(points: &mut Vec<ExportPoint>, point: ExportPoint) -> Result<(), NoMemory>
    ensures ok { OnOk result (points.new.items ≡ points.old.items ++ point ∷ []) }
    ensures unchanged { OnErr result (points.new.items ≡ points.old.items) }
{
    points.push(point)?;
    Ok(())
}

// Adds a point to the total at a place, and says whether that stays in range.
fn add_at(
    alloc: Global,
    totals: &mut Vec<ExportPoint>,
    place: usize,
    point: &ExportPoint,
) -> Result<bool, NoMemory>
    requires { place < length totals.old.items }
    ensures fits { IfOk result (λ fits. fits ≡ fit_together (get_or totals.old.items place point.now).payload point.now.payload) }
    ensures value { IfOk result (λ fits. fits ≡ true → totals.new.items
        ≡ slice_set totals.old.items place (plus_payload (get_or totals.old.items place point.now) point.now.payload)) }
{
    match added(alloc, &totals[place].payload, &point.payload)? {
        Some(sum) => {
            totals[place].payload = sum;
            Ok(true)
        }
        None => Ok(false),
    }
}

// Adds a point to the total of its stream and set, and says whether that stays in range. It looks for the total at `next` first. Where
// there is one, `next` is then the place behind it, where that of the next point mostly is.
fn add_total(
    alloc: Global,
    totals: &mut Vec<ExportPoint>,
    point: &ExportPoint,
    next: &mut usize,
) -> Result<bool, NoMemory>
    requires { IsDistinct same_key totals.old.items }
    ensures fits { IfOk result (λ fits. fits ≡ fits_total totals.old.items point.now) }
    ensures value { IfOk result (λ fits. fits ≡ true → totals.new.items ≡ add_total totals.old.items point.now) }
{
    match place_of(totals.as_slice(), point, *next) {
        Some(place) => {
            *next = place + 1;
            add_at(alloc, totals, place, point)
        }
        None => {
            push(totals, point.try_copy()?)?;
            Ok(true)
        }
    }
}

/// Adds points, but for gauges, and says whether each stays in range. Where one does not, the totals are of no use.
///
/// A point costs one comparison where its total stands behind that of the point before. Else it costs a walk over the totals.
pub(crate) fn add_totals(
    alloc: Global,
    totals: &mut Vec<ExportPoint>,
    points: &[ExportPoint],
) -> Result<bool, NoMemory>
    requires { IsDistinct same_key totals.old.items }
    ensures fits { IfOk result (λ fits. fits ≡ fit_totals totals.old.items points.now) }
    ensures value { IfOk result (λ fits. fits ≡ true → totals.new.items ≡ add_totals totals.old.items points.now) }
{
    let mut next = 0;
    for point in points {
        if !is_gauge(&point.payload) && !add_total(alloc, totals, point, &mut next)? {
            return Ok(false);
        }
    }
    Ok(true)
}
