//! What a gateway holds of an incarnation.
ghost use Rattle.std.specs.Prelude.{◌≡◌, ◌≢◌, ◌==◌, ◌++◌, ◌∷◌, [], not, IfOk, OnOk, IfErr, true, false};
ghost use Rattle.std.specs.List.{list_any};
ghost use Rattle.gateway_kit.specs.Queries.{has_conflict, part_points};
ghost use Rattle.archive_kit.specs.Tombstones.{stream_eq};
ghost use Rattle.archive_kit.specs.Archive.{is_unsound, points_held, time_of};

use crate::AdoptFault;
use attr_kit::{NoMemory, Seq};
use gateway_kit::PartItem;
use point_kit::{Export, ExportFault, ExportPoint, Held, SharedStream, WriterId};
use std::alloc::Global;

/// Whether a point is of a stream.
pub(crate) fn has_stream(items: &[PartItem], stream: &SharedStream) -> bool
    ensures { result ≡ list_any (λ i. stream_eq stream.now i.stream) items.now }
{
    items.iter().any(|i| *stream == i.stream)
}

/// Whether a point is a conflict.
pub(crate) fn has_conflict(items: &[PartItem]) -> bool
    ensures { result ≡ list_any (λ i. has_conflict i.cell) items.now }
{
    items.iter().any(|i| matches!(i.cell.held, Held::Conflict))
}

/// The time of the first point, 0 where there is none.
pub(crate) fn time_of(items: &[PartItem]) -> u64
    ensures { (writer : _) (start : _) → result ≡ time_of (part_points writer start items.now) }
{
    match items.first() {
        Some(item) => item.cell.time,
        None => 0,
    }
}

/// Whether a point is of another time.
pub(crate) fn has_other_time(items: &[PartItem], time: u64) -> bool
    ensures { result ≡ list_any (λ i. not (i.cell.time == time)) items.now }
{
    items.iter().any(|i| i.cell.time != time)
}

// Copies the payload of a point that is no conflict.
fn push_point(points: &mut Vec<ExportPoint>, item: &PartItem) -> Result<(), NoMemory>
    ensures { (writer : _) (start : _) → OnOk result (
        points.new.items ≡ points.old.items ++ points_held (part_points writer start (item.now ∷ []))) }
{
    if let Held::One(payload) = &item.cell.held {
        points.push(ExportPoint {
            stream: item.stream.try_copy()?,
            attrs: item.attrs.try_copy()?,
            payload: payload.try_copy()?,
        })?;
    }
    Ok(())
}

// The points that are no conflicts.
fn points_held(alloc: Global, items: &[PartItem]) -> Result<Vec<ExportPoint>, NoMemory>
    ensures { (writer : _) (start : _) → IfOk result (λ points. points.items ≡ points_held (part_points writer start items.now)) }
{
    let mut points = Vec::with_capacity(alloc, items.len())?;
    for item in items {
        push_point(&mut points, item)?;
    }
    Ok(points)
}

/// The export whose points these are, all of one time and none a conflict.
pub(crate) fn last_export(
    alloc: Global,
    items: &[PartItem],
    writer: &WriterId,
    start: u64,
) -> Result<Export, AdoptFault>
    ensures time { IfOk result (λ e. e.time ≡ time_of (part_points writer.now start items.now)) }
    ensures points { IfOk result (λ e. e.points ≡ points_held (part_points writer.now start items.now)) }
    ensures ok { OnOk result (is_unsound start (part_points writer.now start items.now) ≡ false) }
    ensures err { IfErr result (λ f. f ≢ AdoptFault.NoMemory
        → (f ≡ AdoptFault.Unsound) × (is_unsound start (part_points writer.now start items.now) ≡ true)) }
{
    let points = Seq::from_vec(points_held(alloc, items)?);
    let id = writer.try_copy()?;
    match Export::build(alloc, id, start, time_of(items), points) {
        Ok(export) => Ok(export),
        Err(ExportFault::NoMemory) => Err(AdoptFault::NoMemory),
        Err(_) => Err(AdoptFault::Unsound),
    }
}
