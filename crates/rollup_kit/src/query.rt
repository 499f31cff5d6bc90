//! What a gateway answers.
ghost use Rattle.std.specs.Prelude.{◌≡◌, ◌<◌, ◌≤◌, ◌^◌, true, length, IfOk};
ghost use Rattle.std.specs.FinMap as finite;
ghost use Rattle.std.specs.FinMap.{entries};
ghost use Rattle.std.specs.FinMap.Entries.{is_sorted};
ghost use Rattle.gateway_kit.specs.Walks.{points_left};
ghost use Rattle.point_kit.specs.Orders.{key_cmp};
ghost use Rattle.rollup_kit.specs.Standing.{StandsFor};
ghost use Rattle.rollup_kit.specs.Rollups.{rollup_rows};

use crate::groups::{groups_of, in_order};
use crate::rows::{buckets_for, rows_of};
use crate::{Ask, Row};
use attr_kit::{NoMemory, Seq};
use gateway_kit::{Gateway, Points};
use std::alloc::Global;

// The points that can be asked for: those of the service where one is given, else all.
fn asked_points<'a>(gateway: &'a Gateway, ask: &'a Ask) -> Points<'a>
    ensures sorted { is_sorted key_cmp (points_left result) ≡ true }
    ensures few { length (points_left result) ≤ finite.len gateway.now.points }
    ensures whole { StandsFor ask.now (points_left result) (entries gateway.now.points) }
{
    match &ask.service {
        Some(service) => gateway.points_of(service.as_str()),
        None => gateway.points(),
    }
}

// So no total of the points of a gateway leaves 128 bits. Does nothing.
fn points_are_countable(gateway: &Gateway)
    ensures { finite.len gateway.now.points < 2 ^ 64 }
{
    gateway.len();
}

/// The roll-up of a gateway's points: those of the asked stream and, where one is given, of the asked service, whose
/// attributes have every asked pair, grouped by the attributes that are kept. There is a row for each such group, in
/// the order of attribute sets, and it has the number of points and of conflicts.
///
/// - Sums add up, in 128 bits; so no total leaves its range.
/// - Of a gauge the row has the newest point: that of the greatest time and, at one time, of the greatest key.
/// - Histograms add up part by part (the counts of each bucket, the count, the sum). There is a range where some point
///   has values and every such point has a range; it goes from the least to the greatest value of all.
/// - A conflict is counted, and adds nothing.
///
/// Copies no key, and of attributes only those that are kept of a new row. Of n points and r rows: what is kept of a point is
/// compared with the row behind the last one, and where that is not it hashed and compared with the row of its hash, O(n) in all;
/// rows are put in order by O(r log r) comparisons of sets. With a service given, points of others are passed over. Takes memory
/// for rows, none for a point. `NoMemory` comes only where a growth was refused.
pub fn rollup(alloc: Global, gateway: &Gateway, ask: &Ask) -> Result<Seq<Row>, NoMemory>
    ensures value { IfOk result (λ rows. rows ≡ rollup_rows ask.now gateway.now.points) }
{
    points_are_countable(gateway);
    let buckets = buckets_for(&ask.stream.shape);
    let groups = groups_of(alloc, buckets, ask, asked_points(gateway, ask))?;
    rows_of(alloc, &ask.stream.shape, in_order(groups)?)
}
