//! The groups of a roll-up.
ghost use Rattle.std.specs.Prelude.{◌≡◌, ◌<◌, ◌^◌, true, length, OnOk, IfOk};
ghost use Rattle.std.specs.FinMap.Entries.{is_sorted};
ghost use Rattle.std.specs.List.{IsDistinct};
ghost use Rattle.std.specs.Map.{keys_of};
ghost use Rattle.std.specs.Ordering.{eq_by_cmp};
ghost use Rattle.attr_kit.specs.declared.keep.Keep.TheVariants.{All, Only};
ghost use Rattle.point_kit.specs.Orders.{key_cmp};
ghost use Rattle.rollup_kit.specs.Standing.{Stands};
ghost use Rattle.rollup_kit.specs.Asks.{Attributes, attributes_cmp, asks};
ghost use Rattle.gateway_kit.specs.Walks.{keyed_cell_of_ref, points_left};
ghost use Rattle.rollup_kit.specs.Walks.{group_at, HasRoom, Adds};

use crate::Ask;
use crate::group::Group;
use crate::kept::{find_kept, kept_set};
use crate::kept_rows::{KeptRows, append};
use crate::whole_rows::add_whole;
use attr_kit::{AllowList, AttrSet, Keep, NoMemory};
use gateway_kit::{PointRef, Points};
use indexmap::IndexMap;
use std::alloc::Global;

// Whether a point is asked for.
fn is_asked(ask: &Ask, point: PointRef) -> bool
    ensures { result ≡ asks ask.now (keyed_cell_of_ref point.entry).0 }
{
    ask.stream == *point.stream && ask.is_of(point.writer) && ask.fits(point.attrs)
}

// Adds a point to the group of its set, if it is asked for.
fn add_point(
    alloc: Global,
    buckets: usize,
    rows: &mut IndexMap<AttrSet, Group>,
    ask: &Ask,
    point: PointRef,
) -> Result<(), NoMemory>
    requires keep { ask.now.keep ≡ All }
    requires room { HasRoom rows.old.entries }
    ensures { OnOk result (Adds ask.now buckets (keyed_cell_of_ref point.entry) rows.old.entries rows.new.entries) }
{
    if !is_asked(ask, point) {
        return Ok(());
    }
    add_whole(alloc, buckets, rows, point.attrs, point.cell)
}

// Adds a point to the row of what is kept of its set, if it is asked for. The row is guessed from the pairs where they lie, and
// only where that fails is their set copied.
fn add_kept_point(
    alloc: Global,
    buckets: usize,
    rows: &mut KeptRows,
    places: &mut Vec<usize>,
    ask: &Ask,
    list: &AllowList,
    point: PointRef,
) -> Result<(), NoMemory>
    requires keep { ask.now.keep ≡ Only list.now }
    requires room { HasRoom rows.old }
    ensures { OnOk result (Adds ask.now buckets (keyed_cell_of_ref point.entry) rows.old rows.new) }
{
    if !is_asked(ask, point) {
        return Ok(());
    }
    find_kept(places, point.attrs, list)?;
    if rows.add_shown(point.attrs.pairs(), places.as_slice(), point.cell) {
        return Ok(());
    }
    let set = kept_set(alloc, point.attrs, places.as_slice(), list, &ask.keep)?;
    rows.add_set(alloc, buckets, set, point.cell)
}

// The groups of whole sets, in the order in which they were first seen.
fn gather(
    alloc: Global,
    buckets: usize,
    ask: &Ask,
    points: Points,
) -> Result<IndexMap<AttrSet, Group>, NoMemory>
    requires keep { ask.now.keep ≡ All }
    requires sorted { is_sorted key_cmp (points_left points) ≡ true }
    requires few { length (points_left points) < 2 ^ 64 }
    ensures { IfOk result (λ rows. Stands ask.now buckets (points_left points.entry) rows.entries) }
{
    let mut rows = IndexMap::new(alloc);
    for point in points {
        add_point(alloc, buckets, &mut rows, ask, point)?;
    }
    Ok(rows)
}

// The rows of what an allow-list keeps.
fn gather_kept(
    alloc: Global,
    buckets: usize,
    ask: &Ask,
    list: &AllowList,
    points: Points,
) -> Result<KeptRows, NoMemory>
    requires keep { ask.now.keep ≡ Only list.now }
    requires sorted { is_sorted key_cmp (points_left points) ≡ true }
    requires few { length (points_left points) < 2 ^ 64 }
    ensures { IfOk result (λ rows. Stands ask.now buckets (points_left points.entry) rows) }
{
    let mut rows = KeptRows::new(alloc);
    let mut places = Vec::new(alloc);
    for point in points {
        add_kept_point(alloc, buckets, &mut rows, &mut places, ask, list, point)?;
    }
    Ok(rows)
}

/// Groups in the order of their sets: O(r log r) comparisons of r of them.
pub(crate) fn in_order(groups: Vec<(AttrSet, Group)>) -> Result<Vec<(AttrSet, Group)>, NoMemory>
    requires { IsDistinct (eq_by_cmp attributes_cmp) (keys_of groups.items) }
    ensures sorted { IfOk result (λ sorted. is_sorted attributes_cmp sorted.items ≡ true) }
    ensures same { IfOk result (λ sorted. (q : Attributes) → group_at sorted.items q ≡ group_at groups.items q) }
{
    let mut groups = groups;
    groups.sort_by(|x, y| x.0.cmp(&y.0))?;
    Ok(groups)
}

// The groups as a list.
fn list_of_groups(
    alloc: Global,
    rows: IndexMap<AttrSet, Group>,
) -> Result<Vec<(AttrSet, Group)>, NoMemory>
    ensures value { IfOk result (λ groups. groups.items ≡ rows.entries) }
    ensures distinct { IsDistinct (eq_by_cmp attributes_cmp) (keys_of rows.entries) }
{
    append(Vec::with_capacity(alloc, rows.len())?, rows)
}

/// The groups of all points that are asked for, of which no two have one set. O(n) hashes and comparisons of n points.
pub(crate) fn groups_of(
    alloc: Global,
    buckets: usize,
    ask: &Ask,
    points: Points,
) -> Result<Vec<(AttrSet, Group)>, NoMemory>
    requires sorted { is_sorted key_cmp (points_left points) ≡ true }
    requires few { length (points_left points) < 2 ^ 64 }
    ensures stands { IfOk result (λ groups. Stands ask.now buckets (points_left points.entry) groups.items) }
    ensures distinct { IfOk result (λ groups. IsDistinct (eq_by_cmp attributes_cmp) (keys_of groups.items)) }
{
    match &ask.keep {
        Keep::All => {
            let rows = gather(alloc, buckets, ask, points)?;
            list_of_groups(alloc, rows)
        }
        Keep::Only(list) => {
            let rows = gather_kept(alloc, buckets, ask, list, points)?;
            rows.into_list()
        }
    }
}
