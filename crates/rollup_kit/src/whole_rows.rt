//! The groups of a roll-up by whole sets, while its points are walked over.
ghost use Rattle.std.specs.Prelude.{◌≡◌, ◌++◌, ◌∷◌, [], false, None, OnErr, OnOk, IfOk, is_some};
ghost use Rattle.std.specs.Map.{keys_of};
ghost use Rattle.rollup_kit.specs.Groups.{no_group, with_held};
ghost use Rattle.rollup_kit.specs.Indexed.{first_row};
ghost use Rattle.rollup_kit.specs.Walks.{group_at, HasRoom, AddsTo, AddsHeld};

use crate::group::Group;
use attr_kit::{AttrSet, NoMemory};
use indexmap::IndexMap;
use point_kit::Cell;
use std::alloc::Global;

/// Adds a cell to the group of a set, if it has one. Copies nothing.
pub(crate) fn add_held(rows: &mut IndexMap<AttrSet, Group>, attrs: &AttrSet, cell: &Cell) -> bool
    requires { HasRoom rows.old.entries }
    ensures value { result ≡ is_some (group_at rows.old.entries attrs.now) }
    ensures adds { AddsHeld attrs.now cell.now rows.old.entries rows.new.entries }
    ensures keys { keys_of rows.new.entries ≡ keys_of rows.old.entries }
    ensures kept { result ≡ false → rows.new.entries ≡ rows.old.entries }
{
    match rows.get_mut(attrs) {
        Some(group) => {
            group.add(cell);
            true
        }
        None => false,
    }
}

/// The group of a cell alone.
pub(crate) fn first_group(alloc: Global, buckets: usize, cell: &Cell) -> Result<Group, NoMemory>
    ensures { IfOk result (λ group. group ≡ with_held (no_group buckets) cell.now.time cell.now.held) }
{
    let mut group = Group::empty(alloc, buckets)?;
    group.add(cell);
    Ok(group)
}

/// Starts the group of a set with a cell.
pub(crate) fn start(
    alloc: Global,
    buckets: usize,
    rows: &mut IndexMap<AttrSet, Group>,
    attrs: AttrSet,
    cell: &Cell,
) -> Result<(), NoMemory>
    requires { group_at rows.old.entries attrs ≡ None }
    ensures ok { OnOk result (rows.new.entries ≡ rows.old.entries ++ first_row buckets attrs cell.now ∷ []) }
    ensures err { OnErr result (rows.new.entries ≡ rows.old.entries) }
{
    let group = first_group(alloc, buckets, cell)?;
    rows.insert(attrs, group)?;
    Ok(())
}

/// Adds a cell to the group of a set, which is copied if it is new.
pub(crate) fn add_whole(
    alloc: Global,
    buckets: usize,
    rows: &mut IndexMap<AttrSet, Group>,
    attrs: &AttrSet,
    cell: &Cell,
) -> Result<(), NoMemory>
    requires { HasRoom rows.old.entries }
    ensures { OnOk result (AddsTo buckets attrs.now cell.now rows.old.entries rows.new.entries) }
{
    if add_held(rows, attrs, cell) {
        return Ok(());
    }
    let attrs = attrs.try_copy()?;
    start(alloc, buckets, rows, attrs, cell)
}
