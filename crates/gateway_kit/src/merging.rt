//! How a gateway's incarnations are merged with another's.
ghost use Rattle.std.specs.Prelude.{◌≡◌, ◌≤◌, ◌<◌, ◌+◌, ◌-◌, ◌%◌, ◌^◌, ℕ, IfOk, OnOk, OnErr, IsTrue, false, map, min, length, slice_index};
ghost use Rattle.std.specs.FinMap.{from_sorted};
ghost use Rattle.std.specs.FinMap.Entries.{is_sorted};
ghost use Rattle.std.specs.List.{list_all};
ghost use Rattle.gateway_kit.specs.Amending.{with_change, with_changes};
ghost use Rattle.gateway_kit.specs.Covering.{AreCovered};
ghost use Rattle.gateway_kit.specs.Growth.{GrowsBy};
ghost use Rattle.gateway_kit.specs.Inserting.{AreSpread, moved_to, moving, taken_out};
ghost use Rattle.gateway_kit.specs.Keys.{incarnation_cmp};
ghost use Rattle.gateway_kit.specs.Merging.{PutsAll, PutsOne, cells_after};
ghost use Rattle.gateway_kit.specs.Numbers.{IncarnationsMove};
ghost use Rattle.gateway_kit.specs.Tallies.{conflicts_of};
ghost use Rattle.gateway_kit.specs.Incarnations.{IsWhole, all_points, keyed_cells, has_cells};

use crate::changes::Changes;
use crate::growth::{Growth, MOST_POINTS};
use crate::incarnation::Incarnation;
use crate::incarnations::conflicts_among;
use crate::merge_draft::MergeDraft;
use crate::ordered::{in_order, renumber_all};
use crate::targets::IncarnationTarget;
use attr_kit::NoMemory;
use shelf_kit::Shelves;
use std::alloc::AllocError;

// Makes room for the bounds of so many items more of the incarnation at a place; past the end none.
fn reserve_incarnation(
    incarnations: &mut Shelves<Incarnation>,
    number: u64,
    place: usize,
    more: usize,
) -> Result<(), NoMemory>
    ensures items { incarnations.new.items ≡ incarnations.old.items }
    ensures bounds { incarnations.new.bounds ≡ incarnations.old.bounds }
{
    if place < incarnations.len() {
        incarnations.get_mut(place).reserve(number, more)?;
    }
    Ok(())
}

// Makes room for the bounds of the items of all incarnations that are to change.
fn reserve_incarnations(
    incarnations: &mut Shelves<Incarnation>,
    number: u64,
    updates: &[(usize, Changes)],
) -> Result<(), NoMemory>
    ensures items { incarnations.new.items ≡ incarnations.old.items }
    ensures bounds { incarnations.new.bounds ≡ incarnations.old.bounds }
{
    for (place, changes) in updates {
        reserve_incarnation(incarnations, number, *place, changes.fresh.len())?;
    }
    Ok(())
}

// Makes the changes of the incarnation at a place, and numbers the keys that change; past the end nothing. Of the count of
// all conflicts before it makes the one after.
fn put_incarnation(
    incarnations: &mut Shelves<Incarnation>,
    conflicts: u64,
    number: u64,
    place: usize,
    changes: Changes,
) -> u64
    requires { conflicts ≡ conflicts_of incarnations.old.items % 2 ^ 64 }
    ensures conflicts { result ≡ conflicts_of incarnations.new.items % 2 ^ 64 }
    ensures change { map keyed_cells incarnations.new.items
        ≡ with_change cells_after (map keyed_cells incarnations.old.items) place changes }
    ensures few { length incarnations.old.items < 2 ^ 64 }
    ensures moves { IncarnationsMove number incarnations.old.items incarnations.new.items }
    ensures covered { AreCovered incarnations.old.bounds incarnations.old.items
        → AreCovered incarnations.new.bounds incarnations.new.items }
{
    if place < incarnations.len() {
        incarnations.raise(place, number);
        incarnations
            .get_mut(place)
            .install_among(conflicts, number, changes)
    } else {
        conflicts
    }
}

// Whether the one of some places is reached by a place that moved by those before it.
fn is_reached(places: &[usize], at: usize, place: usize) -> bool
    requires { at < length places.now }
    ensures yes { IsTrue result → slice_index places.now at ≤ place + at }
    ensures no { result ≡ false → place + at < slice_index places.now at }
{
    places[at] <= place.saturating_add(at)
}

// Where a place is once new ones came to theirs, which rise: O(log n) of n new ones.
fn place_after(places: &[usize], place: usize) -> usize
    requires { AreSpread places.now }
    ensures { result ≡ min (moved_to places.now place) (2 ^ 64 - 1) }
{
    let mut low = 0;
    let mut high = places.len();
    'halve: while low < high {
        let middle = low + (high - low) / 2;
        if is_reached(places, middle, place) {
            low = middle + 1;
        } else {
            high = middle;
        }
    }
    place.saturating_add(low)
}

// Makes all changes, and numbers the keys that change. Their places are those before new incarnations came to others. Of the count
// of all conflicts before it makes the one after.
fn put_incarnations(
    incarnations: &mut Shelves<Incarnation>,
    conflicts: u64,
    number: u64,
    updates: Vec<(usize, Changes)>,
    places: &[usize],
) -> u64
    requires spread { AreSpread places.now }
    requires counted { conflicts ≡ conflicts_of incarnations.old.items % 2 ^ 64 }
    ensures conflicts { result ≡ conflicts_of incarnations.new.items % 2 ^ 64 }
    ensures changes { map keyed_cells incarnations.new.items
        ≡ with_changes cells_after (map keyed_cells incarnations.old.items) (map (moving (moved_to places.now)) updates.items) }
    ensures moves { IncarnationsMove number incarnations.old.items incarnations.new.items }
    ensures covered { AreCovered incarnations.old.bounds incarnations.old.items
        → AreCovered incarnations.new.bounds incarnations.new.items }
{
    let mut conflicts = conflicts;
    for (place, changes) in updates {
        let place = place_after(places, place);
        conflicts = put_incarnation(incarnations, conflicts, number, place, changes);
    }
    conflicts
}

// Takes the incarnations at places out, the last one first; past the end none.
fn take_out(incarnations: &mut Shelves<Incarnation>, places: Vec<usize>)
    ensures items { incarnations.new.items ≡ taken_out incarnations.old.items places.items }
    ensures covered { AreCovered incarnations.old.bounds incarnations.old.items
        → AreCovered incarnations.new.bounds incarnations.new.items }
{
    let mut places = places;
    while let Some(place) = places.pop() {
        if place < incarnations.len() {
            incarnations.bounds_match();
            let _ = incarnations.remove(place);
        }
    }
}

// Whether a place is behind the last of some.
fn is_behind(places: &[usize], place: usize) -> bool
    ensures { IsTrue result → (i : ℕ) → i + 1 ≡ length places.now → slice_index places.now i < place }
{
    let count = places.len();
    count == 0 || places[count - 1] < place
}

// Puts a new incarnation where it belongs, and notes its place. One that is held, or belongs before the last place, would be
// refused; what comes in order and is not held is neither.
fn put_one(
    incarnations: &mut Shelves<Incarnation>,
    places: &mut Vec<usize>,
    incarnation: Incarnation,
) -> Result<(), NoMemory>
    requires sorted { IsTrue (is_sorted incarnation_cmp (map keyed_cells incarnations.old.items)) }
    ensures ok { OnOk result (PutsOne incarnations.old.items incarnations.new.items places.old.items places.new.items incarnation) }
    ensures covered { OnOk result (AreCovered incarnations.old.bounds incarnations.old.items
        → AreCovered incarnations.new.bounds incarnations.new.items) }
    ensures unchanged { OnErr result (incarnations.new ≡ incarnations.old) }
    ensures same { OnErr result (places.new.items ≡ places.old.items) }
{
    let target = IncarnationTarget {
        writer: &incarnation.writer,
        start: incarnation.start,
    };
    let Err(place) = incarnations.search(&target) else {
        return Err(NoMemory);
    };
    if !is_behind(places.as_slice(), place) {
        return Err(NoMemory);
    }
    places.reserve(1)?;
    let most = incarnation.most();
    incarnations.bounds_match();
    incarnations.insert(place, incarnation, most)?;
    let _ = places.push(place);
    Ok(())
}

// Puts new incarnations where they belong, all keys under one number, and tells their places. Where memory is refused those that
// were put in are taken out again.
fn put_new(
    incarnations: &mut Shelves<Incarnation>,
    number: u64,
    fresh: Vec<Incarnation>,
) -> Result<Vec<usize>, NoMemory>
    requires sorted { IsTrue (is_sorted incarnation_cmp (map keyed_cells incarnations.old.items)) }
    requires fresh_sorted { IsTrue (is_sorted incarnation_cmp (map keyed_cells fresh.items)) }
    ensures ok { IfOk result (λ places. PutsAll number incarnations.old.items incarnations.new.items places.items fresh.items) }
    ensures covered { AreCovered incarnations.old.bounds incarnations.old.items
        → AreCovered incarnations.new.bounds incarnations.new.items }
    ensures unchanged { OnErr result (incarnations.new.items ≡ incarnations.old.items) }
{
    let mut fresh = fresh;
    renumber_all(&mut fresh, number);
    let mut places = Vec::new(incarnations.allocator());
    for incarnation in fresh {
        match put_one(incarnations, &mut places, incarnation) {
            Ok(()) => {}
            Err(fault) => {
                take_out(incarnations, places);
                return Err(fault);
            }
        }
    }
    Ok(places)
}

/// Merges the incarnations of another gateway in, and numbers the keys that change: one walk over both, which passes over those
/// that are not told of. All copies and all room come first.
pub(crate) fn merge_in(
    incarnations: &mut Shelves<Incarnation>,
    len: usize,
    conflicts: u64,
    number: u64,
    theirs: &Shelves<Incarnation>,
) -> Result<Growth, NoMemory>
    requires whole { IsWhole incarnations.old.items len }
    requires counted { conflicts ≡ conflicts_of incarnations.old.items }
    requires theirs_sorted { IsTrue (is_sorted incarnation_cmp (map keyed_cells theirs.now.items)) }
    requires theirs_filled { IsTrue (list_all has_cells theirs.now.items) }
    requires few { length (all_points theirs.now.items) ≤ 2 ^ 62 }
    ensures grows { IfOk result (λ g. GrowsBy incarnations.old.items incarnations.new.items len
        (from_sorted (all_points theirs.now.items)) g) }
    ensures moves { OnOk result (IncarnationsMove number incarnations.old.items incarnations.new.items) }
    ensures covered { AreCovered incarnations.old.bounds incarnations.old.items
        → AreCovered incarnations.new.bounds incarnations.new.items }
    ensures unchanged { OnErr result (incarnations.new.items ≡ incarnations.old.items) }
{
    let alloc = incarnations.allocator();
    let MergeDraft {
        updates,
        fresh,
        more,
        changed,
    } = MergeDraft::of(alloc, incarnations, theirs)?;
    if more > MOST_POINTS - len {
        return Err(NoMemory);
    }
    let fresh = in_order(fresh)?;
    reserve_incarnations(incarnations, number, &updates)?;
    let more_conflicts = conflicts_among(fresh.as_slice());
    let places = put_new(incarnations, number, fresh)?;
    let after = put_incarnations(
        incarnations,
        conflicts.wrapping_add(more_conflicts),
        number,
        updates,
        places.as_slice(),
    );
    Ok(Growth {
        more,
        changed,
        before: conflicts,
        after,
    })
}
