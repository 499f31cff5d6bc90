//! The points of an incarnation, in the order of their keys.
ghost use Rattle.std.specs.Prelude.{◌≡◌, ◌≤◌, ℕ, OnOk, IfOk, IsTrue, map, [], ◌+◌, vec_capacity, vec_len, ◌++◌, ◌∷◌, ◌<◌};
ghost use Rattle.std.specs.FinMap.Entries.{is_sorted};
ghost use Rattle.gateway_kit.specs.Amending.{with_change, with_changes};
ghost use Rattle.gateway_kit.specs.Bounding.{AreBounds};
ghost use Rattle.gateway_kit.specs.Changing.{replacement, woven_items};
ghost use Rattle.gateway_kit.specs.Keys.{keyed_cell_of, item_cmp};
ghost use Rattle.gateway_kit.specs.Places.{IsPlace};
ghost use Rattle.gateway_kit.specs.Numbers.{ItemsMove};
ghost use Rattle.gateway_kit.specs.Tallies.{IsTally, are_up_to};
ghost use Rattle.gateway_kit.specs.declared.part_item.PartItem.{PartItem};
ghost use Rattle.gateway_kit.specs.Recent.{newer};
ghost use Rattle.gateway_kit.specs.Queries.{in_stream};
ghost use Rattle.std.specs.List.{filter, list_any};

use crate::bounds::Bounds;
use crate::cells::{conflict_of, is_further};
use crate::ordered::renumber_all;
use crate::part_item::PartItem;
use crate::tally::Tally;
use crate::trail::places_after;
use crate::weave::weave_in;
use attr_kit::{AttrSet, NoMemory, TryCopy};
use point_kit::{Cell, SharedStream, Stream};
use std::alloc::{AllocError, Global};
use std::cmp::Ordering;

/// The place of a key among items, or where it belongs: O(log n).
pub(crate) fn place_of(items: &[PartItem], stream: &Stream, attrs: &AttrSet) -> Result<usize, usize>
    requires { IsTrue (is_sorted item_cmp (map keyed_cell_of items.now)) }
    ensures { IsPlace item_cmp (map keyed_cell_of items.now) (stream.now, attrs.now) result }
{
    items.binary_search_by(|item| item.order(stream, attrs))
}

/// The place of a key among items, or where it belongs. The last item is asked first, and where it is below the key that is
/// all: else O(log n). So of keys that come in order each takes one comparison.
pub(crate) fn place_behind(
    items: &[PartItem],
    stream: &Stream,
    attrs: &AttrSet,
) -> Result<usize, usize>
    requires { IsTrue (is_sorted item_cmp (map keyed_cell_of items.now)) }
    ensures { IsPlace item_cmp (map keyed_cell_of items.now) (stream.now, attrs.now) result }
{
    let len = items.len();
    if len > 0 {
        let last = len - 1;
        if let Ordering::Less = items[last].order(stream, attrs) {
            return Err(len);
        }
    }
    place_of(items, stream, attrs)
}

/// The place of a key among items, or where it belongs. The item at the guess is asked first, and where it has the key that
/// is all: else O(log n). Any number may be the guess.
pub(crate) fn place_near(
    items: &[PartItem],
    guess: usize,
    stream: &Stream,
    attrs: &AttrSet,
) -> Result<usize, usize>
    requires { IsTrue (is_sorted item_cmp (map keyed_cell_of items.now)) }
    ensures { IsPlace item_cmp (map keyed_cell_of items.now) (stream.now, attrs.now) result }
{
    if guess < items.len() && items[guess].is_of(stream, attrs) {
        return Ok(guess);
    }
    place_of(items, stream, attrs)
}

/// The stream of a new item: that of the item before its place, where they are equal, so that a run of items holds it once.
pub(crate) fn stream_at(
    items: &[PartItem],
    place: usize,
    alloc: Global,
    stream: Stream,
) -> Result<SharedStream, NoMemory>
    ensures { IfOk result (λ s. s ≡ stream) }
{
    if let Some(before) = place.checked_sub(1)
        && let Some(item) = items.get(before)
        && *item.stream.get() == stream
    {
        return item.stream.try_copy();
    }
    SharedStream::new(alloc, stream)
}

// Keeps a copy of an item where it is numbered above a number.
fn keep_newer(kept: &mut Vec<PartItem>, item: &PartItem, number: u64) -> Result<(), NoMemory>
    ensures { OnOk result (kept.new.items ≡ kept.old.items ++ newer number (item.now ∷ [])) }
{
    if number < item.number {
        kept.push(item.try_copy()?)?;
    }
    Ok(())
}

/// Copies of the items numbered above a number. Spans and blocks of places whose bound is not above it are passed over.
pub(crate) fn newer_items(
    alloc: Global,
    items: &[PartItem],
    bounds: &Bounds,
    number: u64,
) -> Result<Vec<PartItem>, NoMemory>
    requires { AreBounds bounds.now items.now }
    ensures { IfOk result (λ kept. kept.items ≡ newer number items.now) }
{
    let mut kept = Vec::new(alloc);
    let mut place = 0;
    while place < items.len() {
        let passed = bounds.passable(place, number);
        if passed > 0 {
            place += passed;
        } else {
            keep_newer(&mut kept, &items[place], number)?;
            place += 1;
        }
    }
    Ok(kept)
}

/// The tally of items: one walk.
pub(crate) fn tally_of(items: &[PartItem]) -> Tally
    ensures { IsTally (map keyed_cell_of items.now) result }
{
    let mut tally = Tally::NONE;
    for item in items {
        tally = tally.and(&item.cell);
    }
    tally
}

/// Puts a new cell at a place, where it is further than the one that stands there; past the end nothing. Its key gets the
/// number, and the bounds of its place rise to it. Of the tally before it makes the one after.
pub(crate) fn put_cell(
    items: &mut Vec<PartItem>,
    bounds: &mut Bounds,
    tally: Tally,
    number: u64,
    place: usize,
    cell: Cell,
) -> Tally
    requires { IsTally (map keyed_cell_of items.old.items) tally }
    ensures put { map keyed_cell_of items.new.items ≡ with_change replacement (map keyed_cell_of items.old.items) place cell }
    ensures tally { IsTally (map keyed_cell_of items.new.items) result }
    ensures moves { ItemsMove number items.old.items items.new.items }
    ensures up_to { (n : ℕ) → number ≤ n → IsTrue (are_up_to n items.old.items) → IsTrue (are_up_to n items.new.items) }
    ensures bounded { AreBounds bounds.old items.old.items → AreBounds bounds.new items.new.items }
{
    if place >= items.len() {
        return tally;
    }
    let held = &items[place].cell;
    if !is_further(&cell, held) {
        return tally;
    }
    let tally = Tally {
        newest: tally.newest.max(cell.time),
        conflicts: tally.conflicts + conflict_of(&cell) - conflict_of(held),
    };
    bounds.raise(place, number);
    items[place].put(number, cell);
    tally
}

/// Puts the new cells at their places, and numbers their keys. Of the tally before it makes the one after.
pub(crate) fn put_cells(
    items: &mut Vec<PartItem>,
    bounds: &mut Bounds,
    tally: Tally,
    number: u64,
    updates: Vec<(usize, Cell)>,
) -> Tally
    requires { IsTally (map keyed_cell_of items.old.items) tally }
    ensures put { map keyed_cell_of items.new.items ≡ with_changes replacement (map keyed_cell_of items.old.items) updates.items }
    ensures tally { IsTally (map keyed_cell_of items.new.items) result }
    ensures moves { ItemsMove number items.old.items items.new.items }
    ensures up_to { (n : ℕ) → number ≤ n → IsTrue (are_up_to n items.old.items) → IsTrue (are_up_to n items.new.items) }
    ensures bounded { AreBounds bounds.old items.old.items → AreBounds bounds.new items.new.items }
{
    let mut tally = tally;
    for (place, cell) in updates {
        tally = put_cell(items, bounds, tally, number, place, cell);
    }
    tally
}

// Sets the guesses of an item right, where there is one.
fn follow(items: &mut Vec<PartItem>, place: usize, places: &[u32])
    ensures { items.new.items ≡ items.old.items }
{
    if place < items.len() {
        items[place].follow(places);
    }
}

// Sets the guesses right after new items came in between, by where each item has moved to, and makes the tally: one walk.
fn settle(items: &mut Vec<PartItem>, places: &[u32]) -> Tally
    ensures same { items.new.items ≡ items.old.items }
    ensures tally { IsTally (map keyed_cell_of items.old.items) result }
{
    let mut tally = Tally::NONE;
    for place in 0..items.len() {
        tally = tally.and(&items[place].cell);
        follow(items, place, places);
    }
    tally
}

/// Weaves new items in where there is room for them, all under one number. Places move then, so their bounds are gone. Of the
/// tally before it makes the one after.
pub(crate) fn put_items(
    items: &mut Vec<PartItem>,
    bounds: &mut Bounds,
    tally: Tally,
    number: u64,
    mut fresh: Vec<PartItem>,
    room: Vec<PartItem>,
) -> Tally
    requires empty { room.items ≡ [] }
    requires tallied { IsTally (map keyed_cell_of items.old.items) tally }
    requires sorted { IsTrue (is_sorted item_cmp (map keyed_cell_of items.old.items)) }
    requires fresh_sorted { IsTrue (is_sorted item_cmp (map keyed_cell_of fresh.items)) }
    ensures tally { IsTally (map keyed_cell_of items.new.items) result }
    ensures moves { ItemsMove number items.old.items items.new.items }
    ensures up_to { (n : ℕ) → number ≤ n → IsTrue (are_up_to n items.old.items) → IsTrue (are_up_to n items.new.items) }
    ensures bounded { AreBounds bounds.old items.old.items → AreBounds bounds.new items.new.items }
    ensures woven { map keyed_cell_of items.new.items ≡ woven_items items.old.items fresh.items (vec_capacity room) }
{
    if !fresh.is_empty() && fresh.len() <= room.capacity().saturating_sub(items.len()) {
        renumber_all(&mut fresh, number);
        let alloc = *items.allocator();
        let places = places_after(alloc, items.len(), fresh.as_slice());
        weave_in(items, fresh, room);
        bounds.clear();
        settle(items, &places)
    } else {
        tally
    }
}

/// Whether an item is of a stream: one walk.
pub(crate) fn any_in(items: &[PartItem], stream: &SharedStream) -> bool
    ensures { result ≡ list_any (λ i. in_stream stream.now (i.stream, i.attrs)) items.now }
{
    items.iter().any(|item| *stream == item.stream)
}

/// Keeps the items of a stream alone: one walk.
pub(crate) fn keep_in(items: &mut Vec<PartItem>, stream: &SharedStream)
    ensures kept { items.new.items ≡ filter (λ i. in_stream stream.now (i.stream, i.attrs)) items.old.items }
    ensures fewer { vec_len items.new ≤ vec_len items.old }
{
    items.retain(|item| *stream == item.stream);
}
