//! Bounds of the numbers of items, by blocks of places.
ghost use Rattle.std.specs.Prelude.{◌≡◌, ◌<◌, ◌≤◌, ◌+◌, ℕ, List, IsTrue, length, slice_index, vec_len};
ghost use Rattle.gateway_kit.specs.Bounding.{AreBounds, Covers};
ghost use Rattle.gateway_kit.specs.declared.part_item.PartItem.{PartItem};

use crate::part_item::PartItem;
use attr_kit::NoMemory;
use std::alloc::{AllocError, Global};

/// How many places a block has.
const BLOCK: usize = 16;

/// How many places a span of blocks has.
const SPAN: usize = 512;

/// For each block of places, and for each span of blocks, a number that no item's there exceeds. Places past a list have no
/// bound in it: so a list may be cut short wherever memory is wanting, and an empty one says nothing.
#[derive(Debug, Drop)]
pub(crate) struct Bounds {
    blocks: Vec<u64>,
    spans: Vec<u64>,
}

// Raises the bound at an index, where there is one.
fn raise_at(bounds: &mut Vec<u64>, index: usize, number: u64)
    ensures len { vec_len bounds.new ≡ vec_len bounds.old }
    ensures kept { (k : ℕ) → slice_index bounds.old.items k ≤ slice_index bounds.new.items k }
    ensures here { index < vec_len bounds.new → number ≤ slice_index bounds.new.items index }
{
    if index < bounds.len() && bounds[index] < number {
        bounds[index] = number;
    }
}

// Whether there is a bound at an index and it does not exceed a number.
fn is_within(bounds: &[u64], index: usize, number: u64) -> bool
    ensures within { IsTrue result → index < length bounds.now }
    ensures most { IsTrue result → slice_index bounds.now index ≤ number }
{
    index < bounds.len() && bounds[index] <= number
}

// Room for so many bounds.
fn reserve_all(bounds: &mut Vec<u64>, count: usize) -> Result<(), NoMemory>
    ensures { bounds.new.items ≡ bounds.old.items }
{
    bounds.reserve(count.saturating_sub(bounds.len()))?;
    Ok(())
}

// So many bounds of 0, or none where memory is refused.
fn reset(bounds: &mut Vec<u64>, count: usize) {
    bounds.clear();
    let _ = bounds.resize(count, 0);
}

impl Bounds {
    /// No bounds. Takes no memory.
    pub(crate) fn none(alloc: Global) -> Bounds
        ensures items { (items : List PartItem) → AreBounds result items }
    {
        Bounds {
            blocks: Vec::new(alloc),
            spans: Vec::new(alloc),
        }
    }

    /// Forgets all bounds. Takes no memory.
    pub(crate) fn clear(&mut self)
        ensures items { (items : List PartItem) → AreBounds self.new items }
    {
        self.blocks.clear();
        self.spans.clear();
    }

    /// Makes room for the bounds of so many items, and changes none.
    pub(crate) fn reserve(&mut self, len: usize) -> Result<(), NoMemory>
        ensures items { (items : List PartItem) → AreBounds self.old items → AreBounds self.new items }
    {
        reserve_all(&mut self.blocks, len / BLOCK + 1)?;
        reserve_all(&mut self.spans, len / SPAN + 1)
    }

    /// Raises the bounds of a place to the number of the item there: O(1).
    pub(crate) fn raise(&mut self, place: usize, number: u64)
        ensures kept { (i n : ℕ) → Covers self.old i n → Covers self.new i n }
        ensures here { Covers self.new place number }
    {
        raise_at(&mut self.blocks, place / BLOCK, number);
        raise_at(&mut self.spans, place / SPAN, number);
    }

    /// Whether some of so many places have no bound.
    fn lack(&self, len: usize) -> bool {
        self.blocks.len() <= len / BLOCK || self.spans.len() <= len / SPAN
    }

    /// After a change of a number, makes the bounds of the items anew where some have none: one walk then, else O(1).
    pub(crate) fn complete(&mut self, number: u64, items: &[PartItem])
        ensures { AreBounds self.old items.now → AreBounds self.new items.now }
    {
        if number > 0 && self.lack(items.len()) {
            self.lay(items);
        }
    }

    // Makes the bounds of items anew: one walk. Where there is no room for them and memory is refused there are none.
    fn lay(&mut self, items: &[PartItem])
        ensures { AreBounds self.new items.now }
    {
        reset(&mut self.blocks, items.len() / BLOCK + 1);
        reset(&mut self.spans, items.len() / SPAN + 1);
        for place in 0..items.len() {
            self.raise(place, items[place].number);
        }
    }

    /// How many places from one on surely have no number above a number, as far as a span or a block tells: O(1).
    pub(crate) fn passable(&self, place: usize, number: u64) -> usize
        ensures most { result ≤ 512 }
        ensures none { (i n : ℕ) → place ≤ i → i < place + result → Covers self.now i n → n ≤ number }
    {
        if place % SPAN == 0 && is_within(self.spans.as_slice(), place / SPAN, number) {
            return SPAN;
        }
        if place % BLOCK == 0 && is_within(self.blocks.as_slice(), place / BLOCK, number) {
            return BLOCK;
        }
        0
    }
}
