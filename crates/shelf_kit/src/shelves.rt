//! A list on shelves.
ghost use Rattle.std.specs.Prelude.{◌≡◌, ◌↔◌, ◌<◌, ◌≤◌, ◌+◌, ◌-◌, ℕ, [], ◌∷◌, length, IsTrue, OnOk, OnErr, slice_index, slice_index_or, take, drop, min};
ghost use Rattle.std.specs.Borrow.{sem};
ghost use Rattle.std.specs.List.{insert, remove};
ghost use Rattle.std.specs.List.Sorted.{IsBinarySearchResult, IsSearchInRange};
ghost use Rattle.shelf_kit.specs.Lends.{lends_value};
ghost use Rattle.shelf_kit.specs.Shelving.{AreAtMost};
ghost use Rattle.shelf_kit.specs.Walks.{walk_left};

use crate::part::{
    above_from, begin_at, found_from, locate, put_at, raise_on, reserve_both, search_on, shelf_for,
    split, take_at,
};
use crate::shelf::{Shelf, raise_at};
use crate::target::Target;
use crate::walk::Walk;
use std::alloc::{AllocError, Global};
use std::marker::Model;

/// How many values a run has at most: who looks for values of high bounds looks at some behind each.
const RUN: usize = 8;

/// A list whose values stand on shelves, and a bound for each index.
///
/// An index counts values from 0. A bound is a number of the caller's, as that of a change; it is at least what it was raised to, and may
/// be more. In what is said of costs, s is the number of shelves, and a shelf has some 256 values at most.
#[derive(Debug, Drop)]
pub struct Shelves<T> {
    shelves: Vec<Shelf<T>>,
    /// Where each of them begins.
    starts: Vec<usize>,
    /// A number that no bound on it exceeds, of each of them.
    tops: Vec<u64>,
    len: usize,
}

impl<T> Model for Shelves<T> {
    ghost use Rattle.shelf_kit.specs.Shelved.{Shelved, shelved_code};

    ghost Value = { Shelved T };

    ghost coded = { shelved_code T.code };

    ghost use Rattle.shelf_kit.specs.Shelving.{AreTops, IsShelved, bounds_on, items_on};

    ghost view = { λ s. record { items = items_on s.shelves.items; bounds = bounds_on s.shelves.items } };

    ghost invariant = { λ s. IsShelved s.shelves.items s.starts.items s.len × AreTops s.shelves.items s.tops.items };
}

impl<T> Shelves<T> {
    /// The list without values: O(1). Takes no memory; all that the list takes later is this allocator's.
    pub fn new(alloc: Global) -> Shelves<T>
        ensures items { result.items ≡ [] }
        ensures bounds { result.bounds ≡ [] }
    {
        Shelves {
            shelves: Vec::new(alloc),
            starts: Vec::new(alloc),
            tops: Vec::new(alloc),
            len: 0,
        }
    }

    /// The allocator that it was made with: O(1).
    pub fn allocator(&self) -> Global {
        *self.shelves.allocator()
    }

    /// How many values there are: O(1).
    pub fn len(&self) -> usize
        ensures value { result ≡ length self.now.items }
    {
        // (kept with each change, so that no shelf is looked at)
        self.len
    }

    /// Whether there are none: O(1).
    pub fn is_empty(&self) -> bool
        ensures value { IsTrue result ↔ (self.now.items ≡ []) }
    {
        self.len == 0
    }

    /// There are as many bounds as values.
    pub fn bounds_match(&self)
        ensures { length self.now.bounds ≡ length self.now.items }
    {
        let _len = &self.len;
    }

    /// The value at an index, which is less than the length: O(log s).
    pub fn get(&self, index: usize) -> &T
        requires { index < length self.now.items }
        ensures value { result.now ≡ slice_index_or self.now.items index result.now }
    {
        let (shelf, at) = locate(&self.shelves, &self.starts, self.len, index);
        &self.shelves[shelf].items[at]
    }

    /// The value at an index, which is less than the length, to be changed: O(log s). No bound changes.
    pub fn get_mut(&mut self, index: usize) -> &mut T
        requires { index < length self.old.items }
        ensures* writes_back { sem 𝓛 (lends_value T.row self.entry index result) }
        ensures value { result.now ≡ slice_index_or self.old.items index result.now }
    {
        let (shelf, at) = locate(&self.shelves, &self.starts, self.len, index);
        let here = &mut self.shelves[shelf];
        &mut here.items[at]
    }

    /// Raises the bound of an index to a number, if it is lower: O(log s). No bound falls.
    pub fn raise(&mut self, index: usize, bound: u64)
        requires { index < length self.old.items }
        ensures items { self.new.items ≡ self.old.items }
        ensures kept { AreAtMost self.old.bounds self.new.bounds }
        ensures here { bound ≤ slice_index self.new.bounds index }
    {
        let (shelf, at) = locate(&self.shelves, &self.starts, self.len, index);
        raise_on(&mut self.shelves, shelf, at, bound);
        raise_at(&mut self.tops, shelf, bound);
    }

    /// `Ok` with the index of what is looked for, or `Err` with the one where it belongs: O(log n) of n values. Values that do not stand
    /// in the target's order may be missed; an `Ok` is right in any case.
    pub fn search<P: Target<T>>(&self, target: &P) -> Result<usize, usize>
        ensures bound { IsSearchInRange result (length self.now.items) }
        ensures position { IsBinarySearchResult (P.order_of target.now) self.now.items result }
    {
        if self.len == 0 {
            return Err(0);
        }
        let shelf = shelf_for(self.shelves.as_slice(), target);
        let start = begin_at(&self.shelves, &self.starts, self.len, shelf);
        found_from(
            start,
            search_on(self.shelves[shelf].items.as_slice(), target),
        )
    }

    /// The first index, from one on, whose bound exceeds a number, or the length where there is none: O(log s), one look at each shelf
    /// that is passed over, and one at each bound of any other.
    pub fn next_above(&self, index: usize, number: u64) -> usize
        requires { index ≤ length self.now.items }
        ensures on { index ≤ result }
        ensures within { result ≤ length self.now.items }
        ensures passed { (k : ℕ) → index ≤ k → k < result → slice_index self.now.bounds k ≤ number }
        ensures above { result < length self.now.items → number < slice_index self.now.bounds result }
    {
        if index >= self.len {
            return index;
        }
        above_from(
            &self.shelves,
            &self.starts,
            &self.tops,
            self.len,
            index,
            number,
        )
    }

    /// Some values from an index on, which is less than the length: as many as stand on its shelf, but at most 8. O(log s).
    pub fn run(&self, index: usize) -> &[T]
        requires { index < length self.now.items }
        ensures some { 0 < length result.now }
        ensures within { index + length result.now ≤ length self.now.items }
        ensures value { result.now ≡ take (length result.now) (drop index self.now.items) }
    {
        let (shelf, at) = locate(&self.shelves, &self.starts, self.len, index);
        let (_, left) = self.shelves[shelf].items.as_slice().split_at(at);
        let (run, _) = left.split_at(left.len().min(RUN));
        run
    }

    /// The values from an index up to another, in order: O(log s) to begin, then O(1) a value. None where the first is not less than the
    /// other or the length.
    pub fn walk(&self, from: usize, until: usize) -> Walk<'_, T>
        ensures value { walk_left result ≡ take (until - from) (drop from self.now.items) }
    {
        if from >= until.min(self.len) {
            return Walk {
                here: &[],
                ahead: &[],
                left: 0,
            };
        }
        let (shelf, at) = locate(&self.shelves, &self.starts, self.len, from);
        let (_, here) = self.shelves[shelf].items.as_slice().split_at(at);
        let (_, ahead) = self.shelves.as_slice().split_at(shelf + 1);
        Walk {
            here,
            ahead,
            left: until - from,
        }
    }

    // Puts the first value onto the first shelf.
    fn begin(&mut self, value: T, bound: u64) -> Result<(), AllocError>
    where
        T: Drop,
        requires { self.old.items ≡ [] }
        ensures items { OnOk result (self.new.items ≡ value ∷ []) }
        ensures bounds { OnOk result (self.new.bounds ≡ bound ∷ []) }
        ensures unchanged { OnErr result (self.new ≡ self.old) }
    {
        let mut bounds = Vec::new(self.allocator());
        bounds.push(bound)?;
        let mut items = Vec::new(self.allocator());
        if items.push(value).is_err() {
            return Err(AllocError);
        }
        reserve_both(&mut self.starts, &mut self.tops)?;
        if self.shelves.push(Shelf { items, bounds }).is_err() {
            return Err(AllocError);
        }
        let _ = self.starts.push(0);
        let _ = self.tops.push(bound);
        self.len = 1;
        Ok(())
    }

    /// Puts a value at an index, which is at most the length, and gives it a bound of at least a number. The values behind it on its shelf
    /// move, some 256 at most, and O(s): each shelf behind begins one later. No other bound falls.
    ///
    /// Refused where memory for the value was refused; nothing has changed then, and the value is let go. A shelf for which there is no
    /// memory to be cut stays too long, which is no refusal.
    pub fn insert(&mut self, index: usize, value: T, bound: u64) -> Result<(), AllocError>
    where
        T: Drop,
        requires { index ≤ length self.old.items }
        ensures ok { OnOk result (self.new.items ≡ insert self.old.items index value) }
        ensures bounds { OnOk result (AreAtMost (insert self.old.bounds index bound) self.new.bounds) }
        ensures unchanged { OnErr result (self.new ≡ self.old) }
    {
        if self.len == 0 {
            return self.begin(value, bound);
        }
        if self.len == usize::MAX {
            return Err(AllocError);
        }
        let shelf = put_at(
            &mut self.shelves,
            &mut self.starts,
            &mut self.tops,
            self.len,
            index,
            value,
            bound,
        )?;
        self.len += 1;
        split(&mut self.shelves, &mut self.starts, &mut self.tops, shelf);
        Ok(())
    }

    /// Takes the value at an index out, which is less than the length, and its bound with it. The values behind it on its shelf move, some
    /// 256 at most, and O(s): each shelf behind begins one earlier. Takes no memory; what a shelf took it keeps until its last value goes.
    pub fn remove(&mut self, index: usize) -> T
    where
        T: Drop,
        requires { index < length self.old.items }
        ensures value { result ≡ slice_index_or self.old.items index result }
        ensures items { self.new.items ≡ remove self.old.items index }
        ensures bounds { self.new.bounds ≡ remove self.old.bounds index }
    {
        let value = take_at(
            &mut self.shelves,
            &mut self.starts,
            &mut self.tops,
            self.len,
            index,
        );
        self.len -= 1;
        value
    }
}
