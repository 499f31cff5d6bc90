//! What is done on one shelf.
ghost use Rattle.std.specs.Prelude.{◌≡◌, ◌<◌, ◌≤◌, ◌+◌, ◌-◌, ℕ, true, false, length, slice_index, slice_index_or, vec_capacity, vec_len, ◌^◌, IfOk, OnOk, OnErr};
ghost use Rattle.std.specs.List.{All, HoldsAt, insert};
ghost use Rattle.std.specs.List.Sorted.{IsBinarySearchResult, IsSearchInRange};
ghost use Rattle.std.specs.Ordering.{is_gt};
ghost use Rattle.shelf_kit.specs.Shelving.{AreTops, BeginsBehind, Cuts, FitsOn, IsFilled, IsNextAbove, IsShelved, Keeps, Locates, Puts, Raises, Removes, Takes, begin_of, bounds_on, found_behind, items_of, items_on, starts_from};

use crate::shelf::{Shelf, raise_at};
use crate::starts::{add_from, shelf_of, subtract_from};
use crate::target::Target;
use std::alloc::AllocError;

/// How many values a shelf has at most where there is memory for another.
const FULL: usize = 256;

// The place of what is looked for on a shelf, or where it belongs: O(log n).
pub(crate) fn search_on<T, P: Target<T>>(items: &[T], target: &P) -> Result<usize, usize>
    ensures bound { IsSearchInRange result (length items.now) }
    ensures position { IsBinarySearchResult (P.order_of target.now) items.now result }
{
    items.binary_search_by(|value| target.order(value))
}

// What was found on a shelf, told as of the list on which the shelf begins at a place.
pub(crate) fn found_from(start: usize, found: Result<usize, usize>) -> Result<usize, usize>
    requires { IsSearchInRange (found_behind start found) (2 ^ 64 - 1) }
    ensures { result ≡ found_behind start found }
{
    match found {
        Ok(at) => Ok(start + at),
        Err(at) => Err(start + at),
    }
}

// Whether the first value of a shelf stands behind what is looked for.
fn begins_behind<T, P: Target<T>>(shelf: &Shelf<T>, target: &P) -> bool
    requires { 0 < length (items_of shelf.now) }
    ensures { HoldsAt (λ y. is_gt (P.order_of target.now y) ≡ result) (items_of shelf.now) 0 }
{
    target.order(&shelf.items[0]).is_gt()
}

// The last shelf whose first value does not stand behind what is looked for, or the first shelf: O(log n).
#[tactic(auto, using(crate::proofs::Bounds::filled_at))]
pub(crate) fn shelf_for<T, P: Target<T>>(shelves: &[Shelf<T>], target: &P) -> usize
    requires some { 0 < length shelves.now }
    requires filled { All IsFilled shelves.now }
    ensures within { result < length shelves.now }
    ensures before { 0 < result → BeginsBehind (P.order_of target.now) shelves.now result false }
    ensures after { result + 1 < length shelves.now → BeginsBehind (P.order_of target.now) shelves.now (result + 1) true }
{
    let mut low = 0;
    let mut high = shelves.len();
    'halve: while high - low > 1 {
        let middle = low + (high - low) / 2;
        if begins_behind(&shelves[middle], target) {
            high = middle;
        } else {
            low = middle;
        }
    }
    low
}

// The first place from one on whose number exceeds another, or how many there are.
fn first_above(numbers: &[u64], from: usize, number: u64) -> usize
    requires { from ≤ length numbers.now }
    ensures on { from ≤ result }
    ensures within { result ≤ length numbers.now }
    ensures passed { (k : ℕ) → from ≤ k → k < result → slice_index numbers.now k ≤ number }
    ensures above { result < length numbers.now → number < slice_index numbers.now result }
{
    let mut place = from;
    'pass: while place < numbers.len() {
        if numbers[place] > number {
            return place;
        }
        place += 1;
    }
    place
}

// The shelf on which an index is, and its place there; of the length, the end of the last: O(log n).
pub(crate) fn locate<T>(
    shelves: &Vec<Shelf<T>>,
    starts: &Vec<usize>,
    len: usize,
    index: usize,
) -> (usize, usize)
    requires shelved { IsShelved shelves.now.items starts.now.items len }
    requires some { 0 < len }
    requires up_to { index ≤ len }
    ensures { Locates shelves.now.items len index result.0 result.1 }
{
    let shelf = shelf_of(starts.as_slice(), index);
    (shelf, index - starts[shelf])
}

// Where a shelf begins, or of one past the last how many values there are.
pub(crate) fn begin_at<T>(
    shelves: &Vec<Shelf<T>>,
    starts: &Vec<usize>,
    len: usize,
    shelf: usize,
) -> usize
    requires shelved { IsShelved shelves.now.items starts.now.items len }
    requires up_to { shelf ≤ vec_len shelves.now }
    ensures { result ≡ begin_of shelves.now.items shelf }
{
    if shelf < starts.len() {
        starts[shelf]
    } else {
        len
    }
}

// The first index from one on whose bound exceeds a number, or how many values there are. A shelf behind the first is passed over by
// one look where its top does not exceed it.
#[tactic(auto, using(crate::proofs::Above::passed_none))]
pub(crate) fn above_from<T>(
    shelves: &Vec<Shelf<T>>,
    starts: &Vec<usize>,
    tops: &Vec<u64>,
    len: usize,
    index: usize,
    number: u64,
) -> usize
    requires shelved { IsShelved shelves.now.items starts.now.items len }
    requires topped { AreTops shelves.now.items tops.now.items }
    requires inside { index < len }
    ensures { IsNextAbove (bounds_on shelves.now.items) index number result }
{
    let (mut shelf, mut from) = locate(shelves, starts, len, index);
    'on: while shelf < shelves.len() {
        let bounds = shelves[shelf].bounds.as_slice();
        let start = starts[shelf];
        let place = first_above(bounds, from, number);
        if place < bounds.len() {
            return start + place;
        }
        shelf = first_above(tops.as_slice(), shelf + 1, number);
        from = 0;
    }
    len
}

// Raises the bound at a place of a shelf.
#[tactic(auto, using(crate::proofs::Bounds::filled_at))]
pub(crate) fn raise_on<T>(shelves: &mut Vec<Shelf<T>>, shelf: usize, at: usize, bound: u64)
    requires within { shelf < vec_len shelves.old }
    requires filled { All IsFilled shelves.old.items }
    requires inside { FitsOn shelves.old.items shelf (at + 1) }
    ensures { Raises shelves.old.items shelves.new.items shelf at bound }
{
    shelves[shelf].raise(at, bound);
}

// Puts a value on a shelf.
#[tactic(auto, using(crate::proofs::Bounds::filled_at))]
fn put_on<T: Drop>(
    shelves: &mut Vec<Shelf<T>>,
    shelf: usize,
    at: usize,
    value: T,
    bound: u64,
) -> Result<(), AllocError>
    requires within { shelf < vec_len shelves.old }
    requires filled { All IsFilled shelves.old.items }
    requires fits { FitsOn shelves.old.items shelf at }
    ensures ok { OnOk result (Puts shelves.old.items shelves.new.items shelf at value bound) }
    ensures unchanged { OnErr result (Keeps shelves.old.items shelves.new.items shelf) }
{
    shelves[shelf].put(at, value, bound)?;
    Ok(())
}

// Puts a value at an index among those on shelves, and tells on which shelf.
#[tactic(auto, using(crate::proofs::Put::held_at_err, crate::proofs::Same::kept_items, crate::proofs::Same::kept_bounds, crate::proofs::Same::kept_tops))]
pub(crate) fn put_at<T: Drop>(
    shelves: &mut Vec<Shelf<T>>,
    starts: &mut Vec<usize>,
    tops: &mut Vec<u64>,
    len: usize,
    index: usize,
    value: T,
    bound: u64,
) -> Result<usize, AllocError>
    requires shelved { IsShelved shelves.old.items starts.old.items len }
    requires topped { AreTops shelves.old.items tops.old.items }
    requires some { 0 < len }
    requires small { len + 1 < 2 ^ 64 }
    requires up_to { index ≤ len }
    ensures within { IfOk result (λ s. s < vec_len shelves.new) }
    ensures shelved { OnOk result (IsShelved shelves.new.items starts.new.items (len + 1)) }
    ensures topped { AreTops shelves.new.items tops.new.items }
    ensures items { OnOk result (items_on shelves.new.items ≡ insert (items_on shelves.old.items) index value) }
    ensures bounds { OnOk result (bounds_on shelves.new.items ≡ insert (bounds_on shelves.old.items) index bound) }
    ensures kept { OnErr result (IsShelved shelves.new.items starts.new.items len) }
    ensures same_items { OnErr result (items_on shelves.new.items ≡ items_on shelves.old.items) }
    ensures same_bounds { OnErr result (bounds_on shelves.new.items ≡ bounds_on shelves.old.items) }
{
    let (shelf, at) = locate(shelves, starts, len, index);
    put_on(shelves, shelf, at, value, bound)?;
    add_from(starts, shelf + 1);
    raise_at(tops, shelf, bound);
    Ok(shelf)
}

// How many values stay on a shelf that is too full: all that fit where it is the last, else half.
fn kept_on(len: usize, is_last: bool) -> usize
    requires { 256 < len }
    ensures some { 0 < result }
    ensures others { result < len }
{
    if is_last { FULL } else { len / 2 }
}

// Moves the values of a shelf from a place on to a new one behind it.
#[tactic(auto, using(crate::proofs::Bounds::filled_at))]
fn cut<T: Drop>(shelves: &mut Vec<Shelf<T>>, shelf: usize, at: usize) -> Result<(), AllocError>
    requires within { shelf < vec_len shelves.old }
    requires filled { All IsFilled shelves.old.items }
    requires fits { FitsOn shelves.old.items shelf (at + 1) }
    ensures ok { OnOk result (Cuts shelves.old.items shelves.new.items shelf at) }
    ensures unchanged { OnErr result (shelves.new.items ≡ shelves.old.items) }
{
    shelves.reserve(1)?;
    let behind = shelves[shelf].split_off(at)?;
    let _ = shelves.insert(shelf + 1, behind);
    Ok(())
}

// Makes room for one more number in two lists.
pub(crate) fn reserve_both(starts: &mut Vec<usize>, tops: &mut Vec<u64>) -> Result<(), AllocError>
    ensures starts { starts.new.items ≡ starts.old.items }
    ensures tops { tops.new.items ≡ tops.old.items }
    ensures room_starts { OnOk result (vec_len starts.new + 1 ≤ vec_capacity starts.new) }
    ensures room_tops { OnOk result (vec_len tops.new + 1 ≤ vec_capacity tops.new) }
{
    starts.reserve(1)?;
    tops.reserve(1)
}

// Makes two of a shelf that is too full, where there is memory for that. Both have its top.
#[tactic(auto, using(crate::proofs::Cut::cut_items, crate::proofs::Cut::cut_bounds, crate::proofs::Cut::cut_filled))]
pub(crate) fn split<T: Drop>(
    shelves: &mut Vec<Shelf<T>>,
    starts: &mut Vec<usize>,
    tops: &mut Vec<u64>,
    shelf: usize,
)
    requires within { shelf < vec_len shelves.old }
    requires begins { starts.old.items ≡ starts_from 0 shelves.old.items }
    requires filled { All IsFilled shelves.old.items }
    requires topped { AreTops shelves.old.items tops.old.items }
    requires small { length (items_on shelves.old.items) < 2 ^ 64 }
    ensures items { items_on shelves.new.items ≡ items_on shelves.old.items }
    ensures bounds { bounds_on shelves.new.items ≡ bounds_on shelves.old.items }
    ensures begins { starts.new.items ≡ starts_from 0 shelves.new.items }
    ensures filled { All IsFilled shelves.new.items }
    ensures topped { AreTops shelves.new.items tops.new.items }
{
    let len = shelves[shelf].items.len();
    if len <= FULL || reserve_both(starts, tops).is_err() {
        return;
    }
    let kept = kept_on(len, shelf + 1 == shelves.len());
    let start = starts[shelf] + kept;
    let top = tops[shelf];
    if let Ok(()) = cut(shelves, shelf, kept) {
        let _ = starts.insert(shelf + 1, start);
        let _ = tops.insert(shelf + 1, top);
    }
}

// Takes a value off a shelf.
#[tactic(auto, using(crate::proofs::Bounds::filled_at))]
fn take_off<T: Drop>(shelves: &mut Vec<Shelf<T>>, shelf: usize, at: usize) -> T
    requires within { shelf < vec_len shelves.old }
    requires filled { All IsFilled shelves.old.items }
    requires some { FitsOn shelves.old.items shelf (at + 1) }
    ensures { Takes shelves.old.items shelves.new.items shelf at result }
{
    shelves[shelf].take(at)
}

// Takes the value at an index among those on shelves out, and its shelf where that was its last.
pub(crate) fn take_at<T: Drop>(
    shelves: &mut Vec<Shelf<T>>,
    starts: &mut Vec<usize>,
    tops: &mut Vec<u64>,
    len: usize,
    index: usize,
) -> T
    requires shelved { IsShelved shelves.old.items starts.old.items len }
    requires topped { AreTops shelves.old.items tops.old.items }
    requires inside { index < len }
    ensures removes { Removes shelves.old.items shelves.new.items starts.new.items len index result }
    ensures topped { AreTops shelves.new.items tops.new.items }
{
    let (shelf, at) = locate(shelves, starts, len, index);
    let value = take_off(shelves, shelf, at);
    subtract_from(starts, shelf + 1);
    if !shelves[shelf].items.is_empty() {
        return value;
    }
    let _ = shelves.remove(shelf);
    let _ = starts.remove(shelf);
    let _ = tops.remove(shelf);
    value
}
