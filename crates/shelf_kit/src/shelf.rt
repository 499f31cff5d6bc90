//! One shelf of a list.
ghost use Rattle.std.specs.Prelude.{◌≡◌, ◌<◌, ◌≤◌, length, take, drop, max, slice_index, slice_index_or, slice_set, vec_len, IfOk, OnOk, OnErr};
ghost use Rattle.std.specs.List.{insert, remove};
ghost use Rattle.shelf_kit.specs.Shelving.{IsFilled, bounds_of, items_of};

use std::alloc::AllocError;

/// A part of a list whose values stand side by side, and a bound for each of them.
#[derive(Debug, Drop)]
pub(crate) struct Shelf<T> {
    pub(crate) items: Vec<T>,
    pub(crate) bounds: Vec<u64>,
}

// Raises the number at a place.
pub(crate) fn raise_at(numbers: &mut Vec<u64>, at: usize, number: u64)
    requires { at < vec_len numbers.old }
    ensures { numbers.new.items ≡ slice_set numbers.old.items at (max (slice_index numbers.old.items at) number) }
{
    numbers[at] = numbers[at].max(number);
}

impl<T> Shelf<T> {
    // Puts a value at a place, and its bound.
    pub(crate) fn put(&mut self, at: usize, value: T, bound: u64) -> Result<(), AllocError>
    where
        T: Drop,
        requires filled { IsFilled self.old }
        requires fits { at ≤ length (items_of self.old) }
        ensures items { OnOk result (items_of self.new ≡ insert (items_of self.old) at value) }
        ensures bounds { OnOk result (bounds_of self.new ≡ insert (bounds_of self.old) at bound) }
        ensures same_items { OnErr result (items_of self.new ≡ items_of self.old) }
        ensures same_bounds { OnErr result (bounds_of self.new ≡ bounds_of self.old) }
    {
        self.bounds.reserve(1)?;
        if self.items.insert(at, value).is_err() {
            return Err(AllocError);
        }
        let _ = self.bounds.insert(at, bound);
        Ok(())
    }

    // Raises the bound at a place.
    pub(crate) fn raise(&mut self, at: usize, bound: u64)
        requires filled { IsFilled self.old }
        requires inside { at < length (items_of self.old) }
        ensures items { items_of self.new ≡ items_of self.old }
        ensures bounds { bounds_of self.new ≡ slice_set (bounds_of self.old) at (max (slice_index (bounds_of self.old) at) bound) }
    {
        raise_at(&mut self.bounds, at, bound);
    }

    // Takes the values from a place on to a new shelf.
    pub(crate) fn split_off(&mut self, at: usize) -> Result<Shelf<T>, AllocError>
    where
        T: Drop,
        requires filled { IsFilled self.old }
        requires fits { at ≤ length (items_of self.old) }
        ensures items { OnOk result (items_of self.new ≡ take at (items_of self.old)) }
        ensures bounds { OnOk result (bounds_of self.new ≡ take at (bounds_of self.old)) }
        ensures items_behind { IfOk result (λ s. items_of s ≡ drop at (items_of self.old)) }
        ensures bounds_behind { IfOk result (λ s. bounds_of s ≡ drop at (bounds_of self.old)) }
        ensures unchanged { OnErr result (self.new ≡ self.old) }
    {
        let (_, behind) = self.bounds.as_slice().split_at(at);
        let bounds = Vec::from_slice(*self.bounds.allocator(), behind)?;
        let items = self.items.split_off(at)?;
        self.bounds.truncate(at);
        Ok(Shelf { items, bounds })
    }

    // Takes the value at a place off, and its bound.
    pub(crate) fn take(&mut self, at: usize) -> T
    where
        T: Drop,
        requires filled { IsFilled self.old }
        requires inside { at < length (items_of self.old) }
        ensures value { result ≡ slice_index_or (items_of self.old) at result }
        ensures items { items_of self.new ≡ remove (items_of self.old) at }
        ensures bounds { bounds_of self.new ≡ remove (bounds_of self.old) at }
    {
        let _ = self.bounds.remove(at);
        self.items.remove(at)
    }
}
