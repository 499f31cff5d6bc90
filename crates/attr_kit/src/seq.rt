//! A list of values, seen by contracts as a list.
ghost use Rattle.std.specs.Prelude.{◌≡◌, ◌<◌, ◌↔◌, [], length, slice_get, slice_set, IsTrue};
ghost use Rattle.std.specs.Option.{option_copied};
ghost use Rattle.std.specs.Cmp.Lexicographic.{pointwise, slice_cmp, slice_partial_cmp, lists_per, lists_equiv, lists_po, lists_total, lists_agrees, lists_ties};
ghost use Rattle.std.specs.Hash as fed;
ghost use Rattle.std.specs.Hash.{items_Alike};

use std::alloc::Global;
use std::cmp::Ordering;
use std::hash::{Hash, Hasher};
use std::marker::Model;

/// A list of values: a vector that contracts see as the list of its elements, so that its capacity is no part of it.
///
/// Lists are ordered by their values from left to right, a proper prefix being less.
#[derive(Debug, Drop)]
pub struct Seq<T> {
    items: Vec<T>,
}

impl<T> Model for Seq<T> {
    ghost use Rattle.std.specs.Prelude.{List};
    ghost use Rattle.std.specs.Coded.{coded_list};

    ghost Value = { List T };

    ghost coded = { coded_list T.code };

    ghost view = { λ s. s.items.items };
}

impl<T> Seq<T> {
    /// The list without values. Takes no memory.
    pub fn new(alloc: Global) -> Seq<T>
        ensures { result ≡ [] }
    {
        Seq {
            items: Vec::new(alloc),
        }
    }

    /// The values of a vector, in their order. Takes no memory.
    pub fn from_vec(items: Vec<T>) -> Seq<T>
        ensures { result ≡ items.items }
    {
        Seq { items }
    }

    /// The vector of the values. Takes no memory.
    pub fn into_vec(self) -> Vec<T>
        ensures { result.items ≡ self }
    {
        let Seq { items } = self;
        items
    }

    /// The values as a vector.
    pub fn as_vec(&self) -> &Vec<T>
        ensures { result.now.items ≡ self.now }
    {
        &self.items
    }

    /// The values as a slice.
    pub fn as_slice(&self) -> &[T]
        ensures { result.now ≡ self.now }
    {
        self.items.as_slice()
    }

    /// The number of values.
    pub fn len(&self) -> usize
        ensures { result ≡ length self.now }
    {
        self.items.len()
    }

    /// Whether there are no values.
    pub fn is_empty(&self) -> bool
        ensures { IsTrue result ↔ (self.now ≡ []) }
    {
        self.items.is_empty()
    }

    /// The value at a place.
    pub fn get(&self, place: usize) -> Option<&T>
        ensures { option_copied result ≡ slice_get self.now place }
    {
        self.as_slice().get(place)
    }

    /// Puts a value in the place of the one that stands there. Takes no memory.
    pub fn set(&mut self, place: usize, item: T)
    where
        T: Drop,
        requires { place < length self.old }
        ensures { self.new ≡ slice_set self.old place item }
    {
        self.items[place] = item;
    }
}

impl<T: PartialEq> PartialEq for Seq<T> {
    ghost eq = { pointwise T.eq };

    ghost laws = { lists_per T.laws };

    fn eq(&self, other: &Self) -> bool {
        self.items == other.items
    }
}

impl<T: Eq> Eq for Seq<T> {
    ghost laws = { lists_equiv T.Eq.laws };
}

impl<T: PartialOrd> PartialOrd for Seq<T> {
    ghost partial_cmp = { slice_partial_cmp T.partial_cmp };

    ghost laws = { lists_po T.PartialOrd.laws };

    fn partial_cmp(&self, other: &Self) -> Option<Ordering> {
        self.items.partial_cmp(&other.items)
    }
}

impl<T: Ord> Ord for Seq<T> {
    ghost cmp = { slice_cmp T.cmp };

    ghost total = { lists_total T.total };

    ghost matches_partial_cmp = { lists_agrees T.matches_partial_cmp };

    ghost matches_eq = { lists_ties T.cmp T.matches_eq };

    fn cmp(&self, other: &Self) -> Ordering {
        self.items.cmp(&other.items)
    }
}

impl<T: Hash> Hash for Seq<T> {
    ghost hash_input = { fed.slice T.hash_input };

    ghost respects_eq = { (items_Alike (record { fed = T.respects_eq })).fed };

    fn hash<H: Hasher>(&self, state: &mut H) {
        self.items.hash(state);
    }
}
