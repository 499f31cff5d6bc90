//! Pairs of an instrument and a set, and their numbers.
ghost use Rattle.std.specs.Prelude.{◌≡◌, IfOk, OnOk};
ghost use Rattle.indexmap.specs.IndexMap.{insert_entry};
ghost use Rattle.kit_c.specs.Pairs.{pair_eq};

use attr_kit::{AttrSet, NoMemory};
use indexmap::IndexMap;
use std::alloc::Global;

/// An instrument and a set.
#[derive(PartialEq, Eq, Hash, Drop)]
pub(crate) struct Pair {
    pub(crate) instrument: usize,
    pub(crate) attrs: AttrSet,
}

impl Pair {
    /// The pair of an instrument and a set, which is lent to it: to look a pair up takes no memory so.
    pub(crate) fn lend(alloc: Global, instrument: usize, attrs: &mut AttrSet) -> Pair
        ensures instrument { result.instrument ≡ instrument }
        ensures attrs { result.attrs ≡ attrs.old }
    {
        Pair {
            instrument,
            attrs: std::mem::replace(attrs, AttrSet::empty(alloc)),
        }
    }

    /// The set, which was lent.
    pub(crate) fn give_back(self) -> AttrSet
        ensures { result ≡ self.attrs }
    {
        let Pair { attrs, .. } = self;
        attrs
    }

    /// An equal pair.
    pub(crate) fn try_copy(&self) -> Result<Pair, NoMemory>
        ensures { IfOk result (λ copy. copy ≡ self.now) }
    {
        Ok(Pair {
            instrument: self.instrument,
            attrs: self.attrs.try_copy()?,
        })
    }
}

// Notes the number of a copy of a pair.
fn note_copy(
    numbers: &mut IndexMap<Pair, usize>,
    pair: &Pair,
    number: usize,
) -> Result<(), NoMemory>
    ensures { OnOk result (numbers.new.entries ≡ insert_entry pair_eq numbers.old.entries pair.now number) }
{
    numbers.insert(pair.try_copy()?, number)?;
    Ok(())
}

/// Equal numbers.
pub(crate) fn copy_numbers(
    numbers: &IndexMap<Pair, usize>,
) -> Result<IndexMap<Pair, usize>, NoMemory>
    ensures { IfOk result (λ copy. copy.entries ≡ numbers.now.entries) }
{
    let mut copy = IndexMap::with_capacity(*numbers.allocator(), numbers.len())?;
    for place in 0..numbers.len() {
        if let Some((pair, number)) = numbers.get_index(place) {
            note_copy(&mut copy, pair, *number)?;
        }
    }
    Ok(copy)
}
