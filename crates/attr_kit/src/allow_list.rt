//! An allow-list of attribute keys.
ghost use Rattle.std.specs.Prelude.{◌≡◌, IfOk, [], IsTrue};
ghost use Rattle.std.specs.Cmp.Lexicographic.{slice_cmp};
ghost use Rattle.std.specs.Ordering.{nat_cmp};
ghost use Rattle.attr_kit.specs.AllowLists.{listed_keys, is_listed, is_rising};

use crate::{NoMemory, Seq, TryCopy, Txt};
use std::alloc::Global;
use std::collections::BTreeSet;
use std::marker::Model;

/// An allow-list of attribute keys, in the order of their bytes, each once.
///
/// Lists that were made of the same keys, in any order and with repeats, are equal. An empty text may be listed; it is the key
/// of no attribute.
#[derive(Debug, PartialEq, Eq, Drop)]
pub struct AllowList {
    keys: Seq<Txt>,
}

impl Model for AllowList {
    ghost use Rattle.std.specs.Prelude.{List, ℕ, IsTrue};
    ghost use Rattle.std.specs.Cmp.Lexicographic.{slice_cmp};
    ghost use Rattle.std.specs.Ordering.{nat_cmp};
    ghost use Rattle.attr_kit.specs.AllowLists.{is_rising};

    ghost Value = { List (List ℕ) };

    ghost view = { λ a. a.keys };

    ghost invariant = { λ a. IsTrue (is_rising (slice_cmp nat_cmp) a.keys) };

    ghost inverse = { λ l. record { keys = l } };
}

// The keys in their order, each once.
#[tactic(auto, using(crate::proofs::Allowing::listed_keys_none))]
fn in_order(keys: Vec<Txt>) -> Result<Vec<Txt>, NoMemory>
    ensures { IfOk result (λ sorted. sorted.items ≡ listed_keys keys.items) }
{
    let alloc = *keys.allocator();
    let mut set = BTreeSet::new(alloc);
    for key in keys {
        set.insert(key)?;
    }
    let mut sorted = Vec::with_capacity(alloc, set.len())?;
    for key in set {
        sorted.push(key)?;
    }
    Ok(sorted)
}

// Whether a key is among keys in their order, by halving.
fn has_key(keys: &[Txt], key: &str) -> bool
    requires { IsTrue (is_rising (slice_cmp nat_cmp) keys.now) }
    ensures { result ≡ is_listed keys.now key.now }
{
    match keys.binary_search_by(|listed| listed.as_str().cmp(key)) {
        Ok(_) => true,
        Err(_) => false,
    }
}

impl AllowList {
    /// The list of these keys. O(m log m) comparisons for m keys.
    pub fn from_keys(keys: Vec<Txt>) -> Result<AllowList, NoMemory>
        ensures { IfOk result (λ list. list ≡ listed_keys keys.items) }
    {
        let sorted = in_order(keys)?;
        Ok(AllowList {
            keys: Seq::from_vec(sorted),
        })
    }

    /// The list without keys. Takes no memory.
    pub fn empty(alloc: Global) -> AllowList
        ensures { result ≡ [] }
    {
        AllowList {
            keys: Seq::new(alloc),
        }
    }

    /// The keys, in their order. Takes no memory.
    pub fn keys(&self) -> &[Txt]
        ensures { result.now ≡ self.now }
    {
        self.keys.as_slice()
    }

    /// Whether the key is listed. O(log m) comparisons; takes no memory.
    pub fn has(&self, key: &str) -> bool
        ensures { result ≡ is_listed self.now key.now }
    {
        has_key(self.keys.as_slice(), key)
    }

    /// An equal list. O(m).
    pub fn try_copy(&self) -> Result<AllowList, NoMemory>
        ensures { IfOk result (λ copy. copy ≡ self.now) }
    {
        Ok(AllowList {
            keys: self.keys.try_copy()?,
        })
    }
}
