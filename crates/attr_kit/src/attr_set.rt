//! A set of attributes: pairs in the order of their keys, each key once, no key empty.
ghost use Rattle.std.specs.Prelude.{ℕ, List, ◌≡◌, ◌≢◌, ◌↔◌, [], ◌∷◌, length, slice_get, IfOk, IfErr, OnOk, OnErr, Some, None, IsTrue, Contains, filter, refl, false};
ghost use Rattle.std.specs.FinMap.Entries.{is_sorted};
ghost use Rattle.std.specs.Option.{option_copied};
ghost use Rattle.std.specs.Ordering.{as_partial_cmp};
ghost use Rattle.attr_kit.specs.AllowLists.{is_listed};
ghost use Rattle.attr_kit.specs.Attributes.{has_text, AreAttributes};
ghost use Rattle.attr_kit.specs.Hashing.{set_hash, hash_writes, hash_alike};
ghost use Rattle.attr_kit.specs.Keeping.{kept};
ghost use Rattle.attr_kit.specs.OrderLaws.{set_total, set_ties, set_partial};
ghost use Rattle.attr_kit.specs.Orders.{set_cmp, text_cmp};
ghost use Rattle.attr_kit.specs.Putting.{attributes_of, latest, pairs_fault, value_of};
ghost use Rattle.attr_kit.specs.contracts.pairs.PairsPartialEq.TheImpl as equal;
ghost use Rattle.attr_kit.specs.contracts.pairs.PairsPartialEq.TheImpl.Laws as equal_laws;
ghost use Rattle.attr_kit.specs.contracts.pairs.PairsEq.TheImpl.Laws as whole_laws;

use crate::pair_list::{copy_listed, empty_key_at, in_order, value_under};
use crate::pairs::Pairs;
use crate::{AllowList, AttrFault, AttrValue, Keep, NoMemory, Seq, Txt, copy_all};
use std::alloc::Global;
use std::cmp::Ordering;
use std::hash::{FoldHasher, Hash, Hasher};
use std::marker::Model;

/// A set of attributes: pairs in the order of their keys, each key once, no key empty.
///
/// After "Attribute Collections" of the OpenTelemetry common specification: keys are unique and not empty, and the
/// order in which pairs were given does not matter. Two sets are equal exactly where they have the same pairs. Sets are
/// ordered as lists of their pairs: pair by pair, by key and then by value, a proper prefix being less.
///
/// A set is one sorted run of pairs with their hash beside it, so it is cheap as a key: a look-up in a hash map of sets
/// writes one 64-bit number to the hasher, however many pairs the set has, and `==` compares the two hashes before any
/// pair. Of a set of 4 attributes a look-up that finds it reads 1 hash and compares 4 keys and 4 values; one that does
/// not compares hashes alone, but for a collision. A set whose texts have at most 30 bytes each is one block of memory, so
/// that the look-up reads no other, and a copy of it takes one allocation.
#[derive(Debug, Drop)]
pub struct AttrSet {
    pairs: Pairs,
    hash: u64,
}

impl Model for AttrSet {
    ghost use Rattle.std.specs.Prelude.{List, ℕ};
    ghost use Rattle.attr_kit.specs.declared.attr_value.AttrValue.{AttrValue};
    ghost use Rattle.attr_kit.specs.Hashing.{IsKept, set_hash};

    ghost Value = { List (List ℕ × AttrValue) };

    ghost view = { λ s. s.pairs };

    ghost invariant = { λ s. IsKept s.pairs s.hash };

    ghost inverse = { λ l. record { pairs = l; hash = set_hash l } };
}

// The hash of the pairs, which a set keeps.
fn hash_of(pairs: &Pairs) -> u64
    ensures { result ≡ set_hash pairs.now }
{
    let mut state = FoldHasher::default();
    pairs.hash(&mut state);
    state.finish()
}

// The set of the pairs whose key is listed.
fn restriction(pairs: &Vec<(Txt, AttrValue)>, list: &AllowList) -> Result<AttrSet, NoMemory>
    requires { AreAttributes pairs.now.items }
    ensures value { IfOk result (λ set. set ≡ filter (λ p. is_listed list.now p.0) pairs.now.items) }
    ensures no_memory { OnErr result (filter (λ p. is_listed list.now p.0) pairs.now.items ≢ []) }
{
    let few = copy_listed(pairs, list)?;
    Ok(AttrSet::from_attributes(few))
}

impl AttrSet {
    /// The set of these pairs; of a key that is given twice the later value stays.
    ///
    /// Refusals: [`AttrFault::EmptyKey`] with the least place of an empty key, then [`AttrFault::NoMemory`]. O(n log n)
    /// comparisons of keys; O(n), and no memory, where the keys rise already.
    #[tactic(auto, using(crate::proofs::Putting::latest_values), unfolding(crate::specs::Putting::pairs_fault))]
    pub fn from_pairs(pairs: Vec<(Txt, AttrValue)>) -> Result<AttrSet, AttrFault>
        ensures value { IfOk result (λ set. set ≡ attributes_of pairs.items) }
        ensures latest { IfOk result (λ set. (key : List ℕ) → value_of key set ≡ latest key pairs.items) }
        ensures ok { OnOk result (pairs_fault pairs.items ≡ None) }
        ensures err { IfErr result (λ f. f ≢ AttrFault.NoMemory → pairs_fault pairs.items ≡ Some f) }

        // Want of memory comes last, and not where the keys rise.
        ensures no_memory { IfErr result (λ f. f ≡ AttrFault.NoMemory → pairs_fault pairs.items ≡ None) }
        ensures rising { IfErr result (λ f. f ≡ AttrFault.NoMemory → is_sorted text_cmp pairs.items ≡ false) }
    {
        if let Some(place) = empty_key_at(pairs.as_slice()) {
            return Err(AttrFault::EmptyKey(place));
        }
        Ok(AttrSet::from_attributes(in_order(pairs)?))
    }

    /// The set of pairs that are one: their keys rise, so each stands once, and none is empty. Nothing is compared or moved;
    /// O(n) for the hash. Takes no memory.
    pub fn from_attributes(pairs: Vec<(Txt, AttrValue)>) -> AttrSet
        requires { AreAttributes pairs.items }
        ensures { result ≡ pairs.items }
    {
        let pairs = Pairs {
            pairs: Seq::from_vec(pairs),
        };
        let hash = hash_of(&pairs);
        AttrSet { pairs, hash }
    }

    /// The set of one pair.
    pub fn single(alloc: Global, key: Txt, value: AttrValue) -> Result<AttrSet, NoMemory>
        requires { IsTrue (has_text key) }
        ensures { IfOk result (λ set. set ≡ (key, value) ∷ []) }
    {
        let mut pairs = Vec::with_capacity(alloc, 1)?;
        pairs.push((key, value))?;
        Ok(AttrSet::from_attributes(pairs))
    }

    /// The set without pairs. Takes no memory.
    pub fn empty(alloc: Global) -> AttrSet
        ensures { result ≡ [] }
    {
        AttrSet::from_attributes(Vec::new(alloc))
    }

    // The pairs as the list that holds them.
    fn list(&self) -> &Vec<(Txt, AttrValue)>
        ensures value { result.now.items ≡ self.now }
        ensures attributes { AreAttributes self.now }
    {
        self.pairs.as_vec()
    }

    /// The pairs, in the order of their keys. Takes no memory.
    pub fn pairs(&self) -> &[(Txt, AttrValue)]
        ensures value { result.now ≡ self.now }
        ensures attributes { AreAttributes self.now }
    {
        self.list().as_slice()
    }

    /// The number of pairs. Takes no memory.
    pub fn len(&self) -> usize
        ensures { result ≡ length self.now }
    {
        self.pairs().len()
    }

    /// Whether there are no pairs. Takes no memory.
    pub fn is_empty(&self) -> bool
        ensures { IsTrue result ↔ (self.now ≡ []) }
    {
        self.pairs().is_empty()
    }

    /// The pair at a place, in the order of the keys. Takes no memory.
    pub fn pair(&self, i: usize) -> Option<&(Txt, AttrValue)>
        ensures { option_copied result ≡ slice_get self.now i }
    {
        self.pairs().get(i)
    }

    /// The value under a key. O(log n) comparisons of keys; takes no memory.
    pub fn get(&self, key: &str) -> Option<&AttrValue>
        ensures { option_copied result ≡ value_of key.now self.now }
    {
        value_under(self.pairs(), key)
    }

    /// Whether the set has this pair. O(log n) comparisons of keys; takes no memory.
    pub fn has(&self, key: &str, value: &AttrValue) -> bool
        ensures { IsTrue result ↔ Contains self.now (key.now, value.now) }
    {
        match value_under(self.pairs(), key) {
            Some(held) => held == value,
            None => false,
        }
    }

    /// The pairs whose key is kept: a view's restriction of the attributes of a measurement.
    ///
    /// O(n) copies, and for an allow-list of m keys O(n log m) comparisons. Takes no memory where nothing is kept.
    pub fn kept(&self, keep: &Keep) -> Result<AttrSet, NoMemory>
        ensures value { IfOk result (λ set. set ≡ kept keep.now self.now) }
        ensures no_memory { OnErr result (kept keep.now self.now ≢ []) }
    {
        match keep {
            Keep::All => self.try_copy(),
            Keep::Only(list) => restriction(self.list(), list),
        }
    }

    /// An equal set. O(n); takes no memory where the set is empty.
    pub fn try_copy(&self) -> Result<AttrSet, NoMemory>
        ensures value { IfOk result (λ copy. copy ≡ self.now) }
        ensures no_memory { OnErr result (self.now ≢ []) }
    {
        Ok(AttrSet {
            pairs: Pairs {
                pairs: Seq::from_vec(copy_all(self.list())?),
            },
            hash: self.hash,
        })
    }
}

impl PartialEq for AttrSet {
    ghost eq = { (equal.ghosts).eq };

    ghost laws = { equal_laws.laws-law };

    // Sets that differ mostly differ in their hashes.
    fn eq(&self, other: &AttrSet) -> bool {
        self.hash == other.hash && self.pairs == other.pairs
    }
}

impl Eq for AttrSet {
    ghost laws = { whole_laws.laws-law };
}

impl PartialOrd for AttrSet {
    ghost partial_cmp = { as_partial_cmp set_cmp };

    ghost laws = { set_partial };

    fn partial_cmp(&self, other: &AttrSet) -> Option<Ordering> {
        Some(self.cmp(other))
    }
}

impl Ord for AttrSet {
    ghost cmp = { set_cmp };

    ghost total = { set_total };

    ghost matches_partial_cmp = { λ x y. refl };

    ghost matches_eq = { set_ties };

    fn cmp(&self, other: &AttrSet) -> Ordering {
        self.pairs.cmp(&other.pairs)
    }
}

impl Hash for AttrSet {
    ghost hash_input = { hash_writes };

    ghost respects_eq = { hash_alike };

    fn hash<H: Hasher>(&self, state: &mut H) {
        self.hash.hash(state);
    }
}
