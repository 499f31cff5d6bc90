//! What is kept of a set of attributes, shown by the places of its pairs, so that nothing is copied.
ghost use Rattle.std.specs.Prelude.{◌≡◌, ◌++◌, ◌∷◌, [], if◌then◌else◌, IfOk, OnOk, slice_get, true};
ghost use Rattle.std.specs.Option.{option_copied};
ghost use Rattle.attr_kit.specs.Attributes.{AreAttributes};
ghost use Rattle.attr_kit.specs.Keeping.{kept};
ghost use Rattle.attr_kit.specs.declared.keep.Keep.TheVariants.{Only};
ghost use Rattle.rollup_kit.specs.Places.{Show, HaveKeys, ShowKept};

use attr_kit::{AllowList, AttrSet, AttrValue, Keep, NoMemory, TryCopy, Txt};
use std::alloc::Global;
use std::hash::{FoldHasher, Hash, Hasher};

// The pair at a place.
fn pair_at(pairs: &[(Txt, AttrValue)], place: usize) -> Option<&(Txt, AttrValue)>
    ensures { option_copied result ≡ slice_get pairs.now place }
{
    pairs.get(place)
}

// Whether pairs with these keys stand at these places, one after the other.
fn have_keys(pairs: &[(Txt, AttrValue)], places: &[usize], keys: &[Txt]) -> bool
    ensures { result ≡ true → HaveKeys pairs.now places.now keys.now }
{
    if places.len() != keys.len() {
        return false;
    }
    for (index, key) in keys.iter().enumerate() {
        match pair_at(pairs, places[index]) {
            Some(pair) if pair.0 == *key => {}
            _ => return false,
        }
    }
    true
}

/// Whether the pairs of a set stand at these places, one after the other.
pub(crate) fn show(pairs: &[(Txt, AttrValue)], places: &[usize], set: &AttrSet) -> bool
    ensures shown { result ≡ true → Show pairs.now places.now set.now }
    ensures attributes { AreAttributes set.now }
{
    let held = set.pairs();
    if places.len() != held.len() {
        return false;
    }
    for (index, pair) in held.iter().enumerate() {
        match pair_at(pairs, places[index]) {
            Some(other) if *other == *pair => {}
            _ => return false,
        }
    }
    true
}

// Puts a place behind the others, if the key there is listed.
fn note(places: &mut Vec<usize>, place: usize, is_listed: bool) -> Result<(), NoMemory>
    ensures { OnOk result (places.new.items ≡ (if is_listed then places.old.items ++ place ∷ [] else places.old.items)) }
{
    if is_listed {
        places.push(place)?;
    }
    Ok(())
}

// Finds the places of the pairs whose key is listed.
fn find_listed(
    places: &mut Vec<usize>,
    pairs: &[(Txt, AttrValue)],
    list: &AllowList,
) -> Result<(), NoMemory>
    ensures { OnOk result (Show pairs.now places.new.items (kept (Only list.now) pairs.now)) }
{
    places.clear();
    for (place, pair) in pairs.iter().enumerate() {
        note(places, place, list.has(pair.0.as_str()))?;
    }
    Ok(())
}

/// Finds the places of the pairs of a set that an allow-list keeps; those of the set before are tried first.
pub(crate) fn find_kept(
    places: &mut Vec<usize>,
    attrs: &AttrSet,
    list: &AllowList,
) -> Result<(), NoMemory>
    ensures { OnOk result (ShowKept list.now attrs.now places.new.items) }
{
    let pairs = attrs.pairs();
    if have_keys(pairs, places.as_slice(), list.keys()) {
        return Ok(());
    }
    find_listed(places, pairs, list)
}

// Copies of the pairs at these places, in room of their number.
fn copies_at(
    alloc: Global,
    pairs: &[(Txt, AttrValue)],
    places: &[usize],
) -> Result<Vec<(Txt, AttrValue)>, NoMemory> {
    let mut copies = Vec::with_capacity(alloc, places.len())?;
    for place in places {
        if let Some(pair) = pairs.get(*place) {
            copies.push(pair.try_copy()?)?;
        }
    }
    Ok(copies)
}

/// What an allow-list keeps of a set, by the places that show it. What is copied from there takes no room but its own, and
/// counts once it is compared.
pub(crate) fn kept_set(
    alloc: Global,
    attrs: &AttrSet,
    places: &[usize],
    list: &AllowList,
    keep: &Keep,
) -> Result<AttrSet, NoMemory>
    requires keep { keep.now ≡ Only list.now }
    requires places { ShowKept list.now attrs.now places.now }
    ensures { IfOk result (λ set. set ≡ kept keep.now attrs.now) }
{
    let pairs = attrs.pairs();
    if let Ok(set) = AttrSet::from_pairs(copies_at(alloc, pairs, places)?) {
        if show(pairs, places, &set) {
            return Ok(set);
        }
    }
    attrs.kept(keep)
}

/// A hash of the pairs at these places, the same for equal pairs.
pub(crate) fn hash_of(pairs: &[(Txt, AttrValue)], places: &[usize]) -> u64 {
    let mut state = FoldHasher::default();
    for place in places {
        if let Some(pair) = pairs.get(*place) {
            pair.hash(&mut state);
        }
    }
    state.finish()
}
