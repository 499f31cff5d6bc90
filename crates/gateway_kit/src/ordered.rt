//! Lists in the order of their keys.
ghost use Rattle.std.specs.Prelude.{◌≡◌, ◌↔◌, ◌<◌, ◌≤◌, ◌+◌, ◌^◌, ◌-◌, ℕ, IsTrue, IfOk, MatchResult, length, map, min, vec_len};
ghost use Rattle.std.specs.Cmp.{IsTotalOrder};
ghost use Rattle.std.specs.FinMap.{IsAntisymmetric};
ghost use Rattle.std.specs.FinMap.Entries.{find, is_sorted};
ghost use Rattle.std.specs.List.{IsDistinct};
ghost use Rattle.std.specs.List.Sorted.{IsPermutation};
ghost use Rattle.std.specs.Ordering.{eq_by_cmp};
ghost use Rattle.std.specs.declared.cmp.Ordering.{Ordering};
ghost use Rattle.gateway_kit.specs.Numbers.{AllAre};
ghost use Rattle.gateway_kit.specs.Places.{IsPlace};
ghost use Rattle.gateway_kit.specs.Weave.{AreBelow, Rises, by_key};

use attr_kit::NoMemory;
use std::alloc::AllocError;
use std::cmp::Ordering;

/// Values that stand in a list in the order of their keys.
pub(crate) trait Keyed: Drop {
    ghost Key: { Type 0 };

    // What stands under a key.
    ghost Value: { Type 0 };

    ghost compare: { Key → Key → Ordering };

    ghost entry: { Self → Key × Value };

    // All keys of it have one number.
    ghost IsNumbered: { ℕ → Self → Type 0 };

    /// How the keys of two compare.
    fn order(&self, other: &Self) -> Ordering
        ensures { result ≡ compare (entry self.now).0 (entry other.now).0 };

    /// Whether equal values stand under the keys of two.
    fn same_value(&self, other: &Self) -> bool
        ensures { IsTrue result ↔ ((entry self.now).1 ≡ (entry other.now).1) };

    /// Gives all keys of it one number.
    fn renumber(&mut self, number: u64)
        ensures same { entry self.new ≡ entry self.old }
        ensures numbers { IsNumbered number self.new };

    ghost total: { IsTotalOrder compare };

    ghost exact: { IsAntisymmetric compare };
}

// Where to begin: at the hint, where the value before it is below the key, else at the front.
fn begin<T: Keyed>(values: &[T], hint: usize, key: &T) -> usize
    ensures within { result ≤ length values.now }
    ensures below { AreBelow (by_key T.compare T.entry) values.now key.now result }
{
    if hint == 0 || hint > values.len() {
        return 0;
    }
    let last = hint - 1;
    match values[last].order(key) {
        Ordering::Less => hint,
        _ => 0,
    }
}

// Whether so many values from a place on are there, and the last of them is below a key.
fn is_below<T: Keyed>(values: &[T], place: usize, count: usize, key: &T) -> bool
    requires some { 0 < count }
    requires within { place ≤ length values.now }
    ensures within { IsTrue result → place + count ≤ length values.now }
    ensures below { IsTrue result → AreBelow (by_key T.compare T.entry) values.now key.now (place + count) }
{
    if count > values.len() - place {
        return false;
    }
    let last = place + (count - 1);
    match values[last].order(key) {
        Ordering::Less => true,
        _ => false,
    }
}

/// Goes up from a place past values that are below a key, in a list in order past all of them: O(log n) comparisons for n of
/// them. Steps double while what they end at is below the key, and then halve.
pub(crate) fn skip_below<T: Keyed>(values: &[T], from: usize, key: &T) -> usize
    requires { from ≤ length values.now }
    ensures within { result ≤ length values.now }
    ensures on { from ≤ result }
    ensures below { AreBelow (by_key T.compare T.entry) values.now key.now from
        → AreBelow (by_key T.compare T.entry) values.now key.now result }
{
    let mut place = from;
    let mut step = 1;
    'double: while is_below(values, place, step, key) {
        place += step;
        step = step.saturating_mul(2);
    }
    'halve: while step > 1 {
        step /= 2;
        if is_below(values, place, step, key) {
            place += step;
        }
    }
    place
}

/// The place of a key or where it belongs, found by going up from a hint: O(log n) comparisons for n values in between. A walk
/// over a second list that hands each place on as the next hint takes O(n + k) in all, and O(k log (n / k)) where k are few.
pub(crate) fn place_from<T: Keyed>(values: &[T], hint: usize, key: &T) -> Result<usize, usize>
    requires { IsTrue (is_sorted T.compare (map T.entry values.now)) }
    ensures { IsPlace T.compare (map T.entry values.now) (T.entry key.now).0 result }
{
    let mut place = begin(values, hint, key);
    while place < values.len() {
        match values[place].order(key) {
            Ordering::Less => place = skip_below(values, place + 1, key),
            Ordering::Equal => return Ok(place),
            Ordering::Greater => return Err(place),
        }
    }
    Err(place)
}

/// The hint for the next key of a walk: past the place where one was found, else where it belongs.
pub(crate) fn after(place: Result<usize, usize>) -> usize
    ensures { MatchResult place (λ found. result ≡ min (found + 1) (2 ^ 64 - 1)) (λ gap. result ≡ gap) }
{
    match place {
        Ok(place) => place.saturating_add(1),
        Err(place) => place,
    }
}

/// Whether each key of a list is below the next: one walk.
pub(crate) fn rises<T: Keyed>(values: &[T]) -> bool
    ensures rises { IsTrue result → Rises (by_key T.compare T.entry) values.now }
    ensures all { Rises (by_key T.compare T.entry) values.now → IsTrue result }
{
    for place in 1..values.len() {
        match values[place - 1].order(&values[place]) {
            Ordering::Less => {}
            _ => return false,
        }
    }
    true
}

/// Values in the order of their keys: as they are where they rise already.
pub(crate) fn in_order<T: Keyed>(values: Vec<T>) -> Result<Vec<T>, NoMemory>
    requires { IsDistinct (eq_by_cmp T.compare) (map (λ x. (T.entry x).0) values.items) }
    ensures sorted { IfOk result (λ s. IsTrue (is_sorted T.compare (map T.entry s.items))) }
    ensures moved { IfOk result (λ s. IsPermutation values.items s.items) }
    ensures same { IfOk result (λ s. (q : T.Key) → find T.compare q (map T.entry s.items) ≡ find T.compare q (map T.entry values.items)) }
{
    if rises(values.as_slice()) {
        return Ok(values);
    }
    let mut values = values;
    values.sort_by(|x, y| x.order(y))?;
    Ok(values)
}

/// Whether two have equal keys, and equal values under them.
pub(crate) fn same<T: Keyed>(mine: &T, theirs: &T) -> bool
    ensures { IsTrue result ↔ (T.entry mine.now ≡ T.entry theirs.now) }
{
    match mine.order(theirs) {
        Ordering::Less => false,
        Ordering::Equal => mine.same_value(theirs),
        Ordering::Greater => false,
    }
}

/// Whether two lists have equal keys, and equal values under them: one walk over both.
pub(crate) fn all_same<T: Keyed>(mine: &[T], theirs: &[T]) -> bool
    ensures { IsTrue result ↔ (map T.entry mine.now ≡ map T.entry theirs.now) }
{
    if mine.len() != theirs.len() {
        return false;
    }
    for place in 0..mine.len() {
        if !same(&mine[place], &theirs[place]) {
            return false;
        }
    }
    true
}

/// Gives all keys of all values one number.
pub(crate) fn renumber_all<T: Keyed>(values: &mut Vec<T>, number: u64)
    ensures same { map T.entry values.new.items ≡ map T.entry values.old.items }
    ensures len { vec_len values.new ≡ vec_len values.old }
    ensures numbers { AllAre (T.IsNumbered number) values.new.items }
{
    for place in 0..values.len() {
        values[place].renumber(number);
    }
}
