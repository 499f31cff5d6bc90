//! Two lists in one order become one in a single walk.
ghost use Rattle.std.specs.Prelude.{List, ◌≡◌, ◌+◌, ◌<◌, ◌≤◌, ◌++◌, ◌∷◌, [], IsTrue, length, map, take, drop, vec_len, vec_capacity};
ghost use Rattle.std.specs.FinMap.Entries.{is_sorted};
ghost use Rattle.std.specs.declared.cmp.Ordering.{Ordering};
ghost use Rattle.gateway_kit.specs.Turning.{IsTurnedIn};
ghost use Rattle.gateway_kit.specs.Weave.{GoBefore, IsWoven, by_key, front_order, weave};

use crate::ordered::{Keyed, skip_below};
use std::cmp::Ordering;
use std::collections::VecDeque;
use std::mem;

// Puts a value at the end of a list that has room for it.
fn put<T: Drop>(room: &mut Vec<T>, value: T)
    requires { vec_len room.old < vec_capacity room.old }
    ensures items { room.new.items ≡ room.old.items ++ value ∷ [] }
    ensures len { vec_len room.new ≡ vec_len room.old + 1 }
    ensures capacity { vec_capacity room.old ≤ vec_capacity room.new }
{
    let _ = room.push(value);
}

// Moves so many values from the front of a list to the end of another, which has room for them.
fn move_front<T: Drop>(mine: &mut VecDeque<T>, count: usize, room: &mut Vec<T>)
    requires within { count ≤ length mine.old.items }
    requires fits { vec_len room.old + count ≤ vec_capacity room.old }
    ensures moved { room.new.items ≡ room.old.items ++ take count mine.old.items }
    ensures left { mine.new.items ≡ drop count mine.old.items }
    ensures len { vec_len room.new ≡ vec_len room.old + count }
    ensures capacity { vec_capacity room.old ≤ vec_capacity room.new }
{
    for _ in 0..count {
        if let Some(value) = mine.pop_front() {
            put(room, value);
        }
    }
}

// How many values at the front go before another one: those that are below it.
fn front_below<T: Keyed>(mine: &VecDeque<T>, value: &T) -> usize
    requires { IsTrue (is_sorted T.compare (map T.entry mine.now.items)) }
    ensures within { result ≤ length mine.now.items }
    ensures before { GoBefore (by_key T.compare T.entry) result mine.now.items value.now }
{
    let (front, _) = mine.as_slices();
    skip_below(front, 0, value)
}

// How the first value compares with another one, if there is one.
fn front_order<T: Keyed>(mine: &VecDeque<T>, value: &T) -> Option<Ordering>
    ensures { result ≡ front_order (by_key T.compare T.entry) mine.now.items value.now }
{
    match mine.front() {
        Some(first) => Some(first.order(value)),
        None => None,
    }
}

// Moves the values below another one to the room, and then that one; of two that tie, the one that is there.
fn weave_one<T: Keyed>(mine: &mut VecDeque<T>, value: T, room: &mut Vec<T>)
    requires sorted { IsTrue (is_sorted T.compare (map T.entry mine.old.items)) }
    requires fits { vec_len room.old + length mine.old.items < vec_capacity room.old }
    ensures woven { IsWoven (by_key T.compare T.entry) value room.old.items mine.old.items room.new.items mine.new.items }
    ensures sorted { IsTrue (is_sorted T.compare (map T.entry mine.new.items)) }
    ensures len { vec_len room.new + length mine.new.items ≤ vec_len room.old + length mine.old.items + 1 }
    ensures capacity { vec_capacity room.old ≤ vec_capacity room.new }
{
    let count = front_below(mine, &value);
    move_front(mine, count, room);
    'last: loop {
        match front_order(mine, &value) {
            Some(Ordering::Less) => move_front(mine, 1, room),
            Some(Ordering::Equal) => {
                move_front(mine, 1, room);
                return;
            }
            _ => {
                put(room, value);
                return;
            }
        }
    }
}

/// Moves the values of both lists into the room, in the order of their keys: n + k moves, and O(k log (n / k)) comparisons
/// where the k come in between the n.
fn weave<T: Keyed>(mine: Vec<T>, theirs: Vec<T>, mut room: Vec<T>) -> Vec<T>
    requires sorted { IsTrue (is_sorted T.compare (map T.entry mine.items)) }
    requires empty { room.items ≡ [] }
    requires fits { vec_len mine + vec_len theirs ≤ vec_capacity room }
    ensures { result.items ≡ weave (by_key T.compare T.entry) mine.items theirs.items }
{
    let mut mine = VecDeque::from_vec(mine);
    for value in theirs {
        weave_one(&mut mine, value, &mut room);
    }
    let left = mine.len();
    move_front(&mut mine, left, &mut room);
    room
}

// Of what stands from one place up to another puts so many at the end before the others.
fn turn<T>(values: &mut [T], from: usize, to: usize, count: usize)
    requires ordered { from + count ≤ to }
    requires within { to ≤ length values.old }
    ensures len { length values.new ≡ length values.old }
    ensures turned { (us ws ys zs : List T) → values.old ≡ us ++ (ws ++ (ys ++ zs)) → length us ≡ from → from + length ws + count ≡ to
        → length ys ≡ count → values.new ≡ us ++ (ys ++ (ws ++ zs)) }
{
    values[from..to].rotate_right(count);
}

// Of values in order and so many behind them, and one more, turns that one in where it belongs: those behind come before it, and what
// is above it behind it. Of two that tie it is the one that goes. Answers how many stand in front then.
fn turn_in<T: Keyed>(values: &mut Vec<T>, above: usize, left: usize) -> usize
    requires there { above + left < vec_len values.old }
    requires sorted { IsTrue (is_sorted T.compare (map T.entry (take above values.old.items))) }
    ensures within { result ≤ above }
    ensures turned { IsTurnedIn (by_key T.compare T.entry) above left values.old.items result values.new.items }
{
    let last = above + left;
    let here = values.as_slice();
    let value = &here[last];
    match here[..above].binary_search_by(|other| other.order(value)) {
        Ok(_) => {
            let _ = values.remove(last);
            above
        }
        Err(gap) => {
            turn(values.as_mut_slice(), gap, last + 1, left + 1);
            gap
        }
    }
}

// Weaves k values in among the n of a list that has room for them, the last one first. What stands before the first of them stays:
// O(m + k²) moves, where m stand behind it, and O(k log n) comparisons.
fn weave_within<T: Keyed>(mine: &mut Vec<T>, mut few: Vec<T>)
    requires sorted { IsTrue (is_sorted T.compare (map T.entry mine.old.items)) }
    requires few_sorted { IsTrue (is_sorted T.compare (map T.entry few.items)) }
    requires fits { vec_len mine.old + vec_len few ≤ vec_capacity mine.old }
    ensures { mine.new.items ≡ weave (by_key T.compare T.entry) mine.old.items few.items }
{
    let mut above = mine.len();
    let mut left = few.len();
    let _ = mine.append(&mut few);
    while left > 0 {
        left -= 1;
        above = turn_in(mine, above, left);
    }
}

// Whether so few values come among so many that to turn them in takes fewer moves than to weave.
fn are_few(few: usize, many: usize) -> bool {
    few.saturating_mul(few) <= many
}

/// Weaves values in among those of a list: a few where they stand, if the list has room for them, else all into the room.
pub(crate) fn weave_in<T: Keyed>(mine: &mut Vec<T>, theirs: Vec<T>, room: Vec<T>)
    requires sorted { IsTrue (is_sorted T.compare (map T.entry mine.old.items)) }
    requires theirs_sorted { IsTrue (is_sorted T.compare (map T.entry theirs.items)) }
    requires empty { room.items ≡ [] }
    requires fits { vec_len mine.old + vec_len theirs ≤ vec_capacity room }
    ensures { mine.new.items ≡ weave (by_key T.compare T.entry) mine.old.items theirs.items }
{
    let spare = mine.capacity() - mine.len();
    if theirs.len() <= spare && are_few(theirs.len(), mine.len()) {
        weave_within(mine, theirs);
    } else {
        let alloc = *mine.allocator();
        let old = mem::replace(mine, Vec::new(alloc));
        *mine = weave(old, theirs, room);
    }
}
