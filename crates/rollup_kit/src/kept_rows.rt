//! The rows of a roll-up by some keys, while its points are walked over.
ghost use Rattle.std.specs.Prelude.{◌≡◌, ℕ, ◌<◌, ◌++◌, [], true, false, Some, length, slice_get, vec_len, OnErr, OnOk, IfOk, IfNone, IfSome};
ghost use Rattle.std.specs.List.{IsDistinct};
ghost use Rattle.std.specs.Map.{keys_of};
ghost use Rattle.std.specs.Ordering.{eq_by_cmp};
ghost use Rattle.rollup_kit.specs.Asks.{Attributes, attributes_cmp};
ghost use Rattle.rollup_kit.specs.Indexed.{pairs_hash, EachHasRoom, AddsAt, Pushes};
ghost use Rattle.rollup_kit.specs.Walks.{HasRoom, AddsTo, AddsShown};

use crate::group::Group;
use crate::kept;
use crate::kept::show;
use crate::whole_rows::{add_held, first_group, start};
use attr_kit::{AttrSet, AttrValue, NoMemory, Txt};
use indexmap::IndexMap;
use point_kit::Cell;
use std::alloc::Global;
use std::collections::HashMap;
use std::hash::{FoldHasher, Hash, Hasher};
use std::marker::Model;

/// The rows so far: sets of attributes, each with the group of its points.
///
/// A row is found by the hash of its set, which tells its place. The row at a guessed place counts once its set is compared, so
/// a wrong guess costs time alone. Where two rows share a hash the later stands among the others, and is found by its set.
///
/// Before any hash the row behind the last one is guessed, behind the last row the first: points come in the order of their keys,
/// and so what is kept of one writer's sets comes again, in the same order, with the next writer's.
#[derive(Drop)]
pub(crate) struct KeptRows {
    rows: Vec<(AttrSet, Group)>,
    others: IndexMap<AttrSet, Group>,
    places: HashMap<u64, usize>,
    next: usize,
}

impl Model for KeptRows {
    ghost use Rattle.std.specs.Prelude.{◌++◌};
    ghost use Rattle.rollup_kit.specs.Indexed.{IsIndexed};
    ghost use Rattle.rollup_kit.specs.Walks.{Rows};

    ghost Value = { Rows };

    ghost view = { λ t. t.rows.items ++ t.others.entries };

    ghost invariant = { λ t. IsIndexed t.rows.items t.others.entries t.places.entries };
}

// The hash of a set: that of its pairs, one after the other.
fn hash_of(set: &AttrSet) -> u64
    ensures { result ≡ pairs_hash set.now }
{
    let mut state = FoldHasher::default();
    Hash::hash_slice(set.pairs(), &mut state);
    state.finish()
}

// Adds a cell to the row at a place.
fn add_at(rows: &mut Vec<(AttrSet, Group)>, place: usize, cell: &Cell)
    requires within { place < vec_len rows.old }
    requires room { EachHasRoom rows.old.items }
    ensures { (set : Attributes) → slice_get (keys_of rows.old.items) place ≡ Some set
        → AddsAt place set cell.now rows.old.items rows.new.items }
{
    rows[place].1.add(cell);
}

// The place that is told, if the row of a set stands there.
fn place_of(rows: &[(AttrSet, Group)], told: Option<usize>, set: &AttrSet) -> Option<usize>
    ensures found { IfSome result (λ at. (at < length rows.now) × (slice_get (keys_of rows.now) at ≡ Some set.now)) }
    ensures none { IfNone result ((at : ℕ) → told ≡ Some at → slice_get (keys_of rows.now) at ≡ Some set.now → ⊥) }
{
    let place = told?;
    if place >= rows.len() {
        return None;
    }
    if rows[place].0 != *set {
        return None;
    }
    Some(place)
}

// Puts a new row at the end, and tells its place under its hash.
fn push(
    rows: &mut Vec<(AttrSet, Group)>,
    places: &mut HashMap<u64, usize>,
    hash: u64,
    row: (AttrSet, Group),
) -> Result<(), NoMemory>
    ensures ok { OnOk result (Pushes hash row rows.old.items rows.new.items places.old.entries places.new.entries) }
    ensures err { OnErr result ((rows.new.items ≡ rows.old.items) × (places.new.entries ≡ places.old.entries)) }
{
    rows.reserve(1)?;
    places.insert(hash, rows.len())?;
    rows.push_reserved(row);
    Ok(())
}

/// Rows, and others behind them.
pub(crate) fn append(
    rows: Vec<(AttrSet, Group)>,
    others: IndexMap<AttrSet, Group>,
) -> Result<Vec<(AttrSet, Group)>, NoMemory>
    ensures { IfOk result (λ all. all.items ≡ rows.items ++ others.entries) }
{
    let mut all = rows;
    for (set, group) in others {
        all.push((set, group))?;
    }
    Ok(all)
}

impl KeptRows {
    pub(crate) fn new(alloc: Global) -> KeptRows
        ensures { result ≡ [] }
    {
        KeptRows {
            rows: Vec::new(alloc),
            others: IndexMap::new(alloc),
            places: HashMap::new(alloc),
            next: 0,
        }
    }

    // Adds a cell to the row at a place, if these places of a point's pairs show its set.
    fn add_guessed(
        &mut self,
        place: usize,
        pairs: &[(Txt, AttrValue)],
        places: &[usize],
        cell: &Cell,
    ) -> bool
        requires { HasRoom self.old }
        ensures added { result ≡ true → AddsShown pairs.now places.now cell.now self.old self.new }
        ensures kept { result ≡ false → self.new ≡ self.old }
    {
        if place >= self.rows.len() || !show(pairs, places, &self.rows[place].0) {
            return false;
        }
        add_at(&mut self.rows, place, cell);
        self.next = place + 1;
        true
    }

    // The same of the row behind the last one that a cell was added to.
    fn add_next(&mut self, pairs: &[(Txt, AttrValue)], places: &[usize], cell: &Cell) -> bool
        requires { HasRoom self.old }
        ensures added { result ≡ true → AddsShown pairs.now places.now cell.now self.old self.new }
        ensures kept { result ≡ false → self.new ≡ self.old }
    {
        let place = if self.next < self.rows.len() {
            self.next
        } else {
            0
        };
        self.add_guessed(place, pairs, places, cell)
    }

    /// Adds a cell to a row whose set these places of a point's pairs show, if it is guessed or its hash tells it. Copies nothing.
    pub(crate) fn add_shown(
        &mut self,
        pairs: &[(Txt, AttrValue)],
        places: &[usize],
        cell: &Cell,
    ) -> bool
        requires { HasRoom self.old }
        ensures added { result ≡ true → AddsShown pairs.now places.now cell.now self.old self.new }
        ensures kept { result ≡ false → self.new ≡ self.old }
    {
        if self.add_next(pairs, places, cell) {
            return true;
        }
        match self.places.get(&kept::hash_of(pairs, places)).copied() {
            Some(place) => self.add_guessed(place, pairs, places, cell),
            None => false,
        }
    }

    /// Adds a cell to the row of a set, which is new if there is none.
    pub(crate) fn add_set(
        &mut self,
        alloc: Global,
        buckets: usize,
        set: AttrSet,
        cell: &Cell,
    ) -> Result<(), NoMemory>
        requires { HasRoom self.old }
        ensures { OnOk result (AddsTo buckets set cell.now self.old self.new) }
    {
        let hash = hash_of(&set);
        let told = self.places.get(&hash).copied();
        match place_of(self.rows.as_slice(), told, &set) {
            Some(place) => {
                add_at(&mut self.rows, place, cell);
                return Ok(());
            }
            None => {}
        }
        if add_held(&mut self.others, &set, cell) {
            return Ok(());
        }
        if told.is_some() {
            return start(alloc, buckets, &mut self.others, set, cell);
        }
        let group = first_group(alloc, buckets, cell)?;
        push(&mut self.rows, &mut self.places, hash, (set, group))
    }

    /// The rows as a list.
    pub(crate) fn into_list(self) -> Result<Vec<(AttrSet, Group)>, NoMemory>
        ensures value { IfOk result (λ rows. rows.items ≡ self) }
        ensures distinct { IsDistinct (eq_by_cmp attributes_cmp) (keys_of self) }
    {
        let KeptRows { rows, others, .. } = self;
        append(rows, others)
    }
}
