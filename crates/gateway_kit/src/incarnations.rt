//! The incarnations of a gateway, in the order of their keys.
ghost use Rattle.std.specs.Prelude.{◌≡◌, ◌↔◌, ◌≢◌, ◌<◌, ◌≤◌, ◌+◌, ◌++◌, ◌%◌, ◌^◌, IsTrue, IfOk, OnOk, OnErr, map, filter, [], ◌∷◌, length, slice_index_or, IsSome, IsOk, ℕ, false};
ghost use Rattle.std.specs.FinMap.{from_entries};
ghost use Rattle.std.specs.FinMap.Entries.{is_sorted, find};
ghost use Rattle.point_kit.specs.Exports.{state};
ghost use Rattle.gateway_kit.specs.Covering.{AreCovered};
ghost use Rattle.gateway_kit.specs.Growth.{GrowsBy, cells_at};
ghost use Rattle.gateway_kit.specs.Keys.{incarnation_cmp, item_cmp};
ghost use Rattle.gateway_kit.specs.Numbers.{AllAre, IncarnationsMove, IsNumbered};
ghost use Rattle.gateway_kit.specs.Incarnations.{IsWhole, keyed_cells, all_points};
ghost use Rattle.gateway_kit.specs.IncarnationState.{IncarnationState};
ghost use Rattle.gateway_kit.specs.Places.{IsPlace};
ghost use Rattle.gateway_kit.specs.Tallies.{conflicts_of};
ghost use Rattle.gateway_kit.specs.Recent.{recent_incarnations};
ghost use Rattle.gateway_kit.specs.Walks.{is_of};
ghost use Rattle.shelf_kit.specs.Walks.{walk_left};

use crate::growth::Growth;
use crate::incarnation::Incarnation;
use crate::ordered::{Keyed, same};
use crate::targets::{IncarnationTarget, ServiceBegin, ServiceEnd};
use attr_kit::{NoMemory, TryCopy};
use point_kit::{Cell, Export, Key, WriterId};
use shelf_kit::{Shelves, Walk};
use std::alloc::{AllocError, AllocFailed, Global};
use std::cmp::Ordering;

/// The place of an incarnation, or where it belongs: O(log n).
pub(crate) fn incarnation_place(
    incarnations: &Shelves<Incarnation>,
    writer: &WriterId,
    start: u64,
) -> Result<usize, usize>
    requires { IsTrue (is_sorted incarnation_cmp (map keyed_cells incarnations.now.items)) }
    ensures { IsPlace incarnation_cmp (map keyed_cells incarnations.now.items) (writer.now, start) result }
{
    incarnations.search(&IncarnationTarget { writer, start })
}

// Where the incarnations of a service begin: O(log n). No answer is `Equal`, so the search finds none.
fn service_begin(incarnations: &Shelves<Incarnation>, service: &str) -> usize
    requires { IsTrue (is_sorted incarnation_cmp (map keyed_cells incarnations.now.items)) }
    ensures { (k : ℕ) (d : IncarnationState) → k < result → is_of service.now (slice_index_or incarnations.now.items k d).writer ≡ false }
{
    match incarnations.search(&ServiceBegin { service }) {
        Ok(_) => 0,
        Err(place) => place,
    }
}

// Where they end: O(log n), likewise.
fn service_end(incarnations: &Shelves<Incarnation>, service: &str) -> usize
    requires { IsTrue (is_sorted incarnation_cmp (map keyed_cells incarnations.now.items)) }
    ensures within { result ≤ length incarnations.now.items }
    ensures behind { (k : ℕ) (d : IncarnationState) → result ≤ k → k < length incarnations.now.items
        → is_of service.now (slice_index_or incarnations.now.items k d).writer ≡ false }
{
    match incarnations.search(&ServiceEnd { service }) {
        Ok(_) => incarnations.len(),
        Err(place) => place,
    }
}

/// All of them, in order.
pub(crate) fn all(incarnations: &Shelves<Incarnation>) -> Walk<'_, Incarnation>
    ensures { walk_left result ≡ incarnations.now.items }
{
    incarnations.walk(0, incarnations.len())
}

/// The incarnations of a service: O(log n).
pub(crate) fn incarnations_of<'a>(
    incarnations: &'a Shelves<Incarnation>,
    service: &str,
) -> Walk<'a, Incarnation>
    requires { IsTrue (is_sorted incarnation_cmp (map keyed_cells incarnations.now.items)) }
    ensures { filter (λ e. is_of service.now e.0.writer) (all_points (walk_left result))
        ≡ filter (λ e. is_of service.now e.0.writer) (all_points incarnations.now.items) }
{
    incarnations.walk(
        service_begin(incarnations, service),
        service_end(incarnations, service),
    )
}

/// Whether two hold equal incarnations: one walk over both.
pub(crate) fn same_incarnations(mine: &Shelves<Incarnation>, theirs: &Shelves<Incarnation>) -> bool
    ensures { IsTrue result ↔ (map keyed_cells mine.now.items ≡ map keyed_cells theirs.now.items) }
{
    if mine.len() != theirs.len() {
        return false;
    }
    for place in 0..mine.len() {
        if !same(mine.get(place), theirs.get(place)) {
            return false;
        }
    }
    true
}

/// Copies of all incarnations.
pub(crate) fn copy_incarnations(
    incarnations: &Shelves<Incarnation>,
) -> Result<Shelves<Incarnation>, NoMemory>
    ensures items { IfOk result (λ copy. copy.items ≡ incarnations.now.items) }
    ensures covered { IfOk result (λ copy. AreCovered copy.bounds copy.items) }
{
    let mut copy = Shelves::new(incarnations.allocator());
    for place in 0..incarnations.len() {
        let incarnation = incarnations.get(place);
        copy.bounds_match();
        copy.insert(place, incarnation.try_copy()?, incarnation.most())?;
    }
    Ok(copy)
}

/// Gives no key a number.
pub(crate) fn without_numbers(incarnations: &mut Shelves<Incarnation>)
    ensures same { map keyed_cells incarnations.new.items ≡ map keyed_cells incarnations.old.items }
    ensures numbers { AllAre (IsNumbered 0) incarnations.new.items }
{
    for place in 0..incarnations.len() {
        incarnations.get_mut(place).renumber(0);
    }
}

/// How many cells all incarnations have: one walk over the incarnations.
pub(crate) fn all_len(incarnations: &Shelves<Incarnation>) -> usize
    requires { length (all_points incarnations.now.items) ≤ 2 ^ 62 }
    ensures { result ≡ length (all_points incarnations.now.items) }
{
    let mut len = 0;
    for place in 0..incarnations.len() {
        len += incarnations.get(place).items().len();
    }
    len
}

/// How many cells of some incarnations are conflicts, without what 64 bits do not hold: one walk over them.
pub(crate) fn conflicts_among(incarnations: &[Incarnation]) -> u64
    ensures { result ≡ conflicts_of incarnations.now % 2 ^ 64 }
{
    let mut conflicts = 0u64;
    for incarnation in incarnations {
        conflicts = conflicts.wrapping_add(incarnation.conflicts());
    }
    conflicts
}

/// The place of an incarnation, or where it belongs, found by one comparison where it stands at the hint, else searched for.
pub(crate) fn place_near(
    incarnations: &Shelves<Incarnation>,
    hint: usize,
    incarnation: &Incarnation,
) -> Result<usize, usize>
    requires { IsTrue (is_sorted incarnation_cmp (map keyed_cells incarnations.now.items)) }
    ensures { IsPlace incarnation_cmp (map keyed_cells incarnations.now.items) (incarnation.now.writer, incarnation.now.start) result }
{
    let (writer, start) = (&incarnation.writer, incarnation.start);
    if hint < incarnations.len() {
        if let Ordering::Equal = incarnations.get(hint).order(writer, start) {
            return Ok(hint);
        }
    }
    incarnation_place(incarnations, writer, start)
}

/// How many cells of all incarnations are conflicts: one walk over the incarnations.
pub(crate) fn all_conflicts(incarnations: &Shelves<Incarnation>) -> u64
    requires { conflicts_of incarnations.now.items ≤ 2 ^ 62 }
    ensures { result ≡ conflicts_of incarnations.now.items }
{
    let mut conflicts = 0;
    for place in 0..incarnations.len() {
        conflicts += incarnations.get(place).conflicts();
    }
    conflicts
}

// Keeps a copy of what of an incarnation is numbered above a number, where there is any.
fn keep_recent(
    kept: &mut Shelves<Incarnation>,
    alloc: Global,
    incarnation: &Incarnation,
    number: u64,
) -> Result<(), NoMemory>
    ensures { OnOk result (map keyed_cells kept.new.items
        ≡ map keyed_cells kept.old.items ++ map keyed_cells (recent_incarnations number (incarnation.now ∷ []))) }
{
    if incarnation.may_exceed(number) {
        let recent = incarnation.since(alloc, number)?;
        if !recent.items().is_empty() {
            kept.insert(kept.len(), recent, 0)?;
        }
    }
    Ok(())
}

// Keeps copies of what of some incarnations is.
fn keep_run(
    kept: &mut Shelves<Incarnation>,
    alloc: Global,
    run: &[Incarnation],
    number: u64,
) -> Result<(), NoMemory>
    ensures { OnOk result (map keyed_cells kept.new.items
        ≡ map keyed_cells kept.old.items ++ map keyed_cells (recent_incarnations number run.now)) }
{
    for incarnation in run {
        keep_recent(kept, alloc, incarnation, number)?;
    }
    Ok(())
}

/// Copies of what of incarnations is numbered above a number. Those whose bound is not above it are passed over, whole shelves by one
/// look; of another without such a key nothing is walked over.
pub(crate) fn all_since(
    alloc: Global,
    incarnations: &Shelves<Incarnation>,
    number: u64,
) -> Result<Shelves<Incarnation>, NoMemory>
    requires { AreCovered incarnations.now.bounds incarnations.now.items }
    ensures { IfOk result (λ kept. map keyed_cells kept.items ≡ map keyed_cells (recent_incarnations number incarnations.now.items)) }
{
    let mut kept = Shelves::new(alloc);
    let mut place = incarnations.next_above(0, number);
    while place < incarnations.len() {
        let run = incarnations.run(place);
        keep_run(&mut kept, alloc, run, number)?;
        place = incarnations.next_above(place + run.len(), number);
    }
    Ok(kept)
}

/// Joins an export, which has points, into its incarnation, and numbers the keys that change.
pub(crate) fn take_in(
    incarnations: &mut Shelves<Incarnation>,
    len: usize,
    number: u64,
    export: &Export,
) -> Result<Growth, NoMemory>
    requires whole { IsWhole incarnations.old.items len }
    requires points { export.now.points ≢ [] }
    ensures grows { IfOk result (λ g. GrowsBy incarnations.old.items incarnations.new.items len (state (export.now ∷ [])) g) }
    ensures moves { OnOk result (IncarnationsMove number incarnations.old.items incarnations.new.items) }
    ensures covered { AreCovered incarnations.old.bounds incarnations.old.items
        → AreCovered incarnations.new.bounds incarnations.new.items }
    ensures unchanged { OnErr result (incarnations.new.items ≡ incarnations.old.items) }
{
    match incarnation_place(incarnations, export.writer(), export.start()) {
        Ok(place) => {
            incarnations.raise(place, number);
            incarnations.get_mut(place).take(len, number, export)
        }
        Err(place) => {
            let alloc = incarnations.allocator();
            let writer = export.writer().try_copy()?;
            let mut incarnation = Incarnation::new(alloc, writer, export.start());
            let growth = incarnation.take(len, number, export)?;
            incarnations.bounds_match();
            incarnations.insert(place, incarnation, number)?;
            Ok(growth)
        }
    }
}

/// Joins a cell into the incarnation of its key.
pub(crate) fn join_in(
    incarnations: &mut Shelves<Incarnation>,
    len: usize,
    key: Key,
    cell: Cell,
) -> Result<Growth, NoMemory>
    requires whole { IsWhole incarnations.old.items len }
    ensures grows { IfOk result (λ g. GrowsBy incarnations.old.items incarnations.new.items len (from_entries ((key, cell) ∷ [])) g) }
    ensures held { IsSome (find item_cmp (key.stream, key.attrs) (cells_at (key.writer, key.start) incarnations.old.items)) → IsOk result }
    ensures moves { OnOk result (IncarnationsMove 0 incarnations.old.items incarnations.new.items) }
    ensures covered { AreCovered incarnations.old.bounds incarnations.old.items
        → AreCovered incarnations.new.bounds incarnations.new.items }
    ensures unchanged { OnErr result (incarnations.new.items ≡ incarnations.old.items) }
{
    let Key {
        writer,
        start,
        stream,
        attrs,
    } = key;
    match incarnation_place(incarnations, &writer, start) {
        Ok(place) => incarnations.get_mut(place).join(len, stream, attrs, cell),
        Err(place) => {
            let alloc = incarnations.allocator();
            let mut incarnation = Incarnation::new(alloc, writer, start);
            let growth = incarnation.join(len, stream, attrs, cell)?;
            incarnations.bounds_match();
            incarnations.insert(place, incarnation, 0)?;
            Ok(growth)
        }
    }
}
