//! What is held of one incarnation of a writer.
ghost use Rattle.std.specs.Prelude.{◌≡◌, ◌%◌, ◌^◌, IsTrue, IfOk, OnOk, OnErr, map, [], ◌≤◌, ◌+◌, option_copied, ◌<◌, length, IsSome, IsOk, ◌∷◌};
ghost use Rattle.std.specs.FinMap as finite;
ghost use Rattle.std.specs.FinMap.{entries, from_sorted};
ghost use Rattle.std.specs.FinMap.Entries.{is_sorted, find, where_key};
ghost use Rattle.gateway_kit.specs.Changing.{Prepares, keyed_cells_of, after_growth};
ghost use Rattle.gateway_kit.specs.Covering.{IsUpTo};
ghost use Rattle.gateway_kit.specs.Growth.{IncarnationJoins, Joins, JoinsAt};
ghost use Rattle.gateway_kit.specs.Keys.{keyed_cell_of, item_cmp, incarnation_cmp};
ghost use Rattle.gateway_kit.specs.Numbers.{IsNumbered, IncarnationMoves};
ghost use Rattle.gateway_kit.specs.Incarnations.{keyed_cells, has_cells};
ghost use Rattle.gateway_kit.specs.Places.{IsGap};
ghost use Rattle.gateway_kit.specs.Serving.{begins, ends};
ghost use Rattle.gateway_kit.specs.Tallies.{incarnation_conflicts};
ghost use Rattle.gateway_kit.specs.Queries.{in_stream};
ghost use Rattle.std.specs.List.{list_any};
ghost use Rattle.gateway_kit.specs.Times.{latest};
ghost use Rattle.std.specs.declared.cmp.Ordering.{Ordering};
ghost use Rattle.gateway_kit.specs.declared.part_item.PartItem.{PartItem};
ghost use Rattle.gateway_kit.specs.Recent.{recent_incarnation};

use crate::bounds::Bounds;
use crate::cells::{joined_cell, payload_of};
use crate::changes::Changes;
use crate::draft::Draft;
use crate::growth::{Growth, MOST_POINTS};
use crate::hint::Hint;
use crate::items::{
    any_in, keep_in, newer_items, place_behind, place_of, put_cell, put_cells, put_items,
    stream_at, tally_of,
};
use crate::ordered::{Keyed, after, all_same, place_from, renumber_all};
use crate::part_item::PartItem;
use crate::tally::Tally;
use crate::trail::draft_changes;
use attr_kit::{AttrSet, NoMemory, TryCopy, copy_all};
use point_kit::{Cell, Export, SharedStream, Stream, WriterId};
use std::alloc::{AllocError, AllocFailed, Global};
use std::cmp::Ordering;
use std::marker::Model;

/// The newest points of one incarnation: its writer and start once, and its items in the order of their keys.
#[derive(Debug, Drop)]
pub(crate) struct Incarnation {
    pub(crate) writer: WriterId,
    pub(crate) start: u64,
    pub(crate) items: Vec<PartItem>,
    pub(crate) tally: Tally,
    /// No key has a greater number.
    pub(crate) number: u64,
    /// Nor has one at a place than the bounds that are known of it.
    pub(crate) bounds: Bounds,
}

impl Model for Incarnation {
    ghost use Rattle.std.specs.Prelude.{map};
    ghost use Rattle.std.specs.FinMap.{from_sorted, code};
    ghost use Rattle.std.specs.Coded.{codes};
    ghost use Rattle.gateway_kit.specs.Keys.{keyed_cell_of, item_cmp, key_and_number};
    ghost use Rattle.gateway_kit.specs.IncarnationState.{IncarnationState};
    ghost use Rattle.gateway_kit.specs.Tallies.{IsKept};

    ghost Value = { IncarnationState };

    ghost coded = { Prim.hlevel (codes, code) };

    ghost view = { λ i. record { writer = i.writer; start = i.start; cells = from_sorted {R = item_cmp} (map keyed_cell_of i.items.items); numbers = from_sorted {R = item_cmp} (map key_and_number i.items.items) } };

    ghost invariant = { λ i. IsKept i.items.items i.tally i.number i.bounds };
}

impl Incarnation {
    pub(crate) fn new(alloc: Global, writer: WriterId, start: u64) -> Incarnation
        ensures writer { result.writer ≡ writer }
        ensures start { result.start ≡ start }
        ensures cells { result.cells ≡ finite.empty }
        ensures numbers { result.numbers ≡ finite.empty }
    {
        Incarnation {
            writer,
            start,
            items: Vec::new(alloc),
            tally: Tally::NONE,
            number: 0,
            bounds: Bounds::none(alloc),
        }
    }

    /// How its place among incarnations compares with that of another.
    pub(crate) fn order(&self, writer: &WriterId, start: u64) -> Ordering
        ensures { result ≡ incarnation_cmp (self.now.writer, self.now.start) (writer.now, start) }
    {
        self.writer.cmp(writer).then(self.start.cmp(&start))
    }

    /// How it stands to where the incarnations of a service begin: before it, or not.
    pub(crate) fn begin_order(&self, service: &str) -> Ordering
        ensures { result ≡ begins service.now self.now }
    {
        match self.writer.service.as_str().cmp(service) {
            Ordering::Less => Ordering::Less,
            _ => Ordering::Greater,
        }
    }

    /// And to where they end.
    pub(crate) fn end_order(&self, service: &str) -> Ordering
        ensures { result ≡ ends service.now self.now }
    {
        match self.writer.service.as_str().cmp(service) {
            Ordering::Greater => Ordering::Greater,
            _ => Ordering::Less,
        }
    }

    pub(crate) fn items(&self) -> &[PartItem]
        ensures entries { map keyed_cell_of result.now ≡ entries self.now.cells }
        ensures sorted { IsTrue (is_sorted item_cmp (map keyed_cell_of result.now)) }
    {
        self.items.as_slice()
    }

    /// The greatest time that is held, 0 of no cells: O(1).
    pub(crate) fn newest(&self) -> u64
        ensures { result ≡ latest (entries self.now.cells) }
    {
        self.tally.newest
    }

    /// How many cells are conflicts: O(1).
    pub(crate) fn conflicts(&self) -> u64
        ensures { result ≡ incarnation_conflicts self.now }
    {
        self.tally.conflicts
    }

    /// The cell under a stream and attributes: O(log n).
    pub(crate) fn find(&self, stream: &Stream, attrs: &AttrSet) -> Option<&Cell>
        ensures { option_copied result ≡ finite.get self.now.cells (stream.now, attrs.now) }
    {
        let items = self.items();
        match place_of(items, stream, attrs) {
            Ok(place) => Some(&items[place].cell),
            Err(_) => None,
        }
    }

    /// Makes room for the bounds of so many items more, where a change has a number.
    pub(crate) fn reserve(&mut self, number: u64, more: usize) -> Result<(), NoMemory>
        ensures { self.new ≡ self.old }
    {
        if number > 0 {
            self.bounds.reserve(self.items.len().saturating_add(more))?;
        }
        Ok(())
    }

    // What the points of an export, which is of this incarnation, change.
    fn changes_by(&mut self, alloc: Global, export: &Export) -> Result<Changes, NoMemory>
        ensures prepares { IfOk result (λ c. Prepares (entries self.old.cells) (keyed_cells_of export.now) c) }
        ensures unchanged { self.new ≡ self.old }
    {
        draft_changes(&mut self.items, alloc, export)
    }

    /// Joins the points of an export, which is of this incarnation, where there are so many points, and numbers the keys that
    /// change. All room comes first.
    pub(crate) fn take(
        &mut self,
        len: usize,
        number: u64,
        export: &Export,
    ) -> Result<Growth, NoMemory>
        requires { len ≤ 2 ^ 62 }
        ensures joins { IfOk result (λ g. IncarnationJoins self.old self.new (keyed_cells_of export.now) g) }
        ensures same { OnOk result ((keyed_cells self.new).0 ≡ (keyed_cells self.old).0) }
        ensures moves { OnOk result (IncarnationMoves number self.old self.new) }
        ensures bounded { IfOk result (λ g. len + g.more ≤ 2 ^ 62) }
        ensures before { IfOk result (λ g. g.before ≡ incarnation_conflicts self.old) }
        ensures after { IfOk result (λ g. g.after ≡ incarnation_conflicts self.new) }
        ensures unchanged { OnErr result (self.new ≡ self.old) }
    {
        let alloc = *self.items.allocator();
        let changes = self.changes_by(alloc, export)?;
        let more = changes.fresh.len();
        let changed = (changes.updates.len() + more) as u64;
        if more > MOST_POINTS - len {
            return Err(NoMemory);
        }
        self.reserve(number, more)?;
        let before = self.conflicts();
        self.install(number, changes);
        Ok(Growth {
            more,
            changed,
            before,
            after: self.conflicts(),
        })
    }

    /// What another gateway's incarnation of this incarnation changes: one walk over both.
    pub(crate) fn changes_with(
        &self,
        alloc: Global,
        other: &Incarnation,
    ) -> Result<Changes, NoMemory>
        ensures { IfOk result (λ c. Prepares (entries self.now.cells) (entries other.now.cells) c) }
    {
        let items = self.items();
        let mut draft = Draft::new(alloc);
        let mut hint = 0;
        for item in other.items() {
            let place = place_from(items, hint, item);
            hint = after(place);
            draft.bring(
                items,
                place,
                &item.stream,
                &item.attrs,
                item.cell.time,
                payload_of(&item.cell),
            )?;
        }
        draft.finish(alloc, items)
    }

    /// Makes the changes, and numbers the keys that change. Those that were prepared for more items, for which they have no
    /// room, add nothing new.
    pub(crate) fn install(&mut self, number: u64, changes: Changes)
        ensures cells { keyed_cells self.new
            ≡ ((self.old.writer, self.old.start), from_sorted (after_growth (entries self.old.cells) changes)) }
        ensures moves { IncarnationMoves number self.old self.new }
    {
        let Changes {
            updates,
            fresh,
            room,
        } = changes;
        let tally = put_cells(
            &mut self.items,
            &mut self.bounds,
            self.tally,
            number,
            updates,
        );
        self.tally = put_items(
            &mut self.items,
            &mut self.bounds,
            tally,
            number,
            fresh,
            room,
        );
        self.number = self.number.max(number);
        self.bounds.complete(number, self.items.as_slice());
    }

    /// Makes the changes as `install` does. Of a count of conflicts, these among them, it makes the one after.
    pub(crate) fn install_among(&mut self, conflicts: u64, number: u64, changes: Changes) -> u64
        ensures conflicts { (result + incarnation_conflicts self.old) % 2 ^ 64 ≡ (conflicts + incarnation_conflicts self.new) % 2 ^ 64 }
        ensures cells { keyed_cells self.new
            ≡ ((self.old.writer, self.old.start), from_sorted (after_growth (entries self.old.cells) changes)) }
        ensures moves { IncarnationMoves number self.old self.new }
    {
        let before = self.conflicts();
        self.install(number, changes);
        conflicts
            .wrapping_sub(before)
            .wrapping_add(self.conflicts())
    }

    // Joins a cell into the one at a place. Takes no memory.
    fn join_at(&mut self, place: usize, cell: Cell) -> Growth
        requires { place < length (entries self.old.cells) }
        ensures joins { JoinsAt self.old self.new place cell result }
        ensures same { (keyed_cells self.new).0 ≡ (keyed_cells self.old).0 }
        ensures moves { IncarnationMoves 0 self.old self.new }
        ensures none_new { result.more ≡ 0 }
        ensures before { result.before ≡ incarnation_conflicts self.old }
        ensures after { result.after ≡ incarnation_conflicts self.new }
    {
        let before = self.tally.conflicts;
        let Some(cell) = joined_cell(&self.items[place].cell, cell) else {
            return Growth {
                more: 0,
                changed: 0,
                before,
                after: before,
            };
        };
        self.tally = put_cell(
            &mut self.items,
            &mut self.bounds,
            self.tally,
            0,
            place,
            cell,
        );
        Growth {
            more: 0,
            changed: 1,
            before,
            after: self.tally.conflicts,
        }
    }

    // Puts a new item in where it belongs. Places move, so their bounds are gone.
    fn join_new(&mut self, place: usize, item: PartItem) -> Result<(), NoMemory>
        requires gap { IsGap item_cmp (entries self.old.cells) (item.stream, item.attrs) place }
        requires no_number { item.number ≡ 0 }
        ensures joins { OnOk result (Joins (entries self.old.cells) (entries self.new.cells) (keyed_cell_of item ∷ []) 1 1) }
        ensures same { OnOk result ((keyed_cells self.new).0 ≡ (keyed_cells self.old).0) }
        ensures moves { OnOk result (IncarnationMoves 0 self.old self.new) }
        ensures unchanged { OnErr result (self.new ≡ self.old) }
    {
        let tally = self.tally.and(&item.cell);
        self.items.insert(place, item)?;
        self.bounds.clear();
        self.tally = tally;
        Ok(())
    }

    /// Joins a cell in under a key, where there are so many points. All room comes first; where the key is held it takes no
    /// memory.
    pub(crate) fn join(
        &mut self,
        len: usize,
        stream: Stream,
        attrs: AttrSet,
        cell: Cell,
    ) -> Result<Growth, NoMemory>
        requires { len ≤ 2 ^ 62 }
        ensures joins { IfOk result (λ g. IncarnationJoins self.old self.new (((stream, attrs), cell) ∷ []) g) }
        ensures same { OnOk result ((keyed_cells self.new).0 ≡ (keyed_cells self.old).0) }
        ensures moves { OnOk result (IncarnationMoves 0 self.old self.new) }
        ensures bounded { IfOk result (λ g. len + g.more ≤ 2 ^ 62) }
        ensures before { IfOk result (λ g. g.before ≡ incarnation_conflicts self.old) }
        ensures after { IfOk result (λ g. g.after ≡ incarnation_conflicts self.new) }
        ensures held { IsSome (find item_cmp (stream, attrs) (entries self.old.cells)) → IsOk result }
        ensures unchanged { OnErr result (self.new ≡ self.old) }
    {
        match place_behind(self.items(), &stream, &attrs) {
            Ok(place) => Ok(self.join_at(place, cell)),
            Err(place) => {
                if len >= MOST_POINTS {
                    return Err(NoMemory);
                }
                let alloc = *self.items.allocator();
                let stream = stream_at(self.items(), place, alloc, stream)?;
                let item = PartItem {
                    stream,
                    attrs,
                    cell,
                    number: 0,
                    hint: Hint::of_new(place, place),
                };
                let before = self.conflicts();
                self.join_new(place, item)?;
                Ok(Growth {
                    more: 1,
                    changed: 1,
                    before,
                    after: self.conflicts(),
                })
            }
        }
    }

    /// Whether a point is of a stream: one walk.
    pub(crate) fn has_stream(&self, stream: &SharedStream) -> bool
        ensures cells { result ≡ list_any (λ e. in_stream stream.now e.0) (entries self.now.cells) }
        ensures numbers { result ≡ list_any (λ e. in_stream stream.now e.0) (entries self.now.numbers) }
    {
        any_in(self.items.as_slice(), stream)
    }

    /// Keeps the points of a stream alone, with their numbers, and says how many go: one walk. Takes no memory.
    pub(crate) fn keep_stream(&mut self, stream: &SharedStream) -> usize
        ensures same { (keyed_cells self.new).0 ≡ (keyed_cells self.old).0 }
        ensures cells { entries self.new.cells ≡ where_key item_cmp (in_stream stream.now) (entries self.old.cells) }
        ensures numbers { entries self.new.numbers ≡ where_key item_cmp (in_stream stream.now) (entries self.old.numbers) }
        ensures dropped { result + length (entries self.new.cells) ≡ length (entries self.old.cells) }
    {
        let len = self.items.len();
        keep_in(&mut self.items, stream);
        self.tally = tally_of(self.items.as_slice());
        self.bounds.clear();
        len - self.items.len()
    }

    /// Whether a key may be numbered above a number; where it is not none is. O(1).
    pub(crate) fn may_exceed(&self, number: u64) -> bool
        ensures { IsTrue (has_cells (recent_incarnation number self.now)) → IsTrue result }
    {
        number < self.number
    }

    /// A number that none of its keys exceeds: O(1).
    pub(crate) fn most(&self) -> u64
        ensures { IsUpTo result self.now }
    {
        self.number
    }

    /// A copy of what is numbered above a number.
    pub(crate) fn since(&self, alloc: Global, number: u64) -> Result<Incarnation, NoMemory>
        ensures { IfOk result (λ recent. keyed_cells recent ≡ keyed_cells (recent_incarnation number self.now)) }
    {
        let items = newer_items(alloc, self.items.as_slice(), &self.bounds, number)?;
        let tally = tally_of(items.as_slice());
        Ok(Incarnation {
            writer: self.writer.try_copy()?,
            start: self.start,
            items,
            tally,
            number: self.number,
            bounds: Bounds::none(alloc),
        })
    }
}

impl Keyed for Incarnation {
    ghost use Rattle.gateway_kit.specs.IncarnationState.{Cells};
    ghost use Rattle.gateway_kit.specs.Keys.{IncarnationKey};
    ghost use Rattle.gateway_kit.specs.KeyOrders.{incarnation_exact, incarnation_total};

    ghost Key = { IncarnationKey };

    ghost Value = { Cells };

    ghost compare = { incarnation_cmp };

    ghost entry = { keyed_cells };

    ghost IsNumbered = { IsNumbered };

    fn order(&self, other: &Incarnation) -> Ordering {
        Incarnation::order(self, &other.writer, other.start)
    }

    fn same_value(&self, other: &Incarnation) -> bool {
        all_same(self.items(), other.items())
    }

    // Of 0 it is done where no key is numbered.
    fn renumber(&mut self, number: u64) {
        if number == 0 && self.number == 0 {
            return;
        }
        renumber_all(&mut self.items, number);
        self.number = number;
        self.bounds.clear();
    }

    ghost total = { incarnation_total };

    ghost exact = { incarnation_exact };
}

impl TryCopy for Incarnation {
    fn try_copy(&self) -> Result<Incarnation, NoMemory> {
        let alloc = *self.items.allocator();
        Ok(Incarnation {
            writer: self.writer.try_copy()?,
            start: self.start,
            items: copy_all(&self.items)?,
            tally: self.tally,
            number: self.number,
            bounds: Bounds::none(alloc),
        })
    }
}
