//! One point of an incarnation.
ghost use Rattle.std.specs.Prelude.{◌≡◌, IsTrue};
ghost use Rattle.gateway_kit.specs.Keys.{ItemKey, keyed_cell_of, item_cmp};
ghost use Rattle.gateway_kit.specs.Numbers.{number_after};

use crate::hint::Hint;
use crate::ordered::Keyed;
use attr_kit::{AttrSet, NoMemory, TryCopy};
use point_kit::{Cell, SharedStream, Stream};
use std::cmp::Ordering;

/// One point of an incarnation of a writer: what it is of there, and what is held. The writer and the start are those that
/// `Gateway::part` was asked for.
#[derive(Debug, Drop)]
pub struct PartItem {
    pub stream: SharedStream,
    pub attrs: AttrSet,
    pub cell: Cell,
    /// The number that the key was given when its cell last changed, 0 where it was given none.
    pub(crate) number: u64,
    /// Where the item of the point stands that came next, and of a new one where it belongs: guesses.
    pub(crate) hint: Hint,
}

impl PartItem {
    /// How this item's place in its incarnation compares with that of another key.
    pub(crate) fn order(&self, stream: &Stream, attrs: &AttrSet) -> Ordering
        ensures { result ≡ item_cmp (self.now.stream, self.now.attrs) (stream.now, attrs.now) }
    {
        self.stream
            .get()
            .cmp(stream)
            .then_with(|| self.attrs.cmp(attrs))
    }

    /// Whether it is of this key.
    #[tactic(auto, using(crate::specs::KeyOrders::item_exact))]
    pub(crate) fn is_of(&self, stream: &Stream, attrs: &AttrSet) -> bool
        ensures { IsTrue result → ◌≡◌ {A = ItemKey} (self.now.stream, self.now.attrs) (stream.now, attrs.now) }
    {
        match self.order(stream, attrs) {
            Ordering::Equal => true,
            _ => false,
        }
    }

    /// Puts another cell in, of a change of this number: of 0 the key keeps the number that it has.
    pub(crate) fn put(&mut self, number: u64, cell: Cell)
        ensures { self.new ≡ record self.old { cell = cell; number = number_after number self.old.number } }
    {
        self.cell = cell;
        if number > 0 {
            self.number = number;
        }
    }

    /// Notes where the item stands whose point came next.
    pub(crate) fn note_next(&mut self, place: usize)
        ensures { self.new ≡ self.old }
    {
        if self.hint.next() != place {
            self.hint.set_next(place);
        }
    }

    /// Follows those that have moved: the places to which they have stand in a list.
    pub(crate) fn follow(&mut self, places: &[u32])
        ensures { self.new ≡ self.old }
    {
        self.hint.follow(places);
    }
}

impl Keyed for PartItem {
    ghost use Rattle.point_kit.specs.declared.cell.Cell.{Cell};
    ghost use Rattle.point_kit.specs.declared.payload.Payload.{Payload};
    ghost use Rattle.gateway_kit.specs.KeyOrders.{item_exact, item_total};

    ghost Key = { ItemKey };

    ghost Value = { Cell Payload };

    ghost compare = { item_cmp };

    ghost entry = { keyed_cell_of };

    ghost IsNumbered = { λ number item. item.number ≡ number };

    fn order(&self, other: &PartItem) -> Ordering {
        PartItem::order(self, other.stream.get(), &other.attrs)
    }

    fn same_value(&self, other: &PartItem) -> bool {
        self.cell == other.cell
    }

    fn renumber(&mut self, number: u64) {
        self.number = number;
    }

    ghost total = { item_total };

    ghost exact = { item_exact };
}

impl TryCopy for PartItem {
    fn try_copy(&self) -> Result<PartItem, NoMemory> {
        Ok(PartItem {
            stream: self.stream.try_copy()?,
            attrs: self.attrs.try_copy()?,
            cell: self.cell.try_copy()?,
            number: self.number,
            hint: self.hint.copy(),
        })
    }
}
