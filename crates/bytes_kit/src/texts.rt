//! Texts, each once, each found by its place and its place by it.
ghost use Rattle.std.specs.Prelude.{◌≡◌, ◌<◌, ◌≤◌, ◌^◌, ◌++◌, ◌∷◌, [], length, IfNone, IfOk, IfSome, None, OnErr, OnOk, Some, slice_get};
ghost use Rattle.std.specs.Option.{option_copied};
ghost use Rattle.bytes_kit.specs.Past.{place_of};

use crate::index::Index;
use attr_kit::{NoMemory, Txt};
use std::alloc::Global;
use std::marker::Model;

/// Texts in the order in which they came, each once. Contracts see their list.
#[derive(Drop)]
pub(crate) struct Texts {
    texts: Vec<Txt>,
    index: Index,
}

impl Model for Texts {
    ghost use Rattle.std.specs.Prelude.{List, ℕ, nat_eq};
    ghost use Rattle.std.specs.Cmp.Lexicographic.{pointwise};
    ghost use Rattle.std.specs.List.{IsDistinct};
    ghost use Rattle.bytes_kit.specs.Index.{IsIndexOf};

    ghost Value = { List (List ℕ) };

    ghost view = { λ t. t.texts.items };

    ghost invariant = { λ t. IsDistinct (pointwise nat_eq) t.texts.items × IsIndexOf t.texts.items t.index };
}

fn item(texts: &[Txt], place: usize) -> Option<&Txt>
    ensures value { option_copied result ≡ slice_get texts.now place }
    ensures none { IfNone result (length texts.now ≤ place) }
{
    texts.get(place)
}

impl Texts {
    /// None.
    pub(crate) fn new(alloc: Global) -> Result<Texts, NoMemory>
        ensures { IfOk result (λ texts. texts ≡ []) }
    {
        let index = Index::new(alloc)?;
        let texts = Vec::new(alloc);
        Ok(Texts { texts, index })
    }

    /// How many there are.
    pub(crate) fn len(&self) -> usize
        ensures { result ≡ length self.now }
    {
        self.texts.len()
    }

    /// There are not more than a memory has room for: so each place is a number, and the next. Does nothing.
    pub(crate) fn places_are_numbers(&self)
        ensures { length self.now < 2 ^ 63 }
    {
        self.texts.len();
    }

    /// The text at a place.
    pub(crate) fn get(&self, place: usize) -> Option<&Txt>
        ensures some { IfSome result (λ text. place_of self.now text.now ≡ Some place) }
        ensures none { IfNone result (length self.now ≤ place) }
    {
        item(self.texts.as_slice(), place)
    }

    /// The place of a text, if it is one of them. A few comparisons; where other texts have the hash's slots, O(log n) more.
    pub(crate) fn place(&self, text: &Txt) -> Option<usize>
        ensures value { result ≡ place_of self.now text.now }
        ensures small { IfSome result (λ place. place < 2 ^ 63) }
    {
        self.places_are_numbers();
        let found = self.index.seek(self.texts.as_slice(), text);
        self.index.place(self.texts.as_slice(), text, found)
    }

    // Room for one more in the index.
    fn make_room(&mut self) -> Result<(), NoMemory>
        ensures { self.new ≡ self.old }
    {
        if self.index.are_scarce(self.texts.len()) {
            let alloc = *self.texts.allocator();
            let wider = self.index.widen(alloc, self.texts.as_slice())?;
            self.index = wider;
        }
        Ok(())
    }

    /// A text that is none of them comes last. After a refusal nothing changed.
    pub(crate) fn add(&mut self, text: &Txt) -> Result<(), NoMemory>
        requires { place_of self.old text.now ≡ None }
        ensures ok { OnOk result (self.new ≡ self.old ++ text.now ∷ []) }
        ensures err { OnErr result (self.new ≡ self.old) }
    {
        let copy = text.try_copy()?;
        self.make_room()?;
        self.texts.reserve(1)?;
        let found = self.index.seek(self.texts.as_slice(), text);
        self.index.settle(self.texts.as_slice(), text, found)?;
        self.texts.push_reserved(copy);
        Ok(())
    }
}
