//! How a text's place among others is found: by its hash, or by its order where the hash leads nowhere.
ghost use Rattle.std.specs.Prelude.{◌≡◌, ◌<◌, ◌+◌, ◌++◌, ◌∷◌, [], length, IfOk, None, OnErr, OnOk};
ghost use Rattle.bytes_kit.specs.Past.{place_of};
ghost use Rattle.bytes_kit.specs.Index.{text_hash, seek, seek_from, IsIndexOf};

use attr_kit::{NoMemory, Txt};
use std::alloc::Global;
use std::collections::BTreeMap;
use std::hash::{FoldHasher, Hash, Hasher};

// At so many slots a text is looked for.
const SLOTS: u32 = 8;

// So many slots there are at first.
const FEWEST: usize = 32;

/// Where a text is, as far as its slots tell.
#[derive(Clone, Copy)]
pub(crate) enum Seek {
    /// It has this place.
    At(usize),
    /// It has none. This slot is free.
    Free(usize),
    /// Its slots are taken by others.
    Nowhere,
}

/// The places of the texts of a list, each noted at one of a few slots that its hash names; or, where others have these, in
/// an ordered map. So it is found by a few comparisons, or by as many as the logarithm of their number, whoever picks them.
#[derive(Drop)]
pub(crate) struct Index {
    /// At each slot a place, counted from 1; 0 where it is free.
    slots: Vec<usize>,
    others: BTreeMap<Txt, usize>,
}

fn hash_of(text: &Txt) -> u64
    ensures { result ≡ text_hash text.now }
{
    let mut state = FoldHasher::default();
    text.hash(&mut state);
    state.finish()
}

impl Index {
    /// Of no texts.
    pub(crate) fn new(alloc: Global) -> Result<Index, NoMemory>
        ensures { IfOk result (λ index. IsIndexOf [] index) }
    {
        Index::free(alloc, FEWEST)
    }

    // So many free slots.
    fn free(alloc: Global, count: usize) -> Result<Index, NoMemory>
        requires { 0 < count }
        ensures { IfOk result (λ index. IsIndexOf [] index) }
    {
        Ok(Index {
            slots: vec![in alloc; 0; count]?,
            others: BTreeMap::new(alloc),
        })
    }

    // What is found of a text at so many slots from one on.
    fn seek_from(&self, texts: &[Txt], text: &Txt, slot: usize, more: u32) -> Seek
        requires index { IsIndexOf texts.now self.now }
        requires within { slot < length self.now.slots.items }
        ensures { result ≡ seek_from texts.now self.now.slots.items text.now slot more }
    {
        if more == 0 {
            return Seek::Nowhere;
        }
        let taken = self.slots[slot];
        if taken == 0 {
            return Seek::Free(slot);
        }
        if *text == texts[taken - 1] {
            return Seek::At(taken - 1);
        }
        let next = if slot + 1 < self.slots.len() {
            slot + 1
        } else {
            0
        };
        self.seek_from(texts, text, next, more - 1)
    }

    /// What is found of a text at its slots.
    pub(crate) fn seek(&self, texts: &[Txt], text: &Txt) -> Seek
        requires { IsIndexOf texts.now self.now }
        ensures { result ≡ seek texts.now self.now.slots.items text.now }
    {
        let slot = (hash_of(text) % self.slots.len() as u64) as usize;
        self.seek_from(texts, text, slot, SLOTS)
    }

    /// The place of a text of which this was found at its slots.
    pub(crate) fn place(&self, texts: &[Txt], text: &Txt, found: Seek) -> Option<usize>
        requires index { IsIndexOf texts.now self.now }
        requires found { found ≡ seek texts.now self.now.slots.items text.now }
        ensures { result ≡ place_of texts.now text.now }
    {
        match found {
            Seek::At(place) => Some(place),
            Seek::Free(_) => None,
            Seek::Nowhere => self.others.get(text).copied(),
        }
    }

    /// A text without a place is noted as the next, of which this was found at its slots. After a refusal nothing changed.
    pub(crate) fn settle(&mut self, texts: &[Txt], text: &Txt, found: Seek) -> Result<(), NoMemory>
        requires index { IsIndexOf texts.now self.old }
        requires found { found ≡ seek texts.now self.old.slots.items text.now }
        requires absent { place_of texts.now text.now ≡ None }
        ensures ok { OnOk result (IsIndexOf (texts.now ++ text.now ∷ []) self.new) }
        ensures err { OnErr result (IsIndexOf texts.now self.new) }
    {
        match found {
            Seek::Free(slot) => self.slots[slot] = texts.len() + 1,
            Seek::Nowhere => {
                self.others.insert(text.try_copy()?, texts.len())?;
            }
            // It would have a place.
            Seek::At(_) => {}
        }
        Ok(())
    }

    /// Whether more than a quarter of the slots is wanted by so many texts.
    pub(crate) fn are_scarce(&self, count: usize) -> bool {
        count > self.slots.len() / 4
    }

    /// The places of these texts, at twice as many slots.
    pub(crate) fn widen(&self, alloc: Global, texts: &[Txt]) -> Result<Index, NoMemory>
        requires { IsIndexOf texts.now self.now }
        ensures { IfOk result (λ index. IsIndexOf texts.now index) }
    {
        let mut wider = Index::free(alloc, self.slots.len() * 2)?;
        for i in 0..texts.len() {
            let earlier = &texts[..i];
            let text = &texts[i];
            let found = wider.seek(earlier, text);
            if wider.place(earlier, text, found).is_none() {
                wider.settle(earlier, text, found)?;
            }
        }
        Ok(wider)
    }
}
