//! What the recordings of a log name.
ghost use Rattle.std.specs.Prelude.{ℕ, ℤ, ◌≡◌, ◌+◌, ◌<◌, ◌≤◌, ◌^◌, [], length, slice_get, Some, None, IfOk, IfSome, OnOk};
ghost use Rattle.recorder_kit.specs.Lines.{most_named, recording_at, recording_of, recordings_of, AllStay, AllThere, Grown, IsNamed, IsThere};

use crate::line::{Line, Named, Spot};
use attr_kit::{AttrSet, NoMemory};
use indexmap::IndexSet;
use std::alloc::Global;

/// The pairs that recordings name, and the sets of these.
#[derive(Drop)]
pub(crate) struct Names {
    /// Each pair, once.
    pub(crate) named: IndexSet<Named>,
    /// Each set, once.
    pub(crate) sets: IndexSet<AttrSet>,
    /// Where the last pair stands in `named`: it is looked at first, as many recordings name the same again. A guess, that any value
    /// may be.
    pub(crate) last: usize,
}

impl Names {
    /// Of no recordings.
    pub(crate) fn new(alloc: Global) -> Names
        ensures named { result.named.keys ≡ [] }
        ensures sets { result.sets.keys ≡ [] }
    {
        Names {
            named: IndexSet::new(alloc),
            sets: IndexSet::new(alloc),
            last: 0,
        }
    }

    /// The place of a pair among what is named, if it is there. It is looked for first where the last one stands. Takes no memory.
    #[inline(always)]
    pub(crate) fn find(&self, instrument: usize, attrs: &AttrSet) -> Option<usize>
        ensures place { IfSome result (λ place. IsNamed self.now.named.keys self.now.sets.keys place instrument attrs.now) }
        ensures none { (j : ℕ) → result ≡ None → IsNamed self.now.named.keys self.now.sets.keys j instrument attrs.now → ⊥ }
    {
        if let Some(pair) = self.named.get_index(self.last)
            && pair.instrument == instrument
            && let Some(set) = self.sets.get_index(pair.set)
            && set == attrs
        {
            return Some(self.last);
        }
        self.look_up(instrument, attrs)
    }

    // The same, by the hashes.
    #[inline(never)]
    fn look_up(&self, instrument: usize, attrs: &AttrSet) -> Option<usize>
        ensures place { IfSome result (λ place. IsNamed self.now.named.keys self.now.sets.keys place instrument attrs.now) }
        ensures none { (j : ℕ) → result ≡ None → IsNamed self.now.named.keys self.now.sets.keys j instrument attrs.now → ⊥ }
    {
        // No set stands twice among them, says the length.
        let _sets = self.sets.len();
        let (set, _) = self.sets.get_full(attrs)?;
        let (place, _) = self.named.get_full(&Named { instrument, set })?;
        Some(place)
    }

    /// Names a pair, and gives its place.
    #[inline(never)]
    pub(crate) fn add(&mut self, instrument: usize, attrs: &AttrSet) -> Result<usize, NoMemory>
        ensures place { IfOk result (λ place. IsNamed self.new.named.keys self.new.sets.keys place instrument attrs.now) }
        ensures grown { Grown self.old.named.keys self.new.named.keys self.old.sets.keys self.new.sets.keys }
    {
        let set = set_place(&mut self.sets, attrs)?;
        let (place, _) = self.named.insert_full(Named { instrument, set })?;
        Ok(place)
    }

    /// The place of a pair, which is named if it is not yet.
    pub(crate) fn place_of(&mut self, instrument: usize, attrs: &AttrSet) -> Result<usize, NoMemory>
        ensures place { IfOk result (λ place. IsNamed self.new.named.keys self.new.sets.keys place instrument attrs.now) }
        ensures grown { Grown self.old.named.keys self.new.named.keys self.old.sets.keys self.new.sets.keys }
    {
        if let Some(place) = self.find(instrument, attrs) {
            return Ok(place);
        }
        self.add(instrument, attrs)
    }

    /// Forgets the pairs, where so many recordings that named them are gone. The sets stay for the next ones. O(those recordings):
    /// a table that is far greater goes as a whole, since it would take longer to be emptied.
    pub(crate) fn forget_pairs(&mut self, gone: usize)
        ensures named { self.new.named.keys ≡ [] }
        ensures sets { self.new.sets.keys ≡ self.old.sets.keys }
    {
        if self.named.capacity() / 16 > gone {
            self.named = IndexSet::new(*self.named.allocator());
        } else {
            self.named.clear();
        }
    }
}

// The place of a set among those of the log, where it is put if it is not there.
#[inline(never)]
fn set_place(sets: &mut IndexSet<AttrSet>, attrs: &AttrSet) -> Result<usize, NoMemory>
    ensures place { IfOk result (λ place. slice_get sets.new.keys place ≡ Some attrs.now) }
    ensures stay { AllStay sets.old.keys sets.new.keys }
    ensures one { length sets.new.keys ≤ length sets.old.keys + 1 }
{
    if let Some((place, _)) = sets.get_full(attrs) {
        return Ok(place);
    }
    let (place, _) = sets.insert_full(attrs.try_copy()?)?;
    Ok(place)
}

/// How many pairs, and how many sets, a log of a capacity may have at most: a place has 32 bits.
pub(crate) fn most_names(capacity: usize) -> usize
    ensures { result ≡ most_named capacity }
{
    capacity.saturating_mul(2).min(1 << 32)
}

/// The lines of the same recordings, and what they name alone.
pub(crate) fn named_anew(names: &Names, lines: &[Line]) -> Result<(Vec<Line>, Names), NoMemory>
    requires { AllThere names.now.named.keys names.now.sets.keys lines.now }
    ensures there { IfOk result (λ r. AllThere r.1.named.keys r.1.sets.keys r.0.items) }
    ensures same { IfOk result (λ r. recordings_of r.1.named.keys r.1.sets.keys r.0.items
        ≡ recordings_of names.now.named.keys names.now.sets.keys lines.now) }
    ensures few_names { IfOk result (λ r. length r.1.named.keys ≤ length lines.now) }
    ensures few_sets { IfOk result (λ r. length r.1.sets.keys ≤ length lines.now) }
    ensures small { OnOk result (length lines.now < 2 ^ 32) }
{
    if lines.len() > u32::MAX as usize {
        return Err(NoMemory);
    }
    let alloc = *names.named.allocator();
    let mut kept = Vec::with_capacity(alloc, lines.len())?;
    let mut fresh = Names::new(alloc);
    for line in lines {
        kept.push_reserved(renamed(line, names, &mut fresh)?);
    }
    Ok((kept, fresh))
}

// The line of the same recording, among other names.
fn renamed(line: &Line, names: &Names, fresh: &mut Names) -> Result<Line, NoMemory>
    requires there { IsThere names.now.named.keys names.now.sets.keys line.now.at }
    requires small { length fresh.old.named.keys < 2 ^ 32 }
    ensures there { IfOk result (λ l. IsThere fresh.new.named.keys fresh.new.sets.keys l.at) }
    ensures same { IfOk result (λ l. recording_of fresh.new.named.keys fresh.new.sets.keys l
        ≡ recording_of names.now.named.keys names.now.sets.keys line.now) }
    ensures grown { Grown fresh.old.named.keys fresh.new.named.keys fresh.old.sets.keys fresh.new.sets.keys }
{
    let mut line = *line;
    line.at = spot_anew(line.at, names, fresh)?;
    Ok(line)
}

// Where the same recording goes, among other names.
fn spot_anew(at: Spot, names: &Names, fresh: &mut Names) -> Result<Spot, NoMemory>
    requires there { IsThere names.now.named.keys names.now.sets.keys at }
    requires small { length fresh.old.named.keys < 2 ^ 32 }
    ensures there { IfOk result (λ s. IsThere fresh.new.named.keys fresh.new.sets.keys s) }
    ensures same { IfOk result (λ s. (v : ℤ) → recording_at fresh.new.named.keys fresh.new.sets.keys s v
        ≡ recording_at names.now.named.keys names.now.sets.keys at v) }
    ensures grown { Grown fresh.old.named.keys fresh.new.named.keys fresh.old.sets.keys fresh.new.sets.keys }
{
    match at {
        Spot::Number(number) => Ok(Spot::Number(number)),
        Spot::Name(name) => {
            let pair = names.named.get_index(name as usize).unwrap();
            let set = names.sets.get_index(pair.set).unwrap();
            let place = fresh.place_of(pair.instrument, set)?;
            Ok(Spot::Name(place as u32))
        }
    }
}
