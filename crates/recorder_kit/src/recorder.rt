//! A log of recordings.
ghost use Rattle.std.specs.Prelude.{Contains, ℕ, ℤ, ◌≡◌, ◌≢◌, ◌+◌, ◌-◌, ◌*◌, ◌<◌, ◌≤◌, ◌^◌, ◌⊎◌, ◌∷◌, ◌++◌, [], length, take, drop, slice_get, Some, IfErr, IfOk, IsOk, OnErr, OnOk, IsTrue, ◌↔◌};
ghost use Rattle.std.specs.Vec.{vec_capacity};
ghost use Rattle.agg_kit.specs.Entries.{entry_of};
ghost use Rattle.recorder_kit.specs.Lines.{most_named, outcome_of, recordings_of, IsNamed, IsWhole};
ghost use Rattle.recorder_kit.specs.Log.{taken_in, ByName, ByNumber, Recording, WantsMemory};
ghost use Rattle.recorder_kit.specs.declared.fault.RecordFault.TheVariants as faults;

use crate::line::{Line, Spot};
use crate::names::{Names, most_names, named_anew};
use crate::taken::take_lines;
use crate::{RecordFault, Taken};
use agg_kit::Tally;
use attr_kit::{AttrSet, NoMemory};
use std::alloc::Global;
use std::marker::Model;

/// A log of recordings, up to a capacity: a thread's own, to be given to a tally that others record in too.
///
/// A log is given in its order, and of several logs one after the other, whenever their recordings were noted. So a gauge that threads
/// set in turn shows the last value of the log that was given last: such a gauge is recorded at the tally itself.
#[derive(Drop)]
pub struct Recorder {
    log: Vec<Line>,
    // How many lines at the front of `log` were given away.
    given: usize,
    names: Names,
    capacity: usize,
}

impl Model for Recorder {
    ghost use Rattle.std.specs.Prelude.{drop};
    ghost use Rattle.std.specs.Vec.{vec_capacity};
    ghost use Rattle.recorder_kit.specs.Lines.{recordings_of, IsWhole};
    ghost use Rattle.recorder_kit.specs.Log.{Logged};

    ghost Value = { Logged };

    ghost view = { λ r. record { log = recordings_of r.names.named.keys r.names.sets.keys (drop r.given r.log.items); capacity = r.capacity } };

    // What is left names what is there, the log has its memory, and names are not more than twice its capacity.
    ghost invariant = { λ r. IsWhole r.capacity (vec_capacity r.log) r.given r.log.items r.names.named.keys r.names.sets.keys };
}

impl Recorder {
    /// A log of no recordings, with the memory for as many as it may have: 32 bytes each, and more for what they name.
    pub fn new(alloc: Global, capacity: usize) -> Result<Recorder, NoMemory>
        ensures { IfOk result (λ r. r ≡ record { log = []; capacity = capacity }) }
    {
        let room = capacity.checked_mul(2).ok_or(NoMemory)?;
        Ok(Recorder {
            log: Vec::with_capacity(alloc, room)?,
            given: 0,
            names: Names::new(alloc),
            capacity,
        })
    }

    /// How many recordings the log has. O(1), takes no memory.
    pub fn len(&self) -> usize
        ensures { result ≡ length self.now.log }
    {
        remaining(&self.log, self.given).len()
    }

    /// Whether it has none. O(1), takes no memory.
    pub fn is_empty(&self) -> bool
        ensures { IsTrue result ↔ (self.now.log ≡ []) }
    {
        remaining(&self.log, self.given).is_empty()
    }

    /// How many recordings the log may have. O(1), takes no memory.
    pub fn capacity(&self) -> usize
        ensures { result ≡ self.now.capacity }
    {
        self.capacity
    }

    /// Notes a recording at a held point, by its number in the tally that will take the log in. Takes no memory.
    ///
    /// Refuses `Full` alone: where the log has as many recordings as it may, or for a number of 2^32 or more, for which there is never
    /// room. O(1) over many calls: one of them moves the log, once in as many as the log may have recordings.
    #[inline(always)]
    pub fn measure_held(&mut self, n: usize, value: i64) -> Result<(), RecordFault>
        ensures value { OnOk result (self.new ≡ record self.old { log = self.old.log ++ ByNumber n value ∷ [] }) }
        ensures ok { OnOk result ((length self.old.log < self.old.capacity) × (n < 2 ^ 32)) }
        ensures full { IfErr result (λ f. f ≡ faults.Full → (self.old.capacity ≤ length self.old.log) ⊎ (2 ^ 32 ≤ n)) }
        ensures memory { IfErr result (λ f. f ≢ faults.NoMemory) }
        ensures unchanged { OnErr result (self.new ≡ self.old) }
    {
        if self.log.len() - self.given >= self.capacity || n > u32::MAX as usize {
            return Err(RecordFault::Full);
        }
        let line = Line {
            at: Spot::Number(n as u32),
            value,
        };
        push_line(&mut self.log, &mut self.given, self.capacity, line);
        Ok(())
    }

    /// Notes a recording of an instrument with a set. The log keeps one copy of the set for all its recordings, and at most twice as many
    /// sets as it may have recordings: where that many are kept, the sets of what is left in it alone stay.
    ///
    /// Refuses, in this order: `Full`, where the log has as many recordings as it may; `NoMemory`, but not for an instrument and a set
    /// that a recording of the log names. A refusal changes nothing. O(size of the attributes) over many calls, as `measure_held`.
    pub fn measure(
        &mut self,
        instrument: usize,
        attrs: &AttrSet,
        value: i64,
    ) -> Result<(), RecordFault>
        ensures value { OnOk result
            (self.new ≡ record self.old { log = self.old.log ++ ByName (entry_of instrument attrs.now value) ∷ [] }) }
        ensures ok { OnOk result (length self.old.log < self.old.capacity) }
        ensures full { IfErr result (λ f. f ≡ faults.Full → self.old.capacity ≤ length self.old.log) }
        ensures no_memory { IfErr result (λ f. f ≡ faults.NoMemory → length self.old.log < self.old.capacity) }
        // What a recording of the log names takes none.
        ensures known { (v : ℤ) → Contains self.old.log (ByName (entry_of instrument attrs.now v))
            → IfErr result (λ f. f ≢ faults.NoMemory) }
        ensures unchanged { OnErr result (self.new ≡ self.old) }
    {
        if self.log.len() - self.given >= self.capacity {
            return Err(RecordFault::Full);
        }
        let place = place_for(
            &mut self.log,
            &mut self.given,
            &mut self.names,
            self.capacity,
            instrument,
            attrs,
        )?;
        self.names.last = place;
        let line = Line {
            at: Spot::Name(place as u32),
            value,
        };
        push_line(&mut self.log, &mut self.given, self.capacity, line);
        Ok(())
    }

    /// Measures recordings from the front of the log in a tally, one after the other, and forgets them: at most `most` of them, and
    /// all with `usize::MAX`. One that the tally refuses is refused by itself and told, and the next is measured.
    ///
    /// It stops before `most` and before the log's end only where memory is refused. That recording and those behind it stay in the
    /// log, so that nothing is lost and the call may be made again.
    ///
    /// O(what each recording that is taken takes), however many the log has. An instrument with a set is looked up once in a call, where
    /// no fewer recordings are taken than the log names instruments with sets; else at each recording.
    pub fn give_to(&mut self, tally: &mut Tally, most: usize) -> Taken
        ensures within { result.recorded + result.refused ≤ length self.old.log }
        ensures at_most { result.recorded + result.refused ≤ most }
        ensures taken { outcome_of tally.new result ≡ taken_in tally.old (take (result.recorded + result.refused) self.old.log) }
        ensures rest { self.new ≡ record self.old { log = drop (result.recorded + result.refused) self.old.log } }
        ensures stopped { (r : Recording) → result.recorded + result.refused < most
            → slice_get self.old.log (result.recorded + result.refused) ≡ Some r → WantsMemory tally.new r }
    {
        let lines = remaining(&self.log, self.given);
        let count = most.min(lines.len());
        let taken = take_lines(tally, &self.names, &lines[..count]);
        self.given += taken.recorded + taken.refused;
        self.forget_names();
        taken
    }

    /// Forgets all recordings. O(length of the log), takes no memory, and keeps the log's.
    pub fn clear(&mut self)
        ensures { self.new ≡ record self.old { log = [] } }
    {
        self.given = self.log.len();
        self.forget_names();
    }

    // Where no recording is left, forgets which pairs were named.
    fn forget_names(&mut self)
        ensures { self.new ≡ self.old }
    {
        if self.given < self.log.len() {
            return;
        }
        self.names.forget_pairs(self.given);
        self.log.clear();
        self.given = 0;
    }
}

// The place of a pair among what is named. Where it is not there it is put there, and room is made for it before.
#[inline(always)]
fn place_for(
    log: &mut Vec<Line>,
    given: &mut usize,
    names: &mut Names,
    capacity: usize,
    instrument: usize,
    attrs: &AttrSet,
) -> Result<usize, NoMemory>
    requires room { length log.old.items - given.old < capacity }
    requires whole { IsWhole capacity (vec_capacity log.old) given.old log.old.items names.old.named.keys names.old.sets.keys }
    ensures place { IfOk result (λ place. IsNamed names.new.named.keys names.new.sets.keys place instrument attrs.now) }
    ensures known { (j : ℕ) → IsNamed names.old.named.keys names.old.sets.keys j instrument attrs.now → IsOk result }
    ensures whole { IsWhole capacity (vec_capacity log.new) given.new log.new.items names.new.named.keys names.new.sets.keys }
    ensures same { recordings_of names.new.named.keys names.new.sets.keys (drop given.new log.new.items)
        ≡ recordings_of names.old.named.keys names.old.sets.keys (drop given.old log.old.items) }
    ensures left { length log.new.items - given.new ≡ length log.old.items - given.old }
{
    if let Some(place) = names.find(instrument, attrs) {
        return Ok(place);
    }
    make_names_room(log, given, names, capacity)?;
    names.add(instrument, attrs)
}

// Makes room for one name more. Where there are as many as there may be, what is left in the log alone stays named: that is at most
// half of them, so it comes at most once in as many new names as the log may have recordings.
#[inline(never)]
fn make_names_room(
    log: &mut Vec<Line>,
    given: &mut usize,
    names: &mut Names,
    capacity: usize,
) -> Result<(), NoMemory>
    requires room { length log.old.items - given.old < capacity }
    requires whole { IsWhole capacity (vec_capacity log.old) given.old log.old.items names.old.named.keys names.old.sets.keys }
    ensures whole { IsWhole capacity (vec_capacity log.new) given.new log.new.items names.new.named.keys names.new.sets.keys }
    ensures names { OnOk result (length names.new.named.keys < most_named capacity) }
    ensures sets { OnOk result (length names.new.sets.keys < most_named capacity) }
    ensures same { recordings_of names.new.named.keys names.new.sets.keys (drop given.new log.new.items)
        ≡ recordings_of names.old.named.keys names.old.sets.keys (drop given.old log.old.items) }
    ensures left { length log.new.items - given.new ≡ length log.old.items - given.old }
{
    let most = most_names(capacity);
    if names.named.len() < most && names.sets.len() < most {
        return Ok(());
    }
    let (lines, fresh) = named_anew(names, remaining(log, *given))?;
    put_lines(log, &lines);
    *given = 0;
    *names = fresh;
    Ok(())
}

// The lines that were not given away.
fn remaining(log: &Vec<Line>, given: usize) -> &[Line]
    requires { given ≤ length log.now.items }
    ensures { result.now ≡ drop given log.now.items }
{
    log.split_at(given).1
}

// One line more. It takes no memory: lines that were given away make room for it.
#[inline(always)]
fn push_line(log: &mut Vec<Line>, given: &mut usize, capacity: usize, line: Line)
    requires within { given.old ≤ length log.old.items }
    requires room { length log.old.items - given.old < capacity }
    requires memory { 2 * capacity ≤ vec_capacity log.old }
    ensures lines { drop given.new log.new.items ≡ drop given.old log.old.items ++ line ∷ [] }
    ensures within { given.new ≤ length log.new.items }
    ensures memory { vec_capacity log.new ≡ vec_capacity log.old }
{
    make_room(log, given, capacity);
    log.push_reserved(line);
}

// Moves what is left to the front, where there is no room behind it: then more was given away than is left, since there is room for
// twice the capacity. So it comes at most once in as many recordings as the log may have.
#[inline(always)]
fn make_room(log: &mut Vec<Line>, given: &mut usize, capacity: usize)
    requires within { given.old ≤ length log.old.items }
    requires room { length log.old.items - given.old < capacity }
    requires memory { 2 * capacity ≤ vec_capacity log.old }
    ensures lines { drop given.new log.new.items ≡ drop given.old log.old.items }
    ensures within { given.new ≤ length log.new.items }
    ensures room { length log.new.items < vec_capacity log.new }
    ensures memory { vec_capacity log.new ≡ vec_capacity log.old }
{
    if log.len() >= log.capacity() {
        drop_front(log, *given);
        *given = 0;
    }
}

// Puts other lines there, for which there is room.
fn put_lines(log: &mut Vec<Line>, lines: &[Line])
    requires { length lines.now ≤ vec_capacity log.old }
    ensures items { log.new.items ≡ lines.now }
    ensures capacity { vec_capacity log.old ≤ vec_capacity log.new }
{
    log.clear();
    let _room = log.extend_from_slice(lines);
}

// Drops the first lines.
#[inline(never)]
fn drop_front(log: &mut Vec<Line>, count: usize)
    requires { count ≤ length log.old.items }
    ensures items { log.new.items ≡ drop count log.old.items }
    ensures capacity { vec_capacity log.new ≡ vec_capacity log.old }
{
    let left = log.len() - count;
    log.rotate_left(count);
    log.truncate(left);
}
