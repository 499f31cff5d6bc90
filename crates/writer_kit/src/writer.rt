//! Writers.
ghost use Rattle.std.specs.Prelude.{◌≡◌, ◌≢◌, ◌<◌, ◌≤◌, ℕ, [], length, Some, None, false, true, IfOk, IfErr, OnOk, OnErr};
ghost use Rattle.agg_kit.specs.Entries.{entry_of};
ghost use Rattle.agg_kit.specs.Rounds.{StandsFor};
ghost use Rattle.recorder_kit.specs.Log.{ByName, ByNumber, TakesNoMemory};
ghost use Rattle.writer_kit.specs.Following.{Follows};
ghost use Rattle.writer_kit.specs.Recording.{after_collect, after_hold, after_record, after_restart, after_take_in, round_now};
ghost use Rattle.writer_kit.specs.Refusals.{collect_fault, early_fault, fault_now, hold_fault, no_memory, restart_fault};
ghost use Rattle.writer_kit.specs.Taking.{IsTaken, gone};

use crate::{Closed, CollectFault, MeasureFault, RestartFault};
use agg_kit::Tally;
use attr_kit::{AttrSet, NoMemory};
use bumpalo::Bump;
use plan_kit::Plan;
use point_kit::WriterId;
use recorder_kit::{Recorder, Taken};
use round_kit::{Round, place};
use std::alloc::Global;
use std::marker::Model;

/// The points of a plan's streams since a start, with the times of their collections (OpenTelemetry Metrics SDK,
/// "MeterProvider" with one cumulative "MetricReader"). Times are nanoseconds since the Unix epoch.
#[derive(Drop)]
pub struct Writer {
    id: WriterId,
    tally: Tally,
    start: u64,
    last: u64,
    closed: bool,
}

impl Model for Writer {
    ghost use Rattle.std.specs.Prelude.{◌≤◌};
    ghost use Rattle.writer_kit.specs.Written.{Written};

    ghost Value = { Written };

    ghost view = { λ w. record { id = w.id; tally = w.tally; start = w.start; last = w.last; closed = w.closed } };

    ghost invariant = { λ w. w.start ≤ w.last };
}

impl Writer {
    /// A writer that counts from a start on, itself excluded, under a plan; it is open, holds nothing and has recorded nothing.
    ///
    /// Refuses with `NoMemory` alone. The writer keeps the allocator. O(streams of the plan).
    #[tactic(auto, using(crate::proofs::Following::plan_of_empty, crate::proofs::Following::empty_stands, crate::proofs::Following::started))]
    pub fn start(alloc: Global, id: WriterId, plan: Plan, start: u64) -> Result<Writer, NoMemory>
        ensures id { IfOk result (λ w. w.id ≡ id) }
        ensures plan { IfOk result (λ w. w.tally.plan ≡ plan) }
        ensures empty { IfOk result (λ w. StandsFor w.tally []) }
        ensures start { IfOk result (λ w. w.start ≡ start) }
        ensures last { IfOk result (λ w. w.last ≡ start) }
        ensures open { IfOk result (λ w. w.closed ≡ false) }
        ensures held { IfOk result (λ w. w.tally.held ≡ []) }
        ensures follows { IfOk result (λ w. Follows start [] w) }
    {
        Ok(Writer {
            id,
            tally: Tally::new(alloc, plan)?,
            start,
            last: start,
            closed: false,
        })
    }

    /// Who writes. O(1), takes no memory.
    pub fn id(&self) -> &WriterId
        ensures value { result.now ≡ self.now.id }
    {
        &self.id
    }

    /// The start of the incarnation: it has what was recorded after this time. O(1), takes no memory.
    pub fn start_time(&self) -> u64
        ensures value { result ≡ self.now.start }
    {
        self.start
    }

    /// The time of the last collection since the start, or the start where there was none. O(1), takes no memory.
    pub fn last(&self) -> u64
        ensures value { result ≡ self.now.last }
        ensures started { self.now.start ≤ result }
    {
        self.last
    }

    /// Whether the writer was shut down, and not restarted since. O(1), takes no memory.
    pub fn closed(&self) -> bool
        ensures value { result ≡ self.now.closed }
    {
        self.closed
    }

    /// The points since the start. O(1), takes no memory.
    pub fn tally(&self) -> &Tally
        ensures value { result.now ≡ self.now.tally }
    {
        &self.tally
    }

    /// Records a value in the stream of every feed of an instrument, or in none.
    ///
    /// Refuses, in this order: `Closed`; `Refused` with what the tally refuses, `NoMemory` last, but that a feed which keeps some
    /// keys of the set may want memory before it and the feeds behind it are looked at. A refusal changes nothing. O(feeds of the
    /// instrument times the size of the attributes and the bounds).
    #[tactic(auto, using(crate::proofs::Refusals::now_closed, crate::proofs::Refusals::now_refused, crate::proofs::Refusals::now_accepted))]
    pub fn measure(
        &mut self,
        instrument: usize,
        attrs: &AttrSet,
        value: i64,
    ) -> Result<(), MeasureFault>
        ensures ok { OnOk result (fault_now self.old (ByName (entry_of instrument attrs.now value)) ≡ None) }
        ensures value { OnOk result (self.new ≡ after_record self.old (ByName (entry_of instrument attrs.now value))) }
        ensures err { IfErr result (λ f. f ≢ no_memory → fault_now self.old (ByName (entry_of instrument attrs.now value)) ≡ Some f) }
        // A feed that keeps some keys of the set copies them, which takes memory; the feeds before the first such feed are in range.
        ensures no_memory { IfErr result (λ f. f ≡ no_memory → early_fault self.old (ByName (entry_of instrument attrs.now value)) ≡ None) }
        // Points that are there take no memory where no feed copies what it keeps: it keeps all keys, or none that the set has.
        ensures held { TakesNoMemory self.old.tally (ByName (entry_of instrument attrs.now value)) → IfErr result (λ f. f ≢ no_memory) }
        ensures unchanged { OnErr result (self.new ≡ self.old) }
    {
        if self.closed {
            return Err(MeasureFault::Closed);
        }
        match self.tally.measure(instrument, attrs, value) {
            Ok(()) => Ok(()),
            Err(fault) => Err(MeasureFault::Refused(fault)),
        }
    }

    /// Holds an instrument and a set, so that `measure_held` records there by the number that this gives: how many were
    /// held before. The number stays good after a restart. Nothing is recorded, and no point appears before a value
    /// comes. What is held twice has two numbers, so hold once and keep the number.
    ///
    /// Refuses, in this order: `Closed`; `Refused` with `NoInstrument`, then `NoMemory`. A refusal changes nothing. O(size of the
    /// attributes).
    #[tactic(auto, using(crate::proofs::Refusals::hold_closed, crate::proofs::Refusals::hold_none, crate::proofs::Refusals::hold_there))]
    pub fn hold(&mut self, instrument: usize, attrs: &AttrSet) -> Result<usize, MeasureFault>
        ensures ok { OnOk result (hold_fault self.old instrument ≡ None) }
        ensures number { IfOk result (λ n. n ≡ length self.old.tally.held) }
        ensures value { OnOk result (self.new ≡ after_hold self.old instrument attrs.now) }
        ensures err { IfErr result (λ f. f ≢ no_memory → hold_fault self.old instrument ≡ Some f) }
        ensures no_memory { IfErr result (λ f. f ≡ no_memory → hold_fault self.old instrument ≡ None) }
        ensures unchanged { OnErr result (self.new ≡ self.old) }
    {
        if self.closed {
            return Err(MeasureFault::Closed);
        }
        match self.tally.hold(instrument, attrs) {
            Ok(number) => Ok(number),
            Err(fault) => Err(MeasureFault::Refused(fault)),
        }
    }

    /// Records a value by the number that `hold` gave: as `measure` does with the instrument and set that it stands for.
    ///
    /// Refuses, in this order: `Closed`; `Refused` with `NoHeld` where the number stands for nothing, then as `measure` does. A
    /// refusal changes nothing. O(feeds of the instrument), and no set is looked up from the first value on.
    #[tactic(auto, using(crate::proofs::Refusals::now_closed, crate::proofs::Refusals::now_refused, crate::proofs::Refusals::now_accepted))]
    #[inline]
    pub fn measure_held(&mut self, number: usize, value: i64) -> Result<(), MeasureFault>
        ensures ok { OnOk result (fault_now self.old (ByNumber number value) ≡ None) }
        ensures value { OnOk result (self.new ≡ after_record self.old (ByNumber number value)) }
        ensures err { IfErr result (λ f. f ≢ no_memory → fault_now self.old (ByNumber number value) ≡ Some f) }
        ensures no_memory { IfErr result (λ f. f ≡ no_memory → early_fault self.old (ByNumber number value) ≡ None) }
        ensures held { TakesNoMemory self.old.tally (ByNumber number value) → IfErr result (λ f. f ≢ no_memory) }
        ensures unchanged { OnErr result (self.new ≡ self.old) }
    {
        if self.closed {
            return Err(MeasureFault::Closed);
        }
        match self.tally.measure_held(number, value) {
            Ok(()) => Ok(()),
            Err(fault) => Err(MeasureFault::Refused(fault)),
        }
    }

    /// Takes in what a recorder noted: measures at most `most` recordings from the front of its log, one after the
    /// other, and forgets them. With `usize::MAX` it takes all.
    ///
    /// One that is refused is refused by itself and told, and the next is measured. Where memory is refused it stops:
    /// that recording and those behind it stay in the log, and the call may be made again. A log by pieces comes to
    /// what it comes to at once, but a collection between two pieces has the first and not the second.
    ///
    /// A recording is of the incarnation that takes it in, whenever it was noted. So take a log in before a restart, or
    /// clear it, where what was noted before shall not count after.
    ///
    /// Refuses where the writer is closed: it takes no recording then, and both stay as they were. O(what each recording takes).
    pub fn take_in(&mut self, recorder: &mut Recorder, most: usize) -> Result<Taken, Closed>
        ensures ok { OnOk result (self.old.closed ≡ false) }
        // It keeps its start, so what was noted before a restart counts after it.
        ensures value { OnOk result (self.new ≡ after_take_in self.old (gone recorder.old recorder.new)) }
        ensures taken { IfOk result (λ told. IsTaken self.old recorder.old recorder.new most told) }
        ensures err { OnErr result (self.old.closed ≡ true) }
        ensures unchanged { OnErr result (self.new ≡ self.old) }
        ensures kept { OnErr result (recorder.new ≡ recorder.old) }
    {
        if self.closed {
            return Err(Closed);
        }
        Ok(recorder.give_to(&mut self.tally, most))
    }

    /// The points since the start, in an arena, as of a time. The writer stays as it is.
    ///
    /// Refuses, in this order: `Closed`; `TimeNotAfter` where the time is at most `last`; `NoMemory`. O(size of the
    /// points), all of it in the arena.
    #[tactic(auto, using(crate::proofs::Refusals::collect_closed, crate::proofs::Refusals::collect_late, crate::proofs::Refusals::collect_accepted, crate::proofs::Following::is_round))]
    pub fn look_round<'b>(&self, arena: &'b Bump, time: u64) -> Result<Round<'b>, CollectFault>
        ensures ok { OnOk result (collect_fault self.now time ≡ None) }
        ensures round { IfOk result (λ r. r ≡ round_now self.now time) }
        ensures err { IfErr result (λ f. f ≢ CollectFault.NoMemory → collect_fault self.now time ≡ Some f) }
        ensures no_memory { IfErr result (λ f. f ≡ CollectFault.NoMemory → collect_fault self.now time ≡ None) }
    {
        if self.closed {
            return Err(CollectFault::Closed);
        }
        if time <= self.last {
            return Err(CollectFault::TimeNotAfter(self.last));
        }
        Ok(place(arena, &self.tally, self.start, time)?)
    }

    /// Notes a collection, and closes the writer where asked. O(1), takes no memory.
    pub fn mark(&mut self, time: u64, closing: bool)
        requires open { self.old.closed ≡ false }
        requires rises { self.old.last < time }
        ensures value { self.new ≡ after_collect self.old time closing }
    {
        self.last = time;
        self.closed = closing;
    }

    /// Collects: `look_round`, then `mark` (OpenTelemetry Metrics SDK, "MetricReader", Collect). The points stay, since
    /// collections are cumulative.
    ///
    /// Refuses as `look_round` does, and then changes nothing. O(size of the points), all of it in the arena.
    pub fn collect<'b>(&mut self, arena: &'b Bump, time: u64) -> Result<Round<'b>, CollectFault>
        ensures ok { OnOk result (collect_fault self.old time ≡ None) }
        ensures value { OnOk result (self.new ≡ after_collect self.old time false) }
        ensures round { IfOk result (λ r. r ≡ round_now self.old time) }
        ensures err { IfErr result (λ f. f ≢ CollectFault.NoMemory → collect_fault self.old time ≡ Some f) }
        ensures no_memory { IfErr result (λ f. f ≡ CollectFault.NoMemory → collect_fault self.old time ≡ None) }
        ensures unchanged { OnErr result (self.new ≡ self.old) }
    {
        self.collect_closing(arena, time, false)
    }

    /// Collects for the last time, and closes the writer (OpenTelemetry Metrics SDK, "MetricReader", Shutdown).
    ///
    /// Refuses as `look_round` does, and then changes nothing. O(size of the points), all of it in the arena.
    pub fn shutdown<'b>(&mut self, arena: &'b Bump, time: u64) -> Result<Round<'b>, CollectFault>
        ensures ok { OnOk result (collect_fault self.old time ≡ None) }
        ensures value { OnOk result (self.new ≡ after_collect self.old time true) }
        ensures round { IfOk result (λ r. r ≡ round_now self.old time) }
        ensures err { IfErr result (λ f. f ≢ CollectFault.NoMemory → collect_fault self.old time ≡ Some f) }
        ensures no_memory { IfErr result (λ f. f ≡ CollectFault.NoMemory → collect_fault self.old time ≡ None) }
        ensures unchanged { OnErr result (self.new ≡ self.old) }
    {
        self.collect_closing(arena, time, true)
    }

    // Collects, and closes the writer where asked.
    #[tactic(auto, using(crate::proofs::Refusals::collect_open, crate::proofs::Refusals::collect_later))]
    fn collect_closing<'b>(
        &mut self,
        arena: &'b Bump,
        time: u64,
        closing: bool,
    ) -> Result<Round<'b>, CollectFault>
        ensures ok { OnOk result (collect_fault self.old time ≡ None) }
        ensures value { OnOk result (self.new ≡ after_collect self.old time closing) }
        ensures round { IfOk result (λ r. r ≡ round_now self.old time) }
        ensures err { IfErr result (λ f. f ≢ CollectFault.NoMemory → collect_fault self.old time ≡ Some f) }
        ensures no_memory { IfErr result (λ f. f ≡ CollectFault.NoMemory → collect_fault self.old time ≡ None) }
        ensures unchanged { OnErr result (self.new ≡ self.old) }
    {
        let round = self.look_round(arena, time)?;
        self.mark(time, closing);
        Ok(round)
    }

    /// Begins a new incarnation under a later start: it is open, has recorded nothing, and holds what it held
    /// (OpenTelemetry Metrics Data Model, "Resets and Gaps").
    ///
    /// Refuses, in this order: `StartNotAfter` where the new start is at most the start; `NoMemory`. A refusal changes
    /// nothing. O(streams of the plan), and what giving up the points takes.
    #[tactic(auto, using(crate::proofs::Refusals::restart_late, crate::proofs::Refusals::restart_accepted))]
    pub fn restart(&mut self, start: u64) -> Result<(), RestartFault>
        ensures ok { OnOk result (restart_fault self.old start ≡ None) }
        ensures value { OnOk result (self.new ≡ after_restart self.old start) }
        ensures err { IfErr result (λ f. f ≢ RestartFault.NoMemory → restart_fault self.old start ≡ Some f) }
        ensures no_memory { IfErr result (λ f. f ≡ RestartFault.NoMemory → restart_fault self.old start ≡ None) }
        ensures unchanged { OnErr result (self.new ≡ self.old) }
    {
        if start <= self.start {
            return Err(RestartFault::StartNotAfter(self.start));
        }
        self.tally.restart()?;
        self.start = start;
        self.last = start;
        self.closed = false;
        Ok(())
    }

    /// An equal writer. Refuses with `NoMemory` alone. O(size of the plan and the points).
    pub fn try_copy(&self) -> Result<Writer, NoMemory>
        ensures value { IfOk result (λ copy. copy ≡ self.now) }
    {
        Ok(Writer {
            id: self.id.try_copy()?,
            tally: self.tally.try_copy()?,
            start: self.start,
            last: self.last,
            closed: self.closed,
        })
    }
}
