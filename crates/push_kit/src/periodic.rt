//! A reader that pushes what it collects.
ghost use Rattle.std.specs.Prelude.{◌≡◌, ◌≢◌, ◌+◌, ◌<◌, ◌↔◌, ℕ, IfOk, IfErr, OnOk, OnErr, Ok, Some, None, false, true, length};
ghost use Rattle.agg_kit.specs.Entries.{entry_of};
ghost use Rattle.push_kit.specs.Faults.{push_fault};
ghost use Rattle.push_kit.specs.Pushing.{IsCollection, Hands, OnPush, OnFlush, OnRefused, OnRest};
ghost use Rattle.recorder_kit.specs.Log.{ByName, ByNumber, TakesNoMemory};
ghost use Rattle.writer_kit.specs.Pacing.{pace_after};
ghost use Rattle.writer_kit.specs.Recording.{after_collect, after_hold, after_record, after_take_in, round_now};
ghost use Rattle.writer_kit.specs.Refusals.{collect_fault, early_fault, fault_now, hold_fault, no_memory};
ghost use Rattle.writer_kit.specs.Taking.{IsTaken, gone};

use crate::{ExportRefused, Exporter, TickFault};
use attr_kit::AttrSet;
use bumpalo::Bump;
use point_kit::Export;
use recorder_kit::{Recorder, Taken};
use std::alloc::Global;
use writer_kit::{Closed, MeasureFault, Pace, Writer};

/// What a tick did.
#[derive(Clone, Copy, Debug, PartialEq, Eq)]
pub enum Tick {
    /// No collection was due yet.
    NotDue,
    /// The exporter took a collection of this many points.
    Exported(usize),
}

/// A periodic reader: a writer, the exporter that gets its collections, and when the next one is due (OpenTelemetry
/// Metrics SDK, "Periodic exporting MetricReader"). It owns its exporter, so one exporter is never called twice at once.
#[derive(Drop)]
pub struct Periodic<E> {
    alloc: Global,
    writer: Writer,
    exporter: E,
    pace: Pace,
}

impl<E: Exporter> Periodic<E> {
    /// A reader of a writer. It keeps the allocator. O(1), takes no memory.
    pub fn new(alloc: Global, writer: Writer, exporter: E, pace: Pace) -> Periodic<E>
        ensures writer { result.writer ≡ writer }
        ensures exporter { result.exporter ≡ exporter }
        ensures pace { result.pace ≡ pace }
    {
        Periodic {
            alloc,
            writer,
            exporter,
            pace,
        }
    }

    /// The writer that is read. O(1), takes no memory.
    pub fn writer(&self) -> &Writer
        ensures value { result.now ≡ self.now.writer }
    {
        &self.writer
    }

    /// What gets the collections. O(1), takes no memory.
    pub fn exporter(&self) -> &E
        ensures value { result.now ≡ self.now.exporter }
    {
        &self.exporter
    }

    /// When the next collection is due. O(1), takes no memory.
    pub fn pace(&self) -> Pace
        ensures value { result ≡ self.now.pace }
    {
        self.pace
    }

    /// Records a value, as `Writer::measure` does and with its refusals. A refusal changes nothing. O(feeds of the
    /// instrument times the size of the attributes and the bounds).
    pub fn measure(
        &mut self,
        instrument: usize,
        attrs: &AttrSet,
        value: i64,
    ) -> Result<(), MeasureFault>
        ensures ok { OnOk result (fault_now self.old.writer (ByName (entry_of instrument attrs.now value)) ≡ None) }
        ensures value { OnOk result
            (self.new ≡ record self.old { writer = after_record self.old.writer (ByName (entry_of instrument attrs.now value)) }) }
        ensures err { IfErr result (λ f. f ≢ no_memory
            → fault_now self.old.writer (ByName (entry_of instrument attrs.now value)) ≡ Some f) }
        ensures no_memory { IfErr result (λ f. f ≡ no_memory
            → early_fault self.old.writer (ByName (entry_of instrument attrs.now value)) ≡ None) }
        ensures held { TakesNoMemory self.old.writer.tally (ByName (entry_of instrument attrs.now value))
            → IfErr result (λ f. f ≢ no_memory) }
        ensures unchanged { OnErr result (self.new ≡ self.old) }
    {
        self.writer.measure(instrument, attrs, value)
    }

    /// Holds an instrument and a set, as `Writer::hold` does and with its refusals: the number that it answers is for
    /// `measure_held`, here and in a recorder that is taken in here. It stays so after a push. A refusal changes nothing.
    /// O(size of the attributes).
    pub fn hold(&mut self, instrument: usize, attrs: &AttrSet) -> Result<usize, MeasureFault>
        ensures ok { OnOk result (hold_fault self.old.writer instrument ≡ None) }
        ensures number { IfOk result (λ n. n ≡ length self.old.writer.tally.held) }
        ensures value { OnOk result (self.new ≡ record self.old { writer = after_hold self.old.writer instrument attrs.now }) }
        ensures err { IfErr result (λ f. f ≢ no_memory → hold_fault self.old.writer instrument ≡ Some f) }
        ensures no_memory { IfErr result (λ f. f ≡ no_memory → hold_fault self.old.writer instrument ≡ None) }
        ensures unchanged { OnErr result (self.new ≡ self.old) }
    {
        self.writer.hold(instrument, attrs)
    }

    /// Records a value by the number that `hold` gave, as `Writer::measure_held` does and with its refusals. A refusal changes
    /// nothing. O(feeds of the instrument), and no set is looked up from the first value on.
    #[inline]
    pub fn measure_held(&mut self, number: usize, value: i64) -> Result<(), MeasureFault>
        ensures ok { OnOk result (fault_now self.old.writer (ByNumber number value) ≡ None) }
        ensures value { OnOk result (self.new ≡ record self.old { writer = after_record self.old.writer (ByNumber number value) }) }
        ensures err { IfErr result (λ f. f ≢ no_memory → fault_now self.old.writer (ByNumber number value) ≡ Some f) }
        ensures no_memory { IfErr result (λ f. f ≡ no_memory → early_fault self.old.writer (ByNumber number value) ≡ None) }
        ensures held { TakesNoMemory self.old.writer.tally (ByNumber number value) → IfErr result (λ f. f ≢ no_memory) }
        ensures unchanged { OnErr result (self.new ≡ self.old) }
    {
        self.writer.measure_held(number, value)
    }

    /// Takes in at most so many recordings from the front of a recorder's log, as `Writer::take_in` does: those that are taken
    /// in before a push are in it, and those that are left are not. With `usize::MAX` it takes all.
    ///
    /// Refuses where the writer is closed: both stay as they were then. O(what each recording takes).
    pub fn take_in(&mut self, recorder: &mut Recorder, most: usize) -> Result<Taken, Closed>
        ensures ok { OnOk result (self.old.writer.closed ≡ false) }
        ensures value { OnOk result
            (self.new ≡ record self.old { writer = after_take_in self.old.writer (gone recorder.old recorder.new) }) }
        ensures taken { IfOk result (λ told. IsTaken self.old.writer recorder.old recorder.new most told) }
        ensures err { OnErr result (self.old.writer.closed ≡ true) }
        ensures unchanged { OnErr result (self.new ≡ self.old) }
        ensures kept { OnErr result (recorder.new ≡ recorder.old) }
    {
        self.writer.take_in(recorder, most)
    }

    /// Collects and exports where a collection is due: the time is at least that of the pace. Otherwise it is `NotDue`,
    /// and nothing changes.
    ///
    /// Refuses, in this order: `Closed`; `TimeNotAfter` where the time is at most the writer's last; `NoMemory`, before the
    /// exporter is called; `ExportRefused` where the exporter refused. Only the last changes something: as after an export
    /// that was taken, the writer is collected and the pace has moved, so the next collection covers the lost one. O(size
    /// of the points), and what the exporter takes. The arena is not reset.
    #[tactic(auto, using(writer_kit::proofs::Refusals::collect_open, writer_kit::proofs::Refusals::collect_later))]
    pub fn tick(&mut self, arena: &Bump, now: u64) -> Result<Tick, TickFault>
        requires room { E.refusals self.old.exporter < 18446744073709551615 }
        ensures due { (result ≡ Ok Tick.NotDue) ↔ (now < self.old.pace.next) }
        ensures points { IfOk result (λ t. (n : ℕ) → t ≡ Tick.Exported n → n ≡ length (round_now self.old.writer now).points) }
        ensures taken { IfOk result (λ t. t ≢ Tick.NotDue → Hands E.takes self.old.writer now self.old.exporter self.new.exporter) }
        ensures refused { OnRefused result (Hands E.refuses self.old.writer now self.old.exporter self.new.exporter) }
        ensures failures { OnOk result (E.refusals self.new.exporter ≡ E.refusals self.old.exporter) }
        ensures failed { OnRefused result (E.refusals self.new.exporter ≡ E.refusals self.old.exporter + 1) }
        ensures ok { OnPush result (collect_fault self.old.writer now ≡ None) }
        ensures value { OnPush result (self.new.writer ≡ after_collect self.old.writer now false) }
        ensures pace { OnPush result (self.new.pace ≡ pace_after self.old.pace now) }
        ensures err { IfErr result (λ f. f ≢ TickFault.ExportRefused → f ≢ TickFault.NoMemory → push_fault self.old.writer now ≡ Some f) }
        ensures no_memory { IfErr result (λ f. f ≡ TickFault.NoMemory → push_fault self.old.writer now ≡ None) }
        ensures unchanged { OnRest result (self.new ≡ self.old) }
    {
        if !self.pace.due(now) {
            return Ok(Tick::NotDue);
        }
        let export = self.gather(arena, now)?;
        self.pace = self.pace.moved(now);
        match self.push(&export, now, false) {
            Ok(()) => Ok(Tick::Exported(export.points().len())),
            Err(ExportRefused) => Err(TickFault::ExportRefused),
        }
    }

    /// Collects and exports at once, whether a collection is due or not, and closes the writer where asked (OpenTelemetry
    /// Metrics SDK, "ForceFlush" and "Shutdown" of a "MetricReader"). Answers the number of points; the pace stays.
    ///
    /// Refuses as `tick` does where a collection is due. After `ExportRefused` the writer is collected, and closed where
    /// asked; where it is open the next collection covers the lost one. O(size of the points), and what the exporter takes.
    /// The arena is not reset.
    #[tactic(auto, using(writer_kit::proofs::Refusals::collect_open, writer_kit::proofs::Refusals::collect_later))]
    pub fn flush(&mut self, arena: &Bump, now: u64, closing: bool) -> Result<usize, TickFault>
        requires room { E.refusals self.old.exporter < 18446744073709551615 }
        ensures points { IfOk result (λ n. n ≡ length (round_now self.old.writer now).points) }
        ensures taken { OnOk result (Hands E.takes self.old.writer now self.old.exporter self.new.exporter) }
        ensures refused { OnRefused result (Hands E.refuses self.old.writer now self.old.exporter self.new.exporter) }
        ensures failures { OnOk result (E.refusals self.new.exporter ≡ E.refusals self.old.exporter) }
        ensures failed { OnRefused result (E.refusals self.new.exporter ≡ E.refusals self.old.exporter + 1) }
        ensures ok { OnFlush result (collect_fault self.old.writer now ≡ None) }
        ensures value { OnFlush result (self.new.writer ≡ after_collect self.old.writer now closing) }
        ensures pace { self.new.pace ≡ self.old.pace }
        ensures err { IfErr result (λ f. f ≢ TickFault.ExportRefused → f ≢ TickFault.NoMemory → push_fault self.old.writer now ≡ Some f) }
        ensures no_memory { IfErr result (λ f. f ≡ TickFault.NoMemory → push_fault self.old.writer now ≡ None) }
        ensures unchanged { IfErr result (λ f. f ≢ TickFault.ExportRefused → self.new ≡ self.old) }
    {
        let export = self.gather(arena, now)?;
        match self.push(&export, now, closing) {
            Ok(()) => Ok(export.points().len()),
            Err(ExportRefused) => Err(TickFault::ExportRefused),
        }
    }

    // The collection at a time, for the exporter. All that is refused but for the exporter is refused here.
    #[tactic(auto, using(crate::proofs::Faults::collects))]
    fn gather(&self, arena: &Bump, now: u64) -> Result<Export, TickFault>
        ensures ok { OnOk result (collect_fault self.now.writer now ≡ None) }
        ensures collection { IfOk result (λ e. IsCollection self.now.writer now e) }
        ensures err { IfErr result (λ f. f ≢ TickFault.NoMemory → push_fault self.now.writer now ≡ Some f) }
        ensures no_memory { IfErr result (λ f. f ≡ TickFault.NoMemory → push_fault self.now.writer now ≡ None) }
        ensures kept { IfErr result (λ f. f ≢ TickFault.ExportRefused) }
    {
        let round = self.writer.look_round(arena, now)?;
        Ok(round.copy_out(self.alloc, self.writer.id())?)
    }

    // Marks the collection, and then hands it to the exporter.
    fn push(&mut self, export: &Export, now: u64, closing: bool) -> Result<(), ExportRefused>
        requires room { E.refusals self.old.exporter < 18446744073709551615 }
        requires open { self.old.writer.closed ≡ false }
        requires rises { self.old.writer.last < now }
        ensures taken { OnOk result (E.takes self.old.exporter export.now self.new.exporter) }
        ensures ok { OnOk result (E.refusals self.new.exporter ≡ E.refusals self.old.exporter) }
        ensures refused { OnErr result (E.refuses self.old.exporter export.now self.new.exporter) }
        ensures err { OnErr result (E.refusals self.new.exporter ≡ E.refusals self.old.exporter + 1) }
        ensures value { self.new.writer ≡ after_collect self.old.writer now closing }
        ensures pace { self.new.pace ≡ self.old.pace }
    {
        self.writer.mark(now, closing);
        self.exporter.export(export)
    }
}
