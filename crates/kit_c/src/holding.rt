//! Writers that hold each pair of an instrument and a set once.
ghost use Rattle.std.specs.Prelude.{◌≡◌, ◌≢◌, ◌<◌, [], true, false, None, Some, OnOk, OnErr, IfErr, IfOk};
ghost use Rattle.agg_kit.specs.Entries.{entry_of};
ghost use Rattle.kit_c.specs.Codes.{code_of, no_memory as refused_memory};
ghost use Rattle.kit_c.specs.Holding.{after_holding, holding_fault, number_after, number_at};
ghost use Rattle.kit_c.specs.Pairs.{AreAll};
ghost use Rattle.kit_c.specs.declared.fault.Fault.TheVariants as faults;
ghost use Rattle.recorder_kit.specs.Log.{ByName, ByNumber, TakesNoMemory};
ghost use Rattle.writer_kit.specs.Recording.{after_collect, after_record, after_restart, after_take_in};
ghost use Rattle.writer_kit.specs.Refusals.{early_fault, fault_now, no_memory, restart_fault};
ghost use Rattle.writer_kit.specs.Taking.{IsTaken, gone};

use crate::fault::Fault;
use crate::pairs::{Pair, copy_numbers};
use attr_kit::{AttrSet, NoMemory};
use indexmap::IndexMap;
use recorder_kit::{Recorder, Taken};
use std::alloc::Global;
use std::marker::Model;
use writer_kit::{Closed, MeasureFault, RestartFault, Writer};

/// A writer that holds each pair of an instrument and a set once, so that each has one number.
#[derive(Drop)]
pub struct HoldingWriter {
    writer: Writer,
    // The numbers of all that the writer holds, in their order.
    numbers: IndexMap<Pair, usize>,
}

impl Model for HoldingWriter {
    ghost use Rattle.kit_c.specs.Pairs.{AreAll};
    ghost use Rattle.writer_kit.specs.Written.{Written};

    ghost Value = { Written };

    ghost view = { λ h. h.writer };

    ghost invariant = { λ h. AreAll h.writer.tally.held h.numbers.entries };
}

impl HoldingWriter {
    /// A writer that holds nothing yet.
    pub(crate) fn new(alloc: Global, writer: Writer) -> HoldingWriter
        requires { writer.tally.held ≡ [] }
        ensures { result ≡ writer }
    {
        HoldingWriter {
            writer,
            numbers: IndexMap::new(alloc),
        }
    }

    /// The writer.
    pub(crate) fn writer(&self) -> &Writer
        ensures { result.now ≡ self.now }
    {
        &self.writer
    }

    /// Records a value at a set, as the writer does.
    pub(crate) fn measure(
        &mut self,
        instrument: usize,
        attrs: &AttrSet,
        value: i64,
    ) -> Result<(), MeasureFault>
        ensures ok { OnOk result (fault_now self.old (ByName (entry_of instrument attrs.now value)) ≡ None) }
        ensures value { OnOk result (self.new ≡ after_record self.old (ByName (entry_of instrument attrs.now value))) }
        ensures err { IfErr result (λ f. f ≢ no_memory → fault_now self.old (ByName (entry_of instrument attrs.now value)) ≡ Some f) }
        ensures short { IfErr result (λ f. f ≡ no_memory → early_fault self.old (ByName (entry_of instrument attrs.now value)) ≡ None) }
        ensures held { TakesNoMemory self.old.tally (ByName (entry_of instrument attrs.now value)) → IfErr result (λ f. f ≢ no_memory) }
        ensures unchanged { OnErr result (self.new ≡ self.old) }
    {
        self.writer.measure(instrument, attrs, value)
    }

    /// Holds a pair, and tells its number. One that is held already keeps the number that it has: nothing changes, and no memory is
    /// taken.
    pub(crate) fn hold(&mut self, pair: &Pair) -> Result<usize, Fault>
        ensures ok { OnOk result (holding_fault self.old pair.now.instrument pair.now.attrs ≡ None) }
        ensures number { IfOk result (λ n. n ≡ number_after self.old pair.now.instrument pair.now.attrs) }
        ensures value { OnOk result (self.new ≡ after_holding self.old pair.now.instrument pair.now.attrs) }
        ensures err { IfErr result (λ f. code_of f ≢ refused_memory
            → (g : MeasureFault) × (f ≡ faults.Measure g) × (holding_fault self.old pair.now.instrument pair.now.attrs ≡ Some g)) }
        ensures held { number_at self.old pair.now.instrument pair.now.attrs ≢ None → OnErr result ⊥ }
        ensures unchanged { OnErr result (self.new ≡ self.old) }
    {
        if let Some(number) = self.numbers.get_index_of(pair) {
            return Ok(number);
        }
        let copy = pair.try_copy()?;
        self.numbers.reserve(1)?;
        match self.writer.hold(pair.instrument, &pair.attrs) {
            Ok(number) => {
                // There is room for it, so the two go on alike.
                self.numbers.insert(copy, number).unwrap();
                Ok(number)
            }
            Err(fault) => Err(Fault::Measure(fault)),
        }
    }

    /// Records a value at the pair of a number, as the writer does.
    #[inline]
    pub(crate) fn measure_held(&mut self, number: usize, value: i64) -> Result<(), MeasureFault>
        ensures ok { OnOk result (fault_now self.old (ByNumber number value) ≡ None) }
        ensures value { OnOk result (self.new ≡ after_record self.old (ByNumber number value)) }
        ensures err { IfErr result (λ f. f ≢ no_memory → fault_now self.old (ByNumber number value) ≡ Some f) }
        ensures short { IfErr result (λ f. f ≡ no_memory → early_fault self.old (ByNumber number value) ≡ None) }
        ensures held { TakesNoMemory self.old.tally (ByNumber number value) → IfErr result (λ f. f ≢ no_memory) }
        ensures unchanged { OnErr result (self.new ≡ self.old) }
    {
        self.writer.measure_held(number, value)
    }

    /// Takes in what a recorder noted, as the writer does.
    pub(crate) fn take_in(&mut self, recorder: &mut Recorder, most: usize) -> Result<Taken, Closed>
        ensures ok { OnOk result (self.old.closed ≡ false) }
        ensures value { OnOk result (self.new ≡ after_take_in self.old (gone recorder.old recorder.new)) }
        ensures taken { IfOk result (λ k. IsTaken self.old recorder.old recorder.new most k) }
        ensures err { OnErr result (self.old.closed ≡ true) }
        ensures unchanged { OnErr result (self.new ≡ self.old) }
        ensures kept { OnErr result (recorder.new ≡ recorder.old) }
    {
        self.writer.take_in(recorder, most)
    }

    /// Notes a collection of the writer, and closes it where asked.
    pub(crate) fn mark(&mut self, time: u64, closing: bool)
        requires open { self.old.closed ≡ false }
        requires rises { self.old.last < time }
        ensures value { self.new ≡ after_collect self.old time closing }
    {
        self.writer.mark(time, closing);
    }

    /// Begins a new incarnation of the writer, which holds what it held.
    pub(crate) fn restart(&mut self, start: u64) -> Result<(), RestartFault>
        ensures ok { OnOk result (restart_fault self.old start ≡ None) }
        ensures value { OnOk result (self.new ≡ after_restart self.old start) }
        ensures err { IfErr result (λ f. f ≢ RestartFault.NoMemory → restart_fault self.old start ≡ Some f) }
        ensures short { IfErr result (λ f. f ≡ RestartFault.NoMemory → restart_fault self.old start ≡ None) }
        ensures unchanged { OnErr result (self.new ≡ self.old) }
    {
        self.writer.restart(start)
    }

    /// The numbers of all that is held, in their order.
    pub(crate) fn numbers(&self) -> Result<IndexMap<Pair, usize>, NoMemory>
        ensures { IfOk result (λ numbers. AreAll self.now.tally.held numbers.entries) }
    {
        copy_numbers(&self.numbers)
    }
}
