//! What writers do.
ghost use Rattle.std.specs.Prelude.{◌≡◌, ◌<◌, slice_get, IsOk, OnErr, IfOk, Some, None};
ghost use Rattle.agg_kit.specs.Entries.{entry_of};
ghost use Rattle.world_kit.specs.declared.event.Event.TheVariants as event;
ghost use Rattle.world_kit.specs.Copying.{IsCopy};
ghost use Rattle.world_kit.specs.Stands.{Acts};
ghost use Rattle.world_kit.specs.Told.{measure_refusal, restart_refusal, collect_event};
ghost use Rattle.world_kit.specs.Wanting.{HasPoints, OnRefused, Wants};
ghost use Rattle.writer_kit.specs.Refusals.{collect_fault};

use crate::{Refusal, Reply, World};
use agg_kit::TallyFault;
use attr_kit::{AttrSet, NoMemory};
use bumpalo::Bump;
use point_kit::Export;
use std::alloc::Global;
use writer_kit::{CollectFault, MeasureFault, RestartFault, Writer};

impl World {
    // A writer records a value.
    pub(crate) fn measure(
        &mut self,
        writer: usize,
        instrument: usize,
        attrs: &AttrSet,
        value: i64,
    ) -> Result<Reply, NoMemory>
        ensures ok { IfOk result (λ reply. Acts (event.Measure writer instrument attrs.now value) self.old reply self.new) }
        ensures refused { IfOk result (λ reply. OnRefused reply (self.new ≡ self.old)) }
        ensures no_memory { OnErr result (Wants (event.Measure writer instrument attrs.now value) self.old) }
        ensures held { HasPoints (entry_of instrument attrs.now value) (slice_get self.old.writers writer) → IsOk result }
        ensures unchanged { OnErr result (self.new ≡ self.old) }
    {
        if writer >= self.writers.len() {
            return Ok(Reply::Refused(Refusal::NoWriter));
        }
        if let Err(fault) = self.writers[writer].measure(instrument, attrs, value) {
            return Ok(Reply::Refused(told_measure(fault)?));
        }
        Ok(Reply::Done)
    }

    // A writer's points are collected: this makes an export. The writer closes where asked.
    pub(crate) fn collect(
        &mut self,
        writer: usize,
        time: u64,
        closing: bool,
    ) -> Result<Reply, NoMemory>
        ensures ok { IfOk result (λ reply. Acts (collect_event writer time closing) self.old reply self.new) }
        ensures refused { IfOk result (λ reply. OnRefused reply (self.new ≡ self.old)) }
        ensures no_memory { OnErr result (Wants (collect_event writer time closing) self.old) }
        ensures unchanged { OnErr result (self.new ≡ self.old) }
    {
        if writer >= self.writers.len() {
            return Ok(Reply::Refused(Refusal::NoWriter));
        }
        let alloc = *self.exports.allocator();
        match export_at(alloc, &self.writers[writer], time)? {
            Ok(export) => self.exports.push(export)?,
            Err(refusal) => return Ok(Reply::Refused(refusal)),
        }
        self.writers[writer].mark(time, closing);
        Ok(Reply::Made(self.exports.len() as u64))
    }

    // A writer begins anew.
    pub(crate) fn restart(&mut self, writer: usize, start: u64) -> Result<Reply, NoMemory>
        ensures ok { IfOk result (λ reply. Acts (event.Restart writer start) self.old reply self.new) }
        ensures refused { IfOk result (λ reply. OnRefused reply (self.new ≡ self.old)) }
        ensures no_memory { OnErr result (Wants (event.Restart writer start) self.old) }
        ensures unchanged { OnErr result (self.new ≡ self.old) }
    {
        if writer >= self.writers.len() {
            return Ok(Reply::Refused(Refusal::NoWriter));
        }
        if let Err(fault) = self.writers[writer].restart(start) {
            return Ok(Reply::Refused(told_restart(fault)?));
        }
        Ok(Reply::Done)
    }
}

// A writer's refusal of a recording, as a world's.
fn told_measure(fault: MeasureFault) -> Result<Refusal, NoMemory>
    ensures value { IfOk result (λ refusal. measure_refusal fault ≡ Some refusal) }
    ensures no_memory { OnErr result (measure_refusal fault ≡ None) }
{
    match fault {
        MeasureFault::Closed => Ok(Refusal::Closed),
        // An event names its instrument, so that no number is looked up.
        MeasureFault::Refused(TallyFault::NoInstrument | TallyFault::NoHeld) => {
            Ok(Refusal::NoInstrument)
        }
        MeasureFault::Refused(TallyFault::Negative) => Ok(Refusal::Negative),
        MeasureFault::Refused(TallyFault::Overflow(stream)) => Ok(Refusal::Overflow(stream)),
        MeasureFault::Refused(TallyFault::NoMemory) => Err(NoMemory),
    }
}

// A writer's refusal of a restart, as a world's.
fn told_restart(fault: RestartFault) -> Result<Refusal, NoMemory>
    ensures value { IfOk result (λ refusal. restart_refusal fault ≡ Some refusal) }
    ensures no_memory { OnErr result (restart_refusal fault ≡ None) }
{
    match fault {
        RestartFault::StartNotAfter(start) => Ok(Refusal::StartNotAfter(start)),
        RestartFault::NoMemory => Err(NoMemory),
    }
}

// An export of what a writer holds at a time, or its refusal. The round lies in an arena that is given up here.
#[tactic(auto, using(crate::proofs::Copies::copies))]
fn export_at(alloc: Global, writer: &Writer, time: u64) -> Result<Result<Export, Refusal>, NoMemory>
    ensures value { IfOk result (λ copy. IsCopy writer.now time copy) }
    ensures no_memory { OnErr result (collect_fault writer.now time ≡ None) }
{
    let arena = Bump::new(alloc);
    match writer.look_round(&arena, time) {
        Ok(round) => Ok(Ok(round.copy_out(alloc, writer.id())?)),
        Err(CollectFault::Closed) => Ok(Err(Refusal::Closed)),
        Err(CollectFault::TimeNotAfter(last)) => Ok(Err(Refusal::TimeNotAfter(last))),
        Err(CollectFault::NoMemory) => Err(NoMemory),
    }
}
