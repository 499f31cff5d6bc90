//! A recorder, in which a thread notes recordings, and the writer that takes it in.
ghost use Rattle.std.specs.Prelude.{◌≡◌, Some, IfOk, IfErr, OnOk, OnErr, false, pos, true};
ghost use Rattle.agg_kit.specs.Entries.{entry_of};
ghost use Rattle.agg_kit.specs.declared.fault.TallyFault.TheVariants.{Negative};
ghost use Rattle.plan_kit.specs.Plans.{kind_of};
ghost use Rattle.plan_kit.specs.declared.instrument.Kind.TheVariants.{Counter};
ghost use Rattle.recorder_kit.specs.Log.{ByName, ByNumber};
ghost use Rattle.turn_kit.specs.Public.{AtBusy};
ghost use Rattle.uses.specs.Holding.{after_two};
ghost use Rattle.uses.specs.Logs.{HasFirst, comes_to, noting};
ghost use Rattle.writer_kit.specs.Shared.{IsAt, Adds};
ghost use Rattle.writer_kit.specs.Taking.{gone};
ghost use Rattle.writer_kit.specs.declared.shared.change.WriterChange.TheVariants.{TakenIn};

use attr_kit::AttrSet;
use bumpalo::Bump;
use recorder_kit::{RecordFault, Recorder, Taken};
use round_kit::Round;
use std::alloc::Global;
use std::sync::Wait;
use turn_kit::{ChangeFault, Seat};
use writer_kit::{Closed, SharedWriter, Writer};

/// Notes a value where no writer is at hand, and says whether there was room: then somebody is to take the log in.
pub fn note_if_room(
    recorder: &mut Recorder,
    instrument: usize,
    attrs: &AttrSet,
    value: i64,
) -> Result<bool, RecordFault>
    ensures noted { IfOk result (λ room. room ≡ true → recorder.new ≡ noting recorder.old (ByName (entry_of instrument attrs.now value))) }
    ensures full { IfOk result (λ room. room ≡ false → recorder.new ≡ recorder.old) }
{
    match recorder.measure(instrument, attrs, value) {
        Ok(()) => Ok(true),
        Err(RecordFault::Full) => Ok(false),
        Err(fault) => Err(fault),
    }
}

/// Notes a value at a held point, and has the writer take the log in first where it is full. Whenever that is, what comes of writer
/// and log together is the same.
pub fn note_or_take_in(
    writer: &mut Writer,
    recorder: &mut Recorder,
    number: usize,
    value: i64,
) -> anyhow::Result<()>
    ensures { OnOk result
        (comes_to writer.new.tally recorder.new.log ≡ comes_to writer.old.tally (noting recorder.old (ByNumber number value)).log) }
{
    match recorder.measure_held(number, value) {
        Err(RecordFault::Full) => {
            writer.take_in(recorder, usize::MAX)?;
            Ok(recorder.measure_held(number, value)?)
        }
        noted => Ok(noted?),
    }
}

/// Records 3, -1 and 4 of a counter by a log: -1 is refused by itself, and told; the others are recorded.
pub fn record_but_one(alloc: Global, writer: &mut Writer, attrs: &AttrSet) -> anyhow::Result<Taken>
    requires { kind_of writer.old.tally.plan 0 ≡ Some Counter }
    ensures told { IfOk result (λ told. told.recorded ≡ 2 → told.first ≡ Some (1, Negative)) }
    ensures value { IfOk result (λ told. told.recorded ≡ 2 → writer.new.tally ≡ after_two writer.old.tally 0 attrs.now (pos 3) (pos 4)) }
{
    let mut recorder = Recorder::new(alloc, 3)?;
    recorder.measure(0, attrs, 3)?;
    recorder.measure(0, attrs, -1)?;
    recorder.measure(0, attrs, 4)?;
    Ok(writer.take_in(&mut recorder, usize::MAX)?)
}

/// Collects after at most so many recordings of a log, and has the rest taken in then: in the end all is recorded as at once.
pub fn collect_between<'b>(
    writer: &mut Writer,
    recorder: &mut Recorder,
    most: usize,
    arena: &'b Bump,
    time: u64,
) -> anyhow::Result<Round<'b>>
    ensures round { IfOk result (λ round. HasFirst writer.old most recorder.old.log time round) }
    ensures all { OnOk result (writer.new.tally ≡ comes_to writer.old.tally (gone recorder.old recorder.new)) }
{
    writer.take_in(recorder, most)?;
    let round = writer.collect(arena, time)?;
    writer.take_in(recorder, usize::MAX)?;
    Ok(round)
}

/// Hands over at most so many recordings to a writer that threads share: they come in by one change, at its place in the history. A
/// log that is refused is as it was.
pub fn hand_over<R: Wait>(
    rt: &R,
    shared: &SharedWriter,
    seat: &mut Seat<Writer>,
    recorder: &mut Recorder,
    most: usize,
) -> Result<Taken, ChangeFault<Closed>>
    requires { IsAt shared.now seat.old }
    ensures seat { IsAt shared.now seat.new }
    ensures taken { OnOk result (Adds shared.now (TakenIn (gone recorder.old recorder.new)) seat.old seat.new) }
    ensures kept { OnErr result (recorder.new ≡ recorder.old) }
    ensures busy { IfErr result (AtBusy ⊥) }
{
    shared.take_in(rt, seat, recorder, most)
}
