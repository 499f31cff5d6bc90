//! Two threads that record with one writer, one by one or by a log.
ghost use Rattle.std.specs.Prelude.{◌≡◌, ◌∷◌, ◌++◌, [], ℕ, IfOk, IfSome, map};
ghost use Rattle.turn_kit.specs.History.{weigh, weigh_all};
ghost use Rattle.turn_kit.specs.Public.{family};
ghost use Rattle.writer_kit.specs.Shared.{IsAt};
ghost use Rattle.writer_kit.specs.declared.shared.change.WriterChange.{WriterChange};
ghost use Rattle.writer_kit.specs.declared.shared.change.WriterChange.TheVariants.{TakenIn};
ghost use Rattle.uses.specs.Sharing.{HasMade, HasRecorded, change, changes, log_of};
ghost use denote.Param.Send.{IsSync};

use attr_kit::AttrSet;
use recorder_kit::{RecordFault, Recorder};
use std::alloc::Global;
use std::sync::Wait;
use std::thread::{Threads, join};
use turn_kit::Seat;
use writer_kit::{SeatsOut, SharedWriter, Writer};

/// More changes than a run makes.
const MOST_CHANGES: u64 = 1 << 62;

/// How a thread records.
#[derive(Clone, Copy, Debug, PartialEq, Eq, Drop)]
pub enum Way {
    /// Each value by a change of the writer.
    OneByOne,
    /// All values in a log, which the writer takes in by one change.
    ByLog,
}

/// What a thread records: values of one instrument, under these attributes.
#[derive(Drop)]
pub struct Work {
    pub instrument: usize,
    pub attrs: AttrSet,
    pub values: Vec<i64>,
    pub way: Way,
}

// Records each value by a seat, and gives it back; none where one is refused.
fn record_each<R: Wait>(
    rt: &R,
    shared: &SharedWriter,
    seat: Seat<Writer>,
    work: &Work,
) -> Option<Seat<Writer>>
    requires { HasMade shared.now [] seat }
    ensures { IfSome result (HasMade shared.now (map (change work.now) work.now.values.items)) }
{
    let mut seat = seat;
    for value in &work.values {
        if shared
            .measure(rt, &mut seat, work.instrument, &work.attrs, *value)
            .is_err()
        {
            return None;
        }
    }
    Some(seat)
}

// A log of all values.
fn note_all(alloc: Global, work: &Work) -> Result<Recorder, RecordFault>
    ensures { IfOk result (λ recorder. recorder.log ≡ log_of work.now) }
{
    let mut recorder = Recorder::new(alloc, work.values.len())?;
    for value in &work.values {
        recorder.measure(work.instrument, &work.attrs, *value)?;
    }
    Ok(recorder)
}

// Has a log taken in whole by a seat, and gives the seat back; none where a recording is refused.
#[tactic(auto, using(crate::proofs::Logs::all_gone))]
fn record_log<R: Wait>(
    rt: &R,
    shared: &SharedWriter,
    seat: Seat<Writer>,
    recorder: Recorder,
) -> Option<Seat<Writer>>
    requires { HasMade shared.now [] seat }
    ensures { IfSome result (HasMade shared.now (TakenIn recorder.log ∷ [])) }
{
    let mut seat = seat;
    let mut recorder = recorder;
    let Ok(told) = shared.take_in(rt, &mut seat, &mut recorder, usize::MAX) else {
        return None;
    };
    if told.refused > 0 || !recorder.is_empty() {
        return None;
    }
    Some(seat)
}

// Records all of a work in its way.
fn record_all<R: Wait>(
    rt: &R,
    alloc: Global,
    shared: &SharedWriter,
    seat: Seat<Writer>,
    work: &Work,
) -> Option<Seat<Writer>>
    requires { HasMade shared.now [] seat }
    ensures { IfSome result (HasMade shared.now (changes work.now)) }
{
    match work.way {
        Way::OneByOne => record_each(rt, shared, seat, work),
        Way::ByLog => record_log(rt, shared, seat, note_all(alloc, work).ok()?),
    }
}

// Both works, each by a seat in a thread of its own. One seat remains, which has taken in the other.
#[tactic(auto, using(crate::proofs::Weighed::both_weigh))]
fn record_both<R: Threads + Wait + Sync>(
    rt: &R,
    alloc: Global,
    shared: &SharedWriter,
    first: Seat<Writer>,
    second: Seat<Writer>,
    here: &Work,
    there: &Work,
) -> Option<Seat<Writer>>
    requires first { HasMade shared.now [] first }
    requires second { HasMade shared.now [] second }
    ensures at { IfSome result (λ s. IsAt shared.now s) }
    ensures all { IfSome result (λ s. (f : WriterChange → ℕ) → weigh_all f (family s) ≡ weigh f (changes here.now ++ changes there.now)) }
{
    let (first, second) = join(
        rt,
        || -> Option<Seat<Writer>>
            requires { IsSync R.row × HasMade shared.now [] first }
            ensures { IfSome result (HasMade shared.entry.now (changes here.entry.now)) }
        { record_all(rt, alloc, shared, first, here) },
        || -> Option<Seat<Writer>>
            requires { IsSync R.row × HasMade shared.now [] second }
            ensures { IfSome result (HasMade shared.entry.now (changes there.entry.now)) }
        { record_all(rt, alloc, shared, second, there) },
    );
    let mut seat = first?;
    shared.join(&mut seat, second?);
    Some(seat)
}

/// Shares a writer between two threads, of which each records its work, and closes it again: it has recorded all of both, each
/// change once, whatever the threads did at once. None where a recording, a seat or memory is refused.
pub fn record_in_two_threads<R: Threads + Wait + Sync>(
    rt: &R,
    alloc: Global,
    writer: Writer,
    here: &Work,
    there: &Work,
) -> Option<Writer>
    ensures { IfSome result (λ w. HasRecorded writer (changes here.now ++ changes there.now) w) }
{
    let Ok((shared, mut first)) = SharedWriter::new(alloc, writer, MOST_CHANGES) else {
        return None;
    };
    let Ok(second) = shared.split(rt, &mut first) else {
        return None;
    };
    let seat = record_both(rt, alloc, &shared, first, second, here, there)?;
    match shared.close(seat) {
        Ok(writer) => Some(writer),
        Err(SeatsOut { .. }) => None,
    }
}
