//! Recorders: threads' own logs of recordings, which writers take in.
ghost use Rattle.std.specs.Prelude.{◌≡◌, ◌≢◌, pos, length, None, Some, IfSome, OnOk, OnErr, IfErr};
ghost use Rattle.kit_c.specs.Calls.{code_for, full_fault, if_any, in_first, in_one, of_one, of_two};
ghost use Rattle.kit_c.specs.Codes.{no_memory};
ghost use Rattle.kit_c.specs.Held.{attributes_of, recorder_of};
ghost use Rattle.kit_c.specs.Recorders.{empty_log, full_for_number, full_log, noted};
ghost use Rattle.kit_c.specs.Writers.{by_set};
ghost use Rattle.recorder_kit.specs.Log.{ByNumber};

use crate::content::Content;
use crate::fault::{FULL, Fault, NO_MEMORY, NOTHING, OK, WRONG_KIND};
use crate::typed::{KitAttributes, KitRecorder};
use crate::with::{fill, with, with_two};
use recorder_kit::{RecordFault, Recorder};
use std::alloc::Global;

/// Makes a log of no recordings, which may have as many as its capacity says: 32 bytes for each are taken now. It needs no writer, and
/// any may take it in. Of several logs the one that is taken in last has the last word on a gauge, whenever its values were noted: so a
/// gauge that threads set in turn is recorded at the writer itself.
///
/// Refused, in this order: `FULL`; `NO_MEMORY`.
#[unsafe(no_mangle)]
pub extern "C" fn kit_recorder_new(
    alloc: Global,
    recorder: &mut KitRecorder,
    capacity: usize,
) -> i32
    ensures code { result ≢ no_memory → result ≡ code_for (full_fault (recorder_of recorder.old)) }
    ensures value { result ≡ pos 0 → recorder_of recorder.new ≡ Some (empty_log capacity) }
    ensures unchanged { result ≢ pos 0 → recorder_of recorder.new ≡ recorder_of recorder.old }
{
    fill!(alloc, recorder => Recorder::new(alloc, capacity), made => Content::Recorder(made))
}

/// Notes a recording of a value, by an instrument at an attribute set. No writer is looked at: what no instrument takes is refused once a
/// writer takes it in. A set is kept once for all its recordings.
///
/// Refused, in this order: `NOTHING` of the recorder, then of the attributes; `RECORDER_FULL` where it has as many
/// recordings as its capacity says; `NO_MEMORY`. O(size of the attributes).
#[tactic(auto, using(crate::proofs::Codes::memory_of_record, crate::proofs::Logs::is_full, crate::proofs::Logs::has_room))]
#[unsafe(no_mangle)]
pub extern "C" fn kit_recorder_measure(
    alloc: Global,
    recorder: &mut KitRecorder,
    instrument: usize,
    attributes: &mut KitAttributes,
    value: i64,
) -> i32
    ensures code { result ≢ no_memory
        → result ≡ code_for (of_two (recorder_of recorder.old) (attributes_of attributes.old) (λ r a. full_log r)) }
    ensures value { result ≡ pos 0 → recorder_of recorder.new
        ≡ in_first (λ r a. noted (by_set instrument value a) r) (recorder_of recorder.old) (attributes_of attributes.old) }
    ensures unchanged { result ≢ pos 0 → recorder_of recorder.new ≡ recorder_of recorder.old }
    ensures kept { attributes_of attributes.new ≡ attributes_of attributes.old }
{
    match with_two!(alloc, recorder => Recorder(log), attributes => Attributes(set), log.measure(instrument, set, value))
    {
        Ok(()) => OK,
        Err(fault) => Fault::Record(fault).code(),
    }
}

// Notes a recording at a number that may be too great to be noted.
#[tactic(auto, using(crate::proofs::Codes::memory_of_record, crate::proofs::Logs::is_full_for, crate::proofs::Logs::has_room_for))]
fn note_at(recorder: &mut Recorder, number: usize, value: i64) -> Result<(), Fault>
    ensures ok { OnOk result (full_for_number number recorder.old ≡ None) }
    ensures value { OnOk result (recorder.new ≡ noted (ByNumber number value) recorder.old) }
    ensures err { IfErr result (λ f. full_for_number number recorder.old ≡ Some f) }
    ensures unchanged { OnErr result (recorder.new ≡ recorder.old) }
{
    if number > u32::MAX as usize {
        return Err(Fault::Record(RecordFault::Full));
    }
    match recorder.measure_held(number, value) {
        Ok(()) => Ok(()),
        Err(fault) => Err(Fault::Record(fault)),
    }
}

/// Notes a recording of a value at the pair of a number, which the writer told that will take the log in.
///
/// Refused, in this order: `NOTHING`; `RECORDER_FULL` where it has as many recordings as its capacity says, or where the
/// number is 2^32 or more. O(1), takes no memory.
#[unsafe(no_mangle)]
pub extern "C" fn kit_recorder_measure_held(
    alloc: Global,
    recorder: &mut KitRecorder,
    number: usize,
    value: i64,
) -> i32
    ensures code { result ≡ code_for (of_one (recorder_of recorder.old) (full_for_number number)) }
    ensures value { result ≡ pos 0 → recorder_of recorder.new ≡ in_one (noted (ByNumber number value)) (recorder_of recorder.old) }
    ensures unchanged { result ≢ pos 0 → recorder_of recorder.new ≡ recorder_of recorder.old }
{
    match with!(alloc, recorder => Recorder(log), note_at(log, number, value)) {
        Ok(()) => OK,
        Err(fault) => fault.code(),
    }
}

/// Tells how many recordings a log has.
///
/// Refused: `NOTHING`. O(1), takes no memory.
#[unsafe(no_mangle)]
pub extern "C" fn kit_recorder_len(
    alloc: Global,
    recorder: &mut KitRecorder,
    count: &mut usize,
) -> i32
    ensures code { result ≡ code_for (of_one (recorder_of recorder.old) if_any) }
    ensures value { result ≡ pos 0 → IfSome (recorder_of recorder.old) (λ r. count.new ≡ length r.log) }
    ensures told { result ≢ pos 0 → count.new ≡ count.old }
    ensures kept { recorder_of recorder.new ≡ recorder_of recorder.old }
{
    *count = with!(alloc, recorder => Recorder(log), log.len());
    OK
}

/// Forgets all recordings of a log, which keeps its capacity.
///
/// Refused: `NOTHING`. Takes no memory.
#[unsafe(no_mangle)]
pub extern "C" fn kit_recorder_clear(alloc: Global, recorder: &mut KitRecorder) -> i32
    ensures code { result ≡ code_for (of_one (recorder_of recorder.old) if_any) }
    ensures value { result ≡ pos 0 → recorder_of recorder.new ≡ in_one (λ r. empty_log r.capacity) (recorder_of recorder.old) }
    ensures unchanged { result ≢ pos 0 → recorder_of recorder.new ≡ recorder_of recorder.old }
{
    with!(alloc, recorder => Recorder(log), log.clear());
    OK
}
