//! Writers.
ghost use Rattle.std.specs.Prelude.{◌≡◌, ◌≢◌, ◌∷◌, [], pos, true, false, None, Some, IfSome, OnOk, OnErr, IfErr, IfOk};
ghost use Rattle.attr_kit.specs.Refusing.{first};
ghost use Rattle.kit_c.specs.Calls.{code_for, full_fault, if_any, in_first, in_one, of_one, of_two};
ghost use Rattle.kit_c.specs.Codes.{code_of, no_memory};
ghost use Rattle.kit_c.specs.Faults.{text_fault};
ghost use Rattle.kit_c.specs.Held.{attributes_of, export_of, plan_of, recorder_of, writer_of};
ghost use Rattle.kit_c.specs.Holding.{after_holding, number_after};
ghost use Rattle.kit_c.specs.Places.{TellsPlace};
ghost use Rattle.kit_c.specs.Takings.{HasTakenIn, taking_fault};
ghost use Rattle.kit_c.specs.Typed.{export_in, is_export};
ghost use Rattle.kit_c.specs.Writers.{HasCollected, HasExport, HasNumberedPoints, HasPoints, HasStarted, IsPairHeld, Starts, by_set, collecting_fault, early_recording_fault, holding_fault, instance_of, recording_fault, restarting_fault};
ghost use Rattle.recorder_kit.specs.Log.{ByNumber};
ghost use Rattle.writer_kit.specs.Recording.{after_collect, after_record, after_restart};
ghost use Rattle.writer_kit.specs.Refusals.{collect_fault};

use crate::content::Content;
use crate::fault::{FULL, Fault, NO_MEMORY, NOTHING, OK, WRONG_KIND, code_with_place};
use crate::holding::HoldingWriter;
use crate::pairs::Pair;
use crate::taken::KitTaken;
use crate::text::text_of;
use crate::typed::{KitAttributes, KitExport, KitPlan, KitRecorder, KitWriter};
use crate::with::{fill, or_code, put, tell, with, with_two};
use attr_kit::{AttrSet, NoMemory};
use bumpalo::Bump;
use plan_kit::Plan;
use point_kit::WriterId;
use std::alloc::Global;
use uuid::Uuid;
use writer_kit::{CollectFault, MeasureFault, Writer};

// A writer under a copy of a plan.
fn started(alloc: Global, id: WriterId, plan: &Plan, start: u64) -> Result<HoldingWriter, NoMemory>
    ensures { IfOk result (λ writer. Starts id start plan.now writer) }
{
    let writer = Writer::start(alloc, id, plan.try_copy()?, start)?;
    Ok(HoldingWriter::new(alloc, writer))
}

/// Starts a writer, which counts from a start on, under a copy of a plan. The instance is a UUID as two numbers. Times are
/// nanoseconds since the Unix epoch.
///
/// Refused, in this order: `FULL`; `NOT_TEXT` where the service is no UTF-8; `NOTHING` of the plan; `NO_MEMORY`.
#[unsafe(no_mangle)]
pub extern "C" fn kit_writer_start(
    alloc: Global,
    writer: &mut KitWriter,
    plan: &mut KitPlan,
    service: &[u8],
    instance_high: u64,
    instance_low: u64,
    start: u64,
) -> i32
    ensures code { result ≢ no_memory → result ≡ code_for
        (first (full_fault (writer_of writer.old) ∷ text_fault service.now ∷ of_one (plan_of plan.old) if_any ∷ [])) }
    ensures value { result ≡ pos 0 → HasStarted (record { service = service.now; instance = instance_of instance_high instance_low }) start
        (plan_of plan.old) (writer_of writer.new) }
    ensures unchanged { result ≢ pos 0 → writer_of writer.new ≡ writer_of writer.old }
    ensures kept { plan_of plan.new ≡ plan_of plan.old }
{
    fill!(alloc, writer => {
        let service = or_code!(text_of(alloc, service));
        let id = WriterId {
            service,
            instance: Uuid::from_u64_pair(instance_high, instance_low),
        };
        with!(alloc, plan => Plan(held), started(alloc, id, held, start))
    }, made => Content::Writer(made))
}

/// Records a value of an instrument at an attribute set, in the stream of every feed of the instrument or in none (OpenTelemetry
/// Metrics API, "Counter", "Histogram", "Gauge").
///
/// Refused, in this order: `NOTHING` of the writer, then of the attributes; `CLOSED`; `NO_INSTRUMENT`; `NEGATIVE`;
/// `OVERFLOW` with the stream; `NO_MEMORY`, but that a feed which keeps a list of keys may want memory before it and the feeds behind
/// it are looked at. O(feeds of the instrument); no memory where every feed keeps all keys and its stream has the point.
#[tactic(auto, using(crate::proofs::Codes::memory_of_recording))]
#[unsafe(no_mangle)]
pub extern "C" fn kit_writer_measure(
    alloc: Global,
    writer: &mut KitWriter,
    instrument: usize,
    attributes: &mut KitAttributes,
    value: i64,
    place: &mut u64,
) -> i32
    ensures code { result ≢ no_memory → result ≡ code_for (of_two (writer_of writer.old) (attributes_of attributes.old)
        (λ w a. recording_fault (by_set instrument value a) w)) }
    ensures value { result ≡ pos 0 → writer_of writer.new
        ≡ in_first (λ w a. after_record w (by_set instrument value a)) (writer_of writer.old) (attributes_of attributes.old) }
    ensures short { result ≡ no_memory → of_two (writer_of writer.old) (attributes_of attributes.old)
        (λ w a. early_recording_fault (by_set instrument value a) w) ≡ None }
    ensures held { HasPoints instrument value (writer_of writer.old) (attributes_of attributes.old) → result ≢ no_memory }
    ensures place { TellsPlace result (of_two (writer_of writer.old) (attributes_of attributes.old)
        (λ w a. recording_fault (by_set instrument value a) w)) place.old place.new }
    ensures unchanged { result ≢ pos 0 → writer_of writer.new ≡ writer_of writer.old }
    ensures kept { attributes_of attributes.new ≡ attributes_of attributes.old }
{
    match with_two!(alloc, writer => Writer(held), attributes => Attributes(set), held.measure(instrument, set, value))
    {
        Ok(()) => OK,
        Err(fault) => code_with_place(Fault::Measure(fault), place),
    }
}

// Holds a pair, whose set is lent to it.
fn hold_lent(
    alloc: Global,
    writer: &mut HoldingWriter,
    instrument: usize,
    attributes: &mut AttrSet,
) -> Result<usize, Fault>
    ensures ok { OnOk result (holding_fault instrument writer.old attributes.old ≡ None) }
    ensures value { OnOk result (writer.new ≡ after_holding writer.old instrument attributes.old) }
    ensures number { IfOk result (λ n. n ≡ number_after writer.old instrument attributes.old) }
    ensures err { IfErr result (λ f. code_of f ≢ no_memory → holding_fault instrument writer.old attributes.old ≡ Some f) }
    ensures held { IsPairHeld instrument (Some writer.old) (Some attributes.old) → OnErr result ⊥ }
    ensures unchanged { OnErr result (writer.new ≡ writer.old) }
    ensures kept { attributes.new ≡ attributes.old }
{
    let pair = Pair::lend(alloc, instrument, attributes);
    let outcome = writer.hold(&pair);
    *attributes = pair.give_back();
    outcome
}

/// Holds a pair of an instrument and an attribute set beside the writer, and tells its number, for `kit_writer_measure_held`. Numbers
/// count from 0, and stay as long as the writer does, over restarts too. A pair that is held already has the number that it has: nothing
/// changes and no memory is taken, so this may be called at each recording.
///
/// Refused, in this order: `NOTHING` of the writer, then of the attributes; of a pair that is not held already `CLOSED`;
/// `NO_INSTRUMENT`; `NO_MEMORY`. O(size of the attributes).
#[unsafe(no_mangle)]
pub extern "C" fn kit_writer_hold(
    alloc: Global,
    writer: &mut KitWriter,
    instrument: usize,
    attributes: &mut KitAttributes,
    number: &mut usize,
) -> i32
    ensures code { result ≢ no_memory
        → result ≡ code_for (of_two (writer_of writer.old) (attributes_of attributes.old) (holding_fault instrument)) }
    ensures value { result ≡ pos 0 → writer_of writer.new
        ≡ in_first (λ w a. after_holding w instrument a) (writer_of writer.old) (attributes_of attributes.old) }
    ensures number { result ≡ pos 0 → IfSome (writer_of writer.old)
        (λ w. IfSome (attributes_of attributes.old) (λ a. number.new ≡ number_after w instrument a)) }
    ensures told { result ≢ pos 0 → number.new ≡ number.old }
    ensures held { IsPairHeld instrument (writer_of writer.old) (attributes_of attributes.old) → result ≡ pos 0 }
    ensures unchanged { result ≢ pos 0 → writer_of writer.new ≡ writer_of writer.old }
    ensures kept { attributes_of attributes.new ≡ attributes_of attributes.old }
{
    tell!(number => with_two!(alloc, writer => Writer(held), attributes => Attributes(set), hold_lent(alloc, held, instrument, set)))
}

/// Records a value at the pair of a number, which `kit_writer_hold` told, as `kit_writer_measure` does.
///
/// Refused, in this order: `NOTHING`; `CLOSED`; `NO_HELD` where nothing is held under the number; `NEGATIVE`; `OVERFLOW`
/// with the stream; `NO_MEMORY` as of `kit_writer_measure`. O(feeds of the instrument), and from the first value on no set is looked up.
#[tactic(auto, using(crate::proofs::Codes::memory_of_recording))]
#[unsafe(no_mangle)]
pub extern "C" fn kit_writer_measure_held(
    alloc: Global,
    writer: &mut KitWriter,
    number: usize,
    value: i64,
    place: &mut u64,
) -> i32
    ensures code { result ≢ no_memory → result ≡ code_for (of_one (writer_of writer.old) (recording_fault (ByNumber number value))) }
    ensures value { result ≡ pos 0 → writer_of writer.new ≡ in_one (λ w. after_record w (ByNumber number value)) (writer_of writer.old) }
    ensures short { result ≡ no_memory → of_one (writer_of writer.old) (early_recording_fault (ByNumber number value)) ≡ None }
    ensures held { HasNumberedPoints number value (writer_of writer.old) → result ≢ no_memory }
    ensures place { TellsPlace result (of_one (writer_of writer.old) (recording_fault (ByNumber number value))) place.old place.new }
    ensures unchanged { result ≢ pos 0 → writer_of writer.new ≡ writer_of writer.old }
{
    match with!(alloc, writer => Writer(held), held.measure_held(number, value)) {
        Ok(()) => OK,
        Err(fault) => code_with_place(Fault::Measure(fault), place),
    }
}

/// Takes in at most so many recordings of a log, from its front: each is measured as if it had been so then, one after the other, and
/// forgotten. What is refused is refused by itself, and told: how many were recorded and refused, and why the first of these. Where memory
/// is wanting it stops, and that recording and those behind it stay. What was noted before a restart counts in the incarnation that takes
/// it in.
///
/// Refused, in this order: `NOTHING` of the writer, then of the recorder; `CLOSED`. O(what each recording takes).
#[unsafe(no_mangle)]
pub extern "C" fn kit_writer_take_in(
    alloc: Global,
    writer: &mut KitWriter,
    recorder: &mut KitRecorder,
    most: usize,
    taken: &mut KitTaken,
) -> i32
    ensures code { result ≡ code_for (of_two (writer_of writer.old) (recorder_of recorder.old) taking_fault) }
    ensures value { result ≡ pos 0 → HasTakenIn most (writer_of writer.old) (recorder_of recorder.old)
        (writer_of writer.new) (recorder_of recorder.new) taken.new }
    ensures told { result ≢ pos 0 → taken.new ≡ taken.old }
    ensures unchanged { result ≢ pos 0 → writer_of writer.new ≡ writer_of writer.old }
    ensures kept { result ≢ pos 0 → recorder_of recorder.new ≡ recorder_of recorder.old }
{
    match with_two!(alloc, writer => Writer(held), recorder => Recorder(log), held.take_in(log, most))
    {
        Ok(told) => {
            *taken = KitTaken::of(told);
            OK
        }
        Err(_) => Fault::Measure(MeasureFault::Closed).code(),
    }
}

// Collects, and closes the writer where asked. The writer is marked last, where nothing can be refused any more.
#[tactic(auto, using(writer_kit::proofs::Refusals::collect_open, writer_kit::proofs::Refusals::collect_later, crate::proofs::Codes::memory_of_collection))]
fn collected(
    alloc: Global,
    writer: &mut HoldingWriter,
    time: u64,
    closing: bool,
) -> Result<Box<Content>, CollectFault>
    ensures ok { OnOk result (collect_fault writer.old time ≡ None) }
    ensures value { OnOk result (writer.new ≡ after_collect writer.old time closing) }
    ensures kind { IfOk result (λ made. is_export (Some made.value) ≡ true) }
    ensures export { IfOk result (λ made. HasExport writer.old time (export_in (Some made.value))) }
    ensures err { IfErr result (λ f. f ≢ CollectFault.NoMemory → collect_fault writer.old time ≡ Some f) }
    ensures short { IfErr result (λ f. f ≡ CollectFault.NoMemory → collect_fault writer.old time ≡ None) }
    ensures unchanged { OnErr result (writer.new ≡ writer.old) }
{
    let arena = Bump::new(alloc);
    let round = writer.writer().look_round(&arena, time)?;
    let Ok(export) = round.copy_out(alloc, writer.writer().id()) else {
        return Err(CollectFault::NoMemory);
    };
    let Ok(made) = Box::new(alloc, Content::Export(export)) else {
        return Err(CollectFault::NoMemory);
    };
    writer.mark(time, closing);
    Ok(made)
}

/// Collects the points since the start, as an export. Exports are cumulative, so a lost one is covered by the next (OpenTelemetry
/// Metrics SDK, "MetricReader", Collect). The time is in nanoseconds since the Unix epoch.
///
/// Refused, in this order: `FULL`; `NOTHING`; `CLOSED`; `TIME_NOT_AFTER` with the last collection or the start;
/// `NO_MEMORY`. O(size of the points).
#[tactic(auto, using(crate::proofs::Codes::memory_of_collection))]
#[unsafe(no_mangle)]
pub extern "C" fn kit_writer_collect(
    alloc: Global,
    writer: &mut KitWriter,
    time: u64,
    export: &mut KitExport,
    place: &mut u64,
) -> i32
    ensures code { result ≢ no_memory → result ≡ code_for (collecting_fault time (writer_of writer.old) (export_of export.old)) }
    ensures value { result ≡ pos 0 → writer_of writer.new ≡ in_one (λ w. after_collect w time false) (writer_of writer.old) }
    ensures export { result ≡ pos 0 → HasCollected time (writer_of writer.old) (export_of export.new) }
    ensures short { result ≡ no_memory → collecting_fault time (writer_of writer.old) (export_of export.old) ≡ None }
    ensures place { TellsPlace result (collecting_fault time (writer_of writer.old) (export_of export.old)) place.old place.new }
    ensures unchanged { result ≢ pos 0
        → (writer_of writer.new ≡ writer_of writer.old) × (export_of export.new ≡ export_of export.old) }
{
    put!(export => with!(alloc, writer => Writer(held), collected(alloc, held, time, false)), fault => Fault::Collect(fault), place)
}

/// Collects for the last time, and closes the writer (OpenTelemetry Metrics SDK, "MetricReader", Shutdown).
///
/// Refused as `kit_writer_collect` is.
#[tactic(auto, using(crate::proofs::Codes::memory_of_collection))]
#[unsafe(no_mangle)]
pub extern "C" fn kit_writer_shutdown(
    alloc: Global,
    writer: &mut KitWriter,
    time: u64,
    export: &mut KitExport,
    place: &mut u64,
) -> i32
    ensures code { result ≢ no_memory → result ≡ code_for (collecting_fault time (writer_of writer.old) (export_of export.old)) }
    ensures value { result ≡ pos 0 → writer_of writer.new ≡ in_one (λ w. after_collect w time true) (writer_of writer.old) }
    ensures export { result ≡ pos 0 → HasCollected time (writer_of writer.old) (export_of export.new) }
    ensures short { result ≡ no_memory → collecting_fault time (writer_of writer.old) (export_of export.old) ≡ None }
    ensures place { TellsPlace result (collecting_fault time (writer_of writer.old) (export_of export.old)) place.old place.new }
    ensures unchanged { result ≢ pos 0
        → (writer_of writer.new ≡ writer_of writer.old) × (export_of export.new ≡ export_of export.old) }
{
    put!(export => with!(alloc, writer => Writer(held), collected(alloc, held, time, true)), fault => Fault::Collect(fault), place)
}

/// Begins a new incarnation under a later start: the writer is open and has recorded nothing (OpenTelemetry Metrics Data Model,
/// "Resets and Gaps").
///
/// Refused, in this order: `NOTHING`; `START_NOT_AFTER` with the start so far; `NO_MEMORY`.
#[tactic(auto, using(crate::proofs::Codes::memory_of_restart))]
#[unsafe(no_mangle)]
pub extern "C" fn kit_writer_restart(
    alloc: Global,
    writer: &mut KitWriter,
    start: u64,
    place: &mut u64,
) -> i32
    ensures code { result ≢ no_memory → result ≡ code_for (of_one (writer_of writer.old) (restarting_fault start)) }
    ensures value { result ≡ pos 0 → writer_of writer.new ≡ in_one (λ w. after_restart w start) (writer_of writer.old) }
    ensures short { result ≡ no_memory → of_one (writer_of writer.old) (restarting_fault start) ≡ None }
    ensures place { TellsPlace result (of_one (writer_of writer.old) (restarting_fault start)) place.old place.new }
    ensures unchanged { result ≢ pos 0 → writer_of writer.new ≡ writer_of writer.old }
{
    match with!(alloc, writer => Writer(held), held.restart(start)) {
        Ok(()) => OK,
        Err(fault) => code_with_place(Fault::Restart(fault), place),
    }
}
