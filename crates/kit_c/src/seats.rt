//! Writers that threads share: each thread has a handle of its own, with its place at the writer.
ghost use Rattle.std.specs.Prelude.{◌≡◌, ◌≢◌, ◌∷◌, [], pos, true, None, Some, OnOk, OnErr, IfErr, IfOk};
ghost use Rattle.std.specs.Arc.{arc_value};
ghost use Rattle.attr_kit.specs.Refusing.{first};
ghost use Rattle.kit_c.specs.Calls.{code_for, full_fault, if_any, of_one};
ghost use Rattle.kit_c.specs.Codes.{no_memory};
ghost use Rattle.kit_c.specs.Desks.{CollectRefused, HasCollectedAt, HasHeld, HasMeasured, HasMeasuredAt, HasShared, HasSplit, HasTakenInAt, HoldRefused, IsEntered, IsHeldBy, IsTakenInAt, MeasureRefused, OneRefused, PlainRefused, PlainTwoRefused, RecordingRefused, SplitRefused, Stays, TakeInRefused, TwoRefused, WhyNotHeld};
ghost use Rattle.kit_c.specs.Held.{attributes_of, export_of, recorder_of, seat_of, writer_of};
ghost use Rattle.kit_c.specs.Pairs.{number_in};
ghost use Rattle.kit_c.specs.Typed.{export_in, is_export, is_seat, seat_in};
ghost use Rattle.kit_c.specs.Writers.{HasExport, by_set};
ghost use Rattle.kit_c.specs.declared.content.Content.TheVariants as contents;
ghost use Rattle.kit_c.specs.declared.fault.Fault.TheVariants as faults;
ghost use Rattle.recorder_kit.specs.Log.{ByNumber};
ghost use Rattle.writer_kit.specs.Shared.{MayRefuseRound, StandsForSet};
ghost use Rattle.writer_kit.specs.declared.shared.change.WriterChange.TheVariants.{Collected, Measured, MeasuredHeld};

use crate::content::Content;
use crate::desk::Desk;
use crate::fault::{FULL, Fault, NO_MEMORY, NOTHING, OK, WRONG_KIND, code_with_place};
use crate::holding::HoldingWriter;
use crate::pairs::{Pair, copy_numbers};
use crate::taken::KitTaken;
use crate::typed::{KitAttributes, KitExport, KitRecorder, KitSeat, KitWriter};
use crate::with::{put, tell, with, with_two};
use attr_kit::{AttrSet, NoMemory, Seq};
use bumpalo::Bump;
use recorder_kit::{Recorder, Taken};
use std::alloc::Global;
use std::sync::Arc;
use turn_kit::{ChangeFault, SplitFault, Step};
use writer_kit::{CollectFault, MeasureFault, SharedWriter, Writer};

/// The most changes that a shared writer accepts.
const MOST_CHANGES: u64 = 1 << 62;

// The first place at a copy of a writer, so that a refusal leaves the writer as it was.
fn share(alloc: Global, holder: &HoldingWriter) -> Result<Box<Content>, NoMemory>
    ensures kind { IfOk result (λ made. is_seat (Some made.value) ≡ true) }
    ensures value { IfOk result (λ made. HasShared (Some holder.now) (seat_in (Some made.value))) }
{
    let numbers = holder.numbers()?;
    let writer = holder.writer().try_copy()?;
    let Ok((writer, seat)) = SharedWriter::new(alloc, writer, MOST_CHANGES) else {
        return Err(NoMemory);
    };
    let writer = Arc::new(alloc, writer.into_quiet())?;
    Ok(Box::new(
        alloc,
        Content::Desk(Desk {
            writer,
            seat,
            numbers,
        }),
    )?)
}

/// Shares a writer: its handle has nothing then, and the seat is the first place at it, which `kit_seat_split` makes others of, one for
/// each thread. What the writer held stays held, under the same numbers.
///
/// Refused, in this order: `FULL` of the seat; `NOTHING` of the writer; `NO_MEMORY`. O(size of the plan and the points).
#[unsafe(no_mangle)]
pub extern "C" fn kit_writer_share(alloc: Global, writer: &mut KitWriter, seat: &mut KitSeat) -> i32
    ensures code { result ≢ no_memory
        → result ≡ code_for (first (full_fault (seat_of seat.old) ∷ of_one (writer_of writer.old) if_any ∷ [])) }
    ensures value { result ≡ pos 0 → HasShared (writer_of writer.old) (seat_of seat.new) }
    ensures gone { result ≡ pos 0 → writer_of writer.new ≡ None }
    ensures unchanged { result ≢ pos 0 → writer_of writer.new ≡ writer_of writer.old }
    ensures seat_kept { result ≢ pos 0 → seat_of seat.new ≡ seat_of seat.old }
{
    if seat.handle.full {
        return FULL;
    }
    match with!(alloc, writer => Writer(held), share(alloc, held)) {
        Ok(made) => {
            drop(writer.handle.take(alloc));
            seat.handle.put(made);
            OK
        }
        Err(_) => NO_MEMORY,
    }
}

fn measure_at(
    desk: &mut Desk,
    instrument: usize,
    attributes: &AttrSet,
    value: i64,
) -> Result<(), Fault>
    ensures value { OnOk result (IsEntered (Measured instrument attributes.now value) desk.old desk.new) }
    ensures err { IfErr result (λ f. RecordingRefused (by_set instrument value attributes.now) desk.old desk.new f) }
{
    match desk
        .writer
        .try_measure(&mut desk.seat, instrument, attributes, value)
    {
        Ok(()) => Ok(()),
        Err(ChangeFault::Busy) => Err(Fault::Busy),
        Err(ChangeFault::Exhausted) => Err(Fault::Exhausted),
        Err(ChangeFault::Refused(fault)) => Err(Fault::Measure(fault)),
    }
}

/// Records a value at an attribute set by a seat, which is one thread's. It waits for nobody.
///
/// Refused, in this order: `NOTHING` of the seat, then of the attributes; `BUSY` where another thread's call has the
/// writer; `EXHAUSTED` where it accepted 2^62 changes; then as `kit_writer_measure` is. Nothing is recorded then, though the seat may
/// have seen what others recorded.
#[tactic(auto, using(crate::proofs::Desks::two_refused))]
#[unsafe(no_mangle)]
pub extern "C" fn kit_seat_measure(
    alloc: Global,
    seat: &mut KitSeat,
    instrument: usize,
    attributes: &mut KitAttributes,
    value: i64,
    place: &mut u64,
) -> i32
    ensures value { result ≡ pos 0 → HasMeasured instrument value (seat_of seat.old) (attributes_of attributes.old) (seat_of seat.new) }
    ensures told { result ≡ pos 0 → place.new ≡ place.old }
    ensures err { result ≢ pos 0 → TwoRefused (MeasureRefused instrument value) (seat_of seat.old) (attributes_of attributes.old)
        (seat_of seat.new) place.old place.new result }
    ensures kept { attributes_of attributes.new ≡ attributes_of attributes.old }
{
    match with_two!(alloc, seat => Desk(desk), attributes => Attributes(set), measure_at(desk, instrument, set, value))
    {
        Ok(()) => OK,
        Err(fault) => code_with_place(fault, place),
    }
}

fn measure_held_at(desk: &mut Desk, number: usize, value: i64) -> Result<(), Fault>
    ensures value { OnOk result (IsEntered (MeasuredHeld number value) desk.old desk.new) }
    ensures err { IfErr result (λ f. RecordingRefused (ByNumber number value) desk.old desk.new f) }
{
    match desk.writer.try_measure_held(&mut desk.seat, number, value) {
        Ok(()) => Ok(()),
        Err(ChangeFault::Busy) => Err(Fault::Busy),
        Err(ChangeFault::Exhausted) => Err(Fault::Exhausted),
        Err(ChangeFault::Refused(fault)) => Err(Fault::Measure(fault)),
    }
}

/// Records a value by a seat at the pair of a number, whichever seat's call told it.
///
/// Refused, in this order: `NOTHING`; `BUSY` where another thread's call has the writer; `EXHAUSTED` where it accepted 2^62
/// changes; then as `kit_writer_measure_held` is.
#[tactic(auto, using(crate::proofs::Desks::one_refused))]
#[unsafe(no_mangle)]
pub extern "C" fn kit_seat_measure_held(
    alloc: Global,
    seat: &mut KitSeat,
    number: usize,
    value: i64,
    place: &mut u64,
) -> i32
    ensures value { result ≡ pos 0 → HasMeasuredAt number value (seat_of seat.old) (seat_of seat.new) }
    ensures told { result ≡ pos 0 → place.new ≡ place.old }
    ensures err { result ≢ pos 0
        → OneRefused (RecordingRefused (ByNumber number value)) (seat_of seat.old) (seat_of seat.new) place.old place.new result }
{
    match with!(alloc, seat => Desk(desk), measure_held_at(desk, number, value)) {
        Ok(()) => OK,
        Err(fault) => code_with_place(fault, place),
    }
}

// Holds a pair at a place. Memory is taken first, since nothing can be refused once the pair is held.
fn hold_pair(desk: &mut Desk, pair: &Pair) -> Result<usize, Fault>
    ensures stands { IfOk result (λ n. StandsForSet (arc_value desk.new.writer) n pair.now.instrument pair.now.attrs desk.new.seat) }
    ensures value { IfOk result (λ n. IsHeldBy (number_in desk.old.numbers.entries pair.now.instrument pair.now.attrs)
        pair.now.instrument n pair.now.attrs desk.old desk.new) }
    ensures stays { OnErr result (Stays desk.old desk.new) }
    ensures unknown { OnErr result (number_in desk.old.numbers.entries pair.now.instrument pair.now.attrs ≡ None) }
    ensures err { IfErr result (λ f. WhyNotHeld pair.now.instrument desk.old desk.new f) }
{
    if let Some(number) = desk.numbers.get(pair) {
        return Ok(*number);
    }
    let copy = pair.try_copy()?;
    desk.numbers.reserve(1)?;
    match desk
        .writer
        .try_hold(&mut desk.seat, pair.instrument, &pair.attrs)
    {
        Ok(number) => {
            desk.numbers.insert(copy, number).unwrap();
            Ok(number)
        }
        Err(ChangeFault::Busy) => Err(Fault::Busy),
        Err(ChangeFault::Exhausted) => Err(Fault::Exhausted),
        Err(ChangeFault::Refused(fault)) => Err(Fault::Measure(fault)),
    }
}

// Holds a pair, whose set is lent to it.
fn hold_at(
    alloc: Global,
    desk: &mut Desk,
    instrument: usize,
    attributes: &mut AttrSet,
) -> Result<usize, Fault>
    ensures value { IfOk result (λ n. HasHeld instrument n (Some desk.old) (Some attributes.old) (Some desk.new)) }
    ensures err { IfErr result (λ f. HoldRefused instrument desk.old attributes.old desk.new f) }
    ensures kept { attributes.new ≡ attributes.old }
{
    let pair = Pair::lend(alloc, instrument, attributes);
    let outcome = hold_pair(desk, &pair);
    *attributes = pair.give_back();
    outcome
}

/// Holds a pair of an instrument and an attribute set by a seat, and tells its number, which any seat of the writer may use. A seat knows
/// the numbers of the pairs that were held when the writer was shared, of those that it held itself, and those that the seat knew that it
/// was split from. Of such a pair nothing changes, no memory is taken and the writer is not asked for. A pair that another seat held
/// meanwhile gets another number here: both count at the same point, each for as long as the writer lives.
///
/// Refused, in this order: `NOTHING` of the seat, then of the attributes; of a pair that the seat does not know `NO_MEMORY`;
/// `BUSY` where another thread's call has the writer; `EXHAUSTED` where it accepted 2^62 changes; `CLOSED`; `NO_INSTRUMENT`; `NO_MEMORY`.
#[tactic(auto, using(crate::proofs::Desks::plain_two_refused))]
#[unsafe(no_mangle)]
pub extern "C" fn kit_seat_hold(
    alloc: Global,
    seat: &mut KitSeat,
    instrument: usize,
    attributes: &mut KitAttributes,
    number: &mut usize,
) -> i32
    ensures value { result ≡ pos 0 → HasHeld instrument number.new (seat_of seat.old) (attributes_of attributes.old) (seat_of seat.new) }
    ensures told { result ≢ pos 0 → number.new ≡ number.old }
    ensures err { result ≢ pos 0
        → PlainTwoRefused (HoldRefused instrument) (seat_of seat.old) (attributes_of attributes.old) (seat_of seat.new) result }
    ensures kept { attributes_of attributes.new ≡ attributes_of attributes.old }
{
    tell!(number => with_two!(alloc, seat => Desk(desk), attributes => Attributes(set), hold_at(alloc, desk, instrument, set)))
}

fn take_in_at(desk: &mut Desk, recorder: &mut Recorder, most: usize) -> Result<Taken, Fault>
    ensures value { IfOk result (λ k. IsTakenInAt most desk.old recorder.old desk.new recorder.new k) }
    ensures err { IfErr result (λ f. TakeInRefused desk.old recorder.old desk.new f) }
    ensures kept { OnErr result (recorder.new ≡ recorder.old) }
{
    match desk.writer.try_take_in(&mut desk.seat, recorder, most) {
        Ok(taken) => Ok(taken),
        Err(ChangeFault::Busy) => Err(Fault::Busy),
        Err(ChangeFault::Exhausted) => Err(Fault::Exhausted),
        Err(ChangeFault::Refused(_)) => Err(Fault::Measure(MeasureFault::Closed)),
    }
}

/// Takes in at most so many recordings of a log by a seat, from its front, as `kit_writer_take_in` does: by one change, so that others see
/// all of them or none. By pieces other seats get in between.
///
/// Refused, in this order: `NOTHING` of the seat, then of the recorder; `BUSY` where another thread's call has the writer;
/// `EXHAUSTED` where it accepted 2^62 changes; `CLOSED`. The log stays as it is then.
#[tactic(auto, using(crate::proofs::Desks::plain_two_refused))]
#[unsafe(no_mangle)]
pub extern "C" fn kit_seat_take_in(
    alloc: Global,
    seat: &mut KitSeat,
    recorder: &mut KitRecorder,
    most: usize,
    taken: &mut KitTaken,
) -> i32
    ensures value { result ≡ pos 0 → HasTakenInAt most (seat_of seat.old) (recorder_of recorder.old)
        (seat_of seat.new) (recorder_of recorder.new) taken.new }
    ensures told { result ≢ pos 0 → taken.new ≡ taken.old }
    ensures err { result ≢ pos 0 → PlainTwoRefused TakeInRefused (seat_of seat.old) (recorder_of recorder.old) (seat_of seat.new) result }
    ensures kept { result ≢ pos 0 → recorder_of recorder.new ≡ recorder_of recorder.old }
{
    match with_two!(alloc, seat => Desk(desk), recorder => Recorder(log), take_in_at(desk, log, most))
    {
        Ok(told) => {
            *taken = KitTaken::of(told);
            OK
        }
        Err(fault) => fault.code(),
    }
}

// Room for another place, which has nothing yet.
fn empty_room(alloc: Global) -> Result<Box<Content>, Fault>
    ensures err { IfErr result (λ f. f ≡ faults.NoMemory) }
{
    match Box::new(alloc, Content::Keys(Seq::new(alloc))) {
        Ok(room) => Ok(room),
        Err(_) => Err(Fault::NoMemory),
    }
}

// Puts a place into its room.
fn furnished(mut room: Box<Content>, desk: Desk) -> Box<Content>
    ensures { result.value ≡ contents.Desk desk }
{
    *room = Content::Desk(desk);
    room
}

// Splits off another place. All memory is taken first, since nothing can be refused once the seat is split.
fn split(alloc: Global, desk: &mut Desk) -> Result<Box<Content>, Fault>
    ensures kind { IfOk result (λ made. is_seat (Some made.value) ≡ true) }
    ensures value { IfOk result (λ made. HasSplit (Some desk.old) (Some desk.new) (seat_in (Some made.value))) }
    ensures err { IfErr result (λ f. SplitRefused desk.old desk.new f) }
{
    let Ok(numbers) = copy_numbers(&desk.numbers) else {
        return Err(Fault::NoMemory);
    };
    let Ok(writer) = Arc::try_clone(&desk.writer) else {
        return Err(Fault::NoMemory);
    };
    let room = empty_room(alloc)?;
    match desk.writer.try_split(&mut desk.seat) {
        Ok(seat) => Ok(furnished(
            room,
            Desk {
                writer,
                seat,
                numbers,
            },
        )),
        Err(SplitFault::Busy) => Err(Fault::Busy),
        Err(SplitFault::SeatsFull) => Err(Fault::SeatsFull),
    }
}

/// Makes another seat at the writer, for another thread, which knows the numbers that this one knows.
///
/// Refused, in this order: `FULL` of the new one; `NOTHING`; `NO_MEMORY`; `BUSY` where another thread's call has the
/// writer; `SEATS_FULL` where 4,096 seats were made.
#[tactic(auto, using(crate::proofs::Desks::plain_refused))]
#[unsafe(no_mangle)]
pub extern "C" fn kit_seat_split(alloc: Global, seat: &mut KitSeat, made: &mut KitSeat) -> i32
    ensures ok { result ≡ pos 0 → full_fault (seat_of made.old) ≡ None }
    ensures value { result ≡ pos 0 → HasSplit (seat_of seat.old) (seat_of seat.new) (seat_of made.new) }
    ensures full { seat_of made.old ≢ None → (result ≡ pos 4) × (seat_of seat.new ≡ seat_of seat.old) }
    ensures err { result ≢ pos 0 → seat_of made.old ≡ None → PlainRefused SplitRefused (seat_of seat.old) (seat_of seat.new) result }
    ensures unchanged { result ≢ pos 0 → seat_of made.new ≡ seat_of made.old }
{
    if made.handle.full {
        return FULL;
    }
    match with!(alloc, seat => Desk(desk), split(alloc, desk)) {
        Ok(new) => {
            made.handle.put(new);
            OK
        }
        Err(fault) => fault.code(),
    }
}

/// Collects, and copies the points out while the writer is had, so that a refusal changes nothing.
#[derive(Drop)]
struct Collect {
    alloc: Global,
    time: u64,
}

impl Step<Writer> for Collect {
    type Reply = Box<Content>;

    type Refusal = CollectFault;

    ghost entry = { λ c. Collected c.time };

    ghost replies = { λ c w made. HasExport w c.time (export_in (Some made.value)) };

    ghost refuses = { λ c w f. MayRefuseRound w c.time f };

    #[tactic(auto, using(writer_kit::proofs::Sharing::after_writer_change_collected, writer_kit::proofs::Sharing::may_refuse_round, writer_kit::proofs::Refusals::collect_open, writer_kit::proofs::Refusals::collect_later))]
    fn step(self, machine: &mut Writer) -> Result<Box<Content>, CollectFault> {
        let arena = Bump::new(self.alloc);
        let round = machine.look_round(&arena, self.time)?;
        let Ok(export) = round.copy_out(self.alloc, machine.id()) else {
            return Err(CollectFault::NoMemory);
        };
        let Ok(made) = Box::new(self.alloc, Content::Export(export)) else {
            return Err(CollectFault::NoMemory);
        };
        machine.mark(self.time, false);
        Ok(made)
    }
}

fn collect_at(alloc: Global, desk: &mut Desk, time: u64) -> Result<Box<Content>, Fault>
    ensures kind { IfOk result (λ made. is_export (Some made.value) ≡ true) }
    ensures value { IfOk result (λ made. HasCollectedAt time (Some desk.old) (Some desk.new) (export_in (Some made.value))) }
    ensures err { IfErr result (λ f. CollectRefused time desk.old desk.new f) }
{
    match desk
        .writer
        .try_change(&mut desk.seat, Collect { alloc, time })
    {
        Ok(made) => Ok(made),
        Err(ChangeFault::Busy) => Err(Fault::Busy),
        Err(ChangeFault::Exhausted) => Err(Fault::Exhausted),
        Err(ChangeFault::Refused(fault)) => Err(Fault::Collect(fault)),
    }
}

/// Collects the points of the writer by a seat, as an export: all that any seat recorded before it.
///
/// Refused, in this order: `FULL` of the export; `NOTHING`; `BUSY` where another thread's call has the writer;
/// `EXHAUSTED` where it accepted 2^62 changes; then as `kit_writer_collect` is.
#[tactic(auto, using(crate::proofs::Desks::one_refused))]
#[unsafe(no_mangle)]
pub extern "C" fn kit_seat_collect(
    alloc: Global,
    seat: &mut KitSeat,
    time: u64,
    export: &mut KitExport,
    place: &mut u64,
) -> i32
    ensures ok { result ≡ pos 0 → full_fault (export_of export.old) ≡ None }
    ensures value { result ≡ pos 0 → HasCollectedAt time (seat_of seat.old) (seat_of seat.new) (export_of export.new) }
    ensures told { result ≡ pos 0 → place.new ≡ place.old }
    ensures full { export_of export.old ≢ None
        → (result ≡ pos 4) × (seat_of seat.new ≡ seat_of seat.old) × (place.new ≡ place.old) }
    ensures err { result ≢ pos 0 → export_of export.old ≡ None
        → OneRefused (CollectRefused time) (seat_of seat.old) (seat_of seat.new) place.old place.new result }
    ensures unchanged { result ≢ pos 0 → export_of export.new ≡ export_of export.old }
{
    put!(export => with!(alloc, seat => Desk(desk), collect_at(alloc, desk, time)), fault => fault, place)
}
