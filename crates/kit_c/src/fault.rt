//! Why calls are refused, and the codes that say so.
ghost use Rattle.std.specs.Prelude.{◌≡◌, ◌≢◌, pos, None};
ghost use Rattle.std.specs.Option.{unwrap_or};
ghost use Rattle.kit_c.specs.Codes.{code_of, recording_code, collection_code, restart_code, attributes_code, plan_code, adopting_code, decoding_code, otlp_code, reason_code, request_code, no_memory};
ghost use Rattle.kit_c.specs.Places.{attributes_place, collection_place, decoding_place, otlp_place, place_of, plan_place, recording_place, request_place, restart_place, second_of};

use agg_kit::TallyFault;
use archive_kit::{AdoptFault, ExportRefusal, SealRefusal};
use attr_kit::{AttrFault, NoMemory};
use bytes_kit::DecodeFault;
use gossip_kit::HandFault;
use otlp_kit::{OtlpFault, RequestFault, RequestReason};
use plan_kit::PlanFault;
use recorder_kit::RecordFault;
use std::alloc::{AllocError, AllocFailed};
use writer_kit::{CollectFault, MeasureFault, RestartFault};

/// The call did what it says.
pub(crate) const OK: i32 = 0;

/// Memory was refused.
pub(crate) const NO_MEMORY: i32 = 1;

/// A handle that is read has nothing.
pub(crate) const NOTHING: i32 = 2;

/// A handle has something else: none that the library left does.
pub(crate) const WRONG_KIND: i32 = 3;

/// The handle that is to be filled has something.
pub(crate) const FULL: i32 = 4;

/// There is no point of what is asked for.
pub(crate) const NO_POINT: i32 = 9;

/// Why a call is refused.
#[derive(Drop)]
pub enum Fault {
    /// Memory was refused.
    NoMemory,
    /// A handle that is read has nothing.
    Nothing,
    /// The handle that is to be filled has something.
    Full,
    /// A text is not UTF-8.
    NotText,
    /// A number stands for nothing here.
    BadNumber,
    /// There is no row of this number.
    NoRow,
    /// There is no item of this number.
    NoItem,
    /// There is no point of what is asked for.
    NoPoint,
    /// A value is of another shape.
    WrongShape,
    /// The writer that threads share is in another call.
    Busy,
    /// As many changes were accepted as a writer that threads share may.
    Exhausted,
    /// A writer that threads share has given all the places that it may.
    SeatsFull,
    Measure(MeasureFault),
    Collect(CollectFault),
    Restart(RestartFault),
    Attributes(AttrFault),
    Plan(PlanFault),
    /// This instrument has the scope of tombstones.
    ReservedScope(usize),
    Hand(HandFault),
    Adopt(AdoptFault),
    Archive(ExportRefusal),
    Seal(SealRefusal),
    Decode(DecodeFault),
    Record(RecordFault),
    Otlp(OtlpFault),
    Request(RequestFault),
    /// This export of a request has a point in the scope of tombstones.
    ReservedPoint(usize),
}

impl From<NoMemory> for Fault {
    ghost use Rattle.kit_c.specs.declared.fault.Fault.TheVariants as faults;

    ghost from_gives = { λ _ e. e ≡ faults.NoMemory };

    fn from(_error: NoMemory) -> Fault {
        Fault::NoMemory
    }
}

impl From<AllocError> for Fault {
    ghost use Rattle.kit_c.specs.declared.fault.Fault.TheVariants as faults;

    ghost from_gives = { λ _ e. e ≡ faults.NoMemory };

    fn from(_error: AllocError) -> Fault {
        Fault::NoMemory
    }
}

impl<T: Drop> From<AllocFailed<T>> for Fault {
    ghost use Rattle.kit_c.specs.declared.fault.Fault.TheVariants as faults;

    ghost from_gives = { λ _ e. e ≡ faults.NoMemory };

    fn from(_error: AllocFailed<T>) -> Fault {
        Fault::NoMemory
    }
}

impl From<MeasureFault> for Fault {
    ghost use Rattle.kit_c.specs.declared.fault.Fault.TheVariants as faults;

    ghost from_gives = { λ fault e. e ≡ faults.Measure fault };

    fn from(fault: MeasureFault) -> Fault {
        Fault::Measure(fault)
    }
}

impl From<RecordFault> for Fault {
    ghost use Rattle.kit_c.specs.declared.fault.Fault.TheVariants as faults;

    ghost from_gives = { λ fault e. e ≡ faults.Record fault };

    fn from(fault: RecordFault) -> Fault {
        Fault::Record(fault)
    }
}

fn of_recording(fault: &MeasureFault) -> (i32, Option<u64>)
    ensures code { result.0 ≡ recording_code fault.now }
    ensures place { result.1 ≡ recording_place fault.now }
    ensures refused { result.0 ≢ pos 0 }
    ensures no_memory { result.0 ≡ no_memory → result.1 ≡ None }
{
    match fault {
        MeasureFault::Closed => (10, None),
        MeasureFault::Refused(TallyFault::NoHeld) => (7, None),
        MeasureFault::Refused(TallyFault::NoInstrument) => (11, None),
        MeasureFault::Refused(TallyFault::Negative) => (12, None),
        MeasureFault::Refused(TallyFault::Overflow(stream)) => (13, Some(*stream as u64)),
        MeasureFault::Refused(TallyFault::NoMemory) => (1, None),
    }
}

fn of_collection(fault: &CollectFault) -> (i32, Option<u64>)
    ensures code { result.0 ≡ collection_code fault.now }
    ensures place { result.1 ≡ collection_place fault.now }
    ensures refused { result.0 ≢ pos 0 }
    ensures no_memory { result.0 ≡ no_memory → result.1 ≡ None }
{
    match fault {
        CollectFault::Closed => (10, None),
        CollectFault::TimeNotAfter(last) => (14, Some(*last)),
        CollectFault::NoMemory => (1, None),
    }
}

fn of_restart(fault: &RestartFault) -> (i32, Option<u64>)
    ensures code { result.0 ≡ restart_code fault.now }
    ensures place { result.1 ≡ restart_place fault.now }
    ensures refused { result.0 ≢ pos 0 }
    ensures no_memory { result.0 ≡ no_memory → result.1 ≡ None }
{
    match fault {
        RestartFault::StartNotAfter(start) => (15, Some(*start)),
        RestartFault::NoMemory => (1, None),
    }
}

fn of_attributes(fault: &AttrFault) -> (i32, Option<u64>)
    ensures code { result.0 ≡ attributes_code fault.now }
    ensures place { result.1 ≡ attributes_place fault.now }
    ensures refused { result.0 ≢ pos 0 }
    ensures no_memory { result.0 ≡ no_memory → result.1 ≡ None }
{
    match fault {
        AttrFault::EmptyKey(pair) => (20, Some(*pair as u64)),
        AttrFault::NoMemory => (1, None),
    }
}

fn of_plan(fault: &PlanFault) -> (i32, Option<u64>)
    ensures code { result.0 ≡ plan_code fault.now }
    ensures place { result.1 ≡ plan_place fault.now }
    ensures refused { result.0 ≢ pos 0 }
    ensures no_memory { result.0 ≡ no_memory → result.1 ≡ None }
{
    match fault {
        PlanFault::BadName(instrument) => (30, Some(*instrument as u64)),
        PlanFault::BadUnit(instrument) => (31, Some(*instrument as u64)),
        PlanFault::BadBounds(view) => (32, Some(*view as u64)),
        PlanFault::BadRename(view) => (33, Some(*view as u64)),
        PlanFault::WildcardRename(view) => (34, Some(*view as u64)),
        PlanFault::BadAggregation(instrument, _) => (35, Some(*instrument as u64)),
        PlanFault::SameStream(first, _) => (36, Some(*first as u64)),
        PlanFault::BadLimit => (37, None),
        PlanFault::NoMemory => (1, None),
    }
}

fn of_adopting(fault: &AdoptFault) -> i32
    ensures code { result ≡ adopting_code fault.now }
    ensures refused { result ≢ pos 0 }
{
    match fault {
        AdoptFault::OtherService => 110,
        AdoptFault::IsArchive => 111,
        AdoptFault::Adopted => 112,
        AdoptFault::Nothing => 9,
        AdoptFault::Conflict => 113,
        AdoptFault::Torn => 114,
        AdoptFault::Unsound => 115,
        AdoptFault::OutOfRange => 116,
        AdoptFault::SetLimit => 117,
        AdoptFault::NoMemory => 1,
    }
}

fn of_decoding(fault: &DecodeFault) -> (i32, Option<u64>)
    ensures code { result.0 ≡ decoding_code fault.now }
    ensures place { result.1 ≡ decoding_place fault.now }
    ensures refused { result.0 ≢ pos 0 }
    ensures no_memory { result.0 ≡ no_memory → result.1 ≡ None }
{
    match fault {
        DecodeFault::Truncated(at) => (60, Some(*at as u64)),
        DecodeFault::BadMagic(at) => (61, Some(*at as u64)),
        DecodeFault::BadVersion(at) => (62, Some(*at as u64)),
        DecodeFault::NotCanonical(at) => (63, Some(*at as u64)),
        DecodeFault::NotText(at) => (5, Some(*at as u64)),
        DecodeFault::BadChecksum(at) => (64, Some(*at as u64)),
        DecodeFault::BadExport(_) => (65, None),
        DecodeFault::NoMemory => (1, None),
    }
}

fn of_otlp(fault: &OtlpFault) -> (i32, Option<u64>)
    ensures code { result.0 ≡ otlp_code fault.now }
    ensures place { result.1 ≡ otlp_place fault.now }
    ensures refused { result.0 ≢ pos 0 }
    ensures no_memory { result.0 ≡ no_memory → result.1 ≡ None }
{
    match fault {
        OtlpFault::BadBounds(point) => (80, Some(*point as u64)),
        OtlpFault::TooLongText => (107, None),
        OtlpFault::TooManyAttributes(point) => (108, Some(*point as u64)),
        OtlpFault::TooLong => (81, None),
        OtlpFault::NoMemory => (1, None),
    }
}

fn of_reason(why: &RequestReason) -> i32
    ensures code { result ≡ reason_code why.now }
    ensures refused { result ≢ pos 0 }
    ensures no_memory { result ≡ no_memory → why.now ≡ RequestReason.NoMemory }
{
    match why {
        RequestReason::Malformed => 82,
        RequestReason::NotText => 5,
        RequestReason::TooLongText => 107,
        RequestReason::NoService => 83,
        RequestReason::NoInstance => 84,
        RequestReason::NotUuid => 85,
        RequestReason::ScopeTwice => 86,
        RequestReason::ExponentialHistogram => 87,
        RequestReason::Summary => 88,
        RequestReason::NoData => 89,
        RequestReason::Delta => 90,
        RequestReason::NoTemporality => 91,
        RequestReason::NoRecordedValue => 92,
        RequestReason::UnknownStart => 93,
        RequestReason::FloatValue => 94,
        RequestReason::NoValue => 95,
        RequestReason::NoSum => 96,
        RequestReason::NotWhole => 97,
        RequestReason::Inexact => 98,
        RequestReason::BadBounds => 99,
        RequestReason::HalfRange => 100,
        RequestReason::TooManyAttributes => 108,
        RequestReason::EmptyKey => 101,
        RequestReason::AttributeTwice => 102,
        RequestReason::AttributeValue => 103,
        RequestReason::BadExport(_) => 104,
        RequestReason::NoMemory => 1,
    }
}

fn of_request(fault: &RequestFault) -> (i32, Option<u64>)
    ensures code { result.0 ≡ request_code fault.now }
    ensures place { result.1 ≡ request_place fault.now }
    ensures refused { result.0 ≢ pos 0 }
    ensures no_memory { result.0 ≡ no_memory → result.1 ≡ None }
{
    match fault.why {
        RequestReason::NoMemory => (1, None),
        _ => (of_reason(&fault.why), Some(fault.place as u64)),
    }
}

impl Fault {
    /// The code of a refusal, and the place or the time that it carries.
    fn told(&self) -> (i32, Option<u64>)
        ensures code { result.0 ≡ code_of self.now }
        ensures place { result.1 ≡ place_of self.now }
        ensures refused { result.0 ≢ pos 0 }
        ensures no_memory { result.0 ≡ no_memory → result.1 ≡ None }
    {
        match self {
            Fault::NoMemory => (1, None),
            Fault::Nothing => (2, None),
            Fault::Full => (4, None),
            Fault::NotText => (5, None),
            Fault::BadNumber => (6, None),
            Fault::NoRow => (8, None),
            Fault::NoItem => (19, None),
            Fault::NoPoint => (9, None),
            Fault::WrongShape => (42, None),
            Fault::Busy => (16, None),
            Fault::Exhausted => (17, None),
            Fault::SeatsFull => (18, None),
            Fault::Measure(fault) => of_recording(fault),
            Fault::Collect(fault) => of_collection(fault),
            Fault::Restart(fault) => of_restart(fault),
            Fault::Attributes(fault) => of_attributes(fault),
            Fault::Plan(fault) => of_plan(fault),
            Fault::ReservedScope(instrument) => (38, Some(*instrument as u64)),
            Fault::Hand(HandFault::NotAddressed) => (50, None),
            Fault::Hand(HandFault::NoMemory) => (1, None),
            Fault::Adopt(fault) => (of_adopting(fault), None),
            Fault::Archive(ExportRefusal::TimeNotLater) => (118, None),
            Fault::Archive(ExportRefusal::NoMemory) => (1, None),
            Fault::Seal(SealRefusal::StartNotLater) => (119, None),
            Fault::Seal(SealRefusal::Unexported) => (120, None),
            Fault::Decode(fault) => of_decoding(fault),
            Fault::Record(RecordFault::Full) => (70, None),
            Fault::Record(RecordFault::NoMemory) => (1, None),
            Fault::Otlp(fault) => of_otlp(fault),
            Fault::Request(fault) => of_request(fault),
            Fault::ReservedPoint(export) => (106, Some(*export as u64)),
        }
    }

    /// The code of a refusal.
    pub(crate) fn code(&self) -> i32
        ensures code { result ≡ code_of self.now }
        ensures refused { result ≢ pos 0 }
    {
        self.told().0
    }

    /// The place or the time that a refusal carries.
    pub(crate) fn place(&self) -> Option<u64>
        ensures value { result ≡ place_of self.now }
        ensures no_memory { code_of self.now ≡ no_memory → result ≡ None }
    {
        self.told().1
    }

    /// The second place of the refusals that carry two.
    fn second(&self) -> Option<u64>
        ensures value { result ≡ second_of self.now }
        ensures no_memory { code_of self.now ≡ no_memory → result ≡ None }
    {
        match self {
            Fault::Plan(PlanFault::BadAggregation(_, view)) => Some(*view as u64),
            Fault::Plan(PlanFault::SameStream(_, second)) => Some(*second as u64),
            _ => None,
        }
    }
}

/// Tells the place that a refusal carries, and answers with its code.
pub(crate) fn code_with_place(fault: Fault, place: &mut u64) -> i32
    ensures code { result ≡ code_of fault }
    ensures refused { result ≢ pos 0 }
    ensures place { place.new ≡ unwrap_or (place_of fault) place.old }
    ensures no_memory { result ≡ no_memory → place.new ≡ place.old }
{
    let (code, told) = fault.told();
    *place = told.unwrap_or(*place);
    code
}

/// The same of a refusal that may carry two.
pub(crate) fn code_with_places(fault: Fault, first: &mut u64, second: &mut u64) -> i32
    ensures code { result ≡ code_of fault }
    ensures refused { result ≢ pos 0 }
    ensures first { first.new ≡ unwrap_or (place_of fault) first.old }
    ensures second { second.new ≡ unwrap_or (second_of fault) second.old }
    ensures no_memory { result ≡ no_memory → (first.new ≡ first.old) × (second.new ≡ second.old) }
{
    *second = fault.second().unwrap_or(*second);
    code_with_place(fault, first)
}
