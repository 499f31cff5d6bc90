//! Why bytes are no request that can be read.
ghost use Rattle.std.specs.Prelude.{◌≡◌};
ghost use Rattle.otlp_kit.specs.Fields.{refused};

use attr_kit::NoMemory;
use point_kit::ExportFault;
use std::alloc::AllocError;
use std::fmt;
use thiserror::Error;

/// Why a request is not read, in the order in which it is looked for: of one histogram the sum first, then that its bounds rise, then
/// its least and greatest value, whatever the order here.
#[derive(Clone, Copy, Debug, PartialEq, Eq)]
pub enum RequestReason {
    /// The bytes from this place on are no field, or one that its message does not have so: of another wire type, or a
    /// second one of a field that is not repeated.
    Malformed,
    /// The text that begins at this place is not UTF-8.
    NotText,
    /// The field that begins at this place has a text of more than 1,024 bytes: a service, the name of a scope or a metric, or
    /// a unit.
    TooLongText,
    /// The resource has not exactly one `service.name`, or no text there.
    NoService,
    /// The resource has not exactly one `service.instance.id`, or no text there.
    NoInstance,
    /// The `service.instance.id` of the resource is no UUID in its form with hyphens.
    NotUuid,
    /// An earlier scope of this resource has the same name, and another version or other attributes.
    ScopeTwice,
    /// The metric is an exponential histogram.
    ExponentialHistogram,
    /// The metric is a summary.
    Summary,
    /// The metric is neither a sum nor a gauge nor a histogram.
    NoData,
    /// The sum or histogram is told as deltas.
    Delta,
    /// The sum or histogram is not said to be cumulative.
    NoTemporality,
    /// The point has no recorded value.
    NoRecordedValue,
    /// The start of the point of a sum or histogram is 0, which stands for unknown.
    UnknownStart,
    /// The value of the point is a double.
    FloatValue,
    /// The point has no value.
    NoValue,
    /// The histogram has no sum.
    NoSum,
    /// A double of the histogram is no whole number.
    NotWhole,
    /// A double of the histogram is 2^53 or more in size, so that it may stand for another whole number.
    Inexact,
    /// The bounds of the histogram do not strictly rise.
    BadBounds,
    /// The histogram has a least value or a greatest, and not the other.
    HalfRange,
    /// The point has more than 128 attributes.
    TooManyAttributes,
    /// An attribute of the point has no key.
    EmptyKey,
    /// Two attributes of the point have one key.
    AttributeTwice,
    /// The value of an attribute of the point is neither a text nor a truth nor a whole number.
    AttributeValue,
    /// The points of one resource, start and time make no export, for this reason. The place is that of the export among those
    /// that are read.
    BadExport(ExportFault),
    /// Memory was refused. The place is 0.
    NoMemory,
}

/// Why a request is not read, and where: of [`RequestReason::Malformed`], [`RequestReason::NotText`] and
/// [`RequestReason::TooLongText`] the place is a byte's, of the others that of a message among all of its kind in the request.
/// Both are counted from 0.
#[derive(Clone, Copy, Debug, PartialEq, Eq, Error)]
pub struct RequestFault {
    pub why: RequestReason,
    pub place: usize,
}

impl RequestReason {
    /// A refusal at a place.
    pub(crate) fn at(self, place: usize) -> RequestFault
        ensures { result ≡ refused self place }
    {
        RequestFault { why: self, place }
    }

    // Writes what this says at a place.
    fn tell<W: fmt::Write>(self, at: usize, f: &mut fmt::Formatter<W>) -> fmt::Result {
        match self {
            Self::Malformed => write!(f, "byte {at} begins no field that can stand there"),
            Self::NotText => write!(f, "the text at byte {at} is not UTF-8"),
            Self::TooLongText => write!(f, "a text at byte {at} has more than 1024 bytes"),
            Self::NoService => write!(f, "resource {at} names no service"),
            Self::NoInstance => write!(f, "resource {at} names no instance"),
            Self::NotUuid => write!(f, "the instance of resource {at} is no UUID"),
            Self::ScopeTwice => write!(f, "scope {at} comes in two versions"),
            Self::ExponentialHistogram => write!(f, "metric {at} is an exponential histogram"),
            Self::Summary => write!(f, "metric {at} is a summary"),
            Self::NoData => write!(f, "metric {at} has no data"),
            Self::Delta => write!(f, "metric {at} is told as deltas"),
            Self::NoTemporality => write!(f, "metric {at} has no temporality"),
            Self::NoRecordedValue => write!(f, "point {at} has no recorded value"),
            Self::UnknownStart => write!(f, "the start of point {at} is not known"),
            Self::FloatValue => write!(f, "the value of point {at} is a double"),
            Self::NoValue => write!(f, "point {at} has no value"),
            Self::NoSum => write!(f, "point {at} has no sum"),
            Self::NotWhole => write!(f, "a double of point {at} is no whole number"),
            Self::Inexact => write!(f, "a double of point {at} is not exact"),
            Self::BadBounds => write!(f, "the bounds of point {at} do not rise"),
            Self::HalfRange => write!(f, "point {at} has half a range"),
            Self::TooManyAttributes => write!(f, "point {at} has more than 128 attributes"),
            Self::EmptyKey => write!(f, "an attribute of point {at} has no key"),
            Self::AttributeTwice => write!(f, "two attributes of point {at} have one key"),
            Self::AttributeValue => write!(f, "an attribute of point {at} has another value"),
            Self::BadExport(fault) => write!(f, "export {at}: {fault}"),
            Self::NoMemory => write!(f, "no memory"),
        }
    }
}

impl fmt::Display for RequestFault {
    fn fmt<W: fmt::Write>(&self, f: &mut fmt::Formatter<W>) -> fmt::Result {
        self.why.tell(self.place, f)
    }
}

impl From<NoMemory> for RequestFault {
    ghost use Rattle.otlp_kit.specs.declared.request_fault.RequestReason.TheVariants as reasons;

    ghost from_gives = { λ _ e. e ≡ refused reasons.NoMemory 0 };

    fn from(_error: NoMemory) -> RequestFault {
        RequestReason::NoMemory.at(0)
    }
}

impl From<AllocError> for RequestFault {
    ghost use Rattle.otlp_kit.specs.declared.request_fault.RequestReason.TheVariants as reasons;

    ghost from_gives = { λ _ e. e ≡ refused reasons.NoMemory 0 };

    fn from(_error: AllocError) -> RequestFault {
        RequestReason::NoMemory.at(0)
    }
}
