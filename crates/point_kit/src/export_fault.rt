//! Why no export was built.
ghost use Rattle.std.specs.Prelude.{◌≡◌};

use attr_kit::NoMemory;
use thiserror::Error;

/// Why points make no export, in the order in which it is looked for. A place counts from 0, and is the least at which
/// the refusal fits.
#[derive(Clone, Copy, Debug, PartialEq, Eq, Error)]
pub enum ExportFault {
    /// The time of the collection is not after the start.
    #[error("the time is not after the start")]
    TimeNotAfterStart,
    /// An earlier point has the stream and the attributes of this one.
    #[error("point {0} has the key of an earlier point")]
    KeyTwice(usize),
    /// The payload's variant is not that of the stream's shape.
    #[error("the payload of point {0} is not of its stream's shape")]
    WrongShape(usize),
    /// A histogram has not one bucket more than its stream has bounds.
    #[error("point {0} has not one bucket more than bounds")]
    BucketCount(usize),
    /// The buckets of a histogram do not add up to its count.
    #[error("the buckets of point {0} do not add up to its count")]
    CountMismatch(usize),
    /// A monotonic sum, or the sum of a histogram, is below 0.
    #[error("the total of point {0} is below 0")]
    NegativeTotal(usize),
    /// A histogram of no values has a range, or the least of a range is above the greatest.
    #[error("the range of point {0} is not one of its values")]
    BadRange(usize),
    /// Memory was refused.
    #[error("no memory")]
    NoMemory,
}

impl From<NoMemory> for ExportFault {
    ghost use Rattle.point_kit.specs.declared.export_fault.ExportFault.TheVariants as faults;

    ghost from_gives = { λ _ e. e ≡ faults.NoMemory };

    fn from(_error: NoMemory) -> ExportFault {
        ExportFault::NoMemory
    }
}
