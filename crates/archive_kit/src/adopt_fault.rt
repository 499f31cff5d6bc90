//! Why an incarnation is not adopted.
ghost use Rattle.std.specs.Prelude.{◌≡◌};

use attr_kit::NoMemory;
use thiserror::Error;

/// Why an archive does not adopt an incarnation, in the order in which it is looked for.
#[derive(Clone, Copy, Debug, PartialEq, Eq, Error)]
pub enum AdoptFault {
    /// The incarnation is of another service.
    #[error("it is of another service than the archive")]
    OtherService,
    /// It is the archive's own, or an archive's: it has a tombstone among its points.
    #[error("it is an archive's")]
    IsArchive,
    /// The archive adopted it before, be it in an incarnation of its own that is sealed.
    #[error("it was adopted before")]
    Adopted,
    /// No point of it is held.
    #[error("no point of it is held")]
    Nothing,
    /// Different payloads came of one of its keys at one time: two writers share the identity.
    #[error("a point of it is a conflict")]
    Conflict,
    /// Its points are not all of one collection.
    #[error("its points are not of one time")]
    Torn,
    /// No export has these points: the time is not after the start, or a payload is not sound in its stream.
    #[error("no export has these points")]
    Unsound,
    /// Its start or its time is at or above 2^63 - 1, or a total would leave its range. Where it is a total, a fresh incarnation of the
    /// archive can take it.
    #[error("a number leaves its range")]
    OutOfRange,
    /// The archive would have more totals than its limit.
    #[error("there would be more totals than the limit")]
    SetLimit,
    /// Memory was refused.
    #[error("no memory")]
    NoMemory,
}

impl From<NoMemory> for AdoptFault {
    ghost use Rattle.archive_kit.specs.declared.adopt_fault.AdoptFault.TheVariants as faults;

    ghost from_gives = { λ _ e. e ≡ faults.NoMemory };

    fn from(_error: NoMemory) -> AdoptFault {
        AdoptFault::NoMemory
    }
}
