//! Why a recorder has no place for a recording.
ghost use Rattle.std.specs.Prelude.{◌≡◌};

use attr_kit::NoMemory;
use thiserror::Error;

/// Why a recorder has no place for a recording, in the order in which it is looked for. The log is as it was.
#[derive(Debug, PartialEq, Eq, Drop, Error)]
pub enum RecordFault {
    /// The log has as many recordings as it may, or the number is too great to be noted.
    #[error("the recorder is full")]
    Full,
    /// Memory was refused.
    #[error("no memory")]
    NoMemory,
}

impl From<NoMemory> for RecordFault {
    ghost use Rattle.recorder_kit.specs.declared.fault.RecordFault.TheVariants as faults;

    ghost from_gives = { λ _ e. e ≡ faults.NoMemory };

    fn from(_error: NoMemory) -> RecordFault {
        RecordFault::NoMemory
    }
}
