//! Why an export or a push is refused.
ghost use Rattle.std.specs.Prelude.{◌≡◌};

use attr_kit::NoMemory;
use thiserror::Error;
use writer_kit::CollectFault;

/// An exporter did not take an export.
#[derive(Clone, Copy, Debug, PartialEq, Eq, Error)]
#[error("the exporter refused")]
pub struct ExportRefused;

/// Why a push is refused, in the order in which it is looked for; `NoMemory` comes before the exporter is called.
#[derive(Debug, PartialEq, Eq, Drop, Error)]
pub enum TickFault {
    /// The writer was shut down, and not restarted since.
    #[error("the writer is closed")]
    Closed,
    /// The time is at most that of the last collection, or at most the start where there was none since; it is carried.
    #[error("the time is not after {0}, the last collection or the start")]
    TimeNotAfter(u64),
    /// The exporter failed in this call. The writer is collected all the same, and its next collection covers this one.
    #[error("the exporter refused")]
    ExportRefused,
    /// Memory was refused, other than the exporter's own.
    #[error("no memory")]
    NoMemory,
}

impl From<CollectFault> for TickFault {
    ghost use Rattle.push_kit.specs.Faults.{tick_fault};

    ghost from_gives = { λ fault e. e ≡ tick_fault fault };

    fn from(fault: CollectFault) -> TickFault {
        match fault {
            CollectFault::Closed => TickFault::Closed,
            CollectFault::TimeNotAfter(last) => TickFault::TimeNotAfter(last),
            CollectFault::NoMemory => TickFault::NoMemory,
        }
    }
}

impl From<NoMemory> for TickFault {
    ghost use Rattle.push_kit.specs.declared.fault.TickFault.TheVariants as faults;

    ghost from_gives = { λ _ e. e ≡ faults.NoMemory };

    fn from(_error: NoMemory) -> TickFault {
        TickFault::NoMemory
    }
}

impl From<ExportRefused> for TickFault {
    ghost use Rattle.push_kit.specs.declared.fault.TickFault.TheVariants as faults;

    ghost from_gives = { λ _ e. e ≡ faults.ExportRefused };

    fn from(_refused: ExportRefused) -> TickFault {
        TickFault::ExportRefused
    }
}
