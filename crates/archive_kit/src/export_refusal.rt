//! Why an archive makes no export.
ghost use Rattle.std.specs.Prelude.{◌≡◌};

use attr_kit::NoMemory;
use thiserror::Error;

/// Why an archive makes no export, in the order in which it is looked for.
#[derive(Clone, Copy, Debug, PartialEq, Eq, Error)]
pub enum ExportRefusal {
    /// The time is not later than that of the last export, or than the start.
    #[error("the time is not later than that of the last export")]
    TimeNotLater,
    /// Memory was refused.
    #[error("no memory")]
    NoMemory,
}

impl From<NoMemory> for ExportRefusal {
    ghost use Rattle.archive_kit.specs.declared.export_refusal.ExportRefusal.TheVariants as faults;

    ghost from_gives = { λ _ e. e ≡ faults.NoMemory };

    fn from(_error: NoMemory) -> ExportRefusal {
        ExportRefusal::NoMemory
    }
}
