//! Why instruments and views make no plan beside archives.
ghost use Rattle.std.specs.Prelude.{◌≡◌};

use plan_kit::PlanFault;
use thiserror::Error;

/// Why instruments and views make no plan beside archives, in the order in which it is looked for.
#[derive(Debug, PartialEq, Eq, Drop, Error)]
pub enum PlanRefusal {
    /// They make no plan at all, or memory was refused.
    #[error(transparent)]
    Plan(PlanFault),
    /// This instrument, the least such, has the scope of tombstones.
    #[error("instrument {0} has the scope of tombstones")]
    ReservedScope(usize),
}

impl From<PlanFault> for PlanRefusal {
    ghost use Rattle.archive_kit.specs.declared.plan_refusal.PlanRefusal.TheVariants as refusals;

    ghost from_gives = { λ fault e. e ≡ refusals.Plan fault };

    fn from(fault: PlanFault) -> PlanRefusal {
        PlanRefusal::Plan(fault)
    }
}
