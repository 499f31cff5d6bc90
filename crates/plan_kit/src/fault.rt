//! Why instruments and views make no plan.
ghost use Rattle.std.specs.Prelude.{◌≡◌};

use attr_kit::NoMemory;
use thiserror::Error;

/// Why instruments and views make no plan, in the order in which it is looked for. Places count from 0, and each is the
/// least at which the refusal fits.
#[derive(Debug, PartialEq, Eq, Drop, Error)]
pub enum PlanFault {
    /// The name of this instrument breaks the rule of names.
    #[error("the name of instrument {0} breaks the rule of names")]
    BadName(usize),
    /// The unit of this instrument has more than 63 characters, or one that is not of ASCII.
    #[error("the unit of instrument {0} breaks the rule of units")]
    BadUnit(usize),
    /// The bounds of this view do not strictly rise, or are more than 1,024.
    #[error("the bounds of view {0} do not strictly rise, or are too many")]
    BadBounds(usize),
    /// The new name that this view gives breaks the rule of names.
    #[error("the new name of view {0} breaks the rule of names")]
    BadRename(usize),
    /// This view matches every name, and gives a new one.
    #[error("view {0} gives every name a new one")]
    WildcardRename(usize),
    /// This instrument is matched by this view, whose aggregation does not fit its kind: the least instrument, and then the
    /// least view.
    #[error("the aggregation of view {1} does not fit instrument {0}")]
    BadAggregation(usize, usize),
    /// A feed of the first instrument and one of the second have one stream: the least second, and then the least first.
    /// Both are one instrument where two feeds of its own have one. An instrument equal to an earlier one has no feeds of its
    /// own.
    #[error("instruments {0} and {1} feed one stream")]
    SameStream(usize, usize),
    /// The limit is 0.
    #[error("the limit is 0")]
    BadLimit,
    /// Memory was refused.
    #[error("no memory")]
    NoMemory,
}

impl From<NoMemory> for PlanFault {
    ghost use Rattle.plan_kit.specs.declared.fault.PlanFault.TheVariants as faults;

    ghost from_gives = { λ _ e. e ≡ faults.NoMemory };

    fn from(_error: NoMemory) -> PlanFault {
        PlanFault::NoMemory
    }
}
