//! Why a message is refused.
use attr_kit::NoMemory;
use thiserror::Error;

/// Why a message is refused, in the order in which it is looked for.
#[derive(Debug, PartialEq, Eq, Error, Drop)]
pub enum HandFault {
    /// The message goes to another id.
    #[error("NotAddressed")]
    NotAddressed,
    /// Memory was refused.
    #[error("NoMemory")]
    NoMemory,
}

impl From<NoMemory> for HandFault {
    ghost use Rattle.std.specs.Prelude.{◌≡◌};
    ghost use Rattle.gossip_kit.specs.declared.fault.HandFault.TheVariants as faults;

    ghost from_gives = { λ _ e. e ≡ faults.NoMemory };

    fn from(_error: NoMemory) -> HandFault {
        HandFault::NoMemory
    }
}
