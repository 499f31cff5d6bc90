//! Why no world is made.
ghost use Rattle.std.specs.Prelude.{Some};
ghost use Rattle.world_kit.specs.Texts.{setup_text};

use attr_kit::NoMemory;
use std::fmt;
use thiserror::Error;

/// Why a setup makes no world, in the order in which it is looked for. It prints as its name, with its numbers in
/// parentheses: `SameGateway(0, 2)`.
#[derive(Debug, PartialEq, Eq, Error, Drop)]
pub enum SetupFault {
    /// The gateways at these two places, the lesser first, have one id. It is the least second place, and for it the
    /// least first one.
    SameGateway(usize, usize),
    /// Memory was refused.
    NoMemory,
}

impl fmt::Display for SetupFault {
    ghost output = { λ fault. Some (setup_text fault) };

    fn fmt<W: fmt::Write>(&self, f: &mut fmt::Formatter<W>) -> fmt::Result {
        match self {
            SetupFault::SameGateway(first, second) => write!(f, "SameGateway({first}, {second})"),
            SetupFault::NoMemory => write!(f, "NoMemory"),
        }
    }
}

impl From<NoMemory> for SetupFault {
    ghost use Rattle.std.specs.Prelude.{◌≡◌};
    ghost use Rattle.world_kit.specs.declared.fault.SetupFault.TheVariants as faults;

    ghost from_gives = { λ _ e. e ≡ faults.NoMemory };

    fn from(_error: NoMemory) -> SetupFault {
        SetupFault::NoMemory
    }
}

/// Why a schedule was not done to its end. Its world is given up.
#[derive(Debug, PartialEq, Eq, Error, Drop)]
pub enum ReplayFault {
    /// The gateways at these two places have one id.
    #[error("SameGateway({0}, {1})")]
    SameGateway(usize, usize),
    /// Memory was refused after so many events were done.
    #[error("NoMemory({0})")]
    NoMemory(usize),
}

impl From<SetupFault> for ReplayFault {
    ghost use Rattle.std.specs.Prelude.{◌≡◌};
    ghost use Rattle.world_kit.specs.Faults.{before_any};

    ghost from_gives = { λ fault e. e ≡ before_any fault };

    fn from(fault: SetupFault) -> ReplayFault {
        match fault {
            SetupFault::SameGateway(first, second) => ReplayFault::SameGateway(first, second),
            SetupFault::NoMemory => ReplayFault::NoMemory(0),
        }
    }
}
