//! Why a fleet's totals are not told.
ghost use Rattle.std.specs.Prelude.{◌≡◌, Some};
ghost use Rattle.otm_kit.specs.FleetTexts.{end_text};

use attr_kit::NoMemory;
use fleet_kit::FleetFault;
use std::fmt;
use thiserror::Error;

/// Why a fleet's totals are not told. It prints as the text that the program writes for it.
#[derive(Debug, PartialEq, Eq, Drop, Error)]
pub enum FleetEnd {
    /// The fleet gave no answer, for another cause than memory; nothing was written.
    Fleet(FleetFault),
    /// A write failed, or took no byte; a front of the text was written.
    WriteFault,
    /// Memory was refused; nothing was written.
    NoMemory,
}

impl fmt::Display for FleetEnd {
    ghost output = { λ end. Some (end_text end) };

    fn fmt<W: fmt::Write>(&self, f: &mut fmt::Formatter<W>) -> fmt::Result {
        match self {
            FleetEnd::Fleet(FleetFault::Missing { gateway, writer }) => {
                write!(
                    f,
                    "missing gateway {} writer {writer}",
                    *gateway as u128 + 1
                )
            }
            FleetEnd::Fleet(_) => write!(f, "fleet failed"),
            FleetEnd::WriteFault => write!(f, "write failed"),
            FleetEnd::NoMemory => write!(f, "no memory"),
        }
    }
}

impl From<NoMemory> for FleetEnd {
    ghost use Rattle.otm_kit.specs.declared.fleet_end.FleetEnd.TheVariants as ends;

    ghost from_gives = { λ _ e. e ≡ ends.NoMemory };

    fn from(_error: NoMemory) -> FleetEnd {
        FleetEnd::NoMemory
    }
}

impl From<FleetFault> for FleetEnd {
    ghost use Rattle.otm_kit.specs.FleetTexts.{end_of_fault};

    ghost from_gives = { λ fault e. e ≡ end_of_fault fault };

    fn from(fault: FleetFault) -> FleetEnd {
        match fault {
            FleetFault::NoMemory => FleetEnd::NoMemory,
            fault => FleetEnd::Fleet(fault),
        }
    }
}
