//! Why a line is not read.
use crate::reason::Reason;
use attr_kit::NoMemory;
use std::alloc::AllocError;

/// Why a line is not read, or not done.
#[derive(Clone, Copy, Debug, PartialEq, Eq)]
pub enum Stop {
    /// It is bad.
    Bad(Reason),
    /// Memory was refused.
    NoMemory,
}

impl From<Reason> for Stop {
    ghost use Rattle.std.specs.Prelude.{◌≡◌};
    ghost use Rattle.script_kit.specs.declared.stop.Stop.TheVariants as stops;

    ghost from_gives = { λ why stop. stop ≡ stops.Bad why };

    fn from(why: Reason) -> Stop {
        Stop::Bad(why)
    }
}

impl From<NoMemory> for Stop {
    ghost use Rattle.std.specs.Prelude.{◌≡◌};
    ghost use Rattle.script_kit.specs.declared.stop.Stop.TheVariants as stops;

    ghost from_gives = { λ _ stop. stop ≡ stops.NoMemory };

    fn from(_error: NoMemory) -> Stop {
        Stop::NoMemory
    }
}

impl From<AllocError> for Stop {
    ghost use Rattle.std.specs.Prelude.{◌≡◌};
    ghost use Rattle.script_kit.specs.declared.stop.Stop.TheVariants as stops;

    ghost from_gives = { λ _ stop. stop ≡ stops.NoMemory };

    fn from(_error: AllocError) -> Stop {
        Stop::NoMemory
    }
}
