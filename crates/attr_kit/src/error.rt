//! Want of memory, and why pairs make no set.
ghost use Rattle.std.specs.Prelude.{◌≡◌};

use std::alloc::{AllocError, AllocFailed};
use thiserror::Error;

/// Memory was refused. What was asked for is not done, and nothing has changed.
#[derive(Clone, Copy, Debug, PartialEq, Eq, Error)]
#[error("no memory")]
pub struct NoMemory;

impl From<AllocError> for NoMemory {
    fn from(_error: AllocError) -> NoMemory {
        NoMemory
    }
}

impl<T: Drop> From<AllocFailed<T>> for NoMemory {
    fn from(_error: AllocFailed<T>) -> NoMemory {
        NoMemory
    }
}

/// Why pairs make no attribute set, in the order in which it is looked for.
#[derive(Debug, PartialEq, Eq, Drop, Error)]
pub enum AttrFault {
    /// The pair at this place, the least such, has an empty key.
    #[error("the key of pair {0} is empty")]
    EmptyKey(usize),
    /// Memory was refused.
    #[error("no memory")]
    NoMemory,
}

impl From<NoMemory> for AttrFault {
    ghost use Rattle.attr_kit.specs.declared.error.AttrFault.TheVariants as faults;

    ghost from_gives = { λ _ e. e ≡ faults.NoMemory };

    fn from(_error: NoMemory) -> AttrFault {
        AttrFault::NoMemory
    }
}
