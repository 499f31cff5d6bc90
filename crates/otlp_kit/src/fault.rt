//! Why an export has no request.
ghost use Rattle.std.specs.Prelude.{◌≡◌};

use attr_kit::NoMemory;
use std::alloc::AllocError;
use thiserror::Error;

/// Why an export has no request, in the order in which it is looked for.
#[derive(Clone, Copy, Debug, PartialEq, Eq, Error)]
pub enum OtlpFault {
    /// The bounds of the point at this place, the least such, do not rise as doubles: two of them side by side are equal,
    /// or fall, or become the same double. OTLP asks for bounds that strictly rise.
    #[error("the bounds of point {0} do not rise as doubles")]
    BadBounds(usize),
    /// The service, or the scope, the name or the unit of a point, has more than 1,024 bytes.
    #[error("a service, a scope, a name or a unit has more than 1024 bytes")]
    TooLongText,
    /// The point at this place, the first such, has more than 128 attributes.
    #[error("point {0} has more than 128 attributes")]
    TooManyAttributes(usize),
    /// The request has more than 2^31 - 1 bytes, the most that a message of Protocol Buffers may have.
    #[error("the request has more than 2147483647 bytes")]
    TooLong,
    /// Memory was refused.
    #[error("no memory")]
    NoMemory,
}

impl From<NoMemory> for OtlpFault {
    ghost use Rattle.otlp_kit.specs.declared.fault.OtlpFault.TheVariants as faults;

    ghost from_gives = { λ _ e. e ≡ faults.NoMemory };

    fn from(_error: NoMemory) -> OtlpFault {
        OtlpFault::NoMemory
    }
}

impl From<AllocError> for OtlpFault {
    ghost use Rattle.otlp_kit.specs.declared.fault.OtlpFault.TheVariants as faults;

    ghost from_gives = { λ _ e. e ≡ faults.NoMemory };

    fn from(_error: AllocError) -> OtlpFault {
        OtlpFault::NoMemory
    }
}
