//! How a gateway grows.
ghost use Rattle.std.specs.Prelude.{◌<◌};

use std::alloc::AllocFailed;

/// The greatest number of points that a gateway holds.
pub(crate) const MOST_POINTS: usize = 1 << 62;

/// How many keys are new, how many changed, the new ones among them, and how the number of conflicts changes.
#[derive(Clone, Copy)]
pub(crate) struct Growth {
    pub(crate) more: usize,
    pub(crate) changed: u64,
    /// How many conflicts there were among the incarnations that grew.
    pub(crate) before: u64,
    /// How many there are.
    pub(crate) after: u64,
}
