//! What is kept of items beside them.
ghost use Rattle.std.specs.Prelude.{◌≡◌, ◌+◌, ◌<◌, ◌^◌, max};
ghost use Rattle.gateway_kit.specs.Tallies.{conflict};

use crate::cells::conflict_of;
use point_kit::Cell;

/// What an incarnation keeps of its items.
#[derive(Clone, Copy, Debug, Drop)]
pub(crate) struct Tally {
    /// The greatest time that is held, 0 of no items.
    pub(crate) newest: u64,
    /// How many items are conflicts.
    pub(crate) conflicts: u64,
}

impl Tally {
    pub(crate) const NONE: Tally = Tally {
        newest: 0,
        conflicts: 0,
    };

    /// The tally with one item more.
    pub(crate) fn and(self, cell: &Cell) -> Tally
        requires { self.conflicts < 2 ^ 63 }
        ensures newest { result.newest ≡ max self.newest cell.now.time }
        ensures conflicts { result.conflicts ≡ self.conflicts + conflict cell.now }
    {
        Tally {
            newest: self.newest.max(cell.time),
            conflicts: self.conflicts + conflict_of(cell),
        }
    }
}
