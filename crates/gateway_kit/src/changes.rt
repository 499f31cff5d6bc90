//! What an incarnation is to be changed by.
ghost use Rattle.std.specs.Prelude.{◌≡◌, [], IsTrue, map};
ghost use Rattle.std.specs.FinMap.Entries.{is_sorted};
ghost use Rattle.gateway_kit.specs.Keys.{keyed_cell_of, item_cmp};

use crate::part_item::PartItem;
use point_kit::Cell;

/// What an incarnation is to be changed by: all copies and all room are there, so that installing needs no memory.
#[derive(Drop)]
pub(crate) struct Changes {
    /// The places of the items that change, and their new cells.
    pub(crate) updates: Vec<(usize, Cell)>,
    /// The items whose keys are new, in the order of their keys.
    pub(crate) fresh: Vec<PartItem>,
    /// Where there are new items: room for them and for those that are there.
    pub(crate) room: Vec<PartItem>,
    ghost sorted: { IsTrue (is_sorted item_cmp (map keyed_cell_of fresh.items)) },
    ghost empty: { room.items ≡ [] },
}
