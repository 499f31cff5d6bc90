//! What a node forgets once tombstones name it.
ghost use Rattle.std.specs.Prelude.{◌≡◌};
ghost use Rattle.archive_kit.specs.Stepping.{Drops, is_gone};
ghost use Rattle.archive_kit.specs.Tombstones.{tombstones};

use gossip_kit::Node;
use point_kit::{SharedStream, WriterId};

/// An incarnation of which a node is to hold tombstones alone.
#[derive(Debug, Drop)]
pub(crate) struct Gone {
    pub(crate) writer: WriterId,
    pub(crate) start: u64,
}

/// Drops what of incarnations is no tombstone. Takes no memory.
pub(crate) fn forget_all(node: &mut Node, gone: &[Gone], stream: &SharedStream)
    requires { stream.now ≡ tombstones }
    ensures { Drops (is_gone gone.now) node.old node.new }
{
    for incarnation in gone {
        node.forget_but(&incarnation.writer, incarnation.start, stream);
    }
}
