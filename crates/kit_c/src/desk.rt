//! A place at a writer that threads share.
ghost use Rattle.std.specs.Arc.{arc_value};
ghost use Rattle.kit_c.specs.Knowing.{Know};
ghost use Rattle.writer_kit.specs.Shared.{IsAt};

use crate::pairs::Pair;
use indexmap::IndexMap;
use std::alloc::Global;
use std::sync::Arc;
use turn_kit::{Quiet, Seat};
use writer_kit::{SharedWriter, Writer};

/// A place at a writer that threads share, with the numbers of the pairs that it knows to be held. It can't be used at another writer.
#[derive(Drop)]
pub struct Desk {
    pub(crate) writer: Arc<SharedWriter<Quiet>, Global>,
    pub(crate) seat: Seat<Writer>,
    pub(crate) numbers: IndexMap<Pair, usize>,
    ghost at: { IsAt (arc_value writer) seat },
    ghost known: { Know (arc_value writer) seat numbers.entries },
}
