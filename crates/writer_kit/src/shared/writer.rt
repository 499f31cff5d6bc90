//! The shared writer.
ghost use Rattle.std.specs.Prelude.{◌≡◌};

use crate::Writer;
use std::ops::Deref;
use turn_kit::{Turn, Waking};

/// A writer that threads record with, collect from and look at, each by a seat of its own.
///
/// What is accepted stands in one history, a list of (seat number, [`WriterChange`]). Each round has all that the writer
/// had when it was shared and all recordings before it in the history, whichever threads made them, and nothing else.
///
/// A call holds the turn while it works, so one call is one change. `take_in` with a small `most` lets others get in
/// between the pieces of a log: a collection there has the pieces before it, what others recorded before it, and
/// nothing of the pieces behind it.
///
/// A change is refused for one of three causes ([`ChangeFault`](turn_kit::ChangeFault)), looked for in this order. A
/// refusal changes nothing.
/// - `Busy`: the turn is held. Only calls that begin with `try_` answer it, and never to the first seat before its first split.
/// - `Exhausted`: as many changes were accepted as the limit allows.
/// - `Refused`: the writer refuses, and says why.
///
/// Beside what the writer's own call takes, a change takes O(1) atomic steps and no memory.
///
/// It is a [`Turn`] over a writer, whose calls on seats are its own: `note`, `hear`, `join`, `try_split` and `split`. `G` says
/// how its turn is given back, as there.
#[derive(Drop)]
pub struct SharedWriter<G = Waking> {
    pub(crate) turn: Turn<Writer, G>,
}

impl<G> Deref for SharedWriter<G> {
    type Target = Turn<Writer, G>;

    ghost deref_gives = { λ shared turn. turn ≡ shared.turn };

    fn deref(&self) -> &Turn<Writer, G> {
        &self.turn
    }
}
