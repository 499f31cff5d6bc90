//! What a point is of.
ghost use Rattle.std.specs.Prelude.{◌≡◌, IfOk};

use crate::{Stream, WriterId};
use attr_kit::{AttrSet, NoMemory};

/// What a point is of: its writer, the start of the incarnation that wrote it, in nanoseconds since the Unix epoch, its
/// stream and its attributes. A restart has a new start (Metrics Data Model, "Resets and Gaps"), so the points of an
/// earlier incarnation keep keys of their own. Ordered by these parts from left to right.
#[derive(Debug, PartialEq, Eq, PartialOrd, Ord, Hash, Drop)]
pub struct Key {
    pub writer: WriterId,
    pub start: u64,
    pub stream: Stream,
    pub attrs: AttrSet,
}

impl Key {
    /// An equal key.
    pub fn try_copy(&self) -> Result<Key, NoMemory>
        ensures value { IfOk result (λ copy. copy ≡ self.now) }
    {
        Ok(Key {
            writer: self.writer.try_copy()?,
            start: self.start,
            stream: self.stream.try_copy()?,
            attrs: self.attrs.try_copy()?,
        })
    }
}
