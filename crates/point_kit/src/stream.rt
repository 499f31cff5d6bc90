//! What a series of points is of.
ghost use Rattle.std.specs.Prelude.{◌≡◌, IfOk};

use crate::Shape;
use attr_kit::{NoMemory, Txt};

/// The identity of a metric stream: instrumentation scope, name, unit and shape (Metrics Data Model, "Timeseries
/// Model"; the bounds of a histogram are part of its shape). Ordered by these parts from left to right.
#[derive(Debug, PartialEq, Eq, PartialOrd, Ord, Hash, Drop)]
pub struct Stream {
    pub scope: Txt,
    pub name: Txt,
    pub unit: Txt,
    pub shape: Shape,
}

impl Stream {
    /// An equal stream.
    pub fn try_copy(&self) -> Result<Stream, NoMemory>
        ensures value { IfOk result (λ copy. copy ≡ self.now) }
    {
        Ok(Stream {
            scope: self.scope.try_copy()?,
            name: self.name.try_copy()?,
            unit: self.unit.try_copy()?,
            shape: self.shape.try_copy()?,
        })
    }
}
