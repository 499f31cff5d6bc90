//! Streams whose texts and bounds lie in an arena.
ghost use Rattle.std.specs.Prelude.{◌≡◌, IfOk, IsTrue};
ghost use Rattle.round_kit.specs.Placed.{shape_of, stream_of};

use attr_kit::{NoMemory, Seq, Txt};
use bumpalo::Bump;
use point_kit::{Shape, Stream};
use std::alloc::Global;

/// A shape, its bounds in an arena.
#[derive(Clone, Copy, Debug)]
pub enum RoundShape<'b> {
    Sum { monotonic: bool },
    Gauge,
    Histogram { bounds: &'b [i64] },
}

impl<'b> RoundShape<'b> {
    fn place(bump: &'b Bump, shape: &Shape) -> Result<RoundShape<'b>, NoMemory>
        ensures { IfOk result (λ placed. shape_of placed ≡ shape.now) }
    {
        Ok(match shape {
            Shape::Sum { monotonic } => RoundShape::Sum {
                monotonic: *monotonic,
            },
            Shape::Gauge => RoundShape::Gauge,
            Shape::Histogram { bounds } => RoundShape::Histogram {
                bounds: bump.try_alloc_slice_copy(bounds.as_slice())?,
            },
        })
    }

    fn is(&self, shape: &Shape) -> bool
        ensures { IsTrue result → shape_of self.now ≡ shape.now }
    {
        match (self, shape) {
            (RoundShape::Sum { monotonic }, Shape::Sum { monotonic: other }) => monotonic == other,
            (RoundShape::Gauge, Shape::Gauge) => true,
            (RoundShape::Histogram { bounds }, Shape::Histogram { bounds: other }) => {
                *bounds == other.as_slice()
            }
            _ => false,
        }
    }

    fn copy_out(&self, alloc: Global) -> Result<Shape, NoMemory>
        ensures { IfOk result (λ shape. shape ≡ shape_of self.now) }
    {
        Ok(match self {
            RoundShape::Sum { monotonic } => Shape::Sum {
                monotonic: *monotonic,
            },
            RoundShape::Gauge => Shape::Gauge,
            RoundShape::Histogram { bounds } => Shape::Histogram {
                bounds: Seq::from_vec(Vec::from_slice(alloc, bounds)?),
            },
        })
    }
}

/// A stream, its texts in an arena.
#[derive(Clone, Copy, Debug)]
pub struct RoundStream<'b> {
    pub scope: &'b str,
    pub name: &'b str,
    pub unit: &'b str,
    pub shape: RoundShape<'b>,
}

impl<'b> RoundStream<'b> {
    pub(crate) fn place(bump: &'b Bump, stream: &Stream) -> Result<RoundStream<'b>, NoMemory>
        ensures { IfOk result (λ placed. stream_of placed ≡ stream.now) }
    {
        Ok(RoundStream {
            scope: bump.try_alloc_str(stream.scope.as_str())?,
            name: bump.try_alloc_str(stream.name.as_str())?,
            unit: bump.try_alloc_str(stream.unit.as_str())?,
            shape: RoundShape::place(bump, &stream.shape)?,
        })
    }

    /// Whether the texts and the shape are those of a stream.
    pub(crate) fn is(&self, stream: &Stream) -> bool
        ensures { IsTrue result → stream_of self.now ≡ stream.now }
    {
        self.scope == stream.scope.as_str()
            && self.name == stream.name.as_str()
            && self.unit == stream.unit.as_str()
            && self.shape.is(&stream.shape)
    }

    pub(crate) fn copy_out(&self, alloc: Global) -> Result<Stream, NoMemory>
        ensures { IfOk result (λ stream. stream ≡ stream_of self.now) }
    {
        Ok(Stream {
            scope: Txt::from_str(alloc, self.scope)?,
            name: Txt::from_str(alloc, self.name)?,
            unit: Txt::from_str(alloc, self.unit)?,
            shape: self.shape.copy_out(alloc)?,
        })
    }
}
