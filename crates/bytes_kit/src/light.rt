//! What is copied or compared for each of its uses at little cost, so that few bytes may stand for it again and again.
ghost use Rattle.std.specs.Prelude.{◌≡◌};
ghost use Rattle.bytes_kit.specs.Past.{has_few_bounds, is_light, is_short};

use attr_kit::Txt;
use point_kit::{Shape, Stream};

/// So long is a text that has a place, and so many are the bounds of a stream that is shared.
pub(crate) const LONGEST: usize = 64;

/// Whether a text is copied at little cost.
pub(crate) fn is_short(text: &Txt) -> bool
    ensures { result ≡ is_short text.now }
{
    text.as_str().len() <= LONGEST
}

fn has_few_bounds(shape: &Shape) -> bool
    ensures { result ≡ has_few_bounds shape.now }
{
    match shape {
        Shape::Histogram { bounds } => bounds.len() <= LONGEST,
        _ => true,
    }
}

/// Whether a stream is copied at little cost. O(1).
pub(crate) fn is_light(stream: &Stream) -> bool
    ensures { result ≡ is_light stream.now }
{
    is_short(&stream.scope)
        && is_short(&stream.name)
        && is_short(&stream.unit)
        && has_few_bounds(&stream.shape)
}
