//! Streams as a report names them, and which one is near another.
use crate::short_word::ShortWord;
use indexmap::IndexSet;
use point_kit::{Shape, Stream};
use script_kit::DEFAULT_BOUNDS;
use std::fmt;

/// How many bounds of a histogram are told.
const MOST_BOUNDS: usize = 5;

/// How far a stream may be from another one that is near it.
const FARTHEST: u8 = 4;

/// A stream, which prints as the four words by which a report asks for it.
#[derive(Clone, Copy)]
pub(crate) struct NamedStream<'a> {
    stream: &'a Stream,
}

impl<'a> NamedStream<'a> {
    pub(crate) fn new(stream: &'a Stream) -> NamedStream<'a> {
        NamedStream { stream }
    }
}

impl fmt::Display for NamedStream<'_> {
    fn fmt<W: fmt::Write>(&self, f: &mut fmt::Formatter<W>) -> fmt::Result {
        let scope = ShortWord::new(self.stream.scope.as_str());
        let name = ShortWord::new(self.stream.name.as_str());
        let unit = ShortWord::new(self.stream.unit.as_str());
        write!(f, "{scope} {name} {unit} ")?;
        match &self.stream.shape {
            Shape::Sum { monotonic: true } => write!(f, "sum+"),
            Shape::Sum { monotonic: false } => write!(f, "sum"),
            Shape::Gauge => write!(f, "gauge"),
            Shape::Histogram { bounds } => write_histogram(f, bounds.as_slice()),
        }
    }
}

// The word of a histogram's shape. Of many bounds the first are told, and `..`.
fn write_histogram<W: fmt::Write>(f: &mut fmt::Formatter<W>, bounds: &[i64]) -> fmt::Result {
    if bounds == DEFAULT_BOUNDS.as_slice() {
        return write!(f, "hist");
    }
    write!(f, "hist:")?;
    for (place, bound) in bounds.iter().enumerate() {
        if place == MOST_BOUNDS {
            return write!(f, "..");
        }
        if place > 0 {
            write!(f, ",")?;
        }
        write!(f, "{bound}")?;
    }
    Ok(())
}

// How far a stream is from another one: a step for each part that differs, and four for a name that differs in more than its
// capitals.
fn distance(stream: &Stream, other: &Stream) -> u8 {
    let name = if stream.name == other.name {
        0
    } else if stream
        .name
        .as_str()
        .eq_ignore_ascii_case(other.name.as_str())
    {
        1
    } else {
        4
    };
    name + u8::from(stream.scope != other.scope)
        + u8::from(stream.unit != other.unit)
        + u8::from(stream.shape != other.shape)
}

/// The first of the streams that are nearest to one which is none of them: of its name but for capitals, or with all else alike.
/// O(n) for n streams.
pub(crate) fn nearest<'a>(stream: &Stream, streams: &'a IndexSet<Stream>) -> Option<&'a Stream> {
    let mut found = None;
    let mut least = FARTHEST + 1;
    for other in streams {
        let steps = distance(stream, other);
        if steps < least {
            least = steps;
            found = Some(other);
        }
    }
    found
}
