//! Streams as lines that ask for them, and their tables.
ghost use Rattle.std.specs.Prelude.{◌≡◌, ◌++◌, IfOk, OnOk, string_bytes};
ghost use Rattle.std.specs.List.{flat_map};
ghost use Rattle.rollup_kit.specs.RowText.{comma_before};
ghost use Rattle.file_kit.specs.Shown.{all_of, bounds_text, shape_text, stream_line, stream_words, stream_text, streams_text};

use crate::word::push_spaced;
use attr_kit::{Keep, NoMemory, Seq};
use gateway_kit::Gateway;
use indexmap::IndexSet;
use point_kit::{Shape, Stream};
use rollup_kit::{Ask, rollup, streams_of, table};
use std::alloc::{AllocError, Global};

// What stands before the bound at this place.
fn comma_before(place: usize) -> &'static str
    ensures { result.now ≡ comma_before place }
{
    if place == 0 { "" } else { "," }
}

fn push_bounds(text: &mut String, bounds: &[i64]) -> Result<(), AllocError>
    ensures { OnOk result (string_bytes text.new ≡ string_bytes text.old ++ bounds_text bounds.now) }
{
    for (place, bound) in bounds.iter().enumerate() {
        text.push_str(comma_before(place))?;
        write!(text, "{bound}")?;
    }
    Ok(())
}

#[tactic(auto, unfolding(crate::specs::Shown::shape_text))]
fn push_shape(text: &mut String, shape: &Shape) -> Result<(), AllocError>
    ensures { OnOk result (string_bytes text.new ≡ string_bytes text.old ++ shape_text shape.now) }
{
    match shape {
        Shape::Sum { monotonic: true } => text.push_str("sum+"),
        Shape::Sum { monotonic: false } => text.push_str("sum"),
        Shape::Gauge => text.push_str("gauge"),
        Shape::Histogram { bounds } => {
            text.push_str("hist:")?;
            push_bounds(text, bounds.as_slice())
        }
    }
}

// The words of a report that name a stream, but for its shape.
#[tactic(auto, unfolding(crate::specs::Shown::stream_words))]
fn push_words(text: &mut String, stream: &Stream) -> Result<(), AllocError>
    ensures { OnOk result (string_bytes text.new ≡ string_bytes text.old ++ stream_words stream.now) }
{
    push_spaced(text, stream.scope.as_str())?;
    push_spaced(text, stream.name.as_str())?;
    push_spaced(text, stream.unit.as_str())
}

// All of them, as a line.
#[tactic(auto, unfolding(crate::specs::Shown::stream_line))]
fn push_stream(text: &mut String, stream: &Stream) -> Result<(), AllocError>
    ensures { OnOk result (string_bytes text.new ≡ string_bytes text.old ++ stream_line stream.now) }
{
    push_words(text, stream)?;
    push_shape(text, &stream.shape)?;
    text.push('\n')
}

// An ask of all points of a stream, each set of attributes apart.
fn all_of(alloc: Global, stream: &Stream) -> Result<Ask, NoMemory>
    ensures { IfOk result (λ ask. ask ≡ all_of stream.now) }
{
    Ok(Ask {
        stream: stream.try_copy()?,
        service: None,
        only: Seq::new(alloc),
        keep: Keep::All,
    })
}

// A stream, and the table of its points.
#[tactic(auto, unfolding(crate::specs::Shown::stream_text))]
fn push_table(
    text: &mut String,
    alloc: Global,
    gateway: &Gateway,
    stream: &Stream,
) -> Result<(), NoMemory>
    ensures { OnOk result (string_bytes text.new ≡ string_bytes text.old ++ stream_text gateway.now.points stream.now) }
{
    push_stream(text, stream)?;
    let rows = rollup(alloc, gateway, &all_of(alloc, stream)?)?;
    text.push_str(table(alloc, rows.as_slice())?.as_str())?;
    Ok(())
}

// Adds these streams, each with its table.
fn push_all(
    text: &mut String,
    alloc: Global,
    gateway: &Gateway,
    seen: &IndexSet<Stream>,
) -> Result<(), NoMemory>
    ensures { OnOk result (string_bytes text.new ≡ string_bytes text.old ++ flat_map (stream_text gateway.now.points) seen.now.keys) }
{
    for place in 0..seen.len() {
        if let Some(stream) = seen.get_index(place) {
            push_table(text, alloc, gateway, stream)?;
        }
    }
    Ok(())
}

/// Adds each stream of which a gateway holds points, in the order in which the points' keys name them first, with its table.
pub(crate) fn push_tables(
    text: &mut String,
    alloc: Global,
    gateway: &Gateway,
) -> Result<(), NoMemory>
    ensures { OnOk result (string_bytes text.new ≡ string_bytes text.old ++ streams_text gateway.now.points) }
{
    push_all(text, alloc, gateway, &streams_of(alloc, gateway)?)
}
