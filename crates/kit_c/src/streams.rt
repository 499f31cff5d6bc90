//! Streams of plans and of gateways, read by their numbers.
ghost use Rattle.std.specs.Prelude.{◌≡◌, ◌≢◌, ◌++◌, ◌∷◌, [], pos, length, slice_get, None, Some, IfSome, OnOk, OnErr, IfErr, IfOk};
ghost use Rattle.std.specs.Option.{option_map};
ghost use Rattle.attr_kit.specs.Refusing.{first};
ghost use Rattle.plan_kit.specs.Bounds.{default_bounds};
ghost use Rattle.kit_c.specs.Asks.{all_of};
ghost use Rattle.kit_c.specs.Calls.{code_for, filled, full_fault, if_any, of_one};
ghost use Rattle.kit_c.specs.Codes.{code_of, no_memory};
ghost use Rattle.kit_c.specs.Held.{ask_of, export_of, gateway_of, node_of, plan_of, streams_of};
ghost use Rattle.kit_c.specs.Items.{item_fault};
ghost use Rattle.kit_c.specs.Streams.{bounds_of, part_fault, shape_number, streams_brought, text_part};
ghost use Rattle.indexmap.specs.IndexSet.{insert_key};
ghost use Rattle.rollup_kit.specs.Streams.{stream_eq, streams_held};

use crate::ask::all;
use crate::content::Content;
use crate::fault::{FULL, Fault, NO_MEMORY, NOTHING, OK, WRONG_KIND};
use crate::list::item;
use crate::text::copy_front;
use crate::typed::{KitAsk, KitExport, KitGateway, KitPlan, KitStreams};
use crate::with::{fill, fill_or_tell, tell, with};
use attr_kit::{NoMemory, Seq};
use gateway_kit::Gateway;
use indexmap::IndexSet;
use plan_kit::Plan;
use point_kit::{Export, Shape, Stream};
use std::alloc::Global;

fn push_copy(copies: &mut Vec<Stream>, stream: &Stream) -> Result<(), NoMemory>
    ensures { OnOk result (copies.new.items ≡ copies.old.items ++ stream.now ∷ []) }
{
    copies.push(stream.try_copy()?)?;
    Ok(())
}

// Copies of the streams of a plan, in the order of their numbers.
fn streams(alloc: Global, plan: &Plan) -> Result<Seq<Stream>, NoMemory>
    ensures { IfOk result (λ copies. copies ≡ plan.now.streams) }
{
    let mut copies = Vec::with_capacity(alloc, plan.streams_len())?;
    for number in 0..plan.streams_len() {
        if let Some(stream) = plan.stream(number) {
            push_copy(&mut copies, stream)?;
        }
    }
    Ok(Seq::from_vec(copies))
}

/// The streams of a plan, which stays, under the numbers that `OVERFLOW` tells.
///
/// Refused, in this order: `FULL`; `NOTHING`; `NO_MEMORY`. O(streams).
#[unsafe(no_mangle)]
pub extern "C" fn kit_plan_streams(
    alloc: Global,
    plan: &mut KitPlan,
    streams: &mut KitStreams,
) -> i32
    ensures code { result ≢ no_memory
        → result ≡ code_for (first (full_fault (streams_of streams.old) ∷ of_one (plan_of plan.old) if_any ∷ [])) }
    ensures value { result ≡ pos 0 → streams_of streams.new ≡ option_map (λ p. p.streams) (plan_of plan.old) }
    ensures unchanged { result ≢ pos 0 → streams_of streams.new ≡ streams_of streams.old }
    ensures kept { plan_of plan.new ≡ plan_of plan.old }
{
    fill!(alloc, streams => with!(alloc, plan => Plan(held), self::streams(alloc, held)), made => Content::Streams(made))
}

fn copies_of(alloc: Global, seen: &IndexSet<Stream>) -> Result<Seq<Stream>, NoMemory>
    ensures { IfOk result (λ copies. copies ≡ seen.now.keys) }
{
    let mut copies = Vec::with_capacity(alloc, seen.len())?;
    for place in 0..seen.len() {
        if let Some(stream) = seen.get_index(place) {
            push_copy(&mut copies, stream)?;
        }
    }
    Ok(Seq::from_vec(copies))
}

// Notes a stream, once.
fn note(seen: &mut IndexSet<Stream>, stream: &Stream) -> Result<(), NoMemory>
    ensures { OnOk result (seen.new.keys ≡ insert_key stream_eq seen.old.keys stream.now) }
{
    if !seen.contains(stream) {
        seen.insert(stream.try_copy()?)?;
    }
    Ok(())
}

fn brought_streams(alloc: Global, export: &Export) -> Result<Seq<Stream>, NoMemory>
    ensures { IfOk result (λ copies. copies ≡ streams_brought export.now) }
{
    let mut seen = IndexSet::new(alloc);
    for point in export.points() {
        note(&mut seen, point.stream.get())?;
    }
    copies_of(alloc, &seen)
}

/// The streams of the points of an export, which stays: each once, in the order in which the points name them first.
///
/// Refused, in this order: `FULL`; `NOTHING`; `NO_MEMORY`. O(points), and memory for the streams alone.
#[unsafe(no_mangle)]
pub extern "C" fn kit_export_streams(
    alloc: Global,
    export: &mut KitExport,
    streams: &mut KitStreams,
) -> i32
    ensures code { result ≢ no_memory
        → result ≡ code_for (first (full_fault (streams_of streams.old) ∷ of_one (export_of export.old) if_any ∷ [])) }
    ensures value { result ≡ pos 0 → streams_of streams.new ≡ option_map (λ e. streams_brought e) (export_of export.old) }
    ensures unchanged { result ≢ pos 0 → streams_of streams.new ≡ streams_of streams.old }
    ensures kept { export_of export.new ≡ export_of export.old }
{
    fill!(alloc, streams => with!(alloc, export => Export(held), brought_streams(alloc, held)), made => Content::Streams(made))
}

fn held_streams(alloc: Global, gateway: &Gateway) -> Result<Seq<Stream>, NoMemory>
    ensures { IfOk result (λ copies. copies ≡ streams_held gateway.now.points) }
{
    copies_of(alloc, &rollup_kit::streams_of(alloc, gateway)?)
}

/// The streams of which a gateway, which stays, holds points: each once, in the order in which the points' keys name them first.
///
/// Refused, in this order: `FULL`; `NOTHING`; `NO_MEMORY`. O(points), and memory for the streams alone.
#[unsafe(no_mangle)]
pub extern "C" fn kit_gateway_streams(
    alloc: Global,
    gateway: &mut KitGateway,
    streams: &mut KitStreams,
) -> i32
    ensures code { result ≢ no_memory
        → result ≡ code_for (first (full_fault (streams_of streams.old) ∷ of_one (gateway_of gateway.old) if_any ∷ [])) }
    ensures value { result ≡ pos 0 → streams_of streams.new ≡ option_map (λ g. streams_held g.points) (gateway_of gateway.old) }
    ensures unchanged { result ≢ pos 0 → streams_of streams.new ≡ streams_of streams.old }
    ensures kept { node_of gateway.new ≡ node_of gateway.old }
{
    fill!(alloc, streams => with!(alloc, gateway => Gateway(held), held_streams(alloc, held.gateway())), made => Content::Streams(made))
}

/// Tells how many streams there are: they are numbered from 0.
///
/// Refused: `NOTHING`. O(1), takes no memory.
#[unsafe(no_mangle)]
pub extern "C" fn kit_streams_len(alloc: Global, streams: &mut KitStreams, count: &mut usize) -> i32
    ensures code { result ≡ code_for (of_one (streams_of streams.old) if_any) }
    ensures value { result ≡ pos 0 → IfSome (streams_of streams.old) (λ ss. count.new ≡ length ss) }
    ensures told { result ≢ pos 0 → count.new ≡ count.old }
    ensures kept { streams_of streams.new ≡ streams_of streams.old }
{
    *count = with!(alloc, streams => Streams(held), held.len());
    OK
}

fn copy_text(
    streams: &Seq<Stream>,
    number: usize,
    part: u8,
    into: &mut [u8],
) -> Result<usize, Fault>
    ensures ok { OnOk result (part_fault number part streams.now ≡ None) }
    ensures value { OnOk result (IfSome (slice_get streams.now number) (λ s. into.new ≡ filled (text_part part s) into.old)) }
    ensures len { IfOk result (λ n. IfSome (slice_get streams.now number) (λ s. n ≡ length (text_part part s))) }
    ensures err { IfErr result (λ f. part_fault number part streams.now ≡ Some f) }
    ensures unchanged { OnErr result (into.new ≡ into.old) }
{
    let stream = item(streams, number)?;
    let text = match part {
        0 => &stream.scope,
        1 => &stream.name,
        2 => &stream.unit,
        _ => return Err(Fault::BadNumber),
    };
    Ok(copy_front(text.as_str().as_bytes(), into))
}

/// Copies the front of a text of a stream that has room, and tells in `len` how many bytes the whole text has, in UTF-8 and with no 0 at
/// its end. The text is 0 the scope, 1 the name, 2 the unit.
///
/// Refused, in this order: `NOTHING`; `NO_ITEM` where there is no stream of this number; `BAD_NUMBER` where the text is none of these.
/// Takes no memory.
#[unsafe(no_mangle)]
pub extern "C" fn kit_streams_text(
    alloc: Global,
    streams: &mut KitStreams,
    number: usize,
    part: u8,
    into: &mut [u8],
    len: &mut usize,
) -> i32
    ensures code { result ≡ code_for (of_one (streams_of streams.old) (part_fault number part)) }
    ensures value { result ≡ pos 0 → IfSome (streams_of streams.old)
        (λ ss. IfSome (slice_get ss number) (λ s. into.new ≡ filled (text_part part s) into.old)) }
    ensures len { result ≡ pos 0 → IfSome (streams_of streams.old)
        (λ ss. IfSome (slice_get ss number) (λ s. len.new ≡ length (text_part part s))) }
    ensures told { result ≢ pos 0 → (into.new ≡ into.old) × (len.new ≡ len.old) }
    ensures kept { streams_of streams.new ≡ streams_of streams.old }
{
    tell!(len => with!(alloc, streams => Streams(held), copy_text(held, number, part, into)))
}

fn shape(streams: &Seq<Stream>, number: usize) -> Result<(u8, usize), Fault>
    ensures ok { OnOk result (item_fault number streams.now ≡ None) }
    ensures value { IfOk result (λ t. IfSome (slice_get streams.now number)
        (λ s. (t.0 ≡ shape_number s.shape) × (t.1 ≡ length (bounds_of s.shape)))) }
    ensures err { IfErr result (λ f. item_fault number streams.now ≡ Some f) }
{
    Ok(match &item(streams, number)?.shape {
        Shape::Sum { monotonic: true } => (0, 0),
        Shape::Sum { monotonic: false } => (1, 0),
        Shape::Gauge => (2, 0),
        Shape::Histogram { bounds } => (3, bounds.len()),
    })
}

/// Tells the shape of a stream, 0 a sum that only rises, 1 a sum, 2 a gauge, 3 a histogram, and how many bounds it has: only a histogram
/// has some.
///
/// Refused, in this order: `NOTHING`; `NO_ITEM` where there is no stream of this number. O(1), takes no memory.
#[unsafe(no_mangle)]
pub extern "C" fn kit_streams_shape(
    alloc: Global,
    streams: &mut KitStreams,
    number: usize,
    shape: &mut u8,
    bounds: &mut usize,
) -> i32
    ensures code { result ≡ code_for (of_one (streams_of streams.old) (item_fault number)) }
    ensures value { result ≡ pos 0 → IfSome (streams_of streams.old) (λ ss. IfSome (slice_get ss number)
        (λ s. (shape.new ≡ shape_number s.shape) × (bounds.new ≡ length (bounds_of s.shape)))) }
    ensures told { result ≢ pos 0 → (shape.new ≡ shape.old) × (bounds.new ≡ bounds.old) }
    ensures kept { streams_of streams.new ≡ streams_of streams.old }
{
    match with!(alloc, streams => Streams(held), self::shape(held, number)) {
        Ok((told, len)) => {
            *shape = told;
            *bounds = len;
            OK
        }
        Err(fault) => fault.code(),
    }
}

fn copy_bounds(streams: &Seq<Stream>, number: usize, into: &mut [i64]) -> Result<usize, Fault>
    ensures ok { OnOk result (item_fault number streams.now ≡ None) }
    ensures value { OnOk result (IfSome (slice_get streams.now number) (λ s. into.new ≡ filled (bounds_of s.shape) into.old)) }
    ensures len { IfOk result (λ n. IfSome (slice_get streams.now number) (λ s. n ≡ length (bounds_of s.shape))) }
    ensures err { IfErr result (λ f. item_fault number streams.now ≡ Some f) }
    ensures unchanged { OnErr result (into.new ≡ into.old) }
{
    Ok(match &item(streams, number)?.shape {
        Shape::Histogram { bounds } => copy_front(bounds.as_slice(), into),
        _ => copy_front(&[], into),
    })
}

/// Copies the front of the bounds of a stream that has room, and tells in `len` how many there are: only a histogram has some.
///
/// Refused, in this order: `NOTHING`; `NO_ITEM` where there is no stream of this number. Takes no memory.
#[unsafe(no_mangle)]
pub extern "C" fn kit_streams_bounds(
    alloc: Global,
    streams: &mut KitStreams,
    number: usize,
    into: &mut [i64],
    len: &mut usize,
) -> i32
    ensures code { result ≡ code_for (of_one (streams_of streams.old) (item_fault number)) }
    ensures value { result ≡ pos 0 → IfSome (streams_of streams.old)
        (λ ss. IfSome (slice_get ss number) (λ s. into.new ≡ filled (bounds_of s.shape) into.old)) }
    ensures len { result ≡ pos 0 → IfSome (streams_of streams.old)
        (λ ss. IfSome (slice_get ss number) (λ s. len.new ≡ length (bounds_of s.shape))) }
    ensures told { result ≢ pos 0 → (into.new ≡ into.old) × (len.new ≡ len.old) }
    ensures kept { streams_of streams.new ≡ streams_of streams.old }
{
    tell!(len => with!(alloc, streams => Streams(held), copy_bounds(held, number, into)))
}

fn copy(streams: &Seq<Stream>, number: usize) -> Result<Stream, Fault>
    ensures ok { OnOk result (item_fault number streams.now ≡ None) }
    ensures value { IfOk result (λ s. slice_get streams.now number ≡ Some s) }
    ensures err { IfErr result (λ f. code_of f ≢ no_memory → item_fault number streams.now ≡ Some f) }
{
    Ok(item(streams, number)?.try_copy()?)
}

/// Asks for the points of a stream: of all services, with a row for each attribute set. The streams stay.
///
/// Refused, in this order: `FULL`; `NOTHING` of the streams; `NO_ITEM` where there is no stream of this number; `NO_MEMORY`.
#[unsafe(no_mangle)]
pub extern "C" fn kit_ask_stream(
    alloc: Global,
    ask: &mut KitAsk,
    streams: &mut KitStreams,
    number: usize,
) -> i32
    ensures code { result ≢ no_memory → result
        ≡ code_for (first (full_fault (ask_of ask.old) ∷ of_one (streams_of streams.old) (item_fault number) ∷ [])) }
    ensures value { result ≡ pos 0 → IfSome (streams_of streams.old)
        (λ ss. IfSome (slice_get ss number) (λ s. ask_of ask.new ≡ Some (all_of s))) }
    ensures unchanged { result ≢ pos 0 → ask_of ask.new ≡ ask_of ask.old }
    ensures kept { streams_of streams.new ≡ streams_of streams.old }
{
    fill_or_tell!(alloc, ask => with!(alloc, streams => Streams(held), copy(held, number)), stream => Content::Ask(all(alloc, stream)))
}

// The bounds of OpenTelemetry's default explicit-bucket histogram.
const DEFAULT_BOUNDS: [i64; 15] = [
    0, 5, 10, 25, 50, 75, 100, 250, 500, 750, 1000, 2500, 5000, 7500, 10000,
];

/// Copies the front of the bounds that has room of a histogram for which no view says others, and answers how many there are: 15
/// (OpenTelemetry Metrics SDK, "Explicit Bucket Histogram Aggregation").
#[unsafe(no_mangle)]
pub extern "C" fn kit_default_bounds(into: &mut [i64]) -> usize
    ensures value { into.new ≡ filled default_bounds into.old }
    ensures len { result ≡ 15 }
{
    copy_front(&DEFAULT_BOUNDS, into)
}
