//! What the calls begin with. Texts that are too long to lie in place stand among the short ones, so that copies take memory.
use attr_kit::{AllowList, AttrSet, AttrValue, Keep, Seq, Txt};
use bumpalo::Bump;
use gateway_kit::Gateway;
use plan_kit::{DEFAULT_LIMIT, Instrument, Kind, Plan, View};
use point_kit::{Export, Shape, Stream, WriterId};
use std::alloc::Global;
use test_kit::{instrument, view};
use uuid::Uuid;
use writer_kit::Writer;

/// When each writer starts.
pub const START: u64 = 100;

/// A name of more than 30 bytes.
pub const LONG: &str = "requests.under.a.name.that.is.not.short";

/// A long route and a number.
pub fn pairs(alloc: Global, shard: i64) -> anyhow::Result<Vec<(Txt, AttrValue)>> {
    let mut pairs = Vec::new(alloc);
    let route = Txt::from_str(alloc, LONG)?;
    pairs.push((Txt::from_str(alloc, "route")?, AttrValue::Text(route)))?;
    pairs.push((Txt::from_str(alloc, "shard")?, AttrValue::Whole(shard)))?;
    Ok(pairs)
}

/// The set of these pairs.
pub fn set(alloc: Global, shard: i64) -> anyhow::Result<AttrSet> {
    Ok(AttrSet::from_pairs(pairs(alloc, shard)?)?)
}

/// The key of the route alone.
pub fn route(alloc: Global) -> anyhow::Result<Keep> {
    let mut keys = Vec::new(alloc);
    keys.push(Txt::from_str(alloc, "route")?)?;
    Ok(Keep::Only(AllowList::from_keys(keys)?))
}

/// A counter of requests and a histogram of sizes.
pub fn instruments(alloc: Global) -> anyhow::Result<Seq<Instrument>> {
    let mut instruments = Vec::new(alloc);
    for (name, kind) in [("requests", Kind::Counter), ("sizes", Kind::Histogram)] {
        instruments.push(instrument(alloc, kind, "app", name, "1")?)?;
    }
    Ok(Seq::from_vec(instruments))
}

/// Requests by their routes, and all of them under a long name.
pub fn views(alloc: Global) -> anyhow::Result<Seq<View>> {
    let mut by_route = view(alloc, "requests")?;
    by_route.keep = route(alloc)?;
    Ok(Seq::from_vec(vec![in alloc; by_route, renamed(alloc)?]?))
}

/// All requests under a long name.
pub fn renamed(alloc: Global) -> anyhow::Result<View> {
    let mut renamed = view(alloc, "requests")?;
    renamed.rename = Some(Txt::from_str(alloc, LONG)?);
    Ok(renamed)
}

/// The plan of these: two streams of requests, and one of sizes.
pub fn plan(alloc: Global) -> anyhow::Result<Plan> {
    Ok(Plan::build(alloc, instruments(alloc)?, views(alloc)?, DEFAULT_LIMIT)?)
}

/// The identity of a number.
pub fn id(alloc: Global, number: u128) -> anyhow::Result<WriterId> {
    Ok(WriterId {
        service: Txt::from_str(alloc, LONG)?,
        instance: Uuid::from_u128(number),
    })
}

// A request and a size under one set.
fn record(alloc: Global, writer: &mut Writer) -> anyhow::Result<()> {
    let attrs = set(alloc, 1)?;
    for (instrument, value) in [(0, 3), (1, 7)] {
        writer.measure(instrument, &attrs, value)?;
    }
    Ok(())
}

/// A writer of a number that has recorded a request and a size under one set.
pub fn writer(alloc: Global, number: u128) -> anyhow::Result<Writer> {
    let mut writer = Writer::start(alloc, id(alloc, number)?, plan(alloc)?, START)?;
    record(alloc, &mut writer)?;
    Ok(writer)
}

// The export of a collection at a time.
fn export_at(
    alloc: Global,
    writer: &mut Writer,
    id: &WriterId,
    time: u64,
) -> anyhow::Result<Export> {
    let arena = Bump::new(alloc);
    let round = writer.collect(&arena, time)?;
    Ok(round.copy_out(alloc, id)?)
}

/// The export of a collection of such a writer: three points.
pub fn export(alloc: Global, number: u128, time: u64) -> anyhow::Result<Export> {
    let id = id(alloc, number)?;
    let mut writer = writer(alloc, number)?;
    export_at(alloc, &mut writer, &id, time)
}

/// A gateway of an id that took an export of the first writer at a time.
pub fn gateway(alloc: Global, id: u32, time: u64) -> anyhow::Result<Gateway> {
    let mut gateway = Gateway::new(alloc, id);
    gateway.take(&export(alloc, 1, time)?)?;
    Ok(gateway)
}

/// The stream of all requests.
pub fn requests(alloc: Global) -> anyhow::Result<Stream> {
    Ok(Stream {
        scope: Txt::from_str(alloc, "app")?,
        name: Txt::from_str(alloc, LONG)?,
        unit: Txt::from_str(alloc, "1")?,
        shape: Shape::Sum { monotonic: true },
    })
}
