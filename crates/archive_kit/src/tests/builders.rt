//! Exports, gateways and archives for the tests.
use crate::totals::push;
use crate::{Archive, Keeper};
use attr_kit::{AttrSet, AttrValue, NoMemory, Seq, Txt};
use point_kit::{Export, ExportPoint, Payload, Shape, SharedStream, Stream, WriterId};
use std::alloc::Global;
use std::test::Fail;
use uuid::Uuid;

pub fn writer(alloc: Global, service: &str, instance: u128) -> Result<WriterId, NoMemory> {
    Ok(WriterId {
        service: Txt::from_str(alloc, service)?,
        instance: Uuid::from_u128(instance),
    })
}

fn stream(alloc: Global, name: &str, shape: Shape) -> Result<SharedStream, NoMemory> {
    let stream = Stream {
        scope: Txt::from_str(alloc, "app")?,
        name: Txt::from_str(alloc, name)?,
        unit: Txt::from_str(alloc, "1")?,
        shape,
    };
    SharedStream::new(alloc, stream)
}

// The attributes route = 1.
fn route(alloc: Global) -> Result<AttrSet, NoMemory> {
    AttrSet::single(alloc, Txt::from_str(alloc, "route")?, AttrValue::Whole(1))
}

fn point(
    alloc: Global,
    name: &str,
    shape: Shape,
    payload: Payload,
) -> Result<ExportPoint, NoMemory> {
    Ok(ExportPoint {
        stream: stream(alloc, name, shape)?,
        attrs: route(alloc)?,
        payload,
    })
}

fn requests(alloc: Global, total: i64) -> Result<ExportPoint, NoMemory> {
    let shape = Shape::Sum { monotonic: true };
    point(alloc, "requests", shape, Payload::Sum(total))
}

/// A histogram of one bound, with values from 1 to 14.
pub fn held_sizes(
    alloc: Global,
    count: u64,
    sum: i64,
    buckets: [u64; 2],
) -> Result<Payload, NoMemory> {
    Ok(Payload::Hist {
        count,
        sum,
        buckets: Seq::from_vec(buckets.to_vec(alloc)?),
        range: Some((1, 14)),
    })
}

fn sizes(alloc: Global) -> Result<ExportPoint, NoMemory> {
    let payload = held_sizes(alloc, 3, 20, [1, 2])?;
    let bounds = Seq::from_vec([5].to_vec(alloc)?);
    point(alloc, "sizes", Shape::Histogram { bounds }, payload)
}

// A counter, and where asked for a gauge and a histogram.
fn points(alloc: Global, total: i64, all: bool) -> Result<Vec<ExportPoint>, NoMemory> {
    let mut points = Vec::new(alloc);
    push(&mut points, requests(alloc, total)?)?;
    if all {
        push(
            &mut points,
            point(alloc, "load", Shape::Gauge, Payload::Gauge(7))?,
        )?;
        push(&mut points, sizes(alloc)?)?;
    }
    Ok(points)
}

/// What an incarnation of the shop is to export.
#[derive(Clone, Copy)]
pub struct Row {
    pub instance: u128,
    pub start: u64,
    pub time: u64,
    pub total: i64,
    /// With a gauge and a histogram beside the counter.
    pub all: bool,
}

/// A worker began at 100, and exports all points.
pub fn worker(instance: u128, time: u64, total: i64) -> Row {
    Row {
        instance,
        start: 100,
        time,
        total,
        all: true,
    }
}

pub fn export(alloc: Global, row: Row) -> Result<Export, Fail> {
    let points = points(alloc, row.total, row.all)?;
    let writer = writer(alloc, "shop", row.instance)?;
    Ok(Export::build(alloc, writer, row.start, row.time, Seq::from_vec(points))?)
}

fn tell(keeper: &mut Keeper, export: Export) -> Result<(), NoMemory> {
    keeper.take(&export)?;
    Ok(())
}

/// A keeper that took one export.
pub fn taken(alloc: Global, export: Export) -> Result<Keeper, NoMemory> {
    let mut keeper = Keeper::new(alloc, 7)?;
    tell(&mut keeper, export)?;
    Ok(keeper)
}

/// A keeper that took these exports, in this order.
pub fn told(alloc: Global, rows: &[Row]) -> Result<Keeper, Fail> {
    let mut keeper = Keeper::new(alloc, 7)?;
    for row in rows {
        tell(&mut keeper, export(alloc, *row)?)?;
    }
    Ok(keeper)
}

/// An archive of the shop that adopted nothing.
pub fn begun(alloc: Global, instance: u128, limit: usize) -> Result<Archive, NoMemory> {
    Archive::begin(alloc, writer(alloc, "shop", instance)?, 1000, limit)
}

fn adopt(archive: &mut Archive, keeper: &Keeper, writer: WriterId, start: u64) -> Result<(), Fail> {
    archive.adopt(keeper, &writer, start)?;
    Ok(())
}

/// An archive that adopted these incarnations of a keeper.
pub fn adopted(
    alloc: Global,
    instance: u128,
    keeper: &Keeper,
    adoptees: &[(u128, u64)],
) -> Result<Archive, Fail> {
    let mut archive = begun(alloc, instance, 10)?;
    for (adoptee, start) in adoptees {
        adopt(
            &mut archive,
            keeper,
            writer(alloc, "shop", *adoptee)?,
            *start,
        )?;
    }
    Ok(archive)
}

/// The incarnations that the archive of instance 9 adopts.
pub fn workers() -> [Row; 2] {
    [worker(1, 200, 5), worker(2, 300, 8)]
}

/// An archive of instance 9 that adopted both workers.
pub fn both_adopted(alloc: Global) -> Result<Archive, Fail> {
    let keeper = told(alloc, &workers())?;
    adopted(alloc, 9, &keeper, &[(1, 100), (2, 100)])
}

/// What an archive exports at a time.
pub fn exported(mut archive: Archive, time: u64) -> Result<Export, Fail> {
    let made = archive.export(time)?;
    Ok(made)
}

/// What that archive exports at a time.
pub fn made(alloc: Global, time: u64) -> Result<Export, Fail> {
    exported(both_adopted(alloc)?, time)
}
