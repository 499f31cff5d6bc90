//! Exports for the tests.
use crate::Gateway;
use attr_kit::{AttrSet, AttrValue, NoMemory, Seq, Txt};
use point_kit::{Export, ExportPoint, Payload, Shape, SharedStream, Stream, WriterId};
use std::alloc::Global;
use std::test::Fail;
use uuid::Uuid;

/// The service of a writer: the first is of the shop, every other of the till.
pub fn service(writer: u128) -> &'static str {
    if writer == 1 { "shop" } else { "till" }
}

pub fn writer(alloc: Global, number: u128) -> Result<WriterId, NoMemory> {
    Ok(WriterId {
        service: Txt::from_str(alloc, service(number))?,
        instance: Uuid::from_u128(number),
    })
}

fn requests(alloc: Global) -> Result<Stream, NoMemory> {
    Ok(Stream {
        scope: Txt::from_str(alloc, "app")?,
        name: Txt::from_str(alloc, "requests")?,
        unit: Txt::from_str(alloc, "1")?,
        shape: Shape::Sum { monotonic: true },
    })
}

// The attributes k = number.
fn numbered(alloc: Global, number: i64) -> Result<AttrSet, NoMemory> {
    AttrSet::single(alloc, Txt::from_str(alloc, "k")?, AttrValue::Whole(number))
}

/// A total under the attributes k = number.
pub fn point(alloc: Global, number: i64, total: i64) -> Result<ExportPoint, NoMemory> {
    Ok(ExportPoint {
        stream: SharedStream::new(alloc, requests(alloc)?)?,
        attrs: numbered(alloc, number)?,
        payload: Payload::Sum(total),
    })
}

pub fn export(
    alloc: Global,
    number: u128,
    start: u64,
    time: u64,
    points: Vec<ExportPoint>,
) -> Result<Export, Fail> {
    let writer = writer(alloc, number)?;
    Ok(Export::build(alloc, writer, start, time, Seq::from_vec(points))?)
}

/// An export of one total.
pub fn single(
    alloc: Global,
    number: u128,
    start: u64,
    time: u64,
    total: i64,
) -> Result<Export, Fail> {
    let mut points = Vec::new(alloc);
    points.push(point(alloc, 0, total)?)?;
    export(alloc, number, start, time, points)
}

/// A gateway that took these exports, in this order.
pub fn told(alloc: Global, id: u32, exports: &[&Export]) -> Result<Gateway, Fail> {
    let mut gateway = Gateway::new(alloc, id);
    for export in exports {
        gateway.take(export)?;
    }
    Ok(gateway)
}

/// The time of the newest point of a writer's incarnation.
pub fn newest(
    alloc: Global,
    gateway: &Gateway,
    number: u128,
    start: u64,
) -> Result<Option<u64>, Fail> {
    let writer = writer(alloc, number)?;
    Ok(gateway.newest(&writer, start))
}
