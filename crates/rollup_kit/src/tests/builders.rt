//! Rows, points and asks for the tests.
use crate::{Ask, Row, Total};
use attr_kit::{AttrSet, AttrValue, Keep, NoMemory, Seq, Txt};
use gateway_kit::Gateway;
use point_kit::{Export, ExportPoint, Payload, Shape, SharedStream, Stream, WriterId};
use std::alloc::Global;
use std::test::Fail;
use uuid::Uuid;

pub fn one<T: Drop>(alloc: Global, item: T) -> Result<Vec<T>, NoMemory> {
    let mut items = Vec::new(alloc);
    items.push(item)?;
    Ok(items)
}

pub fn two<T: Drop>(alloc: Global, first: T, second: T) -> Result<Vec<T>, NoMemory> {
    let mut items = Vec::new(alloc);
    items.push(first)?;
    items.push(second)?;
    Ok(items)
}

/// A key with a text, a truth or a number.
pub fn worded(alloc: Global, key: &str, value: &str) -> Result<(Txt, AttrValue), NoMemory> {
    let key = Txt::from_str(alloc, key)?;
    Ok((key, AttrValue::Text(Txt::from_str(alloc, value)?)))
}

/// The set of one pair.
pub fn single(alloc: Global, pair: (Txt, AttrValue)) -> Result<AttrSet, Fail> {
    Ok(AttrSet::from_pairs(one(alloc, pair)?)?)
}

pub fn row(attrs: AttrSet, total: Total, points: u64, conflicts: u64) -> Row {
    Row {
        attrs,
        total,
        points,
        conflicts,
    }
}

pub fn counter() -> Shape {
    Shape::Sum { monotonic: true }
}

pub fn histogram(alloc: Global, bounds: &[i64]) -> Result<Shape, NoMemory> {
    Ok(Shape::Histogram {
        bounds: Seq::from_vec(bounds.to_vec(alloc)?),
    })
}

pub fn stream(alloc: Global, shape: Shape) -> Result<Stream, NoMemory> {
    Ok(Stream {
        scope: Txt::from_str(alloc, "app")?,
        name: Txt::from_str(alloc, "requests")?,
        unit: Txt::from_str(alloc, "1")?,
        shape,
    })
}

pub fn point(
    alloc: Global,
    shape: Shape,
    attrs: AttrSet,
    payload: Payload,
) -> Result<ExportPoint, NoMemory> {
    Ok(ExportPoint {
        stream: SharedStream::new(alloc, stream(alloc, shape)?)?,
        attrs,
        payload,
    })
}

/// The sum of a counter.
pub fn counted(alloc: Global, attrs: AttrSet, sum: i64) -> Result<ExportPoint, NoMemory> {
    point(alloc, counter(), attrs, Payload::Sum(sum))
}

/// The parts of a histogram.
pub fn parts(
    alloc: Global,
    count: u64,
    sum: i64,
    buckets: &[u64],
    range: Option<(i64, i64)>,
) -> Result<Payload, NoMemory> {
    Ok(Payload::Hist {
        count,
        sum,
        buckets: Seq::from_vec(buckets.to_vec(alloc)?),
        range,
    })
}

/// An export of the instance of this number, which runs since 100.
pub fn export(
    alloc: Global,
    service: &str,
    instance: u128,
    time: u64,
    points: Vec<ExportPoint>,
) -> Result<Export, Fail> {
    let writer = WriterId {
        service: Txt::from_str(alloc, service)?,
        instance: Uuid::from_u128(instance),
    };
    Ok(Export::build(alloc, writer, 100, time, Seq::from_vec(points))?)
}

/// The gateway takes one point of an instance of the shop.
pub fn take(
    alloc: Global,
    gateway: &mut Gateway,
    instance: u128,
    time: u64,
    point: ExportPoint,
) -> Result<(), Fail> {
    let export = export(alloc, "shop", instance, time, one(alloc, point)?)?;
    gateway.take(&export)?;
    Ok(())
}

/// Asks for all points of a shape.
pub fn ask(alloc: Global, shape: Shape, keep: Keep) -> Result<Ask, NoMemory> {
    Ok(Ask {
        stream: stream(alloc, shape)?,
        service: None,
        only: Seq::new(alloc),
        keep,
    })
}
