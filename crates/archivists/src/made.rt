//! Exports of workers.
use crate::event::Sums;
use crate::fault::LineFault;
use attr_kit::{AttrSet, AttrValue, NoMemory, Seq, Txt};
use point_kit::{Export, ExportFault, ExportPoint, Payload, Shape, SharedStream, Stream};
use std::alloc::Global;

/// The stream of all sums.
pub fn requests(alloc: Global) -> Result<SharedStream, NoMemory> {
    let stream = Stream {
        scope: Txt::from_str(alloc, "app")?,
        name: Txt::from_str(alloc, "requests")?,
        unit: Txt::from_str(alloc, "1")?,
        shape: Shape::Sum { monotonic: true },
    };
    SharedStream::new(alloc, stream)
}

// The sum under an attribute of this number.
fn sum(
    alloc: Global,
    stream: &SharedStream,
    shard: u32,
    value: i64,
) -> Result<ExportPoint, NoMemory> {
    let key = Txt::from_str(alloc, "shard")?;
    Ok(ExportPoint {
        stream: stream.try_copy()?,
        attrs: AttrSet::single(alloc, key, AttrValue::Whole(i64::from(shard)))?,
        payload: Payload::Sum(value),
    })
}

// So many sums, of which the first has this value.
fn sums(
    alloc: Global,
    stream: &SharedStream,
    value: i64,
    points: u32,
) -> Result<Vec<ExportPoint>, LineFault> {
    let mut sums = Vec::new(alloc);
    for shard in 0..points {
        let Some(value) = value.checked_add(i64::from(shard)) else {
            return Err(LineFault::Value);
        };
        sums.push(sum(alloc, stream, shard, value)?)?;
    }
    Ok(sums)
}

/// What a worker exports, or why it is no export.
pub fn export(
    alloc: Global,
    stream: &SharedStream,
    told: &Sums,
) -> Result<Result<Export, ExportFault>, LineFault> {
    let points = Seq::from_vec(sums(alloc, stream, told.value, told.points)?);
    let writer = told.writer.try_copy()?;
    Ok(Export::build(alloc, writer, told.start, told.time, points))
}
