//! Calls of exports, and copies of their parts.
use crate::start::{START, export, gateway, id, requests, set};
use crate::telling::{call_begins, call_ends, tell_made};
use attr_kit::{AttrSet, Seq};
use point_kit::{Cell, Export, ExportFault, ExportPoint, Held, Key, Payload, Shape, SharedStream};
use std::alloc::Global;

fn point(alloc: Global, stream: &SharedStream, shard: i64) -> anyhow::Result<ExportPoint> {
    Ok(ExportPoint {
        stream: stream.try_copy()?,
        attrs: set(alloc, shard)?,
        payload: Payload::Sum(shard),
    })
}

fn points(alloc: Global, stream: &SharedStream) -> anyhow::Result<Vec<ExportPoint>> {
    let mut points = Vec::new(alloc);
    for shard in [1, 2] {
        points.push(point(alloc, stream, shard)?)?;
    }
    Ok(points)
}

fn build(rt: &HostRuntime) -> anyhow::Result<()> {
    let alloc = rt.alloc();
    let stream = SharedStream::new(alloc, requests(alloc)?)?;
    let points = points(alloc, &stream)?;
    let writer = id(alloc, 1)?;
    call_begins(rt);
    let answer = Export::build(alloc, writer, START, 200, Seq::from_vec(points));
    call_ends(rt);
    tell_made(rt, answer)
}

// Why an export of one point, of a histogram of the bound 10, is refused.
fn fault_of(alloc: Global, payload: Payload) -> anyhow::Result<Option<ExportFault>> {
    let mut stream = requests(alloc)?;
    stream.shape = Shape::Histogram {
        bounds: Seq::from_vec([10].to_vec(alloc)?),
    };
    let mut points = Vec::new(alloc);
    points.push(ExportPoint {
        stream: SharedStream::new(alloc, stream)?,
        attrs: AttrSet::empty(alloc),
        payload,
    })?;
    let answer = Export::build(alloc, id(alloc, 1)?, START, 200, Seq::from_vec(points));
    Ok(answer.err())
}

// Whether their parts fit one another.
fn histograms(rt: &HostRuntime) -> anyhow::Result<()> {
    let cases = [
        (2, [1, 1].as_slice(), None),
        (3, [1, 1].as_slice(), None),
        (2, [1, 1].as_slice(), Some((2, 3))),
        (2, [1, 1].as_slice(), Some((3, 2))),
        (0, [0, 0].as_slice(), Some((1, 1))),
        (2, [2].as_slice(), None),
    ];
    for (count, buckets, range) in cases {
        let payload = Payload::Hist {
            count,
            sum: 5,
            buckets: Seq::from_vec(buckets.to_vec(rt.alloc())?),
            range,
        };
        println!(rt; "{:?}", fault_of(rt.alloc(), payload)?)?;
    }
    println!(rt; "{:?}", fault_of(rt.alloc(), Payload::Sum(1))?)?;
    Ok(())
}

fn share_call(rt: &HostRuntime) -> anyhow::Result<()> {
    let stream = requests(rt.alloc())?;
    call_begins(rt);
    let answer = SharedStream::new(rt.alloc(), stream);
    call_ends(rt);
    tell_made(rt, answer)
}

fn copy_call(rt: &HostRuntime) -> anyhow::Result<()> {
    let export = export(rt.alloc(), 1, 200)?;
    call_begins(rt);
    let answer = export.try_copy();
    call_ends(rt);
    tell_made(rt, answer)
}

fn copied_key(rt: &HostRuntime) -> anyhow::Result<()> {
    let alloc = rt.alloc();
    let key = Key {
        writer: id(alloc, 1)?,
        start: START,
        stream: requests(alloc)?,
        attrs: set(alloc, 1)?,
    };
    call_begins(rt);
    let answer = key.try_copy();
    call_ends(rt);
    tell_made(rt, answer)
}

fn copied_cell(rt: &HostRuntime) -> anyhow::Result<()> {
    let buckets = [0, 1, 0].to_vec(rt.alloc())?;
    let cell = Cell {
        time: 200,
        held: Held::One(Payload::Hist {
            count: 1,
            sum: 7,
            buckets: Seq::from_vec(buckets),
            range: Some((7, 7)),
        }),
    };
    call_begins(rt);
    let answer = cell.try_copy();
    call_ends(rt);
    tell_made(rt, answer)
}

fn copied_gateway(rt: &HostRuntime) -> anyhow::Result<()> {
    let gateway = gateway(rt.alloc(), 1, 200)?;
    call_begins(rt);
    let answer = gateway.try_copy();
    call_ends(rt);
    tell_made(rt, answer)
}

/// Makes a call of an export, or a copy, if this is the name of one.
pub fn make_call(rt: &HostRuntime, call: &str) -> anyhow::Result<bool> {
    match call {
        "Export::build" => build(rt)?,
        "Export::build, histograms" => histograms(rt)?,
        "Export::try_copy" => copy_call(rt)?,
        "SharedStream::new" => share_call(rt)?,
        "Key::try_copy" => copied_key(rt)?,
        "Cell::try_copy" => copied_cell(rt)?,
        "Gateway::try_copy" => copied_gateway(rt)?,
        _ => return Ok(false),
    }
    Ok(true)
}
