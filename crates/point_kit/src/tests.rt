//! Worked exports that are refused, and the joins that show the rule for ties. The program `refusals` has those of histograms, and copies.
use super::*;
use attr_kit::{AttrSet, NoMemory, Seq, TryCopy, Txt};
use std::alloc::Global;
use std::test::Fail;
use uuid::Uuid;

fn text(alloc: Global, bytes: &str) -> Result<Txt, NoMemory> {
    Txt::from_str(alloc, bytes)
}

fn writer(alloc: Global) -> Result<WriterId, NoMemory> {
    Ok(WriterId {
        service: text(alloc, "shop")?,
        instance: Uuid::from_u128(1),
    })
}

fn stream(alloc: Global, name: &str, shape: Shape) -> Result<SharedStream, NoMemory> {
    SharedStream::new(
        alloc,
        Stream {
            scope: text(alloc, "app")?,
            name: text(alloc, name)?,
            unit: text(alloc, "1")?,
            shape,
        },
    )
}

fn histogram(alloc: Global, bounds: &[i64]) -> Result<Shape, NoMemory> {
    Ok(Shape::Histogram {
        bounds: Seq::from_vec(bounds.to_vec(alloc)?),
    })
}

fn counts(
    alloc: Global,
    buckets: &[u64],
    count: u64,
    range: Option<(i64, i64)>,
) -> Result<Payload, NoMemory> {
    Ok(Payload::Hist {
        count,
        sum: 5,
        buckets: Seq::from_vec(buckets.to_vec(alloc)?),
        range,
    })
}

fn point(
    alloc: Global,
    name: &str,
    shape: Shape,
    payload: Payload,
) -> Result<ExportPoint, NoMemory> {
    Ok(ExportPoint {
        stream: stream(alloc, name, shape)?,
        attrs: AttrSet::empty(alloc),
        payload,
    })
}

// What `build` answers for these points, collected at 200 since 100.
fn export_of(
    alloc: Global,
    points: Vec<ExportPoint>,
) -> Result<Result<Export, ExportFault>, NoMemory> {
    Ok(Export::build(alloc, writer(alloc)?, 100, 200, Seq::from_vec(points)))
}

fn fault_of_one(
    alloc: Global,
    shape: Shape,
    payload: Payload,
) -> Result<Option<ExportFault>, NoMemory> {
    let mut points = Vec::new(alloc);
    points.push(point(alloc, "size", shape, payload)?)?;
    Ok(export_of(alloc, points)?.err())
}

#[test]
fn sums_and_shapes(rt: HostRuntime) -> Result<(), Fail> {
    let alloc = rt.alloc();
    let rising = Shape::Sum { monotonic: true };
    assert!(rt;
        fault_of_one(alloc, rising, Payload::Sum(-1))? == Some(ExportFault::NegativeTotal(0))
    );
    let falling = Shape::Sum { monotonic: false };
    assert!(rt; fault_of_one(alloc, falling, Payload::Sum(-1))? == None);
    assert!(rt;
        fault_of_one(alloc, Shape::Gauge, Payload::Sum(1))? == Some(ExportFault::WrongShape(0))
    );
    Ok(())
}

#[test]
fn the_time_comes_first(rt: HostRuntime) -> Result<(), Fail> {
    let alloc = rt.alloc();
    let mut points = Vec::new(alloc);
    points.push(point(alloc, "g", Shape::Gauge, Payload::Sum(1))?)?;
    let refused = Export::build(alloc, writer(alloc)?, 100, 100, Seq::from_vec(points));
    assert!(rt; refused == Err(ExportFault::TimeNotAfterStart));
    Ok(())
}

#[test]
fn an_earlier_refusal_at_a_later_place(rt: HostRuntime) -> Result<(), Fail> {
    let alloc = rt.alloc();
    let mut points = Vec::new(alloc);
    let one_bucket = counts(alloc, &[2], 2, None)?;
    points.push(point(alloc, "size", histogram(alloc, &[10])?, one_bucket)?)?;
    points.push(point(alloc, "g", Shape::Gauge, Payload::Sum(1))?)?;
    assert!(rt; export_of(alloc, points)? == Err(ExportFault::WrongShape(1)));
    Ok(())
}

#[test]
fn a_key_stands_once(rt: HostRuntime) -> Result<(), Fail> {
    let alloc = rt.alloc();
    let mut points = Vec::new(alloc);
    for name in ["a", "b", "a"] {
        points.push(point(alloc, name, Shape::Gauge, Payload::Gauge(1))?)?;
    }
    match export_of(alloc, points)? {
        Ok(_) => assert!(rt; false),
        Err(fault) => {
            let told = format!(in alloc; "{fault}")?;
            assert_eq!(rt; told.as_str(), "point 2 has the key of an earlier point");
        }
    }
    Ok(())
}

fn cell(time: u64, payload: Payload) -> Cell {
    Cell {
        time,
        held: Held::One(payload),
    }
}

#[test]
fn ties_are_conflicts_until_a_later_time(rt: HostRuntime) -> Result<(), Fail> {
    let alloc = rt.alloc();
    let conflict = Cell {
        time: 200,
        held: Held::Conflict,
    };
    let joined = cell(200, Payload::Sum(7)).join(cell(200, Payload::Sum(9)));
    assert!(rt; joined == conflict);
    assert!(rt; joined.join(cell(300, Payload::Sum(12))) == cell(300, Payload::Sum(12)));
    assert!(rt; conflict.join(cell(200, Payload::Sum(7))).held == Held::Conflict);
    let early = cell(100, Payload::Sum(1));
    assert!(rt; cell(200, Payload::Sum(3)).join(early) == cell(200, Payload::Sum(3)));
    assert!(rt;
        cell(200, Payload::Sum(3)).join(cell(200, Payload::Sum(3))) == cell(200, Payload::Sum(3))
    );
    let narrow = cell(200, counts(alloc, &[1, 1], 2, Some((2, 3)))?);
    let wide = cell(200, counts(alloc, &[1, 1], 2, Some((1, 4)))?);
    assert!(rt; narrow.try_copy()? == narrow);
    assert!(rt; narrow.join(wide).held == Held::Conflict);
    Ok(())
}
