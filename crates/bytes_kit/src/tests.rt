//! Where a stream stands that is too long to be shared, and texts of which no clause speaks. docs/design/BYTES.md's worked examples and each
//! refusal are shown by tests/sdk and tests/files.
use super::*;
use attr_kit::{AttrSet, AttrValue, NoMemory, Seq, Txt};
use point_kit::{Export, ExportFault, ExportPoint, Payload, Shape, SharedStream, Stream, WriterId};
use std::alloc::Global;
use std::test::Fail;
use uuid::Uuid;

fn text(alloc: Global, bytes: &str) -> Result<Txt, NoMemory> {
    Txt::from_str(alloc, bytes)
}

fn set(alloc: Global, pairs: &[(&str, &str)]) -> Result<AttrSet, Fail> {
    let mut attributes = Vec::new(alloc);
    for (key, value) in pairs {
        attributes.push((text(alloc, key)?, AttrValue::Text(text(alloc, value)?)))?;
    }
    Ok(AttrSet::from_pairs(attributes)?)
}

// Two points of one stream, of this scope.
fn sold(alloc: Global, scope: &str) -> Result<Export, Fail> {
    let stream = Stream {
        scope: text(alloc, scope)?,
        name: text(alloc, "sales")?,
        unit: text(alloc, "1")?,
        shape: Shape::Sum { monotonic: true },
    };
    let stream = SharedStream::new(alloc, stream)?;
    let mut points = Vec::new(alloc);
    points.push(ExportPoint {
        stream: stream.try_copy()?,
        attrs: set(alloc, &[("item", "tea")])?,
        payload: Payload::Sum(6),
    })?;
    points.push(ExportPoint {
        stream,
        attrs: set(alloc, &[("item", "milk"), ("size", "1")])?,
        payload: Payload::Sum(3),
    })?;
    let writer = WriterId {
        service: text(alloc, "shop")?,
        instance: Uuid::from_u128(7),
    };
    Ok(Export::build(alloc, writer, 100, 200, Seq::from_vec(points))?)
}

// Why bytes of which one is changed are refused.
fn changed(
    alloc: Global,
    bytes: &[u8],
    place: usize,
    byte: u8,
) -> Result<Option<DecodeFault>, NoMemory> {
    let mut bytes = bytes.to_vec(alloc)?;
    if let Some(at) = bytes.get_mut(place) {
        *at = byte;
    }
    Ok(decode_export(alloc, bytes.as_slice()).err())
}

// The bytes are those of docs/design/BYTES.md's example, 88, with another scope. The second point shares a stream whose scope has 64
// bytes. One of 65 it has again: 1 and the scope, and name, unit and shape in a byte each, in place of the one byte.
#[test]
fn a_long_stream_stands_at_each_point(rt: HostRuntime) -> Result<(), Fail> {
    let alloc = rt.alloc();
    let shared = "0123456789abcdef0123456789abcdef0123456789abcdef0123456789abcdef";
    let long = "0123456789abcdef0123456789abcdef0123456789abcdef0123456789abcdef.";
    for (scope, size) in [(shared, 88 + 61), (long, 88 + 62 + 2 + 65 + 3)] {
        let export = sold(alloc, scope)?;
        let bytes = encode_export(alloc, &export)?;
        assert_eq!(rt; bytes.len(), size);
        let found = there_and_back(alloc, &export)
            .ok()
            .ok_or("it is read again")?;
        assert_eq!(rt; found, export);
    }
    // The one byte, though the stream before is long.
    let bytes = encode_export(alloc, &sold(alloc, long)?)?;
    let fault = changed(alloc, bytes.as_slice(), 126, 0)?;
    assert_eq!(rt; fault, Some(DecodeFault::NotCanonical(126)));
    Ok(())
}

// A fault of building an export prints the text of its own, which no clause states: here each of them, whole.
#[test]
fn a_fault_of_building_prints_its_own_text(rt: HostRuntime) -> Result<(), Fail> {
    let alloc = rt.alloc();
    for (fault, text) in [
        (
            ExportFault::TimeNotAfterStart,
            "the time is not after the start",
        ),
        (
            ExportFault::KeyTwice(1),
            "point 1 has the key of an earlier point",
        ),
        (
            ExportFault::WrongShape(20),
            "the payload of point 20 is not of its stream's shape",
        ),
        (
            ExportFault::BucketCount(300),
            "point 300 has not one bucket more than bounds",
        ),
        (
            ExportFault::CountMismatch(0),
            "the buckets of point 0 do not add up to its count",
        ),
        (
            ExportFault::NegativeTotal(7),
            "the total of point 7 is below 0",
        ),
        (
            ExportFault::BadRange(9),
            "the range of point 9 is not one of its values",
        ),
        (ExportFault::NoMemory, "no memory"),
    ] {
        let printed = DecodeFault::BadExport(fault).to_string(alloc)?;
        assert_eq!(rt; printed.as_str(), text);
    }
    Ok(())
}
