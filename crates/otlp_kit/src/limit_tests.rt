//! Texts and attributes at their limits, as they are read and written.
use super::*;
use crate::read_tests::{INSTANCE, fault, fault_behind, field, request, says_one};
use crate::tests::{export, writer};
use crate::wire::close_block;
use attr_kit::{AttrSet, AttrValue, Seq, Txt};
use point_kit::{Export, ExportPoint, Payload, Shape, SharedStream, Stream};
use std::alloc::Global;
use std::test::Fail;

// The key of a service.
const SERVICE_KEY: [u8; 14] = [
    10, 12, 115, 101, 114, 118, 105, 99, 101, 46, 110, 97, 109, 101,
];

// The time and the value of a point.
const POINT: [u8; 18] = [25, 200, 0, 0, 0, 0, 0, 0, 0, 49, 7, 0, 0, 0, 0, 0, 0, 0];

// Sizes of a scope, a name and a unit, of which one is too long, and the byte at which its field begins.
const ONE_IS_LONG: [([usize; 3], usize); 3] = [
    ([1025, 1, 1], 98),
    ([1, 1025, 1], 103),
    ([1, 1, 1025], 106),
];

const ALL_FIT: [usize; 3] = [1024, 1024, 1024];

// A text of so many bytes, as field 1.
fn text(alloc: Global, size: usize) -> Result<Vec<u8>, Fail> {
    let mut bytes = vec![in alloc; b'a'; size]?;
    close_block(1, 0, &mut bytes)?;
    Ok(bytes)
}

// One as a unit.
fn unit(alloc: Global, size: usize) -> Result<Vec<u8>, Fail> {
    let mut bytes = vec![in alloc; b'a'; size]?;
    close_block(3, 0, &mut bytes)?;
    Ok(bytes)
}

// A scope with a gauge of these points.
fn gauge(alloc: Global, sizes: [usize; 3], points: &[u8]) -> Result<Vec<u8>, Fail> {
    let [scope, name, unit_size] = sizes;
    let mut data = Vec::new(alloc);
    data.extend_from_slice(points)?;
    close_block(5, 0, &mut data)?;
    let mut metric = text(alloc, name)?;
    metric.extend_from_slice(unit(alloc, unit_size)?.as_slice())?;
    metric.extend_from_slice(data.as_slice())?;
    close_block(2, 0, &mut metric)?;
    let mut bytes = text(alloc, scope)?;
    close_block(1, 0, &mut bytes)?;
    bytes.extend_from_slice(metric.as_slice())?;
    close_block(2, 0, &mut bytes)?;
    Ok(bytes)
}

// The same with one point.
fn gauge_of_one(alloc: Global, sizes: [usize; 3]) -> Result<Vec<u8>, Fail> {
    let point = field(alloc, &[&POINT])?;
    gauge(alloc, sizes, point.as_slice())
}

// Why a request is refused whose service has so many bytes.
fn fault_of_service(alloc: Global, size: usize) -> Result<Option<RequestFault>, Fail> {
    let mut value = text(alloc, size)?;
    close_block(2, 0, &mut value)?;
    let service = field(alloc, &[&SERVICE_KEY, value.as_slice()])?;
    let bytes = request(alloc, &[service.as_slice(), &INSTANCE], &[])?;
    Ok(fault(alloc, bytes.as_slice()))
}

#[test]
fn long_texts_are_refused_where_they_begin(rt: HostRuntime) -> Result<(), Fail> {
    let alloc = rt.alloc();
    for (sizes, at) in ONE_IS_LONG {
        let bytes = gauge_of_one(alloc, sizes)?;
        assert_eq!(rt;
            fault_behind(alloc, bytes.as_slice())?,
            Some(RequestReason::TooLongText.at(at))
        );
    }
    let all_fit = gauge_of_one(alloc, ALL_FIT)?;
    assert!(rt; says_one(alloc, all_fit.as_slice(), all_fit.as_slice())?);
    assert_eq!(rt;
        fault_of_service(alloc, 1025)?,
        Some(RequestReason::TooLongText.at(6))
    );
    assert_eq!(rt; fault_of_service(alloc, 1024)?, None);
    Ok(())
}

// A point with an attribute for each number. The keys rise as the numbers do.
fn point_of(alloc: Global, numbers: &[u8]) -> Result<Vec<u8>, Fail> {
    let mut attributes = Vec::new(alloc);
    for number in numbers {
        let key = [b'a' + number / 16, b'a' + number % 16];
        attributes.extend_from_slice(&[58, 8, 10, 2, key[0], key[1], 18, 2, 24, number % 128])?;
    }
    field(alloc, &[&POINT, attributes.as_slice()])
}

// The numbers below one, the least first or the greatest.
fn below(alloc: Global, count: u8, rising: bool) -> Result<Vec<u8>, Fail> {
    let mut numbers = Vec::new(alloc);
    for number in 0..count {
        numbers.push(if rising { number } else { count - 1 - number })?;
    }
    Ok(numbers)
}

fn gauge_of_numbers(alloc: Global, numbers: &[u8]) -> Result<Vec<u8>, Fail> {
    let mut points = point_of(alloc, &[1])?;
    points.extend_from_slice(point_of(alloc, numbers)?.as_slice())?;
    gauge(alloc, [1, 1, 1], points.as_slice())
}

#[test]
fn a_point_has_128_attributes_in_any_order(rt: HostRuntime) -> Result<(), Fail> {
    let alloc = rt.alloc();
    let rising = gauge_of_numbers(alloc, below(alloc, 128, true)?.as_slice())?;
    let falling = gauge_of_numbers(alloc, below(alloc, 128, false)?.as_slice())?;
    assert!(rt; says_one(alloc, falling.as_slice(), rising.as_slice())?);
    let many = gauge_of_numbers(alloc, below(alloc, 129, true)?.as_slice())?;
    assert_eq!(rt;
        fault_behind(alloc, many.as_slice())?,
        Some(RequestReason::TooManyAttributes.at(1))
    );
    Ok(())
}

#[test]
fn one_of_128_attributes_comes_twice(rt: HostRuntime) -> Result<(), Fail> {
    let alloc = rt.alloc();
    let mut numbers = below(alloc, 127, false)?;
    numbers.push(126)?;
    let twice = gauge_of_numbers(alloc, numbers.as_slice())?;
    assert_eq!(rt;
        fault_behind(alloc, twice.as_slice())?,
        Some(RequestReason::AttributeTwice.at(1))
    );
    Ok(())
}

fn long(alloc: Global, size: usize) -> Result<Txt, Fail> {
    let bytes = vec![in alloc; b'a'; size]?;
    Ok(Txt::from_str(alloc, str::from_utf8(bytes.as_slice()).unwrap_or(""))?)
}

fn set_of(alloc: Global, count: i64) -> Result<AttrSet, Fail> {
    let mut pairs = Vec::new(alloc);
    for number in 0..count {
        let key = format!(in alloc; "{number}")?;
        pairs.push((
            Txt::from_str(alloc, key.as_str())?,
            AttrValue::Whole(number),
        ))?;
    }
    Ok(AttrSet::from_pairs(pairs)?)
}

fn point(alloc: Global, sizes: [usize; 3], attributes: i64) -> Result<ExportPoint, Fail> {
    let [scope, name, unit] = sizes;
    let stream = Stream {
        scope: long(alloc, scope)?,
        name: long(alloc, name)?,
        unit: long(alloc, unit)?,
        shape: Shape::Sum { monotonic: true },
    };
    Ok(ExportPoint {
        stream: SharedStream::new(alloc, stream)?,
        attrs: set_of(alloc, attributes)?,
        payload: Payload::Sum(7),
    })
}

// Why an export of a good point and this one has no request.
fn fault_of_point(
    alloc: Global,
    sizes: [usize; 3],
    attributes: i64,
) -> Result<Option<OtlpFault>, Fail> {
    let mut points = Vec::new(alloc);
    points.push(point(alloc, [3, 1, 1], 0)?)?;
    points.push(point(alloc, sizes, attributes)?)?;
    Ok(encode_otlp(alloc, &export(alloc, points)?).err())
}

#[test]
fn what_would_not_be_read_is_not_written(rt: HostRuntime) -> Result<(), Fail> {
    let alloc = rt.alloc();
    for (sizes, _) in ONE_IS_LONG {
        assert_eq!(rt;
            fault_of_point(alloc, sizes, 129)?,
            Some(OtlpFault::TooLongText)
        );
    }
    assert_eq!(rt; fault_of_point(alloc, ALL_FIT, 128)?, None);
    assert_eq!(rt;
        fault_of_point(alloc, ALL_FIT, 129)?,
        Some(OtlpFault::TooManyAttributes(1))
    );
    Ok(())
}

// The same of an export without points, of a service of so many bytes.
fn fault_of_writer(alloc: Global, size: usize) -> Result<Option<OtlpFault>, Fail> {
    let writer = writer(alloc, long(alloc, size)?.as_str())?;
    let export = Export::build(alloc, writer, 100, 200, Seq::new(alloc))?;
    Ok(encode_otlp(alloc, &export).err())
}

#[test]
fn no_service_is_long(rt: HostRuntime) -> Result<(), Fail> {
    let alloc = rt.alloc();
    assert_eq!(rt; fault_of_writer(alloc, 1025)?, Some(OtlpFault::TooLongText));
    assert_eq!(rt; fault_of_writer(alloc, 1024)?, None);
    Ok(())
}
