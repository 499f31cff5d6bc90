//! Requests byte by byte, as an encoder that shares no code with this one made them. `protoc --decode` reads each.
use super::*;
use attr_kit::{AttrSet, AttrValue, NoMemory, Seq, Txt};
use point_kit::{Export, ExportPoint, Payload, Shape, SharedStream, Stream, WriterId};
use std::alloc::Global;
use std::test::Fail;
use uuid::Uuid;

// A sum of 7, without attributes.
pub(crate) const FIRST: [u8; 151] = [
    10, 148, 1, 10, 87, 10, 61, 10, 19, 115, 101, 114, 118, 105, 99, 101, 46, 105, 110, 115, 116,
    97, 110, 99, 101, 46, 105, 100, 18, 38, 10, 36, 48, 48, 48, 48, 48, 48, 48, 48, 45, 48, 48, 48,
    48, 45, 48, 48, 48, 48, 45, 48, 48, 48, 48, 45, 48, 48, 48, 48, 48, 48, 48, 48, 48, 48, 48, 49,
    10, 22, 10, 12, 115, 101, 114, 118, 105, 99, 101, 46, 110, 97, 109, 101, 18, 6, 10, 4, 115,
    104, 111, 112, 18, 57, 10, 5, 10, 3, 97, 112, 112, 18, 48, 10, 8, 114, 101, 113, 117, 101, 115,
    116, 115, 26, 1, 49, 58, 33, 10, 27, 17, 100, 0, 0, 0, 0, 0, 0, 0, 25, 200, 0, 0, 0, 0, 0, 0,
    0, 49, 7, 0, 0, 0, 0, 0, 0, 0, 16, 2, 24, 1,
];

// All kinds of values, and keys in the order of their bytes.
pub(crate) const ATTRIBUTES: [u8; 357] = [
    10, 226, 2, 10, 87, 10, 61, 10, 19, 115, 101, 114, 118, 105, 99, 101, 46, 105, 110, 115, 116,
    97, 110, 99, 101, 46, 105, 100, 18, 38, 10, 36, 48, 48, 48, 48, 48, 48, 48, 48, 45, 48, 48, 48,
    48, 45, 48, 48, 48, 48, 45, 48, 48, 48, 48, 45, 48, 48, 48, 48, 48, 48, 48, 48, 48, 48, 48, 49,
    10, 22, 10, 12, 115, 101, 114, 118, 105, 99, 101, 46, 110, 97, 109, 101, 18, 6, 10, 4, 115,
    104, 111, 112, 18, 134, 2, 10, 5, 10, 3, 97, 112, 112, 18, 252, 1, 10, 8, 114, 101, 113, 117,
    101, 115, 116, 115, 26, 1, 49, 58, 236, 1, 10, 229, 1, 17, 100, 0, 0, 0, 0, 0, 0, 0, 25, 200,
    0, 0, 0, 0, 0, 0, 0, 49, 1, 0, 0, 0, 0, 0, 0, 0, 58, 18, 10, 1, 90, 18, 13, 10, 11, 117, 112,
    112, 101, 114, 32, 102, 105, 114, 115, 116, 58, 23, 10, 16, 104, 116, 116, 112, 46, 115, 116,
    97, 116, 117, 115, 95, 99, 111, 100, 101, 18, 3, 24, 200, 1, 58, 20, 10, 5, 108, 101, 97, 115,
    116, 18, 11, 24, 128, 128, 128, 128, 128, 128, 128, 128, 128, 1, 58, 20, 10, 5, 109, 105, 110,
    117, 115, 18, 11, 24, 255, 255, 255, 255, 255, 255, 255, 255, 255, 1, 58, 18, 10, 4, 109, 111,
    115, 116, 18, 10, 24, 255, 255, 255, 255, 255, 255, 255, 255, 127, 58, 8, 10, 2, 110, 111, 18,
    2, 16, 0, 58, 24, 10, 8, 113, 117, 111, 116, 101, 34, 92, 10, 18, 12, 10, 10, 97, 34, 98, 92,
    99, 10, 100, 9, 101, 13, 58, 9, 10, 3, 121, 101, 115, 18, 2, 16, 1, 58, 13, 10, 4, 122, 101,
    114, 111, 18, 5, 10, 3, 97, 0, 98, 58, 29, 10, 9, 195, 156, 110, 195, 175, 99, 111, 100, 101,
    18, 16, 10, 14, 230, 151, 165, 230, 156, 172, 232, 170, 158, 32, 240, 159, 141, 181, 16, 2, 24,
    1,
];

// Histograms: without bounds, with bounds below 0 and no values, and with a range.
pub(crate) const HISTOGRAMS: [u8; 361] = [
    10, 230, 2, 10, 87, 10, 61, 10, 19, 115, 101, 114, 118, 105, 99, 101, 46, 105, 110, 115, 116,
    97, 110, 99, 101, 46, 105, 100, 18, 38, 10, 36, 48, 48, 48, 48, 48, 48, 48, 48, 45, 48, 48, 48,
    48, 45, 48, 48, 48, 48, 45, 48, 48, 48, 48, 45, 48, 48, 48, 48, 48, 48, 48, 48, 48, 48, 48, 49,
    10, 22, 10, 12, 115, 101, 114, 118, 105, 99, 101, 46, 110, 97, 109, 101, 18, 6, 10, 4, 115,
    104, 111, 112, 18, 138, 2, 10, 5, 10, 3, 97, 112, 112, 18, 76, 10, 1, 97, 26, 1, 49, 74, 68,
    10, 64, 17, 100, 0, 0, 0, 0, 0, 0, 0, 25, 200, 0, 0, 0, 0, 0, 0, 0, 33, 5, 0, 0, 0, 0, 0, 0, 0,
    41, 0, 0, 0, 0, 0, 0, 64, 64, 50, 8, 5, 0, 0, 0, 0, 0, 0, 0, 89, 0, 0, 0, 0, 0, 0, 0, 0, 97, 0,
    0, 0, 0, 0, 0, 38, 64, 16, 2, 18, 83, 10, 1, 98, 26, 1, 49, 74, 75, 10, 71, 17, 100, 0, 0, 0,
    0, 0, 0, 0, 25, 200, 0, 0, 0, 0, 0, 0, 0, 41, 0, 0, 0, 0, 0, 0, 0, 0, 50, 24, 0, 0, 0, 0, 0, 0,
    0, 0, 0, 0, 0, 0, 0, 0, 0, 0, 0, 0, 0, 0, 0, 0, 0, 0, 58, 16, 0, 0, 0, 0, 0, 0, 36, 192, 0, 0,
    0, 0, 0, 0, 0, 0, 16, 2, 18, 94, 10, 1, 99, 26, 1, 49, 74, 86, 10, 82, 17, 100, 0, 0, 0, 0, 0,
    0, 0, 25, 200, 0, 0, 0, 0, 0, 0, 0, 33, 1, 0, 0, 0, 0, 1, 0, 0, 41, 0, 0, 0, 0, 0, 0, 128, 66,
    50, 16, 0, 0, 0, 0, 0, 1, 0, 0, 1, 0, 0, 0, 0, 0, 0, 0, 58, 8, 0, 0, 0, 0, 0, 0, 240, 63, 89,
    0, 0, 0, 0, 0, 0, 8, 192, 97, 0, 0, 0, 0, 0, 0, 144, 66, 16, 2,
];

// Scopes and streams that interleave.
pub(crate) const SCOPES: [u8; 390] = [
    10, 131, 3, 10, 87, 10, 61, 10, 19, 115, 101, 114, 118, 105, 99, 101, 46, 105, 110, 115, 116,
    97, 110, 99, 101, 46, 105, 100, 18, 38, 10, 36, 48, 48, 48, 48, 48, 48, 48, 48, 45, 48, 48, 48,
    48, 45, 48, 48, 48, 48, 45, 48, 48, 48, 48, 45, 48, 48, 48, 48, 48, 48, 48, 48, 48, 48, 48, 49,
    10, 22, 10, 12, 115, 101, 114, 118, 105, 99, 101, 46, 110, 97, 109, 101, 18, 6, 10, 4, 115,
    104, 111, 112, 18, 95, 10, 3, 10, 1, 97, 18, 88, 10, 1, 120, 26, 1, 49, 58, 80, 10, 36, 17,
    100, 0, 0, 0, 0, 0, 0, 0, 25, 200, 0, 0, 0, 0, 0, 0, 0, 49, 1, 0, 0, 0, 0, 0, 0, 0, 58, 7, 10,
    1, 107, 18, 2, 24, 1, 10, 36, 17, 100, 0, 0, 0, 0, 0, 0, 0, 25, 200, 0, 0, 0, 0, 0, 0, 0, 49,
    2, 0, 0, 0, 0, 0, 0, 0, 58, 7, 10, 1, 107, 18, 2, 24, 2, 16, 2, 24, 1, 18, 48, 10, 3, 10, 1,
    98, 18, 41, 10, 1, 121, 26, 1, 49, 58, 33, 10, 27, 17, 100, 0, 0, 0, 0, 0, 0, 0, 25, 200, 0, 0,
    0, 0, 0, 0, 0, 49, 3, 0, 0, 0, 0, 0, 0, 0, 16, 2, 24, 1, 18, 148, 1, 10, 3, 10, 1, 97, 18, 50,
    10, 1, 120, 26, 1, 49, 58, 42, 10, 36, 17, 100, 0, 0, 0, 0, 0, 0, 0, 25, 200, 0, 0, 0, 0, 0, 0,
    0, 49, 4, 0, 0, 0, 0, 0, 0, 0, 58, 7, 10, 1, 107, 18, 2, 24, 3, 16, 2, 24, 1, 18, 37, 10, 1,
    122, 26, 1, 49, 42, 29, 10, 27, 17, 100, 0, 0, 0, 0, 0, 0, 0, 25, 200, 0, 0, 0, 0, 0, 0, 0, 49,
    5, 0, 0, 0, 0, 0, 0, 0, 18, 50, 10, 1, 120, 26, 1, 49, 58, 42, 10, 36, 17, 100, 0, 0, 0, 0, 0,
    0, 0, 25, 200, 0, 0, 0, 0, 0, 0, 0, 49, 6, 0, 0, 0, 0, 0, 0, 0, 58, 7, 10, 1, 107, 18, 2, 24,
    4, 16, 2, 24, 1,
];

// What is empty or 0 is left out, but not the value of a point or of an attribute.
const DEFAULTS: [u8; 205] = [
    10, 202, 1, 10, 83, 10, 61, 10, 19, 115, 101, 114, 118, 105, 99, 101, 46, 105, 110, 115, 116,
    97, 110, 99, 101, 46, 105, 100, 18, 38, 10, 36, 48, 48, 48, 48, 48, 48, 48, 48, 45, 48, 48, 48,
    48, 45, 48, 48, 48, 48, 45, 48, 48, 48, 48, 45, 48, 48, 48, 48, 48, 48, 48, 48, 48, 48, 48, 49,
    10, 18, 10, 12, 115, 101, 114, 118, 105, 99, 101, 46, 110, 97, 109, 101, 18, 2, 10, 0, 18, 115,
    10, 0, 18, 51, 58, 49, 10, 45, 25, 1, 0, 0, 0, 0, 0, 0, 0, 49, 0, 0, 0, 0, 0, 0, 0, 0, 58, 7,
    10, 1, 102, 18, 2, 16, 0, 58, 7, 10, 1, 110, 18, 2, 24, 0, 58, 7, 10, 1, 116, 18, 2, 10, 0, 16,
    2, 18, 22, 42, 20, 10, 18, 25, 1, 0, 0, 0, 0, 0, 0, 0, 49, 0, 0, 0, 0, 0, 0, 0, 0, 18, 34, 74,
    32, 10, 28, 25, 1, 0, 0, 0, 0, 0, 0, 0, 41, 0, 0, 0, 0, 0, 0, 0, 0, 50, 8, 0, 0, 0, 0, 0, 0, 0,
    0, 16, 2,
];

fn text(alloc: Global, bytes: &str) -> Result<Txt, NoMemory> {
    Txt::from_str(alloc, bytes)
}

pub(crate) fn writer(alloc: Global, service: &str) -> Result<WriterId, NoMemory> {
    Ok(WriterId {
        service: text(alloc, service)?,
        instance: Uuid::from_u128(1),
    })
}

pub(crate) fn export(alloc: Global, points: Vec<ExportPoint>) -> Result<Export, Fail> {
    let writer = writer(alloc, "shop")?;
    Ok(Export::build(alloc, writer, 100, 200, Seq::from_vec(points))?)
}

fn stream(alloc: Global, scope: &str, name: &str, shape: Shape) -> Result<SharedStream, NoMemory> {
    let stream = Stream {
        scope: text(alloc, scope)?,
        name: text(alloc, name)?,
        unit: text(alloc, "1")?,
        shape,
    };
    SharedStream::new(alloc, stream)
}

#[test]
fn the_first_sum(rt: HostRuntime) -> Result<(), Fail> {
    let alloc = rt.alloc();
    let mut points = Vec::new(alloc);
    points.push(ExportPoint {
        stream: stream(alloc, "app", "requests", Shape::Sum { monotonic: true })?,
        attrs: AttrSet::empty(alloc),
        payload: Payload::Sum(7),
    })?;
    let bytes = encode_otlp(alloc, &export(alloc, points)?)?;
    assert_eq!(rt; bytes.as_slice(), FIRST.as_slice());
    Ok(())
}

#[test]
fn all_kinds_of_values(rt: HostRuntime) -> Result<(), Fail> {
    let alloc = rt.alloc();
    let mut pairs = Vec::new(alloc);
    for (key, truth) in [("yes", true), ("no", false)] {
        pairs.push((text(alloc, key)?, AttrValue::Truth(truth)))?;
    }
    for (key, number) in [
        ("minus", -1),
        ("least", i64::MIN),
        ("most", i64::MAX),
        ("http.status_code", 200),
    ] {
        pairs.push((text(alloc, key)?, AttrValue::Whole(number)))?;
    }
    for (key, value) in [
        ("Ünïcode", "日本語 🍵"),
        ("quote\"\\\n", "a\"b\\c\nd\te\r"),
        ("zero", "a\0b"),
        ("Z", "upper first"),
    ] {
        pairs.push((text(alloc, key)?, AttrValue::Text(text(alloc, value)?)))?;
    }
    let mut points = Vec::new(alloc);
    points.push(ExportPoint {
        stream: stream(alloc, "app", "requests", Shape::Sum { monotonic: true })?,
        attrs: AttrSet::from_pairs(pairs)?,
        payload: Payload::Sum(1),
    })?;
    let bytes = encode_otlp(alloc, &export(alloc, points)?)?;
    assert_eq!(rt; bytes.as_slice(), ATTRIBUTES.as_slice());
    Ok(())
}

fn histogram(
    alloc: Global,
    name: &str,
    bounds: &[i64],
    (buckets, count): (&[u64], u64),
    sum: i64,
    range: Option<(i64, i64)>,
) -> Result<ExportPoint, NoMemory> {
    let bounds = Seq::from_vec(bounds.to_vec(alloc)?);
    Ok(ExportPoint {
        stream: stream(alloc, "app", name, Shape::Histogram { bounds })?,
        attrs: AttrSet::empty(alloc),
        payload: Payload::Hist {
            count,
            sum,
            buckets: Seq::from_vec(buckets.to_vec(alloc)?),
            range,
        },
    })
}

#[test]
fn three_histograms(rt: HostRuntime) -> Result<(), Fail> {
    let alloc = rt.alloc();
    let mut points = Vec::new(alloc);
    points.push(histogram(alloc, "a", &[], (&[5], 5), 32, Some((0, 11)))?)?;
    points.push(histogram(alloc, "b", &[-10, 0], (&[0, 0, 0], 0), 0, None)?)?;
    let buckets = [1 << 40, 1];
    let range = Some((-3, 1 << 42));
    points.push(histogram(alloc, "c", &[1], (&buckets, (1 << 40) + 1), 1 << 41, range)?)?;
    let bytes = encode_otlp(alloc, &export(alloc, points)?)?;
    assert_eq!(rt; bytes.as_slice(), HISTOGRAMS.as_slice());
    Ok(())
}

#[test]
fn scopes_that_interleave(rt: HostRuntime) -> Result<(), Fail> {
    let alloc = rt.alloc();
    let mut points = Vec::new(alloc);
    for (scope, name, k, sum) in [
        ("a", "x", Some(1), 1),
        ("a", "x", Some(2), 2),
        ("b", "y", None, 3),
        ("a", "x", Some(3), 4),
        ("a", "z", None, 5),
        ("a", "x", Some(4), 6),
    ] {
        let (shape, payload) = if name == "z" {
            (Shape::Gauge, Payload::Gauge(sum))
        } else {
            (Shape::Sum { monotonic: true }, Payload::Sum(sum))
        };
        let mut pairs = Vec::new(alloc);
        if let Some(k) = k {
            pairs.push((text(alloc, "k")?, AttrValue::Whole(k)))?;
        }
        points.push(ExportPoint {
            stream: stream(alloc, scope, name, shape)?,
            attrs: AttrSet::from_pairs(pairs)?,
            payload,
        })?;
    }
    let bytes = encode_otlp(alloc, &export(alloc, points)?)?;
    assert_eq!(rt; bytes.as_slice(), SCOPES.as_slice());
    Ok(())
}

fn unnamed(
    alloc: Global,
    shape: Shape,
    attrs: AttrSet,
    payload: Payload,
) -> Result<ExportPoint, NoMemory> {
    let empty = Txt::from_str(alloc, "")?;
    let stream = Stream {
        scope: empty.try_copy()?,
        name: empty.try_copy()?,
        unit: empty,
        shape,
    };
    Ok(ExportPoint {
        stream: SharedStream::new(alloc, stream)?,
        attrs,
        payload,
    })
}

#[test]
fn what_is_empty_or_0(rt: HostRuntime) -> Result<(), Fail> {
    let alloc = rt.alloc();
    let mut pairs = Vec::new(alloc);
    pairs.push((text(alloc, "f")?, AttrValue::Truth(false)))?;
    pairs.push((text(alloc, "n")?, AttrValue::Whole(0)))?;
    pairs.push((text(alloc, "t")?, AttrValue::Text(text(alloc, "")?)))?;
    let attrs = AttrSet::from_pairs(pairs)?;
    let sum = Shape::Sum { monotonic: false };
    let mut points = Vec::new(alloc);
    points.push(unnamed(alloc, sum, attrs, Payload::Sum(0))?)?;
    let none = AttrSet::empty(alloc);
    points.push(unnamed(alloc, Shape::Gauge, none, Payload::Gauge(0))?)?;
    let shape = Shape::Histogram {
        bounds: Seq::from_vec(Vec::new(alloc)),
    };
    let zero: [u64; 1] = [0];
    let payload = Payload::Hist {
        count: 0,
        sum: 0,
        buckets: Seq::from_vec(zero.to_vec(alloc)?),
        range: None,
    };
    points.push(unnamed(alloc, shape, AttrSet::empty(alloc), payload)?)?;
    let export = Export::build(alloc, writer(alloc, "")?, 0, 1, Seq::from_vec(points))?;
    let bytes = encode_otlp(alloc, &export)?;
    assert_eq!(rt; bytes.as_slice(), DEFAULTS.as_slice());
    Ok(())
}

// 2^53 + 1 lies in the middle between two doubles, and goes to the even one, which 2^53 is.
#[test]
fn bounds_of_one_double(rt: HostRuntime) -> Result<(), Fail> {
    let alloc = rt.alloc();
    let two = 1 << 53;
    let mut points = Vec::new(alloc);
    points.push(histogram(alloc, "a", &[two + 1, two + 2], (&[0, 0, 0], 0), 0, None)?)?;
    points.push(histogram(alloc, "b", &[two, two + 1], (&[0, 0, 0], 0), 0, None)?)?;
    let fault = encode_otlp(alloc, &export(alloc, points)?).err();
    assert_eq!(rt; fault, Some(OtlpFault::BadBounds(1)));
    Ok(())
}
