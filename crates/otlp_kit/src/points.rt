//! Points: NumberDataPoint and HistogramDataPoint.
ghost use Rattle.std.specs.Prelude.{◌≡◌, ◌++◌, OnOk};
ghost use Rattle.std.specs.Int.{cast_unsigned, w64};
ghost use Rattle.std.specs.List.{flat_map};
ghost use Rattle.point_kit.specs.Orders.{bounds_of};
ghost use Rattle.otlp_kit.specs.Doubles.{double};
ghost use Rattle.otlp_kit.specs.Wire.{block, eight};
ghost use Rattle.otlp_kit.specs.Request.{window, counts, explicit_bounds, range_fields, number_point, fields_of, point};

use crate::attributes::write_attributes;
use crate::doubles::double;
use crate::wire::{close_block, write_eight, write_fixed, write_fixed_unless_zero};
use attr_kit::{AttrSet, NoMemory};
use point_kit::{ExportPoint, Payload, Shape};

/// What the points of an export cover: from its start, excluded, to its time, in nanoseconds since the Unix epoch.
#[derive(Clone, Copy)]
pub(crate) struct Window {
    pub(crate) start: u64,
    pub(crate) time: u64,
}

#[tactic(auto, unfolding(crate::specs::Request::window))]
fn write_window(covered: Window, out: &mut Vec<u8>) -> Result<(), NoMemory>
    ensures { OnOk result (out.new.items ≡ out.old.items ++ window covered.start covered.time) }
{
    write_fixed_unless_zero(2, covered.start, out)?;
    write_fixed_unless_zero(3, covered.time, out)
}

#[tactic(auto, unfolding(crate::specs::Request::number_point))]
fn write_number_point(
    covered: Window,
    value: i64,
    attrs: &AttrSet,
    out: &mut Vec<u8>,
) -> Result<(), NoMemory>
    ensures { OnOk result (out.new.items ≡ out.old.items ++ number_point covered.start covered.time value attrs.now) }
{
    write_window(covered, out)?;
    write_fixed(6, value.cast_unsigned(), out)?;
    write_attributes(7, attrs.pairs(), out)
}

fn write_eights(numbers: &[u64], out: &mut Vec<u8>) -> Result<(), NoMemory>
    ensures { OnOk result (out.new.items ≡ out.old.items ++ flat_map eight numbers.now) }
{
    for number in numbers {
        write_eight(*number, out)?;
    }
    Ok(())
}

fn write_buckets(buckets: &[u64], out: &mut Vec<u8>) -> Result<(), NoMemory>
    ensures { OnOk result (out.new.items ≡ out.old.items ++ block 6 (flat_map eight buckets.now)) }
{
    let start = out.len();
    write_eights(buckets, out)?;
    close_block(6, start, out)
}

// The number of values, their sum, and how many lie in each bucket.
#[tactic(auto, unfolding(crate::specs::Request::counts))]
fn write_counts(count: u64, sum: i64, buckets: &[u64], out: &mut Vec<u8>) -> Result<(), NoMemory>
    ensures { OnOk result (out.new.items ≡ out.old.items ++ counts count sum buckets.now) }
{
    write_fixed_unless_zero(4, count, out)?;
    write_fixed(5, double(sum), out)?;
    write_buckets(buckets, out)
}

fn write_doubles(numbers: &[i64], out: &mut Vec<u8>) -> Result<(), NoMemory>
    ensures { OnOk result (out.new.items ≡ out.old.items ++ flat_map (λ z. eight (double z)) numbers.now) }
{
    for number in numbers {
        write_eight(double(*number), out)?;
    }
    Ok(())
}

// The bounds between buckets, where there are any.
fn write_bounds(bounds: &[i64], out: &mut Vec<u8>) -> Result<(), NoMemory>
    ensures { OnOk result (out.new.items ≡ out.old.items ++ explicit_bounds bounds.now) }
{
    if bounds.is_empty() {
        return Ok(());
    }
    let start = out.len();
    write_doubles(bounds, out)?;
    close_block(7, start, out)
}

// The least and the greatest value, where they are known.
#[tactic(auto, unfolding(crate::specs::Request::range_fields))]
fn write_range(range: &Option<(i64, i64)>, out: &mut Vec<u8>) -> Result<(), NoMemory>
    ensures { OnOk result (out.new.items ≡ out.old.items ++ range_fields range.now) }
{
    if let Some((least, greatest)) = range {
        write_fixed(11, double(*least), out)?;
        write_fixed(12, double(*greatest), out)?;
    }
    Ok(())
}

/// The bounds of a shape: none but of a histogram.
pub(crate) fn bounds_of(shape: &Shape) -> &[i64]
    ensures { result.now ≡ bounds_of shape.now }
{
    match shape {
        Shape::Histogram { bounds } => bounds.as_slice(),
        _ => &[],
    }
}

// The fields of a point.
fn write_fields(point: &ExportPoint, covered: Window, out: &mut Vec<u8>) -> Result<(), NoMemory>
    ensures { OnOk result (out.new.items ≡ out.old.items ++ fields_of covered.start covered.time point.now) }
{
    match &point.payload {
        Payload::Sum(value) => write_number_point(covered, *value, &point.attrs, out),
        Payload::Gauge(value) => write_number_point(covered, *value, &point.attrs, out),
        Payload::Hist {
            count,
            sum,
            buckets,
            range,
        } => {
            write_window(covered, out)?;
            write_counts(*count, *sum, buckets.as_slice(), out)?;
            write_bounds(bounds_of(&point.stream.get().shape), out)?;
            write_attributes(9, point.attrs.pairs(), out)?;
            write_range(range, out)
        }
    }
}

/// A point, as a field of its metric.
#[tactic(auto, unfolding(crate::specs::Request::point))]
pub(crate) fn write_point(
    exported: &ExportPoint,
    covered: Window,
    out: &mut Vec<u8>,
) -> Result<(), NoMemory>
    ensures { OnOk result (out.new.items ≡ out.old.items ++ point covered.start covered.time exported.now) }
{
    let start = out.len();
    write_fields(exported, covered, out)?;
    close_block(1, start, out)
}
