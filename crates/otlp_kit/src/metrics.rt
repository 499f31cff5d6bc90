//! Metrics and scopes: points of one stream share a Metric, and points of one scope a ScopeMetrics.
ghost use Rattle.std.specs.Prelude.{◌≡◌, ◌<◌, ◌++◌, length, OnOk};
ghost use Rattle.otlp_kit.specs.Request.{points_of, sum_fields, histogram_fields, metric_data, metric_fields, metric, metrics, scope_fields, scope_metrics, scopes};
ghost use Rattle.otlp_kit.specs.Wire.{block, text_unless_empty};

use crate::points::{Window, write_point};
use crate::runs::{scope_run, stream_run};
use crate::wire::{close_block, write_number, write_text_unless_empty};
use attr_kit::{NoMemory, Txt};
use point_kit::{ExportPoint, Shape, Stream};

// AGGREGATION_TEMPORALITY_CUMULATIVE.
const CUMULATIVE: u64 = 2;

fn write_points(points: &[ExportPoint], covered: Window, out: &mut Vec<u8>) -> Result<(), NoMemory>
    ensures { OnOk result (out.new.items ≡ out.old.items ++ points_of covered.start covered.time points.now) }
{
    for point in points {
        write_point(point, covered, out)?;
    }
    Ok(())
}

fn write_sum_fields(
    monotonic: bool,
    points: &[ExportPoint],
    covered: Window,
    out: &mut Vec<u8>,
) -> Result<(), NoMemory>
    ensures { OnOk result (out.new.items ≡ out.old.items ++ sum_fields monotonic (points_of covered.start covered.time points.now)) }
{
    write_points(points, covered, out)?;
    write_number(2, CUMULATIVE, out)?;
    if monotonic {
        write_number(3, 1, out)?;
    }
    Ok(())
}

fn write_histogram_fields(
    points: &[ExportPoint],
    covered: Window,
    out: &mut Vec<u8>,
) -> Result<(), NoMemory>
    ensures { OnOk result (out.new.items ≡ out.old.items ++ histogram_fields (points_of covered.start covered.time points.now)) }
{
    write_points(points, covered, out)?;
    write_number(2, CUMULATIVE, out)
}

// A gauge, a sum or a histogram of these points.
#[tactic(auto, unfolding(crate::specs::Request::metric_data))]
fn write_data(
    shape: &Shape,
    points: &[ExportPoint],
    covered: Window,
    out: &mut Vec<u8>,
) -> Result<(), NoMemory>
    ensures { OnOk result (out.new.items ≡ out.old.items ++ metric_data shape.now (points_of covered.start covered.time points.now)) }
{
    let start = out.len();
    match shape {
        Shape::Gauge => {
            write_points(points, covered, out)?;
            close_block(5, start, out)
        }
        Shape::Sum { monotonic } => {
            write_sum_fields(*monotonic, points, covered, out)?;
            close_block(7, start, out)
        }
        Shape::Histogram { .. } => {
            write_histogram_fields(points, covered, out)?;
            close_block(9, start, out)
        }
    }
}

#[tactic(auto, unfolding(crate::specs::Request::metric_fields))]
fn write_metric_fields(
    stream: &Stream,
    points: &[ExportPoint],
    covered: Window,
    out: &mut Vec<u8>,
) -> Result<(), NoMemory>
    ensures { OnOk result (out.new.items ≡ out.old.items ++ metric_fields covered.start covered.time stream.now points.now) }
{
    write_text_unless_empty(1, stream.name.as_str(), out)?;
    write_text_unless_empty(3, stream.unit.as_str(), out)?;
    write_data(&stream.shape, points, covered, out)
}

// A Metric of points of one stream.
fn write_metric(points: &[ExportPoint], covered: Window, out: &mut Vec<u8>) -> Result<(), NoMemory>
    requires { 0 < length points.now }
    ensures { OnOk result (out.new.items ≡ out.old.items ++ metric covered.start covered.time points.now) }
{
    let start = out.len();
    write_metric_fields(points[0].stream.get(), points, covered, out)?;
    close_block(2, start, out)
}

// A Metric for each run of points of one stream.
#[tactic(auto, unfolding(crate::specs::Request::metrics))]
fn write_metrics(points: &[ExportPoint], covered: Window, out: &mut Vec<u8>) -> Result<(), NoMemory>
    ensures { OnOk result (out.new.items ≡ out.old.items ++ metrics covered.start covered.time points.now) }
{
    let mut rest = points;
    while !rest.is_empty() {
        let (run, after) = rest.split_at(stream_run(rest));
        write_metric(run, covered, out)?;
        rest = after;
    }
    Ok(())
}

fn write_scope_name(scope: &Txt, out: &mut Vec<u8>) -> Result<(), NoMemory>
    ensures { OnOk result (out.new.items ≡ out.old.items ++ block 1 (text_unless_empty 1 scope.now)) }
{
    let start = out.len();
    write_text_unless_empty(1, scope.as_str(), out)?;
    close_block(1, start, out)
}

#[tactic(auto, unfolding(crate::specs::Request::scope_fields))]
fn write_scope_fields(
    scope: &Txt,
    points: &[ExportPoint],
    covered: Window,
    out: &mut Vec<u8>,
) -> Result<(), NoMemory>
    ensures { OnOk result (out.new.items ≡ out.old.items ++ scope_fields covered.start covered.time scope.now points.now) }
{
    write_scope_name(scope, out)?;
    write_metrics(points, covered, out)
}

// A ScopeMetrics of points of one scope.
fn write_scope(points: &[ExportPoint], covered: Window, out: &mut Vec<u8>) -> Result<(), NoMemory>
    requires { 0 < length points.now }
    ensures { OnOk result (out.new.items ≡ out.old.items ++ scope_metrics covered.start covered.time points.now) }
{
    let start = out.len();
    write_scope_fields(&points[0].stream.get().scope, points, covered, out)?;
    close_block(2, start, out)
}

/// A ScopeMetrics for each run of points of one scope.
#[tactic(auto, unfolding(crate::specs::Request::scopes))]
pub(crate) fn write_scopes(
    points: &[ExportPoint],
    covered: Window,
    out: &mut Vec<u8>,
) -> Result<(), NoMemory>
    ensures { OnOk result (out.new.items ≡ out.old.items ++ scopes covered.start covered.time points.now) }
{
    let mut rest = points;
    while !rest.is_empty() {
        let (run, after) = rest.split_at(scope_run(rest));
        write_scope(run, covered, out)?;
        rest = after;
    }
    Ok(())
}
