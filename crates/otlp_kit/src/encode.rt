//! The request that brings an export.
ghost use Rattle.std.specs.Prelude.{◌≡◌, ◌≢◌, ◌++◌, IfOk, IfErr, OnOk, Some, None};
ghost use Rattle.otlp_kit.specs.Refusals.{early_fault, otlp_fault};
ghost use Rattle.otlp_kit.specs.Request.{resource, resource_metrics, request};
ghost use Rattle.otlp_kit.specs.Wire.{block};

use crate::OtlpFault;
use crate::attributes::write_resource;
use crate::metrics::write_scopes;
use crate::points::Window;
use crate::refusals::early_fault;
use crate::wire::close_block;
use attr_kit::NoMemory;
use point_kit::{Export, WriterId};
use std::alloc::Global;

// A message of Protocol Buffers has at most so many bytes.
const MOST_BYTES: usize = 2147483647;

fn write_resource_field(writer: &WriterId, out: &mut Vec<u8>) -> Result<(), NoMemory>
    ensures { OnOk result (out.new.items ≡ out.old.items ++ block 1 (resource writer.now)) }
{
    let start = out.len();
    write_resource(writer, out)?;
    close_block(1, start, out)
}

#[tactic(auto, unfolding(crate::specs::Request::resource_metrics))]
fn write_resource_metrics(export: &Export, out: &mut Vec<u8>) -> Result<(), NoMemory>
    ensures { OnOk result (out.new.items ≡ out.old.items ++ resource_metrics export.now) }
{
    let covered = Window {
        start: export.start(),
        time: export.time(),
    };
    write_resource_field(export.writer(), out)?;
    write_scopes(export.points(), covered, out)
}

fn write_request(export: &Export, out: &mut Vec<u8>) -> Result<(), NoMemory>
    ensures { OnOk result (out.new.items ≡ out.old.items ++ request export.now) }
{
    let start = out.len();
    write_resource_metrics(export, out)?;
    close_block(1, start, out)
}

/// The bytes of the request that brings an export: an `ExportMetricsServiceRequest` of OpenTelemetry's protocol (OTLP), as
/// any library for Protocol Buffers makes them. They are the body of a POST to `/v1/metrics` of a Collector, with
/// `Content-Type: application/x-protobuf`.
///
/// Points keep their order, and neighbours share a ScopeMetrics where their scope is one, and a Metric where their stream is.
/// The writer is the resource, as `service.instance.id` and `service.name`. Sums and histograms are cumulative. Start and
/// time are nanoseconds since the Unix epoch; a start of 0 is left out, and readers take it for unknown. A histogram's sum,
/// range and bounds are doubles: each is exact up to 2^53, and beyond the nearest double. All else is exact.
///
/// Refused in the order of [`OtlpFault`]: `BadBounds`, `TooLongText` and `TooManyAttributes` before anything is written, then
/// `TooLong`. `NoMemory` comes only where none of the first three does; whether the request is too long is then open. O(n) in
/// the bytes of the request and in the bounds.
pub fn encode_otlp(alloc: Global, export: &Export) -> Result<Vec<u8>, OtlpFault>
    ensures value { IfOk result (λ bytes. bytes.items ≡ request export.now) }
    ensures ok { OnOk result (otlp_fault export.now ≡ None) }
    ensures err { IfErr result (λ f. f ≢ OtlpFault.NoMemory → otlp_fault export.now ≡ Some f) }
    ensures no_memory { IfErr result (λ f. f ≡ OtlpFault.NoMemory → early_fault export.now ≡ None) }
{
    if let Some(fault) = early_fault(export) {
        return Err(fault);
    }
    let mut bytes = Vec::new(alloc);
    write_request(export, &mut bytes)?;
    if bytes.len() > MOST_BYTES {
        return Err(OtlpFault::TooLong);
    }
    Ok(bytes)
}
