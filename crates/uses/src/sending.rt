//! Exports for systems that speak OpenTelemetry's protocol.
ghost use Rattle.std.specs.Prelude.{◌≡◌, map, None, Ok, IfOk, OnOk};
ghost use Rattle.otlp_kit.specs.Reading.{exports_read, said_of};
ghost use Rattle.otlp_kit.specs.Refusals.{otlp_fault};
ghost use Rattle.otlp_kit.specs.Request.{request};

use otlp_kit::{OtlpFault, RequestFault, decode_otlp, encode_otlp};
use point_kit::Export;
use std::alloc::Global;

/// The body of a POST to a Collector's `/v1/metrics`, which brings an export.
pub fn body_for_collector(alloc: Global, export: &Export) -> Result<Vec<u8>, OtlpFault>
    ensures value { IfOk result (λ bytes. bytes.items ≡ request export.now) }
    ensures ok { OnOk result (otlp_fault export.now ≡ None) }
{
    encode_otlp(alloc, export)
}

/// The exports that a request brings which a Collector, or a service with another SDK, posted to `/v1/metrics`.
pub fn exports_from_collector(alloc: Global, bytes: &[u8]) -> Result<Vec<Export>, RequestFault>
    ensures value { IfOk result (λ exports. exports_read bytes.now ≡ Ok (map said_of exports.items)) }
{
    decode_otlp(alloc, bytes)
}
