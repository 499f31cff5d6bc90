//! What others read: exports as OTLP, and what gateways hold as pages for Prometheus.
ghost use Rattle.std.specs.Option.{option_map};
ghost use Rattle.std.specs.Prelude.{◌≡◌, ◌≢◌, ◌∷◌, [], pos};
ghost use Rattle.attr_kit.specs.Refusing.{first};
ghost use Rattle.otlp_kit.specs.Request.{request};
ghost use Rattle.page_kit.specs.Page.{asked_cells, left_in};
ghost use Rattle.page_kit.specs.Pages.{openmetrics_page, prometheus_page};
ghost use Rattle.kit_c.specs.Calls.{code_for, full_fault, of_one};
ghost use Rattle.kit_c.specs.Codes.{no_memory};
ghost use Rattle.kit_c.specs.Formats.{asked_service, left_out_scope, page_fault, request_fault};
ghost use Rattle.kit_c.specs.Held.{bytes_of, export_of, gateway_of, node_of, text_of as text_in};
ghost use Rattle.kit_c.specs.Places.{TellsPlace};

use crate::content::Content;
use crate::fault::{FULL, Fault, NO_MEMORY, NOTHING, WRONG_KIND, code_with_place};
use crate::text::text_of;
use crate::typed::{KitBytes, KitExport, KitGateway, KitText};
use crate::with::{fill, or_code, with};
use archive_kit::SCOPE;
use attr_kit::{Seq, Txt};
use otlp_kit::encode_otlp;
use page_kit::{openmetrics, prometheus};
use std::alloc::Global;

/// The bytes of the request that brings an export, which stays, to a Collector: the body of a POST to `/v1/metrics`, with
/// `Content-Type: application/x-protobuf` (OTLP).
///
/// Refused, in this order: `FULL`; `NOTHING`; `OTLP_BOUNDS` with the least place of a point whose bounds do not strictly rise as doubles;
/// `TOO_LONG_TEXT`, which tells no place, where the service, a scope, a name or a unit has more than 1,024 bytes; `TOO_MANY_ATTRIBUTES`
/// with the place of the first point that has more than 128; `TOO_LONG` where the request has more than 2,147,483,647 bytes; `NO_MEMORY`. O(n)
/// in the bytes.
#[unsafe(no_mangle)]
pub extern "C" fn kit_export_otlp(
    alloc: Global,
    export: &mut KitExport,
    bytes: &mut KitBytes,
    place: &mut u64,
) -> i32
    ensures code { result ≢ no_memory
        → result ≡ code_for (first (full_fault (bytes_of bytes.old) ∷ of_one (export_of export.old) request_fault ∷ [])) }
    ensures value { result ≡ pos 0 → bytes_of bytes.new ≡ option_map (λ e. request e) (export_of export.old) }
    ensures place { TellsPlace result (first (full_fault (bytes_of bytes.old) ∷ of_one (export_of export.old) request_fault ∷ []))
        place.old place.new }
    ensures unchanged { result ≢ pos 0 → bytes_of bytes.new ≡ bytes_of bytes.old }
    ensures kept { export_of export.new ≡ export_of export.old }
{
    if bytes.handle.full {
        return FULL;
    }
    match with!(alloc, export => Export(held), encode_otlp(alloc, held)) {
        Ok(made) => bytes
            .handle
            .fill(alloc, Content::Bytes(Seq::from_vec(made))),
        Err(fault) => code_with_place(Fault::Otlp(fault), place),
    }
}

// The service of a page, if it is of one alone.
fn asked(only: bool, service: &Txt) -> Option<&str>
    ensures { option_map (λ s. s.now) result ≡ asked_service only service.now }
{
    if only { Some(service.as_str()) } else { None }
}

// The scope that a page leaves out: that of tombstones, unless these are asked for.
fn left_out(tombstones: bool) -> Option<&'static str>
    ensures { option_map (λ s. s.now) result ≡ left_out_scope tombstones }
{
    if tombstones { None } else { Some(SCOPE) }
}

/// The page of what a gateway, which stays, holds, in OpenMetrics 1.0: where `only` is true, of one service alone, else of all: then the
/// service is not looked at. Only where `tombstones` is true it has a row for each tombstone, which tells whom an archive adopted; without
/// them the families of the kit's own count none of them either. It answers a request that accepts `application/openmetrics-text`, with
/// `Content-Type: application/openmetrics-text; version=1.0.0; charset=utf-8`.
///
/// Refused, in this order: `FULL`; `NOT_TEXT` where the service is no UTF-8; `NOTHING`; `NO_MEMORY`. O(n log n) comparisons of labels.
#[unsafe(no_mangle)]
pub extern "C" fn kit_gateway_openmetrics(
    alloc: Global,
    gateway: &mut KitGateway,
    only: bool,
    service: &[u8],
    tombstones: bool,
    text: &mut KitText,
) -> i32
    ensures code { result ≢ no_memory → result ≡ code_for (page_fault (text_in text.old) service.now (gateway_of gateway.old)) }
    ensures value { result ≡ pos 0 → text_in text.new ≡ option_map (λ g. openmetrics_page (left_in (left_out_scope tombstones)
        (asked_cells (asked_service only service.now) g.points))) (gateway_of gateway.old) }
    ensures unchanged { result ≢ pos 0 → text_in text.new ≡ text_in text.old }
    ensures kept { node_of gateway.new ≡ node_of gateway.old }
{
    fill!(alloc, text => {
        let service = or_code!(text_of(alloc, service));
        with!(alloc, gateway => Gateway(held), openmetrics(alloc, held.gateway(), asked(only, &service), left_out(tombstones)))
    }, made => Content::Text(Txt::from_string(made)))
}

/// The same page in Prometheus' text format 0.0.4, with `Content-Type: text/plain; version=0.0.4; charset=utf-8`: for all other requests,
/// for a Pushgateway, and for files.
///
/// Refused, in this order: `FULL`; `NOT_TEXT` where the service is no UTF-8; `NOTHING`; `NO_MEMORY`. O(n log n) comparisons of labels.
#[unsafe(no_mangle)]
pub extern "C" fn kit_gateway_prometheus(
    alloc: Global,
    gateway: &mut KitGateway,
    only: bool,
    service: &[u8],
    tombstones: bool,
    text: &mut KitText,
) -> i32
    ensures code { result ≢ no_memory → result ≡ code_for (page_fault (text_in text.old) service.now (gateway_of gateway.old)) }
    ensures value { result ≡ pos 0 → text_in text.new ≡ option_map (λ g. prometheus_page (left_in (left_out_scope tombstones)
        (asked_cells (asked_service only service.now) g.points))) (gateway_of gateway.old) }
    ensures unchanged { result ≢ pos 0 → text_in text.new ≡ text_in text.old }
    ensures kept { node_of gateway.new ≡ node_of gateway.old }
{
    fill!(alloc, text => {
        let service = or_code!(text_of(alloc, service));
        with!(alloc, gateway => Gateway(held), prometheus(alloc, held.gateway(), asked(only, &service), left_out(tombstones)))
    }, made => Content::Text(Txt::from_string(made)))
}
