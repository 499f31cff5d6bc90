//! What files of exports are sent as.
ghost use Rattle.std.specs.Prelude.{◌≡◌, All, map, IfErr, IfOk, OnOk};
ghost use Rattle.file_kit.specs.Contents.{HasContent, IsRefused};
ghost use Rattle.file_kit.specs.Sending.{AreRequests, IsRequest, IsState, IsUnsaid, IsUnsent, IsUnsentAt};
ghost use Rattle.otlp_kit.specs.Request.{request};

use crate::{FileFault, SendFault, kept};
use bytes_kit::{DecodeFault, decode_export, encode_message};
use gossip_kit::{Body, Message};
use otlp_kit::{OtlpFault, encode_otlp};
use point_kit::Export;
use std::alloc::Global;

fn request_of(alloc: Global, place: usize, export: &Export) -> Result<Vec<u8>, SendFault>
    ensures ok { IfOk result (λ bytes. bytes.items ≡ request export.now) }
    ensures err { IfErr result (IsUnsaid place export.now) }
{
    match encode_otlp(alloc, export) {
        Ok(bytes) => Ok(bytes),
        Err(OtlpFault::NoMemory) => Err(SendFault::NoMemory),
        Err(fault) => Err(SendFault::Unsaid { place, fault }),
    }
}

// The request of the file at a place.
fn file_request(alloc: Global, place: usize, bytes: &[u8]) -> Result<Vec<u8>, SendFault>
    ensures ok { IfOk result (λ made. IsRequest bytes.now made.items) }
    ensures err { IfErr result (IsUnsentAt place bytes.now) }
{
    match decode_export(alloc, bytes) {
        Ok(export) => request_of(alloc, place, &export),
        Err(DecodeFault::NoMemory) => Err(SendFault::NoMemory),
        Err(fault) => Err(SendFault::Refused { place, fault }),
    }
}

/// The OTLP request of the exports of files: `ExportMetricsServiceRequest`, with the `resource_metrics` of each export in the order of
/// the files. Exports are not joined.
///
/// Refused for the first file that has no export, or whose export has no request, with the reason; then `NoMemory`. O(n) in the bytes.
pub fn otlp(alloc: Global, files: &[Vec<u8>]) -> Result<Vec<u8>, SendFault>
    ensures value { IfOk result (λ bytes. AreRequests (map (λ f. f.items) files.now) bytes.items) }
    ensures err { IfErr result (IsUnsent (map (λ f. f.items) files.now)) }
{
    let mut bytes = Vec::new(alloc);
    for (place, file) in files.iter().enumerate() {
        let request = file_request(alloc, place, file.as_slice())?;
        bytes.extend_from_slice(request.as_slice())?;
    }
    Ok(bytes)
}

/// The bytes of the state that files come to: a message of all that they show, from the gateway 0 to itself. So it can be brought back,
/// joined again, or handed to whoever reads messages. Tombstones are shown, and what they name is left out: whoever joins the state
/// counts each incarnation once, a plain gateway too.
///
/// Refused as [`kept`] refuses, at its cost and that of `encode_message`.
pub fn merged(alloc: Global, files: &[Vec<u8>]) -> Result<Vec<u8>, FileFault>
    ensures value { IfOk result (λ bytes. IsState (map (λ f. f.items) files.now) bytes.items) }
    ensures whole { OnOk result (All HasContent (map (λ f. f.items) files.now)) }
    ensures err { IfErr result (IsRefused (map (λ f. f.items) files.now)) }
{
    let keeper = kept(alloc, files)?;
    let gateway = keeper.gateway().try_copy()?;
    let id = gateway.id();
    let state = Message::new(id, id, Body::Whole(gateway));
    Ok(encode_message(alloc, &state)?)
}
