//! The exports that a request brings.
ghost use Rattle.std.specs.Prelude.{◌≡◌, ◌≢◌, ◌++◌, [], ◌∷◌, map, Ok, Err, Some, None, IfOk, IfErr, OnOk};
ghost use Rattle.point_kit.specs.ExportFaults.{export_fault};
ghost use Rattle.otlp_kit.specs.Reading.{Said, said_of, built, add_export, groups_of, exports_of, add_resource, exports_in, exports_read, nothing_read};
ghost use Rattle.otlp_kit.specs.Fields.{refused};
ghost use Rattle.otlp_kit.specs.Walks.{walk};

use crate::group::{Group, groups_of};
use crate::message::read;
use crate::reading::Reading;
use crate::resource::{Request, ResourceMetrics};
use crate::span::Span;
use crate::writer::{resource_attributes, writer_of};
use crate::{RequestFault, RequestReason};
use attr_kit::{NoMemory, Seq};
use point_kit::{Export, ExportFault, WriterId};
use std::alloc::Global;
use std::mem;

// The export of a group, which has a number.
fn build(
    alloc: Global,
    number: usize,
    writer: WriterId,
    group: Group,
) -> Result<Export, RequestFault>
    ensures writer { IfOk result (λ e. e.writer ≡ writer) }
    ensures start { IfOk result (λ e. e.start ≡ group.start) }
    ensures taken_at { IfOk result (λ e. e.time ≡ group.time) }
    ensures points { IfOk result (λ e. e.points ≡ group.points) }
    ensures ok { OnOk result (export_fault group.start group.time group.points ≡ None) }
    ensures err { IfErr result (λ f. f.why ≢ RequestReason.NoMemory
        → (g : _) × (export_fault group.start group.time group.points ≡ Some g) × (f ≡ refused (RequestReason.BadExport g) number)) }
{
    match Export::build(alloc, writer, group.start, group.time, group.points) {
        Ok(export) => Ok(export),
        Err(ExportFault::NoMemory) => Err(RequestReason::NoMemory.at(0)),
        Err(fault) => Err(RequestReason::BadExport(fault).at(number)),
    }
}

fn push_export(exports: &mut Vec<Export>, export: Export) -> Result<(), NoMemory>
    ensures { OnOk result (exports.new.items ≡ exports.old.items ++ export ∷ []) }
{
    exports.push(export)?;
    Ok(())
}

#[tactic(auto, unfolding(crate::specs::Walks::walk))]
fn add_exports(
    alloc: Global,
    writer: &WriterId,
    groups: Vec<Group>,
    exports: &mut Vec<Export>,
) -> Result<(), RequestFault>
    ensures ok { OnOk result (walk (add_export writer.now) (map said_of exports.old.items) groups.items
        ≡ Ok (map said_of exports.new.items)) }
    ensures err { IfErr result (λ f. f.why ≢ RequestReason.NoMemory
        → walk (add_export writer.now) (map said_of exports.old.items) groups.items ≡ Err f) }
{
    let mut rest = groups.into_iter();
    while let Some(group) = rest.next() {
        let export = build(alloc, exports.len(), writer.try_copy()?, group)?;
        push_export(exports, export)?;
    }
    Ok(())
}

#[tactic(auto, unfolding(crate::specs::Reading::add_resource))]
fn add_resource(
    alloc: Global,
    place: usize,
    resource: &ResourceMetrics,
    reading: &mut Reading,
    exports: &mut Vec<Export>,
) -> Result<(), RequestFault>
    ensures ok { OnOk result (add_resource place (reading.old, map said_of exports.old.items) resource.now
        ≡ Ok (reading.new, map said_of exports.new.items)) }
    ensures err { IfErr result (λ f. f.why ≢ RequestReason.NoMemory
        → add_resource place (reading.old, map said_of exports.old.items) resource.now ≡ Err f) }
{
    let writer = writer_of(place, resource_attributes(&resource.resource))?;
    reading.add_scopes(alloc, resource.scopes.as_slice())?;
    let placed = mem::replace(&mut reading.placed, Seq::new(alloc));
    let groups = groups_of(alloc, placed)?;
    add_exports(alloc, &writer, groups, exports)
}

#[tactic(auto, unfolding(crate::specs::Reading::exports_in, crate::specs::Walks::walk))]
fn exports_in(alloc: Global, request: &Request) -> Result<Vec<Export>, RequestFault>
    ensures ok { IfOk result (λ exports. exports_in request.now ≡ Ok (map said_of exports.items)) }
    ensures err { IfErr result (λ f. f.why ≢ RequestReason.NoMemory → exports_in request.now ≡ Err f) }
{
    let mut reading = Reading::new(alloc);
    let mut exports = Vec::new(alloc);
    for (place, resource) in request.resources.as_slice().iter().enumerate() {
        add_resource(alloc, place, resource, &mut reading, &mut exports)?;
    }
    Ok(exports)
}

/// The exports that a request brings: an `ExportMetricsServiceRequest` of OpenTelemetry's protocol (OTLP), as a Collector or
/// an SDK posts it to `/v1/metrics` with `Content-Type: application/x-protobuf`.
///
/// Each resource makes an export for each start and time of its points, in the order of first appearance; their points keep
/// their order. Its writer is the resource's `service.name`, and its `service.instance.id` as a UUID. A scope is its name.
/// Doubles must be whole numbers below 2^53 in size. Fields that are not known are passed over.
///
/// Refused as [`RequestReason`] tells: first what is wrong with the bytes, at the least place, and then, in the order of the
/// request, what they say; of one message in the order of the variants, but that a histogram is looked at field by field: its sum,
/// its bounds and that they rise, its least value and its greatest. docs/use/INTEROP.md has the whole. `NoMemory` may come at
/// any place of bytes that are not empty. A length is compared with the bytes that are left before it is used.
///
/// Time is O(n) in the bytes, whatever they say, but for sorting: each key of a point is compared with at most 127 others, and
/// what is put in order are the names of a resource's scopes, the hashes of an export's points and the windows of a resource.
/// A name has at most 1,024 bytes, and the others have 64 and 128 bits. So that takes a few comparisons for each bit of their
/// number, of which a length has at most 31.
///
/// Memory is O(n). Each stream has copies of its scope's name, its name and its unit, and each export one of its service. They
/// stand for what has 15 bytes and more of its own, and have at most 1,024 bytes each. So the copies come to at most some 160
/// bytes for each byte, and so does what is hashed.
#[tactic(auto, using(crate::proofs::Empty::no_exports), unfolding(crate::specs::Reading::exports_read))]
pub fn decode_otlp(alloc: Global, bytes: &[u8]) -> Result<Vec<Export>, RequestFault>
    ensures value { IfOk result (λ exports. exports_read bytes.now ≡ Ok (map said_of exports.items)) }
    ensures err { IfErr result (λ f. f.why ≢ RequestReason.NoMemory → exports_read bytes.now ≡ Err f) }
    ensures no_memory { IfErr result (λ f. f.why ≡ RequestReason.NoMemory → bytes.now ≢ []) }
{
    if bytes.is_empty() {
        return Ok(Vec::new(alloc));
    }
    let request = read::<Request>(alloc, &Span::new(bytes))?;
    exports_in(alloc, &request)
}
