//! Gateways: what they take of exports, of each other and of bytes.
ghost use Rattle.std.specs.Option.{option_map, unwrap_or};
ghost use Rattle.std.specs.Prelude.{◌≡◌, ◌≢◌, ◌↔◌, ◌∷◌, [], pos, count_by, IfErr, IfOk, IfSome, IsTrue, None, OnErr, Some};
ghost use Rattle.std.specs.FinMap as finite;
ghost use Rattle.std.specs.FinMap.{entries};
ghost use Rattle.archive_kit.specs.Showing.{shown};
ghost use Rattle.archive_kit.specs.Tombstones.{names_key};
ghost use Rattle.attr_kit.specs.Refusing.{first};
ghost use Rattle.bytes_kit.specs.MessageFits.{IsMessage, IsSoundPoints};
ghost use Rattle.bytes_kit.specs.Messages.{bytes_of_message};
ghost use Rattle.gateway_kit.specs.Queries.{has_conflict, newest_time};
ghost use Rattle.gossip_kit.specs.Gossip.{first_node};
ghost use Rattle.gossip_kit.specs.Views.{MessageModel};
ghost use Rattle.kit_c.specs.Bytes.{IsMessageFault};
ghost use Rattle.kit_c.specs.Calls.{code_for, full_fault, if_any, if_both, of_one, of_two};
ghost use Rattle.kit_c.specs.Codes.{code_of, no_memory};
ghost use Rattle.kit_c.specs.Faults.{text_fault};
ghost use Rattle.kit_c.specs.Gateways.{HasJoined, HasMerged, HasTaken, Joins, changed_by, identity_of, is_late, keys_told, newest_fault, taking_of, whole_of};
ghost use Rattle.kit_c.specs.Held.{bytes_of, export_of, gateway_of, node_of};
ghost use Rattle.kit_c.specs.Places.{place_of};
ghost use Rattle.kit_c.specs.declared.fault.Fault.{Fault};

use crate::content::Content;
use crate::fault::{FULL, Fault, NO_MEMORY, NO_POINT, NOTHING, OK, WRONG_KIND, code_with_place};
use crate::text::text_of;
use crate::typed::{KitBytes, KitExport, KitGateway};
use crate::with::{fill, or_code, with, with_two};
use archive_kit::{Keeper, Taking};
use attr_kit::{NoMemory, Seq};
use bytes_kit::{decode_message, encode_message};
use gateway_kit::Gateway;
use gossip_kit::{Body, Message};
use point_kit::WriterId;
use std::alloc::Global;
use uuid::Uuid;

/// Opens a gateway without points, under an id. The id is for messages (`kit_gateway_send`): among gateways that exchange some each has its
/// own, and one that comes back from its bytes needs one that was never used. Under its old id it would not be sent again what it had
/// acknowledged, and nothing would tell.
///
/// Refused, in this order: `FULL`; `NO_MEMORY`.
#[unsafe(no_mangle)]
pub extern "C" fn kit_gateway_open(alloc: Global, gateway: &mut KitGateway, id: u32) -> i32
    ensures code { result ≢ no_memory → result ≡ code_for (full_fault (node_of gateway.old)) }
    ensures value { result ≡ pos 0
        → node_of gateway.new ≡ Some (first_node (record { id = id; points = finite.empty; numbers = finite.empty })) }
    ensures unchanged { result ≢ pos 0 → node_of gateway.new ≡ node_of gateway.old }
{
    fill!(alloc, gateway => Keeper::new(alloc, id), made => Content::Gateway(made))
}

/// Tells the id of a gateway, how many points it holds, and the number of keys at whose time different values came: two writers recorded
/// under one identity.
///
/// Refused: `NOTHING`. O(1), takes no memory.
#[unsafe(no_mangle)]
pub extern "C" fn kit_gateway_read(
    alloc: Global,
    gateway: &mut KitGateway,
    id: &mut u32,
    points: &mut usize,
    conflicts: &mut u64,
) -> i32
    ensures code { result ≡ code_for (of_one (gateway_of gateway.old) if_any) }
    ensures id { result ≡ pos 0 → IfSome (gateway_of gateway.old) (λ g. id.new ≡ g.id) }
    ensures points { result ≡ pos 0 → IfSome (gateway_of gateway.old) (λ g. points.new ≡ finite.len g.points) }
    ensures conflicts { result ≡ pos 0 → IfSome (gateway_of gateway.old)
        (λ g. conflicts.new ≡ count_by (λ e. has_conflict e.1) (entries g.points)) }
    ensures told { result ≢ pos 0 → (id.new ≡ id.old) × (points.new ≡ points.old) × (conflicts.new ≡ conflicts.old) }
    ensures all_shown { IfSome (gateway_of gateway.old) (λ g. shown names_key g.points ≡ g.points) }
    ensures kept { node_of gateway.new ≡ node_of gateway.old }
{
    let (told, len, count) = with!(alloc, gateway => Gateway(held), read(held.gateway()));
    *id = told;
    *points = len;
    *conflicts = count;
    OK
}

fn read(gateway: &Gateway) -> (u32, usize, u64)
    ensures id { result.0 ≡ gateway.now.id }
    ensures points { result.1 ≡ finite.len gateway.now.points }
    ensures conflicts { result.2 ≡ count_by (λ e. has_conflict e.1) (entries gateway.now.points) }
{
    (gateway.id(), gateway.len(), gateway.conflicts())
}

// What is answered to an export: how many keys changed, and whether it is late.
fn told_of(taking: Taking) -> (u64, bool)
    ensures keys { result.0 ≡ keys_told taking }
    ensures late { result.1 ≡ is_late taking }
{
    match taking {
        Taking::Taken(keys) => (keys, false),
        Taking::Stale => (0, false),
        Taking::Late => (0, true),
    }
}

/// Joins the points of an export, which stays, and forgets what a tombstone then names. It tells the number of keys whose points changed,
/// and whether the export is late: a tombstone that was held before names its incarnation. Of its points only tombstones were taken
/// then, and the number is 0. An export that comes again changes nothing (OpenTelemetry Metrics Data Model, "Single-Writer").
///
/// Refused, in this order: `NOTHING` of the gateway, then of the export; `NO_MEMORY`.
#[unsafe(no_mangle)]
pub extern "C" fn kit_gateway_take(
    alloc: Global,
    gateway: &mut KitGateway,
    export: &mut KitExport,
    changed: &mut u64,
    late: &mut bool,
) -> i32
    ensures code { result ≢ no_memory → result ≡ code_for (of_two (node_of gateway.old) (export_of export.old) if_both) }
    ensures value { result ≡ pos 0 → HasTaken (node_of gateway.old) (export_of export.old) (node_of gateway.new) }
    ensures changed { result ≡ pos 0 → IfSome (node_of gateway.old)
        (λ n. IfSome (export_of export.old) (λ e. changed.new ≡ keys_told (taking_of n e))) }
    ensures late { result ≡ pos 0 → IfSome (node_of gateway.old)
        (λ n. IfSome (export_of export.old) (λ e. late.new ≡ is_late (taking_of n e))) }
    ensures unchanged { result ≢ pos 0 → node_of gateway.new ≡ node_of gateway.old }
    ensures told { result ≢ pos 0 → (changed.new ≡ changed.old) × (late.new ≡ late.old) }
    ensures kept { export_of export.new ≡ export_of export.old }
{
    match with_two!(alloc, gateway => Gateway(held), export => Export(read), held.take(read)) {
        Ok(taking) => {
            let (keys, is_late) = told_of(taking);
            *changed = keys;
            *late = is_late;
            OK
        }
        Err(_) => NO_MEMORY,
    }
}

/// Joins what another gateway holds, which stays, and forgets what a tombstone then names. It tells the number of keys whose points the
/// join changed. What comes again changes nothing, in whatever order.
///
/// Refused, in this order: `NOTHING` of this gateway, then of the other; `NO_MEMORY`.
#[unsafe(no_mangle)]
pub extern "C" fn kit_gateway_merge(
    alloc: Global,
    gateway: &mut KitGateway,
    other: &mut KitGateway,
    changed: &mut u64,
) -> i32
    ensures code { result ≢ no_memory → result ≡ code_for (of_two (node_of gateway.old) (gateway_of other.old) if_both) }
    ensures value { result ≡ pos 0 → HasMerged (node_of gateway.old) (gateway_of other.old) (node_of gateway.new) }
    ensures changed { result ≡ pos 0 → IfSome (node_of gateway.old)
        (λ n. IfSome (gateway_of other.old) (λ g. changed.new ≡ changed_by n g.points)) }
    ensures unchanged { result ≢ pos 0 → node_of gateway.new ≡ node_of gateway.old }
    ensures told { result ≢ pos 0 → changed.new ≡ changed.old }
    ensures kept { node_of other.new ≡ node_of other.old }
{
    match with_two!(alloc, gateway => Gateway(held), other => Gateway(read), held.merge(read.gateway()))
    {
        Ok(keys) => {
            *changed = keys;
            OK
        }
        Err(_) => NO_MEMORY,
    }
}

// Joins what a message carries.
fn join(alloc: Global, gateway: &mut Keeper, message: &Message) -> Result<u64, NoMemory>
    ensures ok { IfOk result (λ keys. keys ≡ changed_by gateway.old message.now.points) }
    ensures value { IfOk result (λ keys. Joins message.now.points gateway.old.acked gateway.old gateway.new) }
    ensures unchanged { OnErr result (gateway.new ≡ gateway.old) }
{
    match message.body() {
        Body::Whole(points) => gateway.merge(points),
        Body::Delta { cells, .. } => gateway.merge(cells),
        Body::Ack(_) => gateway.merge(&Gateway::new(alloc, 0)),
    }
}

// Joins what a message of these bytes carries.
fn join_bytes(alloc: Global, gateway: &mut Keeper, bytes: &[u8]) -> Result<u64, Fault>
    ensures value { IfOk result (λ keys. HasJoined bytes.now keys (Some gateway.old) (Some gateway.new)) }
    ensures err { IfErr result (λ f. code_of f ≢ no_memory → IsMessageFault bytes.now f) }
    ensures found { (m : MessageModel) → IsMessage m → IsSoundPoints m.points → bytes.now ≡ bytes_of_message m
        → IfErr result (λ f. code_of f ≡ no_memory) }
    ensures unchanged { OnErr result (gateway.new ≡ gateway.old) }
{
    match decode_message(alloc, bytes) {
        Ok(message) => Ok(join(alloc, gateway, &message)?),
        Err(fault) => Err(Fault::Decode(fault)),
    }
}

/// Joins what the bytes bring that `kit_gateway_encode` made of a gateway, or `kit_message_encode` of a message, here or in another
/// process. It does so as `kit_gateway_merge` does: a gateway comes back from its bytes by it, once it was opened under an id that was never used.
/// Who made the bytes is not known here.
///
/// Refused, in this order: `NOTHING`; then for the first thing that is wrong with the bytes, with its place: `TRUNCATED`, `BAD_MAGIC`,
/// `BAD_VERSION`, `NOT_CANONICAL`, `NOT_TEXT`, `BAD_CHECKSUM`, `BAD_EXPORT` which tells none; `NO_MEMORY` alone where they are such bytes.
#[unsafe(no_mangle)]
pub extern "C" fn kit_gateway_merge_bytes(
    alloc: Global,
    gateway: &mut KitGateway,
    bytes: &[u8],
    changed: &mut u64,
    place: &mut u64,
) -> i32
    ensures value { result ≡ pos 0 → HasJoined bytes.now changed.new (node_of gateway.old) (node_of gateway.new) }
    ensures told { result ≡ pos 0 → place.new ≡ place.old }
    ensures nothing { node_of gateway.old ≡ None → (result ≡ pos 2) × (place.new ≡ place.old) }
    ensures err { result ≢ pos 0 → result ≢ no_memory → node_of gateway.old ≢ None
        → (f : Fault) × (result ≡ code_of f) × (place.new ≡ unwrap_or (place_of f) place.old) × IsMessageFault bytes.now f }
    ensures found { (m : MessageModel) → IsMessage m → IsSoundPoints m.points → bytes.now ≡ bytes_of_message m
        → node_of gateway.old ≢ None → result ≢ pos 0 → result ≡ no_memory }
    ensures no_memory { result ≡ no_memory → place.new ≡ place.old }
    ensures unchanged { result ≢ pos 0 → node_of gateway.new ≡ node_of gateway.old }
    ensures kept { result ≢ pos 0 → changed.new ≡ changed.old }
{
    match with!(alloc, gateway => Gateway(held), join_bytes(alloc, held, bytes)) {
        Ok(keys) => {
            *changed = keys;
            OK
        }
        Err(fault) => code_with_place(fault, place),
    }
}

fn encode_whole(alloc: Global, gateway: &Gateway) -> Result<Vec<u8>, NoMemory>
    ensures { IfOk result (λ made. made.items ≡ bytes_of_message (whole_of gateway.now)) }
{
    let id = gateway.id();
    encode_message(
        alloc,
        &Message::new(id, id, Body::Whole(gateway.try_copy()?)),
    )
}

/// A gateway's points as bytes, to be kept, and brought back by `kit_gateway_merge_bytes`: those of a message of all that it holds, from it
/// to itself. The gateway stays; its points are copied once.
///
/// Refused, in this order: `FULL`; `NOTHING`; `NO_MEMORY`. O(size of the points).
#[unsafe(no_mangle)]
pub extern "C" fn kit_gateway_encode(
    alloc: Global,
    gateway: &mut KitGateway,
    bytes: &mut KitBytes,
) -> i32
    ensures code { result ≢ no_memory
        → result ≡ code_for (first (full_fault (bytes_of bytes.old) ∷ of_one (gateway_of gateway.old) if_any ∷ [])) }
    ensures value { result ≡ pos 0
        → bytes_of bytes.new ≡ option_map (λ g. bytes_of_message (whole_of g)) (gateway_of gateway.old) }
    ensures unchanged { result ≢ pos 0 → bytes_of bytes.new ≡ bytes_of bytes.old }
    ensures kept { node_of gateway.new ≡ node_of gateway.old }
{
    fill!(alloc, bytes =>
        with!(alloc, gateway => Gateway(held), encode_whole(alloc, held.gateway())),
        made => Content::Bytes(Seq::from_vec(made)))
}

/// Tells whether two gateways hold equal points; their ids are not compared.
///
/// Refused, in this order: `NOTHING` of this gateway, then of the other. Takes no memory.
#[unsafe(no_mangle)]
pub extern "C" fn kit_gateway_same(
    alloc: Global,
    gateway: &mut KitGateway,
    other: &mut KitGateway,
    same: &mut bool,
) -> i32
    ensures code { result ≡ code_for (of_two (gateway_of gateway.old) (gateway_of other.old) if_both) }
    ensures value { result ≡ pos 0 → (g h : _) → gateway_of gateway.old ≡ Some g → gateway_of other.old ≡ Some h
        → IsTrue same.new ↔ (g.points ≡ h.points) }
    ensures told { result ≢ pos 0 → same.new ≡ same.old }
    ensures kept { node_of gateway.new ≡ node_of gateway.old }
    ensures other { node_of other.new ≡ node_of other.old }
{
    *same =
        with_two!(alloc, gateway => Gateway(held), other => Gateway(read), held.gateway().same(read.gateway()));
    OK
}

/// Tells the greatest time that a gateway holds of one incarnation of a service's instance: all that was collected up to then has
/// come. The instance is a UUID as two numbers. O(log n of what is held).
///
/// Refused, in this order: `NOT_TEXT` where the service is no UTF-8; `NOTHING`; `NO_POINT` where nothing of that
/// incarnation is held; `NO_MEMORY`.
#[unsafe(no_mangle)]
pub extern "C" fn kit_gateway_newest(
    alloc: Global,
    gateway: &mut KitGateway,
    service: &[u8],
    instance_high: u64,
    instance_low: u64,
    start: u64,
    time: &mut u64,
) -> i32
    ensures code { result ≢ no_memory → result ≡ code_for (first (text_fault service.now
        ∷ of_one (gateway_of gateway.old) (newest_fault (identity_of service.now instance_high instance_low) start) ∷ [])) }
    ensures value { result ≡ pos 0 → (g : _) → gateway_of gateway.old ≡ Some g
        → newest_time (identity_of service.now instance_high instance_low) start g.points ≡ Some time.new }
    ensures told { result ≢ pos 0 → time.new ≡ time.old }
    ensures kept { node_of gateway.new ≡ node_of gateway.old }
{
    let service = or_code!(text_of(alloc, service));
    let writer = WriterId {
        service,
        instance: Uuid::from_u64_pair(instance_high, instance_low),
    };
    match with!(alloc, gateway => Gateway(held), held.gateway().newest(&writer, start)) {
        Some(told) => {
            *time = told;
            OK
        }
        None => NO_POINT,
    }
}
