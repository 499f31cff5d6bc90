//! Incarnations of which gateways and messages have points, and services of which gateways have, read by their numbers.
ghost use Rattle.std.specs.Option.{option_map};
ghost use Rattle.std.specs.Prelude.{◌≡◌, ◌≢◌, ◌++◌, ◌∷◌, [], pos, length, slice_get, None, Some, IfErr, IfOk, IfSome, OnErr, OnOk};
ghost use Rattle.attr_kit.specs.Refusing.{first};
ghost use Rattle.gateway_kit.specs.Listing.{held_of_ref};
ghost use Rattle.kit_c.specs.Calls.{code_for, filled, full_fault, if_any, of_one};
ghost use Rattle.kit_c.specs.Codes.{no_memory};
ghost use Rattle.kit_c.specs.Held.{gateway_of, incarnations_of, message_of, node_of};
ghost use Rattle.kit_c.specs.Incarnations.{Tells, incarnations_held, told_incarnation};
ghost use Rattle.kit_c.specs.Items.{item_fault};
ghost use Rattle.kit_c.specs.Services.{service_fault, service_of};

use crate::content::Content;
use crate::fault::{FULL, Fault, NO_MEMORY, NOTHING, OK, WRONG_KIND};
use crate::list::item;
use crate::text::copy_front;
use crate::typed::{KitGateway, KitIncarnations, KitMessage};
use crate::with::{fill, tell, with};
use attr_kit::{NoMemory, Seq};
use gateway_kit::{Gateway, IncarnationRef};
use gossip_kit::{Body, Message};
use point_kit::WriterId;
use std::alloc::Global;

/// An incarnation of which there are points: whose it is, since when it runs, the greatest time of its points, and how many they are.
#[derive(Drop)]
pub struct Incarnation {
    pub writer: WriterId,
    pub start: u64,
    pub newest: u64,
    pub points: usize,
}

fn push_copy(list: &mut Vec<Incarnation>, told: IncarnationRef) -> Result<(), NoMemory>
    ensures { OnOk result (list.new.items ≡ list.old.items ++ told_incarnation (held_of_ref told.entry) ∷ []) }
{
    list.push(Incarnation {
        writer: told.writer.try_copy()?,
        start: told.start,
        newest: told.newest,
        points: told.points,
    })?;
    Ok(())
}

fn listed(alloc: Global, gateway: &Gateway) -> Result<Seq<Incarnation>, NoMemory>
    ensures { IfOk result (λ list. list ≡ incarnations_held gateway.now.points) }
{
    let mut list = Vec::with_capacity(alloc, gateway.incarnations_len())?;
    for told in gateway.incarnations() {
        push_copy(&mut list, told)?;
    }
    Ok(Seq::from_vec(list))
}

/// The incarnations of which a gateway, which stays, holds points: each once, by service, instance and start. All of a service are
/// side by side.
///
/// Refused, in this order: `FULL`; `NOTHING`; `NO_MEMORY`. O(incarnations).
#[unsafe(no_mangle)]
pub extern "C" fn kit_gateway_incarnations(
    alloc: Global,
    gateway: &mut KitGateway,
    incarnations: &mut KitIncarnations,
) -> i32
    ensures code { result ≢ no_memory
        → result ≡ code_for (first (full_fault (incarnations_of incarnations.old) ∷ of_one (gateway_of gateway.old) if_any ∷ [])) }
    ensures value { result ≡ pos 0
        → incarnations_of incarnations.new ≡ option_map (λ g. incarnations_held g.points) (gateway_of gateway.old) }
    ensures unchanged { result ≢ pos 0 → incarnations_of incarnations.new ≡ incarnations_of incarnations.old }
    ensures kept { node_of gateway.new ≡ node_of gateway.old }
{
    fill!(alloc, incarnations => with!(alloc, gateway => Gateway(held), listed(alloc, held.gateway())), made => Content::Incarnations(made))
}

fn carried(alloc: Global, message: &Message) -> Result<Seq<Incarnation>, NoMemory>
    ensures { IfOk result (λ list. list ≡ incarnations_held message.now.points) }
{
    match message.body() {
        Body::Whole(points) => listed(alloc, points),
        Body::Delta { cells, .. } => listed(alloc, cells),
        Body::Ack(_) => listed(alloc, &Gateway::new(alloc, message.from())),
    }
}

/// The incarnations of which a message, which stays, carries points, in the same order: who receives it compares them with those of which
/// its sender may speak, before a gateway is handed it.
///
/// Refused, in this order: `FULL`; `NOTHING`; `NO_MEMORY`. O(incarnations).
#[unsafe(no_mangle)]
pub extern "C" fn kit_message_incarnations(
    alloc: Global,
    message: &mut KitMessage,
    incarnations: &mut KitIncarnations,
) -> i32
    ensures code { result ≢ no_memory
        → result ≡ code_for (first (full_fault (incarnations_of incarnations.old) ∷ of_one (message_of message.old) if_any ∷ [])) }
    ensures value { result ≡ pos 0
        → incarnations_of incarnations.new ≡ option_map (λ m. incarnations_held m.points) (message_of message.old) }
    ensures unchanged { result ≢ pos 0 → incarnations_of incarnations.new ≡ incarnations_of incarnations.old }
    ensures kept { message_of message.new ≡ message_of message.old }
{
    fill!(alloc, incarnations => with!(alloc, message => Message(held), carried(alloc, held)), made => Content::Incarnations(made))
}

/// Tells how many incarnations there are: they are numbered from 0.
///
/// Refused: `NOTHING`. O(1), takes no memory.
#[unsafe(no_mangle)]
pub extern "C" fn kit_incarnations_len(
    alloc: Global,
    incarnations: &mut KitIncarnations,
    count: &mut usize,
) -> i32
    ensures code { result ≡ code_for (of_one (incarnations_of incarnations.old) if_any) }
    ensures value { result ≡ pos 0 → IfSome (incarnations_of incarnations.old) (λ is. count.new ≡ length is) }
    ensures told { result ≢ pos 0 → count.new ≡ count.old }
    ensures kept { incarnations_of incarnations.new ≡ incarnations_of incarnations.old }
{
    *count = with!(alloc, incarnations => Incarnations(held), held.len());
    OK
}

fn read(list: &Seq<Incarnation>, number: usize) -> Result<(u64, u64, u64, u64, usize), Fault>
    ensures ok { OnOk result (item_fault number list.now ≡ None) }
    ensures value { IfOk result (λ t. IfSome (slice_get list.now number) (λ i. Tells i t.0 t.1 t.2 t.3 t.4)) }
    ensures err { IfErr result (λ f. item_fault number list.now ≡ Some f) }
{
    let of = item(list, number)?;
    let (high, low) = of.writer.instance.as_u64_pair();
    Ok((high, low, of.start, of.newest, of.points))
}

/// Tells the instance of an incarnation as two numbers, its start, the greatest time of its points, and how many points of it there are.
/// `kit_incarnations_service` tells the service.
///
/// Refused, in this order: `NOTHING`; `NO_ITEM` where there is no incarnation of this number. O(1), takes no memory.
#[unsafe(no_mangle)]
pub extern "C" fn kit_incarnations_read(
    alloc: Global,
    incarnations: &mut KitIncarnations,
    number: usize,
    instance_high: &mut u64,
    instance_low: &mut u64,
    start: &mut u64,
    newest: &mut u64,
    points: &mut usize,
) -> i32
    ensures code { result ≡ code_for (of_one (incarnations_of incarnations.old) (item_fault number)) }
    ensures value { result ≡ pos 0 → IfSome (incarnations_of incarnations.old) (λ is. IfSome (slice_get is number)
        (λ i. Tells i instance_high.new instance_low.new start.new newest.new points.new)) }
    ensures instance_told { result ≢ pos 0 → (instance_high.new ≡ instance_high.old) × (instance_low.new ≡ instance_low.old) }
    ensures told { result ≢ pos 0 → (start.new ≡ start.old) × (newest.new ≡ newest.old) × (points.new ≡ points.old) }
    ensures kept { incarnations_of incarnations.new ≡ incarnations_of incarnations.old }
{
    match with!(alloc, incarnations => Incarnations(held), read(held, number)) {
        Ok((high, low, from, at, len)) => {
            *instance_high = high;
            *instance_low = low;
            *start = from;
            *newest = at;
            *points = len;
            OK
        }
        Err(fault) => fault.code(),
    }
}

fn copy_service(list: &Seq<Incarnation>, number: usize, into: &mut [u8]) -> Result<usize, Fault>
    ensures ok { OnOk result (item_fault number list.now ≡ None) }
    ensures value { OnOk result (IfSome (slice_get list.now number) (λ i. into.new ≡ filled i.writer.service into.old)) }
    ensures len { IfOk result (λ n. IfSome (slice_get list.now number) (λ i. n ≡ length i.writer.service)) }
    ensures err { IfErr result (λ f. item_fault number list.now ≡ Some f) }
    ensures unchanged { OnErr result (into.new ≡ into.old) }
{
    let of = item(list, number)?;
    Ok(copy_front(of.writer.service.as_str().as_bytes(), into))
}

/// Copies the front of the service of an incarnation that has room, and tells in `len` how many bytes it has, in UTF-8 and with no 0 at
/// its end.
///
/// Refused, in this order: `NOTHING`; `NO_ITEM` where there is no incarnation of this number. Takes no memory.
#[unsafe(no_mangle)]
pub extern "C" fn kit_incarnations_service(
    alloc: Global,
    incarnations: &mut KitIncarnations,
    number: usize,
    into: &mut [u8],
    len: &mut usize,
) -> i32
    ensures code { result ≡ code_for (of_one (incarnations_of incarnations.old) (item_fault number)) }
    ensures value { result ≡ pos 0 → IfSome (incarnations_of incarnations.old)
        (λ is. IfSome (slice_get is number) (λ i. into.new ≡ filled i.writer.service into.old)) }
    ensures len { result ≡ pos 0 → IfSome (incarnations_of incarnations.old)
        (λ is. IfSome (slice_get is number) (λ i. len.new ≡ length i.writer.service)) }
    ensures told { result ≢ pos 0 → (into.new ≡ into.old) × (len.new ≡ len.old) }
    ensures kept { incarnations_of incarnations.new ≡ incarnations_of incarnations.old }
{
    tell!(len => with!(alloc, incarnations => Incarnations(held), copy_service(held, number, into)))
}

// The service of a number.
fn service(gateway: &Gateway, number: usize) -> Option<&str>
    ensures { option_map (λ s. s.now) result ≡ service_of number gateway.now }
{
    let mut services = gateway.services();
    services.nth(number)
}

fn copy_service_of(gateway: &Gateway, number: usize, into: &mut [u8]) -> Result<usize, Fault>
    ensures ok { OnOk result (service_fault number gateway.now ≡ None) }
    ensures value { OnOk result (IfSome (service_of number gateway.now) (λ s. into.new ≡ filled s into.old)) }
    ensures len { IfOk result (λ n. IfSome (service_of number gateway.now) (λ s. n ≡ length s)) }
    ensures err { IfErr result (λ f. service_fault number gateway.now ≡ Some f) }
    ensures unchanged { OnErr result (into.new ≡ into.old) }
{
    match service(gateway, number) {
        Some(name) => Ok(copy_front(name.as_bytes(), into)),
        None => Err(Fault::NoItem),
    }
}

/// Copies the front of a service that has room, of those of which a gateway holds points, and tells in `len` how many bytes it has, in
/// UTF-8 and with no 0 at its end. They are numbered from 0, each once, in order.
///
/// Refused, in this order: `NOTHING`; `NO_ITEM` where there is no service of this number: so whoever wants all reads on until then. O(m) of
/// m incarnations, takes no memory.
#[unsafe(no_mangle)]
pub extern "C" fn kit_gateway_service(
    alloc: Global,
    gateway: &mut KitGateway,
    number: usize,
    into: &mut [u8],
    len: &mut usize,
) -> i32
    ensures code { result ≡ code_for (of_one (gateway_of gateway.old) (service_fault number)) }
    ensures value { result ≡ pos 0 → IfSome (gateway_of gateway.old)
        (λ g. IfSome (service_of number g) (λ s. into.new ≡ filled s into.old)) }
    ensures len { result ≡ pos 0 → IfSome (gateway_of gateway.old) (λ g. IfSome (service_of number g) (λ s. len.new ≡ length s)) }
    ensures told { result ≢ pos 0 → (into.new ≡ into.old) × (len.new ≡ len.old) }
    ensures kept { node_of gateway.new ≡ node_of gateway.old }
{
    tell!(len => with!(alloc, gateway => Gateway(held), copy_service_of(held.gateway(), number, into)))
}
