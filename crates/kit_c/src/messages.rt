//! Messages, by which gateways tell each other what changed, also as bytes.
ghost use Rattle.std.specs.Option.{is_some, option_map, unwrap_or};
ghost use Rattle.std.specs.Prelude.{◌≡◌, ◌≢◌, ◌∷◌, [], pos, true, None, Some, IfErr, IfOk, IfSome, IsSome, OnErr, OnOk};
ghost use Rattle.attr_kit.specs.Refusing.{first};
ghost use Rattle.bytes_kit.specs.MessageFits.{IsMessage, IsSoundPoints};
ghost use Rattle.bytes_kit.specs.Messages.{bytes_of_message};
ghost use Rattle.gossip_kit.specs.Gossip.{acked_after, answer_of};
ghost use Rattle.gossip_kit.specs.Views.{MessageModel};
ghost use Rattle.kit_c.specs.Bytes.{HasMessageForm, IsMessageFault, IsMessageOf};
ghost use Rattle.kit_c.specs.Calls.{code_for, full_fault, if_any, of_one, of_two};
ghost use Rattle.kit_c.specs.Codes.{code_of, no_memory};
ghost use Rattle.kit_c.specs.Gateways.{Joins};
ghost use Rattle.kit_c.specs.Held.{bytes_of, message_of, node_of};
ghost use Rattle.kit_c.specs.Messages.{HasHeard, IsAckKnown, IsFromTo, IsMessageTo, KnowsAck, answer_in, handing_fault};
ghost use Rattle.kit_c.specs.Owned.{box_value};
ghost use Rattle.kit_c.specs.Places.{place_of};
ghost use Rattle.kit_c.specs.Typed.{is_message, message_in};
ghost use Rattle.kit_c.specs.declared.fault.Fault.{Fault};

use crate::content::Content;
use crate::fault::{FULL, Fault, NO_MEMORY, NOTHING, OK, WRONG_KIND, code_with_place};
use crate::typed::{KitBytes, KitGateway, KitMessage};
use crate::with::{fill, put, with, with_two};
use archive_kit::Keeper;
use attr_kit::{NoMemory, Seq};
use bytes_kit::{decode_message, encode_message};
use gossip_kit::{Body, HandFault, Message};
use std::alloc::Global;

/// A message to the gateway of an id. It carries what changed since the last message of which that gateway's answer was handed here,
/// so a message may be lost, come late or come twice.
///
/// Refused, in this order: `FULL`; `NOTHING`; `NO_MEMORY`.
#[unsafe(no_mangle)]
pub extern "C" fn kit_gateway_send(
    alloc: Global,
    gateway: &mut KitGateway,
    to: u32,
    message: &mut KitMessage,
) -> i32
    ensures code { result ≢ no_memory
        → result ≡ code_for (first (full_fault (message_of message.old) ∷ of_one (node_of gateway.old) if_any ∷ [])) }
    ensures value { result ≡ pos 0 → IsMessageTo to (node_of gateway.old) (message_of message.new) }
    ensures short { result ≡ no_memory → first (full_fault (message_of message.old) ∷ of_one (node_of gateway.old) if_any ∷ []) ≡ None }
    ensures unchanged { result ≢ pos 0 → message_of message.new ≡ message_of message.old }
    ensures kept { node_of gateway.new ≡ node_of gateway.old }
{
    fill!(alloc, message => with!(alloc, gateway => Gateway(held), held.node().send(to)), made => Content::Message(made))
}

// Room for the answer to a message: a delta alone is answered.
fn room_for(alloc: Global, message: &Message) -> Result<Option<Box<Content>>, NoMemory>
    ensures asked { IfOk result (λ room. is_some room ≡ is_some message.now.delta) }
    ensures unasked { message.now.delta ≡ None → IfErr result (λ e. ⊥) }
    ensures acked { IsSome message.now.ack → IfErr result (λ e. ⊥) }
{
    match message.body() {
        Body::Delta { .. } => Ok(Some(Box::new(alloc, Content::Keys(Seq::new(alloc)))?)),
        _ => Ok(None),
    }
}

// An answer, in the room that was taken for it.
fn put_answer(answer: Option<Message>, room: Option<Box<Content>>) -> Option<Box<Content>>
    ensures kind { is_message (box_value result) ≡ true }
    ensures value { (is_some answer ≡ true → is_some room ≡ true) → message_in (box_value result) ≡ answer }
{
    match (answer, room) {
        (Some(answer), Some(mut room)) => {
            *room = Content::Message(answer);
            Some(room)
        }
        _ => None,
    }
}

// Hands a gateway a message. The room of the answer is taken before, since nothing can be refused once the gateway has changed.
#[tactic(auto, unfolding(gossip_kit::specs::Gossip::hand_fault))]
fn hand(
    alloc: Global,
    gateway: &mut Keeper,
    message: &Message,
) -> Result<Option<Box<Content>>, Fault>
    ensures ok { OnOk result (handing_fault gateway.old message.now ≡ None) }
    ensures value { OnOk result (Joins message.now.points (acked_after gateway.old message.now) gateway.old gateway.new) }
    ensures kind { IfOk result (λ made. is_message (box_value made) ≡ true) }
    ensures answer { IfOk result (λ made. message_in (box_value made) ≡ answer_of gateway.old message.now) }
    ensures err { IfErr result (λ f. code_of f ≢ no_memory → handing_fault gateway.old message.now ≡ Some f) }
    ensures short { IfErr result (λ f. code_of f ≡ no_memory → handing_fault gateway.old message.now ≡ None) }
    ensures known { IsAckKnown gateway.old message.now → IfErr result (λ f. code_of f ≢ no_memory) }
    ensures unchanged { OnErr result (gateway.new ≡ gateway.old) }
{
    if message.to() != gateway.gateway().id() {
        return Err(Fault::Hand(HandFault::NotAddressed));
    }
    let room = room_for(alloc, message)?;
    match gateway.hand(message) {
        Ok(answer) => Ok(put_answer(answer, room)),
        Err(fault) => Err(Fault::Hand(fault)),
    }
}

/// Hands a gateway a message, which stays, and forgets what a tombstone then names. It tells whether the message is to be answered: then
/// `answer` has the message to its sender.
///
/// Refused, in this order: `FULL` of the answer; `NOTHING` of the gateway, then of the message; `NOT_ADDRESSED` where the
/// message goes to another id; `NO_MEMORY`.
#[unsafe(no_mangle)]
pub extern "C" fn kit_gateway_hand(
    alloc: Global,
    gateway: &mut KitGateway,
    message: &mut KitMessage,
    answer: &mut KitMessage,
    answered: &mut bool,
) -> i32
    ensures code { result ≢ no_memory → result ≡ code_for (first (full_fault (message_of answer.old)
        ∷ of_two (node_of gateway.old) (message_of message.old) handing_fault ∷ [])) }
    ensures value { result ≡ pos 0 → HasHeard (node_of gateway.old) (message_of message.old) (node_of gateway.new) }
    ensures answer { result ≡ pos 0 → message_of answer.new ≡ answer_in (node_of gateway.old) (message_of message.old) }
    ensures answered { result ≡ pos 0 → answered.new ≡ is_some (answer_in (node_of gateway.old) (message_of message.old)) }
    ensures short { result ≡ no_memory → first (full_fault (message_of answer.old)
        ∷ of_two (node_of gateway.old) (message_of message.old) handing_fault ∷ []) ≡ None }
    ensures known { KnowsAck (node_of gateway.old) (message_of message.old) → result ≢ no_memory }
    ensures unchanged { result ≢ pos 0
        → (node_of gateway.new ≡ node_of gateway.old) × (message_of answer.new ≡ message_of answer.old) }
    ensures told { result ≢ pos 0 → answered.new ≡ answered.old }
    ensures kept { message_of message.new ≡ message_of message.old }
{
    if answer.handle.full {
        return FULL;
    }
    match with_two!(alloc, gateway => Gateway(held), message => Message(read), hand(alloc, held, read))
    {
        Ok(Some(made)) => {
            answer.handle.put(made);
            *answered = true;
            OK
        }
        Ok(None) => {
            *answered = false;
            OK
        }
        Err(fault) => fault.code(),
    }
}

/// Tells from which id and to which a message goes, and how many points it carries: an answer carries none.
///
/// Refused: `NOTHING`. Takes no memory.
#[unsafe(no_mangle)]
pub extern "C" fn kit_message_read(
    alloc: Global,
    message: &mut KitMessage,
    from: &mut u32,
    to: &mut u32,
    points: &mut usize,
) -> i32
    ensures code { result ≡ code_for (of_one (message_of message.old) if_any) }
    ensures value { result ≡ pos 0 → IfSome (message_of message.old) (IsFromTo from.new to.new points.new) }
    ensures told { result ≢ pos 0 → (from.new ≡ from.old) × (to.new ≡ to.old) × (points.new ≡ points.old) }
    ensures kept { message_of message.new ≡ message_of message.old }
{
    let (sender, receiver, carried) =
        with!(alloc, message => Message(held), (held.from(), held.to(), held.points_len()));
    *from = sender;
    *to = receiver;
    *points = carried;
    OK
}

/// The bytes of a message, which stays: they may go to a gateway in another process. Each message has one form.
///
/// Refused, in this order: `FULL`; `NOTHING`; `NO_MEMORY`. O(n) in the bytes.
#[unsafe(no_mangle)]
pub extern "C" fn kit_message_encode(
    alloc: Global,
    message: &mut KitMessage,
    bytes: &mut KitBytes,
) -> i32
    ensures code { result ≢ no_memory
        → result ≡ code_for (first (full_fault (bytes_of bytes.old) ∷ of_one (message_of message.old) if_any ∷ [])) }
    ensures value { result ≡ pos 0 → bytes_of bytes.new ≡ option_map (λ m. bytes_of_message m) (message_of message.old) }
    ensures form { result ≡ pos 0 → HasMessageForm (message_of message.old) }
    ensures unchanged { result ≢ pos 0 → bytes_of bytes.new ≡ bytes_of bytes.old }
    ensures kept { message_of message.new ≡ message_of message.old }
{
    fill!(alloc, bytes => with!(alloc, message => Message(held), encode_message(alloc, held)), made => Content::Bytes(Seq::from_vec(made)))
}

fn decode(alloc: Global, bytes: &[u8]) -> Result<Box<Content>, Fault>
    ensures kind { IfOk result (λ made. is_message (Some made.value) ≡ true) }
    ensures value { IfOk result (λ made. IsMessageOf bytes.now (message_in (Some made.value))) }
    ensures err { IfErr result (λ f. code_of f ≢ no_memory → IsMessageFault bytes.now f) }
    ensures found { (m : MessageModel) → IsMessage m → IsSoundPoints m.points → bytes.now ≡ bytes_of_message m
        → IfErr result (λ f. code_of f ≡ no_memory) }
{
    match decode_message(alloc, bytes) {
        Ok(message) => Ok(Box::new(alloc, Content::Message(message))?),
        Err(fault) => Err(Fault::Decode(fault)),
    }
}

/// The message of bytes that `kit_message_encode` made, here or in another process. Each of its points is one that an export can
/// bring; who made the bytes is not known here.
///
/// Refused, in this order: `FULL`; then for the first thing that is wrong with the bytes, with its place: `TRUNCATED`, `BAD_MAGIC`,
/// `BAD_VERSION`, `NOT_CANONICAL`, `NOT_TEXT`, `BAD_CHECKSUM`, `BAD_EXPORT` which tells none; `NO_MEMORY` alone where they are such a
/// message's.
#[unsafe(no_mangle)]
pub extern "C" fn kit_message_decode(
    alloc: Global,
    message: &mut KitMessage,
    bytes: &[u8],
    place: &mut u64,
) -> i32
    ensures ok { result ≡ pos 0 → full_fault (message_of message.old) ≡ None }
    ensures value { result ≡ pos 0 → IsMessageOf bytes.now (message_of message.new) }
    ensures told { result ≡ pos 0 → place.new ≡ place.old }
    ensures full { message_of message.old ≢ None → (result ≡ pos 4) × (place.new ≡ place.old) }
    ensures err { result ≢ pos 0 → result ≢ no_memory → message_of message.old ≡ None
        → (f : Fault) × (result ≡ code_of f) × (place.new ≡ unwrap_or (place_of f) place.old) × IsMessageFault bytes.now f }
    ensures found { (m : MessageModel) → IsMessage m → IsSoundPoints m.points → bytes.now ≡ bytes_of_message m
        → message_of message.old ≡ None → result ≢ pos 0 → result ≡ no_memory }
    ensures no_memory { result ≡ no_memory → place.new ≡ place.old }
    ensures unchanged { result ≢ pos 0 → message_of message.new ≡ message_of message.old }
{
    put!(message => decode(alloc, bytes), fault => fault, place)
}
