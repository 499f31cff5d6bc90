//! Messages as bytes.
ghost use Rattle.std.specs.Prelude.{◌≡◌, ◌≢◌, ◌++◌, [], IfErr, IfOk, OnErr, OnOk};
ghost use Rattle.gossip_kit.specs.Views.{MessageModel};
ghost use Rattle.bytes_kit.specs.Explaining.{ExplainsMessage, IsFieldsFault};
ghost use Rattle.bytes_kit.specs.MessageFits.{GivesMessage, IsMessage, IsMessageFields, IsSoundPoints};
ghost use Rattle.bytes_kit.specs.Messages.{MessageFields, bytes_of_message, bytes_of_message_fields, message_head, message_fields, fields_of_message};
ghost use Rattle.bytes_kit.specs.Explaining.{IsReadFault};
ghost use Rattle.bytes_kit.specs.Reading.{Reads};
ghost use Rattle.bytes_kit.specs.declared.fault.DecodeFault.TheVariants as faults;

use crate::DecodeFault;
use crate::carried::{Carried, write_body};
use crate::checksum::checksum;
use crate::decode::{read_head, read_seal};
use crate::encode::seal;
use crate::piece::Piece;
use crate::reader::Reader;
use attr_kit::NoMemory;
use gossip_kit::Message;
use std::alloc::Global;

// The letters by which a message is known, and the version.
const HEAD: [u8; 5] = [75, 84, 83, 77, 2];

// What stands between the head and the checksum.
fn write_fields(message: &Message, out: &mut Vec<u8>) -> Result<(), NoMemory>
    ensures written { OnOk result (out.new.items ≡ out.old.items ++ message_fields (fields_of_message message.now)) }
    ensures value { OnOk result (IsMessage message.now) }
{
    message.from().write(out)?;
    message.to().write(out)?;
    write_body(message.body(), out)
}

// Head, fields and checksum.
fn write_sealed(message: &Message, out: &mut Vec<u8>) -> Result<(), NoMemory>
    requires { out.old.items ≡ [] }
    ensures written { OnOk result (out.new.items ≡ bytes_of_message message.now) }
    ensures value { OnOk result (IsMessage message.now) }
{
    out.extend_from_slice(&HEAD)?;
    write_fields(message, out)?;
    seal(out)
}

/// Makes the bytes of a message in a buffer. What the buffer held is gone; its memory is used again.
///
/// Each message has one form, told in docs/design/BYTES.md: of two whose sender, receiver, number and cells are equal the bytes
/// are equal. [`decode_message`] gives the message back of it where each cell is one that an export can bring, as all cells
/// are that came by exports. Refused only where memory is; the buffer is then empty. O(n) in the bytes, and a look-up for
/// each text but those that came of late; beside the buffer memory for each text of at most 64 bytes that comes, once.
pub fn encode_message_into(message: &Message, out: &mut Vec<u8>) -> Result<(), NoMemory>
    ensures ok { OnOk result (out.new.items ≡ bytes_of_message message.now) }
    ensures value { OnOk result (IsMessage message.now) }
    ensures err { OnErr result (out.new.items ≡ []) }
{
    out.clear();
    let written = write_sealed(message, out);
    if written.is_err() {
        out.clear();
    }
    written
}

/// The bytes of a message: see [`encode_message_into`].
pub fn encode_message(alloc: Global, message: &Message) -> Result<Vec<u8>, NoMemory>
    ensures ok { IfOk result (λ bytes. bytes.items ≡ bytes_of_message message.now) }
    ensures value { OnOk result (IsMessage message.now) }
{
    let mut bytes = Vec::new(alloc);
    encode_message_into(message, &mut bytes)?;
    Ok(bytes)
}

// Sender, receiver and what is carried.
fn read_fields(reader: &mut Reader<'_>) -> Result<(u32, u32, Carried), DecodeFault>
    ensures found { Reads message_fields IsMessageFields reader.old.rest result reader.new.rest }
    ensures value { IfOk result IsMessageFields }
    ensures end { reader.new.end ≡ reader.old.end }
    ensures fault { IfErr result (IsReadFault reader.old.end) }
{
    let from = u32::read(reader)?;
    let to = u32::read(reader)?;
    let carried = Carried::read(reader)?;
    Ok((from, to, carried))
}

// The same of all bytes, between head and checksum.
fn read_message(alloc: Global, bytes: &[u8]) -> Result<(u32, u32, Carried), DecodeFault>
    ensures ok { IfOk result (λ s. bytes.now ≡ bytes_of_message_fields s) }
    ensures value { IfOk result IsMessageFields }
    ensures err { IfErr result (λ f. f ≢ faults.NoMemory → (s : MessageFields) → IsMessageFields s
        → bytes.now ≢ bytes_of_message_fields s) }
    ensures fault { IfErr result (λ f. IsFieldsFault message_head message_fields bytes.now f) }
{
    let mut reader = Reader::new(alloc, bytes);
    read_head(&mut reader, b'M')?;
    let fields = read_fields(&mut reader)?;
    let (body, _) = bytes.split_at(bytes.len() - reader.rest_len());
    read_seal(&mut reader, checksum(body))?;
    Ok(fields)
}

/// The message whose bytes these are, in the one form that docs/design/BYTES.md tells.
///
/// Each cell of what is read is one that an export can bring. A fault other than `NoMemory` comes only where these are the
/// bytes of no such message; `BadExport` has the reason of the first cell that no export brings, at its place among the
/// cells. Who made the bytes is not known here: see docs/design/BYTES.md for what a node should check of a sender.
///
/// O(n) in the bytes, and O(n log n) comparisons at the worst, whatever they are: of texts that are new, and of keys for each
/// cell. Memory for at most as many cells as there are bytes: a number of cells, values or bytes is compared with the bytes that are left
/// before it is used, and [`crate::weighs_no_more`] says what is held in the end.
pub fn decode_message(alloc: Global, bytes: &[u8]) -> Result<Message, DecodeFault>
    // What is read has these bytes.
    ensures ok { IfOk result (λ m. bytes_of_message m ≡ bytes.now) }
    // It is a message: its numbers have the sizes of their types, its texts are UTF-8, its keys rise, and an Ack carries nothing.
    ensures value { IfOk result IsMessage }
    // Each of its cells is one that an export can bring.
    ensures sound { IfOk result (λ m. IsSoundPoints m.points) }
    // What each fault says of the bytes.
    ensures fault { IfErr result (ExplainsMessage bytes.now) }
    // The message that has these bytes is read, or there is no memory.
    ensures found { (m : MessageModel) → IsMessage m → IsSoundPoints m.points → bytes.now ≡ bytes_of_message m → GivesMessage result m }
{
    let (from, to, carried) = read_message(alloc, bytes)?;
    if let Some(fault) = carried.fault() {
        return Err(DecodeFault::BadExport(fault));
    }
    let body = carried.into_body(alloc, from)?;
    Ok(Message::new(from, to, body))
}
