//! What a file has.
ghost use Rattle.std.specs.Prelude.{◌≡◌, IfErr, IfOk};
ghost use Rattle.file_kit.specs.Contents.{form, is_message, Explains, GivesContent, IsContent, IsOf};
ghost use Rattle.file_kit.specs.declared.content.Content.{Content};

use bytes_kit::{DecodeFault, decode_export, decode_message};
use gossip_kit::Message;
use point_kit::Export;
use std::alloc::Global;

// The letter by which the bytes of a message are known, the fourth of them.
const MESSAGE_LETTER: u8 = b'M';

/// What a file has. A state is the message of all that a gateway holds, from it to itself.
#[derive(Debug, Drop)]
pub(crate) enum Content {
    Export(Export),
    Message(Message),
}

// Whether bytes are to be read as those of a message.
fn is_message(bytes: &[u8]) -> bool
    ensures { result ≡ is_message bytes.now }
{
    match bytes.get(3) {
        Some(letter) => *letter == MESSAGE_LETTER,
        None => false,
    }
}

/// What a file of these bytes has.
pub(crate) fn read(alloc: Global, bytes: &[u8]) -> Result<Content, DecodeFault>
    ensures ok { IfOk result (IsOf bytes.now) }
    ensures fault { IfErr result (Explains bytes.now) }
    ensures found { (c : Content) → IsContent c → bytes.now ≡ form c → GivesContent result c }
{
    if is_message(bytes) {
        Ok(Content::Message(decode_message(alloc, bytes)?))
    } else {
        Ok(Content::Export(decode_export(alloc, bytes)?))
    }
}
