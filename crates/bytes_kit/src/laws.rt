//! What follows from the contracts of encoding and decoding.
ghost use Rattle.std.specs.Prelude.{◌≡◌, ◌≤◌, ◌*◌, ◌∷◌, [], length};
ghost use Rattle.std.specs.FinMap as finite;
ghost use Rattle.gossip_kit.specs.Gossip.{CarriesHeld};
ghost use Rattle.gossip_kit.specs.Views.{MessageModel};
ghost use Rattle.point_kit.specs.Exports.{Points, join_points, state};
ghost use Rattle.point_kit.specs.declared.export.Export.{Export};
ghost use Rattle.bytes_kit.specs.Faults.{GivesBack};
ghost use Rattle.bytes_kit.specs.Format.{bytes_of};
ghost use Rattle.bytes_kit.specs.MessageFits.{GivesMessage, IsOneOf, IsSoundPoints};
ghost use Rattle.bytes_kit.specs.Messages.{bytes_of_message};
ghost use Rattle.bytes_kit.specs.Weights.{export_weight, message_weight};

use crate::{DecodeFault, decode_export, decode_message, encode_export, encode_message};
use gossip_kit::Message;
use point_kit::Export;
use std::alloc::Global;

/// Exports of the same bytes are equal, so exports may be compared by their bytes.
pub fn one_form()
    ensures { (a b : Export) → bytes_of a ≡ bytes_of b → a ≡ b }
{}

/// Messages of the same bytes are equal, as every message carries no cells or is no Ack.
pub fn one_message_form()
    ensures { (a b : MessageModel) → IsOneOf a.points a.delta a.ack → IsOneOf b.points b.delta b.ack
        → bytes_of_message a ≡ bytes_of_message b → a ≡ b }
{}

/// Cells that came by exports are sound, and stay so in gateways that join them and in messages that carry them. So each
/// message of nodes that took exports, and messages of such nodes, comes back from its bytes.
pub fn stays_sound()
    ensures nothing { IsSoundPoints finite.empty }
    ensures exports { (e : Export) → IsSoundPoints (state (e ∷ [])) }
    ensures joins { (a b : Points) → IsSoundPoints a → IsSoundPoints b → IsSoundPoints (join_points a b) }
    ensures messages { (carried points : Points) → CarriesHeld carried points → IsSoundPoints points → IsSoundPoints carried }
{}

/// An export has no more points, streams, pairs, bounds, buckets, and bytes of texts of more than 64 bytes, all added up, than
/// it has bytes: a stream of points behind one another counts once where it is held once, which is where it has no such text
/// and at most 64 bounds. A message, each of whose cells has a writer and a stream of its own, has at most 65 times as many.
/// So what is read takes memory for no more of them.
pub fn weighs_no_more()
    ensures exports { (e : Export) → export_weight e ≤ length (bytes_of e) }
    ensures messages { (m : MessageModel) → message_weight m ≤ 65 * length (bytes_of_message m) }
{}

/// Makes the bytes of an export and reads them: an equal export comes back, or `NoMemory`.
pub fn there_and_back(alloc: Global, export: &Export) -> Result<Export, DecodeFault>
    ensures { GivesBack result export.now }
{
    let bytes = encode_export(alloc, export)?;
    decode_export(alloc, bytes.as_slice())
}

/// Makes the bytes of a message and reads them: where its cells are sound an equal message comes back, or `NoMemory`.
pub fn message_there_and_back(alloc: Global, message: &Message) -> Result<Message, DecodeFault>
    ensures { IsSoundPoints message.now.points → GivesMessage result message.now }
{
    let bytes = encode_message(alloc, message)?;
    decode_message(alloc, bytes.as_slice())
}
