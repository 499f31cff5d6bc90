//! Exports, and messages between gateways, as bytes: made and read, with nothing lost or let in on the way.
//!
//! - [`encode_export`] makes the bytes of an export, [`encode_message`] those of a message. Each has one form.
//!   [`encode_export_into`] and [`encode_message_into`] make it in a buffer that is used again.
//! - [`decode_export`] and [`decode_message`] read that form and no other, or say in a [`DecodeFault`] what is wrong, and where.
//! - Laws: [`one_form`], [`there_and_back`], [`one_message_form`], [`message_there_and_back`], [`stays_sound`] of the cells that
//!   gateways hold, and [`weighs_no_more`] of the memory that is taken for what is read.
//!
//! A caller that takes an export which came as bytes, from `crates/uses/src/passing.rt`:
//!
//!     let export = decode_export(alloc, bytes)?;
//!     Ok(gateway.take(&export)?)
//!
//! docs/design/BYTES.md tells the format byte by byte. What contracts cite stands in `specs/`: `Format` and `Messages` (the one form of
//! each value), `Past` (what came before it), `Fits` and `MessageFits` (which values there are), `Codes` (forms that no two values
//! share), `Reading` (what a reader answers), `Weights` (how much is held) and `FaultTexts` (what a fault prints).
#![tactic(auto)]

mod carried;
mod cells;
mod checksum;
mod decode;
mod encode;
mod fault;
mod fields;
mod history;
mod index;
mod keys;
mod laws;
mod light;
mod messages;
mod passage;
mod passages;
mod piece;
mod pieces;
mod reader;
mod sound;
#[cfg(test)]
mod tests;
mod texts;
mod writer;

pub use decode::decode_export;
pub use encode::{encode_export, encode_export_into};
pub use fault::DecodeFault;
pub use laws::{
    message_there_and_back, one_form, one_message_form, stays_sound, there_and_back, weighs_no_more,
};
pub use messages::{decode_message, encode_message, encode_message_into};
