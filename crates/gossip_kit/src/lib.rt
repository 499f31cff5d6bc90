//! Gossip: gateways tell each other what changed.
//!
//! - A [`Node`] is a gateway that makes messages (`Node::send`) and takes them in (`Node::hand`).
//! - A [`Message`] goes from one id to another. A delta carries what its sender changed since the last number that the receiver
//!   acknowledged, and is answered by an Ack of its sender's change number.
//! - A [`HandFault`] says why a message is not taken in: it goes to another node, or memory is wanting.
//! - A [`Body`] is what a message carries, for those who carry it elsewhere as bytes.
//!
//! A caller, from `crates/uses/src/gossiping.rt`:
//!
//!     let message: Message = from.send(to.gateway().id())?;
//!     let answer = to.hand(&message)?;
//!     hear_back(from, answer)
//!
//! What a message carries is held by its sender. Joined into anything that has what the receiver acknowledged, it brings that to or
//! above the sender's state. So a message may be lost, doubled, or come late: handing it again changes nothing, and until an Ack is
//! handed each later message brings what an earlier one would have brought. docs/design/GOSSIP.md has drawings.
//!
//! This gossip is the kit's own; the OpenTelemetry specification has none. What contracts cite stands in `specs/`: `Views` (what they
//! see of nodes and messages), `Gossip` (what a message brings, and what is acknowledged), `Bodies`.
#![tactic(auto)]

mod books;
mod fault;
mod message;
mod node;

pub use fault::HandFault;
pub use message::{Body, Message};
pub use node::Node;
