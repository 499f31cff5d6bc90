//! Messages between gateways.
ghost use Rattle.std.specs.Prelude.{◌≡◌};
ghost use Rattle.std.specs.FinMap as finite;
ghost use Rattle.gossip_kit.specs.Bodies.{cells_of, delta_of, ack_of};

use gateway_kit::Gateway;
use std::marker::Model;

/// What a message carries. Of a gateway only the points count: its id and its numbers are nowhere looked at.
#[derive(Debug, Drop)]
pub enum Body {
    /// All that its sender holds.
    Whole(Gateway),
    /// What changed at its sender since the last acknowledged number, and the sender's change number.
    Delta { number: u64, cells: Gateway },
    /// The number of a delta that was taken in.
    Ack(u64),
}

/// What one gateway tells another. `Node::send` and `Node::hand` make it of what a node holds, [`Message::new`] of parts.
#[derive(Debug, Drop)]
pub struct Message {
    from: u32,
    to: u32,
    body: Body,
}

impl Model for Message {
    ghost use Rattle.gossip_kit.specs.Bodies.{cells_of, delta_of, ack_of};
    ghost use Rattle.gossip_kit.specs.Views.{MessageModel};
    ghost use Rattle.std.specs.Coded.{codes};
    ghost use Rattle.std.specs.FinMap.{code};

    ghost Value = { MessageModel };

    ghost coded = { Prim.hlevel (codes, code) };

    ghost view = { λ m. record { from = m.from; to = m.to; points = cells_of m.body; delta = delta_of m.body; ack = ack_of m.body } };
}

impl Message {
    /// A message of these parts, as a codec makes one that came as bytes. Takes no memory and constant time.
    ///
    /// Whether its sender holds the cells, or took in the delta whose number it acknowledges, is the word of whoever gives
    /// the parts. A node that is handed it joins the cells whoever wrote them, and believes an Ack of its sender's id alone:
    /// so a false one can keep cells back from the node of that id, and from no other.
    pub fn new(from: u32, to: u32, body: Body) -> Message
        ensures value { result ≡ record { from = from; to = to; points = cells_of body; delta = delta_of body; ack = ack_of body } }
    {
        Message { from, to, body }
    }

    /// The id of the gateway that made it. Takes no memory and constant time.
    pub fn from(&self) -> u32
        ensures value { result ≡ self.now.from }
    {
        self.from
    }

    /// The id of the gateway that it goes to. Takes no memory and constant time.
    pub fn to(&self) -> u32
        ensures value { result ≡ self.now.to }
    {
        self.to
    }

    /// The number of cells that it carries, 0 for an Ack. Takes no memory and constant time.
    pub fn points_len(&self) -> usize
        ensures value { result ≡ finite.len self.now.points }
    {
        match &self.body {
            Body::Whole(points) => points.len(),
            Body::Delta { cells, .. } => cells.len(),
            Body::Ack(_) => 0,
        }
    }

    /// What it carries. Takes no memory and constant time.
    pub fn body(&self) -> &Body
        ensures points { cells_of result.now ≡ self.now.points }
        ensures delta { delta_of result.now ≡ self.now.delta }
        ensures ack { ack_of result.now ≡ self.now.ack }
    {
        &self.body
    }
}
