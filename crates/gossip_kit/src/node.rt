//! Gateways that send and take messages.
ghost use Rattle.std.specs.Prelude.{◌≡◌, ◌≢◌, ◌≤◌, nat_lt, if◌then◌else◌, IsSome, [], ◌∷◌, length, Ok, OnOk, OnErr, IfOk, IfErr, Some, None, ℕ};
ghost use Rattle.std.specs.FinMap as finite;
ghost use Rattle.point_kit.specs.Exports.{join_points, changed_points, state};
ghost use Rattle.gateway_kit.specs.Queries.{incarnation_points};
ghost use Rattle.gossip_kit.specs.Gossip.{acknowledged, acked_after, answer_of, first_node, carried_to, delta_to, hand_fault, last_number, next_number, recent_to, Brings, CarriesHeld, Renumbers, without_incarnation, without_other_streams};

use crate::books::Books;
use crate::message::Body;
use crate::{HandFault, Message};
use attr_kit::NoMemory;
use gateway_kit::Gateway;
use point_kit::{Export, SharedStream, WriterId};
use std::alloc::Global;
use std::marker::Model;

/// The greatest change number, where numbering ends.
const LAST_NUMBER: u64 = 1 << 62;

/// A gateway that sends and takes messages. The ids of nodes that exchange messages are distinct.
///
/// It counts the changes of its points, and its gateway numbers each key by its last change. Numbers end at
/// 2^62: a node that reached it sends all that it holds.
#[derive(Debug, Drop)]
pub struct Node {
    alloc: Global,
    gateway: Gateway,
    /// How often its points changed.
    change: u64,
    books: Books,
}

impl Model for Node {
    ghost use Rattle.std.specs.Prelude.{◌≤◌};
    ghost use Rattle.std.specs.Coded.{codes};
    ghost use Rattle.std.specs.FinMap.{code};
    ghost use Rattle.gossip_kit.specs.Gossip.{last_number};
    ghost use Rattle.gossip_kit.specs.Views.{NodeModel};

    ghost Value = { NodeModel };

    ghost coded = { Prim.hlevel (codes, code) };

    ghost view = { λ n. record { gateway = n.gateway; change = n.change; acked = n.books } };

    ghost invariant = { λ n. n.change ≤ last_number };
}

impl Node {
    /// A node of this gateway, none of whose keys has changed yet, and to which nobody has acknowledged anything. Numbers
    /// that the gateway has are dropped. Takes no memory; O(m) of m incarnations, and O(k) of the k points in those of
    /// them where keys are numbered.
    pub fn new(alloc: Global, gateway: Gateway) -> Node
        ensures value { result ≡ first_node gateway }
    {
        Node {
            alloc,
            gateway: gateway.without_numbers(),
            change: 0,
            books: Books::new(alloc),
        }
    }

    /// Its gateway. Takes no memory and constant time.
    pub fn gateway(&self) -> &Gateway
        ensures value { result.now ≡ self.now.gateway }
    {
        &self.gateway
    }

    /// Joins the points of an export into the gateway and answers how many keys changed: they get the number of the next
    /// change. Where memory is refused nothing has changed. An export without points changes nothing and takes no memory.
    /// The cost is that of `Gateway::take`.
    pub fn take(&mut self, export: &Export) -> Result<u64, NoMemory>
        ensures id { self.new.gateway.id ≡ self.old.gateway.id }
        ensures ok { OnOk result (self.new.gateway.points ≡ join_points self.old.gateway.points (state (export.now ∷ []))) }
        ensures value { IfOk result (λ changed. changed ≡ changed_points self.old.gateway.points self.new.gateway.points) }
        ensures numbers { OnOk result (Renumbers self.old self.new) }
        ensures acked { self.new.acked ≡ self.old.acked }
        ensures unchanged { OnErr result (self.new ≡ self.old) }
        ensures no_points { export.now.points ≡ [] → result ≡ Ok 0 }
    {
        let number = self.next();
        let changed = self.gateway.take_numbered(export, number)?;
        self.count(number, changed);
        Ok(changed)
    }

    /// Joins what another gateway holds and answers how many keys changed: they get the number of the next change. Where
    /// memory is refused nothing has changed. A gateway without points changes nothing and takes no memory. The cost is that
    /// of `Gateway::merge`.
    pub fn merge(&mut self, other: &Gateway) -> Result<u64, NoMemory>
        ensures id { self.new.gateway.id ≡ self.old.gateway.id }
        ensures ok { OnOk result (self.new.gateway.points ≡ join_points self.old.gateway.points other.now.points) }
        ensures value { IfOk result (λ changed. changed ≡ changed_points self.old.gateway.points self.new.gateway.points) }
        ensures numbers { OnOk result (Renumbers self.old self.new) }
        ensures acked { self.new.acked ≡ self.old.acked }
        ensures unchanged { OnErr result (self.new ≡ self.old) }
        ensures no_points { other.now.points ≡ finite.empty → result ≡ Ok 0 }
    {
        let number = self.next();
        let changed = self.gateway.merge_numbered(other, number)?;
        self.count(number, changed);
        Ok(changed)
    }

    /// Drops the points of one incarnation of a writer with their numbers, and says how many there were: what
    /// `Gateway::forget` does, at its cost. The change number and what peers acknowledged stay, so what `send` owes each of
    /// them is as before, without these points. What comes of them later, as from a peer that holds them, is taken as new.
    pub fn forget(&mut self, writer: &WriterId, start: u64) -> u64
        ensures id { self.new.gateway.id ≡ self.old.gateway.id }
        ensures value { self.new.gateway.points ≡ without_incarnation writer.now start self.old.gateway.points }
        ensures numbers { self.new.gateway.numbers ≡ without_incarnation writer.now start self.old.gateway.numbers }
        ensures change { self.new.change ≡ self.old.change }
        ensures acked { self.new.acked ≡ self.old.acked }
        ensures dropped { result ≡ length (incarnation_points writer.now start self.old.gateway.points) }
        ensures acknowledged { (to : ℕ) → acknowledged self.new to ≡ without_incarnation writer.now start (acknowledged self.old to) }
        ensures carried { (to : ℕ) → carried_to self.new to ≡ without_incarnation writer.now start (carried_to self.old to) }
    {
        self.gateway.forget(writer, start)
    }

    /// Drops the points of one incarnation of a writer with their numbers, but for those of a stream: what `Gateway::forget_but` does,
    /// at its cost. The change number and what peers acknowledged stay, as `forget` leaves them.
    pub fn forget_but(&mut self, writer: &WriterId, start: u64, stream: &SharedStream)
        ensures id { self.new.gateway.id ≡ self.old.gateway.id }
        ensures value { self.new.gateway.points ≡ without_other_streams writer.now start stream.now self.old.gateway.points }
        ensures numbers { self.new.gateway.numbers ≡ without_other_streams writer.now start stream.now self.old.gateway.numbers }
        ensures change { self.new.change ≡ self.old.change }
        ensures acked { self.new.acked ≡ self.old.acked }
        ensures acknowledged { (to : ℕ) → acknowledged self.new to
            ≡ without_other_streams writer.now start stream.now (acknowledged self.old to) }
        ensures carried { (to : ℕ) → carried_to self.new to
            ≡ without_other_streams writer.now start stream.now (carried_to self.old to) }
    {
        self.gateway.forget_but(writer, start, stream);
    }

    // The number of the next change.
    fn next(&self) -> u64
        ensures { result ≡ next_number self.now.change }
    {
        if self.change < LAST_NUMBER {
            self.change + 1
        } else {
            LAST_NUMBER
        }
    }

    // Counts a change of this number, where it changed any keys.
    fn count(&mut self, number: u64, keys: u64)
        requires { number ≤ last_number }
        ensures { self.new ≡ record self.old { change = if nat_lt 0 keys then number else self.old.change } }
    {
        if keys > 0 {
            self.change = number;
        }
    }

    // The cells that a message to the node of an id carries, where numbers have not ended.
    fn cells_to(&self, to: u32) -> Result<Gateway, NoMemory>
        ensures { IfOk result (λ cells. cells.points ≡ recent_to self.now to) }
    {
        match self.books.number(to) {
            Some(number) => self.gateway.since(self.alloc, number),
            None => self.gateway.try_copy(),
        }
    }

    /// A message to the node of an id: this gateway may be that node's own. What it carries is held here under the same
    /// keys and, joined into anything that has what that node acknowledged, brings it to or above what is held here.
    ///
    /// It is a delta: it carries the cells of the keys numbered above the greatest number that that node acknowledged, or
    /// all where it acknowledged none, and asks for an Ack of the change number of this node. Where numbers ended it
    /// carries all and asks for none. A delta costs what `Gateway::since` does: a copy of each cell that it carries, a walk
    /// over the cell's block of 16 keys and over the shelf of up to 256 incarnations on which its own stands, and a look for each
    /// shelf and for each 512 keys of incarnations in which a key changed since. Else all cells are copied.
    pub fn send(&self, to: u32) -> Result<Message, NoMemory>
        ensures from { IfOk result (λ message. message.from ≡ self.now.gateway.id) }
        ensures to { IfOk result (λ message. message.to ≡ to) }
        ensures value { IfOk result (λ message. message.points ≡ carried_to self.now to) }
        ensures delta { IfOk result (λ message. message.delta ≡ delta_to self.now) }
        ensures ack { IfOk result (λ message. message.ack ≡ None) }
        ensures carries { IfOk result (λ message. CarriesHeld message.points self.now.gateway.points) }
        ensures brings { IfOk result (λ message. Brings message.points (acknowledged self.now to) self.now.gateway.points) }
    {
        let number = self.change;
        let body = if number < LAST_NUMBER {
            let cells = self.cells_to(to)?;
            Body::Delta { number, cells }
        } else {
            Body::Whole(self.gateway.try_copy()?)
        };
        Ok(Message::new(self.gateway.id(), to, body))
    }

    /// Takes in a message: joins the cells of a delta or of a whole state, and of an Ack notes that its sender acknowledged
    /// its number. A delta is answered by an Ack of its number to its sender, and no other message is answered. Only an Ack
    /// raises what a peer acknowledged, and nothing lowers it.
    ///
    /// Refused where the message goes to another id, and where memory is refused; then nothing has changed. An Ack takes
    /// memory only where its sender acknowledged nothing before, and a message without cells that is no Ack takes none. The
    /// cost of cells is that of `merge`, that of an Ack is constant.
    #[tactic(auto, unfolding(crate::specs::Gossip::hand_fault))]
    pub fn hand(&mut self, message: &Message) -> Result<Option<Message>, HandFault>
        ensures id { self.new.gateway.id ≡ self.old.gateway.id }
        ensures ok { OnOk result (hand_fault self.old message.now ≡ None) }
        ensures value { OnOk result (self.new.gateway.points ≡ join_points self.old.gateway.points message.now.points) }
        ensures numbers { OnOk result (Renumbers self.old self.new) }
        ensures acked { OnOk result (self.new.acked ≡ acked_after self.old message.now) }
        ensures answer { IfOk result (λ answer. answer ≡ answer_of self.old message.now) }
        ensures err { IfErr result (λ fault. fault ≢ HandFault.NoMemory → hand_fault self.old message.now ≡ Some fault) }
        ensures no_memory { IfErr result (λ fault. fault ≡ HandFault.NoMemory → hand_fault self.old message.now ≡ None) }
        ensures known { IsSome message.now.ack → IsSome (finite.get self.old.acked message.now.from)
            → IfErr result (λ fault. fault ≢ HandFault.NoMemory) }
        ensures no_points { message.now.ack ≡ None → message.now.points ≡ finite.empty
            → IfErr result (λ fault. fault ≢ HandFault.NoMemory) }
        ensures unchanged { OnErr result (self.new ≡ self.old) }
    {
        if message.to() != self.gateway.id() {
            return Err(HandFault::NotAddressed);
        }
        match message.body() {
            Body::Whole(points) => {
                self.merge(points)?;
                Ok(None)
            }
            Body::Delta { number, cells } => {
                self.merge(cells)?;
                let answer = Body::Ack(*number);
                Ok(Some(Message::new(self.gateway.id(), message.from(), answer)))
            }
            Body::Ack(number) => {
                self.books.raise(message.from(), *number)?;
                Ok(None)
            }
        }
    }
}
