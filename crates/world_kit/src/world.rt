//! Worlds.
ghost use Rattle.std.specs.Prelude.{◌≡◌, slice_get};
ghost use Rattle.std.specs.Option.{option_copied};
ghost use Rattle.world_kit.specs.WorldState.{export_at};

use gossip_kit::{Message, Node};
use point_kit::Export;
use std::marker::Model;
use writer_kit::Writer;

/// Writers, gateways, and what went between them: exports and mails, kept by their numbers.
#[derive(Drop)]
pub struct World {
    pub(crate) writers: Vec<Writer>,
    pub(crate) nodes: Vec<Node>,
    pub(crate) exports: Vec<Export>,
    pub(crate) mails: Vec<Message>,
}

impl Model for World {
    ghost use Rattle.std.specs.Coded.{codes};
    ghost use Rattle.gossip_kit.specs.contracts.message.Message as message;
    ghost use Rattle.gossip_kit.specs.contracts.node.Node as node;
    ghost use Rattle.point_kit.specs.contracts.export.Export as export;
    ghost use Rattle.writer_kit.specs.contracts.writer.Writer as writer;
    ghost use Rattle.world_kit.specs.WorldState.{WorldState};

    ghost Value = { WorldState };

    ghost coded = { Prim.hlevel (codes, message.the_row.coded, node.the_row.coded, export.the_row.coded, writer.the_row.coded) };

    ghost view = { λ w. record { writers = w.writers.items; nodes = w.nodes.items; exports = w.exports.items; mails = w.mails.items } };
}

impl World {
    /// The gateway at a place, as a node. Takes no memory and constant time.
    pub fn node(&self, place: usize) -> Option<&Node>
        ensures value { option_copied result ≡ slice_get self.now.nodes place }
    {
        self.nodes.get(place)
    }

    /// The export of a number, from 1. Takes no memory and constant time.
    pub fn export(&self, number: u64) -> Option<&Export>
        ensures value { option_copied result ≡ export_at self.now.exports number }
    {
        export_in(self.exports.as_slice(), number)
    }

    /// The writer at a place. Takes no memory and constant time.
    pub fn writer(&self, place: usize) -> Option<&Writer>
        ensures value { option_copied result ≡ slice_get self.now.writers place }
    {
        self.writers.get(place)
    }
}

/// The export of a number, from 1, among all of them.
pub(crate) fn export_in(exports: &[Export], number: u64) -> Option<&Export>
    ensures value { option_copied result ≡ export_at exports.now number }
{
    if number == 0 {
        return None;
    }
    exports.get((number - 1) as usize)
}
