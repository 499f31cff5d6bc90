//! What gateways do.
ghost use Rattle.std.specs.Prelude.{◌≡◌, ◌≢◌, ◌<◌, ◌++◌, ◌∷◌, [], length, slice_get, vec_len, vec_capacity, IsOk, OnErr, IfOk};
ghost use Rattle.world_kit.specs.declared.event.Event.TheVariants as event;
ghost use Rattle.world_kit.specs.Merging.{Merges};
ghost use Rattle.world_kit.specs.Stands.{Acts};
ghost use Rattle.world_kit.specs.Wanting.{IsEmpty, IsWithoutPoints, OnRefused, Wants};
ghost use Rattle.world_kit.specs.WorldState.{export_at};

use crate::world::export_in;
use crate::{Refusal, Reply, World};
use attr_kit::NoMemory;
use gossip_kit::{HandFault, Message, Node};

impl World {
    // An export comes to a gateway.
    pub(crate) fn deliver(&mut self, export: u64, gateway: usize) -> Result<Reply, NoMemory>
        ensures ok { IfOk result (λ reply. Acts (event.Deliver export gateway) self.old reply self.new) }
        ensures refused { IfOk result (λ reply. OnRefused reply (self.new ≡ self.old)) }
        ensures no_memory { OnErr result (Wants (event.Deliver export gateway) self.old) }
        ensures no_points { IsWithoutPoints (export_at self.old.exports export) → IsOk result }
        ensures unchanged { OnErr result (self.new ≡ self.old) }
    {
        if gateway >= self.nodes.len() {
            return Ok(Reply::Refused(Refusal::NoGateway));
        }
        let Some(brought) = export_in(self.exports.as_slice(), export) else {
            return Ok(Reply::Refused(Refusal::NoExport));
        };
        let changed = self.nodes[gateway].take(brought)?;
        Ok(Reply::Changed(changed))
    }

    // A gateway joins what another one holds.
    pub(crate) fn merge(&mut self, into: usize, from: usize) -> Result<Reply, NoMemory>
        ensures ok { IfOk result (λ reply. Acts (event.Merge into from) self.old reply self.new) }
        ensures refused { IfOk result (λ reply. OnRefused reply (self.new ≡ self.old)) }
        ensures no_memory { OnErr result (Wants (event.Merge into from) self.old) }
        ensures itself { into ≡ from → IsOk result }
        ensures empty { IsEmpty (slice_get self.old.nodes from) → IsOk result }
        ensures unchanged { OnErr result (self.new ≡ self.old) }
    {
        if into >= self.nodes.len() {
            return Ok(Reply::Refused(Refusal::NoGateway));
        }
        if from >= self.nodes.len() {
            return Ok(Reply::Refused(Refusal::NoGateway));
        }
        if into == from {
            return Ok(Reply::Changed(0));
        }
        let changed = merge_two(&mut self.nodes, into, from)?;
        Ok(Reply::Changed(changed))
    }

    // A gateway makes a mail to another.
    pub(crate) fn send(&mut self, from: usize, to: usize) -> Result<Reply, NoMemory>
        ensures ok { IfOk result (λ reply. Acts (event.Send from to) self.old reply self.new) }
        ensures refused { IfOk result (λ reply. OnRefused reply (self.new ≡ self.old)) }
        ensures no_memory { OnErr result (Wants (event.Send from to) self.old) }
        ensures unchanged { OnErr result (self.new ≡ self.old) }
    {
        if from >= self.nodes.len() {
            return Ok(Reply::Refused(Refusal::NoGateway));
        }
        if to >= self.nodes.len() {
            return Ok(Reply::Refused(Refusal::NoGateway));
        }
        let receiver = self.nodes[to].gateway().id();
        let mail = self.nodes[from].send(receiver)?;
        self.mails.push(mail)?;
        Ok(Reply::Sent(self.mails.len() as u64))
    }

    // A mail comes to a gateway, whose answer is the next mail. Room for it comes first.
    pub(crate) fn hand(&mut self, mail: u64, gateway: usize) -> Result<Reply, NoMemory>
        ensures ok { IfOk result (λ reply. Acts (event.Hand mail gateway) self.old reply self.new) }
        ensures refused { IfOk result (λ reply. OnRefused reply (self.new ≡ self.old)) }
        ensures no_memory { OnErr result (Wants (event.Hand mail gateway) self.old) }
        ensures unchanged { OnErr result (self.new ≡ self.old) }
    {
        if gateway >= self.nodes.len() {
            return Ok(Reply::Refused(Refusal::NoGateway));
        }
        if mail == 0 {
            return Ok(Reply::Refused(Refusal::NoMail));
        }
        if mail > self.mails.len() as u64 {
            return Ok(Reply::Refused(Refusal::NoMail));
        }
        let sent = &self.mails[(mail - 1) as usize];
        if sent.to() != self.nodes[gateway].gateway().id() {
            return Ok(Reply::Refused(Refusal::NotAddressed));
        }
        self.mails.reserve(1)?;
        let message = &self.mails[(mail - 1) as usize];
        match self.nodes[gateway].hand(message) {
            Ok(Some(answer)) => {
                keep(&mut self.mails, answer);
                Ok(Reply::Handed(Some(self.mails.len() as u64)))
            }
            Ok(None) => Ok(Reply::Handed(None)),
            Err(HandFault::NotAddressed) => Ok(Reply::Refused(Refusal::NotAddressed)),
            Err(HandFault::NoMemory) => Err(NoMemory),
        }
    }
}

// Puts a mail at the end of a list that has room for it.
fn keep(mails: &mut Vec<Message>, mail: Message)
    requires { vec_len mails.old < vec_capacity mails.old }
    ensures { mails.new.items ≡ mails.old.items ++ mail ∷ [] }
{
    let _ = mails.push(mail);
}

// One of two nodes joins what the other holds.
fn merge_two(nodes: &mut [Node], into: usize, from: usize) -> Result<u64, NoMemory>
    requires into_in { into < length nodes.old }
    requires from_in { from < length nodes.old }
    requires two { into ≢ from }
    ensures ok { IfOk result (λ changed. Merges nodes.old into from changed nodes.new) }
    ensures empty { IsEmpty (slice_get nodes.old from) → IsOk result }
    ensures unchanged { OnErr result (nodes.new ≡ nodes.old) }
{
    if into < from {
        let (front, back) = nodes.split_at_mut(from);
        let changed = front[into].merge(back[0].gateway())?;
        Ok(changed)
    } else {
        let (front, back) = nodes.split_at_mut(into);
        let changed = back[0].merge(front[from].gateway())?;
        Ok(changed)
    }
}
