//! Gossip of two nodes: takes through a node, and messages of all keys and of those that changed. What messages carry is
//! checked as they are timed.
use crate::clock::tell;
use crate::gateways::{Keys, Sets, Times, Which, export_of, holding};
use anyhow::{bail, ensure};
use gateway_kit::Gateway;
use gossip_kit::{Message, Node};
use point_kit::Export;
use std::alloc::Global;
use std::time::{Duration, Instant};

// A gateway and a node that hold the same, and an export that both then take.
#[derive(Drop)]
struct Takers {
    gateway: Gateway,
    node: Node,
    later: Export,
}

fn both_holding(alloc: Global, keys: u32) -> anyhow::Result<Takers> {
    let keys = Keys::first(Sets::Numbers, keys);
    let first = Times::at(200);
    let gateway = holding(alloc, first, keys)?;
    let node = Node::new(alloc, holding(alloc, first, keys)?);
    let later = export_of(alloc, Times::at(300), keys)?;
    Ok(Takers {
        gateway,
        node,
        later,
    })
}

// How long a gateway and a node took for later points of held keys.
fn time_takes(rt: &HostRuntime, both: &mut Takers) -> anyhow::Result<(Duration, Duration)> {
    let start = Instant::now(rt)?;
    both.gateway.take(&both.later)?;
    let gateway = start.elapsed(rt)?;
    let start = Instant::now(rt)?;
    both.node.take(&both.later)?;
    Ok((gateway, start.elapsed(rt)?))
}

fn takes_of_both(rt: &HostRuntime, keys: u32) -> anyhow::Result<()> {
    let (gateway, node) = time_takes(rt, &mut both_holding(rt.alloc(), keys)?)?;
    tell(rt, "take by a gateway", u64::from(keys), gateway)?;
    tell(rt, "take by a node", u64::from(keys), node)
}

/// Two nodes, of which the first tells the second. They are borrowed by what may fail: each exit there drops neither.
#[derive(Drop)]
pub struct Pair {
    pub sender: Node,
    pub receiver: Node,
}

/// Two nodes, 1 and 2, that hold nothing.
pub fn two_nodes(alloc: Global) -> Pair {
    Pair {
        sender: Node::new(alloc, Gateway::new(alloc, 1)),
        receiver: Node::new(alloc, Gateway::new(alloc, 2)),
    }
}

// A node takes an export of these keys.
fn hears(node: &mut Node, alloc: Global, times: Times, keys: Keys) -> anyhow::Result<()> {
    node.take(&export_of(alloc, times, keys)?)?;
    Ok(())
}

/// A message, which must have so many cells, and how long it took.
pub fn time_send(
    rt: &HostRuntime,
    sender: &mut Node,
    to: u32,
    cells: u32,
) -> anyhow::Result<(Message, Duration)> {
    let start = Instant::now(rt)?;
    let message = sender.send(to)?;
    let took = start.elapsed(rt)?;
    ensure!(
        message.points_len() as u64 == u64::from(cells),
        "a message has another number of cells"
    );
    Ok((message, took))
}

/// How long the handing of a message took, the answer to which goes to its sender.
pub fn time_hand(rt: &HostRuntime, pair: &mut Pair, message: &Message) -> anyhow::Result<Duration> {
    let start = Instant::now(rt)?;
    let answer = pair.receiver.hand(message)?;
    let took = start.elapsed(rt)?;
    let Some(ack) = answer else {
        bail!("a delta was not answered");
    };
    pair.sender.hand(&ack)?;
    Ok(took)
}

// One message of so many cells, its handing, and its acknowledgement.
fn exchange(rt: &HostRuntime, what: &str, cells: u32, pair: &mut Pair) -> anyhow::Result<()> {
    let to = pair.receiver.gateway().id();
    let (message, sending) = time_send(rt, &mut pair.sender, to, cells)?;
    let handing = time_hand(rt, pair, &message)?;
    eprint!(rt; "{what}: ")?;
    tell(rt, "send", u64::from(cells), sending)?;
    eprint!(rt; "{what}: ")?;
    tell(rt, "hand", u64::from(cells), handing)
}

// What the second node answers to a message of the first.
fn answer(pair: &mut Pair) -> anyhow::Result<Option<Message>> {
    let message = pair.sender.send(2)?;
    Ok(pair.receiver.hand(&message)?)
}

// How many cells the next message has.
fn next_len(sender: &mut Node) -> anyhow::Result<usize> {
    Ok(sender.send(2)?.points_len())
}

// Until an Ack is handed, messages carry both keys, and then the one that changed since.
fn late_ack(alloc: Global, sender: &mut Node, ack: &Message) -> anyhow::Result<()> {
    hears(sender, alloc, Times::at(300), Keys::first(Sets::Numbers, 1))?;
    let without = next_len(sender)?;
    sender.hand(ack)?;
    let with = next_len(sender)?;
    ensure!(
        (ack.points_len(), without, with) == (0, 2, 1),
        "a message carries other cells: {without} without the Ack, {with} with it"
    );
    Ok(())
}

// An Ack that is lost.
fn lost_ack(alloc: Global, pair: &mut Pair) -> anyhow::Result<()> {
    let two = Keys::first(Sets::Numbers, 2);
    hears(&mut pair.sender, alloc, Times::at(200), two)?;
    let Some(ack) = answer(pair)? else {
        bail!("a delta of two keys was not answered");
    };
    late_ack(alloc, &mut pair.sender, &ack)
}

// A hundred incarnations of these keys each, which the second node acknowledges.
fn hundred_incarnations(alloc: Global, pair: &mut Pair, keys: Keys) -> anyhow::Result<()> {
    for begin in 0..100 {
        hears(&mut pair.sender, alloc, Times { begin, time: 200 }, keys)?;
    }
    if let Some(ack) = answer(pair)? {
        pair.sender.hand(&ack)?;
    }
    Ok(())
}

// A message of one incarnation of a hundred, the rest of which did not change since the last Ack.
fn one_of_many(rt: &HostRuntime, pair: &mut Pair, keys: Keys) -> anyhow::Result<()> {
    hundred_incarnations(rt.alloc(), pair, keys)?;
    let later = Times {
        begin: 50,
        time: 300,
    };
    hears(&mut pair.sender, rt.alloc(), later, keys)?;
    exchange(rt, "one incarnation of a hundred", keys.count, pair)
}

// An exchange of all keys, and then of those that changed since: the first hundredth, each hundredth, and one.
fn exchanges(rt: &HostRuntime, pair: &mut Pair, all: Keys) -> anyhow::Result<()> {
    let count = (all.count / 100).max(1);
    let changes = [
        ("all keys", 200, all),
        ("the first hundredth", 300, Keys { count, ..all }),
        ("each hundredth key", 400, all.only(Which::Few)),
        ("one key", 500, Keys { count: 1, ..all }),
    ];
    for (what, time, keys) in changes {
        hears(&mut pair.sender, rt.alloc(), Times::at(time), keys)?;
        exchange(rt, what, keys.len(), pair)?;
    }
    Ok(())
}

/// Takes, and exchanges: all of so many keys, and then those that changed since.
pub fn run(rt: &HostRuntime, keys: u32) -> anyhow::Result<()> {
    let few = (keys / 100).max(1);
    takes_of_both(rt, keys)?;
    lost_ack(rt.alloc(), &mut two_nodes(rt.alloc()))?;
    let part = Keys::first(Sets::Numbers, few);
    one_of_many(rt, &mut two_nodes(rt.alloc()), part)?;
    let all = Keys::first(Sets::Numbers, keys);
    exchanges(rt, &mut two_nodes(rt.alloc()), all)
}
