//! Calls of nodes. What a node keeps of its peers is read by what it sends to them.
use crate::start::{export, gateway};
use crate::telling::{call_begins, call_ends, state, tell_made, tell_twice};
use anyhow::bail;
use gateway_kit::Gateway;
use gossip_kit::{Message, Node};
use std::alloc::Global;

// A node of an id that took an export at a time.
fn node(alloc: Global, id: u32, time: u64) -> anyhow::Result<Node> {
    let mut node = Node::new(alloc, Gateway::new(alloc, id));
    node.take(&export(alloc, 1, time)?)?;
    Ok(node)
}

// What a node without points holds after a message of this node.
fn told_by(alloc: Global, node: &Node, to: u32) -> anyhow::Result<Gateway> {
    let mut fresh = Node::new(alloc, Gateway::new(alloc, to));
    fresh.hand(&node.send(to)?)?;
    Ok(fresh.gateway().try_copy()?)
}

// Whether two nodes hold the same and tell their peers the same.
fn are_same(alloc: Global, one: &Node, other: &Node) -> anyhow::Result<bool> {
    let alike = told_by(alloc, one, 2)?.same(&told_by(alloc, other, 2)?);
    Ok(alike && one.gateway().same(other.gateway()))
}

fn take(rt: &HostRuntime) -> anyhow::Result<()> {
    let mut first = node(rt.alloc(), 1, 200)?;
    let twin = node(rt.alloc(), 1, 200)?;
    let export = export(rt.alloc(), 2, 200)?;
    call_begins(rt);
    let answer = first.take(&export);
    call_ends(rt);
    let left = state(are_same(rt.alloc(), &first, &twin)?);
    let again = first.take(&export);
    tell_twice(rt, &answer, left, &again)
}

fn merge(rt: &HostRuntime) -> anyhow::Result<()> {
    let mut first = Node::new(rt.alloc(), Gateway::new(rt.alloc(), 1));
    let twin = Node::new(rt.alloc(), Gateway::new(rt.alloc(), 1));
    let other = gateway(rt.alloc(), 2, 200)?;
    call_begins(rt);
    let answer = first.merge(&other);
    call_ends(rt);
    let left = state(are_same(rt.alloc(), &first, &twin)?);
    let again = first.merge(&other);
    tell_twice(rt, &answer, left, &again)
}

fn send(rt: &HostRuntime) -> anyhow::Result<()> {
    let first = node(rt.alloc(), 1, 200)?;
    call_begins(rt);
    let answer = first.send(2);
    call_ends(rt);
    tell_made(rt, answer)
}

// Hands a node a message. It and its twin are borrowed: each exit here drops what this owns, and that is proved.
fn hands(rt: &HostRuntime, node: &mut Node, twin: &Node, message: &Message) -> anyhow::Result<()> {
    call_begins(rt);
    let answer = node.hand(message);
    call_ends(rt);
    let answer = answer.err();
    let left = state(are_same(rt.alloc(), node, twin)?);
    let again = node.hand(message).err();
    tell_twice(rt, &answer, left, &again)
}

fn hand(rt: &HostRuntime) -> anyhow::Result<()> {
    let message = node(rt.alloc(), 1, 300)?.send(2)?;
    let mut second = Node::new(rt.alloc(), Gateway::new(rt.alloc(), 2));
    let twin = Node::new(rt.alloc(), Gateway::new(rt.alloc(), 2));
    hands(rt, &mut second, &twin, &message)
}

// The answer of a second node to a node's first message.
fn answer_to(alloc: Global, first: &Node) -> anyhow::Result<Message> {
    let message = first.send(2)?;
    let mut second = Node::new(alloc, Gateway::new(alloc, 2));
    match second.hand(&message)? {
        Some(answer) => Ok(answer),
        None => bail!("not answered"),
    }
}

// Hands a node the answer to its first message. What it keeps of the peer is then other than before.
fn hand_answer(rt: &HostRuntime) -> anyhow::Result<()> {
    let mut first = node(rt.alloc(), 1, 200)?;
    let answer = answer_to(rt.alloc(), &first)?;
    let twin = node(rt.alloc(), 1, 200)?;
    hands(rt, &mut first, &twin, &answer)
}

/// Makes a call of a node, if this is the name of one.
pub fn make_call(rt: &HostRuntime, call: &str) -> anyhow::Result<bool> {
    match call {
        "Node::take" => take(rt)?,
        "Node::merge" => merge(rt)?,
        "Node::send" => send(rt)?,
        "Node::hand" => hand(rt)?,
        "Node::hand, an answer" => hand_answer(rt)?,
        _ => return Ok(false),
    }
    Ok(true)
}
