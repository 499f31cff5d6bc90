//! Calls of gateways.
use crate::start::{START, export, gateway, id, requests, set};
use crate::telling::{call_begins, call_ends, state, tell_twice};
use attr_kit::Seq;
use gateway_kit::Gateway;
use point_kit::{Cell, Export, Held, Key, Payload};
use std::alloc::Global;

// Takes an export into a gateway that holds one of the first writer.
fn takes(rt: &HostRuntime, export: &Export) -> anyhow::Result<()> {
    let mut gateway = gateway(rt.alloc(), 1, 200)?;
    let before = gateway.try_copy()?;
    call_begins(rt);
    let answer = gateway.take(export);
    call_ends(rt);
    let left = state(gateway.same(&before));
    let again = gateway.take(export);
    tell_twice(rt, &answer, left, &again)
}

// The same of an export that is handed over, so that who makes it has nothing to drop.
fn take_call(rt: &HostRuntime, export: Export) -> anyhow::Result<()> {
    takes(rt, &export)
}

fn empty_export(alloc: Global) -> anyhow::Result<Export> {
    let none = Seq::new(alloc);
    Ok(Export::build(alloc, id(alloc, 2)?, START, 200, none)?)
}

// Merges another gateway into one that holds an export of the first writer.
fn merges(rt: &HostRuntime, other: &Gateway) -> anyhow::Result<()> {
    let mut gateway = gateway(rt.alloc(), 1, 200)?;
    let before = gateway.try_copy()?;
    call_begins(rt);
    let answer = gateway.merge(other);
    call_ends(rt);
    let left = state(gateway.same(&before));
    let again = gateway.merge(other);
    tell_twice(rt, &answer, left, &again)
}

// The same of a gateway that is handed over.
fn merge_call(rt: &HostRuntime, other: Gateway) -> anyhow::Result<()> {
    merges(rt, &other)
}

// A gateway that holds an export of a second writer.
fn other(alloc: Global) -> anyhow::Result<Gateway> {
    let mut gateway = Gateway::new(alloc, 2);
    gateway.take(&export(alloc, 2, 200)?)?;
    Ok(gateway)
}

fn key(alloc: Global, shard: i64) -> anyhow::Result<Key> {
    Ok(Key {
        writer: id(alloc, 1)?,
        start: START,
        stream: requests(alloc)?,
        attrs: set(alloc, shard)?,
    })
}

fn cell() -> Cell {
    Cell {
        time: 300,
        held: Held::One(Payload::Sum(9)),
    }
}

fn join_cell(rt: &HostRuntime) -> anyhow::Result<()> {
    let mut gateway = gateway(rt.alloc(), 1, 200)?;
    let before = gateway.try_copy()?;
    let first = key(rt.alloc(), 2)?;
    let second = key(rt.alloc(), 2)?;
    call_begins(rt);
    let answer = gateway.join_cell(first, cell());
    call_ends(rt);
    let left = state(gateway.same(&before));
    let again = gateway.join_cell(second, cell());
    tell_twice(rt, &answer, left, &again)
}

/// Makes a call of a gateway, if this is the name of one.
pub fn make_call(rt: &HostRuntime, call: &str) -> anyhow::Result<bool> {
    let alloc = rt.alloc();
    match call {
        "Gateway::take, a new writer" => take_call(rt, export(alloc, 2, 200)?)?,
        "Gateway::take, later points" => take_call(rt, export(alloc, 1, 300)?)?,
        "Gateway::take, no points" => take_call(rt, empty_export(alloc)?)?,
        "Gateway::merge, a new writer" => merge_call(rt, other(alloc)?)?,
        "Gateway::merge, later points" => merge_call(rt, gateway(alloc, 2, 300)?)?,
        "Gateway::merge, an empty one" => merge_call(rt, Gateway::new(alloc, 2))?,
        "Gateway::join_cell" => join_cell(rt)?,
        _ => return Ok(false),
    }
    Ok(true)
}
