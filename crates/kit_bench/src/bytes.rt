//! Exports and messages as bytes: made and read, in the kit's own form and as OTLP, beside a plain copy of as many bytes.
use crate::clock::tell;
use crate::gateways::{Keys, Sets, Times, export_of, holding};
use bytes_kit::{decode_export, decode_message, encode_export_into, encode_message_into};
use gossip_kit::{Message, Node};
use otlp_kit::{decode_otlp, encode_otlp};
use point_kit::Export;
use std::alloc::Global;
use std::time::{Duration, Instant};

// Of so many times the least is told. The memory of a buffer is there from the second time on.
const ROUNDS: u32 = 5;

fn time_copy(rt: &HostRuntime, bytes: &[u8]) -> anyhow::Result<Duration> {
    let start = Instant::now(rt)?;
    let copy = bytes.to_vec(rt.alloc())?;
    let took = start.elapsed(rt)?;
    drop(copy);
    Ok(took)
}

fn tell_copy(rt: &HostRuntime, points: u64, bytes: &[u8]) -> anyhow::Result<()> {
    let mut least = Duration::MAX;
    for _ in 0..ROUNDS {
        least = least.min(time_copy(rt, bytes)?);
    }
    let tenths = (bytes.len() as u64).saturating_mul(10) / points.max(1);
    let (whole, tenth) = (tenths / 10, tenths % 10);
    eprintln!(rt; "bytes a point: {whole}.{tenth}")?;
    tell(rt, "plain copy of as many bytes", points, least)
}

fn time_export(rt: &HostRuntime, export: &Export, bytes: &mut Vec<u8>) -> anyhow::Result<Duration> {
    let start = Instant::now(rt)?;
    encode_export_into(export, bytes)?;
    Ok(start.elapsed(rt)?)
}

fn time_export_read(rt: &HostRuntime, bytes: &[u8]) -> anyhow::Result<Duration> {
    let start = Instant::now(rt)?;
    let read = decode_export(rt.alloc(), bytes)?;
    let took = start.elapsed(rt)?;
    drop(read);
    Ok(took)
}

fn exports(
    rt: &HostRuntime,
    points: u64,
    export: &Export,
    bytes: &mut Vec<u8>,
) -> anyhow::Result<()> {
    let mut written = Duration::MAX;
    let mut read = Duration::MAX;
    for _ in 0..ROUNDS {
        written = written.min(time_export(rt, export, bytes)?);
        read = read.min(time_export_read(rt, bytes.as_slice())?);
    }
    tell(rt, "export written", points, written)?;
    tell(rt, "export read", points, read)?;
    tell_copy(rt, points, bytes.as_slice())
}

fn time_otlp(rt: &HostRuntime, export: &Export) -> anyhow::Result<(Duration, Vec<u8>)> {
    let start = Instant::now(rt)?;
    let bytes = encode_otlp(rt.alloc(), export)?;
    Ok((start.elapsed(rt)?, bytes))
}

fn time_otlp_read(rt: &HostRuntime, bytes: &[u8]) -> anyhow::Result<Duration> {
    let start = Instant::now(rt)?;
    let read = decode_otlp(rt.alloc(), bytes)?;
    let took = start.elapsed(rt)?;
    drop(read);
    Ok(took)
}

// As OTLP each writing makes a new vector.
fn otlp(rt: &HostRuntime, points: u64, export: &Export) -> anyhow::Result<()> {
    let mut written = Duration::MAX;
    let mut read = Duration::MAX;
    let mut last = Vec::new(rt.alloc());
    for _ in 0..ROUNDS {
        let (took, bytes) = time_otlp(rt, export)?;
        written = written.min(took);
        read = read.min(time_otlp_read(rt, bytes.as_slice())?);
        last = bytes;
    }
    tell(rt, "export written as OTLP", points, written)?;
    tell(rt, "export read from OTLP", points, read)?;
    tell_copy(rt, points, last.as_slice())
}

fn time_message(
    rt: &HostRuntime,
    message: &Message,
    bytes: &mut Vec<u8>,
) -> anyhow::Result<Duration> {
    let start = Instant::now(rt)?;
    encode_message_into(message, bytes)?;
    Ok(start.elapsed(rt)?)
}

fn time_message_read(rt: &HostRuntime, bytes: &[u8]) -> anyhow::Result<Duration> {
    let start = Instant::now(rt)?;
    let read = decode_message(rt.alloc(), bytes)?;
    let took = start.elapsed(rt)?;
    drop(read);
    Ok(took)
}

fn messages(
    rt: &HostRuntime,
    points: u64,
    message: &Message,
    bytes: &mut Vec<u8>,
) -> anyhow::Result<()> {
    let mut written = Duration::MAX;
    let mut read = Duration::MAX;
    for _ in 0..ROUNDS {
        written = written.min(time_message(rt, message, bytes)?);
        read = read.min(time_message_read(rt, bytes.as_slice())?);
    }
    tell(rt, "message written", points, written)?;
    tell(rt, "message read", points, read)?;
    tell_copy(rt, points, bytes.as_slice())
}

// A message of all keys.
fn message_of(alloc: Global, keys: Keys) -> anyhow::Result<Message> {
    let node = Node::new(alloc, holding(alloc, Times::at(200), keys)?);
    Ok(node.send(2)?)
}

/// An export of so many points of 4 attributes, and a message of all of them.
pub fn run(rt: &HostRuntime, points: u32) -> anyhow::Result<()> {
    let keys = Keys::first(Sets::Scattered, points);
    let export = export_of(rt.alloc(), Times::at(200), keys)?;
    exports(rt, u64::from(points), &export, &mut Vec::new(rt.alloc()))?;
    otlp(rt, u64::from(points), &export)?;
    drop(export);
    let message = message_of(rt.alloc(), keys)?;
    messages(rt, u64::from(points), &message, &mut Vec::new(rt.alloc()))
}
