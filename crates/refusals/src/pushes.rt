//! Calls of exporters and of periodic readers.
use crate::same::are_same_writers;
use crate::start::{export, set, writer};
use crate::telling::{call_begins, call_ends, state, tell_twice};
use anyhow::ensure;
use bumpalo::Bump;
use crossbeam_channel::unbounded;
use push_kit::{ChannelExporter, Exporter, MemoryExporter, Periodic};
use std::alloc::Global;
use std::sync::Wait;
use writer_kit::{Pace, Writer};

fn keep(rt: &(impl Wait + Print + Eprint + AllocGlobal)) -> anyhow::Result<()> {
    let mut memory = MemoryExporter::new(rt.alloc());
    let export = export(rt.alloc(), 1, 200)?;
    call_begins(rt);
    let answer = memory.export(&export);
    call_ends(rt);
    let left = state(memory.copies().is_empty());
    ensure!(
        memory.failures() == u64::from(answer.is_err()),
        "miscounted"
    );
    let again = memory.export(&export);
    tell_twice(rt, &answer, left, &again)
}

fn send(rt: &(impl Wait + Print + Eprint + AllocGlobal)) -> anyhow::Result<()> {
    let (to, from) = unbounded(rt.alloc())?;
    let mut channel = ChannelExporter::new(rt, to);
    let export = export(rt.alloc(), 1, 200)?;
    call_begins(rt);
    let answer = channel.export(&export);
    call_ends(rt);
    let left = state(from.is_empty());
    ensure!(
        channel.failures() == u64::from(answer.is_err()),
        "miscounted"
    );
    let again = channel.export(&export);
    tell_twice(rt, &answer, left, &again)
}

// A reader each 100 from 200 on.
fn reader<E: Exporter>(alloc: Global, exporter: E) -> anyhow::Result<Periodic<E>> {
    Ok(Periodic::new(alloc, writer(alloc, 1)?, exporter, Pace::new(100, 200)))
}

fn measures(
    rt: &(impl Print + Eprint + AllocGlobal),
    reader: &mut Periodic<MemoryExporter>,
    before: &Writer,
) -> anyhow::Result<()> {
    let attrs = set(rt.alloc(), 2)?;
    call_begins(rt);
    let answer = reader.measure(0, &attrs, 5);
    call_ends(rt);
    let left = state(are_same_writers(reader.writer(), before));
    let again = reader.measure(0, &attrs, 5);
    tell_twice(rt, &answer, left, &again)
}

fn measure(rt: &(impl Print + Eprint + AllocGlobal)) -> anyhow::Result<()> {
    let mut reader = reader(rt.alloc(), MemoryExporter::new(rt.alloc()))?;
    let before = reader.writer().try_copy()?;
    measures(rt, &mut reader, &before)
}

// What a collection at 200 has left: all as it was, or a writer collected at 200 whose next collection is due at this time.
fn remains<E: Exporter>(reader: &Periodic<E>, before: &Writer, next: u64) -> &'static str {
    let writer = reader.writer();
    if are_same_writers(writer, before) && reader.pace().next == 200 {
        "as before"
    } else if writer.last() == 200 && reader.pace().next == next {
        "collected"
    } else {
        "other"
    }
}

// A tick, and a later one. The reader is borrowed: each exit here drops what this owns, and that is proved.
fn ticks<E: Exporter>(
    rt: &(impl Wait + Print + Eprint + AllocGlobal),
    reader: &mut Periodic<E>,
    before: &Writer,
) -> anyhow::Result<()> {
    let arena = Bump::new(rt.alloc());
    ensure!(reader.exporter().failures() == 0, "failed before");
    call_begins(rt);
    let answer = reader.tick(&arena, 200);
    call_ends(rt);
    let left = remains(reader, before, 300);
    ensure!(reader.exporter().failures() < 2, "miscounted");
    let again = reader.tick(&arena, 300);
    tell_twice(rt, &answer, left, &again)
}

fn tick<E: Exporter>(
    rt: &(impl Wait + Print + Eprint + AllocGlobal),
    exporter: E,
) -> anyhow::Result<()> {
    let mut reader = reader(rt.alloc(), exporter)?;
    let before = reader.writer().try_copy()?;
    ticks(rt, &mut reader, &before)
}

// A flush, and a later one that closes.
fn flushes<E: Exporter>(
    rt: &(impl Wait + Print + Eprint + AllocGlobal),
    reader: &mut Periodic<E>,
    before: &Writer,
) -> anyhow::Result<()> {
    let arena = Bump::new(rt.alloc());
    ensure!(reader.exporter().failures() == 0, "failed before");
    call_begins(rt);
    let answer = reader.flush(&arena, 200, false);
    call_ends(rt);
    let left = remains(reader, before, 200);
    ensure!(reader.exporter().failures() < 2, "miscounted");
    let again = reader.flush(&arena, 300, true);
    tell_twice(rt, &answer, left, &again)
}

fn flush<E: Exporter>(
    rt: &(impl Wait + Print + Eprint + AllocGlobal),
    exporter: E,
) -> anyhow::Result<()> {
    let mut reader = reader(rt.alloc(), exporter)?;
    let before = reader.writer().try_copy()?;
    flushes(rt, &mut reader, &before)
}

fn tick_into_channel(rt: &(impl Wait + Print + Eprint + AllocGlobal)) -> anyhow::Result<()> {
    let (to, _from) = unbounded(rt.alloc())?;
    tick(rt, ChannelExporter::new(rt, to))
}

fn flush_into_channel(rt: &(impl Wait + Print + Eprint + AllocGlobal)) -> anyhow::Result<()> {
    let (to, _from) = unbounded(rt.alloc())?;
    flush(rt, ChannelExporter::new(rt, to))
}

/// Makes a call of an exporter or of a periodic reader, if this is the name of one.
pub fn make_call(
    rt: &(impl Wait + Print + Eprint + AllocGlobal),
    call: &str,
) -> anyhow::Result<bool> {
    match call {
        "MemoryExporter::export" => keep(rt)?,
        "ChannelExporter::export" => send(rt)?,
        "Periodic::measure" => measure(rt)?,
        "Periodic::tick, into memory" => tick(rt, MemoryExporter::new(rt.alloc()))?,
        "Periodic::tick, into a channel" => tick_into_channel(rt)?,
        "Periodic::flush, into memory" => flush(rt, MemoryExporter::new(rt.alloc()))?,
        "Periodic::flush, into a channel" => flush_into_channel(rt)?,
        _ => return Ok(false),
    }
    Ok(true)
}
