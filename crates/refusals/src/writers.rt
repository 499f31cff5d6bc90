//! Calls of writers.
use crate::rounds::len_of;
use crate::same::are_same_writers;
use crate::start::{START, id, plan, set, writer};
use crate::telling::{call_begins, call_ends, state, tell_made, tell_twice};
use bumpalo::Bump;
use recorder_kit::Recorder;
use writer_kit::Writer;

fn start(rt: &HostRuntime) -> anyhow::Result<()> {
    let id = id(rt.alloc(), 1)?;
    let plan = plan(rt.alloc())?;
    call_begins(rt);
    let answer = Writer::start(rt.alloc(), id, plan, START);
    call_ends(rt);
    tell_made(rt, answer)
}

fn measure(rt: &HostRuntime) -> anyhow::Result<()> {
    let mut writer = writer(rt.alloc(), 1)?;
    let before = writer.try_copy()?;
    let attrs = set(rt.alloc(), 2)?;
    call_begins(rt);
    let answer = writer.measure(0, &attrs, 5);
    call_ends(rt);
    let left = state(are_same_writers(&writer, &before));
    let again = writer.measure(0, &attrs, 5);
    tell_twice(rt, &answer, left, &again)
}

fn hold(rt: &HostRuntime) -> anyhow::Result<()> {
    let mut writer = writer(rt.alloc(), 1)?;
    let before = writer.try_copy()?;
    let attrs = set(rt.alloc(), 2)?;
    call_begins(rt);
    let answer = writer.hold(0, &attrs);
    call_ends(rt);
    let left = state(are_same_writers(&writer, &before));
    let again = writer.hold(0, &attrs);
    tell_twice(rt, &answer, left, &again)
}

// A log of one recording is taken in.
fn take_in(rt: &HostRuntime) -> anyhow::Result<()> {
    let mut writer = writer(rt.alloc(), 1)?;
    let before = writer.try_copy()?;
    let mut recorder = Recorder::new(rt.alloc(), 1)?;
    recorder.measure(0, &set(rt.alloc(), 2)?, 5)?;
    call_begins(rt);
    let answer = writer.take_in(&mut recorder, usize::MAX);
    call_ends(rt);
    let left = state(are_same_writers(&writer, &before) && !recorder.is_empty());
    let again = writer.take_in(&mut recorder, usize::MAX);
    tell_twice(rt, &answer, left, &again)
}

fn look_round(rt: &HostRuntime) -> anyhow::Result<()> {
    let writer = writer(rt.alloc(), 1)?;
    let arena = Bump::new(rt.alloc());
    call_begins(rt);
    let answer = writer.look_round(&arena, 200);
    call_ends(rt);
    tell_made(rt, answer)
}

// A collection, or a shutdown.
fn collect(rt: &HostRuntime, closing: bool) -> anyhow::Result<()> {
    let mut writer = writer(rt.alloc(), 1)?;
    let before = writer.try_copy()?;
    let arena = Bump::new(rt.alloc());
    call_begins(rt);
    let answer = if closing {
        writer.shutdown(&arena, 200)
    } else {
        writer.collect(&arena, 200)
    };
    call_ends(rt);
    let left = state(are_same_writers(&writer, &before));
    let again = len_of(writer.collect(&arena, 200));
    tell_twice(rt, &len_of(answer), left, &again)
}

fn restart(rt: &HostRuntime) -> anyhow::Result<()> {
    let mut writer = writer(rt.alloc(), 1)?;
    let before = writer.try_copy()?;
    call_begins(rt);
    let answer = writer.restart(200);
    call_ends(rt);
    let left = state(are_same_writers(&writer, &before));
    let again = writer.restart(200);
    tell_twice(rt, &answer, left, &again)
}

fn copy_call(rt: &HostRuntime) -> anyhow::Result<()> {
    let writer = writer(rt.alloc(), 1)?;
    call_begins(rt);
    let answer = writer.try_copy();
    call_ends(rt);
    tell_made(rt, answer)
}

/// Makes a call of a writer, if this is the name of one.
pub fn make_call(rt: &HostRuntime, call: &str) -> anyhow::Result<bool> {
    match call {
        "Writer::start" => start(rt)?,
        "Writer::measure" => measure(rt)?,
        "Writer::hold" => hold(rt)?,
        "Writer::take_in" => take_in(rt)?,
        "Writer::look_round" => look_round(rt)?,
        "Writer::collect" => collect(rt, false)?,
        "Writer::shutdown" => collect(rt, true)?,
        "Writer::restart" => restart(rt)?,
        "Writer::try_copy" => copy_call(rt)?,
        _ => return Ok(false),
    }
    Ok(true)
}
