//! Calls at held points, and of recorders.
use crate::same::are_same_tallies;
use crate::start::{instruments, plan, renamed, set};
use crate::tallies::holding;
use crate::telling::{call_begins, call_ends, state, tell_made, tell_twice};
use agg_kit::Tally;
use attr_kit::Seq;
use plan_kit::{DEFAULT_LIMIT, Plan};
use recorder_kit::Recorder;
use std::alloc::Global;
use test_kit::view;

// A recorder that has noted a size under the first set, and has room for more.
fn noting(alloc: Global) -> anyhow::Result<Recorder> {
    let mut recorder = Recorder::new(alloc, 9)?;
    recorder.measure(1, &set(alloc, 1)?, 7)?;
    Ok(recorder)
}

fn hold(rt: &HostRuntime) -> anyhow::Result<()> {
    let mut tally = holding(rt.alloc())?;
    let before = tally.try_copy()?;
    let attrs = set(rt.alloc(), 1)?;
    call_begins(rt);
    let answer = tally.hold(1, &attrs);
    call_ends(rt);
    let left = state(are_same_tallies(&tally, &before));
    let again = tally.hold(1, &attrs);
    tell_twice(rt, &answer, left, &again)
}

// A tally whose first instrument has two feeds, which keep all keys, and that holds the first set in both.
fn holding_twice(alloc: Global) -> anyhow::Result<Tally> {
    let views = vec![in alloc; view(alloc, "requests")?, renamed(alloc)?]?;
    let plan = Plan::build(
        alloc,
        instruments(alloc)?,
        Seq::from_vec(views),
        DEFAULT_LIMIT,
    )?;
    let mut tally = Tally::new(alloc, plan)?;
    tally.measure(0, &set(alloc, 1)?, 3)?;
    Ok(tally)
}

// A recording at a held point of an instrument and a set.
fn measure_held(
    rt: &HostRuntime,
    mut tally: Tally,
    instrument: usize,
    shard: i64,
) -> anyhow::Result<()> {
    let number = tally.hold(instrument, &set(rt.alloc(), shard)?)?;
    let before = tally.try_copy()?;
    call_begins(rt);
    let answer = tally.measure_held(number, 5);
    call_ends(rt);
    let left = state(are_same_tallies(&tally, &before));
    let again = tally.measure_held(number, 5);
    tell_twice(rt, &answer, left, &again)
}

fn new(rt: &HostRuntime) -> anyhow::Result<()> {
    call_begins(rt);
    let answer = Recorder::new(rt.alloc(), 9);
    call_ends(rt);
    tell_made(rt, answer)
}

// A recording under a set.
fn measure(rt: &HostRuntime, shard: i64) -> anyhow::Result<()> {
    let mut recorder = noting(rt.alloc())?;
    let before = recorder.len();
    let attrs = set(rt.alloc(), shard)?;
    call_begins(rt);
    let answer = recorder.measure(1, &attrs, 5);
    call_ends(rt);
    let left = state(recorder.len() == before);
    let again = recorder.measure(1, &attrs, 5);
    tell_twice(rt, &answer, left, &again)
}

fn measure_by_number(rt: &HostRuntime) -> anyhow::Result<()> {
    let mut recorder = noting(rt.alloc())?;
    call_begins(rt);
    let answer = recorder.measure_held(3, 5);
    call_ends(rt);
    let left = state(recorder.len() == 1);
    let again = recorder.measure_held(3, 5);
    tell_twice(rt, &answer, left, &again)
}

// A log of three sets is given to a tally that has none: where it stops, what was not looked at stays in the log. Tells whether the log
// is empty then, and whether each recording is in the tally or in the log.
fn give_to(rt: &HostRuntime) -> anyhow::Result<()> {
    let mut tally = Tally::new(rt.alloc(), plan(rt.alloc())?)?;
    let mut recorder = noting(rt.alloc())?;
    for shard in [2, 3] {
        recorder.measure(1, &set(rt.alloc(), shard)?, 7)?;
    }
    call_begins(rt);
    let told = recorder.give_to(&mut tally, usize::MAX);
    call_ends(rt);
    let is_whole = tally.series_len(2) == Some(told.recorded)
        && told.recorded.saturating_add(recorder.len()) == 3;
    let left = if is_whole { "whole" } else { "not whole" };
    let answer = recorder.is_empty();
    let _ = recorder.give_to(&mut tally, usize::MAX);
    tell_twice(rt, &answer, left, &recorder.is_empty())
}

/// Makes a call at a held point or of a recorder, if this is the name of one.
pub fn make_call(rt: &HostRuntime, call: &str) -> anyhow::Result<bool> {
    let alloc = rt.alloc();
    match call {
        "Tally::hold" => hold(rt)?,
        "Tally::measure_held, two feeds" => measure_held(rt, holding_twice(alloc)?, 0, 2)?,
        "Tally::measure_held, one feed" => measure_held(rt, holding(alloc)?, 1, 2)?,
        "Tally::measure_held, a list of keys" => measure_held(rt, holding(alloc)?, 0, 2)?,
        "Tally::measure_held, a held set" => measure_held(rt, holding(alloc)?, 1, 1)?,
        "Tally::measure_held, a set held twice" => measure_held(rt, holding_twice(alloc)?, 0, 1)?,
        "Recorder::new" => new(rt)?,
        "Recorder::measure, a new set" => measure(rt, 2)?,
        "Recorder::measure, a noted set" => measure(rt, 1)?,
        "Recorder::measure_held" => measure_by_number(rt)?,
        "Recorder::give_to" => give_to(rt)?,
        _ => return Ok(false),
    }
    Ok(true)
}
