//! Calls of plans and tallies.
use crate::same::are_same_tallies;
use crate::start::{instruments, plan, set, views};
use crate::telling::{call_begins, call_ends, state, tell_made, tell_twice};
use agg_kit::Tally;
use plan_kit::{DEFAULT_LIMIT, Plan};
use std::alloc::Global;

fn build(rt: &HostRuntime) -> anyhow::Result<()> {
    let alloc = rt.alloc();
    let instruments = instruments(alloc)?;
    let views = views(alloc)?;
    call_begins(rt);
    let answer = Plan::build(alloc, instruments, views, DEFAULT_LIMIT);
    call_ends(rt);
    tell_made(rt, answer)
}

fn copied_plan(rt: &HostRuntime) -> anyhow::Result<()> {
    let plan = plan(rt.alloc())?;
    call_begins(rt);
    let answer = plan.try_copy();
    call_ends(rt);
    tell_made(rt, answer)
}

fn new(rt: &HostRuntime) -> anyhow::Result<()> {
    let plan = plan(rt.alloc())?;
    call_begins(rt);
    let answer = Tally::new(rt.alloc(), plan);
    call_ends(rt);
    tell_made(rt, answer)
}

/// A tally that holds the first set in each stream.
pub fn holding(alloc: Global) -> anyhow::Result<Tally> {
    let mut tally = Tally::new(alloc, plan(alloc)?)?;
    let attrs = set(alloc, 1)?;
    tally.measure(0, &attrs, 3)?;
    tally.measure(1, &attrs, 7)?;
    Ok(tally)
}

// A recording by an instrument under a set.
fn measure(rt: &HostRuntime, instrument: usize, shard: i64) -> anyhow::Result<()> {
    let mut tally = holding(rt.alloc())?;
    let before = tally.try_copy()?;
    let attrs = set(rt.alloc(), shard)?;
    call_begins(rt);
    let answer = tally.measure(instrument, &attrs, 5);
    call_ends(rt);
    let left = state(are_same_tallies(&tally, &before));
    let again = tally.measure(instrument, &attrs, 5);
    tell_twice(rt, &answer, left, &again)
}

fn restart(rt: &HostRuntime) -> anyhow::Result<()> {
    let mut tally = holding(rt.alloc())?;
    let before = tally.try_copy()?;
    call_begins(rt);
    let answer = tally.restart();
    call_ends(rt);
    let left = state(are_same_tallies(&tally, &before));
    let again = tally.restart();
    tell_twice(rt, &answer, left, &again)
}

fn copy_call(rt: &HostRuntime) -> anyhow::Result<()> {
    let tally = holding(rt.alloc())?;
    call_begins(rt);
    let answer = tally.try_copy();
    call_ends(rt);
    tell_made(rt, answer)
}

/// Makes a call of a plan or a tally, if this is the name of one.
pub fn make_call(rt: &HostRuntime, call: &str) -> anyhow::Result<bool> {
    match call {
        "Plan::build" => build(rt)?,
        "Plan::try_copy" => copied_plan(rt)?,
        "Tally::new" => new(rt)?,
        "Tally::measure, two feeds" => measure(rt, 0, 2)?,
        "Tally::measure, one feed" => measure(rt, 1, 2)?,
        "Tally::measure, a held set" => measure(rt, 1, 1)?,
        "Tally::restart" => restart(rt)?,
        "Tally::try_copy" => copy_call(rt)?,
        _ => return Ok(false),
    }
    Ok(true)
}
