//! Each call of the kit that takes memory, made once: what it answers, and what it leaves.
//!
//! `refusals CALL` makes the call of this name and prints `ANSWER | STATE`: the answer, and whether what the call may
//! change is as it was before. Where a third part follows, it is what the same call answers when it is made again. Around
//! the call stand the lines `call begins` and `call ends` on the standard error, so that a harness can refuse the growths
//! that are the call's own.
#![tactic(auto)]

mod exports;
mod gateways;
mod nodes;
mod pushes;
mod recorders;
mod rollups;
mod rounds;
mod same;
mod sets;
mod shared_gateways;
mod shared_writers;
mod start;
mod tallies;
mod telling;
mod worlds;
mod writers;

use anyhow::{bail, ensure};
use std::env;
use std::sync::Wait;

// Makes a call of data.
fn data(rt: &HostRuntime, call: &str) -> anyhow::Result<bool> {
    Ok(
        sets::make_call(rt, call)?
            || exports::make_call(rt, call)?
            || tallies::make_call(rt, call)?
            || recorders::make_call(rt, call)?
            || rounds::make_call(rt, call)?
            || writers::make_call(rt, call)?,
    )
}

// Makes a call of what takes exports.
fn takers(rt: &HostRuntime, call: &str) -> anyhow::Result<bool> {
    Ok(
        gateways::make_call(rt, call)?
            || nodes::make_call(rt, call)?
            || rollups::make_call(rt, call)?
            || worlds::make_call(rt, call)?,
    )
}

// Makes a call of what is shared, or pushes exports.
fn sharers(rt: &(impl Wait + Print + Eprint + AllocGlobal), call: &str) -> anyhow::Result<bool> {
    Ok(
        shared_writers::make_call(rt, call)?
            || shared_gateways::make_call(rt, call)?
            || pushes::make_call(rt, call)?,
    )
}

fn main(rt: HostRuntime) -> anyhow::Result<()> {
    let words: Vec<String> = env::args(&rt)?.collect(rt.alloc())?;
    let Some(call) = words.get(1) else {
        bail!("which call?");
    };
    let call = call.as_str();
    let made = data(&rt, call)? || takers(&rt, call)? || sharers(&rt, call)?;
    ensure!(made, "there is no such call");
    Ok(())
}
