//! Roll-ups and tables.
use crate::start::{gateway, requests};
use crate::telling::{call_begins, call_ends, tell_made};
use attr_kit::{Keep, Seq};
use rollup_kit::{Ask, rollup, table};
use std::alloc::Global;

// All requests.
fn ask(alloc: Global) -> anyhow::Result<Ask> {
    Ok(Ask {
        stream: requests(alloc)?,
        service: None,
        only: Seq::new(alloc),
        keep: Keep::All,
    })
}

fn rows(rt: &HostRuntime) -> anyhow::Result<()> {
    let gateway = gateway(rt.alloc(), 1, 200)?;
    let ask = ask(rt.alloc())?;
    call_begins(rt);
    let answer = rollup(rt.alloc(), &gateway, &ask);
    call_ends(rt);
    tell_made(rt, answer)
}

fn lines(rt: &HostRuntime) -> anyhow::Result<()> {
    let gateway = gateway(rt.alloc(), 1, 200)?;
    let rows = rollup(rt.alloc(), &gateway, &ask(rt.alloc())?)?;
    call_begins(rt);
    let answer = table(rt.alloc(), rows.as_slice());
    call_ends(rt);
    tell_made(rt, answer)
}

/// Makes a roll-up or a table, if this is the name of one.
pub fn make_call(rt: &HostRuntime, call: &str) -> anyhow::Result<bool> {
    match call {
        "rollup" => rows(rt)?,
        "table" => lines(rt)?,
        _ => return Ok(false),
    }
    Ok(true)
}
