//! Calls of rounds.
use crate::start::{START, id, writer};
use crate::telling::{call_begins, call_ends, tell_made};
use bumpalo::Bump;
use round_kit::{Round, place};

/// How many points a round has, if there is one.
pub fn len_of<E>(answer: Result<Round<'_>, E>) -> Result<usize, E> {
    match answer {
        Ok(round) => Ok(round.len()),
        Err(fault) => Err(fault),
    }
}

fn place_call(rt: &HostRuntime) -> anyhow::Result<()> {
    let writer = writer(rt.alloc(), 1)?;
    let arena = Bump::new(rt.alloc());
    call_begins(rt);
    let answer = place(&arena, writer.tally(), START, 200);
    call_ends(rt);
    tell_made(rt, answer)
}

fn copied_out(rt: &HostRuntime) -> anyhow::Result<()> {
    let writer = writer(rt.alloc(), 1)?;
    let id = id(rt.alloc(), 1)?;
    let arena = Bump::new(rt.alloc());
    let round = place(&arena, writer.tally(), START, 200)?;
    call_begins(rt);
    let answer = round.copy_out(rt.alloc(), &id);
    call_ends(rt);
    tell_made(rt, answer)
}

/// Makes a call of a round, if this is the name of one.
pub fn make_call(rt: &HostRuntime, call: &str) -> anyhow::Result<bool> {
    match call {
        "place" => place_call(rt)?,
        "Round::copy_out" => copied_out(rt)?,
        _ => return Ok(false),
    }
    Ok(true)
}
