//! Logs that a tally takes in by pieces.
use crate::clock::tell;
use crate::tallies::{sets, tally};
use agg_kit::Tally;
use attr_kit::AttrSet;
use plan_kit::Kind;
use recorder_kit::{RecordFault, Recorder};
use std::time::{Duration, Instant};

// Of so many times the least is told.
const ROUNDS: u32 = 3;

/// What one of these takes.
#[derive(Clone, Copy)]
pub struct Sizes {
    /// How many sets a log has, each in one recording.
    pub sets: u32,
    /// How many recordings top a full log up.
    pub again: u32,
    /// How many sets come one after the other, of which none comes twice.
    pub fresh: u32,
}

fn note_sets(recorder: &mut Recorder, sets: &[AttrSet]) -> Result<(), RecordFault> {
    for set in sets {
        recorder.measure(0, set, 1)?;
    }
    Ok(())
}

fn note_numbers(recorder: &mut Recorder, count: usize) -> Result<(), RecordFault> {
    for _ in 0..count {
        recorder.measure_held(0, 1)?;
    }
    Ok(())
}

// Takes so many recordings in, in pieces.
fn take_in(recorder: &mut Recorder, tally: &mut Tally, count: usize, piece: usize) {
    for _ in 0..count / piece.max(1) {
        let _ = recorder.give_to(tally, piece);
    }
}

// A log of many sets: what a writer's turn would be held for.
fn time_taking(rt: &HostRuntime, sets: &[AttrSet], piece: usize) -> anyhow::Result<()> {
    let mut tally = tally(rt.alloc(), Kind::Counter, Vec::new(rt.alloc()))?;
    let mut recorder = Recorder::new(rt.alloc(), sets.len())?;
    let mut least = Duration::MAX;
    for _ in 0..ROUNDS {
        note_sets(&mut recorder, sets)?;
        let start = Instant::now(rt)?;
        take_in(&mut recorder, &mut tally, sets.len(), piece);
        least = least.min(start.elapsed(rt)?);
        recorder.clear();
    }
    let what = format!(in rt.alloc(); "taken in by pieces of {piece}")?;
    tell(rt, what.as_str(), sets.len() as u64, least)
}

// A full log, from which a piece is taken and as many recordings are noted, again and again.
fn time_topping(rt: &HostRuntime, sizes: Sizes, piece: usize) -> anyhow::Result<()> {
    let mut tally = tally(rt.alloc(), Kind::Counter, Vec::new(rt.alloc()))?;
    let none = AttrSet::empty(rt.alloc());
    let _ = tally.hold(0, &none)?;
    let mut recorder = Recorder::new(rt.alloc(), sizes.sets as usize)?;
    note_numbers(&mut recorder, sizes.sets as usize)?;
    let start = Instant::now(rt)?;
    for _ in 0..sizes.again as usize / piece.max(1) {
        let _ = recorder.give_to(&mut tally, piece);
        note_numbers(&mut recorder, piece)?;
    }
    let what = format!(in rt.alloc(); "noted and taken in by pieces of {piece}, by number")?;
    tell(
        rt,
        what.as_str(),
        u64::from(sizes.again),
        start.elapsed(rt)?,
    )
}

// Sets that never come again, in a log of which a recording always stays. What taking them in takes is told alone, and then all.
fn time_fresh(rt: &HostRuntime, sets: &[AttrSet], piece: usize) -> anyhow::Result<()> {
    let mut tally = tally(rt.alloc(), Kind::Counter, Vec::new(rt.alloc()))?;
    let mut recorder = Recorder::new(rt.alloc(), piece.saturating_mul(10))?;
    let mut taking = Duration::ZERO;
    let all = Instant::now(rt)?;
    for set in sets {
        recorder.measure(0, set, 1)?;
        if recorder.len() > piece {
            let start = Instant::now(rt)?;
            let _ = recorder.give_to(&mut tally, piece);
            taking = taking.saturating_add(start.elapsed(rt)?);
        }
    }
    let all = all.elapsed(rt)?;
    tell(rt, "taken in", sets.len() as u64, taking)?;
    tell(rt, "noted and taken in", sets.len() as u64, all)
}

/// Pieces of each of these sizes, and the whole.
pub fn run(rt: &HostRuntime, sizes: Sizes, pieces: &[u32]) -> anyhow::Result<()> {
    let many = sets(rt.alloc(), 4, sizes.sets)?;
    eprintln!(rt; "a log of {} sets", sizes.sets)?;
    for piece in pieces {
        time_taking(rt, &many, *piece as usize)?;
    }
    time_taking(rt, &many, many.len())?;
    eprintln!(rt; "a full log of {}", sizes.sets)?;
    for piece in pieces {
        time_topping(rt, sizes, *piece as usize)?;
    }
    let fresh = sets(rt.alloc(), 4, sizes.fresh)?;
    eprintln!(rt;
        "sets that never come again, pieces of 100, a log of 1,000 of which one recording stays"
    )?;
    time_fresh(rt, &fresh, 100)
}
