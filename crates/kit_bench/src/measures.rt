//! Recordings into points that are held, beside a bare map of the same sets.
use crate::clock::tell;
use crate::tallies::{first_key, sets, tally};
use agg_kit::{Tally, TallyFault};
use attr_kit::AttrSet;
use indexmap::IndexMap;
use plan_kit::Kind;
use std::alloc::Global;
use std::time::Instant;

const VALUE: i64 = 7;

// How many recordings there are of these sets.
fn count(sets: &[AttrSet], turns: u32) -> u64 {
    (sets.len() as u64).saturating_mul(u64::from(turns))
}

// Records the value at each set in turn.
fn record(tally: &mut Tally, sets: &[AttrSet], turns: u32) -> Result<(), TallyFault> {
    for _ in 0..turns {
        for set in sets {
            tally.measure(0, set, VALUE)?;
        }
    }
    Ok(())
}

fn time_measures(
    rt: &HostRuntime,
    what: &str,
    tally: &mut Tally,
    sets: &[AttrSet],
    turns: u32,
) -> anyhow::Result<()> {
    record(tally, sets, 1)?;
    let start = Instant::now(rt)?;
    record(tally, sets, turns)?;
    let took = start.elapsed(rt)?;
    tell(rt, what, count(sets, turns), took)
}

// A map with 0 under each set.
fn zeros(alloc: Global, sets: &[AttrSet]) -> anyhow::Result<IndexMap<AttrSet, i64>> {
    let mut map = IndexMap::new(alloc);
    for set in sets {
        let _ = map.insert(set.try_copy()?, 0)?;
    }
    Ok(map)
}

// Adds the value under each set in turn.
fn add(map: &mut IndexMap<AttrSet, i64>, sets: &[AttrSet], turns: u32) {
    for _ in 0..turns {
        for set in sets {
            if let Some(sum) = map.get_mut(set) {
                *sum = sum.wrapping_add(VALUE);
            }
        }
    }
}

// The time of a look-up and an addition alone.
fn floor(rt: &HostRuntime, sets: &[AttrSet], turns: u32) -> anyhow::Result<()> {
    let mut map = zeros(rt.alloc(), sets)?;
    let start = Instant::now(rt)?;
    add(&mut map, sets, turns);
    let took = start.elapsed(rt)?;
    tell(rt, "bare map", count(sets, turns), took)
}

// A counter and a histogram, after the bare map.
fn kinds(rt: &HostRuntime, sets: &[AttrSet], turns: u32) -> anyhow::Result<()> {
    floor(rt, sets, turns)?;
    for (what, kind) in [("counter", Kind::Counter), ("histogram", Kind::Histogram)] {
        let mut tally = tally(rt.alloc(), kind, Vec::new(rt.alloc()))?;
        time_measures(rt, what, &mut tally, sets, turns)?;
    }
    Ok(())
}

// The same at so many sets of so many pairs.
fn kinds_of(rt: &HostRuntime, pairs: u32, number: u32, turns: u32) -> anyhow::Result<()> {
    eprintln!(rt; "sets: {number}, attributes: {pairs}")?;
    kinds(rt, &sets(rt.alloc(), pairs, number)?, turns)
}

fn keeping(alloc: Global) -> anyhow::Result<Tally> {
    let mut views = Vec::new(alloc);
    views.push(first_key(alloc)?)?;
    tally(alloc, Kind::Counter, views)
}

// A counter under a view that keeps one key of four.
fn run_kept_key(rt: &HostRuntime, turns: u32) -> anyhow::Result<()> {
    let sets = sets(rt.alloc(), 4, 1)?;
    let mut counter = keeping(rt.alloc())?;
    time_measures(
        rt,
        "counter that keeps one key of four",
        &mut counter,
        &sets,
        turns,
    )
}

/// Recordings at one set of no, 4 and 10 attributes, under a view, and at many sets in turn.
pub fn run(rt: &HostRuntime, turns: u32, many: u32) -> anyhow::Result<()> {
    for pairs in [0, 4, 10] {
        kinds_of(rt, pairs, 1, turns)?;
    }
    run_kept_key(rt, turns)?;
    kinds_of(rt, 4, many, turns / many.max(1))
}
