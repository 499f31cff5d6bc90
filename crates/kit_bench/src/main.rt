//! How long the parts of the kit take, by the clock.
//!
//! - `kit_bench` runs small sizes of all parts, so that all of it is tried.
//! - `kit_bench full` runs the sizes that docs tell of, and `kit_bench full rollups` those of one part: `turns`, `recordings`,
//!   `held-points`, `pieces`, `threads`, `fleets`, `gateways`, `gossip`, `bytes`, `rounds`, `rollups`, `pages` or `incarnations`.
//! - `kit_bench hold-gateway 1000000` holds so many points and ends, so that its memory can be measured from outside;
//!   `hold-tree` and `hold-map` hold the same points in maps of `std`. `kit_bench hold-incarnations 100000 10` holds so many
//!   incarnations of so many points each (1 where none is told), and `hold-keys` the same in a map by hand.
//!
//! Timings go to standard error, and nothing to standard output.
#![tactic(auto)]

mod bytes;
mod changes;
mod clock;
mod counter;
mod fleets;
mod gateways;
mod gossip;
mod held;
mod held_points;
mod incarnations;
mod key_map;
mod lanes;
mod measures;
mod mutexes;
mod numbered;
mod pages;
mod pieces;
mod rollups;
mod rounds;
mod stored;
mod stores;
mod takes;
mod tallies;
mod threads;
mod totals;
mod turns;
mod words;

use words::{Part, Words};

fn all_gossip(rt: &HostRuntime, sizes: &[u32]) -> anyhow::Result<()> {
    for keys in sizes {
        gossip::run(rt, *keys)?;
    }
    Ok(())
}

fn all_rounds(rt: &HostRuntime, sizes: &[u32]) -> anyhow::Result<()> {
    for series in sizes {
        rounds::run(rt, *series)?;
    }
    Ok(())
}

fn all_rollups(rt: &HostRuntime, points: &[u32], sizes: &[u32]) -> anyhow::Result<()> {
    for keys in points {
        for groups in sizes {
            rollups::run(rt, *keys, *groups)?;
        }
        rollups::run_scattered(rt, *keys)?;
    }
    Ok(())
}

// The parts whose threads, if any, are `main`'s own.
fn alone(rt: &HostRuntime, words: &Words) -> anyhow::Result<()> {
    if words.has(Part::Recordings) {
        measures::run(rt, words.size(2_000_000, 20), words.size(2_000, 5))?;
    }
    if words.has(Part::HeldPoints) {
        held_points::run(rt, words.size(2_000_000, 20))?;
    }
    if words.has(Part::Pieces) {
        let sizes = pieces::Sizes {
            sets: words.size(10_000, 20),
            again: words.size(100_000, 40),
            fresh: words.size(100_000, 300),
        };
        pieces::run(rt, sizes, words.sizes(&[1, 10, 100], &[1, 10]))?;
    }
    if words.has(Part::Gateways) {
        let sizes = words.sizes(&[1_000, 100_000, 1_000_000], &[10, 40]);
        takes::run(rt, words.size(300_000, 40), sizes)?;
    }
    if words.has(Part::Gossip) {
        all_gossip(rt, words.sizes(&[1_000, 10_000, 100_000], &[10, 40]))?;
    }
    if words.has(Part::Bytes) {
        bytes::run(rt, words.size(100_000, 40))?;
    }
    if words.has(Part::Rounds) {
        all_rounds(rt, words.sizes(&[1_000, 100_000], &[10, 40]))?;
    }
    if words.has(Part::Rollups) {
        let points = words.sizes(&[100_000, 1_000_000], &[40]);
        all_rollups(rt, points, words.sizes(&[1, 10, 10_000], &[4]))?;
    }
    if words.has(Part::Pages) {
        pages::run(rt, words.size(100_000, 40))?;
    }
    if words.has(Part::Incarnations) {
        let sizes = words.sizes(&[1_000, 10_000, 100_000, 1_000_000], &[40]);
        incarnations::run(rt, sizes, words.sizes(&[1, 10, 100], &[1, 10]))?;
    }
    Ok(())
}

// `main` alone has what may start threads.
fn main(rt: HostRuntime) -> anyhow::Result<()> {
    let words = Words::read(&rt)?;
    if let Some(holder) = words.holder {
        return held::run(rt.alloc(), holder, words.count, words.points);
    }
    if words.has(Part::Turns) {
        changes::run(&rt, words.size(7, 1), words.size(400_000, 1_000))?;
    }
    if words.has(Part::Threads) {
        let (rounds, sets) = (words.size(5, 1), words.size(1_000, 5));
        threads::run(&rt, rounds, sets, words.size(400_000, 2_000))?;
    }
    if words.has(Part::Fleets) {
        let (rounds, sets) = (words.size(9, 3), words.size(1_000, 20));
        fleets::run(&rt, rounds, sets, words.size(250, 2))?;
    }
    alone(&rt, &words)
}
