//! Takes of exports and merges of gateways, by gateways that hold some keys.
use crate::clock::tell;
use crate::gateways::{Keys, Sets, Times, Which, export_of, holding};
use anyhow::ensure;
use gateway_kit::Gateway;
use std::time::{Duration, Instant};

/// How points come: by an export, or by a gateway that took it.
#[derive(Clone, Copy)]
enum Way {
    Take,
    Merge,
}

/// What a gateway holds since its time 200, and what then comes of a time.
#[derive(Clone, Copy)]
struct Case {
    what: &'static str,
    way: Way,
    held: Keys,
    time: u64,
    came: Keys,
}

impl Case {
    // So many points make more rounds of small cases, since the clock and all else that runs tell more there. The least of them
    // is told.
    fn rounds(&self, points: u32) -> u32 {
        (points / self.came.count.max(1)).clamp(1, 20)
    }
}

fn time_take(rt: &HostRuntime, case: Case, gateway: &mut Gateway) -> anyhow::Result<Duration> {
    let export = export_of(rt.alloc(), Times::at(case.time), case.came)?;
    let start = Instant::now(rt)?;
    gateway.take(&export)?;
    Ok(start.elapsed(rt)?)
}

fn time_merge(rt: &HostRuntime, case: Case, gateway: &mut Gateway) -> anyhow::Result<Duration> {
    let other = holding(rt.alloc(), Times::at(case.time), case.came)?;
    let start = Instant::now(rt)?;
    gateway.merge(&other)?;
    Ok(start.elapsed(rt)?)
}

// One call that counts the conflicts.
fn time_conflicts(rt: &HostRuntime, gateway: &Gateway) -> anyhow::Result<Duration> {
    let start = Instant::now(rt)?;
    let conflicts = gateway.conflicts();
    let took = start.elapsed(rt)?;
    ensure!(conflicts == 0, "a gateway has conflicts");
    Ok(took)
}

fn time_case(
    rt: &HostRuntime,
    case: Case,
    gateway: &mut Gateway,
) -> anyhow::Result<(Duration, Duration)> {
    let took = match case.way {
        Way::Take => time_take(rt, case, gateway)?,
        Way::Merge => time_merge(rt, case, gateway)?,
    };
    Ok((took, time_conflicts(rt, gateway)?))
}

// The time of a case, and of a count of conflicts after it.
fn once(rt: &HostRuntime, case: Case) -> anyhow::Result<(Duration, Duration)> {
    let mut gateway = holding(rt.alloc(), Times::at(200), case.held)?;
    time_case(rt, case, &mut gateway)
}

// Tells the least time of a case, and lowers the least time of a count of conflicts.
fn run_case(
    rt: &HostRuntime,
    points: u32,
    case: Case,
    counted: &mut Duration,
) -> anyhow::Result<()> {
    let mut least = Duration::MAX;
    for _ in 0..case.rounds(points) {
        let (took, conflicts) = once(rt, case)?;
        least = least.min(took);
        *counted = conflicts.min(*counted);
    }
    tell(rt, case.what, u64::from(case.came.count), least)
}

fn run_all(rt: &HostRuntime, points: u32, cases: &[Case]) -> anyhow::Result<()> {
    let mut counted = Duration::MAX;
    for case in cases {
        run_case(rt, points, *case, &mut counted)?;
    }
    // With the clock's own time: as long whatever is held.
    tell(rt, "one count of conflicts", 1, counted)
}

fn of(what: &'static str, way: Way, held: Keys, time: u64, came: Keys) -> Case {
    Case {
        what,
        way,
        held,
        time,
        came,
    }
}

// Sets of one pair, the points of an export in the order of their keys.
fn run_rising(rt: &HostRuntime, points: u32, all: Keys) -> anyhow::Result<()> {
    let none = Keys { count: 0, ..all };
    let most = all.only(Which::Most);
    let half = all.starting(all.count / 2);
    let other = all.starting(all.count);
    let cases = [
        of("take into an empty gateway", Way::Take, none, 200, all),
        of("take of later points", Way::Take, all, 300, all),
        of("take, one in 1,000 new", Way::Take, most, 300, all),
        of("take of an earlier export", Way::Take, all, 150, all),
        of("take, half new", Way::Take, all, 300, half),
        of("merge of an equal gateway", Way::Merge, all, 200, all),
        of("merge, one in 1,000 new", Way::Merge, most, 200, all),
        of("merge, half new", Way::Merge, all, 200, half),
        of("merge of new keys alone", Way::Merge, all, 200, other),
    ];
    eprintln!(rt; "in the order of keys")?;
    run_all(rt, points, &cases)
}

// Sets of 4 pairs, which come in another order than they are held in.
fn run_scattered(rt: &HostRuntime, points: u32, all: Keys) -> anyhow::Result<()> {
    let none = Keys { count: 0, ..all };
    let most = all.only(Which::Most);
    let cases = [
        of("take into an empty gateway", Way::Take, none, 200, all),
        of("take of later points", Way::Take, all, 300, all),
        of("take, one in 1,000 new", Way::Take, most, 300, all),
        of("merge of an equal gateway", Way::Merge, all, 200, all),
    ];
    eprintln!(rt; "scattered")?;
    run_all(rt, points, &cases)
}

/// Takes and merges, of so many keys each, in rounds of so many points together.
pub fn run(rt: &HostRuntime, points: u32, sizes: &[u32]) -> anyhow::Result<()> {
    for count in sizes {
        run_rising(rt, points, Keys::first(Sets::Numbers, *count))?;
        run_scattered(rt, points, Keys::first(Sets::Scattered, *count))?;
    }
    Ok(())
}
