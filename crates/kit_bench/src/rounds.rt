//! Rounds of one counter with 4 attributes: placed in an arena, and copied out.
use crate::clock::tell;
use crate::gateways::writer;
use crate::tallies::{set, tally};
use agg_kit::Tally;
use bumpalo::Bump;
use plan_kit::Kind;
use point_kit::WriterId;
use round_kit::{Round, place};
use std::alloc::Global;
use std::time::{Duration, Instant};

// Of so many times the least is told: what else the machine does only adds to a time. So do the greater pieces that an
// arena which is kept asks for in its first rounds.
const TIMES: u64 = 9;

// A counter with so many points.
fn tally_of(alloc: Global, series: u32) -> anyhow::Result<Tally> {
    let mut tally = tally(alloc, Kind::Counter, Vec::new(alloc))?;
    for number in 0..series {
        tally.measure(0, &set(alloc, 4, number)?, 1)?;
    }
    Ok(tally)
}

fn time_place<'b>(
    rt: &HostRuntime,
    bump: &'b Bump,
    tally: &Tally,
) -> anyhow::Result<(Round<'b>, Duration)> {
    let start = Instant::now(rt)?;
    let round = place(bump, tally, 100, 200)?;
    let took = start.elapsed(rt)?;
    Ok((round, took))
}

fn time_copy(rt: &HostRuntime, round: &Round<'_>, writer: &WriterId) -> anyhow::Result<Duration> {
    let start = Instant::now(rt)?;
    let export = round.copy_out(rt.alloc(), writer)?;
    let took = start.elapsed(rt)?;
    anyhow::ensure!(
        export.points().len() == round.len(),
        "a point was not copied"
    );
    Ok(took)
}

// The first two rounds of new arenas. The system gives out the pages of an arena as they are first written.
fn in_new_arenas(rt: &HostRuntime, tally: &Tally, series: u32) -> anyhow::Result<()> {
    let mut first = Duration::MAX;
    let mut second = Duration::MAX;
    for _ in 0..TIMES {
        let mut bump = Bump::new(rt.alloc());
        let (_, took) = time_place(rt, &bump, tally)?;
        first = first.min(took);
        bump.reset()?;
        let (_, took) = time_place(rt, &bump, tally)?;
        second = second.min(took);
    }
    tell(rt, "place in a new arena", u64::from(series), first)?;
    tell(
        rt,
        "place in an arena that was reset",
        u64::from(series),
        second,
    )
}

// Round after round in one arena, as a writer's collections are, whose last piece holds the whole round.
fn in_a_kept_arena(rt: &HostRuntime, tally: &Tally, series: u32) -> anyhow::Result<()> {
    let mut bump = Bump::new(rt.alloc());
    let mut least = Duration::MAX;
    for _ in 0..TIMES {
        let (_, took) = time_place(rt, &bump, tally)?;
        least = least.min(took);
        bump.reset()?;
    }
    tell(
        rt,
        "place in an arena that is kept",
        u64::from(series),
        least,
    )
}

fn copy_out(rt: &HostRuntime, tally: &Tally, series: u32) -> anyhow::Result<()> {
    let writer = writer(rt.alloc())?;
    let bump = Bump::new(rt.alloc());
    let (round, _) = time_place(rt, &bump, tally)?;
    let mut least = Duration::MAX;
    for _ in 0..TIMES {
        least = least.min(time_copy(rt, &round, &writer)?);
    }
    tell(rt, "copy out", u64::from(series), least)
}

/// Rounds of so many points: in new arenas, in arenas that were reset, in one that is kept, and copied out.
pub fn run(rt: &HostRuntime, series: u32) -> anyhow::Result<()> {
    let tally = tally_of(rt.alloc(), series)?;
    in_new_arenas(rt, &tally, series)?;
    in_a_kept_arena(rt, &tally, series)?;
    copy_out(rt, &tally, series)
}
