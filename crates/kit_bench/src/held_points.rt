//! Recordings at a held point, beside an atomic addition that no other thread touches.
use crate::clock::tell;
use crate::tallies::{set, tally};
use agg_kit::{Tally, TallyFault};
use plan_kit::Kind;
use std::sync::atomic::{AtomicU64, Ordering};
use std::time::{Duration, Instant};

// Of so many times the least is told.
const ROUNDS: u32 = 7;

// Values differ from turn to turn, so that no compiler adds them up.
fn add(sum: &AtomicU64, turns: u32) {
    for turn in 0..turns {
        let _ = sum.fetch_add(u64::from(turn % 8), Ordering::SeqCst);
    }
}

fn record(tally: &mut Tally, number: usize, turns: u32) -> Result<(), TallyFault> {
    for turn in 0..turns {
        tally.measure_held(number, i64::from(turn % 8))?;
    }
    Ok(())
}

fn time_additions(rt: &HostRuntime, turns: u32) -> anyhow::Result<()> {
    let sum = AtomicU64::new(0);
    let mut least = Duration::MAX;
    for _ in 0..ROUNDS {
        let start = Instant::now(rt)?;
        add(&sum, turns);
        least = least.min(start.elapsed(rt)?);
    }
    tell(rt, "atomic addition", u64::from(turns), least)
}

fn time_recordings(rt: &HostRuntime, what: &str, kind: Kind, turns: u32) -> anyhow::Result<()> {
    let mut tally = tally(rt.alloc(), kind, Vec::new(rt.alloc()))?;
    let number = tally.hold(0, &set(rt.alloc(), 4, 0)?)?;
    let mut least = Duration::MAX;
    for _ in 0..ROUNDS {
        let start = Instant::now(rt)?;
        record(&mut tally, number, turns)?;
        least = least.min(start.elapsed(rt)?);
    }
    tell(rt, what, u64::from(turns), least)
}

/// Recordings of a counter and of a histogram at one held point of 4 attributes.
pub fn run(rt: &HostRuntime, turns: u32) -> anyhow::Result<()> {
    time_additions(rt, turns)?;
    time_recordings(rt, "counter, at a held point", Kind::Counter, turns)?;
    time_recordings(rt, "histogram, at a held point", Kind::Histogram, turns)
}
