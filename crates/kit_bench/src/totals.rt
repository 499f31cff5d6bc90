//! Exact totals: threads with a log each, which a shared writer takes in, beside one that collects.
ghost use Rattle.writer_kit.specs.Shared.{IsAt};

use crate::lanes::Work;
use crate::threads::{Way, lanes_of, race, share};
use anyhow::ensure;
use attr_kit::AttrSet;
use bumpalo::Bump;
use round_kit::{Round, RoundPayload};
use std::alloc::Global;
use std::rt::Clock;
use std::sync::Wait;
use std::thread::Threads;
use turn_kit::Seat;
use writer_kit::{SharedWriter, Writer};

/// The times of the first collection beside the logs, and of the one after their end.
const FIRST: u64 = 101;

const LAST: u64 = 151;

/// How many logs each thread hands over.
const PARTS: u32 = 40;

// What a counter's round has recorded, under all sets.
fn total(round: &Round<'_>) -> u64 {
    let mut total: u64 = 0;
    for point in round.points() {
        if let RoundPayload::Sum(sum) = &point.payload {
            total = total.saturating_add(sum.unsigned_abs());
        }
    }
    total
}

// The total of a collection, none where that is refused.
fn collect<R: Wait>(
    rt: &R,
    alloc: Global,
    shared: &SharedWriter,
    seat: &mut Seat<Writer>,
    time: u64,
) -> Option<u64>
    requires { IsAt shared.now seat.old }
    ensures { IsAt shared.now seat.new }
{
    let arena = Bump::new(alloc);
    match shared.collect(rt, seat, &arena, time) {
        Ok(round) => Some(total(&round)),
        Err(_) => None,
    }
}

/// Collects some times, and says whether no total is below an earlier one.
pub fn do_totals_rise<R: Wait>(
    rt: &R,
    alloc: Global,
    shared: &SharedWriter,
    seat: &mut Seat<Writer>,
) -> bool
    requires { IsAt shared.now seat.old }
{
    let mut last: u64 = 0;
    for time in FIRST..LAST {
        match collect(rt, alloc, shared, seat, time) {
            Some(total) if total >= last => last = total,
            _ => return false,
        }
    }
    true
}

/// Has four threads record by a log each, two by numbers and two by sets, which is taken in after so many recordings, while another
/// thread collects. Refuses where a recording is refused, a total falls, or the total after the threads' end is not that of all.
pub fn run<R: Threads + Wait + Sync + Clock>(
    rt: &R,
    alloc: Global,
    sets: &[AttrSet],
    each: u32,
) -> anyhow::Result<()> {
    let (all, mut first) = share(alloc, sets)?;
    let (numbers, by_sets) = (Way::Numbers(each), Way::Sets(each));
    let ways = [numbers, by_sets, numbers, by_sets, Way::Collections];
    let lanes = lanes_of(rt, alloc, &ways, &all, &mut first, each)?;
    let work = Work {
        sets,
        parts: PARTS,
        each,
    };
    let (accepted, _took) = race(rt, lanes, work)?;
    let recorded = work.recordings().saturating_mul(4);
    ensure!(accepted == recorded, "a recording is missing");
    let total = collect(rt, alloc, &all.writer, &mut first, LAST);
    ensure!(total == Some(recorded), "a total is not exact");
    Ok(())
}
