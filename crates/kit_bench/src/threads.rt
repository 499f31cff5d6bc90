//! Recordings of a counter by threads side by side, by each way to record, in one run.
ghost use Rattle.std.specs.Prelude.{IfOk};
ghost use Rattle.writer_kit.specs.Shared.{IsAt};

use crate::clock::tell;
use crate::fleets::Totals;
use crate::gateways::writer as identity;
use crate::lanes::{Lane, Seated, Work};
use crate::tallies::{plan, sets};
use crate::{lanes, totals};
use anyhow::ensure;
use attr_kit::AttrSet;
use indexmap::IndexMap;
use plan_kit::Kind;
use recorder_kit::Recorder;
use std::alloc::Global;
use std::rt::Clock;
use std::sync::atomic::AtomicU64;
use std::sync::{Mutex, Wait};
use std::thread;
use std::thread::Threads;
use std::time::{Duration, Instant};
use turn_kit::Seat;
use writer_kit::{SharedWriter, Writer};

/// More changes than any run makes.
const LIMIT: u64 = 1 << 62;

/// How threads record.
#[derive(Clone, Copy)]
pub enum Way {
    /// Each in a writer of its own.
    Own,
    /// One by one, in a shared writer.
    Shared,
    /// Each in a log, by the numbers of held points; the shared writer takes it in after so many recordings.
    Numbers(u32),
    /// The same by sets.
    Sets(u32),
    /// Not at all: it collects what others record.
    Collections,
    /// In a map behind a mutex.
    Mutex,
    /// By atomic additions to one number.
    Atomic,
}

impl Way {
    fn name(self) -> &'static str {
        match self {
            Way::Own => "a writer of one's own",
            Way::Shared => "one by one, in a shared writer",
            Way::Numbers(_) => "by number in a log, which a shared writer takes in",
            Way::Sets(_) => "by set in a log, which a shared writer takes in",
            Way::Collections => "collections",
            Way::Mutex => "in a map behind a mutex",
            Way::Atomic => "atomic additions to one number",
        }
    }

    // The recordings of one thread, in parts of as many as it hands over together.
    fn work(self, sets: &[AttrSet], recordings: u32) -> Work<'_> {
        let each = match self {
            Way::Numbers(each) | Way::Sets(each) => each,
            _ => 1_000,
        };
        let each = each.clamp(1, recordings.max(1));
        let parts = recordings / each;
        Work { sets, parts, each }
    }
}

/// What the threads share.
#[derive(Drop)]
pub struct Shared {
    pub writer: SharedWriter,
    map: Mutex<Totals>,
    sum: AtomicU64,
}

// A writer of one counter.
fn writer_of(alloc: Global) -> anyhow::Result<Writer> {
    let plan = plan(alloc, Kind::Counter, Vec::new(alloc))?;
    Ok(Writer::start(alloc, identity(alloc)?, plan, 100)?)
}

/// A shared writer that holds each set, and a seat at it, with a map and a number.
pub fn share(alloc: Global, sets: &[AttrSet]) -> anyhow::Result<(Shared, Seat<Writer>)>
    ensures { IfOk result (λ made. IsAt made.0.writer made.1) }
{
    let mut writer = writer_of(alloc)?;
    for set in sets {
        let _ = writer.hold(0, set)?;
    }
    match SharedWriter::new(alloc, writer, LIMIT) {
        Ok((writer, seat)) => {
            let map = Mutex::new(IndexMap::new(alloc));
            let sum = AtomicU64::new(0);
            Ok((Shared { writer, map, sum }, seat))
        }
        Err((_writer, fault)) => Err(anyhow::Error::from(fault)),
    }
}

// What one thread has.
fn lane_of<'a, R: Wait>(
    rt: &R,
    alloc: Global,
    way: Way,
    all: &'a Shared,
    first: &mut Seat<Writer>,
    capacity: u32,
) -> anyhow::Result<Lane<'a>>
    requires { IsAt all.now.writer first.old }
    ensures { IsAt all.now.writer first.new }
{
    match way {
        Way::Own => Ok(Lane::Own(writer_of(alloc)?)),
        Way::Mutex => Ok(Lane::Locked(&all.map)),
        Way::Atomic => Ok(Lane::Atomic(&all.sum)),
        _ => {
            let shared = &all.writer;
            let recorder = Recorder::new(alloc, capacity as usize)?;
            let seat = shared.split(rt, first)?;
            Ok(Lane::Seated(Seated {
                way,
                alloc,
                shared,
                seat,
                recorder,
            }))
        }
    }
}

/// What a thread has for each of these ways.
pub fn lanes_of<'a, R: Wait>(
    rt: &R,
    alloc: Global,
    ways: &[Way],
    all: &'a Shared,
    first: &mut Seat<Writer>,
    capacity: u32,
) -> anyhow::Result<Vec<Lane<'a>>>
    requires { IsAt all.now.writer first.old }
    ensures { IsAt all.now.writer first.new }
{
    let mut lanes = Vec::new(alloc);
    for way in ways {
        let lane = lane_of(rt, alloc, *way, all, first, capacity)?;
        lanes.push(lane)?;
    }
    Ok(lanes)
}

/// Has each thread do the work: how many recordings were accepted, and the time with the threads' start and end.
pub fn race<R: Threads + Wait + Sync + Clock>(
    rt: &R,
    all: Vec<Lane<'_>>,
    work: Work<'_>,
) -> anyhow::Result<(u64, Duration)> {
    let start = Instant::now(rt)?;
    let counts = thread::map_vec(
        rt,
        all,
        &|lane: Lane<'_>| -> u64
            ensures { Unit {0} }
        { lanes::run(rt, lane, work) },
    )?;
    let took = start.elapsed(rt)?;
    let mut all: u64 = 0;
    for count in &counts {
        all = all.saturating_add(*count);
    }
    Ok((all, took))
}

fn time_way<R: Threads + Wait + Sync + Clock>(
    rt: &R,
    alloc: Global,
    way: Way,
    threads: usize,
    work: Work<'_>,
) -> anyhow::Result<(u64, Duration)> {
    let (all, mut first) = share(alloc, work.sets)?;
    let ways = vec![in alloc; way; threads]?;
    let lanes = lanes_of(rt, alloc, ways.as_slice(), &all, &mut first, work.each)?;
    race(rt, lanes, work)
}

fn run_way<R: Threads + Wait + Sync + Clock + Eprint + AllocGlobal>(
    rt: &R,
    rounds: u32,
    way: Way,
    threads: usize,
    work: Work<'_>,
) -> anyhow::Result<()> {
    let recordings = work.recordings().saturating_mul(threads as u64);
    let mut least = Duration::MAX;
    for _ in 0..rounds {
        let (accepted, took) = time_way(rt, rt.alloc(), way, threads, work)?;
        ensure!(accepted == recordings, "a recording is missing");
        least = least.min(took);
    }
    if let Way::Numbers(each) | Way::Sets(each) = way {
        eprint!(rt; "after each {each}: ")?;
    }
    tell(rt, way.name(), recordings, least)
}

fn run_ways<R: Threads + Wait + Sync + Clock + Eprint + AllocGlobal>(
    rt: &R,
    rounds: u32,
    sets: &[AttrSet],
    recordings: u32,
) -> anyhow::Result<()> {
    let (often, seldom) = (recordings / 400, recordings / 40);
    let ways = [
        Way::Own,
        Way::Shared,
        Way::Numbers(often),
        Way::Numbers(seldom),
        Way::Sets(often),
        Way::Sets(seldom),
        Way::Mutex,
        Way::Atomic,
    ];
    for threads in [1, 2, 4] {
        eprintln!(rt; "sets: {}, threads: {threads}", sets.len())?;
        for way in ways {
            run_way(rt, rounds, way, threads, way.work(sets, recordings))?;
        }
    }
    Ok(())
}

/// So many recordings of a counter by each of one, two and four threads: at one set without attributes, at one of 4, and at
/// so many sets of 4 in turn. The totals are exact beside a thread that collects ([`totals`]).
pub fn run<R: Threads + Wait + Sync + Clock + Eprint + AllocGlobal>(
    rt: &R,
    rounds: u32,
    many: u32,
    recordings: u32,
) -> anyhow::Result<()> {
    for (pairs, count) in [(0, 1), (4, 1), (4, many)] {
        let sets = sets(rt.alloc(), pairs, count)?;
        eprintln!(rt; "attributes: {pairs}")?;
        run_ways(rt, rounds, sets.as_slice(), recordings)?;
        totals::run(rt, rt.alloc(), sets.as_slice(), recordings / 400)?;
    }
    Ok(())
}
