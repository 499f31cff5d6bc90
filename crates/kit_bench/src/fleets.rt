//! Recordings by fleets, and by as many threads into maps behind `std`'s `Mutex`.
use crate::clock::tell_times;
use crate::tallies::{plan, sets};
use attr_kit::{AttrSet, Txt};
use fleet_kit::{FleetSetup, Job, Open, run_fleet};
use indexmap::IndexMap;
use plan_kit::{Kind, Plan};
use point_kit::WriterId;
use std::alloc::Global;
use std::rt::Clock;
use std::sync::{Mutex, Wait};
use std::thread;
use std::thread::Threads;
use std::time::{Duration, Instant};
use uuid::Uuid;

/// How many writers there are, and how many recorders of each.
#[derive(Clone, Copy)]
struct Size {
    writers: usize,
    recorders: usize,
}

/// What each recorder records: 1 at each set in turn, so many times.
#[derive(Clone, Copy)]
struct Work<'a> {
    size: Size,
    sets: &'a [AttrSet],
    turns: u32,
}

impl Work<'_> {
    // How many points it makes.
    fn points(&self) -> usize {
        self.size.writers.saturating_mul(self.sets.len())
    }

    // How many recordings it is.
    fn recordings(&self) -> u64 {
        let each_turn = self.points().saturating_mul(self.size.recorders) as u64;
        each_turn.saturating_mul(u64::from(self.turns))
    }
}

/// Who records.
#[derive(Clone, Copy)]
enum Way {
    Fleet,
    Mutexes,
}

impl Way {
    // What is timed: all of it, with the threads' start and the drop of the jobs.
    fn name(self) -> &'static str {
        match self {
            Way::Fleet => "recordings of a fleet, to its gateway",
            Way::Mutexes => "additions in maps behind mutexes",
        }
    }
}

/// A total for each set.
pub type Totals = IndexMap<AttrSet, i64>;

// The job of a recorder.
fn job(alloc: Global, writer: usize, work: Work<'_>) -> anyhow::Result<Job> {
    let mut entries = Vec::new(alloc);
    for _ in 0..work.turns {
        for set in work.sets {
            entries.push((0, set.try_copy()?, 1))?;
        }
    }
    Ok(Job { writer, entries })
}

fn jobs(alloc: Global, work: Work<'_>) -> anyhow::Result<Vec<Job>> {
    let mut jobs = Vec::new(alloc);
    for writer in 0..work.size.writers {
        for _ in 0..work.size.recorders {
            jobs.push(job(alloc, writer, work)?)?;
        }
    }
    Ok(jobs)
}

// A counter's writer of a number, which starts at 100.
fn member(alloc: Global, number: usize) -> anyhow::Result<(WriterId, Plan, u64)> {
    let id = WriterId {
        service: Txt::from_str(alloc, "shop")?,
        instance: Uuid::from_u128(number as u128),
    };
    Ok((id, plan(alloc, Kind::Counter, Vec::new(alloc))?, 100))
}

fn members(alloc: Global, count: usize) -> anyhow::Result<Vec<(WriterId, Plan, u64)>> {
    let mut members = Vec::new(alloc);
    for number in 0..count {
        members.push(member(alloc, number)?)?;
    }
    Ok(members)
}

// A fleet of counters and one gateway.
fn setup(alloc: Global, work: Work<'_>) -> anyhow::Result<FleetSetup> {
    let gateways = [1].to_vec(alloc)?;
    let jobs = jobs(alloc, work)?;
    Ok(FleetSetup {
        writers: members(alloc, work.size.writers)?,
        jobs,
        gateways,
        end: 200,
    })
}

/// Adds a value under a set.
pub fn add(totals: &mut Totals, attrs: &AttrSet, value: i64) -> anyhow::Result<()> {
    match totals.get_mut(attrs) {
        Some(total) => *total = total.wrapping_add(value),
        None => {
            let _ = totals.insert(attrs.try_copy()?, value)?;
        }
    }
    Ok(())
}

// Adds the entries of a job into the map of its writer, each with the lock taken anew.
fn add_job<R: Wait>(rt: &R, maps: &[Mutex<Totals>], job: &Job) -> anyhow::Result<()> {
    let Some(map) = maps.get(job.writer) else {
        return Ok(());
    };
    for (_, attrs, value) in &job.entries {
        add(&mut map.lock(rt), attrs, *value)?;
    }
    Ok(())
}

fn empty_maps(alloc: Global, count: usize) -> anyhow::Result<Vec<Mutex<Totals>>> {
    let mut maps = Vec::new(alloc);
    for _ in 0..count {
        maps.push(Mutex::new(IndexMap::new(alloc)))?;
    }
    Ok(maps)
}

// Adds all jobs, each by a thread of its own.
fn add_jobs<R: Threads + Wait + Sync>(
    rt: &R,
    alloc: Global,
    maps: &[Mutex<Totals>],
    jobs: &[Job],
) -> anyhow::Result<()> {
    let added = thread::map_indices(
        rt,
        alloc,
        jobs.len(),
        &|place: usize| add_job(rt, maps, &jobs[place]).is_ok(),
    )?;
    anyhow::ensure!(!added.contains(&false), "a job was not added");
    Ok(())
}

// The same work as a fleet's recorders do: a thread for each job, and a map for each writer. How many totals there are.
fn add_all<R: Threads + Wait + Sync>(
    rt: &R,
    alloc: Global,
    setup: FleetSetup,
) -> anyhow::Result<usize> {
    let maps = empty_maps(alloc, setup.writers.len())?;
    add_jobs(rt, alloc, maps.as_slice(), setup.jobs.as_slice())?;
    let mut count: usize = 0;
    for map in maps {
        count = count.saturating_add(map.into_inner().len());
    }
    Ok(count)
}

// A fleet from its setup to its gateway. How many points that holds.
fn run_all<R: Threads + Wait + Sync>(
    rt: &R,
    alloc: Global,
    setup: FleetSetup,
) -> anyhow::Result<usize> {
    let gateways = run_fleet(rt, alloc, setup, &Open)?;
    let mut count: usize = 0;
    for gateway in &gateways {
        count = count.saturating_add(gateway.len());
    }
    Ok(count)
}

fn time_fleet<R: Threads + Wait + Sync + Clock + AllocGlobal>(
    rt: &R,
    way: Way,
    setup: FleetSetup,
    points: usize,
) -> anyhow::Result<Duration> {
    let start = Instant::now(rt)?;
    let count = match way {
        Way::Fleet => run_all(rt, rt.alloc(), setup)?,
        Way::Mutexes => add_all(rt, rt.alloc(), setup)?,
    };
    let took = start.elapsed(rt)?;
    anyhow::ensure!(count == points, "a fleet has another number of points");
    Ok(took)
}

// One of the two ways, with a setup of its own that is made before.
fn once<R: Threads + Wait + Sync + Clock + AllocGlobal>(
    rt: &R,
    way: Way,
    work: Work<'_>,
) -> anyhow::Result<Duration> {
    let setup = setup(rt.alloc(), work)?;
    time_fleet(rt, way, setup, work.points())
}

/// The times of the two ways.
#[derive(Drop)]
struct Times {
    mutexes: Vec<Duration>,
    fleets: Vec<Duration>,
}

// The two ways in turn, so many times.
fn gather<R: Threads + Wait + Sync + Clock + AllocGlobal>(
    rt: &R,
    work: Work<'_>,
    rounds: u32,
    times: &mut Times,
) -> anyhow::Result<()> {
    for _ in 0..rounds {
        times.mutexes.push(once(rt, Way::Mutexes, work)?)?;
        times.fleets.push(once(rt, Way::Fleet, work)?)?;
    }
    Ok(())
}

// Tells the least and the median of the times of a way.
fn tell_all(
    rt: &impl Eprint,
    way: Way,
    work: Work<'_>,
    times: &mut Vec<Duration>,
) -> anyhow::Result<()> {
    let Size { writers, recorders } = work.size;
    eprintln!(rt; "writers: {writers}, recorders of each: {recorders}")?;
    tell_times(rt, way.name(), work.recordings(), times)
}

fn compare<R: Threads + Wait + Sync + Clock + Eprint + AllocGlobal>(
    rt: &R,
    work: Work<'_>,
    rounds: u32,
) -> anyhow::Result<()> {
    let mut times = Times {
        mutexes: Vec::new(rt.alloc()),
        fleets: Vec::new(rt.alloc()),
    };
    gather(rt, work, rounds, &mut times)?;
    tell_all(rt, Way::Mutexes, work, &mut times.mutexes)?;
    tell_all(rt, Way::Fleet, work, &mut times.fleets)
}

/// Recordings of 1 at so many sets of 4 attributes in turn, by each of four recorders: two of each of two writers, and four
/// of one.
pub fn run<R: Threads + Wait + Sync + Clock + Eprint + AllocGlobal>(
    rt: &R,
    rounds: u32,
    number: u32,
    turns: u32,
) -> anyhow::Result<()> {
    let sets = sets(rt.alloc(), 4, number)?;
    for (writers, recorders) in [(2, 2), (1, 4)] {
        let work = Work {
            size: Size { writers, recorders },
            sets: sets.as_slice(),
            turns,
        };
        compare(rt, work, rounds)?;
    }
    Ok(())
}
