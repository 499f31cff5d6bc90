//! What a store of many incarnations takes, whatever it is.
use crate::clock::{tell, tell_times};
use crate::numbered::{Numbers, Source, service_of};
use crate::stores::{Store, Walked};
use std::alloc::Global;
use std::time::{Duration, Instant};

/// Of so many times the least and the median are told.
pub const ROUNDS: u32 = 9;

// So many change, or are merged, at once.
const MANY: u32 = 1_000;

// When an incarnation is first collected.
const FIRST: u64 = 200;

// Exports of so many points are made and then taken, so that they are in the cache as those are that came just now.
const BATCH_POINTS: u32 = 1_000;

/// How many incarnations are held, and where they come from.
#[derive(Drop)]
pub struct Case {
    pub source: Source,
    pub held: u32,
}

impl Case {
    /// So many incarnations of so many points each.
    pub fn of(alloc: Global, held: u32, points: u32) -> anyhow::Result<Case> {
        let source = Source::of(alloc, points)?;
        Ok(Case { source, held })
    }

    // How many are taken in a round.
    fn few(&self) -> u32 {
        (self.held / 100).clamp(1, MANY)
    }

    /// As many as are changed or merged at once.
    pub fn many(&self) -> u32 {
        self.held.min(MANY)
    }

    /// So many of those that are held, in each round others where there are.
    pub fn some_held(&self, round: u32, count: u32) -> Numbers {
        let spare = self.held.saturating_sub(count).max(1);
        Numbers::starting(round.saturating_mul(count) % spare, count)
    }

    // So many that are not held, in each round others.
    fn some_new(&self, round: u32, count: u32) -> Numbers {
        let past = round.saturating_mul(count);
        Numbers::starting(self.held.saturating_add(past), count)
    }
}

fn time_batch<T: Store>(
    rt: &HostRuntime,
    store: &mut T,
    case: &Case,
    numbers: Numbers,
    time: u64,
) -> anyhow::Result<Duration> {
    let exports = case.source.exports(numbers, time)?;
    let start = Instant::now(rt)?;
    for export in &exports {
        store.take_in(export)?;
    }
    Ok(start.elapsed(rt)?)
}

/// How long the takes of these took, without the making of their exports.
pub fn time_takes<T: Store>(
    rt: &HostRuntime,
    store: &mut T,
    case: &Case,
    numbers: Numbers,
    time: u64,
) -> anyhow::Result<Duration> {
    let batch = (BATCH_POINTS / case.source.points.max(1)).max(1);
    let mut took = Duration::ZERO;
    for from in (numbers.from..numbers.to).step_by(batch as usize) {
        let to = from.saturating_add(batch).min(numbers.to);
        let part = time_batch(rt, store, case, Numbers { from, to }, time)?;
        took = took.saturating_add(part);
    }
    Ok(took)
}

fn let_go<T: Store>(store: &mut T, case: &Case, numbers: Numbers) -> anyhow::Result<()> {
    for number in numbers.from..numbers.to {
        store.let_go(&case.source.export(number, FIRST)?)?;
    }
    Ok(())
}

// All of a case, into a store that holds nothing.
fn fill<T: Store>(rt: &HostRuntime, store: &mut T, case: &Case) -> anyhow::Result<()> {
    let all = Numbers::starting(0, case.held);
    let took = time_takes(rt, store, case, all, FIRST)?;
    tell(
        rt,
        "take of a new one, mean of filling",
        u64::from(case.held),
        took,
    )
}

fn take_new<T: Store>(rt: &HostRuntime, store: &mut T, case: &Case) -> anyhow::Result<()> {
    let few = case.few();
    let mut times = Vec::new(rt.alloc());
    for round in 0..ROUNDS {
        let numbers = case.some_new(round, few);
        times.push(time_takes(rt, store, case, numbers, FIRST)?)?;
        let_go(store, case, numbers)?;
    }
    tell_times(
        rt,
        "take of a new one, where all are held",
        u64::from(few),
        &mut times,
    )
}

fn take_later<T: Store>(rt: &HostRuntime, store: &mut T, case: &Case) -> anyhow::Result<()> {
    let few = case.few();
    let mut times = Vec::new(rt.alloc());
    for round in 0..ROUNDS {
        let time = u64::from(round).saturating_add(300);
        let numbers = case.some_held(round, few);
        times.push(time_takes(rt, store, case, numbers, time)?)?;
    }
    tell_times(
        rt,
        "take of a held one's next collection",
        u64::from(few),
        &mut times,
    )
}

/// Takes of all, of new ones where all are held, and of the next collections of held ones.
pub fn takes<T: Store>(rt: &HostRuntime, store: &mut T, case: &Case) -> anyhow::Result<()> {
    fill(rt, store, case)?;
    take_new(rt, store, case)?;
    take_later(rt, store, case)
}

fn time_merge<T: Store>(rt: &HostRuntime, store: &mut T, other: &T) -> anyhow::Result<Duration> {
    let start = Instant::now(rt)?;
    store.merge_in(other)?;
    Ok(start.elapsed(rt)?)
}

// A store of as many of the new ones of a round.
fn of_new<T: Store>(rt: &HostRuntime, case: &Case, numbers: Numbers) -> anyhow::Result<T> {
    let mut store = T::none(rt.alloc());
    let _ = time_takes(rt, &mut store, case, numbers, FIRST)?;
    Ok(store)
}

/// Merges of new ones into all, which are let go of again.
pub fn merge_new<T: Store>(rt: &HostRuntime, store: &mut T, case: &Case) -> anyhow::Result<()> {
    let mut times = Vec::new(rt.alloc());
    for round in 0..ROUNDS {
        let numbers = case.some_new(round, case.many());
        let other: T = of_new(rt, case, numbers)?;
        times.push(time_merge(rt, store, &other)?)?;
        let_go(store, case, numbers)?;
    }
    tell_times(
        rt,
        "merge of new ones into all",
        u64::from(case.many()),
        &mut times,
    )
}

fn time_walks<T: Store>(
    rt: &HostRuntime,
    store: &T,
    times: &mut Vec<Duration>,
) -> anyhow::Result<Walked> {
    let mut walked = Walked::default();
    for number in 0..ROUNDS {
        let service = service_of(rt.alloc(), number)?;
        let start = Instant::now(rt)?;
        store.walk(rt.alloc(), &service, &mut walked)?;
        times.push(start.elapsed(rt)?)?;
    }
    Ok(walked)
}

/// Walks over one service of a hundred, another in each round: what all of them passed.
pub fn walks<T: Store>(rt: &HostRuntime, store: &T) -> anyhow::Result<Walked> {
    let mut times = Vec::new(rt.alloc());
    let walked = time_walks(rt, store, &mut times)?;
    let each = walked.cells / u64::from(ROUNDS);
    tell_times(rt, "walk over one service", each, &mut times)?;
    Ok(walked)
}
