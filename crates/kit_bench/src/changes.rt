//! Changes of a counter by several threads: behind a turn, and behind `std`'s `Mutex`.
use crate::clock::tell;
use crate::{mutexes, turns};
use std::rt::Clock;
use std::sync::Wait;
use std::thread::Threads;
use std::time::Instant;

/// What stands round the counter.
#[derive(Clone, Copy)]
enum Lock {
    Mutex,
    Turn,
}

impl Lock {
    fn name(self) -> &'static str {
        match self {
            Lock::Mutex => "changes behind a mutex",
            Lock::Turn => "changes behind a turn",
        }
    }
}

// So many changes by each of so many threads; their start and end count too.
fn time_changes<R: Threads + Wait + Sync + Clock + Eprint + AllocGlobal>(
    rt: &R,
    lock: Lock,
    threads: usize,
    times: u64,
) -> anyhow::Result<()> {
    let start = Instant::now(rt)?;
    let count = match lock {
        Lock::Mutex => mutexes::race(rt, threads, times)?,
        Lock::Turn => turns::race(rt, threads, times)?,
    };
    let took = start.elapsed(rt)?;
    eprint!(rt; "threads: {threads}, ")?;
    tell(rt, lock.name(), count, took)
}

/// So many changes by each of one, two and four threads, the mutex and the turn one after the other.
pub fn run<R: Threads + Wait + Sync + Clock + Eprint + AllocGlobal>(
    rt: &R,
    rounds: u32,
    times: u64,
) -> anyhow::Result<()> {
    for _ in 0..rounds {
        for threads in [1, 2, 4] {
            time_changes(rt, Lock::Mutex, threads, times)?;
            time_changes(rt, Lock::Turn, threads, times)?;
        }
    }
    Ok(())
}
