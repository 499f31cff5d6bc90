//! A counter behind `std`'s `Mutex`.
use crate::counter::Counter;
use std::sync::{Mutex, Wait};
use std::thread;
use std::thread::Threads;

fn add_many<R: Wait>(rt: &R, lock: &Mutex<Counter>, times: u64) {
    for _ in 0..times {
        let _ = lock.lock(rt).add(1);
    }
}

/// Each thread adds 1 so many times. The count at the end.
pub fn race<R: Threads + Wait + Sync + AllocGlobal>(
    rt: &R,
    threads: usize,
    times: u64,
) -> anyhow::Result<u64> {
    let lock = Mutex::new(Counter::new());
    thread::map_indices(
        rt,
        rt.alloc(),
        threads,
        &|_: usize| add_many(rt, &lock, times),
    )?;
    Ok(lock.into_inner().count())
}
