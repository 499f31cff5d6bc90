//! What each of several threads records with.
ghost use Rattle.writer_kit.specs.Shared.{IsAt};

use crate::fleets::{Totals, add};
use crate::threads::Way;
use crate::totals::do_totals_rise;
use attr_kit::AttrSet;
use recorder_kit::Recorder;
use std::alloc::Global;
use std::sync::atomic::{AtomicU64, Ordering};
use std::sync::{Mutex, Wait};
use turn_kit::Seat;
use writer_kit::{SharedWriter, Writer};

/// 1 is recorded at each set in turn, in so many parts of so many recordings.
#[derive(Clone, Copy)]
pub struct Work<'a> {
    pub sets: &'a [AttrSet],
    pub parts: u32,
    pub each: u32,
}

impl Work<'_> {
    /// How many recordings it is.
    pub fn recordings(&self) -> u64 {
        u64::from(self.parts).saturating_mul(u64::from(self.each))
    }

    // The place after another one of the sets.
    #[inline(always)]
    fn after(&self, place: usize) -> usize {
        let next = place.saturating_add(1);
        if next < self.sets.len() { next } else { 0 }
    }
}

/// What a thread has, by which it records.
#[derive(Drop)]
pub enum Lane<'a> {
    /// A writer of its own.
    Own(Writer),
    /// A seat at a writer that the threads share.
    Seated(Seated<'a>),
    /// A map behind `std`'s `Mutex`, which the threads share.
    Locked(&'a Mutex<Totals>),
    /// A number that the threads share, to which each recording adds in one atomic step.
    Atomic(&'a AtomicU64),
}

/// A seat at a shared writer, and a log that the writer takes in.
#[derive(Drop)]
pub struct Seated<'a> {
    pub way: Way,
    pub alloc: Global,
    pub shared: &'a SharedWriter,
    pub seat: Seat<Writer>,
    pub recorder: Recorder,
    ghost at: { IsAt shared.now seat },
}

/// Does all of the work. How many recordings were accepted.
pub fn run<R: Wait>(rt: &R, lane: Lane<'_>, work: Work<'_>) -> u64 {
    match lane {
        Lane::Own(writer) => record_own(writer, work),
        Lane::Seated(seated) => record_seated(rt, seated, work),
        Lane::Locked(map) => add_locked(rt, map, work),
        Lane::Atomic(sum) => add_atomic(sum, work),
    }
}

fn record_own(writer: Writer, work: Work<'_>) -> u64 {
    let (mut writer, mut count, mut place) = (writer, 0u64, 0);
    for _ in 0..work.recordings() {
        if let Some(set) = work.sets.get(place) {
            count = count.saturating_add(u64::from(writer.measure(0, set, 1).is_ok()));
        }
        place = work.after(place);
    }
    count
}

fn add_locked<R: Wait>(rt: &R, map: &Mutex<Totals>, work: Work<'_>) -> u64 {
    let (mut count, mut place) = (0u64, 0);
    for _ in 0..work.recordings() {
        if let Some(set) = work.sets.get(place) {
            count = count.saturating_add(u64::from(add(&mut map.lock(rt), set, 1).is_ok()));
        }
        place = work.after(place);
    }
    count
}

fn add_atomic(sum: &AtomicU64, work: Work<'_>) -> u64 {
    let recordings = work.recordings();
    for _ in 0..recordings {
        let _ = sum.fetch_add(1, Ordering::SeqCst);
    }
    recordings
}

// Who collects accepts none, and so many that no sum of them is right where a total falls or a collection is refused.
fn record_seated<R: Wait>(rt: &R, seated: Seated<'_>, work: Work<'_>) -> u64 {
    let Seated {
        way,
        alloc,
        shared,
        mut seat,
        mut recorder,
    } = seated;
    match way {
        Way::Collections if do_totals_rise(rt, alloc, shared, &mut seat) => 0,
        Way::Collections => u64::MAX,
        Way::Shared => share_each(rt, shared, &mut seat, work),
        _ => share_logs(rt, shared, &mut seat, &mut recorder, way, work),
    }
}

fn share_each<R: Wait>(
    rt: &R,
    shared: &SharedWriter,
    seat: &mut Seat<Writer>,
    work: Work<'_>,
) -> u64
    requires { IsAt shared.now seat.old }
{
    let (mut count, mut place) = (0u64, 0);
    for _ in 0..work.recordings() {
        if let Some(set) = work.sets.get(place) {
            count = count.saturating_add(u64::from(shared.measure(rt, seat, 0, set, 1).is_ok()));
        }
        place = work.after(place);
    }
    count
}

fn share_logs<R: Wait>(
    rt: &R,
    shared: &SharedWriter,
    seat: &mut Seat<Writer>,
    recorder: &mut Recorder,
    way: Way,
    work: Work<'_>,
) -> u64
    requires { IsAt shared.now seat.old }
{
    let (mut count, mut place) = (0u64, 0);
    for _ in 0..work.parts {
        place = match way {
            Way::Numbers(_) => note_numbers(recorder, place, work),
            _ => note_sets(recorder, place, work),
        };
        if let Ok(told) = shared.take_in(rt, seat, recorder, usize::MAX) {
            count = count.saturating_add(told.recorded as u64);
        }
    }
    count
}

// Notes a part by the numbers of held points, from a place on, and gives the place behind it. The n-th set is held under n.
fn note_numbers(recorder: &mut Recorder, from: usize, work: Work<'_>) -> usize {
    let mut place = from;
    for _ in 0..work.each {
        let _ = recorder.measure_held(place, 1);
        place = work.after(place);
    }
    place
}

// The same by the sets.
fn note_sets(recorder: &mut Recorder, from: usize, work: Work<'_>) -> usize {
    let mut place = from;
    for _ in 0..work.each {
        if let Some(set) = work.sets.get(place) {
            let _ = recorder.measure(0, set, 1);
        }
        place = work.after(place);
    }
    place
}
