//! The recorders of one writer: a thread, a seat and a log for each job.
//!
//! A thread notes its recordings in a log, each once the gate let it pass, and its writer takes the log in whenever it is full. So
//! the turn is asked for once for many recordings, and is not held while the gate is asked.
ghost use Rattle.std.specs.Prelude.{◌≡◌, ◌+◌, ◌<◌, ◌≤◌, ◌^◌, ◌⊎◌, ℕ, [], List, None, Some, IfErr, IfOk, IfSome, IfNone, All, length, map, slice_get};
ghost use Rattle.agg_kit.specs.Entries.{Entry};
ghost use Rattle.turn_kit.specs.History.{flat};
ghost use Rattle.turn_kit.specs.Public.{made, mine, joined};
ghost use Rattle.rollup_kit.specs.Fleets.{entries_of};
ghost use Rattle.schedule_kit.specs.Members.{In};
ghost use Rattle.writer_kit.specs.Shared.{IsAt, first_of, most_of};
ghost use Rattle.fleet_kit.specs.Ends.{AllEndFrom, EndsFrom, HasRecordedFrom, StopsShortFrom};
ghost use Rattle.fleet_kit.specs.Halts.{IsFirst};
ghost use Rattle.fleet_kit.specs.Jobs.{entries, noted, task_of};
ghost use Rattle.fleet_kit.specs.Noting.{recorded_by_seat, BeganNew, IsFilled, IsNoted, IsSingle, RecordsMore, RecordsPart, StopsNoting, StopsTaking, TellsRoom};
ghost use Rattle.fleet_kit.specs.Recorded.{Brings};
ghost use Rattle.fleet_kit.specs.declared.halt.Halt.{Halt};
ghost use Rattle.fleet_kit.specs.declared.halt.Halt.TheVariants as halts;
ghost use Rattle.fleet_kit.specs.declared.setup.Job.{Job};

use crate::halt::Halt;
use crate::{Gate, Job};
use recorder_kit::Recorder;
use std::alloc::Global;
use std::sync::Wait;
use std::thread;
use std::thread::Threads;
use turn_kit::Seat;
use writer_kit::{SharedWriter, Writer};

/// How many recordings a thread notes before its writer takes them in.
const LOG: usize = 4096;

/// A job, its number, and a new seat for it.
#[derive(Drop)]
struct Seated<'a> {
    job: &'a Job,
    number: usize,
    seat: Seat<Writer>,
}

/// The seat after its job, and why the job stopped short where it did.
#[derive(Drop)]
struct Done<'a> {
    job: &'a Job,
    number: usize,
    fault: Option<Halt>,
    seat: Seat<Writer>,
}

// Notes entries of a job from a place on, each once the gate let it pass, until the log is full or none is left.
fn note<R: Wait, G: Gate>(
    rt: &R,
    gate: &G,
    job: &Job,
    number: usize,
    from: usize,
    log: &mut Recorder,
) -> Option<Halt>
    requires empty { log.old.log ≡ [] }
    requires small { log.old.capacity ≤ LOG }
    requires there { from < length job.now.entries.items }
    ensures capacity { log.new.capacity ≡ log.old.capacity }
    ensures noted { IsNoted (G.passes gate.now) number job.now from log.new.log }
    ensures some { IfNone result (0 < length log.new.log) }
    ensures stops { IfSome result (StopsNoting (G.passes gate.now) number job.now (from + length log.new.log)) }
{
    let mut place = from;
    while place < job.entries.len() && log.len() < LOG {
        if !gate.pass(rt, number, place) {
            return Some(Halt::GateShut(number));
        }
        let entry = &job.entries[place];
        if log.measure(entry.0, &entry.1, entry.2).is_err() {
            return Some(Halt::NoMemory);
        }
        place += 1;
    }
    None
}

// Has the writer take in what was noted of a job, beginning with this entry. It is refused whole only where the history is full, which
// does not come: the writer is open, and has room for all entries of its jobs.
fn take_in<R: Wait>(
    rt: &R,
    shared: &SharedWriter,
    seat: &mut Seat<Writer>,
    log: &mut Recorder,
    number: usize,
    from: usize,
) -> Option<Halt>
    requires new { BeganNew shared.now }
    requires at { IsSingle shared.now seat.old }
    requires noted { (es : List Entry) × (log.old.log ≡ noted es) × (from + length es < 2 ^ 64) }
    ensures at { IsSingle shared.now seat.new }
    ensures empty { IfNone result (log.new.log ≡ []) }
    ensures all { IfNone result ((es : List Entry) → log.old.log ≡ noted es → RecordsMore shared.now es seat.old seat.new) }
    ensures recorded { IfNone result (HasRecordedFrom (first_of shared.now) (recorded_by_seat shared.now seat.new)) }
    ensures stops { IfSome result (λ h. (es : List Entry) → log.old.log ≡ noted es
        → StopsTaking shared.now seat.old number from es h) }
    // Memory is told of no refused entry: what was taken in was recorded, and some is left.
    ensures memory { result ≡ Some halts.NoMemory → (es : List Entry) → log.old.log ≡ noted es
        → RecordsPart shared.now es seat.old seat.new }
    ensures full { IfSome result (TellsRoom shared.now seat.new) }
    ensures capacity { IfNone result (log.new.capacity ≡ log.old.capacity) }
{
    let Ok(taken) = shared.take_in(rt, seat, log, usize::MAX) else {
        return Some(Halt::NoThread);
    };
    if let Some(first) = taken.first {
        return Some(Halt::Refused {
            job: number,
            entry: from + first.0,
        });
    }
    if log.is_empty() {
        None
    } else {
        Some(Halt::NoMemory)
    }
}

// Records the entries of a job, up to the first that the gate lets not pass or the writer refuses.
fn record_all<R: Wait, G: Gate>(
    rt: &R,
    alloc: Global,
    gate: &G,
    shared: &SharedWriter,
    job: &Job,
    number: usize,
    seat: &mut Seat<Writer>,
) -> Option<Halt>
    requires new { BeganNew shared.now }
    requires at { IsSingle shared.now seat.old }
    requires fresh { recorded_by_seat shared.now seat.old ≡ [] }
    ensures at { IsSingle shared.now seat.new }
    ensures all { IfNone result (recorded_by_seat shared.now seat.new ≡ entries job.now) }
    ensures ends { EndsFrom (G.passes gate.now) (first_of shared.now) number job.now result }
    ensures full { IfSome result (TellsRoom shared.now seat.new) }
{
    let Ok(mut log) = Recorder::new(alloc, LOG.min(job.entries.len())) else {
        return Some(Halt::NoMemory);
    };
    let mut done = 0;
    while done < job.entries.len() {
        let stopped = note(rt, gate, job, number, done, &mut log);
        let noted = log.len();
        // What was noted comes before what stopped it, so it is recorded first, and may be refused.
        let refused = take_in(rt, shared, seat, &mut log, number, done);
        if refused.is_some() {
            return refused;
        }
        if stopped.is_some() {
            return stopped;
        }
        done += noted;
    }
    None
}

fn record<'a, R: Wait, G: Gate>(
    rt: &R,
    alloc: Global,
    gate: &G,
    shared: &SharedWriter,
    seated: Seated<'a>,
) -> Done<'a>
    requires new { BeganNew shared.now }
    requires at { IsSingle shared.now seated.seat }
    requires fresh { recorded_by_seat shared.now seated.seat ≡ [] }
    ensures at { IsSingle shared.now result.seat }
    ensures same { (result.job.now ≡ seated.entry.job.now) × (result.number ≡ seated.entry.number) }
    ensures all { IfNone result.fault (recorded_by_seat shared.now result.seat ≡ entries result.job.now) }
    ensures ends { EndsFrom (G.passes gate.now) (first_of shared.now) result.number result.job.now result.fault }
    ensures full { IfSome result.fault (TellsRoom shared.now result.seat) }
{
    let Seated {
        job,
        number,
        mut seat,
    } = seated;
    let fault = record_all(rt, alloc, gate, shared, job, number, &mut seat);
    Done {
        job,
        number,
        fault,
        seat,
    }
}

// A seat for each job of the writer at a place, in job order.
fn seats_for<'a, R: Wait>(
    rt: &R,
    alloc: Global,
    shared: &SharedWriter,
    main: &mut Seat<Writer>,
    place: usize,
    jobs: &'a [Job],
) -> Result<Vec<Seated<'a>>, Halt>
    requires { IsAt shared.now main.old }
    ensures main { IsAt shared.now main.new × (mine main.new ≡ mine main.old) × (joined main.new ≡ joined main.old) }
    ensures at { IfOk result (λ v. All (λ r. IsSingle shared.now r.seat) v.items) }
    ensures fresh { IfOk result (λ v. All (λ r. recorded_by_seat shared.now r.seat ≡ []) v.items) }
    ensures jobs { IfOk result (λ v. flat (map (λ r. entries r.job.now) v.items) ≡ entries_of (map task_of jobs.now) place) }
    ensures numbers { IfOk result (λ v. All (λ r. (slice_get jobs.now r.number ≡ Some r.job.now) × (r.job.now.writer ≡ place)) v.items) }
    ensures whole { IfOk result (λ v. (n : ℕ) (j : Job) → slice_get jobs.now n ≡ Some j → j.writer ≡ place
        → In n (map (λ r. r.number) v.items)) }
    ensures full { IfErr result (λ h. h ≡ halts.NoThread → made main.new ≡ 4096) }
    ensures err { IfErr result (λ h. (h ≡ halts.NoThread) ⊎ (h ≡ halts.NoMemory)) }
{
    let mut seats = Vec::new(alloc);
    for (number, job) in jobs.iter().enumerate() {
        if job.writer == place {
            if seats.reserve(1).is_err() {
                return Err(Halt::NoMemory);
            }
            match shared.split(rt, main) {
                Ok(seat) => seats.push_reserved(Seated { job, number, seat }),
                Err(_full) => return Err(Halt::NoThread),
            }
        }
    }
    Ok(seats)
}

// Each job in a thread of its own, where one can be made.
fn record_in_threads<'a, R: Threads + Wait + Sync, G: Gate + Sync>(
    rt: &R,
    alloc: Global,
    gate: &G,
    shared: &SharedWriter,
    seats: Vec<Seated<'a>>,
) -> Result<Vec<Done<'a>>, Halt>
    requires new { BeganNew shared.now }
    requires at { All (λ r. IsSingle shared.now r.seat) seats.items }
    requires fresh { All (λ r. recorded_by_seat shared.now r.seat ≡ []) seats.items }
    ensures at { IfOk result (λ v. All (λ d. IsSingle shared.now d.seat) v.items) }
    ensures jobs { IfOk result (λ v. map (λ d. d.job.now) v.items ≡ map (λ r. r.job.now) seats.entry.items) }
    ensures numbers { IfOk result (λ v. map (λ d. d.number) v.items ≡ map (λ r. r.number) seats.entry.items) }
    ensures all { IfOk result (λ v. All (λ d. IfNone d.fault (recorded_by_seat shared.now d.seat ≡ entries d.job.now)) v.items) }
    ensures ends { IfOk result (λ v. All (λ d. EndsFrom (G.passes gate.now) (first_of shared.now) d.number d.job.now d.fault) v.items) }
    ensures full { IfOk result (λ v. All (λ d. IfSome d.fault (TellsRoom shared.now d.seat)) v.items) }
    ensures err { IfErr result (λ h. h ≡ halts.NoMemory) }
{
    match thread::map_vec(
        rt,
        seats,
        &|seated: Seated| -> Done
            requires new { BeganNew shared.now }
            requires at { IsSingle shared.now seated.seat }
            requires fresh { recorded_by_seat shared.now seated.seat ≡ [] }
            ensures at { IsSingle shared.entry.now result.seat }
            ensures same { (result.job.now ≡ seated.entry.job.now) × (result.number ≡ seated.entry.number) }
            ensures all { IfNone result.fault (recorded_by_seat shared.entry.now result.seat ≡ entries result.job.now) }
            ensures ends { EndsFrom (G.passes gate.entry.now) (first_of shared.entry.now) result.number result.job.now result.fault }
            ensures full { IfSome result.fault (TellsRoom shared.entry.now result.seat) }
        { record(rt, alloc, gate, shared, seated) },
    ) {
        Ok(dones) => Ok(dones),
        Err(_) => Err(Halt::NoMemory),
    }
}

// Takes in the seats of all jobs, and tells the fault that comes first: the least job's. Where there is none, those seats
// recorded the jobs' entries.
fn join_all(shared: &SharedWriter, main: &mut Seat<Writer>, dones: Vec<Done<'_>>) -> Option<Halt>
    requires main { IsAt shared.now main.old × (mine main.old ≡ []) × (joined main.old ≡ []) }
    requires dones { All (λ d. IsSingle shared.now d.seat) dones.items }
    requires all { All (λ d. IfNone d.fault (recorded_by_seat shared.now d.seat ≡ entries d.job.now)) dones.items }
    requires full { All (λ d. IfSome d.fault (TellsRoom shared.now d.seat)) dones.items }
    ensures main { IsAt shared.now main.new }
    ensures first { IsFirst (λ h. In (Some h) (map (λ d. d.fault) dones.entry.items)) result }
    ensures all { IfNone result (Brings (first_of shared.now).tally main.new (flat (map (λ d. entries d.job.now) dones.entry.items))) }
    ensures full { IfSome result (TellsRoom shared.now main.new) }
{
    let mut told = None;
    for done in dones {
        let Done {
            job: _,
            number: _,
            fault,
            seat,
        } = done;
        shared.join(main, seat);
        told = Halt::first(told, fault);
    }
    told
}

/// All jobs of the writer at a place, each in a thread of its own where one can be made. The first seat has then taken in the
/// seats of all, which recorded the jobs' entries. `NoThread` is told only where the turn has no seat left, or its history no room.
pub(crate) fn run_jobs<R: Threads + Wait + Sync, G: Gate + Sync>(
    rt: &R,
    alloc: Global,
    gate: &G,
    shared: &SharedWriter,
    main: &mut Seat<Writer>,
    place: usize,
    jobs: &[Job],
) -> Result<(), Halt>
    requires new { BeganNew shared.now }
    requires room { most_of shared.now ≡ 2 ^ 62 }
    requires at { IsAt shared.now main.old }
    requires fresh { (mine main.old ≡ []) × (joined main.old ≡ []) }
    ensures at { IsAt shared.now main.new }
    ensures all { IfOk result (λ _. Brings (first_of shared.now).tally main.new (entries_of (map task_of jobs.now) place)) }
    ensures ends { IfOk result (λ _. AllEndFrom (G.passes gate.now) (first_of shared.now) place jobs.now) }
    ensures err { IfErr result (StopsShortFrom (G.passes gate.now) (first_of shared.now) place jobs.now) }
    ensures full { IfErr result (λ h. h ≡ halts.NoThread → (made main.new ≡ 4096) ⊎ IsFilled shared.now main.new) }
{
    let seats = seats_for(rt, alloc, shared, main, place, jobs)?;
    let dones = record_in_threads(rt, alloc, gate, shared, seats)?;
    match join_all(shared, main, dones) {
        None => Ok(()),
        Some(fault) => Err(fault),
    }
}
