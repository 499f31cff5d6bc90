//! The setup of the program's fleet.
ghost use Rattle.std.specs.Prelude.{◌≡◌, ◌++◌, All, IfOk, OnOk, map, replicate};
ghost use Rattle.fleet_kit.specs.Jobs.{task_of};
ghost use Rattle.otm_kit.specs.FleetSetups.{HasRoom, IsFleetSetup, fleet_ask, fleet_plan, fleet_task, fleet_tasks, fleet_writer, fleet_writers, task_once_filled};
ghost use Rattle.otm_kit.specs.FleetTexts.{fleet_ids};

use attr_kit::{AllowList, AttrSet, Keep, NoMemory, Seq, Txt};
use fleet_kit::{FleetSetup, Job};
use plan_kit::{DEFAULT_LIMIT, Instrument, Kind, Plan};
use point_kit::{Shape, Stream, WriterId};
use rollup_kit::Ask;
use std::alloc::Global;
use std::thread;
use std::thread::Threads;
use uuid::Uuid;

// The plan of every writer. It has no fault, so that only memory can be wanting.
fn plan(alloc: Global) -> Result<Plan, NoMemory>
    ensures { IfOk result (λ plan. plan ≡ fleet_plan) }
{
    let mut instruments = Vec::new(alloc);
    instruments.push(Instrument {
        kind: Kind::Counter,
        scope: Txt::from_str(alloc, "fleet")?,
        name: Txt::from_str(alloc, "recordings")?,
        unit: Txt::from_str(alloc, "1")?,
    })?;
    let instruments = Seq::from_vec(instruments);
    match Plan::build(alloc, instruments, Seq::new(alloc), DEFAULT_LIMIT) {
        Ok(plan) => Ok(plan),
        Err(_) => Err(NoMemory),
    }
}

// The writer at a place, of the service and the instance of its place and 1.
fn writer(alloc: Global, place: u8) -> Result<(WriterId, Plan, u64), NoMemory>
    ensures { IfOk result (λ w. w ≡ fleet_writer place) }
{
    let id = WriterId {
        service: Txt::from_str(alloc, "fleet")?,
        instance: Uuid::from_u128(u128::from(place) + 1),
    };
    Ok((id, plan(alloc)?, 1))
}

fn writers(alloc: Global, count: u8) -> Result<Vec<(WriterId, Plan, u64)>, NoMemory>
    ensures { IfOk result (λ ws. ws.items ≡ fleet_writers count) }
{
    let mut writers = Vec::new(alloc);
    for place in 0..count {
        writers.push(writer(alloc, place)?)?;
    }
    Ok(writers)
}

// A job without entries, with room for them.
fn empty_job(alloc: Global, writer: usize, each: u64) -> Result<Job, NoMemory>
    ensures writer { IfOk result (λ job. job.writer ≡ writer) }
    ensures room { IfOk result (HasRoom each) }
{
    let entries = Vec::with_capacity(alloc, each as usize)?;
    Ok(Job { writer, entries })
}

// Adds the jobs of a writer, without entries.
fn add_empty_jobs(
    jobs: &mut Vec<Job>,
    alloc: Global,
    writer: usize,
    recorders: u8,
    each: u64,
) -> Result<(), NoMemory>
    requires { All (HasRoom each) jobs.old.items }
    ensures tasks { OnOk result (map (task_once_filled each) jobs.new.items
        ≡ map (task_once_filled each) jobs.old.items ++ replicate recorders (fleet_task each writer)) }
    ensures room { All (HasRoom each) jobs.new.items }
{
    for _recorder in 0..recorders {
        jobs.push(empty_job(alloc, writer, each)?)?;
    }
    Ok(())
}

fn empty_jobs(alloc: Global, writers: u8, recorders: u8, each: u64) -> Result<Vec<Job>, NoMemory>
    ensures tasks { IfOk result (λ jobs. map (task_once_filled each) jobs.items ≡ fleet_tasks writers recorders each) }
    ensures room { IfOk result (λ jobs. All (HasRoom each) jobs.items) }
{
    let mut jobs = Vec::new(alloc);
    for writer in 0..writers {
        add_empty_jobs(&mut jobs, alloc, usize::from(writer), recorders, each)?;
    }
    Ok(jobs)
}

// The job with its entries.
fn filled_job(alloc: Global, job: Job, each: u64) -> Job
    requires { HasRoom each job }
    ensures { task_of result ≡ task_once_filled each job }
{
    let Job {
        writer,
        mut entries,
    } = job;
    for _entry in 0..each {
        entries.push_reserved((0, AttrSet::empty(alloc), 1));
    }
    Job { writer, entries }
}

// The jobs, each filled in a thread of its own where one can be made: to write a million entries into new pages takes longer than to
// record them. All room is had before.
fn jobs<R: Threads + Sync>(
    rt: &R,
    alloc: Global,
    writers: u8,
    recorders: u8,
    each: u64,
) -> Result<Vec<Job>, NoMemory>
    ensures { IfOk result (λ jobs. map task_of jobs.items ≡ fleet_tasks writers recorders each) }
{
    let empty = empty_jobs(alloc, writers, recorders, each)?;
    let jobs = thread::map_vec(
        rt,
        empty,
        &|job: Job| -> Job
            requires { HasRoom each job }
            ensures { task_of result ≡ task_once_filled each job }
        { filled_job(alloc, job, each) },
    )?;
    Ok(jobs)
}

fn ids(alloc: Global, count: u8) -> Result<Vec<u32>, NoMemory>
    ensures { IfOk result (λ ids. ids.items ≡ fleet_ids count) }
{
    let mut ids = Vec::new(alloc);
    for place in 0..count {
        ids.push(u32::from(place) + 1)?;
    }
    Ok(ids)
}

/// The setup of a fleet: writers of the service `fleet` with the instances 1, 2 and so on, which start at 1; for each of
/// them so many jobs of so many recordings of 1, without attributes; and gateways with the ids 1, 2 and so on. It ends at 2.
pub(crate) fn setup<R: Threads + Sync>(
    rt: &R,
    alloc: Global,
    writer_count: u8,
    recorders: u8,
    each: u64,
    gateways: u8,
) -> Result<FleetSetup, NoMemory>
    ensures { IfOk result (IsFleetSetup writer_count recorders each gateways) }
{
    Ok(FleetSetup {
        writers: writers(alloc, writer_count)?,
        jobs: jobs(rt, alloc, writer_count, recorders, each)?,
        gateways: ids(alloc, gateways)?,
        end: 2,
    })
}

/// What is asked of each gateway: the counter's stream, in one row.
pub(crate) fn ask(alloc: Global) -> Result<Ask, NoMemory>
    ensures { IfOk result (λ ask. ask ≡ fleet_ask) }
{
    Ok(Ask {
        stream: Stream {
            scope: Txt::from_str(alloc, "fleet")?,
            name: Txt::from_str(alloc, "recordings")?,
            unit: Txt::from_str(alloc, "1")?,
            shape: Shape::Sum { monotonic: true },
        },
        service: None,
        only: Seq::new(alloc),
        keep: Keep::Only(AllowList::empty(alloc)),
    })
}
