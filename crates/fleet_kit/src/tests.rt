//! Fleets: each refusal, exact totals, and that jobs run at once.
use super::*;
use attr_kit::{AttrSet, Keep, NoMemory, Seq, Txt};
use gateway_kit::Gateway;
use plan_kit::{DEFAULT_LIMIT, Instrument, Kind, Plan};
use point_kit::WriterId;
use rollup_kit::{Ask, Total, rollup};
use std::alloc::Global;
use std::sync::Wait;
use std::sync::atomic::{AtomicU64, Ordering};
use std::test::Fail;
use uuid::Uuid;

/// Lets all pass but one entry of one job.
#[derive(Drop)]
struct ShutAt(usize, usize);

impl Gate for ShutAt {
    ghost passes = { λ _ _ _ _. Unit {0} };

    fn pass<R: Wait>(&self, _rt: &R, job: usize, entry: usize) -> bool {
        job != self.0 || entry != self.1
    }
}

/// How often a job looks for the other before it gives up.
const TURNS: u64 = 1_000_000_000;

/// Lets each of the jobs 0 and 1 pass once the other has come too.
#[derive(Drop)]
struct Meeting {
    here: AtomicU64,
    there: AtomicU64,
}

impl Gate for Meeting {
    ghost passes = { λ _ _ _ _. Unit {0} };

    fn pass<R: Wait>(&self, _rt: &R, job: usize, _entry: usize) -> bool {
        let (own, other) = if job == 0 {
            (&self.here, &self.there)
        } else {
            (&self.there, &self.here)
        };
        own.store(1, Ordering::SeqCst);
        for _ in 0..TURNS {
            if other.load(Ordering::SeqCst) == 1 {
                return true;
            }
        }
        false
    }
}

fn requests(alloc: Global) -> Result<Plan, Fail> {
    let mut instruments = Vec::new(alloc);
    instruments.push(Instrument {
        kind: Kind::Counter,
        scope: Txt::from_str(alloc, "app")?,
        name: Txt::from_str(alloc, "requests")?,
        unit: Txt::from_str(alloc, "1")?,
    })?;
    Ok(Plan::build(
        alloc,
        Seq::from_vec(instruments),
        Seq::new(alloc),
        DEFAULT_LIMIT,
    )?)
}

// Recordings of one counter, without attributes.
fn job(alloc: Global, writer: usize, values: &[i64]) -> Result<Job, NoMemory> {
    let mut entries = Vec::new(alloc);
    for value in values {
        entries.push((0, AttrSet::empty(alloc), *value))?;
    }
    Ok(Job { writer, entries })
}

// Writers of these instances, which start at 1, and gateways of these ids; no jobs yet.
fn fleet(alloc: Global, instances: &[u128], gateways: &[u32]) -> Result<FleetSetup, Fail> {
    let mut writers = Vec::new(alloc);
    for instance in instances {
        let id = WriterId {
            service: Txt::from_str(alloc, "fleet")?,
            instance: Uuid::from_u128(*instance),
        };
        writers.push((id, requests(alloc)?, 1))?;
    }
    Ok(FleetSetup {
        writers,
        jobs: Vec::new(alloc),
        gateways: gateways.to_vec(alloc)?,
        end: 2,
    })
}

// The total of the one row that a gateway answers, or 0 where it answers none.
fn total(alloc: Global, gateway: &Gateway) -> Result<Option<i128>, Fail> {
    let plan = requests(alloc)?;
    let Some(stream) = plan.stream(0) else {
        return Ok(None);
    };
    let ask = Ask {
        stream: stream.try_copy()?,
        service: None,
        only: Seq::new(alloc),
        keep: Keep::All,
    };
    let rows = rollup(alloc, gateway, &ask)?;
    Ok(match rows.as_slice() {
        [] => Some(0),
        [row] => match &row.total {
            Total::Sum(total) => Some(*total),
            _ => None,
        },
        _ => None,
    })
}

#[test]
fn setups_are_refused(rt: HostRuntime) -> Result<(), Fail> {
    let alloc = rt.alloc();
    let mut stray = fleet(alloc, &[1, 2], &[1])?;
    stray.jobs.push(job(alloc, 2, &[1])?)?;
    let twins = fleet(alloc, &[1, 1], &[1])?;
    let doubled = fleet(alloc, &[1, 2], &[7, 7])?;
    let mut early = fleet(alloc, &[1, 2], &[1])?;
    early.end = 1;
    let mut crowded = fleet(alloc, &[1, 2], &[1])?;
    for _ in 0..4096 {
        crowded.jobs.push(job(alloc, 1, &[])?)?;
    }
    assert!(rt; run_fleet(&rt, alloc, stray, &Open).err() == Some(FleetFault::NoWriter(0)));
    assert!(rt; run_fleet(&rt, alloc, twins, &Open).err() == Some(FleetFault::SameWriter(0, 1)));
    assert!(rt; run_fleet(&rt, alloc, doubled, &Open).err() == Some(FleetFault::SameGateway(0, 1)));
    assert!(rt; run_fleet(&rt, alloc, early, &Open).err() == Some(FleetFault::EndNotAfter(0)));
    assert!(rt; run_fleet(&rt, alloc, crowded, &Open).err() == Some(FleetFault::TooManyJobs(1)));
    Ok(())
}

#[test]
fn jobs_are_stopped(rt: HostRuntime) -> Result<(), Fail> {
    let alloc = rt.alloc();
    let mut negative = fleet(alloc, &[1, 2], &[1])?;
    negative.jobs.push(job(alloc, 1, &[1, -1])?)?;
    negative.jobs.push(job(alloc, 0, &[-1])?)?;
    let mut shut = fleet(alloc, &[1, 2], &[1])?;
    for writer in 0..2 {
        shut.jobs.push(job(alloc, writer, &[1])?)?;
    }
    let mut late = fleet(alloc, &[1], &[1])?;
    let mut ones = [1; 4500];
    ones[4200] = -1;
    late.jobs.push(job(alloc, 0, &ones)?)?;
    let mut both = fleet(alloc, &[1], &[1])?;
    both.jobs.push(job(alloc, 0, &[-1, 1])?)?;
    // Both jobs of the first are refused: the least is told.
    let refused = Some(FleetFault::Refused { job: 0, entry: 1 });
    assert!(rt; run_fleet(&rt, alloc, negative, &Open).err() == refused);
    assert!(rt; run_fleet(&rt, alloc, shut, &ShutAt(1, 0)).err() == Some(FleetFault::GateShut(1)));
    // In a second log, and before the gate was shut.
    let behind = Some(FleetFault::Refused {
        job: 0,
        entry: 4200,
    });
    assert!(rt; run_fleet(&rt, alloc, late, &Open).err() == behind);
    let first = Some(FleetFault::Refused { job: 0, entry: 0 });
    assert!(rt; run_fleet(&rt, alloc, both, &ShutAt(0, 1)).err() == first);
    Ok(())
}

#[test]
fn totals_are_exact(rt: HostRuntime) -> Result<(), Fail> {
    let alloc = rt.alloc();
    let ones = [1; 1000];
    let mut busy = fleet(alloc, &[1, 2], &[4, 5])?;
    for place in 0..6 {
        busy.jobs.push(job(alloc, place % 2, &ones)?)?;
    }
    let gateways = run_fleet(&rt, alloc, busy, &Open)?;
    assert!(rt; gateways.len() == 2 && gateways[0].id() == 4 && gateways[1].id() == 5);
    for gateway in &gateways {
        assert!(rt; total(alloc, gateway)? == Some(6000));
    }
    // Without jobs gateways hold nothing, and lack nothing.
    let idle = run_fleet(&rt, alloc, fleet(alloc, &[1, 2], &[4])?, &Open)?;
    assert!(rt; idle.len() == 1 && idle[0].len() == 0 && total(alloc, &idle[0])? == Some(0));
    let none = run_fleet(&rt, alloc, fleet(alloc, &[1], &[])?, &Open)?;
    assert!(rt; none.is_empty());
    Ok(())
}

#[test]
fn jobs_run_at_once(rt: HostRuntime) -> Result<(), Fail> {
    let alloc = rt.alloc();
    let mut pair = fleet(alloc, &[1], &[1])?;
    for _ in 0..2 {
        pair.jobs.push(job(alloc, 0, &[3])?)?;
    }
    let meeting = Meeting {
        here: AtomicU64::new(0),
        there: AtomicU64::new(0),
    };
    let gateways = run_fleet(&rt, alloc, pair, &meeting)?;
    assert!(rt; gateways.len() == 1 && total(alloc, &gateways[0])? == Some(6));
    Ok(())
}
