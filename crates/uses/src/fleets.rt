//! A fleet of threads, and what its gateways answer.
ghost use Rattle.std.specs.Prelude.{◌≡◌, ◌∷◌, [], IfOk, IfSome};
ghost use Rattle.fleet_kit.specs.declared.fault.FleetFault.TheVariants as faults;
ghost use Rattle.rollup_kit.specs.Rollups.{AddsUp};
ghost use Rattle.uses.specs.Fleets.{IsTold, rows_recorded};

use attr_kit::{AttrSet, NoMemory, Seq};
use fleet_kit::{FleetFault, FleetSetup, Gate, Job, Open, run_fleet};
use rollup_kit::{Ask, Row, rollup};
use std::alloc::Global;
use std::sync::Wait;
use std::thread::Threads;

/// A gate that is shut once a job has made so many recordings.
#[derive(Clone, Copy, Debug, Drop)]
pub struct FirstEntries {
    pub most: usize,
}

impl Gate for FirstEntries {
    ghost use Rattle.std.specs.Prelude.{◌≡◌, nat_lt};

    ghost passes = { λ gate _ entry answer. answer ≡ nat_lt entry gate.most };

    fn pass<R: Wait>(&self, _rt: &R, _job: usize, entry: usize) -> bool {
        entry < self.most
    }
}

/// A job of one recording, at the first instrument of a writer.
pub fn one_recording(
    alloc: Global,
    writer: usize,
    attrs: AttrSet,
    value: i64,
) -> Result<Job, NoMemory>
    ensures { IfOk result (λ job. (job.writer ≡ writer) × (job.entries.items ≡ (0, attrs, value) ∷ [])) }
{
    let mut entries = Vec::new(alloc);
    entries.push((0, attrs, value))?;
    Ok(Job { writer, entries })
}

/// The job and its entry that a fleet's writer refused; none where the fleet ended for another cause.
pub fn refused_entry(fault: &FleetFault) -> Option<(usize, usize)>
    ensures { IfSome result (λ at. fault.now ≡ faults.Refused at.0 at.1) }
{
    match fault {
        FleetFault::Refused { job, entry } => Some((*job, *entry)),
        _ => None,
    }
}

/// Runs a fleet, and asks its first gateway, if it has one. The rows of a sum or a histogram are those of what the jobs recorded,
/// whatever the threads did at once: where no writer has more attribute sets than its limit, and past it of totals over all sets.
pub fn rows_of_fleet<R: Threads + Wait + Sync>(
    rt: &R,
    alloc: Global,
    setup: FleetSetup,
    ask: &Ask,
) -> anyhow::Result<Option<Seq<Row>>>
    ensures rows { AddsUp ask.now.stream.shape → IsTold setup ask.now
        → IfOk result (λ found. IfSome found (λ rows. rows ≡ rows_recorded setup ask.now)) }
{
    let gateways = run_fleet(rt, alloc, setup, &Open)?;
    match gateways.get(0) {
        Some(gateway) => Ok(Some(rollup(alloc, gateway, ask)?)),
        None => Ok(None),
    }
}
