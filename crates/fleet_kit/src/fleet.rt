//! Fleets of threads.
ghost use Rattle.std.specs.Prelude.{◌≡◌, ◌⊎◌, ℕ, None, Some, map, slice_get, IfErr, IfOk, OnOk};
ghost use Rattle.gateway_kit.specs.GatewayState.{GatewayState};
ghost use Rattle.rollup_kit.specs.Rollups.{AddsUp, rollup_rows};
ghost use Rattle.rollup_kit.specs.Writers.{AllWithin, IsRegrouped, rows_of};
ghost use Rattle.rollup_kit.specs.declared.ask.Ask.{Ask};
ghost use Rattle.fleet_kit.specs.Checks.{setup_fault};
ghost use Rattle.fleet_kit.specs.Faults.{IsLate};
ghost use Rattle.fleet_kit.specs.Setups.{entries_recorded, writers_of, AllEnded};

use crate::checks::fault_of;
use crate::gateways::gateways_of;
use crate::writers::exports_of;
use crate::{FleetFault, FleetSetup, Gate};
use gateway_kit::Gateway;
use std::alloc::Global;
use std::sync::Wait;
use std::thread::Threads;

/// Runs a fleet to its end: each job in a thread of its own where one can be made, and else in the caller's, all jobs of a
/// writer on one shared writer; after the joins one collection of each writer at the setup's end; and then a thread for each
/// gateway, which is told of the collections by their places over a channel and takes those exports. It answers the gateways, in
/// the order of their ids.
///
/// Each answers every query of a sum or a histogram stream with exactly what the jobs recorded, each writer's jobs in their
/// order, whatever the threads did in between: where no stream of a writer has more attribute sets in its jobs than the
/// plan's limit, and past it where the query leaves out all attributes. Each entry passed the gate then.
///
/// The gate is asked for an entry once all entries before it in its job have passed, and before this one is recorded. Entries that
/// passed are noted, and the writer takes them in by many at once; where one of them is refused, those noted behind it were
/// asked for too, and the answer is that one.
///
/// Refuses as [`FleetFault`] says. The first five, of the setup, are told exactly. Which of the later ones an interleaving gives is
/// not promised. Of jobs that stopped short the least one's fault is told, before any other of threads, of gateways and of memory.
/// `GateShut` and `Refused` say that the entries before passed the gate and were recorded, and that the gate let the next one not
/// pass, or that the plan refuses it after them. `Missing` is told where all jobs ended well, and that writer's collection has points.
///
/// `NoThread` and `NoMemory` say nothing of any job, since a job may not have been run at all then: the contract says of them that
/// the setup is not at fault, and no more. A thread that can't be made is no fault, as its job is run by the caller. So `NoThread`
/// comes from want of a seat alone: each writer's turn gives 4,096 of them, and has no more than 4,095 jobs. It is told too where a
/// shared writer can't be closed since a seat is out, or has no room for a recording, which does not come: it has room for 2^62
/// changes. `NoMemory` is told where memory was refused to the fleet anywhere. A job whose writer wanted memory has recorded what it
/// took in, and none of that was refused.
///
/// Takes memory for the writers, for a log of at most 4,096 recordings for each job that runs, and for the collections.
pub fn run_fleet<R: Threads + Wait + Sync, G: Gate + Sync>(
    rt: &R,
    alloc: Global,
    setup: FleetSetup,
    gate: &G,
) -> Result<Vec<Gateway>, FleetFault>
    ensures ok { OnOk result ((setup_fault setup ≡ None) × AllEnded (G.passes gate.now) setup) }
    ensures err { IfErr result (λ f. (setup_fault setup ≡ Some f) ⊎ ((setup_fault setup ≡ None) × IsLate (G.passes gate.now) setup f)) }
    ensures ids { IfOk result (λ gs. map (λ g. g.id) gs.items ≡ setup.gateways.items) }
    ensures rows { IfOk result (λ gs. (k : ℕ) (g : GatewayState) → slice_get gs.items k ≡ Some g → (ask : Ask) → AddsUp ask.stream.shape
        → AllWithin (writers_of setup) (entries_recorded setup) ⊎ IsRegrouped ask
        → rollup_rows ask g.points ≡ rows_of (writers_of setup) (entries_recorded setup) ask) }
{
    if let Some(fault) = fault_of(&setup) {
        return Err(fault);
    }
    let exports = exports_of(rt, alloc, gate, &setup)?;
    let gateways = gateways_of(rt, alloc, setup.gateways.as_slice(), exports.as_slice())?;
    Ok(gateways)
}
