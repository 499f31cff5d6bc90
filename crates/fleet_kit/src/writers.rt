//! The writers of a fleet, each shared by its recorders and collected once.
ghost use Rattle.std.specs.Prelude.{ℕ, ◌≡◌, ◌⊎◌, ◌<◌, List, [], IfErr, IfOk, length, map};
ghost use Rattle.agg_kit.specs.Entries.{Entry};
ghost use Rattle.point_kit.specs.declared.export.Export.{Export};
ghost use Rattle.rollup_kit.specs.Fleets.{entries_of};
ghost use Rattle.turn_kit.specs.Public.{AreOut};
ghost use Rattle.writer_kit.specs.Following.{Follows};
ghost use Rattle.writer_kit.specs.Shared.{IsAt, first_of};
ghost use Rattle.fleet_kit.specs.Collected.{IsCopyOf, IsRoundOfMixed};
ghost use Rattle.fleet_kit.specs.Ends.{AllEndFrom, StopsShortFrom};
ghost use Rattle.fleet_kit.specs.Jobs.{task_of};
ghost use Rattle.fleet_kit.specs.Noting.{BeganNew};
ghost use Rattle.fleet_kit.specs.Recorded.{Brings};
ghost use Rattle.fleet_kit.specs.Setups.{AllEndAt, AllEnded, AreExportsAt, IsExportAt, StopsAt, StopsFleet};
ghost use Rattle.fleet_kit.specs.declared.halt.Halt.TheVariants as halts;

use crate::halt::{Halt, gather};
use crate::recorders::run_jobs;
use crate::{FleetSetup, Gate, Job};
use bumpalo::Bump;
use point_kit::Export;
use std::alloc::Global;
use std::sync::Wait;
use std::thread;
use std::thread::Threads;
use turn_kit::Seat;
use writer_kit::{SharedWriter, Writer};

/// The most changes of a shared writer. Its jobs have at most 2^61 entries, and no change is of less than one.
const MOST_CHANGES: u64 = 1 << 62;

// Copies out what the writer has as of a time.
#[tactic(auto, using(crate::proofs::Exported::copies))]
fn collection_of(alloc: Global, writer: &Writer, time: u64) -> Result<Export, Halt>
    ensures ok { IfOk result (λ e. IsCopyOf writer.now time e) }
    ensures err { IfErr result (λ h. h ≡ halts.NoMemory) }
{
    let arena = Bump::new(alloc);
    match writer.look_round(&arena, time) {
        Ok(round) => match round.copy_out(alloc, writer.id()) {
            Ok(export) => Ok(export),
            Err(_) => Err(Halt::NoMemory),
        },
        Err(_) => Err(Halt::NoMemory),
    }
}

// Closes a shared writer and copies out what it has: the round of what its seats recorded, in some order.
fn export_closed(
    alloc: Global,
    shared: SharedWriter,
    main: Seat<Writer>,
    time: u64,
) -> Result<Export, Halt>
    requires at { IsAt shared main }
    requires new { BeganNew shared }
    ensures ok { IfOk result (λ e. (es : List Entry) → Brings (first_of shared).tally main es
        → IsRoundOfMixed (first_of shared) time es e) }
    // No thread is told only where seats are out, which keep the writer from being closed.
    ensures err { IfErr result (λ h. ((h ≡ halts.NoThread) × (out : ℕ) × (0 < out) × AreOut main out) ⊎ (h ≡ halts.NoMemory)) }
{
    match shared.close(main) {
        Ok(writer) => collection_of(alloc, &writer, time),
        Err(_out) => Err(Halt::NoThread),
    }
}

// Runs the jobs of a writer that was just started, and collects it.
fn export_of<R: Threads + Wait + Sync, G: Gate + Sync>(
    rt: &R,
    alloc: Global,
    gate: &G,
    writer: Writer,
    place: usize,
    jobs: &[Job],
    end: u64,
) -> Result<Export, Halt>
    requires new { Follows writer.start [] writer }
    ensures ok { IfOk result (λ e. IsRoundOfMixed writer end (entries_of (map task_of jobs.now) place) e) }
    ensures ends { IfOk result (λ _. AllEndFrom (G.passes gate.now) writer place jobs.now) }
    ensures err { IfErr result (StopsShortFrom (G.passes gate.now) writer place jobs.now) }
{
    let Ok((shared, mut main)) = SharedWriter::new(alloc, writer, MOST_CHANGES) else {
        return Err(Halt::NoMemory);
    };
    run_jobs(rt, alloc, gate, &shared, &mut main, place, jobs)?;
    export_closed(alloc, shared, main, end)
}

// The collection of the writer at a place, after its jobs. No stream of its plan stands twice: `Plan::stream` says so of
// every plan.
fn export_at<R: Threads + Wait + Sync, G: Gate + Sync>(
    rt: &R,
    alloc: Global,
    gate: &G,
    setup: &FleetSetup,
    place: usize,
) -> Result<Export, Halt>
    requires there { place < length setup.now.writers.items }
    ensures ok { IfOk result (λ e. IsExportAt setup.now place e) }
    ensures ends { IfOk result (λ _. AllEndAt (G.passes gate.now) setup.now place) }
    ensures err { IfErr result (StopsAt (G.passes gate.now) setup.now place) }
{
    let writers = setup.writers.as_slice();
    let (id, plan, start) = &writers[place];
    plan.streams_are_apart();
    let writer = Writer::start(alloc, id.try_copy()?, plan.try_copy()?, *start)?;
    export_of(
        rt,
        alloc,
        gate,
        writer,
        place,
        setup.jobs.as_slice(),
        setup.end,
    )
}

/// Runs the jobs of all writers at once, and collects each writer after its own.
pub(crate) fn exports_of<R: Threads + Wait + Sync, G: Gate + Sync>(
    rt: &R,
    alloc: Global,
    gate: &G,
    setup: &FleetSetup,
) -> Result<Vec<Export>, Halt>
    ensures ok { IfOk result (λ es. AreExportsAt setup.now es.items) }
    ensures ends { IfOk result (λ _. AllEnded (G.passes gate.now) setup.now) }
    ensures err { IfErr result (StopsFleet (G.passes gate.now) setup.now) }
{
    let results = thread::map_indices(
        rt,
        alloc,
        setup.writers.len(),
        &|place: usize| -> Result<Export, Halt>
            requires { place < length setup.now.writers.items }
            ensures ok { IfOk result (λ e. IsExportAt setup.entry.now place e) }
            ensures ends { IfOk result (λ _. AllEndAt (G.passes gate.entry.now) setup.entry.now place) }
            ensures err { IfErr result (StopsAt (G.passes gate.entry.now) setup.entry.now place) }
        { export_at(rt, alloc, gate, setup, place) },
    )?;
    gather(alloc, results)
}
