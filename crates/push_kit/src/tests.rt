//! Worked pushes of one writer: into memory, and into a channel. One over an exporter that fails as told is in test_kit.
ghost use Rattle.std.specs.Prelude.{◌≡◌, ◌+◌, ◌<◌, ◌≤◌, IfOk, OnOk};

use super::*;
use attr_kit::{AttrSet, NoMemory, Seq, Txt};
use bumpalo::Bump;
use crossbeam_channel::Receiver;
use plan_kit::{DEFAULT_LIMIT, Instrument, Kind, Plan};
use point_kit::{Export, Payload, WriterId};
use recorder_kit::Recorder;
use std::alloc::Global;
use std::sync::Wait;
use std::test::Fail;
use uuid::Uuid;
use writer_kit::{DEFAULT_INTERVAL, MeasureFault, Pace, Writer};

// The total of the only point, a sum.
fn total(export: &Export) -> Option<i64> {
    match export.points() {
        [point] => match point.payload {
            Payload::Sum(total) => Some(total),
            _ => None,
        },
        _ => None,
    }
}

fn instruments(alloc: Global) -> Result<Seq<Instrument>, NoMemory> {
    let mut instruments = Vec::new(alloc);
    instruments.push(Instrument {
        scope: Txt::from_str(alloc, "app")?,
        name: Txt::from_str(alloc, "requests")?,
        unit: Txt::from_str(alloc, "1")?,
        kind: Kind::Counter,
    })?;
    Ok(Seq::from_vec(instruments))
}

// A writer of one counter from 0 on.
fn counting(alloc: Global) -> Result<Writer, Fail> {
    let plan = Plan::build(alloc, instruments(alloc)?, Seq::new(alloc), DEFAULT_LIMIT)?;
    let id = WriterId {
        service: Txt::from_str(alloc, "shop")?,
        instance: Uuid::from_u128(1),
    };
    Ok(Writer::start(alloc, id, plan, 0)?)
}

// A reader of such a writer, each minute from the first on.
fn reading<E: Exporter>(alloc: Global, exporter: E) -> Result<Periodic<E>, Fail>
    ensures { IfOk result (λ p. p.exporter ≡ exporter) }
{
    let pace = Pace::new(DEFAULT_INTERVAL, DEFAULT_INTERVAL);
    Ok(Periodic::new(alloc, counting(alloc)?, exporter, pace))
}

// Records a value. The exporter stays.
fn adds<E: Exporter>(periodic: &mut Periodic<E>, alloc: Global, value: i64) -> Result<(), Fail>
    ensures { periodic.new.exporter ≡ periodic.old.exporter }
{
    Ok(periodic.measure(0, &AttrSet::empty(alloc), value)?)
}

const MINUTE: u64 = 60_000_000_000;

// Each helper below borrows the reader: it is dropped at the exits of the test alone, and each exit that drops costs proof.

// Whether flushes at 5 leave a pace that is due at 10, and a closing one at 6 ends the reader.
fn leaves_the_pace(periodic: &mut Periodic<MemoryExporter>, alloc: Global) -> Result<bool, Fail>
    requires { periodic.old.exporter.failures ≡ 0 }
{
    let arena = Bump::new(alloc);
    adds(periodic, alloc, 3)?;
    let first = periodic.flush(&arena, 5, false);
    let next = periodic.pace().next;
    adds(periodic, alloc, 4)?;
    let again = periodic.flush(&arena, 5, false);
    let last = periodic.flush(&arena, 6, true);
    let total = periodic.exporter().copies().last().and_then(total);
    let is_flushed = (first, last, total) == (Ok(1), Ok(1), Some(7));
    let is_refused = again == Err(TickFault::TimeNotAfter(5));
    Ok(is_flushed && is_refused && next == 10 && is_closed(periodic, alloc))
}

// Whether a reader refuses a recording and a tick since it is closed.
fn is_closed(periodic: &mut Periodic<MemoryExporter>, alloc: Global) -> bool
    requires { periodic.old.exporter.failures < 18446744073709551615 }
{
    let measured = periodic.measure(0, &AttrSet::empty(alloc), 1);
    let ticked = periodic.tick(&Bump::new(alloc), 10);
    measured == Err(MeasureFault::Closed) && ticked == Err(TickFault::Closed)
}

#[test]
fn flushes_leave_the_pace(rt: HostRuntime) -> Result<(), Fail> {
    let exporter = MemoryExporter::new(rt.alloc());
    let mut periodic = Periodic::new(
        rt.alloc(),
        counting(rt.alloc())?,
        exporter,
        Pace::new(10, 10),
    );
    assert!(rt; leaves_the_pace(&mut periodic, rt.alloc())?);
    Ok(())
}

// The answer of a due tick after 3 and 4 were recorded, over an exporter that has not failed.
fn last_tick<E: Exporter>(
    alloc: Global,
    periodic: &mut Periodic<E>,
) -> Result<Result<Tick, TickFault>, Fail>
    requires { E.refusals periodic.old.exporter < 18446744073709551615 }
{
    adds(periodic, alloc, 3)?;
    adds(periodic, alloc, 4)?;
    let arena = Bump::new(alloc);
    Ok(periodic.tick(&arena, 2 * MINUTE))
}

// Whether one export comes over a channel, of the total 7.
fn is_only<R: Wait>(rt: &R, from: &Receiver<Export>) -> bool {
    match from.recv(rt) {
        Ok(export) => total(&export) == Some(7) && from.try_recv(rt).is_err(),
        Err(_) => false,
    }
}

#[test]
fn a_channel_passes_it_on(rt: HostRuntime) -> Result<(), Fail> {
    let (to, from) = crossbeam_channel::unbounded(rt.alloc())?;
    let mut periodic = reading(rt.alloc(), ChannelExporter::new(&rt, to))?;
    let answer = last_tick(rt.alloc(), &mut periodic)?;
    assert!(rt; answer == Ok(Tick::Exported(1)) && is_only(&rt, &from));
    Ok(())
}

#[test]
fn a_channel_without_a_receiver_fails(rt: HostRuntime) -> Result<(), Fail> {
    let (to, from) = crossbeam_channel::unbounded(rt.alloc())?;
    drop(from);
    let mut periodic = reading(rt.alloc(), ChannelExporter::new(&rt, to))?;
    let is_refused = last_tick(rt.alloc(), &mut periodic)? == Err(TickFault::ExportRefused);
    let failures = periodic.exporter().failures();
    let times = (periodic.writer().last(), periodic.pace().next);
    assert!(rt; is_refused && failures == 1 && times == (2 * MINUTE, 3 * MINUTE));
    Ok(())
}

// Whether one export comes over a channel, without points.
fn is_without_points<R: Wait>(rt: &R, from: &Receiver<Export>) -> bool {
    match from.recv(rt) {
        Ok(export) => export.points().is_empty() && from.try_recv(rt).is_err(),
        Err(_) => false,
    }
}

#[test]
fn a_channel_passes_on_an_export_without_points(rt: HostRuntime) -> Result<(), Fail> {
    let (to, from) = crossbeam_channel::unbounded(rt.alloc())?;
    let mut periodic = reading(rt.alloc(), ChannelExporter::new(&rt, to))?;
    let answer = periodic.tick(&Bump::new(rt.alloc()), MINUTE);
    assert!(rt; answer == Ok(Tick::Exported(0)) && is_without_points(&rt, &from));
    Ok(())
}

// The answer of a tick after 1 was recorded.
fn next_tick<E: Exporter>(
    periodic: &mut Periodic<E>,
    alloc: Global,
    now: u64,
) -> Result<Result<Tick, TickFault>, Fail>
    requires { E.refusals periodic.old.exporter < 18446744073709551615 }
    ensures { OnOk result (E.refusals periodic.new.exporter ≤ E.refusals periodic.old.exporter + 1) }
{
    adds(periodic, alloc, 1)?;
    Ok(periodic.tick(&Bump::new(alloc), now))
}

#[test]
fn a_channel_fails_once_its_receivers_are_gone(rt: HostRuntime) -> Result<(), Fail> {
    let alloc = rt.alloc();
    let (to, from) = crossbeam_channel::unbounded(alloc)?;
    let mut periodic = reading(alloc, ChannelExporter::new(&rt, to))?;
    let first = next_tick(&mut periodic, alloc, MINUTE)?;
    let second = next_tick(&mut periodic, alloc, 2 * MINUTE)?;
    drop(from);
    let third = next_tick(&mut periodic, alloc, 3 * MINUTE)?;
    let is_sent = (first, second) == (Ok(Tick::Exported(1)), Ok(Tick::Exported(1)));
    assert!(rt; is_sent && third == Err(TickFault::ExportRefused));
    assert_eq!(rt; periodic.exporter().failures(), 1);
    Ok(())
}

// Whether an exporter into memory takes an export so often, and keeps as many copies.
fn keeps_each(exporter: &mut MemoryExporter, export: &Export, times: usize) -> bool
    requires { exporter.old.failures ≡ 0 }
{
    for _ in 0..times {
        if exporter.export(export).is_err() {
            return false;
        }
    }
    exporter.copies().len() == times
}

// What a writer of one counter exports at 5, which recorded nothing.
fn export_of_nothing(alloc: Global) -> Result<Export, Fail> {
    let writer = counting(alloc)?;
    let arena = Bump::new(alloc);
    let round = writer.look_round(&arena, 5)?;
    Ok(round.copy_out(alloc, writer.id())?)
}

#[test]
fn memory_keeps_many_exports(rt: HostRuntime) -> Result<(), Fail> {
    let export = export_of_nothing(rt.alloc())?;
    let mut exporter = MemoryExporter::new(rt.alloc());
    assert!(rt; keeps_each(&mut exporter, &export, 1_000));
    Ok(())
}

// Whether what is held, measured, and noted in a log comes to one total, 10: a number of a reader is for its logs too.
fn adds_in_each_way(periodic: &mut Periodic<MemoryExporter>, alloc: Global) -> Result<bool, Fail>
    requires { periodic.old.exporter.failures ≡ 0 }
{
    let none = AttrSet::empty(alloc);
    let number = periodic.hold(0, &none)?;
    let mut log = Recorder::new(alloc, 2)?;
    log.measure(0, &none, 1)?;
    log.measure_held(number, 2)?;
    adds(periodic, alloc, 3)?;
    periodic.measure_held(number, 4)?;
    let taken = periodic.take_in(&mut log, usize::MAX)?;
    let ticked = periodic.tick(&Bump::new(alloc), 10);
    let total = periodic.exporter().copies().last().and_then(total);
    Ok(taken.recorded == 2 && ticked == Ok(Tick::Exported(1)) && total == Some(10))
}

#[test]
fn a_reader_records_in_each_way(rt: HostRuntime) -> Result<(), Fail> {
    let exporter = MemoryExporter::new(rt.alloc());
    let writer = counting(rt.alloc())?;
    let mut periodic = Periodic::new(rt.alloc(), writer, exporter, Pace::new(10, 10));
    assert!(rt; adds_in_each_way(&mut periodic, rt.alloc())?);
    Ok(())
}

#[test]
fn faults_are_told(rt: HostRuntime) -> Result<(), Fail> {
    let late = TickFault::TimeNotAfter(5);
    let text = format!(in rt.alloc(); "{late}; {}", TickFault::ExportRefused)?;
    assert_eq!(rt;
        text.as_str(),
        "the time is not after 5, the last collection or the start; the exporter refused"
    );
    Ok(())
}
