//! A periodic reader over an exporter of one's own.
ghost use Rattle.std.specs.Prelude.{◌≡◌, ◌≢◌, ◌<◌, OnOk, IfOk, Ok, false, length, true};
ghost use Rattle.push_kit.specs.declared.periodic.Tick.TheVariants as ticks;
ghost use Rattle.uses.specs.Pushing.{size_of, Keeps};

use bumpalo::Bump;
use crossbeam_channel::Sender;
use point_kit::Export;
use push_kit::{
    ChannelExporter, ExportRefused, Exporter, MemoryExporter, Periodic, Tick, TickFault,
};
use std::alloc::Global;
use std::sync::Wait;
use test_kit::FailingExporter;
use writer_kit::{DEFAULT_INTERVAL, Pace, Writer};

/// An exporter that notes the time and the size of the newest collection that it was handed. It never refuses.
#[derive(Clone, Copy, Debug, PartialEq, Eq, Drop)]
pub struct Newest {
    pub time: u64,
    pub points: usize,
}

impl Exporter for Newest {
    ghost refusals = { λ _. 0 };

    ghost takes = { λ _ export n. (n.time ≡ export.time) × (n.points ≡ length export.points) };

    ghost refuses = { λ _ _ _. ⊥ };

    fn failures(&self) -> u64 {
        0
    }

    fn export(&mut self, export: &Export) -> Result<(), ExportRefused> {
        self.time = export.time();
        self.points = export.points().len();
        Ok(())
    }
}

/// A reader that collects every minute, the first time a minute after the writer's start.
pub fn every_minute(alloc: Global, writer: Writer) -> Periodic<Newest>
    ensures writer { result.writer ≡ writer }
    ensures interval { result.pace.interval ≡ 60000000000 }
{
    let first = writer.start_time().saturating_add(DEFAULT_INTERVAL);
    let pace = Pace::new(DEFAULT_INTERVAL, first);
    let nothing = Newest { time: 0, points: 0 };
    Periodic::new(alloc, writer, nothing, pace)
}

/// Ticks: before its time it does nothing; from then on the exporter gets the whole collection of this time.
pub fn push_when_due(
    alloc: Global,
    reader: &mut Periodic<Newest>,
    now: u64,
) -> Result<Tick, TickFault>
    ensures waits { now < reader.old.pace.next → (result ≡ Ok ticks.NotDue) × (reader.new ≡ reader.old) }
    ensures time { IfOk result (λ tick. tick ≢ ticks.NotDue → reader.new.exporter.time ≡ now) }
    ensures points { IfOk result (λ tick. tick ≢ ticks.NotDue → reader.new.exporter.points ≡ size_of reader.old.writer) }
{
    let arena = Bump::new(alloc);
    reader.tick(&arena, now)
}

/// Collects at once, and keeps a copy of the collection behind those that were kept before.
pub fn keep_a_copy(
    alloc: Global,
    reader: &mut Periodic<MemoryExporter>,
    now: u64,
) -> Result<usize, TickFault>
    requires room { reader.old.exporter.failures < 18446744073709551615 }
    ensures kept { OnOk result (Keeps reader.old.writer now reader.old.exporter.copies.items reader.new.exporter.copies.items) }
{
    let arena = Bump::new(alloc);
    reader.flush(&arena, now, false)
}

/// A reader whose collections go over a channel: whoever has the other end takes them into a gateway.
pub fn over_a_channel<R: Wait + Drop>(
    rt: R,
    alloc: Global,
    writer: Writer,
    pace: Pace,
    sender: Sender<Export>,
) -> Periodic<ChannelExporter<R>>
    ensures writer { result.writer ≡ writer }
    ensures pace { result.pace ≡ pace }
{
    Periodic::new(alloc, writer, ChannelExporter::new(rt, sender), pace)
}

/// Collects at once, and says whether the exporter took it. What it was told to refuse it does not keep.
pub fn push_or_lose(
    alloc: Global,
    reader: &mut Periodic<FailingExporter<'_>>,
    now: u64,
) -> Result<bool, TickFault>
    requires room { reader.old.exporter.failures < 18446744073709551615 }
    ensures taken { IfOk result
        (λ taken. taken ≡ true → Keeps reader.old.writer now reader.old.exporter.copies.items reader.new.exporter.copies.items) }
    ensures lost { IfOk result (λ taken. taken ≡ false → reader.new.exporter.copies.items ≡ reader.old.exporter.copies.items) }
{
    let arena = Bump::new(alloc);
    match reader.flush(&arena, now, false) {
        Ok(_points) => Ok(true),
        Err(TickFault::ExportRefused) => Ok(false),
        Err(fault) => Err(fault),
    }
}
