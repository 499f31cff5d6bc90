//! Incarnations that come and go at one keeper.
use crate::answer::Holding;
use crate::event::{Span, Sums};
use crate::fault::LineFault;
use crate::made::{export, requests};
use crate::parse::writer_of;
use crate::text::holding;
use archive_kit::{AdoptFault, Archive, Keeper};
use attr_kit::NoMemory;
use point_kit::{Export, SharedStream, WriterId};
use std::alloc::Global;

/// A fresh archive begins once the exports of the last have so many tombstones, so that they grow no further.
const MOST_TOMBSTONES: usize = 4096;

/// How many totals the archive may have.
const LIMIT: usize = 1 << 20;

/// The instance of the archive. Those of workers count from 1.
const ARCHIVE: u128 = 1 << 100;

/// A keeper, and an archive of the same service.
#[derive(Drop)]
struct Turnover {
    alloc: Global,
    keeper: Keeper,
    archive: Archive,
    stream: SharedStream,
    /// The last time that was told.
    clock: u64,
}

impl Turnover {
    fn new(alloc: Global) -> Result<Turnover, NoMemory> {
        let writer = writer_of(alloc, "shop", ARCHIVE)?;
        Ok(Turnover {
            alloc,
            keeper: Keeper::new(alloc, 1)?,
            archive: Archive::begin(alloc, writer, 0, LIMIT)?,
            stream: requests(alloc)?,
            clock: 0,
        })
    }

    // The next time.
    fn tick(&mut self) -> u64 {
        self.clock = self.clock.saturating_add(1);
        self.clock
    }

    // The archive exports, and the keeper takes it.
    fn export(&mut self) -> Result<(), LineFault> {
        let time = self.tick();
        let export = self.archive.export(time)?;
        self.keeper.take(&export)?;
        Ok(())
    }

    // The archive exports, and a fresh one begins. No point is held of what the last adopted, so it need not be known here any more.
    fn begin_anew(&mut self) -> Result<(), LineFault> {
        self.export()?;
        let writer = self.archive.writer().try_copy()?;
        let start = self.tick();
        self.archive = Archive::begin(self.alloc, writer, start, LIMIT)?;
        Ok(())
    }

    // The archive adopts an incarnation. Where a total leaves its range, a fresh one does.
    fn adopt(&mut self, writer: &WriterId, start: u64) -> Result<(), LineFault> {
        match self.archive.adopt(&self.keeper, writer, start) {
            Ok(()) => Ok(()),
            Err(AdoptFault::OutOfRange) => self.adopt_anew(writer, start),
            Err(fault) => Err(LineFault::Adopting(fault)),
        }
    }

    fn adopt_anew(&mut self, writer: &WriterId, start: u64) -> Result<(), LineFault> {
        self.begin_anew()?;
        Ok(self.archive.adopt(&self.keeper, writer, start)?)
    }

    // An incarnation exports once, and is adopted.
    fn come(&mut self, export: &Export) -> Result<(), LineFault> {
        self.keeper.take(export)?;
        self.adopt(export.writer(), export.start())
    }

    fn sums(&mut self, instance: u64, points: u32) -> Result<Sums, NoMemory> {
        Ok(Sums {
            writer: writer_of(self.alloc, "shop", u128::from(instance))?,
            start: self.tick(),
            time: self.tick(),
            value: 1,
            points,
        })
    }

    fn play(&mut self, instance: u64, points: u32) -> Result<(), LineFault> {
        let sums = self.sums(instance, points)?;
        match export(self.alloc, &self.stream, &sums)? {
            Ok(export) => self.come(&export),
            Err(_) => Err(LineFault::Value),
        }
    }

    // The archive exports, and another begins where its exports grew long.
    fn tell(&mut self) -> Result<(), LineFault> {
        if self.archive.adopted_len() < MOST_TOMBSTONES {
            self.export()
        } else {
            self.begin_anew()
        }
    }
}

// Whether the archive exports after so many adoptions.
fn is_due(adopted: u64, every: u64) -> bool {
    every != 0 && adopted % every == 0
}

/// Lets incarnations come and go: each exports once and is adopted, and after every so many the archive exports.
pub fn soak(alloc: Global, span: Span) -> Result<Holding, LineFault> {
    let mut turnover = Turnover::new(alloc)?;
    for instance in 0..span.incarnations {
        if is_due(instance, span.every) {
            turnover.tell()?;
        }
        turnover.play(instance, span.points)?;
    }
    turnover.export()?;
    Ok(holding(turnover.keeper.gateway()))
}
