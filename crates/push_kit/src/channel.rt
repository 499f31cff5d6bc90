//! An exporter that sends what it takes.
ghost use Rattle.std.specs.Prelude.{◌≡◌, ◌+◌};

use crate::{ExportRefused, Exporter};
use crossbeam_channel::Sender;
use point_kit::Export;
use std::sync::Wait;

/// An exporter that sends a copy of each export over a channel. A send may wait for room in the channel, and so may
/// whatever exports by it.
///
/// A growth that was refused is a failure, and so is a channel whose receivers are gone. No contract says that a message
/// comes to a receiver.
#[derive(Drop)]
pub struct ChannelExporter<R: Wait> {
    rt: R,
    sender: Sender<Export>,
    failures: u64,
}

impl<R: Wait> ChannelExporter<R> {
    /// An exporter to a channel, which has not failed. O(1), takes no memory.
    pub fn new(rt: R, sender: Sender<Export>) -> ChannelExporter<R>
        ensures fresh { result.failures ≡ 0 }
    {
        ChannelExporter {
            rt,
            sender,
            failures: 0,
        }
    }

    // Sends a copy.
    fn send(&self, export: &Export) -> Result<(), ExportRefused> {
        let Ok(copy) = export.try_copy() else {
            return Err(ExportRefused);
        };
        match self.sender.send(&self.rt, copy) {
            Ok(()) => Ok(()),
            Err(_unsent) => Err(ExportRefused),
        }
    }
}

impl<R: Wait + Drop> Exporter for ChannelExporter<R> {
    ghost use Rattle.std.specs.Prelude.{◌≡◌, ◌+◌};

    ghost refusals = { λ c. c.failures };

    // As far as contracts see, it stays as it was: a channel is no part of what its exporter is.
    ghost takes = { λ c _ d. d ≡ c };

    ghost refuses = { λ c _ d. d ≡ record c { failures = c.failures + 1 } };

    fn failures(&self) -> u64 {
        self.failures
    }

    // O(points of the export), and what the send waits for.
    fn export(&mut self, export: &Export) -> Result<(), ExportRefused> {
        let sent = self.send(export);
        if sent.is_err() {
            self.failures += 1;
        }
        sent
    }
}
