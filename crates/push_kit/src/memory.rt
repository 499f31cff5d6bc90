//! An exporter that keeps what it takes.
ghost use Rattle.std.specs.Prelude.{◌≡◌, [], ◌∷◌, ◌++◌, OnOk, OnErr};

use crate::{ExportRefused, Exporter};
use attr_kit::NoMemory;
use point_kit::Export;
use std::alloc::Global;

/// An exporter that keeps a copy of each export, in their order (OpenTelemetry Metrics SDK Exporters, "In-memory").
///
/// It keeps the allocator that it was made with. A growth that was refused is a failure.
#[derive(Drop)]
pub struct MemoryExporter {
    copies: Vec<Export>,
    failures: u64,
}

impl MemoryExporter {
    /// An exporter without copies, which has not failed. O(1), takes no memory.
    pub fn new(alloc: Global) -> MemoryExporter
        ensures empty { result.copies.items ≡ [] }
        ensures fresh { result.failures ≡ 0 }
    {
        MemoryExporter {
            copies: Vec::new(alloc),
            failures: 0,
        }
    }

    /// The exports that it took, the first one first. O(1), takes no memory.
    pub fn copies(&self) -> &[Export]
        ensures value { result.now ≡ self.now.copies.items }
    {
        self.copies.as_slice()
    }

    // Appends a copy.
    fn keep(&mut self, export: &Export) -> Result<(), NoMemory>
        ensures ok { OnOk result (self.new.copies.items ≡ self.old.copies.items ++ export.now ∷ []) }
        ensures err { OnErr result (self.new.copies.items ≡ self.old.copies.items) }
        ensures failures { self.new.failures ≡ self.old.failures }
    {
        self.copies.push(export.try_copy()?)?;
        Ok(())
    }
}

impl Exporter for MemoryExporter {
    ghost refusals = { λ m. m.failures };

    ghost takes = { λ m export n. n.copies.items ≡ m.copies.items ++ export ∷ [] };

    ghost refuses = { λ m _ n. n.copies.items ≡ m.copies.items };

    fn failures(&self) -> u64 {
        self.failures
    }

    // O(points of the export).
    fn export(&mut self, export: &Export) -> Result<(), ExportRefused> {
        match self.keep(export) {
            Ok(()) => Ok(()),
            Err(NoMemory) => {
                self.failures += 1;
                Err(ExportRefused)
            }
        }
    }
}
