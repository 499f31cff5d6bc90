//! An exporter that fails when told.
ghost use Rattle.std.specs.Prelude.{◌≡◌, ◌+◌, ◌<◌, [], ◌∷◌, ◌++◌, OnOk, OnErr};

use attr_kit::NoMemory;
use point_kit::Export;
use push_kit::{ExportRefused, Exporter};
use std::alloc::Global;

/// An exporter that refuses at chosen calls, and keeps a copy of each other export, in their order.
///
/// Calls count from 1, the refused ones too. It keeps the allocator that it was made with. A growth that was refused is a
/// failure as well.
#[derive(Drop)]
pub struct FailingExporter<'a> {
    at: &'a [u64],
    copies: Vec<Export>,
    failures: u64,
}

impl<'a> FailingExporter<'a> {
    /// An exporter that is told to refuse at these calls, and was not called. O(1), takes no memory.
    pub fn at(alloc: Global, calls: &'a [u64]) -> FailingExporter<'a>
        ensures calls { result.at.now ≡ calls.now }
        ensures empty { result.copies.items ≡ [] }
        ensures fresh { result.failures ≡ 0 }
    {
        FailingExporter {
            at: calls,
            copies: Vec::new(alloc),
            failures: 0,
        }
    }

    /// The exports that it took, the first one first. O(1), takes no memory.
    pub fn copies(&self) -> &[Export]
        ensures value { result.now ≡ self.now.copies.items }
    {
        self.copies.as_slice()
    }
}

impl FailingExporter<'_> {
    ghost use Rattle.test_kit.specs.Failing.{is_chosen};

    // Whether it was told to refuse its next call.
    fn is_chosen(&self) -> bool
        ensures { result ≡ is_chosen self.now }
    {
        let call = self.copies.len() as u128 + u128::from(self.failures()) + 1;
        self.at.iter().any(|at| u128::from(*at) == call)
    }

    // Appends a copy.
    fn keep(&mut self, export: &Export) -> Result<(), NoMemory>
        ensures value { OnOk result (self.new.copies.items ≡ self.old.copies.items ++ export.now ∷ []) }
        ensures err { OnErr result (self.new.copies.items ≡ self.old.copies.items) }
        ensures calls { self.new.at ≡ self.old.at }
        ensures failures { self.new.failures ≡ self.old.failures }
    {
        self.copies.push(export.try_copy()?)?;
        Ok(())
    }
}

impl Exporter for FailingExporter<'_> {
    ghost use Rattle.test_kit.specs.Failing.{Takes, Refuses};

    ghost refusals = { λ f. f.failures };

    ghost takes = { λ f export g. Takes f export g };

    ghost refuses = { λ f _ g. Refuses f g };

    fn failures(&self) -> u64 {
        self.failures
    }

    // O(chosen calls + points of the export).
    fn export(&mut self, export: &Export) -> Result<(), ExportRefused> {
        if self.is_chosen() || self.keep(export).is_err() {
            self.failures += 1;
            return Err(ExportRefused);
        }
        Ok(())
    }
}
