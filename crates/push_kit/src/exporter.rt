//! What takes exports.
ghost use Rattle.std.specs.Prelude.{◌≡◌, ◌+◌, ◌<◌, ℕ, OnOk, OnErr};
ghost use Rattle.point_kit.specs.declared.export.Export.{Export};

use crate::ExportRefused;
use point_kit::Export;

/// What takes the collections that are pushed (OpenTelemetry Metrics SDK, "Push Metric Exporter", Export).
///
/// One exporter is never called twice at once: a call takes it by `&mut`.
pub trait Exporter: Drop {
    // How often it has refused.
    ghost refusals: { Self → ℕ };

    // What it is after it took an export, against what it was before.
    ghost takes: { Self → Export → Self → Type 0 };

    // What it is after it refused an export, against what it was before.
    ghost refuses: { Self → Export → Self → Type 0 };

    /// How often `export` has answered a refusal.
    fn failures(&self) -> u64
        ensures value { result ≡ refusals self.now };

    /// Takes an export. Refuses with `ExportRefused` for reasons of its own, and then alone `failures` rises, by one.
    fn export(&mut self, export: &Export) -> Result<(), ExportRefused>
        requires room { refusals self.old < 18446744073709551615 }
        ensures taken { OnOk result (takes self.old export.now self.new) }
        ensures ok { OnOk result (refusals self.new ≡ refusals self.old) }
        ensures refused { OnErr result (refuses self.old export.now self.new) }
        ensures err { OnErr result (refusals self.new ≡ refusals self.old + 1) };
}
