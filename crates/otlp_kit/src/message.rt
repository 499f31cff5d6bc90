//! Messages, read field by field.
ghost use Rattle.std.specs.Prelude.{◌≡◌, ◌≢◌, Result, Ok, Err, IfOk, IfErr, OnOk};
ghost use Rattle.otlp_kit.specs.Fields.{message};
ghost use Rattle.otlp_kit.specs.declared.field.Field.{Field};
ghost use Rattle.otlp_kit.specs.declared.request_fault.RequestFault.{RequestFault};
ghost use Rattle.otlp_kit.specs.declared.request_fault.RequestReason.TheVariants as reasons;

use crate::field::Field;
use crate::span::Span;
use crate::{RequestFault, RequestReason};
use std::alloc::Global;

/// What the fields of a message say.
pub(crate) trait Message: Sized + Drop {
    /// What no fields say.
    ghost none: { Self };

    /// What one more field changes.
    ghost step: { Self → Field → Result Self RequestFault };

    fn new(alloc: Global) -> Self
        ensures { result ≡ none };

    fn take(&mut self, alloc: Global, field: &Field<'_>) -> Result<(), RequestFault>
        ensures ok { OnOk result (step self.old field.now ≡ Ok self.new) }
        ensures err { IfErr result (λ f. f.why ≢ reasons.NoMemory → step self.old field.now ≡ Err f) };
}

/// The message that these bytes are.
#[tactic(auto, unfolding(crate::specs::Fields::message))]
pub(crate) fn read<M: Message>(alloc: Global, span: &Span<'_>) -> Result<M, RequestFault>
    ensures ok { IfOk result (λ m. message M.step M.none span.now ≡ Ok m) }
    ensures err { IfErr result (λ f. f.why ≢ reasons.NoMemory → message M.step M.none span.now ≡ Err f) }
{
    let mut said = M::new(alloc);
    let mut rest = span.copy();
    // No message has more fields than bytes.
    for _ in 0..span.len() {
        let Some(field) = Field::next(&mut rest)? else {
            return Ok(said);
        };
        said.take(alloc, &field)?;
    }
    Ok(said)
}
