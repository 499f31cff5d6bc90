//! What is printed of refusals.
ghost use Rattle.std.specs.Prelude.{◌≡◌, IfOk, string_bytes};
ghost use Rattle.otm_kit.specs.Texts.{begin_text, refusal_line, reply_text};

use crate::begin::BeginFault;
use std::alloc::{AllocError, Global};
use world_kit::Reply;

/// The line of a refused event; nothing where it was accepted.
#[tactic(auto, unfolding(crate::specs::Texts::reply_text, crate::specs::Texts::refusal_line))]
pub(crate) fn reply_line(alloc: Global, reply: &Reply) -> Result<String, AllocError>
    ensures { IfOk result (λ text. string_bytes text ≡ reply_text reply.now) }
{
    match reply {
        Reply::Done | Reply::Made(_) | Reply::Changed(_) | Reply::Sent(_) | Reply::Handed(_) => Ok(
            String::new(alloc),
        ),
        Reply::Refused(refusal) => format!(in alloc; "refused: {refusal}\n"),
    }
}

/// The line of a `begin` that is refused.
#[tactic(auto, unfolding(crate::specs::Texts::refusal_line))]
pub(crate) fn begin_line(alloc: Global, fault: &BeginFault) -> Result<String, AllocError>
    ensures { IfOk result (λ text. string_bytes text ≡ refusal_line (begin_text fault.now)) }
{
    format!(in alloc; "refused: {fault}\n")
}
