//! The pieces of a word.
ghost use Rattle.std.specs.Prelude.{◌≡◌, IfOk, map, option_map, ◌==◌};
ghost use Rattle.std.specs.List.{slice_split};
ghost use Rattle.script_kit.specs.Pieces.{cut};

use std::alloc::{AllocError, Global};

/// The pieces between commas.
pub(crate) fn split_at_commas(alloc: Global, text: &str) -> Result<Vec<&str>, AllocError>
    ensures { IfOk result (λ v. map (λ w. w.now) v.items ≡ slice_split (λ b. b == 44) text.now) }
{
    text.split(',').collect(alloc)
}

/// What stands before the first `=`, and after it.
#[tactic(auto, unfolding(crate::specs::Pieces::cut))]
pub(crate) fn cut_at_equals(word: &str) -> Option<(&str, &str)>
    ensures { option_map (λ p. (p.0.now, p.1.now)) result ≡ cut 61 word.now }
{
    match word.split_once('=') {
        Some((before, after)) => Some((before, after)),
        None => None,
    }
}

/// What stands before the first `:`, and after it.
#[tactic(auto, unfolding(crate::specs::Pieces::cut))]
pub(crate) fn cut_at_colon(word: &str) -> Option<(&str, &str)>
    ensures { option_map (λ p. (p.0.now, p.1.now)) result ≡ cut 58 word.now }
{
    match word.split_once(':') {
        Some((before, after)) => Some((before, after)),
        None => None,
    }
}
