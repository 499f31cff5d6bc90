//! The lines of a script, and the words of a line.
ghost use Rattle.std.specs.Prelude.{◌≡◌, ◌==◌, ◌<◌, ◌++◌, ◌∷◌, [], IfOk, OnSome, IfSome, IfNone, IsErrOf, Ok, Err, map, length, true, false, position};
ghost use Rattle.std.specs.List.{list_all, slice_split};
ghost use Rattle.script_kit.specs.declared.reason.Reason.{Reason};
ghost use Rattle.script_kit.specs.Words.{words_of, pieces_of, is_line_byte, is_filled};

use crate::reason::Reason;
use crate::stop::Stop;
use std::alloc::{AllocError, Global};

const LINE_FEED: u8 = b'\n';

fn line_feed_in(script: &[u8]) -> Option<usize>
    ensures { result ≡ position (λ b. b == 10) script.now }
{
    script.iter().position(|b| *b == LINE_FEED)
}

/// The first line, and what stands behind its line feed; none where no line feed is left.
pub fn first_line(script: &[u8]) -> Option<(&[u8], &[u8])>
    ensures some { IfSome result (λ r. pieces_of script.now ≡ r.0.now ∷ pieces_of r.1.now) }
    ensures less { IfSome result (λ r. length r.1.now < length script.now) }
    ensures none { IfNone result (pieces_of script.now ≡ script.now ∷ []) }
{
    match line_feed_in(script) {
        None => None,
        Some(end) => {
            let (line, _) = script.split_at(end);
            let (_, rest) = script.split_at(end + 1);
            Some((line, rest))
        }
    }
}

/// A space, or a visible ASCII character.
pub(crate) fn is_line_byte(byte: u8) -> bool
    ensures { result ≡ is_line_byte byte }
{
    32 <= byte && byte <= 126
}

fn is_line(line: &[u8]) -> bool
    ensures { result ≡ list_all is_line_byte line.now }
{
    line.iter().all(|byte| is_line_byte(*byte))
}

pub(crate) fn text_of(line: &[u8]) -> Option<&str>
    ensures ok { OnSome result (list_all is_line_byte line.now ≡ true) }
    ensures value { IfSome result (λ text. text.now ≡ line.now) }
    ensures none { IfNone result (list_all is_line_byte line.now ≡ false) }
{
    if is_line(line) {
        str::from_utf8(line).ok()
    } else {
        None
    }
}

fn are_filled(words: &[&str]) -> bool
    ensures { result ≡ list_all is_filled (map (λ w. w.now) words.now) }
{
    words.iter().all(|word| !word.is_empty())
}

fn split_at_spaces(alloc: Global, text: &str) -> Result<Vec<&str>, AllocError>
    ensures { IfOk result (λ v. map (λ w. w.now) v.items ≡ slice_split (λ b. b == 32) text.now) }
{
    text.split(' ').collect(alloc)
}

/// The words of a line: one or more, with one space between two.
#[tactic(auto, unfolding(crate::specs::Words::words_of))]
pub(crate) fn words(alloc: Global, line: &[u8]) -> Result<Vec<&str>, Stop>
    ensures ok { IfOk result (λ v. words_of line.now ≡ Ok (map (λ w. w.now) v.items)) }
    ensures bad { (why : Reason) → IsErrOf result (Stop.Bad why) → words_of line.now ≡ Err why }
{
    let text = text_of(line).ok_or(Reason::Bytes)?;
    let words = split_at_spaces(alloc, text)?;
    if are_filled(&words) {
        Ok(words)
    } else {
        Err(Stop::Bad(Reason::Spaces))
    }
}
