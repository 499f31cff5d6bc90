//! Names as Prometheus wants them.
ghost use Rattle.std.specs.Prelude.{◌≡◌, ◌++◌, ◌∷◌, ℕ, List, slice_index, IfOk, OnOk, string_bytes};
ghost use Rattle.page_kit.specs.Names.{line_from, line, lead, led, without_prefix, without_suffix, trimmed, has_part};
ghost use Rattle.page_kit.specs.Views.{Appends};

use attr_kit::NoMemory;
use std::alloc::Global;

// Adds a byte, or for the first of a run the mark; and whether a run goes on.
fn push_byte(text: &mut String, byte: u8, in_run: bool) -> Result<bool, NoMemory>
    ensures { IfOk result (λ next. (rest : List ℕ) → string_bytes text.new ++ line_from next rest
        ≡ string_bytes text.old ++ line_from in_run (byte ∷ rest)) }
{
    if byte.is_ascii_alphanumeric() {
        text.push(byte as char)?;
        return Ok(false);
    }
    if in_run {
        return Ok(true);
    }
    text.push('_')?;
    Ok(true)
}

/// The bytes with each longest run of those that are no ASCII letters or digits as one `_`.
pub(crate) fn line(alloc: Global, bytes: &[u8]) -> Result<String, NoMemory>
    ensures { IfOk result (λ text. string_bytes text ≡ line bytes.now) }
{
    let mut text = String::new(alloc);
    let mut in_run = false;
    for byte in bytes {
        in_run = push_byte(&mut text, *byte, in_run)?;
    }
    Ok(text)
}

// The first byte, 0 where there is none.
fn first_byte(bytes: &[u8]) -> u8
    ensures { result ≡ slice_index bytes.now 0 }
{
    if bytes.is_empty() { 0 } else { bytes[0] }
}

// Adds what stands before a name so that it begins with a letter.
fn push_lead(text: &mut String, word: &str, name: &str) -> Result<(), NoMemory>
    ensures { OnOk result (Appends text.old text.new (lead word.now name.now)) }
{
    let first = first_byte(name.as_bytes());
    if first.is_ascii_alphabetic() {
        return Ok(());
    }
    text.push_str(word)?;
    if first == b'_' {
        return Ok(());
    }
    text.push('_')?;
    Ok(())
}

/// A name that begins with a letter: a word stands before one that does not.
#[tactic(auto, unfolding(crate::specs::Names::led))]
pub(crate) fn led(alloc: Global, word: &str, name: &str) -> Result<String, NoMemory>
    ensures { IfOk result (λ text. string_bytes text ≡ led word.now name.now) }
{
    let mut text = String::new(alloc);
    push_lead(&mut text, word, name)?;
    text.push_str(name)?;
    Ok(text)
}

/// The same of a name that is no longer wanted: as it is where it begins with a letter.
#[tactic(auto, unfolding(crate::specs::Names::led))]
pub(crate) fn led_string(alloc: Global, word: &str, name: String) -> Result<String, NoMemory>
    ensures { IfOk result (λ text. string_bytes text ≡ led word.now (string_bytes name)) }
{
    if first_byte(name.as_bytes()).is_ascii_alphabetic() {
        return Ok(name);
    }
    led(alloc, word, name.as_str())
}

/// A text without this at its end, where it stands there.
pub(crate) fn without_suffix<'a>(text: &'a str, suffix: &str) -> &'a str
    ensures { result.now ≡ without_suffix suffix.now text.now }
{
    match text.strip_suffix(suffix) {
        Some(front) => front,
        None => text,
    }
}

/// A text without this at its front, where it stands there.
pub(crate) fn without_prefix<'a>(text: &'a str, prefix: &str) -> &'a str
    ensures { result.now ≡ without_prefix prefix.now text.now }
{
    match text.strip_prefix(prefix) {
        Some(rest) => rest,
        None => text,
    }
}

/// A text without `_` at either end.
pub(crate) fn trimmed(text: &str) -> &str
    ensures { result.now ≡ trimmed text.now }
{
    without_suffix(without_prefix(text, "_"), "_")
}

/// Whether a part stands in a text.
pub(crate) fn has_part(bytes: &[u8], part: &[u8]) -> bool
    ensures { result ≡ has_part part.now bytes.now }
{
    for place in 0..bytes.len() {
        if bytes[place..].starts_with(part) {
            return true;
        }
    }
    false
}
