//! Words that stand for texts, labels and identities.
ghost use Rattle.std.specs.Prelude.{◌≡◌, ◌<◌, IfOk, map, length};
ghost use Rattle.std.specs.List.{list_all};
ghost use Rattle.script_kit.specs.Forms.{is_label, is_label_byte, label_of, part_of, unless_star, scope_of, rename_of, uuid_of};

use attr_kit::{NoMemory, Txt};
use std::alloc::Global;
use uuid::Uuid;

/// A text of its own with the bytes of a word.
pub(crate) fn text(alloc: Global, word: &str) -> Result<Txt, NoMemory>
    ensures { IfOk result (λ text. text ≡ word.now) }
{
    Ok(Txt::from_string(word.to_string(alloc)?))
}

/// A lower-case letter, or a digit.
pub(crate) fn is_label_byte(byte: u8) -> bool
    ensures { result ≡ is_label_byte byte }
{
    byte.is_ascii_lowercase() || byte.is_ascii_digit()
}

fn are_label_bytes(word: &str) -> bool
    ensures { result ≡ list_all is_label_byte word.now }
{
    word.bytes().all(is_label_byte)
}

fn is_label(word: &str) -> bool
    ensures { result ≡ is_label word.now }
{
    1 <= word.len() && word.len() <= 16 && are_label_bytes(word)
}

/// A label: 1 to 16 lower-case letters and digits.
#[tactic(auto, unfolding(crate::specs::Forms::label_of))]
pub(crate) fn label(alloc: Global, word: &str) -> Result<Option<Txt>, NoMemory>
    ensures { IfOk result (λ found. found ≡ label_of word.now) }
{
    if is_label(word) {
        Ok(Some(text(alloc, word)?))
    } else {
        Ok(None)
    }
}

/// A scope or a unit: `-` is the empty text.
#[tactic(auto, unfolding(crate::specs::Forms::part_of))]
pub(crate) fn part(alloc: Global, word: &str) -> Result<Txt, NoMemory>
    ensures { IfOk result (λ text. text ≡ part_of word.now) }
{
    if word == "-" {
        text(alloc, "")
    } else {
        text(alloc, word)
    }
}

/// A service that is asked for: `*` is any.
#[tactic(auto, unfolding(crate::specs::Forms::unless_star))]
pub(crate) fn unless_star(alloc: Global, word: &str) -> Result<Option<Txt>, NoMemory>
    ensures { IfOk result (λ text. text ≡ unless_star word.now) }
{
    if word == "*" {
        Ok(None)
    } else {
        Ok(Some(text(alloc, word)?))
    }
}

/// A scope that a view asks for: `*` is any, `-` the empty one.
#[tactic(auto, unfolding(crate::specs::Forms::scope_of))]
pub(crate) fn scope(alloc: Global, word: &str) -> Result<Option<Txt>, NoMemory>
    ensures { IfOk result (λ text. text ≡ scope_of word.now) }
{
    if word == "*" {
        Ok(None)
    } else {
        Ok(Some(part(alloc, word)?))
    }
}

/// A new name: `-` is none.
#[tactic(auto, unfolding(crate::specs::Forms::rename_of))]
pub(crate) fn rename(alloc: Global, word: &str) -> Result<Option<Txt>, NoMemory>
    ensures { IfOk result (λ text. text ≡ rename_of word.now) }
{
    if word == "-" {
        Ok(None)
    } else {
        Ok(Some(text(alloc, word)?))
    }
}

/// An instance id, in any of the forms that `uuid` reads.
#[tactic(auto, unfolding(crate::specs::Forms::uuid_of))]
pub(crate) fn instance(word: &str) -> Option<Uuid>
    ensures { result ≡ uuid_of word.now }
{
    Uuid::parse_str(word).ok()
}
