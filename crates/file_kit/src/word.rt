//! Texts as words of a line.
ghost use Rattle.std.specs.Prelude.{◌≡◌, ◌++◌, OnOk, string_bytes};
ghost use Rattle.file_kit.specs.Shown.{escape, escaped, spaced, word_text};

use rollup_kit::push_hex;
use std::alloc::AllocError;

#[tactic(auto, unfolding(crate::specs::Shown::escape))]
fn push_escaped(text: &mut String, c: char) -> Result<(), AllocError>
    ensures { OnOk result (string_bytes text.new ≡ string_bytes text.old ++ escape c) }
{
    let code = c as u32;
    if c == '\\' {
        text.push_str("\\\\")
    } else if code <= 0x20 || code == 0x7f {
        push_hex(text, c)
    } else {
        text.push(c)
    }
}

#[tactic(auto, unfolding(crate::specs::Shown::escaped))]
fn push_all_escaped(text: &mut String, word: &str) -> Result<(), AllocError>
    ensures { OnOk result (string_bytes text.new ≡ string_bytes text.old ++ escaped word.now) }
{
    for c in word.chars() {
        push_escaped(text, c)?;
    }
    Ok(())
}

/// Adds a text as a word: `-` where it is empty.
pub(crate) fn push_word(text: &mut String, word: &str) -> Result<(), AllocError>
    ensures { OnOk result (string_bytes text.new ≡ string_bytes text.old ++ word_text word.now) }
{
    if word.is_empty() {
        text.push('-')
    } else {
        push_all_escaped(text, word)
    }
}

/// Adds a text as a word, and a space.
pub(crate) fn push_spaced(text: &mut String, word: &str) -> Result<(), AllocError>
    ensures { OnOk result (string_bytes text.new ≡ string_bytes text.old ++ spaced word.now) }
{
    push_word(text, word)?;
    text.push(' ')
}
