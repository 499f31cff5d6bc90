//! Texts in quotes.
ghost use Rattle.std.specs.Prelude.{◌≡◌, ◌++◌, ◌<◌, false, OnOk, string_bytes};
ghost use Rattle.std.specs.Fmt.{digit_glyph};
ghost use Rattle.rollup_kit.specs.Quote.{escape, hex, quotation};

use std::alloc::AllocError;

// A digit below 16, `a` to `f` from ten on.
fn hex_digit(digit: u32) -> char
    requires { digit < 16 }
    ensures glyph { result ≡ digit_glyph false digit }
    ensures ascii { result < 128 }
{
    let digit = digit as u8;
    if digit < 10 {
        (b'0' + digit) as char
    } else {
        (b'a' + (digit - 10)) as char
    }
}

/// Adds a character below 256 as `\x` and the two hexadecimal digits of its number.
///
/// Refused: `AllocError`.
pub fn push_hex(text: &mut String, c: char) -> Result<(), AllocError>
    requires { c < 256 }
    ensures { OnOk result (string_bytes text.new ≡ string_bytes text.old ++ hex c) }
{
    let code = c as u32;
    text.push_str("\\x")?;
    text.push(hex_digit(code / 16))?;
    text.push(hex_digit(code % 16))
}

#[tactic(auto, unfolding(crate::specs::Quote::escape))]
fn push_escaped(text: &mut String, c: char) -> Result<(), AllocError>
    ensures { OnOk result (string_bytes text.new ≡ string_bytes text.old ++ escape c) }
{
    let code = c as u32;
    if c == '"' {
        text.push_str("\\\"")
    } else if c == '\\' {
        text.push_str("\\\\")
    } else if code < 0x20 || code == 0x7f {
        push_hex(text, c)
    } else {
        text.push(c)
    }
}

/// Adds a text in quotes.
#[tactic(auto, unfolding(crate::specs::Quote::quotation))]
pub(crate) fn push_quoted(text: &mut String, unquoted: &str) -> Result<(), AllocError>
    ensures { OnOk result (string_bytes text.new ≡ string_bytes text.old ++ quotation unquoted.now) }
{
    text.push('"')?;
    for c in unquoted.chars() {
        push_escaped(text, c)?;
    }
    text.push('"')
}
