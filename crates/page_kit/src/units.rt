//! Units by their words.
ghost use Rattle.std.specs.Prelude.{◌≡◌, ◌==◌, ◌≤◌, ◌++◌, ◌∷◌, ℕ, List, length, drop, IfOk, string_bytes};
ghost use Rattle.std.specs.List.{position_or_len, before_first, after_first};
ghost use Rattle.std.specs.Option.{option_map};
ghost use Rattle.page_kit.specs.Units.{outside_from, outside_braces, time_word, binary_word, decimal_word, physical_word, other_word, divisor_word, unit_word, part, of_one, measure, divisor, mark_after, both, unit_name};

use crate::metric::Kind;
use crate::names::{line, trimmed};
use attr_kit::NoMemory;
use std::alloc::Global;

// Adds a byte that stands outside of braces; and whether the next one stands inside.
fn push_outside(bytes: &mut Vec<u8>, byte: u8, inside: bool) -> Result<bool, NoMemory>
    ensures { IfOk result (λ next. (rest : List ℕ) → bytes.new.items ++ outside_from next rest
        ≡ bytes.old.items ++ outside_from inside (byte ∷ rest)) }
{
    if inside {
        return Ok(byte != b'}');
    }
    if byte == b'{' {
        return Ok(true);
    }
    bytes.push(byte)?;
    Ok(false)
}

// What stands outside of braces.
fn outside_braces(alloc: Global, unit: &[u8]) -> Result<Vec<u8>, NoMemory>
    ensures { IfOk result (λ bytes. bytes.items ≡ outside_braces unit.now) }
{
    let mut bytes = Vec::new(alloc);
    let mut inside = false;
    for byte in unit {
        inside = push_outside(&mut bytes, *byte, inside)?;
    }
    Ok(bytes)
}

// The word of a unit of time.
#[tactic(auto, unfolding(crate::specs::Units::time_word))]
fn time_word(unit: &[u8]) -> Option<&'static str>
    ensures { option_map (λ word. word.now) result ≡ time_word unit.now }
{
    match unit {
        b"d" => Some("days"),
        b"h" => Some("hours"),
        b"min" => Some("minutes"),
        b"s" => Some("seconds"),
        b"ms" => Some("milliseconds"),
        b"us" => Some("microseconds"),
        b"ns" => Some("nanoseconds"),
        _ => None,
    }
}

// The word of bytes by powers of 2.
#[tactic(auto, unfolding(crate::specs::Units::binary_word))]
fn binary_word(unit: &[u8]) -> Option<&'static str>
    ensures { option_map (λ word. word.now) result ≡ binary_word unit.now }
{
    match unit {
        b"By" => Some("bytes"),
        b"KiBy" => Some("kibibytes"),
        b"MiBy" => Some("mebibytes"),
        b"GiBy" => Some("gibibytes"),
        b"TiBy" => Some("tibibytes"),
        _ => None,
    }
}

// The word of bytes by powers of 10.
#[tactic(auto, unfolding(crate::specs::Units::decimal_word))]
fn decimal_word(unit: &[u8]) -> Option<&'static str>
    ensures { option_map (λ word. word.now) result ≡ decimal_word unit.now }
{
    match unit {
        b"KBy" => Some("kilobytes"),
        b"MBy" => Some("megabytes"),
        b"GBy" => Some("gigabytes"),
        b"TBy" => Some("terabytes"),
        _ => None,
    }
}

// The word of a physical unit.
#[tactic(auto, unfolding(crate::specs::Units::physical_word))]
fn physical_word(unit: &[u8]) -> Option<&'static str>
    ensures { option_map (λ word. word.now) result ≡ physical_word unit.now }
{
    match unit {
        b"m" => Some("meters"),
        b"V" => Some("volts"),
        b"A" => Some("amperes"),
        b"J" => Some("joules"),
        b"W" => Some("watts"),
        _ => None,
    }
}

// The word of another unit.
#[tactic(auto, unfolding(crate::specs::Units::other_word))]
fn other_word(unit: &[u8]) -> Option<&'static str>
    ensures { option_map (λ word. word.now) result ≡ other_word unit.now }
{
    match unit {
        b"g" => Some("grams"),
        b"Cel" => Some("celsius"),
        b"Hz" => Some("hertz"),
        b"%" => Some("percent"),
        _ => None,
    }
}

// The word of what a quantity is divided by.
#[tactic(auto, unfolding(crate::specs::Units::divisor_word))]
fn divisor_word(unit: &[u8]) -> Option<&'static str>
    ensures { option_map (λ word. word.now) result ≡ divisor_word unit.now }
{
    match unit {
        b"s" => Some("second"),
        b"m" => Some("minute"),
        b"h" => Some("hour"),
        b"d" => Some("day"),
        b"w" => Some("week"),
        b"mo" => Some("month"),
        b"y" => Some("year"),
        _ => None,
    }
}

#[tactic(auto, unfolding(crate::specs::Units::unit_word))]
fn unit_word(unit: &[u8]) -> Option<&'static str>
    ensures { option_map (λ word. word.now) result ≡ unit_word unit.now }
{
    if let Some(word) = time_word(unit) {
        return Some(word);
    }
    if let Some(word) = binary_word(unit) {
        return Some(word);
    }
    if let Some(word) = decimal_word(unit) {
        return Some(word);
    }
    if let Some(word) = physical_word(unit) {
        return Some(word);
    }
    other_word(unit)
}

// A unit as part of a name, by its word where it has one.
#[tactic(auto, unfolding(crate::specs::Units::part))]
fn part(alloc: Global, unit: &[u8], word: Option<&'static str>) -> Result<String, NoMemory>
    ensures { IfOk result (λ text. string_bytes text ≡ part unit.now (option_map (λ word. word.now) word.entry)) }
{
    let text = match word {
        Some(word) => line(alloc, word.as_bytes())?,
        None => line(alloc, unit)?,
    };
    Ok(String::from_str(alloc, trimmed(text.as_str()))?)
}

// The name of the unit 1.
fn of_one(kind: Kind) -> &'static str
    ensures { result.now ≡ of_one kind }
{
    match kind {
        Kind::Gauge => "ratio",
        Kind::Updown | Kind::Counter | Kind::Histogram => "",
    }
}

// What is measured: `ratio` where a gauge has the unit 1.
#[tactic(auto, unfolding(crate::specs::Units::measure))]
fn measure(alloc: Global, unit: &[u8], kind: Kind) -> Result<String, NoMemory>
    ensures { IfOk result (λ text. string_bytes text ≡ measure unit.now kind) }
{
    if unit == b"1".as_slice() {
        return Ok(String::from_str(alloc, of_one(kind))?);
    }
    part(alloc, unit, unit_word(unit))
}

// What it is divided by, with `per_` before it.
#[tactic(auto, unfolding(crate::specs::Units::divisor))]
fn divisor(alloc: Global, unit: &[u8]) -> Result<String, NoMemory>
    ensures { IfOk result (λ text. string_bytes text ≡ divisor unit.now) }
{
    let word = part(alloc, unit, divisor_word(unit))?;
    if word.is_empty() {
        return Ok(word);
    }
    let mut text = String::from_str(alloc, "per_")?;
    text.push_str(word.as_str())?;
    Ok(text)
}

// The place of the first `/`, or the length.
fn slash_at(unit: &[u8]) -> usize
    ensures value { result ≡ position_or_len (λ c. c == 47) unit.now }
    ensures within { result ≤ length unit.now }
{
    for (place, byte) in unit.iter().enumerate() {
        if *byte == b'/' {
            return place;
        }
    }
    unit.len()
}

// What stands behind the first byte.
fn behind(bytes: &[u8]) -> &[u8]
    ensures { result.now ≡ drop 1 bytes.now }
{
    match bytes.split_first() {
        Some((_, rest)) => rest,
        None => bytes,
    }
}

// What stands behind a name before what it is divided by.
fn mark_after(name: &str) -> &'static str
    ensures { result.now ≡ mark_after name.now }
{
    if name.is_empty() { "" } else { "_" }
}

// What is measured, and what it is divided by.
fn both(alloc: Global, name: String, below: &str) -> Result<String, NoMemory>
    ensures { IfOk result (λ text. string_bytes text ≡ both (string_bytes name) below.now) }
{
    if below.is_empty() {
        return Ok(name);
    }
    let mut text = String::from_str(alloc, name.as_str())?;
    text.push_str(mark_after(name.as_str()))?;
    text.push_str(below)?;
    Ok(text)
}

// What stands before the first `/`.
fn front_of(bare: &[u8]) -> &[u8]
    ensures { result.now ≡ before_first (λ c. c == 47) bare.now }
{
    &bare[..slash_at(bare)]
}

// What stands behind it.
fn back_of(bare: &[u8]) -> &[u8]
    ensures { result.now ≡ after_first (λ c. c == 47) bare.now }
{
    behind(&bare[slash_at(bare)..])
}

// The name of a unit without braces.
fn bare_name(alloc: Global, bare: &[u8], kind: Kind) -> Result<String, NoMemory>
    ensures { IfOk result (λ text. string_bytes text
        ≡ both (measure (before_first (λ c. c == 47) bare.now) kind) (divisor (after_first (λ c. c == 47) bare.now))) }
{
    let name = measure(alloc, front_of(bare), kind)?;
    let below = divisor(alloc, back_of(bare))?;
    both(alloc, name, below.as_str())
}

/// The name of a unit: its words, of `a/b` with `per` between them. Of a number without a unit it is empty.
#[tactic(auto, unfolding(crate::specs::Units::unit_name))]
pub(crate) fn unit_name(alloc: Global, unit: &str, kind: Kind) -> Result<String, NoMemory>
    ensures { IfOk result (λ text. string_bytes text ≡ unit_name unit.now kind) }
{
    let bare = outside_braces(alloc, unit.as_bytes())?;
    bare_name(alloc, bare.as_slice(), kind)
}
