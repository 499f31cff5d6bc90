//! The samples of histograms.
ghost use Rattle.std.specs.Prelude.{◌≡◌, ◌++◌, ◌∷◌, [], ◌+◌, ◌<◌, ◌≤◌, ◌^◌, ◌==◌, if◌then◌else◌, length, take, IfOk, OnOk, string_bytes};
ghost use Rattle.std.specs.Fmt.{signed_decimal};
ghost use Rattle.std.specs.Str.{IsAscii};
ghost use Rattle.page_kit.specs.Bounds.{values_up_to};
ghost use Rattle.page_kit.specs.Lines.{sample};
ghost use Rattle.page_kit.specs.Rows.{without_zeros, point_behind, mantissa, two_digits, scientific, bound_text, le, bucket, histogram};
ghost use Rattle.page_kit.specs.Totals.{sum_of, count_of};
ghost use Rattle.page_kit.specs.Views.{Appends, cells};

use crate::bounds::values_up_to;
use crate::labels::Label;
use crate::text::push_sample;
use crate::totals::{count_of, sum_of};
use attr_kit::{NoMemory, Txt};
use gateway_kit::PointRef;
use std::alloc::Global;

// How many digits there are so far without zeros at the end, with one digit more.
fn len_with(len: usize, place: usize, digit: u8) -> usize
    requires { place + 1 < 2 ^ 64 }
    ensures { result ≡ (if digit == 48 then len else place + 1) }
{
    if digit == b'0' { len } else { place + 1 }
}

// How many digits there are without zeros at the end.
fn significant(digits: &[u8]) -> usize
    ensures within { result ≤ length digits.now }
    ensures value { take result digits.now ≡ without_zeros digits.now }
{
    let mut len = 0;
    for (place, digit) in digits.iter().enumerate() {
        len = len_with(len, place, *digit);
    }
    len
}

// What stands behind the digit at this place.
fn point_behind(place: usize, len: usize) -> &'static str
    ensures { result.now ≡ point_behind place len }
{
    if place == 0 && len > 1 { "." } else { "" }
}

// Adds the first digit, and the others behind a point.
fn push_mantissa(text: &mut String, digits: &[u8]) -> Result<(), NoMemory>
    requires { IsAscii digits.now }
    ensures { OnOk result (Appends text.old text.new (mantissa digits.now)) }
{
    for (place, digit) in digits.iter().enumerate() {
        text.push(*digit as char)?;
        text.push_str(point_behind(place, digits.len()))?;
    }
    Ok(())
}

// Adds a number in at least two digits.
fn push_two_digits(text: &mut String, number: usize) -> Result<(), NoMemory>
    ensures { OnOk result (Appends text.old text.new (two_digits number)) }
{
    if number < 10 {
        text.push('0')?;
    }
    write!(text, "{number}")?;
    Ok(())
}

#[tactic(auto, unfolding(crate::specs::Rows::scientific))]
fn scientific(alloc: Global, digits: &[u8]) -> Result<String, NoMemory>
    requires { IsAscii digits.now }
    ensures { IfOk result (λ text. string_bytes text ≡ scientific digits.now) }
{
    let mut text = String::new(alloc);
    push_mantissa(&mut text, &digits[..significant(digits)])?;
    text.push_str("e+")?;
    push_two_digits(&mut text, digits.len().saturating_sub(1))?;
    Ok(text)
}

// A bound as `le` has it: the canonical number of OpenMetrics.
#[tactic(auto, unfolding(crate::specs::Rows::bound_text))]
fn bound_text(alloc: Global, bound: i64) -> Result<String, NoMemory>
    ensures { IfOk result (λ text. string_bytes text ≡ bound_text bound) }
{
    let mut digits = format!(in alloc; "{bound}")?;
    if bound < 1000000 {
        digits.push_str(".0")?;
        return Ok(digits);
    }
    scientific(alloc, digits.as_bytes())
}

// Labels with that of a bucket's bound behind them.
fn with_bound(alloc: Global, labels: &[Label], bound: &str) -> Result<Vec<Label>, NoMemory>
    ensures { IfOk result (λ all. all.items ≡ labels.now ++ le bound.now ∷ []) }
{
    let mut all = Vec::with_capacity(alloc, labels.len())?;
    for label in labels {
        all.push(label.try_copy()?)?;
    }
    all.push(Label {
        name: Txt::from_str(alloc, "le")?,
        value: Txt::from_str(alloc, bound)?,
    })?;
    Ok(all)
}

// Adds a bucket: how many values are not above its bound.
#[tactic(auto, unfolding(crate::specs::Rows::bucket))]
fn push_bucket(
    text: &mut String,
    alloc: Global,
    name: &str,
    labels: &[Label],
    bound: &str,
    count: u128,
) -> Result<(), NoMemory>
    ensures { OnOk result (Appends text.old text.new (bucket name.now labels.now bound.now count)) }
{
    let labels = with_bound(alloc, labels, bound)?;
    let number = format!(in alloc; "{count}")?;
    push_sample(text, name, "_bucket", labels.as_slice(), number.as_str())?;
    Ok(())
}

/// Adds a sample of the sum of all.
pub(crate) fn push_sum(
    text: &mut String,
    alloc: Global,
    name: &str,
    ending: &str,
    labels: &[Label],
    points: &[PointRef],
) -> Result<(), NoMemory>
    ensures { OnOk result (Appends text.old text.new
        (sample (name.now ++ ending.now) labels.now (signed_decimal (sum_of (cells points.now))))) }
{
    let sum = sum_of(points);
    let number = format!(in alloc; "{sum}")?;
    push_sample(text, name, ending, labels, number.as_str())?;
    Ok(())
}

/// The samples of a row: its buckets, its sum and its count.
#[tactic(auto, unfolding(crate::specs::Rows::histogram))]
pub(crate) fn push_histogram(
    text: &mut String,
    alloc: Global,
    name: &str,
    labels: &[Label],
    bounds: &[i64],
    points: &[PointRef],
) -> Result<(), NoMemory>
    ensures { OnOk result (Appends text.old text.new (histogram name.now labels.now bounds.now (cells points.now))) }
{
    for bound in bounds {
        let le = bound_text(alloc, *bound)?;
        let count = values_up_to(bound, points);
        push_bucket(text, alloc, name, labels, le.as_str(), count)?;
    }
    let count = count_of(points);
    push_bucket(text, alloc, name, labels, "+Inf", count)?;
    push_sum(text, alloc, name, "_sum", labels, points)?;
    let number = format!(in alloc; "{count}")?;
    push_sample(text, name, "_count", labels, number.as_str())?;
    Ok(())
}
