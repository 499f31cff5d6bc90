//! The cells of a row as they are printed.
ghost use Rattle.std.specs.Prelude.{◌≡◌, ◌++◌, OnOk, string_bytes};
ghost use Rattle.std.specs.List.{list_all};
ghost use Rattle.rollup_kit.specs.RowText.{is_plain, comma_before, key_text, value_text, attributes_text, gauge_text, numbers_text, range_text, total_text};

use crate::Total;
use crate::quote::push_quoted;
use attr_kit::{AttrSet, AttrValue};
use std::alloc::AllocError;

// Whether a key is printed as it is.
fn is_plain_text(key: &str) -> bool
    ensures { result ≡ list_all is_plain key.now }
{
    key.as_bytes().iter().all(|c| c.is_ascii_alphanumeric()
        || matches!(*c, b'_' | b'.' | b'-' | b'/'))
}

#[tactic(auto, unfolding(crate::specs::RowText::key_text))]
fn push_key(text: &mut String, key: &str) -> Result<(), AllocError>
    ensures { OnOk result (string_bytes text.new ≡ string_bytes text.old ++ key_text key.now) }
{
    if is_plain_text(key) {
        text.push_str(key)
    } else {
        push_quoted(text, key)
    }
}

#[tactic(auto, unfolding(crate::specs::RowText::value_text))]
fn push_value(text: &mut String, value: &AttrValue) -> Result<(), AllocError>
    ensures { OnOk result (string_bytes text.new ≡ string_bytes text.old ++ value_text value.now) }
{
    match value {
        AttrValue::Text(unquoted) => push_quoted(text, unquoted.as_str()),
        AttrValue::Truth(true) => text.push_str("true"),
        AttrValue::Truth(false) => text.push_str("false"),
        AttrValue::Whole(number) => write!(text, "{number}"),
    }
}

// What stands before the piece at this place of a list.
fn comma_before(place: usize) -> &'static str
    ensures { result.now ≡ comma_before place }
{
    if place == 0 { "" } else { "," }
}

/// Adds the attribute text: the pairs between braces.
#[tactic(auto, unfolding(crate::specs::RowText::attributes_text))]
pub(crate) fn push_attributes(text: &mut String, attrs: &AttrSet) -> Result<(), AllocError>
    ensures { OnOk result (string_bytes text.new ≡ string_bytes text.old ++ attributes_text attrs.now) }
{
    text.push('{')?;
    for place in 0..attrs.len() {
        if let Some((key, value)) = attrs.pair(place) {
            text.push_str(comma_before(place))?;
            push_key(text, key.as_str())?;
            text.push('=')?;
            push_value(text, value)?;
        }
    }
    text.push('}')
}

fn push_numbers(text: &mut String, numbers: &[u128]) -> Result<(), AllocError>
    ensures { OnOk result (string_bytes text.new ≡ string_bytes text.old ++ numbers_text numbers.now) }
{
    for (place, number) in numbers.iter().enumerate() {
        text.push_str(comma_before(place))?;
        write!(text, "{number}")?;
    }
    Ok(())
}

#[tactic(auto, unfolding(crate::specs::RowText::gauge_text))]
fn push_gauge(text: &mut String, newest: Option<(u64, i64)>) -> Result<(), AllocError>
    ensures { OnOk result (string_bytes text.new ≡ string_bytes text.old ++ gauge_text newest) }
{
    match newest {
        Some((time, value)) => write!(text, "{value}@{time}"),
        None => text.push_str("-"),
    }
}

#[tactic(auto, unfolding(crate::specs::RowText::range_text))]
fn push_range(text: &mut String, range: Option<(i64, i64)>) -> Result<(), AllocError>
    ensures { OnOk result (string_bytes text.new ≡ string_bytes text.old ++ range_text range) }
{
    match range {
        Some((least, greatest)) => write!(text, " min={least} max={greatest}"),
        None => Ok(()),
    }
}

/// Adds the total's text.
#[tactic(auto, unfolding(crate::specs::RowText::total_text))]
pub(crate) fn push_total(text: &mut String, total: &Total) -> Result<(), AllocError>
    ensures { OnOk result (string_bytes text.new ≡ string_bytes text.old ++ total_text total.now) }
{
    match total {
        Total::Sum(sum) => write!(text, "{sum}"),
        Total::Gauge(newest) => push_gauge(text, *newest),
        Total::Hist {
            count,
            sum,
            buckets,
            range,
        } => {
            write!(text, "count={count} sum={sum} buckets=")?;
            push_numbers(text, buckets.as_slice())?;
            push_range(text, *range)
        }
    }
}
