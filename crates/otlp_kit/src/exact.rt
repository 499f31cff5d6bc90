//! Whole numbers of doubles, after IEEE 754: binary64.
ghost use Rattle.std.specs.Prelude.{◌≡◌, ◌≢◌, ◌<◌, ◌^◌, ◌++◌, [], ◌∷◌, Ok, Err, IfOk, IfErr, OnOk};
ghost use Rattle.otlp_kit.specs.Exact.{exact_size, exact};
ghost use Rattle.otlp_kit.specs.Reading.{add_bound, bounds_of, range_of, sum_of};
ghost use Rattle.otlp_kit.specs.Walks.{walk};

use crate::refusals::are_rising;
use crate::{RequestFault, RequestReason};
use attr_kit::NoMemory;
use std::alloc::Global;

// The digits of a double behind the first.
const FRACTION_BITS: u32 = 52;

const SIGN_BIT: u64 = 1 << 63;

// The exponent of 1.
const BIAS: u64 = 1023;

// That of infinities, and of what is no number.
const NOT_FINITE: u64 = 2047;

// The size, by the exponent and the digits behind the first, of a double of this point.
fn exact_size(point: usize, exponent: u64, fraction: u64) -> Result<u64, RequestFault>
    requires exponent { exponent < 2 ^ 11 }
    requires fraction { fraction < 2 ^ 52 }
    ensures value { result ≡ exact_size point exponent fraction }
    ensures bound { IfOk result (λ size. size < 2 ^ 53) }
{
    if exponent == 0 && fraction == 0 {
        return Ok(0);
    }
    if exponent < BIAS || exponent == NOT_FINITE {
        return Err(RequestReason::NotWhole.at(point));
    }
    if exponent > BIAS + FRACTION_BITS as u64 {
        return Err(RequestReason::Inexact.at(point));
    }
    // What 1 is in the last digit.
    let unit = 1 << (BIAS + FRACTION_BITS as u64 - exponent);
    let digits = (1 << FRACTION_BITS) + fraction;
    if digits % unit != 0 {
        return Err(RequestReason::NotWhole.at(point));
    }
    Ok(digits / unit)
}

/// The whole number below 2^53 in size that a double of this point is.
#[tactic(auto, unfolding(crate::specs::Exact::exact))]
pub(crate) fn exact(point: usize, bits: u64) -> Result<i64, RequestFault>
    ensures { result ≡ exact point bits }
{
    let exponent = (bits >> FRACTION_BITS) % 2048;
    let size = exact_size(point, exponent, bits % (1 << FRACTION_BITS))? as i64;
    Ok(if bits >= SIGN_BIT { -size } else { size })
}

/// The sum of a histogram, which must be there.
pub(crate) fn sum_of(point: usize, sum: Option<u64>) -> Result<i64, RequestFault>
    ensures { result ≡ sum_of point sum }
{
    match sum {
        Some(bits) => exact(point, bits),
        None => Err(RequestReason::NoSum.at(point)),
    }
}

/// The least value and the greatest of a histogram: both, or neither.
pub(crate) fn range_of(
    point: usize,
    least: Option<u64>,
    greatest: Option<u64>,
) -> Result<Option<(i64, i64)>, RequestFault>
    ensures { result ≡ range_of point least greatest }
{
    match (least, greatest) {
        (Some(least), Some(greatest)) => Ok(Some((exact(point, least)?, exact(point, greatest)?))),
        (None, None) => Ok(None),
        _ => Err(RequestReason::HalfRange.at(point)),
    }
}

fn push_bound(bounds: &mut Vec<i64>, bound: i64) -> Result<(), NoMemory>
    ensures { OnOk result (bounds.new.items ≡ bounds.old.items ++ bound ∷ []) }
{
    bounds.push(bound)?;
    Ok(())
}

// The whole numbers of doubles.
#[tactic(auto, unfolding(crate::specs::Walks::walk))]
fn all_exact(alloc: Global, point: usize, doubles: &[u64]) -> Result<Vec<i64>, RequestFault>
    ensures ok { IfOk result (λ bounds. walk (add_bound point) [] doubles.now ≡ Ok bounds.items) }
    ensures err { IfErr result (λ f. f.why ≢ RequestReason.NoMemory → walk (add_bound point) [] doubles.now ≡ Err f) }
{
    let mut bounds = Vec::new(alloc);
    for bits in doubles {
        push_bound(&mut bounds, exact(point, *bits)?)?;
    }
    Ok(bounds)
}

/// The bounds of a histogram, which must strictly rise.
pub(crate) fn bounds_of(
    alloc: Global,
    point: usize,
    doubles: &[u64],
) -> Result<Vec<i64>, RequestFault>
    ensures ok { IfOk result (λ bounds. bounds_of point doubles.now ≡ Ok bounds.items) }
    ensures err { IfErr result (λ f. f.why ≢ RequestReason.NoMemory → bounds_of point doubles.now ≡ Err f) }
{
    let bounds = all_exact(alloc, point, doubles)?;
    if !are_rising(bounds.as_slice()) {
        return Err(RequestReason::BadBounds.at(point));
    }
    Ok(bounds)
}
