//! Whole numbers as doubles, after IEEE 754: binary64, roundTiesToEven.
ghost use Rattle.std.specs.Prelude.{◌≡◌, ◌<◌, ◌≤◌, ◌^◌};
ghost use Rattle.otlp_kit.specs.Doubles.{unit, goes_up, rounded_size, rounded, double_size, double};

// The digits of a double behind the first.
const FRACTION_BITS: u32 = 52;

// Set in the double of a number below 0.
const SIGN_BIT: u64 = 1 << 63;

// The exponent of 1.
const BIAS: u64 = 1023;

// How much the last digit is that a double keeps.
fn unit(m: u64) -> u64
    requires { m ≤ 2 ^ 63 }
    ensures value { result ≡ unit m }
    ensures bound { result ≤ 2 ^ 11 }
    ensures some { 0 < result }
{
    1 << (64 - m.leading_zeros()).saturating_sub(FRACTION_BITS + 1)
}

// Whether what is lost is more than half a unit, or half of one above an odd number of them.
fn goes_up(unit: u64, kept: u64, lost: u64) -> bool
    requires { lost < 2 ^ 11 }
    ensures { result ≡ goes_up unit kept lost }
{
    unit < 2 * lost || (2 * lost == unit && kept % 2 == 1)
}

// The nearest number of 53 binary digits; of two that are equally near, the one whose last digit is even.
fn rounded_size(m: u64) -> u64
    requires { m ≤ 2 ^ 63 }
    ensures value { result ≡ rounded_size m }
    ensures some { 0 < m → 0 < result }
{
    let unit = unit(m);
    let kept = m / unit;
    if goes_up(unit, kept, m % unit) {
        return (kept + 1) * unit;
    }
    kept * unit
}

/// The value of the double of a number.
pub(crate) fn rounded(n: i64) -> i128
    ensures { result ≡ rounded n }
{
    let size = i128::from(rounded_size(n.unsigned_abs()));
    if n < 0 { -size } else { size }
}

// The bits of the double of a number of 53 binary digits.
fn double_size(m: u64) -> u64
    requires { 0 < m }
    ensures value { result ≡ double_size m }
    ensures bound { result < 2 ^ 63 }
{
    let exponent = 63 - m.leading_zeros();
    let digits = ((m as u128) << FRACTION_BITS) >> exponent;
    ((exponent as u64 + BIAS) << FRACTION_BITS) + (digits as u64 - (1 << FRACTION_BITS))
}

/// The bits of the double that is nearest to a number.
pub(crate) fn double(n: i64) -> u64
    ensures { result ≡ double n }
{
    if n == 0 {
        return 0;
    }
    let size = double_size(rounded_size(n.unsigned_abs()));
    if n < 0 {
        return SIGN_BIT + size;
    }
    size
}
