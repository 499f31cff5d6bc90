//! Words that stand for numbers: decimal digits without a leading zero, `0` itself aside.
ghost use Rattle.std.specs.Prelude.{◌≡◌, ◌^◌};
ghost use Rattle.std.specs.Str.{all_ascii_digits};
ghost use Rattle.script_kit.specs.Numbers.{number_of, value_of, is_numeral};

fn are_digits(word: &str) -> bool
    ensures { result ≡ all_ascii_digits word.now }
{
    word.bytes().all(|b| b.is_ascii_digit())
}

pub(crate) fn is_numeral(word: &str) -> bool
    ensures { result ≡ is_numeral word.now }
{
    let bytes = word.as_bytes();
    are_digits(word) && !bytes.is_empty() && (bytes.len() == 1 || bytes[0] != b'0')
}

/// The number of 64 bits that a word of digits stands for.
pub(crate) fn u64_of(word: &str) -> Option<u64>
    ensures { result ≡ number_of (2 ^ 64) word.now }
{
    if is_numeral(word) {
        word.parse().ok()
    } else {
        None
    }
}

/// The number of 32 bits that a word of digits stands for.
pub(crate) fn u32_of(word: &str) -> Option<u32>
    ensures { result ≡ number_of (2 ^ 32) word.now }
{
    if is_numeral(word) {
        word.parse().ok()
    } else {
        None
    }
}

/// The whole number that a word stands for: digits, with `-` in front where it is below 0.
pub(crate) fn i64_of(word: &str) -> Option<i64>
    ensures { result ≡ value_of word.now }
{
    match word.strip_prefix('-') {
        Some(digits) => {
            if is_numeral(digits) && digits != "0" {
                word.parse().ok()
            } else {
                None
            }
        }
        None => {
            if is_numeral(word) {
                word.parse().ok()
            } else {
                None
            }
        }
    }
}
