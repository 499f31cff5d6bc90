//! The rules of names and units.
ghost use Rattle.std.specs.Prelude.{◌≡◌};
ghost use Rattle.std.specs.Char.{is_ascii};
ghost use Rattle.std.specs.List.{list_all};
ghost use Rattle.plan_kit.specs.Names.{is_name, is_unit, is_name_byte, begins_with_letter, lower};

use attr_kit::Txt;

/// How many characters a name may have.
const LONGEST_NAME: usize = 255;

/// How many characters a unit may have.
const LONGEST_UNIT: usize = 63;

fn is_in_names(byte: u8) -> bool
    ensures { result ≡ is_name_byte byte }
{
    byte.is_ascii_alphanumeric() || byte == b'_' || byte == b'.' || byte == b'-' || byte == b'/'
}

fn has_letter_first(bytes: &[u8]) -> bool
    ensures { result ≡ begins_with_letter bytes.now }
{
    match bytes.first() {
        Some(byte) => byte.is_ascii_alphabetic(),
        None => false,
    }
}

fn all_in_names(bytes: &[u8]) -> bool
    ensures { result ≡ list_all is_name_byte bytes.now }
{
    bytes.iter().all(|byte| is_in_names(*byte))
}

fn all_ascii(bytes: &[u8]) -> bool
    ensures { result ≡ list_all is_ascii bytes.now }
{
    bytes.iter().all(|byte| byte.is_ascii())
}

/// Whether a text is a name of an instrument or of a stream (OpenTelemetry Metrics API, "Instrument name syntax").
#[tactic(auto, unfolding(crate::specs::Names::is_name))]
pub(crate) fn is_good_name(text: &Txt) -> bool
    ensures { result ≡ is_name text.now }
{
    let bytes = text.as_str().as_bytes();
    bytes.len() <= LONGEST_NAME && has_letter_first(bytes) && all_in_names(bytes)
}

/// Whether a text is a unit (OpenTelemetry Metrics API, "Instrument unit").
#[tactic(auto, unfolding(crate::specs::Names::is_unit))]
pub(crate) fn is_good_unit(text: &Txt) -> bool
    ensures { result ≡ is_unit text.now }
{
    let bytes = text.as_str().as_bytes();
    bytes.len() <= LONGEST_UNIT && all_ascii(bytes)
}

/// The text with the letters of ASCII in lower case, in place: takes no memory.
pub(crate) fn in_lower_case(text: Txt) -> Txt
    ensures { result ≡ lower text }
{
    text.into_ascii_lowercase()
}
