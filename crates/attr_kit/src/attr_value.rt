//! The value of an attribute.
use crate::Txt;

/// The value of an attribute: a text, a truth or a whole number.
///
/// Of the value types of the OpenTelemetry common specification these are string, boolean and signed 64-bit integer;
/// floating point, arrays and maps are left out. Every text is below every truth, and every truth below every whole number;
/// within one kind texts go by their bytes, false below true, and numbers by their size.
#[derive(Debug, PartialEq, Eq, PartialOrd, Ord, Hash, Drop)]
pub enum AttrValue {
    /// A text in UTF-8, which may be empty.
    Text(Txt),
    /// A truth.
    Truth(bool),
    /// A whole number.
    Whole(i64),
}
