//! Feeds: where the recordings of an instrument go.
use attr_kit::Keep;

/// A stream that an instrument feeds, by its number in the plan, and the keys of attributes that it keeps.
#[derive(Debug, PartialEq, Eq, Drop)]
pub struct Feed {
    pub stream: usize,
    pub keep: Keep,
}
