//! Views: what is made of the recordings of the instruments that they match.
use crate::Kind;
use attr_kit::{Keep, Seq, Txt};

/// Which instrument names a view matches.
#[derive(Debug, PartialEq, Eq, Drop)]
pub enum NameRule {
    /// This name, but for the case of ASCII letters.
    Exact(Txt),
    /// Every name, written `*` in the standard.
    Every,
}

/// What a view makes of the values (OpenTelemetry Metrics SDK, "Aggregation").
#[derive(Debug, PartialEq, Eq, Drop)]
pub enum Aggregation {
    /// The aggregation that goes with the kind of the instrument.
    Default,
    Sum,
    LastValue,
    /// An explicit-bucket histogram with these bounds.
    Buckets(Seq<i64>),
    /// No stream at all.
    Drop,
}

/// A view (OpenTelemetry Metrics SDK, "View"): a name rule, a kind and a scope that an instrument has to match, where they
/// are given, and what is made of its recordings.
#[derive(Debug, PartialEq, Eq, Drop)]
pub struct View {
    pub name: NameRule,
    pub kind: Option<Kind>,
    pub scope: Option<Txt>,
    /// The name of the stream, in place of the instrument's.
    pub rename: Option<Txt>,
    /// The keys of attributes that the stream keeps.
    pub keep: Keep,
    pub aggregation: Aggregation,
}
