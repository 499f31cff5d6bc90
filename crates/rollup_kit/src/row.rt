//! The rows of a roll-up.
use attr_kit::{AttrSet, Seq};

/// What the points of a row come to. A total is wider than a point's value, so that it can't leave its range.
#[derive(Debug, PartialEq, Eq, Drop)]
pub enum Total {
    /// The sum of the points.
    Sum(i128),
    /// The time and the value of the newest point, if there is one.
    Gauge(Option<(u64, i64)>),
    /// The points added up part by part.
    Hist {
        count: u128,
        sum: i128,
        buckets: Seq<u128>,
        /// The least and the greatest value.
        range: Option<(i64, i64)>,
    },
}

/// A row: a set of attributes, and what the points that have it come to.
#[derive(Debug, PartialEq, Eq, Drop)]
pub struct Row {
    pub attrs: AttrSet,
    pub total: Total,
    /// How many points the total is of.
    pub points: u64,
    /// How many keys hold a conflict, of which nothing is in the total.
    pub conflicts: u64,
}
