//! From the least to the greatest of a histogram's values.
ghost use Rattle.std.specs.Prelude.{◌≡◌};
ghost use Rattle.rollup_kit.specs.Extents.{span_of, join_spans, range_of};

/// The values of histogram points, from the least to the greatest.
#[derive(Clone, Copy, Debug, PartialEq, Eq)]
pub enum Extent {
    /// There are no values.
    Empty,
    /// The least and the greatest.
    Known(i64, i64),
    /// Some point has values and doesn't tell their range.
    Unknown,
}

impl Extent {
    /// The values of a point.
    pub(crate) fn of(count: u64, range: Option<(i64, i64)>) -> Extent
        ensures { result ≡ span_of count range }
    {
        match range {
            _ if count == 0 => Extent::Empty,
            Some((least, greatest)) => Extent::Known(least, greatest),
            None => Extent::Unknown,
        }
    }

    /// The values of both.
    pub(crate) fn join(self, other: Extent) -> Extent
        ensures { result ≡ join_spans self other }
    {
        match (self, other) {
            (Extent::Empty, _) => other,
            (_, Extent::Empty) => self,
            (Extent::Known(least, greatest), Extent::Known(low, high)) => {
                Extent::Known(least.min(low), greatest.max(high))
            }
            _ => Extent::Unknown,
        }
    }

    /// The range, where it is known.
    pub(crate) fn range(self) -> Option<(i64, i64)>
        ensures { result ≡ range_of self }
    {
        match self {
            Extent::Known(least, greatest) => Some((least, greatest)),
            Extent::Empty | Extent::Unknown => None,
        }
    }
}
