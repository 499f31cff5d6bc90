//! The rows of a roll-up, of its groups.
ghost use Rattle.std.specs.Prelude.{◌≡◌, IfOk, map};
ghost use Rattle.rollup_kit.specs.Walks.{buckets_of, row_read};

use crate::Row;
use crate::group::Group;
use attr_kit::{AttrSet, NoMemory, Seq};
use point_kit::Shape;
use std::alloc::Global;

/// How many buckets a row has: for a histogram one more than bounds.
pub(crate) fn buckets_for(shape: &Shape) -> usize
    ensures { result ≡ buckets_of shape.now }
{
    match shape {
        Shape::Sum { .. } | Shape::Gauge => 0,
        Shape::Histogram { bounds } => bounds.as_vec().len() + 1,
    }
}

/// The groups as rows, in their order.
pub(crate) fn rows_of(
    alloc: Global,
    shape: &Shape,
    groups: Vec<(AttrSet, Group)>,
) -> Result<Seq<Row>, NoMemory>
    ensures { IfOk result (λ rows. rows ≡ map (λ e. row_read shape.now e.0 e.1) groups.items) }
{
    let mut rows = Vec::with_capacity(alloc, groups.len())?;
    for (attrs, group) in groups {
        rows.push(group.into_row(attrs, shape))?;
    }
    Ok(Seq::from_vec(rows))
}
