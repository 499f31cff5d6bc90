//! What the points of one row come to so far.
ghost use Rattle.std.specs.Prelude.{◌≡◌, ◌+◌, ◌*◌, ◌^◌, ◌<◌, IfOk, Some};
ghost use Rattle.rollup_kit.specs.Groups.{no_group, with_held, with_payload, with_sum, with_value, with_histogram, later_value};
ghost use Rattle.rollup_kit.specs.Walks.{row_read};

use crate::buckets::Buckets;
use crate::extent::Extent;
use crate::{Row, Total};
use attr_kit::{AttrSet, NoMemory};
use point_kit::{Cell, Held, Payload, Shape};
use std::alloc::Global;
use std::marker::Model;

/// What the points of one row come to so far.
#[derive(Debug, Drop)]
pub struct Group {
    pub(crate) sum: i128,
    pub(crate) count: u128,
    pub(crate) buckets: Buckets,
    pub(crate) span: Extent,
    pub(crate) newest: Option<(u64, i64)>,
    pub(crate) points: u64,
    pub(crate) conflicts: u64,
}

impl Model for Group {
    ghost use Rattle.rollup_kit.specs.Groups.{Grouped, IsBounded};

    ghost Value = { Grouped };

    ghost view = { λ g. record { sum = g.sum; count = g.count; buckets = g.buckets; span = g.span; newest = g.newest; points = g.points; conflicts = g.conflicts } };

    ghost invariant = { λ g. IsBounded g.sum g.count g.buckets g.points };
}

impl Group {
    /// Of no points.
    pub(crate) fn empty(alloc: Global, buckets: usize) -> Result<Group, NoMemory>
        ensures { IfOk result (λ group. group ≡ no_group buckets) }
    {
        Ok(Group {
            sum: 0,
            count: 0,
            buckets: Buckets::empty(alloc, buckets)?,
            span: Extent::Empty,
            newest: None,
            points: 0,
            conflicts: 0,
        })
    }

    /// Adds what is held under a key that is greater than those before.
    pub(crate) fn add(&mut self, cell: &Cell)
        requires points { self.old.points + 1 < 2 ^ 64 }
        requires conflicts { self.old.conflicts + 1 < 2 ^ 64 }
        ensures { self.new ≡ with_held self.old cell.now.time cell.now.held }
    {
        match &cell.held {
            Held::One(payload) => self.add_payload(cell.time, payload),
            Held::Conflict => self.conflicts += 1,
        }
    }

    /// The row of a set of attributes, by the shape that is asked for. Takes no memory.
    pub(crate) fn into_row(self, attrs: AttrSet, shape: &Shape) -> Row
        ensures { result ≡ row_read shape.now attrs self }
    {
        let Group {
            sum,
            count,
            buckets,
            span,
            newest,
            points,
            conflicts,
        } = self;
        let total = match shape {
            Shape::Sum { .. } => Total::Sum(sum),
            Shape::Gauge => Total::Gauge(newest),
            Shape::Histogram { .. } => Total::Hist {
                count,
                sum,
                buckets: buckets.into_seq(),
                range: span.range(),
            },
        };
        Row {
            attrs,
            total,
            points,
            conflicts,
        }
    }

    fn add_payload(&mut self, time: u64, payload: &Payload)
        requires { self.old.points + 1 < 2 ^ 64 }
        ensures { self.new ≡ with_payload self.old time payload.now }
    {
        match payload {
            Payload::Sum(sum) => self.add_sum(*sum),
            Payload::Gauge(value) => self.add_value(time, *value),
            Payload::Hist {
                count,
                sum,
                buckets,
                range,
            } => self.add_histogram(*count, *sum, buckets.as_slice(), *range),
        }
    }

    fn add_sum(&mut self, sum: i64)
        requires { self.old.points + 1 < 2 ^ 64 }
        ensures { self.new ≡ with_sum self.old sum }
    {
        self.sum += i128::from(sum);
        self.points += 1;
    }

    fn add_value(&mut self, time: u64, value: i64)
        requires { self.old.points + 1 < 2 ^ 64 }
        ensures { self.new ≡ with_value self.old time value }
    {
        self.newest = Some(later(self.newest, time, value));
        self.points += 1;
    }

    fn add_histogram(&mut self, count: u64, sum: i64, buckets: &[u64], range: Option<(i64, i64)>)
        requires { self.old.points + 1 < 2 ^ 64 }
        ensures { self.new ≡ with_histogram self.old count sum buckets.now range }
    {
        self.sum += i128::from(sum);
        self.count += u128::from(count);
        self.buckets.add(buckets);
        self.span = self.span.join(Extent::of(count, range));
        self.points += 1;
    }
}

// The newest of a value and one whose key is greater.
fn later(newest: Option<(u64, i64)>, time: u64, value: i64) -> (u64, i64)
    ensures { result ≡ later_value newest (time, value) }
{
    match newest {
        Some(held) if time < held.0 => held,
        _ => (time, value),
    }
}
