//! What the kit hands out, read without a table.
ghost use Rattle.std.specs.Prelude.{◌≡◌, ◌≢◌, ◌∷◌, [], List, None, Some, true, IfSome, IsTrue};
ghost use Rattle.std.specs.Borrow.{Bor};
ghost use Rattle.std.specs.FinMap.{entries};
ghost use Rattle.std.specs.Map.{values_of};
ghost use Rattle.attr_kit.specs.declared.attr_value.AttrValue.TheVariants as values;
ghost use Rattle.gateway_kit.specs.Listing.{held_incarnations, held_of_ref, held_services};
ghost use Rattle.gateway_kit.specs.Walks.{keyed_cell_of_ref};
ghost use Rattle.plan_kit.specs.Plans.{feeds_of};
ghost use Rattle.plan_kit.specs.declared.feed.Feed.{Feed};
ghost use Rattle.std.specs.declared.cmp.Ordering.TheVariants as orders;
ghost use Rattle.point_kit.specs.declared.payload.Payload.TheVariants as payloads;
ghost use Rattle.point_kit.specs.declared.shape.Shape.TheVariants as shapes;
ghost use Rattle.rollup_kit.specs.declared.row.Row.{Row};
ghost use Rattle.rollup_kit.specs.declared.row.Total.TheVariants as totals;
ghost use Rattle.round_kit.specs.Placed.{stream_of};
ghost use Rattle.round_kit.specs.Rounds.{point_of};
ghost use Rattle.round_kit.specs.declared.payload.RoundHistogram.{RoundHistogram};
ghost use Rattle.round_kit.specs.declared.payload.RoundPayload.TheVariants as parts;

use gateway_kit::{Gateway, IncarnationRef, Incarnations, PointRef, Points, Services};
use plan_kit::{Feed, Plan};
use point_kit::Ordered;
use rollup_kit::{Row, Total};
use round_kit::{
    RoundHistogram, RoundPayload, RoundPoint, RoundSet, RoundShape, RoundStream, RoundText,
    RoundValue,
};
use std::cmp::Ordering;

/// The sum of the only row; none where there is no row or more than one, or where it is of a gauge or a histogram.
pub fn only_sum(rows: &[Row]) -> Option<i128>
    ensures { IfSome result (λ n. (row : Row) × (rows.now ≡ row ∷ []) × (row.total ≡ totals.Sum n)) }
{
    match rows {
        [
            Row {
                total: Total::Sum(sum),
                ..
            },
        ] => Some(*sum),
        _ => None,
    }
}

/// The sum of a point of a round, read in the arena: nothing is copied out. None where it is of a gauge or a histogram.
pub fn sum_of_point(point: &RoundPoint<'_>) -> Option<i64>
    ensures { IfSome result (λ n. (point_of point.now).payload ≡ payloads.Sum n) }
{
    match point.payload {
        RoundPayload::Sum(sum) => Some(sum),
        RoundPayload::Gauge(_) | RoundPayload::Hist(_) => None,
    }
}

/// The least and the greatest value of a histogram in a round; none where it has no values, or the point is no histogram.
pub fn range_of_point(point: &RoundPoint<'_>) -> Option<(i64, i64)>
    ensures { IfSome result (λ range. (h : Bor RoundHistogram) × (point.now.payload ≡ parts.Hist h) × (h.now.range ≡ Some range)) }
{
    match point.payload {
        RoundPayload::Hist(RoundHistogram { range, .. }) => *range,
        RoundPayload::Sum(_) | RoundPayload::Gauge(_) => None,
    }
}

/// Whether the points of a stream are those of a counter.
pub fn is_of_counter(stream: &RoundStream<'_>) -> bool
    ensures { IsTrue result → (stream_of stream.now).shape ≡ shapes.Sum true }
{
    match stream.shape {
        RoundShape::Sum { monotonic } => monotonic,
        RoundShape::Gauge | RoundShape::Histogram { .. } => false,
    }
}

/// The number of the only attribute of a set in a round; none where it is no number, or the set has more or none.
pub fn only_number(set: &RoundSet<'_>) -> Option<i64>
    ensures { IfSome result (λ n. values_of set.now ≡ values.Whole n ∷ []) }
{
    match set.values() {
        [value] => match value {
            RoundValue::Whole(number) => Some(*number),
            _ => None,
        },
        _ => None,
    }
}

/// The text of the only attribute of a set in a round; none where it is no text, or the set has more or none.
pub fn only_text<'s>(set: &'s RoundSet<'_>) -> Option<&'s str>
    ensures { IfSome result (λ text. values_of set.now ≡ values.Text text.now ∷ []) }
{
    match set.values() {
        [value] => match value {
            RoundValue::Short(text) => Some(RoundText::as_str(text)),
            RoundValue::Long(text) => Some(*text),
            RoundValue::Truth(_) | RoundValue::Whole(_) => None,
        },
        _ => None,
    }
}

/// The first point of a gateway, in the order of keys; none where the gateway holds nothing.
pub fn first_point(gateway: &Gateway) -> Option<PointRef<'_>>
    ensures nothing { result ≡ None → entries gateway.now.points ≡ [] }
    ensures first { IfSome result (λ point. (rest : List _) × (entries gateway.now.points ≡ keyed_cell_of_ref point ∷ rest)) }
{
    let mut points: Points<'_> = gateway.points();
    points.next()
}

/// The first incarnation of which a gateway holds points, in the order of keys; none where it holds nothing.
pub fn first_incarnation(gateway: &Gateway) -> Option<IncarnationRef<'_>>
    ensures nothing { result ≡ None → held_incarnations gateway.now.points ≡ [] }
    ensures first { IfSome result (λ first. (rest : List _) × (held_incarnations gateway.now.points ≡ held_of_ref first ∷ rest)) }
{
    let mut incarnations: Incarnations<'_> = gateway.incarnations();
    incarnations.next()
}

/// The first service of which a gateway holds points, in order; none where it holds nothing.
pub fn first_service(gateway: &Gateway) -> Option<&str>
    ensures nothing { result ≡ None → held_services gateway.now.points ≡ [] }
    ensures first { IfSome result (λ first. (rest : List _) × (held_services gateway.now.points ≡ first.now ∷ rest)) }
{
    let mut services: Services<'_> = gateway.services();
    services.next()
}

/// The number of the only stream that an instrument feeds; none where it feeds none, or more than one.
pub fn only_stream(plan: &Plan, instrument: usize) -> Option<usize>
    ensures { IfSome result (λ n. (feed : Feed) × (feeds_of plan.now instrument ≡ feed ∷ []) × (feed.stream ≡ n)) }
{
    match plan.feeds(instrument)? {
        [Feed { stream, .. }] => Some(*stream),
        _ => None,
    }
}

/// The one of two writers, streams or keys that comes first where they are sorted; the first of the two where they are equal.
pub fn first_of<'a, T: Ordered>(one: &'a T, other: &'a T) -> &'a T
    ensures after { T.order one.now other.now ≡ orders.Greater → result.now ≡ other.now }
    ensures before { T.order one.now other.now ≢ orders.Greater → result.now ≡ one.now }
{
    match one.cmp(other) {
        Ordering::Greater => other,
        Ordering::Less | Ordering::Equal => one,
    }
}
