//! Whether an export could bring a cell: what `Export::build` refuses is refused here.
ghost use Rattle.std.specs.Prelude.{◌≡◌, ◌==◌, sum, Some, None};
ghost use Rattle.bytes_kit.specs.MessageFits.{cell_fault, cells_fault, histogram_fault, payload_fault};

use point_kit::{Cell, ExportFault, Held, Key, Payload, Shape};

// Whether the numbers add up to the total.
fn adds_up(numbers: &[u64], total: u64) -> bool
    ensures { result ≡ (sum numbers.now == total) }
{
    let mut rest = total;
    for number in numbers {
        if *number > rest {
            return false;
        }
        rest -= *number;
    }
    rest == 0
}

// Why no histogram of these bounds has these values.
fn histogram_fault(
    place: usize,
    bounds: &[i64],
    count: u64,
    total: i64,
    buckets: &[u64],
    range: Option<(i64, i64)>,
) -> Option<ExportFault>
    ensures { result ≡ histogram_fault place bounds.now count total buckets.now range }
{
    if buckets.is_empty() || buckets.len() - 1 != bounds.len() {
        return Some(ExportFault::BucketCount(place));
    }
    if !adds_up(buckets, count) {
        return Some(ExportFault::CountMismatch(place));
    }
    if total < 0 {
        return Some(ExportFault::NegativeTotal(place));
    }
    match range {
        Some((least, greatest)) if count == 0 || greatest < least => {
            Some(ExportFault::BadRange(place))
        }
        _ => None,
    }
}

// Why no export has a payload of this shape.
fn payload_fault(place: usize, shape: &Shape, payload: &Payload) -> Option<ExportFault>
    ensures { result ≡ payload_fault place shape.now payload.now }
{
    match (shape, payload) {
        (Shape::Sum { monotonic }, Payload::Sum(sum)) => {
            if *monotonic && *sum < 0 {
                Some(ExportFault::NegativeTotal(place))
            } else {
                None
            }
        }
        (Shape::Gauge, Payload::Gauge(_)) => None,
        (
            Shape::Histogram { bounds },
            Payload::Hist {
                count,
                sum,
                buckets,
                range,
            },
        ) => histogram_fault(
            place,
            bounds.as_slice(),
            *count,
            *sum,
            buckets.as_slice(),
            *range,
        ),
        _ => Some(ExportFault::WrongShape(place)),
    }
}

// Why no export brings a cell under a key.
fn cell_fault(place: usize, key: &Key, cell: &Cell) -> Option<ExportFault>
    ensures { result ≡ cell_fault place (key.now, cell.now) }
{
    if cell.time <= key.start {
        return Some(ExportFault::TimeNotAfterStart);
    }
    match &cell.held {
        Held::One(payload) => payload_fault(place, &key.stream.shape, payload),
        Held::Conflict => None,
    }
}

/// The reason of the first cell of which there is one, which no export brings.
pub(crate) fn cells_fault(entries: &[(Key, Cell)]) -> Option<ExportFault>
    ensures { result ≡ cells_fault 0 entries.now }
{
    for place in 0..entries.len() {
        let (key, cell) = &entries[place];
        if let Some(fault) = cell_fault(place, key, cell) {
            return Some(fault);
        }
    }
    None
}
