//! Whether two values are the same to whoever reads them.
use agg_kit::Tally;
use attr_kit::AttrSet;
use point_kit::Payload;
use writer_kit::Writer;

fn are_same_points(one: Option<(&AttrSet, &Payload)>, other: Option<(&AttrSet, &Payload)>) -> bool {
    match (one, other) {
        (Some((attrs, payload)), Some((others, other))) => *attrs == *others && *payload == *other,
        (None, None) => true,
        _ => false,
    }
}

fn are_same_series(one: &Tally, other: &Tally, stream: usize) -> bool {
    let len = one.series_len(stream);
    len == other.series_len(stream)
        && (0..len.unwrap_or(0)).all(|place| are_same_points(
            one.entry(stream, place),
            other.entry(stream, place),
        ))
}

/// Whether both have the same points in the same order, in each stream, and as many held points.
pub fn are_same_tallies(one: &Tally, other: &Tally) -> bool {
    let streams = one.plan().streams_len();
    streams == other.plan().streams_len()
        && one.held_len() == other.held_len()
        && (0..streams).all(|stream| are_same_series(one, other, stream))
}

/// Whether both writers are the same incarnation at the same point.
pub fn are_same_writers(one: &Writer, other: &Writer) -> bool {
    one.id() == other.id()
        && one.start_time() == other.start_time()
        && one.last() == other.last()
        && one.closed() == other.closed()
        && are_same_tallies(one.tally(), other.tally())
}
