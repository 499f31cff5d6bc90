//! Worked rounds: the order of points, copies that outlive the arena, and no points at all. What scripts show of rounds,
//! as later collections, views, whole histograms and sets of other keys, are rows of tests/examples.
use super::*;
use agg_kit::Tally;
use attr_kit::{AttrSet, AttrValue, NoMemory, Seq, Txt};
use bumpalo::Bump;
use plan_kit::{DEFAULT_LIMIT, Instrument, Kind, Plan};
use point_kit::{Export, Payload, WriterId};
use std::alloc::Global;
use std::test::Fail;
use uuid::Uuid;

// A text of more bytes than a value of a round holds in itself.
const LONG: &str = "a text of thirty-one bytes here";

fn writer(alloc: Global) -> Result<WriterId, NoMemory> {
    Ok(WriterId {
        service: Txt::from_str(alloc, "shop")?,
        instance: Uuid::from_u128(2),
    })
}

fn instrument(alloc: Global, name: &str, kind: Kind) -> Result<Instrument, NoMemory> {
    Ok(Instrument {
        scope: Txt::from_str(alloc, "app")?,
        name: Txt::from_str(alloc, name)?,
        unit: Txt::from_str(alloc, "1")?,
        kind,
    })
}

// A counter `requests`, a gauge `level` and a histogram `size`.
fn instruments(alloc: Global) -> Result<Seq<Instrument>, NoMemory> {
    let mut instruments = Vec::new(alloc);
    let kinds = [
        ("requests", Kind::Counter),
        ("level", Kind::Gauge),
        ("size", Kind::Histogram),
    ];
    for (name, kind) in kinds {
        instruments.push(instrument(alloc, name, kind)?)?;
    }
    Ok(Seq::from_vec(instruments))
}

// The set of the pair `route` = the text.
fn route(alloc: Global, text: &str) -> Result<AttrSet, NoMemory> {
    let value = AttrValue::Text(Txt::from_str(alloc, text)?);
    AttrSet::single(alloc, Txt::from_str(alloc, "route")?, value)
}

// Recordings: the place of an instrument, a route and a value.
fn record(alloc: Global, tally: &mut Tally, entries: &[(usize, &str, i64)]) -> Result<(), Fail> {
    for (instrument, text, value) in entries {
        let attrs = route(alloc, text)?;
        tally.measure(*instrument, &attrs, *value)?;
    }
    Ok(())
}

// A tally after these recordings.
fn recorded(alloc: Global, entries: &[(usize, &str, i64)]) -> Result<Tally, Fail> {
    let plan = Plan::build(alloc, instruments(alloc)?, Seq::new(alloc), DEFAULT_LIMIT)?;
    let mut tally = Tally::new(alloc, plan)?;
    record(alloc, &mut tally, entries)?;
    Ok(tally)
}

// The last value of a gauge, and the total of a sum or a histogram.
fn total_of(payload: &Payload) -> i64 {
    match payload {
        Payload::Sum(sum) => *sum,
        Payload::Gauge(value) => *value,
        Payload::Hist { sum, .. } => *sum,
    }
}

// The text of a set's first pair, or no text.
fn route_of(attrs: &AttrSet) -> &str {
    match attrs.pairs().first() {
        Some((_, AttrValue::Text(text))) => text.as_str(),
        _ => "",
    }
}

// The stream's name, the route and the total of the point at a place.
fn point_at(export: &Export, place: usize) -> Option<(&str, &str, i64)> {
    let point = export.points().get(place)?;
    let name = point.stream.get().name.as_str();
    Some((name, route_of(&point.attrs), total_of(&point.payload)))
}

// The same of a round.
fn placed_at<'b>(round: &Round<'b>, place: usize) -> Option<(&'b str, &'b str, i64)> {
    let point = round.points().get(place)?;
    let route = match point.attrs.values().first() {
        Some(value) => value.text().unwrap_or(""),
        None => "",
    };
    let total = match point.payload {
        RoundPayload::Sum(sum) => sum,
        RoundPayload::Gauge(value) => value,
        RoundPayload::Hist(histogram) => histogram.sum,
    };
    Some((point.stream.name, route, total))
}

// Whether a round has these points in this order.
fn is_placed(round: &Round<'_>, wanted: &[(&str, &str, i64)]) -> bool {
    for (place, point) in wanted.iter().enumerate() {
        if placed_at(round, place) != Some(*point) {
            return false;
        }
    }
    round.len() == wanted.len()
}

// Whether an export has them.
fn is_copied(export: &Export, wanted: &[(&str, &str, i64)]) -> bool {
    for (place, point) in wanted.iter().enumerate() {
        if point_at(export, place) != Some(*point) {
            return false;
        }
    }
    export.points().len() == wanted.len()
}

// The copy of a tally's round of a start and a time, which has these points.
fn copied(
    alloc: Global,
    tally: &Tally,
    (start, time): (u64, u64),
    wanted: &[(&str, &str, i64)],
) -> Result<Export, Fail> {
    if start >= time {
        return Err(Fail::new("the time is not after the start"));
    }
    let bump = Bump::new(alloc);
    let round = place(&bump, tally, start, time)?;
    if (round.start(), round.time()) != (start, time) || !is_placed(&round, wanted) {
        return Err(Fail::new("the round has other points"));
    }
    Ok(round.copy_out(alloc, &writer(alloc)?)?)
}

// Whether a round and its copy, which is looked at when the arena is gone, have these points after these recordings.
fn is_shown(
    alloc: Global,
    entries: &[(usize, &str, i64)],
    (start, time): (u64, u64),
    wanted: &[(&str, &str, i64)],
) -> Result<bool, Fail> {
    let tally = recorded(alloc, entries)?;
    let export = copied(alloc, &tally, (start, time), wanted)?;
    let is_of_writer = *export.writer() == writer(alloc)?;
    let is_at_times = (export.start(), export.time()) == (start, time);
    Ok(is_of_writer && is_at_times && is_copied(&export, wanted))
}

#[test]
fn points_go_by_streams_and_then_by_their_first_recordings(rt: HostRuntime) -> Result<(), Fail> {
    let entries = [
        (2, "a", 7),
        (1, "a", -4),
        (0, LONG, 3),
        (0, "a", 2),
        (0, LONG, 1),
    ];
    let wanted = [
        ("requests", LONG, 4),
        ("requests", "a", 2),
        ("level", "a", -4),
        ("size", "a", 7),
    ];
    assert!(rt; is_shown(rt.alloc(), &entries, (100, 200), &wanted)?);
    Ok(())
}

#[test]
fn a_tally_without_recordings_has_no_points(rt: HostRuntime) -> Result<(), Fail> {
    assert!(rt; is_shown(rt.alloc(), &[], (u64::MAX - 1, u64::MAX), &[])?);
    Ok(())
}
