//! Why what a script declares makes no plan: which line declares what is refused, and what the rule is.
use crate::listed::Listed;
use crate::notes::Notes;
use crate::short_word::ShortWord;
use crate::streams::NamedStream;
use attr_kit::{NoMemory, Seq, TryCopy, Txt};
use plan_kit::{Aggregation, Instrument, Kind, NameRule, Plan, PlanFault, View};
use point_kit::Stream;
use std::alloc::Global;
use std::collections::{HashMap, HashSet};

/// Notes why there is no plan. The line of `begin` stands where none is known.
pub(crate) fn why_no_plan(
    alloc: Global,
    listed: &Listed,
    fault: &PlanFault,
    begin: u64,
    notes: &mut Notes,
) -> Result<(), NoMemory> {
    match fault {
        PlanFault::BadName(place) => note_bad_name(alloc, listed, *place, notes),
        PlanFault::BadUnit(place) => note_bad_unit(alloc, listed, *place, notes),
        PlanFault::BadBounds(place) => note_view(
            listed,
            *place,
            "the bounds of a view rise, and are at most 1024",
            notes,
        ),
        PlanFault::BadRename(place) => note_bad_rename(alloc, listed, *place, notes),
        PlanFault::WildcardRename(place) => {
            note_view(
                listed,
                *place,
                "a view of every name gives no new one",
                notes,
            )
        }
        PlanFault::BadAggregation(instrument, view) => {
            note_misfit(alloc, listed, *instrument, *view, notes)
        }
        PlanFault::SameStream(first, second) => {
            note_same_stream(alloc, listed, *first, *second, notes)
        }
        PlanFault::BadLimit => {
            let line = match listed.limit {
                Some((line, _)) => line,
                None => begin,
            };
            notes.add(line, "a limit is at least 1")
        }
        PlanFault::NoMemory => Err(NoMemory),
    }
}

fn note_view(listed: &Listed, place: usize, note: &str, notes: &mut Notes) -> Result<(), NoMemory> {
    match listed.views.get(place) {
        Some((line, _)) => notes.add(*line, note),
        None => Ok(()),
    }
}

fn note_bad_name(
    alloc: Global,
    listed: &Listed,
    place: usize,
    notes: &mut Notes,
) -> Result<(), NoMemory> {
    match listed.instruments.get(place) {
        Some((line, instrument)) => note_no_name(alloc, *line, &instrument.name, notes),
        None => Ok(()),
    }
}

fn note_bad_rename(
    alloc: Global,
    listed: &Listed,
    place: usize,
    notes: &mut Notes,
) -> Result<(), NoMemory> {
    let Some((line, view)) = listed.views.get(place) else {
        return Ok(());
    };
    match &view.rename {
        Some(name) => note_no_name(alloc, *line, name, notes),
        None => Ok(()),
    }
}

fn note_no_name(alloc: Global, line: u64, name: &Txt, notes: &mut Notes) -> Result<(), NoMemory> {
    let name = ShortWord::new(name.as_str());
    let note = format!(in alloc;
        "'{name}' is no name: a name has at most 255 letters, digits, _, ., - and /, a letter first"
    )?;
    notes.add(line, &note)
}

fn note_bad_unit(
    alloc: Global,
    listed: &Listed,
    place: usize,
    notes: &mut Notes,
) -> Result<(), NoMemory> {
    let Some((line, instrument)) = listed.instruments.get(place) else {
        return Ok(());
    };
    let unit = ShortWord::new(instrument.unit.as_str());
    let note = format!(in alloc; "'{unit}' is no unit: a unit has at most 63 characters")?;
    notes.add(*line, &note)
}

// Notes that a view's aggregation does not go with the kind of an instrument that it matches.
fn note_misfit(
    alloc: Global,
    listed: &Listed,
    instrument: usize,
    view: usize,
    notes: &mut Notes,
) -> Result<(), NoMemory> {
    let (Some((declared, instrument)), Some((line, view))) = (
        listed.instruments.get(instrument),
        listed.views.get(view),
    ) else {
        return Ok(());
    };
    let kind = kind_word(instrument.kind);
    let aggregation = aggregation_word(&view.aggregation);
    let note = format!(in alloc;
        "no {kind} has the aggregation '{aggregation}', and this view matches that of line {declared}"
    )?;
    notes.add(*line, &note)
}

fn kind_word(kind: Kind) -> &'static str {
    match kind {
        Kind::Counter => "counter",
        Kind::UpDown => "updown",
        Kind::Gauge => "gauge",
        Kind::Histogram => "histogram",
    }
}

fn aggregation_word(aggregation: &Aggregation) -> &'static str {
    match aggregation {
        Aggregation::Default => "default",
        Aggregation::Sum => "sum",
        Aggregation::LastValue => "last",
        Aggregation::Buckets(_) => "buckets",
        Aggregation::Drop => "drop",
    }
}

// Notes what gives the instruments at two places one stream, or the one at a place twice.
fn note_same_stream(
    alloc: Global,
    listed: &Listed,
    first: usize,
    second: usize,
    notes: &mut Notes,
) -> Result<(), NoMemory> {
    let (Some((declared, one)), Some((line, other))) = (
        listed.instruments.get(first),
        listed.instruments.get(second),
    ) else {
        return Ok(());
    };
    if first == second {
        note_own_stream(alloc, *line, feeds(alloc, listed, one)?, notes)
    } else {
        let earlier = streams_fed(alloc, feeds(alloc, listed, one)?)?;
        for (_, stream) in feeds(alloc, listed, other)? {
            if earlier.contains(&stream) {
                let named = NamedStream::new(&stream);
                let note = format!(in alloc;
                    "the instruments of lines {declared} and {line} have one stream, '{named}'"
                )?;
                return notes.add(*line, &note);
            }
        }
        Ok(())
    }
}

// Notes the first two feeds of the instrument of a line that have one stream.
fn note_own_stream(
    alloc: Global,
    line: u64,
    feeds: Vec<(u64, Stream)>,
    notes: &mut Notes,
) -> Result<(), NoMemory> {
    let mut fed = HashMap::new(alloc);
    for (view, stream) in feeds {
        if let Some(earlier) = fed.get(&stream) {
            let named = NamedStream::new(&stream);
            let note = format!(in alloc;
                "the views of lines {earlier} and {view} give the instrument of line {line} one stream, '{named}'"
            )?;
            return notes.add(view, &note);
        }
        fed.insert(stream, view)?;
    }
    Ok(())
}

fn streams_fed(alloc: Global, feeds: Vec<(u64, Stream)>) -> Result<HashSet<Stream>, NoMemory> {
    let mut streams = HashSet::new(alloc);
    for (_, stream) in feeds {
        streams.insert(stream)?;
    }
    Ok(streams)
}

// The streams of an instrument, each with the line of the view that gives it, or that of the instrument where none does.
fn feeds(
    alloc: Global,
    listed: &Listed,
    instrument: &Instrument,
) -> Result<Vec<(u64, Stream)>, NoMemory> {
    let mut feeds = Vec::new(alloc);
    let mut is_matched = false;
    for (line, view) in &listed.views {
        if matches(view, instrument) {
            is_matched = true;
            let mut views = Vec::new(alloc);
            views.push(view.try_copy()?)?;
            if let Some(stream) = stream_of(alloc, instrument, views)? {
                feeds.push((*line, stream))?;
            }
        }
    }
    if !is_matched {
        if let Some(stream) = stream_of(alloc, instrument, Vec::new(alloc))? {
            feeds.push((0, stream))?;
        }
    }
    Ok(feeds)
}

fn matches(view: &View, instrument: &Instrument) -> bool {
    let is_named = match &view.name {
        NameRule::Every => true,
        NameRule::Exact(name) => name.as_str().eq_ignore_ascii_case(instrument.name.as_str()),
    };
    let is_of_kind = match view.kind {
        Some(kind) => kind == instrument.kind,
        None => true,
    };
    let is_of_scope = match &view.scope {
        Some(scope) => *scope == instrument.scope,
        None => true,
    };
    is_named && is_of_kind && is_of_scope
}

// The stream that an instrument has alone, by a view or without one.
fn stream_of(
    alloc: Global,
    instrument: &Instrument,
    views: Vec<View>,
) -> Result<Option<Stream>, NoMemory> {
    let mut instruments = Vec::new(alloc);
    instruments.push(instrument.try_copy()?)?;
    match Plan::build(alloc, Seq::from_vec(instruments), Seq::from_vec(views), 1) {
        Err(PlanFault::NoMemory) => Err(NoMemory),
        Err(_) => Ok(None),
        Ok(plan) => match plan.stream(0) {
            Some(stream) => Ok(Some(stream.try_copy()?)),
            None => Ok(None),
        },
    }
}
