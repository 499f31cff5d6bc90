//! Lines as events.
use crate::event::{Event, Span, Sums};
use crate::fault::LineFault;
use attr_kit::{NoMemory, Txt};
use point_kit::WriterId;
use std::alloc::Global;
use std::num::ParseIntError;
use uuid::Uuid;

/// How many points an export of a worker has where its line does not say it.
const POINTS: u32 = 3;

/// The writer of a service and an instance.
pub fn writer_of(alloc: Global, service: &str, instance: u128) -> Result<WriterId, NoMemory> {
    Ok(WriterId {
        service: Txt::from_str(alloc, service)?,
        instance: Uuid::from_u128(instance),
    })
}

// The writer that a word tells.
fn writer(alloc: Global, word: &str) -> Result<WriterId, LineFault> {
    let Some((service, instance)) = word.split_once('/') else {
        return Err(LineFault::Writer);
    };
    let instance: u64 = instance.parse()?;
    Ok(writer_of(alloc, service, u128::from(instance))?)
}

fn archive(alloc: Global, words: &[&str]) -> Result<Event, LineFault> {
    let [archive, id, start, limit] = words else {
        return Err(LineFault::Words);
    };
    Ok(Event::Archive {
        archive: archive.parse()?,
        start: start.parse()?,
        limit: limit.parse()?,
        writer: writer(alloc, id)?,
    })
}

// How many points an export has, by the words behind its value.
fn points(words: &[&str]) -> Result<u32, LineFault> {
    match words {
        [] => Ok(POINTS),
        [points] => Ok(points.parse()?),
        _ => Err(LineFault::Words),
    }
}

fn take(alloc: Global, words: &[&str]) -> Result<Event, LineFault> {
    let [keeper, id, start, time, value, others @ ..] = words else {
        return Err(LineFault::Words);
    };
    Ok(Event::Take {
        keeper: keeper.parse()?,
        sums: Sums {
            start: start.parse()?,
            time: time.parse()?,
            value: value.parse()?,
            points: points(others)?,
            writer: writer(alloc, id)?,
        },
    })
}

fn adopt(alloc: Global, words: &[&str]) -> Result<Event, LineFault> {
    let [archive, keeper, id, start] = words else {
        return Err(LineFault::Words);
    };
    Ok(Event::Adopt {
        archive: archive.parse()?,
        keeper: keeper.parse()?,
        start: start.parse()?,
        writer: writer(alloc, id)?,
    })
}

// An event of three numbers.
fn soak(words: &[&str]) -> Result<Event, LineFault> {
    let [incarnations, points, every] = words else {
        return Err(LineFault::Words);
    };
    Ok(Event::Soak(Span {
        incarnations: incarnations.parse()?,
        points: points.parse()?,
        every: every.parse()?,
    }))
}

// An event of one number.
fn of_one(name: &str, word: &str) -> Result<Event, LineFault> {
    let number: usize = word.parse()?;
    match name {
        "keepers" => Ok(Event::Keepers(word.parse()?)),
        "hand" => Ok(Event::Hand(number)),
        "show" => Ok(Event::Show(number)),
        "points" => Ok(Event::Points(number)),
        "page" => Ok(Event::Page(number)),
        _ => Err(LineFault::Words),
    }
}

// An event of a number and a time.
fn timed(name: &str, archive: usize, word: &str) -> Result<Event, ParseIntError> {
    let time: u64 = word.parse()?;
    Ok(if name == "export" {
        Event::Export { archive, time }
    } else {
        Event::Seal {
            archive,
            start: time,
        }
    })
}

// An event of two numbers.
fn of_two(name: &str, first: &str, second: &str) -> Result<Event, LineFault> {
    let one: usize = first.parse()?;
    if name == "export" || name == "seal" {
        return Ok(timed(name, one, second)?);
    }
    let other: usize = second.parse()?;
    match name {
        "give" => Ok(Event::Give {
            export: one,
            keeper: other,
        }),
        "merge" => Ok(Event::Merge { keeper: one, other }),
        "send" => Ok(Event::Send {
            from: one,
            to: other,
        }),
        "same" => Ok(Event::Same { keeper: one, other }),
        _ => Err(LineFault::Words),
    }
}

// The event of a name and the words behind it.
fn named(alloc: Global, name: &str, words: &[&str]) -> Result<Event, LineFault> {
    match name {
        "archive" => archive(alloc, words),
        "take" => take(alloc, words),
        "adopt" => adopt(alloc, words),
        "soak" => soak(words),
        _ => match words {
            [word] => of_one(name, word),
            [first, second] => of_two(name, first, second),
            _ => Err(LineFault::Words),
        },
    }
}

/// The event of a line, if it says one.
pub fn event_of(alloc: Global, line: &str) -> Result<Option<Event>, LineFault> {
    if line.is_empty() || line.starts_with('#') {
        return Ok(None);
    }
    let words: Vec<&str> = line.split(' ').collect(alloc)?;
    match words.as_slice() {
        [name, others @ ..] => Ok(Some(named(alloc, name, others)?)),
        [] => Ok(None),
    }
}
