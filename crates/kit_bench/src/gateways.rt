//! Exports of many keys, and gateways that hold them.
use attr_kit::{AttrSet, AttrValue, Seq, Txt};
use gateway_kit::Gateway;
use point_kit::{Export, ExportPoint, Payload, Shape, SharedStream, Stream, WriterId};
use std::alloc::Global;
use uuid::Uuid;

/// The stream of requests.
pub fn requests(alloc: Global) -> anyhow::Result<SharedStream> {
    let stream = Stream {
        scope: Txt::from_str(alloc, "app")?,
        name: Txt::from_str(alloc, "requests")?,
        unit: Txt::from_str(alloc, "1")?,
        shape: Shape::Sum { monotonic: true },
    };
    Ok(SharedStream::new(alloc, stream)?)
}

/// The sets of an export's points, each of which has a number.
#[derive(Clone, Copy)]
pub enum Sets {
    /// One pair, of the number.
    Numbers,
    /// 4 pairs, in no order.
    Scattered,
    /// 4 pairs; sets whose numbers tie by the number of routes share their route.
    Routes(u32),
}

/// The key of a set's route: neither the first nor the last of its set.
pub const ROUTE: &str = "route";

// A key and its text, the text being a word and a number.
fn pair(alloc: Global, key: &str, word: &str, number: u32) -> anyhow::Result<(Txt, AttrValue)> {
    let text = format!(in alloc; "{word}{number}")?;
    Ok((
        Txt::from_str(alloc, key)?,
        AttrValue::Text(Txt::from_string(text)),
    ))
}

// A set of such pairs. One function over a table, since each exit of a function drops all that it owns then, and is proved.
fn set_of_texts(alloc: Global, texts: &[(&str, &str, u32)]) -> anyhow::Result<AttrSet> {
    let mut pairs = Vec::new(alloc);
    for (key, word, number) in texts {
        pairs.push(pair(alloc, key, word, *number)?)?;
    }
    Ok(AttrSet::from_pairs(pairs)?)
}

// Sets of numbers that rise have no order: an odd factor scatters them over all numbers of 32 bits.
fn scattered_set(alloc: Global, number: u32) -> anyhow::Result<AttrSet> {
    let texts = [
        ("host", "h", number.wrapping_mul(2_654_435_761)),
        ("method", "m", number % 4),
        (ROUTE, "r", number % 100),
        ("zone", "z", number % 3),
    ];
    set_of_texts(alloc, &texts)
}

fn routed_set(alloc: Global, number: u32, routes: u32) -> anyhow::Result<AttrSet> {
    let routes = routes.max(1);
    let texts = [
        ("host", "h", number / routes),
        ("method", "m", number % 4),
        (ROUTE, "/api/r", number % routes),
        ("zone", "z", number % 3),
    ];
    set_of_texts(alloc, &texts)
}

/// The set of a number.
pub fn set(alloc: Global, sets: Sets, number: u32) -> anyhow::Result<AttrSet> {
    match sets {
        Sets::Numbers => {
            let value = AttrValue::Whole(i64::from(number));
            Ok(AttrSet::single(alloc, Txt::from_str(alloc, "k")?, value)?)
        }
        Sets::Scattered => scattered_set(alloc, number),
        Sets::Routes(routes) => routed_set(alloc, number, routes),
    }
}

// A point of a number, which is also its value.
fn point(
    alloc: Global,
    stream: &SharedStream,
    sets: Sets,
    number: u32,
) -> anyhow::Result<ExportPoint> {
    Ok(ExportPoint {
        attrs: set(alloc, sets, number)?,
        stream: stream.try_copy()?,
        payload: Payload::Sum(i64::from(number)),
    })
}

/// Which of consecutive numbers an export has.
#[derive(Clone, Copy)]
pub enum Which {
    All,
    /// All but one of each thousand.
    Most,
    /// One of each hundred.
    Few,
}

/// The keys of an export: sets of consecutive numbers, or of some of them.
#[derive(Clone, Copy)]
pub struct Keys {
    pub sets: Sets,
    pub from: u32,
    pub count: u32,
    pub which: Which,
}

impl Keys {
    /// Of so many numbers from 0 on.
    pub fn first(sets: Sets, count: u32) -> Keys {
        Keys {
            sets,
            from: 0,
            count,
            which: Which::All,
        }
    }

    /// Some of the same numbers.
    pub fn only(self, which: Which) -> Keys {
        Keys { which, ..self }
    }

    /// As many from another number on.
    pub fn starting(self, from: u32) -> Keys {
        Keys { from, ..self }
    }

    fn has(&self, number: u32) -> bool {
        match self.which {
            Which::All => true,
            Which::Most => number % 1_000 != 500,
            Which::Few => number % 100 == 0,
        }
    }

    /// How many there are.
    pub fn len(&self) -> u32 {
        let mut len: u32 = 0;
        for number in self.from..self.from.saturating_add(self.count) {
            if self.has(number) {
                len = len.saturating_add(1);
            }
        }
        len
    }
}

/// The points of a stream with these keys.
pub fn points(
    alloc: Global,
    stream: &SharedStream,
    keys: Keys,
) -> anyhow::Result<Vec<ExportPoint>> {
    let mut points = Vec::new(alloc);
    for number in keys.from..keys.from.saturating_add(keys.count) {
        if keys.has(number) {
            points.push(point(alloc, stream, keys.sets, number)?)?;
        }
    }
    Ok(points)
}

/// The writer of every export.
pub fn writer(alloc: Global) -> anyhow::Result<WriterId> {
    Ok(WriterId {
        service: Txt::from_str(alloc, "shop")?,
        instance: Uuid::from_u128(1),
    })
}

/// When an export's incarnation began, and when it was collected.
#[derive(Clone, Copy)]
pub struct Times {
    pub begin: u64,
    pub time: u64,
}

impl Times {
    /// A collection of the writer's first incarnation.
    pub fn at(time: u64) -> Times {
        Times { begin: 100, time }
    }
}

/// An export of one writer with these keys.
pub fn export_of(alloc: Global, times: Times, keys: Keys) -> anyhow::Result<Export> {
    let points = points(alloc, &requests(alloc)?, keys)?;
    let Times { begin, time } = times;
    Ok(Export::build(alloc, writer(alloc)?, begin, time, Seq::from_vec(points))?)
}

/// A gateway that took such an export.
pub fn holding(alloc: Global, times: Times, keys: Keys) -> anyhow::Result<Gateway> {
    let mut gateway = Gateway::new(alloc, 1);
    gateway.take(&export_of(alloc, times, keys)?)?;
    Ok(gateway)
}
