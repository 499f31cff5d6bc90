//! Pages of what gateways hold, as an encoder that shares no code with this one made them. Prometheus' readers take each.
use super::*;
use attr_kit::{AttrSet, AttrValue, NoMemory, Seq, Txt};
use gateway_kit::Gateway;
use point_kit::{Cell, Held, Key, Payload, Shape, Stream, WriterId};
use std::alloc::Global;
use std::test::Fail;
use uuid::Uuid;

// The metadata of the kit's own families. A page is a list of parts, one behind the other.
const CONFLICTS: &str = "# TYPE kotskhin_conflicts gauge
# HELP kotskhin_conflicts Keys that hold a conflict. A row that has one is not shown.
";

const KEYS: &str = "# TYPE kotskhin_keys gauge
# HELP kotskhin_keys Keys that are held.
";

const LEFT_OUT: &str = "# TYPE kotskhin_left_out gauge
# HELP kotskhin_left_out Keys of metrics that are not shown, since another metric has one of their names.
";

const NEWEST: &str = "# TYPE kotskhin_newest_seconds gauge
# UNIT kotskhin_newest_seconds seconds
# HELP kotskhin_newest_seconds Time of the newest point of a service, since the Unix epoch.
";

const NEWEST_AS_TEXT: &str = "# TYPE kotskhin_newest_seconds gauge
# HELP kotskhin_newest_seconds Time of the newest point of a service, since the Unix epoch.
";

const END: &str = "# EOF
";

// The metadata of the others.
const REQUESTS: &str = "# TYPE requests counter
# HELP requests requests (1)
";

const REQUESTS_AS_TEXT: &str = "# TYPE requests_total counter
# HELP requests_total requests (1)
";

const SIZE: &str = "# TYPE size_bytes histogram
# UNIT size_bytes bytes
# HELP size_bytes size (By)
";

const QUEUE: &str = "# TYPE queue gauge
# HELP queue queue
";

// Two services, two instances and two incarnations.
const FIRST_ROWS: &str =
    "requests_total{http_route=\"/a\",otel_scope_name=\"app\",service_name=\"shop\"} 3
requests_total{otel_scope_name=\"app\",service_name=\"shop\"} 42
requests_total{otel_scope_name=\"app\",service_name=\"till\"} 1000
";

const FIRST_KEYS: &str = "kotskhin_keys 6
";

const FIRST_NEWEST: &str = "kotskhin_newest_seconds{service_name=\"shop\"} 0.000000500
kotskhin_newest_seconds{service_name=\"till\"} 1700000060.123456789
";

const FIRST: [&str; 9] = [
    REQUESTS,
    FIRST_ROWS,
    CONFLICTS,
    KEYS,
    FIRST_KEYS,
    LEFT_OUT,
    NEWEST,
    FIRST_NEWEST,
    END,
];

const FIRST_AS_TEXT: [&str; 8] = [
    REQUESTS_AS_TEXT,
    FIRST_ROWS,
    CONFLICTS,
    KEYS,
    FIRST_KEYS,
    LEFT_OUT,
    NEWEST_AS_TEXT,
    FIRST_NEWEST,
];

// Nothing is held.
const NO_KEYS: &str = "kotskhin_keys 0
";

const NOTHING: [&str; 6] = [CONFLICTS, KEYS, NO_KEYS, LEFT_OUT, NEWEST, END];

// A point, and the tombstone of an archive, that is newer.
const ADOPTED: &str = "# TYPE adopted_nanoseconds gauge
# UNIT adopted_nanoseconds nanoseconds
# HELP adopted_nanoseconds adopted (ns)
adopted_nanoseconds{otel_scope_name=\"kotskhin.archive\",service_name=\"shop\",start=\"100\"} 500
";

const ARCHIVED_ROWS: &str = "requests_total{otel_scope_name=\"app\",service_name=\"shop\"} 7
";

const ARCHIVED_KEYS: &str = "kotskhin_keys 2
";

const ARCHIVED_NEWEST: &str = "kotskhin_newest_seconds{service_name=\"shop\"} 0.000000500
";

const ARCHIVED: [&str; 10] = [
    ADOPTED,
    REQUESTS,
    ARCHIVED_ROWS,
    CONFLICTS,
    KEYS,
    ARCHIVED_KEYS,
    LEFT_OUT,
    NEWEST,
    ARCHIVED_NEWEST,
    END,
];

// The same without the tombstone, in both formats.
const UNARCHIVED_KEYS: &str = "kotskhin_keys 1
";

const UNARCHIVED_NEWEST: &str = "kotskhin_newest_seconds{service_name=\"shop\"} 0.000000200
";

const UNARCHIVED: [&str; 9] = [
    REQUESTS,
    ARCHIVED_ROWS,
    CONFLICTS,
    KEYS,
    UNARCHIVED_KEYS,
    LEFT_OUT,
    NEWEST,
    UNARCHIVED_NEWEST,
    END,
];

const UNARCHIVED_AS_TEXT: [&str; 8] = [
    REQUESTS_AS_TEXT,
    ARCHIVED_ROWS,
    CONFLICTS,
    KEYS,
    UNARCHIVED_KEYS,
    LEFT_OUT,
    NEWEST_AS_TEXT,
    UNARCHIVED_NEWEST,
];

// Conflicts: of counters, of a gauge, and of a histogram beside a row of it that has none.
const TORN_ROWS: &str = "requests_total{k=\"v\",otel_scope_name=\"app\",service_name=\"shop\"} 7
";

const TORN_SIZES: &str = "size_bytes_bucket{k=\"v\",service_name=\"shop\",le=\"1.0\"} 1
size_bytes_bucket{k=\"v\",service_name=\"shop\",le=\"+Inf\"} 1
size_bytes_sum{k=\"v\",service_name=\"shop\"} 1
size_bytes_count{k=\"v\",service_name=\"shop\"} 1
";

const TEMP: &str = "# TYPE temp_celsius gauge
# UNIT temp_celsius celsius
# HELP temp_celsius temp (Cel)
";

const TORN_CONFLICTS: &str =
    "kotskhin_conflicts{kind=\"counter\",name=\"requests\",otel_scope_name=\"app\",service_name=\"shop\",unit=\"1\"} 1
kotskhin_conflicts{kind=\"counter\",name=\"requests\",otel_scope_name=\"app\",service_name=\"till\",unit=\"1\"} 2
kotskhin_conflicts{kind=\"gauge\",name=\"temp\",otel_scope_name=\"app\",service_name=\"shop\",unit=\"Cel\"} 1
kotskhin_conflicts{kind=\"histogram\",name=\"size\",service_name=\"shop\",unit=\"By\"} 1
";

const TORN_KEYS: &str = "kotskhin_keys 8
";

const TORN_NEWEST: &str = "kotskhin_newest_seconds{service_name=\"shop\"} 0.000000200
kotskhin_newest_seconds{service_name=\"till\"} 0.000000200
";

const TORN: [&str; 13] = [
    REQUESTS,
    TORN_ROWS,
    SIZE,
    TORN_SIZES,
    TEMP,
    CONFLICTS,
    TORN_CONFLICTS,
    KEYS,
    TORN_KEYS,
    LEFT_OUT,
    NEWEST,
    TORN_NEWEST,
    END,
];

// A gateway's life, which tests/interop/live.py serves to a Prometheus: two workers count.
const BEGUN_QUEUE: &str = "queue{otel_scope_name=\"app\",service_name=\"shop\"} 5
";

const BEGUN_ROWS: &str = "requests_total{otel_scope_name=\"app\",service_name=\"shop\"} 107
";

const BEGUN_SIZES: &str =
    "size_bytes_bucket{otel_scope_name=\"app\",service_name=\"shop\",le=\"1.0\"} 2
size_bytes_bucket{otel_scope_name=\"app\",service_name=\"shop\",le=\"+Inf\"} 3
size_bytes_sum{otel_scope_name=\"app\",service_name=\"shop\"} 9
size_bytes_count{otel_scope_name=\"app\",service_name=\"shop\"} 3
";

const BEGUN_KEYS: &str = "kotskhin_keys 4
";

const BEGUN_NEWEST: &str = "kotskhin_newest_seconds{service_name=\"shop\"} 0.000000200
";

const LIFE_BEGUN: [&str; 13] = [
    QUEUE,
    BEGUN_QUEUE,
    REQUESTS,
    BEGUN_ROWS,
    SIZE,
    BEGUN_SIZES,
    CONFLICTS,
    KEYS,
    BEGUN_KEYS,
    LEFT_OUT,
    NEWEST,
    BEGUN_NEWEST,
    END,
];

// A conflict came: two totals of one worker at one time.
const TWICE_CONFLICTS: &str =
    "kotskhin_conflicts{kind=\"counter\",name=\"requests\",otel_scope_name=\"app\",service_name=\"shop\",unit=\"1\"} 1
";

const TWICE_NEWEST: &str = "kotskhin_newest_seconds{service_name=\"shop\"} 0.000000300
";

const LIFE_TWICE: [&str; 13] = [
    QUEUE,
    BEGUN_QUEUE,
    REQUESTS,
    SIZE,
    BEGUN_SIZES,
    CONFLICTS,
    TWICE_CONFLICTS,
    KEYS,
    BEGUN_KEYS,
    LEFT_OUT,
    NEWEST,
    TWICE_NEWEST,
    END,
];

// It went: a later total of that worker.
const LATER_ROWS: &str = "requests_total{otel_scope_name=\"app\",service_name=\"shop\"} 109
";

const LATER_NEWEST: &str = "kotskhin_newest_seconds{service_name=\"shop\"} 0.000000400
";

const LIFE_LATER: [&str; 13] = [
    QUEUE,
    BEGUN_QUEUE,
    REQUESTS,
    LATER_ROWS,
    SIZE,
    BEGUN_SIZES,
    CONFLICTS,
    KEYS,
    BEGUN_KEYS,
    LEFT_OUT,
    NEWEST,
    LATER_NEWEST,
    END,
];

// The other worker restarted: it counts from 0 again, in a new incarnation.
const AGAIN_ROWS: &str = "requests_total{otel_scope_name=\"app\",service_name=\"shop\"} 110
";

const AGAIN_SIZES: &str =
    "size_bytes_bucket{otel_scope_name=\"app\",service_name=\"shop\",le=\"1.0\"} 3
size_bytes_bucket{otel_scope_name=\"app\",service_name=\"shop\",le=\"+Inf\"} 5
size_bytes_sum{otel_scope_name=\"app\",service_name=\"shop\"} 20
size_bytes_count{otel_scope_name=\"app\",service_name=\"shop\"} 5
";

const AGAIN_KEYS: &str = "kotskhin_keys 6
";

const AGAIN_NEWEST: &str = "kotskhin_newest_seconds{service_name=\"shop\"} 0.000000600
";

const LIFE_AGAIN: [&str; 13] = [
    QUEUE,
    BEGUN_QUEUE,
    REQUESTS,
    AGAIN_ROWS,
    SIZE,
    AGAIN_SIZES,
    CONFLICTS,
    KEYS,
    AGAIN_KEYS,
    LEFT_OUT,
    NEWEST,
    AGAIN_NEWEST,
    END,
];

// It restarted with another plan: the histogram has one bound more, and the queue is a sum, which replaces the gauge.
const OTHER_QUEUE: &str = "queue{otel_scope_name=\"app\",service_name=\"shop\"} 3
";

const OTHER_ROWS: &str = "requests_total{otel_scope_name=\"app\",service_name=\"shop\"} 112
";

const OTHER_SIZES: &str =
    "size_bytes_bucket{otel_scope_name=\"app\",service_name=\"shop\",le=\"1.0\"} 4
size_bytes_bucket{otel_scope_name=\"app\",service_name=\"shop\",le=\"+Inf\"} 8
size_bytes_sum{otel_scope_name=\"app\",service_name=\"shop\"} 46
size_bytes_count{otel_scope_name=\"app\",service_name=\"shop\"} 8
";

const OTHER_KEYS: &str = "kotskhin_keys 9
";

const OTHER_LEFT_OUT: &str = "kotskhin_left_out{kind=\"gauge\",name=\"queue\"} 1
";

const OTHER_NEWEST: &str = "kotskhin_newest_seconds{service_name=\"shop\"} 0.000000800
";

const LIFE_OTHER: [&str; 14] = [
    QUEUE,
    OTHER_QUEUE,
    REQUESTS,
    OTHER_ROWS,
    SIZE,
    OTHER_SIZES,
    CONFLICTS,
    KEYS,
    OTHER_KEYS,
    LEFT_OUT,
    OTHER_LEFT_OUT,
    NEWEST,
    OTHER_NEWEST,
    END,
];

const LIFE: [&[&str]; 5] = [
    &LIFE_BEGUN,
    &LIFE_TWICE,
    &LIFE_LATER,
    &LIFE_AGAIN,
    &LIFE_OTHER,
];

fn joined(alloc: Global, parts: &[&str]) -> Result<String, NoMemory> {
    let mut text = String::new(alloc);
    for part in parts {
        text.push_str(part)?;
    }
    Ok(text)
}

fn text(alloc: Global, bytes: &str) -> Result<Txt, NoMemory> {
    Txt::from_str(alloc, bytes)
}

// What a cell is of, but for its shape and its attributes.
#[derive(Clone, Copy)]
struct Of<'a> {
    service: &'a str,
    instance: u128,
    start: u64,
    scope: &'a str,
    name: &'a str,
    unit: &'a str,
}

fn stream(alloc: Global, of: Of<'_>, shape: Shape) -> Result<Stream, NoMemory> {
    Ok(Stream {
        scope: text(alloc, of.scope)?,
        name: text(alloc, of.name)?,
        unit: text(alloc, of.unit)?,
        shape,
    })
}

// No attributes, or one pair.
fn attributes(alloc: Global, pair: Option<(&str, &str)>) -> Result<AttrSet, NoMemory> {
    match pair {
        Some((key, value)) => {
            let mut pairs = Vec::new(alloc);
            pairs.push((text(alloc, key)?, AttrValue::Text(text(alloc, value)?)))?;
            AttrSet::from_pairs(pairs).map_err(|_| NoMemory)
        }
        None => Ok(AttrSet::empty(alloc)),
    }
}

fn hold(
    alloc: Global,
    gateway: &mut Gateway,
    of: Of<'_>,
    shape: Shape,
    pair: Option<(&str, &str)>,
    cell: Cell,
) -> Result<(), NoMemory> {
    let key = Key {
        writer: WriterId {
            service: text(alloc, of.service)?,
            instance: Uuid::from_u128(of.instance),
        },
        start: of.start,
        stream: stream(alloc, of, shape)?,
        attrs: attributes(alloc, pair)?,
    };
    gateway.join_cell(key, cell)?;
    Ok(())
}

fn cell(time: u64, payload: Payload) -> Cell {
    Cell {
        time,
        held: Held::One(payload),
    }
}

fn conflict(time: u64) -> Cell {
    Cell {
        time,
        held: Held::Conflict,
    }
}

// A counter's total, with one attribute or none.
fn count_of(
    alloc: Global,
    gateway: &mut Gateway,
    of: Of<'_>,
    pair: Option<(&str, &str)>,
    held: Cell,
) -> Result<(), NoMemory> {
    let counter = Shape::Sum { monotonic: true };
    hold(alloc, gateway, of, counter, pair, held)
}

fn count(
    alloc: Global,
    gateway: &mut Gateway,
    of: Of<'_>,
    time: u64,
    total: i64,
) -> Result<(), NoMemory> {
    count_of(alloc, gateway, of, None, cell(time, Payload::Sum(total)))
}

// The requests of an instance of the shop.
fn shop(instance: u128, start: u64) -> Of<'static> {
    Of {
        service: "shop",
        instance,
        start,
        scope: "app",
        name: "requests",
        unit: "1",
    }
}

fn till(start: u64) -> Of<'static> {
    Of {
        service: "till",
        ..shop(1, start)
    }
}

fn size(scope: &'static str, start: u64) -> Of<'static> {
    Of {
        scope,
        name: "size",
        unit: "By",
        ..shop(1, start)
    }
}

fn queue(start: u64) -> Of<'static> {
    Of {
        name: "queue",
        unit: "",
        ..shop(1, start)
    }
}

#[test]
fn the_first_page(rt: HostRuntime) -> Result<(), Fail> {
    let alloc = rt.alloc();
    let mut gateway = Gateway::new(alloc, 1);
    let route = Some(("http.route", "/a"));
    let start = 1700000000000000000;
    count(alloc, &mut gateway, shop(1, 100), 200, 7)?;
    count(alloc, &mut gateway, shop(1, 400), 500, 5)?;
    count(alloc, &mut gateway, shop(2, 100), 200, 30)?;
    count(alloc, &mut gateway, till(start), 1700000060123456789, 1000)?;
    let (one, two) = (cell(200, Payload::Sum(1)), cell(200, Payload::Sum(2)));
    count_of(alloc, &mut gateway, shop(1, 100), route, one)?;
    count_of(alloc, &mut gateway, shop(2, 100), route, two)?;
    let page = openmetrics(alloc, &gateway, None, None)?;
    assert_eq!(rt; page.as_str(), joined(alloc, &FIRST)?.as_str());
    let page = prometheus(alloc, &gateway, None, None)?;
    assert_eq!(rt; page.as_str(), joined(alloc, &FIRST_AS_TEXT)?.as_str());
    Ok(())
}

#[test]
fn the_page_of_nothing(rt: HostRuntime) -> Result<(), Fail> {
    let alloc = rt.alloc();
    let mut gateway = Gateway::new(alloc, 1);
    count(alloc, &mut gateway, shop(1, 100), 200, 7)?;
    let page = openmetrics(alloc, &gateway, Some("till"), None)?;
    assert_eq!(rt; page.as_str(), joined(alloc, &NOTHING)?.as_str());
    Ok(())
}

// The page that leaves out a scope, as a list of parts.
const LEAVING_OUT: [(Option<&str>, &[&str]); 4] = [
    (None, &ARCHIVED),
    (Some("kotskhin.archive"), &UNARCHIVED),
    (Some("kotskhin"), &ARCHIVED),
    (Some("adopted"), &ARCHIVED),
];

#[test]
fn a_scope_is_left_out(rt: HostRuntime) -> Result<(), Fail> {
    let alloc = rt.alloc();
    let mut gateway = Gateway::new(alloc, 1);
    let tombstones = Of {
        scope: "kotskhin.archive",
        name: "adopted",
        unit: "ns",
        ..shop(2, 1)
    };
    let adopted = cell(500, Payload::Gauge(500));
    let of = Some(("start", "100"));
    count(alloc, &mut gateway, shop(1, 100), 200, 7)?;
    hold(alloc, &mut gateway, tombstones, Shape::Gauge, of, adopted)?;
    for (but, parts) in LEAVING_OUT {
        let page = openmetrics(alloc, &gateway, None, but)?;
        assert_eq!(rt; page.as_str(), joined(alloc, parts)?.as_str());
    }
    let page = prometheus(alloc, &gateway, Some("shop"), Some("kotskhin.archive"))?;
    assert_eq!(rt; page.as_str(), joined(alloc, &UNARCHIVED_AS_TEXT)?.as_str());
    Ok(())
}

// A histogram's values in buckets with these bounds.
fn sizes(count: u64, sum: i64, buckets: Seq<u64>) -> Payload {
    Payload::Hist {
        count,
        sum,
        buckets,
        range: None,
    }
}

fn bounded(bounds: Vec<i64>) -> Shape {
    Shape::Histogram {
        bounds: Seq::from_vec(bounds),
    }
}

#[test]
fn rows_with_conflicts_are_not_shown(rt: HostRuntime) -> Result<(), Fail> {
    let alloc = rt.alloc();
    let mut gateway = Gateway::new(alloc, 1);
    let temp = Of {
        name: "temp",
        unit: "Cel",
        ..shop(1, 100)
    };
    let by_k = |value| Some(("k", value));
    let seven = cell(200, Payload::Sum(7));
    count(alloc, &mut gateway, shop(1, 100), 200, 1000)?;
    count_of(alloc, &mut gateway, shop(2, 100), None, conflict(200))?;
    count_of(alloc, &mut gateway, shop(1, 100), by_k("v"), seven)?;
    count_of(alloc, &mut gateway, till(100), by_k("w"), conflict(200))?;
    count_of(alloc, &mut gateway, till(100), by_k("x"), conflict(200))?;
    hold(alloc, &mut gateway, temp, Shape::Gauge, None, conflict(200))?;
    let shape = bounded(vec![in alloc; 1]?);
    let one = cell(200, sizes(1, 1, Seq::from_vec(vec![in alloc; 1, 0]?)));
    hold(
        alloc,
        &mut gateway,
        size("", 100),
        shape.try_copy()?,
        None,
        conflict(200),
    )?;
    hold(alloc, &mut gateway, size("", 100), shape, by_k("v"), one)?;
    let page = openmetrics(alloc, &gateway, None, None)?;
    assert_eq!(rt; page.as_str(), joined(alloc, &TORN)?.as_str());
    Ok(())
}

// Values of a worker in buckets up to 1 and above it.
fn hold_sizes(
    alloc: Global,
    gateway: &mut Gateway,
    start: u64,
    time: u64,
    low: u64,
    sum: i64,
) -> Result<(), NoMemory> {
    let buckets = Seq::from_vec(vec![in alloc; low, 1]?);
    let held = cell(time, sizes(low.saturating_add(1), sum, buckets));
    hold(
        alloc,
        gateway,
        size("app", start),
        bounded(vec![in alloc; 1]?),
        None,
        held,
    )
}

// The same worker with another plan: one value up to 1, one up to 10 and one above it; and a queue that is a sum.
fn hold_other_plan(alloc: Global, gateway: &mut Gateway) -> Result<(), NoMemory> {
    let shape = bounded(vec![in alloc; 1, 10]?);
    let held = sizes(3, 26, Seq::from_vec(vec![in alloc; 1, 1, 1]?));
    count(alloc, gateway, shop(1, 700), 800, 2)?;
    hold(
        alloc,
        gateway,
        size("app", 700),
        shape,
        None,
        cell(800, held),
    )?;
    let sum = Shape::Sum { monotonic: false };
    hold(
        alloc,
        gateway,
        queue(700),
        sum,
        None,
        cell(800, Payload::Sum(3)),
    )
}

// What happens before this page of the life.
fn live(alloc: Global, gateway: &mut Gateway, step: usize) -> Result<(), NoMemory> {
    match step {
        0 => {
            let five = cell(200, Payload::Gauge(5));
            count(alloc, gateway, shop(1, 100), 200, 100)?;
            count(alloc, gateway, shop(2, 100), 200, 7)?;
            hold_sizes(alloc, gateway, 100, 200, 2, 9)?;
            hold(alloc, gateway, queue(100), Shape::Gauge, None, five)
        }
        1 => {
            count(alloc, gateway, shop(2, 100), 300, 8)?;
            count(alloc, gateway, shop(2, 100), 300, 1)
        }
        2 => count(alloc, gateway, shop(2, 100), 400, 9),
        3 => {
            count(alloc, gateway, shop(1, 500), 600, 1)?;
            hold_sizes(alloc, gateway, 500, 600, 1, 11)
        }
        _ => hold_other_plan(alloc, gateway),
    }
}

#[test]
fn a_life_resets_nothing(rt: HostRuntime) -> Result<(), Fail> {
    let alloc = rt.alloc();
    let mut gateway = Gateway::new(alloc, 1);
    for (step, parts) in LIFE.iter().enumerate() {
        live(alloc, &mut gateway, step)?;
        let page = openmetrics(alloc, &gateway, None, None)?;
        assert_eq!(rt; page.as_str(), joined(alloc, parts)?.as_str());
    }
    Ok(())
}
