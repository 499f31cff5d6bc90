//! Roll-ups by a kept key, beside a plain group-by of the same points.
use crate::clock::tell_times;
use crate::gateways::{Keys, ROUTE, Sets, Times, holding, requests};
use crate::tallies::keep_of;
use attr_kit::{AttrSet, AttrValue, NoMemory, Seq, Txt};
use gateway_kit::Gateway;
use point_kit::{Cell, Held, Payload, Stream};
use rollup_kit::{Ask, rollup};
use std::alloc::Global;
use std::collections::HashMap;
use std::time::{Duration, Instant};

// Asks for the points of requests by their routes.
fn by_route(alloc: Global) -> anyhow::Result<Ask> {
    Ok(Ask {
        stream: requests(alloc)?.get().try_copy()?,
        service: None,
        only: Seq::new(alloc),
        keep: keep_of(alloc, ROUTE)?,
    })
}

// Adds a sum to that of its route.
fn add(sums: &mut HashMap<Txt, i128>, attrs: &AttrSet, cell: &Cell) -> Result<(), NoMemory> {
    let Some(AttrValue::Text(route)) = attrs.get(ROUTE) else {
        return Ok(());
    };
    let Held::One(Payload::Sum(sum)) = &cell.held else {
        return Ok(());
    };
    match sums.get_mut(route) {
        Some(total) => *total = total.wrapping_add(i128::from(*sum)),
        None => {
            let _ = sums.insert(route.try_copy()?, i128::from(*sum))?;
        }
    }
    Ok(())
}

// The sums of a stream's points by their routes, through a hash map.
fn plainly(
    alloc: Global,
    gateway: &Gateway,
    stream: &Stream,
) -> Result<HashMap<Txt, i128>, NoMemory> {
    let mut sums = HashMap::new(alloc);
    for point in gateway.points() {
        if *point.stream == *stream {
            add(&mut sums, point.attrs, point.cell)?;
        }
    }
    Ok(sums)
}

fn time_plain(rt: &HostRuntime, gateway: &Gateway, ask: &Ask) -> anyhow::Result<Duration> {
    let start = Instant::now(rt)?;
    let sums = plainly(rt.alloc(), gateway, &ask.stream)?;
    let took = start.elapsed(rt)?;
    drop(sums);
    Ok(took)
}

/// How long a roll-up takes.
pub fn time_rollup(rt: &HostRuntime, gateway: &Gateway, ask: &Ask) -> anyhow::Result<Duration> {
    let start = Instant::now(rt)?;
    let rows = rollup(rt.alloc(), gateway, ask)?;
    let took = start.elapsed(rt)?;
    drop(rows);
    Ok(took)
}

/// The times of both.
#[derive(Drop)]
struct BothTimes {
    plain: Vec<Duration>,
    rolled: Vec<Duration>,
}

// Both in turn, so many times.
fn gather(
    rt: &HostRuntime,
    rounds: u32,
    gateway: &Gateway,
    ask: &Ask,
    times: &mut BothTimes,
) -> anyhow::Result<()> {
    for _ in 0..rounds {
        times.plain.push(time_plain(rt, gateway, ask)?)?;
        times.rolled.push(time_rollup(rt, gateway, ask)?)?;
    }
    Ok(())
}

// The plain group-by and the roll-up of a gateway of these keys, by a key of theirs.
fn both(rt: &HostRuntime, keys: Keys, times: &mut BothTimes) -> anyhow::Result<()> {
    let rounds = (2_000_000 / keys.count.max(100_000)).clamp(3, 15);
    let gateway = holding(rt.alloc(), Times::at(200), keys)?;
    let ask = by_route(rt.alloc())?;
    gather(rt, rounds, &gateway, &ask, times)
}

fn compare(rt: &HostRuntime, what: &str, groups: u32, keys: Keys) -> anyhow::Result<()> {
    let mut times = BothTimes {
        plain: Vec::new(rt.alloc()),
        rolled: Vec::new(rt.alloc()),
    };
    both(rt, keys, &mut times)?;
    eprintln!(rt; "{what}: {groups} groups")?;
    tell_times(
        rt,
        "plain group-by",
        u64::from(keys.count),
        &mut times.plain,
    )?;
    tell_times(rt, "roll-up", u64::from(keys.count), &mut times.rolled)
}

/// Roll-ups of so many points into so many groups, and the same by a plain group-by. In the order of keys the groups come again
/// and again in one order, as those of many writers do.
pub fn run(rt: &HostRuntime, keys: u32, groups: u32) -> anyhow::Result<()> {
    let keys = Keys::first(Sets::Routes(groups), keys);
    compare(rt, "roll-ups", groups, keys)
}

/// The same into 100 groups, which come in no order.
pub fn run_scattered(rt: &HostRuntime, keys: u32) -> anyhow::Result<()> {
    compare(
        rt,
        "roll-ups in no order",
        100,
        Keys::first(Sets::Scattered, keys),
    )
}
