//! Points that are held until the program ends, for who measures its memory from outside.
use crate::gateways::{Keys, Sets, Times, export_of, set};
use crate::key_map::KeyMap;
use crate::numbered::Source;
use crate::stores::Store;
use crate::words::Holder;
use anyhow::ensure;
use attr_kit::AttrSet;
use gateway_kit::Gateway;
use gossip_kit::Node;
use point_kit::{Cell, Held, Payload};
use std::alloc::Global;
use std::collections::{BTreeMap, HashMap};

// Into how many exports the points are parted, so that an export takes little beside.
const PARTS: u32 = 100;

// Each export is of an incarnation of its own.
fn in_gateway(alloc: Global, count: u32) -> anyhow::Result<usize> {
    let mut gateway = Gateway::new(alloc, 1);
    let part = count / PARTS;
    for begin in 0..PARTS {
        let keys = Keys::first(Sets::Scattered, part).starting(part.saturating_mul(begin));
        let times = Times {
            begin: u64::from(begin),
            time: 200,
        };
        gateway.take(&export_of(alloc, times, keys)?)?;
    }
    Ok(gateway.len())
}

fn cell(number: u32) -> Cell {
    Cell {
        time: 200,
        held: Held::One(Payload::Sum(i64::from(number))),
    }
}

// The same cells in a map from their sets, which knows neither writers nor streams.
fn in_tree(alloc: Global, count: u32) -> anyhow::Result<usize> {
    let mut cells = BTreeMap::<AttrSet, Cell>::new(alloc);
    for number in 0..count {
        let _ = cells.insert(set(alloc, Sets::Scattered, number)?, cell(number))?;
    }
    Ok(cells.len())
}

fn in_map(alloc: Global, count: u32) -> anyhow::Result<usize> {
    let mut cells = HashMap::<AttrSet, Cell>::new(alloc);
    for number in 0..count {
        let _ = cells.insert(set(alloc, Sets::Scattered, number)?, cell(number))?;
    }
    Ok(cells.len())
}

// So many incarnations, of so many points each.
fn in_store<T: Store>(alloc: Global, count: u32, points: u32) -> anyhow::Result<usize> {
    let mut store = T::none(alloc);
    let source = Source::of(alloc, points)?;
    for number in 0..count {
        store.take_in(&source.export(number, 200)?)?;
    }
    Ok(store.len())
}

/// Holds so many points: of 4 attributes of short texts, a multiple of 100, or those of so many incarnations of so many points each.
pub fn run(alloc: Global, holder: Holder, count: u32, points: u32) -> anyhow::Result<()> {
    let held = match holder {
        Holder::Gateway => in_gateway(alloc, count)?,
        Holder::Tree => in_tree(alloc, count)?,
        Holder::Map => in_map(alloc, count)?,
        Holder::Incarnations => in_store::<Node>(alloc, count, points)?,
        Holder::Keys => in_store::<KeyMap>(alloc, count, points)?,
    };
    let wanted = u64::from(count).saturating_mul(u64::from(points));
    ensure!(held as u64 == wanted, "{held} points are held");
    Ok(())
}
