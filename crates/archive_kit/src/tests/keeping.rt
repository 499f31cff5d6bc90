//! A keeper at work: what it answers and shows, whatever came first.
use super::builders::{Row, adopted, export, exported, made, taken, told, worker, workers};
use crate::{Keeper, Taking};
use attr_kit::NoMemory;
use gateway_kit::{Gateway, PointRef};
use point_kit::{Export, Held, Payload};
use std::alloc::Global;
use std::test::Fail;

// What a sum of the stream of requests tells, 0 of any other point.
fn told_by(point: &PointRef<'_>) -> i64 {
    match point.cell.held {
        Held::One(Payload::Sum(total)) => total,
        _ => 0,
    }
}

// The total of all requests that a gateway holds.
fn total_of(gateway: &Gateway) -> i64 {
    let mut total: i64 = 0;
    for point in gateway.points() {
        total = total.saturating_add(told_by(&point));
    }
    total
}

// Whether a keeper answers so to an export, and holds so many points then and this total.
fn answers(
    keeper: &mut Keeper,
    export: Export,
    want: Taking,
    len: usize,
    total: i64,
) -> Result<bool, NoMemory> {
    let came = keeper.take(&export)?;
    let held = keeper.gateway();
    Ok(came == want && held.len() == len && total_of(held) == total)
}

// Whether it counts each worker once, of whom one exports late.
fn counts_once(alloc: Global, keeper: &mut Keeper) -> Result<bool, Fail> {
    let [one, two] = workers();
    let late = worker(1, 400, 6);
    Ok(
        answers(keeper, export(alloc, one)?, Taking::Taken(3), 3, 5)?
            && answers(keeper, export(alloc, two)?, Taking::Taken(3), 6, 13)?
            && answers(keeper, made(alloc, 2000)?, Taking::Taken(4), 4, 13)?
            && answers(keeper, made(alloc, 2000)?, Taking::Stale, 4, 13)?
            && answers(keeper, export(alloc, late)?, Taking::Late, 4, 13)?,
    )
}

#[test]
fn what_was_adopted_counts_once(rt: HostRuntime) -> Result<(), Fail> {
    let mut keeper = Keeper::new(rt.alloc(), 3)?;
    assert!(rt; counts_once(rt.alloc(), &mut keeper)?);
    Ok(())
}

fn push(exports: &mut Vec<Export>, export: Export) -> Result<(), NoMemory> {
    exports.push(export)?;
    Ok(())
}

// What two workers export, and then the archive that adopted both.
fn exports(alloc: Global) -> Result<Vec<Export>, Fail> {
    let mut exports = Vec::new(alloc);
    for worker in workers() {
        push(&mut exports, export(alloc, worker)?)?;
    }
    push(&mut exports, made(alloc, 2000)?)?;
    Ok(exports)
}

const ORDERS: [[usize; 3]; 6] = [
    [0, 1, 2],
    [0, 2, 1],
    [1, 0, 2],
    [1, 2, 0],
    [2, 0, 1],
    [2, 1, 0],
];

// The keeper takes the export at a place.
fn take_at(keeper: &mut Keeper, exports: &[Export], place: usize) -> Result<(), NoMemory> {
    if let Some(export) = exports.get(place) {
        keeper.take(export)?;
    }
    Ok(())
}

// A keeper that took exports in an order.
fn taker(alloc: Global, exports: &[Export], order: [usize; 3]) -> Result<Keeper, NoMemory> {
    let mut keeper = Keeper::new(alloc, 3)?;
    for place in order {
        take_at(&mut keeper, exports, place)?;
    }
    Ok(keeper)
}

// The keeper merges a gateway that took the export at a place.
fn merge_at(
    keeper: &mut Keeper,
    alloc: Global,
    exports: &[Export],
    place: usize,
) -> Result<(), NoMemory> {
    let mut other = Gateway::new(alloc, 7);
    if let Some(export) = exports.get(place) {
        other.take(export)?;
    }
    keeper.merge(&other)?;
    Ok(())
}

// A keeper that merged gateways of one export each, in an order.
fn merger(alloc: Global, exports: &[Export], order: [usize; 3]) -> Result<Keeper, NoMemory> {
    let mut keeper = Keeper::new(alloc, 4)?;
    for place in order {
        merge_at(&mut keeper, alloc, exports, place)?;
    }
    Ok(keeper)
}

fn shows(keeper: Keeper, gateway: &Gateway) -> bool {
    keeper.gateway().same(gateway)
}

// Whether keepers show what a gateway holds, whatever came first, be it taken or merged.
fn show(alloc: Global, exports: &[Export], gateway: &Gateway) -> Result<bool, NoMemory> {
    for order in ORDERS {
        let taken = shows(taker(alloc, exports, order)?, gateway);
        if !taken || !shows(merger(alloc, exports, order)?, gateway) {
            return Ok(false);
        }
    }
    Ok(true)
}

// Whether keepers of these exports show what a gateway holds that took the archive's alone.
fn show_archive(alloc: Global, exports: &[Export]) -> Result<bool, Fail> {
    let keeper = taken(alloc, made(alloc, 2000)?)?;
    Ok(show(alloc, exports, keeper.gateway())?)
}

#[test]
fn order_does_not_matter(rt: HostRuntime) -> Result<(), Fail> {
    let exports = exports(rt.alloc())?;
    assert!(rt; show_archive(rt.alloc(), exports.as_slice())?);
    Ok(())
}

// What an archive exports that adopted the first one, of which its keeper holds no tombstone.
fn made_of_archive(alloc: Global) -> Result<Export, Fail> {
    let plain = Row {
        start: 1000,
        ..worker(9, 2000, 13)
    };
    let other = told(alloc, &[plain])?;
    exported(adopted(alloc, 8, &other, &[(9, 1000)])?, 3000)
}

// Whether the tombstones of a named archive stay: two of the first with two totals and one of the other.
fn keeps_tombstones(alloc: Global, keeper: &mut Keeper) -> Result<bool, Fail> {
    let [one, _] = workers();
    Ok(
        answers(keeper, made(alloc, 2000)?, Taking::Taken(4), 4, 13)?
            && answers(keeper, made_of_archive(alloc)?, Taking::Taken(3), 5, 13)?
            && answers(keeper, made(alloc, 4000)?, Taking::Late, 5, 13)?
            && answers(keeper, export(alloc, one)?, Taking::Late, 5, 13)?,
    )
}

#[test]
fn a_named_archive_keeps_its_tombstones(rt: HostRuntime) -> Result<(), Fail> {
    let mut keeper = Keeper::new(rt.alloc(), 3)?;
    assert!(rt; keeps_tombstones(rt.alloc(), &mut keeper)?);
    Ok(())
}

// What an archive exports at 2000 that adopted one worker.
fn made_of_one(
    alloc: Global,
    instance: u128,
    holder: &Keeper,
    worker: u128,
) -> Result<Export, Fail> {
    exported(adopted(alloc, instance, holder, &[(worker, 100)])?, 2000)
}

// Whether a worker that two archives adopted counts twice, and has two tombstones, which tell.
fn count_twice(alloc: Global, keeper: &mut Keeper, holder: &Keeper) -> Result<bool, Fail> {
    Ok(
        answers(
            keeper,
            made_of_one(alloc, 7, holder, 1)?,
            Taking::Taken(3),
            3,
            5,
        )? && answers(
            keeper,
            made_of_one(alloc, 8, holder, 1)?,
            Taking::Taken(3),
            6,
            10,
        )?,
    )
}

// Whether two archives under one identity and start lose a total, and a conflict tells.
fn conflict(alloc: Global, keeper: &mut Keeper, holder: &Keeper) -> Result<bool, Fail> {
    Ok(
        answers(
            keeper,
            made_of_one(alloc, 9, holder, 1)?,
            Taking::Taken(3),
            3,
            5,
        )? && answers(
            keeper,
            made_of_one(alloc, 9, holder, 2)?,
            Taking::Taken(2),
            4,
            0,
        )? && keeper.gateway().conflicts() == 1,
    )
}

// Whether a new keeper tells of both.
fn are_told(alloc: Global, holder: &Keeper) -> Result<bool, Fail> {
    Ok(
        count_twice(alloc, &mut Keeper::new(alloc, 3)?, holder)?
            && conflict(alloc, &mut Keeper::new(alloc, 3)?, holder)?,
    )
}

#[test]
fn archives_in_one_anothers_way_are_told(rt: HostRuntime) -> Result<(), Fail> {
    let holder = told(rt.alloc(), &workers())?;
    assert!(rt; are_told(rt.alloc(), &holder)?);
    Ok(())
}
