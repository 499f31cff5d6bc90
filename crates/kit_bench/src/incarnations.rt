//! Nodes of many incarnations, beside a map of keys to cells by hand. What would hold more than 2,000,000 points is left out.
use crate::clock::tell_times;
use crate::gossip::{Pair, time_hand, time_send, two_nodes};
use crate::key_map::KeyMap;
use crate::numbered::service_of;
use crate::rollups::time_rollup;
use crate::stored::{Case, ROUNDS, merge_new, takes, time_takes, walks};
use crate::stores::{Store, Walked};
use anyhow::ensure;
use attr_kit::{Keep, Seq};
use gateway_kit::Gateway;
use rollup_kit::Ask;
use std::alloc::Global;
use std::time::{Duration, Instant};

// A node, its peer and a message of all that hold so many take some three gigabytes.
const MOST_POINTS: u32 = 2_000_000;

/// How long messages and their handing took.
#[derive(Drop)]
struct Passed {
    sent: Vec<Duration>,
    handed: Vec<Duration>,
}

impl Passed {
    fn new(alloc: Global) -> Passed {
        Passed {
            sent: Vec::new(alloc),
            handed: Vec::new(alloc),
        }
    }

    // One message of so many cells.
    fn pass(&mut self, rt: &HostRuntime, pair: &mut Pair, cells: u32) -> anyhow::Result<()> {
        let (message, sending) = time_send(rt, &mut pair.sender, 2, cells)?;
        let handing = time_hand(rt, pair, &message)?;
        self.sent.push(sending)?;
        self.handed.push(handing)?;
        Ok(())
    }

    fn tell(&mut self, rt: &HostRuntime, changes: u32) -> anyhow::Result<()> {
        tell_times(rt, "send", u64::from(changes), &mut self.sent)?;
        tell_times(rt, "hand", u64::from(changes), &mut self.handed)
    }
}

// Messages of so many incarnations that changed, after rounds that begin at a time.
fn changes(
    rt: &HostRuntime,
    pair: &mut Pair,
    case: &Case,
    count: u32,
    time: u64,
    passed: &mut Passed,
) -> anyhow::Result<()> {
    for round in 0..ROUNDS {
        let time = time.saturating_add(u64::from(round));
        let changed = case.some_held(round, count);
        let _ = time_takes(rt, &mut pair.sender, case, changed, time)?;
        passed.pass(rt, pair, count.saturating_mul(case.source.points))?;
    }
    passed.tell(rt, count)
}

// A message of all, and then of one incarnation that changed and of many.
fn messages(rt: &HostRuntime, pair: &mut Pair, case: &Case) -> anyhow::Result<()> {
    let mut all = Passed::new(rt.alloc());
    all.pass(rt, pair, case.held.saturating_mul(case.source.points))?;
    all.tell(rt, case.held)?;
    changes(rt, pair, case, 1, 400, &mut Passed::new(rt.alloc()))?;
    changes(
        rt,
        pair,
        case,
        case.many(),
        500,
        &mut Passed::new(rt.alloc()),
    )
}

fn time_equals(rt: &HostRuntime, pair: &mut Pair, times: &mut Vec<Duration>) -> anyhow::Result<()> {
    for _ in 0..ROUNDS {
        let start = Instant::now(rt)?;
        let changed = pair.sender.merge(pair.receiver.gateway())?;
        times.push(start.elapsed(rt)?)?;
        ensure!(changed == 0, "a merge of equals changed {changed} cells");
    }
    Ok(())
}

fn merge_equals(rt: &HostRuntime, pair: &mut Pair, case: &Case) -> anyhow::Result<()> {
    let mut times = Vec::new(rt.alloc());
    time_equals(rt, pair, &mut times)?;
    tell_times(rt, "merge of equals", u64::from(case.held), &mut times)
}

// Asks for the points of one service, each set of attributes in a row of its own.
fn of_service(case: &Case, number: u32) -> anyhow::Result<Ask> {
    let alloc = case.source.alloc;
    Ok(Ask {
        stream: case.source.stream.get().try_copy()?,
        service: Some(service_of(alloc, number)?),
        only: Seq::new(alloc),
        keep: Keep::All,
    })
}

// Roll-ups of so many points each, of services that no walk passed, so that these are no more in the cache than others.
fn rollups(rt: &HostRuntime, gateway: &Gateway, case: &Case, points: u64) -> anyhow::Result<()> {
    let mut times = Vec::new(rt.alloc());
    for number in ROUNDS..2 * ROUNDS {
        times.push(time_rollup(rt, gateway, &of_service(case, number)?)?)?;
    }
    tell_times(rt, "roll-up of one service", points, &mut times)
}

// All of a node, and what walks over services passed.
fn of_node(rt: &HostRuntime, pair: &mut Pair, case: &Case) -> anyhow::Result<Walked> {
    takes(rt, &mut pair.sender, case)?;
    messages(rt, pair, case)?;
    merge_equals(rt, pair, case)?;
    merge_new(rt, &mut pair.sender, case)?;
    let walked = walks(rt, &pair.sender)?;
    let each = walked.cells / u64::from(ROUNDS);
    rollups(rt, pair.sender.gateway(), case, each)?;
    Ok(walked)
}

// The same of a map, but for messages and roll-ups, which it has not.
fn of_map(rt: &HostRuntime, map: &mut KeyMap, case: &Case) -> anyhow::Result<Walked> {
    takes(rt, map, case)?;
    merge_new(rt, map, case)?;
    walks(rt, map)
}

fn run_case(rt: &HostRuntime, case: &Case) -> anyhow::Result<()> {
    let Case { held, source } = case;
    let points = source.points;
    eprintln!(rt; "{held} incarnations of {points}, a node")?;
    let node = of_node(rt, &mut two_nodes(rt.alloc()), case)?;
    eprintln!(rt; "{held} incarnations of {points}, a map by hand")?;
    let map = of_map(rt, &mut KeyMap::none(rt.alloc()), case)?;
    ensure!(node == map, "a node and a map hold other cells");
    Ok(())
}

/// Each of these numbers of incarnations with each of these numbers of points, but those of too many points.
pub fn run(rt: &HostRuntime, sizes: &[u32], points: &[u32]) -> anyhow::Result<()> {
    for held in sizes {
        for each in points {
            if held.saturating_mul(*each) <= MOST_POINTS {
                run_case(rt, &Case::of(rt.alloc(), *held, *each)?)?;
            }
        }
    }
    Ok(())
}
