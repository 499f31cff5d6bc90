//! A page for Prometheus, beside the roll-up of the rows that it shows.
use crate::clock::tell;
use crate::gateways::{Keys, Sets, Times, holding, requests};
use crate::rollups::time_rollup;
use attr_kit::{Keep, Seq};
use gateway_kit::Gateway;
use page_kit::openmetrics;
use rollup_kit::Ask;
use std::time::{Duration, Instant};

// Of so many times the least is told.
const ROUNDS: u32 = 5;

fn time_page(rt: &HostRuntime, gateway: &Gateway) -> anyhow::Result<Duration> {
    let start = Instant::now(rt)?;
    let page = openmetrics(rt.alloc(), gateway, None, None)?;
    let took = start.elapsed(rt)?;
    drop(page);
    Ok(took)
}

fn compare(rt: &HostRuntime, points: u64, gateway: &Gateway, ask: &Ask) -> anyhow::Result<()> {
    let mut rolled = Duration::MAX;
    let mut written = Duration::MAX;
    for _ in 0..ROUNDS {
        rolled = rolled.min(time_rollup(rt, gateway, ask)?);
        written = written.min(time_page(rt, gateway)?);
    }
    tell(rt, "roll-up of all rows", points, rolled)?;
    tell(rt, "page", points, written)
}

/// The page of a gateway of so many points of one counter and 4 attributes, each a row, and the roll-up of the same rows.
pub fn run(rt: &HostRuntime, points: u32) -> anyhow::Result<()> {
    let alloc = rt.alloc();
    let gateway = holding(alloc, Times::at(200), Keys::first(Sets::Scattered, points))?;
    let ask = Ask {
        stream: requests(alloc)?.get().try_copy()?,
        service: None,
        only: Seq::new(alloc),
        keep: Keep::All,
    };
    compare(rt, u64::from(points), &gateway, &ask)
}
