//! Roll-ups that no script can ask for: of histograms without a range, and by pairs of one key.
use super::builders::{
    ask, counted, counter, export, histogram, parts, point, single, stream, take, two, worded,
};
use crate::{Ask, rollup, table};
use attr_kit::{AllowList, AttrSet, AttrValue, Keep, NoMemory, Seq, Txt};
use gateway_kit::Gateway;
use point_kit::{ExportPoint, Payload, Shape};
use std::alloc::Global;
use std::test::Fail;

const HEADER: &str = "attributes  points  conflicts  total\n";

// Whether the table of what the gateway answers is this text.
fn answers(alloc: Global, gateway: &Gateway, ask: &Ask, wanted: &str) -> Result<bool, NoMemory> {
    let rows = rollup(alloc, gateway, ask)?;
    let printed = table(alloc, rows.as_slice())?;
    Ok(printed.as_str() == wanted)
}

// The same of all points of a shape.
fn answers_all(
    alloc: Global,
    gateway: &Gateway,
    shape: Shape,
    wanted: &str,
) -> Result<bool, NoMemory> {
    answers(alloc, gateway, &ask(alloc, shape, Keep::All)?, wanted)
}

// The gateway takes a histogram with these bounds.
fn take_histogram(
    alloc: Global,
    gateway: &mut Gateway,
    instance: u128,
    bounds: &[i64],
    payload: Payload,
) -> Result<(), Fail> {
    let shape = histogram(alloc, bounds)?;
    let point = point(alloc, shape, AttrSet::empty(alloc), payload)?;
    take(alloc, gateway, instance, 200, point)
}

// Whether this is what is answered of two values from 2 to 9 and of this histogram.
fn beside_known(alloc: Global, other: Payload, wanted: &str) -> Result<bool, Fail> {
    let mut gateway = Gateway::new(alloc, 1);
    let known = parts(alloc, 2, 11, &[2, 0], Some((2, 9)))?;
    take_histogram(alloc, &mut gateway, 1, &[10], known)?;
    take_histogram(alloc, &mut gateway, 2, &[10], other)?;
    Ok(answers_all(alloc, &gateway, histogram(alloc, &[10])?, wanted)?)
}

#[test]
fn a_point_with_values_and_no_range_leaves_none(rt: HostRuntime) -> Result<(), Fail> {
    let alloc = rt.alloc();
    let untold = parts(alloc, 1, 3, &[1, 0], None)?;
    let wanted = "attributes  points  conflicts  total\n\
                  {}               2          0  count=3 sum=14 buckets=3,0\n";
    assert!(rt; beside_known(alloc, untold, wanted)?);
    Ok(())
}

#[test]
fn a_point_without_values_leaves_the_range(rt: HostRuntime) -> Result<(), Fail> {
    let alloc = rt.alloc();
    let empty = parts(alloc, 0, 0, &[0, 0], None)?;
    let wanted = "attributes  points  conflicts  total\n\
                  {}               2          0  count=2 sum=11 buckets=2,0 min=2 max=9\n";
    assert!(rt; beside_known(alloc, empty, wanted)?);
    Ok(())
}

// The sum of a host.
fn hosted(alloc: Global, host: &str, sum: i64) -> Result<ExportPoint, Fail> {
    let attrs = single(alloc, worded(alloc, "host", host)?)?;
    Ok(counted(alloc, attrs, sum)?)
}

// A gateway that holds two hosts.
fn two_hosts(alloc: Global) -> Result<Gateway, Fail> {
    let mut gateway = Gateway::new(alloc, 1);
    let points = two(alloc, hosted(alloc, "p", 1)?, hosted(alloc, "q", 4)?)?;
    gateway.take(&export(alloc, "shop", 1, 200, points)?)?;
    Ok(gateway)
}

// Asks in one row for points that have these pairs.
fn having(alloc: Global, only: Vec<(Txt, AttrValue)>) -> Result<Ask, NoMemory> {
    Ok(Ask {
        stream: stream(alloc, counter())?,
        service: None,
        only: Seq::from_vec(only),
        keep: Keep::Only(AllowList::empty(alloc)),
    })
}

// Whether this is what is answered of points that have the host p and this one.
fn answers_hosts(alloc: Global, gateway: &Gateway, host: &str, wanted: &str) -> Result<bool, Fail> {
    let hosts = two(
        alloc,
        worded(alloc, "host", "p")?,
        worded(alloc, "host", host)?,
    )?;
    Ok(answers(alloc, gateway, &having(alloc, hosts)?, wanted)?)
}

#[test]
fn no_point_has_two_values_of_one_key(rt: HostRuntime) -> Result<(), Fail> {
    let gateway = two_hosts(rt.alloc())?;
    let one = "attributes  points  conflicts  total\n{}               1          0  1\n";
    assert!(rt; answers_hosts(rt.alloc(), &gateway, "p", one)?);
    assert!(rt; answers_hosts(rt.alloc(), &gateway, "q", HEADER)?);
    Ok(())
}
