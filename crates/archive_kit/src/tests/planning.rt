//! Plans beside archives: which are made, and which refusal comes first.
use crate::{PlanRefusal, build_plan};
use attr_kit::{NoMemory, Seq, Txt};
use plan_kit::{DEFAULT_LIMIT, Instrument, Kind, PlanFault};
use std::alloc::Global;
use std::test::Fail;

fn counter(alloc: Global, scope: &str, name: &str) -> Result<Instrument, NoMemory> {
    Ok(Instrument {
        scope: Txt::from_str(alloc, scope)?,
        name: Txt::from_str(alloc, name)?,
        unit: Txt::from_str(alloc, "1")?,
        kind: Kind::Counter,
    })
}

// How many streams the plan of counters of these scopes and names has.
fn streams_of(alloc: Global, counters: &[(&str, &str)], limit: u64) -> Result<usize, PlanRefusal> {
    let mut instruments = Vec::new(alloc);
    for (scope, name) in counters {
        let counter = counter(alloc, scope, name).map_err(|_| PlanFault::NoMemory)?;
        instruments.push(counter).map_err(|_| PlanFault::NoMemory)?;
    }
    let views = Seq::from_vec(Vec::new(alloc));
    Ok(build_plan(alloc, Seq::from_vec(instruments), views, limit)?.streams_len())
}

#[test]
fn the_scope_of_tombstones_is_refused(rt: HostRuntime) -> Result<(), Fail> {
    let alloc = rt.alloc();
    let near = [
        ("kotskhin.archives", "adopted"),
        ("kotskhin.archiv", "adopted"),
        ("app", "kotskhin.archive"),
    ];
    assert!(rt; streams_of(alloc, &near, DEFAULT_LIMIT) == Ok(3));
    let reserved = [
        ("app", "requests"),
        ("kotskhin.archive", "adopted"),
        ("kotskhin.archive", "other"),
    ];
    assert!(rt; streams_of(alloc, &reserved, DEFAULT_LIMIT) == Err(PlanRefusal::ReservedScope(1)));
    let twice = [("kotskhin.archive", "adopted"), ("app", "9 lives")];
    assert!(rt;
        streams_of(alloc, &twice, DEFAULT_LIMIT) == Err(PlanRefusal::Plan(PlanFault::BadName(1)))
    );
    assert!(rt; streams_of(alloc, &reserved, 0) == Err(PlanRefusal::Plan(PlanFault::BadLimit)));
    Ok(())
}
