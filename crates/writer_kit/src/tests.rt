//! Paces at the end of time, the text of a fault, numbers and logs.
use super::*;
use agg_kit::TallyFault;
use attr_kit::{AttrSet, NoMemory, Seq, Txt};
use plan_kit::{DEFAULT_LIMIT, Instrument, Kind, Plan};
use point_kit::{Payload, WriterId};
use recorder_kit::{RecordFault, Recorder, Taken};
use std::alloc::Global;
use std::test::Fail;
use uuid::Uuid;

fn instruments(alloc: Global) -> Result<Seq<Instrument>, NoMemory> {
    let mut instruments = Vec::new(alloc);
    instruments.push(Instrument {
        scope: Txt::from_str(alloc, "app")?,
        name: Txt::from_str(alloc, "requests")?,
        unit: Txt::from_str(alloc, "1")?,
        kind: Kind::Counter,
    })?;
    Ok(Seq::from_vec(instruments))
}

/// A writer of one counter from a start on.
pub(crate) fn counting_from(alloc: Global, start: u64) -> Result<Writer, Fail> {
    let plan = Plan::build(
        alloc,
        instruments(alloc)?,
        Seq::from_vec(Vec::new(alloc)),
        DEFAULT_LIMIT,
    )?;
    let id = WriterId {
        service: Txt::from_str(alloc, "shop")?,
        instance: Uuid::from_u128(1),
    };
    Ok(Writer::start(alloc, id, plan, start)?)
}

/// The total that a writer holds, none where it has no point.
pub(crate) fn held(writer: &Writer) -> Option<i64> {
    match writer.tally().entry(0, 0) {
        Some((_, Payload::Sum(total))) => Some(*total),
        _ => None,
    }
}

#[test]
fn paces(rt: HostRuntime) -> Result<(), Fail> {
    let last = Pace::new(10, 18446744073709551615);
    assert!(rt; !last.due(18446744073709551614));
    assert_eq!(rt; last.moved(18446744073709551615).next, 18446744073709551615);
    let minute = Pace::new(DEFAULT_INTERVAL, 60000000000);
    assert!(rt; !minute.due(59999999999));
    assert!(rt; minute.due(60000000000));
    assert_eq!(rt;
        minute.moved(60000000000),
        Pace::new(60000000000, 120000000000)
    );
    Ok(())
}

#[test]
fn faults_are_told(rt: HostRuntime) -> Result<(), Fail> {
    let late = CollectFault::TimeNotAfter(200);
    let text = format!(in rt.alloc(); "{late}")?;
    assert_eq!(rt;
        text.as_str(),
        "the time is not after 200, the last collection or the start"
    );
    Ok(())
}

#[test]
fn numbers_stay_after_a_restart(rt: HostRuntime) -> Result<(), Fail> {
    let alloc = rt.alloc();
    let mut writer = counting_from(alloc, 100)?;
    let number = writer.hold(0, &AttrSet::empty(alloc));
    assert!(rt; number == Ok(0));
    assert!(rt; writer.measure_held(0, 3) == Ok(()) && held(&writer) == Some(3));
    assert!(rt; writer.restart(200) == Ok(()) && held(&writer).is_none());
    assert!(rt; writer.measure_held(0, 4) == Ok(()) && held(&writer) == Some(4));
    let none = MeasureFault::Refused(TallyFault::NoHeld);
    assert!(rt; writer.measure_held(1, 4) == Err(none));
    Ok(())
}

#[test]
fn a_log_is_taken_in(rt: HostRuntime) -> Result<(), Fail> {
    let alloc = rt.alloc();
    let none = AttrSet::empty(alloc);
    let mut writer = counting_from(alloc, 100)?;
    assert!(rt; writer.hold(0, &none) == Ok(0));
    let mut log = Recorder::new(alloc, 3)?;
    assert!(rt; log.measure(0, &none, 3) == Ok(()));
    assert!(rt; log.measure_held(0, -1) == Ok(()));
    assert!(rt; log.measure_held(0, 4) == Ok(()));
    assert!(rt; log.measure_held(0, 5) == Err(RecordFault::Full));
    let told = Taken {
        recorded: 2,
        refused: 1,
        first: Some((1, TallyFault::Negative)),
    };
    assert!(rt; writer.take_in(&mut log, usize::MAX) == Ok(told));
    assert!(rt; held(&writer) == Some(7) && log.is_empty());
    Ok(())
}
