//! A log by set and by number that a tally takes in by pieces, and pairs in turn, of which a recorder looks first at the last one.
use super::*;
use agg_kit::{Tally, TallyFault};
use attr_kit::{AttrSet, AttrValue, Seq, Txt};
use plan_kit::{DEFAULT_LIMIT, Instrument, Kind, Plan};
use point_kit::Payload;
use std::alloc::Global;
use std::test::Fail;

// A tally of counters of these names.
fn counting(alloc: Global, names: &[&str]) -> Result<Tally, Fail> {
    let mut instruments = Vec::new(alloc);
    for name in names {
        instruments.push(Instrument {
            scope: Txt::from_str(alloc, "app")?,
            name: Txt::from_str(alloc, name)?,
            unit: Txt::from_str(alloc, "1")?,
            kind: Kind::Counter,
        })?;
    }
    let plan = Plan::build(
        alloc,
        Seq::from_vec(instruments),
        Seq::from_vec(Vec::new(alloc)),
        DEFAULT_LIMIT,
    )?;
    Ok(Tally::new(alloc, plan)?)
}

fn total(tally: &Tally) -> Option<i64> {
    match tally.entry(0, 0) {
        Some((_, Payload::Sum(total))) => Some(*total),
        _ => None,
    }
}

#[test]
fn a_log_with_a_refusal_in_its_middle(rt: HostRuntime) -> Result<(), Fail> {
    let alloc = rt.alloc();
    let mut tally = counting(alloc, &["requests"])?;
    let attrs = AttrSet::empty(alloc);
    assert!(rt; tally.hold(0, &attrs) == Ok(0));
    let mut recorder = Recorder::new(alloc, 4)?;
    assert!(rt; recorder.measure(0, &attrs, 3) == Ok(()));
    assert!(rt; recorder.measure_held(0, -1) == Ok(()));
    assert!(rt; recorder.measure_held(0, 4) == Ok(()));
    assert!(rt; recorder.measure(0, &attrs, 5) == Ok(()));
    assert!(rt; recorder.measure_held(0, 6) == Err(RecordFault::Full));
    let piece = recorder.give_to(&mut tally, 3);
    let first = Some((1, TallyFault::Negative));
    assert!(rt;
        piece
            == Taken {
                recorded: 2,
                refused: 1,
                first
            }
    );
    assert!(rt; recorder.len() == 1 && total(&tally) == Some(7));
    let rest = recorder.give_to(&mut tally, usize::MAX);
    assert!(rt;
        rest == Taken {
            recorded: 1,
            refused: 0,
            first: None
        }
    );
    assert!(rt; recorder.is_empty() && total(&tally) == Some(12));
    Ok(())
}

/// What is done with a recorder. A recording is of a counter and a set by their numbers.
#[derive(Clone, Copy)]
enum Deed {
    Note(usize, usize, i64),
    Clear,
    Give(usize),
}

use Deed::{Clear, Give, Note};

// The two sets.
fn both_sets(alloc: Global) -> Result<Vec<AttrSet>, Fail> {
    let mut sets = Vec::new(alloc);
    sets.push(AttrSet::empty(alloc))?;
    sets.push(AttrSet::single(alloc, Txt::from_str(alloc, "one")?, AttrValue::Truth(true))?)?;
    Ok(sets)
}

fn apply(
    recorder: &mut Recorder,
    tally: &mut Tally,
    sets: &[AttrSet],
    deed: Deed,
) -> Result<(), Fail> {
    match deed {
        Note(counter, set, value) => {
            let Some(attrs) = sets.get(set) else {
                return Err("no set".into());
            };
            recorder.measure(counter, attrs, value)?;
        }
        Clear => recorder.clear(),
        Give(most) => {
            let _ = recorder.give_to(tally, most);
        }
    }
    Ok(())
}

// What a set's point of a counter has, 0 where there is none.
fn total_of(tally: &Tally, counter: usize, sets: &[AttrSet], set: usize) -> i64 {
    for place in 0..sets.len() {
        if let Some((attrs, Payload::Sum(total))) = tally.entry(counter, place)
            && sets.get(set) == Some(attrs)
        {
            return *total;
        }
    }
    0
}

// What two counters' points of the two sets have, counter by counter, when the deeds are done and all is taken in.
fn totals_after(alloc: Global, capacity: usize, deeds: &[Deed]) -> Result<[i64; 4], Fail> {
    let mut tally = counting(alloc, &["requests", "errors"])?;
    let sets = both_sets(alloc)?;
    let mut recorder = Recorder::new(alloc, capacity)?;
    for deed in deeds {
        apply(&mut recorder, &mut tally, &sets, *deed)?;
    }
    let _ = recorder.give_to(&mut tally, usize::MAX);
    Ok([
        total_of(&tally, 0, &sets, 0),
        total_of(&tally, 0, &sets, 1),
        total_of(&tally, 1, &sets, 0),
        total_of(&tally, 1, &sets, 1),
    ])
}

// Values are powers of two, so that a total tells which recordings it has.
#[test]
fn pairs_in_turn(rt: HostRuntime) -> Result<(), Fail> {
    let sets: &[Deed] = &[Note(0, 0, 1), Note(0, 1, 2), Note(0, 0, 4), Note(0, 1, 8)];
    let counters: &[Deed] = &[Note(0, 0, 1), Note(1, 0, 2), Note(0, 0, 4), Note(1, 0, 8)];
    let both: &[Deed] = &[Note(0, 0, 1), Note(1, 1, 2), Note(0, 1, 4), Note(1, 0, 8)];
    let cleared: &[Deed] = &[
        Note(0, 0, 1),
        Note(0, 1, 2),
        Clear,
        Note(0, 1, 4),
        Note(0, 0, 8),
        Note(0, 1, 16),
    ];
    let given: &[Deed] = &[
        Note(0, 0, 1),
        Note(1, 1, 2),
        Give(1),
        Note(0, 0, 4),
        Give(2),
        Note(1, 0, 8),
        Note(1, 1, 16),
    ];
    let alone: &[Deed] = &[
        Note(0, 0, 1),
        Give(1),
        Note(0, 1, 2),
        Give(1),
        Note(0, 1, 4),
        Clear,
        Note(1, 1, 8),
        Give(1),
        Note(1, 0, 16),
    ];
    for (capacity, deeds, totals) in [
        (4, sets, [5, 10, 0, 0]),
        (4, counters, [5, 0, 10, 0]),
        (4, both, [1, 4, 8, 2]),
        (3, cleared, [8, 20, 0, 0]),
        (2, given, [5, 0, 8, 18]),
        (1, alone, [1, 2, 16, 8]),
    ] {
        assert!(rt; totals_after(rt.alloc(), capacity, deeds)? == totals);
    }
    Ok(())
}
