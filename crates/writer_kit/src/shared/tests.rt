//! Shared writers: seats, notes, and a turn that is held.
ghost use Rattle.std.specs.Prelude.{IfOk};
ghost use Rattle.writer_kit.specs.Shared.{IsAt};

use super::*;
use crate::tests::{counting_from, held};
use crate::{CollectFault, MeasureFault};
use attr_kit::AttrSet;
use bumpalo::Bump;
use recorder_kit::{Recorder, Taken};
use round_kit::{Round, RoundPayload};
use std::test::Fail;
use turn_kit::{Busy, ChangeFault, Look, SplitFault};

// The total of a round's only point, 0 where it has no point; none of any other round.
fn total(round: &Round<'_>) -> Option<i64> {
    match round.points() {
        [] => Some(0),
        [point] => match &point.payload {
            RoundPayload::Sum(total) => Some(*total),
            _ => None,
        },
        _ => None,
    }
}

/// Reads the total.
#[derive(Drop)]
struct HeldTotal;

impl Look<Writer> for HeldTotal {
    type Answer = Option<i64>;

    ghost answers = { λ _ _ _. Unit {0} };

    fn look(self, machine: &Writer) -> Option<i64> {
        held(machine)
    }
}

/// A shared writer of one counter, and a seat at it.
#[derive(Drop)]
struct Served {
    shared: SharedWriter,
    seat: Seat<Writer>,
    ghost at: { IsAt shared seat },
}

// Shares a writer that counts from a start on.
fn open(alloc: Global, start: u64, limit: u64) -> Result<Served, Fail> {
    match SharedWriter::new(alloc, counting_from(alloc, start)?, limit) {
        Ok((shared, seat)) => Ok(Served { shared, seat }),
        Err(_) => Err("not shared".into()),
    }
}

// A second seat.
fn second(shared: &SharedWriter, seat: &mut Seat<Writer>) -> Result<Seat<Writer>, Fail>
    requires { IsAt shared.now seat.old }
    ensures seat { IsAt shared.now seat.new }
    ensures new { IfOk result (λ s. IsAt shared.now s) }
{
    match shared.try_split(seat) {
        Ok(other) => Ok(other),
        Err(_) => Err("no second seat".into()),
    }
}

// Records a value without attributes.
fn measures(
    alloc: Global,
    shared: &SharedWriter,
    seat: &mut Seat<Writer>,
    value: i64,
) -> Result<(), ChangeFault<MeasureFault>>
    requires { IsAt shared.now seat.old }
    ensures { IsAt shared.now seat.new }
{
    let none = AttrSet::empty(alloc);
    shared.try_measure(seat, 0, &none, value)
}

// The total of a collection.
fn collects(
    alloc: Global,
    shared: &SharedWriter,
    seat: &mut Seat<Writer>,
    time: u64,
) -> Result<Option<i64>, ChangeFault<CollectFault>>
    requires { IsAt shared.now seat.old }
    ensures { IsAt shared.now seat.new }
{
    let arena = Bump::new(alloc);
    match shared.try_collect(seat, &arena, time) {
        Ok(round) => Ok(total(&round)),
        Err(fault) => Err(fault),
    }
}

#[test]
fn who_hears_a_note_collects_what_it_tells(rt: HostRuntime) -> Result<(), Fail> {
    let alloc = rt.alloc();
    let Served { shared, mut seat } = open(alloc, 100, 8)?;
    let mut other = second(&shared, &mut seat)?;
    assert!(rt; measures(alloc, &shared, &mut seat, 3) == Ok(()));
    let note = shared.note(&mut seat);
    shared.hear(&mut other, note);
    assert!(rt; collects(alloc, &shared, &mut other, 200) == Ok(Some(3)));
    Ok(())
}

/// Asks for the turn that is held, by another seat, and gives that seat back.
#[derive(Drop)]
struct Meanwhile<'a> {
    shared: &'a SharedWriter,
    seat: Seat<Writer>,
    attrs: &'a AttrSet,
    arena: &'a Bump,
    ghost at: { IsAt shared.now seat },
}

impl<'a> Look<Writer> for Meanwhile<'a> {
    type Answer = (bool, Seat<Writer>);

    ghost answers = { λ m _ r. IsAt m.shared.now r.1 };

    fn look(self, _machine: &Writer) -> (bool, Seat<Writer>) {
        let Meanwhile {
            shared,
            mut seat,
            attrs,
            arena,
        } = self;
        let busy = shared.try_measure(&mut seat, 0, attrs, 1) == Err(ChangeFault::Busy)
            && shared.try_collect(&mut seat, arena, 150).err() == Some(ChangeFault::Busy)
            && shared.try_look(&mut seat, HeldTotal) == Err(Busy)
            && shared.try_split(&mut seat).err() == Some(SplitFault::Busy);
        (busy, seat)
    }
}

// Whether a second seat finds the turn held while the first looks.
fn found_busy(alloc: Global, served: Served) -> Result<bool, Fail> {
    let Served { shared, mut seat } = served;
    let other = second(&shared, &mut seat)?;
    let none = AttrSet::empty(alloc);
    let arena = Bump::new(alloc);
    let meanwhile = Meanwhile {
        shared: &shared,
        seat: other,
        attrs: &none,
        arena: &arena,
    };
    match shared.try_look(&mut seat, meanwhile) {
        Ok((busy, _)) => Ok(busy),
        Err(_) => Err("no look".into()),
    }
}

#[test]
fn a_held_turn_is_busy(rt: HostRuntime) -> Result<(), Fail> {
    assert!(rt; found_busy(rt.alloc(), open(rt.alloc(), 100, 2)?)?);
    Ok(())
}

#[test]
fn close_waits_for_seats_to_be_joined(rt: HostRuntime) -> Result<(), Fail> {
    let Served { shared, mut seat } = open(rt.alloc(), 100, 8)?;
    let other = second(&shared, &mut seat)?;
    let Err(
        SeatsOut {
            writer: shared,
            mut seat,
            out,
        },
    ) = shared.close(seat)
    else {
        return Err("closed too soon".into());
    };
    assert!(rt; out == 1);
    shared.join(&mut seat, other);
    assert!(rt; shared.close(seat).is_ok());
    Ok(())
}

#[test]
fn a_new_seat_and_a_look_that_wait(rt: HostRuntime) -> Result<(), Fail> {
    let Served { shared, mut seat } = open(rt.alloc(), 100, 8)?;
    let Ok(mut other) = shared.split(&rt, &mut seat) else {
        return Err("no second seat".into());
    };
    assert!(rt; measures(rt.alloc(), &shared, &mut seat, 3) == Ok(()));
    assert!(rt; shared.look(&rt, &mut other, HeldTotal) == Some(3));
    Ok(())
}

#[test]
fn a_collection_comes_between_pieces_of_a_log(rt: HostRuntime) -> Result<(), Fail> {
    let alloc = rt.alloc();
    let none = AttrSet::empty(alloc);
    let Served { shared, mut seat } = open(alloc, 100, 5)?;
    assert!(rt; shared.try_hold(&mut seat, 0, &none) == Ok(0));
    assert!(rt; shared.hold(&rt, &mut seat, 0, &none) == Ok(1));
    assert!(rt; shared.measure_held(&rt, &mut seat, 1, 2) == Ok(()));
    let mut log = Recorder::new(alloc, 2)?;
    assert!(rt; log.measure_held(0, 1).is_ok() && log.measure(0, &none, 1).is_ok());
    let told = Taken {
        recorded: 1,
        refused: 0,
        first: None,
    };
    assert!(rt; shared.try_take_in(&mut seat, &mut log, 1) == Ok(told));
    assert!(rt; collects(alloc, &shared, &mut seat, 200) == Ok(Some(3)));
    let exhausted = shared.take_in(&rt, &mut seat, &mut log, 1);
    assert!(rt; exhausted == Err(ChangeFault::Exhausted) && log.len() == 1);
    assert!(rt; shared.try_measure_held(&mut seat, 0, 1) == Err(ChangeFault::Exhausted));
    Ok(())
}
