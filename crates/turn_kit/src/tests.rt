//! A counter that threads share by a turn.
ghost use Rattle.std.specs.Prelude.{◌≡◌, ℕ, ◌+◌, ◌<◌, ◌≤◌, Some, None, MatchBool, IfOk, if◌then◌else◌, nat_lt};
ghost use Rattle.turn_kit.specs.Public.{IsOf};
ghost use denote.Param.Send.{IsSync};

use super::*;
use std::alloc::Global;
use std::marker::Model;
use std::process::Abort;
use std::sync::Wait;
use std::test::Fail;
use std::thread::{Threads, join};

const MOST: u64 = 1000000;

/// A count of at most a million. Contracts see it as its number.
#[derive(Drop)]
struct Counter {
    count: u64,
}

impl Model for Counter {
    ghost Value = { ℕ };

    ghost view = { λ c. c.count };

    ghost invariant = { λ c. c.count ≤ 1000000 };
}

impl Machine for Counter {
    type Entry = u64;

    ghost State = { ℕ };

    ghost state = { λ n. n };

    ghost after = { λ n e. if nat_lt (n + e) 1000001 then Some (n + e) else None };
}

impl Counter {
    fn new() -> Counter
        ensures { result ≡ 0 }
    {
        Counter { count: 0 }
    }

    fn count(&self) -> u64
        ensures { result ≡ self.now }
    {
        self.count
    }

    fn add(&mut self, by: u64) -> bool
        ensures { MatchBool result ((self.new ≡ self.old + by) × (self.old + by ≤ 1000000))
            ((self.new ≡ self.old) × (1000000 < self.old + by)) }
    {
        if by > MOST || self.count + by > MOST {
            return false;
        }
        self.count += by;
        true
    }
}

/// Adds to the count, and answers the new one.
#[derive(Drop)]
struct Add {
    by: u64,
}

/// The count would be too high.
#[derive(Debug, PartialEq, Eq, Drop)]
struct TooHigh;

impl Step<Counter> for Add {
    type Reply = u64;

    type Refusal = TooHigh;

    ghost entry = { λ a. a.by };

    ghost replies = { λ a n r. r ≡ n + a.by };

    ghost refuses = { λ a n _. 1000000 < n + a.by };

    fn step(self, machine: &mut Counter) -> Result<u64, TooHigh> {
        if machine.add(self.by) {
            Ok(machine.count())
        } else {
            Err(TooHigh)
        }
    }
}

/// Reads the count.
#[derive(Drop)]
struct Read;

impl Look<Counter> for Read {
    type Answer = u64;

    ghost answers = { λ _ n r. r ≡ n };

    fn look(self, machine: &Counter) -> u64 {
        machine.count()
    }
}

/// Asks for the turn that is held, by another seat, and gives that seat back.
#[derive(Drop)]
struct Meanwhile<'a> {
    turn: &'a Turn<Counter>,
    seat: Seat<Counter>,
    ghost of: { IsOf turn.now seat },
}

impl<'a> Look<Counter> for Meanwhile<'a> {
    type Answer = (bool, Seat<Counter>);

    ghost answers = { λ l _ r. IsOf l.turn.now r.1 };

    fn look(self, _machine: &Counter) -> (bool, Seat<Counter>) {
        let Meanwhile { turn, mut seat } = self;
        let busy = turn.try_change(&mut seat, Add { by: 1 }) == Err(ChangeFault::Busy)
            && turn.try_look(&mut seat, Read) == Err(Busy)
            && turn.try_split(&mut seat).err() == Some(SplitFault::Busy);
        (busy, seat)
    }
}

/// A turn of this limit, and its first seat.
fn open(alloc: Global, limit: u64) -> Result<(Turn<Counter>, Seat<Counter>), Fail>
    ensures { IfOk result (λ t. IsOf t.0 t.1) }
{
    match Turn::new(alloc, Counter::new(), limit) {
        Ok(made) => Ok(made),
        Err(_) => Err("no turn".into()),
    }
}

/// A second seat.
fn second(turn: &Turn<Counter>, seat: &mut Seat<Counter>) -> Result<Seat<Counter>, Fail>
    requires { IsOf turn.now seat.old }
    ensures seat { IsOf turn.now seat.new }
    ensures new { IfOk result (λ s. IsOf turn.now s) }
{
    match turn.try_split(seat) {
        Ok(other) => Ok(other),
        Err(_) => Err("no second seat".into()),
    }
}

#[test]
fn limits(rt: HostRuntime) -> Result<(), Fail> {
    for limit in [0, (1 << 62) + 1] {
        let Err((counter, fault)) = Turn::new(rt.alloc(), Counter { count: 7 }, limit) else {
            return Err("made".into());
        };
        assert!(rt; fault == TurnFault::BadLimit && counter.count() == 7);
    }
    for limit in [1, 1 << 62] {
        let (turn, mut seat) = open(rt.alloc(), limit)?;
        assert!(rt; turn.try_change(&mut seat, Add { by: 3 }) == Ok(3));
    }
    Ok(())
}

#[test]
fn a_held_turn_is_busy(rt: HostRuntime) -> Result<(), Fail> {
    let (turn, mut first) = open(rt.alloc(), 2)?;
    let other = second(&turn, &mut first)?;
    let meanwhile = Meanwhile {
        turn: &turn,
        seat: other,
    };
    let Ok((busy, mut other)) = turn.try_look(&mut first, meanwhile) else {
        return Err("no look".into());
    };
    assert!(rt; busy);
    assert!(rt; turn.try_change(&mut other, Add { by: 5 }) == Ok(5));
    assert!(rt; turn.try_change(&mut other, Add { by: 0 }) == Ok(5));
    assert!(rt; turn.try_change(&mut first, Add { by: 1 }) == Err(ChangeFault::Exhausted));
    let Err(
        SeatsOut {
            turn,
            seat: mut first,
            out,
        },
    ) = turn.close(first)
    else {
        return Err("closed too soon".into());
    };
    assert!(rt; out == 1);
    turn.join(&mut first, other);
    assert!(rt; turn.close(first).map(|counter| counter.count()).ok() == Some(5));
    Ok(())
}

#[test]
fn seats_are_full_at_4096(rt: HostRuntime) -> Result<(), Fail> {
    let (turn, mut first) = open(rt.alloc(), 1)?;
    for _ in 1..4096 {
        let other = second(&turn, &mut first)?;
        turn.join(&mut first, other);
    }
    assert!(rt; turn.try_split(&mut first).err() == Some(SplitFault::SeatsFull));
    assert!(rt; turn.split(&rt, &mut first).err() == Some(SplitFault::SeatsFull));
    assert!(rt; turn.close(first).is_ok());
    Ok(())
}

#[test]
fn a_dropped_seat_stays_out(rt: HostRuntime) -> Result<(), Fail> {
    let (turn, mut first) = open(rt.alloc(), 1)?;
    drop(second(&turn, &mut first)?);
    drop(second(&turn, &mut first)?);
    let Err(SeatsOut { turn, seat, out }) = turn.close(first) else {
        return Err("closed too soon".into());
    };
    assert!(rt; out == 2);
    assert!(rt; turn.close(seat).err().map(|again| again.out) == Some(2));
    Ok(())
}

/// Adds 1, a thousand times.
fn add_many<R: Wait>(rt: &R, turn: &Turn<Counter>, mut seat: Seat<Counter>) -> Seat<Counter>
    requires { IsOf turn.now seat }
    ensures { IsOf turn.now result }
{
    for _ in 0..1000 {
        let _ = turn.change(rt, &mut seat, Add { by: 1 });
    }
    seat
}

/// The same by two seats, each in a thread of its own. One seat remains.
fn add_by_two<R: Threads + Wait + Sync>(
    rt: &R,
    turn: &Turn<Counter>,
    first: Seat<Counter>,
    second: Seat<Counter>,
) -> Seat<Counter>
    requires first { IsOf turn.now first }
    requires second { IsOf turn.now second }
    ensures { IsOf turn.now result }
{
    let (mut first, second) = join(
        rt,
        || -> Seat<Counter>
            requires { IsSync R.row × IsOf turn.now first }
            ensures { IsOf turn.entry.now result }
        { add_many(rt, turn, first) },
        || -> Seat<Counter>
            requires { IsSync R.row × IsOf turn.now second }
            ensures { IsOf turn.entry.now result }
        { add_many(rt, turn, second) },
    );
    turn.join(&mut first, second);
    first
}

/// Four seats, each in a thread of its own. One seat remains.
fn add_by_four<R: Threads + Wait + Sync>(
    rt: &R,
    turn: &Turn<Counter>,
    seats: (Seat<Counter>, Seat<Counter>, Seat<Counter>, Seat<Counter>),
) -> Seat<Counter>
    requires { IsOf turn.now seats.0 × IsOf turn.now seats.1 × IsOf turn.now seats.2 × IsOf turn.now seats.3 }
    ensures { IsOf turn.now result }
{
    let (a, b, c, d) = seats;
    let (mut one, two) = join(
        rt,
        || -> Seat<Counter>
            requires { IsSync R.row × IsOf turn.now a × IsOf turn.now b }
            ensures { IsOf turn.entry.now result }
        { add_by_two(rt, turn, a, b) },
        || -> Seat<Counter>
            requires { IsSync R.row × IsOf turn.now c × IsOf turn.now d }
            ensures { IsOf turn.entry.now result }
        { add_by_two(rt, turn, c, d) },
    );
    let note = turn.note(&mut one);
    let mut two = two;
    turn.hear(&mut two, note);
    turn.join(&mut one, two);
    one
}

#[test]
fn four_threads(rt: HostRuntime) -> Result<(), Fail> {
    let (turn, mut a) = open(rt.alloc(), 1 << 62)?;
    let b = second(&turn, &mut a)?;
    let c = second(&turn, &mut a)?;
    let d = second(&turn, &mut a)?;
    let all = add_by_four(&rt, &turn, (a, b, c, d));
    assert!(rt; turn.close(all).map(|counter| counter.count()).ok() == Some(4000));
    Ok(())
}
