//! A counter behind a turn.
ghost use Rattle.std.specs.Prelude.{◌≡◌};
ghost use Rattle.turn_kit.specs.Public.{IsOf};

use crate::counter::{Add, Counter};
use std::alloc::Global;
use std::sync::Wait;
use std::thread;
use std::thread::Threads;
use turn_kit::{Look, Seat, Turn};

/// More changes than any run makes.
const LIMIT: u64 = 1 << 62;

/// Reads the count.
#[derive(Drop)]
struct Read;

impl Look<Counter> for Read {
    type Answer = u64;

    ghost answers = { λ _ n r. r ≡ n };

    fn look(self, machine: &Counter) -> u64 {
        machine.count()
    }
}

/// A thread's part: a seat at the turn.
#[derive(Drop)]
struct Adder<'a> {
    turn: &'a Turn<Counter>,
    seat: Seat<Counter>,
    ghost of: { IsOf turn.now seat },
}

fn add_many<R: Wait>(rt: &R, turn: &Turn<Counter>, seat: &mut Seat<Counter>, times: u64)
    requires { IsOf turn.now seat.old }
{
    for _ in 0..times {
        let _ = turn.change(rt, seat, Add { by: 1 });
    }
}

fn run<R: Wait>(rt: &R, adder: Adder<'_>, times: u64) {
    let Adder { turn, mut seat } = adder;
    add_many(rt, turn, &mut seat, times);
}

fn adder_of<'a, R: Wait>(
    rt: &R,
    turn: &'a Turn<Counter>,
    first: &mut Seat<Counter>,
) -> anyhow::Result<Adder<'a>>
    requires { IsOf turn.now first.old }
    ensures { IsOf turn.now first.new }
{
    let seat = turn.split(rt, first)?;
    Ok(Adder { turn, seat })
}

fn adders<'a, R: Wait>(
    rt: &R,
    alloc: Global,
    turn: &'a Turn<Counter>,
    first: &mut Seat<Counter>,
    threads: usize,
) -> anyhow::Result<Vec<Adder<'a>>>
    requires { IsOf turn.now first.old }
    ensures { IsOf turn.now first.new }
{
    let mut adders = Vec::new(alloc);
    for _ in 0..threads {
        let adder = adder_of(rt, turn, first)?;
        adders.push(adder)?;
    }
    Ok(adders)
}

/// Each thread adds 1 so many times. The count at the end.
pub fn race<R: Threads + Wait + Sync + AllocGlobal>(
    rt: &R,
    threads: usize,
    times: u64,
) -> anyhow::Result<u64> {
    let (turn, mut first) = match Turn::new(rt.alloc(), Counter::new(), LIMIT) {
        Ok(made) => made,
        Err((_machine, fault)) => return Err(anyhow::Error::from(fault)),
    };
    let all = adders(rt, rt.alloc(), &turn, &mut first, threads)?;
    thread::map_vec(rt, all, &|adder: Adder| run(rt, adder, times))?;
    Ok(turn.look(rt, &mut first, Read))
}
