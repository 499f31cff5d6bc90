//! Shared gateways: seats, a turn that is held, and two threads at once.
ghost use Rattle.std.specs.Prelude.{◌≡◌, IfOk};
ghost use Rattle.gateway_kit.specs.Shared.{IsAt};
ghost use denote.Param.Send.{IsSync};

use super::*;
use crate::tests::builders::{single, told};
use attr_kit::NoMemory;
use point_kit::Export;
use std::sync::Wait;
use std::test::Fail;
use std::thread::{Threads, join};
use turn_kit::{Busy, ChangeFault, Look};

/// Copies what is held.
#[derive(Drop)]
struct Copied;

impl Look<Gateway> for Copied {
    type Answer = Result<Gateway, NoMemory>;

    ghost answers = { λ _ g r. IfOk r (λ copy. copy ≡ g) };

    fn look(self, machine: &Gateway) -> Result<Gateway, NoMemory> {
        machine.try_copy()
    }
}

/// A shared gateway and a seat at it.
#[derive(Drop)]
struct Served {
    shared: SharedGateway,
    seat: Seat<Gateway>,
    ghost at: { IsAt shared seat },
}

impl Served {
    // An empty gateway, shared.
    fn open(alloc: Global, limit: u64) -> Result<Served, Fail> {
        match SharedGateway::new(alloc, Gateway::new(alloc, 1), limit) {
            Ok((shared, seat)) => Ok(Served { shared, seat }),
            Err(_) => Err("not shared".into()),
        }
    }
}

/// Asks for the turn that is held, by another seat, and gives that seat back.
#[derive(Drop)]
struct Meanwhile<'a> {
    shared: &'a SharedGateway,
    seat: Seat<Gateway>,
    export: &'a Export,
    ghost at: { IsAt shared.now seat },
}

impl<'a> Look<Gateway> for Meanwhile<'a> {
    type Answer = (bool, Seat<Gateway>);

    ghost answers = { λ m _ r. IsAt m.shared.now r.1 };

    fn look(self, machine: &Gateway) -> (bool, Seat<Gateway>) {
        let Meanwhile {
            shared,
            mut seat,
            export,
        } = self;
        let busy = shared.try_take(&mut seat, export) == Err(ChangeFault::Busy)
            && shared.try_merge(&mut seat, machine) == Err(ChangeFault::Busy)
            && shared.try_look(&mut seat, Copied).err() == Some(Busy);
        (busy, seat)
    }
}

#[test]
fn a_held_turn_is_busy(rt: HostRuntime) -> Result<(), Fail> {
    let export = single(rt.alloc(), 1, 100, 200, 7)?;
    let Served { shared, mut seat } = Served::open(rt.alloc(), 8)?;
    let Ok(other) = shared.try_split(&mut seat) else {
        return Err("no second seat".into());
    };
    let meanwhile = Meanwhile {
        shared: &shared,
        seat: other,
        export: &export,
    };
    let Ok((busy, _other)) = shared.try_look(&mut seat, meanwhile) else {
        return Err("no look".into());
    };
    assert!(rt; busy);
    Ok(())
}

/// Takes an export.
fn take_once<R: Wait>(
    rt: &R,
    shared: &SharedGateway,
    mut seat: Seat<Gateway>,
    export: &Export,
) -> Seat<Gateway>
    requires { IsAt shared.now seat }
    ensures { IsAt shared.now result }
{
    let _ = shared.take(rt, &mut seat, export);
    seat
}

/// Merges a gateway in.
fn merge_once<R: Wait>(
    rt: &R,
    shared: &SharedGateway,
    mut seat: Seat<Gateway>,
    other: &Gateway,
) -> Seat<Gateway>
    requires { IsAt shared.now seat }
    ensures { IsAt shared.now result }
{
    let _ = shared.merge(rt, &mut seat, other);
    seat
}

/// The one in a thread and the other in another. One seat remains.
fn take_beside_merge<R: Threads + Wait + Sync>(
    rt: &R,
    shared: &SharedGateway,
    seats: (Seat<Gateway>, Seat<Gateway>),
    export: &Export,
    other: &Gateway,
) -> Seat<Gateway>
    requires { IsAt shared.now seats.0 × IsAt shared.now seats.1 }
    ensures { IsAt shared.now result }
{
    let (one, two) = seats;
    let (mut one, two) = join(
        rt,
        || -> Seat<Gateway>
            requires { IsSync R.row × IsAt shared.now one }
            ensures { IsAt shared.entry.now result }
        { take_once(rt, shared, one, export) },
        || -> Seat<Gateway>
            requires { IsSync R.row × IsAt shared.now two }
            ensures { IsAt shared.entry.now result }
        { merge_once(rt, shared, two, other) },
    );
    shared.join(&mut one, two);
    one
}

// What is held after both threads have ended, by a look that waits.
fn after_threads<R: Threads + Wait + Sync>(
    rt: &R,
    served: Served,
    export: &Export,
    other: &Gateway,
) -> Result<Gateway, Fail> {
    let Served { shared, mut seat } = served;
    let Ok(new) = shared.split(rt, &mut seat) else {
        return Err("no second seat".into());
    };
    let mut all = take_beside_merge(rt, &shared, (seat, new), export, other);
    Ok(shared.look(rt, &mut all, Copied)?)
}

#[test]
fn a_take_beside_a_merge(rt: HostRuntime) -> Result<(), Fail> {
    let alloc = rt.alloc();
    let a = single(alloc, 1, 100, 200, 7)?;
    let b = single(alloc, 2, 100, 200, 5)?;
    let other = told(alloc, 2, &[&b])?;
    let held = after_threads(&rt, Served::open(alloc, 2)?, &a, &other)?;
    assert!(rt; held.same(&told(alloc, 3, &[&a, &b])?));
    Ok(())
}
