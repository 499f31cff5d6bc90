//! Calls of gateways that threads share. Each may accept one change: what was refused is made again, and counts for nothing.
ghost use Rattle.std.specs.Prelude.{IfOk};
ghost use Rattle.gateway_kit.specs.Shared.{IsAt};

use crate::start::{export, gateway};
use crate::telling::{call_begins, call_ends, state, tell, tell_twice};
use anyhow::{bail, ensure};
use attr_kit::NoMemory;
use gateway_kit::{Gateway, SharedGateway};
use point_kit::Export;
use std::alloc::Global;
use std::sync::Wait;
use turn_kit::{ChangeFault, Look, Seat};

// Whether the gateway holds the same as another.
#[derive(Drop)]
struct IsSame<'a>(&'a Gateway);

impl Look<Gateway> for IsSame<'_> {
    type Answer = bool;

    ghost answers = { λ _ _ _. Unit {0} };

    fn look(self, machine: &Gateway) -> bool {
        self.0.same(machine)
    }
}

fn new(rt: &(impl Wait + Print + Eprint + AllocGlobal)) -> anyhow::Result<()> {
    let gateway = gateway(rt.alloc(), 1, 200)?;
    let before = gateway.try_copy()?;
    call_begins(rt);
    let answer = SharedGateway::new(rt.alloc(), gateway, 1);
    call_ends(rt);
    match answer {
        Ok(_) => tell(rt, &"Ok", state(false)),
        Err((gateway, fault)) => tell(rt, &fault, state(gateway.same(&before))),
    }
}

// A shared gateway that accepts so many changes, and the only seat at it. Each function below knows no more of it than that
// they belong together: what else a new one promises would stand in each of their proofs.
fn share(
    alloc: Global,
    gateway: Gateway,
    limit: u64,
) -> anyhow::Result<(SharedGateway, Seat<Gateway>)>
    ensures { IfOk result (λ t. IsAt t.0 t.1) }
{
    match SharedGateway::new(alloc, gateway, limit) {
        Ok(made) => Ok(made),
        Err(_) => bail!("not shared"),
    }
}

/// What is taken or merged.
#[derive(Clone, Copy)]
enum Change<'a> {
    Take(&'a Export),
    Merge(&'a Gateway),
}

// A change, by the call that waits for nobody or by the one that may wait.
fn make_change(
    rt: &impl Wait,
    shared: &SharedGateway,
    seat: &mut Seat<Gateway>,
    change: Change<'_>,
    waits: bool,
) -> Result<u64, ChangeFault<NoMemory>>
    requires { IsAt shared.now seat.old }
    ensures { IsAt shared.now seat.new }
{
    match (change, waits) {
        (Change::Take(export), false) => shared.try_take(seat, export),
        (Change::Take(export), true) => shared.take(rt, seat, export),
        (Change::Merge(other), false) => shared.try_merge(seat, other),
        (Change::Merge(other), true) => shared.merge(rt, seat, other),
    }
}

// A change of this gateway, and the same again.
fn changes(
    rt: &(impl Wait + Print + Eprint + AllocGlobal),
    gateway: Gateway,
    change: Change<'_>,
    waits: bool,
) -> anyhow::Result<()> {
    let before = gateway.try_copy()?;
    let (shared, mut seat) = share(rt.alloc(), gateway, 1)?;
    call_begins(rt);
    let answer = make_change(rt, &shared, &mut seat, change, waits);
    call_ends(rt);
    let left = state(shared.look(rt, &mut seat, IsSame(&before)));
    let again = make_change(rt, &shared, &mut seat, change, false);
    tell_twice(rt, &answer, left, &again)
}

// A take, by the call that waits for nobody or by the one that may wait.
fn take(rt: &(impl Wait + Print + Eprint + AllocGlobal), waits: bool) -> anyhow::Result<()> {
    let export = export(rt.alloc(), 2, 200)?;
    let gateway = gateway(rt.alloc(), 1, 200)?;
    changes(rt, gateway, Change::Take(&export), waits)
}

// The same of a merge, into an empty one.
fn merge(rt: &(impl Wait + Print + Eprint + AllocGlobal), waits: bool) -> anyhow::Result<()> {
    let other = gateway(rt.alloc(), 2, 200)?;
    let empty = Gateway::new(rt.alloc(), 1);
    changes(rt, empty, Change::Merge(&other), waits)
}

// Whether a shared gateway, which is looked at by the call that waits for nobody, holds the same as another.
fn is_same(
    shared: &SharedGateway,
    seat: &mut Seat<Gateway>,
    before: &Gateway,
) -> anyhow::Result<bool>
    requires { IsAt shared.now seat.old }
    ensures { IsAt shared.now seat.new }
{
    match shared.try_look(seat, IsSame(before)) {
        Ok(is_same) => Ok(is_same),
        Err(_) => bail!("not looked at"),
    }
}

// The last of the takes that a shared gateway accepts. Once another is refused for good, it is still looked at.
fn takes_last(
    rt: &(impl Print + Eprint),
    shared: &SharedGateway,
    seat: &mut Seat<Gateway>,
    before: &Gateway,
    export: &Export,
) -> anyhow::Result<()>
    requires { IsAt shared.now seat.old }
{
    call_begins(rt);
    let answer = shared.try_take(seat, export);
    call_ends(rt);
    let is_as_before = is_same(shared, seat, before)?;
    let again = shared.try_take(seat, export);
    ensure!(!is_same(shared, seat, before)?, "the last take is lost");
    tell_twice(rt, &answer, state(is_as_before), &again)
}

// The second of the two takes that a shared gateway accepts.
fn last_take(rt: &(impl Print + Eprint + AllocGlobal)) -> anyhow::Result<()> {
    let before = gateway(rt.alloc(), 1, 200)?;
    let second = export(rt.alloc(), 2, 200)?;
    let (shared, mut seat) = share(rt.alloc(), Gateway::new(rt.alloc(), 1), 2)?;
    takes_first(rt.alloc(), &shared, &mut seat)?;
    takes_last(rt, &shared, &mut seat, &before, &second)
}

// The first of two.
fn takes_first(
    alloc: Global,
    shared: &SharedGateway,
    seat: &mut Seat<Gateway>,
) -> anyhow::Result<()>
    requires { IsAt shared.now seat.old }
    ensures { IsAt shared.now seat.new }
{
    let first = export(alloc, 1, 200)?;
    match shared.try_take(seat, &first) {
        Ok(3) => Ok(()),
        _ => bail!("the first is not taken"),
    }
}

/// Makes a call of a shared gateway, if this is the name of one.
pub fn make_call(
    rt: &(impl Wait + Print + Eprint + AllocGlobal),
    call: &str,
) -> anyhow::Result<bool> {
    match call {
        "SharedGateway::new" => new(rt)?,
        "SharedGateway::try_take" => take(rt, false)?,
        "SharedGateway::take" => take(rt, true)?,
        "SharedGateway::try_take, the last of two" => last_take(rt)?,
        "SharedGateway::try_merge" => merge(rt, false)?,
        "SharedGateway::merge" => merge(rt, true)?,
        _ => return Ok(false),
    }
    Ok(true)
}
