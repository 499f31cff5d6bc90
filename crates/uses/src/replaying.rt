//! A schedule of writers and gateways, tried without threads.
ghost use Rattle.std.specs.Prelude.{◌≡◌, ◌↔◌, ◌∷◌, [], true, None, IfOk, IfSome, IsTrue};
ghost use Rattle.schedule_kit.specs.Deeds.{TookSame};
ghost use Rattle.schedule_kit.specs.Deeds.Holder.{AtGateway};
ghost use Rattle.world_kit.specs.Building.{replies, setup_fault};
ghost use Rattle.world_kit.specs.Judged.{deeds};
ghost use Rattle.world_kit.specs.declared.event.Reply.TheVariants as answers;

use attr_kit::{NoMemory, Seq};
use plan_kit::Plan;
use point_kit::WriterId;
use std::alloc::Global;
use world_kit::{
    Event, Refusal, ReplayFault, Reply, Setup, SetupFault, World, WriterSetup, replay,
};

/// A setup of one writer, which starts at 100, and of one gateway, whose id is 1.
pub fn one_of_each(alloc: Global, id: WriterId, plan: Plan) -> anyhow::Result<Setup>
    ensures writers { IfOk result (λ setup. setup.writers ≡ record { id = id; plan = plan; start = 100 } ∷ []) }
    ensures gateways { IfOk result (λ setup. setup.gateways ≡ 1 ∷ []) }
{
    let mut writers = Vec::new(alloc);
    writers.push(WriterSetup {
        id,
        plan,
        start: 100,
    })?;
    let mut gateways = Vec::new(alloc);
    gateways.push(1)?;
    Ok(Setup {
        writers: Seq::from_vec(writers),
        gateways: Seq::from_vec(gateways),
    })
}

/// Whether a setup makes a world: no two of its gateways have one id.
pub fn makes_a_world(alloc: Global, setup: Setup) -> Result<bool, NoMemory>
    ensures { IfOk result (λ made. IsTrue made ↔ (setup_fault setup ≡ None)) }
{
    match World::new(alloc, setup) {
        Ok(_world) => Ok(true),
        Err(SetupFault::SameGateway(_, _)) => Ok(false),
        Err(SetupFault::NoMemory) => Err(NoMemory),
    }
}

/// What is replied to each event, in order.
pub fn replies_to(alloc: Global, setup: Setup, events: &[Event]) -> Result<Seq<Reply>, ReplayFault>
    ensures { IfOk result (λ said. said ≡ replies setup events.now) }
{
    let (_world, said) = replay(alloc, setup, events)?;
    Ok(said)
}

/// Why an event was refused; none where it was accepted.
pub fn refusal_of(reply: &Reply) -> Option<&Refusal>
    ensures { IfSome result (λ refusal. reply.now ≡ answers.Refused refusal.now) }
{
    match reply {
        Reply::Refused(refusal) => Some(refusal),
        _ => None,
    }
}

/// Whether two gateways hold the same once these events have happened, by their places; none where there is no such gateway.
/// Gateways that took the same exports do, whatever came twice, late, or by other gateways and mails.
pub fn agree_after(
    alloc: Global,
    setup: Setup,
    events: &[Event],
    one: usize,
    other: usize,
) -> anyhow::Result<Option<bool>>
    ensures same { TookSame (deeds setup events.now) (AtGateway one) (AtGateway other)
        → IfOk result (λ found. IfSome found (λ same. same ≡ true)) }
{
    let (world, _replies) = replay(alloc, setup, events)?;
    let Some(one) = world.node(one) else {
        return Ok(None);
    };
    let Some(other) = world.node(other) else {
        return Ok(None);
    };
    Ok(Some(one.gateway().same(other.gateway())))
}
