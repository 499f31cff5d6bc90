//! A schedule from its beginning.
ghost use Rattle.std.specs.Prelude.{◌≡◌, None, IfOk, IfErr, OnOk};
ghost use Rattle.world_kit.specs.Building.{replies, setup_fault};
ghost use Rattle.world_kit.specs.Answering.{AnswersRecorded};
ghost use Rattle.world_kit.specs.Converging.{AnswersAlike, Converges, IsReplayFault};
ghost use Rattle.world_kit.specs.Exact.{AreTold, HoldsNoConflict, HoldsNewest};
ghost use Rattle.world_kit.specs.Judged.{deeds};
ghost use Rattle.world_kit.specs.Stands.{Stands};

use crate::{Event, ReplayFault, Reply, Setup, World};
use attr_kit::Seq;
use std::alloc::Global;

/// Makes a world and does the events in their order. Answers the world and its replies, one for each event. The cost is
/// that of the events.
pub fn replay(
    alloc: Global,
    setup: Setup,
    events: &[Event],
) -> Result<(World, Seq<Reply>), ReplayFault>
    ensures ok { OnOk result (setup_fault setup ≡ None) }
    ensures stands { IfOk result (λ done. Stands setup (deeds setup events.now) done.0) }
    ensures value { IfOk result (λ done. done.1 ≡ replies setup events.now) }

    // Gateways that took the same exports hold equal points and answer alike.
    ensures converges { IfOk result (λ done. Converges (deeds setup events.now) done.0) }
    ensures alike { IfOk result (λ done. AnswersAlike (deeds setup events.now) done.0) }

    // Where no two writers share an identity, a gateway holds no conflict, of each incarnation its newest round taken, and
    // answers with what was recorded up to there.
    ensures no_conflict { AreTold setup → IfOk result (λ done. HoldsNoConflict done.0) }
    ensures newest { AreTold setup → IfOk result (λ done. HoldsNewest setup (deeds setup events.now) done.0) }
    ensures exact { AreTold setup → IfOk result (λ done. AnswersRecorded setup (deeds setup events.now) done.0) }
    ensures err { IfErr result (λ fault. IsReplayFault setup events.now fault) }
{
    let mut world = World::new(alloc, setup)?;
    let mut replies = Vec::new(alloc);
    for event in events {
        if replies.reserve(1).is_err() {
            return Err(ReplayFault::NoMemory(replies.len()));
        }
        let Ok(reply) = world.apply(event) else {
            return Err(ReplayFault::NoMemory(replies.len()));
        };
        replies.push_reserved(reply);
    }
    Ok((world, Seq::from_vec(replies)))
}
