//! Gateways that tell each other what they hold.
ghost use Rattle.std.specs.Prelude.{◌≡◌, true, IfOk, IfSome, OnOk};
ghost use Rattle.std.specs.FinMap as finite;
ghost use Rattle.gossip_kit.specs.Gossip.{acknowledged};
ghost use Rattle.point_kit.specs.Exports.{join_points};
ghost use Rattle.point_kit.specs.Join.{IsAtOrBelow};

use gossip_kit::{Body, Message, Node};

// Hands the answer to a message back, where there is one. It carries no points.
#[tactic(auto, using(crate::proofs::Gossiped::kept_all))]
fn hear_back(node: &mut Node, answer: Option<Message>) -> anyhow::Result<()>
    requires { IfSome answer (λ m. m.points ≡ finite.empty) }
    ensures { node.new.gateway.points ≡ node.old.gateway.points }
{
    if let Some(answer) = answer {
        node.hand(&answer)?;
    }
    Ok(())
}

/// Tells `to` what `from` holds, and hands the answer back. `to` then holds what both held, and `from` what it did.
///
/// The message carries only what changed since `to` last acknowledged, which `to` must still hold.
#[tactic(auto, using(crate::proofs::Gossiped::told_all, crate::proofs::Gossiped::answer_empty, crate::proofs::Gossiped::same_acked))]
pub fn tell(from: &mut Node, to: &mut Node) -> anyhow::Result<()>
    requires { IsAtOrBelow join_points (acknowledged from.old to.old.gateway.id) to.old.gateway.points }
    ensures told { OnOk result (to.new.gateway.points ≡ join_points to.old.gateway.points from.old.gateway.points) }
    ensures kept { from.new.gateway.points ≡ from.old.gateway.points }
    ensures acked { OnOk result (to.new.acked ≡ to.old.acked) }
{
    let message: Message = from.send(to.gateway().id())?;
    let answer = to.hand(&message)?;
    hear_back(from, answer)
}

/// Whether two gateways that nobody has acknowledged anything to hold the same once each told the other: they always do.
#[tactic(auto, using(crate::proofs::Gossiped::met, crate::proofs::Gossiped::nothing_acknowledged))]
pub fn meet(one: &mut Node, other: &mut Node) -> anyhow::Result<bool>
    requires { (one.old.acked ≡ finite.empty) × (other.old.acked ≡ finite.empty) }
    ensures same { IfOk result (λ same. same ≡ true) }
    ensures all { IfOk result (λ _. one.new.gateway.points ≡ join_points one.old.gateway.points other.old.gateway.points) }
{
    tell(one, other)?;
    tell(other, one)?;
    Ok(one.gateway().same(other.gateway()))
}

/// The number of the delta that a message acknowledges; none where it carries cells.
pub fn number_acknowledged(message: &Message) -> Option<u64>
    ensures { result ≡ message.now.ack }
{
    match message.body() {
        Body::Ack(number) => Some(*number),
        Body::Whole(_) | Body::Delta { .. } => None,
    }
}
