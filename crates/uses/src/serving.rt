//! A gateway that threads share: who delivers, who looks, and who tells another seat what was seen.
ghost use Rattle.std.specs.Prelude.{◌≡◌, ◌<◌, IfOk, IfErr};
ghost use Rattle.gateway_kit.specs.Shared.{History, IsAt, Adds, Keeps, Sees, first_of};
ghost use Rattle.gateway_kit.specs.declared.shared.change.GatewayChange.TheVariants.{Taken};
ghost use Rattle.turn_kit.specs.History.{StartsWith};
ghost use Rattle.turn_kit.specs.Public.{seen};
ghost use Rattle.uses.specs.Serving.{conflicts_in};

use attr_kit::NoMemory;
use gateway_kit::{Gateway, SeatsOut, SharedGateway};
use point_kit::Export;
use std::sync::Wait;
use turn_kit::{ChangeFault, Look, Note, Seat};

/// Delivers an export while other threads deliver, too. The answer is how many keys it changed at its place in the history.
pub fn deliver<R: Wait>(
    rt: &R,
    shared: &SharedGateway,
    seat: &mut Seat<Gateway>,
    export: &Export,
) -> Result<u64, ChangeFault<NoMemory>>
    requires { IsAt shared.now seat.old }
    ensures at { IsAt shared.now seat.new }
    ensures taken { IfOk result (λ n. Adds shared.now (Taken export.now) n seat.old seat.new) }
{
    shared.take(rt, seat, export)
}

/// Counts the conflicts of a gateway.
#[derive(Clone, Copy, Debug, Drop)]
pub struct Conflicts;

impl Look<Gateway> for Conflicts {
    type Answer = u64;

    ghost answers = { λ _ gateway n. n ≡ conflicts_in gateway };

    fn look(self, gateway: &Gateway) -> u64 {
        gateway.conflicts()
    }
}

/// How many conflicts a gateway holds, asked while other threads deliver: those of all that this seat has then seen.
pub fn conflicts_now<R: Wait>(rt: &R, shared: &SharedGateway, seat: &mut Seat<Gateway>) -> u64
    requires { IsAt shared.now seat.old }
    ensures at { IsAt shared.now seat.new }
    ensures value { Sees shared.now (λ gateway. result ≡ conflicts_in gateway) seat.new }
{
    shared.look(rt, seat, Conflicts)
}

/// Tells another seat what this one has seen: from now on each of its looks has all of that, too.
pub fn pass_on(shared: &SharedGateway, from: &mut Seat<Gateway>, to: &mut Seat<Gateway>)
    requires { IsAt shared.now from.old × IsAt shared.now to.old }
    ensures at { IsAt shared.now from.new × IsAt shared.now to.new }
    ensures heard { StartsWith (seen to.new) (seen from.old) }
    ensures kept { StartsWith (seen to.new) (seen to.old) }
{
    let note: Note<Gateway> = shared.note(from);
    shared.hear(to, note);
}

/// The gateway at the end, once every other seat was joined into this one: it has all that the history brought. Where seats are
/// out, how many.
pub fn close(shared: SharedGateway, seat: Seat<Gateway>) -> Result<Gateway, u64>
    requires { IsAt shared seat }
    ensures all { IfOk result (λ gateway. (history : History) × Keeps (first_of shared) history gateway) }
    ensures out { IfErr result (λ out. 0 < out) }
{
    match shared.close(seat) {
        Ok(gateway) => Ok(gateway),
        Err(SeatsOut { out, .. }) => Err(out),
    }
}
