//! A gateway that threads share: a turn over a gateway, whose every answer is tied to one history of what was taken and
//! merged.
ghost use Rattle.std.specs.Prelude.{◌≡◌, ◌↔◌, ◌<◌, ◌≤◌, ◌^◌, IfOk, IfErr};
ghost use Rattle.gateway_kit.specs.Shared.{IsAt, IsSameShared, first_of, most_of, after_gateway_change, Keeps, DependsOnChanges};
ghost use Rattle.turn_kit.specs.Public.{IsFirst, IsBadLimit, HasAsked, Closes, AreOut, told_out};
ghost use Rattle.turn_kit.specs.declared.fault.TurnFault.TheVariants.{BadLimit};

mod change;
mod steps;
#[cfg(test)]
mod tests;
mod tries;
mod waits;

use crate::gateway::Gateway;
pub use change::GatewayChange;
use std::alloc::Global;
use std::ops::Deref;
use turn_kit::{Quiet, Seat, Turn, TurnFault, Waking};

/// A gateway that threads take exports into, merge into and look at, each by a seat of its own.
///
/// What is accepted stands in one history, a list of (seat number, [`GatewayChange`]), and the points are the opening
/// gateway's joined with all that the history brought. So its order is irrelevant to them, and what came twice counts once.
///
/// It is a [`Turn`] over a gateway, whose calls on seats are its own: `note`, `hear`, `join`, `try_split` and `split`. `G`
/// says how its turn is given back, as there.
#[derive(Drop)]
pub struct SharedGateway<G = Waking> {
    pub(crate) turn: Turn<Gateway, G>,
}

impl<G> Deref for SharedGateway<G> {
    type Target = Turn<Gateway, G>;

    ghost deref_gives = { λ shared turn. turn ≡ shared.turn };

    fn deref(&self) -> &Turn<Gateway, G> {
        &self.turn
    }
}

/// The shared gateway was not closed, since other seats are out: they were split off and not joined.
#[derive(Drop)]
pub struct SeatsOut<G = Waking> {
    pub gateway: SharedGateway<G>,
    pub seat: Seat<Gateway>,
    /// How many, at least 1: what the turn's own count said at one step of `close`.
    pub out: u64,
}

impl SharedGateway {
    /// Shares a gateway, of which at most `limit` changes are accepted from now on, 1 to 2^62 of them, and its first seat.
    ///
    /// Refused, with the gateway handed back: `BadLimit`, then `NoMemory`. It takes two small blocks of memory.
    #[tactic(auto, using(crate::proofs::SharedPoints::depends_on_changes))]
    pub fn new(
        alloc: Global,
        gateway: Gateway,
        limit: u64,
    ) -> Result<(SharedGateway, Seat<Gateway>), (Gateway, TurnFault)>
        ensures ok { IfOk result (λ t. (0 < limit) × (limit ≤ 2 ^ 62)) }
        ensures first { IfOk result (λ t. (first_of t.0 ≡ gateway) × (most_of t.0 ≡ limit)) }
        ensures seat { IfOk result (λ t. IsAt t.0 t.1 × IsFirst t.1) }
        ensures gateway { IfErr result (λ e. e.0 ≡ gateway) }
        ensures bad_limit { IfErr result (λ e. (e.1 ≡ BadLimit) ↔ IsBadLimit limit) }

        // What a history brings depends on the changes in it alone, not on their order, nor on what came again.
        ensures orderless { DependsOnChanges }
    {
        let (turn, seat) = Turn::new(alloc, gateway, limit)?;
        Ok((SharedGateway { turn }, seat))
    }

    /// The same shared gateway, whose turn's giving back wakes nobody from now on, as a static library wants it. It has no
    /// calls that wait.
    pub fn into_quiet(self) -> SharedGateway<Quiet>
        ensures { IsSameShared self result }
    {
        let SharedGateway { turn } = self;
        SharedGateway {
            turn: turn.into_quiet(),
        }
    }
}

impl<G> SharedGateway<G> {
    /// The gateway, where no other seat is out. It is what the whole history makes of the opening one, and each change in
    /// the history is the closing seat's or one of a seat that was joined into it.
    ///
    /// Refused, with the shared gateway and the seat handed back, where other seats were split off and not joined. Takes
    /// no memory.
    pub fn close(self, seat: Seat<Gateway>) -> Result<Gateway, SeatsOut<G>>
        requires { IsAt self seat }
        ensures ok { IfOk result (Closes (λ g. g) after_gateway_change (first_of self) seat) }
        ensures points { IfOk result (λ g.
            (c : Closes (λ g. g) after_gateway_change (first_of self) seat g) × Keeps (first_of self) c.history g) }
        ensures err { IfErr result (λ e. (e.gateway ≡ self) × IsAt e.gateway e.seat × HasAsked seat e.seat) }
        ensures out { IfErr result (λ e. (e.out ≡ told_out e.seat) × (0 < e.out) × AreOut seat e.out) }
    {
        let SharedGateway { turn } = self;
        match turn.close(seat) {
            Ok(gateway) => Ok(gateway),
            Err(turn_kit::SeatsOut { turn, seat, out }) => Err(SeatsOut {
                gateway: SharedGateway { turn },
                seat,
                out,
            }),
        }
    }
}
