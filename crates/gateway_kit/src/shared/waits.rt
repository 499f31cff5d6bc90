//! The calls that ask for the turn until they have it.
ghost use Rattle.std.specs.Prelude.{IfOk, IfErr};
ghost use Rattle.gateway_kit.specs.Shared.{IsAt, Accepts, Adds, LooksAt, Sees, IsExhausted, LacksMemory};
ghost use Rattle.gateway_kit.specs.declared.shared.change.GatewayChange.TheVariants.{Taken, Merged};
ghost use Rattle.turn_kit.specs.Public.{AtBusy, AtExhausted, AtRefused};

use super::SharedGateway;
use super::steps::{Merge, Take};
use crate::gateway::Gateway;
use attr_kit::NoMemory;
use point_kit::Export;
use std::sync::Wait;
use turn_kit::{ChangeFault, Look, Seat};

impl SharedGateway {
    /// Asks for the turn until it is had, and then takes an export, once, as `Gateway::take` does. Answers the number of
    /// keys whose cell changed.
    ///
    /// Refused: `Exhausted` where as many changes were accepted as the limit allows; `Refused` with `NoMemory`, which is
    /// never answered for an export without points. Nothing is changed then. It never answers `Busy`.
    pub fn take<R: Wait>(
        &self,
        rt: &R,
        seat: &mut Seat<Gateway>,
        export: &Export,
    ) -> Result<u64, ChangeFault<NoMemory>>
        requires { IsAt self.now seat.old }
        ensures seat { IsAt self.now seat.new }
        ensures ok { IfOk result (λ n. Accepts self.now (Taken export.now) n seat.old seat.new) }
        ensures points { IfOk result (λ n. Adds self.now (Taken export.now) n seat.old seat.new) }
        ensures busy { IfErr result (AtBusy ⊥) }
        ensures exhausted { IfErr result (AtExhausted (IsExhausted self.now seat.old seat.new)) }
        ensures no_memory { IfErr result (AtRefused (λ _. LacksMemory self.now (Taken export.now) seat.old seat.new)) }
    {
        self.turn.change(rt, seat, Take { export })
    }

    /// Asks for the turn until it is had, and then merges another gateway in, once, as `Gateway::merge` does. Answers the
    /// number of keys whose cell changed.
    ///
    /// Refused: `Exhausted` where as many changes were accepted as the limit allows; `Refused` with `NoMemory`, which is
    /// never answered for an empty gateway. Nothing is changed then. It never answers `Busy`.
    pub fn merge<R: Wait>(
        &self,
        rt: &R,
        seat: &mut Seat<Gateway>,
        other: &Gateway,
    ) -> Result<u64, ChangeFault<NoMemory>>
        requires { IsAt self.now seat.old }
        ensures seat { IsAt self.now seat.new }
        ensures ok { IfOk result (λ n. Accepts self.now (Merged other.now) n seat.old seat.new) }
        ensures points { IfOk result (λ n. Adds self.now (Merged other.now) n seat.old seat.new) }
        ensures busy { IfErr result (AtBusy ⊥) }
        ensures exhausted { IfErr result (AtExhausted (IsExhausted self.now seat.old seat.new)) }
        ensures no_memory { IfErr result (AtRefused (λ _. LacksMemory self.now (Merged other.now) seat.old seat.new)) }
    {
        self.turn.change(rt, seat, Merge { other })
    }

    /// Asks for the turn until it is had, and then looks at the gateway.
    pub fn look<T: Look<Gateway>, R: Wait>(
        &self,
        rt: &R,
        seat: &mut Seat<Gateway>,
        look: T,
    ) -> T::Answer
        requires { IsAt self.now seat.old }
        ensures seat { IsAt self.now seat.new }
        ensures value { LooksAt self.now (λ v. T.answers look v result) seat.old seat.new }
        ensures points { Sees self.now (λ v. T.answers look v result) seat.new }
    {
        self.turn.look(rt, seat, look)
    }
}
