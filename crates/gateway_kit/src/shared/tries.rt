//! The calls that ask for the turn once and wait for nobody.
ghost use Rattle.std.specs.Prelude.{OnErr, IfOk, IfErr};
ghost use Rattle.gateway_kit.specs.Shared.{IsAt, Accepts, Adds, LooksAt, Sees, IsExhausted, LacksMemory};
ghost use Rattle.gateway_kit.specs.declared.shared.change.GatewayChange.TheVariants.{Taken, Merged};
ghost use Rattle.turn_kit.specs.Public.{IsLeft, AtBusy, AtExhausted, AtRefused};

use super::SharedGateway;
use super::steps::{Merge, Take};
use crate::gateway::Gateway;
use attr_kit::NoMemory;
use point_kit::Export;
use turn_kit::{Busy, ChangeFault, GiveBack, Look, Seat};

impl<G: GiveBack> SharedGateway<G> {
    /// Asks for the turn once, and takes an export where it is had, as `Gateway::take` does. Answers the number of keys
    /// whose cell changed.
    ///
    /// Refused: `Busy` where the turn is held, which it never is to the first seat before its first split; `Exhausted`
    /// where as many changes were accepted as the limit allows; `Refused` with `NoMemory`, which is never answered for an
    /// export without points. Nothing is changed then.
    pub fn try_take(
        &self,
        seat: &mut Seat<Gateway>,
        export: &Export,
    ) -> Result<u64, ChangeFault<NoMemory>>
        requires { IsAt self.now seat.old }
        ensures seat { IsAt self.now seat.new }
        ensures ok { IfOk result (λ n. Accepts self.now (Taken export.now) n seat.old seat.new) }
        ensures points { IfOk result (λ n. Adds self.now (Taken export.now) n seat.old seat.new) }
        ensures busy { IfErr result (AtBusy (IsLeft seat.old seat.new)) }
        ensures exhausted { IfErr result (AtExhausted (IsExhausted self.now seat.old seat.new)) }
        ensures no_memory { IfErr result (AtRefused (λ _. LacksMemory self.now (Taken export.now) seat.old seat.new)) }
    {
        self.turn.try_change(seat, Take { export })
    }

    /// Asks for the turn once, and merges another gateway in where it is had, as `Gateway::merge` does. Answers the number
    /// of keys whose cell changed.
    ///
    /// Refused: `Busy` where the turn is held, which it never is to the first seat before its first split; `Exhausted`
    /// where as many changes were accepted as the limit allows; `Refused` with `NoMemory`, which is never answered for an
    /// empty gateway. Nothing is changed then.
    pub fn try_merge(
        &self,
        seat: &mut Seat<Gateway>,
        other: &Gateway,
    ) -> Result<u64, ChangeFault<NoMemory>>
        requires { IsAt self.now seat.old }
        ensures seat { IsAt self.now seat.new }
        ensures ok { IfOk result (λ n. Accepts self.now (Merged other.now) n seat.old seat.new) }
        ensures points { IfOk result (λ n. Adds self.now (Merged other.now) n seat.old seat.new) }
        ensures busy { IfErr result (AtBusy (IsLeft seat.old seat.new)) }
        ensures exhausted { IfErr result (AtExhausted (IsExhausted self.now seat.old seat.new)) }
        ensures no_memory { IfErr result (AtRefused (λ _. LacksMemory self.now (Merged other.now) seat.old seat.new)) }
    {
        self.turn.try_change(seat, Merge { other })
    }

    /// Asks for the turn once, and looks at the gateway where it is had. A look is not counted.
    ///
    /// Refused where the turn is held.
    pub fn try_look<T: Look<Gateway>>(
        &self,
        seat: &mut Seat<Gateway>,
        look: T,
    ) -> Result<T::Answer, Busy>
        requires { IsAt self.now seat.old }
        ensures seat { IsAt self.now seat.new }
        ensures ok { IfOk result (λ r. LooksAt self.now (λ v. T.answers look v r) seat.old seat.new) }
        ensures points { IfOk result (λ r. Sees self.now (λ v. T.answers look v r) seat.new) }
        ensures busy { OnErr result (IsLeft seat.old seat.new) }
    {
        self.turn.try_look(seat, look)
    }
}
