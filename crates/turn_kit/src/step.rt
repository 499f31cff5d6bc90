//! A change of a machine.
ghost use Rattle.std.specs.Prelude.{◌≡◌, Some, IfOk, IfErr, OnOk, OnErr};

use crate::machine::Machine;

/// One change, made while the turn is held.
///
/// `Ok` is one accepted entry, and `Err` leaves the state as it was.
pub trait Step<M: Machine>: Drop {
    type Reply;

    type Refusal;

    // The entry that the step adds to the history where it is accepted.
    ghost entry: { Self → M.Entry };

    // What it may reply, and how it may refuse, where it found the machine so.
    ghost replies: { Self → M → Self.Reply → Type 0 };

    ghost refuses: { Self → M → Self.Refusal → Type 0 };

    fn step(self, machine: &mut M) -> Result<Self::Reply, Self::Refusal>
        ensures accepted { OnOk result (M.after (M.state machine.old) (entry self) ≡ Some (M.state machine.new)) }
        ensures ok { IfOk result (replies self machine.old) }
        ensures unchanged { OnErr result (M.state machine.new ≡ M.state machine.old) }
        ensures err { IfErr result (refuses self machine.old) };
}
