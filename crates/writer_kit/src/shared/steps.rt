//! The changes of a shared writer, each made while the turn is held.
ghost use Rattle.std.specs.Prelude.{◌≡◌, length, true};
ghost use Rattle.agg_kit.specs.Entries.{entry_of};
ghost use Rattle.recorder_kit.specs.Log.{ByName, ByNumber};
ghost use Rattle.writer_kit.specs.Shared.{IsRound, MayRefuse, MayRefuseHold, MayRefuseRound};
ghost use Rattle.writer_kit.specs.Taking.{IsTaken, gone};
ghost use Rattle.writer_kit.specs.declared.shared.change.WriterChange.TheVariants.{Measured, MeasuredHeld, Held, Collected, TakenIn};

use crate::{Closed, CollectFault, MeasureFault, Writer};
use attr_kit::AttrSet;
use bumpalo::Bump;
use recorder_kit::{Recorder, Taken};
use round_kit::Round;
use turn_kit::{Step, StepMut};

/// Records a value.
#[derive(Drop)]
pub(crate) struct Measure<'a> {
    pub instrument: usize,
    pub attrs: &'a AttrSet,
    pub value: i64,
}

impl<'a> Step<Writer> for Measure<'a> {
    type Reply = ();

    type Refusal = MeasureFault;

    ghost entry = { λ m. Measured m.instrument m.attrs.now m.value };

    ghost replies = { λ m w r. Unit {0} };

    ghost refuses = { λ m w f. MayRefuse w (ByName (entry_of m.instrument m.attrs.now m.value)) f };

    #[tactic(auto, using(crate::proofs::Sharing::after_writer_change_measured, crate::proofs::Sharing::may_refuse))]
    fn step(self, machine: &mut Writer) -> Result<(), MeasureFault> {
        machine.measure(self.instrument, self.attrs, self.value)
    }
}

/// Records a value at a held point.
#[derive(Drop)]
pub(crate) struct MeasureHeld {
    pub number: usize,
    pub value: i64,
}

impl Step<Writer> for MeasureHeld {
    type Reply = ();

    type Refusal = MeasureFault;

    ghost entry = { λ m. MeasuredHeld m.number m.value };

    ghost replies = { λ m w r. Unit {0} };

    ghost refuses = { λ m w f. MayRefuse w (ByNumber m.number m.value) f };

    #[tactic(auto, using(crate::proofs::Sharing::after_writer_change_measured_held, crate::proofs::Sharing::may_refuse))]
    fn step(self, machine: &mut Writer) -> Result<(), MeasureFault> {
        machine.measure_held(self.number, self.value)
    }
}

/// Holds an instrument and a set.
#[derive(Drop)]
pub(crate) struct Hold<'a> {
    pub instrument: usize,
    pub attrs: &'a AttrSet,
}

impl<'a> Step<Writer> for Hold<'a> {
    type Reply = usize;

    type Refusal = MeasureFault;

    ghost entry = { λ h. Held h.instrument h.attrs.now };

    ghost replies = { λ h w n. n ≡ length w.tally.held };

    ghost refuses = { λ h w f. MayRefuseHold w h.instrument f };

    #[tactic(auto, using(crate::proofs::Sharing::after_writer_change_held, crate::proofs::Sharing::may_refuse_hold))]
    fn step(self, machine: &mut Writer) -> Result<usize, MeasureFault> {
        machine.hold(self.instrument, self.attrs)
    }
}

/// Collects the points, in an arena.
#[derive(Drop)]
pub(crate) struct Collect<'b> {
    pub arena: &'b Bump,
    pub time: u64,
}

impl<'b> Step<Writer> for Collect<'b> {
    type Reply = Round<'b>;

    type Refusal = CollectFault;

    ghost entry = { λ c. Collected c.time };

    ghost replies = { λ c w r. IsRound w c.time r };

    ghost refuses = { λ c w f. MayRefuseRound w c.time f };

    #[tactic(auto, using(crate::proofs::Sharing::after_writer_change_collected, crate::proofs::Sharing::is_round, crate::proofs::Sharing::may_refuse_round))]
    fn step(self, machine: &mut Writer) -> Result<Round<'b>, CollectFault> {
        machine.collect(self.arena, self.time)
    }
}

/// Takes in recordings from the front of a log, at most so many. The entry is what is gone from the log then.
#[derive(Drop)]
pub(crate) struct TakeIn<'a> {
    pub recorder: &'a mut Recorder,
    pub most: usize,
}

impl<'a> StepMut<Writer> for TakeIn<'a> {
    type Reply = Taken;

    type Refusal = Closed;

    ghost entry = { λ t u. TakenIn (gone t.recorder.now u.recorder.now) };

    ghost replies = { λ t w k u. (u.recorder.ghost_name ≡ t.recorder.ghost_name) × IsTaken w t.recorder.now u.recorder.now t.most k };

    ghost refuses = { λ t w f. w.closed ≡ true };

    #[tactic(auto, using(crate::proofs::Sharing::after_writer_change_taken_in))]
    fn step_mut(&mut self, machine: &mut Writer) -> Result<Taken, Closed> {
        machine.take_in(self.recorder, self.most)
    }
}
