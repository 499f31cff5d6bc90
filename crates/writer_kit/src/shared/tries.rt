//! The calls that ask for the turn once and wait for nobody.
ghost use Rattle.std.specs.Prelude.{◌≡◌, length, true, OnErr, IfOk, IfErr};
ghost use Rattle.agg_kit.specs.Entries.{entry_of};
ghost use Rattle.recorder_kit.specs.Log.{ByName, ByNumber};
ghost use Rattle.turn_kit.specs.Public.{IsLeft, AtBusy, AtExhausted, AtRefused};
ghost use Rattle.writer_kit.specs.Shared.{IsAt, IsRound, Accepts, Adds, HasAllMeasured, IsNewest, LooksAt, Sees, StandsForSet};
ghost use Rattle.writer_kit.specs.Shared.{IsExhausted, IsRefused, MayRefuse, MayRefuseHold, MayRefuseRound};
ghost use Rattle.writer_kit.specs.Taking.{IsTaken, gone};
ghost use Rattle.writer_kit.specs.declared.shared.change.WriterChange.TheVariants.{Measured, MeasuredHeld, Held, Collected, TakenIn};

use super::SharedWriter;
use super::steps::{Collect, Hold, Measure, MeasureHeld, TakeIn};
use crate::{Closed, CollectFault, MeasureFault, Writer};
use attr_kit::AttrSet;
use bumpalo::Bump;
use recorder_kit::{Recorder, Taken};
use round_kit::Round;
use turn_kit::{Busy, ChangeFault, GiveBack, Look, Seat};

impl<G: GiveBack> SharedWriter<G> {
    /// Asks for the turn once, and records a value where it is had, as `Writer::measure` does. The turn is held for one
    /// recording.
    ///
    /// Refuses, in this order: `Busy`; `Exhausted`; `Refused` with what `Writer::measure` refuses. Nothing is recorded then.
    pub fn try_measure(
        &self,
        seat: &mut Seat<Writer>,
        instrument: usize,
        attrs: &AttrSet,
        value: i64,
    ) -> Result<(), ChangeFault<MeasureFault>>
        requires { IsAt self.now seat.old }
        ensures seat { IsAt self.now seat.new }
        ensures ok { IfOk result (λ r. Accepts self.now (Measured instrument attrs.now value) (λ w. Unit {0}) seat.old seat.new) }
        ensures serves { IfOk result (λ r. Adds self.now (Measured instrument attrs.now value) seat.old seat.new) }
        ensures busy { IfErr result (AtBusy (IsLeft seat.old seat.new)) }
        ensures exhausted { IfErr result (AtExhausted (IsExhausted self.now seat.old seat.new)) }
        ensures refused { IfErr result (AtRefused (λ f. IsRefused self.now
            (λ w. MayRefuse w (ByName (entry_of instrument attrs.now value)) f) seat.old seat.new)) }
    {
        self.turn.try_change(
            seat,
            Measure {
                instrument,
                attrs,
                value,
            },
        )
    }

    /// Asks for the turn once, and holds an instrument and a set where it is had, as `Writer::hold` does. Each seat may
    /// record by the number. It is one change, which the limit counts.
    ///
    /// Refuses, in this order: `Busy`; `Exhausted`; `Refused` with what `Writer::hold` refuses. Nothing is held then.
    pub fn try_hold(
        &self,
        seat: &mut Seat<Writer>,
        instrument: usize,
        attrs: &AttrSet,
    ) -> Result<usize, ChangeFault<MeasureFault>>
        requires { IsAt self.now seat.old }
        ensures seat { IsAt self.now seat.new }
        ensures ok { IfOk result (λ r. Accepts self.now (Held instrument attrs.now) (λ w. r ≡ length w.tally.held) seat.old seat.new) }
        ensures serves { IfOk result (λ r. Adds self.now (Held instrument attrs.now) seat.old seat.new) }
        ensures stands { IfOk result (λ n. StandsForSet self.now n instrument attrs.now seat.new) }
        ensures busy { IfErr result (AtBusy (IsLeft seat.old seat.new)) }
        ensures exhausted { IfErr result (AtExhausted (IsExhausted self.now seat.old seat.new)) }
        ensures refused { IfErr result (AtRefused (λ f. IsRefused self.now (λ w. MayRefuseHold w instrument f) seat.old seat.new)) }
    {
        self.turn.try_change(seat, Hold { instrument, attrs })
    }

    /// Asks for the turn once, and records a value by a number where it is had, as `Writer::measure_held` does. The
    /// turn is held for one recording.
    ///
    /// Refuses, in this order: `Busy`; `Exhausted`; `Refused` with what `Writer::measure_held` refuses. Nothing is recorded then.
    pub fn try_measure_held(
        &self,
        seat: &mut Seat<Writer>,
        number: usize,
        value: i64,
    ) -> Result<(), ChangeFault<MeasureFault>>
        requires { IsAt self.now seat.old }
        ensures seat { IsAt self.now seat.new }
        ensures ok { IfOk result (λ r. Accepts self.now (MeasuredHeld number value) (λ w. Unit {0}) seat.old seat.new) }
        ensures serves { IfOk result (λ r. Adds self.now (MeasuredHeld number value) seat.old seat.new) }
        ensures busy { IfErr result (AtBusy (IsLeft seat.old seat.new)) }
        ensures exhausted { IfErr result (AtExhausted (IsExhausted self.now seat.old seat.new)) }
        ensures refused { IfErr result (AtRefused (λ f. IsRefused self.now
            (λ w. MayRefuse w (ByNumber number value) f) seat.old seat.new)) }
    {
        self.turn.try_change(seat, MeasureHeld { number, value })
    }

    /// Asks for the turn once, and takes in at most `most` recordings of a log where it is had, as `Writer::take_in`
    /// does. That is one change of the history, which has the recordings that are gone from the log. The turn is held
    /// while they are measured.
    ///
    /// Refuses, in this order: `Busy`; `Exhausted`; `Refused` with `Closed`. Writer and log stay as they were then.
    pub fn try_take_in(
        &self,
        seat: &mut Seat<Writer>,
        recorder: &mut Recorder,
        most: usize,
    ) -> Result<Taken, ChangeFault<Closed>>
        requires { IsAt self.now seat.old }
        ensures seat { IsAt self.now seat.new }
        ensures ok { IfOk result (λ r. Accepts self.now (TakenIn (gone recorder.old recorder.new))
            (λ w. IsTaken w recorder.old recorder.new most r) seat.old seat.new) }
        ensures serves { IfOk result (λ r. Adds self.now (TakenIn (gone recorder.old recorder.new)) seat.old seat.new) }
        ensures kept { OnErr result (recorder.new ≡ recorder.old) }
        ensures busy { IfErr result (AtBusy (IsLeft seat.old seat.new)) }
        ensures exhausted { IfErr result (AtExhausted (IsExhausted self.now seat.old seat.new)) }
        ensures refused { IfErr result (AtRefused (λ f. IsRefused self.now (λ w. w.closed ≡ true) seat.old seat.new)) }
    {
        let mut step = TakeIn { recorder, most };
        self.turn.try_change_mut(seat, &mut step)
    }

    /// Asks for the turn once, and collects where it is had, as `Writer::collect` does. The round is placed in the
    /// arena while the turn is held. To copy it out needs no turn.
    ///
    /// Refuses, in this order: `Busy`; `Exhausted`; `Refused` with what `Writer::collect` refuses. Nothing is collected then.
    pub fn try_collect<'b>(
        &self,
        seat: &mut Seat<Writer>,
        arena: &'b Bump,
        time: u64,
    ) -> Result<Round<'b>, ChangeFault<CollectFault>>
        requires { IsAt self.now seat.old }
        ensures seat { IsAt self.now seat.new }
        ensures ok { IfOk result (λ r. Accepts self.now (Collected time) (λ w. IsRound w time r) seat.old seat.new) }
        ensures serves { IfOk result (λ r. Adds self.now (Collected time) seat.old seat.new) }
        ensures round { IfOk result (λ r. HasAllMeasured self.now time r seat.new) }
        ensures newest { IfOk result (λ r. IsNewest self.now r seat.new) }
        ensures busy { IfErr result (AtBusy (IsLeft seat.old seat.new)) }
        ensures exhausted { IfErr result (AtExhausted (IsExhausted self.now seat.old seat.new)) }
        ensures refused { IfErr result (AtRefused (λ f. IsRefused self.now (λ w. MayRefuseRound w time f) seat.old seat.new)) }
    {
        self.turn.try_change(seat, Collect { arena, time })
    }

    /// Asks for the turn once, and looks at the writer where it is had. A look is no change: the limit does not count it.
    ///
    /// Refuses where the turn is held.
    pub fn try_look<T: Look<Writer>>(
        &self,
        seat: &mut Seat<Writer>,
        look: T,
    ) -> Result<T::Answer, Busy>
        requires { IsAt self.now seat.old }
        ensures seat { IsAt self.now seat.new }
        ensures ok { IfOk result (λ r. LooksAt self.now (λ w. T.answers look w r) seat.old seat.new) }
        ensures serves { IfOk result (λ r. Sees self.now (λ w. T.answers look w r) seat.new) }
        ensures busy { OnErr result (IsLeft seat.old seat.new) }
    {
        self.turn.try_look(seat, look)
    }
}
