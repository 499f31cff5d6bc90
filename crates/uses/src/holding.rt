//! Held points: a set that is looked up once, and recorded under by a number.
ghost use Rattle.std.specs.Prelude.{◌≡◌, IfOk, OnOk, OnErr, false, length, true};
ghost use Rattle.recorder_kit.specs.Log.{ByNumber};
ghost use Rattle.uses.specs.Holding.{after_two};
ghost use Rattle.writer_kit.specs.Recording.{after_record, after_restart, with_held};

use agg_kit::{Places, Tally, TallyFault};
use attr_kit::AttrSet;
use std::alloc::Global;
use writer_kit::{MeasureFault, Writer};

/// Records two values under one set, which is looked up once, and gives the number under which it is held from now on.
pub fn record_two(
    writer: &mut Writer,
    instrument: usize,
    attrs: &AttrSet,
    first: i64,
    second: i64,
) -> Result<usize, MeasureFault>
    ensures number { IfOk result (λ number. number ≡ length writer.old.tally.held) }
    ensures value { OnOk result
        (writer.new.tally ≡ after_two (with_held writer.old.tally instrument attrs.now) instrument attrs.now first second) }
{
    let number = writer.hold(instrument, attrs)?;
    writer.measure_held(number, first)?;
    writer.measure_held(number, second)?;
    Ok(number)
}

/// Records a value at a held point, and says whether the writer holds one of this number.
pub fn record_if_held(writer: &mut Writer, number: usize, value: i64) -> Result<bool, MeasureFault>
    ensures held { IfOk result (λ held. held ≡ true → writer.new ≡ after_record writer.old (ByNumber number value)) }
    ensures none { IfOk result (λ held. held ≡ false → writer.new ≡ writer.old) }
    ensures unchanged { OnErr result (writer.new ≡ writer.old) }
{
    match writer.measure_held(number, value) {
        Ok(()) => Ok(true),
        Err(MeasureFault::Refused(TallyFault::NoHeld)) => Ok(false),
        Err(fault) => Err(fault),
    }
}

/// Begins anew, and records a value at a held point: its number stays.
pub fn record_anew(writer: &mut Writer, start: u64, number: usize, value: i64) -> anyhow::Result<()>
    ensures value { OnOk result (writer.new ≡ after_record (after_restart writer.old start) (ByNumber number value)) }
    ensures held { writer.new.tally.held ≡ writer.old.tally.held }
{
    writer.restart(start)?;
    writer.measure_held(number, value)?;
    Ok(())
}

/// Records two values under one set of a tally, which is not held: who keeps what is known of its places has it looked up once, too.
pub fn record_two_by_places(
    alloc: Global,
    tally: &mut Tally,
    instrument: usize,
    attrs: &AttrSet,
    first: i64,
    second: i64,
) -> Result<(), TallyFault>
    ensures value { OnOk result (tally.new ≡ after_two tally.old instrument attrs.now first second) }
{
    let mut places = Places::unknown(alloc);
    tally.measure_at(&mut places, instrument, attrs, first)?;
    tally.measure_at(&mut places, instrument, attrs, second)
}
