//! What becomes of a service where a call is refused.
ghost use Rattle.std.specs.Prelude.{◌≡◌, ◌↔◌, ◌<◌, Some, None, IfOk, IfSome, IsTrue, OnOk, OnErr, false, true};
ghost use Rattle.agg_kit.specs.Entries.{entry_of};
ghost use Rattle.gossip_kit.specs.Gossip.{hand_fault};
ghost use Rattle.gossip_kit.specs.declared.fault.HandFault.TheVariants as hands;
ghost use Rattle.plan_kit.specs.PlanFaults.{plan_fault};
ghost use Rattle.recorder_kit.specs.Log.{ByName};
ghost use Rattle.writer_kit.specs.Recording.{after_record, round_now};

use attr_kit::{AttrSet, NoMemory, Seq};
use bumpalo::Bump;
use gossip_kit::{HandFault, Message, Node};
use plan_kit::{DEFAULT_LIMIT, Instrument, Plan, PlanFault, View};
use round_kit::Round;
use std::alloc::Global;
use writer_kit::{CollectFault, MeasureFault, RestartFault, Writer};

/// Whether instruments and views fit together: no name, unit or bound is refused, and no two of them feed one stream.
pub fn fit_together(
    alloc: Global,
    instruments: Seq<Instrument>,
    views: Seq<View>,
) -> Result<bool, NoMemory>
    ensures { IfOk result (λ fit. IsTrue fit ↔ (plan_fault instruments views 2000 ≡ None)) }
{
    match Plan::build(alloc, instruments, views, DEFAULT_LIMIT) {
        Ok(_plan) => Ok(true),
        Err(PlanFault::NoMemory) => Err(NoMemory),
        Err(_) => Ok(false),
    }
}

/// Records a value, and says whether it was recorded; refused where the writer is closed. What was not recorded leaves the writer
/// as it was.
pub fn record_if_allowed(
    writer: &mut Writer,
    instrument: usize,
    attrs: &AttrSet,
    value: i64,
) -> Result<bool, MeasureFault>
    ensures done { IfOk result
        (λ done. done ≡ true → writer.new ≡ after_record writer.old (ByName (entry_of instrument attrs.now value))) }
    ensures refused { IfOk result (λ done. done ≡ false → writer.new ≡ writer.old) }
    ensures unchanged { OnErr result (writer.new ≡ writer.old) }
{
    match writer.measure(instrument, attrs, value) {
        Ok(()) => Ok(true),
        Err(MeasureFault::Closed) => Err(MeasureFault::Closed),
        Err(_) => Ok(false),
    }
}

/// Collects where the time is after the last collection; else there is none, and the writer is as it was.
pub fn collect_if_later<'b>(
    writer: &mut Writer,
    arena: &'b Bump,
    now: u64,
) -> Result<Option<Round<'b>>, CollectFault>
    ensures early { IfOk result (λ round. round ≡ None → writer.new ≡ writer.old) }
    ensures value { IfOk result (λ found. IfSome found (λ round. round ≡ round_now writer.old now)) }
{
    match writer.collect(arena, now) {
        Ok(round) => Ok(Some(round)),
        Err(CollectFault::TimeNotAfter(_)) => Ok(None),
        Err(fault) => Err(fault),
    }
}

/// Begins anew, where the clock went back one nanosecond after the last start. Refused where no time is later, and for memory.
#[tactic(auto, using(writer_kit::proofs::Refusals::restart_later))]
pub fn begin_again(writer: &mut Writer, now: u64) -> Result<(), RestartFault>
    ensures later { OnOk result (writer.old.start < writer.new.start) }
    ensures unchanged { OnErr result (writer.new ≡ writer.old) }
{
    match writer.restart(now) {
        Err(RestartFault::StartNotAfter(start)) => writer.restart(start.saturating_add(1)),
        done => done,
    }
}

/// Hands a message to a node, and says whether it was for that node. Where it was not, the node is as it was.
pub fn hear(node: &mut Node, message: &Message) -> Result<bool, NoMemory>
    ensures other { IfOk result (λ heard. heard ≡ false
        → (node.new ≡ node.old) × (hand_fault node.old message.now ≡ Some hands.NotAddressed)) }
    ensures unchanged { OnErr result (node.new ≡ node.old) }
{
    match node.hand(message) {
        Ok(_answer) => Ok(true),
        Err(HandFault::NotAddressed) => Ok(false),
        Err(HandFault::NoMemory) => Err(NoMemory),
    }
}
