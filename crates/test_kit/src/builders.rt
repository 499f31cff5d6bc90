//! What tests begin with, in few words.
ghost use Rattle.std.specs.Prelude.{◌≡◌, ◌≢◌, ◌∷◌, [], IfOk, IfErr, OnOk, None, Some, false};
ghost use Rattle.std.specs.Int.{to_be_bytes, w128};
ghost use Rattle.agg_kit.specs.Rounds.{StandsFor};
ghost use Rattle.plan_kit.specs.Feeds.{plan_of};
ghost use Rattle.plan_kit.specs.PlanFaults.{plan_fault};
ghost use Rattle.plan_kit.specs.declared.instrument.Kind.TheVariants as kinds;
ghost use Rattle.test_kit.specs.Defaults.{ask_of, instrument_of, view_of};

use attr_kit::{Keep, NoMemory, Seq, Txt};
use plan_kit::{Aggregation, DEFAULT_LIMIT, Instrument, Kind, NameRule, Plan, PlanFault, View};
use point_kit::{Shape, Stream, WriterId};
use rollup_kit::Ask;
use std::alloc::Global;
use uuid::Uuid;
use writer_kit::Writer;

/// An instrument of a kind. O(size of the names).
pub fn instrument(
    alloc: Global,
    kind: Kind,
    scope: &str,
    name: &str,
    unit: &str,
) -> Result<Instrument, NoMemory>
    ensures value { IfOk result (λ i. i ≡ instrument_of kind scope.now name.now unit.now) }
{
    Ok(Instrument {
        scope: Txt::from_str(alloc, scope)?,
        name: Txt::from_str(alloc, name)?,
        unit: Txt::from_str(alloc, unit)?,
        kind,
    })
}

/// A counter. O(size of the names).
pub fn counter(alloc: Global, scope: &str, name: &str, unit: &str) -> Result<Instrument, NoMemory>
    ensures value { IfOk result (λ i. i ≡ instrument_of kinds.Counter scope.now name.now unit.now) }
{
    instrument(alloc, Kind::Counter, scope, name, unit)
}

/// A view of the instruments of a name, of any kind and scope, that changes nothing; a test sets the fields that it is about.
/// O(size of the name).
pub fn view(alloc: Global, name: &str) -> Result<View, NoMemory>
    ensures value { IfOk result (λ v. v ≡ view_of name.now) }
{
    Ok(View {
        name: NameRule::Exact(Txt::from_str(alloc, name)?),
        kind: None,
        scope: None,
        rename: None,
        keep: Keep::All,
        aggregation: Aggregation::Default,
    })
}

/// An ask for all points of a stream, of every service, with a row for each set of attributes. O(size of the names).
pub fn ask(
    alloc: Global,
    scope: &str,
    name: &str,
    unit: &str,
    shape: Shape,
) -> Result<Ask, NoMemory>
    ensures value { IfOk result (λ a. a ≡ ask_of scope.now name.now unit.now shape) }
{
    Ok(Ask {
        stream: Stream {
            scope: Txt::from_str(alloc, scope)?,
            name: Txt::from_str(alloc, name)?,
            unit: Txt::from_str(alloc, unit)?,
            shape,
        },
        service: None,
        only: Seq::new(alloc),
        keep: Keep::All,
    })
}

// A list of one instrument.
fn alone(alloc: Global, instrument: Instrument) -> Result<Seq<Instrument>, NoMemory>
    ensures { IfOk result (λ instruments. instruments ≡ instrument ∷ []) }
{
    let mut instruments = Vec::new(alloc);
    instruments.push(instrument)?;
    Ok(Seq::from_vec(instruments))
}

/// An open writer of one instrument without views, which holds nothing and has recorded nothing since its start, in
/// nanoseconds since the Unix epoch. The instance is the number of its UUID.
///
/// Refuses, in this order: what the plan refuses of the instrument, and `NoMemory`. O(size of the names).
pub fn writer(
    alloc: Global,
    service: &str,
    instance: u128,
    instrument: Instrument,
    start: u64,
) -> Result<Writer, PlanFault>
    ensures ok { OnOk result (plan_fault (instrument ∷ []) [] 2000 ≡ None) }
    ensures plan { IfOk result (λ w. w.tally.plan ≡ plan_of (instrument ∷ []) [] 2000) }
    ensures service { IfOk result (λ w. w.id.service ≡ service.now) }
    ensures instance { IfOk result (λ w. w.id.instance ≡ to_be_bytes w128 instance) }
    ensures empty { IfOk result (λ w. StandsFor w.tally []) }
    ensures held { IfOk result (λ w. w.tally.held ≡ []) }
    ensures start { IfOk result (λ w. w.start ≡ start) }
    ensures last { IfOk result (λ w. w.last ≡ start) }
    ensures open { IfOk result (λ w. w.closed ≡ false) }
    ensures err { IfErr result (λ f. f ≢ PlanFault.NoMemory → plan_fault (instrument ∷ []) [] 2000 ≡ Some f) }
{
    let instruments = alone(alloc, instrument)?;
    let plan = Plan::build(alloc, instruments, Seq::new(alloc), DEFAULT_LIMIT)?;
    let id = WriterId {
        service: Txt::from_str(alloc, service)?,
        instance: Uuid::from_u128(instance),
    };
    Ok(Writer::start(alloc, id, plan, start)?)
}
