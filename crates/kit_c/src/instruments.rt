//! Instruments, and the plans that they make with views.
ghost use Rattle.std.specs.Prelude.{◌≡◌, ◌≢◌, ◌++◌, ◌∷◌, [], pos, None, Some, IfSome, OnOk, IfErr, IfOk};
ghost use Rattle.plan_kit.specs.Feeds.{plan_of as planned};
ghost use Rattle.kit_c.specs.Calls.{code_for};
ghost use Rattle.kit_c.specs.Codes.{code_of, no_memory};
ghost use Rattle.kit_c.specs.Held.{instruments_of, plan_of, views_of};
ghost use Rattle.kit_c.specs.Kinds.{kind_fault, numbered_kind};
ghost use Rattle.kit_c.specs.Places.{TellsPlace, TellsSecond};
ghost use Rattle.kit_c.specs.Plans.{instrument_of, instruments_fault, planning_fault, plans_fault};

use crate::content::Content;
use crate::fault::{FULL, Fault, NO_MEMORY, OK, WRONG_KIND, code_with_places};
use crate::list::push;
use crate::text::text_of;
use crate::typed::{KitInstruments, KitPlan, KitViews};
use crate::with::{add_to, or_code};
use archive_kit::{PlanRefusal, build_plan};
use attr_kit::{Seq, TryCopy};
use plan_kit::{Instrument, Kind, Plan, View};
use std::alloc::Global;

pub(crate) fn kind_of(number: u8) -> Result<Kind, Fault>
    ensures ok { OnOk result (kind_fault number ≡ None) }
    ensures value { IfOk result (λ kind. numbered_kind number ≡ Some kind) }
    ensures err { IfErr result (λ f. kind_fault number ≡ Some f) }
{
    match number {
        0 => Ok(Kind::Counter),
        1 => Ok(Kind::UpDown),
        2 => Ok(Kind::Gauge),
        3 => Ok(Kind::Histogram),
        _ => Err(Fault::BadNumber),
    }
}

/// Adds an instrument: instruments are numbered from 0 in the order in which they are added. A handle that has nothing begins with it.
/// The kinds: 0 a counter, 1 an up-down counter, 2 a gauge, 3 a histogram.
///
/// Refused, in this order: `BAD_NUMBER` where the kind is none of these; `NOT_TEXT` where the scope, the name or the unit is no
/// UTF-8; `NO_MEMORY`.
#[unsafe(no_mangle)]
pub extern "C" fn kit_instruments_add(
    alloc: Global,
    instruments: &mut KitInstruments,
    scope: &[u8],
    name: &[u8],
    unit: &[u8],
    kind: u8,
) -> i32
    ensures code { result ≢ no_memory → result ≡ code_for (instruments_fault scope.now name.now unit.now kind) }
    ensures value { result ≡ pos 0 → IfSome (instrument_of scope.now name.now unit.now kind)
        (λ i. instruments_of instruments.new ≡ instruments_of instruments.old ++ i ∷ []) }
    ensures unchanged { result ≢ pos 0 → instruments_of instruments.new ≡ instruments_of instruments.old }
{
    let kind = or_code!(kind_of(kind));
    let scope = or_code!(text_of(alloc, scope));
    let name = or_code!(text_of(alloc, name));
    let unit = or_code!(text_of(alloc, unit));
    add_to!(alloc, instruments => Instruments, Instrument { scope, name, unit, kind })
}

// A copy of the list that a handle has, as the answer of a function of its own.
macro_rules! copied {
    ($alloc:ident, $handle:ident => $kind:ident) => {{
        let Some(content) = $handle.handle.take($alloc) else {
            return Ok(Seq::new($alloc));
        };
        let Content::$kind(list) = &*content else {
            $handle.handle.put(content);
            return Err(WRONG_KIND);
        };
        let copied = list.try_copy();
        $handle.handle.put(content);
        match copied {
            Ok(copy) => Ok(copy),
            Err(_) => Err(NO_MEMORY),
        }
    }};
}

fn copy_of_instruments(
    alloc: Global,
    instruments: &mut KitInstruments,
) -> Result<Seq<Instrument>, i32>
    ensures value { IfOk result (λ copy. copy ≡ instruments_of instruments.old) }
    ensures err { IfErr result (λ code. code ≡ no_memory) }
    ensures kept { instruments_of instruments.new ≡ instruments_of instruments.old }
{
    copied!(alloc, instruments => Instruments)
}

fn copy_of_views(alloc: Global, views: &mut KitViews) -> Result<Seq<View>, i32>
    ensures value { IfOk result (λ copy. copy ≡ views_of views.old) }
    ensures err { IfErr result (λ code. code ≡ no_memory) }
    ensures kept { views_of views.new ≡ views_of views.old }
{
    copied!(alloc, views => Views)
}

fn build(
    alloc: Global,
    instruments: Seq<Instrument>,
    views: Seq<View>,
    limit: u64,
) -> Result<Plan, Fault>
    ensures ok { OnOk result (plans_fault instruments views limit ≡ None) }
    ensures value { IfOk result (λ plan. plan ≡ planned instruments views limit) }
    ensures err { IfErr result (λ f. code_of f ≢ no_memory → plans_fault instruments views limit ≡ Some f) }
{
    match build_plan(alloc, instruments, views, limit) {
        Ok(plan) => Ok(plan),
        Err(PlanRefusal::Plan(fault)) => Err(Fault::Plan(fault)),
        Err(PlanRefusal::ReservedScope(place)) => Err(Fault::ReservedScope(place)),
    }
}

/// Makes the plan of instruments and views, in which each stream has points of their own for so many attribute sets
/// (OpenTelemetry Metrics SDK, "View", "Cardinality limits"). Instruments and views stay; a handle that has nothing stands for
/// none. Many writers may start under one plan.
///
/// Refused, in this order: `FULL`; what `Plan::build` refuses, `BAD_NAME` to `BAD_LIMIT`, with its places; `RESERVED_SCOPE` with the
/// least instrument in the scope `kotskhin.archive`, which is that of tombstones; `NO_MEMORY`.
#[unsafe(no_mangle)]
pub extern "C" fn kit_plan_build(
    alloc: Global,
    plan: &mut KitPlan,
    instruments: &mut KitInstruments,
    views: &mut KitViews,
    limit: u64,
    place: &mut u64,
    second: &mut u64,
) -> i32
    ensures code { result ≢ no_memory
        → result ≡ code_for (planning_fault (plan_of plan.old) (instruments_of instruments.old) (views_of views.old) limit) }
    ensures value { result ≡ pos 0 → plan_of plan.new ≡ Some (planned (instruments_of instruments.old) (views_of views.old) limit) }
    ensures place { TellsPlace result (planning_fault (plan_of plan.old) (instruments_of instruments.old) (views_of views.old) limit)
        place.old place.new }
    ensures second { TellsSecond result (planning_fault (plan_of plan.old) (instruments_of instruments.old) (views_of views.old) limit)
        second.old second.new }
    ensures unchanged { result ≢ pos 0 → plan_of plan.new ≡ plan_of plan.old }
    ensures kept { (instruments_of instruments.new ≡ instruments_of instruments.old) × (views_of views.new ≡ views_of views.old) }
{
    if plan.handle.full {
        return FULL;
    }
    let instruments = match copy_of_instruments(alloc, instruments) {
        Ok(copy) => copy,
        Err(code) => return code,
    };
    let views = match copy_of_views(alloc, views) {
        Ok(copy) => copy,
        Err(code) => return code,
    };
    match build(alloc, instruments, views, limit) {
        Ok(made) => plan.handle.fill(alloc, Content::Plan(made)),
        Err(fault) => code_with_places(fault, place, second),
    }
}
