//! A counter that is measured, collected and exported.
ghost use Rattle.std.specs.Prelude.{◌≡◌, ◌∷◌, [], IfOk};
ghost use Rattle.plan_kit.specs.Feeds.{plan_of};
ghost use Rattle.uses.specs.Exporting.{Covers, IsTableOf, three_and_four};
ghost use Rattle.uses.specs.Plans.{requests};

use attr_kit::{AttrSet, Seq, Txt};
use bumpalo::Bump;
use gateway_kit::Gateway;
use plan_kit::{DEFAULT_LIMIT, Instrument, Kind, Plan};
use point_kit::{Export, WriterId};
use rollup_kit::{Ask, rollup, table};
use std::alloc::Global;
use writer_kit::Writer;

/// A counter `requests` of the scope `app`.
pub fn requests(alloc: Global) -> anyhow::Result<Instrument>
    ensures { IfOk result (λ i. i ≡ requests) }
{
    Ok(Instrument {
        scope: Txt::from_str(alloc, "app")?,
        name: Txt::from_str(alloc, "requests")?,
        unit: Txt::from_str(alloc, "1")?,
        kind: Kind::Counter,
    })
}

/// A plan of one counter without views: it feeds one stream, which keeps all attributes.
pub fn plain_plan(alloc: Global) -> anyhow::Result<Plan>
    ensures { IfOk result (λ plan. plan ≡ plan_of (requests ∷ []) [] 2000) }
{
    let mut instruments = Vec::new(alloc);
    instruments.push(requests(alloc)?)?;
    Ok(Plan::build(
        alloc,
        Seq::from_vec(instruments),
        Seq::new(alloc),
        DEFAULT_LIMIT,
    )?)
}

/// Records 3 and 4, and exports what was recorded since the start: those two, each once.
pub fn first_export(alloc: Global, id: WriterId, plan: Plan) -> anyhow::Result<Export>
    ensures { IfOk result (Covers id plan 100 200 (three_and_four [])) }
{
    let none = AttrSet::empty(alloc);
    let mut writer = Writer::start(alloc, id, plan, 100)?;
    writer.measure(0, &none, 3)?;
    writer.measure(0, &none, 4)?;
    let arena = Bump::new(alloc);
    let round = writer.collect(&arena, 200)?;
    Ok(round.copy_out(alloc, writer.id())?)
}

/// The table that a gateway prints once it took that export: the rows of those two recordings.
pub fn first_table(alloc: Global, id: WriterId, plan: Plan, ask: &Ask) -> anyhow::Result<Txt>
    ensures { IfOk result (IsTableOf ask.now id plan 100 200 (three_and_four [])) }
{
    let export = first_export(alloc, id, plan)?;
    let mut gateway = Gateway::new(alloc, 1);
    gateway.take(&export)?;
    let rows = rollup(alloc, &gateway, ask)?;
    Ok(table(alloc, rows.as_slice())?)
}
