//! How a script begins.
ghost use Rattle.std.specs.Prelude.{◌≡◌, ◌≢◌, [], map, IfOk, IfErr, OnOk, None, Some};
ghost use Rattle.otm_kit.specs.Begin.{begin_fault, plan_refusal, with_plan, world_refusal};
ghost use Rattle.otm_kit.specs.Standing.{Runs};
ghost use Rattle.plan_kit.specs.Feeds.{plan_of};
ghost use Rattle.plan_kit.specs.PlanFaults.{plan_fault};
ghost use Rattle.world_kit.specs.Building.{setup_fault};
ghost use Rattle.world_kit.specs.Stands.{Stands};

use crate::draft::Draft;
use crate::gateway_ids::GatewayIds;
use crate::running::Running;
use attr_kit::{NoMemory, Seq};
use plan_kit::{DEFAULT_LIMIT, Instrument, Plan, PlanFault, View};
use point_kit::WriterId;
use std::alloc::Global;
use std::fmt;
use world_kit::{Setup, SetupFault, World, WriterSetup};

/// Why a script does not begin.
#[derive(Debug, PartialEq, Eq, Drop)]
pub(crate) enum BeginFault {
    /// Its instruments and views make no plan.
    Plan(PlanFault),
    /// Its gateways make no world.
    World(SetupFault),
    /// Memory was refused.
    NoMemory,
}

impl fmt::Display for BeginFault {
    ghost use Rattle.std.specs.Prelude.{Some};
    ghost use Rattle.otm_kit.specs.Texts.{begin_text};

    ghost output = { λ fault. Some (begin_text fault) };

    fn fmt<W: fmt::Write>(&self, f: &mut fmt::Formatter<W>) -> fmt::Result {
        match self {
            BeginFault::Plan(PlanFault::BadName(place)) => write!(f, "BadName({place})"),
            BeginFault::Plan(PlanFault::BadUnit(place)) => write!(f, "BadUnit({place})"),
            BeginFault::Plan(PlanFault::BadBounds(place)) => write!(f, "BadBounds({place})"),
            BeginFault::Plan(PlanFault::BadRename(place)) => write!(f, "BadRename({place})"),
            BeginFault::Plan(PlanFault::WildcardRename(place)) => {
                write!(f, "WildcardRename({place})")
            }
            BeginFault::Plan(PlanFault::BadAggregation(instrument, view)) => {
                write!(f, "BadAggregation({instrument}, {view})")
            }
            BeginFault::Plan(PlanFault::SameStream(first, second)) => {
                write!(f, "SameStream({first}, {second})")
            }
            BeginFault::Plan(PlanFault::BadLimit) => write!(f, "BadLimit"),
            BeginFault::World(SetupFault::SameGateway(first, second)) => {
                write!(f, "SameGateway({first}, {second})")
            }
            BeginFault::Plan(PlanFault::NoMemory)
            | BeginFault::World(SetupFault::NoMemory)
            | BeginFault::NoMemory => write!(f, "NoMemory"),
        }
    }
}

impl From<NoMemory> for BeginFault {
    ghost use Rattle.std.specs.Prelude.{◌≡◌};
    ghost use Rattle.otm_kit.specs.declared.begin.BeginFault.TheVariants as faults;

    ghost from_gives = { λ _ e. e ≡ faults.NoMemory };

    fn from(_error: NoMemory) -> BeginFault {
        BeginFault::NoMemory
    }
}

/// The world of what was declared, and its labels.
pub(crate) fn begin(alloc: Global, draft: Draft) -> Result<Running, BeginFault>
    ensures ok { OnOk result (begin_fault draft ≡ None) }
    ensures value { IfOk result (λ running. Runs draft [] running) }
    ensures err { IfErr result (λ fault. fault ≢ BeginFault.NoMemory → begin_fault draft ≡ Some fault) }
{
    let Draft {
        instrument_labels,
        instruments,
        views,
        writer_labels,
        writers,
        gateways,
        limit,
    } = draft;
    let plan = plan(
        alloc,
        Seq::from_vec(instruments),
        Seq::from_vec(views),
        limit.unwrap_or(DEFAULT_LIMIT),
    )?;
    let gateway_ids = GatewayIds::build(alloc, gateways.as_slice())?;
    let writers = writers_of(alloc, &plan, writers)?;
    let gateways = Seq::from_vec(gateways);
    let world = world(alloc, Setup { writers, gateways })?;
    Ok(Running {
        world,
        instruments: instrument_labels,
        writers: writer_labels,
        gateways: gateway_ids,
    })
}

fn plan(
    alloc: Global,
    instruments: Seq<Instrument>,
    views: Seq<View>,
    limit: u64,
) -> Result<Plan, BeginFault>
    ensures ok { OnOk result (plan_fault instruments views limit ≡ None) }
    ensures value { IfOk result (λ plan. plan ≡ plan_of instruments views limit) }
    ensures err { IfErr result (λ fault. fault ≢ BeginFault.NoMemory → plan_refusal instruments views limit ≡ Some fault) }
{
    match Plan::build(alloc, instruments, views, limit) {
        Ok(plan) => Ok(plan),
        Err(PlanFault::NoMemory) => Err(BeginFault::NoMemory),
        Err(fault) => Err(BeginFault::Plan(fault)),
    }
}

// Each writer with a copy of the plan.
fn writers_of(
    alloc: Global,
    plan: &Plan,
    writers: Vec<(WriterId, u64)>,
) -> Result<Seq<WriterSetup>, NoMemory>
    ensures { IfOk result (λ setups. setups ≡ map (with_plan plan.now) writers.items) }
{
    let mut setups = Vec::new(alloc);
    for (id, start) in writers {
        setups.push(WriterSetup {
            id,
            plan: plan.try_copy()?,
            start,
        })?;
    }
    Ok(Seq::from_vec(setups))
}

fn world(alloc: Global, setup: Setup) -> Result<World, BeginFault>
    ensures ok { OnOk result (setup_fault setup ≡ None) }
    ensures value { IfOk result (λ world. Stands setup [] world) }
    ensures err { IfErr result (λ fault. fault ≢ BeginFault.NoMemory → world_refusal setup ≡ Some fault) }
{
    match World::new(alloc, setup) {
        Ok(world) => Ok(world),
        Err(SetupFault::NoMemory) => Err(BeginFault::NoMemory),
        Err(fault) => Err(BeginFault::World(fault)),
    }
}
