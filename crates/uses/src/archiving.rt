//! Archives of what ended, and keepers that forget it then.
ghost use Rattle.std.specs.Prelude.{◌≡◌, ◌≢◌, ◌≤◌, All, IfOk, IfSome, OnErr, OnOk, [], ◌∷◌};
ghost use Rattle.archive_kit.specs.Keeping.{kept_points};
ghost use Rattle.archive_kit.specs.Tombstones.{tombstones};
ghost use Rattle.gateway_kit.specs.Queries.{newest_time};
ghost use Rattle.point_kit.specs.Exports.{state};

use archive_kit::{AdoptFault, Archive, Keeper, PlanRefusal, build_plan};
use attr_kit::{NoMemory, Seq};
use gossip_kit::Message;
use plan_kit::{DEFAULT_LIMIT, Instrument, Plan};
use point_kit::{Export, WriterId};
use std::alloc::Global;

/// The plan of a worker whose gateways know archives. No stream of it has the scope of tombstones, so the worker hides nobody's points.
pub fn plan_beside_archives(
    alloc: Global,
    instruments: Seq<Instrument>,
) -> Result<Plan, PlanRefusal>
    ensures { IfOk result (λ plan. All (λ s. s.scope ≢ tombstones.scope) plan.streams) }
{
    build_plan(alloc, instruments, Seq::new(alloc), DEFAULT_LIMIT)
}

/// Adopts an incarnation of which a keeper has heard nothing since a time, and says whether. Where it is refused nothing changed, and
/// the keeper holds it still.
pub fn adopt_if_quiet(
    archive: &mut Archive,
    keeper: &Keeper,
    writer: &WriterId,
    start: u64,
    since: u64,
) -> Result<bool, AdoptFault>
    ensures heard { IfSome (newest_time writer.now start keeper.now.gateway.points)
        (λ newest. since ≤ newest → archive.new ≡ archive.old) }
    ensures refused { OnErr result (archive.new ≡ archive.old) }
{
    match keeper.gateway().newest(writer, start) {
        Some(newest) if newest < since => {
            archive.adopt(keeper, writer, start)?;
            Ok(true)
        }
        Some(_) | None => Ok(false),
    }
}

/// Gives a keeper what an archive exported, so that it forgets what was adopted, and makes the message that tells a peer of it.
pub fn forget_adopted(keeper: &mut Keeper, export: &Export, peer: u32) -> Result<Message, NoMemory>
    ensures shown { OnOk result (keeper.new.gateway.points ≡ kept_points keeper.old.gateway.points (state (export.now ∷ []))) }
{
    keeper.take(export)?;
    keeper.node().send(peer)
}
