//! A history at work with an adoption, that meets all that the laws ask.
ghost use Rattle.std.specs.Prelude.{◌≡◌, IfSome, [], ◌∷◌};
ghost use Rattle.std.specs.FinMap as finite;
ghost use Rattle.archive_kit.specs.Keeping.{kept_points};
ghost use Rattle.archive_kit.specs.Stepping.{Joins, JoinsOrSkips};
ghost use Rattle.archive_world_kit.specs.Instance.{IsArchived, IsWorked, MeetAll, begun, counted_point, counter, identity};
ghost use Rattle.point_kit.specs.Exports.{state};
ghost use Rattle.rollup_kit.specs.Rollups.{AddsUp, rollup_rows};
ghost use Rattle.rollup_kit.specs.declared.ask.Ask.{Ask};

use archive_kit::{Archive, Keeper};
use attr_kit::{AttrSet, Seq, Txt};
use gateway_kit::Gateway;
use gossip_kit::Node;
use point_kit::{Export, ExportPoint, Payload, Shape, SharedStream, Stream, WriterId};
use std::alloc::Global;
use uuid::Uuid;

// An identity of one service.
fn identity(alloc: Global, instance: u128) -> Option<WriterId>
    ensures { IfSome result (λ w. w ≡ identity instance) }
{
    Some(WriterId {
        service: Txt::from_str(alloc, "shop").ok()?,
        instance: Uuid::from_u128(instance),
    })
}

// The counter that a worker has.
fn counter(alloc: Global) -> Option<SharedStream>
    ensures { IfSome result (λ s. s ≡ counter) }
{
    let stream = Stream {
        scope: Txt::from_str(alloc, "app").ok()?,
        name: Txt::from_str(alloc, "requests").ok()?,
        unit: Txt::from_str(alloc, "1").ok()?,
        shape: Shape::Sum { monotonic: true },
    };
    SharedStream::new(alloc, stream).ok()
}

// Its one point.
fn counted_point(alloc: Global, total: u32) -> Option<ExportPoint>
    ensures { IfSome result (λ p. p ≡ counted_point total) }
{
    let stream = counter(alloc)?;
    Some(ExportPoint {
        stream,
        attrs: AttrSet::empty(alloc),
        payload: Payload::Sum(i64::from(total)),
    })
}

// What a worker exports that recorded a value.
fn worked(alloc: Global, total: u32) -> Option<Export>
    ensures { IfSome result (λ e. IsWorked (identity 1) total e) }
{
    let mut points = Vec::new(alloc);
    points.push(counted_point(alloc, total)?).ok()?;
    Export::build(alloc, identity(alloc, 1)?, 100, 200, Seq::from_vec(points)).ok()
}

// A node that took it.
fn plain_node(alloc: Global, export: &Export) -> Option<Node>
    ensures { IfSome result (λ node. Joins (state (export.now ∷ [])) finite.empty (begun 1) node) }
{
    let mut node = Node::new(alloc, Gateway::new(alloc, 1));
    node.take(export).ok()?;
    Some(node)
}

// What a keeper is that took an export.
fn after(mut keeper: Keeper, export: &Export) -> Option<Keeper>
    ensures steps { IfSome result (λ k. JoinsOrSkips (state (export.now ∷ [])) keeper.acked keeper k) }
    ensures value { IfSome result (λ k. k.gateway.points ≡ kept_points keeper.gateway.points (state (export.now ∷ []))) }
{
    keeper.take(export).ok()?;
    Some(keeper)
}

// A keeper that took it.
fn keeper_of(alloc: Global, export: &Export) -> Option<Keeper>
    ensures steps { IfSome result (λ k. JoinsOrSkips (state (export.now ∷ [])) finite.empty (begun 2) k) }
    ensures value { IfSome result (λ k. k.gateway.points ≡ kept_points finite.empty (state (export.now ∷ []))) }
{
    after(Keeper::new(alloc, 2).ok()?, export)
}

// What an archive exports that adopted the worker.
fn archived(alloc: Global, keeper: &Keeper) -> Option<Export>
    ensures { IfSome result (λ e. IsArchived (identity 1) (identity 9) keeper.now.gateway.points e) }
{
    let worker = identity(alloc, 1)?;
    let mut archive = Archive::begin(alloc, identity(alloc, 9)?, 100, 10).ok()?;
    archive.adopt(keeper, &worker, 100).ok()?;
    archive.export(300).ok()
}

/// A worker records a value and exports it. A node takes that, and so does a keeper. An archive adopts the worker there, and the keeper
/// takes what the archive exports, and forgets the worker. All that the laws ask holds of this history, with an adoption in it. So the
/// keeper answers each ask of a sum or a histogram with the rows of the node, which heard of no archive. `None` where memory is wanted.
pub fn adopt_beside(alloc: Global, total: u32) -> Option<(Node, Keeper)>
    ensures met { IfSome result (λ both. MeetAll total both.0 both.1) }
    ensures rows { IfSome result (λ both. (ask : Ask) → AddsUp ask.stream.shape
        → rollup_rows ask both.1.gateway.points ≡ rollup_rows ask both.0.gateway.points) }
{
    let export = worked(alloc, total)?;
    let plain = plain_node(alloc, &export)?;
    let before = keeper_of(alloc, &export)?;
    let adopted = archived(alloc, &before)?;
    let keeper = after(before, &adopted)?;
    Some((plain, keeper))
}
