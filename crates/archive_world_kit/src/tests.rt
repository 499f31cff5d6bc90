//! A history at work: the calls of a node are the steps that the laws tell of, and two nodes show the same however they came to it.
ghost use Rattle.std.specs.Prelude.{◌≡◌, IfOk, OnOk, [], ◌∷◌};
ghost use Rattle.archive_kit.specs.Stepping.{Drops, Joins};
ghost use Rattle.archive_world_kit.specs.Steps.{Sends};
ghost use Rattle.gateway_kit.specs.Queries.{is_of_incarnation};
ghost use Rattle.gossip_kit.specs.Gossip.{acked_after, answer_of};
ghost use Rattle.point_kit.specs.Exports.{state};

use crate::{
    adopt_beside, archives_are_asked_as_adopted, archives_change_no_answer,
    archives_change_no_page, forgetting_loses_nothing, held_collections_tell_what_was_fed,
    incarnations_are_adopted_once, nodes_count_adopted_once, nodes_hold_newest_collections,
    nodes_show_what_they_took, pages_count_adopted_once, payloads_add_up, rows_count_adopted_once,
};
use archive_kit::{Archive, Keeper};
use attr_kit::{AttrSet, NoMemory, Seq, Txt};
use gateway_kit::Gateway;
use gossip_kit::{HandFault, Message, Node};
use point_kit::{Export, ExportPoint, Payload, Shape, SharedStream, Stream, WriterId};
use std::alloc::Global;
use std::test::Fail;
use uuid::Uuid;

// A node takes an export: the step of a delivery.
fn take(node: &mut Node, export: &Export) -> Result<u64, NoMemory>
    ensures { OnOk result (Joins (state (export.now ∷ [])) node.old.acked node.old node.new) }
{
    node.take(export)
}

// A node joins what another gateway holds: the step of a merge.
fn merge(node: &mut Node, other: &Gateway) -> Result<u64, NoMemory>
    ensures { OnOk result (Joins other.now.points node.old.acked node.old node.new) }
{
    node.merge(other)
}

// A node makes a mail: the step of a Send.
fn send(node: &Node, to: u32) -> Result<Message, NoMemory>
    ensures { IfOk result (λ mail. Sends node.now to mail) }
{
    node.send(to)
}

// A mail comes to a node: the step of a Hand.
fn hand(node: &mut Node, mail: &Message) -> Result<Option<Message>, HandFault>
    ensures joins { OnOk result (Joins mail.now.points (acked_after node.old mail.now) node.old node.new) }
    ensures answer { IfOk result (λ answer. answer ≡ answer_of node.old mail.now) }
{
    node.hand(mail)
}

// A node forgets an incarnation: the step of that, where the node hides it.
fn forget(node: &mut Node, writer: &WriterId, start: u64) -> u64
    ensures { Drops (is_of_incarnation writer.now start) node.old node.new }
{
    node.forget(writer, start)
}

fn writer(alloc: Global, instance: u128) -> Result<WriterId, Fail> {
    Ok(WriterId {
        service: Txt::from_str(alloc, "shop")?,
        instance: Uuid::from_u128(instance),
    })
}

// An export of one counter.
fn export(alloc: Global, instance: u128, time: u64, total: i64) -> Result<Export, Fail> {
    let stream = Stream {
        scope: Txt::from_str(alloc, "app")?,
        name: Txt::from_str(alloc, "requests")?,
        unit: Txt::from_str(alloc, "1")?,
        shape: Shape::Sum { monotonic: true },
    };
    let mut points = Vec::new(alloc);
    points.push(ExportPoint {
        stream: SharedStream::new(alloc, stream)?,
        attrs: AttrSet::from_pairs(Vec::new(alloc))?,
        payload: Payload::Sum(total),
    })?;
    Ok(Export::build(
        alloc,
        writer(alloc, instance)?,
        100,
        time,
        Seq::from_vec(points),
    )?)
}

// Sends what a node holds to another and hands the Ack back, each mail twice.
fn tell(from: &mut Node, to: &mut Node) -> Result<usize, Fail> {
    let mail = send(from, to.gateway().id())?;
    hand(to, &mail)?;
    if let Some(ack) = hand(to, &mail)? {
        hand(from, &ack)?;
        hand(from, &ack)?;
    }
    Ok(mail.points_len())
}

// Two workers come to a node, which tells the other of both.
fn are_told(alloc: Global, one: &mut Node, two: &mut Node) -> Result<bool, Fail> {
    take(one, &export(alloc, 1, 200, 5)?)?;
    take(one, &export(alloc, 2, 300, 8)?)?;
    Ok(tell(one, two)? == 2)
}

// What an archive exports that adopted a worker of what a gateway holds.
fn archived(alloc: Global, gateway: &Gateway, worker: &WriterId) -> Result<Export, Fail> {
    let mut keeper = Keeper::new(alloc, 3)?;
    keeper.merge(gateway)?;
    let mut archive = Archive::begin(alloc, writer(alloc, 9)?, 1000, 10)?;
    archive.adopt(&keeper, worker, 100)?;
    Ok(archive.export(2000)?)
}

// A node takes the archive's export, forgets the worker, and tells the other: what was acknowledged is not told again.
fn is_forgotten(
    alloc: Global,
    worker: &WriterId,
    one: &mut Node,
    two: &mut Node,
) -> Result<bool, Fail> {
    let adopted = archived(alloc, one.gateway(), worker)?;
    take(one, &adopted)?;
    let forgotten = forget(one, worker, 100);
    let left = one.gateway().len();
    let told = tell(one, two)?;
    Ok(forgotten == 1 && left == 3 && told == 2 && two.gateway().len() == 4)
}

// A late mail brings the forgotten point back, and it can be forgotten again.
fn is_forgotten_again(worker: &WriterId, node: &mut Node, late: &Message) -> Result<bool, Fail> {
    hand(node, late)?;
    let back = node.gateway().len();
    Ok(forget(node, worker, 100) == 1 && back == 4)
}

#[test]
fn nodes_that_forget_show_the_same(rt: HostRuntime) -> Result<(), Fail> {
    let alloc = rt.alloc();
    let worker = writer(alloc, 1)?;
    let mut one = Node::new(alloc, Gateway::new(alloc, 1));
    let mut two = Node::new(alloc, Gateway::new(alloc, 2));
    let told = are_told(alloc, &mut one, &mut two)?;
    let late = send(&two, 1)?;
    let forgotten = is_forgotten(alloc, &worker, &mut one, &mut two)?;
    let again = is_forgotten_again(&worker, &mut one, &late)?;
    let there = forget(&mut two, &worker, 100) == 1;
    let same = one.gateway().same(two.gateway()) && merge(&mut one, two.gateway())? == 0;
    assert!(rt; told && forgotten && again && there && same);
    Ok(())
}

// What a node, and a keeper that took an archive's export beside it, hold of one worker.
fn newest_of_both(alloc: Global, worker: &WriterId) -> Option<(Option<u64>, Option<u64>)> {
    let (plain, keeper) = adopt_beside(alloc, 7)?;
    Some((
        plain.gateway().newest(worker, 100),
        keeper.gateway().newest(worker, 100),
    ))
}

#[test]
fn a_keeper_forgets_what_an_archive_adopted(rt: HostRuntime) -> Result<(), Fail> {
    let alloc = rt.alloc();
    let worker = writer(alloc, 1)?;
    assert_eq!(rt; newest_of_both(alloc, &worker), Some((Some(200), None)));
    Ok(())
}

#[test]
fn laws_can_be_called(rt: HostRuntime) -> Result<(), Fail> {
    nodes_show_what_they_took::<u64>();
    nodes_hold_newest_collections::<u64>();
    nodes_count_adopted_once::<u64, u64, u64>();
    held_collections_tell_what_was_fed::<u64, u64>();
    forgetting_loses_nothing::<u64, u64, u64>();
    payloads_add_up();
    archives_are_asked_as_adopted::<u64>();
    rows_count_adopted_once::<u64>();
    archives_change_no_answer::<u64, u64, u64>();
    archives_change_no_page::<u64>();
    incarnations_are_adopted_once::<u64>();
    pages_count_adopted_once::<u64>();
    assert_eq!(rt;
        Node::new(rt.alloc(), Gateway::new(rt.alloc(), 7))
            .gateway()
            .id(),
        7
    );
    Ok(())
}
