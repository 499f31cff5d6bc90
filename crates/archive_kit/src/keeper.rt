//! A node that shows no point that a tombstone names.
ghost use Rattle.std.specs.Prelude.{◌≡◌, ◌≢◌, ◌≤◌, ◌||◌, ◌&&◌, IfErr, IfOk, IsOk, IsSome, OnOk, OnErr, Ok, Some, None, ℕ, [], ◌∷◌, length};
ghost use Rattle.std.specs.FinMap as finite;
ghost use Rattle.gateway_kit.specs.Listing.{held_of_ref};
ghost use Rattle.gateway_kit.specs.Queries.{is_of_incarnation};
ghost use Rattle.gateway_kit.specs.Walks.{keyed_cell_of_ref};
ghost use Rattle.point_kit.specs.Exports.{join_points, changed_points, state};
ghost use Rattle.point_kit.specs.declared.key.Key.{Key};
ghost use Rattle.point_kit.specs.declared.writer_id.WriterId.{WriterId};
ghost use Rattle.archive_kit.specs.Keeping.{is_held, is_named, is_of_any, kept_points, taking, tells, Tell};
ghost use Rattle.archive_kit.specs.Named.{has_either, has_name};
ghost use Rattle.archive_kit.specs.Showing.{shown};
ghost use Rattle.archive_kit.specs.Readiness.{IsReady};
ghost use Rattle.archive_kit.specs.Stepping.{Drops, JoinsAndDrops, JoinsOrSkips, is_gone};
ghost use Rattle.gossip_kit.specs.Gossip.{acked_after, answer_of, first_node, hand_fault};
ghost use Rattle.archive_kit.specs.Tombstones.{names_key, stream_eq, tombstones};
ghost use Rattle.std.specs.List.{list_any};

use crate::Taking;
use crate::dropping::{Gone, forget_all};
use crate::name::told_name;
use crate::names::Names;
use crate::tombstone::tombstones;
use attr_kit::NoMemory;
use gateway_kit::{Gateway, IncarnationRef, PointRef};
use gossip_kit::{Body, HandFault, Message, Node};
use point_kit::{Export, SharedStream};
use std::alloc::Global;
use std::marker::Model;

/// A node whose points are always what is shown of all that came to it: it skips what a tombstone names, and forgets it once such
/// a tombstone comes. So it gives back the memory of incarnations that an archive adopted. It gossips as any node does.
#[derive(Debug, Drop)]
pub struct Keeper {
    alloc: Global,
    node: Node,
    /// What its tombstones name.
    names: Names,
    stream: SharedStream,
}

impl Model for Keeper {
    ghost use Rattle.std.specs.Coded.{codes};
    ghost use Rattle.std.specs.FinMap.{code};
    ghost use Rattle.gossip_kit.specs.Views.{NodeModel};
    ghost use Rattle.archive_kit.specs.Keeping.{IsKeeping};

    ghost Value = { NodeModel };

    ghost coded = { Prim.hlevel (codes, code) };

    ghost view = { λ k. k.node };

    ghost invariant = { λ k. IsKeeping k.stream k.names.names k.node.gateway.points };
}

// Notes the name that a point tells, where it is a tombstone.
fn note_told(names: &mut Names, point: &PointRef<'_>, stream: &SharedStream) -> Result<(), NoMemory>
    requires { stream.now ≡ tombstones }
    ensures names { names.new.names ≡ names.old.names }
    ensures noted { OnOk result ((writer : WriterId) (start : ℕ) → has_either names.new writer start
        ≡ (has_either names.old writer start || tells writer start (keyed_cell_of_ref point.now).0)) }
{
    if stream.get() != point.stream {
        return Ok(());
    }
    match told_name(point.attrs) {
        Some(told) => names.note(&told),
        None => Ok(()),
    }
}

// Notes the names that a gateway's tombstones tell.
fn note_all(names: &mut Names, gateway: &Gateway, stream: &SharedStream) -> Result<(), NoMemory>
    requires { stream.now ≡ tombstones }
    ensures names { names.new.names ≡ names.old.names }
    ensures noted { OnOk result ((writer : WriterId) (start : ℕ) → has_either names.new writer start
        ≡ (has_either names.old writer start || is_named gateway.now.points writer start)) }
{
    for point in gateway.points() {
        note_told(names, &point, stream)?;
    }
    Ok(())
}

// Adds an incarnation where it has one of the names, or one that was noted.
fn add_held(gone: &mut Vec<Gone>, held: IncarnationRef<'_>, names: &Names) -> Result<(), NoMemory>
    ensures { OnOk result ((k : Key) → is_of_any gone.new.items k ≡ (is_of_any gone.old.items k
        || (has_either names.now k.writer k.start && is_of_incarnation (held_of_ref held.entry).writer (held_of_ref held.entry).start k))) }
{
    if !names.has_either(held.writer, held.start) {
        return Ok(());
    }
    gone.push(Gone {
        writer: held.writer.try_copy()?,
        start: held.start,
    })?;
    Ok(())
}

// Adds the incarnations that a gateway holds points of and that have one of the names, or one that was noted.
fn add_named(gone: &mut Vec<Gone>, gateway: &Gateway, names: &Names) -> Result<(), NoMemory>
    ensures { OnOk result ((k : Key) → is_of_any gone.new.items k
        ≡ (is_of_any gone.old.items k || (has_either names.now k.writer k.start && is_held gateway.now.points k))) }
{
    for held in gateway.incarnations() {
        add_held(gone, held, names)?;
    }
    Ok(())
}

// The incarnations with one of the names, or one that was noted, that another gateway holds points of, and where asked for this one too.
fn named_held(
    alloc: Global,
    gateway: &Gateway,
    other: &Gateway,
    names: &Names,
    fresh: bool,
) -> Result<Vec<Gone>, NoMemory>
    ensures { IfOk result (λ gone. (k : Key) → is_of_any gone.items k
        ≡ (has_either names.now k.writer k.start && (is_held other.now.points k || (fresh && is_held gateway.now.points k)))) }
{
    let mut gone = Vec::new(alloc);
    add_named(&mut gone, other, names)?;
    if !fresh {
        return Ok(gone);
    }
    add_named(&mut gone, gateway, names)?;
    Ok(gone)
}

// Notes the names that come with what another gateway holds, with room for them, and says what is to be forgotten then. Where no new
// names come, only what the other holds can be named.
fn ready(
    alloc: Global,
    gateway: &Gateway,
    names: &mut Names,
    other: &Gateway,
    stream: &SharedStream,
) -> Result<Vec<Gone>, NoMemory>
    requires stream { stream.now ≡ tombstones }
    requires told { Tell names.old.names gateway.now.points }
    requires all_shown { shown names_key gateway.now.points ≡ gateway.now.points }
    ensures names { names.new.names ≡ names.old.names }
    ensures ready { IfOk result (λ gone. IsReady names.new gateway.now.points other.now.points gone.items) }
{
    names.drop_noted();
    note_all(names, other, stream)?;
    names.reserve()?;
    let fresh = names.has_noted();
    named_held(alloc, gateway, other, names, fresh)
}

// Forgets what is to be forgotten, and takes over the names that were noted. Takes no memory.
fn settle(node: &mut Node, names: &mut Names, gone: &[Gone], stream: &SharedStream)
    requires stream { stream.now ≡ tombstones }
    requires room { length names.old.fresh ≤ names.old.room }
    ensures drops { Drops (is_gone gone.now) node.old node.new }
    ensures names { (writer : WriterId) (start : ℕ) → has_name names.new.names writer start ≡ has_either names.old writer start }
{
    forget_all(node, gone, stream);
    names.settle();
}

// The cells that a message carries: those of the empty gateway where it is an Ack.
fn carried<'a>(message: &'a Message, none: &'a Gateway) -> &'a Gateway
    requires { none.now.points ≡ finite.empty }
    ensures value { result.now.points ≡ message.now.points }
    ensures of_ack { IsSome message.now.ack → result.now.points ≡ finite.empty }
{
    match message.body() {
        Body::Whole(points) => points,
        Body::Delta { cells, .. } => cells,
        Body::Ack(_) => none,
    }
}

// What is answered to an export.
fn taking_of(late: bool, changed: u64) -> Taking
    ensures { result ≡ taking late changed }
{
    if late {
        Taking::Late
    } else if changed == 0 {
        Taking::Stale
    } else {
        Taking::Taken(changed)
    }
}

// Whether an export brings a tombstone.
fn brings_tombstone(export: &Export, stream: &SharedStream) -> bool
    ensures { result ≡ list_any (λ p. stream_eq stream.now p.stream) export.now.points }
{
    export.points().iter().any(|point| *stream == point.stream)
}

// The points of an export alone.
fn points_of(alloc: Global, export: &Export) -> Result<Gateway, NoMemory>
    ensures value { IfOk result (λ gateway. gateway.points ≡ state (export.now ∷ [])) }
    ensures no_points { export.now.points ≡ [] → IsOk result }
{
    let mut gateway = Gateway::new(alloc, 0);
    gateway.take(export)?;
    Ok(gateway)
}

impl Keeper {
    /// A keeper without points. Its gateway has this id.
    pub fn new(alloc: Global, id: u32) -> Result<Keeper, NoMemory>
        ensures value { IfOk result (λ keeper. keeper ≡ first_node (record { id = id; points = finite.empty; numbers = finite.empty })) }
    {
        Ok(Keeper {
            alloc,
            node: Node::new(alloc, Gateway::new(alloc, id)),
            names: Names::new(alloc),
            stream: tombstones(alloc)?,
        })
    }

    /// Its gateway, to ask and to copy: O(1). Takes no memory.
    pub fn gateway(&self) -> &Gateway
        ensures value { result.now ≡ self.now.gateway }
        ensures all_shown { shown names_key self.now.gateway.points ≡ self.now.gateway.points }
    {
        self.node.gateway()
    }

    /// The node that it is, to `send` from: O(1). Takes no memory.
    pub fn node(&self) -> &Node
        ensures value { result.now ≡ self.now }
    {
        &self.node
    }

    /// Joins what another gateway holds, and forgets what a tombstone then names, but for tombstones. Answers how many keys the join
    /// changed.
    ///
    /// It costs what `Node::merge` does, a walk over the other's points, and a look-up of each of its incarnations. A look-up costs the
    /// same of however many names. Where it brings names, these are added, and the incarnations held here are looked up too. What is
    /// named costs `Node::forget_but`. Refused with `NoMemory`, with nothing changed. A gateway without points changes nothing and
    /// takes no memory.
    pub fn merge(&mut self, other: &Gateway) -> Result<u64, NoMemory>
        ensures id { self.new.gateway.id ≡ self.old.gateway.id }
        ensures ok { OnOk result (self.new.gateway.points ≡ kept_points self.old.gateway.points other.now.points) }
        ensures value { IfOk result (λ n. n ≡ changed_points self.old.gateway.points
            (join_points self.old.gateway.points other.now.points)) }
        ensures steps { OnOk result (JoinsAndDrops other.now.points self.old.acked self.old self.new) }
        ensures unchanged { OnErr result (self.new ≡ self.old) }
        ensures no_points { other.now.points ≡ finite.empty → result ≡ Ok 0 }
    {
        if other.len() == 0 {
            return self.node.merge(other);
        }
        let gone = ready(
            self.alloc,
            self.node.gateway(),
            &mut self.names,
            other,
            &self.stream,
        )?;
        let changed = self.node.merge(other)?;
        settle(
            &mut self.node,
            &mut self.names,
            gone.as_slice(),
            &self.stream,
        );
        Ok(changed)
    }

    /// Takes a message in as `Node::hand` does, and forgets what a tombstone then names, but for tombstones. The answer is the
    /// node's, an Ack of a delta.
    ///
    /// It costs what `Node::hand` does, and of its cells what `merge` costs beside the join. Refused as there, with nothing changed,
    /// and as there an Ack of a peer that acknowledged before takes no memory, nor does a message without cells that is no Ack.
    #[tactic(auto, unfolding(gossip_kit::specs::Gossip::hand_fault))]
    pub fn hand(&mut self, message: &Message) -> Result<Option<Message>, HandFault>
        ensures id { self.new.gateway.id ≡ self.old.gateway.id }
        ensures ok { OnOk result (hand_fault self.old message.now ≡ None) }
        ensures value { OnOk result (self.new.gateway.points ≡ kept_points self.old.gateway.points message.now.points) }
        ensures answer { IfOk result (λ answer. answer ≡ answer_of self.old message.now) }
        ensures steps { OnOk result (JoinsAndDrops message.now.points (acked_after self.old message.now) self.old self.new) }
        ensures err { IfErr result (λ fault. fault ≢ HandFault.NoMemory → hand_fault self.old message.now ≡ Some fault) }
        ensures no_memory { IfErr result (λ fault. fault ≡ HandFault.NoMemory → hand_fault self.old message.now ≡ None) }
        ensures known { IsSome message.now.ack → IsSome (finite.get self.old.acked message.now.from)
            → IfErr result (λ fault. fault ≢ HandFault.NoMemory) }
        ensures no_points { message.now.ack ≡ None → message.now.points ≡ finite.empty
            → IfErr result (λ fault. fault ≢ HandFault.NoMemory) }
        ensures unchanged { OnErr result (self.new ≡ self.old) }
    {
        if message.to() != self.node.gateway().id() {
            return Err(HandFault::NotAddressed);
        }
        let none = Gateway::new(self.alloc, 0);
        let coming = carried(message, &none);
        if coming.len() == 0 {
            return self.node.hand(message);
        }
        let gone = ready(
            self.alloc,
            self.node.gateway(),
            &mut self.names,
            coming,
            &self.stream,
        )?;
        let answer = self.node.hand(message)?;
        settle(
            &mut self.node,
            &mut self.names,
            gone.as_slice(),
            &self.stream,
        );
        Ok(answer)
    }

    // Whether a tombstone that is held names an export's incarnation.
    fn is_late(&self, export: &Export) -> bool
        ensures { result ≡ is_named self.now.gateway.points export.now.writer export.now.start }
    {
        self.names.has(export.writer(), export.start())
    }

    /// Takes an export: joins its points, and forgets what a tombstone then names, but for tombstones. Of an export whose
    /// incarnation is named already at most tombstones stay: the answer is then `Late`.
    ///
    /// It costs what `Node::take` does, a look-up, and a look at each point. Where a tombstone comes it costs what `merge` of a gateway
    /// with these points does. Of a late export without tombstones nothing is joined: that takes no memory. Refused with `NoMemory`,
    /// with nothing changed. An export without points changes nothing and takes no memory.
    pub fn take(&mut self, export: &Export) -> Result<Taking, NoMemory>
        ensures id { self.new.gateway.id ≡ self.old.gateway.id }
        ensures ok { OnOk result (self.new.gateway.points ≡ kept_points self.old.gateway.points (state (export.now ∷ []))) }
        ensures value { IfOk result (λ t. t ≡ taking (is_named self.old.gateway.points export.now.writer export.now.start)
            (changed_points self.old.gateway.points (join_points self.old.gateway.points (state (export.now ∷ []))))) }
        ensures steps { OnOk result (JoinsOrSkips (state (export.now ∷ [])) self.old.acked self.old self.new) }
        ensures unchanged { OnErr result (self.new ≡ self.old) }
        ensures no_points { export.now.points ≡ [] → IsOk result }
    {
        let late = self.is_late(export);
        if brings_tombstone(export, &self.stream) {
            let coming = points_of(self.alloc, export)?;
            let changed = self.merge(&coming)?;
            return Ok(taking_of(late, changed));
        }
        if late {
            return Ok(Taking::Late);
        }
        let changed = self.node.take(export)?;
        Ok(taking_of(false, changed))
    }
}
