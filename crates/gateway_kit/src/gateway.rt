//! A gateway: the newest point of every key that it was told of.
ghost use Rattle.std.specs.Prelude.{IsOk, IsSome, nat_lt, ◌≡◌, ◌<◌, ◌≤◌, ◌^◌, IfOk, OnOk, OnErr, Ok, [], ◌∷◌, ◌↔◌, IsTrue, count_by, filter, length, not, option_copied};
ghost use Rattle.std.specs.FinMap as finite;
ghost use Rattle.point_kit.specs.Exports.{state, join_points, changed_points};
ghost use Rattle.gateway_kit.specs.Numbering.{IsNumberedBy, GatewayMoves, number_of};
ghost use Rattle.std.specs.FinMap.{entries, retain_keys};
ghost use Rattle.gateway_kit.specs.Listing.{held_incarnations, held_services, incarnations_left, services_left};
ghost use Rattle.gateway_kit.specs.Queries.{has_conflict, incarnation_points, is_of_incarnation, is_of_other_stream, newest_time, part_points};
ghost use Rattle.gateway_kit.specs.Walks.{is_of, points_left};
ghost use Rattle.gateway_kit.specs.Incarnations.{all_points};

use crate::incarnation::Incarnation;
use crate::incarnations::{
    all, all_conflicts, all_len, all_since, copy_incarnations, incarnation_place, incarnations_of,
    join_in, same_incarnations, take_in, without_numbers,
};
use crate::listing::{Incarnations, Services};
use crate::merging::merge_in;
use crate::part_item::PartItem;
use crate::points::Points;
use attr_kit::NoMemory;
use point_kit::{Cell, Export, Key, SharedStream, WriterId};
use shelf_kit::Shelves;
use std::alloc::Global;
use std::marker::Model;

/// What a gateway holds of the points of all writers: a list of incarnations in the order (writer, start), each with its
/// points in the order (stream, attributes). The state is the join of all that it took, so it depends neither on the
/// order in which exports and other gateways came, nor on what came twice.
///
/// Beside each point stands a number: that of the change, made by a call `.._numbered`, at which its cell changed last.
#[derive(Debug, Drop)]
pub struct Gateway {
    pub(crate) id: u32,
    /// No key of an incarnation has a greater number than the bound at its place.
    pub(crate) incarnations: Shelves<Incarnation>,
    /// The number of points.
    pub(crate) len: usize,
    /// How many of them are conflicts.
    pub(crate) conflicts: u64,
}

impl Model for Gateway {
    ghost use Rattle.std.specs.Prelude.{◌≡◌};
    ghost use Rattle.std.specs.FinMap.{from_sorted, code};
    ghost use Rattle.std.specs.Coded.{codes};
    ghost use Rattle.point_kit.specs.Orders.{key_cmp};
    ghost use Rattle.gateway_kit.specs.Incarnations.{IsWhole, all_points, all_numbers};
    ghost use Rattle.gateway_kit.specs.Tallies.{conflicts_of};
    ghost use Rattle.gateway_kit.specs.Covering.{AreCovered};
    ghost use Rattle.gateway_kit.specs.GatewayState.{GatewayState};

    ghost Value = { GatewayState };

    ghost coded = { Prim.hlevel (codes, code) };

    ghost view = { λ g. record { id = g.id; points = from_sorted {R = key_cmp} (all_points g.incarnations.items); numbers = from_sorted {R = key_cmp} (all_numbers g.incarnations.items) } };

    ghost invariant = { λ g. IsWhole g.incarnations.items g.len × (g.conflicts ≡ conflicts_of g.incarnations.items)
        × AreCovered g.incarnations.bounds g.incarnations.items };
}

impl Gateway {
    /// A gateway without points. Takes no memory: O(1).
    pub fn new(alloc: Global, id: u32) -> Gateway
        ensures id { result.id ≡ id }
        ensures value { result.points ≡ finite.empty }
        ensures numbers { result.numbers ≡ finite.empty }
    {
        Gateway {
            id,
            incarnations: Shelves::new(alloc),
            len: 0,
            conflicts: 0,
        }
    }

    /// The id that it was made with: O(1).
    pub fn id(&self) -> u32
        ensures value { result ≡ self.now.id }
    {
        self.id
    }

    /// The number of points, at most 2^62: O(1).
    pub fn len(&self) -> usize
        ensures value { result ≡ finite.len self.now.points }
        ensures bounded { result ≤ 2 ^ 62 }
    {
        self.len
    }

    /// The cell under a key: O(log n). Takes no memory.
    pub fn find(&self, key: &Key) -> Option<&Cell>
        ensures value { option_copied result ≡ finite.get self.now.points key.now }
    {
        match incarnation_place(&self.incarnations, &key.writer, key.start) {
            Ok(place) => self.incarnations.get(place).find(&key.stream, &key.attrs),
            Err(_) => None,
        }
    }

    /// All points, in the order of their keys. Takes no memory; O(n + m) for all n points of m incarnations, and O(1) to begin.
    pub fn points(&self) -> Points<'_>
        ensures value { points_left result ≡ entries self.now.points }
    {
        Points {
            here: None,
            ahead: all(&self.incarnations),
            service: None,
        }
    }

    /// The points whose writer is of a service, in the order of their keys. Takes no memory; O(log m) of all m incarnations to
    /// begin, and O(n + k) for the n points of the service's k incarnations: those of other services are not looked at.
    pub fn points_of<'a>(&'a self, service: &'a str) -> Points<'a>
        ensures value { points_left result ≡ filter (λ e. is_of service.now e.0.writer) (entries self.now.points) }
    {
        Points {
            here: None,
            ahead: incarnations_of(&self.incarnations, service),
            service: Some(service),
        }
    }

    /// The points of one incarnation of a writer, in the order of their keys; none where it is not held. Takes no memory;
    /// O(log m) of m incarnations.
    pub fn part(&self, writer: &WriterId, start: u64) -> &[PartItem]
        ensures value { part_points writer.now start result.now ≡ incarnation_points writer.now start self.now.points }
    {
        match incarnation_place(&self.incarnations, writer, start) {
            Ok(place) => self.incarnations.get(place).items(),
            Err(_) => &[],
        }
    }

    /// The greatest time held of one incarnation of a writer, a conflict's too; none where it is not held: O(log n). Takes
    /// no memory.
    pub fn newest(&self, writer: &WriterId, start: u64) -> Option<u64>
        ensures value { result ≡ newest_time writer.now start self.now.points }
    {
        match incarnation_place(&self.incarnations, writer, start) {
            Ok(place) => Some(self.incarnations.get(place).newest()),
            Err(_) => None,
        }
    }

    /// The incarnations of which points are held, each once with how many and the greatest time, in the order of their keys.
    /// Takes no memory; O(1) to begin, and O(1) a step.
    pub fn incarnations(&self) -> Incarnations<'_>
        ensures value { incarnations_left result ≡ held_incarnations self.now.points }
    {
        Incarnations {
            ahead: all(&self.incarnations),
        }
    }

    /// How many incarnations that are: O(1).
    pub fn incarnations_len(&self) -> usize
        ensures value { result ≡ length (held_incarnations self.now.points) }
    {
        self.incarnations.len()
    }

    /// The services of which points are held, each once, in order. Takes no memory; O(1) to begin, and O(m) for all of m
    /// incarnations.
    pub fn services(&self) -> Services<'_>
        ensures value { services_left result ≡ held_services self.now.points }
    {
        Services {
            ahead: all(&self.incarnations),
        }
    }

    /// The number of keys at whose time different payloads came. Takes no memory and constant time.
    pub fn conflicts(&self) -> u64
        ensures value { result ≡ count_by (λ e. has_conflict e.1) (entries self.now.points) }
    {
        self.conflicts
    }

    /// Whether both hold equal points; ids are not compared. One walk over both. Takes no memory.
    pub fn same(&self, other: &Gateway) -> bool
        ensures value { IsTrue result ↔ (self.now.points ≡ other.now.points) }
    {
        self.len == other.len && same_incarnations(&self.incarnations, &other.incarnations)
    }

    /// Joins the points of an export, and answers the number of keys whose cell changed, the new ones among them.
    ///
    /// Of k points into an incarnation of n, where all keys are held: no key is copied, nothing moves, and each point is found
    /// by one comparison, O(k), where the points come in the order of the incarnation's last export, whatever that order
    /// was. A point that comes in another is searched for, O(log n), and the next export finds it by one. Where keys are
    /// new: O(n + k log k). The incarnation is found by O(log m) comparisons of m; a new one moves at most 256 others, and m / 128
    /// indexes. Refused with `NoMemory`, with nothing changed, where a growth was refused, or where the gateway would come to hold
    /// more than 2^62 points. An export without points changes nothing and takes no memory.
    pub fn take(&mut self, export: &Export) -> Result<u64, NoMemory>
        ensures id { self.new.id ≡ self.old.id }
        ensures ok { OnOk result (self.new.points ≡ join_points self.old.points (state (export.now ∷ []))) }
        ensures value { IfOk result (λ n. n ≡ changed_points self.old.points self.new.points) }
        ensures numbers { self.new.numbers ≡ self.old.numbers }
        ensures unchanged { OnErr result (self.new ≡ self.old) }
        ensures no_points { export.now.points ≡ [] → result ≡ Ok 0 }
    {
        self.take_under(0, export)
    }

    /// Joins the points of an export as `take` does, at its cost, and gives each key whose cell changed this number.
    pub fn take_numbered(&mut self, export: &Export, number: u64) -> Result<u64, NoMemory>
        requires { 0 < number }
        ensures id { self.new.id ≡ self.old.id }
        ensures ok { OnOk result (self.new.points ≡ join_points self.old.points (state (export.now ∷ []))) }
        ensures value { IfOk result (λ n. n ≡ changed_points self.old.points self.new.points) }
        ensures numbers { OnOk result (IsNumberedBy number self.old self.new) }
        ensures unchanged { OnErr result (self.new ≡ self.old) }
        ensures no_points { export.now.points ≡ [] → result ≡ Ok 0 }
    {
        self.take_under(number, export)
    }

    // Joins the points of an export. The keys that change get the number, of 0 they keep their own.
    fn take_under(&mut self, number: u64, export: &Export) -> Result<u64, NoMemory>
        ensures id { self.new.id ≡ self.old.id }
        ensures ok { OnOk result (self.new.points ≡ join_points self.old.points (state (export.now ∷ []))) }
        ensures value { IfOk result (λ n. n ≡ changed_points self.old.points self.new.points) }
        ensures moves { OnOk result (GatewayMoves number self.old self.new) }
        ensures kept { OnOk result (number ≡ 0 → self.new.numbers ≡ self.old.numbers) }
        ensures unchanged { OnErr result (self.new ≡ self.old) }
        ensures no_points { export.now.points ≡ [] → result ≡ Ok 0 }
    {
        if export.points().is_empty() {
            return Ok(0);
        }
        let growth = take_in(&mut self.incarnations, self.len, number, export)?;
        self.len += growth.more;
        self.conflicts = self.conflicts - growth.before + growth.after;
        Ok(growth.changed)
    }

    /// Joins one cell, and answers whether that of its key changed.
    ///
    /// O(log n) where the key is held, and then it takes no memory; else O(n) in its incarnation. Where the key belongs behind
    /// all of its incarnation it is found by one comparison, and nothing moves but into greater room: so cells that come in
    /// the order of their keys cost O(log m) each of m incarnations, amortized. Refused with `NoMemory`, with nothing changed,
    /// where a growth was refused, or where the gateway would come to hold more than 2^62 points.
    pub fn join_cell(&mut self, key: Key, cell: Cell) -> Result<bool, NoMemory>
        ensures id { self.new.id ≡ self.old.id }
        ensures ok { OnOk result (self.new.points ≡ join_points self.old.points (finite.from_entries ((key, cell) ∷ []))) }
        ensures value { IfOk result (λ changed. changed ≡ nat_lt 0 (changed_points self.old.points self.new.points)) }
        ensures numbers { self.new.numbers ≡ self.old.numbers }
        ensures unchanged { OnErr result (self.new ≡ self.old) }
        ensures held { IsSome (finite.get self.old.points key) → IsOk result }
    {
        let growth = join_in(&mut self.incarnations, self.len, key, cell)?;
        self.len += growth.more;
        self.conflicts = self.conflicts - growth.before + growth.after;
        Ok(growth.changed > 0)
    }

    /// Joins what another gateway holds, key by key, and answers the number of keys whose cell changed, the new ones
    /// among them.
    ///
    /// Each of the other's incarnations is found by one comparison where it follows the last, else by O(log m) of m. Of k points
    /// into one of n it takes O(k log (n / k)) comparisons where all keys are held, and O(n + k) where some are new; no key that is
    /// held is copied. A new incarnation moves at most 256 others, and m / 128 indexes. Refused with `NoMemory`, with nothing
    /// changed, where a growth was refused, or where the gateway would come to hold more than 2^62 points. An empty gateway
    /// changes nothing and takes no memory.
    pub fn merge(&mut self, other: &Gateway) -> Result<u64, NoMemory>
        ensures id { self.new.id ≡ self.old.id }
        ensures ok { OnOk result (self.new.points ≡ join_points self.old.points other.now.points) }
        ensures value { IfOk result (λ n. n ≡ changed_points self.old.points self.new.points) }
        ensures numbers { self.new.numbers ≡ self.old.numbers }
        ensures unchanged { OnErr result (self.new ≡ self.old) }
        ensures no_points { other.now.points ≡ finite.empty → result ≡ Ok 0 }
    {
        self.merge_under(0, other)
    }

    /// Joins what another gateway holds as `merge` does, at its cost, and gives each key whose cell changed this number.
    pub fn merge_numbered(&mut self, other: &Gateway, number: u64) -> Result<u64, NoMemory>
        requires { 0 < number }
        ensures id { self.new.id ≡ self.old.id }
        ensures ok { OnOk result (self.new.points ≡ join_points self.old.points other.now.points) }
        ensures value { IfOk result (λ n. n ≡ changed_points self.old.points self.new.points) }
        ensures numbers { OnOk result (IsNumberedBy number self.old self.new) }
        ensures unchanged { OnErr result (self.new ≡ self.old) }
        ensures no_points { other.now.points ≡ finite.empty → result ≡ Ok 0 }
    {
        self.merge_under(number, other)
    }

    // Joins what another gateway holds. The keys that change get the number, of 0 they keep their own.
    fn merge_under(&mut self, number: u64, other: &Gateway) -> Result<u64, NoMemory>
        ensures id { self.new.id ≡ self.old.id }
        ensures ok { OnOk result (self.new.points ≡ join_points self.old.points other.now.points) }
        ensures value { IfOk result (λ n. n ≡ changed_points self.old.points self.new.points) }
        ensures moves { OnOk result (GatewayMoves number self.old self.new) }
        ensures kept { OnOk result (number ≡ 0 → self.new.numbers ≡ self.old.numbers) }
        ensures unchanged { OnErr result (self.new ≡ self.old) }
        ensures no_points { other.now.points ≡ finite.empty → result ≡ Ok 0 }
    {
        if other.incarnations.is_empty() {
            return Ok(0);
        }
        let growth = merge_in(
            &mut self.incarnations,
            self.len,
            self.conflicts,
            number,
            &other.incarnations,
        )?;
        self.len += growth.more;
        self.conflicts = self.conflicts - growth.before + growth.after;
        Ok(growth.changed)
    }

    /// Drops the points of one incarnation of a writer with their numbers, and says how many there were: 0 where it is not held.
    /// What comes of it later is taken as new.
    ///
    /// Takes no memory; O(log m) of m incarnations where it is not held. Else n points go, and as where one is new at most 256
    /// incarnations move, and m / 128 indexes.
    pub fn forget(&mut self, writer: &WriterId, start: u64) -> u64
        ensures id { self.new.id ≡ self.old.id }
        ensures value { self.new.points ≡ retain_keys self.old.points (λ k. not (is_of_incarnation writer.now start k)) }
        ensures numbers { self.new.numbers ≡ retain_keys self.old.numbers (λ k. not (is_of_incarnation writer.now start k)) }
        ensures dropped { result ≡ length (incarnation_points writer.now start self.old.points) }
    {
        match incarnation_place(&self.incarnations, writer, start) {
            Ok(place) => {
                self.incarnations.bounds_match();
                let gone = self.incarnations.remove(place);
                let dropped = gone.items().len();
                self.len -= dropped;
                self.conflicts -= gone.conflicts();
                dropped as u64
            }
            Err(_) => 0,
        }
    }

    /// Drops the points of one incarnation of a writer with their numbers, but for those of a stream.
    ///
    /// Takes no memory. A walk over its n points, and what `forget` costs where none is of the stream.
    pub fn forget_but(&mut self, writer: &WriterId, start: u64, stream: &SharedStream)
        ensures id { self.new.id ≡ self.old.id }
        ensures value { self.new.points ≡ retain_keys self.old.points (λ k. not (is_of_other_stream writer.now start stream.now k)) }
        ensures numbers { self.new.numbers ≡ retain_keys self.old.numbers (λ k. not (is_of_other_stream writer.now start stream.now k)) }
    {
        let Ok(place) = incarnation_place(&self.incarnations, writer, start) else {
            return;
        };
        if !self.incarnations.get(place).has_stream(stream) {
            self.forget(writer, start);
            return;
        }
        self.incarnations.bounds_match();
        let held = self.incarnations.get_mut(place);
        let before = held.conflicts();
        self.len -= held.keep_stream(stream);
        self.conflicts = self.conflicts - before + held.conflicts();
    }

    /// An equal gateway, with the same id and numbers: O(n).
    pub fn try_copy(&self) -> Result<Gateway, NoMemory>
        ensures value { IfOk result (λ copy. copy ≡ self.now) }
    {
        Ok(Gateway {
            id: self.id,
            incarnations: copy_incarnations(&self.incarnations)?,
            len: self.len,
            conflicts: self.conflicts,
        })
    }

    /// This gateway with no key numbered. Takes no memory. O(m) of m incarnations, and O(k) of the k points in those of
    /// them where keys are numbered.
    pub fn without_numbers(self) -> Gateway
        ensures value { result ≡ record self { numbers = finite.empty } }
    {
        let mut gateway = self;
        without_numbers(&mut gateway.incarnations);
        gateway
    }

    /// The cells of the keys numbered above a number, as a gateway of the same id that has no numbers.
    ///
    /// O(c + m / 128 + n / 512) of c cells that are numbered so, of m incarnations, and of n points in the incarnations that have
    /// such cells. Up to 256 incarnations that stand side by side are passed over by one look, where no change of them had a
    /// greater number. Of others the numbers of their last changes are looked at, which stand side by side. In those with such cells
    /// blocks of points are passed over likewise.
    ///
    /// Bounds of points are made at a numbered change. A copy has none until then, and an incarnation that came whole by a merge
    /// has none of its points: there all are looked at. Refused with `NoMemory` where a growth was refused.
    pub fn since(&self, alloc: Global, number: u64) -> Result<Gateway, NoMemory>
        ensures id { IfOk result (λ recent. recent.id ≡ self.now.id) }
        ensures value { IfOk result (λ recent. recent.points ≡ retain_keys self.now.points (λ k. nat_lt number (number_of self.now k))) }
        ensures numbers { IfOk result (λ recent. recent.numbers ≡ finite.empty) }
    {
        let mut incarnations = all_since(alloc, &self.incarnations, number)?;
        without_numbers(&mut incarnations);
        let len = all_len(&incarnations);
        let conflicts = all_conflicts(&incarnations);
        Ok(Gateway {
            id: self.id(),
            incarnations,
            len,
            conflicts,
        })
    }
}
