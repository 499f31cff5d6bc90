//! Plans: which instrument feeds which streams.
ghost use Rattle.std.specs.Prelude.{◌≡◌, ◌<◌, ℕ, Some, None, map, length, slice_get, IfOk, IfSome, IsSome, IsTrue, ◌↔◌};
ghost use Rattle.std.specs.Option.{option_map, option_copied};
ghost use Rattle.plan_kit.specs.Feeds.{plan_from};
ghost use Rattle.plan_kit.specs.Owners.{owner_of};
ghost use Rattle.plan_kit.specs.Kept.{AreSound};
ghost use Rattle.plan_kit.specs.SameStream.{clash_of};
ghost use Rattle.plan_kit.specs.declared.instrument.Kind.{Kind};
ghost use Rattle.plan_kit.specs.Plans.{feeds_of, kind_of, stream_of, AreFeeds, AreApart, IsShared, AllRise, is_proper};

use crate::finish::{lists_of, places_of, streams_of};
use crate::kept::{FeedList, KeptInstrument};
use crate::wanted::Wanted;
use crate::{Feed, Instrument, Kind};
use attr_kit::{NoMemory, TryCopy, copy_all};
use point_kit::{SharedStream, Stream};
use std::alloc::Global;
use std::marker::Model;

/// The number of attribute sets of a stream that have points of their own, where nobody says another (OpenTelemetry
/// Metrics SDK, "Cardinality limits").
pub const DEFAULT_LIMIT: u64 = 2000;

const _: () = prove!(DEFAULT_LIMIT == 2 * 1_000);

/// Which instrument feeds which streams, and how many attribute sets each stream holds.
#[derive(Debug, Drop)]
pub struct Plan {
    places: Vec<KeptInstrument>,
    lists: Vec<FeedList>,
    streams: Vec<SharedStream>,
    limit: u64,
}

impl Model for Plan {
    ghost use Rattle.plan_kit.specs.Plans.{Planned, IsPlan};
    ghost use Rattle.plan_kit.specs.Kept.{plan_from_parts};

    ghost Value = { Planned };

    ghost view = { λ p. plan_from_parts p.places.items p.lists.items p.streams.items p.limit };

    ghost invariant = { λ p. IsPlan (plan_from_parts p.places.items p.lists.items p.streams.items p.limit) };
}

impl Plan {
    /// The plan of lowered instruments and the feeds that are wanted of them.
    pub(crate) fn finish(
        alloc: Global,
        instruments: &[Instrument],
        owners: &[usize],
        wanted: &[Wanted],
        limit: u64,
    ) -> Result<Plan, NoMemory>
        requires owners { owners.now ≡ map (owner_of instruments.now) instruments.now }
        requires apart { clash_of wanted.now ≡ None }
        requires sound { AreSound instruments.now wanted.now }
        requires limit { 0 < limit }
        ensures { IfOk result (λ plan. plan ≡ plan_from instruments.now wanted.now limit) }
    {
        let places = places_of(alloc, instruments, owners)?;
        let lists = lists_of(alloc, instruments.len(), wanted)?;
        let streams = streams_of(alloc, wanted)?;
        Ok(Plan {
            places,
            lists,
            streams,
            limit,
        })
    }

    /// The feeds of the instrument at a place, in the order of their streams. Takes no memory and constant time.
    pub fn feeds(&self, instrument: usize) -> Option<&[Feed]>
        ensures variant { IsSome result ↔ (instrument < length self.now.instruments) }
        ensures value { IfSome result (λ feeds. feeds.now ≡ feeds_of self.now instrument) }
        ensures feeds { AreFeeds (length self.now.streams) (feeds_of self.now instrument) }
        ensures shared { IsShared self.now }
        ensures rising { (k : Kind) → kind_of self.now instrument ≡ Some k → AllRise self.now k (feeds_of self.now instrument) }
    {
        let place = self.places.get(instrument)?;
        match self.lists.get(place.owner) {
            Some(list) => Some(list.as_slice()),
            None => Some(&[]),
        }
    }

    /// The kind of the instrument at a place. Takes no memory and constant time.
    pub fn kind(&self, instrument: usize) -> Option<Kind>
        ensures value { result ≡ kind_of self.now instrument }
    {
        Some(self.places.get(instrument)?.kind)
    }

    /// The stream of a number. Takes no memory and constant time.
    pub fn stream(&self, number: usize) -> Option<&Stream>
        ensures value { option_copied result ≡ stream_of self.now number }
        ensures proper { IfSome result (λ stream. IsTrue (is_proper stream.now.shape)) }
        ensures apart { AreApart self.now.streams }
    {
        match self.streams.get(number) {
            Some(stream) => Some(stream.get()),
            None => None,
        }
    }

    /// The stream of a number, to be shared by points. Takes no memory and constant time.
    pub fn shared_stream(&self, number: usize) -> Option<&SharedStream>
        ensures value { option_copied result ≡ stream_of self.now number }
        ensures proper { IfSome result (λ stream. IsTrue (is_proper stream.now.shape)) }
        ensures apart { AreApart self.now.streams }
    {
        self.streams.get(number)
    }

    /// No stream of a plan stands twice in it: callers who owe this learn it here. Does nothing.
    pub fn streams_are_apart(&self)
        ensures apart { AreApart self.now.streams }
    {
        let _streams = &self.streams;
    }

    /// How many streams there are. Takes no memory and constant time.
    pub fn streams_len(&self) -> usize
        ensures len { result ≡ length self.now.streams }

        // No instrument feeds a stream that is not there, nor one twice.
        ensures feeds { (i : ℕ) → AreFeeds (length self.now.streams) (feeds_of self.now i) }
    {
        self.streams.len()
    }

    /// How many attribute sets of a stream have points of their own. Takes no memory and constant time.
    pub fn limit(&self) -> u64
        ensures value { result ≡ self.now.limit }
        ensures positive { 0 < result }
    {
        self.limit
    }

    /// An equal plan. It shares the streams.
    pub fn try_copy(&self) -> Result<Plan, NoMemory>
        ensures value { IfOk result (λ copy. copy ≡ self.now) }
    {
        Ok(Plan {
            places: Vec::from_slice(*self.places.allocator(), self.places.as_slice())?,
            lists: copy_all(&self.lists)?,
            streams: copy_all(&self.streams)?,
            limit: self.limit,
        })
    }
}

impl TryCopy for Plan {
    fn try_copy(&self) -> Result<Plan, NoMemory> {
        Plan::try_copy(self)
    }
}
