//! The points of all streams of a plan, as recordings come in.
ghost use Rattle.std.specs.Prelude.{◌≡◌, ◌≢◌, ◌↔◌, ◌∷◌, ◌++◌, [], length, slice_get, Some, None, IfOk, IfErr, OnOk, OnErr, IsTrue};
ghost use Rattle.std.specs.Option.{option_map};
ghost use Rattle.agg_kit.specs.Alike.{ShareKeys};
ghost use Rattle.agg_kit.specs.Entries.{entry_of};
ghost use Rattle.agg_kit.specs.Feeds.{series_at, IsHeld};
ghost use Rattle.agg_kit.specs.Held.{AreOf, HasInstrument, IsHeldAt};
ghost use Rattle.agg_kit.specs.Measuring.{after_held, after_measure, early_fault_of, early_held_fault_of, emptied_tally, empty_tally, fault_of, held_fault_of, IsMeasured};
ghost use Rattle.agg_kit.specs.Sound.{AllSound};
ghost use Rattle.agg_kit.specs.declared.fault.TallyFault.TheVariants as faults;

use crate::held::{HeldPoint, copy_held, forget_places};
use crate::series::Series;
use crate::streams::Streams;
use crate::{Places, TallyFault};
use attr_kit::{AttrSet, NoMemory};
use plan_kit::Plan;
use point_kit::Payload;
use std::alloc::Global;
use std::marker::Model;

/// The points of the streams of a plan, and the instruments and sets that are held.
#[derive(Drop)]
pub struct Tally {
    streams: Streams,
    held: Vec<HeldPoint>,
}

impl Model for Tally {
    ghost use Rattle.agg_kit.specs.Held.{held_of, ArePlaced, HaveRoom};
    ghost use Rattle.agg_kit.specs.Tallies.{Tallied};

    ghost Value = { Tallied };

    ghost view = { λ t. record t.streams { held = held_of t.held.items } };

    ghost invariant = { λ t. ArePlaced t.streams t.held.items × HaveRoom t.streams.plan t.held.items };
}

impl Tally {
    /// A tally without points, which holds none. O(streams and instruments of the plan).
    pub fn new(alloc: Global, plan: Plan) -> Result<Tally, NoMemory>
        ensures value { IfOk result (λ tally. tally ≡ empty_tally plan) }
    {
        Ok(Tally {
            streams: Streams::new(alloc, plan)?,
            held: Vec::new(alloc),
        })
    }

    /// Records a value in the stream of every feed of the instrument, or in none.
    ///
    /// Refuses, in this order, and leaves the tally as it was: `NoInstrument`; `Negative`; `Overflow` with the first feed's stream
    /// whose point would leave its range; `NoMemory`. O(feeds of the instrument times the size of the attributes).
    pub fn measure(
        &mut self,
        instrument: usize,
        attrs: &AttrSet,
        value: i64,
    ) -> Result<(), TallyFault>
        ensures ok { OnOk result (fault_of self.old (entry_of instrument attrs.now value) ≡ None) }
        ensures value { OnOk result (self.new ≡ after_measure self.old (entry_of instrument attrs.now value)) }
        ensures err { IfErr result (λ f. f ≢ TallyFault.NoMemory → fault_of self.old (entry_of instrument attrs.now value) ≡ Some f) }
        // A feed that keeps some keys of the set copies them, which takes memory; the feeds before the first such feed are in range.
        ensures no_memory { IfErr result (λ f. f ≡ faults.NoMemory → early_fault_of self.old (entry_of instrument attrs.now value) ≡ None) }
        // Points that are there take no memory where no feed copies what it keeps: it keeps all keys, or none that the set has.
        ensures held { IsHeld self.old (entry_of instrument attrs.now value) → IfErr result (λ f. f ≢ TallyFault.NoMemory) }
        ensures unchanged { OnErr result (self.new ≡ self.old) }
    {
        self.streams.measure_by(&[], instrument, attrs, value)
    }

    /// Holds an instrument and a set, so that `measure_held` records there by the number that this gives: how many were held before.
    /// Nothing is recorded, and no point appears before a value comes. What is held twice has two numbers.
    ///
    /// Refuses, in this order, and leaves the tally as it was: `NoInstrument`, `NoMemory`. O(size of the attributes and feeds of the
    /// instrument). The copy of the attributes and room for a place at each feed stay as long as the tally.
    pub fn hold(&mut self, instrument: usize, attrs: &AttrSet) -> Result<usize, TallyFault>
        ensures number { IfOk result (λ n. n ≡ length self.old.held) }
        ensures value { OnOk result (self.new ≡ record self.old { held = self.old.held ++ (instrument, attrs.now) ∷ [] }) }
        ensures ok { OnOk result (HasInstrument self.old instrument) }
        ensures err { IfErr result (λ f. f ≢ TallyFault.NoMemory → (f ≡ TallyFault.NoInstrument) × (¬ HasInstrument self.old instrument)) }
        ensures no_memory { IfErr result (λ f. f ≡ TallyFault.NoMemory → HasInstrument self.old instrument) }
        ensures unchanged { OnErr result (self.new ≡ self.old) }
    {
        let Some(_feeds) = self.streams.plan().feeds(instrument) else {
            return Err(TallyFault::NoInstrument);
        };
        let number = self.held.len();
        let alloc = *self.held.allocator();
        let point = HeldPoint {
            instrument,
            attrs: attrs.try_copy()?,
            places: Places::unknown_of(alloc, self.streams.plan(), instrument)?,
        };
        match self.held.push(point) {
            Ok(()) => Ok(number),
            Err(_refused) => Err(TallyFault::NoMemory),
        }
    }

    /// Records a value as `measure` does with the n-th instrument and set that are held.
    ///
    /// Refuses, in this order, and leaves the tally as it was: `NoHeld` where there are not as many; what `measure` refuses.
    ///
    /// It looks up no set where it knows the places of the points: from the first value that is recorded here until the tally
    /// begins anew, but for a feed that copies what it keeps of the set if memory for that is refused. O(feeds of the instrument) then.
    /// Where the points are there and no feed copies what it keeps no memory is wanted, be there one feed or many.
    // Inlined, since at one known place little is left to do.
    #[inline(always)]
    pub fn measure_held(&mut self, n: usize, value: i64) -> Result<(), TallyFault>
        ensures ok { OnOk result (held_fault_of self.old n value ≡ None) }
        ensures value { OnOk result (self.new ≡ after_held self.old n value) }
        ensures err { IfErr result (λ f. f ≢ TallyFault.NoMemory → held_fault_of self.old n value ≡ Some f) }
        ensures no_memory { IfErr result (λ f. f ≡ faults.NoMemory → early_held_fault_of self.old n value ≡ None) }
        ensures held { IsHeldAt self.old n → IfErr result (λ f. f ≢ TallyFault.NoMemory) }
        ensures unchanged { OnErr result (self.new ≡ self.old) }
    {
        let Some(point) = self.held.get_mut(n) else {
            return Err(TallyFault::NoHeld);
        };
        self.streams
            .measure_at(&mut point.places, point.instrument, &point.attrs, value)
    }

    /// Records a value as `measure` does, by what is known of the places where it goes, and finds them where nothing is known: so who
    /// records often with a set has it looked up once.
    ///
    /// For crates that take logs of recordings in. The caller owes that what `places` know is true of this tally: it is what
    /// `Places::unknown` or an earlier call gave for the same tally, instrument and set. It stays true whatever is recorded
    /// ([`crate::places_stay`]), until the tally begins anew. All others record by `measure` and `measure_held`.
    #[inline(always)]
    pub fn measure_at(
        &mut self,
        places: &mut Places,
        instrument: usize,
        attrs: &AttrSet,
        value: i64,
    ) -> Result<(), TallyFault>
        requires { AreOf self.old instrument attrs.now places.old }
        ensures measured { IsMeasured self.old self.new (entry_of instrument attrs.now value) result }
        ensures places { AreOf self.new instrument attrs.now places.new }
    {
        self.streams.measure_at(places, instrument, attrs, value)
    }

    /// How many instruments and sets are held. O(1), takes no memory.
    pub fn held_len(&self) -> usize
        ensures { result ≡ length self.now.held }
    {
        self.held.len()
    }

    /// Begins anew, without points, under the same plan. What is held stays, under its numbers; its places are found again.
    /// O(streams, and what is held).
    pub fn restart(&mut self) -> Result<(), NoMemory>
        ensures value { OnOk result (self.new ≡ emptied_tally self.old) }
        ensures unchanged { OnErr result (self.new ≡ self.old) }
    {
        forget_places(&mut self.held);
        self.streams.restart()
    }

    /// An equal tally. O(size of the points and of what is held).
    pub fn try_copy(&self) -> Result<Tally, NoMemory>
        ensures value { IfOk result (λ copy. copy ≡ self.now) }
    {
        Ok(Tally {
            streams: self.streams.try_copy()?,
            held: copy_held(self.streams.plan(), &self.held)?,
        })
    }

    /// The plan. O(1), takes no memory.
    pub fn plan(&self) -> &Plan
        ensures value { result.now ≡ self.now.plan }

        // There are points for each stream, all of its shape, and no two of one set.
        ensures sound { AllSound self.now.plan.streams self.now.series }
        ensures len { length self.now.series ≡ length self.now.plan.streams }
    {
        self.streams.plan()
    }

    /// How many points a stream has, or none where there is no such stream. O(1), takes no memory.
    pub fn series_len(&self, stream: usize) -> Option<usize>
        ensures value { result ≡ option_map (λ points. length points) (slice_get self.now.series stream) }
    {
        match self.streams.series(stream) {
            Some(series) => Some(series.len()),
            None => None,
        }
    }

    /// Whether all sets of a stream's points have the same keys, as those of no points have, so that who copies the points need
    /// not compare keys. O(1), takes no memory.
    pub fn shares_keys(&self, stream: usize) -> bool
        ensures { IsTrue result ↔ ShareKeys (series_at self.now.series stream) }
    {
        match self.streams.series(stream) {
            Some(series) => series.shares_keys(),
            None => true,
        }
    }

    /// The point of a stream at a place, in first-seen order, or none where there is none. O(1), takes no memory.
    pub fn entry(&self, stream: usize, place: usize) -> Option<(&AttrSet, &Payload)>
        ensures value { option_map (λ p. (p.0.now, p.1.now)) result ≡ slice_get (series_at self.now.series stream) place }
    {
        match self.streams.series(stream) {
            Some(series) => series.entry(place),
            None => None,
        }
    }
}
