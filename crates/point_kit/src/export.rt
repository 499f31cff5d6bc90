//! The points of one collection.
ghost use Rattle.std.specs.List.{IsDistinct};
ghost use Rattle.std.specs.Prelude.{◌≡◌, ◌≢◌, ◌<◌, IfOk, IfErr, OnOk, OnErr, Some, None, All, length, position, true};
ghost use Rattle.attr_kit.specs.Refusing.{repeat};
ghost use Rattle.point_kit.specs.ExportFaults.{same_key, export_fault};
ghost use Rattle.point_kit.specs.Hashes.{content_hash, key_hash};
ghost use Rattle.point_kit.specs.Payload.{wrong_shape, wrong_buckets, wrong_count, negative, wrong_range, IsSound};

use crate::{ExportFault, ExportPoint, WriterId};
use attr_kit::{NoMemory, Seq, TryCopy};
use std::alloc::Global;
use std::collections::BTreeSet;
use std::hash::{DefaultHasher, FoldHasher, Hash, Hasher};

/// The points of one collection of a writer (Metrics Data Model, "Temporality": cumulative points of one start). Its
/// start and time are nanoseconds since the Unix epoch. No key stands twice, and each payload is sound in its stream.
#[derive(Debug, PartialEq, Eq, Drop)]
pub struct Export {
    writer: WriterId,
    start: u64,
    time: u64,
    points: Seq<ExportPoint>,
    pub ghost sound: { export_fault start time points ≡ None },
}

// The hash of a point's key, of the two that its stream and its set keep.
fn hash_of(point: &ExportPoint) -> u64
    ensures { result ≡ key_hash point.now }
{
    let mut state = FoldHasher::default();
    point.stream.hash(&mut state);
    point.attrs.hash(&mut state);
    state.finish()
}

// Whether the hashes of all keys differ, and so the keys. O(n log n) comparisons of numbers, whatever the keys.
fn differ_by_hash(alloc: Global, points: &[ExportPoint]) -> Result<bool, NoMemory>
    ensures { IfOk result (λ differ. differ ≡ true → repeat same_key points.now ≡ None) }
{
    let mut hashes = Vec::with_capacity(alloc, points.len())?;
    for point in points {
        hashes.push(hash_of(point))?;
    }
    hashes.sort_unstable();
    Ok(hashes.as_slice().is_sorted_by(|hash, next| hash < next))
}

// A hash of all that a key has, by SipHash-1-3. Keys that were picked to share the first hash differ in this one: to find many
// that share both takes more steps than anybody has.
fn content_hash(point: &ExportPoint) -> u64
    ensures { result ≡ content_hash point.now.stream point.now.attrs }
{
    let mut state = DefaultHasher::new();
    point.stream.get().hash(&mut state);
    point.attrs.pairs().hash(&mut state);
    state.finish()
}

// The least place of a point whose key an earlier one has. O(n log n) comparisons of hashes, and of keys only where those are equal.
fn first_twice(alloc: Global, points: &[ExportPoint]) -> Result<Option<usize>, NoMemory>
    ensures { IfOk result (λ place. place ≡ repeat same_key points.now) }
{
    let mut seen = BTreeSet::new(alloc);
    for (place, point) in points.iter().enumerate() {
        let key = (&point.attrs, &point.stream);
        if !seen.insert((content_hash(point), key))? {
            return Ok(Some(place));
        }
    }
    Ok(None)
}

// The same. Keys are put in order only where two hashes are equal: those of equal keys, or of keys that were chosen so.
fn key_twice(alloc: Global, points: &[ExportPoint]) -> Result<Option<usize>, NoMemory>
    ensures value { IfOk result (λ place. place ≡ repeat same_key points.now) }
    ensures no_memory { OnErr result (1 < length points.now) }
{
    if points.len() < 2 {
        return Ok(None);
    }
    if differ_by_hash(alloc, points)? {
        return Ok(None);
    }
    first_twice(alloc, points)
}

fn wrong_shape_at(points: &[ExportPoint]) -> Option<usize>
    ensures { result ≡ position (λ p. wrong_shape p.stream.shape p.payload) points.now }
{
    points.iter().position(|p| p.has_wrong_shape())
}

fn wrong_buckets_at(points: &[ExportPoint]) -> Option<usize>
    ensures { result ≡ position (λ p. wrong_buckets p.stream.shape p.payload) points.now }
{
    points.iter().position(|p| p.has_wrong_buckets())
}

fn wrong_count_at(points: &[ExportPoint]) -> Option<usize>
    ensures { result ≡ position (λ p. wrong_count p.payload) points.now }
{
    points.iter().position(|p| p.has_wrong_count())
}

fn negative_at(points: &[ExportPoint]) -> Option<usize>
    ensures { result ≡ position (λ p. negative p.stream.shape p.payload) points.now }
{
    points.iter().position(|p| p.is_negative())
}

fn wrong_range_at(points: &[ExportPoint]) -> Option<usize>
    ensures { result ≡ position (λ p. wrong_range p.payload) points.now }
{
    points.iter().position(|p| p.has_wrong_range())
}

// The first refusal that fits.
#[tactic(auto, unfolding(crate::specs::ExportFaults::export_fault))]
fn fault(
    alloc: Global,
    start: u64,
    time: u64,
    points: &[ExportPoint],
) -> Result<Option<ExportFault>, NoMemory>
    ensures ok { IfOk result (λ fault. fault ≡ export_fault start time points.now) }
    ensures never { IfOk result (λ fault. fault ≢ Some ExportFault.NoMemory) }
    ensures err { OnErr result ((start < time) × (1 < length points.now)) }
{
    if time <= start {
        return Ok(Some(ExportFault::TimeNotAfterStart));
    }
    if let Some(place) = key_twice(alloc, points)? {
        return Ok(Some(ExportFault::KeyTwice(place)));
    }
    if let Some(place) = wrong_shape_at(points) {
        return Ok(Some(ExportFault::WrongShape(place)));
    }
    if let Some(place) = wrong_buckets_at(points) {
        return Ok(Some(ExportFault::BucketCount(place)));
    }
    if let Some(place) = wrong_count_at(points) {
        return Ok(Some(ExportFault::CountMismatch(place)));
    }
    if let Some(place) = negative_at(points) {
        return Ok(Some(ExportFault::NegativeTotal(place)));
    }
    if let Some(place) = wrong_range_at(points) {
        return Ok(Some(ExportFault::BadRange(place)));
    }
    Ok(None)
}

impl Export {
    /// The points of `writer` that were collected at `time` and cover what came after `start`.
    ///
    /// Refused, in this order, each at its least place: `TimeNotAfterStart`, `KeyTwice`, `WrongShape`, `BucketCount`,
    /// `CountMismatch`, `NegativeTotal`, `BadRange`. `NoMemory` comes only where the time is after the start and what is
    /// noted of at least two points found no room; whether one of the others fits is then open. That bounds rise is not
    /// checked. O(n log n) comparisons of the n points' hashes, and O(n) in points and buckets. Where two hashes are equal,
    /// one more hash of all that each key has, O(n log n) comparisons of these, and of keys only where these are equal too.
    pub fn build(
        alloc: Global,
        writer: WriterId,
        start: u64,
        time: u64,
        points: Seq<ExportPoint>,
    ) -> Result<Export, ExportFault>
        ensures ok { OnOk result (export_fault start time points ≡ None) }
        ensures writer { IfOk result (λ e. e.writer ≡ writer) }
        ensures start { IfOk result (λ e. e.start ≡ start) }
        ensures taken_at { IfOk result (λ e. e.time ≡ time) }
        ensures points { IfOk result (λ e. e.points ≡ points) }
        ensures err { IfErr result (λ f. f ≢ ExportFault.NoMemory → export_fault start time points ≡ Some f) }
        ensures no_memory { IfErr result (λ f. f ≡ ExportFault.NoMemory → (start < time) × (1 < length points)) }
    {
        match fault(alloc, start, time, points.as_slice())? {
            Some(fault) => Err(fault),
            None => Ok(Export::from_sound(writer, start, time, points)),
        }
    }

    /// The same of points that are known to be sound: nothing is looked for. Takes no memory.
    pub fn from_sound(writer: WriterId, start: u64, time: u64, points: Seq<ExportPoint>) -> Export
        requires { export_fault start time points ≡ None }
        ensures writer { result.writer ≡ writer }
        ensures start { result.start ≡ start }
        ensures taken_at { result.time ≡ time }
        ensures points { result.points ≡ points }
    {
        Export {
            writer,
            start,
            time,
            points,
        }
    }

    pub fn writer(&self) -> &WriterId
        ensures value { result.now ≡ self.now.writer }
    {
        &self.writer
    }

    /// When the collected incarnation began, in nanoseconds since the Unix epoch. The points cover what came after it.
    pub fn start(&self) -> u64
        ensures value { result ≡ self.now.start }
    {
        self.start
    }

    /// When the points were collected, in nanoseconds since the Unix epoch; after the start.
    pub fn time(&self) -> u64
        ensures value { result ≡ self.now.time }
        ensures after_start { self.now.start < result }
    {
        self.time
    }

    /// The points, in the order in which they were handed in.
    pub fn points(&self) -> &[ExportPoint]
        ensures value { result.now ≡ self.now.points }
        ensures keys { IsDistinct same_key self.now.points }
        ensures sound { All (λ p. IsSound p.stream.shape p.payload) self.now.points }
    {
        self.points.as_slice()
    }

    /// An equal export. What repeats stays shared: no text of a stream is copied.
    pub fn try_copy(&self) -> Result<Export, NoMemory>
        ensures value { IfOk result (λ copy. copy ≡ self.now) }
    {
        Ok(Export {
            writer: self.writer.try_copy()?,
            start: self.start,
            time: self.time,
            points: self.points.try_copy()?,
        })
    }
}
