//! Rounds: what a tally holds at a time, in an arena.
ghost use Rattle.std.specs.Prelude.{◌≡◌, ◌<◌, ◌-◌, ◌^◌, ◌++◌, map, min, length, slice_get, sum_by, IfOk, OnOk, Some, None};
ghost use Rattle.point_kit.specs.ExportFaults.{export_fault};
ghost use Rattle.plan_kit.specs.Plans.{AreApart};
ghost use Rattle.round_kit.specs.Placed.{stream_of};
ghost use Rattle.round_kit.specs.Rounds.{point_of, points_at, points_of, Appends};

use crate::payload::RoundPayload;
use crate::set::{RoundSet, keys_for};
use crate::stream::RoundStream;
use agg_kit::Tally;
use attr_kit::{NoMemory, Seq, TryCopy};
use bumpalo::Bump;
use bumpalo::collections::into_bump_slice;
use point_kit::{Export, ExportPoint, SharedStream, WriterId};
use std::alloc::Global;
use std::marker::Model;

/// A point of a round. Points of one stream share it.
#[derive(Debug, Drop)]
pub struct RoundPoint<'b> {
    pub stream: &'b RoundStream<'b>,
    pub attrs: RoundSet<'b>,
    pub payload: RoundPayload<'b>,
}

/// The points of one collection, all in an arena: cumulative from a start, which is excluded, to a time, both in
/// nanoseconds since the Unix epoch (Metrics Data Model, "Temporality"; Metrics SDK, "MetricReader", Collect).
///
/// No key stands twice, and each payload is sound in its stream, so an export of these points is never refused.
#[derive(Debug, Drop)]
pub struct Round<'b> {
    start: u64,
    time: u64,
    points: &'b [RoundPoint<'b>],
}

impl<'b> Model for Round<'b> {
    ghost use Rattle.std.specs.Prelude.{◌≡◌, map, None};
    ghost use Rattle.point_kit.specs.ExportFaults.{export_fault};
    ghost use Rattle.round_kit.specs.Placed.{stream_of};
    ghost use Rattle.round_kit.specs.Rounds.{Collected, point_of};

    ghost Value = { Collected };

    ghost view = { λ r. record { start = r.start; time = r.time; points = map point_of r.points.now } };

    ghost invariant = { λ r. export_fault r.start r.time (map point_of r.points.now) ≡ None };
}

impl<'b> Round<'b> {
    /// The time from which the points cover recordings, itself excluded, in nanoseconds since the Unix epoch.
    pub fn start(&self) -> u64
        ensures value { result ≡ self.now.start }
    {
        self.start
    }

    /// The time of the collection, in nanoseconds since the Unix epoch; after the start.
    pub fn time(&self) -> u64
        ensures value { result ≡ self.now.time }
        ensures after_start { self.now.start < result }
    {
        self.time
    }

    /// The points, by the numbers of their streams and then in first-seen order. They stay as long as the arena, also where
    /// the round is gone. No refusal of an export fits them.
    pub fn points(&self) -> &'b [RoundPoint<'b>]
        ensures value { map point_of result.now ≡ self.now.points }
        ensures sound { export_fault self.now.start self.now.time self.now.points ≡ None }
    {
        self.points
    }

    /// The number of points. Constant time.
    pub fn len(&self) -> usize
        ensures value { result ≡ length self.now.points }
    {
        self.points.len()
    }

    /// The round as an export of a writer, which borrows nothing of the arena and so outlives it: the same start and time, and
    /// the same points in the same order. `NoMemory` is the only refusal.
    ///
    /// O(size of the points): each set and payload is copied once, each stream's texts once, and points of one stream share it.
    pub fn copy_out(&self, alloc: Global, writer: &WriterId) -> Result<Export, NoMemory>
        ensures writer { IfOk result (λ e. e.writer ≡ writer.now) }
        ensures start { IfOk result (λ e. e.start ≡ self.now.start) }
        ensures taken_at { IfOk result (λ e. e.time ≡ self.now.time) }
        ensures points { IfOk result (λ e. e.points ≡ self.now.points) }
    {
        let points = copy_points(alloc, self.points)?;
        let writer = writer.try_copy()?;
        Ok(Export::from_sound(writer, self.start, self.time, Seq::from_vec(points)))
    }
}

// The stream of a point, shared with the point before where it is the same. A stream is copied once for all its points.
fn share_stream(
    alloc: Global,
    last: &mut Option<SharedStream>,
    stream: &RoundStream<'_>,
) -> Result<SharedStream, NoMemory>
    ensures { IfOk result (λ shared. shared ≡ stream_of stream.now) }
{
    if let Some(last) = last {
        if stream.is(last.get()) {
            return last.try_copy();
        }
    }
    let fresh = SharedStream::new(alloc, stream.copy_out(alloc)?)?;
    *last = Some(fresh.try_copy()?);
    Ok(fresh)
}

fn copy_points(alloc: Global, points: &[RoundPoint<'_>]) -> Result<Vec<ExportPoint>, NoMemory>
    ensures { IfOk result (λ copy. copy.items ≡ map point_of points.now) }
{
    let mut copy = Vec::with_capacity(alloc, points.len())?;
    let mut last = None;
    for point in points {
        copy.push(ExportPoint {
            stream: share_stream(alloc, &mut last, point.stream)?,
            attrs: point.attrs.copy_out(alloc)?,
            payload: point.payload.copy_out(alloc)?,
        })?;
    }
    Ok(copy)
}

/// The points of a tally in an arena, with the start and the time of the collection: by the streams' numbers, and in each
/// stream in first-seen order. Every series of the tally has its point, changed or not since an earlier round, so a lost
/// collection is covered by the next. The tally stays as it is. `NoMemory` is the only refusal; what was placed until then
/// stays in the arena until its reset.
///
/// O(size of the points), each value and list copied once, the texts of a stream once for all its points, and the keys of a
/// set once for all points in a row that have the same; keys are not compared in a stream whose sets share them.
/// The lists of points and of values get their room once. No allocation outside the arena, which is the caller's and is reset
/// by nobody else.
pub fn place<'b>(
    bump: &'b Bump,
    tally: &Tally,
    start: u64,
    time: u64,
) -> Result<Round<'b>, NoMemory>
    requires { start < time }
    ensures start { IfOk result (λ r. r.start ≡ start) }
    ensures taken_at { IfOk result (λ r. r.time ≡ time) }
    ensures points { IfOk result (λ r. r.points ≡ points_of tally.now.plan.streams tally.now.series) }
{
    let mut points: Vec<RoundPoint<'b>, &'b Bump> = Vec::with_capacity(bump, points_len(tally))?;
    for number in 0..tally.plan().streams_len() {
        place_series(bump, tally, number, &mut points)?;
    }
    Ok(Round {
        start,
        time,
        points: into_bump_slice(points),
    })
}

// How many points a tally has: the room that their list takes.
fn points_len(tally: &Tally) -> usize
    ensures { result ≡ min (sum_by (λ es. length es) tally.now.series) (2 ^ 64 - 1) }
{
    let mut total: usize = 0;
    for number in 0..tally.plan().streams_len() {
        total = total.saturating_add(tally.series_len(number).unwrap_or(0));
    }
    total
}

// The keys of the last point.
fn last_keys<'b>(bump: &'b Bump, points: &[RoundPoint<'b>]) -> &'b [&'b str] {
    if let Some(point) = points.last() {
        return point.attrs.keys();
    }
    let none: Vec<&'b str, &'b Bump> = Vec::new(bump);
    into_bump_slice(none)
}

// The points of one stream.
fn place_series<'b>(
    bump: &'b Bump,
    tally: &Tally,
    number: usize,
    points: &mut Vec<RoundPoint<'b>, &'b Bump>,
) -> Result<(), NoMemory>
    requires { number < length tally.now.plan.streams }
    ensures apart { AreApart tally.now.plan.streams }
    ensures points { OnOk result (Appends tally.now number points.old.items points.new.items) }
{
    let Some(stream) = tally.plan().stream(number) else {
        return Ok(());
    };
    let Some((first, _)) = tally.entry(number, 0) else {
        return Ok(());
    };
    let placed = &*bump.try_alloc(RoundStream::place(bump, stream)?)?;
    let mut keys = keys_for(bump, last_keys(bump, points), false, first)?;
    let shared = tally.shares_keys(number);
    for k in 0..tally.series_len(number).unwrap_or(0) {
        if let Some((attrs, payload)) = tally.entry(number, k) {
            keys = keys_for(bump, keys, shared, attrs)?;
            points.push(RoundPoint {
                stream: placed,
                attrs: RoundSet::place(bump, keys, attrs)?,
                payload: RoundPayload::place(bump, payload)?,
            })?;
        }
    }
    Ok(())
}
