//! A plan from the feeds that are wanted.
ghost use Rattle.std.specs.Prelude.{◌≡◌, ◌<◌, ◌==◌, ◌++◌, ◌∷◌, if◌then◌else◌, ℕ, nat_lt, true, [], map, vec_len, slice_index_or, IfOk, OnOk};
ghost use Rattle.std.specs.List.{list_all};
ghost use Rattle.plan_kit.specs.Feeds.{feeds_from, AddsFeed};
ghost use Rattle.plan_kit.specs.Kept.{kept_instrument};
ghost use Rattle.plan_kit.specs.Owners.{owner_of};

use crate::kept::{FeedList, KeptInstrument};
use crate::wanted::Wanted;
use crate::{Feed, Instrument};
use attr_kit::{NoMemory, TryCopy};
use point_kit::SharedStream;
use std::alloc::Global;

/// What is kept of the instruments.
pub(crate) fn places_of(
    alloc: Global,
    instruments: &[Instrument],
    owners: &[usize],
) -> Result<Vec<KeptInstrument>, NoMemory>
    requires { owners.now ≡ map (owner_of instruments.now) instruments.now }
    ensures { IfOk result (λ places. places.items ≡ map (kept_instrument instruments.now) instruments.now) }
{
    let mut places = Vec::with_capacity(alloc, instruments.len())?;
    for (place, instrument) in instruments.iter().enumerate() {
        places.push(KeptInstrument {
            kind: instrument.kind,
            owner: owners[place],
        })?;
    }
    Ok(places)
}

// As many lists without feeds.
fn empty_lists(alloc: Global, count: usize) -> Result<Vec<FeedList>, NoMemory>
    ensures len { IfOk result (λ lists. vec_len lists ≡ count) }
    ensures empty { IfOk result (λ lists. (o : ℕ) → slice_index_or lists.items o [] ≡ []) }
{
    let mut lists = Vec::with_capacity(alloc, count)?;
    for _place in 0..count {
        lists.push(FeedList::new(alloc))?;
    }
    Ok(lists)
}

// One feed more in the list of its owner.
fn add_feed(lists: &mut Vec<FeedList>, owner: usize, feed: Feed) -> Result<(), NoMemory>
    requires { owner < vec_len lists.old }
    ensures len { OnOk result (vec_len lists.new ≡ vec_len lists.old) }
    ensures feeds { OnOk result (AddsFeed owner feed lists.old.items lists.new.items) }
{
    lists[owner].push(feed)?;
    Ok(())
}

/// The feeds of each owner, under their numbers.
pub(crate) fn lists_of(
    alloc: Global,
    count: usize,
    wanted: &[Wanted],
) -> Result<Vec<FeedList>, NoMemory>
    requires { list_all (λ w. nat_lt w.owner count) wanted.now ≡ true }
    ensures { IfOk result (λ lists. (o : ℕ) → slice_index_or lists.items o [] ≡ feeds_from o 0 wanted.now) }
{
    let mut lists = empty_lists(alloc, count)?;
    for (number, feed) in wanted.iter().enumerate() {
        let keep = feed.keep.try_copy()?;
        add_feed(
            &mut lists,
            feed.owner,
            Feed {
                stream: number,
                keep,
            },
        )?;
    }
    Ok(lists)
}

/// The streams in the order of the feeds.
pub(crate) fn streams_of(alloc: Global, wanted: &[Wanted]) -> Result<Vec<SharedStream>, NoMemory>
    ensures { IfOk result (λ streams. streams.items ≡ map (λ w. w.stream) wanted.now) }
{
    let mut streams = Vec::with_capacity(alloc, wanted.len())?;
    for feed in wanted {
        streams.push(feed.stream.try_copy()?)?;
    }
    Ok(streams)
}
