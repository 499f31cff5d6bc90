//! Whether two feeds have one stream.
ghost use Rattle.std.specs.Prelude.{◌≡◌, IfOk, position, ◌&&◌, ◌==◌};
ghost use Rattle.std.specs.List.{list_any};
ghost use Rattle.attr_kit.specs.Refusing.{repeat};
ghost use Rattle.plan_kit.specs.SameStream.{same, meets, owner_at, least_with, clash_of};

use crate::wanted::Wanted;
use attr_kit::NoMemory;
use std::alloc::Global;
use std::collections::HashSet;

// The least place of a feed whose stream an earlier one has.
fn repeated_at(alloc: Global, wanted: &[Wanted]) -> Result<Option<usize>, NoMemory>
    ensures { IfOk result (λ place. place ≡ repeat same wanted.now) }
{
    let mut seen = HashSet::new(alloc);
    for (place, feed) in wanted.iter().enumerate() {
        if !seen.insert(&feed.stream)? {
            return Ok(Some(place));
        }
    }
    Ok(None)
}

fn has_tie(wanted: &[Wanted], owner: usize, feed: &Wanted) -> bool
    ensures { result ≡ list_any (λ b. (b.owner == owner) && same feed.now b) wanted.now }
{
    wanted.iter().any(|other| other.owner == owner && feed.stream == other.stream)
}

fn meeting_at(wanted: &[Wanted], owner: usize) -> Option<usize>
    ensures { result ≡ position (meets wanted.now owner) wanted.now }
{
    wanted
        .iter()
        .position(|feed| feed.owner < owner && has_tie(wanted, owner, feed))
}

fn owner_of_feed(wanted: &[Wanted], place: usize) -> usize
    ensures { result ≡ owner_at wanted.now place }
{
    match wanted.get(place) {
        Some(feed) => feed.owner,
        None => 0,
    }
}

// The least instrument that has a stream of this one.
fn least_owner(wanted: &[Wanted], owner: usize) -> usize
    ensures { result ≡ least_with wanted.now owner }
{
    match meeting_at(wanted, owner) {
        Some(place) => owner_of_feed(wanted, place),
        None => owner,
    }
}

/// The instruments of two feeds of one stream: the least later one, then the least earlier one. A hash look-up for each
/// feed; the places are looked for only where there are such feeds.
#[tactic(auto, unfolding(crate::specs::SameStream::clash_of))]
pub(crate) fn same_stream(
    alloc: Global,
    wanted: &[Wanted],
) -> Result<Option<(usize, usize)>, NoMemory>
    ensures { IfOk result (λ clash. clash ≡ clash_of wanted.now) }
{
    let Some(place) = repeated_at(alloc, wanted)? else {
        return Ok(None);
    };
    let later = owner_of_feed(wanted, place);
    Ok(Some((least_owner(wanted, later), later)))
}
