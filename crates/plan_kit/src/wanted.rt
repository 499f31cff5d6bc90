//! The feeds that instruments and views give.
ghost use Rattle.std.specs.Prelude.{◌≡◌, ℕ, List, [], ◌∷◌, ◌++◌, map, slice_get, IfOk, OnOk, true, false};
ghost use Rattle.std.specs.List.{filter_map};
ghost use Rattle.std.specs.Option.{option_and_then};
ghost use Rattle.plan_kit.specs.Feeds as feeds;
ghost use Rattle.plan_kit.specs.Feeds.{feed_by, feeds_at, wanted_by};
ghost use Rattle.plan_kit.specs.Matching.{IsIndex};
ghost use Rattle.plan_kit.specs.Owners.{owner_of};

use crate::fit::{Fit, fit_of};
use crate::names::in_lower_case;
use crate::view_index::ViewIndex;
use crate::{Aggregation, Instrument, NameRule, View};
use attr_kit::{Keep, NoMemory};
use point_kit::{SharedStream, Stream};
use std::alloc::Global;

/// A feed before the streams are numbered: of which instrument, the stream, and the keys that it keeps.
#[derive(Debug, PartialEq, Eq, Drop)]
pub(crate) struct Wanted {
    pub(crate) owner: usize,
    pub(crate) stream: SharedStream,
    pub(crate) keep: Keep,
}

// The view that stands where none matches.
fn default_view() -> View
    ensures { result ≡ feeds.default_view }
{
    View {
        name: NameRule::Every,
        kind: None,
        scope: None,
        rename: None,
        keep: Keep::All,
        aggregation: Aggregation::Default,
    }
}

// The feed of the instrument at a place by a view.
fn feed(
    alloc: Global,
    owner: usize,
    instrument: &Instrument,
    view: &View,
) -> Result<Option<Wanted>, NoMemory>
    ensures { IfOk result (λ feed. feed ≡ feed_by owner instrument.now view.now) }
{
    match fit_of(alloc, instrument.kind, &view.aggregation)? {
        Fit::Stream(shape) => {
            let name = match &view.rename {
                Some(name) => name.try_copy()?,
                None => instrument.name.try_copy()?,
            };
            let stream = Stream {
                scope: instrument.scope.try_copy()?,
                name: in_lower_case(name),
                unit: instrument.unit.try_copy()?,
                shape,
            };
            Ok(Some(Wanted {
                owner,
                stream: SharedStream::new(alloc, stream)?,
                keep: view.keep.try_copy()?,
            }))
        }
        Fit::Nothing => Ok(None),
        Fit::Refused => Ok(None),
    }
}

fn feed_at(
    alloc: Global,
    owner: usize,
    instrument: &Instrument,
    views: &[View],
    place: usize,
) -> Result<Option<Wanted>, NoMemory>
    ensures { IfOk result (λ f. f ≡ option_and_then (feed_by owner instrument.now) (slice_get views.now place)) }
{
    match views.get(place) {
        Some(view) => feed(alloc, owner, instrument, view),
        None => Ok(None),
    }
}

// Adds the feeds of the views at these places.
fn add_each(
    alloc: Global,
    owner: usize,
    instrument: &Instrument,
    views: &[View],
    places: &[usize],
    wanted: &mut Vec<Wanted>,
) -> Result<(), NoMemory>
    ensures { OnOk result (wanted.new.items ≡ wanted.old.items ++ feeds_at owner instrument.now views.now places.now) }
{
    for place in places {
        if let Some(feed) = feed_at(alloc, owner, instrument, views, *place)? {
            wanted.push(feed)?;
        }
    }
    Ok(())
}

// Adds the feed by the default view.
fn add_default(
    alloc: Global,
    owner: usize,
    instrument: &Instrument,
    wanted: &mut Vec<Wanted>,
) -> Result<(), NoMemory>
    ensures { OnOk result (wanted.new.items ≡ wanted.old.items ++ filter_map (feed_by owner instrument.now) (feeds.default_view ∷ [])) }
{
    if let Some(feed) = feed(alloc, owner, instrument, &default_view())? {
        wanted.push(feed)?;
    }
    Ok(())
}

// Adds the feeds of the instrument at a place. A view that drops gives none, so one is looked for only where no other
// matches, to tell whether the default one stands in.
fn add_feeds(
    alloc: Global,
    feeding: &ViewIndex,
    dropping: &ViewIndex,
    views: &[View],
    owner: usize,
    instrument: &Instrument,
    wanted: &mut Vec<Wanted>,
) -> Result<(), NoMemory>
    requires feeding { IsIndex false feeding.now.exact feeding.now.every.items views.now }
    requires dropping { IsIndex true dropping.now.exact dropping.now.every.items views.now }
    ensures { OnOk result (wanted.new.items ≡ wanted.old.items ++ wanted_by views.now owner instrument.now) }
{
    let matching = feeding.matching(alloc, views, instrument)?;
    let places = matching.as_slice();
    if places.is_empty() {
        if dropping.drops(views, instrument) {
            return Ok(());
        }
        add_default(alloc, owner, instrument, wanted)
    } else {
        add_each(alloc, owner, instrument, views, places, wanted)
    }
}

/// The feeds of all instruments that no earlier one is equal to, in order.
#[tactic(auto, unfolding(crate::specs::Feeds::wanted_of))]
pub(crate) fn wanted_feeds(
    alloc: Global,
    feeding: &ViewIndex,
    dropping: &ViewIndex,
    views: &[View],
    instruments: &[Instrument],
    owners: &[usize],
) -> Result<Vec<Wanted>, NoMemory>
    requires feeding { IsIndex false feeding.now.exact feeding.now.every.items views.now }
    requires dropping { IsIndex true dropping.now.exact dropping.now.every.items views.now }
    requires owners { owners.now ≡ map (owner_of instruments.now) instruments.now }
    ensures { IfOk result (λ wanted. wanted.items ≡ feeds.wanted_of views.now instruments.now) }
{
    let mut wanted = Vec::new(alloc);
    for (place, instrument) in instruments.iter().enumerate() {
        if owners[place] == place {
            add_feeds(
                alloc,
                feeding,
                dropping,
                views,
                place,
                instrument,
                &mut wanted,
            )?;
        }
    }
    Ok(wanted)
}
