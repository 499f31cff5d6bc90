//! The lines of a log.
ghost use Rattle.std.specs.Prelude.{List};
ghost use Rattle.agg_kit.specs.Tallies.{Tallied};
ghost use Rattle.attr_kit.specs.declared.attr_set.AttrSet.{AttrSet};
ghost use Rattle.recorder_kit.specs.declared.line.Named.{Named};
ghost use Rattle.recorder_kit.specs.declared.line.Spot.TheVariants.{Name};
ghost use Rattle.recorder_kit.specs.Lines.{recording_at, recording_of, AllKnown, IsAnswered, IsThere};

use crate::names::Names;
use agg_kit::{Places, Tally, TallyFault};
use std::alloc::Global;
use std::mem::size_of;

/// Where a recording goes: to a held point by its number, or to what is named at a place.
#[derive(Clone, Copy)]
pub(crate) enum Spot {
    Number(u32),
    Name(u32),
}

/// A recording: 16 bytes.
#[derive(Clone, Copy)]
pub(crate) struct Line {
    pub(crate) at: Spot,
    pub(crate) value: i64,
}

const _: () = prove!(size_of::<Line>() == 16);

/// An instrument, and the place of a set among those of the log.
#[derive(Clone, Copy, PartialEq, Eq, Hash, Drop)]
pub(crate) struct Named {
    pub(crate) instrument: usize,
    pub(crate) set: usize,
}

/// Of each of so many names, that nothing is known of its places: of none where fewer recordings are measured, so that to make room
/// takes no longer than these, and of none where memory is refused.
pub(crate) fn unknown_places(alloc: Global, names: usize, recordings: usize) -> Vec<Places>
    ensures { (t : Tallied) (ns : List Named) (ks : List AttrSet) → AllKnown t ns ks result.items }
{
    if recordings < names {
        return Vec::new(alloc);
    }
    let mut places = match Vec::with_capacity(alloc, names) {
        Ok(places) => places,
        Err(_refused) => return Vec::new(alloc),
    };
    for _name in 0..names {
        if places.push(Places::unknown(alloc)).is_err() {
            return places;
        }
    }
    places
}

// Measures a recording of what is named in a tally, by what is known of its places.
#[inline(always)]
fn record_named(
    tally: &mut Tally,
    names: &Names,
    places: &mut Vec<Places>,
    name: usize,
    value: i64,
) -> Result<(), TallyFault>
    requires there { IsThere names.now.named.keys names.now.sets.keys (Name name) }
    requires known { AllKnown tally.old names.now.named.keys names.now.sets.keys places.old.items }
    ensures answered { IsAnswered tally.old tally.new (recording_at names.now.named.keys names.now.sets.keys (Name name) value) result }
    ensures known { AllKnown tally.new names.now.named.keys names.now.sets.keys places.new.items }
{
    let pair = names.named.get_index(name).unwrap();
    let set = names.sets.get_index(pair.set).unwrap();
    match places.get_mut(name) {
        Some(at) => tally.measure_at(at, pair.instrument, set, value),
        None => tally.measure(pair.instrument, set, value),
    }
}

/// Measures a line's recording in a tally, by what is known of the places of each name.
#[inline(always)]
pub(crate) fn record_line(
    tally: &mut Tally,
    names: &Names,
    places: &mut Vec<Places>,
    line: &Line,
) -> Result<(), TallyFault>
    requires there { IsThere names.now.named.keys names.now.sets.keys line.now.at }
    requires known { AllKnown tally.old names.now.named.keys names.now.sets.keys places.old.items }
    ensures answered { IsAnswered tally.old tally.new (recording_of names.now.named.keys names.now.sets.keys line.now) result }
    ensures known { AllKnown tally.new names.now.named.keys names.now.sets.keys places.new.items }
{
    let Line { at, value } = *line;
    match at {
        Spot::Number(number) => tally.measure_held(number as usize, value),
        Spot::Name(name) => record_named(tally, names, places, name as usize, value),
    }
}
