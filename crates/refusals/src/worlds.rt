//! Calls of worlds.
use crate::same::are_same_writers;
use crate::start::{START, id, plan, set};
use crate::telling::{call_begins, call_ends, state, tell_made, tell_twice};
use attr_kit::Seq;
use std::alloc::Global;
use world_kit::{Event, Setup, World, WriterSetup, replay};

// A writer, and gateways of these ids.
fn setup(alloc: Global, gateways: &[u32]) -> anyhow::Result<Setup> {
    let mut writers = Vec::new(alloc);
    writers.push(WriterSetup {
        id: id(alloc, 1)?,
        plan: plan(alloc)?,
        start: START,
    })?;
    Ok(Setup {
        writers: Seq::from_vec(writers),
        gateways: Seq::from_vec(gateways.to_vec(alloc)?),
    })
}

fn measure(alloc: Global, shard: i64) -> anyhow::Result<Event> {
    measure_at(alloc, 0, 0, shard)
}

fn measure_at(
    alloc: Global,
    writer: usize,
    instrument: usize,
    shard: i64,
) -> anyhow::Result<Event> {
    Ok(Event::Measure {
        writer,
        instrument,
        attrs: set(alloc, shard)?,
        value: 5,
    })
}

// A recording, a collection that comes to the first gateway, and its mail to the second.
fn past(alloc: Global) -> anyhow::Result<[Event; 4]> {
    Ok([
        measure(alloc, 1)?,
        Event::Collect {
            writer: 0,
            time: 200,
        },
        Event::Deliver {
            export: 1,
            gateway: 0,
        },
        Event::Send { from: 0, to: 1 },
    ])
}

// A world with this past.
fn world(alloc: Global) -> anyhow::Result<World> {
    let (world, _) = replay(alloc, setup(alloc, &[1, 2])?, &past(alloc)?)?;
    Ok(world)
}

fn are_same_nodes(one: &World, other: &World, place: usize) -> bool {
    match (one.node(place), other.node(place)) {
        (Some(one), Some(other)) => one.gateway().same(other.gateway()),
        _ => false,
    }
}

// Whether both have the same writer, gateways and exports.
fn are_same(one: &World, other: &World) -> bool {
    let writers = match (one.writer(0), other.writer(0)) {
        (Some(one), Some(other)) => are_same_writers(one, other),
        _ => false,
    };
    writers
        && are_same_nodes(one, other, 0)
        && are_same_nodes(one, other, 1)
        && one.export(2).is_some() == other.export(2).is_some()
}

fn apply(rt: &HostRuntime, event: Event) -> anyhow::Result<()> {
    let mut world = world(rt.alloc())?;
    let twin = crate::worlds::world(rt.alloc())?;
    call_begins(rt);
    let answer = world.apply(&event);
    call_ends(rt);
    let left = state(are_same(&world, &twin));
    let again = world.apply(&event);
    tell_twice(rt, &answer, left, &again)
}

fn new(rt: &HostRuntime) -> anyhow::Result<()> {
    let setup = setup(rt.alloc(), &[1, 2])?;
    call_begins(rt);
    let answer = World::new(rt.alloc(), setup);
    call_ends(rt);
    tell_made(rt, answer)
}

fn replay_call(rt: &HostRuntime) -> anyhow::Result<()> {
    let setup = setup(rt.alloc(), &[1, 2])?;
    let events = past(rt.alloc())?;
    call_begins(rt);
    let answer = replay(rt.alloc(), setup, &events);
    call_ends(rt);
    tell_made(rt, answer)
}

// At one writer of two instruments and one gateway: a writer, an instrument, a gateway and an export that are not there; a gateway
// merged with itself, and a mail to itself that is handed.
fn at_the_edges(alloc: Global) -> anyhow::Result<[Event; 7]> {
    Ok([
        measure_at(alloc, 1, 0, 1)?,
        measure_at(alloc, 0, 2, 1)?,
        Event::Deliver {
            export: 1,
            gateway: 1,
        },
        Event::Deliver {
            export: 1,
            gateway: 0,
        },
        Event::Merge { into: 0, from: 0 },
        Event::Send { from: 0, to: 0 },
        Event::Hand {
            mail: 1,
            gateway: 0,
        },
    ])
}

// What one schedule replies to these.
fn replies(rt: &HostRuntime) -> anyhow::Result<()> {
    let events = at_the_edges(rt.alloc())?;
    let (_, replies) = replay(rt.alloc(), setup(rt.alloc(), &[1])?, &events)?;
    Ok(println!(rt; "{:?}", replies.as_slice())?)
}

// The event of a name.
fn event(alloc: Global, name: &str) -> anyhow::Result<Option<Event>> {
    Ok(Some(match name {
        "Measure" => measure(alloc, 2)?,
        "Collect" => Event::Collect {
            writer: 0,
            time: 300,
        },
        "Shutdown" => Event::Shutdown {
            writer: 0,
            time: 300,
        },
        "Restart" => Event::Restart {
            writer: 0,
            start: 300,
        },
        "Deliver" => Event::Deliver {
            export: 1,
            gateway: 1,
        },
        "Merge" => Event::Merge { into: 1, from: 0 },
        "Send" => Event::Send { from: 0, to: 1 },
        "Hand" => Event::Hand {
            mail: 1,
            gateway: 1,
        },
        _ => return Ok(None),
    }))
}

// Applies the event of a name, if there is one.
fn apply_call(rt: &HostRuntime, name: &str) -> anyhow::Result<bool> {
    match event(rt.alloc(), name)? {
        Some(event) => {
            apply(rt, event)?;
            Ok(true)
        }
        None => Ok(false),
    }
}

/// Makes a call of a world, if this is the name of one.
pub fn make_call(rt: &HostRuntime, call: &str) -> anyhow::Result<bool> {
    match call {
        "World::new" => new(rt)?,
        "replay" => replay_call(rt)?,
        "replay, all replies" => replies(rt)?,
        _ => {
            return match call.strip_prefix("World::apply, ") {
                Some(name) => apply_call(rt, name),
                None => Ok(false),
            };
        }
    }
    Ok(true)
}
