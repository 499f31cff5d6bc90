//! The gateways of a fleet: a thread for each, which takes the exports that it is told of.
ghost use Rattle.std.specs.Prelude.{◌≡◌, [], None, IfErr, IfOk, OnOk};
ghost use Rattle.crossbeam_channel.specs.Claims.{view, IsSeatAt};
ghost use Rattle.crossbeam_channel.specs.Ends.{receives_on};
ghost use Rattle.fleet_kit.specs.Posting.{IsPosted};
ghost use Rattle.fleet_kit.specs.Serving.{IsServed, IsWhole, AreOfOthers, AreWhole, StopsGateway, StopsServing};

use crate::halt::{Halt, gather};
use crate::posts::{Got, Places, Post, Traffic, posts_for};
use attr_kit::NoMemory;
use crossbeam_channel::Pass;
use gateway_kit::Gateway;
use point_kit::Export;
use std::alloc::Global;
use std::sync::Wait;
use std::thread;
use std::thread::Threads;

// Takes the exports whose places come, until the channel ends. A place that names none is dropped.
fn serve<R: Wait>(
    rt: &R,
    alloc: Global,
    id: u32,
    exports: &[Export],
    places: &Places,
    mut pass: Pass<usize, Traffic>,
) -> Result<Gateway, NoMemory>
    requires at { IsSeatAt (receives_on places.now) pass }
    requires new { (view pass).got ≡ [] }
    ensures ok { IfOk result (λ g. IsServed exports.now id (view pass).sent g) }
{
    let mut gateway = Gateway::new(alloc, id);
    for _ in rt.forever() {
        let Ok(place) = places.recv_as::<Got, R>(rt, &mut pass) else {
            break;
        };
        if place < exports.len() {
            gateway.take(&exports[place])?;
        }
    }
    Ok(gateway)
}

// A gateway's thread. It answers the gateway where that was told of each export with points, and else `Missing` with the first
// writer of which it was not told: it lacks the points of that one.
fn serve_gateway<R: Wait>(
    rt: &R,
    alloc: Global,
    exports: &[Export],
    post: Post,
) -> Result<Gateway, Halt>
    requires apart { AreOfOthers exports.now }
    requires posted { IsPosted exports.now (view post.pass) post.unsent }
    ensures ok { IfOk result (λ g. IsWhole exports.now post.id g) }
    ensures told { OnOk result (post.unsent ≡ None) }
    ensures err { IfErr result (StopsGateway exports.now post.gateway post.id post.unsent) }
{
    let Post {
        gateway: place,
        id,
        places,
        pass,
        unsent,
    } = post;
    let gateway = serve(rt, alloc, id, exports, &places, pass)?;
    match unsent {
        None => Ok(gateway),
        Some(writer) => Err(Halt::Missing {
            gateway: place,
            writer,
        }),
    }
}

/// A gateway for each id, in order, each of which was told of all exports in a thread of its own where one can be made.
pub(crate) fn gateways_of<R: Threads + Wait + Sync>(
    rt: &R,
    alloc: Global,
    ids: &[u32],
    exports: &[Export],
) -> Result<Vec<Gateway>, Halt>
    requires apart { AreOfOthers exports.now }
    ensures ok { IfOk result (λ gs. AreWhole exports.now ids.now gs.items) }
    ensures err { IfErr result (StopsServing exports.now ids.now) }
{
    let posts = posts_for(rt, alloc, ids, exports)?;
    let results = thread::map_vec(
        rt,
        posts,
        &|post: Post| -> Result<Gateway, Halt>
            requires apart { AreOfOthers exports.now }
            requires posted { IsPosted exports.now (view post.pass) post.unsent }
            ensures ok { IfOk result (λ g. IsWhole exports.entry.now post.id g) }
            ensures err { IfErr result (StopsGateway exports.entry.now post.gateway post.id post.unsent) }
        { serve_gateway(rt, alloc, exports, post) },
    )?;
    gather(alloc, results)
}
