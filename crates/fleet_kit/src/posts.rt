//! What threads of gateways are told: places of exports, each thread over a channel of its own.
//!
//! The channels are under a rule, so that contracts can say what was sent over one and that all of it comes.
ghost use Rattle.std.specs.Prelude.{◌≡◌, IfOk, MatchBool, Some, map, slice_get, All};
ghost use Rattle.crossbeam_channel.specs.Claims.{view, IsSeatAt};
ghost use Rattle.crossbeam_channel.specs.Ends.{receives_on, sends_on};
ghost use Rattle.fleet_kit.specs.Posting.{and_sent, IsPosted};

use attr_kit::NoMemory;
use crossbeam_channel::protocol::{Lesson, Outcome, Protocol};
use crossbeam_channel::{Pass, RuledReceiver, RuledSender, bounded_with};
use point_kit::Export;
use std::alloc::Global;
use std::collections::LinkedList;
use std::sync::Wait;

/// The places that were sent over a channel, and those that were received. No value of it is made.
pub(crate) struct Traffic {
    pub(crate) sent: LinkedList<usize>,
    pub(crate) got: LinkedList<usize>,
}

/// The rule of a channel: what was sent comes, in order.
pub(crate) struct InOrder;

impl Protocol<usize, Traffic> for InOrder {
    ghost use Rattle.std.specs.Prelude.{[]};
    ghost use Rattle.fleet_kit.specs.Posting.{traffic_of, Flows};

    ghost holds = { Flows };

    ghost first = { traffic_of [] [] };
}

// A place is sent.
struct Sent;

impl Outcome<usize, Traffic> for Sent {
    ghost use Rattle.std.specs.Prelude.{◌≡◌};
    ghost use Rattle.fleet_kit.specs.Posting.{and_sent};

    ghost then = { λ v place w. w ≡ and_sent v place };
}

impl Lesson<usize, Traffic> for Sent {
    ghost fact = { λ _ _. Unit {0} };
}

/// A place is received. Where there is none, all were.
pub(crate) struct Got;

impl Outcome<usize, Traffic> for Got {
    ghost use Rattle.std.specs.Prelude.{◌≡◌};
    ghost use Rattle.fleet_kit.specs.Posting.{and_got};

    ghost then = { λ v place w. w ≡ and_got v place };
}

impl Lesson<usize, Traffic> for Got {
    ghost use Rattle.std.specs.Prelude.{◌≡◌, ◌++◌};

    ghost fact = { λ v places. v.sent ≡ v.got ++ places };
}

type Sender = RuledSender<usize, Traffic, InOrder>;

pub(crate) type Places = RuledReceiver<usize, Traffic, InOrder>;

/// What the thread of a gateway begins with: the gateway's place and id, the places that it is told, and the first place of
/// an export with points that could not be sent.
#[derive(Drop)]
pub(crate) struct Post {
    pub(crate) gateway: usize,
    pub(crate) id: u32,
    pub(crate) places: Places,
    pub(crate) pass: Pass<usize, Traffic>,
    pub(crate) unsent: Option<usize>,
    ghost at: { IsSeatAt (receives_on places) pass },
}

// Sends a place, and says whether it is sent.
fn is_sent<R: Wait>(rt: &R, sender: &Sender, pass: &mut Pass<usize, Traffic>, place: usize) -> bool
    requires { IsSeatAt (sends_on sender.now) pass.old }
    ensures at { IsSeatAt (sends_on sender.now) pass.new }
    ensures told { MatchBool result (view pass.new ≡ and_sent (view pass.old) place) (view pass.new ≡ view pass.old) }
{
    sender.send_as::<Sent, R>(rt, pass, place).is_ok()
}

// Tells a gateway of all exports: each place stands in the channel, whose sender is gone.
fn post_all<R: Wait>(
    rt: &R,
    alloc: Global,
    gateway: usize,
    id: u32,
    exports: &[Export],
) -> Result<Post, NoMemory>
    ensures of { IfOk result (λ p. (p.gateway ≡ gateway) × (p.id ≡ id)) }
    ensures told { IfOk result (λ p. IsPosted exports.now (view p.pass) p.unsent) }
{
    let (sender, places, mut pass) = bounded_with::<usize, Traffic, InOrder, Global>(
        alloc,
        exports.len().max(1),
    )?;
    let mut unsent = None;
    for (place, export) in exports.iter().enumerate() {
        let sent = is_sent(rt, &sender, &mut pass, place);
        if !sent && !export.points().is_empty() {
            unsent = unsent.or(Some(place));
        }
    }
    Ok(Post {
        gateway,
        id,
        places,
        pass,
        unsent,
    })
}

/// A post for each gateway, in the order of the ids, each of which is told of all exports.
pub(crate) fn posts_for<R: Wait>(
    rt: &R,
    alloc: Global,
    ids: &[u32],
    exports: &[Export],
) -> Result<Vec<Post>, NoMemory>
    ensures ids { IfOk result (λ v. map (λ p. p.id) v.items ≡ ids.now) }
    ensures gateways { IfOk result (λ v. All (λ p. slice_get ids.now p.gateway ≡ Some p.id) v.items) }
    ensures told { IfOk result (λ v. All (λ p. IsPosted exports.now (view p.pass) p.unsent) v.items) }
{
    let mut posts = Vec::new(alloc);
    for (gateway, id) in ids.iter().enumerate() {
        posts.push(post_all(rt, alloc, gateway, *id, exports)?)?;
    }
    Ok(posts)
}
