//! Files joined.
ghost use Rattle.std.specs.Prelude.{◌≡◌, All, map, IfErr, IfOk, OnOk};
ghost use Rattle.gossip_kit.specs.Bodies.{cells_of};
ghost use Rattle.point_kit.specs.Exports.{join_points};
ghost use Rattle.file_kit.specs.Contents.{points_of, HasContent, IsRefused, IsRefusedAt, JoinsAt, Says, Shows};

use crate::FileFault;
use crate::content::{Content, read};
use archive_kit::Keeper;
use attr_kit::NoMemory;
use bytes_kit::DecodeFault;
use gateway_kit::Gateway;
use gossip_kit::Body;
use std::alloc::Global;

// The gateway that files are joined in has this id, which no other needs to have.
const NO_ID: u32 = 0;

fn join_body(gateway: &mut Gateway, body: &Body) -> Result<(), NoMemory>
    ensures id { gateway.new.id ≡ gateway.old.id }
    ensures ok { OnOk result (gateway.new.points ≡ join_points gateway.old.points (cells_of body.now)) }
{
    match body {
        Body::Whole(points) => {
            gateway.merge(points)?;
        }
        Body::Delta { cells, .. } => {
            gateway.merge(cells)?;
        }
        Body::Ack(_) => {}
    }
    Ok(())
}

/// Joins what a file has.
pub(crate) fn join(gateway: &mut Gateway, content: &Content) -> Result<(), NoMemory>
    ensures id { gateway.new.id ≡ gateway.old.id }
    ensures ok { OnOk result (gateway.new.points ≡ join_points gateway.old.points (points_of content.now)) }
{
    match content {
        Content::Export(export) => {
            gateway.take(export)?;
            Ok(())
        }
        Content::Message(message) => join_body(gateway, message.body()),
    }
}

// Joins what the file at a place has.
fn join_file(
    alloc: Global,
    gateway: &mut Gateway,
    place: usize,
    bytes: &[u8],
) -> Result<(), FileFault>
    ensures id { gateway.new.id ≡ gateway.old.id }
    ensures ok { OnOk result (JoinsAt bytes.now gateway.old.points gateway.new.points) }
    ensures err { IfErr result (IsRefusedAt place bytes.now) }
{
    match read(alloc, bytes) {
        Ok(content) => Ok(join(gateway, &content)?),
        Err(DecodeFault::NoMemory) => Err(FileFault::NoMemory),
        Err(fault) => Err(FileFault::Refused { place, fault }),
    }
}

/// What files say, joined in a gateway of the id 0: of an export its points, and of a message or a state the cells that it carries. In
/// which order they come, and whether one comes twice, makes no difference.
///
/// Refused for the first file that has no export, message or state, with the byte and the reason; then `NoMemory`.
/// O(n) in the bytes, and the cost of `Gateway::take` and `merge` for what they have.
pub fn joined(alloc: Global, files: &[Vec<u8>]) -> Result<Gateway, FileFault>
    ensures id { IfOk result (λ g. g.id ≡ 0) }
    ensures value { IfOk result (λ g. Says (map (λ f. f.items) files.now) g.points) }
    // Each file that is none is refused.
    ensures whole { OnOk result (All HasContent (map (λ f. f.items) files.now)) }
    ensures err { IfErr result (IsRefused (map (λ f. f.items) files.now)) }
{
    let mut gateway = Gateway::new(alloc, NO_ID);
    for (place, bytes) in files.iter().enumerate() {
        join_file(alloc, &mut gateway, place, bytes.as_slice())?;
    }
    Ok(gateway)
}

/// What files show: what they say, joined, but for what a tombstone among it names, in a keeper of the id 0. So incarnations that an
/// archive adopted count once where its export is among the files, beside theirs, and in whichever order.
///
/// Refused as [`joined`] refuses, at its cost and that of `Keeper::merge` for all points.
pub fn kept(alloc: Global, files: &[Vec<u8>]) -> Result<Keeper, FileFault>
    ensures id { IfOk result (λ k. k.gateway.id ≡ 0) }
    ensures value { IfOk result (λ k. Shows (map (λ f. f.items) files.now) k.gateway.points) }
    ensures whole { OnOk result (All HasContent (map (λ f. f.items) files.now)) }
    ensures err { IfErr result (IsRefused (map (λ f. f.items) files.now)) }
{
    let held = joined(alloc, files)?;
    let mut keeper = Keeper::new(alloc, NO_ID)?;
    keeper.merge(&held)?;
    Ok(keeper)
}
