//! How a world begins.
ghost use Rattle.std.specs.Prelude.{◌≡◌, ◌≢◌, [], map, Some, None, IfOk, IfErr, OnOk};
ghost use Rattle.plan_kit.specs.Plans.{AreApart};
ghost use Rattle.world_kit.specs.Building.{AreStarted, fresh, same_gateway, setup_fault};
ghost use Rattle.world_kit.specs.Stands.{Stands, WriterStands};

use crate::{Setup, SetupFault, World, WriterSetup};
use attr_kit::{NoMemory, Seq};
use gateway_kit::Gateway;
use gossip_kit::Node;
use std::alloc::Global;
use std::collections::HashMap;
use writer_kit::Writer;

impl World {
    /// A world in which nothing happened. O(writers + gateways), with a hash look-up for each
    /// gateway's id.
    pub fn new(alloc: Global, setup: Setup) -> Result<World, SetupFault>
        ensures ok { OnOk result (setup_fault setup ≡ None) }
        ensures value { IfOk result (λ world. Stands setup [] world) }
        ensures err { IfErr result (λ fault. fault ≢ SetupFault.NoMemory → setup_fault setup ≡ Some fault) }
    {
        let Setup { writers, gateways } = setup;
        if let Some((first, second)) = same_ids(alloc, gateways.as_slice())? {
            return Err(SetupFault::SameGateway(first, second));
        }
        Ok(World {
            writers: start(alloc, writers)?,
            nodes: open(alloc, gateways.as_slice())?,
            exports: Vec::new(alloc),
            mails: Vec::new(alloc),
        })
    }
}

// The least place whose id stands earlier too, and the least such place before it.
fn same_ids(alloc: Global, ids: &[u32]) -> Result<Option<(usize, usize)>, NoMemory>
    ensures { IfOk result (λ places. places ≡ same_gateway ids.now) }
{
    let mut firsts = HashMap::new(alloc);
    for (place, id) in ids.iter().enumerate() {
        if let Some(first) = firsts.insert(*id, place)? {
            return Ok(Some((first, place)));
        }
    }
    Ok(None)
}

// Writers before any event.
fn start(alloc: Global, setups: Seq<WriterSetup>) -> Result<Vec<Writer>, NoMemory>
    ensures value { IfOk result (λ writers. AreStarted setups writers.items) }
{
    let mut writers = Vec::new(alloc);
    for setup in setups.into_vec() {
        writers.push(begin_writer(alloc, setup)?)?;
    }
    Ok(writers)
}

// A writer before any event.
fn begin_writer(alloc: Global, setup: WriterSetup) -> Result<Writer, NoMemory>
    ensures value { IfOk result (λ writer. WriterStands setup [] writer) }
    ensures apart { OnOk result (AreApart setup.plan.streams) }
{
    setup.plan.streams_are_apart();
    let writer = Writer::start(alloc, setup.id, setup.plan, setup.start)?;
    Ok(writer)
}

// Gateways that took nothing.
fn open(alloc: Global, ids: &[u32]) -> Result<Vec<Node>, NoMemory>
    ensures value { IfOk result (λ nodes. nodes.items ≡ map fresh ids.now) }
{
    let mut nodes = Vec::new(alloc);
    for id in ids {
        nodes.push(Node::new(alloc, Gateway::new(alloc, *id)))?;
    }
    Ok(nodes)
}
