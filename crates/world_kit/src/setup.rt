//! What a world is made of.
use attr_kit::Seq;
use plan_kit::Plan;
use point_kit::WriterId;

/// A writer of a world. Two writers may share an identity: then they are at fault, and conflicts show it.
#[derive(Debug, Drop)]
pub struct WriterSetup {
    pub id: WriterId,
    pub plan: Plan,
    /// Nanoseconds since the Unix epoch.
    pub start: u64,
}

/// The writers of a world, and the ids of its gateways. Both are named by their places, from 0.
#[derive(Debug, Drop)]
pub struct Setup {
    pub writers: Seq<WriterSetup>,
    pub gateways: Seq<u32>,
}
