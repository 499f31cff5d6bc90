//! What a fleet is made of.
use attr_kit::AttrSet;
use plan_kit::Plan;
use point_kit::WriterId;

/// What one thread is to record with a writer.
#[derive(Debug, Drop)]
pub struct Job {
    /// The writer's place.
    pub writer: usize,
    /// Instruments by their places, each with attributes and a value, in the order in which they are recorded.
    pub entries: Vec<(usize, AttrSet, i64)>,
}

/// Writers, jobs and gateways of a fleet; writers, jobs and gateways are named by their places, from 0.
#[derive(Debug, Drop)]
pub struct FleetSetup {
    /// The identity, the plan and the start of each. Starts are nanoseconds since the Unix epoch.
    pub writers: Vec<(WriterId, Plan, u64)>,
    pub jobs: Vec<Job>,
    /// The id of each.
    pub gateways: Vec<u32>,
    /// The time of the one collection of each writer, in nanoseconds since the Unix epoch.
    pub end: u64,
}
