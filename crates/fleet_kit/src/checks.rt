//! Why the setup of a fleet is refused.
ghost use Rattle.std.specs.Prelude.{◌≡◌, nat_eq, nat_le, position};
ghost use Rattle.fleet_kit.specs.Checks.{first_tie, has_id_of, is_crowded, crowded_from, setup_fault};

use crate::{FleetFault, FleetSetup, Job};
use plan_kit::Plan;
use point_kit::WriterId;

/// The most jobs of a writer, which has one seat more.
const MOST_JOBS: usize = 4095;

/// The most entries in the jobs of a writer.
const MOST_ENTRIES: usize = 1 << 61;

// The least place of a job whose writer is not there.
fn stray_job(jobs: &[Job], writers: usize) -> Option<usize>
    ensures { result ≡ position (λ j. nat_le writers j.writer) jobs.now }
{
    jobs.iter().position(|job| job.writer >= writers)
}

// The least place of a writer that starts at the end or later.
fn late_writer(writers: &[(WriterId, Plan, u64)], end: u64) -> Option<usize>
    ensures { result ≡ position (λ w. nat_le end w.2) writers.now }
{
    writers.iter().position(|writer| writer.2 >= end)
}

// The least place of a writer with this one's identity.
fn place_of(writers: &[(WriterId, Plan, u64)], writer: &(WriterId, Plan, u64)) -> Option<usize>
    ensures { result ≡ position (λ w. has_id_of w writer.now) writers.now }
{
    writers.iter().position(|other| other.0 == writer.0)
}

// The least place of an id.
fn id_place(ids: &[u32], id: u32) -> Option<usize>
    ensures { result ≡ position (λ other. nat_eq other id) ids.now }
{
    ids.iter().position(|other| *other == id)
}

// The least place of a writer whose identity an earlier one has, behind the least place of such a one.
fn same_writer(writers: &[(WriterId, Plan, u64)]) -> Option<(usize, usize)>
    ensures { result ≡ first_tie has_id_of writers.now }
{
    for (place, writer) in writers.iter().enumerate() {
        let earlier = &writers[..place];
        if let Some(first) = place_of(earlier, writer) {
            return Some((first, place));
        }
    }
    None
}

// The least place of a gateway whose id an earlier one has, behind the least place of such a one.
fn same_gateway(ids: &[u32]) -> Option<(usize, usize)>
    ensures { result ≡ first_tie nat_eq ids.now }
{
    for (place, id) in ids.iter().enumerate() {
        let earlier = &ids[..place];
        if let Some(first) = id_place(earlier, *id) {
            return Some((first, place));
        }
    }
    None
}

// Whether the writer at a place has too many jobs, or too many entries in them.
fn is_crowded(jobs: &[Job], place: usize) -> bool
    ensures { result ≡ is_crowded jobs.now place }
{
    let mut count: usize = 0;
    let mut entries: usize = 0;
    for job in jobs {
        if job.writer == place {
            count += 1;
            entries = entries.saturating_add(job.entries.len());
        }
    }
    count > MOST_JOBS || entries > MOST_ENTRIES
}

// The least place at which a writer has too many.
fn first_crowd(jobs: &[Job], writers: usize) -> Option<usize>
    ensures { result ≡ crowded_from jobs.now 0 writers }
{
    for place in 0..writers {
        if is_crowded(jobs, place) {
            return Some(place);
        }
    }
    None
}

/// Why a setup is refused, the first in the order. O(jobs times writers), and the squares of the numbers of writers and of
/// gateways; takes no memory.
pub(crate) fn fault_of(setup: &FleetSetup) -> Option<FleetFault>
    ensures { result ≡ setup_fault setup.now }
{
    let writers = setup.writers.as_slice();
    let jobs = setup.jobs.as_slice();
    if let Some(job) = stray_job(jobs, writers.len()) {
        return Some(FleetFault::NoWriter(job));
    }
    if let Some(places) = same_writer(writers) {
        return Some(FleetFault::SameWriter(places.0, places.1));
    }
    if let Some(places) = same_gateway(setup.gateways.as_slice()) {
        return Some(FleetFault::SameGateway(places.0, places.1));
    }
    if let Some(writer) = late_writer(writers, setup.end) {
        return Some(FleetFault::EndNotAfter(writer));
    }
    if let Some(writer) = first_crowd(jobs, writers.len()) {
        return Some(FleetFault::TooManyJobs(writer));
    }
    None
}
