//! Why a fleet gives no answer.
ghost use Rattle.std.specs.Prelude.{◌≡◌};

use crate::halt::Halt;
use thiserror::Error;

/// Why a fleet gives no answer, in the order in which it is looked for. The first five are refusals of the setup alone.
#[derive(Debug, PartialEq, Eq, Drop, Error)]
pub enum FleetFault {
    /// The least job whose writer is not there.
    #[error("job {0} names a writer that is not there")]
    NoWriter(usize),
    /// The writers at these two places, the lesser first, have one identity. It is the least second place, and for it the
    /// least first one.
    #[error("writers {0} and {1} have one identity")]
    SameWriter(usize, usize),
    /// The gateways at these two places have one id, likewise.
    #[error("gateways {0} and {1} have one id")]
    SameGateway(usize, usize),
    /// The least writer whose start is not before the end.
    #[error("the end is not after the start of writer {0}")]
    EndNotAfter(usize),
    /// The least writer with more than 4,095 jobs, or more than 2^61 entries in them.
    #[error("writer {0} has too many jobs")]
    TooManyJobs(usize),
    /// The gate let an entry of this job not pass, once the entries before it were recorded, and no lesser job was stopped.
    #[error("the gate was shut for job {0}")]
    GateShut(usize),
    /// The writer's plan refuses this entry of this job after the entries before it, and no lesser job was stopped.
    #[error("entry {entry} of job {job} was refused")]
    Refused { job: usize, entry: usize },
    /// A seat for a job could not be had, and no job was stopped. Where a thread can't be made its job is run by the caller, which is
    /// no fault.
    #[error("no thread")]
    NoThread,
    /// The gateway could not be told of the writer's collection, which has points, and lacks them; both by place.
    #[error("gateway {gateway} lacks writer {writer}")]
    Missing { gateway: usize, writer: usize },
    /// Memory was refused, and nothing else stopped a job.
    #[error("no memory")]
    NoMemory,
}

impl From<Halt> for FleetFault {
    ghost use Rattle.fleet_kit.specs.Faults.{fault_of_halt};

    ghost from_gives = { λ halt e. e ≡ fault_of_halt halt };

    fn from(halt: Halt) -> FleetFault {
        match halt {
            Halt::GateShut(job) => FleetFault::GateShut(job),
            Halt::Refused { job, entry } => FleetFault::Refused { job, entry },
            Halt::NoThread => FleetFault::NoThread,
            Halt::Missing { gateway, writer } => FleetFault::Missing { gateway, writer },
            Halt::NoMemory => FleetFault::NoMemory,
        }
    }
}
