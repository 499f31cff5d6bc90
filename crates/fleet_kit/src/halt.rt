//! Why threads of a fleet stop short.
ghost use Rattle.std.specs.Prelude.{◌≡◌, ◌⊎◌, None, Some, IfErr, IfNone, IfOk, Ok, Err, map};
ghost use Rattle.schedule_kit.specs.Members.{In};
ghost use Rattle.fleet_kit.specs.Halts.{is_before, rank, IsFirst};
ghost use Rattle.fleet_kit.specs.declared.halt.Halt.TheVariants as halts;

use attr_kit::NoMemory;
use std::alloc::{AllocError, Global};

/// Why a thread of a fleet has no answer: the faults that come after those of the setup, in their order.
#[derive(Drop)]
pub(crate) enum Halt {
    GateShut(usize),
    Refused { job: usize, entry: usize },
    NoThread,
    Missing { gateway: usize, writer: usize },
    NoMemory,
}

impl Halt {
    // Where it stands in the order: faults of jobs by the jobs.
    fn rank(&self) -> (u8, usize)
        ensures { result ≡ rank self.now }
    {
        match self {
            Halt::GateShut(job) | Halt::Refused { job, .. } => (0, *job),
            Halt::NoThread => (1, 0),
            Halt::Missing { gateway, .. } => (2, *gateway),
            Halt::NoMemory => (3, 0),
        }
    }

    fn is_before(&self, other: &Halt) -> bool
        ensures { result ≡ is_before self.now other.now }
    {
        let (kind, place) = self.rank();
        let (other_kind, other_place) = other.rank();
        kind < other_kind || kind == other_kind && place < other_place
    }

    /// Of two the one that comes first in the order.
    pub(crate) fn first(one: Option<Halt>, other: Option<Halt>) -> Option<Halt>
        ensures none { IfNone result ((one ≡ None) × (other ≡ None)) }
        ensures first { IsFirst (λ h. (one ≡ Some h) ⊎ (other ≡ Some h)) result }
    {
        match (one, other) {
            (Some(one), Some(other)) => {
                if other.is_before(&one) {
                    Some(other)
                } else {
                    Some(one)
                }
            }
            (Some(halt), None) | (None, Some(halt)) => Some(halt),
            (None, None) => None,
        }
    }
}

impl From<NoMemory> for Halt {
    ghost use Rattle.fleet_kit.specs.declared.halt.Halt.TheVariants as halts;

    ghost from_gives = { λ _ h. h ≡ halts.NoMemory };

    fn from(_error: NoMemory) -> Halt {
        Halt::NoMemory
    }
}

impl From<AllocError> for Halt {
    ghost use Rattle.fleet_kit.specs.declared.halt.Halt.TheVariants as halts;

    ghost from_gives = { λ _ h. h ≡ halts.NoMemory };

    fn from(_error: AllocError) -> Halt {
        Halt::NoMemory
    }
}

/// What threads answered, in order, where none stopped short; else the first in the order why one did. Want of memory for
/// the answers comes last.
pub(crate) fn gather<T: Drop>(alloc: Global, results: Vec<Result<T, Halt>>) -> Result<Vec<T>, Halt>
    ensures ok { IfOk result (λ v. map Ok v.items ≡ results.items) }
    ensures err { IfErr result (λ h. IsFirst (λ x. In (Err x) results.items ⊎ (x ≡ halts.NoMemory)) (Some h)) }
{
    let mut answers = Vec::new(alloc);
    let mut told = None;
    for result in results {
        match result {
            Ok(answer) => {
                if answers.push(answer).is_err() {
                    told = Halt::first(told, Some(Halt::NoMemory));
                }
            }
            Err(halt) => told = Halt::first(told, Some(halt)),
        }
    }
    match told {
        None => Ok(answers),
        Some(halt) => Err(halt),
    }
}
