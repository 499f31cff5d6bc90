//! What is told of a log that a writer took in.
ghost use Rattle.std.specs.Prelude.{◌≡◌};
ghost use Rattle.kit_c.specs.Takings.{told_of};

use crate::fault::{Fault, OK};
use recorder_kit::Taken;
use writer_kit::MeasureFault;

/// How many recordings of a log a writer recorded and refused, and why the first of these: its code, its place in the log and what the
/// code tells. Where none was refused these are `OK`, 0 and 0.
#[repr(C)]
#[derive(Clone, Copy)]
pub struct KitTaken {
    pub recorded: usize,
    pub refused: usize,
    pub code: i32,
    pub first: usize,
    pub place: u64,
}

impl KitTaken {
    pub(crate) fn of(taken: Taken) -> KitTaken
        ensures { result ≡ told_of taken }
    {
        let Taken {
            recorded,
            refused,
            first,
        } = taken;
        let Some((first, fault)) = first else {
            return KitTaken {
                recorded,
                refused,
                code: OK,
                first: 0,
                place: 0,
            };
        };
        let fault = Fault::Measure(MeasureFault::Refused(fault));
        KitTaken {
            recorded,
            refused,
            code: fault.code(),
            first,
            place: fault.place().unwrap_or(0),
        }
    }
}
