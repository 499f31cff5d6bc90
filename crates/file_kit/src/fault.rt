//! Why files are not joined, or not sent on.
ghost use Rattle.std.specs.Prelude.{◌≡◌};

use archive_kit::AdoptFault;
use attr_kit::NoMemory;
use bytes_kit::DecodeFault;
use otlp_kit::OtlpFault;
use point_kit::WriterId;
use std::alloc::AllocError;
use std::fmt;
use thiserror::Error;

/// Why files are not joined.
#[derive(Clone, Copy, Debug, PartialEq, Eq, Error)]
pub enum FileFault {
    /// The file at this place, the first such, has no export, message or state, for this reason.
    Refused { place: usize, fault: DecodeFault },
    /// Memory was refused.
    NoMemory,
}

/// Why files have no OTLP request.
#[derive(Clone, Copy, Debug, PartialEq, Eq, Error)]
pub enum SendFault {
    /// The file at this place, the first such, has no export, for this reason.
    Refused { place: usize, fault: DecodeFault },
    /// The export of the file at this place, the first such, has no request, for this reason.
    Unsaid { place: usize, fault: OtlpFault },
    /// Memory was refused.
    NoMemory,
}

/// Why files come to no archive, in the order in which it is looked for, but for the last.
#[derive(Debug, Drop, Error)]
pub enum ArchiveFault {
    /// The time of the export is not later than the archive's start.
    TimeNotLater,
    /// The files are not joined, for this reason.
    Unjoined(FileFault),
    /// The files hold points of the archive's own incarnation: another export under its instance and start would take their place.
    Taken,
    /// The first incarnation that is not adopted, and why.
    Unadopted {
        writer: WriterId,
        start: u64,
        fault: AdoptFault,
    },
    /// Memory was refused.
    NoMemory,
}

impl fmt::Display for FileFault {
    ghost use Rattle.file_kit.specs.FaultTexts.{file_text};

    ghost output = { λ fault. file_text fault };

    fn fmt<W: fmt::Write>(&self, f: &mut fmt::Formatter<W>) -> fmt::Result {
        match self {
            FileFault::Refused { fault, .. } => write!(f, "{fault}"),
            FileFault::NoMemory => write!(f, "no memory"),
        }
    }
}

impl fmt::Display for SendFault {
    ghost use Rattle.file_kit.specs.FaultTexts.{send_text};

    ghost output = { λ fault. send_text fault };

    fn fmt<W: fmt::Write>(&self, f: &mut fmt::Formatter<W>) -> fmt::Result {
        match self {
            SendFault::Refused { fault, .. } => write!(f, "{fault}"),
            SendFault::Unsaid { fault, .. } => write!(f, "{fault}"),
            SendFault::NoMemory => write!(f, "no memory"),
        }
    }
}

impl fmt::Display for ArchiveFault {
    ghost use Rattle.file_kit.specs.FaultTexts.{archive_text};

    ghost output = { λ fault. archive_text fault };

    fn fmt<W: fmt::Write>(&self, f: &mut fmt::Formatter<W>) -> fmt::Result {
        match self {
            ArchiveFault::TimeNotLater => write!(f, "the time is not later than the start"),
            ArchiveFault::Unjoined(fault) => write!(f, "{fault}"),
            ArchiveFault::Taken => write!(f, "the files hold points of this instance and start"),
            ArchiveFault::Unadopted { fault, .. } => write!(f, "{fault}"),
            ArchiveFault::NoMemory => write!(f, "no memory"),
        }
    }
}

impl From<NoMemory> for ArchiveFault {
    ghost use Rattle.file_kit.specs.declared.fault.ArchiveFault.TheVariants as faults;

    ghost from_gives = { λ _ e. e ≡ faults.NoMemory };

    fn from(_error: NoMemory) -> ArchiveFault {
        ArchiveFault::NoMemory
    }
}

impl From<NoMemory> for FileFault {
    ghost use Rattle.file_kit.specs.declared.fault.FileFault.TheVariants as faults;

    ghost from_gives = { λ _ e. e ≡ faults.NoMemory };

    fn from(_error: NoMemory) -> FileFault {
        FileFault::NoMemory
    }
}

impl From<AllocError> for FileFault {
    ghost use Rattle.file_kit.specs.declared.fault.FileFault.TheVariants as faults;

    ghost from_gives = { λ _ e. e ≡ faults.NoMemory };

    fn from(_error: AllocError) -> FileFault {
        FileFault::NoMemory
    }
}

impl From<AllocError> for SendFault {
    ghost use Rattle.file_kit.specs.declared.fault.SendFault.TheVariants as faults;

    ghost from_gives = { λ _ e. e ≡ faults.NoMemory };

    fn from(_error: AllocError) -> SendFault {
        SendFault::NoMemory
    }
}
