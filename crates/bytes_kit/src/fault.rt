//! Why bytes are no export, or no message.
ghost use Rattle.std.specs.Prelude.{◌≡◌};

use attr_kit::NoMemory;
use point_kit::ExportFault;
use std::alloc::{AllocError, AllocFailed};
use std::fmt;
use thiserror::Error;

/// Why bytes are no export, or no message. A place counts bytes from 0; for `Truncated` it is the number of bytes.
#[derive(Clone, Copy, Debug, PartialEq, Eq, Error)]
pub enum DecodeFault {
    /// The bytes end within the export or the message.
    Truncated(usize),
    /// The bytes do not begin as those of an export do, or of a message.
    BadMagic(usize),
    /// The version is not one that is known here.
    BadVersion(usize),
    /// The value at this place is written so by none: a number in more bytes than it wants, a tag or the number of a text that
    /// there is not, a text or a stream that came before and is written again, keys that do not rise, or bytes behind the end.
    NotCanonical(usize),
    /// The text at this place is not UTF-8.
    NotText(usize),
    /// The checksum at this place is not that of the bytes before it.
    BadChecksum(usize),
    /// The values make no export; or a cell of a message is one that no export brings, for this reason.
    BadExport(ExportFault),
    /// Memory was refused.
    NoMemory,
}

impl fmt::Display for DecodeFault {
    ghost use Rattle.bytes_kit.specs.FaultTexts.{decode_text};

    ghost output = { λ fault. decode_text fault };

    fn fmt<W: fmt::Write>(&self, f: &mut fmt::Formatter<W>) -> fmt::Result {
        match self {
            DecodeFault::Truncated(place) => write!(f, "the bytes end at {place}, too early"),
            DecodeFault::BadMagic(place) => write!(f, "byte {place} is not that of what is read"),
            DecodeFault::BadVersion(place) => write!(f, "the version at byte {place} is not known"),
            DecodeFault::NotCanonical(place) => {
                write!(f, "the value at byte {place} is not in its one form")
            }
            DecodeFault::NotText(place) => write!(f, "the text at byte {place} is not UTF-8"),
            DecodeFault::BadChecksum(place) => write!(
                f,
                "the checksum at byte {place} is not that of the bytes before it"
            ),
            DecodeFault::BadExport(fault) => write!(f, "{fault}"),
            DecodeFault::NoMemory => write!(f, "no memory"),
        }
    }
}

impl From<NoMemory> for DecodeFault {
    ghost use Rattle.bytes_kit.specs.declared.fault.DecodeFault.TheVariants as faults;

    ghost from_gives = { λ _ e. e ≡ faults.NoMemory };

    fn from(_error: NoMemory) -> DecodeFault {
        DecodeFault::NoMemory
    }
}

impl From<AllocError> for DecodeFault {
    ghost use Rattle.bytes_kit.specs.declared.fault.DecodeFault.TheVariants as faults;

    ghost from_gives = { λ _ e. e ≡ faults.NoMemory };

    fn from(_error: AllocError) -> DecodeFault {
        DecodeFault::NoMemory
    }
}

impl<T: Drop> From<AllocFailed<T>> for DecodeFault {
    ghost use Rattle.bytes_kit.specs.declared.fault.DecodeFault.TheVariants as faults;

    ghost from_gives = { λ _ e. e ≡ faults.NoMemory };

    fn from(_error: AllocFailed<T>) -> DecodeFault {
        DecodeFault::NoMemory
    }
}

impl From<ExportFault> for DecodeFault {
    ghost use Rattle.bytes_kit.specs.Faults.{decode_fault};

    ghost from_gives = { λ fault e. e ≡ decode_fault fault };

    fn from(fault: ExportFault) -> DecodeFault {
        match fault {
            ExportFault::NoMemory => DecodeFault::NoMemory,
            fault => DecodeFault::BadExport(fault),
        }
    }
}
