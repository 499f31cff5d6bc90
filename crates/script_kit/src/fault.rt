//! Why a script ended early.
ghost use Rattle.script_kit.specs.Faults.{text_of};
ghost use Rattle.std.specs.Prelude.{Some};

use std::fmt;
use thiserror::Error;

/// Why a script ended early. It prints as the text that the program writes for it.
#[derive(Clone, Copy, Debug, PartialEq, Eq, Error)]
pub enum ScriptFault {
    /// A read failed; nothing was written.
    ReadFault,
    /// The script has more than [`MAX_BYTES`](crate::MAX_BYTES) bytes; nothing was written.
    TooLong,
    /// This line, counted from 1, is bad; what the lines before it print was written.
    BadLine(u64),
    /// A write failed, or took no byte; a front of the text was written.
    WriteFault,
    /// Memory was refused; a front of the text was written.
    NoMemory,
}

impl fmt::Display for ScriptFault {
    ghost output = { λ fault. Some (text_of fault) };

    fn fmt<W: fmt::Write>(&self, f: &mut fmt::Formatter<W>) -> fmt::Result {
        match self {
            ScriptFault::ReadFault => write!(f, "read failed"),
            ScriptFault::TooLong => write!(f, "too long"),
            ScriptFault::BadLine(number) => write!(f, "line {number}"),
            ScriptFault::WriteFault => write!(f, "write failed"),
            ScriptFault::NoMemory => write!(f, "no memory"),
        }
    }
}
