//! What a command line may ask of files.
ghost use Rattle.std.specs.Prelude.{◌≡◌};

use crate::{Archiving, PageFormat};
use attr_kit::{NoMemory, Seq, Txt};
use rollup_kit::Ask;
use std::alloc::AllocError;
use std::fmt;
use thiserror::Error;

/// What a command line asks of files, which it names.
#[derive(Debug, Drop)]
pub enum FileCommand {
    /// What each file is of, and its points.
    Show {
        files: Seq<Txt>,
    },
    /// One state of all files, into a file.
    Merge {
        into: Txt,
        files: Seq<Txt>,
    },
    /// The table of what the files show.
    Report {
        ask: Ask,
        files: Seq<Txt>,
    },
    /// The page of what the files show, of a service or of all.
    Expose {
        format: PageFormat,
        service: Option<Txt>,
        files: Seq<Txt>,
    },
    /// The OTLP request of the files' exports.
    Otlp {
        files: Seq<Txt>,
    },
    /// The export of an archive that adopts what the files show, into a file.
    Archive {
        into: Txt,
        ask: Archiving,
        files: Seq<Txt>,
    },
}

/// Why a command line is refused, in the order in which it is looked for.
#[derive(Debug, Drop, Error)]
pub enum CommandFault {
    /// The words ask for nothing that is done on files, or for help. The text says what is wrong, or helps.
    BadWords(String),
    /// Memory was refused.
    NoMemory,
}

impl fmt::Display for CommandFault {
    ghost use Rattle.file_kit.specs.FaultTexts.{command_text};

    ghost output = { λ fault. command_text fault };

    fn fmt<W: fmt::Write>(&self, f: &mut fmt::Formatter<W>) -> fmt::Result {
        match self {
            CommandFault::BadWords(text) => write!(f, "{text}"),
            CommandFault::NoMemory => write!(f, "no memory"),
        }
    }
}

impl From<NoMemory> for CommandFault {
    ghost use Rattle.file_kit.specs.declared.command.CommandFault.TheVariants as faults;

    ghost from_gives = { λ _ e. e ≡ faults.NoMemory };

    fn from(_error: NoMemory) -> CommandFault {
        CommandFault::NoMemory
    }
}

impl From<AllocError> for CommandFault {
    ghost use Rattle.file_kit.specs.declared.command.CommandFault.TheVariants as faults;

    ghost from_gives = { λ _ e. e ≡ faults.NoMemory };

    fn from(_error: AllocError) -> CommandFault {
        CommandFault::NoMemory
    }
}
