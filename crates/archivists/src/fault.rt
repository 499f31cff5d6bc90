//! What is wrong with a line, and how a schedule ends that is not played whole.
use archive_kit::{AdoptFault, ExportRefusal, SealRefusal};
use attr_kit::NoMemory;
use std::alloc::{AllocError, AllocFailed};
use std::io;
use std::num::ParseIntError;
use thiserror::Error;

/// Why a line is not played.
#[derive(Debug, Drop, Error)]
pub enum LineFault {
    #[error("there is no such event, or it has other words")]
    Words,
    #[error("a word is no such number")]
    Number(#[from] ParseIntError),
    #[error("a writer is SERVICE/INSTANCE")]
    Writer,
    #[error("it has another number than the next archive")]
    Next,
    #[error("there is no such keeper")]
    Keeper,
    #[error("there is no such archive")]
    Archive,
    #[error("there is no such export")]
    Export,
    #[error("there is no such message")]
    Message,
    #[error("a value is out of range")]
    Value,
    #[error("an archive did not adopt: {0}")]
    Adopting(#[from] AdoptFault),
    #[error("an archive did not export: {0}")]
    Exporting(#[from] ExportRefusal),
    #[error("an archive was not sealed: {0}")]
    Sealing(#[from] SealRefusal),
    #[error("no memory")]
    NoMemory(#[from] NoMemory),
    #[error("write failed")]
    WriteFault,
}

impl From<AllocError> for LineFault {
    fn from(error: AllocError) -> LineFault {
        LineFault::NoMemory(NoMemory::from(error))
    }
}

impl<T: Drop> From<AllocFailed<T>> for LineFault {
    fn from(error: AllocFailed<T>) -> LineFault {
        LineFault::NoMemory(NoMemory::from(error))
    }
}

/// How a schedule ended that was not played whole.
#[derive(Debug, Drop, Error)]
pub enum Ended {
    #[error("line {0}: {1}")]
    BadLine(u64, LineFault),
    #[error("read failed: {0}")]
    Stream(#[from] io::Error),
}
