//! What a command line may ask for.
use thiserror::Error;

/// What a command line asks for.
#[derive(Clone, Copy, Debug, PartialEq, Eq)]
pub enum Asked {
    /// To do the script of the standard input.
    Run,
    /// To run a fleet of threads, and to tell each gateway's total.
    Fleet {
        /// How many writers, 1 to 8.
        writers: u8,
        /// How many recorder threads each writer has, 1 to 8.
        recorders: u8,
        /// How many recordings each recorder makes, at most 1,000,000.
        each: u64,
        /// How many gateways, 1 to 8.
        gateways: u8,
    },
}

/// Why a command line is refused, in the order in which it is looked for.
#[derive(Debug, Drop, Error)]
pub enum LineFault {
    /// The words ask for nothing that the program does, or for its help; the text says what it does.
    #[error("{0}")]
    BadWords(String),
    /// Memory was refused.
    #[error("no memory")]
    NoMemory,
}
