//! The exit statuses of the programs.

/// A bad line of a script, a script that is too long, a fleet without an answer, or a file that has nothing of what is wanted.
pub const BAD_INPUT: u8 = 1;

/// Words that are refused.
pub const BAD_WORDS: u8 = 2;

/// Want of memory.
pub const NO_MEMORY: u8 = 3;

/// A read or a write that failed.
pub const BAD_STREAM: u8 = 4;
