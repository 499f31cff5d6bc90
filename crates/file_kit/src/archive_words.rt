//! The words of a command line that ask for an archive.
ghost use Rattle.std.specs.Option.{option_map};
ghost use Rattle.std.specs.Prelude.{◌≡◌, ℕ, map, IfOk, IsErrOf};
ghost use Rattle.point_kit.specs.declared.writer_id.WriterId.{WriterId};
ghost use Rattle.file_kit.specs.ArchiveWords.{IsArchiving, TellsLimit, TellTime, TellWriter};
ghost use Rattle.file_kit.specs.declared.archive.Archiving.{Archiving};

use crate::ask_words::{line_of, refusal};
use crate::{Archiving, CommandFault};
use point_kit::WriterId;
use script_kit::{Command, Declaration, Line, Stop, parse_line};
use std::alloc::Global;

// Whose an incarnation is and when it began, by the words of a script's line `writer` behind its label.
fn read_writer(alloc: Global, words: &[&str]) -> Result<(WriterId, u64), CommandFault>
    ensures ok { IfOk result (λ w. TellWriter (map (λ w. w.now) words.now) w.0 w.1) }
    ensures bad_words { (text : _) → IsErrOf result (CommandFault.BadWords text) → (writer : WriterId) (start : ℕ)
        → TellWriter (map (λ w. w.now) words.now) writer start → ⊥ }
{
    let line = line_of(alloc, "writer archive", words)?;
    match parse_line(alloc, line.as_bytes()) {
        Ok(Line::Declare(Declaration::Writer { id, start, .. })) => Ok((id, start)),
        Ok(_) => Err(CommandFault::NoMemory),
        Err(Stop::Bad(reason)) => Err(refusal(alloc, line.as_bytes(), reason)),
        Err(Stop::NoMemory) => Err(CommandFault::NoMemory),
    }
}

// A time, by the word of a line `collect` behind its writer.
fn read_time(alloc: Global, words: &[&str]) -> Result<u64, CommandFault>
    ensures ok { IfOk result (TellTime (map (λ w. w.now) words.now)) }
    ensures bad_words { (text : _) → IsErrOf result (CommandFault.BadWords text) → (time : ℕ)
        → TellTime (map (λ w. w.now) words.now) time → ⊥ }
{
    let line = line_of(alloc, "collect archive", words)?;
    match parse_line(alloc, line.as_bytes()) {
        Ok(Line::Do(Command::Collect { time, .. })) => Ok(time),
        Ok(_) => Err(CommandFault::NoMemory),
        Err(Stop::Bad(reason)) => Err(refusal(alloc, line.as_bytes(), reason)),
        Err(Stop::NoMemory) => Err(CommandFault::NoMemory),
    }
}

// A limit, by the word of a line `limit`.
fn read_given(alloc: Global, word: &str) -> Result<u64, CommandFault>
    ensures ok { IfOk result (TellsLimit (Some word.now)) }
    ensures bad_words { (text : _) → IsErrOf result (CommandFault.BadWords text) → (limit : ℕ) → TellsLimit (Some word.now) limit → ⊥ }
{
    let line = line_of(alloc, "limit", &[word])?;
    match parse_line(alloc, line.as_bytes()) {
        Ok(Line::Declare(Declaration::Limit(limit))) => Ok(limit),
        Ok(_) => Err(CommandFault::NoMemory),
        Err(Stop::Bad(reason)) => Err(refusal(alloc, line.as_bytes(), reason)),
        Err(Stop::NoMemory) => Err(CommandFault::NoMemory),
    }
}

// A limit, or where none is given the greatest number.
fn read_limit(alloc: Global, word: Option<&str>) -> Result<u64, CommandFault>
    ensures ok { IfOk result (TellsLimit (option_map (λ w. w.now) word.entry)) }
    ensures bad_words { (text : _) → IsErrOf result (CommandFault.BadWords text) → (limit : ℕ)
        → TellsLimit (option_map (λ w. w.now) word.entry) limit → ⊥ }
{
    match word {
        Some(word) => read_given(alloc, word),
        None => Ok(u64::MAX),
    }
}

/// The archive that words ask for: SERVICE, INSTANCE and START, then TIME, and the word of a limit where one is given.
///
/// Refused: `BadWords`, with the sentence that a script's line of such words would get; `NoMemory`.
pub(crate) fn read_archiving(
    alloc: Global,
    who: &[&str],
    when: &[&str],
    limit: Option<&str>,
) -> Result<Archiving, CommandFault>
    ensures ok { IfOk result (IsArchiving (map (λ w. w.now) who.now) (map (λ w. w.now) when.now) (option_map (λ w. w.now) limit.entry)) }
    ensures bad_words { (text : _) → IsErrOf result (CommandFault.BadWords text) → (ask : Archiving)
        → IsArchiving (map (λ w. w.now) who.now) (map (λ w. w.now) when.now) (option_map (λ w. w.now) limit.entry) ask → ⊥ }
{
    match read_writer(alloc, who) {
        Ok((writer, start)) => match read_time(alloc, when) {
            Ok(time) => match read_limit(alloc, limit) {
                Ok(limit) => Ok(Archiving {
                    writer,
                    start,
                    time,
                    limit,
                }),
                Err(fault) => Err(fault),
            },
            Err(fault) => Err(fault),
        },
        Err(fault) => Err(fault),
    }
}
