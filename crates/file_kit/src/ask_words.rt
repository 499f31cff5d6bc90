//! The words of a command line that ask for a table.
ghost use Rattle.std.specs.Prelude.{◌≡◌, ◌++◌, ◌∷◌, map, IfOk, IsErrOf, OnOk, string_bytes};
ghost use Rattle.rollup_kit.specs.declared.ask.Ask.{Ask};
ghost use Rattle.file_kit.specs.AskWords.{ask_line, ask_of, spoken, IsAsk};
ghost use Rattle.script_kit.specs.Shapes.{script_shape};

use crate::CommandFault;
use attr_kit::NoMemory;
use rollup_kit::Ask;
use script_kit::{Line, Query, Reason, Report, Stop, explain, parse_line, script_shape};
use std::alloc::{AllocError, Global};

fn push_word(line: &mut String, word: &str) -> Result<(), AllocError>
    ensures { OnOk result (string_bytes line.new ≡ string_bytes line.old ++ (32 ∷ word.now)) }
{
    line.push(' ')?;
    line.push_str(word)
}

// Goes on with a line by these words.
#[tactic(auto, unfolding(crate::specs::AskWords::spoken))]
fn push_words(line: &mut String, words: &[&str]) -> Result<(), AllocError>
    ensures { OnOk result (string_bytes line.new ≡ spoken (string_bytes line.old) (map (λ w. w.now) words.now)) }
{
    for word in words {
        push_word(line, word)?;
    }
    Ok(())
}

/// The line of a script that begins so and has these words.
pub(crate) fn line_of(alloc: Global, first: &str, words: &[&str]) -> Result<String, AllocError>
    ensures { IfOk result (λ line. string_bytes line ≡ spoken first.now (map (λ w. w.now) words.now)) }
{
    let mut line = String::from_str(alloc, first)?;
    push_words(&mut line, words)?;
    Ok(line)
}

// A word for a shape as scripts have it.
fn shape_word(alloc: Global, word: &str) -> Result<String, AllocError>
    ensures { IfOk result (λ made. string_bytes made ≡ script_shape word.now) }
{
    let (name, bounds) = script_shape(word);
    let mut made = String::from_str(alloc, name)?;
    made.push_str(bounds)?;
    Ok(made)
}

// The line of a script that asks the same as these words, of which the fourth, a shape, may be a kind's word.
#[tactic(auto, using(crate::proofs::Pieces::shape_in_words, crate::proofs::Pieces::few_words))]
fn ask_line(alloc: Global, words: &[&str]) -> Result<String, AllocError>
    ensures { IfOk result (λ line. string_bytes line ≡ ask_line (map (λ w. w.now) words.now)) }
{
    let Some(shape) = words.get(3) else {
        return line_of(alloc, "report 1", words);
    };
    let shape = shape_word(alloc, shape)?;
    let mut line = line_of(alloc, "report 1", &words[..3])?;
    push_word(&mut line, shape.as_str())?;
    push_words(&mut line, &words[4..])?;
    Ok(line)
}

// What a report asks of a gateway.
fn ask_of(alloc: Global, report: Report) -> Result<Ask, NoMemory>
    ensures { IfOk result (λ ask. ask ≡ ask_of report) }
{
    let keep = report.keep;
    Ask::for_set(alloc, report.stream, report.service, &report.only, keep)
}

/// The refusal of a line, by its sentence.
pub(crate) fn refusal(alloc: Global, line: &[u8], reason: Reason) -> CommandFault {
    match explain(alloc, line, reason) {
        Ok(sentence) => CommandFault::BadWords(sentence),
        Err(NoMemory) => CommandFault::NoMemory,
    }
}

/// What the words of a script's line `report` behind its gateway ask for.
///
/// Refused: `BadWords`, with the sentence that the script's line would get; `NoMemory`.
pub(crate) fn read_ask(alloc: Global, words: &[&str]) -> Result<Ask, CommandFault>
    ensures ok { IfOk result (IsAsk (map (λ w. w.now) words.now)) }
    ensures bad_words { (text : _) → IsErrOf result (CommandFault.BadWords text) → (ask : Ask)
        → IsAsk (map (λ w. w.now) words.now) ask → ⊥ }
{
    let line = ask_line(alloc, words)?;
    match parse_line(alloc, line.as_bytes()) {
        Ok(Line::Ask(Query::Report { report, .. })) => Ok(ask_of(alloc, report)?),
        Ok(_) => Err(CommandFault::NoMemory),
        Err(Stop::Bad(reason)) => Err(refusal(alloc, line.as_bytes(), reason)),
        Err(Stop::NoMemory) => Err(CommandFault::NoMemory),
    }
}
