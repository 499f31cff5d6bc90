//! Scripts that a program of one's own runs.
ghost use Rattle.std.specs.Prelude.{◌≡◌, ℤ, [], Err, None, Some, IfOk, IfSome, IsOk, string_bytes};
ghost use Rattle.otm_kit.specs.Ends.{AtBadLine};
ghost use Rattle.otm_kit.specs.Says.{bad_line_of, says};
ghost use Rattle.script_kit.specs.Lines.{line_of};
ghost use Rattle.script_kit.specs.Reasons.{form_text, noun_text, reason_named, sentence_of};
ghost use Rattle.uses.specs.Scripting.{Asks, Declares, Measures};

use attr_kit::{NoMemory, Txt};
use otm_kit::{Ended, run_script, run_script_told};
use point_kit::{Stream, WriterId};
use script_kit::{
    Command, Declaration, Form, Line, Noun, Query, Reason, Report, ScriptFault, Stop, explain,
    parse_line,
};
use std::alloc::Global;

/// Runs a script that lies in memory, and answers what it prints. Where it ends early, why; at a bad line also its words.
pub fn script_text(alloc: Global, script: &[u8]) -> Result<Vec<u8>, Ended>
    ensures text { IfOk result (λ text. text.items ≡ says script.now) }
    ensures line { AtBadLine result (λ _ n. bad_line_of script.now ≡ Some n) }
{
    let mut reader = script;
    let mut text = Vec::new(alloc);
    run_script_told(alloc, &mut reader, &mut text)?;
    Ok(text)
}

/// Why a line is bad, as a value and in words; none where it is not.
pub fn wrong_with(alloc: Global, line: &[u8]) -> Result<Option<(Reason, String)>, NoMemory>
    ensures right { IfOk result (λ found. found ≡ None → IsOk (line_of line.now)) }
    ensures reason { IfOk result (λ found. IfSome found (λ told. line_of line.now ≡ Err told.0)) }
    ensures words { IfOk result (λ found. IfSome found (λ told. string_bytes told.1 ≡ sentence_of line.now told.0)) }
{
    match parse_line(alloc, line) {
        Ok(_line) => Ok(None),
        Err(Stop::Bad(reason)) => Ok(Some((reason, explain(alloc, line, reason)?))),
        Err(Stop::NoMemory) => Err(NoMemory),
    }
}

/// The number of a script's bad line, from 1, and none where it has none. Refused where the script is too long, and for memory.
pub fn first_bad_line(alloc: Global, script: &[u8]) -> Result<Option<u64>, ScriptFault>
    ensures { IfOk result (λ found. bad_line_of script.now ≡ found) }
{
    let mut reader = script;
    let mut text = Vec::new(alloc);
    match run_script(alloc, &mut reader, &mut text) {
        Ok(()) => Ok(None),
        Err(ScriptFault::BadLine(number)) => Ok(Some(number)),
        Err(fault) => Err(fault),
    }
}

/// The label and the identity of the writer that a line declares; none where it declares none.
pub fn writer_declared(line: &Line) -> Option<(&Txt, &WriterId)>
    ensures some { IfSome result (λ writer. Declares line.now writer.0.now writer.1.now) }
    ensures none { result ≡ None → (label : Txt) (id : WriterId) → Declares line.now label id → ⊥ }
{
    match line {
        Line::Declare(Declaration::Writer { label, id, .. }) => Some((label, id)),
        _ => None,
    }
}

/// The writer and the value of a recording that a line makes; none where it makes none.
pub fn value_measured(line: &Line) -> Option<(&Txt, i64)>
    ensures some { IfSome result (λ told. Measures line.now told.0.now told.1) }
    ensures none { result ≡ None → (writer : Txt) (value : ℤ) → Measures line.now writer value → ⊥ }
{
    match line {
        Line::Do(Command::Measure { writer, value, .. }) => Some((writer, *value)),
        _ => None,
    }
}

/// The stream that a line asks a gateway for; none where it asks for no report.
pub fn stream_asked(line: &Line) -> Option<&Stream>
    ensures some { IfSome result (λ stream. Asks line.now stream.now) }
    ensures none { result ≡ None → (stream : Stream) → Asks line.now stream → ⊥ }
{
    match line {
        Line::Ask(
            Query::Report {
                report: Report { stream, .. },
                ..
            },
        ) => Some(stream),
        _ => None,
    }
}

// The words that a line of a form wants behind its first.
fn words_of(alloc: Global, form: Form) -> Result<String, NoMemory>
    ensures { IfOk result (λ text. string_bytes text ≡ form_text form) }
{
    Ok(format!(in alloc; "{form}")?)
}

// What a number is.
fn name_of(alloc: Global, noun: Noun) -> Result<String, NoMemory>
    ensures { IfOk result (λ text. string_bytes text ≡ noun_text noun) }
{
    Ok(format!(in alloc; "{noun}")?)
}

/// What a line wants whose words are too few or too many, and what a number was to be that is too great; none for other reasons.
pub fn hint(alloc: Global, reason: Reason) -> Result<Option<String>, NoMemory>
    ensures some { IfOk result (λ found. IfSome found (λ text. string_bytes text ≡ reason_named reason)) }
    ensures none { IfOk result (λ found. found ≡ None → reason_named reason ≡ []) }
{
    match reason {
        Reason::Count(form) => Ok(Some(words_of(alloc, form)?)),
        Reason::TooGreat(_, noun) => Ok(Some(name_of(alloc, noun)?)),
        _ => Ok(None),
    }
}
