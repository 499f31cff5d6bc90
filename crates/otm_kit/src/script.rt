//! Scripts from their first line to their last.
ghost use Rattle.std.specs.Prelude.{◌≡◌, ◌+◌, ◌≤◌, length, IfErr, OnOk, OnErr, IfSome, IsErrOf, None, Some};
ghost use Rattle.std.specs.Io.KnownBytes.{Appends, Keeps};
ghost use Rattle.script_kit.specs.Bytes.{AppendsFront, ReadsUpTo};
ghost use Rattle.script_kit.specs.declared.fault.ScriptFault.TheVariants.{BadLine};
ghost use Rattle.otm_kit.specs.Ends.{AtBadLine, HasAtMost, HasMoreThan, Writes, WritesFront};
ghost use Rattle.otm_kit.specs.Says.{bad_line_of, says};
ghost use Rattle.otm_kit.specs.Standing.{BreaksOff, DoesNext, FailsNext, Tells, TellsOf};

use crate::desk::{Desk, Outcome};
use crate::ended::Ended;
use crate::refused::Refused;
use script_kit::{
    MAX_BYTES, Reason, ScriptFault, Stop, explain, first_line, parse_line, read_script, write_text,
};
use std::alloc::Global;
use std::io::{Read, Write};

// The end of a script at a bad line.
fn bad_line(alloc: Global, number: u64, line: &[u8], reason: Reason) -> Ended
    ensures fault { result.fault ≡ ScriptFault.BadLine number }
    ensures tells { Tells result line.now reason }
{
    Ended {
        fault: ScriptFault::BadLine(number),
        reason: Some(reason),
        sentence: explain(alloc, line, reason).ok(),
    }
}

// Does one line, and writes what it prints.
fn do_line<W: Write>(
    alloc: Global,
    desk: &mut Desk,
    number: u64,
    text: &[u8],
    writer: &mut W,
    refused: &mut Refused,
) -> Result<(), Ended>
    ensures ok { OnOk result (DoesNext desk.old text.now (W.contents writer.old) (W.contents writer.new) desk.new) }
    ensures number { AtBadLine result (λ _ n. n ≡ number) }
    ensures bad { AtBadLine result (λ end _. FailsNext desk.old text.now (W.contents writer.old) (W.contents writer.new) end) }
    ensures front { OnErr result (BreaksOff desk.old text.now (W.contents writer.old) (W.contents writer.new)) }
    ensures read_fault { IfErr result (λ end. end.fault ≡ ScriptFault.ReadFault → ⊥) }
    ensures too_long { IfErr result (λ end. end.fault ≡ ScriptFault.TooLong → ⊥) }
{
    let line = match parse_line(alloc, text) {
        Err(Stop::NoMemory) => return Err(Ended::from(ScriptFault::NoMemory)),
        Err(Stop::Bad(why)) => return Err(bad_line(alloc, number, text, why)),
        Ok(line) => line,
    };
    match desk.act(line) {
        Err(_) => Err(Ended::from(ScriptFault::NoMemory)),
        Ok(Outcome::Bad(printed, why)) => match write_text(writer, printed.as_bytes()) {
            Err(fault) => Err(Ended::from(fault)),
            Ok(()) => Err(bad_line(alloc, number, text, why)),
        },
        Ok(Outcome::Done(printed)) => match write_text(writer, printed.as_bytes()) {
            Err(fault) => Err(Ended::from(fault)),
            Ok(()) => {
                refused.note(number, printed);
                Ok(())
            }
        },
    }
}

/// Does the lines of a script, and writes what each prints before the next is done, as [`run_script_told`] does, which reads the
/// script first. Keeps besides which of the first lines were refused, for [`notes_on`](crate::notes_on).
pub fn run_lines<W: Write>(
    alloc: Global,
    script: &[u8],
    writer: &mut W,
    refused: &mut Refused,
) -> Result<(), Ended>
    ensures ok { OnOk result (Appends (W.contents writer.old) (W.contents writer.new) (says script.now)) }
    ensures whole { OnOk result (bad_line_of script.now ≡ None) }
    ensures bad { AtBadLine result (λ _ _. Appends (W.contents writer.old) (W.contents writer.new) (says script.now)) }
    ensures bad_line { AtBadLine result (λ _ n. bad_line_of script.now ≡ Some n) }
    ensures tells { AtBadLine result (λ end _. TellsOf end script.now) }
    ensures front { OnErr result (AppendsFront (W.contents writer.old) (W.contents writer.new) (says script.now)) }
    ensures read_fault { IfErr result (λ end. end.fault ≡ ScriptFault.ReadFault → ⊥) }
    ensures too_long { IfErr result (λ end. end.fault ≡ ScriptFault.TooLong → ⊥) }
{
    let mut desk = Desk::new(alloc);
    let mut number = 1;
    let mut rest = script;
    // There are no more lines than bytes.
    while let Some((text, after)) = first_line(rest) {
        do_line(alloc, &mut desk, number, text, writer, refused)?;
        number += 1;
        rest = after;
    }
    if rest.is_empty() {
        Ok(())
    } else {
        Err(bad_line(alloc, number, rest, Reason::Cut))
    }
}

/// [`run_script`], which tells besides why a bad line is bad.
///
/// Where it ends at a bad line, `reason` says why (specs `Says`), and `sentence` says it in words. Where memory is refused for
/// the words, they are `None`, and all else is as it is with them.
pub fn run_script_told<R: Read, W: Write>(
    alloc: Global,
    reader: &mut R,
    writer: &mut W,
) -> Result<(), Ended>
    ensures ok { OnOk result (Writes (R.remaining reader.old) (W.contents writer.old) (W.contents writer.new)) }
    ensures whole { OnOk result (IfSome (R.remaining reader.old) (λ script. bad_line_of script ≡ None)) }
    ensures bad { AtBadLine result (λ _ _. Writes (R.remaining reader.old) (W.contents writer.old) (W.contents writer.new)) }
    ensures bad_line { AtBadLine result (λ _ n. IfSome (R.remaining reader.old) (λ script. bad_line_of script ≡ Some n)) }
    ensures tells { AtBadLine result (λ end _. IfSome (R.remaining reader.old) (TellsOf end)) }
    ensures front { OnErr result (WritesFront (R.remaining reader.old) (W.contents writer.old) (W.contents writer.new)) }
    ensures unread { IfErr result (λ end. end.fault ≡ ScriptFault.ReadFault → Keeps (W.contents writer.old) (W.contents writer.new)) }
    ensures long { IfErr result (λ end. end.fault ≡ ScriptFault.TooLong → Keeps (W.contents writer.old) (W.contents writer.new)) }
    ensures too_long { IfErr result (λ end. end.fault ≡ ScriptFault.TooLong → HasMoreThan MAX_BYTES (R.remaining reader.old)) }

    // No more is read than a byte past the greatest length, and no line of a longer script is done.
    ensures few { ReadsUpTo (R.remaining reader.old) (R.remaining reader.new) (MAX_BYTES + 1) }
    ensures small { OnOk result (HasAtMost MAX_BYTES (R.remaining reader.old)) }
    ensures bad_small { AtBadLine result (λ _ _. HasAtMost MAX_BYTES (R.remaining reader.old)) }
    ensures cut_small { IfErr result (λ end. end.fault ≡ ScriptFault.WriteFault → HasAtMost MAX_BYTES (R.remaining reader.old)) }
    ensures memory_small { IfErr result (λ end. end.fault ≡ ScriptFault.NoMemory → HasAtMost MAX_BYTES (R.remaining reader.old)) }
{
    let script = read_script(alloc, reader)?;
    run_lines(alloc, script.as_slice(), writer, &mut Refused::new(alloc))
}

/// Reads a script to its end, and then does its lines in order. Each line's text is written before the next line is done.
///
/// Where all is done, and at `BadLine`, what was written is what the script says (specs `Says`): the text of its lines up to
/// the first bad one, whose number, from 1, the fault carries. After any other fault it is a front of that.
///
/// Refuses, by the first thing that failed: `ReadFault` and `TooLong` (more than `MAX_BYTES` bytes), before anything is
/// written; `BadLine`; `WriteFault`, also where a write takes no byte; `NoMemory`. A line costs its bytes, a hash look-up
/// for each label and id, and the call of the world below it.
pub fn run_script<R: Read, W: Write>(
    alloc: Global,
    reader: &mut R,
    writer: &mut W,
) -> Result<(), ScriptFault>
    ensures ok { OnOk result (Writes (R.remaining reader.old) (W.contents writer.old) (W.contents writer.new)) }
    ensures whole { OnOk result (IfSome (R.remaining reader.old) (λ script. bad_line_of script ≡ None)) }
    ensures bad { (n : _) → IsErrOf result (BadLine n) → Writes (R.remaining reader.old) (W.contents writer.old) (W.contents writer.new) }
    ensures bad_line { (n : _) → IsErrOf result (BadLine n) → IfSome (R.remaining reader.old) (λ script. bad_line_of script ≡ Some n) }
    ensures front { OnErr result (WritesFront (R.remaining reader.old) (W.contents writer.old) (W.contents writer.new)) }
    ensures unread { IsErrOf result ScriptFault.ReadFault → Keeps (W.contents writer.old) (W.contents writer.new) }
    ensures long { IsErrOf result ScriptFault.TooLong → Keeps (W.contents writer.old) (W.contents writer.new) }
    ensures too_long { IsErrOf result ScriptFault.TooLong → HasMoreThan MAX_BYTES (R.remaining reader.old) }

    // No more is read than a byte past the greatest length, and no line of a longer script is done.
    ensures few { ReadsUpTo (R.remaining reader.old) (R.remaining reader.new) (MAX_BYTES + 1) }
    ensures small { OnOk result (HasAtMost MAX_BYTES (R.remaining reader.old)) }
    ensures bad_small { (n : _) → IsErrOf result (BadLine n) → HasAtMost MAX_BYTES (R.remaining reader.old) }
    ensures cut_small { IsErrOf result ScriptFault.WriteFault → HasAtMost MAX_BYTES (R.remaining reader.old) }
    ensures memory_small { IsErrOf result ScriptFault.NoMemory → HasAtMost MAX_BYTES (R.remaining reader.old) }
{
    match run_script_told(alloc, reader, writer) {
        Ok(()) => Ok(()),
        Err(end) => Err(end.fault),
    }
}
