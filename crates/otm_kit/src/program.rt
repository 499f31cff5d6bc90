//! A script between the standard streams.
use crate::ended::Ended;
use crate::notes::notes_on;
use crate::refused::Refused;
use crate::script::run_lines;
use crate::status::{BAD_INPUT, BAD_STREAM, NO_MEMORY};
use script_kit::{ScriptFault, read_script};
use std::io;
use std::process::ExitCode;

/// Does the script of the standard input, and writes what its lines say to the standard output. The standard error gets notes on
/// likely mistakes and on refused lines, which change nothing else, and what is wrong with a bad line.
///
/// The exit status is 0 where all of it was done, else one of [`status`](crate::status): 1 for a bad line, of which `line N` is
/// printed, and for a script that is too long (`too long`); 3 for want of memory (`no memory`); 4 where a read or a write failed
/// (`read failed` or `write failed`, on the standard error).
pub fn run_program(rt: &(impl Input + Print + Eprint + AllocGlobal)) -> ExitCode {
    let mut reader = rt.reader();
    let script = match read_script(rt.alloc(), &mut reader) {
        Ok(script) => script,
        Err(fault) => return report(rt, fault),
    };
    let mut writer = io::writer(rt);
    let mut refused = Refused::new(rt.alloc());
    match run_lines(rt.alloc(), script.as_slice(), &mut writer, &mut refused) {
        Ok(()) => {
            tell(rt, script.as_slice(), None, &refused);
            ExitCode::SUCCESS
        }
        Err(end) => {
            let status = report(rt, end.fault);
            if let ScriptFault::BadLine(number) = end.fault {
                tell(rt, script.as_slice(), Some(number), &refused);
            }
            explain(rt, &end);
            status
        }
    }
}

// Prints the notes on a script up to its bad line, where there was memory for them.
fn tell(rt: &(impl Eprint + AllocGlobal), script: &[u8], bad_line: Option<u64>, refused: &Refused) {
    if let Ok(notes) = notes_on(rt.alloc(), script, bad_line, refused) {
        let _ = eprint!(rt; "{notes}");
    }
}

// Prints what is wrong with a bad line, where there was memory for the words.
fn explain(rt: &impl Eprint, end: &Ended) {
    if let Some(sentence) = &end.sentence {
        let fault = end.fault;
        let _ = eprintln!(rt; "{fault}: {sentence}");
    }
}

// Prints a fault of a script, and gives the status for it.
fn report(rt: &(impl Print + Eprint), fault: ScriptFault) -> ExitCode {
    match fault {
        ScriptFault::BadLine(_) | ScriptFault::TooLong => {
            let _ = println!(rt; "{fault}");
            ExitCode::from(BAD_INPUT)
        }
        ScriptFault::NoMemory => {
            let _ = println!(rt; "{fault}");
            ExitCode::from(NO_MEMORY)
        }
        ScriptFault::ReadFault | ScriptFault::WriteFault => {
            let _ = eprintln!(rt; "{fault}");
            ExitCode::from(BAD_STREAM)
        }
    }
}
