//! `otm run` does the script of the standard input and writes what its lines say to the standard output. `otm fleet` runs a
//! fleet of threads and writes the total of each gateway.
//!
//! The standard error gets notes on likely mistakes of a script and on its refused lines, which change nothing else.
//!
//! Exit statuses: 0 where all of it was done; 1 for a bad line, of which `line N` is printed, and on the standard error what is
//! wrong with it; 1 too for a script that is too long (`too long`), or a fleet without an answer (`missing gateway G writer W`, or
//! `fleet failed`); 2 for words that are refused, whose text goes to the standard error; 3 for want of memory (`no memory`); 4 where
//! a read or a write failed (`read failed` or `write failed`, on the standard error).
#![tactic(auto)]

ghost use Rattle.otm_kit.specs.Asked.{IsRanged};

use file_kit::is_of_files;
use otm_kit::command_line::asked;
use otm_kit::status::{BAD_INPUT, BAD_STREAM, BAD_WORDS, NO_MEMORY};
use otm_kit::{Asked, FleetEnd, LineFault, fleet_report, run_program};
use std::alloc::Global;
use std::io::ErrorKind;
use std::process::ExitCode;
use std::rt::Env;
use std::sync::Wait;
use std::thread::Threads;
use std::{env, io};

mod files;

fn main(rt: HostRuntime) -> ExitCode {
    let words = match read_words(&rt) {
        Ok(words) => words,
        Err(fault) => return refuse(&rt, &fault),
    };
    if is_of_files(words.as_slice()) {
        return files::do_files(&rt, words.as_slice());
    }
    match asked(rt.alloc(), words.as_slice()) {
        Ok(Asked::Run) => run_program(&rt),
        Ok(
            Asked::Fleet {
                writers,
                recorders,
                each,
                gateways,
            },
        ) => fleet(&rt, writers, recorders, each, gateways),
        Err(fault) => refuse(&rt, &fault),
    }
}

// The words of the command line.
fn read_words(rt: &(impl Env + AllocGlobal)) -> Result<Vec<String>, LineFault> {
    let args = match env::args(rt) {
        Ok(args) => args,
        Err(error) => return Err(unread(rt.alloc(), &error)),
    };
    match args.collect(rt.alloc()) {
        Ok(words) => Ok(words),
        Err(_) => Err(LineFault::NoMemory),
    }
}

// Why the words were not read: memory was refused, or one of them is no text.
fn unread(alloc: Global, error: &io::Error) -> LineFault {
    if error.kind() == ErrorKind::OutOfMemory {
        return LineFault::NoMemory;
    }
    match String::from_str(alloc, "the words are no text") {
        Ok(text) => LineFault::BadWords(text),
        Err(_) => LineFault::NoMemory,
    }
}

// Runs a fleet.
fn fleet(
    rt: &(impl Threads + Wait + Sync + Print + Eprint + AllocGlobal),
    writers: u8,
    recorders: u8,
    each: u64,
    gateways: u8,
) -> ExitCode
    requires { IsRanged (Asked.Fleet writers recorders each gateways) }
{
    let mut writer = io::writer(rt);
    match fleet_report(
        rt,
        rt.alloc(),
        writers,
        recorders,
        each,
        gateways,
        &mut writer,
    ) {
        Ok(()) => ExitCode::SUCCESS,
        Err(end) => report_end(rt, &end),
    }
}

// Prints why a fleet's totals are not told, and gives the status for it.
fn report_end(rt: &(impl Print + Eprint), end: &FleetEnd) -> ExitCode {
    match end {
        FleetEnd::Fleet(_) => {
            let _ = println!(rt; "{end}");
            ExitCode::from(BAD_INPUT)
        }
        FleetEnd::NoMemory => {
            let _ = println!(rt; "{end}");
            ExitCode::from(NO_MEMORY)
        }
        FleetEnd::WriteFault => {
            let _ = eprintln!(rt; "{end}");
            ExitCode::from(BAD_STREAM)
        }
    }
}

// Prints why the words are refused, and gives the status for it.
fn refuse(rt: &(impl Print + Eprint), fault: &LineFault) -> ExitCode {
    match fault {
        LineFault::BadWords(_) => {
            let _ = eprintln!(rt; "{fault}");
            ExitCode::from(BAD_WORDS)
        }
        LineFault::NoMemory => {
            let _ = println!(rt; "{fault}");
            ExitCode::from(NO_MEMORY)
        }
    }
}
