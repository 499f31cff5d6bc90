//! Plays a schedule of archives and keepers, given on the standard input, and prints a line for each event that asks something.
//!
//! An event is a line of words with one space between two; a line that is empty, or begins with `#`, says nothing. Keepers, archives,
//! exports and messages are numbered from 1, in the order in which they came to be. A writer is `SERVICE/INSTANCE`.
//!
//!     keepers N                          so many keepers more
//!     archive A WRITER START LIMIT       an archive begins, the next one
//!     take K WRITER START TIME VALUE [POINTS]    a keeper takes an export of sums, 3 where it is not told how many: VALUE, VALUE + 1 ..
//!     adopt A K WRITER START             an archive adopts what a keeper holds of an incarnation
//!     export A TIME                      an archive exports: how many points, and the number under which the export is kept
//!     give E K                           a keeper takes such an export
//!     seal A START                       an archive begins anew
//!     merge K J                          keeper K merges what keeper J holds
//!     send K J                           a message of keeper K to keeper J: its number, and how many cells it carries
//!     hand M                             it is handed: the number of the Ack that answers it, where one does
//!     show K                             points, incarnations, the total of all sums, conflicts
//!     points K                           a line for each point, and an empty one
//!     page K                             the page that Prometheus scrapes, and an empty line
//!     same K J                           whether two keepers hold the same
//!     soak INCARNATIONS POINTS EVERY     as many incarnations of so many points come and go at one keeper (`soak`)
//!
//! A bad line ends it with status 2; the standard error says which it is, and what is wrong with it.
#![tactic(auto)]

mod answer;
mod event;
mod fault;
mod made;
mod parse;
mod soak;
mod text;
mod world;

use fault::{Ended, LineFault};
use parse::event_of;
use std::io::{BufRead, BufReader};
use std::process::ExitCode;
use world::World;

const BAD_LINE: u8 = 2;

const BAD_STREAM: u8 = 4;

// Plays one line.
fn play_line(
    rt: &(impl Print + AllocGlobal),
    world: &mut World,
    line: &str,
) -> Result<(), LineFault> {
    let Some(event) = event_of(rt.alloc(), line)? else {
        return Ok(());
    };
    match world.apply(&event)? {
        Some(answer) => rt.println(answer).map_err(|_| LineFault::WriteFault),
        None => Ok(()),
    }
}

// Plays all lines of the standard input.
fn play(rt: &(impl Input + Print + AllocGlobal)) -> Result<(), Ended> {
    let mut world = World::new(rt.alloc());
    let mut number: u64 = 0;
    for line in BufReader::new(rt.alloc(), rt.reader())?.lines(rt.alloc()) {
        number = number.saturating_add(1);
        play_line(rt, &mut world, line?.as_str()).map_err(|fault| Ended::BadLine(number, fault))?;
    }
    Ok(())
}

fn main(rt: HostRuntime) -> ExitCode {
    match play(&rt) {
        Ok(()) => ExitCode::SUCCESS,
        Err(ended) => {
            let _ = eprintln!(rt; "{ended}");
            ExitCode::from(match ended {
                Ended::BadLine(..) => BAD_LINE,
                Ended::Stream(_) => BAD_STREAM,
            })
        }
    }
}
