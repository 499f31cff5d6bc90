//! A program of one's own with the command line of the kit's.
ghost use Rattle.std.specs.Prelude.{◌≡◌, ◌≢◌, None, IfErr, IfOk, false, map};
ghost use Rattle.otm_kit.specs.Asked.{IsRanged, Says, is_taken, named_by};
ghost use Rattle.uses.specs.Commanding.{fleet_says};

use otm_kit::command_line::asked;
use otm_kit::{Asked, FleetEnd, LineFault, fleet_report};
use std::alloc::Global;
use std::convert::AsStr;
use std::sync::Wait;
use std::thread::Threads;

/// What the words of a command line ask for, the program's name before them. Where they are refused, the text to show; none where
/// memory was refused.
pub fn read_words<S: AsStr>(alloc: Global, words: &[S]) -> Result<Asked, Option<String>>
    ensures says { IfOk result (Says (named_by (map S.text words.now))) }
    ensures ranged { IfOk result IsRanged }
    ensures refused { IfErr result (λ text. text ≢ None → is_taken (map S.text words.now) ≡ false) }
{
    match asked(alloc, words) {
        Ok(asked) => Ok(asked),
        Err(LineFault::BadWords(text)) => Err(Some(text)),
        Err(LineFault::NoMemory) => Err(None),
    }
}

/// What the fleet prints that was asked for, in memory: the total of each gateway. No text where a script was asked for.
pub fn fleet_text<R: Threads + Wait + Sync>(
    rt: &R,
    alloc: Global,
    asked: Asked,
) -> Result<Vec<u8>, FleetEnd>
    requires { IsRanged asked }
    ensures { IfOk result (λ text. text.items ≡ fleet_says asked) }
{
    let mut text = Vec::new(alloc);
    match asked {
        Asked::Run => {}
        Asked::Fleet {
            writers,
            recorders,
            each,
            gateways,
        } => fleet_report(rt, alloc, writers, recorders, each, gateways, &mut text)?,
    }
    Ok(text)
}
