//! What the words of a command line ask for.
ghost use Rattle.clap.specs.Words.{app_of, found_of, rows_of, rule_of, subcommand_rows_of, is_broken, kind_of};
ghost use Rattle.clap.specs.declared.builder.command.Command.TheViews.{out-Command};
ghost use Rattle.otm_kit.specs.Asked.{otm, run, fleet, count_rule, each_rule, Says, IsGiven, IsCount, IsRanged, GivesNone, LacksNumber, AsksNothing, faults_of, named_by, is_taken};
ghost use Rattle.std.specs.Prelude.{◌≡◌, ◌≤◌, [], None, Some, codes, false, true, IfOk, IfSome, IsErrOf, OnOk, map};

use crate::{Asked, LineFault};
use clap::error::ErrorKind;
use clap::{Arg, ArgMatches, Command, value_parser};
use std::alloc::{AllocError, Global};
use std::convert::AsStr;

// The version that the program prints when asked.
const VERSION: &str = "0.1.0";

// The commands on files, which are read by file_kit.
const ON_FILES: &str = "Commands on files:
  show     Print what files are of, and their points
  merge    Write one state of what files say, joined
  report   Print a table of what files say, joined
  expose   Print what files say, joined, as a page for Prometheus
  otlp     Write the OTLP request of files of exports
  archive  Write the export of an archive that adopts what files hold";

// An option whose value is a number from 1 to 8, or 2 where it is left out.
#[tactic(auto)]
fn count<'a>(alloc: Global, name: &'a str, help: &'a str) -> Arg<'a>
    ensures rule { rule_of result ≡ count_rule name.entry.now }
    ensures own { result.global ≡ false }
{
    Arg::new(alloc, name)
        .long(name)
        .help(help)
        .value_parser(value_parser!(u8).range(1..=8))
        .default_value("2")
}

// The option whose value is how many recordings each recorder makes.
#[tactic(auto)]
fn each<'a>(alloc: Global) -> Arg<'a>
    ensures rule { rule_of result ≡ each_rule }
    ensures own { result.global ≡ false }
{
    Arg::new(alloc, "each")
        .long("each")
        .help("How many recordings each recorder makes, at most 1000000")
        .value_parser(value_parser!(u64).range(0..=1_000_000))
        .default_value("1000")
}

fn fleet<'a>(alloc: Global) -> Result<Command<'a>, AllocError>
    ensures app { IfOk result (λ c. app_of c ≡ fleet) }
    ensures own { IfOk result (λ c. (out-Command c).has_globals ≡ false) }
    ensures whole { IfOk result (λ c. is_broken c ≡ false) }
{
    Command::new(alloc, "fleet")
        .about("Record with many threads, and print the total of each gateway")
        .arg(count(alloc, "writers", "How many writers, 1 to 8"))?
        .arg(count(
            alloc,
            "recorders",
            "How many recorder threads each writer has, 1 to 8",
        ))?
        .arg(each(alloc))?
        .arg(count(alloc, "gateways", "How many gateways, 1 to 8"))
}

fn run<'a>(alloc: Global) -> Command<'a>
    ensures app { app_of result ≡ run }
    ensures own { (out-Command result).has_globals ≡ false }
    ensures whole { is_broken result ≡ false }
{
    Command::new(alloc, "run").about(
        "Do the script of the standard input, and print what its lines say",
    )
}

#[tactic(auto, unfolding(crate::specs::Asked::otm))]
fn command<'a>(alloc: Global) -> Result<Command<'a>, AllocError>
    ensures app { IfOk result (λ c. app_of c ≡ otm) }
    ensures own { IfOk result (λ c. (out-Command c).has_globals ≡ false) }
    ensures whole { IfOk result (λ c. is_broken c ≡ false) }
{
    Command::new(alloc, "otm")
        .version(VERSION)
        .about("Metrics by scripts and by fleets of threads, with totals that are proved")
        .after_help(ON_FILES)
        .subcommand_required(true)
        .subcommand(run(alloc))?
        .subcommand(fleet(alloc)?)
}

fn refusal(alloc: Global, error: &clap::Error) -> LineFault
    ensures { kind_of error.now ≡ ErrorKind.OutOfMemory → result ≡ LineFault.NoMemory }
{
    if matches!(error.kind(), ErrorKind::OutOfMemory) {
        return LineFault::NoMemory;
    }
    match error.to_string(alloc) {
        Ok(text) => LineFault::BadWords(text),
        Err(_) => LineFault::NoMemory,
    }
}

// The number from 1 to 8 that is the value of an option.
fn count_given(options: &ArgMatches<'_>, id: &str) -> Option<u8>
    ensures given { IfSome result (IsGiven (rows_of (found_of options.now)) id.now) }
    ensures counts { IfSome result IsCount }
    ensures none { result ≡ None → GivesNone (rows_of (found_of options.now)) id.now 1 8 }
{
    let number = options.get_one::<u8>(id)?;
    if number >= 1 && number <= 8 {
        Some(number)
    } else {
        None
    }
}

// How many recordings each recorder is to make.
fn each_given(options: &ArgMatches<'_>) -> Option<u64>
    ensures given { IfSome result (IsGiven (rows_of (found_of options.now)) (codes "each")) }
    ensures few { IfSome result (λ n. n ≤ 1000000) }
    ensures none { result ≡ None → GivesNone (rows_of (found_of options.now)) (codes "each") 0 1000000 }
{
    let number = options.get_one::<u64>("each")?;
    if number <= 1_000_000 {
        Some(number)
    } else {
        None
    }
}

// The fleet that the options of its command ask for.
fn read_fleet(options: &ArgMatches<'_>) -> Option<Asked>
    ensures says { IfSome result (Says (Some (codes "fleet", rows_of (found_of options.now)))) }
    ensures ranged { IfSome result IsRanged }
    ensures none { result ≡ None → LacksNumber (rows_of (found_of options.now)) }
{
    Some(Asked::Fleet {
        writers: count_given(options, "writers")?,
        recorders: count_given(options, "recorders")?,
        each: each_given(options)?,
        gateways: count_given(options, "gateways")?,
    })
}

// What the matches of the program's command ask for.
fn read(matches: &ArgMatches<'_>) -> Option<Asked>
    ensures says { IfSome result (Says (subcommand_rows_of matches.now)) }
    ensures ranged { IfSome result IsRanged }
    ensures none { result ≡ None → AsksNothing (subcommand_rows_of matches.now) }
{
    let (name, options) = matches.subcommand()?;
    if name == "run" {
        Some(Asked::Run)
    } else if name == "fleet" {
        read_fleet(options)
    } else {
        None
    }
}

/// What the words ask for. The first word is the program's name.
///
/// A fleet's numbers are the values of its options, or their defaults, and lie in the ranges of [`Asked::Fleet`].
///
/// Refusals: [`LineFault::BadWords`] where `clap` refuses the words for another cause than memory, with the text to show;
/// then [`LineFault::NoMemory`].
pub fn asked<S: AsStr>(alloc: Global, words: &[S]) -> Result<Asked, LineFault>
    ensures ok { IfOk result (Says (named_by (map S.text words.now))) }
    ensures ranged { IfOk result IsRanged }
    ensures taken { OnOk result (faults_of (map S.text words.now) ≡ []) }
    ensures bad_words { (text : _) → IsErrOf result (LineFault.BadWords text) → is_taken (map S.text words.now) ≡ false }
{
    let Ok(command) = command(alloc) else {
        return Err(LineFault::NoMemory);
    };
    match command.try_get_matches_from(words) {
        Err(error) => Err(refusal(alloc, &error)),
        Ok(matches) => read(&matches).ok_or(LineFault::NoMemory),
    }
}
