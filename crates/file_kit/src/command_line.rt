//! What the words of a command line on files ask for.
ghost use Rattle.clap.specs.Words.{app_of, fault_of, found_of, rows_of, rule_of, subcommand_rows_of, is_broken, kind_of, first_of};
ghost use Rattle.clap.specs.declared.builder.command.Command.TheViews.{out-Command};
ghost use Rattle.std.specs.Prelude.{◌≡◌, ◌≤◌, length, [], None, Some, codes, false, true, IfOk, IsErrOf, OnOk, map};
ghost use Rattle.file_kit.specs.declared.archive.Archiving.{Archiving};
ghost use Rattle.file_kit.specs.Commands.{otm, otm_keeping, otm_asking, otm_sending, on_files, archive, merge, report, expose, archive_rule, files_rule, limit_rule, output_rule, words_rule, openmetrics_rule, service_rule, word_at, is_command, is_of_files, named_by, Asks, AsksArchive, AsksNothing, GivesFormat, HasFiles, HasNoArchive, HasNoAsk, SaysNothing};

use crate::archive_words::read_archiving;
use crate::ask_words::read_ask;
use crate::{Archiving, CommandFault, FileCommand, PageFormat};
use attr_kit::{NoMemory, Seq, Txt};
use clap::error::ErrorKind;
use clap::{Arg, ArgAction, ArgMatches, Command};
use std::alloc::{AllocError, Global};
use std::convert::AsStr;

// How many words an ask has.
const ASK_WORDS: usize = 7;

// How many words an archive has, and how many of them come before its time.
const ARCHIVE_WORDS: usize = 4;

const WRITER_WORDS: usize = 3;

// The files that a command is about.
fn files<'a>(alloc: Global) -> Arg<'a>
    ensures rule { rule_of result ≡ files_rule }
    ensures own { result.global ≡ false }
{
    Arg::new(alloc, "files")
        .value_name("FILE")
        .num_args(1..)
        .required(true)
        .help("Files of exports, messages and states; - is the standard input")
}

// A command whose words are files alone.
fn on_files<'a>(alloc: Global, name: &'a str, about: &'a str) -> Result<Command<'a>, AllocError>
    ensures app { IfOk result (λ c. app_of c ≡ on_files name.entry.now) }
    ensures own { IfOk result (λ c. (out-Command c).has_globals ≡ false) }
    ensures whole { IfOk result (λ c. is_broken c ≡ false) }
{
    Command::new(alloc, name).about(about).arg(files(alloc))
}

// Where what is made goes.
fn output<'a>(alloc: Global, help: &'a str) -> Arg<'a>
    ensures rule { rule_of result ≡ output_rule }
    ensures own { result.global ≡ false }
{
    Arg::new(alloc, "output")
        .short('o')
        .long("output")
        .value_name("FILE")
        .required(true)
        .help(help)
}

fn merge<'a>(alloc: Global) -> Result<Command<'a>, AllocError>
    ensures app { IfOk result (λ c. app_of c ≡ merge) }
    ensures own { IfOk result (λ c. (out-Command c).has_globals ≡ false) }
    ensures whole { IfOk result (λ c. is_broken c ≡ false) }
{
    let output = output(alloc, "Where the state goes; - is the standard output");
    Command::new(alloc, "merge")
        .about("Write one state of what files say, joined")
        .arg(output)?
        .arg(files(alloc))
}

// The words of an archive, and the files.
fn archive_words<'a>(alloc: Global) -> Arg<'a>
    ensures rule { rule_of result ≡ archive_rule }
    ensures own { result.global ≡ false }
{
    Arg::new(alloc, "words")
        .value_names(&["SERVICE", "INSTANCE", "START", "TIME", "FILE"])
        .num_args(5..)
        .required(true)
        .help("The archive's service, UUID, start and time, in nanoseconds, and files")
}

fn limit<'a>(alloc: Global) -> Arg<'a>
    ensures rule { rule_of result ≡ limit_rule }
    ensures own { result.global ≡ false }
{
    Arg::new(alloc, "limit")
        .long("limit")
        .value_name("N")
        .help("Refuse where there would be more totals than so many")
}

fn archive<'a>(alloc: Global) -> Result<Command<'a>, AllocError>
    ensures app { IfOk result (λ c. app_of c ≡ archive) }
    ensures own { IfOk result (λ c. (out-Command c).has_globals ≡ false) }
    ensures whole { IfOk result (λ c. is_broken c ≡ false) }
{
    let output = output(alloc, "Where the export goes; - is the standard output");
    Command::new(alloc, "archive")
        .about("Write the export of an archive that adopts what files hold")
        .arg(output)?
        .arg(limit(alloc))?
        .arg(archive_words(alloc))
}

// The words of a report: those of an ask, and the files.
fn words<'a>(alloc: Global) -> Arg<'a>
    ensures rule { rule_of result ≡ words_rule }
    ensures own { result.global ≡ false }
{
    Arg::new(alloc, "words")
        .value_names(&[
            "SCOPE",
            "NAME",
            "UNIT",
            "SHAPE",
            "SERVICE",
            "ATTRIBUTES",
            "KEEP",
            "FILE",
        ])
        .num_args(8..)
        .required(true)
        .help("The words of a script's line `report` behind its gateway, and files")
}

fn report<'a>(alloc: Global) -> Result<Command<'a>, AllocError>
    ensures app { IfOk result (λ c. app_of c ≡ report) }
    ensures own { IfOk result (λ c. (out-Command c).has_globals ≡ false) }
    ensures whole { IfOk result (λ c. is_broken c ≡ false) }
{
    Command::new(alloc, "report")
        .about("Print a table of what files say, joined")
        .arg(words(alloc))
}

fn openmetrics<'a>(alloc: Global) -> Arg<'a>
    ensures rule { rule_of result ≡ openmetrics_rule }
    ensures own { result.global ≡ false }
{
    Arg::new(alloc, "openmetrics")
        .long("openmetrics")
        .action(ArgAction::SetTrue)
        .help("Print the page in OpenMetrics 1.0")
}

fn service<'a>(alloc: Global) -> Arg<'a>
    ensures rule { rule_of result ≡ service_rule }
    ensures own { result.global ≡ false }
{
    Arg::new(alloc, "service")
        .long("service")
        .help("Print the points of this service alone")
}

fn expose<'a>(alloc: Global) -> Result<Command<'a>, AllocError>
    ensures app { IfOk result (λ c. app_of c ≡ expose) }
    ensures own { IfOk result (λ c. (out-Command c).has_globals ≡ false) }
    ensures whole { IfOk result (λ c. is_broken c ≡ false) }
{
    Command::new(alloc, "expose")
        .about("Print what files say, joined, as a page for Prometheus")
        .arg(openmetrics(alloc))?
        .arg(service(alloc))?
        .arg(files(alloc))
}

// The commands that read files and keep no question.
#[tactic(auto, unfolding(crate::specs::Commands::otm_keeping))]
fn keeping<'a>(alloc: Global) -> Result<Command<'a>, AllocError>
    ensures app { IfOk result (λ c. app_of c ≡ otm_keeping) }
    ensures own { IfOk result (λ c. (out-Command c).has_globals ≡ false) }
    ensures whole { IfOk result (λ c. is_broken c ≡ false) }
{
    Command::new(alloc, "otm")
        .about("What files of exports, messages and states say")
        .subcommand_required(true)
        .subcommand(on_files(alloc, "show", "Print what files are of, and their points")?)?
        .subcommand(merge(alloc)?)
}

// Those, and the commands that ask of files.
#[tactic(auto, unfolding(crate::specs::Commands::otm_asking))]
fn asking<'a>(alloc: Global) -> Result<Command<'a>, AllocError>
    ensures app { IfOk result (λ c. app_of c ≡ otm_asking) }
    ensures own { IfOk result (λ c. (out-Command c).has_globals ≡ false) }
    ensures whole { IfOk result (λ c. is_broken c ≡ false) }
{
    keeping(alloc)?
        .subcommand(report(alloc)?)?
        .subcommand(expose(alloc)?)
}

// And those that make what is for others.
#[tactic(auto, unfolding(crate::specs::Commands::otm_sending))]
fn sending<'a>(alloc: Global) -> Result<Command<'a>, AllocError>
    ensures app { IfOk result (λ c. app_of c ≡ otm_sending) }
    ensures own { IfOk result (λ c. (out-Command c).has_globals ≡ false) }
    ensures whole { IfOk result (λ c. is_broken c ≡ false) }
{
    asking(alloc)?.subcommand(on_files(
        alloc,
        "otlp",
        "Write the OTLP request of files of exports",
    )?)
}

#[tactic(auto, unfolding(crate::specs::Commands::otm))]
fn command<'a>(alloc: Global) -> Result<Command<'a>, AllocError>
    ensures app { IfOk result (λ c. app_of c ≡ otm) }
    ensures own { IfOk result (λ c. (out-Command c).has_globals ≡ false) }
    ensures whole { IfOk result (λ c. is_broken c ≡ false) }
{
    sending(alloc)?.subcommand(archive(alloc)?)
}

fn refusal(alloc: Global, error: &clap::Error) -> CommandFault
    ensures { kind_of error.now ≡ ErrorKind.OutOfMemory → result ≡ CommandFault.NoMemory }
{
    if matches!(error.kind(), ErrorKind::OutOfMemory) {
        return CommandFault::NoMemory;
    }
    match error.to_string(alloc) {
        Ok(text) => CommandFault::BadWords(text),
        Err(_) => CommandFault::NoMemory,
    }
}

fn texts(alloc: Global, words: &[&str]) -> Result<Seq<Txt>, NoMemory>
    ensures { IfOk result (λ texts. texts ≡ map (λ w. w.now) words.now) }
{
    let mut texts = Vec::with_capacity(alloc, words.len())?;
    for word in words {
        texts.push(Txt::from_str(alloc, word)?)?;
    }
    Ok(Seq::from_vec(texts))
}

// The files that are named.
fn files_given(alloc: Global, options: &ArgMatches<'_>) -> Result<Seq<Txt>, NoMemory>
    ensures { IfOk result (HasFiles (rows_of (found_of options.now))) }
{
    match options.get_strs("files") {
        Some(names) => texts(alloc, names),
        None => Err(NoMemory),
    }
}

fn text_given(alloc: Global, options: &ArgMatches<'_>, id: &str) -> Result<Option<Txt>, NoMemory>
    ensures { IfOk result (λ text. text ≡ first_of id.now (rows_of (found_of options.now))) }
{
    match options.get_str(id) {
        Some(text) => Ok(Some(Txt::from_str(alloc, text)?)),
        None => Ok(None),
    }
}

fn format_given(options: &ArgMatches<'_>) -> PageFormat
    ensures { GivesFormat (rows_of (found_of options.now)) result }
{
    if options.get_flag("openmetrics") {
        PageFormat::OpenMetrics
    } else {
        PageFormat::Prometheus
    }
}

fn read_merge(alloc: Global, options: &ArgMatches<'_>) -> Result<FileCommand, NoMemory>
    ensures { IfOk result (Asks (Some (codes "merge", rows_of (found_of options.now)))) }
{
    match text_given(alloc, options, "output")? {
        Some(into) => Ok(FileCommand::Merge {
            into,
            files: files_given(alloc, options)?,
        }),
        None => Err(NoMemory),
    }
}

fn read_report(alloc: Global, options: &ArgMatches<'_>) -> Result<FileCommand, CommandFault>
    ensures ok { IfOk result (Asks (Some (codes "report", rows_of (found_of options.now)))) }
    ensures bad_words { (text : _) → IsErrOf result (CommandFault.BadWords text)
        → HasNoAsk (Some (codes "report", rows_of (found_of options.now))) }
{
    let Some(words) = options.get_strs("words") else {
        return Err(CommandFault::NoMemory);
    };
    if words.len() < ASK_WORDS {
        return Err(CommandFault::NoMemory);
    }
    let (ask, files) = words.split_at(ASK_WORDS);
    match read_ask(alloc, ask) {
        Ok(ask) => Ok(FileCommand::Report {
            ask,
            files: texts(alloc, files)?,
        }),
        Err(fault) => Err(fault),
    }
}

// The archive that words ask for.
fn archiving_given(
    alloc: Global,
    options: &ArgMatches<'_>,
    words: &[&str],
) -> Result<Archiving, CommandFault>
    requires { 4 ≤ length words.now }
    ensures ok { IfOk result (AsksArchive (rows_of (found_of options.now)) (map (λ w. w.now) words.now)) }
    ensures bad_words { (text : _) → IsErrOf result (CommandFault.BadWords text) → (ask : Archiving)
        → AsksArchive (rows_of (found_of options.now)) (map (λ w. w.now) words.now) ask → ⊥ }
{
    let (who, rest) = words.split_at(WRITER_WORDS);
    let (when, _) = rest.split_at(1);
    read_archiving(alloc, who, when, options.get_str("limit"))
}

fn read_archive(alloc: Global, options: &ArgMatches<'_>) -> Result<FileCommand, CommandFault>
    ensures ok { IfOk result (Asks (Some (codes "archive", rows_of (found_of options.now)))) }
    ensures bad_words { (text : _) → IsErrOf result (CommandFault.BadWords text)
        → HasNoArchive (Some (codes "archive", rows_of (found_of options.now))) }
{
    let Some(into) = text_given(alloc, options, "output")? else {
        return Err(CommandFault::NoMemory);
    };
    let Some(words) = options.get_strs("words") else {
        return Err(CommandFault::NoMemory);
    };
    if words.len() < ARCHIVE_WORDS {
        return Err(CommandFault::NoMemory);
    }
    let (_, files) = words.split_at(ARCHIVE_WORDS);
    match archiving_given(alloc, options, words) {
        Ok(ask) => Ok(FileCommand::Archive {
            into,
            ask,
            files: texts(alloc, files)?,
        }),
        Err(fault) => Err(fault),
    }
}

fn read_expose(alloc: Global, options: &ArgMatches<'_>) -> Result<FileCommand, NoMemory>
    ensures { IfOk result (Asks (Some (codes "expose", rows_of (found_of options.now)))) }
{
    Ok(FileCommand::Expose {
        format: format_given(options),
        service: text_given(alloc, options, "service")?,
        files: files_given(alloc, options)?,
    })
}

// What the matches of the program's command ask for.
fn read(alloc: Global, matches: &ArgMatches<'_>) -> Result<FileCommand, CommandFault>
    ensures ok { IfOk result (Asks (subcommand_rows_of matches.now)) }
    ensures bad_words { (text : _) → IsErrOf result (CommandFault.BadWords text) → SaysNothing (subcommand_rows_of matches.now) }
{
    let Some((name, options)) = matches.subcommand() else {
        return Err(CommandFault::NoMemory);
    };
    if name == "show" {
        Ok(FileCommand::Show {
            files: files_given(alloc, options)?,
        })
    } else if name == "merge" {
        Ok(read_merge(alloc, options)?)
    } else if name == "report" {
        read_report(alloc, options)
    } else if name == "expose" {
        Ok(read_expose(alloc, options)?)
    } else if name == "otlp" {
        Ok(FileCommand::Otlp {
            files: files_given(alloc, options)?,
        })
    } else if name == "archive" {
        read_archive(alloc, options)
    } else {
        Err(CommandFault::NoMemory)
    }
}

/// What the words ask of files. The first word is the program's name.
///
/// Refusals: [`CommandFault::BadWords`] where `clap` refuses the words for another cause than memory, or the words of a report or of
/// an archive ask for none, with the text to show; then [`CommandFault::NoMemory`].
pub fn read_command<S: AsStr>(alloc: Global, words: &[S]) -> Result<FileCommand, CommandFault>
    ensures ok { IfOk result (Asks (named_by (map S.text words.now))) }
    ensures taken { OnOk result (fault_of otm (map S.text words.now) ≡ []) }
    ensures bad_words { (text : _) → IsErrOf result (CommandFault.BadWords text) → AsksNothing (map S.text words.now) }
{
    let Ok(command) = command(alloc) else {
        return Err(CommandFault::NoMemory);
    };
    match command.try_get_matches_from(words) {
        Err(error) => Err(refusal(alloc, &error)),
        Ok(matches) => read(alloc, &matches),
    }
}

// Whether a word is a command on files.
fn is_command(word: &str) -> bool
    ensures { result ≡ is_command word.now }
{
    word == "show"
        || word == "merge"
        || word == "report"
        || word == "expose"
        || word == "otlp"
        || word == "archive"
}

// The word at a place, or an empty text.
fn word_at<S: AsStr>(words: &[S], place: usize) -> &str
    ensures { result.now ≡ word_at (map S.text words.now) place }
{
    match words.get(place) {
        Some(word) => word.as_str(),
        None => "",
    }
}

/// Whether [`read_command`] is for these words: the first behind the program's name is a command on files, or it is `help` and the one
/// behind it is.
#[tactic(auto, unfolding(crate::specs::Commands::is_of_files))]
pub fn is_of_files<S: AsStr>(words: &[S]) -> bool
    ensures { result ≡ is_of_files (map S.text words.now) }
{
    let first = word_at(words, 1);
    if first == "help" {
        is_command(word_at(words, 2))
    } else {
        is_command(first)
    }
}
