//! What is done on files: they are read, `file_kit` makes what there is to write, and it is written.
use attr_kit::{NoMemory, Txt};
use bytes_kit::DecodeFault;
use file_kit::{
    ArchiveFault, Archiving, CommandFault, FileCommand, FileFault, PageFormat, SendFault, archived,
    expose, incarnation, merged, otlp, read_command, report, show, why_none,
};
use indexmap::IndexSet;
use otm_kit::note_on_stream;
use otm_kit::status::{BAD_INPUT, BAD_STREAM, BAD_WORDS, NO_MEMORY};
use point_kit::Stream;
use rollup_kit::Ask;
use std::alloc::{AllocError, Global};
use std::fs::{File, OpenFile};
use std::io::{ErrorKind, Read, Write};
use std::process::ExitCode;
use std::rt::Files;
use std::{fs, io};

// How many files may lie beside the one that is written, of processes that were killed while they wrote, before that is refused.
const MOST_PARTS: u32 = 1000;

// What stands for the standard input, and for the standard output.
const STANDARD: &str = "-";

// Why nothing is written.
#[derive(Debug, Drop)]
enum End {
    // The file of this name has nothing of what is wanted, for this reason.
    BadFile(Txt, String),
    // There is no archive, for this reason; and the status for it.
    Unarchived(String, u8),
    // The file of this name was not read.
    Unread(Txt),
    Unwritten,
    NoMemory,
}

impl From<NoMemory> for End {
    fn from(_error: NoMemory) -> End {
        End::NoMemory
    }
}

impl From<AllocError> for End {
    fn from(_error: AllocError) -> End {
        End::NoMemory
    }
}

/// Does what the words ask of files, and gives the status for it.
pub(crate) fn do_files(
    rt: &(impl Files + Input + Print + Eprint + AllocGlobal),
    words: &[String],
) -> ExitCode {
    match read_command(rt.alloc(), words) {
        Ok(command) => match done(rt, command) {
            Ok(()) => ExitCode::SUCCESS,
            Err(end) => report_end(rt, &end),
        },
        Err(fault) => refuse(rt, &fault),
    }
}

// Prints why the words are refused, and gives the status for it.
fn refuse(rt: &(impl Print + Eprint), fault: &CommandFault) -> ExitCode {
    match fault {
        CommandFault::BadWords(text) => {
            let _ = eprintln!(rt; "{text}");
            ExitCode::from(BAD_WORDS)
        }
        CommandFault::NoMemory => {
            let _ = println!(rt; "no memory");
            ExitCode::from(NO_MEMORY)
        }
    }
}

// Prints why nothing is written, and gives the status for it.
fn report_end(rt: &(impl Print + Eprint), end: &End) -> ExitCode {
    match end {
        End::BadFile(name, reason) => {
            let name = name.as_str();
            let _ = eprintln!(rt; "{name}: {reason}");
            ExitCode::from(BAD_INPUT)
        }
        End::Unarchived(reason, status) => {
            let _ = eprintln!(rt; "{reason}");
            ExitCode::from(*status)
        }
        End::Unread(name) => {
            let name = name.as_str();
            let _ = eprintln!(rt; "read failed: {name}");
            ExitCode::from(BAD_STREAM)
        }
        End::Unwritten => {
            let _ = eprintln!(rt; "write failed");
            ExitCode::from(BAD_STREAM)
        }
        End::NoMemory => {
            let _ = println!(rt; "no memory");
            ExitCode::from(NO_MEMORY)
        }
    }
}

fn done(
    rt: &(impl Files + Input + Print + Eprint + AllocGlobal),
    command: FileCommand,
) -> Result<(), End> {
    match command {
        FileCommand::Show { files } => show_files(rt, files.as_slice()),
        FileCommand::Merge { into, files } => merge_files(rt, into.as_str(), files.as_slice()),
        FileCommand::Report { ask, files } => report_files(rt, &ask, files.as_slice()),
        FileCommand::Expose {
            format,
            service,
            files,
        } => expose_files(rt, format, &service, files.as_slice()),
        FileCommand::Otlp { files } => send_files(rt, files.as_slice()),
        FileCommand::Archive { into, ask, files } => {
            archive_files(rt, into.as_str(), &ask, files.as_slice())
        }
    }
}

fn show_files(rt: &(impl Files + Input + Print + AllocGlobal), files: &[Txt]) -> Result<(), End> {
    let contents = read_all(rt, files)?;
    let text = shown(rt.alloc(), files, contents.as_slice())?;
    print(rt, text.as_bytes())
}

fn merge_files(
    rt: &(impl Files + Input + Print + AllocGlobal),
    into: &str,
    files: &[Txt],
) -> Result<(), End> {
    let alloc = rt.alloc();
    let contents = read_all(rt, files)?;
    match merged(alloc, contents.as_slice()) {
        Ok(state) => put(rt, into, state.as_slice()),
        Err(fault) => Err(unjoined(alloc, files, contents.as_slice(), fault)),
    }
}

fn report_files(
    rt: &(impl Files + Input + Print + Eprint + AllocGlobal),
    ask: &Ask,
    files: &[Txt],
) -> Result<(), End> {
    let alloc = rt.alloc();
    let contents = read_all(rt, files)?;
    match report(alloc, ask, contents.as_slice()) {
        Ok(told) => {
            print(rt, told.table.as_str().as_bytes())?;
            tell(rt, &ask.stream, &told.others);
            Ok(())
        }
        Err(fault) => Err(unjoined(alloc, files, contents.as_slice(), fault)),
    }
}

// Prints that no file has the stream that is asked for, and which one is near it, where there was memory for the words.
fn tell(rt: &(impl Eprint + AllocGlobal), asked: &Stream, others: &Option<IndexSet<Stream>>) {
    let Some(others) = others else {
        return;
    };
    if let Ok(Some(note)) = note_on_stream(rt.alloc(), asked, others) {
        let _ = eprintln!(rt; "{note}");
    }
}

fn expose_files(
    rt: &(impl Files + Input + Print + AllocGlobal),
    format: PageFormat,
    service: &Option<Txt>,
    files: &[Txt],
) -> Result<(), End> {
    let alloc = rt.alloc();
    let contents = read_all(rt, files)?;
    let service = match service {
        Some(service) => Some(service.as_str()),
        None => None,
    };
    match expose(alloc, format, service, contents.as_slice()) {
        Ok(page) => print(rt, page.as_bytes()),
        Err(fault) => Err(unjoined(alloc, files, contents.as_slice(), fault)),
    }
}

fn send_files(rt: &(impl Files + Input + Print + AllocGlobal), files: &[Txt]) -> Result<(), End> {
    let alloc = rt.alloc();
    let contents = read_all(rt, files)?;
    match otlp(alloc, contents.as_slice()) {
        Ok(request) => print(rt, request.as_slice()),
        Err(fault) => Err(unsent(alloc, files, contents.as_slice(), fault)),
    }
}

fn archive_files(
    rt: &(impl Files + Input + Print + AllocGlobal),
    into: &str,
    ask: &Archiving,
    files: &[Txt],
) -> Result<(), End> {
    let alloc = rt.alloc();
    let contents = read_all(rt, files)?;
    match archived(alloc, ask, contents.as_slice()) {
        Ok(export) => put(rt, into, export.as_slice()),
        Err(fault) => Err(unarchived(alloc, files, contents.as_slice(), fault)),
    }
}

// The contents of all files, in their order.
fn read_all(rt: &(impl Files + Input + AllocGlobal), files: &[Txt]) -> Result<Vec<Vec<u8>>, End> {
    let mut contents = Vec::new(rt.alloc());
    for name in files {
        match read_one(rt, name.as_str()) {
            Ok(bytes) => contents.push(bytes).map_err(|_| End::NoMemory)?,
            Err(error) if error.kind() == ErrorKind::OutOfMemory => return Err(End::NoMemory),
            Err(_) => return Err(End::Unread(name.try_copy()?)),
        }
    }
    Ok(contents)
}

fn read_one(rt: &(impl Files + Input + AllocGlobal), name: &str) -> io::Result<Vec<u8>> {
    if name != STANDARD {
        return fs::read(rt, name);
    }
    let mut bytes = Vec::new(rt.alloc());
    rt.reader().read_to_end(&mut bytes)?;
    Ok(bytes)
}

// What each file is of, one behind the other.
fn shown(alloc: Global, files: &[Txt], contents: &[Vec<u8>]) -> Result<String, End> {
    let mut text = String::new(alloc);
    for (name, bytes) in files.iter().zip(contents) {
        match show(alloc, name.as_str(), bytes.as_slice()) {
            Ok(one) => text.push_str(one.as_str())?,
            Err(DecodeFault::NoMemory) => return Err(End::NoMemory),
            Err(fault) => {
                let reason = why_none(alloc, bytes.as_slice(), fault).to_string(alloc)?;
                return Err(End::BadFile(name.try_copy()?, reason));
            }
        }
    }
    Ok(text)
}

fn print(rt: &(impl Print + AllocGlobal), bytes: &[u8]) -> Result<(), End> {
    io::writer(rt).write_all(bytes).map_err(|_| End::Unwritten)
}

// Puts bytes into a file, which has all of them or stays as it was. What is no file but a device or a pipe is written as it is.
fn put(rt: &(impl Files + Print + AllocGlobal), name: &str, bytes: &[u8]) -> Result<(), End> {
    if name == STANDARD {
        return print(rt, bytes);
    }
    if is_special(rt, name) {
        return fs::write(rt, name, bytes).map_err(|_| End::Unwritten);
    }
    let (beside, file) = part_of(rt, name)?;
    let written = match written(file, bytes) {
        Ok(()) => fs::rename(rt, beside.as_str(), name),
        Err(error) => Err(error),
    };
    if written.is_err() {
        let _ = fs::remove_file(rt, beside.as_str());
        return Err(End::Unwritten);
    }
    Ok(())
}

// Whether there is something of this name which is no plain file.
fn is_special(rt: &impl Files, name: &str) -> bool {
    match fs::metadata(rt, name) {
        Ok(found) => !found.is_file(),
        Err(_) => false,
    }
}

// A file beside the one of this name, which nobody else has: it was not there before.
fn part_of<R: Files + AllocGlobal>(rt: &R, name: &str) -> Result<(String, R::File), End> {
    for number in 0..MOST_PARTS {
        let beside = format!(in rt.alloc(); "{name}.{number}.part")?;
        match File::create_new(rt, beside.as_str()) {
            Ok(file) => return Ok((beside, file)),
            Err(error) if error.kind() == ErrorKind::AlreadyExists => {}
            Err(_) => return Err(End::Unwritten),
        }
    }
    Err(End::Unwritten)
}

// Writes all bytes, and waits until they are on the disk.
fn written<F: Write + OpenFile + Drop>(mut file: F, bytes: &[u8]) -> io::Result<()> {
    file.write_all(bytes)?;
    file.sync_all()
}

// Why files are not joined, by the name of the one that is refused.
fn unjoined(alloc: Global, files: &[Txt], contents: &[Vec<u8>], fault: FileFault) -> End {
    match fault {
        FileFault::Refused { place, fault } => bad_file(alloc, files, contents, place, fault),
        FileFault::NoMemory => End::NoMemory,
    }
}

// Why files come to no archive.
fn unarchived(alloc: Global, files: &[Txt], contents: &[Vec<u8>], fault: ArchiveFault) -> End {
    let Ok(reason) = fault.to_string(alloc) else {
        return End::NoMemory;
    };
    match fault {
        ArchiveFault::TimeNotLater => End::Unarchived(reason, BAD_WORDS),
        ArchiveFault::Unjoined(fault) => unjoined(alloc, files, contents, fault),
        ArchiveFault::Taken => End::Unarchived(reason, BAD_INPUT),
        ArchiveFault::Unadopted { writer, start, .. } => {
            match incarnation(alloc, &writer, start) {
                Ok(who) => unadopted(alloc, who.as_str(), reason.as_str()),
                Err(NoMemory) => End::NoMemory,
            }
        }
        ArchiveFault::NoMemory => End::NoMemory,
    }
}

fn unadopted(alloc: Global, who: &str, reason: &str) -> End {
    match format!(in alloc; "{who} is not adopted: {reason}") {
        Ok(told) => End::Unarchived(told, BAD_INPUT),
        Err(_) => End::NoMemory,
    }
}

fn unsent(alloc: Global, files: &[Txt], contents: &[Vec<u8>], fault: SendFault) -> End {
    match fault {
        SendFault::Refused { place, fault } => bad_file(alloc, files, contents, place, fault),
        SendFault::Unsaid { place, fault } => refused(alloc, files, place, fault.to_string(alloc)),
        SendFault::NoMemory => End::NoMemory,
    }
}

// Why the file at a place is none.
fn bad_file(
    alloc: Global,
    files: &[Txt],
    contents: &[Vec<u8>],
    place: usize,
    fault: DecodeFault,
) -> End {
    let reason = match contents.get(place) {
        Some(bytes) => why_none(alloc, bytes.as_slice(), fault).to_string(alloc),
        None => fault.to_string(alloc),
    };
    refused(alloc, files, place, reason)
}

fn refused(alloc: Global, files: &[Txt], place: usize, reason: Result<String, AllocError>) -> End {
    let Ok(reason) = reason else {
        return End::NoMemory;
    };
    let name = match files.get(place) {
        Some(name) => name.try_copy(),
        None => Txt::from_str(alloc, STANDARD),
    };
    match name {
        Ok(name) => End::BadFile(name, reason),
        Err(NoMemory) => End::NoMemory,
    }
}
