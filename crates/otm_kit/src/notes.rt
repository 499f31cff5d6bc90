//! What is told of a script beside what it prints.
//!
//! It is for the standard error. The script is read once more for it, so nothing that the script prints rests on it. What is told
//! is tested, not proved.
use crate::listed::Listed;
use crate::misplans::why_no_plan;
use crate::refused::Refused;
use crate::streams::{NamedStream, nearest};
use crate::unmatched::unmatched_views;
use attr_kit::NoMemory;
use indexmap::IndexSet;
use plan_kit::Plan;
use point_kit::Stream;
use script_kit::{Line, Query, Stop, parse_line};
use std::alloc::Global;

/// How many notes are told of a script.
pub(crate) const MOST_NOTES: usize = 100;

/// Notes, each a line of its own with the number of a line of the script.
#[derive(Drop)]
pub(crate) struct Notes {
    text: String,
    left: usize,
}

impl Notes {
    fn new(alloc: Global) -> Notes {
        Notes {
            text: String::new(alloc),
            left: MOST_NOTES,
        }
    }

    fn is_full(&self) -> bool {
        self.left == 0
    }

    /// Adds a note on a line, unless there are enough.
    pub(crate) fn add(&mut self, line: u64, note: &str) -> Result<(), NoMemory> {
        if self.left == 0 {
            return Ok(());
        }
        self.left -= 1;
        write!(&mut self.text, "line {line}: {note}\n")?;
        Ok(())
    }
}

// The notes on the lines so far, and what those behind them need: what is declared, the streams once it has begun, and the lines
// that are left of those that were refused.
#[derive(Drop)]
struct Noting<'a> {
    notes: Notes,
    listed: Listed,
    begun: Option<IndexSet<Stream>>,
    refused: &'a [(u64, String)],
}

impl Noting<'_> {
    // Notes what there is to tell of the text of a line; whether the lines behind it are noted too.
    fn take_text(
        &mut self,
        alloc: Global,
        number: u64,
        text: &[u8],
        bad_line: Option<u64>,
    ) -> Result<bool, NoMemory> {
        let line = match parse_line(alloc, text) {
            Ok(line) => line,
            Err(Stop::NoMemory) => return Err(NoMemory),
            Err(Stop::Bad(_)) => return Ok(false),
        };
        let is_first_begin = line == Line::Begin && self.begun.is_none();
        if bad_line == Some(number) && !is_first_begin || self.notes.is_full() {
            return Ok(false);
        }
        self.take(alloc, number, line)
    }

    // Notes what there is to tell of a line; whether the lines behind it are noted too.
    fn take(&mut self, alloc: Global, number: u64, line: Line) -> Result<bool, NoMemory> {
        match (line, &self.begun) {
            (Line::Declare(declaration), None) => self.listed.add(number, declaration)?,
            (Line::Begin, None) => {
                self.begun = streams_begun(alloc, &self.listed, number, &mut self.notes)?;
                return Ok(self.begun.is_some());
            }
            (Line::Ask(Query::Report { report, .. }), Some(streams)) => {
                note_report(alloc, number, &report.stream, streams, &mut self.notes)?;
            }
            (Line::Do(_), Some(_)) => {
                self.refused = note_refused(self.refused, number, &mut self.notes)?;
            }
            _ => {}
        }
        Ok(true)
    }
}

/// What is told of a script beside what it prints, for the standard error: a line for each note, with the number of the line
/// that it is about. They are told up to the script's bad line, where it has one, and no more than 100 of them:
///
/// - of a view, that it matches no instrument;
/// - of a report, that no stream is the one that it asks for, and which one is near it;
/// - of an event that was refused, what its line printed;
/// - of the bad line, where that is a `begin` that is refused, which line declares what is refused, and what the rule is.
///
/// O(n) for a script of n bytes, and the number of streams for each note on a report. Refuses: `NoMemory`.
pub fn notes_on(
    alloc: Global,
    script: &[u8],
    bad_line: Option<u64>,
    refused: &Refused,
) -> Result<String, NoMemory> {
    let mut noting = Noting {
        notes: Notes::new(alloc),
        listed: Listed::new(alloc),
        begun: None,
        refused: refused.lines(),
    };
    let mut number: u64 = 0;
    for text in whole_lines(script).split(|byte| *byte == b'\n') {
        number = number.saturating_add(1);
        if !noting.take_text(alloc, number, text, bad_line)? {
            break;
        }
    }
    Ok(noting.notes.text)
}

// The script without what stands behind its last line feed: a line that is cut is bad, whatever it says.
fn whole_lines(script: &[u8]) -> &[u8] {
    match script.iter().rposition(|byte| *byte == b'\n') {
        Some(end) => script.get(..end).unwrap_or_default(),
        None => &[],
    }
}

// The streams of a plan that begins; none where it is refused.
fn streams_begun(
    alloc: Global,
    listed: &Listed,
    begin: u64,
    notes: &mut Notes,
) -> Result<Option<IndexSet<Stream>>, NoMemory> {
    match listed.plan(alloc)? {
        Err(fault) => {
            why_no_plan(alloc, listed, &fault, begin, notes)?;
            Ok(None)
        }
        Ok(plan) => {
            if let Some((first, second, id)) = listed.same_gateway(alloc)? {
                let note = format!(in alloc; "line {first} declares the gateway {id} too")?;
                notes.add(second, &note)?;
                return Ok(None);
            }
            unmatched_views(alloc, listed, notes)?;
            Ok(Some(streams_of(alloc, &plan)?))
        }
    }
}

// The streams of a plan, in their order.
fn streams_of(alloc: Global, plan: &Plan) -> Result<IndexSet<Stream>, NoMemory> {
    let mut streams = IndexSet::new(alloc);
    for number in 0..plan.streams_len() {
        if let Some(stream) = plan.stream(number) {
            streams.insert(stream.try_copy()?)?;
        }
    }
    Ok(streams)
}

// Notes that no stream is the one that a report asks for.
fn note_report(
    alloc: Global,
    number: u64,
    asked: &Stream,
    streams: &IndexSet<Stream>,
    notes: &mut Notes,
) -> Result<(), NoMemory> {
    match note_on_stream(alloc, asked, streams)? {
        Some(note) => notes.add(number, &note),
        None => Ok(()),
    }
}

// Notes what a line printed, where it is the first of these that were refused, and gives those that are left.
fn note_refused<'a>(
    refused: &'a [(u64, String)],
    number: u64,
    notes: &mut Notes,
) -> Result<&'a [(u64, String)], NoMemory> {
    match refused.split_first() {
        Some(((line, printed), behind)) if *line == number => {
            notes.add(number, printed.trim_end())?;
            Ok(behind)
        }
        _ => Ok(refused),
    }
}

/// What is told of a stream that is asked for: none of these is the one, and which is near it. Nothing where one is.
///
/// O(n) for n streams. Refuses: `NoMemory`.
pub fn note_on_stream(
    alloc: Global,
    asked: &Stream,
    streams: &IndexSet<Stream>,
) -> Result<Option<String>, NoMemory> {
    if streams.contains(asked) {
        return Ok(None);
    }
    let named = NamedStream::new(asked);
    Ok(Some(match nearest(asked, streams) {
        Some(near) => {
            let near = NamedStream::new(near);
            format!(in alloc; "there is no stream '{named}', but '{near}'")?
        }
        None => format!(in alloc; "there is no stream '{named}'")?,
    }))
}
