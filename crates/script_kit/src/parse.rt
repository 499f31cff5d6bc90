//! What a line asks for.
ghost use Rattle.std.specs.Prelude.{map};
ghost use Rattle.script_kit.specs.Lines.{line_of, of_words};
ghost use Rattle.script_kit.specs.Reading.{Reads};

use crate::line::Line;
use crate::reading::word_at;
use crate::reason::Reason;
use crate::stop::Stop;
use crate::words::words;
use crate::{commands, declarations, queries};
use std::alloc::Global;

/// What a line asks for. O(n) for a line of n bytes.
///
/// Refuses: `Bad`, with the first thing that is wrong; `NoMemory`.
#[tactic(auto, unfolding(crate::specs::Lines::line_of))]
pub fn parse_line(alloc: Global, text: &[u8]) -> Result<Line, Stop>
    ensures value { Reads result (line_of text.now) }
{
    match text.first() {
        None | Some(b'#') => return Ok(Line::Nothing),
        Some(_) => {}
    }
    let words = words(alloc, text)?;
    of_words(alloc, &words)
}

// What a line of words asks for, by the first of them.
#[tactic(auto, unfolding(crate::specs::Lines::of_words))]
fn of_words(alloc: Global, words: &[&str]) -> Result<Line, Stop>
    ensures { Reads result (of_words (map (λ w. w.now) words.now)) }
{
    if words.is_empty() {
        return Err(Stop::Bad(Reason::Unknown));
    }
    match word_at(words, 0) {
        "instrument" => declarations::instrument(alloc, words),
        "view" => declarations::view(alloc, words),
        "writer" => declarations::writer(alloc, words),
        "gateway" => declarations::gateway(words),
        "limit" => declarations::limit(words),
        "begin" => declarations::begin(words),
        "measure" => commands::measure(alloc, words),
        "collect" => commands::collect(alloc, words),
        "shutdown" => commands::shutdown(alloc, words),
        "restart" => commands::restart(alloc, words),
        "deliver" => commands::deliver(words),
        "merge" => commands::merge(words),
        "send" => commands::send(words),
        "hand" => commands::hand(words),
        "report" => queries::report(alloc, words),
        "same" => queries::same(words),
        "conflicts" => queries::conflicts(words),
        "newest" => queries::newest(alloc, words),
        _ => Err(Stop::Bad(Reason::Unknown)),
    }
}
