//! Lines of what happens.
ghost use Rattle.std.specs.Prelude.{map};
ghost use Rattle.script_kit.specs.Lines.{measure_line, collect_line, shutdown_line, restart_line, deliver_line, merge_line, send_line, hand_line};
ghost use Rattle.script_kit.specs.Reading.{Reads};

use crate::attributes::attributes;
use crate::line::{Command, Line};
use crate::numbers::i64_of;
use crate::reading::{count, id, label, number, word_at};
use crate::reason::{Form, Noun, Reason};
use crate::stop::Stop;
use std::alloc::Global;

// `measure WRITER INSTRUMENT VALUE ATTRIBUTES`
#[tactic(auto, unfolding(crate::specs::Lines::measure_line))]
pub(crate) fn measure(alloc: Global, words: &[&str]) -> Result<Line, Stop>
    ensures { Reads result (measure_line (map (λ w. w.now) words.now)) }
{
    count(words, 5, Form::Measure)?;
    let writer = label(alloc, words, 1)?;
    let instrument = label(alloc, words, 2)?;
    let value = i64_of(word_at(words, 3)).ok_or(Reason::Value(3))?;
    let attrs = attributes(alloc, word_at(words, 4))?.ok_or(Reason::Attributes(4))?;
    Ok(Line::Do(Command::Measure {
        writer,
        instrument,
        value,
        attrs,
    }))
}

// `collect WRITER TIME`
#[tactic(auto, unfolding(crate::specs::Lines::collect_line))]
pub(crate) fn collect(alloc: Global, words: &[&str]) -> Result<Line, Stop>
    ensures { Reads result (collect_line (map (λ w. w.now) words.now)) }
{
    count(words, 3, Form::Collect)?;
    let writer = label(alloc, words, 1)?;
    let time = number(words, 2, Noun::Time)?;
    Ok(Line::Do(Command::Collect { writer, time }))
}

// `shutdown WRITER TIME`
#[tactic(auto, unfolding(crate::specs::Lines::shutdown_line))]
pub(crate) fn shutdown(alloc: Global, words: &[&str]) -> Result<Line, Stop>
    ensures { Reads result (shutdown_line (map (λ w. w.now) words.now)) }
{
    count(words, 3, Form::Shutdown)?;
    let writer = label(alloc, words, 1)?;
    let time = number(words, 2, Noun::Time)?;
    Ok(Line::Do(Command::Shutdown { writer, time }))
}

// `restart WRITER START`
#[tactic(auto, unfolding(crate::specs::Lines::restart_line))]
pub(crate) fn restart(alloc: Global, words: &[&str]) -> Result<Line, Stop>
    ensures { Reads result (restart_line (map (λ w. w.now) words.now)) }
{
    count(words, 3, Form::Restart)?;
    let writer = label(alloc, words, 1)?;
    let start = number(words, 2, Noun::Start)?;
    Ok(Line::Do(Command::Restart { writer, start }))
}

// `deliver EXPORT GATEWAY`
#[tactic(auto, unfolding(crate::specs::Lines::deliver_line))]
pub(crate) fn deliver(words: &[&str]) -> Result<Line, Stop>
    ensures { Reads result (deliver_line (map (λ w. w.now) words.now)) }
{
    count(words, 3, Form::Deliver)?;
    let export = number(words, 1, Noun::Export)?;
    let gateway = id(words, 2)?;
    Ok(Line::Do(Command::Deliver { export, gateway }))
}

// `merge INTO FROM`
#[tactic(auto, unfolding(crate::specs::Lines::merge_line))]
pub(crate) fn merge(words: &[&str]) -> Result<Line, Stop>
    ensures { Reads result (merge_line (map (λ w. w.now) words.now)) }
{
    count(words, 3, Form::Merge)?;
    let into = id(words, 1)?;
    let from = id(words, 2)?;
    Ok(Line::Do(Command::Merge { into, from }))
}

// `send FROM TO`
#[tactic(auto, unfolding(crate::specs::Lines::send_line))]
pub(crate) fn send(words: &[&str]) -> Result<Line, Stop>
    ensures { Reads result (send_line (map (λ w. w.now) words.now)) }
{
    count(words, 3, Form::Send)?;
    let from = id(words, 1)?;
    let to = id(words, 2)?;
    Ok(Line::Do(Command::Send { from, to }))
}

// `hand MAIL GATEWAY`
#[tactic(auto, unfolding(crate::specs::Lines::hand_line))]
pub(crate) fn hand(words: &[&str]) -> Result<Line, Stop>
    ensures { Reads result (hand_line (map (λ w. w.now) words.now)) }
{
    count(words, 3, Form::Hand)?;
    let mail = number(words, 1, Noun::Mail)?;
    let gateway = id(words, 2)?;
    Ok(Line::Do(Command::Hand { mail, gateway }))
}
