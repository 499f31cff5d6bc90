//! Lines of what is asked.
ghost use Rattle.std.specs.Prelude.{map};
ghost use Rattle.script_kit.specs.Lines.{report_line, same_line, conflicts_line, newest_line};
ghost use Rattle.script_kit.specs.Reading.{Reads};

use crate::attributes::attributes;
use crate::forms::{part, text, unless_star};
use crate::line::{Line, Query, Report};
use crate::reading::{count, id, label, number, word_at};
use crate::reason::{Form, Noun, Reason};
use crate::shapes::{keep, shape};
use crate::stop::Stop;
use point_kit::Stream;
use std::alloc::Global;

// `report GATEWAY SCOPE NAME UNIT SHAPE SERVICE ATTRIBUTES KEEP`
#[tactic(auto, unfolding(crate::specs::Lines::report_line))]
pub(crate) fn report(alloc: Global, words: &[&str]) -> Result<Line, Stop>
    ensures { Reads result (report_line (map (λ w. w.now) words.now)) }
{
    count(words, 9, Form::Report)?;
    let gateway = id(words, 1)?;
    let shape = shape(alloc, word_at(words, 5))?.ok_or(Reason::Shape(5))?;
    let only = attributes(alloc, word_at(words, 7))?.ok_or(Reason::Attributes(7))?;
    let keep = keep(alloc, word_at(words, 8))?.ok_or(Reason::Keep(8))?;
    let scope = part(alloc, word_at(words, 2))?;
    let name = text(alloc, word_at(words, 3))?;
    let unit = part(alloc, word_at(words, 4))?;
    let service = unless_star(alloc, word_at(words, 6))?;
    Ok(Line::Ask(Query::Report {
        gateway,
        report: Report {
            stream: Stream {
                scope,
                name,
                unit,
                shape,
            },
            service,
            only,
            keep,
        },
    }))
}

// `same GATEWAY GATEWAY`
#[tactic(auto, unfolding(crate::specs::Lines::same_line))]
pub(crate) fn same(words: &[&str]) -> Result<Line, Stop>
    ensures { Reads result (same_line (map (λ w. w.now) words.now)) }
{
    count(words, 3, Form::Same)?;
    let one = id(words, 1)?;
    let other = id(words, 2)?;
    Ok(Line::Ask(Query::Same { one, other }))
}

// `conflicts GATEWAY`
#[tactic(auto, unfolding(crate::specs::Lines::conflicts_line))]
pub(crate) fn conflicts(words: &[&str]) -> Result<Line, Stop>
    ensures { Reads result (conflicts_line (map (λ w. w.now) words.now)) }
{
    count(words, 2, Form::Conflicts)?;
    let gateway = id(words, 1)?;
    Ok(Line::Ask(Query::Conflicts { gateway }))
}

// `newest GATEWAY WRITER START`
#[tactic(auto, unfolding(crate::specs::Lines::newest_line))]
pub(crate) fn newest(alloc: Global, words: &[&str]) -> Result<Line, Stop>
    ensures { Reads result (newest_line (map (λ w. w.now) words.now)) }
{
    count(words, 4, Form::Newest)?;
    let gateway = id(words, 1)?;
    let writer = label(alloc, words, 2)?;
    let start = number(words, 3, Noun::Start)?;
    Ok(Line::Ask(Query::Newest {
        gateway,
        writer,
        start,
    }))
}
