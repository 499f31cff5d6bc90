//! Lines that declare what a script has.
ghost use Rattle.std.specs.Prelude.{◌≡◌, map};
ghost use Rattle.script_kit.specs.Lines.{instrument_form, instrument_line, view_line, writer_line, gateway_line, limit_line, begin_line};
ghost use Rattle.script_kit.specs.Reading.{Reads};

use crate::forms::{instance, part, rename, scope, text};
use crate::line::{Declaration, Line};
use crate::reading::{count, id, label, number, word_at, word_if_any};
use crate::reason::{Form, Noun, Reason};
use crate::shapes::{aggregation, keep, kind, kind_asked, name_rule};
use crate::stop::Stop;
use plan_kit::{Instrument, View};
use point_kit::WriterId;
use std::alloc::Global;

// What a line of an instrument wants: behind its kind, where that is one.
#[tactic(auto, unfolding(crate::specs::Lines::instrument_form))]
fn instrument_form(words: &[&str]) -> Form
    ensures { result ≡ instrument_form (map (λ w. w.now) words.now) }
{
    if kind(word_if_any(words, 2)).is_some() {
        Form::InstrumentOfKind
    } else {
        Form::Instrument
    }
}

// `instrument LABEL KIND SCOPE NAME UNIT`
#[tactic(auto, unfolding(crate::specs::Lines::instrument_line))]
pub(crate) fn instrument(alloc: Global, words: &[&str]) -> Result<Line, Stop>
    ensures { Reads result (instrument_line (map (λ w. w.now) words.now)) }
{
    count(words, 6, instrument_form(words))?;
    let label = label(alloc, words, 1)?;
    let kind = kind(word_at(words, 2)).ok_or(Reason::Kind(2))?;
    let scope = part(alloc, word_at(words, 3))?;
    let name = text(alloc, word_at(words, 4))?;
    let unit = part(alloc, word_at(words, 5))?;
    Ok(Line::Declare(Declaration::Instrument {
        label,
        instrument: Instrument {
            scope,
            name,
            unit,
            kind,
        },
    }))
}

// `view NAME KIND SCOPE RENAME KEEP AGGREGATION`
#[tactic(auto, unfolding(crate::specs::Lines::view_line))]
pub(crate) fn view(alloc: Global, words: &[&str]) -> Result<Line, Stop>
    ensures { Reads result (view_line (map (λ w. w.now) words.now)) }
{
    count(words, 7, Form::View)?;
    let kind = kind_asked(word_at(words, 2)).ok_or(Reason::KindAsked(2))?;
    let keep = keep(alloc, word_at(words, 5))?.ok_or(Reason::Keep(5))?;
    let aggregation = aggregation(alloc, word_at(words, 6))?.ok_or(Reason::Aggregation(6))?;
    let name = name_rule(alloc, word_at(words, 1))?;
    let scope = scope(alloc, word_at(words, 3))?;
    let rename = rename(alloc, word_at(words, 4))?;
    Ok(Line::Declare(Declaration::View(View {
        name,
        kind,
        scope,
        rename,
        keep,
        aggregation,
    })))
}

// `writer LABEL SERVICE UUID START`
#[tactic(auto, unfolding(crate::specs::Lines::writer_line))]
pub(crate) fn writer(alloc: Global, words: &[&str]) -> Result<Line, Stop>
    ensures { Reads result (writer_line (map (λ w. w.now) words.now)) }
{
    count(words, 5, Form::Writer)?;
    let label = label(alloc, words, 1)?;
    let instance = instance(word_at(words, 3)).ok_or(Reason::Uuid(3))?;
    let start = number(words, 4, Noun::Start)?;
    let service = text(alloc, word_at(words, 2))?;
    Ok(Line::Declare(Declaration::Writer {
        label,
        id: WriterId { service, instance },
        start,
    }))
}

// `gateway ID`
#[tactic(auto, unfolding(crate::specs::Lines::gateway_line))]
pub(crate) fn gateway(words: &[&str]) -> Result<Line, Stop>
    ensures { Reads result (gateway_line (map (λ w. w.now) words.now)) }
{
    count(words, 2, Form::Gateway)?;
    Ok(Line::Declare(Declaration::Gateway(id(words, 1)?)))
}

// `limit L`
#[tactic(auto, unfolding(crate::specs::Lines::limit_line))]
pub(crate) fn limit(words: &[&str]) -> Result<Line, Stop>
    ensures { Reads result (limit_line (map (λ w. w.now) words.now)) }
{
    count(words, 2, Form::Limit)?;
    let limit = number(words, 1, Noun::Limit)?;
    Ok(Line::Declare(Declaration::Limit(limit)))
}

// `begin`
#[tactic(auto, unfolding(crate::specs::Lines::begin_line))]
pub(crate) fn begin(words: &[&str]) -> Result<Line, Stop>
    ensures { Reads result (begin_line (map (λ w. w.now) words.now)) }
{
    count(words, 1, Form::Begin)?;
    Ok(Line::Begin)
}
