//! Words that name kinds, bounds, aggregations, shapes and kept keys.
ghost use Rattle.std.specs.Prelude.{◌≡◌, ◌++◌, IfOk, map, option_map};
ghost use Rattle.std.specs.List.{list_all};
ghost use Rattle.plan_kit.specs.Bounds.{default_bounds};
ghost use Rattle.script_kit.specs.Shapes.{kind_of, kind_asked, name_rule, bounds_of, buckets_of, plain_aggregation, aggregation_of, histogram_of, plain_shape, shape_of, keep_of, before_colon, script_name, script_shape};
ghost use Rattle.script_kit.specs.Pieces.{cut};
ghost use Rattle.script_kit.specs.Words.{is_filled};

use crate::forms::text;
use crate::numbers::i64_of;
use crate::pieces::{cut_at_colon, split_at_commas};
use attr_kit::{AllowList, Keep, NoMemory, Seq, Txt};
use plan_kit::{Aggregation, Kind, NameRule};
use point_kit::Shape;
use std::alloc::Global;

/// The bounds of the shape `hist`.
pub const DEFAULT_BOUNDS: [i64; 15] = [
    0, 5, 10, 25, 50, 75, 100, 250, 500, 750, 1000, 2500, 5000, 7500, 10000,
];

#[tactic(auto, unfolding(crate::specs::Shapes::kind_of))]
pub(crate) fn kind(word: &str) -> Option<Kind>
    ensures { result ≡ kind_of word.now }
{
    if word == "counter" {
        Some(Kind::Counter)
    } else if word == "updown" {
        Some(Kind::UpDown)
    } else if word == "gauge" {
        Some(Kind::Gauge)
    } else if word == "histogram" {
        Some(Kind::Histogram)
    } else {
        None
    }
}

/// The kind that a view asks for, `*` for any.
#[tactic(auto, unfolding(crate::specs::Shapes::kind_asked))]
pub(crate) fn kind_asked(word: &str) -> Option<Option<Kind>>
    ensures { result ≡ kind_asked word.now }
{
    if word == "*" {
        Some(None)
    } else {
        Some(Some(kind(word)?))
    }
}

/// The name that a view asks for, `*` for any.
#[tactic(auto, unfolding(crate::specs::Shapes::name_rule))]
pub(crate) fn name_rule(alloc: Global, word: &str) -> Result<NameRule, NoMemory>
    ensures { IfOk result (λ rule. rule ≡ name_rule word.now) }
{
    if word == "*" {
        Ok(NameRule::Every)
    } else {
        Ok(NameRule::Exact(text(alloc, word)?))
    }
}

/// Numbers between commas, or none.
#[tactic(auto, unfolding(crate::specs::Shapes::bounds_of))]
fn bounds(alloc: Global, word: &str) -> Result<Option<Seq<i64>>, NoMemory>
    ensures { IfOk result (λ found. found ≡ bounds_of word.now) }
{
    let mut bounds = Vec::new(alloc);
    if word.is_empty() {
        return Ok(Some(Seq::from_vec(bounds)));
    }
    let pieces = split_at_commas(alloc, word)?;
    for piece in &pieces {
        match i64_of(piece) {
            None => return Ok(None),
            Some(bound) => bounds.push(bound)?,
        }
    }
    Ok(Some(Seq::from_vec(bounds)))
}

#[tactic(auto, unfolding(crate::specs::Shapes::buckets_of))]
fn buckets(alloc: Global, name: &str, rest: &str) -> Result<Option<Aggregation>, NoMemory>
    ensures { IfOk result (λ found. found ≡ buckets_of (name.now, rest.now)) }
{
    if name != "buckets" {
        return Ok(None);
    }
    match bounds(alloc, rest)? {
        None => Ok(None),
        Some(bounds) => Ok(Some(Aggregation::Buckets(bounds))),
    }
}

#[tactic(auto, unfolding(crate::specs::Shapes::plain_aggregation))]
fn plain_aggregation(word: &str) -> Option<Aggregation>
    ensures { result ≡ plain_aggregation word.now }
{
    if word == "default" {
        Some(Aggregation::Default)
    } else if word == "sum" {
        Some(Aggregation::Sum)
    } else if word == "last" {
        Some(Aggregation::LastValue)
    } else if word == "drop" {
        Some(Aggregation::Drop)
    } else {
        None
    }
}

/// What a view makes of recordings.
#[tactic(auto, unfolding(crate::specs::Shapes::aggregation_of))]
pub(crate) fn aggregation(alloc: Global, word: &str) -> Result<Option<Aggregation>, NoMemory>
    ensures { IfOk result (λ found. found ≡ aggregation_of word.now) }
{
    match cut_at_colon(word) {
        Some((name, rest)) => buckets(alloc, name, rest),
        None => Ok(plain_aggregation(word)),
    }
}

#[tactic(auto, unfolding(crate::specs::Shapes::histogram_of))]
fn histogram(alloc: Global, name: &str, rest: &str) -> Result<Option<Shape>, NoMemory>
    ensures { IfOk result (λ found. found ≡ histogram_of (name.now, rest.now)) }
{
    if name != "hist" {
        return Ok(None);
    }
    match bounds(alloc, rest)? {
        None => Ok(None),
        Some(bounds) => Ok(Some(Shape::Histogram { bounds })),
    }
}

fn default_bounds(alloc: Global) -> Result<Seq<i64>, NoMemory>
    ensures { IfOk result (λ bounds. bounds ≡ default_bounds) }
{
    Ok(Seq::from_vec(Vec::from_slice(alloc, &DEFAULT_BOUNDS)?))
}

#[tactic(auto, unfolding(crate::specs::Shapes::plain_shape))]
fn plain_shape(alloc: Global, word: &str) -> Result<Option<Shape>, NoMemory>
    ensures { IfOk result (λ found. found ≡ plain_shape word.now) }
{
    if word == "sum+" {
        Ok(Some(Shape::Sum { monotonic: true }))
    } else if word == "sum" {
        Ok(Some(Shape::Sum { monotonic: false }))
    } else if word == "gauge" {
        Ok(Some(Shape::Gauge))
    } else if word == "hist" {
        let bounds = default_bounds(alloc)?;
        Ok(Some(Shape::Histogram { bounds }))
    } else {
        Ok(None)
    }
}

/// The shape that a report asks for.
#[tactic(auto, unfolding(crate::specs::Shapes::shape_of))]
pub(crate) fn shape(alloc: Global, word: &str) -> Result<Option<Shape>, NoMemory>
    ensures { IfOk result (λ found. found ≡ shape_of word.now) }
{
    match cut_at_colon(word) {
        Some((name, rest)) => histogram(alloc, name, rest),
        None => plain_shape(alloc, word),
    }
}

/// What scripts call the shape of a kind's instruments, where a word is that of such a kind.
#[tactic(auto, unfolding(crate::specs::Shapes::script_name))]
pub(crate) fn script_name(kind: &str) -> Option<&'static str>
    ensures { option_map (λ name. name.now) result ≡ script_name kind.now }
{
    if kind == "counter" {
        Some("sum+")
    } else if kind == "updown" {
        Some("sum")
    } else if kind == "histogram" {
        Some("hist")
    } else {
        None
    }
}

/// What stands before the colon of a word, or the whole word.
pub(crate) fn before_colon(word: &str) -> &str
    ensures { result.now ≡ before_colon word.now (cut 58 word.now) }
{
    match cut_at_colon(word) {
        Some((name, _)) => name,
        None => word,
    }
}

/// A shape's word as scripts have it, in two parts. Where others call a shape by its kind, as `counter`, `updown`, `histogram`, or
/// `histogram:` and bounds, it is the word of scripts, else the word itself.
#[tactic(auto, unfolding(crate::specs::Shapes::script_shape))]
pub fn script_shape(word: &str) -> (&str, &str)
    ensures { result.0.now ++ result.1.now ≡ script_shape word.now }
{
    match cut_at_colon(word) {
        Some((name, bounds)) => {
            if name == "histogram" {
                ("hist:", bounds)
            } else {
                (word, "")
            }
        }
        None => match script_name(word) {
            Some(name) => (name, ""),
            None => (word, ""),
        },
    }
}

fn are_filled(pieces: &[&str]) -> bool
    ensures { result ≡ list_all is_filled (map (λ w. w.now) pieces.now) }
{
    pieces.iter().all(|piece| !piece.is_empty())
}

fn texts(alloc: Global, pieces: &[&str]) -> Result<Vec<Txt>, NoMemory>
    ensures { IfOk result (λ texts. texts.items ≡ map (λ w. w.now) pieces.now) }
{
    let mut texts = Vec::with_capacity(alloc, pieces.len())?;
    for piece in pieces {
        texts.push(text(alloc, piece)?)?;
    }
    Ok(texts)
}

/// Which keys are kept: `*` for all, `-` for none, else those listed, none empty.
#[tactic(auto, unfolding(crate::specs::Shapes::keep_of))]
pub(crate) fn keep(alloc: Global, word: &str) -> Result<Option<Keep>, NoMemory>
    ensures { IfOk result (λ found. found ≡ keep_of word.now) }
{
    if word == "*" {
        return Ok(Some(Keep::All));
    }
    if word == "-" {
        return Ok(Some(Keep::Only(AllowList::empty(alloc))));
    }
    let pieces = split_at_commas(alloc, word)?;
    if !are_filled(&pieces) {
        return Ok(None);
    }
    let keys = AllowList::from_keys(texts(alloc, &pieces)?)?;
    Ok(Some(Keep::Only(keys)))
}
