//! Metrics: names with a unit and a kind, whatever their scopes, services and bounds.
ghost use Rattle.std.specs.Prelude.{◌≡◌, ◌++◌, ◌∷◌, [], map, IfOk, OnOk, string_bytes};
ghost use Rattle.page_kit.specs.Metrics.{kind_of, metric_of, kind_name, family_type, without_total, stem, unit_of, has_words, family, ends_with_unit, endings, claims};

use crate::names::{has_part, led, line, without_suffix};
use crate::units::unit_name;
use attr_kit::{NoMemory, Txt};
use point_kit::{Shape, Stream};
use std::alloc::Global;

/// The kind of a metric.
#[derive(Clone, Copy, PartialEq, Eq, PartialOrd, Ord)]
pub(crate) enum Kind {
    /// A sum that may fall.
    Updown,
    /// A sum that only rises.
    Counter,
    Gauge,
    Histogram,
}

impl Kind {
    pub(crate) fn of(shape: &Shape) -> Kind
        ensures { result ≡ kind_of shape.now }
    {
        match shape {
            Shape::Sum { monotonic: false } => Kind::Updown,
            Shape::Sum { monotonic: true } => Kind::Counter,
            Shape::Gauge => Kind::Gauge,
            Shape::Histogram { .. } => Kind::Histogram,
        }
    }

    pub(crate) fn name(self) -> &'static str
        ensures { result.now ≡ kind_name self }
    {
        match self {
            Kind::Updown => "updown",
            Kind::Counter => "counter",
            Kind::Gauge => "gauge",
            Kind::Histogram => "histogram",
        }
    }

    /// The type of the family.
    pub(crate) fn family_type(self) -> &'static str
        ensures { result.now ≡ family_type self }
    {
        match self {
            Kind::Updown | Kind::Gauge => "gauge",
            Kind::Counter => "counter",
            Kind::Histogram => "histogram",
        }
    }
}

/// What a family is of. Ordered by its parts from left to right.
#[derive(PartialEq, Eq, PartialOrd, Ord, Drop)]
pub(crate) struct Metric {
    pub(crate) name: Txt,
    pub(crate) unit: Txt,
    pub(crate) kind: Kind,
}

// A text with another behind it.
fn joined(alloc: Global, front: &str, back: &str) -> Result<String, NoMemory>
    ensures { IfOk result (λ text. string_bytes text ≡ front.now ++ back.now) }
{
    let mut text = String::from_str(alloc, front)?;
    text.push_str(back)?;
    Ok(text)
}

// A text between two `_`.
fn underlined(alloc: Global, text: &str) -> Result<String, NoMemory>
    ensures { IfOk result (λ between. string_bytes between ≡ 95 ∷ text.now ++ 95 ∷ []) }
{
    let mut between = String::from_str(alloc, "_")?;
    between.push_str(text)?;
    between.push('_')?;
    Ok(between)
}

// Whether words stand in a name, with a `_` or an end of it at either side.
#[tactic(auto, unfolding(crate::specs::Metrics::has_words))]
fn has_words(alloc: Global, name: &str, words: &str) -> Result<bool, NoMemory>
    ensures { IfOk result (λ has. has ≡ has_words words.now name.now) }
{
    let name = underlined(alloc, name)?;
    let words = underlined(alloc, words)?;
    Ok(has_part(name.as_bytes(), words.as_bytes()))
}

/// Whether a family's name ends with a unit.
#[tactic(auto, unfolding(crate::specs::Metrics::ends_with_unit))]
pub(crate) fn ends_with_unit(alloc: Global, name: &str, unit: &str) -> Result<bool, NoMemory>
    ensures { IfOk result (λ ends. ends ≡ ends_with_unit name.now unit.now) }
{
    if unit.is_empty() {
        return Ok(false);
    }
    let ending = joined(alloc, "_", unit)?;
    Ok(name.as_bytes().ends_with(ending.as_bytes()))
}

// Adds a name that a family claims.
fn push_claim(
    alloc: Global,
    claims: &mut Vec<Txt>,
    family: &str,
    ending: &str,
) -> Result<(), NoMemory>
    ensures { OnOk result (claims.new.items ≡ claims.old.items ++ (family.now ++ ending.now) ∷ []) }
{
    let claim = Txt::from_string(joined(alloc, family, ending)?);
    claims.push(claim)?;
    Ok(())
}

impl Metric {
    pub(crate) fn of(stream: &Stream) -> Result<Metric, NoMemory>
        ensures { IfOk result (λ metric. metric ≡ metric_of stream.now) }
    {
        Ok(Metric {
            name: stream.name.try_copy()?,
            unit: stream.unit.try_copy()?,
            kind: Kind::of(&stream.shape),
        })
    }

    pub(crate) fn try_copy(&self) -> Result<Metric, NoMemory>
        ensures { IfOk result (λ copy. copy ≡ self.now) }
    {
        Ok(Metric {
            name: self.name.try_copy()?,
            unit: self.unit.try_copy()?,
            kind: self.kind,
        })
    }

    // A name of its family's, without the ending that its samples have.
    fn without_total<'a>(&self, name: &'a str) -> &'a str
        ensures { result.now ≡ without_total self.now.kind name.now }
    {
        match self.kind {
            Kind::Counter => without_suffix(name, "_total"),
            Kind::Updown | Kind::Gauge | Kind::Histogram => name,
        }
    }

    // The name of its family, but for the unit.
    #[tactic(auto, unfolding(crate::specs::Metrics::stem))]
    fn stem(&self, alloc: Global) -> Result<String, NoMemory>
        ensures { IfOk result (λ text. string_bytes text ≡ stem self.now) }
    {
        let name = line(alloc, self.name.as_str().as_bytes())?;
        let name = led(alloc, "metric", name.as_str())?;
        let base = without_suffix(name.as_str(), "_");
        Ok(String::from_str(alloc, self.without_total(base))?)
    }

    /// The name of its unit.
    pub(crate) fn unit_name(&self, alloc: Global) -> Result<String, NoMemory>
        ensures { IfOk result (λ text. string_bytes text ≡ unit_of self.now) }
    {
        unit_name(alloc, self.unit.as_str(), self.kind)
    }

    /// The name of its family: its own, and that of its unit unless it has it.
    #[tactic(auto, unfolding(crate::specs::Metrics::family, crate::specs::Metrics::with_unit))]
    pub(crate) fn family(&self, alloc: Global) -> Result<String, NoMemory>
        ensures { IfOk result (λ text. string_bytes text ≡ family self.now) }
    {
        let mut name = self.stem(alloc)?;
        let unit = self.unit_name(alloc)?;
        if unit.is_empty() {
            return Ok(name);
        }
        if has_words(alloc, name.as_str(), unit.as_str())? {
            return Ok(name);
        }
        name.push('_')?;
        name.push_str(unit.as_str())?;
        Ok(name)
    }

    /// The names that it claims.
    pub(crate) fn claims(&self, alloc: Global) -> Result<Vec<Txt>, NoMemory>
        ensures { IfOk result (λ all. all.items ≡ claims self.now) }
    {
        let family = self.family(alloc)?;
        let mut claims = Vec::new(alloc);
        for ending in self.kind.endings() {
            push_claim(alloc, &mut claims, family.as_str(), *ending)?;
        }
        Ok(claims)
    }
}

impl Kind {
    // What the names that a metric claims end with, behind its family's.
    fn endings(self) -> &'static [&'static str]
        ensures { map (λ ending. ending.now) result.now ≡ endings self }
    {
        match self {
            Kind::Updown | Kind::Gauge => &[""],
            Kind::Counter => &["", "_total", "_created"],
            Kind::Histogram => &["", "_bucket", "_count", "_created", "_sum"],
        }
    }
}
