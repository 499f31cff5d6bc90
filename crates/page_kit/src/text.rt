//! The lines of a page.
ghost use Rattle.std.specs.Prelude.{◌≡◌, ◌++◌, ◌∷◌, [], IfOk, OnOk, string_bytes};
ghost use Rattle.std.specs.List.{join_by};
ghost use Rattle.page_kit.specs.Labels.{separator};
ghost use Rattle.page_kit.specs.Lines.{escape, escaped, label_text, labels_text, sample, total_of, type_line, has_unit_line, unit_line, has_quotes, help_line, metadata, in_brackets, help_of};
ghost use Rattle.page_kit.specs.Views.{Appends};

use crate::labels::Label;
use crate::metric::{Kind, Metric, ends_with_unit};
use attr_kit::NoMemory;
use std::alloc::{AllocError, Global};

/// The format of a page.
#[derive(Clone, Copy, PartialEq, Eq)]
pub(crate) enum Format {
    /// OpenMetrics 1.0.
    OpenMetrics,
    /// Prometheus' text format 0.0.4.
    Prometheus,
}

impl Format {
    // What lines of metadata call a family behind its name: by its samples' name where Prometheus has a counter.
    fn total(self, kind: Kind) -> &'static str
        ensures { result.now ≡ total_of self kind }
    {
        match (self, kind) {
            (Format::Prometheus, Kind::Counter) => "_total",
            _ => "",
        }
    }

    // Whether quotes are escaped in a help.
    fn has_quotes(self) -> bool
        ensures { result ≡ has_quotes self }
    {
        match self {
            Format::OpenMetrics => true,
            Format::Prometheus => false,
        }
    }
}

// Adds a character: a backslash and a line feed as two, and a quote where it is to be.
#[tactic(auto, unfolding(crate::specs::Lines::escape))]
fn push_escaped(text: &mut String, c: char, quotes: bool) -> Result<(), AllocError>
    ensures { OnOk result (Appends text.old text.new (escape quotes c)) }
{
    if c == '\\' {
        text.push_str("\\\\")
    } else if c == '\n' {
        text.push_str("\\n")
    } else if c == '"' && quotes {
        text.push_str("\\\"")
    } else {
        text.push(c)
    }
}

#[tactic(auto, unfolding(crate::specs::Lines::escaped))]
fn push_all_escaped(text: &mut String, plain: &str, quotes: bool) -> Result<(), AllocError>
    ensures { OnOk result (Appends text.old text.new (escaped quotes plain.now)) }
{
    for c in plain.chars() {
        push_escaped(text, c, quotes)?;
    }
    Ok(())
}

#[tactic(auto, unfolding(crate::specs::Lines::label_text))]
fn push_label(text: &mut String, label: &Label) -> Result<(), AllocError>
    ensures { OnOk result (Appends text.old text.new (label_text label.now)) }
{
    text.push_str(label.name.as_str())?;
    text.push_str("=\"")?;
    push_all_escaped(text, label.value.as_str(), true)?;
    text.push('"')
}

// What stands before the label at this place.
fn separator(place: usize) -> &'static str
    ensures { result.now ≡ separator (44 ∷ []) place }
{
    if place == 0 { "" } else { "," }
}

// Adds labels with a comma between each two.
fn push_joined(text: &mut String, labels: &[Label]) -> Result<(), AllocError>
    ensures { OnOk result (Appends text.old text.new (join_by label_text (44 ∷ []) labels.now)) }
{
    for (place, label) in labels.iter().enumerate() {
        text.push_str(separator(place))?;
        push_label(text, label)?;
    }
    Ok(())
}

#[tactic(auto, unfolding(crate::specs::Lines::labels_text))]
fn push_labels(text: &mut String, labels: &[Label]) -> Result<(), AllocError>
    ensures { OnOk result (Appends text.old text.new (labels_text labels.now)) }
{
    if labels.is_empty() {
        return Ok(());
    }
    text.push('{')?;
    push_joined(text, labels)?;
    text.push('}')
}

/// Adds a sample: a family's name and what ends the sample's, its labels and its number.
#[tactic(auto, unfolding(crate::specs::Lines::sample))]
pub(crate) fn push_sample(
    text: &mut String,
    name: &str,
    ending: &str,
    labels: &[Label],
    number: &str,
) -> Result<(), AllocError>
    ensures { OnOk result (Appends text.old text.new (sample (name.now ++ ending.now) labels.now number.now)) }
{
    text.push_str(name)?;
    text.push_str(ending)?;
    push_labels(text, labels)?;
    text.push(' ')?;
    text.push_str(number)?;
    text.push('\n')
}

#[tactic(auto, unfolding(crate::specs::Lines::type_line))]
fn push_type(text: &mut String, format: Format, name: &str, kind: Kind) -> Result<(), AllocError>
    ensures { OnOk result (Appends text.old text.new (type_line format name.now kind)) }
{
    text.push_str("# TYPE ")?;
    text.push_str(name)?;
    text.push_str(format.total(kind))?;
    text.push(' ')?;
    text.push_str(kind.family_type())?;
    text.push('\n')
}

// Whether a family has the line of a unit.
fn has_unit_line(alloc: Global, format: Format, name: &str, unit: &str) -> Result<bool, NoMemory>
    ensures { IfOk result (λ has. has ≡ has_unit_line format name.now unit.now) }
{
    match format {
        Format::OpenMetrics => ends_with_unit(alloc, name, unit),
        Format::Prometheus => Ok(false),
    }
}

#[tactic(auto, unfolding(crate::specs::Lines::unit_line))]
fn push_unit(
    text: &mut String,
    alloc: Global,
    format: Format,
    name: &str,
    unit: &str,
) -> Result<(), NoMemory>
    ensures { OnOk result (Appends text.old text.new (unit_line format name.now unit.now)) }
{
    if !has_unit_line(alloc, format, name, unit)? {
        return Ok(());
    }
    text.push_str("# UNIT ")?;
    text.push_str(name)?;
    text.push(' ')?;
    text.push_str(unit)?;
    text.push('\n')?;
    Ok(())
}

#[tactic(auto, unfolding(crate::specs::Lines::help_line))]
fn push_help(
    text: &mut String,
    format: Format,
    name: &str,
    kind: Kind,
    help: &str,
) -> Result<(), AllocError>
    ensures { OnOk result (Appends text.old text.new (help_line format name.now kind help.now)) }
{
    text.push_str("# HELP ")?;
    text.push_str(name)?;
    text.push_str(format.total(kind))?;
    text.push(' ')?;
    push_all_escaped(text, help, format.has_quotes())?;
    text.push('\n')
}

/// What the lines before a family's samples tell.
#[derive(Clone, Copy)]
pub(crate) struct Head<'a> {
    pub(crate) name: &'a str,
    pub(crate) kind: Kind,
    pub(crate) unit: &'a str,
    pub(crate) help: &'a str,
}

/// Adds the lines before a family's samples.
#[tactic(auto, unfolding(crate::specs::Lines::metadata))]
pub(crate) fn push_metadata(
    text: &mut String,
    alloc: Global,
    format: Format,
    head: Head<'_>,
) -> Result<(), NoMemory>
    ensures { OnOk result (Appends text.old text.new
        (metadata format head.entry.name.now head.entry.kind head.entry.unit.now head.entry.help.now)) }
{
    push_type(text, format, head.name, head.kind)?;
    push_unit(text, alloc, format, head.name, head.unit)?;
    push_help(text, format, head.name, head.kind, head.help)?;
    Ok(())
}

// Adds a unit in brackets, if there is one.
fn push_brackets(text: &mut String, unit: &str) -> Result<(), AllocError>
    ensures { OnOk result (Appends text.old text.new (in_brackets unit.now)) }
{
    if unit.is_empty() {
        return Ok(());
    }
    text.push_str(" (")?;
    text.push_str(unit)?;
    text.push(')')
}

/// What a family's help says: the name of its metric, and its unit where it has one.
#[tactic(auto, unfolding(crate::specs::Lines::help_of))]
pub(crate) fn help_of(alloc: Global, metric: &Metric) -> Result<String, NoMemory>
    ensures { IfOk result (λ help. string_bytes help ≡ help_of metric.now) }
{
    let mut help = String::from_str(alloc, metric.name.as_str())?;
    push_brackets(&mut help, metric.unit.as_str())?;
    Ok(help)
}
