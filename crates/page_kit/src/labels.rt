//! Labels.
ghost use Rattle.std.specs.Prelude.{◌≡◌, ◌++◌, ◌∷◌, [], map, filter, fold, codes, IfOk, OnOk, string_bytes};
ghost use Rattle.gateway_kit.specs.Walks.{keyed_cell_of_ref};
ghost use Rattle.attr_kit.specs.Orders.{text_cmp};
ghost use Rattle.page_kit.specs.Groups.{put};
ghost use Rattle.page_kit.specs.Metrics.{kind_name};
ghost use Rattle.page_kit.specs.Labels.{separator, joined, has_value, labels_of_groups, value_text, is_reserved, label_name, row_labels, service_labels, metric_labels, conflict_labels};
ghost use Rattle.page_kit.specs.Views.{lists};

use crate::groups::put;
use crate::metric::Metric;
use crate::names::{led_string, line};
use attr_kit::{AttrSet, AttrValue, NoMemory, Seq, Txt};
use gateway_kit::PointRef;
use std::alloc::Global;
use std::collections::BTreeMap;

/// A label. Ordered by its name, then by its value.
#[derive(PartialEq, Eq, PartialOrd, Ord, Drop)]
pub(crate) struct Label {
    pub(crate) name: Txt,
    pub(crate) value: Txt,
}

impl Label {
    pub(crate) fn try_copy(&self) -> Result<Label, NoMemory>
        ensures { IfOk result (λ copy. copy ≡ self.now) }
    {
        Ok(Label {
            name: self.name.try_copy()?,
            value: self.value.try_copy()?,
        })
    }
}

// What stands before the text at this place.
fn separator(place: usize) -> &'static str
    ensures { result.now ≡ separator (59 ∷ []) place }
{
    if place == 0 { "" } else { ";" }
}

// Texts with a `;` between each two.
fn joined(alloc: Global, texts: &[Txt]) -> Result<String, NoMemory>
    ensures { IfOk result (λ text. string_bytes text ≡ joined texts.now) }
{
    let mut text = String::new(alloc);
    for (place, part) in texts.iter().enumerate() {
        text.push_str(separator(place))?;
        text.push_str(part.as_str())?;
    }
    Ok(text)
}

// The same as a text: one as it is.
#[tactic(auto, using(crate::proofs::Joined::joined_one))]
fn joined_text(alloc: Global, texts: &[Txt]) -> Result<Txt, NoMemory>
    ensures { IfOk result (λ text. text ≡ joined texts.now) }
{
    match texts {
        [one] => one.try_copy(),
        _ => Ok(Txt::from_string(joined(alloc, texts)?)),
    }
}

// Adds a label, if its text is not empty.
fn push_label(labels: &mut Vec<Label>, name: Txt, value: Txt) -> Result<(), NoMemory>
    ensures { OnOk result (labels.new.items ≡ labels.old.items ++ filter has_value (record { name = name; value = value } ∷ [])) }
{
    if value.as_str().is_empty() {
        return Ok(());
    }
    labels.push(Label { name, value })?;
    Ok(())
}

// The labels of texts by their names: those of one name joined, and none that is empty.
fn labels_of(alloc: Global, texts: BTreeMap<Txt, Vec<Txt>>) -> Result<Seq<Label>, NoMemory>
    ensures { IfOk result (λ labels. labels ≡ labels_of_groups (lists texts.entries)) }
{
    let mut labels = Vec::with_capacity(alloc, texts.len())?;
    for (name, values) in texts {
        let value = joined_text(alloc, values.as_slice())?;
        push_label(&mut labels, name, value)?;
    }
    Ok(Seq::from_vec(labels))
}

fn value_text(alloc: Global, value: &AttrValue) -> Result<Txt, NoMemory>
    ensures { IfOk result (λ text. text ≡ value_text value.now) }
{
    match value {
        AttrValue::Text(text) => text.try_copy(),
        AttrValue::Truth(true) => Txt::from_str(alloc, "true"),
        AttrValue::Truth(false) => Txt::from_str(alloc, "false"),
        AttrValue::Whole(number) => Ok(Txt::from_string(format!(in alloc; "{number}")?)),
    }
}

// Whether a name is one of Prometheus' own, or of the labels beside the attributes.
fn is_reserved(name: &str) -> bool
    ensures { result ≡ is_reserved name.now }
{
    name == "instance"
        || name == "job"
        || name == "le"
        || name == "otel_scope_name"
        || name == "service_name"
}

// The name of the label of an attribute's key.
#[tactic(auto, unfolding(crate::specs::Labels::label_name))]
fn label_name(alloc: Global, key: &str) -> Result<Txt, NoMemory>
    ensures { IfOk result (λ name. name ≡ label_name key.now) }
{
    let name = led_string(alloc, "key", line(alloc, key.as_bytes())?)?;
    if !is_reserved(name.as_str()) {
        return Ok(Txt::from_string(name));
    }
    let mut exported = String::from_str(alloc, "exported_")?;
    exported.push_str(name.as_str())?;
    Ok(Txt::from_string(exported))
}

// Adds a text of a label.
fn add(
    alloc: Global,
    texts: &mut BTreeMap<Txt, Vec<Txt>>,
    name: &str,
    text: &Txt,
) -> Result<(), NoMemory>
    ensures { OnOk result (lists texts.new.entries
        ≡ put text_cmp (lists texts.old.entries) (name.now, text.now)) }
{
    put(alloc, texts, Txt::from_str(alloc, name)?, text.try_copy()?)
}

// Adds the texts of attributes.
fn add_attributes(
    alloc: Global,
    texts: &mut BTreeMap<Txt, Vec<Txt>>,
    attrs: &AttrSet,
) -> Result<(), NoMemory>
    ensures { OnOk result (lists texts.new.entries
        ≡ fold (put text_cmp) (lists texts.old.entries) (map (λ p. (label_name p.0, value_text p.1)) attrs.now)) }
{
    for (key, value) in attrs.pairs() {
        let name = label_name(alloc, key.as_str())?;
        put(alloc, texts, name, value_text(alloc, value)?)?;
    }
    Ok(())
}

/// The labels of a point's service.
#[tactic(auto, unfolding(crate::specs::Labels::service_labels, crate::specs::Labels::labels, crate::specs::Groups::groups))]
pub(crate) fn service_labels(alloc: Global, point: PointRef) -> Result<Seq<Label>, NoMemory>
    ensures { IfOk result (λ labels. labels ≡ service_labels (keyed_cell_of_ref point.entry).0) }
{
    let mut texts = BTreeMap::new(alloc);
    add(alloc, &mut texts, "service_name", &point.writer.service)?;
    labels_of(alloc, texts)
}

/// The labels of a point's row.
#[tactic(auto, unfolding(crate::specs::Labels::row_labels, crate::specs::Labels::labels, crate::specs::Groups::groups))]
pub(crate) fn row_labels(alloc: Global, point: PointRef) -> Result<Seq<Label>, NoMemory>
    ensures { IfOk result (λ labels. labels ≡ row_labels (keyed_cell_of_ref point.entry).0) }
{
    let mut texts = BTreeMap::new(alloc);
    add(alloc, &mut texts, "service_name", &point.writer.service)?;
    add(alloc, &mut texts, "otel_scope_name", &point.stream.scope)?;
    add_attributes(alloc, &mut texts, point.attrs)?;
    labels_of(alloc, texts)
}

// Adds the kind of a metric and its name.
fn add_kind(
    alloc: Global,
    texts: &mut BTreeMap<Txt, Vec<Txt>>,
    metric: &Metric,
) -> Result<(), NoMemory>
    ensures { OnOk result (lists texts.new.entries
        ≡ fold (put text_cmp) (lists texts.old.entries)
        ((codes "kind", kind_name metric.now.kind) ∷ (codes "name", metric.now.name) ∷ [])) }
{
    let kind = Txt::from_str(alloc, metric.kind.name())?;
    add(alloc, texts, "kind", &kind)?;
    add(alloc, texts, "name", &metric.name)
}

/// The labels that tell a metric.
#[tactic(auto, unfolding(crate::specs::Labels::metric_labels, crate::specs::Labels::labels, crate::specs::Groups::groups))]
pub(crate) fn metric_labels(alloc: Global, metric: &Metric) -> Result<Seq<Label>, NoMemory>
    ensures { IfOk result (λ labels. labels ≡ metric_labels metric.now) }
{
    let mut texts = BTreeMap::new(alloc);
    add_kind(alloc, &mut texts, metric)?;
    add(alloc, &mut texts, "unit", &metric.unit)?;
    labels_of(alloc, texts)
}

/// The labels that tell a point's metric, scope and service.
#[tactic(auto, unfolding(crate::specs::Labels::conflict_labels, crate::specs::Labels::labels, crate::specs::Groups::groups))]
pub(crate) fn conflict_labels(alloc: Global, point: PointRef) -> Result<Seq<Label>, NoMemory>
    ensures { IfOk result (λ labels. labels ≡ conflict_labels (keyed_cell_of_ref point.entry).0) }
{
    let metric = Metric::of(point.stream)?;
    let mut texts = BTreeMap::new(alloc);
    add_kind(alloc, &mut texts, &metric)?;
    add(alloc, &mut texts, "otel_scope_name", &point.stream.scope)?;
    add(alloc, &mut texts, "service_name", &point.writer.service)?;
    add(alloc, &mut texts, "unit", &metric.unit)?;
    labels_of(alloc, texts)
}
