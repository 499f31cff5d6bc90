//! The rows of a family.
ghost use Rattle.std.specs.Prelude.{◌≡◌, List, IfOk, OnOk};
ghost use Rattle.std.specs.List.{flat_map};
ghost use Rattle.page_kit.specs.Bounds.{AreBounds, HaveBounds};
ghost use Rattle.page_kit.specs.Lines.{metadata, help_of};
ghost use Rattle.page_kit.specs.Metrics.{unit_of};
ghost use Rattle.page_kit.specs.Rows.{gauge, row_bounds, row, rows, named_text, family_text};
ghost use Rattle.page_kit.specs.Totals.{KeyedCell};
ghost use Rattle.page_kit.specs.Views.{Appends, HasBoundsOf, row_of, cells, cell_lists};

use crate::bounds::bounds_of_services;
use crate::groups::{list_of, put};
use crate::histograms::{push_histogram, push_sum};
use crate::labels::{Label, row_labels};
use crate::metric::{Kind, Metric};
use crate::text::{Format, Head, help_of, push_metadata, push_sample};
use crate::totals::{has_conflict, newest_of};
use attr_kit::{NoMemory, Seq, Txt};
use gateway_kit::PointRef;
use std::alloc::Global;
use std::collections::BTreeMap;

// The points by the labels of their rows.
#[tactic(auto, unfolding(crate::specs::Rows::rows))]
fn rows_of<'a>(
    alloc: Global,
    points: &[PointRef<'a>],
) -> Result<Vec<(Seq<Label>, Vec<PointRef<'a>>)>, NoMemory>
    ensures { IfOk result (λ list. cell_lists list.items ≡ rows (cells points.now)) }
{
    let mut groups = BTreeMap::new(alloc);
    for point in points {
        let labels = row_labels(alloc, *point)?;
        put(alloc, &mut groups, labels, *point)?;
    }
    list_of(alloc, groups)
}

// The bounds of the services of a metric's points, where its kind asks for some.
fn bounds_for(
    alloc: Global,
    kind: Kind,
    points: &[PointRef],
) -> Result<BTreeMap<Txt, Vec<i64>>, NoMemory>
    ensures { IfOk result (λ services. HaveBounds kind (λ v. v.items) (cells points.now) services.entries) }
{
    match kind {
        Kind::Histogram => bounds_of_services(alloc, points),
        Kind::Updown | Kind::Counter | Kind::Gauge => Ok(BTreeMap::new(alloc)),
    }
}

fn push_gauge(
    text: &mut String,
    alloc: Global,
    name: &str,
    labels: &[Label],
    newest: Option<i64>,
) -> Result<(), NoMemory>
    ensures { OnOk result (Appends text.old text.new (gauge name.now labels.now newest)) }
{
    if let Some(value) = newest {
        let number = format!(in alloc; "{value}")?;
        push_sample(text, name, "", labels, number.as_str())?;
    }
    Ok(())
}

// The bounds of a row: those of its service.
fn bounds_of_row<'a>(services: &'a BTreeMap<Txt, Vec<i64>>, points: &[PointRef]) -> &'a [i64]
    ensures { (all : List KeyedCell) → AreBounds (λ v. v.items) all services.entry.now.entries
        → result.now ≡ row_bounds all (cells points.now) }
{
    let Some(point) = points.first() else {
        return &[];
    };
    match services.get(&point.writer.service) {
        Some(bounds) => bounds.as_slice(),
        None => &[],
    }
}

// What the samples of a row are of.
#[derive(Clone, Copy)]
struct Family<'a> {
    name: &'a str,
    kind: Kind,
    bounds: &'a BTreeMap<Txt, Vec<i64>>,
}

// A row of a family; one in which some key holds a conflict is not shown.
#[tactic(auto, unfolding(crate::specs::Rows::row))]
fn push_row(
    text: &mut String,
    alloc: Global,
    family: Family<'_>,
    labels: &[Label],
    points: &[PointRef],
) -> Result<(), NoMemory>
    ensures { OnOk result ((all : List KeyedCell) → HasBoundsOf all family.entry
        → Appends text.old text.new (row_of family.entry all (labels.now, cells points.now))) }
{
    if has_conflict(points) {
        return Ok(());
    }
    match family.kind {
        Kind::Updown => push_sum(text, alloc, family.name, "", labels, points),
        Kind::Counter => push_sum(text, alloc, family.name, "_total", labels, points),
        Kind::Gauge => push_gauge(text, alloc, family.name, labels, newest_of(points)),
        Kind::Histogram => {
            let bounds = bounds_of_row(family.bounds, points);
            push_histogram(text, alloc, family.name, labels, bounds, points)
        }
    }
}

fn push_rows(
    text: &mut String,
    alloc: Global,
    family: Family<'_>,
    rows: &[(Seq<Label>, Vec<PointRef<'_>>)],
) -> Result<(), NoMemory>
    ensures { OnOk result ((all : List KeyedCell) → HasBoundsOf all family.entry
        → Appends text.old text.new (flat_map (λ r. row_of family.entry all (r.0, cells r.1.items)) rows.now)) }
{
    for (labels, points) in rows {
        push_row(text, alloc, family, labels.as_slice(), points.as_slice())?;
    }
    Ok(())
}

// Adds a family's metadata.
fn push_head(
    text: &mut String,
    alloc: Global,
    format: Format,
    metric: &Metric,
    name: &str,
) -> Result<(), NoMemory>
    ensures { OnOk result (Appends text.old text.new (metadata format name.now metric.now.kind (unit_of metric.now) (help_of metric.now))) }
{
    let unit = metric.unit_name(alloc)?;
    let help = help_of(alloc, metric)?;
    let head = Head {
        name,
        kind: metric.kind,
        unit: unit.as_str(),
        help: help.as_str(),
    };
    push_metadata(text, alloc, format, head)
}

// A family of this name: its metadata and its rows.
fn push_named(
    text: &mut String,
    alloc: Global,
    format: Format,
    metric: &Metric,
    name: &str,
    points: &[PointRef],
) -> Result<(), NoMemory>
    ensures { OnOk result (Appends text.old text.new (named_text format name.now (metric.now, cells points.now))) }
{
    let bounds = bounds_for(alloc, metric.kind, points)?;
    let rows = rows_of(alloc, points)?;
    push_head(text, alloc, format, metric, name)?;
    let family = Family {
        name,
        kind: metric.kind,
        bounds: &bounds,
    };
    push_rows(text, alloc, family, rows.as_slice())
}

/// The family of a metric.
#[tactic(auto, unfolding(crate::specs::Rows::family_text))]
pub(crate) fn push_family(
    text: &mut String,
    alloc: Global,
    format: Format,
    metric: &Metric,
    points: &[PointRef],
) -> Result<(), NoMemory>
    ensures { OnOk result (Appends text.old text.new (family_text format (metric.now, cells points.now))) }
{
    let name = metric.family(alloc)?;
    push_named(text, alloc, format, metric, name.as_str(), points)
}
