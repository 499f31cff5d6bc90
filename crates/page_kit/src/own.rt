//! The families of the kit's own, which tell what a page leaves out.
ghost use Rattle.std.specs.Prelude.{◌≡◌, ◌+◌, ◌/◌, ◌%◌, ◌<◌, ◌∷◌, [], length, codes, IfOk, OnOk, string_bytes};
ghost use Rattle.std.specs.Fmt.{decimal};
ghost use Rattle.std.specs.List.{flat_map};
ghost use Rattle.page_kit.specs.Groups.{put};
ghost use Rattle.page_kit.specs.Labels.{conflict_labels};
ghost use Rattle.page_kit.specs.Families.{own_names};
ghost use Rattle.page_kit.specs.Lines.{sample, metadata};
ghost use Rattle.page_kit.specs.Page.{conflict_rows, service_rows, left_out_rows, conflicts_text, keys_text, left_out_text, seconds, newest_text, own_text};
ghost use Rattle.page_kit.specs.Totals.{is_conflict, latest};
ghost use Rattle.page_kit.specs.Views.{Appends, with_conflict, lists, cells, cell_lists, all_measured};

use crate::families::Measured;
use crate::groups::{list_of, put};
use crate::labels::{Label, conflict_labels, metric_labels, service_labels};
use crate::metric::Kind;
use crate::text::{Format, Head, push_metadata, push_sample};
use crate::totals::{is_conflict, latest_of};
use attr_kit::{NoMemory, Seq, Txt};
use gateway_kit::PointRef;
use std::alloc::Global;
use std::collections::BTreeMap;

/// The names of these families.
pub(crate) fn own_names(alloc: Global) -> Result<Vec<Txt>, NoMemory>
    ensures { IfOk result (λ names. names.items ≡ own_names) }
{
    let mut names = Vec::new(alloc);
    names.push(Txt::from_str(alloc, "kotskhin_conflicts")?)?;
    names.push(Txt::from_str(alloc, "kotskhin_keys")?)?;
    names.push(Txt::from_str(alloc, "kotskhin_left_out")?)?;
    names.push(Txt::from_str(alloc, "kotskhin_newest_seconds")?)?;
    Ok(names)
}

// Adds the metadata of a gauge.
fn push_head(
    text: &mut String,
    alloc: Global,
    format: Format,
    name: &str,
    unit: &str,
    help: &str,
) -> Result<(), NoMemory>
    ensures { OnOk result (Appends text.old text.new (metadata format name.now Kind.Gauge unit.now help.now)) }
{
    let head = Head {
        name,
        kind: Kind::Gauge,
        unit,
        help,
    };
    push_metadata(text, alloc, format, head)
}

fn push_number(
    text: &mut String,
    alloc: Global,
    name: &str,
    labels: &[Label],
    number: usize,
) -> Result<(), NoMemory>
    ensures { OnOk result (Appends text.old text.new (sample name.now labels.now (decimal number))) }
{
    let number = format!(in alloc; "{number}")?;
    push_sample(text, name, "", labels, number.as_str())?;
    Ok(())
}

// Puts a point to those of its labels, if it holds a conflict.
fn put_conflict<'a>(
    alloc: Global,
    groups: &mut BTreeMap<Seq<Label>, Vec<PointRef<'a>>>,
    point: PointRef<'a>,
) -> Result<(), NoMemory>
    ensures { OnOk result (lists groups.new.entries ≡ with_conflict (lists groups.old.entries) point.entry) }
{
    if !is_conflict(point) {
        return Ok(());
    }
    let labels = conflict_labels(alloc, point)?;
    put(alloc, groups, labels, point)
}

// The points that hold a conflict, by their labels.
fn conflicts_of<'a>(
    alloc: Global,
    points: &[PointRef<'a>],
) -> Result<Vec<(Seq<Label>, Vec<PointRef<'a>>)>, NoMemory>
    ensures { IfOk result (λ list. cell_lists list.items ≡ conflict_rows (cells points.now)) }
{
    let mut groups = BTreeMap::new(alloc);
    for point in points {
        put_conflict(alloc, &mut groups, *point)?;
    }
    list_of(alloc, groups)
}

// How many keys hold a conflict, in each row.
fn push_lengths(
    text: &mut String,
    alloc: Global,
    rows: &[(Seq<Label>, Vec<PointRef<'_>>)],
) -> Result<(), NoMemory>
    ensures { OnOk result (Appends text.old text.new
        (flat_map (λ g. sample (codes "kotskhin_conflicts") g.0 (decimal (length g.1.items))) rows.now)) }
{
    for (labels, points) in rows {
        push_number(
            text,
            alloc,
            "kotskhin_conflicts",
            labels.as_slice(),
            points.as_slice().len(),
        )?;
    }
    Ok(())
}

#[tactic(auto, unfolding(crate::specs::Page::conflicts_text))]
fn push_conflicts(
    text: &mut String,
    alloc: Global,
    format: Format,
    points: &[PointRef],
) -> Result<(), NoMemory>
    ensures { OnOk result (Appends text.old text.new (conflicts_text format (cells points.now))) }
{
    let rows = conflicts_of(alloc, points)?;
    push_head(
        text,
        alloc,
        format,
        "kotskhin_conflicts",
        "",
        "Keys that hold a conflict. A row that has one is not shown.",
    )?;
    push_lengths(text, alloc, rows.as_slice())
}

#[tactic(auto, unfolding(crate::specs::Page::keys_text))]
fn push_keys(
    text: &mut String,
    alloc: Global,
    format: Format,
    points: &[PointRef],
) -> Result<(), NoMemory>
    ensures { OnOk result (Appends text.old text.new (keys_text format (cells points.now))) }
{
    push_head(
        text,
        alloc,
        format,
        "kotskhin_keys",
        "",
        "Keys that are held.",
    )?;
    push_number(text, alloc, "kotskhin_keys", &[], points.len())
}

// How many keys each metric has, by the labels that tell it.
fn lengths_of(
    alloc: Global,
    metrics: &[Measured],
) -> Result<Vec<(Seq<Label>, Vec<usize>)>, NoMemory>
    ensures { IfOk result (λ list. lists list.items
        ≡ left_out_rows (all_measured metrics.now)) }
{
    let mut groups = BTreeMap::new(alloc);
    for measured in metrics {
        let labels = metric_labels(alloc, &measured.metric)?;
        put(alloc, &mut groups, labels, measured.points.as_slice().len())?;
    }
    list_of(alloc, groups)
}

fn push_numbers(
    text: &mut String,
    alloc: Global,
    name: &str,
    labels: &[Label],
    numbers: &[usize],
) -> Result<(), NoMemory>
    ensures { OnOk result (Appends text.old text.new (flat_map (λ n. sample name.now labels.now (decimal n)) numbers.now)) }
{
    for number in numbers {
        push_number(text, alloc, name, labels, *number)?;
    }
    Ok(())
}

fn push_all_numbers(
    text: &mut String,
    alloc: Global,
    name: &str,
    rows: &[(Seq<Label>, Vec<usize>)],
) -> Result<(), NoMemory>
    ensures { OnOk result (Appends text.old text.new (flat_map (λ g. flat_map (λ n. sample name.now g.0 (decimal n)) g.1.items) rows.now)) }
{
    for (labels, numbers) in rows {
        push_numbers(text, alloc, name, labels.as_slice(), numbers.as_slice())?;
    }
    Ok(())
}

#[tactic(auto, unfolding(crate::specs::Page::left_out_text))]
fn push_left_out(
    text: &mut String,
    alloc: Global,
    format: Format,
    hidden: &[Measured],
) -> Result<(), NoMemory>
    ensures { OnOk result (Appends text.old text.new (left_out_text format (all_measured hidden.now))) }
{
    let rows = lengths_of(alloc, hidden)?;
    push_head(
        text,
        alloc,
        format,
        "kotskhin_left_out",
        "",
        "Keys of metrics that are not shown, since another metric has one of their names.",
    )?;
    push_all_numbers(text, alloc, "kotskhin_left_out", rows.as_slice())
}

// Adds the digit of a number whose place counts so much.
fn push_digit(text: &mut String, number: u64, unit: u64) -> Result<(), NoMemory>
    requires { 0 < unit }
    ensures { OnOk result (Appends text.old text.new ((48 + number / unit % 10) ∷ [])) }
{
    let digit = (number / unit % 10) as u8;
    text.push((b'0' + digit) as char)?;
    Ok(())
}

// Nanoseconds as seconds.
#[tactic(auto, unfolding(crate::specs::Page::seconds))]
fn seconds(alloc: Global, time: u64) -> Result<String, NoMemory>
    ensures { IfOk result (λ text. string_bytes text ≡ seconds time) }
{
    let whole = time / 1000000000;
    let mut text = format!(in alloc; "{whole}.")?;
    push_digit(&mut text, time, 100000000)?;
    push_digit(&mut text, time, 10000000)?;
    push_digit(&mut text, time, 1000000)?;
    push_digit(&mut text, time, 100000)?;
    push_digit(&mut text, time, 10000)?;
    push_digit(&mut text, time, 1000)?;
    push_digit(&mut text, time, 100)?;
    push_digit(&mut text, time, 10)?;
    push_digit(&mut text, time, 1)?;
    Ok(text)
}

// The points by the labels of their services.
fn served<'a>(
    alloc: Global,
    points: &[PointRef<'a>],
) -> Result<Vec<(Seq<Label>, Vec<PointRef<'a>>)>, NoMemory>
    ensures { IfOk result (λ list. cell_lists list.items
        ≡ service_rows (cells points.now)) }
{
    let mut groups = BTreeMap::new(alloc);
    for point in points {
        let labels = service_labels(alloc, *point)?;
        put(alloc, &mut groups, labels, *point)?;
    }
    list_of(alloc, groups)
}

fn push_times(
    text: &mut String,
    alloc: Global,
    name: &str,
    rows: &[(Seq<Label>, Vec<PointRef<'_>>)],
) -> Result<(), NoMemory>
    ensures { OnOk result (Appends text.old text.new (flat_map (λ g. sample name.now g.0 (seconds (latest (cells g.1.items)))) rows.now)) }
{
    for (labels, points) in rows {
        let number = seconds(alloc, latest_of(points.as_slice()))?;
        push_sample(text, name, "", labels.as_slice(), number.as_str())?;
    }
    Ok(())
}

#[tactic(auto, unfolding(crate::specs::Page::newest_text))]
fn push_newest(
    text: &mut String,
    alloc: Global,
    format: Format,
    points: &[PointRef],
) -> Result<(), NoMemory>
    ensures { OnOk result (Appends text.old text.new (newest_text format (cells points.now))) }
{
    let rows = served(alloc, points)?;
    push_head(
        text,
        alloc,
        format,
        "kotskhin_newest_seconds",
        "seconds",
        "Time of the newest point of a service, since the Unix epoch.",
    )?;
    push_times(text, alloc, "kotskhin_newest_seconds", rows.as_slice())
}

/// The families of the kit's own.
#[tactic(auto, unfolding(crate::specs::Page::own_text))]
pub(crate) fn push_own(
    text: &mut String,
    alloc: Global,
    format: Format,
    points: &[PointRef],
    hidden: &[Measured],
) -> Result<(), NoMemory>
    ensures { OnOk result (Appends text.old text.new (own_text format (cells points.now) (all_measured hidden.now))) }
{
    push_conflicts(text, alloc, format, points)?;
    push_keys(text, alloc, format, points)?;
    push_left_out(text, alloc, format, hidden)?;
    push_newest(text, alloc, format, points)
}
