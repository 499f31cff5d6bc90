//! Pages.
ghost use Rattle.std.specs.Prelude.{◌≡◌, [], ◌∷◌, ◌++◌, if◌then◌else◌, IfOk, OnOk, string_bytes};
ghost use Rattle.std.specs.List.{flat_map};
ghost use Rattle.std.specs.Option.{option_map};
ghost use Rattle.gateway_kit.specs.Walks.{keyed_cell_of_ref, points_left};
ghost use Rattle.page_kit.specs.Page.{last_line, asked_cells, is_left_in, left_in, page};
ghost use Rattle.page_kit.specs.Rows.{family_text};
ghost use Rattle.page_kit.specs.Pages.{openmetrics_page, prometheus_page};
ghost use Rattle.page_kit.specs.Views.{Appends, cells, all_measured};

use crate::families::{Measured, families_of};
use crate::own::push_own;
use crate::rows::push_family;
use crate::text::Format;
use attr_kit::NoMemory;
use gateway_kit::{Gateway, PointRef, Points};
use std::alloc::{AllocError, Global};

fn asked_points<'a>(gateway: &'a Gateway, service: Option<&'a str>) -> Points<'a>
    ensures { points_left result ≡ asked_cells (option_map (λ s. s.now) service.entry) gateway.entry.now.points }
{
    match service {
        Some(service) => gateway.points_of(service),
        None => gateway.points(),
    }
}

// Whether a point is left in: its scope is not the one that is left out.
fn is_left_in(but: Option<&str>, point: PointRef) -> bool
    ensures { result ≡ is_left_in (option_map (λ s. s.now) but.entry) (keyed_cell_of_ref point.entry).0 }
{
    match but {
        Some(scope) => point.stream.scope.as_str() != scope,
        None => true,
    }
}

// Puts a point behind others, if it is left in.
fn push_left_in<'a>(
    list: &mut Vec<PointRef<'a>>,
    but: Option<&str>,
    point: PointRef<'a>,
) -> Result<(), NoMemory>
    ensures { OnOk result (list.new.items ≡ (if is_left_in (option_map (λ s. s.now) but.entry) (keyed_cell_of_ref point.entry).0
        then list.old.items ++ point.entry ∷ [] else list.old.items)) }
{
    if !is_left_in(but, point) {
        return Ok(());
    }
    list.push(point)?;
    Ok(())
}

fn list_of<'a>(
    alloc: Global,
    points: Points<'a>,
    but: Option<&str>,
) -> Result<Vec<PointRef<'a>>, NoMemory>
    ensures { IfOk result (λ list. cells list.items ≡ left_in (option_map (λ s. s.now) but.entry) (points_left points.entry)) }
{
    let mut list = Vec::new(alloc);
    for point in points {
        push_left_in(&mut list, but, point)?;
    }
    Ok(list)
}

fn push_families(
    text: &mut String,
    alloc: Global,
    format: Format,
    families: &[Measured],
) -> Result<(), NoMemory>
    ensures { OnOk result (Appends text.old text.new (flat_map (family_text format) (all_measured families.now))) }
{
    for measured in families {
        push_family(
            text,
            alloc,
            format,
            &measured.metric,
            measured.points.as_slice(),
        )?;
    }
    Ok(())
}

fn push_end(text: &mut String, format: Format) -> Result<(), AllocError>
    ensures { OnOk result (Appends text.old text.new (last_line format)) }
{
    match format {
        Format::OpenMetrics => text.push_str("# EOF\n"),
        Format::Prometheus => Ok(()),
    }
}

// The page of these points.
#[tactic(auto, unfolding(crate::specs::Page::page))]
fn page(alloc: Global, format: Format, points: &[PointRef]) -> Result<String, NoMemory>
    ensures { IfOk result (λ text. string_bytes text ≡ page format (cells points.now)) }
{
    let families = families_of(alloc, points)?;
    let mut text = String::new(alloc);
    push_families(&mut text, alloc, format, families.shown.as_slice())?;
    push_own(&mut text, alloc, format, points, families.hidden.as_slice())?;
    push_end(&mut text, format)?;
    Ok(text)
}

/// The page of a gateway's points in OpenMetrics 1.0: of a service where one is given, else of all, and without those of the scope
/// `but` where one is given, as that of an archive's tombstones. It is the answer to a request that accepts
/// `application/openmetrics-text`, with `Content-Type: application/openmetrics-text; version=1.0.0; charset=utf-8`.
///
/// A metric is a name, a unit and a kind, and has a family: its name and its unit as Prometheus wants them. Keys of a metric whose
/// labels are equal are one row, over all writers and incarnations: sums add up, of gauges the newest counts, and histograms add up
/// at the bounds that all keys of the metric and the service have. A row in which some key holds a conflict is not shown, and of
/// metrics that claim one name only the one whose incarnation is the youngest. Four families of the kit's own tell how many keys
/// the page is of, which of these it does not show, and when each service's newest one came. So they count nothing of the scope
/// `but`, and nothing of other services. Totals have all their digits, and no value is converted.
///
/// O(n log n) comparisons of labels for n points; of a histogram's row each shared bound is compared with each bound of its
/// points. Takes memory for the text, and for the labels of each point. `NoMemory` comes only where a growth was refused.
pub fn openmetrics(
    alloc: Global,
    gateway: &Gateway,
    service: Option<&str>,
    but: Option<&str>,
) -> Result<String, NoMemory>
    ensures value { IfOk result (λ text. string_bytes text ≡ openmetrics_page (left_in (option_map (λ s. s.now) but.entry)
        (asked_cells (option_map (λ s. s.now) service.entry) gateway.now.points))) }
{
    let points = list_of(alloc, asked_points(gateway, service), but)?;
    page(alloc, Format::OpenMetrics, points.as_slice())
}

/// The same page in Prometheus' text format 0.0.4, with `Content-Type: text/plain; version=0.0.4; charset=utf-8`: for all other
/// requests, for a Pushgateway, and for files. Samples, labels, numbers and their order are the same. It has no `# UNIT` and no
/// `# EOF`, lines of a counter's metadata name its samples, and quotes in a help stay as they are.
pub fn prometheus(
    alloc: Global,
    gateway: &Gateway,
    service: Option<&str>,
    but: Option<&str>,
) -> Result<String, NoMemory>
    ensures value { IfOk result (λ text. string_bytes text ≡ prometheus_page (left_in (option_map (λ s. s.now) but.entry)
        (asked_cells (option_map (λ s. s.now) service.entry) gateway.now.points))) }
{
    let points = list_of(alloc, asked_points(gateway, service), but)?;
    page(alloc, Format::Prometheus, points.as_slice())
}
