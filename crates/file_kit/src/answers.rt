//! What files answer.
ghost use Rattle.std.specs.Option.{option_map};
ghost use Rattle.std.specs.Prelude.{All, map, IfErr, IfOk, OnOk, string_bytes};
ghost use Rattle.file_kit.specs.Answers.{AreOthers, IsPage, IsReport};
ghost use Rattle.file_kit.specs.Contents.{HasContent, IsRefused};

use crate::{FileFault, kept};
use archive_kit::SCOPE;
use attr_kit::{NoMemory, Txt};
use gateway_kit::Gateway;
use indexmap::IndexSet;
use page_kit::{openmetrics, prometheus};
use point_kit::Stream;
use rollup_kit::{Ask, rollup, streams_of, table};
use std::alloc::Global;

/// The format of a page.
#[derive(Clone, Copy, Debug, PartialEq, Eq)]
pub enum PageFormat {
    /// Prometheus' text format 0.0.4.
    Prometheus,
    /// OpenMetrics 1.0.
    OpenMetrics,
}

/// A table, and where nothing has a point of the stream that it is of, all streams of which there are points.
#[derive(Debug, Drop)]
pub struct Reported {
    pub table: Txt,
    pub others: Option<IndexSet<Stream>>,
}

// The streams of which a gateway holds points, unless one of them is asked for.
fn others(
    alloc: Global,
    gateway: &Gateway,
    asked: &Stream,
) -> Result<Option<IndexSet<Stream>>, NoMemory>
    ensures { IfOk result (λ others. AreOthers gateway.now.points asked.now (option_map (λ s. s.keys) others)) }
{
    let streams = streams_of(alloc, gateway)?;
    if streams.contains(asked) {
        Ok(None)
    } else {
        Ok(Some(streams))
    }
}

/// The table of what files show: that of `rollup_kit`, as a line `report` of a script prints it. Where no file shows a point of the
/// stream that is asked for, the streams that they do show are told besides.
///
/// Refused as [`kept`] refuses, at its cost and that of `rollup`, `table` and `streams_of`.
pub fn report(alloc: Global, ask: &Ask, files: &[Vec<u8>]) -> Result<Reported, FileFault>
    ensures value { IfOk result (IsReport ask.now (map (λ f. f.items) files.now)) }
    // Each file that is none is refused.
    ensures whole { OnOk result (All HasContent (map (λ f. f.items) files.now)) }
    ensures err { IfErr result (IsRefused (map (λ f. f.items) files.now)) }
{
    let keeper = kept(alloc, files)?;
    let shown = keeper.gateway();
    let rows = rollup(alloc, shown, ask)?;
    let table = table(alloc, rows.as_slice())?;
    let others = others(alloc, shown, &ask.stream)?;
    Ok(Reported { table, others })
}

/// The page of what files show, but for tombstones: that of `page_kit`, of a service where one is given, else of all.
///
/// Refused as [`kept`] refuses, at its cost and that of `prometheus` or `openmetrics`.
pub fn expose(
    alloc: Global,
    format: PageFormat,
    service: Option<&str>,
    files: &[Vec<u8>],
) -> Result<String, FileFault>
    ensures value { IfOk result (λ text. IsPage format (option_map (λ s. s.now) service.entry) (map (λ f. f.items) files.now)
        (string_bytes text)) }
    ensures whole { OnOk result (All HasContent (map (λ f. f.items) files.now)) }
    ensures err { IfErr result (IsRefused (map (λ f. f.items) files.now)) }
{
    let keeper = kept(alloc, files)?;
    let gateway = keeper.gateway();
    let but = Some(SCOPE);
    let page = match format {
        PageFormat::Prometheus => prometheus(alloc, gateway, service, but)?,
        PageFormat::OpenMetrics => openmetrics(alloc, gateway, service, but)?,
    };
    Ok(page)
}
