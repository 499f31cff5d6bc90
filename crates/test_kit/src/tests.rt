//! A service's pushes over an exporter that fails when told, read as text.
ghost use Rattle.std.specs.Prelude.{◌≡◌, ◌+◌, ◌<◌, ◌≤◌, IfOk, OnOk};

use super::*;
use attr_kit::{AttrSet, NoMemory};
use bumpalo::Bump;
use plan_kit::{Kind, NameRule};
use point_kit::Shape;
use push_kit::{Exporter, Periodic, Tick, TickFault};
use rollup_kit::Ask;
use std::alloc::Global;
use std::test::Fail;
use writer_kit::Pace;

// A reader of a counter, each 10 ns from 10 on, over an exporter that is told to refuse at these calls.
fn reading<'a>(alloc: Global, calls: &'a [u64]) -> Result<Periodic<FailingExporter<'a>>, Fail>
    ensures { IfOk result (λ p. p.exporter.failures ≡ 0) }
{
    let counter = counter(alloc, "app", "requests", "1")?;
    let writer = writer(alloc, "shop", 1, counter, 0)?;
    let exporter = FailingExporter::at(alloc, calls);
    Ok(Periodic::new(alloc, writer, exporter, Pace::new(10, 10)))
}

// All that it counts.
fn ask_requests(alloc: Global) -> Result<Ask, NoMemory> {
    ask(
        alloc,
        "app",
        "requests",
        "1",
        Shape::Sum { monotonic: true },
    )
}

// The helpers below borrow the reader: it is dropped at the exits of the test alone, and each exit that drops costs proof.

// Records 1 and then ticks: whether the exporter took it.
fn is_taken(
    reader: &mut Periodic<FailingExporter<'_>>,
    alloc: Global,
    now: u64,
) -> Result<bool, Fail>
    requires { reader.old.exporter.failures < 18446744073709551615 }
    ensures { OnOk result (reader.new.exporter.failures ≤ reader.old.exporter.failures + 1) }
{
    reader.measure(0, &AttrSet::empty(alloc), 1)?;
    match reader.tick(&Bump::new(alloc), now) {
        Ok(tick) => Ok(tick == Tick::Exported(1)),
        Err(TickFault::ExportRefused) => Ok(false),
        Err(fault) => Err(Fail::from(fault)),
    }
}

// What the exporter was handed at the first and the third tick, and then what a gateway answers of both.
const FIRST_AND_THIRD: &str = "\
attributes  points  conflicts  total
{}               1          0  1
attributes  points  conflicts  total
{}               1          0  3
";

const BOTH: &str = "\
attributes  points  conflicts  total
{}               1          0  3
";

// Whether an exporter that is told to refuse its second call gets all that was lost there by its third.
fn covers_a_lost_one(
    reader: &mut Periodic<FailingExporter<'_>>,
    alloc: Global,
) -> Result<bool, Fail>
    requires { reader.old.exporter.failures ≡ 0 }
{
    let first = is_taken(reader, alloc, 10)?;
    let second = is_taken(reader, alloc, 20)?;
    let third = is_taken(reader, alloc, 30)?;
    let ask = ask_requests(alloc)?;
    let exporter = reader.exporter();
    let each = tables_of(alloc, exporter.copies(), &ask)?;
    let all = table_of(alloc, exporter.copies(), &ask)?;
    let is_told = each.as_str() == FIRST_AND_THIRD && all.as_str() == BOTH;
    Ok(is_told && (first, second, third) == (true, false, true) && exporter.failures() == 1)
}

#[test]
fn the_next_collection_covers_a_lost_one(rt: HostRuntime) -> Result<(), Fail> {
    let mut reader = reading(rt.alloc(), &[2])?;
    assert!(rt; covers_a_lost_one(&mut reader, rt.alloc())?);
    Ok(())
}

// A view is made for the name of a gauge.
#[test]
fn builders_make_what_they_are_told(rt: HostRuntime) -> Result<(), Fail> {
    let gauge = instrument(rt.alloc(), Kind::Gauge, "app", "queue", "1")?;
    let named = view(rt.alloc(), "queue")?;
    assert!(rt; gauge.kind == Kind::Gauge && named.name == NameRule::Exact(gauge.name));
    Ok(())
}
