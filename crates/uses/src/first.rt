//! The first script as a program: a counter, two recordings, a collection, a gateway, and the table that it answers.
//!
//! It is the beginning of a service of one's own: copied, the file is the root of a program. README says how.
ghost use Rattle.std.specs.Prelude.{◌≡◌, [], OnOk, pos};
ghost use Rattle.agg_kit.specs.Entries.{entry_of};
ghost use Rattle.recorder_kit.specs.Log.{ByName};
ghost use Rattle.writer_kit.specs.Recording.{after_record};

use attr_kit::{AttrSet, Keep, NoMemory, Seq, Txt};
use bumpalo::Bump;
use gateway_kit::Gateway;
use plan_kit::{DEFAULT_LIMIT, Instrument, Kind, Plan};
use point_kit::{Shape, Stream, WriterId};
use rollup_kit::{Ask, rollup, table};
use std::alloc::Global;
use uuid::Uuid;
use writer_kit::{MeasureFault, Writer};

// What is measured: a counter, without views.
fn plan(alloc: Global) -> anyhow::Result<Plan> {
    let mut instruments = Vec::new(alloc);
    instruments.push(Instrument {
        scope: Txt::from_str(alloc, "app")?,
        name: Txt::from_str(alloc, "requests")?,
        unit: Txt::from_str(alloc, "1")?,
        kind: Kind::Counter,
    })?;
    let instruments = Seq::from_vec(instruments);
    Ok(Plan::build(alloc, instruments, Seq::new(alloc), DEFAULT_LIMIT)?)
}

// Who measures it.
fn id(alloc: Global) -> Result<WriterId, NoMemory> {
    Ok(WriterId {
        service: Txt::from_str(alloc, "shop")?,
        instance: Uuid::from_u128(1),
    })
}

// What the gateway is asked: all points of that counter, with a row for each set of attributes.
fn ask(alloc: Global) -> Result<Ask, NoMemory> {
    Ok(Ask {
        stream: Stream {
            scope: Txt::from_str(alloc, "app")?,
            name: Txt::from_str(alloc, "requests")?,
            unit: Txt::from_str(alloc, "1")?,
            shape: Shape::Sum { monotonic: true },
        },
        service: None,
        only: Seq::new(alloc),
        keep: Keep::All,
    })
}

// What the service does: it counts three requests, and four.
fn serve(alloc: Global, writer: &mut Writer) -> Result<(), MeasureFault>
    ensures { OnOk result
        (writer.new ≡ after_record (after_record writer.old (ByName (entry_of 0 [] (pos 3)))) (ByName (entry_of 0 [] (pos 4)))) }
{
    let none = AttrSet::empty(alloc);
    writer.measure(0, &none, 3)?;
    writer.measure(0, &none, 4)
}

// The table that a gateway answers which took what the service counted.
fn first_table(alloc: Global) -> anyhow::Result<Txt> {
    let mut writer = Writer::start(alloc, id(alloc)?, plan(alloc)?, 100)?;
    serve(alloc, &mut writer)?;
    let arena = Bump::new(alloc);
    let round = writer.collect(&arena, 200)?;
    let export = round.copy_out(alloc, writer.id())?;
    let mut gateway = Gateway::new(alloc, 1);
    gateway.take(&export)?;
    let rows = rollup(alloc, &gateway, &ask(alloc)?)?;
    Ok(table(alloc, rows.as_slice())?)
}

/// Prints that table.
pub fn main(rt: HostRuntime) -> anyhow::Result<()> {
    let table = first_table(rt.alloc())?;
    print!(rt; "{}", table.as_str())?;
    Ok(())
}

#[cfg(test)]
mod tests {
    use super::first_table;

    #[test]
    fn it_counts_seven_requests(rt: HostRuntime) -> anyhow::Result<()> {
        let table = first_table(rt.alloc())?;
        assert_eq!(rt;
            table.as_str(),
            "attributes  points  conflicts  total\n{}               1          0  7\n"
        );
        Ok(())
    }
}
