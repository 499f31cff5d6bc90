//! Exports as text.
ghost use Rattle.std.specs.Prelude.{◌≡◌, ◌∷◌, [], IfOk};
ghost use Rattle.test_kit.specs.Texts.{table_of, tables_of};

use attr_kit::{NoMemory, Txt};
use gateway_kit::Gateway;
use point_kit::Export;
use rollup_kit::{Ask, rollup, table};
use std::alloc::Global;

/// The table that a gateway answers which took these exports and nothing else: in whichever order, and how often it took
/// them, it is this one. O(points, sorted), and the size of the text.
pub fn table_of(alloc: Global, exports: &[Export], ask: &Ask) -> Result<Txt, NoMemory>
    ensures value { IfOk result (λ text. text ≡ table_of ask.now exports.now) }
{
    let mut gateway = Gateway::new(alloc, 1);
    for export in exports {
        gateway.take(export)?;
    }
    let rows = rollup(alloc, &gateway, ask)?;
    table(alloc, rows.as_slice())
}

// The table of one export.
fn table_alone(alloc: Global, export: &Export, ask: &Ask) -> Result<Txt, NoMemory>
    ensures { IfOk result (λ text. text ≡ table_of ask.now (export.now ∷ [])) }
{
    let mut gateway = Gateway::new(alloc, 1);
    gateway.take(export)?;
    let rows = rollup(alloc, &gateway, ask)?;
    table(alloc, rows.as_slice())
}

/// The table of each export by itself, one behind the other: what an exporter was handed, in order. A round of a writer is
/// read by a copy of it (`Round::copy_out`). O(points, sorted), and the size of the text.
pub fn tables_of(alloc: Global, exports: &[Export], ask: &Ask) -> Result<Txt, NoMemory>
    ensures value { IfOk result (λ text. text ≡ tables_of ask.now exports.now) }
{
    let mut text = String::new(alloc);
    for export in exports {
        text.push_str(table_alone(alloc, export, ask)?.as_str())?;
    }
    Ok(Txt::from_string(text))
}
