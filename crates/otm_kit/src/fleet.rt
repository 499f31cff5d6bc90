//! The totals of a fleet.
ghost use Rattle.std.specs.Prelude.{◌≡◌, ◌≢◌, ◌≤◌, ℕ, IfOk, IsErrOf, OnErr, OnOk, string_bytes};
ghost use Rattle.std.specs.Io.KnownBytes.{Appends, Keeps};
ghost use Rattle.std.specs.List.{flat_map};
ghost use Rattle.fleet_kit.specs.declared.fault.FleetFault.{FleetFault};
ghost use Rattle.fleet_kit.specs.declared.fault.FleetFault.TheVariants as faults;
ghost use Rattle.fleet_kit.specs.declared.setup.FleetSetup.{FleetSetup};
ghost use Rattle.rollup_kit.specs.Rollups.{rollup_rows};
ghost use Rattle.script_kit.specs.Bytes.{AppendsFront};
ghost use Rattle.otm_kit.specs.Asked.{IsCount};
ghost use Rattle.otm_kit.specs.FleetSetups.{EndsBy, IsFleetSetup, IsToldFault};
ghost use Rattle.otm_kit.specs.FleetTexts.{answer_line, report, sum_in, total_line};

use crate::FleetEnd;
use crate::fleet_setup::{ask, setup};
use attr_kit::NoMemory;
use fleet_kit::{FleetSetup, Open, run_fleet};
use gateway_kit::Gateway;
use rollup_kit::{Ask, Total, rollup};
use script_kit::write_text;
use std::alloc::Global;
use std::io::Write;
use std::sync::Wait;
use std::thread::Threads;

// The sum in the row that a gateway answers, or 0 where it answers none.
fn sum(alloc: Global, gateway: &Gateway, ask: &Ask) -> Result<i128, NoMemory>
    ensures { IfOk result (λ sum. sum ≡ sum_in (rollup_rows ask.now gateway.now.points)) }
{
    let rows = rollup(alloc, gateway, ask)?;
    match rows.as_slice().first() {
        None => Ok(0),
        Some(row) => match &row.total {
            Total::Sum(sum) => Ok(*sum),
            _ => Ok(0),
        },
    }
}

#[tactic(auto, unfolding(crate::specs::FleetTexts::total_line))]
fn line(alloc: Global, id: u32, sum: i128) -> Result<String, NoMemory>
    ensures { IfOk result (λ text. string_bytes text ≡ total_line id sum) }
{
    Ok(format!(in alloc; "gateway {id} total {sum}\n")?)
}

// A line for each gateway.
fn lines(alloc: Global, gateways: &[Gateway], ask: &Ask) -> Result<String, NoMemory>
    ensures { IfOk result (λ text. string_bytes text ≡ flat_map (answer_line ask.now) gateways.now) }
{
    let mut text = String::new(alloc);
    for gateway in gateways {
        let line = line(alloc, gateway.id(), sum(alloc, gateway, ask)?)?;
        text.push_str(line.as_str())?;
    }
    Ok(text)
}

// Runs a fleet to its end, and tells the totals of its gateways.
fn totals_of_run<R: Threads + Wait + Sync>(
    rt: &R,
    alloc: Global,
    setup: FleetSetup,
) -> Result<String, FleetEnd>
    ensures value { IfOk result (λ text. (writers recorders each gateways : ℕ) → IsFleetSetup writers recorders each gateways setup
        → string_bytes text ≡ report writers recorders each gateways) }
    ensures fault { (f : FleetFault) → IsErrOf result (FleetEnd.Fleet f) → EndsBy setup f × (f ≢ faults.NoMemory) }
    ensures unwritten { IsErrOf result FleetEnd.WriteFault → ⊥ }
{
    let gateways = run_fleet(rt, alloc, setup, &Open)?;
    let ask = ask(alloc)?;
    Ok(lines(alloc, gateways.as_slice(), &ask)?)
}

/// Runs a fleet of so many writers, with so many recorder threads each, which make so many recordings of 1 each, and of so
/// many gateways; and writes, after all threads have ended, `gateway G total N` for each gateway in the order of their ids,
/// where N is the sum that the gateway answers. Each line ends with a line feed.
///
/// Where all is done, each total is the number of all recordings. At `WriteFault` a front of that text was written.
///
/// Refuses, by the first thing that failed: [`FleetEnd::Fleet`] with a fault of its setup, or one that came later, other than
/// want of memory, and [`FleetEnd::NoMemory`], both before anything is written; then [`FleetEnd::WriteFault`], also where a write
/// takes no byte.
pub fn fleet_report<R: Threads + Wait + Sync, W: Write>(
    rt: &R,
    alloc: Global,
    writers: u8,
    recorders: u8,
    each: u64,
    gateways: u8,
    writer: &mut W,
) -> Result<(), FleetEnd>
    requires writers { IsCount writers }
    requires recorders { IsCount recorders }
    requires each { each ≤ 1000000 }
    requires gateways { IsCount gateways }
    ensures ok { OnOk result (Appends (W.contents writer.old) (W.contents writer.new) (report writers recorders each gateways)) }
    ensures front { OnErr result (AppendsFront (W.contents writer.old) (W.contents writer.new) (report writers recorders each gateways)) }
    ensures fault { (f : FleetFault) → IsErrOf result (FleetEnd.Fleet f) → IsToldFault writers recorders each gateways f }
    ensures unwritten { (f : FleetFault) → IsErrOf result (FleetEnd.Fleet f) → Keeps (W.contents writer.old) (W.contents writer.new) }
    ensures no_memory { IsErrOf result FleetEnd.NoMemory → Keeps (W.contents writer.old) (W.contents writer.new) }
{
    let setup = setup(rt, alloc, writers, recorders, each, gateways)?;
    let text = totals_of_run(rt, alloc, setup)?;
    match write_text(writer, text.as_bytes()) {
        Ok(()) => Ok(()),
        Err(_) => Err(FleetEnd::WriteFault),
    }
}
