//! Calls of attribute sets, and texts of data that no script prints.
use crate::start::{id, pairs, route, set};
use crate::telling::{call_begins, call_ends, tell_made};
use attr_kit::{AttrFault, AttrSet, NoMemory, Txt};
use point_kit::ExportFault;

fn from_pairs(rt: &HostRuntime) -> anyhow::Result<()> {
    let mut twice = pairs(rt.alloc(), 1)?;
    twice.extend(pairs(rt.alloc(), 2)?)?;
    call_begins(rt);
    let answer = AttrSet::from_pairs(twice);
    call_ends(rt);
    tell_made(rt, answer)
}

fn kept_call(rt: &HostRuntime) -> anyhow::Result<()> {
    let set = set(rt.alloc(), 1)?;
    let keep = route(rt.alloc())?;
    call_begins(rt);
    let answer = set.kept(&keep);
    call_ends(rt);
    tell_made(rt, answer)
}

fn copy_call(rt: &HostRuntime) -> anyhow::Result<()> {
    let set = set(rt.alloc(), 1)?;
    call_begins(rt);
    let answer = set.try_copy();
    call_ends(rt);
    tell_made(rt, answer)
}

fn texts(rt: &HostRuntime) -> anyhow::Result<()> {
    println!(rt; "{}; {NoMemory}", AttrFault::EmptyKey(1))?;
    println!(rt; "{}", ExportFault::KeyTwice(2))?;
    let text = Txt::from_str(rt.alloc(), "shop")?;
    println!(rt; "{text:?}; {:?}", text.short())?;
    println!(rt; "{}", id(rt.alloc(), 1)?.instance_number())?;
    Ok(())
}

/// Makes a call of an attribute set, if this is the name of one.
pub fn make_call(rt: &HostRuntime, call: &str) -> anyhow::Result<bool> {
    match call {
        "AttrSet::from_pairs" => from_pairs(rt)?,
        "AttrSet::kept" => kept_call(rt)?,
        "AttrSet::try_copy" => copy_call(rt)?,
        "texts" => texts(rt)?,
        _ => return Ok(false),
    }
    Ok(true)
}
