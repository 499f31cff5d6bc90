//! An archive at work: what its exports have, and each refusal.
use super::builders::{
    Row, begun, both_adopted, held_sizes, made, taken, told, worker, workers, writer,
};
use crate::{AdoptFault, Archive, ExportRefusal, Keeper, SealRefusal};
use attr_kit::{AttrSet, AttrValue, NoMemory};
use point_kit::{ExportPoint, Payload, WriterId};
use std::alloc::Global;
use std::test::Fail;

// Whether the totals are those of both workers.
fn are_of_both(alloc: Global, points: &[ExportPoint]) -> Result<bool, NoMemory> {
    let [requests, sizes, _, _] = points else {
        return Ok(false);
    };
    let both = held_sizes(alloc, 6, 40, [2, 4])?;
    Ok(requests.payload == Payload::Sum(13) && sizes.payload == both)
}

#[test]
fn adopted_incarnations_are_added_up(rt: HostRuntime) -> Result<(), Fail> {
    let made = made(rt.alloc(), 2000)?;
    assert!(rt; are_of_both(rt.alloc(), made.points())?);
    Ok(())
}

// Whether a text stands under a key.
fn has_text(attrs: &AttrSet, key: &str, told: &str) -> bool {
    match attrs.get(key) {
        Some(AttrValue::Text(text)) => text.as_str() == told,
        _ => false,
    }
}

// Whether a point tells an incarnation of the shop that began at 100 and was adopted as it was at a time.
fn tells(point: &ExportPoint, time: i64, instance: &str) -> bool {
    point.payload == Payload::Gauge(time)
        && point.attrs.get("start") == Some(&AttrValue::Whole(100))
        && has_text(&point.attrs, "service", "shop")
        && has_text(&point.attrs, "instance", instance)
}

fn tell_both(points: &[ExportPoint]) -> bool {
    match points {
        [_, _, first, second] => {
            tells(first, 200, "00000000-0000-0000-0000-000000000001")
                && tells(second, 300, "00000000-0000-0000-0000-000000000002")
        }
        _ => false,
    }
}

#[test]
fn tombstones_tell_incarnations(rt: HostRuntime) -> Result<(), Fail> {
    let made = made(rt.alloc(), 2000)?;
    assert!(rt; tell_both(made.points()));
    Ok(())
}

// How many points an archive exports.
fn exported_len(archive: &mut Archive, time: u64) -> Result<usize, ExportRefusal> {
    Ok(archive.export(time)?.points().len())
}

// Whether an archive with two adoptions exports before it is sealed, and later each time.
fn exports_first(archive: &mut Archive) -> bool {
    archive.adopted_len() == 2
        && archive.seal(3000) == Err(SealRefusal::Unexported)
        && exported_len(archive, 2000) == Ok(4)
        && exported_len(archive, 2000) == Err(ExportRefusal::TimeNotLater)
        && archive.seal(2000) == Err(SealRefusal::StartNotLater)
}

// Whether it has nothing to export once it is sealed.
fn begins_anew(archive: &mut Archive) -> bool {
    archive.seal(3000).is_ok()
        && archive.start() == 3000
        && archive.adopted_len() == 0
        && exported_len(archive, 4000) == Ok(0)
}

#[test]
fn a_sealed_archive_begins_anew(rt: HostRuntime) -> Result<(), Fail> {
    let mut archive = both_adopted(rt.alloc())?;
    assert!(rt; exports_first(&mut archive) && begins_anew(&mut archive));
    Ok(())
}

// What is to come of an adoption: of which service, instance and start.
type Trial = (&'static str, u128, u64, Option<AdoptFault>);

// What an archive answers where it is to adopt an incarnation.
fn fault(
    archive: &mut Archive,
    keeper: &Keeper,
    writer: WriterId,
    start: u64,
) -> Option<AdoptFault> {
    archive.adopt(keeper, &writer, start).err()
}

// Whether these come, one after the other.
fn come(
    alloc: Global,
    archive: &mut Archive,
    keeper: &Keeper,
    trials: &[Trial],
) -> Result<bool, NoMemory> {
    for (service, instance, start, want) in trials {
        let writer = writer(alloc, service, *instance)?;
        if fault(archive, keeper, writer, *start) != *want {
            return Ok(false);
        }
    }
    Ok(true)
}

// A keeper that holds an incarnation to adopt, one of a great total, one with a conflict, and one of two times.
fn mixed(alloc: Global) -> Result<Keeper, Fail> {
    let later = Row {
        all: false,
        ..worker(4, 201, 6)
    };
    let rows = [
        worker(1, 200, 5),
        worker(2, 200, i64::MAX),
        worker(3, 200, 5),
        worker(3, 200, 6),
        worker(4, 200, 5),
        later,
    ];
    told(alloc, &rows)
}

// Whether the first refusals come, each where none before it fits.
fn come_early(alloc: Global, keeper: &Keeper) -> Result<bool, Fail> {
    let mut archive = begun(alloc, 9, 2)?;
    let trials = [
        ("till", 1, 100, Some(AdoptFault::OtherService)),
        ("shop", 9, 1000, Some(AdoptFault::IsArchive)),
        ("shop", 1, 101, Some(AdoptFault::Nothing)),
        ("shop", 3, 100, Some(AdoptFault::Conflict)),
        ("shop", 4, 100, Some(AdoptFault::Torn)),
    ];
    Ok(come(alloc, &mut archive, keeper, &trials)?)
}

#[test]
fn what_cannot_be_adopted_is_refused(rt: HostRuntime) -> Result<(), Fail> {
    let keeper = mixed(rt.alloc())?;
    assert!(rt; come_early(rt.alloc(), &keeper)?);
    Ok(())
}

// Whether the last ones come, and after them.
fn come_late(alloc: Global, keeper: &Keeper) -> Result<bool, Fail> {
    let mut archive = begun(alloc, 9, 2)?;
    let trials = [
        ("shop", 1, 100, None),
        ("shop", 1, 100, Some(AdoptFault::Adopted)),
        ("shop", 2, 100, Some(AdoptFault::OutOfRange)),
    ];
    Ok(come(alloc, &mut archive, keeper, &trials)?)
}

// Whether a second total is too much for an archive of one.
fn is_too_much(alloc: Global, keeper: &Keeper) -> Result<bool, Fail> {
    let mut archive = begun(alloc, 8, 1)?;
    let trials = [("shop", 1, 100, Some(AdoptFault::SetLimit))];
    Ok(come(alloc, &mut archive, keeper, &trials)?)
}

#[test]
fn what_was_adopted_and_what_is_too_much_is_refused(rt: HostRuntime) -> Result<(), Fail> {
    let keeper = mixed(rt.alloc())?;
    assert!(rt; come_late(rt.alloc(), &keeper)? && is_too_much(rt.alloc(), &keeper)?);
    Ok(())
}

// Whether another archive refuses the first one.
fn is_refused(alloc: Global, keeper: &Keeper) -> Result<bool, Fail> {
    let mut archive = begun(alloc, 8, 10)?;
    let trials = [("shop", 9, 1000, Some(AdoptFault::IsArchive))];
    Ok(come(alloc, &mut archive, keeper, &trials)?)
}

#[test]
fn archives_are_not_adopted(rt: HostRuntime) -> Result<(), Fail> {
    let keeper = taken(rt.alloc(), made(rt.alloc(), 2000)?)?;
    assert!(rt; is_refused(rt.alloc(), &keeper)?);
    Ok(())
}

// Whether a fresh archive finds nothing of what another one adopted, once its export came to the keeper.
fn is_gone(alloc: Global, keeper: &mut Keeper) -> Result<bool, Fail> {
    keeper.take(&made(alloc, 2000)?)?;
    let mut archive = begun(alloc, 8, 10)?;
    let trials = [("shop", 1, 100, Some(AdoptFault::Nothing))];
    Ok(come(alloc, &mut archive, keeper, &trials)?)
}

#[test]
fn what_has_a_tombstone_is_not_adopted_again(rt: HostRuntime) -> Result<(), Fail> {
    let mut keeper = told(rt.alloc(), &workers())?;
    assert!(rt; is_gone(rt.alloc(), &mut keeper)?);
    Ok(())
}
