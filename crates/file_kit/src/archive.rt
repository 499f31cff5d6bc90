//! An archive of what files show.
ghost use Rattle.std.specs.Prelude.{◌≡◌, ◌≢◌, ◌<◌, All, Err, IfErr, IfOk, Ok, OnOk, map};
ghost use Rattle.gateway_kit.specs.Listing.{held_of_ref};
ghost use Rattle.gateway_kit.specs.Queries.{incarnation_points};
ghost use Rattle.archive_kit.specs.Archive.{is_nothing};
ghost use Rattle.file_kit.specs.Contents.{HasContent};
ghost use Rattle.file_kit.specs.Archiving.{adopt_all, adopt_one, archive_of, begun, is_left_alone, AreExportedAt, IsArchived, IsArchiveOf, IsUnarchived};

use crate::{ArchiveFault, kept};
use archive_kit::{AdoptFault, Archive, Keeper};
use attr_kit::NoMemory;
use bytes_kit::encode_export;
use gateway_kit::{Gateway, IncarnationRef};
use point_kit::WriterId;
use std::alloc::Global;

/// What an archive is begun with, and when it exports: its identity and start, which no other writer has, the time, in nanoseconds
/// since the Unix epoch as the start is, and how many totals it may have.
#[derive(Debug, Drop)]
pub struct Archiving {
    pub writer: WriterId,
    pub start: u64,
    pub time: u64,
    pub limit: u64,
}

// Whether an incarnation that is refused for this is left alone.
fn is_left_alone(fault: AdoptFault) -> bool
    ensures { result ≡ is_left_alone fault }
{
    match fault {
        AdoptFault::OtherService | AdoptFault::IsArchive => true,
        _ => false,
    }
}

// Adopts an incarnation that a keeper holds, or leaves it alone.
fn adopt(
    archive: &mut Archive,
    keeper: &Keeper,
    held: IncarnationRef<'_>,
) -> Result<(), ArchiveFault>
    ensures ok { OnOk result (adopt_one keeper.now.gateway.points archive.old (held_of_ref held.entry) ≡ Ok archive.new) }
    ensures err { IfErr result (λ fault. fault ≢ ArchiveFault.NoMemory
        → adopt_one keeper.now.gateway.points archive.old (held_of_ref held.entry) ≡ Err fault) }
{
    match archive.adopt(keeper, held.writer, held.start) {
        Ok(()) => Ok(()),
        Err(AdoptFault::NoMemory) => Err(ArchiveFault::NoMemory),
        Err(fault) => {
            if is_left_alone(fault) {
                return Ok(());
            }
            Err(ArchiveFault::Unadopted {
                writer: held.writer.try_copy()?,
                start: held.start,
                fault,
            })
        }
    }
}

// Adopts all incarnations that a keeper holds, but for those that are left alone.
fn adopt_all(archive: &mut Archive, keeper: &Keeper) -> Result<(), ArchiveFault>
    ensures ok { OnOk result (adopt_all keeper.now.gateway.points archive.old ≡ Ok archive.new) }
    ensures err { IfErr result (λ fault. fault ≢ ArchiveFault.NoMemory → adopt_all keeper.now.gateway.points archive.old ≡ Err fault) }
{
    for held in keeper.gateway().incarnations() {
        adopt(archive, keeper, held)?;
    }
    Ok(())
}

// The archive that is asked for, before it adopted any.
fn begin(alloc: Global, ask: &Archiving) -> Result<Archive, NoMemory>
    ensures { IfOk result (λ archive. archive ≡ begun ask.now) }
{
    Archive::begin(alloc, ask.writer.try_copy()?, ask.start, ask.limit as usize)
}

// Whether a gateway holds no points of the archive's own incarnation.
fn is_new(ask: &Archiving, gateway: &Gateway) -> bool
    ensures { result ≡ is_nothing (incarnation_points ask.now.writer ask.now.start gateway.now.points) }
{
    gateway.part(&ask.writer, ask.start).is_empty()
}

// The bytes of an archive's export. The time is later than its last, so only memory can be refused.
fn exported(alloc: Global, archive: &mut Archive, time: u64) -> Result<Vec<u8>, NoMemory>
    requires { archive.old.exported < time }
    ensures { IfOk result (λ bytes. AreExportedAt time archive.old bytes.items) }
{
    match archive.export(time) {
        Ok(export) => encode_export(alloc, &export),
        Err(_) => Err(NoMemory),
    }
}

// The bytes of the export of an archive that adopts what a keeper holds.
fn archive_of(alloc: Global, ask: &Archiving, keeper: &Keeper) -> Result<Vec<u8>, ArchiveFault>
    requires { ask.now.start < ask.now.time }
    ensures value { IfOk result (λ bytes. IsArchiveOf ask.now keeper.now.gateway.points bytes.items) }
    ensures err { IfErr result (λ fault. fault ≢ ArchiveFault.NoMemory → archive_of ask.now keeper.now.gateway.points ≡ Err fault) }
{
    if !is_new(ask, keeper.gateway()) {
        return Err(ArchiveFault::Taken);
    }
    let mut archive = begin(alloc, ask)?;
    adopt_all(&mut archive, keeper)?;
    Ok(exported(alloc, &mut archive, ask.time)?)
}

/// The bytes of the export of an archive that adopts what files show: each incarnation of its service that they hold points of and that
/// no tombstone among them names, in the order of their keys. Archives, which have tombstones themselves, are left alone, and so is
/// what has the archive's own instance. All others have ended: that is the caller's word.
///
/// Refused as [`ArchiveFault`] says, each where none before it fits. `NoMemory` comes where memory was refused, and never of a time
/// that is not later. It costs what [`kept`] does, `Archive::adopt` of each incarnation, and `encode_export`.
pub fn archived(alloc: Global, ask: &Archiving, files: &[Vec<u8>]) -> Result<Vec<u8>, ArchiveFault>
    ensures value { IfOk result (λ bytes. IsArchived ask.now (map (λ f. f.items) files.now) bytes.items) }
    ensures whole { OnOk result (All HasContent (map (λ f. f.items) files.now)) }
    ensures err { IfErr result (IsUnarchived ask.now (map (λ f. f.items) files.now)) }
{
    if ask.time <= ask.start {
        return Err(ArchiveFault::TimeNotLater);
    }
    match kept(alloc, files) {
        Ok(keeper) => archive_of(alloc, ask, &keeper),
        Err(fault) => Err(ArchiveFault::Unjoined(fault)),
    }
}
