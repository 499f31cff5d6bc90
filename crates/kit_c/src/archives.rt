//! Archives: writers whose points are those of ended incarnations that they adopted, added up.
ghost use Rattle.std.specs.Prelude.{◌≡◌, ◌≢◌, ◌∷◌, [], pos, true, None, Some, IfSome, OnOk, OnErr, IfErr, IfOk};
ghost use Rattle.archive_kit.specs.Archive.{begun_anew, exported_at, fresh};
ghost use Rattle.attr_kit.specs.Refusing.{first};
ghost use Rattle.kit_c.specs.Archives.{HasArchive, HasArchived, IsBegunWith, adopting_fault, after_adopting, archiving_fault, sealing_fault};
ghost use Rattle.kit_c.specs.Calls.{code_for, full_fault, if_any, if_both, in_first, in_one, of_one, of_two};
ghost use Rattle.kit_c.specs.Codes.{code_of, no_memory};
ghost use Rattle.kit_c.specs.Faults.{text_fault};
ghost use Rattle.kit_c.specs.Gateways.{identity_of};
ghost use Rattle.kit_c.specs.Held.{archive_of, export_of, node_of};
ghost use Rattle.kit_c.specs.Typed.{export_in, is_export};

use crate::content::Content;
use crate::fault::{FULL, Fault, NO_MEMORY, NOTHING, OK, WRONG_KIND};
use crate::text::{is_no_text, text_of};
use crate::typed::{KitArchive, KitExport, KitGateway};
use crate::with::{fill, or_code, with, with_two};
use archive_kit::{Archive, ExportRefusal, Keeper};
use attr_kit::Seq;
use point_kit::WriterId;
use std::alloc::Global;
use uuid::Uuid;

// The identity of a service's instance.
fn identity(alloc: Global, service: &[u8], high: u64, low: u64) -> Result<WriterId, Fault>
    ensures ok { OnOk result (text_fault service.now ≡ None) }
    ensures value { IfOk result (λ writer. writer ≡ identity_of service.now high low) }
    ensures err { IfErr result (λ f. code_of f ≢ no_memory → text_fault service.now ≡ Some f) }
    ensures short { IfErr result (λ f. code_of f ≡ no_memory → text_fault service.now ≡ None) }
{
    match text_of(alloc, service) {
        Ok(service) => Ok(WriterId {
            service,
            instance: Uuid::from_u64_pair(high, low),
        }),
        Err(fault) => Err(fault),
    }
}

/// Begins an archive that adopted nothing, with at most so many totals, of which each is a stream's at an attribute set. It is a writer of
/// its own: the instance is a UUID as two numbers, drawn anew, which no other writer has, archives among them. The start is in nanoseconds
/// since the Unix epoch. Let it be 1, before each worker's. Of two metrics that claim one name a page shows the youngest incarnation's. So
/// an archive that begins later than the workers can hide a live metric by one of an old plan that it adopted.
///
/// Refused, in this order: `FULL`; `NOT_TEXT` where the service is no UTF-8; `NO_MEMORY`.
#[unsafe(no_mangle)]
pub extern "C" fn kit_archive_begin(
    alloc: Global,
    archive: &mut KitArchive,
    service: &[u8],
    instance_high: u64,
    instance_low: u64,
    start: u64,
    limit: usize,
) -> i32
    ensures code { result ≢ no_memory → result ≡ code_for (first (full_fault (archive_of archive.old) ∷ text_fault service.now ∷ [])) }
    ensures value { result ≡ pos 0
        → archive_of archive.new ≡ Some (fresh (identity_of service.now instance_high instance_low) start limit) }
    ensures short { result ≡ no_memory → first (full_fault (archive_of archive.old) ∷ text_fault service.now ∷ []) ≡ None }
    ensures unchanged { result ≢ pos 0 → archive_of archive.new ≡ archive_of archive.old }
{
    fill!(alloc, archive => {
        let writer = or_code!(identity(alloc, service, instance_high, instance_low));
        Archive::begin(alloc, writer, start, limit)
    }, made => Content::Archive(made))
}

// Adopts an incarnation from what a gateway holds of it.
#[tactic(auto, unfolding(crate::specs::Archives::adopting_fault, crate::specs::Archives::after_adopting))]
fn adopt(archive: &mut Archive, keeper: &Keeper, writer: &WriterId, start: u64) -> Result<(), Fault>
    ensures ok { OnOk result (adopting_fault writer.now start archive.old keeper.now ≡ None) }
    ensures value { OnOk result (archive.new ≡ after_adopting writer.now start archive.old keeper.now) }
    ensures err { IfErr result (λ f. code_of f ≢ no_memory → adopting_fault writer.now start archive.old keeper.now ≡ Some f) }
    ensures unchanged { OnErr result (archive.new ≡ archive.old) }
{
    match archive.adopt(keeper, writer, start) {
        Ok(()) => Ok(()),
        Err(fault) => Err(Fault::Adopt(fault)),
    }
}

/// Adopts an incarnation of a service's instance from what a gateway, which stays, holds of it: adds the sums and the histograms to the
/// archive's own, and notes that it did. Gauges are not adopted. It is for incarnations that have ended: what one exports later is not
/// counted.
///
/// Refused, in this order: `NOT_TEXT` where the service is no UTF-8; `NOTHING` of the archive, then of the gateway; `OTHER_SERVICE`;
/// `IS_ARCHIVE`; `ADOPTED` where this archive did so before; `NO_POINT` where nothing of it is held; `CONFLICT` where different values of
/// one time came; `TORN` where its points are of several times; `UNSOUND` where no export has them; `OUT_OF_RANGE` where its start or its
/// time is 2^63 - 1 or later, or a total would leave its range; `SET_LIMIT`; `NO_MEMORY`. The service is copied before the archive is
/// asked, so want of memory for that may be told in place of what follows `NOTHING`.
#[unsafe(no_mangle)]
pub extern "C" fn kit_archive_adopt(
    alloc: Global,
    archive: &mut KitArchive,
    gateway: &mut KitGateway,
    service: &[u8],
    instance_high: u64,
    instance_low: u64,
    start: u64,
) -> i32
    ensures code { result ≢ no_memory → result ≡ code_for (first (text_fault service.now
        ∷ of_two (archive_of archive.old) (node_of gateway.old)
        (adopting_fault (identity_of service.now instance_high instance_low) start) ∷ [])) }
    ensures value { result ≡ pos 0 → archive_of archive.new
        ≡ in_first (after_adopting (identity_of service.now instance_high instance_low) start)
        (archive_of archive.old) (node_of gateway.old) }
    ensures short { result ≡ no_memory
        → first (text_fault service.now ∷ of_two (archive_of archive.old) (node_of gateway.old) if_both ∷ []) ≡ None }
    ensures unchanged { result ≢ pos 0 → archive_of archive.new ≡ archive_of archive.old }
    ensures kept { node_of gateway.new ≡ node_of gateway.old }
{
    if is_no_text(service) {
        return Fault::NotText.code();
    }
    if !archive.handle.full || !gateway.handle.full {
        return NOTHING;
    }
    let writer = or_code!(identity(alloc, service, instance_high, instance_low));
    match with_two!(alloc, archive => Archive(held), gateway => Gateway(read), adopt(held, read, &writer, start))
    {
        Ok(()) => OK,
        Err(fault) => fault.code(),
    }
}

// The export of a time. Its room is taken before, since nothing can be refused once the archive has changed.
fn exported(alloc: Global, archive: &mut Archive, time: u64) -> Result<Box<Content>, Fault>
    ensures ok { OnOk result (archiving_fault time archive.old ≡ None) }
    ensures value { OnOk result (archive.new ≡ exported_at archive.old time) }
    ensures kind { IfOk result (λ made. is_export (Some made.value) ≡ true) }
    ensures export { IfOk result (λ made. HasArchive archive.old time (export_in (Some made.value))) }
    ensures err { IfErr result (λ f. code_of f ≢ no_memory → archiving_fault time archive.old ≡ Some f) }
    ensures short { IfErr result (λ f. code_of f ≡ no_memory → archiving_fault time archive.old ≡ None) }
    ensures unchanged { OnErr result (archive.new ≡ archive.old) }
{
    if !archive.is_later(time) {
        return Err(Fault::Archive(ExportRefusal::TimeNotLater));
    }
    let mut room = Box::new(alloc, Content::Keys(Seq::new(alloc)))?;
    match archive.export(time) {
        Ok(made) => {
            *room = Content::Export(made);
            Ok(room)
        }
        Err(fault) => Err(Fault::Archive(fault)),
    }
}

/// The points of an archive at a time, as an export: all totals, and a tombstone for each incarnation that it adopted since it began or
/// was sealed. Exports are cumulative, so a lost one is covered by the next.
///
/// Refused, in this order: `FULL`; `NOTHING`; `TIME_NOT_LATER` than the last export, or than the start before the first; `NO_MEMORY`.
/// O(size of the points).
#[unsafe(no_mangle)]
pub extern "C" fn kit_archive_export(
    alloc: Global,
    archive: &mut KitArchive,
    time: u64,
    export: &mut KitExport,
) -> i32
    ensures code { result ≢ no_memory → result ≡ code_for
        (first (full_fault (export_of export.old) ∷ of_one (archive_of archive.old) (archiving_fault time) ∷ [])) }
    ensures value { result ≡ pos 0 → archive_of archive.new ≡ in_one (λ a. exported_at a time) (archive_of archive.old) }
    ensures export { result ≡ pos 0 → HasArchived time (archive_of archive.old) (export_of export.new) }
    ensures short { result ≡ no_memory
        → first (full_fault (export_of export.old) ∷ of_one (archive_of archive.old) (archiving_fault time) ∷ []) ≡ None }
    ensures unchanged { result ≢ pos 0
        → (archive_of archive.new ≡ archive_of archive.old) × (export_of export.new ≡ export_of export.old) }
{
    if export.handle.full {
        return FULL;
    }
    match with!(alloc, archive => Archive(held), exported(alloc, held, time)) {
        Ok(made) => {
            export.handle.put(made);
            OK
        }
        Err(fault) => fault.code(),
    }
}

/// Seals an archive and begins it anew under a later start, without totals. What it adopted it does not adopt again. What it exported
/// stays, wherever it was taken, and is exported no more: so keep the last export until it has come where it is to.
///
/// Refused, in this order: `NOTHING`; `START_NOT_LATER` than the last export, or than the start before the first; `UNEXPORTED` where it
/// adopted since its last export. Takes no memory.
#[unsafe(no_mangle)]
pub extern "C" fn kit_archive_seal(alloc: Global, archive: &mut KitArchive, start: u64) -> i32
    ensures code { result ≡ code_for (of_one (archive_of archive.old) (sealing_fault start)) }
    ensures value { result ≡ pos 0 → archive_of archive.new ≡ in_one (λ a. begun_anew a start) (archive_of archive.old) }
    ensures unchanged { result ≢ pos 0 → archive_of archive.new ≡ archive_of archive.old }
{
    match with!(alloc, archive => Archive(held), held.seal(start)) {
        Ok(()) => OK,
        Err(fault) => Fault::Seal(fault).code(),
    }
}

/// Tells the start of an archive, and how many incarnations it adopted since it began or was sealed.
///
/// Refused: `NOTHING`. O(1), takes no memory.
#[unsafe(no_mangle)]
pub extern "C" fn kit_archive_read(
    alloc: Global,
    archive: &mut KitArchive,
    start: &mut u64,
    adopted: &mut usize,
) -> i32
    ensures code { result ≡ code_for (of_one (archive_of archive.old) if_any) }
    ensures value { result ≡ pos 0 → IfSome (archive_of archive.old) (IsBegunWith start.new adopted.new) }
    ensures told { result ≢ pos 0 → (start.new ≡ start.old) × (adopted.new ≡ adopted.old) }
    ensures kept { archive_of archive.new ≡ archive_of archive.old }
{
    let (since, count) = with!(alloc, archive => Archive(held), (held.start(), held.adopted_len()));
    *start = since;
    *adopted = count;
    OK
}
