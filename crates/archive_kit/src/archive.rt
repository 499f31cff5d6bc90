//! An archive: a writer whose points are those of incarnations that it adopted, added up.
ghost use Rattle.std.specs.Prelude.{◌≡◌, ◌≢◌, ◌<◌, ◌≤◌, ◌-◌, nat_lt, IfOk, IfErr, OnOk, OnErr, None, Some, length, true, false};
ghost use Rattle.gateway_kit.specs.Queries.{incarnation_points, part_points};
ghost use Rattle.archive_kit.specs.Archive.{adopt_fault, early_fault, late_fault, is_of_archive, was_adopted, seal_refusal};
ghost use Rattle.archive_kit.specs.Archive.{adopted, begun_anew, exported_at, exported_points, fresh, points_held, told};
ghost use Rattle.archive_kit.specs.Keeping.{is_named};
ghost use Rattle.archive_kit.specs.Tombstones.{is_tombstone};
ghost use Rattle.std.specs.List.{list_any};
ghost use Rattle.archive_kit.specs.Totals.{add_totals};

use crate::early::{Early, first_fault};
use crate::held::{has_conflict, has_other_time, has_stream, last_export, time_of};
use crate::names::Names;
use crate::tombstone::{tombstone_of, tombstones};
use crate::totals::{add_totals, push};
use crate::{AdoptFault, ExportRefusal, Keeper, SealRefusal};
use attr_kit::{NoMemory, Seq, copy_all};
use gateway_kit::PartItem;
use point_kit::{Export, ExportPoint, SharedStream, WriterId};
use std::alloc::Global;
use std::marker::Model;

/// The greatest number that a tombstone tells.
const LAST_TOLD: u64 = 9223372036854775807;

// A number as an attribute tells it.
fn told(number: u64) -> u64
    ensures { result ≡ told number }
{
    if number >= LAST_TOLD {
        LAST_TOLD
    } else {
        number
    }
}

/// A writer that adopts ended incarnations of its service: it adds their last points into its own, and its exports have beside
/// these a tombstone for each. A gateway that holds such an export need not show the points of what it names.
///
/// Sums and histograms are adopted, and gauges are not: nobody's gauge is its last value once others go on, so those of an
/// adopted incarnation are no longer shown.
#[derive(Debug, Drop)]
pub struct Archive {
    writer: WriterId,
    stream: SharedStream,
    start: u64,
    exported: u64,
    limit: usize,
    totals: Vec<ExportPoint>,
    tombstones: Vec<ExportPoint>,
    /// What these name.
    names: Names,
    sealed: usize,
    unexported: bool,
}

impl Model for Archive {
    ghost use Rattle.archive_kit.specs.Archive.{ArchiveState, AreKept, NameAdopted};

    ghost Value = { ArchiveState };

    ghost view = { λ a. record {
      writer = a.writer;
      start = a.start;
      exported = a.exported;
      limit = a.limit;
      totals = a.totals.items;
      tombstones = a.tombstones.items;
      sealed = a.sealed;
      unexported = a.unexported;
    } };

    ghost invariant = { λ a. AreKept a.stream a.start a.exported a.totals.items a.tombstones.items a.sealed
        × NameAdopted a.names.names a.tombstones.items };
}

impl Archive {
    /// An archive that adopted nothing, of an identity and a start that no other writer has, archives among them. It has at most
    /// so many totals.
    pub fn begin(
        alloc: Global,
        writer: WriterId,
        start: u64,
        limit: usize,
    ) -> Result<Archive, NoMemory>
        ensures value { IfOk result (λ archive. archive ≡ fresh writer start limit) }
    {
        Ok(Archive {
            writer,
            stream: tombstones(alloc)?,
            start,
            exported: start,
            limit,
            totals: Vec::new(alloc),
            tombstones: Vec::new(alloc),
            names: Names::new(alloc),
            sealed: 0,
            unexported: false,
        })
    }

    pub fn writer(&self) -> &WriterId
        ensures value { result.now ≡ self.now.writer }
    {
        &self.writer
    }

    /// When this incarnation of it began, in nanoseconds since the Unix epoch.
    pub fn start(&self) -> u64
        ensures value { result ≡ self.now.start }
    {
        self.start
    }

    /// Whether a time is later than that of its last export, or than its start before the first: whether it may be exported at that time.
    pub fn is_later(&self, time: u64) -> bool
        ensures value { result ≡ nat_lt self.now.exported time }
    {
        self.exported < time
    }

    /// How many incarnations this incarnation of it adopted: what an export has tombstones of.
    pub fn adopted_len(&self) -> usize
        ensures value { result ≡ length self.now.tombstones - self.now.sealed }
    {
        self.tombstones.len() - self.sealed
    }

    // Whether an incarnation is an archive's.
    fn is_of_archive(&self, writer: &WriterId, start: u64, items: &[PartItem]) -> bool
        ensures { result ≡ is_of_archive self.now writer.now (part_points writer.now start items.now) }
    {
        self.writer == *writer || has_stream(items, &self.stream)
    }

    // Whether it adopted an incarnation.
    fn has_adopted(&self, writer: &WriterId, start: u64) -> bool
        ensures { result ≡ was_adopted self.now writer.now start }
    {
        self.names.has(writer, told(start))
    }

    // The first refusal that needs no copies. Takes no memory.
    fn early_fault(&self, writer: &WriterId, start: u64, items: &[PartItem]) -> Option<AdoptFault>
        ensures never { result ≢ Some AdoptFault.NoMemory }
        ensures value { result ≡ early_fault self.now writer.now start (part_points writer.now start items.now) }
    {
        first_fault(Early {
            other_service: self.writer.service != writer.service,
            of_archive: self.is_of_archive(writer, start, items),
            adopted: self.has_adopted(writer, start),
            nothing: items.is_empty(),
            conflict: has_conflict(items),
            torn: has_other_time(items, time_of(items)),
        })
    }

    // The totals with what is held of an incarnation.
    fn totals_with(
        &self,
        writer: &WriterId,
        start: u64,
        items: &[PartItem],
    ) -> Result<Vec<ExportPoint>, AdoptFault>
        ensures ok { OnOk result (late_fault self.now writer.now start (part_points writer.now start items.now) ≡ None) }
        ensures value { IfOk result (λ totals. totals.items
            ≡ add_totals self.now.totals (points_held (part_points writer.now start items.now))) }
        ensures err { IfErr result (λ f. f ≢ AdoptFault.NoMemory
            → late_fault self.now writer.now start (part_points writer.now start items.now) ≡ Some f) }
    {
        let alloc = *self.totals.allocator();
        let export = last_export(alloc, items, writer, start)?;
        if start >= LAST_TOLD || export.time() >= LAST_TOLD {
            return Err(AdoptFault::OutOfRange);
        }
        let mut totals = copy_all(&self.totals)?;
        if !add_totals(alloc, &mut totals, export.points())? {
            return Err(AdoptFault::OutOfRange);
        }
        if totals.len() > self.limit {
            return Err(AdoptFault::SetLimit);
        }
        Ok(totals)
    }

    // Adds what is held of an incarnation to the totals, and notes its tombstone.
    fn add(&mut self, writer: &WriterId, start: u64, items: &[PartItem]) -> Result<(), AdoptFault>
        requires plain { list_any (λ e. is_tombstone e.0) (part_points writer.now start items.now) ≡ false }
        requires fresh { was_adopted self.old writer.now start ≡ false }
        ensures ok { OnOk result (late_fault self.old writer.now start (part_points writer.now start items.now) ≡ None) }
        ensures value { OnOk result (self.new ≡ adopted self.old writer.now start (part_points writer.now start items.now)) }
        ensures err { IfErr result (λ f. f ≢ AdoptFault.NoMemory
            → late_fault self.old writer.now start (part_points writer.now start items.now) ≡ Some f) }
        ensures unchanged { OnErr result (self.new ≡ self.old) }
    {
        let alloc = *self.totals.allocator();
        let tombstone = tombstone_of(alloc, &self.stream, writer, start, time_of(items))?;
        match self.totals_with(writer, start, items) {
            Ok(totals) => {
                self.names.note_incarnation(writer, told(start))?;
                self.names.reserve()?;
                push(&mut self.tombstones, tombstone)?;
                self.names.settle();
                self.totals = totals;
                self.unexported = true;
                Ok(())
            }
            Err(fault) => Err(fault),
        }
    }

    /// Adopts an incarnation of a writer: adds the sums and histograms that a keeper holds of it to the archive's own, by stream
    /// and attributes, and notes its tombstone.
    ///
    /// It is for incarnations that have ended, where the keeper has heard the last collection: what the incarnation exported beyond
    /// what is adopted is not counted. A keeper holds no point of what a tombstone names, so none of that is adopted again.
    ///
    /// Refused as [`AdoptFault`] says, each where none before it fits. `NoMemory` comes where a growth was refused, and only where
    /// none of the refusals before `Unsound` fits; whether one of the later ones does is then open.
    ///
    /// O(n + k) copies and O(k + t) comparisons of hashes, of the archive's n totals and t tombstones and of k points, where its points
    /// come in the order of the totals, as those of like incarnations do. Where one does not, or has no total yet, a walk over them, of
    /// comparisons of hashes.
    pub fn adopt(
        &mut self,
        keeper: &Keeper,
        writer: &WriterId,
        start: u64,
    ) -> Result<(), AdoptFault>
        ensures ok { OnOk result (
            adopt_fault self.old writer.now start (incarnation_points writer.now start keeper.now.gateway.points) ≡ None) }
        ensures value { OnOk result (
            self.new ≡ adopted self.old writer.now start (incarnation_points writer.now start keeper.now.gateway.points)) }
        ensures err { IfErr result (λ f. f ≢ AdoptFault.NoMemory
            → adopt_fault self.old writer.now start (incarnation_points writer.now start keeper.now.gateway.points) ≡ Some f) }
        ensures no_memory { IfErr result (λ f. f ≡ AdoptFault.NoMemory
            → early_fault self.old writer.now start (incarnation_points writer.now start keeper.now.gateway.points) ≡ None) }
        ensures named { is_named keeper.now.gateway.points writer.now start ≡ true → OnOk result ⊥ }
        ensures unchanged { OnErr result (self.new ≡ self.old) }
    {
        let items = keeper.gateway().part(writer, start);
        match self.early_fault(writer, start, items) {
            Some(fault) => Err(fault),
            None => self.add(writer, start, items),
        }
    }

    // The export of a time.
    fn collect(&self, time: u64) -> Result<Export, NoMemory>
        requires { self.now.start < time }
        ensures writer { IfOk result (λ e. e.writer ≡ self.now.writer) }
        ensures start { IfOk result (λ e. e.start ≡ self.now.start) }
        ensures taken_at { IfOk result (λ e. e.time ≡ time) }
        ensures points { IfOk result (λ e. e.points ≡ exported_points self.now) }
    {
        let mut points = copy_all(&self.totals)?;
        for tombstone in &self.tombstones.as_slice()[self.sealed..] {
            points.push(tombstone.try_copy()?)?;
        }
        let writer = self.writer.try_copy()?;
        Ok(Export::from_sound(writer, self.start, time, Seq::from_vec(points)))
    }

    /// The points of this incarnation: all totals, and a tombstone for each incarnation that it adopted. All of them in each
    /// export, so that a lost one costs nothing. The time is to be later than that of the export before.
    ///
    /// Refused, in this order: [`ExportRefusal::TimeNotLater`]; [`ExportRefusal::NoMemory`], where a growth was refused.
    pub fn export(&mut self, time: u64) -> Result<Export, ExportRefusal>
        ensures writer { IfOk result (λ e. e.writer ≡ self.old.writer) }
        ensures start { IfOk result (λ e. e.start ≡ self.old.start) }
        ensures taken_at { IfOk result (λ e. e.time ≡ time) }
        ensures points { IfOk result (λ e. e.points ≡ exported_points self.old) }
        ensures ok { OnOk result (self.old.exported < time) }
        ensures value { OnOk result (self.new ≡ exported_at self.old time) }
        ensures err { IfErr result (λ f. f ≢ ExportRefusal.NoMemory → (f ≡ ExportRefusal.TimeNotLater) × (time ≤ self.old.exported)) }
        ensures no_memory { IfErr result (λ f. f ≡ ExportRefusal.NoMemory → self.old.exported < time) }
        ensures unchanged { OnErr result (self.new ≡ self.old) }
    {
        if !self.is_later(time) {
            return Err(ExportRefusal::TimeNotLater);
        }
        let export = self.collect(time)?;
        self.exported = time;
        self.unexported = false;
        Ok(export)
    }

    /// Seals this incarnation of the archive and begins it anew under a later start, without totals. What it adopted it does not
    /// adopt again. What it exported stays as it is, wherever it was taken, and is exported no more: so keep its last export until
    /// it has come where it is to. Takes no memory.
    ///
    /// Refused, in this order: [`SealRefusal::StartNotLater`]; [`SealRefusal::Unexported`]. A refusal changes nothing.
    pub fn seal(&mut self, start: u64) -> Result<(), SealRefusal>
        ensures ok { OnOk result (seal_refusal self.old start ≡ None) }
        ensures value { OnOk result (self.new ≡ begun_anew self.old start) }
        ensures err { IfErr result (λ f. seal_refusal self.old start ≡ Some f) }
        ensures unchanged { OnErr result (self.new ≡ self.old) }
    {
        if start <= self.exported {
            return Err(SealRefusal::StartNotLater);
        }
        if self.unexported {
            return Err(SealRefusal::Unexported);
        }
        self.start = start;
        self.exported = start;
        self.totals = Vec::new(*self.totals.allocator());
        self.sealed = self.tombstones.len();
        Ok(())
    }
}
