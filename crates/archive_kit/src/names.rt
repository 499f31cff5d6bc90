//! Names of incarnations, each once, in tables: one look-up tells whether an incarnation has one of them.
ghost use Rattle.std.specs.Prelude.{◌≡◌, ◌≢◌, ◌||◌, ◌≤◌, ◌<◌, if◌then◌else◌, IfNone, IfOk, IfSome, OnOk, OnErr, [], ℕ, length, slice_index_or};
ghost use Rattle.std.specs.List.{list_any, IsDistinct};
ghost use Rattle.indexmap.specs.IndexSet.{insert_key};
ghost use Rattle.point_kit.specs.declared.writer_id.WriterId.{WriterId};
ghost use Rattle.archive_kit.specs.Named.{has_either, has_name, has_noted, is_name, name_in, name_of, service_place, text_eq};
ghost use Rattle.archive_kit.specs.Named.{AreNames, Grows, IsMarkOf};
ghost use Rattle.archive_kit.specs.contracts.names.MarkPartialEq.TheImpl as equal;

use crate::name::Told;
use attr_kit::{NoMemory, TryCopy, Txt};
use indexmap::IndexSet;
use point_kit::WriterId;
use std::alloc::Global;
use std::marker::Model;
use uuid::Uuid;

/// The length of an instance's text.
const LEN: usize = 36;

/// A name whose service is told by its place.
#[derive(Clone, Copy, Debug, PartialEq, Eq, Hash)]
pub(crate) struct Mark {
    pub(crate) service: usize,
    pub(crate) instance: [u8; LEN],
    pub(crate) start: u64,
}

/// Names of incarnations, each once. Others come in two steps: first all that may take memory (`note`, `reserve`), then `settle`,
/// which takes none. What is told as a name and can be no incarnation's is left out.
#[derive(Debug, Drop)]
pub(crate) struct Names {
    alloc: Global,
    /// Each service that was told.
    services: IndexSet<Txt>,
    marks: IndexSet<Mark>,
    /// Those that were noted, and were none of the names.
    fresh: IndexSet<Mark>,
}

impl Model for Names {
    ghost use Rattle.indexmap.specs.IndexSet.{spare};
    ghost use Rattle.archive_kit.specs.Named.{AreNames, NameList, mark_names};

    ghost Value = { NameList };

    ghost view = { λ n. record {
      names = mark_names n.services.keys n.marks.keys;
      fresh = mark_names n.services.keys n.fresh.keys;
      room = spare n.marks;
    } };

    ghost invariant = { λ n. AreNames n.services.keys n.marks.keys n.fresh.keys };
}

// The bytes of an instance's text.
fn text_bytes(text: &str) -> Option<[u8; LEN]>
    ensures some { IfSome result (λ bytes. bytes ≡ text.now) }
    ensures none { IfNone result (length text.now ≢ 36) }
{
    match <[u8; LEN]>::try_from(text.as_bytes()) {
        Ok(bytes) => Some(bytes),
        Err(_) => None,
    }
}

// The place of a service, which comes last where it is new.
fn place_of(services: &mut IndexSet<Txt>, service: &Txt) -> Result<usize, NoMemory>
    ensures grows { Grows services.old.keys services.new.keys }
    ensures apart { IsDistinct text_eq services.old.keys → IsDistinct text_eq services.new.keys }
    ensures within { IfOk result (λ place. place < length services.new.keys) }
    ensures place { IfOk result (λ place. slice_index_or services.new.keys place [] ≡ service.now) }
{
    let (place, _) = services.insert_full(service.try_copy()?)?;
    Ok(place)
}

// Keeps a mark that is none of these.
fn keep_fresh(
    marks: &IndexSet<Mark>,
    fresh: &mut IndexSet<Mark>,
    mark: Mark,
) -> Result<(), NoMemory>
    ensures ok { OnOk result (fresh.new.keys ≡ (if list_any ((equal.ghosts).eq mark) marks.now.keys then fresh.old.keys
        else insert_key (equal.ghosts).eq fresh.old.keys mark)) }
    ensures unchanged { OnErr result (fresh.new.keys ≡ fresh.old.keys) }
{
    if marks.contains(&mark) {
        return Ok(());
    }
    fresh.insert(mark)?;
    Ok(())
}

// The mark of an incarnation, where its service is there. Takes no memory.
fn mark_of(services: &IndexSet<Txt>, writer: &WriterId, start: u64) -> Option<Mark>
    ensures some { IfSome result (IsMarkOf services.now.keys writer.now start) }
    ensures none { IfNone result (length services.now.keys ≤ service_place services.now.keys writer.now.service) }
{
    let service = services.get_index_of(&writer.service)?;
    let mut buffer = Uuid::encode_buffer();
    let id = writer.instance.hyphenated();
    let instance = text_bytes(id.encode_lower(&mut buffer))?;
    Some(Mark {
        service,
        instance,
        start,
    })
}

impl Names {
    /// No names.
    pub(crate) fn new(alloc: Global) -> Names
        ensures names { result.names ≡ [] }
        ensures fresh { result.fresh ≡ [] }
    {
        Names {
            alloc,
            services: IndexSet::new(alloc),
            marks: IndexSet::new(alloc),
            fresh: IndexSet::new(alloc),
        }
    }

    /// Drops what was noted. Takes no memory.
    pub(crate) fn drop_noted(&mut self)
        ensures names { self.new.names ≡ self.old.names }
        ensures fresh { self.new.fresh ≡ [] }
    {
        self.fresh = IndexSet::new(self.alloc);
    }

    // Notes a name of these parts.
    fn note_parts(&mut self, service: &Txt, instance: [u8; LEN], start: u64) -> Result<(), NoMemory>
        ensures names { self.new.names ≡ self.old.names }
        ensures noted { OnOk result ((w : WriterId) (s : ℕ) → has_either self.new w s
            ≡ (has_either self.old w s || is_name w s (record { service = service.now; instance = instance; start = start }))) }
    {
        let place = place_of(&mut self.services, service)?;
        let mark = Mark {
            service: place,
            instance,
            start,
        };
        keep_fresh(&self.marks, &mut self.fresh, mark)
    }

    /// Notes a name, if it is none of them.
    pub(crate) fn note(&mut self, told: &Told<'_>) -> Result<(), NoMemory>
        ensures names { self.new.names ≡ self.old.names }
        ensures noted { OnOk result ((writer : WriterId) (start : ℕ) → has_either self.new writer start
            ≡ (has_either self.old writer start || is_name writer start (name_in told.now))) }
    {
        match text_bytes(told.instance) {
            Some(instance) => self.note_parts(told.service, instance, told.start),
            None => Ok(()),
        }
    }

    /// Notes the name of an incarnation, and nothing else.
    pub(crate) fn note_incarnation(&mut self, writer: &WriterId, start: u64) -> Result<(), NoMemory>
        ensures names { self.new.names ≡ self.old.names }
        ensures noted { OnOk result ((w : WriterId) (s : ℕ) → has_either self.new w s
            ≡ (has_name self.old.names w s || is_name w s (name_of writer.now start))) }
    {
        let mut buffer = Uuid::encode_buffer();
        let id = writer.instance.hyphenated();
        self.drop_noted();
        self.note(&Told {
            service: &writer.service,
            instance: id.encode_lower(&mut buffer),
            start,
        })
    }

    /// Makes room for the names that were noted.
    pub(crate) fn reserve(&mut self) -> Result<(), NoMemory>
        ensures names { self.new.names ≡ self.old.names }
        ensures fresh { self.new.fresh ≡ self.old.fresh }
        ensures room { OnOk result (length self.new.fresh ≤ self.new.room) }
    {
        self.marks.reserve(self.fresh.len())?;
        Ok(())
    }

    /// What was noted is among the names from here on. Takes no memory.
    pub(crate) fn settle(&mut self)
        requires room { length self.old.fresh ≤ self.old.room }
        ensures names { (writer : WriterId) (start : ℕ) → has_name self.new.names writer start ≡ has_either self.old writer start }
    {
        self.marks.append(&mut self.fresh).unwrap();
        self.drop_noted();
    }

    /// Whether there is a name that was noted.
    pub(crate) fn has_noted(&self) -> bool
        ensures { result ≡ has_noted self.now }
    {
        !self.fresh.is_empty()
    }

    /// Whether an incarnation has one of the names. One look-up, which takes no memory.
    pub(crate) fn has(&self, writer: &WriterId, start: u64) -> bool
        ensures { result ≡ has_name self.now.names writer.now start }
    {
        match mark_of(&self.services, writer, start) {
            Some(mark) => self.marks.contains(&mark),
            None => false,
        }
    }

    /// Whether it has one of the names, or one that was noted.
    pub(crate) fn has_either(&self, writer: &WriterId, start: u64) -> bool
        ensures { result ≡ has_either self.now writer.now start }
    {
        match mark_of(&self.services, writer, start) {
            Some(mark) => self.marks.contains(&mark) || self.fresh.contains(&mark),
            None => false,
        }
    }
}
