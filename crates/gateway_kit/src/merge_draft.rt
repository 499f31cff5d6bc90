//! What a gateway's incarnations are to be changed by, in the making.
ghost use Rattle.std.specs.Prelude.{List, OnOk, IfOk, IsTrue, map, []};
ghost use Rattle.std.specs.FinMap.Entries.{is_sorted};
ghost use Rattle.std.specs.List.{list_all};
ghost use Rattle.gateway_kit.specs.Keys.{incarnation_cmp};
ghost use Rattle.gateway_kit.specs.Merging.{IsDraftOf, TakesIncarnation};
ghost use Rattle.gateway_kit.specs.IncarnationState.{IncarnationState};
ghost use Rattle.gateway_kit.specs.Incarnations.{keyed_cells, has_cells};
ghost use Rattle.gateway_kit.specs.Places.{IsPlace};

use crate::changes::Changes;
use crate::incarnation::Incarnation;
use crate::incarnations::place_near;
use crate::ordered::after;
use attr_kit::{NoMemory, TryCopy};
use shelf_kit::Shelves;
use std::alloc::{AllocError, AllocFailed, Global};

/// What a gateway's incarnations are to be changed by, in the making.
#[derive(Drop)]
pub(crate) struct MergeDraft {
    /// The places of incarnations that change, and what changes in them.
    pub(crate) updates: Vec<(usize, Changes)>,
    /// Copies of incarnations that are new.
    pub(crate) fresh: Vec<Incarnation>,
    /// How many keys are new.
    pub(crate) more: usize,
    /// How many keys change, the new ones among them.
    pub(crate) changed: u64,
}

impl MergeDraft {
    fn new(alloc: Global) -> MergeDraft
        ensures { (olds : List IncarnationState) → IsDraftOf olds [] result }
    {
        MergeDraft {
            updates: Vec::new(alloc),
            fresh: Vec::new(alloc),
            more: 0,
            changed: 0,
        }
    }

    // Brings in an incarnation, whose place among those that are there is known. Sums past the greatest number stay
    // there: so many keys are refused.
    fn bring(
        &mut self,
        mine: &Shelves<Incarnation>,
        place: Result<usize, usize>,
        theirs: &Incarnation,
    ) -> Result<(), NoMemory>
        requires sorted { IsTrue (is_sorted incarnation_cmp (map keyed_cells mine.now.items)) }
        requires placed { IsPlace incarnation_cmp (map keyed_cells mine.now.items) (theirs.now.writer, theirs.now.start) place }
        requires filled { IsTrue (has_cells theirs.now) }
        ensures { OnOk result (TakesIncarnation mine.now.items theirs.now self.old self.new) }
    {
        match place {
            Ok(place) => {
                let alloc = *self.updates.allocator();
                let changes = mine.get(place).changes_with(alloc, theirs)?;
                let more = changes.fresh.len();
                let changed = (changes.updates.len() + more) as u64;
                self.updates.push((place, changes))?;
                self.more = self.more.saturating_add(more);
                self.changed = self.changed.saturating_add(changed);
            }
            Err(_) => {
                let more = theirs.items().len();
                self.fresh.push(theirs.try_copy()?)?;
                self.more = self.more.saturating_add(more);
                self.changed = self.changed.saturating_add(more as u64);
            }
        }
        Ok(())
    }

    /// Brings in all incarnations of another gateway: one walk over both.
    pub(crate) fn of(
        alloc: Global,
        mine: &Shelves<Incarnation>,
        theirs: &Shelves<Incarnation>,
    ) -> Result<MergeDraft, NoMemory>
        requires sorted { IsTrue (is_sorted incarnation_cmp (map keyed_cells mine.now.items)) }
        requires theirs_sorted { IsTrue (is_sorted incarnation_cmp (map keyed_cells theirs.now.items)) }
        requires theirs_filled { IsTrue (list_all has_cells theirs.now.items) }
        ensures { IfOk result (λ d. IsDraftOf mine.now.items theirs.now.items d) }
    {
        let mut draft = MergeDraft::new(alloc);
        let mut hint = 0;
        for index in 0..theirs.len() {
            let incarnation = theirs.get(index);
            let place = place_near(mine, hint, incarnation);
            hint = after(place);
            draft.bring(mine, place, incarnation)?;
        }
        Ok(draft)
    }
}
