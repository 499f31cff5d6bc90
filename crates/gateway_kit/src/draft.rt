//! Changes in the making.
ghost use Rattle.std.specs.Prelude.{List, OnOk, IfOk, IsTrue, map, [], option_copied};
ghost use Rattle.std.specs.FinMap.Entries.{is_sorted};
ghost use Rattle.gateway_kit.specs.Changing.{KeyedCell, Drafts, Finishes, TakesIn};
ghost use Rattle.std.specs.List.{IsDistinct};
ghost use Rattle.std.specs.Ordering.{eq_by_cmp};
ghost use Rattle.gateway_kit.specs.Keys.{keyed_cell_of, item_cmp};
ghost use Rattle.gateway_kit.specs.Places.{IsPlace};

use crate::cells::{copy_held, update_of};
use crate::changes::Changes;
use crate::hint::Hint;
use crate::ordered::in_order;
use crate::part_item::PartItem;
use attr_kit::{AttrSet, NoMemory, TryCopy};
use point_kit::{Cell, Payload, SharedStream};
use std::alloc::Global;

/// Changes in the making.
#[derive(Drop)]
pub(crate) struct Draft {
    updates: Vec<(usize, Cell)>,
    fresh: Vec<PartItem>,
}

impl Draft {
    pub(crate) fn new(alloc: Global) -> Draft
        ensures { (es : List KeyedCell) → Drafts es [] result.updates.items result.fresh.items }
    {
        Draft {
            updates: Vec::new(alloc),
            fresh: Vec::new(alloc),
        }
    }

    /// Where among so many items and the new ones behind them what stands at a place is, or comes to be.
    pub(crate) fn place_in(&self, len: usize, place: Result<usize, usize>) -> usize {
        match place {
            Ok(place) => place,
            Err(_) => len.saturating_add(self.fresh.len()),
        }
    }

    /// Brings in what is told of a key, whose place among the items is known. Copies the key only where it is new.
    pub(crate) fn bring(
        &mut self,
        items: &[PartItem],
        place: Result<usize, usize>,
        stream: &SharedStream,
        attrs: &AttrSet,
        time: u64,
        payload: Option<&Payload>,
    ) -> Result<(), NoMemory>
        requires sorted { IsTrue (is_sorted item_cmp (map keyed_cell_of items.now)) }
        requires placed { IsPlace item_cmp (map keyed_cell_of items.now) (stream.now, attrs.now) place }
        ensures { OnOk result (TakesIn items.now (stream.now, attrs.now) time (option_copied payload.entry) self.old self.new) }
    {
        match place {
            Ok(place) => {
                if let Some(cell) = update_of(&items[place].cell, time, payload)? {
                    self.updates.push((place, cell))?;
                }
            }
            Err(gap) => {
                let here = self.place_in(items.len(), place);
                let item = PartItem {
                    stream: stream.try_copy()?,
                    attrs: attrs.try_copy()?,
                    cell: Cell {
                        time,
                        held: copy_held(payload)?,
                    },
                    number: 0,
                    hint: Hint::of_new(gap, here),
                };
                self.fresh.push(item)?;
            }
        }
        Ok(())
    }

    /// Makes room beside the n items that are there, and some to spare: so a few that come later need none to move.
    pub(crate) fn finish(self, alloc: Global, items: &[PartItem]) -> Result<Changes, NoMemory>
        requires { IsDistinct (eq_by_cmp item_cmp) (map (λ i. (keyed_cell_of i).0) self.fresh.items) }
        ensures { IfOk result (λ c. Finishes items.now self c) }
    {
        let Draft { updates, fresh } = self;
        let fresh = in_order(fresh)?;
        let room = if fresh.is_empty() {
            Vec::new(alloc)
        } else {
            let len = items.len() + fresh.len();
            Vec::with_capacity(alloc, len + len / 16)?
        };
        Ok(Changes {
            updates,
            fresh,
            room,
        })
    }
}
