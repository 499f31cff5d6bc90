//! Where the points of an export stand among items, looked for from one to the next.
ghost use Rattle.std.specs.Prelude.{◌≡◌, IsTrue, IfOk, map};
ghost use Rattle.std.specs.FinMap.Entries.{is_sorted};
ghost use Rattle.gateway_kit.specs.Changing.{Prepares, keyed_cells_of};
ghost use Rattle.gateway_kit.specs.Keys.{keyed_cell_of, item_cmp};

use crate::changes::Changes;
use crate::draft::Draft;
use crate::hint::shift;
use crate::items::place_near;
use crate::part_item::PartItem;
use attr_kit::NoMemory;
use point_kit::Export;
use std::alloc::{AllocError, Global};

// Notes behind an item, where there is one, where the next point's stands.
fn note_next(items: &mut Vec<PartItem>, place: usize, next: usize)
    ensures { items.new.items ≡ items.old.items }
{
    if place < items.len() {
        items[place].note_next(next);
    }
}

// The next guess: behind an item that was found what came behind it last time, and behind a new one the same as before it.
fn guess_after(items: &[PartItem], place: Result<usize, usize>, guess: usize) -> usize {
    match place {
        Ok(place) => {
            if place < items.len() {
                items[place].hint.next()
            } else {
                guess
            }
        }
        Err(_) => guess,
    }
}

/// What the points of an export change among items. Points that come in the order of the last export are each found by one
/// comparison; of others one is searched for, and found by one the next time.
pub(crate) fn draft_changes(
    items: &mut Vec<PartItem>,
    alloc: Global,
    export: &Export,
) -> Result<Changes, NoMemory>
    requires { IsTrue (is_sorted item_cmp (map keyed_cell_of items.old.items)) }
    ensures prepares { IfOk result (λ c. Prepares (map keyed_cell_of items.old.items) (keyed_cells_of export.now) c) }
    ensures unchanged { items.new.items ≡ items.old.items }
{
    let mut draft = Draft::new(alloc);
    let mut guess = 0;
    let mut last = usize::MAX;
    for point in export.points() {
        let place = place_near(items.as_slice(), guess, point.stream.get(), &point.attrs);
        let here = draft.place_in(items.len(), place);
        note_next(items, last, here);
        last = here;
        guess = guess_after(items.as_slice(), place, guess);
        draft.bring(
            items.as_slice(),
            place,
            &point.stream,
            &point.attrs,
            export.time(),
            Some(&point.payload),
        )?;
    }
    draft.finish(alloc, items.as_slice())
}

/// Where the items that there are, and the new ones behind them, come to stand once the new ones are woven in: guesses. None
/// where there is no memory for them; then the guesses of all stay, and most fail once.
pub(crate) fn places_after(alloc: Global, len: usize, fresh: &[PartItem]) -> Vec<u32> {
    let Ok(mut places) = vec![in alloc; 0u32; len.saturating_add(fresh.len())] else {
        return Vec::new(alloc);
    };
    let mut from = 0;
    for index in 0..fresh.len() {
        from = fresh[index].hint.move_to(from, index, &mut places);
    }
    shift(&mut places, from, len, fresh.len());
    places
}
