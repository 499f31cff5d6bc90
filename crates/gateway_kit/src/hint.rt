//! Guesses at where points stand.
use std::marker::Model;

/// Where the item stands whose point came after an item's own in the last export that was taken, and of a new item where it
/// belongs. Contracts see nothing of either: they are guesses, and any number may be one.
#[derive(Debug, Drop)]
pub(crate) struct Hint {
    gap: u32,
    next: u32,
}

impl Model for Hint {
    ghost Value = { Unit {0} };

    ghost view = { λ _. tt };
}

// A place in 32 bits. Past them there are no guesses.
fn short(place: usize) -> u32 {
    u32::try_from(place).unwrap_or(u32::MAX)
}

/// Notes that what stands from one place up to another comes behind so many new ones.
pub(crate) fn shift(places: &mut [u32], from: usize, to: usize, before: usize) {
    for place in from..to.min(places.len()) {
        places[place] = short(place.saturating_add(before));
    }
}

impl Hint {
    /// Of a new item, which belongs at a gap among those that are there, and until then stands at a place behind them. Its next
    /// one's point is taken for the next new item's.
    pub(crate) fn of_new(gap: usize, place: usize) -> Hint {
        Hint {
            gap: short(gap),
            next: short(place.saturating_add(1)),
        }
    }

    pub(crate) fn copy(&self) -> Hint {
        Hint {
            gap: self.gap,
            next: self.next,
        }
    }

    /// Where the item may stand whose point comes next.
    pub(crate) fn next(&self) -> usize {
        self.next as usize
    }

    pub(crate) fn set_next(&mut self, place: usize) {
        self.next = short(place);
    }

    /// Notes where a new item comes to stand, behind so many new ones, and those from a place up to its gap. The place behind.
    pub(crate) fn move_to(&self, from: usize, before: usize, places: &mut [u32]) -> usize {
        let gap = self.gap as usize;
        shift(places, from, gap, before);
        let place = self.next().saturating_sub(1);
        if place < places.len() {
            places[place] = short(gap.saturating_add(before));
        }
        gap.max(from)
    }

    /// What stood at a place has moved to the one that stands there in a list.
    pub(crate) fn follow(&mut self, places: &[u32]) {
        let next = self.next as usize;
        if next < places.len() {
            self.next = places[next];
        }
    }
}
