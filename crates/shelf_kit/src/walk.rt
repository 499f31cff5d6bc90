//! A part of a list on shelves, lent in order.
ghost use Rattle.std.specs.Prelude.{◌≡◌, ◌∷◌};
ghost use Rattle.std.specs.Borrow.{Bor};
ghost use Rattle.std.specs.Iterator.{YieldsFirstBy, item_count};
ghost use Rattle.std.specs.Prelude.{⊤};
ghost use Rattle.shelf_kit.specs.Walks.{walk_left};

use crate::shelf::Shelf;
use std::alloc::AllocError;

/// The values of a part of a list that are left to be lent, in order: O(1) each. A copy lends the same ones. Takes no memory.
#[derive(Debug)]
pub struct Walk<'a, T> {
    pub(crate) here: &'a [T],
    pub(crate) ahead: &'a [Shelf<T>],
    pub(crate) left: usize,
}

impl<'a, T> Clone for Walk<'a, T> {
    ghost is_clone = { λ walk copy. copy ≡ walk };

    ghost is_infallible = { λ _. ⊤ };

    fn clone(&self) -> Result<Self, AllocError> {
        Ok(*self)
    }
}

impl<'a, T> Copy for Walk<'a, T> {}

impl<'a, T> Iterator for Walk<'a, T> {
    type Item = &'a T;

    ghost next_gives = { YieldsFirstBy (λ (value : Bor T). value.now) walk_left };

    ghost remaining = { item_count walk_left };

    fn next(&mut self) -> Option<&'a T> {
        let left = self.left.checked_sub(1)?;
        'on: loop {
            if let Some((value, others)) = self.here.split_first() {
                self.here = others;
                self.left = left;
                return Some(value);
            }
            let (shelf, others) = self.ahead.split_first()?;
            self.here = shelf.items.as_slice();
            self.ahead = others;
        }
    }
}
