//! The points of a gateway, lent in the order of their keys.
ghost use Rattle.std.specs.Prelude.{◌≡◌, ◌∷◌, [], IfNone, IfSome, MatchOption};
ghost use Rattle.std.specs.Iterator.{YieldsFirstBy, item_count};
ghost use Rattle.gateway_kit.specs.Walks.{keyed_cell_of_ref, is_asked, items_left, points_left};

use crate::incarnation::Incarnation;
use crate::part_item::PartItem;
use attr_kit::AttrSet;
use point_kit::{Cell, Stream, WriterId};
use shelf_kit::Walk;

/// A point of a gateway: what it is of, and what is held.
#[derive(Clone, Copy, Debug)]
pub struct PointRef<'a> {
    pub writer: &'a WriterId,
    pub start: u64,
    pub stream: &'a Stream,
    pub attrs: &'a AttrSet,
    pub cell: &'a Cell,
}

/// The points of a gateway in the order of their keys, of one service or of all. Takes no memory.
#[derive(Clone, Copy, Debug)]
pub struct Points<'a> {
    /// The incarnation whose items are lent, and those that are left of them.
    pub(crate) here: Option<(&'a Incarnation, &'a [PartItem])>,
    pub(crate) ahead: Walk<'a, Incarnation>,
    pub(crate) service: Option<&'a str>,
}

// Whether a writer is asked for.
fn is_asked(service: Option<&str>, writer: &WriterId) -> bool
    ensures { result ≡ is_asked service.entry writer.now }
{
    match service {
        Some(service) => writer.service.as_str() == service,
        None => true,
    }
}

impl<'a> Points<'a> {
    // The next item of the incarnation that is lent.
    fn next_here(&mut self) -> Option<PointRef<'a>>
        ensures none { IfNone result (items_left self.old.here ≡ []) }
        ensures some { IfSome result (λ p. points_left self.old ≡ keyed_cell_of_ref p ∷ points_left self.new) }
        ensures same { MatchOption result (self.new ≡ self.old) (λ p. self.new.ahead ≡ self.old.ahead) }
    {
        let (incarnation, items) = self.here?;
        let (item, others) = items.split_first()?;
        self.here = Some((incarnation, others));
        Some(PointRef {
            writer: &incarnation.writer,
            start: incarnation.start,
            stream: item.stream.get(),
            attrs: &item.attrs,
            cell: &item.cell,
        })
    }
}

impl<'a> Iterator for Points<'a> {
    type Item = PointRef<'a>;

    ghost next_gives = { YieldsFirstBy keyed_cell_of_ref points_left };

    ghost remaining = { item_count points_left };

    fn next(&mut self) -> Option<PointRef<'a>> {
        loop {
            if let Some(point) = self.next_here() {
                return Some(point);
            }
            let incarnation = self.ahead.next()?;
            self.here = if is_asked(self.service, &incarnation.writer) {
                Some((incarnation, incarnation.items()))
            } else {
                None
            };
        }
    }
}
