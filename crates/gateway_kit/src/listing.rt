//! The incarnations and the services of which a gateway holds points.
ghost use Rattle.std.specs.Prelude.{◌≡◌, ◌∷◌, nat_eq, map};
ghost use Rattle.std.specs.Cmp.Lexicographic.{pointwise};
ghost use Rattle.std.specs.Iterator.{YieldsFirstBy, item_count};
ghost use Rattle.std.specs.List.{dedup, dedup_from};
ghost use Rattle.std.specs.Borrow.{Bor};
ghost use Rattle.gateway_kit.specs.Listing.{held_of_ref, incarnations_left, services_left};
ghost use Rattle.shelf_kit.specs.Walks.{walk_left};

use crate::incarnation::Incarnation;
use point_kit::WriterId;
use shelf_kit::Walk;

/// An incarnation of which a gateway holds points.
#[derive(Clone, Copy, Debug)]
pub struct IncarnationRef<'a> {
    pub writer: &'a WriterId,
    pub start: u64,
    /// The greatest time held of it, a conflict's too.
    pub newest: u64,
    /// How many points are held of it.
    pub points: usize,
}

/// The incarnations of which a gateway holds points, each once, in the order of their keys. Takes no memory.
#[derive(Clone, Copy, Debug)]
pub struct Incarnations<'a> {
    pub(crate) ahead: Walk<'a, Incarnation>,
}

/// The services of which a gateway holds points, each once, in order. Takes no memory.
#[derive(Clone, Copy, Debug)]
pub struct Services<'a> {
    pub(crate) ahead: Walk<'a, Incarnation>,
}

impl<'a> Iterator for Incarnations<'a> {
    type Item = IncarnationRef<'a>;

    ghost next_gives = { YieldsFirstBy held_of_ref incarnations_left };

    ghost remaining = { item_count incarnations_left };

    fn next(&mut self) -> Option<IncarnationRef<'a>> {
        let incarnation = self.ahead.next()?;
        Some(IncarnationRef {
            writer: &incarnation.writer,
            start: incarnation.start,
            newest: incarnation.newest(),
            points: incarnation.items().len(),
        })
    }
}

// What comes behind the incarnations of a service that others begin with.
fn behind<'a>(service: &str, incarnations: Walk<'a, Incarnation>) -> Walk<'a, Incarnation>
    ensures { dedup_from (pointwise nat_eq) service.now (map (λ p. p.writer.service) (walk_left incarnations.entry))
        ≡ service.now ∷ dedup (pointwise nat_eq) (map (λ p. p.writer.service) (walk_left result)) }
{
    let mut left = incarnations;
    let mut ahead = left;
    while let Some(incarnation) = ahead.next() {
        if service != incarnation.writer.service.as_str() {
            break;
        }
        left = ahead;
    }
    left
}

impl<'a> Iterator for Services<'a> {
    type Item = &'a str;

    ghost next_gives = { YieldsFirstBy (λ (s : Bor _). s.now) services_left };

    ghost remaining = { item_count services_left };

    fn next(&mut self) -> Option<&'a str> {
        let incarnation = self.ahead.next()?;
        let service = incarnation.writer.service.as_str();
        self.ahead = behind(service, self.ahead);
        Some(service)
    }
}
