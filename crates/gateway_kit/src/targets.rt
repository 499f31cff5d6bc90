//! What searches among incarnations look for.
ghost use Rattle.gateway_kit.specs.Keys.{incarnation_cmp};
ghost use Rattle.gateway_kit.specs.Serving.{begins, ends};

use crate::incarnation::Incarnation;
use point_kit::WriterId;
use shelf_kit::Target;
use std::cmp::Ordering;

/// The incarnation of a writer that began at a start.
#[derive(Clone, Copy)]
pub(crate) struct IncarnationTarget<'a> {
    pub(crate) writer: &'a WriterId,
    pub(crate) start: u64,
}

/// Where the incarnations of a service begin.
#[derive(Clone, Copy)]
pub(crate) struct ServiceBegin<'a> {
    pub(crate) service: &'a str,
}

/// And where they end.
#[derive(Clone, Copy)]
pub(crate) struct ServiceEnd<'a> {
    pub(crate) service: &'a str,
}

impl<'a> Target<Incarnation> for IncarnationTarget<'a> {
    ghost order_of = { λ t p. incarnation_cmp (p.writer, p.start) (t.writer.now, t.start) };

    fn order(&self, value: &Incarnation) -> Ordering {
        value.order(self.writer, self.start)
    }
}

impl<'a> Target<Incarnation> for ServiceBegin<'a> {
    ghost order_of = { λ t p. begins t.service.now p };

    fn order(&self, value: &Incarnation) -> Ordering {
        value.begin_order(self.service)
    }
}

impl<'a> Target<Incarnation> for ServiceEnd<'a> {
    ghost order_of = { λ t p. ends t.service.now p };

    fn order(&self, value: &Incarnation) -> Ordering {
        value.end_order(self.service)
    }
}
