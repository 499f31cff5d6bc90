//! Orders that are as their types document them.
ghost use Rattle.std.specs.Prelude.{◌≡◌};
ghost use Rattle.std.specs.declared.cmp.Ordering.{Ordering};
ghost use Rattle.point_kit.specs.Orders.{writer_order, shape_order, stream_order, key_order};
ghost use Rattle.point_kit.specs.Ordered.{writers_ordered, shapes_ordered, streams_ordered, keys_ordered};

use crate::{Key, Shape, SharedStream, Stream, WriterId};

/// Values whose `cmp` is the order that their type documents, as `order` states it in words of its own: a field or a
/// variant that is moved is refused.
pub trait Ordered: Ord {
    ghost order: { Self → Self → Ordering };

    ghost ordered: { (a b : Self) → Self.cmp a b ≡ order a b };
}

impl Ordered for WriterId {
    ghost order = { writer_order };

    ghost ordered = { writers_ordered };
}

impl Ordered for Shape {
    ghost order = { shape_order };

    ghost ordered = { shapes_ordered };
}

impl Ordered for Stream {
    ghost order = { stream_order };

    ghost ordered = { streams_ordered };
}

impl Ordered for SharedStream {
    ghost order = { stream_order };

    ghost ordered = { streams_ordered };
}

impl Ordered for Key {
    ghost order = { key_order };

    ghost ordered = { keys_ordered };
}
