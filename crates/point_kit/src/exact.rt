//! Keys and payloads that `==` tells apart.
ghost use Rattle.std.specs.contracts.prelude.U64PartialEq.TheImpl.{dict};
ghost use Rattle.point_kit.specs.Exact.{exact_shapes, exact_writers, exact_streams, exact_keys, exact_payloads, exact_held, exact_cells};

use crate::{Cell, Held, Key, Payload, Shape, SharedStream, Stream, WriterId};
use attr_kit::Exact;

impl Exact for Shape {
    ghost exact = { exact_shapes };
}

impl Exact for WriterId {
    ghost exact = { exact_writers };
}

impl Exact for Stream {
    ghost exact = { exact_streams };
}

impl Exact for SharedStream {
    ghost exact = { exact_streams };
}

impl Exact for Key {
    ghost exact = { exact_keys };
}

impl Exact for Payload {
    ghost exact = { exact_payloads };
}

impl<P: Exact> Exact for Held<P> {
    ghost exact = { exact_held P.row (record { eq = P.eq }) dict P.exact };
}

impl<P: Exact> Exact for Cell<P> {
    ghost exact = { exact_cells P.row (record { eq = P.eq }) dict P.exact };
}
