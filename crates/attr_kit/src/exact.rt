//! Values that `==` tells apart.
ghost use Rattle.attr_kit.specs.Exact.{IsExact, exact_unsigned, exact_signed, exact_pairs, exact_lists, exact_texts, exact_bool, exact_values, exact_options, exact_keeps};

use crate::{AllowList, AttrSet, AttrValue, Keep, Seq, Txt};

/// Values that `==` tells apart: those that it finds equal are one value, in all that a contract sees.
///
/// With the law of `Eq` that each value equals itself, `==` then decides whether two values are one.
pub trait Exact: Eq {
    ghost exact: { IsExact Self.eq };
}

impl Exact for usize {
    ghost exact = { exact_unsigned };
}

impl Exact for u32 {
    ghost exact = { exact_unsigned };
}

impl Exact for u64 {
    ghost exact = { exact_unsigned };
}

impl Exact for u128 {
    ghost exact = { exact_unsigned };
}

impl Exact for i128 {
    ghost exact = { exact_signed };
}

impl Exact for i64 {
    ghost exact = { exact_signed };
}

impl Exact for bool {
    ghost exact = { exact_bool };
}

impl Exact for Txt {
    ghost exact = { exact_texts };
}

impl<T: Exact> Exact for Seq<T> {
    ghost exact = { exact_lists T.exact };
}

impl<T: Exact> Exact for Option<T> {
    ghost exact = { exact_options T.exact };
}

impl<A: Exact, B: Exact> Exact for (A, B) {
    ghost exact = { exact_pairs A.exact B.exact };
}

impl Exact for AttrValue {
    ghost exact = { exact_values };
}

impl Exact for AttrSet {
    ghost exact = { exact_lists (exact_pairs exact_texts exact_values) };
}

impl Exact for AllowList {
    ghost exact = { exact_lists exact_texts };
}

impl Exact for Keep {
    ghost exact = { exact_keeps };
}
