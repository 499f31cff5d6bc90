//! The pairs of a set, with the orders that derive from theirs.
ghost use Rattle.std.specs.Prelude.{◌≡◌};

use crate::{AttrValue, Seq, Txt};
use std::marker::Model;

/// Pairs in the order of their keys.
#[derive(Debug, PartialEq, Eq, PartialOrd, Ord, Hash, Drop)]
pub(crate) struct Pairs {
    pub(crate) pairs: Seq<(Txt, AttrValue)>,
}

impl Model for Pairs {
    ghost use Rattle.std.specs.Prelude.{List, ℕ};
    ghost use Rattle.attr_kit.specs.declared.attr_value.AttrValue.{AttrValue};

    ghost Value = { List (List ℕ × AttrValue) };

    ghost view = { λ s. s.pairs };

    ghost inverse = { λ l. record { pairs = l } };
}

impl Pairs {
    pub(crate) fn as_vec(&self) -> &Vec<(Txt, AttrValue)>
        ensures { result.now.items ≡ self.now }
    {
        self.pairs.as_vec()
    }
}
