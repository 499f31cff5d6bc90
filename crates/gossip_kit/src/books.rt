//! What each peer of a node acknowledged.
ghost use Rattle.std.specs.Prelude.{◌≡◌, IsOk, IsSome, OnOk, OnErr};
ghost use Rattle.std.specs.FinMap as finite;
ghost use Rattle.gossip_kit.specs.Gossip.{raised_to};

use attr_kit::NoMemory;
use std::alloc::{AllocFailed, Global};
use std::collections::HashMap;
use std::marker::Model;

/// The greatest change number that each peer acknowledged, by its id.
#[derive(Debug, Drop)]
pub(crate) struct Books {
    acked: HashMap<u32, u64>,
}

impl Model for Books {
    ghost use Rattle.std.specs.Prelude.{ℕ};
    ghost use Rattle.std.specs.FinMap.{FinMap, code};
    ghost use Rattle.std.specs.Ordering.{nat_cmp};
    ghost use Rattle.std.specs.Coded.{codes};
    ghost use Rattle.gossip_kit.specs.Keyed.{kept_books};

    ghost Value = { FinMap nat_cmp ℕ };

    ghost coded = { Prim.hlevel (codes, code) };

    ghost view = { λ b. kept_books b.acked };
}

impl Books {
    /// Nobody acknowledged anything. Takes no memory.
    pub(crate) fn new(alloc: Global) -> Books
        ensures { result ≡ finite.empty }
    {
        Books {
            acked: HashMap::new(alloc),
        }
    }

    /// The greatest number that the node of an id acknowledged.
    pub(crate) fn number(&self, id: u32) -> Option<u64>
        ensures { result ≡ finite.get self.now id }
    {
        self.acked.get(&id).copied()
    }

    /// The node of an id acknowledges a number. Takes memory only where it never did before.
    pub(crate) fn raise(&mut self, id: u32, number: u64) -> Result<(), NoMemory>
        ensures ok { OnOk result (self.new ≡ raised_to self.old id number) }
        ensures unchanged { OnErr result (self.new ≡ self.old) }
        ensures known { IsSome (finite.get self.old id) → IsOk result }
    {
        let before = self.number(id).unwrap_or(0);
        self.acked.insert(id, before.max(number))?;
        Ok(())
    }
}
