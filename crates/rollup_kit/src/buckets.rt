//! The counts of a histogram's buckets.
ghost use Rattle.std.specs.Prelude.{◌≡◌, ℕ, ◌+◌, ◌<◌, ◌≤◌, ◌^◌, IfOk, length, slice_index};
ghost use Rattle.rollup_kit.specs.Counts.{counts_from, add_each};

use attr_kit::{NoMemory, Seq};
use std::alloc::Global;
use std::marker::Model;

/// The counts of a histogram's buckets, added up.
#[derive(Debug, Drop)]
pub struct Buckets {
    counts: Vec<u128>,
}

impl Model for Buckets {
    ghost use Rattle.std.specs.Prelude.{List, ℕ};

    ghost Value = { List ℕ };

    ghost view = { λ b. b.counts.items };
}

impl Buckets {
    /// So many buckets, all empty.
    #[tactic(auto, using(crate::proofs::Counts::no_counts))]
    pub(crate) fn empty(alloc: Global, len: usize) -> Result<Buckets, NoMemory>
        ensures { IfOk result (λ buckets. buckets ≡ counts_from 0 len (λ _. 0)) }
    {
        Ok(Buckets {
            counts: vec![in alloc; 0; len]?,
        })
    }

    /// Adds the counts of a point, place by place. What it lacks is 0, and what it has beyond is left out.
    pub(crate) fn add(&mut self, counts: &[u64])
        requires { (place : ℕ) → place < length self.old → slice_index self.old place + 2 ^ 64 ≤ 2 ^ 128 }
        ensures { self.new ≡ add_each 0 self.old (slice_index counts.now) }
    {
        for place in 0..self.counts.len() {
            if place < counts.len() {
                self.counts[place] += u128::from(counts[place]);
            }
        }
    }

    /// Takes no memory.
    pub(crate) fn into_seq(self) -> Seq<u128>
        ensures { result ≡ self }
    {
        let Buckets { counts } = self;
        Seq::from_vec(counts)
    }
}
