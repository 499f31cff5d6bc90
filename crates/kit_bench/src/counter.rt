//! The counter that both locks are put round.
ghost use Rattle.std.specs.Prelude.{◌≡◌, ℕ, ◌+◌, ◌<◌, ◌≤◌, false, true};
ghost use Rattle.kit_bench.specs.Counting.{count_after};

use std::marker::Model;
use turn_kit::{Machine, Step};

const MOST: u64 = 1000000000;

/// A count of at most a billion. Contracts see it as its number.
#[derive(Drop)]
pub struct Counter {
    count: u64,
}

impl Model for Counter {
    ghost Value = { ℕ };

    ghost view = { λ c. c.count };

    ghost invariant = { λ c. c.count ≤ 1000000000 };
}

impl Counter {
    pub fn new() -> Counter
        ensures { result ≡ 0 }
    {
        Counter { count: 0 }
    }

    pub fn count(&self) -> u64
        ensures { result ≡ self.now }
    {
        self.count
    }

    /// Adds, where the count is then not too high, and says whether it did.
    pub fn add(&mut self, by: u64) -> bool
        ensures added { result ≡ true → (self.new ≡ self.old + by) × (self.old + by ≤ 1000000000) }
        ensures refused { result ≡ false → (self.new ≡ self.old) × (1000000000 < self.old + by) }
    {
        if by > MOST || self.count + by > MOST {
            return false;
        }
        self.count += by;
        true
    }
}

impl Machine for Counter {
    type Entry = u64;

    ghost State = { ℕ };

    ghost state = { λ n. n };

    ghost after = { count_after };
}

/// Adds to the count.
#[derive(Drop)]
pub struct Add {
    pub by: u64,
}

/// The count would be too high.
#[derive(Drop)]
pub struct TooHigh;

impl Step<Counter> for Add {
    type Reply = ();

    type Refusal = TooHigh;

    ghost entry = { λ a. a.by };

    ghost replies = { λ _ _ _. Unit {0} };

    ghost refuses = { λ a n _. 1000000000 < n + a.by };

    fn step(self, machine: &mut Counter) -> Result<(), TooHigh> {
        if machine.add(self.by) {
            Ok(())
        } else {
            Err(TooHigh)
        }
    }
}
