//! What lets recordings pass.
ghost use Rattle.std.specs.Prelude.{ℕ, Bool};

use std::sync::Wait;

/// What a recorder asks before each of its recordings, while it does not hold the turn of its writer.
pub trait Gate {
    // Whether it may answer so, of an entry of a job, both by place.
    ghost passes: { Self → ℕ → ℕ → Bool → Type 0 };

    /// Whether this entry of this job, both by place, may be recorded. It may wait, and any thread may ask.
    fn pass<R: Wait>(&self, rt: &R, job: usize, entry: usize) -> bool
        ensures { passes self.now job entry result };
}

/// A gate that is never shut: it lets every recording pass, and waits for nothing.
#[derive(Clone, Copy, Debug, Drop)]
pub struct Open;

impl Gate for Open {
    ghost use Rattle.std.specs.Prelude.{◌≡◌, true};

    ghost passes = { λ _ _ _ answer. answer ≡ true };

    fn pass<R: Wait>(&self, _rt: &R, _job: usize, _entry: usize) -> bool {
        true
    }
}
