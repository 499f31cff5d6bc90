//! What is told of a log that was taken in.
ghost use Rattle.std.specs.Prelude.{◌≡◌, ◌≢◌, ◌+◌, ◌<◌, ◌≤◌, ◌^◌, true, false, length, take, slice_get, Some, IfErr, OnOk};
ghost use Rattle.agg_kit.specs.declared.fault.TallyFault.TheVariants as tally_faults;
ghost use Rattle.recorder_kit.specs.Lines.{outcome_of, recordings_of, with_recorded, with_refused, AllThere};
ghost use Rattle.recorder_kit.specs.Log.{taken_in, Recording, WantsMemory};

use crate::line::{Line, record_line, unknown_places};
use crate::names::Names;
use agg_kit::{Tally, TallyFault};

/// What became of recordings that were taken in from the front of a log: each of them was recorded, or refused by itself and recorded
/// nowhere. They are no longer in the log, whose front is now the first that was not looked at.
///
/// One answer speaks of one call: the next piece of a log has an answer of its own, whose places begin at 0 again.
#[derive(Debug, PartialEq, Eq, Drop)]
pub struct Taken {
    /// How many were recorded.
    pub recorded: usize,
    /// How many were refused.
    pub refused: usize,
    /// Which was refused first, by its place in the log before the call, and why: never for want of memory.
    pub first: Option<(usize, TallyFault)>,
}

impl Taken {
    // One recording more, and whether memory was there for it: else it is not counted.
    #[inline(always)]
    fn note(&mut self, told: Result<(), TallyFault>) -> bool
        requires { self.old.recorded + self.old.refused + 1 < 2 ^ 64 }
        ensures ok { OnOk told ((result ≡ true) × (self.new ≡ with_recorded self.old)) }
        ensures err { IfErr told (λ f. f ≢ TallyFault.NoMemory → (result ≡ true) × (self.new ≡ with_refused self.old f)) }
        ensures no_memory { IfErr told (λ f. f ≡ tally_faults.NoMemory → (result ≡ false) × (self.new ≡ self.old)) }
    {
        match told {
            Ok(()) => {
                self.recorded += 1;
                true
            }
            Err(TallyFault::NoMemory) => false,
            Err(fault) => {
                self.refuse(fault);
                true
            }
        }
    }

    #[inline(never)]
    fn refuse(&mut self, fault: TallyFault)
        requires { self.old.recorded + self.old.refused + 1 < 2 ^ 64 }
        ensures { self.new ≡ with_refused self.old fault }
    {
        if self.first.is_none() {
            self.first = Some((self.recorded + self.refused, fault));
        }
        self.refused += 1;
    }
}

/// Measures the recordings of lines in a tally, one after the other, up to the first that memory is not there for.
pub(crate) fn take_lines(tally: &mut Tally, names: &Names, lines: &[Line]) -> Taken
    requires { AllThere names.now.named.keys names.now.sets.keys lines.now }
    ensures within { result.recorded + result.refused ≤ length lines.now }
    ensures taken { outcome_of tally.new result
        ≡ taken_in tally.old (take (result.recorded + result.refused) (recordings_of names.now.named.keys names.now.sets.keys lines.now)) }
    ensures stopped { (r : Recording)
        → slice_get (recordings_of names.now.named.keys names.now.sets.keys lines.now) (result.recorded + result.refused) ≡ Some r
        → WantsMemory tally.new r }
{
    let mut taken = Taken {
        recorded: 0,
        refused: 0,
        first: None,
    };
    let mut places = unknown_places(*names.named.allocator(), names.named.len(), lines.len());
    for line in lines {
        let told = record_line(tally, names, &mut places, line);
        if !taken.note(told) {
            return taken;
        }
    }
    taken
}
