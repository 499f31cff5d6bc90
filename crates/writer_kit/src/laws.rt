//! What a writer's steps mean for its schedule.
ghost use Rattle.std.specs.Prelude.{◌≡◌, ℕ, ℤ, Bool, false, None, Some, List, [], ◌∷◌, ◌++◌, length};
ghost use Rattle.agg_kit.specs.Entries.{Entry};
ghost use Rattle.agg_kit.specs.Feeds.{NoneCopies};
ghost use Rattle.agg_kit.specs.Measuring.{held_entry};
ghost use Rattle.agg_kit.specs.Rounds.{StandsFor};
ghost use Rattle.agg_kit.specs.Tallies.{Tallied};
ghost use Rattle.attr_kit.specs.declared.attr_set.AttrSet.{AttrSet};
ghost use Rattle.plan_kit.specs.Plans.{Planned, feeds_of};
ghost use Rattle.point_kit.specs.declared.writer_id.WriterId.{WriterId};
ghost use Rattle.recorder_kit.specs.Log.{Recording, ByName, ByNumber, taken_in};
ghost use Rattle.schedule_kit.specs.Schedule.Act.{Measured, Collected, Restarted};
ghost use Rattle.writer_kit.specs.Following.{Follows, measured_after, round_of};
ghost use Rattle.writer_kit.specs.Recorded.{recorded_of};
ghost use Rattle.writer_kit.specs.Recording.{new_writer, after_collect, after_hold, after_record, after_restart, after_take_in, round_now};
ghost use Rattle.writer_kit.specs.Refusals.{measure_fault, fault_now, early_fault, collect_fault, restart_fault};
ghost use Rattle.writer_kit.specs.Schedules.{Act, collection_after};
ghost use Rattle.writer_kit.specs.Shared.{History, StandsIn, after_writer_change, recorded_by};
ghost use Rattle.writer_kit.specs.Written.{Written};
ghost use Rattle.writer_kit.specs.declared.shared.change.WriterChange.TheVariants.{MeasuredHeld};

/// The steps of a writer are events of its schedule. A new writer follows none. One that follows events follows one
/// more after a recording, a collection or a restart, those that are recorded after a log, and no other after holding.
/// Its round is that of the collection which is read off them.
#[tactic(auto, using(crate::proofs::Following::starts, crate::proofs::Following::rounds_of))]
pub fn steps_are_events()
    ensures starts { (id : WriterId) (plan : Planned) (start : ℕ) → Follows start [] (new_writer id plan start) }
    ensures measured { (first : ℕ) (acts : List (Act Entry)) (w : Written) (e : Entry) → Follows first acts w
        → fault_now w (ByName e) ≡ None → Follows first (Measured e ∷ acts) (after_record w (ByName e)) }
    ensures collected { (first : ℕ) (acts : List (Act Entry)) (w : Written) (time : ℕ) (closing : Bool) → Follows first acts w
        → collect_fault w time ≡ None → Follows first (Collected time closing ∷ acts) (after_collect w time closing) }
    ensures restarted { (first : ℕ) (acts : List (Act Entry)) (w : Written) (start : ℕ) → Follows first acts w
        → restart_fault w start ≡ None → Follows first (Restarted start ∷ acts) (after_restart w start) }
    ensures held { (first : ℕ) (acts : List (Act Entry)) (w : Written) (i : ℕ) (a : AttrSet) → Follows first acts w
        → Follows first acts (after_hold w i a) }
    ensures measured_held { (first : ℕ) (acts : List (Act Entry)) (w : Written) (n : ℕ) (v : ℤ) (e : Entry) → Follows first acts w
        → held_entry w.tally n v ≡ Some e → fault_now w (ByNumber n v) ≡ None
        → Follows first (Measured e ∷ acts) (after_record w (ByNumber n v)) }
    ensures taken_in { (first : ℕ) (acts : List (Act Entry)) (w : Written) (rs : List Recording) → Follows first acts w
        → w.closed ≡ false → Follows first (measured_after acts (recorded_of w.tally rs)) (after_take_in w rs) }
    ensures round { (first : ℕ) (acts : List (Act Entry)) (w : Written) (time : ℕ) → Follows first acts w
        → round_now w time ≡ round_of w.tally.plan (collection_after first acts time) }
{}

/// Whatever recordings a writer's points stand for, it refuses one more as the definition says of these. Where no feed copies what
/// it keeps of the set, nothing is looked for after memory is wanted: it keeps all keys, or none that the set has.
#[tactic(auto, using(crate::proofs::Refusals::now_is, crate::proofs::Refusals::early_is))]
pub fn refusals_are_of_recordings()
    ensures refused { (w : Written) (h : List Entry) (e : Entry) → StandsFor w.tally h → fault_now w (ByName e) ≡ measure_fault w h e }
    ensures whole { (w : Written) (e : Entry) → NoneCopies e.attrs (feeds_of w.tally.plan e.instrument)
        → early_fault w (ByName e) ≡ fault_now w (ByName e) }
{}

/// What a change of a shared writer recorded. By a number it is one recording of what the number stands for. Of a log as many are
/// recorded as is told. By pieces a log's recordings are those that are recorded at once, in the same order. A number that stands for an
/// instrument and a set stands for them in every longer history.
#[tactic(auto, using(crate::proofs::Recorded::counted, crate::proofs::Recorded::recorded_by_pieces, crate::proofs::Sharing::held_is_one, crate::proofs::Sharing::stands_on))]
pub fn changes_are_recordings()
    ensures held { (w u : Written) (n : ℕ) (v : ℤ) → after_writer_change w (MeasuredHeld n v) ≡ Some u
        → (e : Entry) × (held_entry w.tally n v ≡ Some e) × (recorded_by w.tally (MeasuredHeld n v) ≡ e ∷ []) }
    ensures counted { (t : Tallied) (rs : List Recording) → length (recorded_of t rs) ≡ (taken_in t rs).recorded }
    ensures pieces { (t : Tallied) (rs qs : List Recording) → recorded_of t (rs ++ qs)
        ≡ recorded_of t rs ++ recorded_of (taken_in t rs).tally qs }
    ensures stays { (first : Written) (h more : History) (n i : ℕ) (a : AttrSet) → StandsIn first h n i a
        → StandsIn first (h ++ more) n i a }
{}
