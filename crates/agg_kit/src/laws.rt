//! What tallies stand for.
ghost use Rattle.std.specs.Prelude.{◌≡◌, ◌++◌, ◌∷◌, [], List};
ghost use Rattle.plan_kit.specs.Plans.{feeds_of};
ghost use Rattle.agg_kit.specs.Entries.{Entry};
ghost use Rattle.agg_kit.specs.Feeds.{NoneCopies};
ghost use Rattle.agg_kit.specs.Laws.{SumsAddUp, CountsAddUp, IsLimited, OwnPointsStay, FedGrows, PlacesStay, PlacesStayHeld, RoundsHaveFed};
ghost use Rattle.agg_kit.specs.Measuring.{after_measure, early_fault_of, emptied_tally, fault_of};
ghost use Rattle.agg_kit.specs.Refusals.{first_refusal};
ghost use Rattle.agg_kit.specs.Rounds.{StandsFor};
ghost use Rattle.agg_kit.specs.Tallies.{Tallied};

/// The steps of a tally are recordings: one without points stands for none of them, one that stands for a list stands after
/// a recording for the list followed by it, and refuses what is refused after the list. Where no feed copies
/// what it keeps of the set, nothing is looked for after memory is wanted: it keeps all keys, or none that the set has.
pub fn steps_are_recordings()
    ensures empty { (t : Tallied) → StandsFor (emptied_tally t) [] }
    ensures stands { (t : Tallied) (h : List Entry) (e : Entry) → StandsFor t h → StandsFor (after_measure t e) (h ++ e ∷ []) }
    ensures refused { (t : Tallied) (h : List Entry) (e : Entry) → StandsFor t h → fault_of t e ≡ first_refusal t.plan h e }
    ensures whole { (t : Tallied) (e : Entry) → NoneCopies e.attrs (feeds_of t.plan e.instrument) → early_fault_of t e ≡ fault_of t e }
{}

/// What is known of the places of an instrument with a set stays true of a tally after any recording, by a set or at a held point:
/// a set goes where it went, once its point is there. A tally that begins anew has no places.
#[tactic(auto, using(crate::proofs::HeldPoints::places_stay_by_set, crate::proofs::HeldPoints::places_stay_held))]
pub fn places_stay()
    ensures set { PlacesStay }
    ensures held { PlacesStayHeld }
{}

/// Rounds have what was fed: sums and counts add up, the limit holds, later recordings leave what was fed, and a round has
/// each set that was fed, once, with the payload of its values.
#[tactic(auto, using(crate::proofs::RoundLaws::sums_add_up, crate::proofs::RoundLaws::counts_add_up, crate::proofs::RoundLaws::is_limited, crate::proofs::RoundLaws::own_points_stay, crate::proofs::RoundLaws::fed_grows))]
pub fn rounds_have_what_was_fed()
    ensures sums { SumsAddUp }
    ensures counts { CountsAddUp }
    ensures limited { IsLimited }
    ensures own { OwnPointsStay }
    ensures grows { FedGrows }
    ensures fed { RoundsHaveFed }
{}
