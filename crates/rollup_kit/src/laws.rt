//! What is true of the roll-ups of every lawful history.
ghost use Rattle.std.specs.Prelude.{◌≡◌, ℕ, ℤ, Bool, List};
ghost use Rattle.point_kit.specs.declared.key.Key.{Key};
ghost use Rattle.point_kit.specs.declared.payload.Payload.{Payload};
ghost use Rattle.schedule_kit.specs.Deeds.{Deed, Holder, AreLawful, IsTold};
ghost use Rattle.schedule_kit.specs.Rounds.{Rounding, IsSound, state};
ghost use Rattle.schedule_kit.specs.Rows.{values_fed, keys_fed};
ghost use Rattle.schedule_kit.specs.Taken.{taken_collections, recorded_up_to, incarnations};
ghost use Rattle.schedule_kit.specs.Totals.{IsSum};
ghost use Rattle.rollup_kit.specs.Fleets.{FleetRows, NotTakenIsMissing};
ghost use Rattle.rollup_kit.specs.Parts.{no_parts, plus_parts};
ghost use Rattle.rollup_kit.specs.Recordings.{PayloadsAddUp, by_keys, AreFed};
ghost use Rattle.rollup_kit.specs.Rollups.{AddsUp, rollup_rows, recorded_rows};
ghost use Rattle.rollup_kit.specs.Writers.{RowsAgree};
ghost use Rattle.rollup_kit.specs.declared.ask.Ask.{Ask};

/// What points say adds up, in any order and however it is grouped; and a sum or a histogram of values says what the
/// values come to, each by itself.
#[tactic(auto, using(crate::proofs::PartLaws::parts_add_up, crate::proofs::ValueLaws::payload_added))]
pub fn points_add_up()
    ensures sum { IsSum no_parts plus_parts }
    ensures payloads { PayloadsAddUp }
{}

/// Where no two writers share an identity, the rows of a sum or a histogram that a gateway answers are those of what the
/// writers recorded in each incarnation up to its newest collection that the gateway took, each value added up by itself.
#[tactic(auto, using(crate::proofs::Recordings::rollup_recorded))]
pub fn rows_are_recorded<N, I, X>()
    ensures exact { (ask : Ask) → AddsUp ask.stream.shape → (r : Rounding N Key I X Payload) → IsSound (by_keys r)
        → (fits : ℕ → List N → N → Bool) (starts : List ℕ) (gateways : ℕ) → IsTold r.who starts
        → (ds : List (Deed N)) → AreLawful fits starts gateways ds → (h : Holder)
        → (fed : ℕ → List N → List (X × ℤ)) → AreFed ask (by_keys r) fed
        → rollup_rows ask (state (by_keys r) (taken_collections starts ds h))
        ≡ recorded_rows ask
        (values_fed (by_keys r) (recorded_up_to starts ds h) (incarnations starts ds) fed)
        (keys_fed (by_keys r) (recorded_up_to starts ds h) (incarnations starts ds)) }
{}

/// What is recorded comes to the same rows in whatever order the entries of each writer stand, where no stream is past the
/// limit of attribute sets; past it the rows that leave out all attributes do.
#[tactic(auto, using(crate::proofs::Agreeing::rows_agree))]
pub fn rows_go_by_entries()
    ensures rows { RowsAgree }
{}

/// A gateway that took one collection of each writer answers with what the writers' jobs recorded, in whatever order their
/// recordings came; of a writer whose collection it did not take, it has no point.
#[tactic(auto, using(crate::proofs::Fleets::fleet_rows, crate::proofs::Missing::not_taken_is_missing))]
pub fn fleets_answer_for_jobs()
    ensures rows { FleetRows }
    ensures missing { NotTakenIsMissing }
{}
