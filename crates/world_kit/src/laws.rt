//! What holds of every world that stands for what happened in it.
ghost use Rattle.world_kit.specs.Answering.{AnswersRecorded};
ghost use Rattle.world_kit.specs.Converging.{AnswersAlike, Converges};
ghost use Rattle.world_kit.specs.Exact.{AreTold, HoldsNoConflict, HoldsNewest};
ghost use Rattle.world_kit.specs.WorldState.{WorldState};
ghost use Rattle.world_kit.specs.Judged.{Deeds};
ghost use Rattle.world_kit.specs.Stands.{Stands};
ghost use Rattle.world_kit.specs.declared.setup.Setup.{Setup};

/// Gateways that took the same exports, in any order, with repeats and through any merges and mails, hold equal points
/// and answer every query alike.
#[tactic(auto, using(crate::proofs::Replays::converges, crate::proofs::Replays::answers_alike))]
pub fn gateways_converge()
    ensures converges { (s : Setup) (ds : Deeds) (w : WorldState) → Stands s ds w → Converges ds w }
    ensures alike { (s : Setup) (ds : Deeds) (w : WorldState) → Stands s ds w → AnswersAlike ds w }
{}

/// Where no two writers share an identity, no conflict stands at any gateway, and each incarnation's part of a gateway is
/// the newest round that it took, or nothing.
#[tactic(auto, using(crate::proofs::Bridging::without_conflict, crate::proofs::Bridging::part_of))]
pub fn parts_are_newest_rounds()
    ensures no_conflict { (s : Setup) (ds : Deeds) (w : WorldState) → Stands s ds w → AreTold s → HoldsNoConflict w }
    ensures part { (s : Setup) (ds : Deeds) (w : WorldState) → Stands s ds w → AreTold s → HoldsNewest s ds w }
{}

/// Where no two writers share an identity, each gateway's roll-up of a sum or a histogram is that of what was recorded: of
/// every incarnation the recordings up to its newest collection that the gateway took, each counted once.
#[tactic(auto, using(crate::proofs::Answered::answers))]
pub fn roll_ups_are_recorded()
    ensures exact { (s : Setup) (ds : Deeds) (w : WorldState) → Stands s ds w → AreTold s → AnswersRecorded s ds w }
{}
