//! What it means to join states.
ghost use Rattle.point_kit.specs.Exports.{JoinsExports, join_points};
ghost use Rattle.point_kit.specs.Join.{IsCommutative, IsAssociative, IsIdempotent, JoinsAbove, JoinsLeast};

/// States join, as `Gateway::merge` joins them: neither the order nor the grouping of joins matters, nor what comes again; the
/// join is the least state that has all that both have; and what comes of two lists of exports is the join of what comes of each.
#[tactic(auto, using(point_kit::proofs::PointLaws::points_commute, point_kit::proofs::PointLaws::points_associate, point_kit::proofs::PointLaws::points_idempotent, point_kit::proofs::PointLaws::points_above, point_kit::proofs::PointLaws::points_least, point_kit::proofs::PointLaws::states_join))]
pub fn states_join()
    ensures commutative { IsCommutative join_points }
    ensures associative { IsAssociative join_points }
    ensures idempotent { IsIdempotent join_points }
    ensures above { JoinsAbove join_points }
    ensures least { JoinsLeast join_points }
    ensures states { JoinsExports }
{}
