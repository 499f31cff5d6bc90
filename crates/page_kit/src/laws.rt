//! What is true of every page.
ghost use Rattle.page_kit.specs.Laws.{RowsDiffer, FamiliesDiffer};
ghost use Rattle.page_kit.specs.Recorded.{NumbersAreRecorded};

/// The labels of a family's rows differ, so no sample stands twice. The metrics that are shown claim names that differ, and none
/// that the kit's own families have, so no name means two families.
#[tactic(auto, using(crate::proofs::PageLaws::rows_differ, crate::proofs::PageLaws::families_differ))]
pub fn rows_and_families_differ()
    ensures rows { RowsDiffer }
    ensures families { FamiliesDiffer }
{}

/// Each number of a page is what was recorded, where no two writers share an identity. Every row is shown then, and its sum is that of
/// the values recorded under the row's keys, in each incarnation up to its newest collection that the gateway took, each counted
/// once. A histogram's count is their number, and a bucket's is the number of those that are not above its bound. So it is on a page that
/// leaves out a scope. Of a gauge nothing is said: its newest value counts.
#[tactic(auto, using(crate::proofs::Recordings::numbers_recorded))]
pub fn numbers_are_recorded()
    ensures numbers { NumbersAreRecorded }
{}
