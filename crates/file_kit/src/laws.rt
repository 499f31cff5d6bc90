//! What is true of files that hold no archive.
ghost use Rattle.std.specs.Prelude.{◌≡◌, ℕ, List, false};
ghost use Rattle.std.specs.FinMap.{keys};
ghost use Rattle.std.specs.List.{list_any};
ghost use Rattle.point_kit.specs.Exports.{Points};
ghost use Rattle.archive_kit.specs.Tombstones.{is_tombstone};
ghost use Rattle.file_kit.specs.Contents.{Says, Shows};

/// Files that come to no tombstone show all that they say.
#[tactic(auto, using(crate::proofs::Whole::all_shown))]
pub fn files_without_tombstones_show_all()
    ensures { (files : List (List ℕ)) (points : Points) → Says files points → list_any is_tombstone (keys points) ≡ false
        → Shows files points }
{}
