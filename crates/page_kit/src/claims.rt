//! Names that are claimed.
ghost use Rattle.std.specs.Prelude.{◌≡◌, ◌++◌, List, ℕ, OnOk};
ghost use Rattle.page_kit.specs.Families.{IsClaimed, are_claimed};

use attr_kit::{NoMemory, Txt};
use std::collections::BTreeSet;

/// Whether one of these names is claimed.
pub(crate) fn is_claimed(claimed: &BTreeSet<Txt>, claims: &[Txt]) -> bool
    ensures { (names : List (List ℕ)) → IsClaimed names claimed.now.keys → result ≡ are_claimed names claims.now }
{
    for claim in claims {
        if claimed.contains(claim) {
            return true;
        }
    }
    false
}

/// Claims these names.
pub(crate) fn claim(claimed: &mut BTreeSet<Txt>, claims: Vec<Txt>) -> Result<(), NoMemory>
    ensures { OnOk result ((names : List (List ℕ)) → IsClaimed names claimed.old.keys
        → IsClaimed (claims.items ++ names) claimed.new.keys) }
{
    for claim in claims {
        claimed.insert(claim)?;
    }
    Ok(())
}
