//! Which attributes of a set are kept.
ghost use Rattle.std.specs.Prelude.{◌≡◌, IfOk};
ghost use Rattle.attr_kit.specs.Keeping.{keeps};

use crate::{AllowList, NoMemory};

/// Which attributes of a set are kept: all, or those whose keys are listed.
///
/// This is what a view of the OpenTelemetry metrics SDK names its `attribute_keys`: "an allow-list of attribute keys for
/// measurements captured in the metric stream", the others being ignored.
#[derive(Debug, PartialEq, Eq, Drop)]
pub enum Keep {
    /// Every attribute is kept.
    All,
    /// The attributes with a listed key are kept; none where the list is empty.
    Only(AllowList),
}

impl Keep {
    /// Whether an attribute with this key is kept. O(log m) comparisons for m listed keys; takes no memory.
    pub fn keeps(&self, key: &str) -> bool
        ensures { result ≡ keeps self.now key.now }
    {
        match self {
            Keep::All => true,
            Keep::Only(list) => list.has(key),
        }
    }

    /// An equal value. O(m) for m listed keys.
    pub fn try_copy(&self) -> Result<Keep, NoMemory>
        ensures { IfOk result (λ copy. copy ≡ self.now) }
    {
        Ok(match self {
            Keep::All => Keep::All,
            Keep::Only(list) => Keep::Only(list.try_copy()?),
        })
    }
}
