//! What a keeper answers to an export.

/// What became of an export that a keeper took.
#[derive(Clone, Copy, Debug, PartialEq, Eq)]
pub enum Taking {
    /// So many keys changed, the new ones among them; at least one.
    Taken(u64),
    /// No key changed: all that it has was held, or newer.
    Stale,
    /// A tombstone that was held names its incarnation: of its points only tombstones were taken.
    Late,
}
