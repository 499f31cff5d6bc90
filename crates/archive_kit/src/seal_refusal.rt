//! Why an archive is not sealed.
use thiserror::Error;

/// Why an archive is not sealed, in the order in which it is looked for.
#[derive(Clone, Copy, Debug, PartialEq, Eq, Error)]
pub enum SealRefusal {
    /// The start is not later than the last export, or than the start before it.
    #[error("the start is not later than the last export")]
    StartNotLater,
    /// It adopted incarnations since its last export: no export would have their points.
    #[error("incarnations were adopted since the last export")]
    Unexported,
}
