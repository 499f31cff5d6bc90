//! What no clause says: an incarnation among others, and what threads do at once.
pub mod builders;
mod deliveries;
