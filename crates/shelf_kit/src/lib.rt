//! A list on shelves: it takes a value into its middle, or out of it, by moving those of one shelf alone.
//!
//! Neither of the library's two ways to keep many values in order was enough for a gateway of a million incarnations. A `Vec` moves all
//! that stand behind a new one. A `BTreeMap` moves few; but it is asked by whole keys of its own, it knows no index, and what has changed
//! in it since some number is found by a look at each value. [`Shelves`] gives its caller three things together:
//!
//! - **Order.** Values stand by index, as in a vector, in the order that the caller gives them. [`Shelves::search`] finds one by a
//!   [`Target`], which may be a part of a key or a place between keys. A [`Walk`] lends a part of the list, in order.
//! - **Memory that may be refused.** Only [`Shelves::insert`] takes memory. Where that is refused, nothing has changed.
//! - **Bounds.** For each index a number, which its caller raises and which never falls. Those of a shelf stand side by side, apart from
//!   its values, and a number that none of them exceeds beside those of the other shelves. So [`Shelves::next_above`] passes over a shelf
//!   by one look, and looks at no value.
//!
//! Contracts see a list of values, and one of bounds that is as long. Shelves are not seen; costs alone speak of them. A shelf takes
//! at most 256 values where there was memory for another one. One that is too full is cut in half, and the last shelf of a list is left
//! full. So n values that only came stand on some n / 256 to n / 128 shelves. Shelves are not joined again where values go; one without
//! values goes itself.
//!
//! No clause counts steps, so what is said of costs is said in words alone. Two more things are, on which costs rest:
//!
//! - A bound is no higher than what it came with or was raised to. Clauses let it be: [`Shelves::next_above`] would then find more than
//!   has changed, and a caller that looks at all that it finds would look at each value.
//! - [`Shelves::run`] lends as many values as its page says. Clauses let it lend one: a caller would then ask again at each value.
//!
//! No answer would be wrong by either.
#![tactic(auto)]

mod part;
mod shelf;
mod shelves;
mod starts;
mod target;
#[cfg(test)]
mod tests;
mod walk;

pub use shelves::Shelves;
pub use target::Target;
pub use walk::Walk;
