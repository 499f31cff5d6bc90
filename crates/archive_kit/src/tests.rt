//! What no clause says: numbers that an archive exports, each refusal, and a keeper that is told in any order.
//!
//! A body here owns one value at its exits and asks for one truth, which helpers that borrow find: so its proof is short.
mod adopting;
mod builders;
mod keeping;
mod planning;
mod texts;
