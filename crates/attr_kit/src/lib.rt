//! Attributes of measurements: texts, values, and sets of pairs in the order of their keys.
//!
//! After "Attribute" and "Attribute Collections" of the OpenTelemetry common specification. In the order of use:
//!
//! - A [`Txt`] is a text. A key is one that is not empty; a value is an [`AttrValue`]: a text, a truth or a whole number.
//! - An [`AttrSet`] is a set of such pairs, each key once. An [`AttrFault`] says why pairs make none.
//! - A [`Keep`] is what a view keeps of a set: all of it, or the keys of an [`AllowList`].
//! - A [`Seq`] is a list that is not changed any more, a [`ShortText`] a text that takes no memory of its own.
//! - Copies may want memory ([`TryCopy`], [`copy_all`], [`NoMemory`]), and `==` tells all values apart ([`Exact`]).
//!
//! A caller, from `crates/uses/src/attributing.rt`:
//!
//!     let mut pairs = Vec::new(alloc);
//!     pairs.push((Txt::from_str(alloc, "status")?, AttrValue::Whole(status)))?;
//!     pairs.push((Txt::from_str(alloc, "route")?, AttrValue::Text(route)))?;
//!     Ok(pairs)
//!
//!     AttrSet::from_pairs(pairs_of(alloc, status, route)?)
//!
//! Contracts see plain values: a text as the list of its bytes, a set as the sorted list of its pairs.
#![tactic(auto)]

mod allow_list;
mod attr_set;
mod attr_value;
mod error;
mod exact;
mod keep;
mod pair_list;
mod pairs;
mod seq;
mod short_text;
mod try_copy;
mod txt;

pub use allow_list::AllowList;
pub use attr_set::AttrSet;
pub use attr_value::AttrValue;
pub use error::{AttrFault, NoMemory};
pub use exact::Exact;
pub use keep::Keep;
pub use seq::Seq;
pub use short_text::ShortText;
pub use try_copy::{TryCopy, copy_all};
pub use txt::Txt;
