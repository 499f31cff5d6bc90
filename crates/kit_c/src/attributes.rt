//! Attributes: pairs are written down one by one, and sets are made of them.
ghost use Rattle.std.specs.Prelude.{◌≡◌, ◌≢◌, ◌++◌, ◌∷◌, [], pos, Some};
ghost use Rattle.attr_kit.specs.Putting.{attributes_of as set_of};
ghost use Rattle.attr_kit.specs.Refusing.{first};
ghost use Rattle.attr_kit.specs.declared.attr_value.AttrValue.TheVariants as values;
ghost use Rattle.kit_c.specs.Calls.{code_for, full_fault};
ghost use Rattle.kit_c.specs.Codes.{no_memory};
ghost use Rattle.kit_c.specs.Faults.{set_fault, text_fault};
ghost use Rattle.kit_c.specs.Held.{attributes_of, pairs_of};
ghost use Rattle.kit_c.specs.Places.{TellsPlace};

use crate::content::Content;
use crate::fault::{FULL, Fault, NO_MEMORY, OK, WRONG_KIND, code_with_place};
use crate::list::push;
use crate::text::text_of;
use crate::typed::{KitAttributes, KitPairs};
use crate::with::{add_to, copy_of, or_code};
use attr_kit::{AttrSet, AttrValue, Seq, TryCopy};
use std::alloc::Global;

/// Adds a pair whose value is a text. A handle that has nothing begins with it.
///
/// Refused, in this order: `NOT_TEXT` where the key or else the value is no UTF-8; `NO_MEMORY`.
#[unsafe(no_mangle)]
pub extern "C" fn kit_pairs_add_text(
    alloc: Global,
    pairs: &mut KitPairs,
    key: &[u8],
    value: &[u8],
) -> i32
    ensures code { result ≢ no_memory → result ≡ code_for (first (text_fault key.now ∷ text_fault value.now ∷ [])) }
    ensures value { result ≡ pos 0 → pairs_of pairs.new ≡ pairs_of pairs.old ++ (key.now, values.Text value.now) ∷ [] }
    ensures unchanged { result ≢ pos 0 → pairs_of pairs.new ≡ pairs_of pairs.old }
{
    let key = or_code!(text_of(alloc, key));
    let value = or_code!(text_of(alloc, value));
    add_to!(alloc, pairs => Pairs, (key, AttrValue::Text(value)))
}

/// Adds a pair whose value is a whole number. A handle that has nothing begins with it.
///
/// Refused, in this order: `NOT_TEXT` where the key is no UTF-8; `NO_MEMORY`.
#[unsafe(no_mangle)]
pub extern "C" fn kit_pairs_add_whole(
    alloc: Global,
    pairs: &mut KitPairs,
    key: &[u8],
    value: i64,
) -> i32
    ensures code { result ≢ no_memory → result ≡ code_for (text_fault key.now) }
    ensures value { result ≡ pos 0 → pairs_of pairs.new ≡ pairs_of pairs.old ++ (key.now, values.Whole value) ∷ [] }
    ensures unchanged { result ≢ pos 0 → pairs_of pairs.new ≡ pairs_of pairs.old }
{
    let key = or_code!(text_of(alloc, key));
    add_to!(alloc, pairs => Pairs, (key, AttrValue::Whole(value)))
}

/// Adds a pair whose value is a truth. A handle that has nothing begins with it.
///
/// Refused, in this order: `NOT_TEXT` where the key is no UTF-8; `NO_MEMORY`.
#[unsafe(no_mangle)]
pub extern "C" fn kit_pairs_add_truth(
    alloc: Global,
    pairs: &mut KitPairs,
    key: &[u8],
    value: bool,
) -> i32
    ensures code { result ≢ no_memory → result ≡ code_for (text_fault key.now) }
    ensures value { result ≡ pos 0 → pairs_of pairs.new ≡ pairs_of pairs.old ++ (key.now, values.Truth value) ∷ [] }
    ensures unchanged { result ≢ pos 0 → pairs_of pairs.new ≡ pairs_of pairs.old }
{
    let key = or_code!(text_of(alloc, key));
    add_to!(alloc, pairs => Pairs, (key, AttrValue::Truth(value)))
}

/// Makes a set of the pairs that a handle has, or of none where it has nothing. The pairs stay.
///
/// Refused, in this order: `FULL`; `EMPTY_KEY` with the least place of an empty key; `NO_MEMORY`. O(n log n) comparisons of keys, O(n)
/// where they rise already.
#[unsafe(no_mangle)]
pub extern "C" fn kit_attributes_make(
    alloc: Global,
    attributes: &mut KitAttributes,
    pairs: &mut KitPairs,
    place: &mut u64,
) -> i32
    ensures code { result ≢ no_memory
        → result ≡ code_for (first (full_fault (attributes_of attributes.old) ∷ set_fault (pairs_of pairs.old) ∷ [])) }
    ensures value { result ≡ pos 0 → attributes_of attributes.new ≡ Some (set_of (pairs_of pairs.old)) }
    ensures place { TellsPlace result (first (full_fault (attributes_of attributes.old) ∷ set_fault (pairs_of pairs.old) ∷ []))
        place.old place.new }
    ensures unchanged { result ≢ pos 0 → attributes_of attributes.new ≡ attributes_of attributes.old }
    ensures kept { pairs_of pairs.new ≡ pairs_of pairs.old }
{
    if attributes.handle.full {
        return FULL;
    }
    let copy = copy_of!(alloc, pairs => Pairs);
    match AttrSet::from_pairs(copy.into_vec()) {
        Ok(set) => attributes.handle.fill(alloc, Content::Attributes(set)),
        Err(fault) => code_with_place(Fault::Attributes(fault), place),
    }
}
