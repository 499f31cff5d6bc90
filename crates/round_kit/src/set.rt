//! Attribute sets in an arena.
ghost use Rattle.std.specs.Prelude.{◌≡◌, ◌+◌, ◌<◌, ◌++◌, ◌∷◌, [], IfOk, IsTrue, OnOk, length, map, vec_len, vec_capacity};
ghost use Rattle.std.specs.Map.{keys_of, values_of};
ghost use Rattle.std.specs.Option.{option_copied};
ghost use Rattle.attr_kit.specs.Attributes.{AreAttributes};
ghost use Rattle.round_kit.specs.Placed.{text_of, value_of, pairs_of};

use crate::text::RoundText;
use attr_kit::{AttrSet, AttrValue, NoMemory, Txt};
use bumpalo::Bump;
use bumpalo::collections::into_bump_slice;
use std::alloc::Global;
use std::marker::Model;

/// The value of an attribute, in an arena. A text of at most 20 bytes lies in the value itself.
#[derive(Debug, Drop)]
pub enum RoundValue<'b> {
    Short(RoundText),
    Long(&'b str),
    Truth(bool),
    Whole(i64),
}

impl<'b> RoundValue<'b> {
    /// The text, where the value is one.
    pub fn text(&self) -> Option<&str>
        ensures { option_copied result ≡ text_of (value_of self.now) }
    {
        match self {
            RoundValue::Short(text) => Some(text.as_str()),
            RoundValue::Long(text) => Some(*text),
            RoundValue::Truth(_) | RoundValue::Whole(_) => None,
        }
    }

    fn copy_out(&self, alloc: Global) -> Result<AttrValue, NoMemory>
        ensures { IfOk result (λ value. value ≡ value_of self.now) }
    {
        Ok(match self {
            RoundValue::Short(text) => AttrValue::Text(Txt::from_str(alloc, text.as_str())?),
            RoundValue::Long(text) => AttrValue::Text(Txt::from_str(alloc, text)?),
            RoundValue::Truth(truth) => AttrValue::Truth(*truth),
            RoundValue::Whole(number) => AttrValue::Whole(*number),
        })
    }
}

/// An attribute set in an arena: the list of its keys, which sets that were placed in a row share where they have the same,
/// and the list of its values.
#[derive(Debug, Drop)]
pub struct RoundSet<'b> {
    keys: &'b [&'b str],
    values: &'b [RoundValue<'b>],
}

impl<'b> Model for RoundSet<'b> {
    ghost use Rattle.std.specs.Prelude.{◌≡◌, List, ℕ, length};
    ghost use Rattle.attr_kit.specs.Attributes.{AreAttributes};
    ghost use Rattle.attr_kit.specs.declared.attr_value.AttrValue.{AttrValue};
    ghost use Rattle.round_kit.specs.Placed.{pairs_of};

    ghost Value = { List (List ℕ × AttrValue) };

    ghost view = { λ s. pairs_of s.keys.now s.values.now };

    ghost invariant = { λ s. (length s.keys.now ≡ length s.values.now) × AreAttributes (pairs_of s.keys.now s.values.now) };
}

impl<'b> RoundSet<'b> {
    /// The keys, each once and none empty, in their order.
    #[tactic(auto, using(crate::proofs::Pairs::keys_apart))]
    pub fn keys(&self) -> &'b [&'b str]
        ensures value { map (λ key. key.now) result.now ≡ keys_of self.now }
        ensures attributes { AreAttributes self.now }
    {
        self.keys
    }

    /// The values, in the order of their keys.
    #[tactic(auto, using(crate::proofs::Pairs::values_apart))]
    pub fn values(&self) -> &'b [RoundValue<'b>]
        ensures value { map value_of result.now ≡ values_of self.now }
    {
        self.values
    }

    /// A set in an arena, whose keys lie there already.
    #[tactic(auto, using(crate::proofs::Pairs::pairs_again, crate::proofs::Pairs::as_many))]
    pub(crate) fn place(
        bump: &'b Bump,
        keys: &'b [&'b str],
        set: &AttrSet,
    ) -> Result<RoundSet<'b>, NoMemory>
        requires { map (λ key. key.now) keys.now ≡ keys_of set.now }
        ensures { IfOk result (λ placed. placed ≡ set.now) }
    {
        Ok(RoundSet {
            keys,
            values: place_values(bump, set.pairs())?,
        })
    }

    pub(crate) fn copy_out(&self, alloc: Global) -> Result<AttrSet, NoMemory>
        ensures { IfOk result (λ set. set ≡ self.now) }
    {
        Ok(AttrSet::from_attributes(copy_pairs(alloc, self.keys, self.values)?))
    }
}

// Whether these are the keys of the pairs.
fn are_keys(keys: &[&str], pairs: &[(Txt, AttrValue)]) -> bool
    ensures { IsTrue result → map (λ key. key.now) keys.now ≡ keys_of pairs.now }
{
    if keys.len() != pairs.len() {
        return false;
    }
    for (index, (key, _)) in pairs.iter().enumerate() {
        if keys[index] != key.as_str() {
            return false;
        }
    }
    true
}

/// The keys of a set, in an arena: those that were placed before, where they are the same. Where they are known to be, they
/// are not compared; this is inlined, so that a loop over such sets calls nothing for it.
#[inline(always)]
pub(crate) fn keys_for<'b>(
    bump: &'b Bump,
    before: &'b [&'b str],
    are_known: bool,
    set: &AttrSet,
) -> Result<&'b [&'b str], NoMemory>
    requires { IsTrue are_known → map (λ key. key.now) before.now ≡ keys_of set.now }
    ensures { IfOk result (λ keys. map (λ key. key.now) keys.now ≡ keys_of set.now) }
{
    if are_known {
        Ok(before)
    } else {
        compared_keys(bump, before, set)
    }
}

// The keys of a set, compared with those that were placed before.
#[inline(never)]
fn compared_keys<'b>(
    bump: &'b Bump,
    before: &'b [&'b str],
    set: &AttrSet,
) -> Result<&'b [&'b str], NoMemory>
    ensures { IfOk result (λ keys. map (λ key. key.now) keys.now ≡ keys_of set.now) }
{
    if are_keys(before, set.pairs()) {
        Ok(before)
    } else {
        place_keys(bump, set.pairs())
    }
}

fn place_keys<'b>(bump: &'b Bump, pairs: &[(Txt, AttrValue)]) -> Result<&'b [&'b str], NoMemory>
    ensures { IfOk result (λ keys. map (λ key. key.now) keys.now ≡ keys_of pairs.now) }
{
    let mut keys: Vec<&'b str, &'b Bump> = Vec::with_capacity(bump, pairs.len())?;
    for (key, _) in pairs {
        keys.push(bump.try_alloc_str(key.as_str())?)?;
    }
    Ok(into_bump_slice(keys))
}

// Puts a value at the end of a list that has room for it. Each kind is put there as it is made: a value that is made first
// and put there later is copied twice.
fn put_value<'b>(
    bump: &'b Bump,
    values: &mut Vec<RoundValue<'b>, &'b Bump>,
    value: &AttrValue,
) -> Result<(), NoMemory>
    requires { vec_len values.old < vec_capacity values.old }
    ensures placed { OnOk result (map value_of values.new.items ≡ map value_of values.old.items ++ value.now ∷ []) }
    ensures len { OnOk result (vec_len values.new ≡ vec_len values.old + 1) }
    ensures room { OnOk result (vec_capacity values.new ≡ vec_capacity values.old) }
{
    match value {
        AttrValue::Text(text) => {
            if let Some(short) = text.short() {
                if let Some(text) = RoundText::of(short) {
                    values.push_reserved(RoundValue::Short(text));
                    return Ok(());
                }
            }
            let text = bump.try_alloc_str(text.as_str())?;
            values.push_reserved(RoundValue::Long(text));
        }
        AttrValue::Truth(truth) => values.push_reserved(RoundValue::Truth(*truth)),
        AttrValue::Whole(number) => values.push_reserved(RoundValue::Whole(*number)),
    }
    Ok(())
}

fn place_values<'b>(
    bump: &'b Bump,
    pairs: &[(Txt, AttrValue)],
) -> Result<&'b [RoundValue<'b>], NoMemory>
    ensures { IfOk result (λ values. map value_of values.now ≡ values_of pairs.now) }
{
    // The list is given its room where it stays: `with_capacity` answers a list, which is copied before it is used.
    let mut values: Vec<RoundValue<'b>, &'b Bump> = Vec::new(bump);
    values.reserve_exact(pairs.len())?;
    for (_, value) in pairs {
        put_value(bump, &mut values, value)?;
    }
    Ok(into_bump_slice(values))
}

// The pairs of a set, copied out of the arena.
fn copy_pairs(
    alloc: Global,
    keys: &[&str],
    values: &[RoundValue<'_>],
) -> Result<Vec<(Txt, AttrValue)>, NoMemory>
    requires { length keys.now ≡ length values.now }
    ensures { IfOk result (λ copy. copy.items ≡ pairs_of keys.now values.now) }
{
    let mut copy = Vec::with_capacity(alloc, keys.len())?;
    for (index, key) in keys.iter().enumerate() {
        let key = Txt::from_str(alloc, key)?;
        copy.push((key, values[index].copy_out(alloc)?))?;
    }
    Ok(copy)
}
