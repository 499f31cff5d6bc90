//! Words that list attributes.
ghost use Rattle.std.specs.Prelude.{◌≡◌, IfOk, option_map};
ghost use Rattle.script_kit.specs.Attributes.{meaning_of, pair_of, pairs_of, plain_text, set_of_pairs, attributes};

use crate::forms::text;
use crate::numbers::i64_of;
use crate::pieces::{cut_at_equals, split_at_commas};
use attr_kit::{AttrFault, AttrSet, AttrValue, NoMemory, Txt};
use std::alloc::Global;

fn plain_text(word: &str) -> &str
    ensures { result.now ≡ plain_text word.now }
{
    match word.strip_prefix('\'') {
        Some(text) => text,
        None => word,
    }
}

#[tactic(auto, unfolding(crate::specs::Attributes::meaning_of))]
fn value(alloc: Global, word: &str) -> Result<AttrValue, NoMemory>
    ensures { IfOk result (λ value. value ≡ meaning_of word.now) }
{
    if word == "true" {
        return Ok(AttrValue::Truth(true));
    }
    if word == "false" {
        return Ok(AttrValue::Truth(false));
    }
    match i64_of(word) {
        Some(number) => Ok(AttrValue::Whole(number)),
        None => Ok(AttrValue::Text(text(alloc, plain_text(word))?)),
    }
}

#[tactic(auto, unfolding(crate::specs::Attributes::pair_of))]
fn pair(alloc: Global, piece: &str) -> Result<Option<(Txt, AttrValue)>, NoMemory>
    ensures { IfOk result (λ found. found ≡ pair_of piece.now) }
{
    match cut_at_equals(piece) {
        None => Ok(None),
        Some((key, word)) => Ok(Some((text(alloc, key)?, value(alloc, word)?))),
    }
}

/// The pairs that a word lists, or `None` where it lists none.
#[tactic(auto, unfolding(crate::specs::Attributes::pairs_of))]
pub(crate) fn pairs(alloc: Global, word: &str) -> Result<Option<Vec<(Txt, AttrValue)>>, NoMemory>
    ensures { IfOk result (λ found. option_map (λ v. v.items) found ≡ pairs_of word.now) }
{
    let mut pairs = Vec::new(alloc);
    if word == "-" {
        return Ok(Some(pairs));
    }
    let pieces = split_at_commas(alloc, word)?;
    for piece in &pieces {
        match pair(alloc, piece)? {
            None => return Ok(None),
            Some(pair) => pairs.push(pair)?,
        }
    }
    Ok(Some(pairs))
}

#[tactic(auto, unfolding(crate::specs::Attributes::set_of_pairs))]
fn set_of_pairs(pairs: Vec<(Txt, AttrValue)>) -> Result<Option<AttrSet>, NoMemory>
    ensures { IfOk result (λ found. found ≡ set_of_pairs pairs.items) }
{
    match AttrSet::from_pairs(pairs) {
        Ok(set) => Ok(Some(set)),
        Err(AttrFault::EmptyKey(_)) => Ok(None),
        Err(AttrFault::NoMemory) => Err(NoMemory),
    }
}

/// The attribute set that a word lists: `-`, or pairs of a key that is not empty, `=` and a value, with commas between.
#[tactic(auto, unfolding(crate::specs::Attributes::attributes))]
pub(crate) fn attributes(alloc: Global, word: &str) -> Result<Option<AttrSet>, NoMemory>
    ensures { IfOk result (λ found. found ≡ attributes word.now) }
{
    match pairs(alloc, word)? {
        None => Ok(None),
        Some(pairs) => set_of_pairs(pairs),
    }
}
