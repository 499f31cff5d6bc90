//! Lists of pairs: putting them in the order of their keys, searching and restricting them.
ghost use Rattle.std.specs.Prelude.{◌≡◌, ◌≢◌, [], ◌∷◌, IfOk, OnErr, position, not, false, filter};
ghost use Rattle.std.specs.FinMap.Entries.{is_sorted};
ghost use Rattle.std.specs.Option.{option_copied};
ghost use Rattle.attr_kit.specs.AllowLists.{is_listed};
ghost use Rattle.attr_kit.specs.Attributes.{has_text, AreAttributes};
ghost use Rattle.attr_kit.specs.Orders.{text_cmp};
ghost use Rattle.attr_kit.specs.Putting.{attributes_of, value_of};

use crate::{AllowList, AttrValue, NoMemory, TryCopy, Txt};
use std::collections::BTreeMap;

// The least place of an empty key.
pub(crate) fn empty_key_at(pairs: &[(Txt, AttrValue)]) -> Option<usize>
    ensures { result ≡ position (λ p. not (has_text p.0)) pairs.now }
{
    pairs.iter().position(|pair| pair.0.is_empty())
}

// Whether each key is below the next.
fn is_rising(pairs: &[(Txt, AttrValue)]) -> bool
    ensures { result ≡ is_sorted text_cmp pairs.now }
{
    pairs.is_sorted_by(|pair, next| pair.0 < next.0)
}

// The pairs in the order of their keys, the later value of each, by a tree.
#[tactic(auto, using(crate::proofs::Putting::attributes_none))]
fn through_tree(pairs: Vec<(Txt, AttrValue)>) -> Result<Vec<(Txt, AttrValue)>, NoMemory>
    ensures { IfOk result (λ sorted. sorted.items ≡ attributes_of pairs.items) }
{
    let alloc = *pairs.allocator();
    let mut map = BTreeMap::new(alloc);
    for (key, value) in pairs {
        map.insert(key, value)?;
    }
    let mut sorted = Vec::with_capacity(alloc, map.len())?;
    for (key, value) in map {
        sorted.push((key, value))?;
    }
    Ok(sorted)
}

// The pairs in the order of their keys, the later value of each. Takes no memory where they rise already.
pub(crate) fn in_order(pairs: Vec<(Txt, AttrValue)>) -> Result<Vec<(Txt, AttrValue)>, NoMemory>
    ensures value { IfOk result (λ sorted. sorted.items ≡ attributes_of pairs.items) }
    ensures no_memory { OnErr result (is_sorted text_cmp pairs.items ≡ false) }
{
    if is_rising(pairs.as_slice()) {
        Ok(pairs)
    } else {
        through_tree(pairs)
    }
}

// The value under a key, by halving.
pub(crate) fn value_under<'a>(pairs: &'a [(Txt, AttrValue)], key: &str) -> Option<&'a AttrValue>
    requires { AreAttributes pairs.now }
    ensures { option_copied result ≡ value_of key.now pairs.now }
{
    match pairs.binary_search_by(|pair| pair.0.as_str().cmp(key)) {
        Ok(place) => Some(&pairs[place].1),
        Err(_) => None,
    }
}

// Copies of the pairs whose key is listed. Takes no memory where none is.
pub(crate) fn copy_listed(
    pairs: &Vec<(Txt, AttrValue)>,
    list: &AllowList,
) -> Result<Vec<(Txt, AttrValue)>, NoMemory>
    ensures value { IfOk result (λ few. few.items ≡ filter (λ p. is_listed list.now p.0) pairs.now.items) }
    ensures no_memory { OnErr result (filter (λ p. is_listed list.now p.0) pairs.now.items ≢ []) }
{
    let mut few = Vec::new(*pairs.allocator());
    for pair in pairs {
        if list.has(pair.0.as_str()) {
            few.push(pair.try_copy()?)?;
        }
    }
    Ok(few)
}
