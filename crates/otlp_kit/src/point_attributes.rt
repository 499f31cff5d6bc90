//! Attributes of a point.
ghost use Rattle.std.specs.Prelude.{◌≡◌, ◌≢◌, ◌++◌, [], ◌∷◌, Ok, Err, IfOk, IfErr, OnOk};
ghost use Rattle.std.specs.List.{list_any};
ghost use Rattle.otlp_kit.specs.Reading.{value_of, content_value, key_of, has_key, attribute, attributes, add_attribute};
ghost use Rattle.otlp_kit.specs.Walks.{walk};

use crate::key_value::{AnyContent, AnyValue, KeyValue};
use crate::limits::are_many;
use crate::{RequestFault, RequestReason};
use attr_kit::{AttrSet, AttrValue, NoMemory, Txt};
use std::alloc::Global;

#[inline(always)]
fn content_value(content: &Option<AnyContent>) -> Result<Option<AttrValue>, NoMemory>
    ensures { IfOk result (λ value. value ≡ content_value content.now) }
{
    Ok(match content {
        Some(AnyContent::Text(text)) => Some(AttrValue::Text(text.try_copy()?)),
        Some(AnyContent::Truth(truth)) => Some(AttrValue::Truth(*truth)),
        Some(AnyContent::Whole(number)) => Some(AttrValue::Whole(*number)),
        _ => None,
    })
}

// The value of an attribute, if it is one that the kit has.
#[inline(always)]
fn value_of(value: &Option<AnyValue>) -> Result<Option<AttrValue>, NoMemory>
    ensures { IfOk result (λ found. found ≡ value_of value.now) }
{
    match value {
        Some(value) => content_value(&value.content),
        None => Ok(None),
    }
}

/// The key of an attribute: empty where it is left out.
pub(crate) fn key_of(attribute: &KeyValue) -> &str
    ensures { result.now ≡ key_of attribute.now }
{
    match &attribute.key {
        Some(key) => key.as_str(),
        None => "",
    }
}

/// Whether an attribute has a key.
pub(crate) fn has_key(attribute: &KeyValue, key: &str) -> bool
    ensures { result ≡ has_key key.now attribute.now }
{
    key_of(attribute) == key
}

/// Whether one of some attributes has a key.
pub(crate) fn has_one_of(attributes: &[KeyValue], key: &str) -> bool
    ensures { result ≡ list_any (has_key key.now) attributes.now }
{
    attributes.iter().any(|attribute| has_key(attribute, key))
}

// The attribute of a point, whose key an earlier one may have.
#[inline(always)]
fn attribute(
    alloc: Global,
    point: usize,
    is_twice: bool,
    given: &KeyValue,
) -> Result<(Txt, AttrValue), RequestFault>
    ensures ok { IfOk result (λ pair. attribute point is_twice given.now ≡ Ok pair) }
    ensures err { IfErr result (λ f. f.why ≢ RequestReason.NoMemory → attribute point is_twice given.now ≡ Err f) }
{
    let key = key_of(given);
    if key.is_empty() {
        return Err(RequestReason::EmptyKey.at(point));
    }
    if is_twice {
        return Err(RequestReason::AttributeTwice.at(point));
    }
    match value_of(&given.value)? {
        Some(value) => Ok((Txt::from_str(alloc, key)?, value)),
        None => Err(RequestReason::AttributeValue.at(point)),
    }
}

#[inline(always)]
fn push_pair(pairs: &mut Vec<(Txt, AttrValue)>, pair: (Txt, AttrValue)) -> Result<(), NoMemory>
    ensures { OnOk result (pairs.new.items ≡ pairs.old.items ++ pair ∷ []) }
{
    pairs.push(pair)?;
    Ok(())
}

// The pairs that attributes are. Each key is compared with those before it.
#[tactic(auto, unfolding(crate::specs::Walks::walk))]
fn pairs_of(
    alloc: Global,
    point: usize,
    given: &[KeyValue],
) -> Result<Vec<(Txt, AttrValue)>, RequestFault>
    ensures ok { IfOk result (λ pairs. walk (add_attribute point given.now) [] given.now ≡ Ok pairs.items) }
    ensures err { IfErr result (λ f. f.why ≢ RequestReason.NoMemory
        → walk (add_attribute point given.now) [] given.now ≡ Err f) }
{
    let mut pairs = Vec::with_capacity(alloc, given.len())?;
    for (place, one) in given.iter().enumerate() {
        let is_twice = has_one_of(&given[..place], key_of(one));
        let pair = attribute(alloc, point, is_twice, one)?;
        push_pair(&mut pairs, pair)?;
    }
    Ok(pairs)
}

/// The attributes of a point as a set.
#[tactic(auto, unfolding(crate::specs::Reading::attributes))]
pub(crate) fn attributes(
    alloc: Global,
    point: usize,
    given: &[KeyValue],
) -> Result<AttrSet, RequestFault>
    ensures ok { IfOk result (λ set. attributes point given.now ≡ Ok set) }
    ensures err { IfErr result (λ f. f.why ≢ RequestReason.NoMemory → attributes point given.now ≡ Err f) }
{
    if are_many(given) {
        return Err(RequestReason::TooManyAttributes.at(point));
    }
    match AttrSet::from_pairs(pairs_of(alloc, point, given)?) {
        Ok(set) => Ok(set),
        // No key is empty: only memory can be refused.
        Err(_) => Err(RequestReason::NoMemory.at(0)),
    }
}
