//! Incarnations as tombstones tell them.
ghost use Rattle.std.specs.Prelude.{◌≡◌, ◌≢◌, IfNone, IfSome, [], ◌∷◌, ℕ, List, codes, pos};
ghost use Rattle.attr_kit.specs.declared.attr_value.AttrValue.TheVariants as values;
ghost use Rattle.point_kit.specs.declared.writer_id.WriterId.{WriterId};
ghost use Rattle.archive_kit.specs.Named.{name_attrs, name_in};
ghost use Rattle.archive_kit.specs.Tombstones.{incarnation_attrs};

use attr_kit::{AttrSet, AttrValue, Txt};

/// An incarnation as a tombstone tells it: its service, the text of its instance, and its start.
#[derive(Clone, Copy)]
pub(crate) struct Told<'a> {
    pub(crate) service: &'a Txt,
    pub(crate) instance: &'a str,
    pub(crate) start: u64,
}

// The text of a pair that has this key, if it has one.
fn text_under<'a>(key: &str, pair: &'a (Txt, AttrValue)) -> Option<&'a Txt>
    ensures some { IfSome result (λ text. pair.now ≡ (key.now, values.Text text.now)) }
    ensures none { IfNone result ((text : List ℕ) → pair.now ≢ (key.now, values.Text text)) }
{
    match &pair.1 {
        AttrValue::Text(text) if pair.0.as_str() == key => Some(text),
        _ => None,
    }
}

// The number of a pair that has this key, if it has one that is not negative.
fn number_under(key: &str, pair: &(Txt, AttrValue)) -> Option<u64>
    ensures some { IfSome result (λ number. pair.now ≡ (key.now, values.Whole (pos number))) }
    ensures none { IfNone result ((number : ℕ) → pair.now ≢ (key.now, values.Whole (pos number))) }
{
    match &pair.1 {
        AttrValue::Whole(number) if pair.0.as_str() == key => u64::try_from(*number).ok(),
        _ => None,
    }
}

// The name that three pairs tell, if any.
fn name_of_pairs<'a>(
    first: &'a (Txt, AttrValue),
    second: &'a (Txt, AttrValue),
    third: &(Txt, AttrValue),
) -> Option<Told<'a>>
    ensures some { IfSome result (λ name. first.now ∷ second.now ∷ third.now ∷ [] ≡ name_attrs (name_in name)) }
    ensures none { IfNone result ((id : WriterId) (start : ℕ) → first.now ∷ second.now ∷ third.now ∷ [] ≢ incarnation_attrs id start) }
{
    let instance = text_under("instance", first)?;
    let service = text_under("service", second)?;
    let start = number_under("start", third)?;
    Some(Told {
        service,
        instance: instance.as_str(),
        start,
    })
}

/// The name that a tombstone of these attributes tells, if any. Takes no memory.
pub(crate) fn told_name(attrs: &AttrSet) -> Option<Told<'_>>
    ensures some { IfSome result (λ name. attrs.now ≡ name_attrs (name_in name)) }
    ensures none { IfNone result ((writer : WriterId) (start : ℕ) → attrs.now ≢ incarnation_attrs writer start) }
{
    match attrs.pairs() {
        [first, second, third] => name_of_pairs(first, second, third),
        _ => None,
    }
}
