//! Attributes of a recording.
ghost use Rattle.std.specs.Prelude.{◌≡◌, ◌∷◌, ◌<◌, [], None, Some, IfOk, IfSome, true, codes, length};
ghost use Rattle.attr_kit.specs.Putting.{value_of};
ghost use Rattle.attr_kit.specs.declared.attr_value.AttrValue.TheVariants as values;

use attr_kit::{AttrFault, AttrSet, AttrValue, Exact, NoMemory, Seq, ShortText, TryCopy, Txt};
use std::alloc::Global;

// The pairs of a request, in the order in which a caller has them.
fn pairs_of(alloc: Global, status: i64, route: Txt) -> Result<Vec<(Txt, AttrValue)>, NoMemory>
    ensures { IfOk result (λ pairs. pairs.items ≡ (codes "status", values.Whole status) ∷ (codes "route", values.Text route) ∷ []) }
{
    let mut pairs = Vec::new(alloc);
    pairs.push((Txt::from_str(alloc, "status")?, AttrValue::Whole(status)))?;
    pairs.push((Txt::from_str(alloc, "route")?, AttrValue::Text(route)))?;
    Ok(pairs)
}

/// The attributes of a request: its status and its route. Pairs may come in any order.
pub fn of_request(alloc: Global, status: i64, route: Txt) -> Result<AttrSet, AttrFault>
    ensures status { IfOk result (λ set. value_of (codes "status") set ≡ Some (values.Whole status)) }
    ensures route { IfOk result (λ set. value_of (codes "route") set ≡ Some (values.Text route)) }
{
    AttrSet::from_pairs(pairs_of(alloc, status, route)?)
}

/// A second list of the same texts, with memory of its own.
pub fn copy_of(texts: &Seq<Txt>) -> Result<Seq<Txt>, NoMemory>
    ensures { IfOk result (λ copy. copy ≡ texts.now) }
{
    texts.try_copy()
}

/// A text that takes no memory of its own; none where it has more than 30 bytes.
pub fn in_place(text: &Txt) -> Option<&ShortText>
    ensures same { IfSome result (λ short. short.now ≡ text.now) }
    ensures long { result ≡ None → 30 < length text.now }
{
    text.short()
}

/// Whether two values are one, as texts, sets and keys are that `==` finds equal.
pub fn is_one<T: Exact>(value: &T, other: &T) -> bool
    ensures same { result ≡ true → value.now ≡ other.now }
    ensures found { value.now ≡ other.now → result ≡ true }
{
    value == other
}
