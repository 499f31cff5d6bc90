//! Lists behind handles, which grow, and whose items are read by their numbers.
ghost use Rattle.std.specs.Prelude.{◌≡◌, ◌++◌, ◌∷◌, [], slice_get, None, Some, IfErr, IfOk, OnOk, OnErr};
ghost use Rattle.kit_c.specs.Items.{item_fault};
ghost use Rattle.kit_c.specs.declared.fault.Fault.TheVariants as faults;

use crate::fault::Fault;
use attr_kit::{NoMemory, Seq};
use std::alloc::Global;

/// Adds an item at the end.
pub(crate) fn push<T: Drop>(alloc: Global, list: &mut Seq<T>, item: T) -> Result<(), NoMemory>
    ensures ok { OnOk result (list.new ≡ list.old ++ item ∷ []) }
    ensures unchanged { OnErr result (list.new ≡ list.old) }
{
    let mut items = std::mem::replace(list, Seq::new(alloc)).into_vec();
    let outcome = items.push(item);
    *list = Seq::from_vec(items);
    outcome?;
    Ok(())
}

/// The item of a number.
pub(crate) fn item<T>(list: &Seq<T>, number: usize) -> Result<&T, Fault>
    ensures ok { OnOk result (item_fault number list.now ≡ None) }
    ensures value { IfOk result (λ x. slice_get list.now number ≡ Some x.now) }
    ensures err { IfErr result (λ f. item_fault number list.now ≡ Some f) }
    ensures none { IfErr result (λ f. (slice_get list.now number ≡ None) × (f ≡ faults.NoItem)) }
{
    match list.get(number) {
        Some(item) => Ok(item),
        None => Err(Fault::NoItem),
    }
}
