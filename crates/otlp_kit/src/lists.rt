//! Lists that grow.
ghost use Rattle.std.specs.Prelude.{◌≡◌, ◌++◌, [], ◌∷◌, OnOk};

use attr_kit::{NoMemory, Seq};
use std::alloc::Global;
use std::mem;

/// Puts an item behind the others.
#[inline(always)]
pub(crate) fn push<T: Drop>(alloc: Global, list: &mut Seq<T>, item: T) -> Result<(), NoMemory>
    ensures { OnOk result (list.new ≡ list.old ++ item ∷ []) }
{
    let mut items = mem::replace(list, Seq::new(alloc)).into_vec();
    items.push(item)?;
    *list = Seq::from_vec(items);
    Ok(())
}
