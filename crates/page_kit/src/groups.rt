//! Values by their keys.
ghost use Rattle.std.specs.Prelude.{◌≡◌, IfOk, OnOk};
ghost use Rattle.std.specs.List.{flat_map};
ghost use Rattle.page_kit.specs.Groups.{put};
ghost use Rattle.page_kit.specs.Views.{lists};

use attr_kit::NoMemory;
use std::alloc::Global;
use std::collections::BTreeMap;
use std::collections::btree_map::Entry;

/// Puts a value behind the others of its key.
pub(crate) fn put<K: Ord + Drop, T: Drop>(
    alloc: Global,
    groups: &mut BTreeMap<K, Vec<T>>,
    key: K,
    value: T,
) -> Result<(), NoMemory>
    ensures { OnOk result (lists groups.new.entries
        ≡ put K.cmp (lists groups.old.entries) (key, value)) }
{
    match groups.entry(key)? {
        Entry::Occupied(entry) => entry.into_mut().push(value)?,
        Entry::Vacant(entry) => {
            let mut values = Vec::with_capacity(alloc, 1)?;
            values.push(value)?;
            entry.insert(values);
        }
    }
    Ok(())
}

/// The groups as a list, in the order of their keys.
pub(crate) fn list_of<K: Ord + Drop, T: Drop>(
    alloc: Global,
    groups: BTreeMap<K, Vec<T>>,
) -> Result<Vec<(K, Vec<T>)>, NoMemory>
    ensures { IfOk result (λ list. list.items ≡ groups.entries) }
{
    let mut list = Vec::with_capacity(alloc, groups.len())?;
    for group in groups {
        list.push(group)?;
    }
    Ok(list)
}

/// The values in the order of their keys.
pub(crate) fn values_of<K: Ord + Drop, T: Drop>(
    alloc: Global,
    groups: BTreeMap<K, Vec<T>>,
) -> Result<Vec<T>, NoMemory>
    ensures { IfOk result (λ all. all.items ≡ flat_map (λ g. g.1.items) groups.entries) }
{
    let mut all = Vec::new(alloc);
    for (_, values) in groups {
        let mut values = values;
        all.append(&mut values)?;
    }
    Ok(all)
}
