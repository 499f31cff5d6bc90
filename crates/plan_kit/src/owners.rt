//! Which instruments are equal.
ghost use Rattle.std.specs.Prelude.{◌≡◌, map, IfOk};
ghost use Rattle.plan_kit.specs.Owners.{owner_of};

use crate::Instrument;
use attr_kit::NoMemory;
use std::alloc::Global;
use std::collections::HashMap;

/// For each instrument the place of the first that is equal to it: a hash look-up for each.
pub(crate) fn owners(alloc: Global, instruments: &[Instrument]) -> Result<Vec<usize>, NoMemory>
    ensures { IfOk result (λ owners. owners.items ≡ map (owner_of instruments.now) instruments.now) }
{
    let mut firsts = HashMap::new(alloc);
    let mut owners = Vec::with_capacity(alloc, instruments.len())?;
    for (place, instrument) in instruments.iter().enumerate() {
        match firsts.get(&instrument) {
            Some(first) => {
                owners.push(*first)?;
            }
            None => {
                firsts.insert(instrument, place)?;
                owners.push(place)?;
            }
        }
    }
    Ok(owners)
}
