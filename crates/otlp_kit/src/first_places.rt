//! Where texts stand first.
ghost use Rattle.std.specs.Prelude.{◌≡◌, IfOk, map};
ghost use Rattle.otlp_kit.specs.Walks.{first_place};

use attr_kit::{NoMemory, Txt};
use std::alloc::Global;
use std::collections::BTreeMap;

/// Of each text the least place at which it stands. O(n log n) comparisons of texts.
pub(crate) fn first_places(alloc: Global, texts: &[Txt]) -> Result<Vec<usize>, NoMemory>
    ensures { IfOk result (λ places. places.items ≡ map (first_place texts.now) texts.now) }
{
    let mut seen = BTreeMap::new(alloc);
    let mut places = Vec::with_capacity(alloc, texts.len())?;
    for (place, text) in texts.iter().enumerate() {
        let first = seen.get(&text).copied().unwrap_or(place);
        seen.insert(text, first)?;
        places.push(first)?;
    }
    Ok(places)
}
