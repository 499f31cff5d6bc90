//! Views whose aggregations do not fit the instruments that they match.
ghost use Rattle.std.specs.Prelude.{◌≡◌, map, IfOk, false};
ghost use Rattle.plan_kit.specs.Matching.{IsIndex};
ghost use Rattle.plan_kit.specs.Owners.{owner_of};
ghost use Rattle.plan_kit.specs.PlanFaults.{misfit_of};

use crate::view_index::ViewIndex;
use crate::{Instrument, View};
use attr_kit::NoMemory;
use std::alloc::Global;

/// The least instrument, their names in lower case, that a view matches whose aggregation does not fit, and the least such
/// view. Equal instruments are looked at once.
pub(crate) fn misfit_at(
    alloc: Global,
    index: &ViewIndex,
    views: &[View],
    instruments: &[Instrument],
    owners: &[usize],
) -> Result<Option<(usize, usize)>, NoMemory>
    requires index { IsIndex false index.now.exact index.now.every.items views.now }
    requires owners { owners.now ≡ map (owner_of instruments.now) instruments.now }
    ensures { IfOk result (λ misfit. misfit ≡ misfit_of views.now instruments.now) }
{
    for (place, instrument) in instruments.iter().enumerate() {
        // Of equal instruments the first is the least.
        if owners[place] == place {
            match index.bad_view_at(alloc, views, instrument)? {
                Some(view) => return Ok(Some((place, view))),
                None => {}
            }
        }
    }
    Ok(None)
}
