//! Views, and the limit of attribute sets.
ghost use Rattle.std.specs.Prelude.{◌≡◌, ◌∷◌, ◌+◌, ◌≤◌, [], List, IfOk, IfSome};
ghost use Rattle.agg_kit.specs.Entries.{Entry};
ghost use Rattle.agg_kit.specs.Rounds.{StandsFor};
ghost use Rattle.plan_kit.specs.Feeds.{plan_of};
ghost use Rattle.uses.specs.Plans.{requests, by_route};

use crate::recording::requests;
use agg_kit::Tally;
use attr_kit::{AllowList, Keep, Seq, Txt};
use plan_kit::{Aggregation, NameRule, Plan, View};
use std::alloc::Global;

/// A view that keeps, of the attributes of `requests`, the key `route` alone.
pub fn by_route(alloc: Global) -> anyhow::Result<View>
    ensures { IfOk result (λ v. v ≡ by_route) }
{
    let mut keys = Vec::new(alloc);
    keys.push(Txt::from_str(alloc, "route")?)?;
    Ok(View {
        name: NameRule::Exact(Txt::from_str(alloc, "requests")?),
        kind: None,
        scope: None,
        rename: None,
        keep: Keep::Only(AllowList::from_keys(keys)?),
        aggregation: Aggregation::Default,
    })
}

/// A plan of one counter and that view, with points of their own for so many routes. Refused where the limit is 0.
pub fn plan_by_route(alloc: Global, limit: u64) -> anyhow::Result<Plan>
    ensures { IfOk result (λ plan. plan ≡ plan_of (requests ∷ []) (by_route ∷ []) limit) }
{
    let mut instruments = Vec::new(alloc);
    instruments.push(requests(alloc)?)?;
    let mut views = Vec::new(alloc);
    views.push(by_route(alloc)?)?;
    Ok(Plan::build(
        alloc,
        Seq::from_vec(instruments),
        Seq::from_vec(views),
        limit,
    )?)
}

/// How many points a stream has: whatever was recorded, at most one more than the limit, for all sets past it.
pub fn points_of_stream(tally: &Tally, stream: usize) -> Option<usize>
    ensures { (recordings : List Entry) → StandsFor tally.now recordings → IfSome result (λ points. points ≤ tally.now.plan.limit + 1) }
{
    tally.series_len(stream)
}
