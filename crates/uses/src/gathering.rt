//! Gateways that take exports and merge, and what they are asked.
ghost use Rattle.std.specs.Prelude.{◌≡◌, true, Some, IfOk, IfSome, codes, length};
ghost use Rattle.std.specs.FinMap as finite;
ghost use Rattle.point_kit.specs.Exports.{join_points};
ghost use Rattle.point_kit.specs.declared.cell.Held.TheVariants.{One};
ghost use Rattle.point_kit.specs.declared.payload.Payload.TheVariants as payloads;
ghost use Rattle.point_kit.specs.declared.shape.Shape.TheVariants as shapes;
ghost use Rattle.rollup_kit.specs.Rollups.{rollup_rows};
ghost use Rattle.rollup_kit.specs.TableText.{table_text};
ghost use Rattle.test_kit.specs.Defaults.{ask_of};

use attr_kit::Txt;
use gateway_kit::{Gateway, PartItem};
use point_kit::{Cell, Export, Held, Key, Payload, Shape};
use rollup_kit::{Ask, rollup, table};
use std::alloc::Global;

/// All rows of the counter `requests` of the scope `app`, of every service.
pub fn ask_requests(alloc: Global) -> anyhow::Result<Ask>
    ensures { IfOk result (λ ask. ask ≡ ask_of (codes "app") (codes "requests") (codes "1") (shapes.Sum true)) }
{
    let shape = Shape::Sum { monotonic: true };
    Ok(test_kit::ask(alloc, "app", "requests", "1", shape)?)
}

/// Whether two gateways hold the same that took two exports in either order, and one of them twice: they always do.
pub fn agree(alloc: Global, here: &Export, there: &Export) -> anyhow::Result<bool>
    ensures { IfOk result (λ same. same ≡ true) }
{
    let mut one = Gateway::new(alloc, 1);
    one.take(here)?;
    one.take(there)?;
    let mut other = Gateway::new(alloc, 2);
    other.take(there)?;
    other.take(here)?;
    other.take(there)?;
    Ok(one.same(&other))
}

/// The table of what two gateways hold together, each point once. The first then holds all of it.
pub fn merged_table(
    alloc: Global,
    one: &mut Gateway,
    other: &Gateway,
    ask: &Ask,
) -> anyhow::Result<Txt>
    ensures table { IfOk result (λ text. text ≡ table_text (rollup_rows ask.now (join_points one.old.points other.now.points))) }
    ensures merged { IfOk result (λ _. one.new.points ≡ join_points one.old.points other.now.points) }
{
    one.merge(other)?;
    let rows = rollup(alloc, one, ask)?;
    Ok(table(alloc, rows.as_slice())?)
}

/// The sum that a gateway holds under a key, with its time; none where the key has no point, a conflict or no sum.
pub fn sum_under(gateway: &Gateway, key: &Key) -> Option<(u64, i64)>
    ensures { IfSome result (λ s. finite.get gateway.now.points key.now ≡ Some (record { time = s.0; held = One (payloads.Sum s.1) })) }
{
    match gateway.find(key)? {
        Cell {
            time,
            held: Held::One(Payload::Sum(sum)),
        } => Some((*time, *sum)),
        _ => None,
    }
}

/// How many points a gateway holds of the incarnations of a writer that began at 100, 400 and 50, where it took one of each of the
/// first two.
pub fn points_of_each(
    alloc: Global,
    early: &Export,
    late: &Export,
) -> anyhow::Result<(usize, usize, usize)>
    requires points { (length early.now.points ≡ 1) × (length late.now.points ≡ 1) }
    requires writer { late.now.writer ≡ early.now.writer }
    requires starts { (early.now.start ≡ 100) × (late.now.start ≡ 400) }
    ensures at_100 { IfOk result (λ counts. counts.0 ≡ 1) }
    ensures at_400 { IfOk result (λ counts. counts.1 ≡ 1) }
    ensures at_50 { IfOk result (λ counts. counts.2 ≡ 0) }
{
    let mut gateway = Gateway::new(alloc, 1);
    gateway.take(early)?;
    gateway.take(late)?;
    let writer = early.writer();
    let first: &[PartItem] = gateway.part(writer, 100);
    Ok((
        first.len(),
        gateway.part(writer, 400).len(),
        gateway.part(writer, 50).len(),
    ))
}
