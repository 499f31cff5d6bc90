//! Gateways that forget.
ghost use Rattle.std.specs.Prelude.{◌≡◌, ◌≤◌, false, IfSome};
ghost use Rattle.std.specs.FinMap as finite;
ghost use Rattle.gateway_kit.specs.Queries.{is_of_incarnation, newest_time};
ghost use Rattle.point_kit.specs.declared.key.Key.{Key};

use gossip_kit::Node;
use point_kit::WriterId;

/// Forgets an incarnation that told nothing since a time, and says how many points went. What others told stays.
pub fn forget_if_quiet(node: &mut Node, writer: &WriterId, start: u64, since: u64) -> u64
    ensures others { (k : Key) → is_of_incarnation writer.now start k ≡ false
        → finite.get node.new.gateway.points k ≡ finite.get node.old.gateway.points k }
    ensures heard { IfSome (newest_time writer.now start node.old.gateway.points) (λ newest. since ≤ newest → node.new ≡ node.old) }
{
    match node.gateway().newest(writer, start) {
        Some(newest) if newest < since => node.forget(writer, start),
        Some(_) | None => 0,
    }
}
