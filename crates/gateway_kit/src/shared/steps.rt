//! The changes of a shared gateway, each made while the turn is held.
ghost use Rattle.std.specs.Prelude.{◌≡◌};
ghost use Rattle.gateway_kit.specs.Shared.{changed_by, HasPoints};
ghost use Rattle.gateway_kit.specs.declared.shared.change.GatewayChange.TheVariants.{Taken, Merged};

use crate::gateway::Gateway;
use attr_kit::NoMemory;
use point_kit::Export;
use turn_kit::Step;

/// Takes an export.
#[derive(Drop)]
pub(crate) struct Take<'a> {
    pub export: &'a Export,
}

impl<'a> Step<Gateway> for Take<'a> {
    type Reply = u64;

    type Refusal = NoMemory;

    ghost entry = { λ t. Taken t.export.now };

    ghost replies = { λ t g n. n ≡ changed_by g (Taken t.export.now) };

    ghost refuses = { λ t g f. HasPoints (Taken t.export.now) };

    fn step(self, machine: &mut Gateway) -> Result<u64, NoMemory> {
        machine.take(self.export)
    }
}

/// Merges another gateway in.
#[derive(Drop)]
pub(crate) struct Merge<'a> {
    pub other: &'a Gateway,
}

impl<'a> Step<Gateway> for Merge<'a> {
    type Reply = u64;

    type Refusal = NoMemory;

    ghost entry = { λ m. Merged m.other.now };

    ghost replies = { λ m g n. n ≡ changed_by g (Merged m.other.now) };

    ghost refuses = { λ m g f. HasPoints (Merged m.other.now) };

    fn step(self, machine: &mut Gateway) -> Result<u64, NoMemory> {
        machine.merge(self.other)
    }
}
