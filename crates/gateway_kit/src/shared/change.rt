//! A gateway as a machine: its state, and what a change makes of it.
ghost use Rattle.gateway_kit.specs.GatewayState.{GatewayState};
ghost use Rattle.gateway_kit.specs.Shared.{after_gateway_change};

use crate::gateway::Gateway;
use point_kit::Export;
use turn_kit::Machine;

/// An accepted change of a shared gateway, an entry of its history. Contracts speak of it; no value of it is made.
#[derive(Drop)]
pub enum GatewayChange {
    /// An export was taken.
    Taken(Export),
    /// What another gateway held was merged in.
    Merged(Gateway),
}

impl Machine for Gateway {
    type Entry = GatewayChange;

    ghost State = { GatewayState };

    ghost state = { λ g. g };

    ghost after = { after_gateway_change };
}
