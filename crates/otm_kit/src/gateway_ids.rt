//! The places of gateways by their ids.
ghost use Rattle.std.specs.Prelude.{◌≡◌, IfOk};
ghost use Rattle.otm_kit.specs.Declarations.{gateway_place};
ghost use Rattle.otm_kit.specs.Places.{Knows};

use attr_kit::NoMemory;
use std::alloc::Global;
use std::collections::HashMap;

/// The places of gateways by their ids.
#[derive(Drop)]
pub(crate) struct GatewayIds {
    places: HashMap<u32, usize>,
}

impl GatewayIds {
    /// Of these ids, each at its first place.
    pub(crate) fn build(alloc: Global, ids: &[u32]) -> Result<GatewayIds, NoMemory>
        ensures { IfOk result (λ known. Knows ids.now known.places) }
    {
        let mut places = HashMap::new(alloc);
        for (place, id) in ids.iter().enumerate() {
            match places.get(id) {
                Some(_) => {}
                None => {
                    places.insert(*id, place)?;
                }
            }
        }
        Ok(GatewayIds { places })
    }

    /// The place of an id. A hash look-up.
    pub(crate) fn place(&self, id: u32) -> Option<usize>
        ensures { (ids : _) → Knows ids self.now.places → result ≡ gateway_place ids id }
    {
        self.places.get(&id).copied()
    }
}
