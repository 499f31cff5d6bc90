//! Who writes.
ghost use Rattle.std.specs.Prelude.{◌≡◌, IfOk};
ghost use Rattle.point_kit.specs.Orders.{instance_number, ByNumber};

use attr_kit::{NoMemory, Txt};
use uuid::Uuid;

/// The identity of a writer. A stream has one logical writer (Metrics Data Model, "Single-Writer"); here that is a
/// service and an instance of it. Ordered by service, then by instance as a number of 128 bits.
#[derive(Debug, PartialEq, Eq, PartialOrd, Ord, Hash, Drop)]
pub struct WriterId {
    pub service: Txt,
    pub instance: Uuid,
}

impl WriterId {
    /// An equal identity.
    pub fn try_copy(&self) -> Result<WriterId, NoMemory>
        ensures value { IfOk result (λ copy. copy ≡ self.now) }
    {
        Ok(WriterId {
            service: self.service.try_copy()?,
            instance: self.instance,
        })
    }

    /// The instance as a number of 128 bits: writers of one service are ordered by it. Takes no memory.
    pub fn instance_number(&self) -> u128
        ensures value { result ≡ instance_number self.now.instance }
        ensures ordered { ByNumber }
    {
        self.instance.as_u128()
    }
}
