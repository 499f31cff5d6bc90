//! One event after another.
ghost use Rattle.std.specs.Prelude.{◌≡◌, IsOk, OnErr, IfOk};
ghost use Rattle.world_kit.specs.Stands.{Acts};
ghost use Rattle.world_kit.specs.Wanting.{OnRefused, TakesNoMemory, Wants};

use crate::{Event, Reply, World};
use attr_kit::NoMemory;

impl World {
    /// Does what is asked, and replies. An event that is refused is replied to as such and changes nothing; want of
    /// memory alone is an error, and changes nothing. No event that is refused wants memory, but where a view of the
    /// instrument keeps a list of keys: there it takes memory to find that a value is out of range. Nor does a recording
    /// whose points are there, where every view of the instrument keeps all keys, an export without points, or a merge of a
    /// gateway with itself or with one that holds nothing. The cost is that of the call below it.
    pub fn apply(&mut self, event: &Event) -> Result<Reply, NoMemory>
        ensures ok { IfOk result (λ reply. Acts event.now self.old reply self.new) }
        ensures refused { IfOk result (λ reply. OnRefused reply (self.new ≡ self.old)) }
        // Memory is wanted last: by no event that is refused, but for an overflow that takes memory to find.
        ensures no_memory { OnErr result (Wants event.now self.old) }
        // What changes no map of points takes none.
        ensures takes_none { TakesNoMemory event.now self.old → IsOk result }
        ensures unchanged { OnErr result (self.new ≡ self.old) }
    {
        match event {
            Event::Measure {
                writer,
                instrument,
                attrs,
                value,
            } => self.measure(*writer, *instrument, attrs, *value),
            Event::Collect { writer, time } => self.collect(*writer, *time, false),
            Event::Shutdown { writer, time } => self.collect(*writer, *time, true),
            Event::Restart { writer, start } => self.restart(*writer, *start),
            Event::Deliver { export, gateway } => self.deliver(*export, *gateway),
            Event::Merge { into, from } => self.merge(*into, *from),
            Event::Send { from, to } => self.send(*from, *to),
            Event::Hand { mail, gateway } => self.hand(*mail, *gateway),
        }
    }
}
