//! A script that has begun.
ghost use Rattle.std.specs.Prelude.{◌≡◌, ◌++◌, ◌∷◌, [], OnOk, IfNone, IfSome, Some, None};
ghost use Rattle.otm_kit.specs.Declarations.{gateway_place};
ghost use Rattle.otm_kit.specs.Effects.{told_of};
ghost use Rattle.otm_kit.specs.Events.{event_of, gateway_at, writer_at};
ghost use Rattle.otm_kit.specs.Standing.{IsGatewayOf, Prints, Runs};
ghost use Rattle.script_kit.specs.declared.line.Command.TheVariants as command;

use crate::gateway_ids::GatewayIds;
use crate::labels::Labels;
use crate::refusals::reply_line;
use attr_kit::{AttrSet, Txt};
use gateway_kit::Gateway;
use script_kit::{Command, Reason, Stop};
use std::alloc::Global;
use world_kit::{Event, World};

/// The world of a script that has begun, and what labels and ids name in it.
#[derive(Drop)]
pub(crate) struct Running {
    pub(crate) world: World,
    pub(crate) instruments: Labels,
    pub(crate) writers: Labels,
    pub(crate) gateways: GatewayIds,
}

impl Running {
    /// What a command says of the world, or which of its labels and ids names nothing.
    #[tactic(auto, unfolding(crate::specs::Events::event_of))]
    fn event(&self, command: Command) -> Result<Event, Reason>
        ensures { (d : _) (cs : _) → Runs d cs self.now → result ≡ event_of d command }
    {
        match command {
            Command::Measure {
                writer,
                instrument,
                value,
                attrs,
            } => self.measurement(&writer, &instrument, value, attrs),
            Command::Collect { writer, time } => Ok(Event::Collect {
                writer: self.writer(&writer, 1)?,
                time,
            }),
            Command::Shutdown { writer, time } => Ok(Event::Shutdown {
                writer: self.writer(&writer, 1)?,
                time,
            }),
            Command::Restart { writer, start } => Ok(Event::Restart {
                writer: self.writer(&writer, 1)?,
                start,
            }),
            Command::Deliver { export, gateway } => Ok(Event::Deliver {
                export,
                gateway: self.gateway_place(gateway, 2)?,
            }),
            Command::Merge { into, from } => Ok(Event::Merge {
                into: self.gateway_place(into, 1)?,
                from: self.gateway_place(from, 2)?,
            }),
            Command::Send { from, to } => Ok(Event::Send {
                from: self.gateway_place(from, 1)?,
                to: self.gateway_place(to, 2)?,
            }),
            Command::Hand { mail, gateway } => Ok(Event::Hand {
                mail,
                gateway: self.gateway_place(gateway, 2)?,
            }),
        }
    }

    // The event of a recording, or which of its labels names nothing.
    #[tactic(auto, unfolding(crate::specs::Events::event_of))]
    fn measurement(
        &self,
        writer: &Txt,
        instrument: &Txt,
        value: i64,
        attrs: AttrSet,
    ) -> Result<Event, Reason>
        ensures { (d : _) (cs : _) → Runs d cs self.now → result ≡ event_of d (command.Measure writer.now instrument.now value attrs) }
    {
        let writer = self.writer(writer, 1)?;
        let instrument = self
            .instruments
            .place(instrument)
            .ok_or(Reason::NoInstrument(2))?;
        Ok(Event::Measure {
            writer,
            instrument,
            attrs,
            value,
        })
    }

    // The place of the writer that a word names.
    fn writer(&self, label: &Txt, word: usize) -> Result<usize, Reason>
        ensures { (d : _) (cs : _) → Runs d cs self.now → result ≡ writer_at d label.now word }
    {
        self.writers.place(label).ok_or(Reason::NoWriter(word))
    }

    // The place of the gateway that a word names.
    fn gateway_place(&self, id: u32, word: usize) -> Result<usize, Reason>
        ensures { (d : _) (cs : _) → Runs d cs self.now → result ≡ gateway_at d id word }
    {
        self.gateways.place(id).ok_or(Reason::NoGateway(word))
    }

    /// Does a command, and answers what it prints.
    ///
    /// Refuses: `Bad`, where a label or an id names nothing; `NoMemory`.
    pub(crate) fn obey(&mut self, alloc: Global, command: Command) -> Result<String, Stop>
        ensures told { (d : _) (cs : _) → Runs d cs self.old → Prints result (told_of d cs command) }
        ensures runs { OnOk result ((d : _) (cs : _) → Runs d cs self.old → Runs d (cs ++ command ∷ []) self.new) }
    {
        let event = self.event(command)?;
        let reply = self.world.apply(&event)?;
        Ok(reply_line(alloc, &reply)?)
    }

    /// The gateway of an id.
    pub(crate) fn gateway(&self, id: u32) -> Option<&Gateway>
        ensures none { IfNone result ((d : _) (cs : _) → Runs d cs self.now → gateway_place d.gateways id ≡ None) }
        ensures some { IfSome result (λ gateway. (d : _) (cs : _) → Runs d cs self.now → IsGatewayOf d cs id gateway.now.points) }
    {
        let node = self.world.node(self.gateways.place(id)?)?;
        Some(node.gateway())
    }
}
