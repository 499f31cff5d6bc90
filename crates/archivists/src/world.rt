//! Keepers and archives, the exports that archives made, and messages on their way.
use crate::answer::Answer;
use crate::event::{Event, Sums};
use crate::fault::LineFault;
use crate::made::{export, requests};
use crate::soak::soak;
use crate::text::{holding, lines};
use archive_kit::{Archive, Keeper};
use attr_kit::NoMemory;
use gateway_kit::Gateway;
use gossip_kit::{HandFault, Message};
use page_kit::prometheus;
use point_kit::{Export, WriterId};
use std::alloc::Global;

/// All that a schedule acts on. What has a number stands at the place before it.
#[derive(Debug, Drop)]
pub struct World {
    alloc: Global,
    keepers: Vec<Keeper>,
    archives: Vec<Archive>,
    exports: Vec<Export>,
    messages: Vec<Message>,
}

// The place of what has a number. No list has one for the number 0.
fn place(number: usize) -> usize {
    number.wrapping_sub(1)
}

impl World {
    /// A world without anything in it.
    pub fn new(alloc: Global) -> World {
        World {
            alloc,
            keepers: Vec::new(alloc),
            archives: Vec::new(alloc),
            exports: Vec::new(alloc),
            messages: Vec::new(alloc),
        }
    }

    fn keeper(&self, number: usize) -> Result<&Keeper, LineFault> {
        self.keepers.get(place(number)).ok_or(LineFault::Keeper)
    }

    // One keeper more, whose id is its number.
    fn add_keeper(&mut self) -> Result<(), LineFault> {
        let Ok(last) = u32::try_from(self.keepers.len()) else {
            return Err(LineFault::Keeper);
        };
        let Some(id) = last.checked_add(1) else {
            return Err(LineFault::Keeper);
        };
        self.keepers.push(Keeper::new(self.alloc, id)?)?;
        Ok(())
    }

    fn add_keepers(&mut self, count: u32) -> Result<Option<Answer>, LineFault> {
        for _ in 0..count {
            self.add_keeper()?;
        }
        Ok(None)
    }

    fn begin(
        &mut self,
        number: usize,
        writer: &WriterId,
        start: u64,
        limit: usize,
    ) -> Result<Option<Answer>, LineFault> {
        if place(number) != self.archives.len() {
            return Err(LineFault::Next);
        }
        self.archives.push(Archive::begin(self.alloc, writer.try_copy()?, start, limit)?)?;
        Ok(None)
    }

    // A keeper takes an export.
    fn give_to(&mut self, keeper: usize, export: &Export) -> Result<Answer, LineFault> {
        match self.keepers.get_mut(place(keeper)) {
            Some(keeper) => Ok(Answer::Took(keeper.take(export)?)),
            None => Err(LineFault::Keeper),
        }
    }

    fn take(&mut self, keeper: usize, sums: &Sums) -> Result<Answer, LineFault> {
        let stream = requests(self.alloc)?;
        match export(self.alloc, &stream, sums)? {
            Ok(export) => self.give_to(keeper, &export),
            Err(fault) => Ok(Answer::NoExport(fault)),
        }
    }

    fn adopt(
        &mut self,
        archive: usize,
        keeper: usize,
        writer: &WriterId,
        start: u64,
    ) -> Result<Answer, LineFault> {
        let Some(keeper) = self.keepers.get(place(keeper)) else {
            return Err(LineFault::Keeper);
        };
        let Some(archive) = self.archives.get_mut(place(archive)) else {
            return Err(LineFault::Archive);
        };
        match archive.adopt(keeper, writer, start) {
            Ok(()) => Ok(Answer::Adopted),
            Err(fault) => Ok(Answer::NotAdopted(fault)),
        }
    }

    // Keeps an export, and says its number.
    fn keep(&mut self, export: Export) -> Result<Answer, LineFault> {
        let points = export.points().len();
        self.exports.push(export)?;
        Ok(Answer::Exported {
            number: self.exports.len(),
            points,
        })
    }

    fn export(&mut self, archive: usize, time: u64) -> Result<Answer, LineFault> {
        let Some(archive) = self.archives.get_mut(place(archive)) else {
            return Err(LineFault::Archive);
        };
        match archive.export(time) {
            Ok(export) => self.keep(export),
            Err(fault) => Ok(Answer::NotExported(fault)),
        }
    }

    fn give(&mut self, export: usize, keeper: usize) -> Result<Answer, LineFault> {
        let Some(export) = self.exports.get(place(export)) else {
            return Err(LineFault::Export);
        };
        match self.keepers.get_mut(place(keeper)) {
            Some(keeper) => Ok(Answer::Took(keeper.take(export)?)),
            None => Err(LineFault::Keeper),
        }
    }

    fn seal(&mut self, archive: usize, start: u64) -> Result<Answer, LineFault> {
        let Some(archive) = self.archives.get_mut(place(archive)) else {
            return Err(LineFault::Archive);
        };
        match archive.seal(start) {
            Ok(()) => Ok(Answer::Sealed),
            Err(fault) => Ok(Answer::NotSealed(fault)),
        }
    }

    // A keeper merges what a gateway holds.
    fn merge_from(&mut self, keeper: usize, gateway: &Gateway) -> Result<Answer, LineFault> {
        match self.keepers.get_mut(place(keeper)) {
            Some(keeper) => Ok(Answer::Merged(keeper.merge(gateway)?)),
            None => Err(LineFault::Keeper),
        }
    }

    fn merge(&mut self, keeper: usize, other: usize) -> Result<Answer, LineFault> {
        let gateway = self.keeper(other)?.gateway().try_copy()?;
        self.merge_from(keeper, &gateway)
    }

    // Keeps a message, and gives its number.
    fn post(&mut self, message: Message) -> Result<usize, NoMemory> {
        self.messages.push(message)?;
        Ok(self.messages.len())
    }

    fn send(&mut self, from: usize, to: usize) -> Result<Answer, LineFault> {
        let to = self.keeper(to)?.gateway().id();
        let message = self.keeper(from)?.node().send(to)?;
        let cells = message.points_len();
        Ok(Answer::Sent {
            number: self.post(message)?,
            cells,
        })
    }

    // Hands a message to whom it goes to. The answer to it.
    fn deliver(&mut self, message: usize) -> Result<Option<Message>, LineFault> {
        let Some(message) = self.messages.get(place(message)) else {
            return Err(LineFault::Message);
        };
        for keeper in self.keepers.iter_mut() {
            if keeper.gateway().id() == message.to() {
                return match keeper.hand(message) {
                    Ok(answer) => Ok(answer),
                    Err(HandFault::NotAddressed) => Err(LineFault::Keeper),
                    Err(HandFault::NoMemory) => Err(LineFault::NoMemory(NoMemory)),
                };
            }
        }
        Err(LineFault::Keeper)
    }

    fn hand(&mut self, message: usize) -> Result<Answer, LineFault> {
        match self.deliver(message)? {
            Some(answer) => Ok(Answer::Handed(Some(self.post(answer)?))),
            None => Ok(Answer::Handed(None)),
        }
    }

    fn show(&self, keeper: usize) -> Result<Answer, LineFault> {
        Ok(Answer::Holds(holding(self.keeper(keeper)?.gateway())))
    }

    fn points(&self, keeper: usize) -> Result<Answer, LineFault> {
        Ok(Answer::Lines(lines(self.alloc, self.keeper(keeper)?.gateway())?))
    }

    fn page(&self, keeper: usize) -> Result<Answer, LineFault> {
        Ok(Answer::Lines(prometheus(self.alloc, self.keeper(keeper)?.gateway(), None, None)?))
    }

    fn same(&self, keeper: usize, other: usize) -> Result<Answer, LineFault> {
        let other = self.keeper(other)?.gateway();
        Ok(Answer::Same(self.keeper(keeper)?.gateway().same(other)))
    }

    // Answers what asks of keepers, and changes nothing.
    fn asked(&self, event: &Event) -> Result<Option<Answer>, LineFault> {
        match event {
            Event::Show(keeper) => Ok(Some(self.show(*keeper)?)),
            Event::Points(keeper) => Ok(Some(self.points(*keeper)?)),
            Event::Page(keeper) => Ok(Some(self.page(*keeper)?)),
            Event::Same { keeper, other } => Ok(Some(self.same(*keeper, *other)?)),
            Event::Soak(span) => Ok(Some(Answer::Holds(soak(self.alloc, *span)?))),
            _ => Ok(None),
        }
    }

    // Plays what brings points to keepers.
    fn brought(&mut self, event: &Event) -> Result<Option<Answer>, LineFault> {
        match event {
            Event::Take { keeper, sums } => Ok(Some(self.take(*keeper, sums)?)),
            Event::Give { export, keeper } => Ok(Some(self.give(*export, *keeper)?)),
            Event::Merge { keeper, other } => Ok(Some(self.merge(*keeper, *other)?)),
            Event::Send { from, to } => Ok(Some(self.send(*from, *to)?)),
            Event::Hand(message) => Ok(Some(self.hand(*message)?)),
            _ => self.asked(event),
        }
    }

    /// Plays an event. The answer, where it asks something.
    pub fn apply(&mut self, event: &Event) -> Result<Option<Answer>, LineFault> {
        match event {
            Event::Keepers(count) => self.add_keepers(*count),
            Event::Archive {
                archive,
                writer,
                start,
                limit,
            } => self.begin(*archive, writer, *start, *limit),
            Event::Adopt {
                archive,
                keeper,
                writer,
                start,
            } => Ok(Some(self.adopt(*archive, *keeper, writer, *start)?)),
            Event::Export { archive, time } => Ok(Some(self.export(*archive, *time)?)),
            Event::Seal { archive, start } => Ok(Some(self.seal(*archive, *start)?)),
            _ => self.brought(event),
        }
    }
}
