//! What each line of a script does.
ghost use Rattle.std.specs.Prelude.{[], IfOk};
ghost use Rattle.otm_kit.specs.Standing.{Acts, IsAfter};
ghost use Rattle.script_kit.specs.declared.line.Line.TheVariants as line;

use crate::begin::{BeginFault, begin};
use crate::draft::{Draft, named_at};
use crate::refusals::begin_line;
use crate::running::Running;
use attr_kit::NoMemory;
use script_kit::{Command, Declaration, Line, Query, Reason, Stop};
use std::alloc::Global;

/// What a line came to: it is done, or bad for a reason, and prints this.
#[derive(Drop)]
pub(crate) enum Outcome {
    Done(String),
    Bad(String, Reason),
}

/// A script before and after its `begin`.
#[derive(Drop)]
pub(crate) struct Desk {
    alloc: Global,
    draft: Draft,
    running: Option<Running>,
}

impl Desk {
    pub(crate) fn new(alloc: Global) -> Desk
        ensures { IsAfter [] result }
    {
        Desk {
            alloc,
            draft: Draft::new(alloc),
            running: None,
        }
    }

    /// Does a line.
    pub(crate) fn act(&mut self, line: Line) -> Result<Outcome, NoMemory>
        ensures { IfOk result (λ outcome. (lines : _) → IsAfter lines self.old → Acts lines line outcome self.new) }
    {
        match line {
            Line::Nothing => Ok(Outcome::Done(String::new(self.alloc))),
            Line::Declare(declaration) => self.declare(declaration),
            Line::Begin => self.begin(),
            Line::Do(command) => self.obey(command),
            Line::Ask(query) => self.answer(query),
        }
    }

    fn declare(&mut self, declaration: Declaration) -> Result<Outcome, NoMemory>
        ensures { IfOk result (λ outcome. (lines : _) → IsAfter lines self.old → Acts lines (line.Declare declaration) outcome self.new) }
    {
        if self.running.is_some() {
            return Ok(Outcome::Bad(String::new(self.alloc), Reason::Late));
        }
        let place = named_at(&declaration);
        if self.draft.declare(declaration)? {
            Ok(Outcome::Done(String::new(self.alloc)))
        } else {
            let why = Reason::Taken(place);
            Ok(Outcome::Bad(String::new(self.alloc), why))
        }
    }

    fn begin(&mut self) -> Result<Outcome, NoMemory>
        ensures { IfOk result (λ outcome. (lines : _) → IsAfter lines self.old → Acts lines line.Begin outcome self.new) }
    {
        if self.running.is_some() {
            return Ok(Outcome::Bad(String::new(self.alloc), Reason::Late));
        }
        let draft = std::mem::replace(&mut self.draft, Draft::new(self.alloc));
        match begin(self.alloc, draft) {
            Ok(running) => {
                self.running = Some(running);
                Ok(Outcome::Done(String::new(self.alloc)))
            }
            Err(BeginFault::NoMemory) => Err(NoMemory),
            Err(fault) => {
                let printed = begin_line(self.alloc, &fault)?;
                Ok(Outcome::Bad(printed, Reason::Refused))
            }
        }
    }

    fn obey(&mut self, command: Command) -> Result<Outcome, NoMemory>
        ensures { IfOk result (λ outcome. (lines : _) → IsAfter lines self.old → Acts lines (line.Do command) outcome self.new) }
    {
        let Some(running) = &mut self.running else {
            return Ok(Outcome::Bad(String::new(self.alloc), Reason::Early));
        };
        match running.obey(self.alloc, command) {
            Ok(printed) => Ok(Outcome::Done(printed)),
            Err(Stop::Bad(why)) => Ok(Outcome::Bad(String::new(self.alloc), why)),
            Err(Stop::NoMemory) => Err(NoMemory),
        }
    }

    fn answer(&self, query: Query) -> Result<Outcome, NoMemory>
        ensures { IfOk result (λ outcome. (lines : _) → IsAfter lines self.now → Acts lines (line.Ask query) outcome self.now) }
    {
        let Some(running) = &self.running else {
            return Ok(Outcome::Bad(String::new(self.alloc), Reason::Early));
        };
        match running.answer(self.alloc, query) {
            Ok(printed) => Ok(Outcome::Done(printed)),
            Err(Stop::Bad(why)) => Ok(Outcome::Bad(String::new(self.alloc), why)),
            Err(Stop::NoMemory) => Err(NoMemory),
        }
    }
}
