//! What a script declares, each with the number of its line.
use attr_kit::{NoMemory, Seq, TryCopy};
use plan_kit::{DEFAULT_LIMIT, Instrument, Plan, PlanFault, View};
use script_kit::Declaration;
use std::alloc::Global;
use std::collections::HashMap;

/// What a script declares, each with the number of its line.
#[derive(Drop)]
pub(crate) struct Listed {
    pub(crate) instruments: Vec<(u64, Instrument)>,
    pub(crate) views: Vec<(u64, View)>,
    pub(crate) gateways: Vec<(u64, u32)>,
    pub(crate) limit: Option<(u64, u64)>,
}

impl Listed {
    pub(crate) fn new(alloc: Global) -> Listed {
        Listed {
            instruments: Vec::new(alloc),
            views: Vec::new(alloc),
            gateways: Vec::new(alloc),
            limit: None,
        }
    }

    /// Adds what a line declares.
    pub(crate) fn add(&mut self, line: u64, declaration: Declaration) -> Result<(), NoMemory> {
        match declaration {
            Declaration::Instrument { instrument, .. } => self.add_instrument(line, instrument),
            Declaration::View(view) => self.add_view(line, view),
            Declaration::Writer { .. } => Ok(()),
            Declaration::Gateway(id) => {
                self.gateways.push((line, id))?;
                Ok(())
            }
            Declaration::Limit(limit) => {
                self.limit = Some((line, limit));
                Ok(())
            }
        }
    }

    fn add_instrument(&mut self, line: u64, instrument: Instrument) -> Result<(), NoMemory> {
        self.instruments.push((line, instrument))?;
        Ok(())
    }

    fn add_view(&mut self, line: u64, view: View) -> Result<(), NoMemory> {
        self.views.push((line, view))?;
        Ok(())
    }

    /// The plan of what is declared, or why there is none.
    pub(crate) fn plan(&self, alloc: Global) -> Result<Result<Plan, PlanFault>, NoMemory> {
        let instruments = second_of_each(alloc, self.instruments.as_slice())?;
        let views = second_of_each(alloc, self.views.as_slice())?;
        let limit = match self.limit {
            Some((_, limit)) => limit,
            None => DEFAULT_LIMIT,
        };
        match Plan::build(alloc, instruments, views, limit) {
            Err(PlanFault::NoMemory) => Err(NoMemory),
            built => Ok(built),
        }
    }

    /// The lines of the first gateway that has the id of an earlier one, that one's before its own, and the id.
    pub(crate) fn same_gateway(&self, alloc: Global) -> Result<Option<(u64, u64, u32)>, NoMemory> {
        let mut lines = HashMap::new(alloc);
        for (line, id) in &self.gateways {
            if let Some(earlier) = lines.insert(*id, *line)? {
                return Ok(Some((earlier, *line, *id)));
            }
        }
        Ok(None)
    }
}

// Copies of what is listed, without the lines.
fn second_of_each<T: TryCopy>(alloc: Global, listed: &[(u64, T)]) -> Result<Seq<T>, NoMemory> {
    let mut copies = Vec::with_capacity(alloc, listed.len())?;
    for (_, item) in listed {
        copies.push(item.try_copy()?)?;
    }
    Ok(Seq::from_vec(copies))
}
