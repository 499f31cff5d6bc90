//! What queries print.
ghost use Rattle.std.specs.Prelude.{◌≡◌, IfOk, string_bytes};
ghost use Rattle.otm_kit.specs.Answers.{answer_of, ask_of, conflicts_text, newest_text, same_text};
ghost use Rattle.otm_kit.specs.Standing.{Prints, Runs};
ghost use Rattle.script_kit.specs.declared.line.Query.TheVariants as query;

use crate::running::Running;
use attr_kit::{NoMemory, Txt};
use gateway_kit::Gateway;
use rollup_kit::{Ask, rollup, table};
use script_kit::{Query, Reason, Report, Stop};
use std::alloc::Global;

impl Running {
    /// What a query prints.
    ///
    /// Refuses: `Bad`, where a label or an id names nothing; `NoMemory`.
    pub(crate) fn answer(&self, alloc: Global, query: Query) -> Result<String, Stop>
        ensures { (d : _) (cs : _) → Runs d cs self.now → Prints result (answer_of d cs query) }
    {
        match query {
            Query::Report { gateway, report } => self.report(alloc, gateway, report),
            Query::Same { one, other } => self.same(alloc, one, other),
            Query::Conflicts { gateway } => self.conflicts(alloc, gateway),
            Query::Newest {
                gateway,
                writer,
                start,
            } => self.newest(alloc, gateway, &writer, start),
        }
    }

    fn report(&self, alloc: Global, gateway: u32, report: Report) -> Result<String, Stop>
        ensures { (d : _) (cs : _) → Runs d cs self.now → Prints result (answer_of d cs (query.Report gateway report)) }
    {
        let Some(gateway) = self.gateway(gateway) else {
            return Err(Stop::Bad(Reason::NoGateway(1)));
        };
        let ask = ask_of(alloc, report)?;
        let rows = rollup(alloc, gateway, &ask)?;
        Ok(table(alloc, rows.as_slice())?.into_string(alloc)?)
    }

    fn same(&self, alloc: Global, one: u32, other: u32) -> Result<String, Stop>
        ensures { (d : _) (cs : _) → Runs d cs self.now → Prints result (answer_of d cs (query.Same one other)) }
    {
        let Some(one) = self.gateway(one) else {
            return Err(Stop::Bad(Reason::NoGateway(1)));
        };
        let Some(other) = self.gateway(other) else {
            return Err(Stop::Bad(Reason::NoGateway(2)));
        };
        Ok(same_line(alloc, one, other)?)
    }

    fn conflicts(&self, alloc: Global, gateway: u32) -> Result<String, Stop>
        ensures { (d : _) (cs : _) → Runs d cs self.now → Prints result (answer_of d cs (query.Conflicts gateway)) }
    {
        let Some(gateway) = self.gateway(gateway) else {
            return Err(Stop::Bad(Reason::NoGateway(1)));
        };
        Ok(conflicts_line(alloc, gateway)?)
    }

    fn newest(&self, alloc: Global, gateway: u32, writer: &Txt, start: u64) -> Result<String, Stop>
        ensures { (d : _) (cs : _) → Runs d cs self.now → Prints result (answer_of d cs (query.Newest gateway writer.now start)) }
    {
        let Some(gateway) = self.gateway(gateway) else {
            return Err(Stop::Bad(Reason::NoGateway(1)));
        };
        let Some(place) = self.writers.place(writer) else {
            return Err(Stop::Bad(Reason::NoWriter(2)));
        };
        let Some(writer) = self.world.writer(place) else {
            return Err(Stop::Bad(Reason::NoWriter(2)));
        };
        let time = gateway.newest(writer.id(), start);
        Ok(newest_line(alloc, time)?)
    }
}

// Whether two gateways hold equal points.
#[tactic(auto, unfolding(crate::specs::Answers::same_text))]
fn same_line(alloc: Global, one: &Gateway, other: &Gateway) -> Result<String, NoMemory>
    ensures { IfOk result (λ text. string_bytes text ≡ same_text one.now.points other.now.points) }
{
    if one.same(other) {
        Ok(String::from_str(alloc, "same yes\n")?)
    } else {
        Ok(String::from_str(alloc, "same no\n")?)
    }
}

// How many conflicts a gateway holds.
#[tactic(auto, unfolding(crate::specs::Answers::conflicts_text))]
fn conflicts_line(alloc: Global, gateway: &Gateway) -> Result<String, NoMemory>
    ensures { IfOk result (λ text. string_bytes text ≡ conflicts_text gateway.now.points) }
{
    let count = gateway.conflicts();
    Ok(format!(in alloc; "conflicts {count}\n")?)
}

// The greatest time of an incarnation.
#[tactic(auto, unfolding(crate::specs::Answers::newest_text))]
fn newest_line(alloc: Global, time: Option<u64>) -> Result<String, NoMemory>
    ensures { IfOk result (λ text. string_bytes text ≡ newest_text time) }
{
    match time {
        Some(time) => Ok(format!(in alloc; "newest {time}\n")?),
        None => Ok(String::from_str(alloc, "newest none\n")?),
    }
}

// What a report asks of a gateway.
fn ask_of(alloc: Global, report: Report) -> Result<Ask, NoMemory>
    ensures { IfOk result (λ ask. ask ≡ ask_of report) }
{
    let Report {
        stream,
        service,
        only,
        keep,
    } = report;
    Ask::for_set(alloc, stream, service, &only, keep)
}
