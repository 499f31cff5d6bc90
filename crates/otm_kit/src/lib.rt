//! The program of scripts: what a command line asks for, and what a script does.
//!
//! - [`command_line::asked`] reads the words of a command line: what is [`Asked`], or a [`LineFault`].
//! - [`run_script`] reads a script and writes what its lines say. [`run_script_told`] tells besides, in an [`Ended`], why a bad
//!   line is bad. [`notes_on`] tells likely mistakes that are no bad lines, which lines were refused, and which line a refused `begin`
//!   is about. [`note_on_stream`] tells that nothing has a stream, and which one is near it.
//! - [`run_program`] does the script of the standard input, as `otm run` and the program `scripts` do: [`run_lines`] does its lines, and
//!   keeps in a [`Refused`] which were refused.
//! - [`fleet_report`] runs a fleet of threads and writes the total of each gateway, which is the number of all recordings. A
//!   [`FleetEnd`] says why it wrote none.
//!
//! A caller, from `crates/uses/src/scripting.rt`, whose script lies in memory:
//!
//!     let mut reader = script;
//!     let mut text = Vec::new(alloc);
//!     run_script_told(alloc, &mut reader, &mut text)?;
//!     Ok(text)
//!
//! What a script says is a definition (specs `Says`): the effect of each line is read off the lines before it (specs
//! `Declarations`, `Events`, `Effects`, `Answers`, `Texts`), and the world of the script is that of its accepted events
//! (`world_kit`). Every line of the grammar of `script_kit` is done; mails carry what changed, and a delta is answered by a mail.
//! What contracts cite besides stands in `Ends` (what a run has written where it ends), `FleetSetups` and `FleetTexts`. Scripts
//! and fleets are the kit's own; the OpenTelemetry specification has neither.
#![tactic(auto)]

mod answers;
mod begin;
pub mod command_line;
mod desk;
mod draft;
mod ended;
mod fleet;
mod fleet_end;
mod fleet_setup;
mod gateway_ids;
mod labels;
mod listed;
mod misplans;
mod notes;
mod program;
mod refusals;
mod refused;
mod running;
mod script;
mod short_word;
pub mod status;
mod streams;
mod unmatched;
mod words;

pub use ended::Ended;
pub use fleet::fleet_report;
pub use fleet_end::FleetEnd;
pub use notes::{note_on_stream, notes_on};
pub use program::run_program;
pub use refused::Refused;
pub use script::{run_lines, run_script, run_script_told};
pub use words::{Asked, LineFault};
