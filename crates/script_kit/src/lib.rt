//! The grammar of a script: bytes to lines, lines to words, words to what a line asks for. docs/use/SCRIPTS.md tells each line.
//!
//! - [`read_script`] reads an input of at most [`MAX_BYTES`] bytes, [`first_line`] cuts its lines off, and [`write_text`] writes an answer.
//! - [`parse_line`] reads a [`Line`]: a [`Declaration`], `begin`, a [`Command`], a [`Query`] or nothing. Else a [`Stop`] says why
//!   it ended: for want of memory, or because the line is bad, with the [`Reason`] that comes first. A query may ask for a [`Report`];
//!   a reason may name the [`Form`] of a line, or by a [`Noun`] what a number is.
//! - [`explain`] tells a reason in words. A [`ScriptFault`] is how a whole script ends. [`script_shape`] gives a shape that is called
//!   by its kind, as `counter`, the name that scripts have for it.
//!
//! A caller, from `crates/uses/src/scripting.rt`:
//!
//!     match parse_line(alloc, line) {
//!         Ok(_line) => Ok(None),
//!         Err(Stop::Bad(reason)) => Ok(Some((reason, explain(alloc, line, reason)?))),
//!         Err(Stop::NoMemory) => Err(NoMemory),
//!     }
//!
//! What contracts cite stands in `specs/`: `Lines` (what each line asks for, or why it is bad), `Words`, `Reading`, `Forms`,
//! `Shapes`, `Numbers`, `Attributes`, `Reasons`, `Bytes`.
#![tactic(auto)]

mod attributes;
mod commands;
mod declarations;
mod fault;
mod forms;
mod input;
mod line;
mod numbers;
mod parse;
mod pieces;
mod queries;
mod reading;
mod reason;
mod sentence;
mod shapes;
mod stop;
mod words;

pub use fault::ScriptFault;
pub use input::{MAX_BYTES, read_script, write_text};
pub use line::{Command, Declaration, Line, Query, Report};
pub use parse::parse_line;
pub use reason::{Form, Noun, Reason};
pub use sentence::explain;
pub use shapes::{DEFAULT_BOUNDS, script_shape};
pub use stop::Stop;
pub use words::first_line;
