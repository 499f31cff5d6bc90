//! What files of exports, messages and states say: the commands of the program `otm` on files, over values.
//!
//! - [`joined`] is what files say, in a gateway: each file is the bytes of an export, or of a message or a state. A [`FileFault`] tells
//!   the first file that is none, and why; [`why_none`] says why in the words of whoever gave the file, by a [`Misfit`].
//! - [`kept`] is what files show: the same without what a tombstone of an archive names. Files without one show all that they say
//!   ([`files_without_tombstones_show_all`]).
//! - [`report`] and [`expose`] answer of that: a table, [`Reported`] with the streams that there are where it is of none of them, or a
//!   page in a [`PageFormat`]. [`merged`] is a state of it, as bytes.
//! - [`show`] tells what one file is of, with tables of its points. [`otlp`] is the OTLP request of files of exports, or a [`SendFault`].
//! - [`archived`] is the export of an archive that adopts what files show, asked for by an [`Archiving`], or an [`ArchiveFault`];
//!   [`incarnation`] tells of which incarnation that speaks.
//! - [`read_command`] reads what a command line asks of files: a [`FileCommand`], or a [`CommandFault`]. [`is_of_files`] tells whether
//!   words are for it.
//!
//! A caller, from `crates/otm/src/files.rt`:
//!
//!     match merged(alloc, contents.as_slice()) {
//!         Ok(state) => put(rt, into, state.as_slice()),
//!         Err(fault) => Err(unjoined(alloc, files, contents.as_slice(), fault)),
//!
//! docs/use/FILES.md tells the commands. What contracts cite stands in `specs/`: `Contents` (what files have, what they say joined, what
//! they show of that, and why a file says nothing), `Misfits` (the same in words), `FaultTexts` (what faults print), `Answers`,
//! `Archiving`, `Sending`, `Shown`, and of what words ask for `AskWords`, `ArchiveWords` and `Commands`.
#![tactic(auto)]

mod answers;
mod archive;
mod archive_words;
mod ask_words;
mod command;
mod command_line;
mod content;
mod fault;
mod join;
mod laws;
mod misfit;
mod sending;
mod shown;
mod streams;
mod word;

pub use answers::{PageFormat, Reported, expose, report};
pub use archive::{Archiving, archived};
pub use command::{CommandFault, FileCommand};
pub use command_line::{is_of_files, read_command};
pub use fault::{ArchiveFault, FileFault, SendFault};
pub use join::{joined, kept};
pub use laws::files_without_tombstones_show_all;
pub use misfit::{Misfit, why_none};
pub use sending::{merged, otlp};
pub use shown::{incarnation, show};
