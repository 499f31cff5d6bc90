//! What an event is answered by.
use archive_kit::{AdoptFault, ExportRefusal, SealRefusal, Taking};
use point_kit::ExportFault;
use std::fmt;

/// What a keeper holds.
#[derive(Clone, Copy, Debug)]
pub struct Holding {
    pub points: usize,
    pub incarnations: usize,
    /// The total of all sums.
    pub total: i128,
    pub conflicts: u64,
}

/// An answer, a line or more. One of more lines has an empty one at its end.
#[derive(Debug, Drop)]
pub enum Answer {
    Took(Taking),
    NoExport(ExportFault),
    Adopted,
    NotAdopted(AdoptFault),
    Exported { number: usize, points: usize },
    NotExported(ExportRefusal),
    Sealed,
    NotSealed(SealRefusal),
    Merged(u64),
    Sent { number: usize, cells: usize },
    Handed(Option<usize>),
    Holds(Holding),
    Same(bool),
    Lines(String),
}

impl fmt::Display for Answer {
    fn fmt<W: fmt::Write>(&self, f: &mut fmt::Formatter<W>) -> fmt::Result {
        match self {
            Answer::Took(Taking::Taken(changed)) => write!(f, "taken {changed}"),
            Answer::Took(Taking::Stale) => write!(f, "stale"),
            Answer::Took(Taking::Late) => write!(f, "late"),
            Answer::NoExport(fault) => write!(f, "{fault:?}"),
            Answer::Adopted => write!(f, "adopted"),
            Answer::NotAdopted(fault) => write!(f, "{fault:?}"),
            Answer::Exported { number, points } => write!(f, "export {number} of {points}"),
            Answer::NotExported(fault) => write!(f, "{fault:?}"),
            Answer::Sealed => write!(f, "sealed"),
            Answer::NotSealed(fault) => write!(f, "{fault:?}"),
            Answer::Merged(changed) => write!(f, "merged {changed}"),
            Answer::Sent { number, cells } => write!(f, "message {number} of {cells}"),
            Answer::Handed(Some(number)) => write!(f, "answered by {number}"),
            Answer::Handed(None) => write!(f, "handed"),
            Answer::Holds(holding) => write!(f, "{holding}"),
            Answer::Same(true) => write!(f, "same"),
            Answer::Same(false) => write!(f, "different"),
            Answer::Lines(text) => write!(f, "{text}"),
        }
    }
}

impl fmt::Display for Holding {
    fn fmt<W: fmt::Write>(&self, f: &mut fmt::Formatter<W>) -> fmt::Result {
        let Holding {
            points,
            incarnations,
            total,
            conflicts,
        } = self;
        write!(
            f,
            "points {points} incarnations {incarnations} total {total} conflicts {conflicts}"
        )
    }
}
