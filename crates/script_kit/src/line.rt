//! What one line of a script asks for.
use attr_kit::{AttrSet, AttrValue, Keep, Seq, Txt};
use plan_kit::{Instrument, View};
use point_kit::{Stream, WriterId};

/// What one line of a script asks for.
#[derive(Debug, PartialEq, Eq, Drop)]
pub enum Line {
    /// An empty line, or a comment.
    Nothing,
    Declare(Declaration),
    Begin,
    Do(Command),
    Ask(Query),
}

/// What a script has, before it begins.
#[derive(Debug, PartialEq, Eq, Drop)]
pub enum Declaration {
    Instrument {
        label: Txt,
        instrument: Instrument,
    },
    View(View),
    Writer {
        label: Txt,
        id: WriterId,
        start: u64,
    },
    Gateway(u32),
    Limit(u64),
}

/// What happens, by labels of writers and instruments, ids of gateways, and numbers of exports and mails.
#[derive(Debug, PartialEq, Eq, Drop)]
pub enum Command {
    Measure {
        writer: Txt,
        instrument: Txt,
        value: i64,
        attrs: AttrSet,
    },
    Collect {
        writer: Txt,
        time: u64,
    },
    Shutdown {
        writer: Txt,
        time: u64,
    },
    Restart {
        writer: Txt,
        start: u64,
    },
    Deliver {
        export: u64,
        gateway: u32,
    },
    Merge {
        into: u32,
        from: u32,
    },
    Send {
        from: u32,
        to: u32,
    },
    Hand {
        mail: u64,
        gateway: u32,
    },
}

/// What is asked of gateways.
#[derive(Debug, PartialEq, Eq, Drop)]
pub enum Query {
    Report {
        gateway: u32,
        report: Report,
    },
    Same {
        one: u32,
        other: u32,
    },
    Conflicts {
        gateway: u32,
    },
    Newest {
        gateway: u32,
        writer: Txt,
        start: u64,
    },
}

/// Which points a report is of, and how they are grouped.
#[derive(Debug, PartialEq, Eq, Drop)]
pub struct Report {
    pub stream: Stream,
    pub service: Option<Txt>,
    pub only: AttrSet,
    pub keep: Keep,
}
