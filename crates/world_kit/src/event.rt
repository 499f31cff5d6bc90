//! What happens in a world, and what it replies.
ghost use Rattle.std.specs.Prelude.{Some};
ghost use Rattle.world_kit.specs.Texts.{refusal_text};

use attr_kit::AttrSet;
use std::fmt;

/// What is asked of a world. Writers, instruments and gateways are named by their places from 0, exports and mails by
/// their numbers from 1, as replies gave them. Times are nanoseconds since the Unix epoch.
#[derive(Debug, PartialEq, Eq, Drop)]
pub enum Event {
    /// A writer records a value.
    Measure {
        writer: usize,
        instrument: usize,
        attrs: AttrSet,
        value: i64,
    },
    /// A writer's points are collected: this makes an export.
    Collect {
        writer: usize,
        time: u64,
    },
    /// The same, and the writer closes.
    Shutdown {
        writer: usize,
        time: u64,
    },
    /// A writer begins anew.
    Restart {
        writer: usize,
        start: u64,
    },
    /// An export comes to a gateway.
    Deliver {
        export: u64,
        gateway: usize,
    },
    /// A gateway joins what another one holds.
    Merge {
        into: usize,
        from: usize,
    },
    /// A gateway makes a mail to another.
    Send {
        from: usize,
        to: usize,
    },
    /// A mail comes to a gateway.
    Hand {
        mail: u64,
        gateway: usize,
    },
}

/// Why an event is refused, in the order in which it is looked for. It prints as its name, with its number in
/// parentheses where it has one: `Closed`, `TimeNotAfter(200)`.
#[derive(Debug, PartialEq, Eq, Drop)]
pub enum Refusal {
    /// No writer has this place.
    NoWriter,
    /// No gateway has this place.
    NoGateway,
    /// No export has this number.
    NoExport,
    /// No mail has this number.
    NoMail,
    /// The writer was shut down.
    Closed,
    /// The plan has no instrument of this place.
    NoInstrument,
    /// The value is below 0, for a counter or a histogram.
    Negative,
    /// A sum of this stream would be no i64, or a count no u64.
    Overflow(usize),
    /// The time is not after this one, the writer's last.
    TimeNotAfter(u64),
    /// The start is not after this one, the writer's start.
    StartNotAfter(u64),
    /// The mail goes to another gateway.
    NotAddressed,
}

impl fmt::Display for Refusal {
    ghost output = { λ refusal. Some (refusal_text refusal) };

    fn fmt<W: fmt::Write>(&self, f: &mut fmt::Formatter<W>) -> fmt::Result {
        match self {
            Refusal::NoWriter => write!(f, "NoWriter"),
            Refusal::NoGateway => write!(f, "NoGateway"),
            Refusal::NoExport => write!(f, "NoExport"),
            Refusal::NoMail => write!(f, "NoMail"),
            Refusal::Closed => write!(f, "Closed"),
            Refusal::NoInstrument => write!(f, "NoInstrument"),
            Refusal::Negative => write!(f, "Negative"),
            Refusal::Overflow(stream) => write!(f, "Overflow({stream})"),
            Refusal::TimeNotAfter(last) => write!(f, "TimeNotAfter({last})"),
            Refusal::StartNotAfter(start) => write!(f, "StartNotAfter({start})"),
            Refusal::NotAddressed => write!(f, "NotAddressed"),
        }
    }
}

/// What a world replies to an event.
#[derive(Debug, PartialEq, Eq, Drop)]
pub enum Reply {
    /// A value was recorded, or a writer restarted.
    Done,
    /// A collection made the export of this number.
    Made(u64),
    /// At so many keys the gateway holds another cell than before.
    Changed(u64),
    /// The mail of this number was made.
    Sent(u64),
    /// A mail was taken in; it was answered by the mail of this number, if it was answered.
    Handed(Option<u64>),
    /// The event is refused. Nothing has changed.
    Refused(Refusal),
}
