//! What is wrong with a line.
use crate::sentence::Sentence;
use std::fmt;
use thiserror::Error;

/// The lines of the grammar, but for the empty one and comments. It prints as the words that it wants behind its first.
#[derive(Clone, Copy, Debug, PartialEq, Eq)]
pub enum Form {
    Instrument,
    /// That of an instrument whose third word is a kind. It prints as the words that it wants behind this one.
    InstrumentOfKind,
    View,
    Writer,
    Gateway,
    Limit,
    Begin,
    Measure,
    Collect,
    Shutdown,
    Restart,
    Deliver,
    Merge,
    Send,
    Hand,
    Report,
    Same,
    Conflicts,
    Newest,
}

/// What a number of a line is.
#[derive(Clone, Copy, Debug, PartialEq, Eq)]
pub enum Noun {
    /// The time at which a writer starts, in nanoseconds since the Unix epoch.
    Start,
    /// The time of a collection, in the same.
    Time,
    Export,
    Mail,
    Limit,
    Gateway,
}

/// Why a line is bad, in the order in which it is looked for, of words from the left. The first word is at place 0.
///
/// It prints as what is said of a line, with `..` for the word that it is about.
#[derive(Clone, Copy, Debug, PartialEq, Eq, Error)]
pub enum Reason {
    /// The script ends before the line's line feed.
    Cut,
    /// The line has a byte that is neither a space nor a visible ASCII character.
    Bytes,
    /// A space begins or ends the line, or follows another one.
    Spaces,
    /// The first word begins no line of the grammar.
    Unknown,
    /// A line of this form has more words or fewer.
    Count(Form),
    /// No label: 1 to 16 lower-case letters and digits.
    Label(usize),
    /// No kind of instrument.
    Kind(usize),
    /// No kind of instrument, and no `*`.
    KindAsked(usize),
    /// No UUID.
    Uuid(usize),
    /// Not the digits of a number, or with a zero in front.
    NoNumber(usize),
    /// A number that is too great.
    TooGreat(usize, Noun),
    /// No value: a whole number of 64 bits.
    Value(usize),
    /// No shape of points.
    Shape(usize),
    /// No list of attributes.
    Attributes(usize),
    /// No list of keys.
    Keep(usize),
    /// No aggregation.
    Aggregation(usize),
    /// A declaration, or `begin`, behind `begin`.
    Late,
    /// An event or a query before `begin`.
    Early,
    /// Another instrument, or another writer, has the label; or there is a limit.
    Taken(usize),
    /// What was declared is refused.
    Refused,
    /// No writer has the label.
    NoWriter(usize),
    /// No instrument has the label.
    NoInstrument(usize),
    /// No gateway has the id.
    NoGateway(usize),
}

impl fmt::Display for Form {
    ghost use Rattle.std.specs.Prelude.{Some};
    ghost use Rattle.script_kit.specs.Reasons.{form_text};

    ghost output = { λ it. Some (form_text it) };

    fn fmt<W: fmt::Write>(&self, f: &mut fmt::Formatter<W>) -> fmt::Result {
        match self {
            Form::Instrument => write!(f, "a label, a kind, a scope, a name and a unit"),
            Form::InstrumentOfKind => write!(f, "a scope, a name and a unit"),
            Form::View => write!(
                f,
                "a name, a kind, a scope, a new name, keys to keep and an aggregation"
            ),
            Form::Writer => write!(f, "a label, a service, a UUID and a start"),
            Form::Gateway => write!(f, "an id"),
            Form::Limit => write!(f, "a number"),
            Form::Begin => write!(f, "no other word"),
            Form::Measure => write!(f, "a writer, an instrument, a value and attributes"),
            Form::Collect => write!(f, "a writer and a time"),
            Form::Shutdown => write!(f, "a writer and a time"),
            Form::Restart => write!(f, "a writer and a start"),
            Form::Deliver => write!(f, "an export and a gateway"),
            Form::Merge => write!(f, "two gateways"),
            Form::Send => write!(f, "two gateways"),
            Form::Hand => write!(f, "a mail and a gateway"),
            Form::Report => write!(
                f,
                "a gateway, a scope, a name, a unit, a shape, a service, attributes and keys to keep"
            ),
            Form::Same => write!(f, "two gateways"),
            Form::Conflicts => write!(f, "a gateway"),
            Form::Newest => write!(f, "a gateway, a writer and a start"),
        }
    }
}

impl fmt::Display for Noun {
    ghost use Rattle.std.specs.Prelude.{Some};
    ghost use Rattle.script_kit.specs.Reasons.{noun_text};

    ghost output = { λ it. Some (noun_text it) };

    fn fmt<W: fmt::Write>(&self, f: &mut fmt::Formatter<W>) -> fmt::Result {
        match self {
            Noun::Start => write!(f, "a start"),
            Noun::Time => write!(f, "a time"),
            Noun::Export => write!(f, "the number of an export"),
            Noun::Mail => write!(f, "the number of a mail"),
            Noun::Limit => write!(f, "a limit"),
            Noun::Gateway => write!(f, "an id"),
        }
    }
}

impl fmt::Display for Reason {
    ghost use Rattle.std.specs.Prelude.{[], None, Some, codes};
    ghost use Rattle.script_kit.specs.Reasons.{reason_text};

    ghost output = { λ it. Some (reason_text it (codes "..") None []) };

    fn fmt<W: fmt::Write>(&self, f: &mut fmt::Formatter<W>) -> fmt::Result {
        let sentence = Sentence::alone(*self);
        write!(f, "{sentence}")
    }
}

impl Reason {
    ghost use Rattle.std.specs.Prelude.{◌≡◌};
    ghost use Rattle.script_kit.specs.Reasons.{place_of};

    /// The place of the word that it is about; none where it is about the whole line.
    pub fn place(self) -> Option<usize>
        ensures { result ≡ place_of self }
    {
        match self {
            Reason::Cut | Reason::Bytes | Reason::Spaces => None,
            Reason::Label(place)
            | Reason::Kind(place)
            | Reason::KindAsked(place)
            | Reason::Uuid(place)
            | Reason::NoNumber(place)
            | Reason::TooGreat(place, _)
            | Reason::Value(place)
            | Reason::Shape(place)
            | Reason::Attributes(place)
            | Reason::Keep(place)
            | Reason::Aggregation(place)
            | Reason::Taken(place)
            | Reason::NoWriter(place)
            | Reason::NoInstrument(place)
            | Reason::NoGateway(place) => Some(place),
            Reason::Count(Form::InstrumentOfKind) => Some(2),
            Reason::Unknown | Reason::Count(_) | Reason::Late | Reason::Early | Reason::Refused =>
                Some(0),
        }
    }
}
