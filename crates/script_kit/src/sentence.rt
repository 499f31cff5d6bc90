//! What is said of a bad line.
ghost use Rattle.std.specs.Prelude.{◌≡◌, ◌++◌, IfOk, Ok, map, option_map, string_bytes};
ghost use Rattle.script_kit.specs.Reasons.{meant_by, meant_text, odd_byte, sentence_of, short_word, word_in};

use crate::forms::is_label_byte;
use crate::reading::word_if_any;
use crate::reason::Reason;
use crate::shapes::{before_colon, script_name};
use crate::stop::Stop;
use crate::words::{is_line_byte, text_of, words};
use attr_kit::NoMemory;
use std::alloc::Global;
use std::fmt;

// What a line has, and what a word of each kind is.
const BYTES: &str = "only spaces and visible ASCII characters";

const SPACES: &str = "one space between two words, and none at its ends";

const LABEL: &str = "a label has at most 16 of a to z and 0 to 9";

const KIND: &str = "a kind is counter, updown, gauge or histogram";

const KIND_ASKED: &str = "a kind is counter, updown, gauge, histogram, or * for any";

const UUID: &str = "a UUID has 32 hexadecimal digits, with hyphens or without";

const NUMBER: &str = "a number has digits alone, and no leading zero";

const VALUE: &str = "a value is a whole number of 64 bits, with no plus sign and no leading zero";

const SHAPE: &str = "a shape is sum+, sum, gauge, hist, or hist: and values with commas between";

const ATTRIBUTES: &str = "a list is -, or pairs of a key, = and a value, with commas between";

const KEYS: &str = "a list is *, -, or keys with commas between";

const AGGREGATION: &str =
    "an aggregation is default, sum, last, drop, or buckets: and values with commas between";

/// A word as it is told: a front of it, and what stands for the rest.
#[derive(Clone, Copy)]
struct ShortWord<'a> {
    front: &'a str,
    rest: &'a str,
}

// The first byte that stands in a line though no line has it, told by its name.
#[derive(Clone, Copy)]
struct OddByte {
    byte: Option<u8>,
}

// The first character that stands in a word though no label has it.
#[derive(Clone, Copy)]
struct OddCharacter {
    byte: Option<u8>,
}

// A name, and what it is called here, where that is something else.
#[derive(Clone, Copy)]
struct Meant<'a> {
    name: &'a str,
    here: Option<&'static str>,
}

/// A reason, the word that it is about, what stands there that may not, and what is meant. It prints as what is said of them.
#[derive(Clone, Copy)]
pub(crate) struct Sentence<'a> {
    reason: Reason,
    word: ShortWord<'a>,
    odd: Option<u8>,
    meant: Meant<'a>,
}

impl fmt::Display for ShortWord<'_> {
    ghost use Rattle.std.specs.Prelude.{◌++◌, Some};

    ghost output = { λ it. Some (it.front.now ++ it.rest.now) };

    fn fmt<W: fmt::Write>(&self, f: &mut fmt::Formatter<W>) -> fmt::Result {
        let ShortWord { front, rest } = *self;
        write!(f, "{front}{rest}")
    }
}

impl fmt::Display for OddByte {
    ghost use Rattle.std.specs.Prelude.{Some};
    ghost use Rattle.script_kit.specs.Reasons.{byte_text};

    ghost output = { λ it. Some (byte_text it.byte) };

    fn fmt<W: fmt::Write>(&self, f: &mut fmt::Formatter<W>) -> fmt::Result {
        match self.byte {
            None => Ok(()),
            Some(b'\r') => write!(f, ", and no carriage return"),
            Some(b'\t') => write!(f, ", and no tab"),
            Some(byte) => write!(f, ", and no byte {byte}"),
        }
    }
}

impl fmt::Display for OddCharacter {
    ghost use Rattle.std.specs.Prelude.{Some};
    ghost use Rattle.script_kit.specs.Reasons.{character_text};

    ghost output = { λ it. Some (character_text it.byte) };

    fn fmt<W: fmt::Write>(&self, f: &mut fmt::Formatter<W>) -> fmt::Result {
        match self.byte {
            None => Ok(()),
            Some(byte) => {
                let character = char::from(byte);
                write!(f, ", and no '{character}'")
            }
        }
    }
}

impl fmt::Display for Meant<'_> {
    ghost use Rattle.std.specs.Prelude.{Some, option_map};
    ghost use Rattle.script_kit.specs.Reasons.{meant_text};

    ghost output = { λ it. Some (meant_text it.name.now (option_map (λ here. here.now) it.here)) };

    fn fmt<W: fmt::Write>(&self, f: &mut fmt::Formatter<W>) -> fmt::Result {
        let name = self.name;
        match self.here {
            None => Ok(()),
            Some(here) => write!(f, "; '{name}' is written '{here}' here"),
        }
    }
}

impl fmt::Display for Sentence<'_> {
    ghost use Rattle.std.specs.Prelude.{◌++◌, Some, option_map};
    ghost use Rattle.script_kit.specs.Reasons.{meant_text, reason_text};

    ghost output = { λ it. Some (reason_text it.reason (it.word.front.now ++ it.word.rest.now) it.odd
        (meant_text it.meant.name.now (option_map (λ here. here.now) it.meant.here))) };

    fn fmt<W: fmt::Write>(&self, f: &mut fmt::Formatter<W>) -> fmt::Result {
        let word = self.word;
        let byte = self.odd;
        let meant = self.meant;
        match self.reason {
            Reason::Cut => write!(f, "a line ends with a line feed"),
            Reason::Bytes => {
                let odd = OddByte { byte };
                write!(f, "a line has {BYTES}{odd}")
            }
            Reason::Spaces => write!(f, "a line has {SPACES}"),
            Reason::Unknown => write!(f, "no line begins with '{word}'"),
            Reason::Count(form) => write!(f, "'{word}' wants {form}"),
            Reason::Label(_) => {
                let odd = OddCharacter { byte };
                write!(f, "'{word}' is no label: {LABEL}{odd}")
            }
            Reason::Kind(_) => write!(f, "no kind is called '{word}': {KIND}"),
            Reason::KindAsked(_) => write!(f, "no kind is called '{word}': {KIND_ASKED}"),
            Reason::Uuid(_) => write!(f, "'{word}' is no UUID: {UUID}"),
            Reason::NoNumber(_) => write!(f, "'{word}' is no number: {NUMBER}"),
            Reason::TooGreat(_, noun) => write!(f, "{word} is too great for {noun}"),
            Reason::Value(_) => write!(f, "'{word}' is no value: {VALUE}"),
            Reason::Shape(_) => write!(f, "'{word}' is no shape: {SHAPE}{meant}"),
            Reason::Attributes(_) => write!(f, "'{word}' lists no attributes: {ATTRIBUTES}"),
            Reason::Keep(_) => write!(f, "'{word}' lists no keys: {KEYS}"),
            Reason::Aggregation(_) => write!(f, "'{word}' is no aggregation: {AGGREGATION}"),
            Reason::Late => write!(f, "'{word}' wants no 'begin' before it"),
            Reason::Early => write!(f, "'{word}' wants a 'begin' before it"),
            Reason::Taken(_) => write!(f, "'{word}' was declared before"),
            Reason::Refused => write!(f, "'{word}' is refused"),
            Reason::NoWriter(_) => write!(f, "no writer is called '{word}'"),
            Reason::NoInstrument(_) => write!(f, "no instrument is called '{word}'"),
            Reason::NoGateway(_) => write!(f, "no gateway has the id {word}"),
        }
    }
}

impl Sentence<'_> {
    ghost use Rattle.std.specs.Prelude.{◌≡◌, [], None, codes, option_map};
    ghost use Rattle.script_kit.specs.Reasons.{meant_text};

    /// A reason alone, without the line: two dots stand for the word that it is about.
    pub(crate) fn alone(reason: Reason) -> Sentence<'static>
        ensures reason { result.reason ≡ reason }
        ensures front { result.word.front.now ≡ codes ".." }
        ensures rest { result.word.rest.now ≡ [] }
        ensures odd { result.odd ≡ None }
        ensures meant { meant_text result.meant.name.now (option_map (λ here. here.now) result.meant.here) ≡ [] }
    {
        Sentence {
            reason,
            word: ShortWord {
                front: "..",
                rest: "",
            },
            odd: None,
            meant: Meant {
                name: "",
                here: None,
            },
        }
    }
}

/// What is said of a line that is bad for this reason. Of a word of more than 40 characters the first 40 are told, and `..`.
/// O(n) for a line of n bytes.
#[tactic(auto, unfolding(crate::specs::Reasons::sentence_of))]
pub fn explain(alloc: Global, line: &[u8], reason: Reason) -> Result<String, NoMemory>
    ensures { IfOk result (λ text. string_bytes text ≡ sentence_of line.now reason) }
{
    let words = match words(alloc, line) {
        Ok(words) => words,
        Err(Stop::Bad(_)) => Vec::new(alloc),
        Err(Stop::NoMemory) => return Err(NoMemory),
    };
    let word = word_in(&words, reason.place());
    let (front, rest) = shorten(word);
    let sentence = Sentence {
        reason,
        word: ShortWord { front, rest },
        odd: odd_byte(line, word, reason),
        meant: meant_by(word, reason),
    };
    Ok(format!(in alloc; "{sentence}")?)
}

// The word at a place, or none.
fn word_in<'a>(words: &[&'a str], place: Option<usize>) -> &'a str
    ensures { result.now ≡ word_in (Ok (map (λ w. w.now) words.now)) place }
{
    match place {
        Some(place) => word_if_any(words, place),
        None => "",
    }
}

// The first byte that a line has and may not have, or its label.
fn odd_byte(line: &[u8], label: &str, reason: Reason) -> Option<u8>
    ensures { result ≡ odd_byte line.now label.now reason }
{
    match reason {
        Reason::Bytes => line.iter().copied().find(|byte| !is_line_byte(*byte)),
        Reason::Label(_) => label.bytes().find(|byte| !is_label_byte(*byte)),
        _ => None,
    }
}

// Of a shape that is called by its kind: what it is called in scripts.
fn meant_by(word: &str, reason: Reason) -> Meant<'_>
    ensures { meant_text result.name.now (option_map (λ here. here.now) result.here) ≡ meant_by word.now reason }
{
    match reason {
        Reason::Shape(_) => {
            let name = before_colon(word);
            Meant {
                name,
                here: script_name(name),
            }
        }
        _ => Meant {
            name: "",
            here: None,
        },
    }
}

// A word, or its first 40 characters and `..` for the rest.
fn shorten(word: &str) -> (&str, &str)
    ensures { result.0.now ++ result.1.now ≡ short_word word.now }
{
    if word.len() <= 40 {
        return (word, "");
    }
    let (front, _) = word.as_bytes().split_at(40);
    match text_of(front) {
        Some(front) => (front, ".."),
        None => (word, ""),
    }
}
