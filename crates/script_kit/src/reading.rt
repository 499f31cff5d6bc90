//! The words of a line, read by their places.
ghost use Rattle.std.specs.Prelude.{◌≡◌, ◌<◌, OnOk, map, length};
ghost use Rattle.script_kit.specs.Reading.{Reads, count_of, label_at, number_at, id_at, no_number, word_at};

use crate::forms;
use crate::numbers::{is_numeral, u32_of, u64_of};
use crate::reason::{Form, Noun, Reason};
use crate::stop::Stop;
use attr_kit::Txt;
use std::alloc::Global;

/// The word at a place.
pub(crate) fn word_at<'a>(words: &[&'a str], place: usize) -> &'a str
    requires { place < length words.now }
    ensures { result.now ≡ word_at (map (λ w. w.now) words.now) place }
{
    words[place]
}

/// The word at a place, or an empty one where the line has no such word.
pub(crate) fn word_if_any<'a>(words: &[&'a str], place: usize) -> &'a str
    ensures { result.now ≡ word_at (map (λ w. w.now) words.now) place }
{
    if place < words.len() {
        word_at(words, place)
    } else {
        ""
    }
}

/// Refuses a line of more words than its form has, or of fewer.
pub(crate) fn count(words: &[&str], many: usize, form: Form) -> Result<(), Reason>
    ensures value { result ≡ count_of (map (λ w. w.now) words.now) many form }
    ensures ok { OnOk result (length words.now ≡ many) }
{
    if words.len() == many {
        Ok(())
    } else {
        Err(Reason::Count(form))
    }
}

/// The label at a place.
pub(crate) fn label(alloc: Global, words: &[&str], place: usize) -> Result<Txt, Stop>
    requires { place < length words.now }
    ensures { Reads result (label_at (map (λ w. w.now) words.now) place) }
{
    Ok(forms::label(alloc, word_at(words, place))?.ok_or(Reason::Label(place))?)
}

/// The number of 64 bits at a place.
pub(crate) fn number(words: &[&str], place: usize, noun: Noun) -> Result<u64, Reason>
    requires { place < length words.now }
    ensures { result ≡ number_at (map (λ w. w.now) words.now) place noun }
{
    let word = word_at(words, place);
    u64_of(word).ok_or(no_number(word, place, noun))
}

/// The id of a gateway at a place.
pub(crate) fn id(words: &[&str], place: usize) -> Result<u32, Reason>
    requires { place < length words.now }
    ensures { result ≡ id_at (map (λ w. w.now) words.now) place }
{
    let word = word_at(words, place);
    u32_of(word).ok_or(no_number(word, place, Noun::Gateway))
}

// Why a word is no number of its noun.
fn no_number(word: &str, place: usize, noun: Noun) -> Reason
    ensures { result ≡ no_number word.now place noun }
{
    if is_numeral(word) {
        Reason::TooGreat(place, noun)
    } else {
        Reason::NoNumber(place)
    }
}
