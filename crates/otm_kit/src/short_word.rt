//! Words as they are told.
use std::fmt;

/// How many characters of a word are told.
const MOST_CHARACTERS: usize = 40;

/// A word, which prints as itself: `-` where it is empty, and its first 40 characters and `..` where it has more.
#[derive(Clone, Copy)]
pub(crate) struct ShortWord<'a> {
    word: &'a str,
}

impl<'a> ShortWord<'a> {
    pub(crate) fn new(word: &'a str) -> ShortWord<'a> {
        ShortWord { word }
    }
}

impl fmt::Display for ShortWord<'_> {
    fn fmt<W: fmt::Write>(&self, f: &mut fmt::Formatter<W>) -> fmt::Result {
        if self.word.is_empty() {
            return write!(f, "-");
        }
        for (place, character) in self.word.chars().enumerate() {
            if place == MOST_CHARACTERS {
                return write!(f, "..");
            }
            write!(f, "{character}")?;
        }
        Ok(())
    }
}
