//! A text of few bytes, held in place.
ghost use Rattle.std.specs.Prelude.{◌≡◌, ◌≤◌, ◌-◌, ◌++◌, nat_eq, length, map, replicate};
ghost use Rattle.std.specs.Char.{to_ascii_lowercase};
ghost use Rattle.std.specs.Cmp.Lexicographic.{pointwise};
ghost use Rattle.std.specs.Cmp.Rules.{comparing};
ghost use Rattle.std.proofs.Common.{rules};

use std::marker::Model;
use std::{fmt, str};

/// How many bytes a text that is held in place may have: with a byte for its length and one for [`Txt`](crate::Txt)'s
/// tag it takes no more room than a tag and a `String`.
pub(crate) const ROOM: usize = 30;

/// A text in UTF-8 of at most 30 bytes, which lie in the value itself, so that it and its copies take no memory.
///
/// Its length comes first, so that its bytes lie at an even place behind the tag of a [`Txt`](crate::Txt), which copies
/// faster. The room behind the text is zeros, so that two short texts are compared as arrays.
#[derive(Drop)]
pub struct ShortText {
    len: u8,
    bytes: [u8; ROOM],
}

impl Model for ShortText {
    ghost use Rattle.std.specs.Prelude.{◌≡◌, ◌≤◌, ◌-◌, List, ℕ, take, drop, replicate, IsUtf8};

    ghost Value = { List ℕ };

    ghost view = { λ t. take t.len t.bytes };

    ghost invariant = { λ t. (t.len ≤ 30) × ∥ IsUtf8 (take t.len t.bytes) ∥₁ × (drop t.len t.bytes ≡ replicate (30 - t.len) 0) };
}

impl ShortText {
    /// A copy of a text that has room.
    pub(crate) fn from_str(text: &str) -> ShortText
        requires { length text.now ≤ ROOM }
        ensures { result ≡ text.now }
    {
        let mut bytes = [0; ROOM];
        bytes[..text.len()].copy_from_slice(text.as_bytes());
        ShortText {
            len: text.len() as u8,
            bytes,
        }
    }

    /// The text as a slice. Takes no memory.
    #[inline]
    pub fn as_str(&self) -> &str
        ensures value { result.now ≡ self.now }
        ensures room { length self.now ≤ 30 }
    {
        // The invariant says that these bytes are UTF-8, so they are not looked at again.
        unsafe { str::from_utf8_unchecked(&self.bytes[..usize::from(self.len)]) }
    }

    /// The bytes of the text, and zeros behind them. Takes no memory.
    #[inline]
    pub fn room(&self) -> &[u8; ROOM]
        ensures { result.now ≡ self.now ++ replicate (30 - length self.now) 0 }
    {
        &self.bytes
    }

    /// The text with the letters of ASCII in lower case.
    pub(crate) fn into_ascii_lowercase(self) -> ShortText
        ensures { result ≡ map to_ascii_lowercase self }
    {
        let ShortText { len, mut bytes } = self;
        bytes[..].make_ascii_lowercase();
        ShortText { len, bytes }
    }

    /// An equal text.
    #[inline]
    pub(crate) fn copy(&self) -> ShortText
        ensures { result ≡ self.now }
    {
        ShortText {
            len: self.len,
            bytes: self.bytes,
        }
    }
}

impl fmt::Debug for ShortText {
    fn fmt<W: fmt::Write>(&self, f: &mut fmt::Formatter<W>) -> fmt::Result {
        f.debug_struct("ShortText")
            .field("text", &self.as_str())
            .finish()
    }
}

impl PartialEq for ShortText {
    ghost eq = { pointwise nat_eq };

    ghost laws = { Prim.search (comparing, rules) };

    /// Compares the whole room, whose size is known, and not a run of bytes of any length.
    #[inline]
    fn eq(&self, other: &ShortText) -> bool {
        self.len == other.len && self.bytes == other.bytes
    }
}

impl Eq for ShortText {
    ghost laws = { Prim.search (comparing, rules) };
}
