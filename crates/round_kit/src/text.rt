//! A text of few bytes, in a value of a round.
ghost use Rattle.std.specs.Prelude.{◌≡◌, ◌<◌, ◌≤◌, IfNone, IfSome, length};

use attr_kit::ShortText;
use std::marker::Model;
use std::{fmt, str};

/// How many bytes a text may have that lies in a value of a round: a length and a tag beside it, a value takes no more room
/// than a tag and a borrowed text. The room is one that processors copy in whole steps, 16 bytes and 4.
const ROOM: usize = 20;

/// A text in UTF-8 of at most 20 bytes, which lie in the value itself.
#[derive(Drop)]
pub struct RoundText {
    len: u8,
    bytes: [u8; ROOM],
}

impl Model for RoundText {
    ghost use Rattle.std.specs.Prelude.{◌≤◌, List, ℕ, take, IsUtf8};

    ghost Value = { List ℕ };

    ghost view = { λ t. take t.len t.bytes };

    ghost invariant = { λ t. (t.len ≤ 20) × ∥ IsUtf8 (take t.len t.bytes) ∥₁ };
}

impl RoundText {
    /// A copy of a text that has room. The whole room is copied, whose size is known, and not a run of bytes of any length.
    #[inline]
    pub(crate) fn of(text: &ShortText) -> Option<RoundText>
        ensures some { IfSome result (λ copy. copy ≡ text.now) }
        ensures none { IfNone result (20 < length text.now) }
    {
        let len = text.as_str().len();
        if len > ROOM {
            return None;
        }
        let bytes = text.room().first_chunk()?;
        Some(RoundText {
            len: len as u8,
            bytes: *bytes,
        })
    }

    /// The text as a slice of the arena.
    #[inline]
    pub fn as_str(&self) -> &str
        ensures value { result.now ≡ self.now }
        ensures room { length self.now ≤ 20 }
    {
        // The invariant says that these bytes are UTF-8, so they are not looked at again.
        unsafe { str::from_utf8_unchecked(&self.bytes[..usize::from(self.len)]) }
    }
}

impl fmt::Debug for RoundText {
    fn fmt<W: fmt::Write>(&self, f: &mut fmt::Formatter<W>) -> fmt::Result {
        f.debug_struct("RoundText")
            .field("text", &self.as_str())
            .finish()
    }
}
