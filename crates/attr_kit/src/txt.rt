//! A text, seen by contracts as the list of its bytes.
ghost use Rattle.std.specs.Prelude.{◌≡◌, ◌<◌, ◌≤◌, ◌↔◌, nat_eq, IfNone, IfOk, IfSome, IsTrue, OnErr, [], length, map, refl, string_bytes};
ghost use Rattle.std.specs.Char.{to_ascii_lowercase};
ghost use Rattle.std.proofs.Common.{rules};
ghost use Rattle.std.specs.Cmp.{partial_order_from_own_ties};
ghost use Rattle.std.specs.Cmp.Lexicographic.{slice_cmp, pointwise};
ghost use Rattle.std.specs.Cmp.Rules.{comparing, hashing};
ghost use Rattle.std.specs.Hash as fed;
ghost use Rattle.std.specs.Ordering.{nat_cmp, as_partial_cmp};

use crate::NoMemory;
use crate::short_text::{ROOM, ShortText};
use std::alloc::Global;
use std::cmp::Ordering;
use std::fmt;
use std::hash::{Hash, Hasher};
use std::marker::Model;

/// A text in UTF-8. Texts are ordered by their bytes, a proper prefix being less.
///
/// A text of at most 30 bytes is held in the value itself, so that it and its copies take no memory.
#[derive(Drop)]
pub struct Txt {
    text: Form,
}

/// Where the bytes of a text lie: in place, or in memory.
#[derive(Drop)]
enum Form {
    Short(ShortText),
    Long(String),
}

impl Model for Txt {
    ghost use Rattle.std.specs.Prelude.{List, ℕ};
    ghost use Rattle.attr_kit.specs.Texts.{form_bytes, IsPlaced};

    ghost Value = { List ℕ };

    ghost view = { λ t. form_bytes t.text };

    ghost invariant = { λ t. IsPlaced t.text };
}

/// The short form of a text, where it has room.
fn in_place(text: &str) -> Option<Txt>
    ensures some { IfSome result (λ copy. copy ≡ text.now) }
    ensures none { IfNone result (30 < length text.now) }
{
    if text.len() <= ROOM {
        let text = Form::Short(ShortText::from_str(text));
        Some(Txt { text })
    } else {
        None
    }
}

impl Txt {
    /// A copy of a text. O(n). Takes memory only for a text of more than 30 bytes.
    pub fn from_str(alloc: Global, text: &str) -> Result<Txt, NoMemory>
        ensures ok { IfOk result (λ copy. copy ≡ text.now) }
        ensures err { OnErr result (30 < length text.now) }
    {
        if let Some(short) = in_place(text) {
            return Ok(short);
        }
        let text = Form::Long(String::from_str(alloc, text)?);
        Ok(Txt { text })
    }

    /// The text of a string. Takes no memory.
    pub fn from_string(text: String) -> Txt
        ensures { result ≡ string_bytes text }
    {
        if let Some(short) = in_place(text.as_str()) {
            return short;
        }
        Txt {
            text: Form::Long(text),
        }
    }

    /// The string of the text. Takes memory only for a text of at most 30 bytes.
    pub fn into_string(self, alloc: Global) -> Result<String, NoMemory>
        ensures ok { IfOk result (λ string. string_bytes string ≡ self) }
        ensures err { OnErr result (length self ≤ 30) }
    {
        match self.text {
            Form::Short(text) => Ok(String::from_str(alloc, text.as_str())?),
            Form::Long(text) => Ok(text),
        }
    }

    /// The text with the letters of ASCII in lower case, in place. Takes no memory.
    pub fn into_ascii_lowercase(self) -> Txt
        ensures { result ≡ map to_ascii_lowercase self }
    {
        let text = match self.text {
            Form::Short(text) => Form::Short(text.into_ascii_lowercase()),
            Form::Long(mut text) => {
                text.make_ascii_lowercase();
                Form::Long(text)
            }
        };
        Txt { text }
    }

    /// The text where it is held in place, as every text of at most 30 bytes is. Takes no memory.
    #[inline]
    pub fn short(&self) -> Option<&ShortText>
        ensures some { IfSome result (λ short. short.now ≡ self.now) }
        ensures none { IfNone result (30 < length self.now) }
    {
        match &self.text {
            Form::Short(text) => Some(text),
            Form::Long(_) => None,
        }
    }

    /// The text as a slice. Takes no memory.
    #[inline]
    pub fn as_str(&self) -> &str
        ensures { result.now ≡ self.now }
    {
        match &self.text {
            Form::Short(text) => text.as_str(),
            Form::Long(text) => text.as_str(),
        }
    }

    /// Whether there are no bytes. Takes no memory.
    pub fn is_empty(&self) -> bool
        ensures { IsTrue result ↔ (self.now ≡ []) }
    {
        self.as_str().is_empty()
    }

    /// An equal text. O(n). Takes memory only for a text of more than 30 bytes.
    pub fn try_copy(&self) -> Result<Txt, NoMemory>
        ensures ok { IfOk result (λ copy. copy ≡ self.now) }
        ensures err { OnErr result (30 < length self.now) }
    {
        let text = match &self.text {
            Form::Short(text) => Form::Short(text.copy()),
            Form::Long(text) => Form::Long(text.clone()?),
        };
        Ok(Txt { text })
    }
}

impl fmt::Debug for Txt {
    fn fmt<W: fmt::Write>(&self, f: &mut fmt::Formatter<W>) -> fmt::Result {
        f.debug_struct("Txt").field("text", &self.as_str()).finish()
    }
}

impl PartialEq for Txt {
    ghost eq = { pointwise nat_eq };

    ghost laws = { Prim.search (comparing, rules) };

    fn eq(&self, other: &Txt) -> bool {
        // Most texts lie in place, where they are compared as arrays of a known size.
        match (&self.text, &other.text) {
            (Form::Short(text), Form::Short(other)) => text == other,
            _ => self.as_str() == other.as_str(),
        }
    }
}

impl Eq for Txt {
    ghost laws = { Prim.search (comparing, rules) };
}

impl PartialOrd for Txt {
    ghost partial_cmp = { as_partial_cmp (slice_cmp nat_cmp) };

    ghost laws = { partial_order_from_own_ties (Prim.search (comparing, rules)) (Prim.search (comparing, rules)) };

    fn partial_cmp(&self, other: &Txt) -> Option<Ordering> {
        Some(self.cmp(other))
    }
}

impl Ord for Txt {
    ghost cmp = { slice_cmp nat_cmp };

    ghost total = { Prim.search (comparing, rules) };

    ghost matches_partial_cmp = { λ x y. refl };

    ghost matches_eq = { Prim.search (comparing, rules) };

    fn cmp(&self, other: &Txt) -> Ordering {
        self.as_str().cmp(other.as_str())
    }
}

impl Hash for Txt {
    ghost hash_input = { fed.str };

    ghost respects_eq = { Prim.search (hashing, rules) };

    fn hash<H: Hasher>(&self, state: &mut H) {
        self.as_str().hash(state);
    }
}
