//! What came before a form: texts that are not written again, and the stream that the next point may share.
ghost use Rattle.std.specs.Prelude.{◌≡◌, ◌+◌, ◌<◌, ◌≤◌, ◌^◌, length, true, IfNone, IfOk, IfSome, OnOk, Some, None};
ghost use Rattle.bytes_kit.specs.Fits.{IsStream};
ghost use Rattle.bytes_kit.specs.Past.{no_past, place_of, past_text, with_stream, is_last};

use crate::light::{LONGEST, is_light};
use crate::texts::Texts;
use attr_kit::{NoMemory, Txt};
use point_kit::{SharedStream, Stream};
use std::alloc::Global;
use std::marker::Model;

// How many places are noted.
const NOTES: usize = 1024;

/// The texts that came, each once, in the order in which they first came; and the stream that came last. A long text has no
/// place: it would be copied for each of its uses, and what is read would take many times the memory of its bytes. A stream
/// that is not light is not kept: it would be compared for each of its uses, and take many times the time of its bytes.
#[derive(Drop)]
pub(crate) struct History {
    texts: Texts,
    stream: Option<SharedStream>,
    /// The place of the text that was noted last of those that share a note: a guess, which is looked at before the hash. For
    /// who writes, whose texts come again and again.
    notes: [u32; NOTES],
}

// Eight bytes as a number.
fn word(bytes: &[u8; 30], place: usize) -> u64
    requires { place + 8 ≤ 30 }
{
    u64::from_le_bytes([
        bytes[place],
        bytes[place + 1],
        bytes[place + 2],
        bytes[place + 3],
        bytes[place + 4],
        bytes[place + 5],
        bytes[place + 6],
        bytes[place + 7],
    ])
}

// Whether two texts that lie in place are equal: of longer ones it is not looked for. Compared as arrays, with no call.
#[inline]
fn is_same_in_place(a: &Txt, b: &Txt) -> bool
    ensures { result ≡ true → a.now ≡ b.now }
{
    match (a.short(), b.short()) {
        (Some(a), Some(b)) => *a == *b,
        _ => false,
    }
}

// Which note is a text's: a number that most texts have alone, made of fewer steps than a hash.
#[inline]
fn note_of(text: &Txt) -> usize
    ensures { result < NOTES }
{
    let Some(short) = text.short() else {
        return text.as_str().len() % NOTES;
    };
    let bytes = short.room();
    let word = word(bytes, 0) ^ word(bytes, 8) ^ word(bytes, 16) ^ word(bytes, 22);
    let mixed = word.wrapping_mul(0x9e37_79b9_7f4a_7c15) >> 32;
    mixed as usize % NOTES
}

impl Model for History {
    ghost use Rattle.std.specs.Option.{ForSome};
    ghost use Rattle.bytes_kit.specs.Fits.{IsStream};
    ghost use Rattle.bytes_kit.specs.Past.{Past};

    ghost Value = { Past };

    ghost view = { λ h. record { texts = h.texts; stream = h.stream } };

    ghost invariant = { λ h. ForSome h.stream IsStream };
}

impl History {
    /// Nothing came.
    pub(crate) fn new(alloc: Global) -> Result<History, NoMemory>
        ensures { IfOk result (λ history. history ≡ no_past) }
    {
        let texts = Texts::new(alloc)?;
        Ok(History {
            texts,
            stream: None,
            notes: [0; NOTES],
        })
    }

    // The place of a text among those that came. A look-up.
    fn place(&self, text: &Txt) -> Option<usize>
        ensures value { result ≡ place_of self.now.texts text.now }
        ensures small { IfSome result (λ place. place < 2 ^ 63) }
    {
        self.texts.place(text)
    }

    // The place of a text where it is the noted one.
    #[inline]
    fn recall(&self, note: usize, text: &Txt) -> Option<usize>
        requires { note < NOTES }
        ensures value { IfSome result (λ place. place_of self.now.texts text.now ≡ Some place) }
        ensures small { IfSome result (λ place. place < 2 ^ 63) }
    {
        let place = self.notes[note];
        match self.text_at(u64::from(place)) {
            Some(found) if is_same_in_place(found, text) => Some(place as usize),
            _ => None,
        }
    }

    // Notes a place, if it is a number of 32 bits.
    fn note(&mut self, note: usize, place: usize)
        requires { note < NOTES }
        ensures { self.new ≡ self.old }
    {
        if let Ok(place) = u32::try_from(place) {
            self.notes[note] = place;
        }
    }

    // The place of a text among those that came, looked up; where it has none, it comes now.
    #[inline(never)]
    fn look_up(&mut self, note: usize, text: &Txt) -> Result<Option<usize>, NoMemory>
        requires { note < NOTES }
        ensures value { IfOk result (λ place. place ≡ place_of self.old.texts text.now) }
        ensures small { IfOk result (λ place. IfSome place (λ n. n < 2 ^ 63)) }
        ensures history { OnOk result (self.new ≡ past_text self.old text.now) }
    {
        let place = self.place(text);
        match place {
            Some(place) => self.note(note, place),
            None => {
                self.note(note, self.count());
                self.add(text)?;
            }
        }
        Ok(place)
    }

    /// The place of a text among those that came; where it has none, it comes now. A look-up, but for texts that are noted.
    #[inline]
    pub(crate) fn enter(&mut self, text: &Txt) -> Result<Option<usize>, NoMemory>
        ensures value { IfOk result (λ place. place ≡ place_of self.old.texts text.now) }
        ensures small { IfOk result (λ place. IfSome place (λ n. n < 2 ^ 63)) }
        ensures history { OnOk result (self.new ≡ past_text self.old text.now) }
    {
        let note = note_of(text);
        match self.recall(note, text) {
            Some(place) => Ok(Some(place)),
            None => self.look_up(note, text),
        }
    }

    // How many texts came.
    fn count(&self) -> usize
        ensures { result ≡ length self.now.texts }
    {
        self.texts.len()
    }

    /// Each place of a text is a number, and the next. Does nothing.
    pub(crate) fn places_are_numbers(&self)
        ensures { length self.now.texts < 2 ^ 63 }
    {
        self.texts.places_are_numbers();
    }

    /// The text at a place.
    pub(crate) fn text_at(&self, place: u64) -> Option<&Txt>
        ensures some { IfSome result (λ t. place_of self.now.texts t.now ≡ Some place) }
        ensures none { IfNone result (length self.now.texts ≤ place) }
    {
        self.texts.get(place as usize)
    }

    // A text that had no place came.
    fn add(&mut self, text: &Txt) -> Result<(), NoMemory>
        requires { place_of self.old.texts text.now ≡ None }
        ensures { OnOk result (self.new ≡ past_text self.old text.now) }
    {
        if text.as_str().len() <= LONGEST {
            self.texts.add(text)?;
        }
        Ok(())
    }

    /// The stream that came last, if it was light.
    pub(crate) fn last(&self) -> Result<Option<SharedStream>, NoMemory>
        ensures value { IfOk result (λ last. last ≡ self.now.stream) }
        ensures fits { IfOk result (λ last. IfSome last IsStream) }
    {
        match &self.stream {
            Some(stream) => Ok(Some(stream.try_copy()?)),
            None => Ok(None),
        }
    }

    /// Whether a stream is the one that came last, which was light. Compares no more of it than is cheap.
    pub(crate) fn is_last(&self, stream: &Stream) -> bool
        ensures value { result ≡ is_last self.now.stream stream.now }
        ensures fits { result ≡ true → IsStream stream.now }
    {
        match &self.stream {
            Some(last) => *last.get() == *stream,
            None => false,
        }
    }

    /// A stream came.
    pub(crate) fn keep(&mut self, stream: SharedStream)
        requires { IsStream stream }
        ensures { self.new ≡ with_stream self.old stream }
    {
        self.stream = if is_light(stream.get()) {
            Some(stream)
        } else {
            None
        };
    }
}
