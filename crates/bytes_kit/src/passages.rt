//! The forms of texts, pairs and lists behind what came before them.
ghost use Rattle.std.specs.Prelude.{◌≡◌, ◌++◌, ◌≢◌, ◌-◌, ◌<◌, ◌≤◌, ◌^◌, length, IfErr, IfOk, OnOk, None};
ghost use Rattle.bytes_kit.specs.Explaining.{IsReadFault};
ghost use Rattle.bytes_kit.specs.Fits.{IsList, IsNumber, IsPair, IsText};
ghost use Rattle.bytes_kit.specs.Format.{text, text_behind, pair_behind, past_pair, list_behind, past_all, same_behind, past_same, varint};
ghost use Rattle.bytes_kit.specs.Laws.{varint_code, varint_bytes};
ghost use Rattle.bytes_kit.specs.Past.{place_of, past_text};
ghost use Rattle.bytes_kit.specs.PastFits.{IsNewText};
ghost use Rattle.bytes_kit.specs.PastLaws.{text_behind_code, text_behind_bytes, pair_behind_code, pair_behind_bytes, list_behind_code, list_behind_bytes};
ghost use Rattle.bytes_kit.specs.Reading.{NoneAt};
ghost use Rattle.bytes_kit.specs.declared.fault.DecodeFault.TheVariants as faults;

use crate::DecodeFault;
use crate::history::History;
use crate::passage::Passage;
use crate::piece::Piece;
use crate::pieces::{room, text_is_utf8};
use crate::reader::Reader;
use attr_kit::{NoMemory, Seq, Txt};

// A text that comes for the first time, behind the 0 that says so.
fn read_new(
    place: usize,
    reader: &mut Reader<'_>,
    history: &mut History,
) -> Result<Txt, DecodeFault>
    requires { place ≤ reader.old.end }
    ensures ok { IfOk result (λ t. reader.old.rest ≡ text t ++ reader.new.rest) }
    ensures new { IfOk result (λ t. place_of history.old.texts t ≡ None) }
    ensures value { IfOk result IsText }
    ensures history { IfOk result (λ t. history.new ≡ past_text history.old t) }
    ensures err { IfErr result (λ f. f ≢ faults.NoMemory → NoneAt text (IsNewText history.old) reader.old.rest) }
    ensures end { reader.new.end ≡ reader.old.end }
    ensures fault { IfErr result (IsReadFault reader.old.end) }
{
    let text = Txt::read(reader)?;
    if history.enter(&text)?.is_some() {
        return Err(DecodeFault::NotCanonical(place));
    }
    Ok(text)
}

impl Passage for Txt {
    ghost code = { text_behind };

    ghost past = { past_text };

    ghost is_value = { IsText };

    fn write_behind(&self, history: &mut History, out: &mut Vec<u8>) -> Result<(), NoMemory> {
        text_is_utf8(self);
        match history.enter(self)? {
            Some(place) => (place as u64 + 1).write(out),
            None => {
                out.push(0)?;
                self.write(out)
            }
        }
    }

    fn read_behind(reader: &mut Reader<'_>, history: &mut History) -> Result<Txt, DecodeFault> {
        let place = reader.place();
        history.places_are_numbers();
        let number = u64::read(reader)?;
        if number == 0 {
            return read_new(place, reader, history);
        }
        match history.text_at(number - 1) {
            Some(text) => {
                text_is_utf8(text);
                Ok(text.try_copy()?)
            }
            None => Err(DecodeFault::NotCanonical(place)),
        }
    }

    ghost is_code = { text_behind_code };

    ghost has_bytes = { text_behind_bytes };
}

impl<A: Passage, B: Passage> Passage for (A, B) {
    ghost code = { pair_behind A.code A.past B.code };

    ghost past = { past_pair A.past B.past };

    ghost is_value = { IsPair A.is_value B.is_value };

    fn write_behind(&self, history: &mut History, out: &mut Vec<u8>) -> Result<(), NoMemory> {
        self.0.write_behind(history, out)?;
        self.1.write_behind(history, out)
    }

    fn read_behind(reader: &mut Reader<'_>, history: &mut History) -> Result<(A, B), DecodeFault> {
        let first = A::read_behind(reader, history)?;
        let second = B::read_behind(reader, history)?;
        Ok((first, second))
    }

    ghost is_code = { pair_behind_code A.code A.past B.code A.is_code B.is_code };

    ghost has_bytes = { pair_behind_bytes A.code A.past B.code A.has_bytes };
}

/// How many values, and the form of each behind those before it.
pub(crate) fn write_list_behind<T: Passage>(
    items: &[T],
    history: &mut History,
    out: &mut Vec<u8>,
) -> Result<(), NoMemory>
    requires { length items.now < 2 ^ 64 }
    ensures written { OnOk result (out.new.items ≡ out.old.items ++ list_behind T.code T.past history.old items.now) }
    ensures history { OnOk result (history.new ≡ past_all T.past history.old items.now) }
    ensures value { OnOk result (IsList T.is_value items.now) }
{
    (items.len() as u64).write(out)?;
    for item in items {
        item.write_behind(history, out)?;
    }
    Ok(())
}

impl<T: Passage> Passage for Seq<T> {
    ghost code = { list_behind T.code T.past };

    ghost past = { past_all T.past };

    ghost is_value = { IsList T.is_value };

    fn write_behind(&self, history: &mut History, out: &mut Vec<u8>) -> Result<(), NoMemory> {
        write_list_behind(self.as_slice(), history, out)
    }

    fn read_behind(reader: &mut Reader<'_>, history: &mut History) -> Result<Seq<T>, DecodeFault> {
        let count = u64::read(reader)?;
        let count = reader.within(count)?;
        let mut items = room(reader, count)?;
        for _ in 0..count {
            let item = T::read_behind(reader, history)?;
            items.push(item)?;
        }
        Ok(Seq::from_vec(items))
    }

    ghost is_code = { list_behind_code T.code T.past T.is_code };

    ghost has_bytes = { list_behind_bytes T.code T.past };
}

impl Passage for u64 {
    ghost code = { same_behind varint };

    ghost past = { past_same };

    ghost is_value = { IsNumber };

    fn write_behind(&self, _history: &mut History, out: &mut Vec<u8>) -> Result<(), NoMemory> {
        self.write(out)
    }

    fn read_behind(reader: &mut Reader<'_>, _history: &mut History) -> Result<u64, DecodeFault> {
        u64::read(reader)
    }

    ghost is_code = { λ _. varint_code };

    ghost has_bytes = { λ _. varint_bytes };
}
