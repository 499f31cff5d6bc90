//! The forms of numbers, texts, pairs and lists.
ghost use Rattle.std.specs.Prelude.{◌≡◌, ◌++◌, ◌≢◌, [], IfErr, ◌<◌, ◌≤◌, length, IfOk};
ghost use Rattle.bytes_kit.specs.Explaining.{IsReadFault};
ghost use Rattle.bytes_kit.specs.Fits.{IsCounted, IsNumber, IsInteger, IsText, IsPair, IsList};
ghost use Rattle.bytes_kit.specs.Format.{varint, groups, zigzag, integer, text, pair_of, list_of};
ghost use Rattle.bytes_kit.specs.MessageFits.{IsId};
ghost use Rattle.bytes_kit.specs.Laws.{varint_code, varint_bytes, integer_code, integer_bytes, text_code, text_bytes, pair_code, pair_bytes, list_code, list_bytes};
ghost use Rattle.bytes_kit.specs.Reading.{Reads, NoneAt};
ghost use Rattle.bytes_kit.specs.declared.fault.DecodeFault.TheVariants as faults;

use crate::DecodeFault;
use crate::piece::Piece;
use crate::reader::Reader;
use crate::writer::{write_counted, write_groups, write_list};
use attr_kit::{NoMemory, Seq, Txt};

// A text is in UTF-8, and as long as a number can say. Does nothing.
pub(crate) fn text_is_utf8(text: &Txt)
    ensures { IsText text.now }
{
    text.as_str().as_bytes();
}

// A number in groups of seven bits, the lowest first, at most so many with their top bit set.
fn read_groups(reader: &mut Reader<'_>, more: u32) -> Result<u64, DecodeFault>
    ensures found { Reads (groups more) IsNumber reader.old.rest result reader.new.rest }
    ensures value { IfOk result IsNumber }
    ensures end { reader.new.end ≡ reader.old.end }
    ensures fault { IfErr result (IsReadFault reader.old.end) }
{
    let place = reader.place();
    let byte = u64::from(reader.byte()?);
    if more == 0 || byte < 128 {
        return Ok(byte);
    }
    let high = read_groups(reader, more - 1)?;
    // A highest group of 0 is one too many.
    if high == 0 {
        return Err(DecodeFault::NotCanonical(place));
    }
    match high.checked_mul(128) {
        Some(high) => Ok(high + (byte - 128)),
        None => Err(DecodeFault::NotCanonical(place)),
    }
}

/// As many bytes as the number before them says.
pub(crate) fn read_counted<'a>(reader: &mut Reader<'a>) -> Result<&'a [u8], DecodeFault>
    ensures ok { IfOk result (λ front. reader.old.rest ≡ text front.now ++ reader.new.rest) }
    ensures err { IfErr result (λ f. f ≢ faults.NoMemory → NoneAt text IsCounted reader.old.rest) }
    ensures end { reader.new.end ≡ reader.old.end }
    ensures fault { IfErr result (IsReadFault reader.old.end) }
{
    let len = u64::read(reader)?;
    let len = reader.within(len)?;
    reader.take(len)
}

impl Piece for u64 {
    ghost code = { varint };

    ghost is_value = { IsNumber };

    #[inline]
    #[tactic(auto, unfolding(crate::specs::Format::varint))]
    fn write(&self, out: &mut Vec<u8>) -> Result<(), NoMemory> {
        // Most numbers are one group.
        if *self < 128 {
            out.push(*self as u8)?;
            return Ok(());
        }
        write_groups(*self, 9, out)
    }

    #[inline]
    #[tactic(auto, unfolding(crate::specs::Format::varint))]
    fn read(reader: &mut Reader<'_>) -> Result<u64, DecodeFault> {
        // Most numbers are one group.
        if let Some(group) = reader.last_group() {
            return Ok(u64::from(group));
        }
        read_groups(reader, 9)
    }

    ghost is_code = { varint_code };

    ghost has_bytes = { varint_bytes };
}

// 0, 1, 2, .. as 0, -1, 1, ..
fn from_zigzag(n: u64) -> i64
    ensures { zigzag result ≡ n }
{
    let half = (n / 2) as i64;
    if n % 2 == 0 { half } else { -1 - half }
}

// 0, -1, 1, .. as 0, 1, 2, ..
pub(crate) fn to_zigzag(z: i64) -> u64
    ensures { result ≡ zigzag z }
{
    if z >= 0 {
        2 * (z as u64)
    } else {
        2 * ((-1 - z) as u64) + 1
    }
}

impl Piece for u32 {
    ghost code = { varint };

    ghost is_value = { IsId };

    fn write(&self, out: &mut Vec<u8>) -> Result<(), NoMemory> {
        u64::from(*self).write(out)
    }

    fn read(reader: &mut Reader<'_>) -> Result<u32, DecodeFault> {
        let place = reader.place();
        let number = u64::read(reader)?;
        if number > u32::MAX as u64 {
            return Err(DecodeFault::NotCanonical(place));
        }
        Ok(number as u32)
    }

    ghost is_code = { varint_code };

    ghost has_bytes = { varint_bytes };
}

impl Piece for i64 {
    ghost code = { integer };

    ghost is_value = { IsInteger };

    fn write(&self, out: &mut Vec<u8>) -> Result<(), NoMemory> {
        to_zigzag(*self).write(out)
    }

    fn read(reader: &mut Reader<'_>) -> Result<i64, DecodeFault> {
        Ok(from_zigzag(u64::read(reader)?))
    }

    ghost is_code = { integer_code };

    ghost has_bytes = { integer_bytes };
}

impl Piece for Txt {
    ghost code = { text };

    ghost is_value = { IsText };

    fn write(&self, out: &mut Vec<u8>) -> Result<(), NoMemory> {
        write_counted(self.as_str().as_bytes(), out)
    }

    fn read(reader: &mut Reader<'_>) -> Result<Txt, DecodeFault> {
        let place = reader.place();
        let alloc = reader.alloc();
        let bytes = read_counted(reader)?;
        match str::from_utf8(bytes) {
            Ok(text) => {
                let text = Txt::from_str(alloc, text)?;
                text_is_utf8(&text);
                Ok(text)
            }
            Err(_) => Err(DecodeFault::NotText(place)),
        }
    }

    ghost is_code = { text_code };

    ghost has_bytes = { text_bytes };
}

impl<A: Piece, B: Piece> Piece for (A, B) {
    ghost code = { pair_of A.code B.code };

    ghost is_value = { IsPair A.is_value B.is_value };

    fn write(&self, out: &mut Vec<u8>) -> Result<(), NoMemory> {
        self.0.write(out)?;
        self.1.write(out)
    }

    fn read(reader: &mut Reader<'_>) -> Result<(A, B), DecodeFault> {
        let first = A::read(reader)?;
        let second = B::read(reader)?;
        Ok((first, second))
    }

    ghost is_code = { pair_code A.code B.code A.is_code B.is_code };

    ghost has_bytes = { pair_bytes A.code B.code A.has_bytes };
}

/// Room for as many values as bytes are left, at most.
pub(crate) fn room<T>(reader: &Reader<'_>, count: usize) -> Result<Vec<T>, DecodeFault>
    requires { count ≤ length reader.now.rest }
    ensures empty { IfOk result (λ v. v.items ≡ []) }
    ensures err { IfErr result (λ f. f ≡ faults.NoMemory) }
{
    Ok(Vec::with_capacity(reader.alloc(), count)?)
}

impl<T: Piece> Piece for Seq<T> {
    ghost code = { list_of T.code };

    ghost is_value = { IsList T.is_value };

    fn write(&self, out: &mut Vec<u8>) -> Result<(), NoMemory> {
        write_list(self.as_slice(), out)
    }

    fn read(reader: &mut Reader<'_>) -> Result<Seq<T>, DecodeFault> {
        let count = u64::read(reader)?;
        let count = reader.within(count)?;
        let mut items = room(reader, count)?;
        for _ in 0..count {
            let item = T::read(reader)?;
            items.push(item)?;
        }
        Ok(Seq::from_vec(items))
    }

    ghost is_code = { list_code T.code T.is_code };

    ghost has_bytes = { list_bytes T.code };
}
