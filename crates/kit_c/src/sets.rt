//! Attributes, read pair by pair.
ghost use Rattle.std.specs.Prelude.{◌≡◌, ◌≢◌, pos, length, slice_get, None, Some, IfSome, OnOk, OnErr, IfErr, IfOk};
ghost use Rattle.kit_c.specs.Calls.{code_for, filled, if_any, of_one};
ghost use Rattle.kit_c.specs.Held.{attributes_of};
ghost use Rattle.kit_c.specs.Items.{item_fault, kind_number, no_text_in, value_number, value_text};

use crate::content::Content;
use crate::fault::{Fault, NOTHING, OK, WRONG_KIND};
use crate::text::copy_front;
use crate::typed::KitAttributes;
use crate::with::{tell, with};
use attr_kit::{AttrSet, AttrValue, Txt};
use std::alloc::Global;

/// Tells how many pairs a set has: they are numbered from 0, in the order of their keys.
///
/// Refused: `NOTHING`. O(1), takes no memory.
#[unsafe(no_mangle)]
pub extern "C" fn kit_attributes_len(
    alloc: Global,
    attributes: &mut KitAttributes,
    count: &mut usize,
) -> i32
    ensures code { result ≡ code_for (of_one (attributes_of attributes.old) if_any) }
    ensures value { result ≡ pos 0 → IfSome (attributes_of attributes.old) (λ a. count.new ≡ length a) }
    ensures told { result ≢ pos 0 → count.new ≡ count.old }
    ensures kept { attributes_of attributes.new ≡ attributes_of attributes.old }
{
    *count = with!(alloc, attributes => Attributes(set), set.len());
    OK
}

// The pair of a number.
fn pair(set: &AttrSet, number: usize) -> Result<&(Txt, AttrValue), Fault>
    ensures ok { OnOk result (item_fault number set.now ≡ None) }
    ensures value { IfOk result (λ p. slice_get set.now number ≡ Some p.now) }
    ensures err { IfErr result (λ f. item_fault number set.now ≡ Some f) }
    ensures none { OnErr result (slice_get set.now number ≡ None) }
{
    match set.pair(number) {
        Some(pair) => Ok(pair),
        None => Err(Fault::NoItem),
    }
}

fn copy_key(set: &AttrSet, number: usize, into: &mut [u8]) -> Result<usize, Fault>
    ensures ok { OnOk result (item_fault number set.now ≡ None) }
    ensures value { OnOk result (IfSome (slice_get set.now number) (λ p. into.new ≡ filled p.0 into.old)) }
    ensures len { IfOk result (λ n. IfSome (slice_get set.now number) (λ p. n ≡ length p.0)) }
    ensures err { IfErr result (λ f. item_fault number set.now ≡ Some f) }
    ensures unchanged { OnErr result (into.new ≡ into.old) }
{
    let pair = pair(set, number)?;
    Ok(copy_front(pair.0.as_str().as_bytes(), into))
}

/// Copies the front of the key of a pair that has room, and tells in `len` how many bytes the whole key has, in UTF-8 and with no 0 at its
/// end.
///
/// Refused, in this order: `NOTHING`; `NO_ITEM` where there is no pair of this number. Takes no memory.
#[unsafe(no_mangle)]
pub extern "C" fn kit_attributes_key(
    alloc: Global,
    attributes: &mut KitAttributes,
    number: usize,
    into: &mut [u8],
    len: &mut usize,
) -> i32
    ensures code { result ≡ code_for (of_one (attributes_of attributes.old) (item_fault number)) }
    ensures value { result ≡ pos 0 → IfSome (attributes_of attributes.old)
        (λ a. IfSome (slice_get a number) (λ p. into.new ≡ filled p.0 into.old)) }
    ensures len { result ≡ pos 0 → IfSome (attributes_of attributes.old) (λ a. IfSome (slice_get a number) (λ p. len.new ≡ length p.0)) }
    ensures told { result ≢ pos 0 → (into.new ≡ into.old) × (len.new ≡ len.old) }
    ensures kept { attributes_of attributes.new ≡ attributes_of attributes.old }
{
    tell!(len => with!(alloc, attributes => Attributes(set), copy_key(set, number, into)))
}

fn value(set: &AttrSet, number: usize) -> Result<(u8, i64), Fault>
    ensures ok { OnOk result (item_fault number set.now ≡ None) }
    ensures value { IfOk result (λ t. IfSome (slice_get set.now number) (λ p. (t.0 ≡ kind_number p.1) × (t.1 ≡ value_number p.1))) }
    ensures err { IfErr result (λ f. item_fault number set.now ≡ Some f) }
{
    Ok(match &pair(set, number)?.1 {
        AttrValue::Text(text) => (0, text.as_str().len() as i64),
        AttrValue::Whole(whole) => (1, *whole),
        AttrValue::Truth(truth) => (2, *truth as i64),
    })
}

/// Tells the value of a pair: its kind, 0 a text, 1 a whole number, 2 a truth; and it as a number, where a truth is 1 or 0 and a text its
/// length, and `kit_attributes_text` copies it.
///
/// Refused, in this order: `NOTHING`; `NO_ITEM` where there is no pair of this number. O(1), takes no memory.
#[unsafe(no_mangle)]
pub extern "C" fn kit_attributes_value(
    alloc: Global,
    attributes: &mut KitAttributes,
    number: usize,
    kind: &mut u8,
    whole: &mut i64,
) -> i32
    ensures code { result ≡ code_for (of_one (attributes_of attributes.old) (item_fault number)) }
    ensures value { result ≡ pos 0 → IfSome (attributes_of attributes.old)
        (λ a. IfSome (slice_get a number) (λ p. (kind.new ≡ kind_number p.1) × (whole.new ≡ value_number p.1))) }
    ensures told { result ≢ pos 0 → (kind.new ≡ kind.old) × (whole.new ≡ whole.old) }
    ensures kept { attributes_of attributes.new ≡ attributes_of attributes.old }
{
    match with!(alloc, attributes => Attributes(set), value(set, number)) {
        Ok((told, value)) => {
            *kind = told;
            *whole = value;
            OK
        }
        Err(fault) => fault.code(),
    }
}

fn copy_value(set: &AttrSet, number: usize, into: &mut [u8]) -> Result<usize, Fault>
    ensures ok { OnOk result (no_text_in (slice_get set.now number) ≡ None) }
    ensures value { OnOk result (IfSome (slice_get set.now number) (λ p. IfSome (value_text p.1) (λ t. into.new ≡ filled t into.old))) }
    ensures len { IfOk result (λ n. IfSome (slice_get set.now number) (λ p. IfSome (value_text p.1) (λ t. n ≡ length t))) }
    ensures err { IfErr result (λ f. no_text_in (slice_get set.now number) ≡ Some f) }
    ensures unchanged { OnErr result (into.new ≡ into.old) }
{
    match &pair(set, number)?.1 {
        AttrValue::Text(text) => Ok(copy_front(text.as_str().as_bytes(), into)),
        _ => Err(Fault::WrongShape),
    }
}

/// Copies the front of the text that the value of a pair is, and tells in `len` how many bytes the whole text has, in UTF-8 and with no 0
/// at its end.
///
/// Refused, in this order: `NOTHING`; `NO_ITEM` where there is no pair of this number; `WRONG_SHAPE` where its value is no text. Takes no
/// memory.
#[unsafe(no_mangle)]
pub extern "C" fn kit_attributes_text(
    alloc: Global,
    attributes: &mut KitAttributes,
    number: usize,
    into: &mut [u8],
    len: &mut usize,
) -> i32
    ensures code { result ≡ code_for (of_one (attributes_of attributes.old) (λ a. no_text_in (slice_get a number))) }
    ensures value { result ≡ pos 0 → IfSome (attributes_of attributes.old)
        (λ a. IfSome (slice_get a number) (λ p. IfSome (value_text p.1) (λ t. into.new ≡ filled t into.old))) }
    ensures len { result ≡ pos 0 → IfSome (attributes_of attributes.old)
        (λ a. IfSome (slice_get a number) (λ p. IfSome (value_text p.1) (λ t. len.new ≡ length t))) }
    ensures told { result ≢ pos 0 → (into.new ≡ into.old) × (len.new ≡ len.old) }
    ensures kept { attributes_of attributes.new ≡ attributes_of attributes.old }
{
    tell!(len => with!(alloc, attributes => Attributes(set), copy_value(set, number, into)))
}
