//! Texts, in and out.
ghost use Rattle.std.specs.Prelude.{◌≡◌, ◌≢◌, pos, length, true, false, None, Some, IfSome, OnOk, IfErr, IfOk};
ghost use Rattle.kit_c.specs.Calls.{code_for, filled, if_any, of_one};
ghost use Rattle.kit_c.specs.Codes.{code_of, no_memory};
ghost use Rattle.kit_c.specs.Faults.{text_fault};
ghost use Rattle.kit_c.specs.declared.fault.Fault.TheVariants as faults;
ghost use Rattle.kit_c.specs.Held.{text_of as text_in};

use crate::content::Content;
use crate::fault::{Fault, NOTHING, OK, WRONG_KIND};
use crate::typed::KitText;
use crate::with::with;
use attr_kit::Txt;
use std::alloc::Global;

/// A text of C's, copied.
#[tactic(auto, using(crate::proofs::Texts::is_a_text, crate::proofs::Texts::is_no_text))]
pub(crate) fn text_of(alloc: Global, bytes: &[u8]) -> Result<Txt, Fault>
    ensures ok { OnOk result (text_fault bytes.now ≡ None) }
    ensures value { IfOk result (λ text. text ≡ bytes.now) }
    ensures err { IfErr result (λ f. code_of f ≢ no_memory → text_fault bytes.now ≡ Some f) }
    ensures short { IfErr result (λ f. code_of f ≡ no_memory → text_fault bytes.now ≡ None) }
{
    let Ok(text) = str::from_utf8(bytes) else {
        return Err(Fault::NotText);
    };
    Ok(Txt::from_str(alloc, text)?)
}

/// Whether bytes are no text. Takes no memory.
#[tactic(auto, using(crate::proofs::Texts::is_a_text, crate::proofs::Texts::is_no_text))]
pub(crate) fn is_no_text(bytes: &[u8]) -> bool
    ensures no_text { result ≡ true → text_fault bytes.now ≡ Some faults.NotText }
    ensures text { result ≡ false → text_fault bytes.now ≡ None }
{
    str::from_utf8(bytes).is_err()
}

/// Copies the front of items that has room, and answers how many there are.
pub(crate) fn copy_front<T: Copy>(items: &[T], into: &mut [T]) -> usize
    ensures value { into.new ≡ filled items.now into.old }
    ensures len { result ≡ length items.now }
{
    let n = items.len().min(into.len());
    into[..n].copy_from_slice(&items[..n]);
    items.len()
}

/// Copies the front of a text that has room, and tells in `len` how many bytes the whole text has, in UTF-8 and with no 0 at its
/// end. The text stays.
///
/// Refused: `NOTHING`. Takes no memory.
#[unsafe(no_mangle)]
pub extern "C" fn kit_text_copy(
    alloc: Global,
    text: &mut KitText,
    into: &mut [u8],
    len: &mut usize,
) -> i32
    ensures code { result ≡ code_for (of_one (text_in text.old) if_any) }
    ensures value { result ≡ pos 0 → IfSome (text_in text.old) (λ t. into.new ≡ filled t into.old) }
    ensures len { result ≡ pos 0 → IfSome (text_in text.old) (λ t. len.new ≡ length t) }
    ensures told { result ≢ pos 0 → (into.new ≡ into.old) × (len.new ≡ len.old) }
    ensures kept { text_in text.new ≡ text_in text.old }
{
    *len = with!(alloc, text => Text(held), copy_front(held.as_str().as_bytes(), into));
    OK
}
