//! Why a file says nothing, in the words of whoever gave it.
ghost use Rattle.std.specs.Prelude.{◌≡◌, take, OnOk, true};
ghost use Rattle.file_kit.specs.Contents.{HasContent};
ghost use Rattle.file_kit.specs.Misfits.{head_misfit, IsMisfit};

use crate::content::read;
use bytes_kit::DecodeFault;
use std::alloc::Global;
use std::fmt;

/// Why a file has no export, message or state, in the words of whoever gave it: see [`why_none`].
#[derive(Clone, Copy, Debug, PartialEq, Eq)]
pub enum Misfit {
    /// It begins as a journal of `kotskhin-gateway` does.
    Journal,
    /// It begins as a message or a state does, where an export is wanted.
    Message,
    /// It begins as neither does.
    Other,
    /// Something stands behind its export, message or state, from this byte on.
    Behind(usize),
    /// What reading found.
    Bytes(DecodeFault),
}

impl fmt::Display for Misfit {
    ghost use Rattle.file_kit.specs.Misfits.{misfit_text};

    ghost output = { λ misfit. misfit_text misfit };

    fn fmt<W: fmt::Write>(&self, f: &mut fmt::Formatter<W>) -> fmt::Result {
        match self {
            Misfit::Journal => write!(
                f,
                "this is a journal of kotskhin-gateway: state.ktsm beside it is read here, and has all once the gateway has ended"
            ),
            Misfit::Message => write!(f, "this is a message or a state, and no export"),
            Misfit::Other => write!(f, "this is no export, message or state"),
            Misfit::Behind(place) => write!(
                f,
                "something stands behind the export or message, from byte {place} on"
            ),
            Misfit::Bytes(fault) => write!(f, "{fault}"),
        }
    }
}

// What bytes that do not begin as they should begin as.
#[tactic(auto, unfolding(crate::specs::Misfits::head_misfit))]
fn head_misfit(bytes: &[u8]) -> Misfit
    ensures { result ≡ head_misfit bytes.now }
{
    if bytes.starts_with(b"KTSJ") {
        Misfit::Journal
    } else if bytes.starts_with(b"KTSM") {
        Misfit::Message
    } else {
        Misfit::Other
    }
}

// Whether the bytes before a place are those of an export or a message, where there is memory to read them.
fn ends_before(alloc: Global, bytes: &[u8], place: usize) -> bool
    ensures { result ≡ true → HasContent (take place bytes.now) }
{
    if place > bytes.len() {
        return false;
    }
    let (front, _) = bytes.split_at(place);
    read(alloc, front).is_ok()
}

/// Why bytes have no export, message or state, in the words of whoever gave them: by their first bytes, where those are wrong; where
/// others stand behind a whole one, that; else as it was found.
///
/// O(n) in the bytes.
pub fn why_none(alloc: Global, bytes: &[u8], fault: DecodeFault) -> Misfit
    ensures { IsMisfit bytes.now fault result }
{
    match fault {
        DecodeFault::BadMagic(_) => head_misfit(bytes),
        DecodeFault::NotCanonical(place) => {
            if ends_before(alloc, bytes, place) {
                Misfit::Behind(place)
            } else {
                Misfit::Bytes(fault)
            }
        }
        fault => Misfit::Bytes(fault),
    }
}
