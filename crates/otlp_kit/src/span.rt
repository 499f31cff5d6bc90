//! Bytes of a request, and where they stand in it.
ghost use Rattle.std.specs.Prelude.{◌≡◌, ◌+◌, ◌<◌, ◌≤◌, ◌^◌, [], ◌∷◌, length, take, true, false, IfSome, IfNone};
ghost use Rattle.std.specs.Str.{is_utf8};
ghost use Rattle.std.specs.Int.{from_le_bytes, w64};
ghost use Rattle.otlp_kit.specs.Spans.{front, behind};

use std::marker::Model;

/// Bytes of a request, and the place of the first of them, counted through the whole request.
#[derive(Drop)]
pub(crate) struct Span<'a> {
    at: usize,
    bytes: &'a [u8],
}

impl<'a> Model for Span<'a> {
    ghost use Rattle.std.specs.Prelude.{◌+◌, ◌<◌, ◌^◌, length};
    ghost use Rattle.otlp_kit.specs.Spans.{Span, span_code};

    ghost Value = { Span };

    ghost coded = { span_code };

    ghost view = { λ s. record { at = s.at; bytes = s.bytes.now } };

    ghost invariant = { λ s. s.at + length s.bytes.now < 2 ^ 64 };
}

impl<'a> Span<'a> {
    /// A whole request.
    pub(crate) fn new(bytes: &'a [u8]) -> Span<'a>
        ensures at { result.at ≡ 0 }
        ensures bytes { result.bytes ≡ bytes.now }
    {
        Span { at: 0, bytes }
    }

    /// The place of the first byte.
    pub(crate) fn at(&self) -> usize
        ensures { result ≡ self.now.at }
    {
        self.at
    }

    pub(crate) fn bytes(&self) -> &'a [u8]
        ensures { result.now ≡ self.now.bytes }
    {
        self.bytes
    }

    pub(crate) fn len(&self) -> usize
        ensures { result ≡ length self.now.bytes }
    {
        self.bytes.len()
    }

    /// The bytes as a text, where they are UTF-8.
    #[tactic(auto, using(crate::proofs::Texts::is_text, crate::proofs::Texts::no_text))]
    pub(crate) fn text(&self) -> Option<&'a str>
        ensures some { IfSome result (λ text. (is_utf8 self.now.bytes ≡ true) × (text.now ≡ self.now.bytes)) }
        ensures none { IfNone result (is_utf8 self.now.bytes ≡ false) }
    {
        match str::from_utf8(self.bytes) {
            Ok(text) => Some(text),
            Err(_) => None,
        }
    }

    /// The same bytes once more.
    #[inline(always)]
    pub(crate) fn copy(&self) -> Span<'a>
        ensures { result ≡ self.now }
    {
        Span {
            at: self.at,
            bytes: self.bytes,
        }
    }

    /// Takes the first byte off.
    #[inline(always)]
    pub(crate) fn byte(&mut self) -> Option<u8>
        ensures bytes { IfSome result (λ b. self.old.bytes ≡ b ∷ self.new.bytes) }
        ensures at { IfSome result (λ b. self.new.at ≡ self.old.at + 1) }
        ensures none { IfNone result (self.old.bytes ≡ []) }
    {
        match self.bytes {
            [byte, rest @ ..] => {
                self.bytes = rest;
                self.at += 1;
                Some(*byte)
            }
            [] => None,
        }
    }

    /// Takes off a number in eight bytes, the lowest first.
    #[inline(always)]
    pub(crate) fn eight(&mut self) -> Option<u64>
        ensures value { IfSome result (λ n. n ≡ from_le_bytes w64 (take 8 self.old.bytes)) }
        ensures behind { IfSome result (λ n. self.new ≡ behind 8 self.old) }
        ensures some { IfSome result (λ n. 8 ≤ length self.old.bytes) }
        ensures none { IfNone result (length self.old.bytes < 8) }
    {
        let (eight, rest) = self.bytes.split_first_chunk::<8>()?;
        self.at += 8;
        self.bytes = rest;
        Some(u64::from_le_bytes(*eight))
    }

    /// Takes the first bytes off, so many.
    #[inline(always)]
    pub(crate) fn take(&mut self, len: usize) -> Option<Span<'a>>
        ensures front { IfSome result (λ taken. taken ≡ front len self.old) }
        ensures behind { IfSome result (λ taken. self.new ≡ behind len self.old) }
        ensures some { IfSome result (λ taken. len ≤ length self.old.bytes) }
        ensures none { IfNone result (length self.old.bytes < len) }
    {
        if self.bytes.len() < len {
            return None;
        }
        let (bytes, rest) = self.bytes.split_at(len);
        let taken = Span { at: self.at, bytes };
        self.at += len;
        self.bytes = rest;
        Some(taken)
    }
}
