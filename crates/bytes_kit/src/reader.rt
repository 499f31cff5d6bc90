//! A cursor over bytes.
ghost use Rattle.std.specs.Prelude.{◌≡◌, ◌-◌, ◌<◌, ◌≤◌, ◌++◌, [], ◌∷◌, List, ℕ, true, false, length, IfOk, OnErr, IfErr, IfNone, IfSome, ◌≢◌};
ghost use Rattle.bytes_kit.specs.declared.fault.DecodeFault.TheVariants as faults;

use crate::DecodeFault;
use std::alloc::Global;
use std::marker::Model;

/// The bytes that are left to read. Contracts see their list, and how many there were in all.
#[derive(Drop)]
pub(crate) struct Reader<'a> {
    rest: &'a [u8],
    end: usize,
    alloc: Global,
}

impl<'a> Model for Reader<'a> {
    ghost use Rattle.std.specs.Prelude.{◌≡◌, ◌≤◌, length};
    ghost use Rattle.bytes_kit.specs.Left.{Left, left_code};

    ghost Value = { Left };

    ghost coded = { left_code };

    ghost view = { λ r. record { end = r.end; rest = r.rest.now } };

    ghost invariant = { λ r. length r.rest.now ≤ r.end };
}

impl<'a> Reader<'a> {
    pub(crate) fn new(alloc: Global, bytes: &'a [u8]) -> Reader<'a>
        ensures rest { result.rest ≡ bytes.now }
        ensures end { result.end ≡ length bytes.now }
    {
        Reader {
            rest: bytes,
            end: bytes.len(),
            alloc,
        }
    }

    /// Where what is read lies.
    pub(crate) fn alloc(&self) -> Global {
        self.alloc
    }

    /// The place of the next byte.
    pub(crate) fn place(&self) -> usize
        ensures { result ≡ self.now.end - length self.now.rest }
    {
        self.end - self.rest.len()
    }

    /// How many bytes are left.
    pub(crate) fn rest_len(&self) -> usize
        ensures { result ≡ length self.now.rest }
    {
        self.rest.len()
    }

    /// The number, if as many bytes are left.
    pub(crate) fn within(&self, count: u64) -> Result<usize, DecodeFault>
        ensures ok { IfOk result (λ n. n ≡ count) }
        ensures fits { IfOk result (λ n. n ≤ length self.now.rest) }
        ensures err { OnErr result (length self.now.rest < count) }
        ensures fault { IfErr result (λ f. f ≡ faults.Truncated self.now.end) }
    {
        if (self.rest.len() as u64) < count {
            return Err(DecodeFault::Truncated(self.end));
        }
        Ok(count as usize)
    }

    /// The next byte.
    pub(crate) fn byte(&mut self) -> Result<u8, DecodeFault>
        ensures ok { IfOk result (λ b. self.old.rest ≡ b ∷ self.new.rest) }
        ensures err { OnErr result (self.old.rest ≡ []) }
        ensures end { self.new.end ≡ self.old.end }
        ensures fault { IfErr result (λ f. f ≡ faults.Truncated self.old.end) }
    {
        match self.rest {
            [byte, rest @ ..] => {
                self.rest = rest;
                Ok(*byte)
            }
            [] => Err(DecodeFault::Truncated(self.end)),
        }
    }

    /// The next byte, if it is below 128 and so the last group of a number. Else nothing is passed.
    #[inline]
    pub(crate) fn last_group(&mut self) -> Option<u8>
        ensures some { IfSome result (λ b. self.old.rest ≡ b ∷ self.new.rest) }
        ensures last { IfSome result (λ b. b < 128) }
        ensures none { IfNone result (self.new.rest ≡ self.old.rest) }
        ensures end { self.new.end ≡ self.old.end }
    {
        match self.rest {
            [byte, rest @ ..] if *byte < 128 => {
                self.rest = rest;
                Some(*byte)
            }
            _ => None,
        }
    }

    /// Whether the next byte is this one, which is then passed.
    pub(crate) fn passes(&mut self, wanted: u8) -> bool
        ensures passed { result ≡ true → self.old.rest ≡ wanted ∷ self.new.rest }
        ensures other { result ≡ false → (rest : List ℕ) → self.old.rest ≢ wanted ∷ rest }
        ensures kept { result ≡ false → self.new.rest ≡ self.old.rest }
        ensures end { self.new.end ≡ self.old.end }
    {
        match self.rest {
            [byte, rest @ ..] if *byte == wanted => {
                self.rest = rest;
                true
            }
            _ => false,
        }
    }

    /// The next bytes, so many.
    pub(crate) fn take(&mut self, len: usize) -> Result<&'a [u8], DecodeFault>
        ensures ok { IfOk result (λ front. self.old.rest ≡ front.now ++ self.new.rest) }
        ensures len { IfOk result (λ front. length front.now ≡ len) }
        ensures err { OnErr result (length self.old.rest < len) }
        ensures end { self.new.end ≡ self.old.end }
        ensures fault { IfErr result (λ f. f ≡ faults.Truncated self.old.end) }
    {
        if self.rest.len() < len {
            return Err(DecodeFault::Truncated(self.end));
        }
        let (front, rest) = self.rest.split_at(len);
        self.rest = rest;
        Ok(front)
    }
}
