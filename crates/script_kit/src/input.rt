//! Reading a script of bounded size from any reader, and writing a text to any writer.

ghost use Rattle.std.specs.Prelude.{◌≡◌, ◌≢◌, ◌≤◌, ◌<◌, ◌^◌, ◌-◌, length, IfOk, OnOk, IfErr, IfSome, IsErrOf, IsOk, [], ◌+◌};
ghost use Rattle.std.specs.Io.KnownBytes.{Appends, IsAtEnd, Keeps};
ghost use Rattle.script_kit.specs.Bytes.{AppendsFront, Leaves, ReadsUpTo};

use crate::ScriptFault;
use std::alloc::Global;
use std::io::{Read, Write};

/// How many bytes a script may have.
pub const MAX_BYTES: usize = 1_048_576;

const CHUNK_BYTES: usize = 4096;

// What reading comes to once there is no memory for the bytes, of which so many were read: the rest is read all the same, since a
// script that is too long is told as that.
fn unkept<R: Read>(reader: &mut R, before: usize) -> ScriptFault
    requires { before ≤ MAX_BYTES }
    ensures few { ReadsUpTo (R.remaining reader.old) (R.remaining reader.new) (MAX_BYTES + 1 - before) }
    ensures memory { result ≡ ScriptFault.NoMemory → IfSome (R.remaining reader.old) (λ xs. before + length xs ≤ MAX_BYTES) }
    ensures long { result ≡ ScriptFault.TooLong → IfSome (R.remaining reader.old) (λ xs. MAX_BYTES < before + length xs) }
    ensures read_fault { result ≡ ScriptFault.ReadFault → ReadsUpTo (R.remaining reader.old) (R.remaining reader.new) (MAX_BYTES - before) }
    ensures bad_line { (n : _) → result ≡ ScriptFault.BadLine n → ⊥ }
    ensures write_fault { result ≡ ScriptFault.WriteFault → ⊥ }
{
    let mut read = before;
    let mut chunk = [0u8; CHUNK_BYTES];
    for _turn in before..MAX_BYTES + 1 {
        let room = (MAX_BYTES + 1 - read).min(CHUNK_BYTES);
        match reader.read(&mut chunk[..room]) {
            Err(_) => return ScriptFault::ReadFault,
            Ok(0) => return ScriptFault::NoMemory,
            Ok(count) => read += count,
        }
        if read > MAX_BYTES {
            return ScriptFault::TooLong;
        }
    }
    ScriptFault::TooLong
}

/// Reads to the end of the input, and no more than one byte past the length that a script may have.
///
/// Refuses, by the first thing that failed: `ReadFault`; `TooLong`, also where there was no memory for the bytes before the last
/// one; `NoMemory`, for a script that is not too long.
pub fn read_script<R: Read>(alloc: Global, reader: &mut R) -> Result<Vec<u8>, ScriptFault>
    ensures greatest { MAX_BYTES ≡ 1048576 }
    ensures whole { IfOk result (λ v. IfSome (R.remaining reader.old) (λ xs. v.items ≡ xs)) }
    ensures end { OnOk result (IsAtEnd (R.remaining reader.new)) }
    ensures few { ReadsUpTo (R.remaining reader.old) (R.remaining reader.new) (MAX_BYTES + 1) }
    ensures small { IfOk result (λ v. length v.items ≤ MAX_BYTES) }
    ensures long { IsErrOf result ScriptFault.TooLong → IfSome (R.remaining reader.old) (λ xs. MAX_BYTES < length xs) }
    // A script that is too long is told as that: want of memory is told of no other, and a read fault of no later read.
    ensures memory { IsErrOf result ScriptFault.NoMemory → IfSome (R.remaining reader.old) (λ xs. length xs ≤ MAX_BYTES) }
    ensures read_fault { IsErrOf result ScriptFault.ReadFault → ReadsUpTo (R.remaining reader.old) (R.remaining reader.new) MAX_BYTES }
    ensures bad_line { (n : _) → IsErrOf result (ScriptFault.BadLine n) → ⊥ }
    ensures write_fault { IsErrOf result ScriptFault.WriteFault → ⊥ }
{
    let mut bytes = Vec::new(alloc);
    let mut chunk = [0u8; CHUNK_BYTES];
    for _turn in 0..MAX_BYTES + 1 {
        let room = (MAX_BYTES + 1 - bytes.len()).min(CHUNK_BYTES);
        match reader.read(&mut chunk[..room]) {
            Err(_) => return Err(ScriptFault::ReadFault),
            Ok(0) => return Ok(bytes),
            Ok(count) => {
                let read = bytes.len() + count;
                if read > MAX_BYTES {
                    return Err(ScriptFault::TooLong);
                }
                if bytes.extend_from_slice(&chunk[..count]).is_err() {
                    return Err(unkept(reader, read));
                }
            }
        }
    }
    Err(ScriptFault::TooLong)
}

/// One write, and what is left of the text after it.
fn write_some<'a, W: Write>(writer: &mut W, text: &'a [u8]) -> Result<&'a [u8], ScriptFault>
    requires { 0 < length text.now }
    ensures ok { IfOk result (λ rest. Leaves (W.contents writer.old) (W.contents writer.new) text.now rest.now) }
    ensures less { IfOk result (λ rest. length rest.now < length text.now) }
    ensures err { IfErr result (λ e. e ≡ ScriptFault.WriteFault) }
    ensures front { IfErr result (λ _. AppendsFront (W.contents writer.old) (W.contents writer.new) text.now) }
{
    let count = match writer.write(text) {
        Ok(count) => count,
        Err(_) => return Err(ScriptFault::WriteFault),
    };
    if count == 0 {
        return Err(ScriptFault::WriteFault);
    }
    let (_, rest) = text.split_at(count);
    Ok(rest)
}

/// Writes the whole text. A write that fails or takes no byte ends it. An empty text needs no write.
pub fn write_text<W: Write>(writer: &mut W, text: &[u8]) -> Result<(), ScriptFault>
    ensures empty { text.now ≡ [] → IsOk result }
    ensures ok { OnOk result (Appends (W.contents writer.old) (W.contents writer.new) text.now) }
    ensures err { IfErr result (λ e. e ≡ ScriptFault.WriteFault) }
    ensures front { IfErr result (λ _. AppendsFront (W.contents writer.old) (W.contents writer.new) text.now) }
{
    let mut rest = text;
    for _turn in 0..text.len() {
        if rest.is_empty() {
            return Ok(());
        }
        rest = write_some(writer, rest)?;
    }
    Ok(())
}
