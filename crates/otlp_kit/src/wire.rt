//! The pieces of a message, after "Encoding" of the documentation of Protocol Buffers.
//!
//! The length of a block stands before its content. So the content is written first, and then the block is closed: its tag
//! and length are put in front. Each byte is moved once for each byte of the head, or once, for each message that it stands in.
ghost use Rattle.std.specs.Prelude.{◌≡◌, ◌<◌, ◌≤◌, ◌-◌, ◌++◌, ◌^◌, length, take, drop, OnOk};
ghost use Rattle.otlp_kit.specs.Wire.{varint, tag, block, number, eight, fixed, text_unless_empty, fixed_unless_zero};

use attr_kit::NoMemory;

/// A number in groups of seven bits, the lowest first.
pub(crate) fn write_varint(n: u64, out: &mut Vec<u8>) -> Result<(), NoMemory>
    ensures { OnOk result (out.new.items ≡ out.old.items ++ varint n) }
{
    let mut rest = n;
    while rest >= 128 {
        out.push((rest % 128) as u8 + 128)?;
        rest /= 128;
    }
    out.push(rest as u8)?;
    Ok(())
}

// The number of a field, and how its value is written.
fn write_tag(field: u64, wire: u64, out: &mut Vec<u8>) -> Result<(), NoMemory>
    requires field { field < 2 ^ 29 }
    requires wire { wire < 8 }
    ensures { OnOk result (out.new.items ≡ out.old.items ++ tag field wire) }
{
    write_varint(8 * field + wire, out)
}

/// A field of a number.
#[tactic(auto, unfolding(crate::specs::Wire::number))]
pub(crate) fn write_number(field: u64, n: u64, out: &mut Vec<u8>) -> Result<(), NoMemory>
    requires { field < 2 ^ 29 }
    ensures { OnOk result (out.new.items ≡ out.old.items ++ number field n) }
{
    write_tag(field, 0, out)?;
    write_varint(n, out)
}

/// A number in eight bytes, the lowest first.
#[tactic(auto, unfolding(crate::specs::Wire::eight))]
pub(crate) fn write_eight(n: u64, out: &mut Vec<u8>) -> Result<(), NoMemory>
    ensures { OnOk result (out.new.items ≡ out.old.items ++ eight n) }
{
    out.extend_from_slice(&n.to_le_bytes())?;
    Ok(())
}

/// A field of a number in eight bytes.
#[tactic(auto, unfolding(crate::specs::Wire::fixed))]
pub(crate) fn write_fixed(field: u64, n: u64, out: &mut Vec<u8>) -> Result<(), NoMemory>
    requires { field < 2 ^ 29 }
    ensures { OnOk result (out.new.items ≡ out.old.items ++ fixed field n) }
{
    write_tag(field, 1, out)?;
    write_eight(n, out)
}

/// The same of a field that is left out where it is 0.
#[tactic(auto, unfolding(crate::specs::Wire::fixed_unless_zero))]
pub(crate) fn write_fixed_unless_zero(field: u64, n: u64, out: &mut Vec<u8>) -> Result<(), NoMemory>
    requires { field < 2 ^ 29 }
    ensures { OnOk result (out.new.items ≡ out.old.items ++ fixed_unless_zero field n) }
{
    if n != 0 {
        write_fixed(field, n, out)?;
    }
    Ok(())
}

/// A field of a text.
#[tactic(auto, unfolding(crate::specs::Wire::block))]
pub(crate) fn write_text(field: u64, text: &str, out: &mut Vec<u8>) -> Result<(), NoMemory>
    requires { field < 2 ^ 29 }
    ensures { OnOk result (out.new.items ≡ out.old.items ++ block field text.now) }
{
    write_tag(field, 2, out)?;
    write_varint(text.len() as u64, out)?;
    out.extend_from_slice(text.as_bytes())?;
    Ok(())
}

/// The same of a field that is left out where it is empty.
#[tactic(auto, unfolding(crate::specs::Wire::text_unless_empty))]
pub(crate) fn write_text_unless_empty(
    field: u64,
    text: &str,
    out: &mut Vec<u8>,
) -> Result<(), NoMemory>
    requires { field < 2 ^ 29 }
    ensures { OnOk result (out.new.items ≡ out.old.items ++ text_unless_empty field text.now) }
{
    if !text.is_empty() {
        write_text(field, text, out)?;
    }
    Ok(())
}

// Rows below this length are turned byte by byte: to turn one at once clears as much room on the stack.
const ROOM: usize = 4096;

// Puts the last of these in front, so many times.
fn turn_by_bytes(part: &mut [u8], times: usize)
    requires { times ≤ length part.old }
    ensures value { part.new ≡ drop (length part.old - times) part.old ++ take (length part.old - times) part.old }
    ensures len { length part.new ≡ length part.old }
{
    for _ in 0..times {
        part.rotate_left(part.len() - 1);
    }
}

// Puts what stands from this place on in front of what stands before it.
fn turn_at(part: &mut [u8], place: usize)
    requires { place ≤ length part.old }
    ensures value { part.new ≡ drop place part.old ++ take place part.old }
    ensures len { length part.new ≡ length part.old }
{
    if part.len() < ROOM {
        turn_by_bytes(part, part.len() - place);
    } else {
        part.rotate_left(place);
    }
}

// Puts what stands from `end` on in front of what stands from `start` on.
fn turn(bytes: &mut [u8], start: usize, end: usize)
    requires start { start ≤ end }
    requires end { end ≤ length bytes.old }
    ensures value { bytes.new ≡ take start bytes.old ++ (drop end bytes.old ++ take (end - start) (drop start bytes.old)) }
    ensures len { length bytes.new ≡ length bytes.old }
{
    turn_at(&mut bytes[start..], end - start);
}

/// Makes what was written from `start` on the content of a field.
pub(crate) fn close_block(field: u64, start: usize, out: &mut Vec<u8>) -> Result<(), NoMemory>
    requires field { field < 2 ^ 29 }
    requires within { start ≤ length out.old.items }
    ensures { OnOk result (out.new.items ≡ take start out.old.items ++ block field (drop start out.old.items)) }
{
    let end = out.len();
    write_tag(field, 2, out)?;
    write_varint((end - start) as u64, out)?;
    turn(out.as_mut_slice(), start, end);
    Ok(())
}
