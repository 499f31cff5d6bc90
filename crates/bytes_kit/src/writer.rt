//! Numbers and counted bytes, written.
ghost use Rattle.std.specs.Prelude.{◌≡◌, ◌<◌, ◌++◌, ◌^◌, length, OnOk};
ghost use Rattle.bytes_kit.specs.Format.{groups, text, list_of};
ghost use Rattle.bytes_kit.specs.Fits.{IsList};
ghost use Rattle.bytes_kit.specs.Groups.{limit};

use crate::piece::Piece;
use attr_kit::NoMemory;

/// A number in groups of seven bits, the lowest first.
pub(crate) fn write_groups(n: u64, more: u32, out: &mut Vec<u8>) -> Result<(), NoMemory>
    requires { n < limit more }
    ensures { OnOk result (out.new.items ≡ out.old.items ++ groups more n) }
{
    if more == 0 || n < 128 {
        out.push(n as u8)?;
        return Ok(());
    }
    out.push((n % 128) as u8 + 128)?;
    write_groups(n / 128, more - 1, out)
}

/// How many bytes, and the bytes.
pub(crate) fn write_counted(bytes: &[u8], out: &mut Vec<u8>) -> Result<(), NoMemory>
    ensures { OnOk result (out.new.items ≡ out.old.items ++ text bytes.now) }
{
    (bytes.len() as u64).write(out)?;
    out.extend_from_slice(bytes)?;
    Ok(())
}

/// How many values, and their forms.
pub(crate) fn write_list<T: Piece>(items: &[T], out: &mut Vec<u8>) -> Result<(), NoMemory>
    requires { length items.now < 2 ^ 64 }
    ensures written { OnOk result (out.new.items ≡ out.old.items ++ list_of T.code items.now) }
    ensures value { OnOk result (IsList T.is_value items.now) }
{
    (items.len() as u64).write(out)?;
    for item in items {
        item.write(out)?;
    }
    Ok(())
}
