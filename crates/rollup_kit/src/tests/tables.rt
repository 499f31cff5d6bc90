//! Printed tables of rows that no script has.
use super::builders::{one, row, single, two, worded};
use crate::{Row, Total, table};
use attr_kit::{AttrSet, NoMemory};
use std::alloc::Global;
use std::test::Fail;

// Whether the table of these rows is this text.
fn prints(alloc: Global, rows: Vec<Row>, wanted: &str) -> Result<bool, NoMemory> {
    let printed = table(alloc, rows.as_slice())?;
    Ok(printed.as_str() == wanted)
}

// Whether the row of a set with one conflict of gauges is this line, in columns of this header.
fn prints_set(alloc: Global, attrs: AttrSet, wanted: &str) -> Result<bool, NoMemory> {
    prints(
        alloc,
        one(alloc, row(attrs, Total::Gauge(None), 0, 1))?,
        wanted,
    )
}

#[test]
fn quotes_backslashes_and_control_characters_are_escaped(rt: HostRuntime) -> Result<(), Fail> {
    let alloc = rt.alloc();
    let attrs = single(alloc, worded(alloc, "k\"", "\"\\\0\x1f\x7f\n ~\u{80}")?)?;
    let rows = one(alloc, row(attrs, Total::Gauge(Some((300, 9))), 2, 0))?;
    let wanted = "attributes                         points  conflicts  total\n\
                  {\"k\\\"\"=\"\\\"\\\\\\x00\\x1f\\x7f\\x0a ~\u{80}\"}       2          0  9@300\n";
    assert!(rt; prints(alloc, rows, wanted)?);
    Ok(())
}

// Whether a text of this character alone is `\x` and two digits in quotes, which make a cell as wide as the header's.
fn is_escaped(alloc: Global, code: u8) -> Result<bool, Fail> {
    let mut control = String::new(alloc);
    control.push(code as char)?;
    let attrs = single(alloc, worded(alloc, "k", control.as_str())?)?;
    let wanted = format!(in alloc;
        "attributes  points  conflicts  total\n{{k=\"\\x{code:02x}\"}}       0          1  -\n"
    )?;
    Ok(prints_set(alloc, attrs, wanted.as_str())?)
}

#[test]
fn every_control_character_is_escaped(rt: HostRuntime) -> Result<(), Fail> {
    let alloc = rt.alloc();
    for code in 0..0x20 {
        assert!(rt; is_escaped(alloc, code)?, "{code}");
    }
    assert!(rt; is_escaped(alloc, 0x7f)?);
    Ok(())
}

#[test]
fn widths_count_scalar_values(rt: HostRuntime) -> Result<(), Fail> {
    let alloc = rt.alloc();
    // a wide character, one of four bytes, and a letter with a combining accent: 1, 1 and 2 scalar values
    let attrs = single(alloc, worded(alloc, "k", "界😀e\u{301}")?)?;
    let rows = two(
        alloc,
        row(attrs, Total::Sum(1), 1, 0),
        row(AttrSet::empty(alloc), Total::Sum(2), 1, 0),
    )?;
    let wanted = "attributes  points  conflicts  total\n\
                  {k=\"界😀e\u{301}\"}       1          0  1\n\
                  {}               1          0  2\n";
    assert!(rt; prints(alloc, rows, wanted)?);
    Ok(())
}
