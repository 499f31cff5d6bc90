//! The table of rows: a header and a line for each row, in columns as wide as their longest cell.
ghost use Rattle.std.specs.Prelude.{◌≡◌, ◌++◌, ◌-◌, OnOk, IfOk, string_bytes};
ghost use Rattle.rollup_kit.specs.declared.table_text.Column.TheVariants.{Attributes, Points, Conflicts, Total};
ghost use Rattle.rollup_kit.specs.TableText.{width, widest, header, cell, spaces, left_aligned, right_aligned, line, line_of, table_text};
ghost use Rattle.std.specs.List.{flat_map};

use crate::Row;
use crate::row_text::{push_attributes, push_total};
use attr_kit::{NoMemory, Txt};
use std::alloc::{AllocError, Global};

/// A column of the table.
#[derive(Clone, Copy)]
pub(crate) enum Column {
    Attributes,
    Points,
    Conflicts,
    Total,
}

// How wide the padded columns are.
#[derive(Clone, Copy)]
struct Widths {
    attributes: usize,
    points: usize,
    conflicts: usize,
}

impl Column {
    fn header(self) -> &'static str
        ensures { result.now ≡ header self }
    {
        match self {
            Column::Attributes => "attributes",
            Column::Points => "points",
            Column::Conflicts => "conflicts",
            Column::Total => "total",
        }
    }

    fn cell(self, alloc: Global, row: &Row) -> Result<String, AllocError>
        ensures { IfOk result (λ text. string_bytes text ≡ cell self row.now) }
    {
        let mut text = String::new(alloc);
        match self {
            Column::Attributes => push_attributes(&mut text, &row.attrs)?,
            Column::Points => write!(text, "{}", row.points)?,
            Column::Conflicts => write!(text, "{}", row.conflicts)?,
            Column::Total => push_total(&mut text, &row.total)?,
        }
        Ok(text)
    }

    // The width of the longest of the header and the cells.
    #[tactic(auto, unfolding(crate::specs::TableText::widest))]
    fn widest(self, alloc: Global, rows: &[Row]) -> Result<usize, AllocError>
        ensures { IfOk result (λ most. most ≡ widest self rows.now) }
    {
        let mut most = char_count(self.header());
        for row in rows {
            let text = self.cell(alloc, row)?;
            most = most.max(char_count(text.as_str()));
        }
        Ok(most)
    }
}

#[tactic(auto, unfolding(crate::specs::TableText::width))]
fn char_count(text: &str) -> usize
    ensures { result ≡ width text.now }
{
    text.chars().count()
}

fn push_spaces(text: &mut String, count: usize) -> Result<(), AllocError>
    ensures { OnOk result (string_bytes text.new ≡ string_bytes text.old ++ spaces count) }
{
    for _space in 0..count {
        text.push(' ')?;
    }
    Ok(())
}

fn push_left(text: &mut String, to: usize, cell: &str) -> Result<(), AllocError>
    ensures { OnOk result (string_bytes text.new ≡ string_bytes text.old ++ left_aligned to cell.now) }
{
    text.push_str(cell)?;
    push_spaces(text, to.saturating_sub(char_count(cell)))
}

fn push_right(text: &mut String, to: usize, cell: &str) -> Result<(), AllocError>
    ensures { OnOk result (string_bytes text.new ≡ string_bytes text.old ++ right_aligned to cell.now) }
{
    push_spaces(text, to.saturating_sub(char_count(cell)))?;
    text.push_str(cell)
}

// The cells of a line.
#[derive(Clone, Copy)]
struct Cells<'a> {
    attributes: &'a str,
    points: &'a str,
    conflicts: &'a str,
    total: &'a str,
}

#[tactic(auto, unfolding(crate::specs::TableText::line))]
fn push_line(text: &mut String, widths: Widths, cells: Cells<'_>) -> Result<(), AllocError>
    ensures { OnOk result (string_bytes text.new ≡ string_bytes text.old ++ line widths.attributes widths.points widths.conflicts
        cells.entry.attributes.now cells.entry.points.now cells.entry.conflicts.now cells.entry.total.now) }
{
    push_left(text, widths.attributes, cells.attributes)?;
    push_spaces(text, 2)?;
    push_right(text, widths.points, cells.points)?;
    push_spaces(text, 2)?;
    push_right(text, widths.conflicts, cells.conflicts)?;
    push_spaces(text, 2)?;
    text.push_str(cells.total)?;
    text.push('\n')
}

fn push_row(text: &mut String, alloc: Global, widths: Widths, row: &Row) -> Result<(), AllocError>
    ensures { OnOk result (string_bytes text.new ≡ string_bytes text.old
        ++ line_of widths.attributes widths.points widths.conflicts (λ column. cell column row.now)) }
{
    let attributes = Column::Attributes.cell(alloc, row)?;
    let points = Column::Points.cell(alloc, row)?;
    let conflicts = Column::Conflicts.cell(alloc, row)?;
    let total = Column::Total.cell(alloc, row)?;
    let cells = Cells {
        attributes: attributes.as_str(),
        points: points.as_str(),
        conflicts: conflicts.as_str(),
        total: total.as_str(),
    };
    push_line(text, widths, cells)
}

fn push_header(text: &mut String, widths: Widths) -> Result<(), AllocError>
    ensures { OnOk result (string_bytes text.new ≡ string_bytes text.old
        ++ line_of widths.attributes widths.points widths.conflicts header) }
{
    let cells = Cells {
        attributes: Column::Attributes.header(),
        points: Column::Points.header(),
        conflicts: Column::Conflicts.header(),
        total: Column::Total.header(),
    };
    push_line(text, widths, cells)
}

fn push_rows(
    text: &mut String,
    alloc: Global,
    widths: Widths,
    rows: &[Row],
) -> Result<(), AllocError>
    ensures { OnOk result (string_bytes text.new ≡ string_bytes text.old
        ++ flat_map (λ row. line_of widths.attributes widths.points widths.conflicts (λ column. cell column row)) rows.now) }
{
    for row in rows {
        push_row(text, alloc, widths, row)?;
    }
    Ok(())
}

/// The table of the rows, in their order: a line for the header and one for each row, each ended by a line feed.
///
/// The columns are `attributes`, `points`, `conflicts` and `total`, with two spaces between them. The first is aligned
/// to the left, the next two to the right, each as wide as its longest cell, counted in Unicode scalar values. The last
/// is not padded, so that no line ends with a space.
///
/// Linear in the length of the text. `NoMemory` comes only where a growth was refused.
#[tactic(auto, unfolding(crate::specs::TableText::table_text))]
pub fn table(alloc: Global, rows: &[Row]) -> Result<Txt, NoMemory>
    ensures value { IfOk result (λ text. text ≡ table_text rows.now) }
{
    let widths = Widths {
        attributes: Column::Attributes.widest(alloc, rows)?,
        points: Column::Points.widest(alloc, rows)?,
        conflicts: Column::Conflicts.widest(alloc, rows)?,
    };
    let mut text = String::new(alloc);
    push_header(&mut text, widths)?;
    push_rows(&mut text, alloc, widths, rows)?;
    Ok(Txt::from_string(text))
}
