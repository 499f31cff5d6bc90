//! Rows, read by their numbers.
ghost use Rattle.std.specs.Prelude.{◌≡◌, ◌≢◌, ◌∷◌, [], pos, length, map, slice_get, IfErr, IfOk, IfSome, OnErr, OnOk};
ghost use Rattle.attr_kit.specs.Refusing.{first};
ghost use Rattle.kit_c.specs.Calls.{code_for, filled, full_fault, if_any, of_one};
ghost use Rattle.kit_c.specs.Codes.{code_of, no_memory};
ghost use Rattle.kit_c.specs.Held.{attributes_of, rows_of};
ghost use Rattle.kit_c.specs.Rows.{buckets_in, row_fault, told_count, told_row};

use crate::content::Content;
use crate::fault::{FULL, Fault, NOTHING, OK, WRONG_KIND};
use crate::row::{KitCount, KitRow, buckets_in};
use crate::typed::{KitAttributes, KitRows};
use crate::with::{fill_or_tell, tell, with};
use attr_kit::{AttrSet, Seq};
use rollup_kit::Row;
use std::alloc::Global;

/// Tells how many rows there are: they are numbered from 0, in the order of their attribute sets.
///
/// Refused: `NOTHING`. Takes no memory.
#[unsafe(no_mangle)]
pub extern "C" fn kit_rows_len(alloc: Global, rows: &mut KitRows, count: &mut usize) -> i32
    ensures code { result ≡ code_for (of_one (rows_of rows.old) if_any) }
    ensures value { result ≡ pos 0 → IfSome (rows_of rows.old) (λ rs. count.new ≡ length rs) }
    ensures told { result ≢ pos 0 → count.new ≡ count.old }
    ensures kept { rows_of rows.new ≡ rows_of rows.old }
{
    *count = with!(alloc, rows => Rows(held), held.len());
    OK
}

// The row of a number.
fn row(rows: &Seq<Row>, number: usize) -> Result<&Row, Fault>
    ensures ok { OnOk result (row_fault number rows.now ≡ None) }
    ensures value { IfOk result (λ r. slice_get rows.now number ≡ Some r.now) }
    ensures err { IfErr result (λ f. (slice_get rows.now number ≡ None) × (f ≡ Fault.NoRow)) }
{
    match rows.get(number) {
        Some(row) => Ok(row),
        None => Err(Fault::NoRow),
    }
}

fn set_of(rows: &Seq<Row>, number: usize) -> Result<AttrSet, Fault>
    ensures ok { OnOk result (row_fault number rows.now ≡ None) }
    ensures value { IfOk result (λ set. IfSome (slice_get rows.now number) (λ r. set ≡ r.attrs)) }
    ensures err { IfErr result (λ f. code_of f ≢ no_memory → row_fault number rows.now ≡ Some f) }
{
    Ok(row(rows, number)?.attrs.try_copy()?)
}

/// The attributes that a row is of, as a set of their own: its labels. The rows stay.
///
/// Refused, in this order: `FULL`; `NOTHING`; `NO_ROW`; `NO_MEMORY`. O(size of the attributes).
#[unsafe(no_mangle)]
pub extern "C" fn kit_rows_attributes(
    alloc: Global,
    rows: &mut KitRows,
    number: usize,
    attributes: &mut KitAttributes,
) -> i32
    ensures code { result ≢ no_memory → result ≡ code_for (first (full_fault (attributes_of attributes.old)
        ∷ of_one (rows_of rows.old) (row_fault number) ∷ [])) }
    ensures value { result ≡ pos 0 → IfSome (rows_of rows.old)
        (λ rs. IfSome (slice_get rs number) (λ r. attributes_of attributes.new ≡ Some r.attrs)) }
    ensures unchanged { result ≢ pos 0 → attributes_of attributes.new ≡ attributes_of attributes.old }
    ensures kept { rows_of rows.new ≡ rows_of rows.old }
{
    fill_or_tell!(alloc, attributes => with!(alloc, rows => Rows(held), set_of(held, number)), set => Content::Attributes(set))
}

fn read(rows: &Seq<Row>, number: usize) -> Result<KitRow, Fault>
    ensures ok { OnOk result (row_fault number rows.now ≡ None) }
    ensures value { IfOk result (λ told. IfSome (slice_get rows.now number) (λ r. told ≡ told_row r)) }
    ensures err { IfErr result (λ f. row_fault number rows.now ≡ Some f) }
{
    Ok(KitRow::of(row(rows, number)?))
}

/// Tells a row as numbers. `kit_rows_attributes` tells its labels, `kit_rows_buckets` the buckets of a histogram.
///
/// Refused, in this order: `NOTHING`; `NO_ROW`. O(1), takes no memory.
#[unsafe(no_mangle)]
pub extern "C" fn kit_rows_read(
    alloc: Global,
    rows: &mut KitRows,
    number: usize,
    row: &mut KitRow,
) -> i32
    ensures code { result ≡ code_for (of_one (rows_of rows.old) (row_fault number)) }
    ensures value { result ≡ pos 0 → IfSome (rows_of rows.old) (λ rs. IfSome (slice_get rs number) (λ r. row.new ≡ told_row r)) }
    ensures told { result ≢ pos 0 → row.new ≡ row.old }
    ensures kept { rows_of rows.new ≡ rows_of rows.old }
{
    tell!(row => with!(alloc, rows => Rows(held), read(held, number)))
}

fn copy_counts(counts: &[u128], into: &mut [KitCount]) -> usize
    ensures value { into.new ≡ filled (map told_count counts.now) into.old }
    ensures len { result ≡ length counts.now }
{
    for place in 0..counts.len().min(into.len()) {
        into[place] = KitCount::of(counts[place]);
    }
    counts.len()
}

fn copy_buckets(rows: &Seq<Row>, number: usize, into: &mut [KitCount]) -> Result<usize, Fault>
    ensures ok { OnOk result (row_fault number rows.now ≡ None) }
    ensures value { OnOk result (IfSome (slice_get rows.now number)
        (λ r. into.new ≡ filled (map told_count (buckets_in r.total)) into.old)) }
    ensures len { IfOk result (λ n. IfSome (slice_get rows.now number) (λ r. n ≡ length (buckets_in r.total))) }
    ensures err { IfErr result (λ f. row_fault number rows.now ≡ Some f) }
    ensures unchanged { OnErr result (into.new ≡ into.old) }
{
    Ok(copy_counts(buckets_in(&row(rows, number)?.total), into))
}

/// Copies the front of the buckets of a row that has room, each as how many values it has, and tells in `len` how many there are: only a
/// histogram has some. A bucket has the values up to the bound of its number and above the one before it, and the last one those above all
/// bounds.
///
/// Refused, in this order: `NOTHING`; `NO_ROW`. Takes no memory.
#[unsafe(no_mangle)]
pub extern "C" fn kit_rows_buckets(
    alloc: Global,
    rows: &mut KitRows,
    number: usize,
    into: &mut [KitCount],
    len: &mut usize,
) -> i32
    ensures code { result ≡ code_for (of_one (rows_of rows.old) (row_fault number)) }
    ensures value { result ≡ pos 0 → IfSome (rows_of rows.old) (λ rs. IfSome (slice_get rs number)
        (λ r. into.new ≡ filled (map told_count (buckets_in r.total)) into.old)) }
    ensures len { result ≡ pos 0 → IfSome (rows_of rows.old)
        (λ rs. IfSome (slice_get rs number) (λ r. len.new ≡ length (buckets_in r.total))) }
    ensures told { result ≢ pos 0 → (into.new ≡ into.old) × (len.new ≡ len.old) }
    ensures kept { rows_of rows.new ≡ rows_of rows.old }
{
    tell!(len => with!(alloc, rows => Rows(held), copy_buckets(held, number, into)))
}
