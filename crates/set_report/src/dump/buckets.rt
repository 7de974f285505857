// The buckets of a field's table, as lines of runs with the same bitmap.
ghost use Rattle.std.specs.Prelude.{◌≡◌, ℕ, ◌+◌, ◌/◌, ◌^◌, ◌<◌, ◌≤◌, [], ◌∷◌, ◌++◌, length, slice_get, Some, IfOk, OnOk, OnErr};
ghost use Rattle.set_model.specs.Text.{line_feed};
ghost use Rattle.set_report.specs.DumpText.{bitmap_text, run_line, runs_from, runs_text};
ghost use Rattle.set_report.specs.DumpBuckets.{bits_at, bitmaps_of, bitmaps_at, AreRowsFrom, buckets_text, all_buckets_text};
ghost use Rattle.text_pieces.specs.Appends.{AppendsPart};

use super::bitmap::{is_any_set, is_same, write_bitmap};
use bit_rows::BitRow;
use lookup_table::{FieldTable, Lines};
use set_model::Memory;
use std::alloc::Global;
use text_pieces::Piece::{Number, Word};
use text_pieces::append_pieces;

/// Appends a bitmap and the end of its line.
#[tactic(auto, using(text_pieces::proofs::TwoParts::two_parts))]
fn write_bitmap_to_end(row: &BitRow, out: &mut Vec<u8>) -> Result<(), Memory>
    ensures ok { OnOk result (out.new.items ≡ out.old.items ++ (bitmap_text row.now.bits ++ line_feed)) }
    ensures err { OnErr result (AppendsPart out.old.items out.new.items (bitmap_text row.now.bits ++ line_feed)) }
{
    write_bitmap(row, out)?;
    append_pieces(&[Word(b"\n")], out)
}

/// Appends the line of the buckets `from` to `to` of group `g`, which all have this bitmap.
fn write_run(g: u32, from: u64, to: u64, row: &BitRow, out: &mut Vec<u8>) -> Result<(), Memory>
    ensures ok { OnOk result (out.new.items ≡ out.old.items ++ run_line g (record { from = from; to = to; bitmap = row.now.bits })) }
    ensures err { OnErr result (AppendsPart out.old.items out.new.items (run_line g (record { from = from; to = to; bitmap = row.now.bits }))) }
{
    append_pieces(
        &[
            Word(b"row "),
            Number(u64::from(g)),
            Word(b" "),
            Number(from),
            Word(b"-"),
            Number(to),
            Word(b" "),
        ],
        out,
    )?;
    write_bitmap_to_end(row, out)
}

/// Appends the line of a run if its bitmap isn't all zeros.
fn write_run_if_any_set(
    g: u32,
    from: u64,
    to: u64,
    row: &BitRow,
    out: &mut Vec<u8>,
) -> Result<(), Memory>
    ensures ok { OnOk result (out.new.items ≡ out.old.items ++ runs_text g (record { from = from; to = to; bitmap = row.now.bits } ∷ [])) }
    ensures err { OnErr result (AppendsPart out.old.items out.new.items (runs_text g (record { from = from; to = to; bitmap = row.now.bits } ∷ []))) }
{
    if is_any_set(row) {
        write_run(g, from, to, row, out)
    } else {
        Ok(())
    }
}

/// Row `i`.
fn row_at(rows: &[BitRow], i: u64) -> &BitRow
    requires { i < length rows.now }
    ensures { slice_get rows.now i ≡ Some result.now }
{
    &rows[i as usize]
}

/// How many of the buckets from place `from` up to `to` have the bitmap of the first one, until one
/// doesn't.
fn run_len(rows: &[BitRow], from: u64, to: u64) -> u64
    requires some { from < to }
    requires within { to ≤ length rows.now }
    requires long { (j : ℕ) → j < length rows.now → length (bits_at rows.now j) ≡ length (bits_at rows.now from) }
    ensures some { 0 < result }
    ensures within { from + result ≤ to }
    ensures same { (k : ℕ) → k < result → bits_at rows.now (from + k) ≡ bits_at rows.now from }
    ensures other { from + result < to → bits_at rows.now (from + result) ≡ bits_at rows.now from → ⊥ }
{
    let first = row_at(rows, from);
    for n in 1..to - from {
        let row = row_at(rows, from + n);
        if !is_same(first, row) {
            return n;
        }
    }
    to - from
}

/// Appends the lines of the buckets of group `g`.
fn write_runs(rows: &[BitRow], g: u32, out: &mut Vec<u8>) -> Result<(), Memory>
    requires { (i j : ℕ) → i < length rows.now → j < length rows.now → length (bits_at rows.now j) ≡ length (bits_at rows.now i) }
    ensures ok { OnOk result (out.new.items ≡ out.old.items ++ runs_text g (runs_from 0 (bitmaps_of rows.now 0 (length rows.now)))) }
    ensures err { OnErr result (AppendsPart out.old.items out.new.items (runs_text g (runs_from 0 (bitmaps_of rows.now 0 (length rows.now))))) }
{
    let count = rows.len() as u64;
    let mut from = 0;
    'runs: while from < count {
        let len = run_len(rows, from, count);
        let row = row_at(rows, from);
        write_run_if_any_set(g, from, from + len - 1, row, out)?;
        from += len;
    }
    Ok(())
}

/// The rows of `count` buckets from place `first` on.
fn rows_from(alloc: Global, buckets: &Lines, first: u64, count: u64) -> Result<Vec<BitRow>, Memory>
    requires within { first + count ≤ length buckets.now.rows }
    requires few { first + count < 2 ^ 64 }
    ensures { IfOk result (λ rows. AreRowsFrom buckets.now.rows first count rows.items) }
{
    let mut rows = Vec::new(alloc);
    'rows: for v in 0..count {
        rows.push(buckets.row(alloc, first + v)?)?;
    }
    Ok(rows)
}

/// Appends the lines of the `count` buckets of group `g`, which begin at place `first`.
fn write_lines(
    buckets: &Lines,
    g: u32,
    first: u64,
    count: u64,
    out: &mut Vec<u8>,
) -> Result<(), Memory>
    requires within { first + count ≤ length buckets.now.rows }
    requires few { first + count < 2 ^ 64 }
    requires long { (i j : ℕ) → i < length buckets.now.rows → j < length buckets.now.rows → length (bits_at buckets.now.rows j) ≡ length (bits_at buckets.now.rows i) }
    ensures ok { OnOk result (out.new.items ≡ out.old.items ++ runs_text g (runs_from 0 (bitmaps_at buckets.now.rows first 0 count))) }
    ensures err { OnErr result (AppendsPart out.old.items out.new.items (runs_text g (runs_from 0 (bitmaps_at buckets.now.rows first 0 count)))) }
{
    let rows = rows_from(*out.allocator(), buckets, first, count)?;
    write_runs(rows.as_slice(), g, out)
}

/// Appends the lines of group `g`.
fn write_group(table: &FieldTable, g: u32, out: &mut Vec<u8>) -> Result<(), Memory>
    requires { g < table.now.bits / table.now.width }
    ensures ok { OnOk result (out.new.items ≡ out.old.items ++ buckets_text table.now g) }
    ensures err { OnErr result (AppendsPart out.old.items out.new.items (buckets_text table.now g)) }
{
    let first = u64::from(g) << table.width;
    write_lines(&table.buckets, g, first, 1u64 << table.width, out)
}

/// Appends the lines of a table's buckets, group by group.
pub(crate) fn write_buckets(table: &FieldTable, out: &mut Vec<u8>) -> Result<(), Memory>
    ensures ok { OnOk result (out.new.items ≡ out.old.items ++ all_buckets_text table.now) }
    ensures err { OnErr result (AppendsPart out.old.items out.new.items (all_buckets_text table.now)) }
{
    'groups: for g in 0..table.groups() {
        write_group(table, g, out)?;
    }
    Ok(())
}
