// Rows of bytes.
ghost use Rattle.std.specs.Prelude.{◌≡◌, ◌++◌, ◌<◌, ◌≤◌, ◌*◌, ◌+◌, ◌^◌, length, take, drop, OnOk, IsTrue, ◌↔◌};
ghost use Rattle.std.specs.Int.{to_be_bytes, w32};
ghost use Rattle.hex.specs.Hex.{encode_lower};
ghost use Rattle.report_model.specs.Report.{rows_in, rows_text, row_line};
ghost use Rattle.report_model.proofs.RowLemmas.{leading};

use crate::words::{put_count, put_text};
use nand_model::Bytes;
use std::alloc::AllocError;

/// Bytes of a row.
const ROW: usize = 32;

// The four low bytes of a number, the highest first.
fn low_bytes(n: usize) -> [u8; 4]
    ensures { result ≡ to_be_bytes w32 n }
{
    let [_, _, _, _, a, b, c, d] = n.to_be_bytes();
    [a, b, c, d]
}

// Appends the digits of a row.
fn put_digits(out: &mut Bytes, row: &[u8]) -> Result<(), AllocError>
    requires { length row.now ≤ 32 }
    ensures { OnOk result (out.new ≡ out.old ++ encode_lower row.now) }
{
    let mut digits = [0u8; 64];
    let digits = &mut digits[..2 * row.len()];
    let _whole = hex::encode_to_slice(row, digits);
    out.push_slice(digits)
}

// Appends the digits of an offset, by its low 32 bits.
fn put_offset(out: &mut Bytes, offset: usize) -> Result<(), AllocError>
    ensures { OnOk result (out.new ≡ out.old ++ encode_lower (to_be_bytes w32 offset)) }
{
    let mut digits = [0u8; 8];
    let _whole = hex::encode_to_slice(low_bytes(offset), &mut digits);
    out.push_slice(&digits)
}

// The line of a run of `count` equal rows, the first of which has number `at`.
fn put_run(out: &mut Bytes, at: usize, count: usize, row: &[u8]) -> Result<(), AllocError>
    requires place { 32 * at < 2 ^ 64 }
    requires row { length row.now ≤ 32 }
    ensures { OnOk result (out.new ≡ out.old
        ++ row_line (record { at = at; count = count; row = row.now })) }
{
    put_text(out, " ")?;
    put_offset(out, 32 * at)?;
    put_count(out, " ", count as u64)?;
    put_text(out, " ")?;
    put_digits(out, row)?;
    put_text(out, "\n")
}

// The first row of the bytes, and what follows it.
fn split_row(bytes: &[u8]) -> (&[u8], &[u8])
    ensures row { result.0.now ≡ take 32 bytes.now }
    ensures later { result.1.now ≡ drop 32 bytes.now }
{
    bytes.split_at(bytes.len().min(ROW))
}

// The bytes after `count` rows.
fn skip_rows(bytes: &[u8], count: usize) -> &[u8]
    requires { 32 * count < 2 ^ 64 }
    ensures { result.now ≡ drop (32 * count) bytes.now }
{
    bytes.split_at(bytes.len().min(ROW * count)).1
}

// Whether two rows are equal.
fn is_same(one: &[u8], other: &[u8]) -> bool
    ensures { IsTrue result ↔ (one.now ≡ other.now) }
{
    one == other
}

// How many rows at the front of the bytes equal this one.
fn leading_rows(row: &[u8], bytes: &[u8]) -> usize
    ensures rows { result ≡ leading row.now (rows_in bytes.now) }
    ensures few { 32 * result ≤ length bytes.now + 31 }
{
    let mut rest = bytes;
    let mut count = 0usize;
    while !rest.is_empty() {
        let (next, later) = split_row(rest);
        if !is_same(next, row) {
            break;
        }
        count += 1;
        rest = later;
    }
    count
}

/// Appends the rows of bytes: cut into rows of 32, each longest run of equal neighbouring rows is
/// one line of its offset, its number of rows and the row's digits. Offsets are in bytes, and
/// printed by their low 32 bits.
pub fn put_rows(out: &mut Bytes, bytes: &[u8]) -> Result<(), AllocError>
    ensures { OnOk result (out.new ≡ out.old ++ rows_text bytes.now) }
{
    let mut rest = bytes;
    let mut at = 0usize;
    while !rest.is_empty() {
        let (row, later) = split_row(rest);
        let more = leading_rows(row, later);
        put_run(out, at, more + 1, row)?;
        rest = skip_rows(later, more);
        at += more + 1;
    }
    Ok(())
}
