// What is read of steps by their stored parities.
ghost use Rattle.std.specs.Prelude.{◌≡◌, ◌<◌, ◌≤◌, ◌%◌, ◌++◌, length, IfOk, OnOk, Option, None, Some};
ghost use Rattle.code_model.specs.Code.{code_1024, mask_of, parity_len};
ghost use Rattle.code_words.specs.Units.{decoded, outcome_text, read_of, unit_bytes, unit_read, unit_text};

use crate::encode::{LONGEST_PARITY, STEP, stored_len};
use bch_quick::put_mask;
use bch14::{Decoded14, decode14_in_slice, mask14};
use lab_text::put_number;
use nand_model::Bytes;
use report_text::put_rows;
use std::alloc::{AllocError, Global};

// Corrects a step by its stored parity, which is used up, and gives the number of bits that were
// wrong; leaves the step as it is where no code word is near.
fn correct(t: u32, mask: &[u8], step: &mut [u8], stored: &mut [u8]) -> Option<u32>
    requires strength { (0 < t) × (t ≤ 16) }
    requires mask { mask.now ≡ mask_of (code_1024 t) }
    requires whole { length step.old ≡ 1024 }
    requires room { length stored.old ≡ parity_len (code_1024 t) }
    ensures body { step.new ≡ (read_of t step.old stored.old).body }
    ensures corrected { result ≡ (read_of t step.old stored.old).corrected }
{
    put_mask(stored, mask);
    match decode14_in_slice(t, step, stored) {
        Decoded14::Corrected(n) => Some(n),
        Decoded14::Failed => None,
    }
}

// Appends how many bits were wrong, or that no code word is near.
fn put_outcome(out: &mut Bytes, corrected: Option<u32>) -> Result<(), AllocError>
    ensures { OnOk result (out.new ≡ out.old ++ outcome_text corrected) }
{
    match corrected {
        None => out.push_slice(b" failed"),
        Some(n) => {
            out.push_slice(b" corrected ")?;
            put_number(out, u64::from(n))
        }
    }
}

// Appends the lines of unit number `at`.
fn put_unit(out: &mut Bytes, t: u32, mask: &[u8], at: u64, unit: &[u8]) -> Result<(), AllocError>
    requires strength { (0 < t) × (t ≤ 16) }
    requires mask { mask.now ≡ mask_of (code_1024 t) }
    requires whole { length unit.now ≡ unit_bytes t }
    ensures { OnOk result (out.new ≡ out.old ++ unit_text at (unit_read t unit.now)) }
{
    let (body, parity) = unit.split_at(STEP);
    let mut step = [0u8; STEP];
    step.copy_from_slice(body);
    let mut stored = [0u8; LONGEST_PARITY];
    let stored = &mut stored[..stored_len(t)];
    stored.copy_from_slice(parity);
    let corrected = correct(t, mask, &mut step, stored);
    out.push_slice(b"unit ")?;
    put_number(out, at)?;
    put_outcome(out, corrected)?;
    out.push_slice(b"\n")?;
    put_rows(out, &step)
}

/// The text of what is read of an input of units, each a step of 1024 bytes and its stored parity
/// for t wrong bits, from 1 to 16: for each unit, counted from 0, a line that says how many bits
/// were wrong or that it failed, and the rows of the step, as received where it failed. It takes
/// memory for the result alone.
pub fn decode_units(alloc: Global, t: u32, bytes: &[u8]) -> Result<Bytes, AllocError>
    requires strength { (0 < t) × (t ≤ 16) }
    requires whole { length bytes.now % unit_bytes t ≡ 0 }
    requires few { length bytes.now ≤ 16777216 }
    ensures { IfOk result (λ text. text ≡ decoded t bytes.now) }
{
    let mut mask = [0u8; LONGEST_PARITY];
    let mask = &mut mask[..stored_len(t)];
    mask14(t, mask);
    let mut out = Bytes::with_room(alloc, 0)?;
    let size = STEP + mask.len();
    let mut rest = bytes;
    for at in 0..bytes.len() / size {
        let (unit, later) = rest.split_at(size);
        put_unit(&mut out, t, mask, at as u64, unit)?;
        rest = later;
    }
    Ok(out)
}
