// Steps followed by their stored parities.
ghost use Rattle.std.specs.Prelude.{◌≡◌, ◌<◌, ◌≤◌, ◌%◌, ◌++◌, length, IfOk, OnOk};
ghost use Rattle.code_model.specs.Code.{code_1024, mask_of, parity_len};
ghost use Rattle.code_words.specs.Units.{encoded, unit_of};

use bch_quick::put_mask;
use bch14::{mask14, parity14_of_slice};
use nand_model::Bytes;
use std::alloc::{AllocError, Global};

/// The bytes of a step.
pub(crate) const STEP: usize = 1024;

/// The most bytes of a stored parity.
pub(crate) const LONGEST_PARITY: usize = 28;

/// The bytes of a stored parity for t wrong bits.
pub(crate) fn stored_len(t: u32) -> usize
    requires { t ≤ 16 }
    ensures value { result ≡ parity_len (code_1024 t) }
    ensures small { result ≤ 28 }
{
    ((14 * t + 7) / 8) as usize
}

// Appends a step and its stored parity.
fn put_unit(out: &mut Bytes, t: u32, mask: &[u8], step: &[u8]) -> Result<(), AllocError>
    requires strength { (0 < t) × (t ≤ 16) }
    requires mask { mask.now ≡ mask_of (code_1024 t) }
    requires whole { length step.now ≡ 1024 }
    ensures { OnOk result (out.new ≡ out.old ++ unit_of t step.now) }
{
    let mut parity = [0u8; LONGEST_PARITY];
    let parity = &mut parity[..stored_len(t)];
    parity14_of_slice(t, step, parity);
    put_mask(parity, mask);
    out.push_slice(step)?;
    out.push_slice(parity)
}

/// The steps of 1024 bytes of an input, each followed by its stored parity of (14 t + 7) / 8 bytes
/// for t wrong bits, from 1 to 16. It takes memory for the result alone.
pub fn encode_units(alloc: Global, t: u32, bytes: &[u8]) -> Result<Bytes, AllocError>
    requires strength { (0 < t) × (t ≤ 16) }
    requires whole { length bytes.now % 1024 ≡ 0 }
    requires few { length bytes.now ≤ 16777216 }
    ensures { IfOk result (λ units. units ≡ encoded t bytes.now) }
{
    let mut mask = [0u8; LONGEST_PARITY];
    let mask = &mut mask[..stored_len(t)];
    mask14(t, mask);
    let count = bytes.len() / STEP;
    let mut out = Bytes::with_room(alloc, count * (STEP + mask.len()))?;
    let mut rest = bytes;
    for _ in 0..count {
        let (step, later) = rest.split_at(STEP);
        put_unit(&mut out, t, mask, step)?;
        rest = later;
    }
    Ok(out)
}
