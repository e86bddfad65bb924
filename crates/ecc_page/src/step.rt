// One step of 512 bytes with its stored parity.
ghost use Rattle.std.specs.Prelude.{◌≡◌, ◌<◌, ◌≤◌, ◌+◌, ◌*◌, length, slice_range, IfSome};
ghost use Rattle.code_model.specs.Code.{code_512, mask_of, parity_len};
ghost use Rattle.ecc_page.specs.Steps.{parity_stored, read_of};

use bch_decode::Decoded;
use bch_quick::{decode_in_slice, parity_of_slice, put_mask};

// Writes the stored parity of a step.
pub(crate) fn encode_step(t: u32, mask: &[u8], step: &[u8], out: &mut [u8])
    requires strength { (0 < t) × (t ≤ 16) }
    requires whole { length step.now ≡ 512 }
    requires mask { mask.now ≡ mask_of (code_512 t) }
    requires room { length out.old ≡ parity_len (code_512 t) }
    ensures { out.new ≡ parity_stored t step.now }
{
    parity_of_slice(t, step, out);
    put_mask(out, mask);
}

// Corrects a step and its stored parity, and gives the number of bits that were wrong; leaves both
// as they are where no code word is near.
pub(crate) fn decode_step(t: u32, mask: &[u8], step: &mut [u8], stored: &mut [u8]) -> Option<u32>
    requires strength { (0 < t) × (t ≤ 16) }
    requires mask { mask.now ≡ mask_of (code_512 t) }
    requires whole { length step.old ≡ 512 }
    requires room { length stored.old ≡ parity_len (code_512 t) }
    ensures body { step.new ≡ (read_of t step.old stored.old).body }
    ensures parity { stored.new ≡ (read_of t step.old stored.old).parity }
    ensures corrected { result ≡ (read_of t step.old stored.old).corrected }
    ensures few { IfSome result (λ n. n ≤ 16) }
{
    put_mask(stored, mask);
    let decoded = decode_in_slice(t, step, stored);
    put_mask(stored, mask);
    match decoded {
        Decoded::Corrected(n) => Some(n),
        Decoded::Failed => None,
    }
}
