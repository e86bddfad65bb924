// The code over steps of 512 bytes.
ghost use Rattle.std.specs.Prelude.{◌≡◌, ◌<◌, ◌≤◌, ◌+◌, ◌*◌, ◌-◌, ◌/◌, ◌++◌, ℕ, List, length, take, drop, replicate};
ghost use Rattle.code_model.specs.Bits.{bit_of, bits_of};
ghost use Rattle.code_model.specs.Code.{code_512, parity_len, parity_of, IsCodeWord, IsNearest, Decodes};
ghost use Rattle.bch_decode.specs.Answers.{answer_of, step_and_parity};

use crate::decoder::decode_step;
use crate::encoder::write_parity;
use bch_decode::Decoded;
use gf13_tables::Steps512;

/// Writes the parity of a step of 512 bytes into (13 t + 7) / 8 bytes, for t from 1 to 16: as
/// `parity_quick` does, of bytes that are lent.
pub fn parity_of_slice(t: u32, body: &[u8], out: &mut [u8])
    requires strength { (0 < t) × (t ≤ 16) }
    requires whole { length body.now ≡ 512 }
    requires room { length out.old ≡ parity_len (code_512 t) }
    ensures { out.new ≡ parity_of (code_512 t) body.now }
{
    write_parity::<Steps512>(t, body, out);
}

/// Writes the parity of a step, as `bch_encode::parity` does, four bytes at a time by tables of
/// remainders.
pub fn parity_quick(t: u32, step: &[u8; 512], out: &mut [u8])
    requires strength { (0 < t) × (t ≤ 16) }
    requires room { length out.old ≡ parity_len (code_512 t) }
    ensures parity { out.new ≡ parity_of (code_512 t) step.now }
    ensures completes { IsCodeWord (code_512 t)
        (bits_of step.now ++ take (13 * t) (bits_of out.new)) }
    ensures only { (bits : List ℕ) → length bits ≡ 13 * t
        → IsCodeWord (code_512 t) (bits_of step.now ++ bits)
        → bits ≡ take (13 * t) (bits_of out.new) }
    ensures padding { drop (13 * t) (bits_of out.new)
        ≡ replicate (8 * parity_len (code_512 t) - 13 * t) 0 }
{
    parity_of_slice(t, step, out);
}

/// Decodes a step of 512 bytes in place by its parity of (13 t + 7) / 8 bytes, for t from 1 to 16:
/// as `decode_quick` does, of bytes that are lent.
pub fn decode_in_slice(t: u32, step: &mut [u8], parity: &mut [u8]) -> Decoded
    requires strength { (0 < t) × (t ≤ 16) }
    requires whole { length step.old ≡ 512 }
    requires room { length parity.old ≡ (13 * t + 7) / 8 }
    ensures decodes { Decodes (code_512 t) (step_and_parity t step.old parity.old)
        (answer_of result (step_and_parity t step.new parity.new)) }
    ensures finds { (c : List ℕ) (n : ℕ)
        → IsNearest (code_512 t) (step_and_parity t step.old parity.old) c n
        → (result ≡ Decoded.Corrected n) × (step_and_parity t step.new parity.new ≡ c) }
    ensures padding { (k : ℕ) → 13 * t ≤ k → bit_of parity.new k ≡ bit_of parity.old k }
    ensures unchanged { result ≡ Decoded.Failed
        → (step.new ≡ step.old) × (parity.new ≡ parity.old) }
{
    decode_step::<Steps512>(t, step, parity)
}

/// Decodes a step in place by its parity, as `bch_decode::decode` does. A step with wrong bits is
/// put right by a guess, which is tested. Where the guess is wrong, as it is where no code word is
/// near, the locator tells that no code word is near, or else a search answers.
pub fn decode_quick(t: u32, step: &mut [u8; 512], parity: &mut [u8]) -> Decoded
    requires strength { (0 < t) × (t ≤ 16) }
    requires room { length parity.old ≡ (13 * t + 7) / 8 }
    ensures decodes { Decodes (code_512 t) (step_and_parity t step.old parity.old)
        (answer_of result (step_and_parity t step.new parity.new)) }
    ensures finds { (c : List ℕ) (n : ℕ)
        → IsNearest (code_512 t) (step_and_parity t step.old parity.old) c n
        → (result ≡ Decoded.Corrected n) × (step_and_parity t step.new parity.new ≡ c) }
    ensures padding { (k : ℕ) → 13 * t ≤ k → bit_of parity.new k ≡ bit_of parity.old k }
    ensures unchanged { result ≡ Decoded.Failed
        → (step.new ≡ step.old) × (parity.new ≡ parity.old) }
{
    decode_in_slice(t, step, parity)
}
