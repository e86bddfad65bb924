// The encoder, the decoder and the mask.
ghost use Rattle.std.specs.Prelude.{◌≡◌, ◌<◌, ◌≤◌, ◌+◌, ◌*◌, ◌-◌, ◌/◌, ◌++◌, ℕ, List, length, take, drop, replicate};
ghost use Rattle.code_model.specs.Bits.{bit_of, bits_of};
ghost use Rattle.code_model.specs.Code.{code_1024, mask_of, parity_len, parity_of, IsCodeWord, IsNearest, Decodes};
ghost use Rattle.bch_decode.specs.Answers.{answer_of, joined_word};

use bch_decode::Decoded;
use bch_quick::{decode_step, put_mask, write_parity};
use gf14_tables::Steps1024;

/// Writes the parity of a step of 1024 bytes into (14 t + 7) / 8 bytes, for t from 1 to 16: as
/// `parity14` does, of bytes that are lent.
pub fn parity14_of_slice(t: u32, body: &[u8], out: &mut [u8])
    requires strength { (0 < t) × (t ≤ 16) }
    requires whole { length body.now ≡ 1024 }
    requires room { length out.old ≡ parity_len (code_1024 t) }
    ensures { out.new ≡ parity_of (code_1024 t) body.now }
{
    write_parity::<Steps1024>(t, body, out);
}

/// Writes the parity of a step for the code that corrects t wrong bits, from 1 to 16: (14 t + 7) / 8
/// bytes, the highest coefficient first, with 0 in the padding bits of the last byte and no mask put
/// on. The step's bits followed by the 14 t parity bits are a code word, and no other parity bits
/// make one. Code and order of bits are those of lib/bch with m = 14.
pub fn parity14(t: u32, step: &[u8; 1024], out: &mut [u8])
    requires strength { (0 < t) × (t ≤ 16) }
    requires room { length out.old ≡ parity_len (code_1024 t) }
    ensures parity { out.new ≡ parity_of (code_1024 t) step.now }
    ensures completes { IsCodeWord (code_1024 t)
        (bits_of step.now ++ take (14 * t) (bits_of out.new)) }
    ensures only { (bits : List ℕ) → length bits ≡ 14 * t
        → IsCodeWord (code_1024 t) (bits_of step.now ++ bits)
        → bits ≡ take (14 * t) (bits_of out.new) }
    ensures padding { drop (14 * t) (bits_of out.new)
        ≡ replicate (8 * parity_len (code_1024 t) - 14 * t) 0 }
{
    parity14_of_slice(t, step, out);
}

/// Decodes a step of 1024 bytes in place by its parity of (14 t + 7) / 8 bytes, for t from 1 to 16:
/// as `decode14` does, of bytes that are lent.
pub fn decode14_in_slice(t: u32, step: &mut [u8], parity: &mut [u8]) -> Decoded
    requires strength { (0 < t) × (t ≤ 16) }
    requires whole { length step.old ≡ 1024 }
    requires room { length parity.old ≡ (14 * t + 7) / 8 }
    ensures decodes { Decodes (code_1024 t) (joined_word (code_1024 t) step.old parity.old)
        (answer_of result (joined_word (code_1024 t) step.new parity.new)) }
    ensures finds { (c : List ℕ) (n : ℕ)
        → IsNearest (code_1024 t) (joined_word (code_1024 t) step.old parity.old) c n
        → (result ≡ Decoded.Corrected n) × (joined_word (code_1024 t) step.new parity.new ≡ c) }
    ensures padding { (k : ℕ) → 14 * t ≤ k → bit_of parity.new k ≡ bit_of parity.old k }
    ensures unchanged { result ≡ Decoded.Failed
        → (step.new ≡ step.old) × (parity.new ≡ parity.old) }
{
    decode_step::<Steps1024>(t, step, parity)
}

/// Decodes a step of 1024 bytes in place by its parity of (14 t + 7) / 8 bytes, for t from 1 to 16.
/// Its word has the 8192 bits of the step, the highest bit of byte 0 first, and then 14 t bits of
/// the parity without the mask; the padding bits behind them are neither looked at nor changed.
/// `Corrected(n)`: a code word lies within t bits of the word; step and parity now hold it, and n of
/// their bits were wrong. `Failed`: no code word lies within t bits, and both are unchanged.
pub fn decode14(t: u32, step: &mut [u8; 1024], parity: &mut [u8]) -> Decoded
    requires strength { (0 < t) × (t ≤ 16) }
    requires room { length parity.old ≡ (14 * t + 7) / 8 }
    ensures decodes { Decodes (code_1024 t) (joined_word (code_1024 t) step.old parity.old)
        (answer_of result (joined_word (code_1024 t) step.new parity.new)) }
    ensures finds { (c : List ℕ) (n : ℕ)
        → IsNearest (code_1024 t) (joined_word (code_1024 t) step.old parity.old) c n
        → (result ≡ Decoded.Corrected n) × (joined_word (code_1024 t) step.new parity.new ≡ c) }
    ensures padding { (k : ℕ) → 14 * t ≤ k → bit_of parity.new k ≡ bit_of parity.old k }
    ensures unchanged { result ≡ Decoded.Failed
        → (step.new ≡ step.old) × (parity.new ≡ parity.old) }
{
    decode14_in_slice(t, step, parity)
}

/// Writes the mask over stored parities into (14 t + 7) / 8 bytes, for t from 1 to 16: the
/// complement, padding bits too, of the parity of 1024 bytes 0xFF.
pub fn mask14(t: u32, out: &mut [u8])
    requires strength { (0 < t) × (t ≤ 16) }
    requires room { length out.old ≡ parity_len (code_1024 t) }
    ensures { out.new ≡ mask_of (code_1024 t) }
{
    let ones = [0xffu8; 1024];
    parity14_of_slice(t, &ones, out);
    put_mask(out, &ones[..out.len()]);
}
