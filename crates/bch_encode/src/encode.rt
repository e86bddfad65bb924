// The plain encoder: the step divided by the generator, bit by bit.
ghost use Rattle.std.specs.Prelude.{◌≡◌, ◌<◌, ◌≤◌, ◌*◌, ◌-◌, ◌++◌, ℕ, List, length, take, drop, replicate};
ghost use Rattle.code_model.specs.Bits.{bits_of};
ghost use Rattle.code_model.specs.Code.{code_512, parity_len, parity_of, IsCodeWord};

use bch_register::put_parity;
use gf2_poly::generator;

/// Writes the parity of a step for a code that corrects t wrong bits, from 1 to 16: (13 t + 7) / 8
/// bytes, the highest coefficient first, with 0 in the padding bits of the last byte and no mask
/// put on. The step's bits followed by the 13 t parity bits are a code word, and no other parity
/// bits make one. The code, and the order of its bits, is that of lib/bch.
pub fn parity(t: u32, step: &[u8; 512], out: &mut [u8])
    requires strength { (0 < t) × (t ≤ 16) }
    requires room { length out.old ≡ parity_len (code_512 t) }
    ensures parity { out.new ≡ parity_of (code_512 t) step.now }
    ensures completes { IsCodeWord (code_512 t)
        (bits_of step.now ++ take (13 * t) (bits_of out.new)) }
    ensures only { (bits : List ℕ) → length bits ≡ 13 * t →
        IsCodeWord (code_512 t) (bits_of step.now ++ bits)
        → bits ≡ take (13 * t) (bits_of out.new) }
    ensures padding { drop (13 * t) (bits_of out.new)
        ≡ replicate (8 * parity_len (code_512 t) - 13 * t) 0 }
{
    let generator = generator(t);
    put_parity(step, generator.bits(), 13 * t, out);
}
