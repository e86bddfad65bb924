// The decoder, over a copy of the step and its parity.
ghost use Rattle.std.specs.Prelude.{◌≡◌, ◌<◌, ◌≤◌, ◌+◌, ◌*◌, ◌/◌, ◌++◌, ℕ, List, length, take};
ghost use Rattle.code_model.specs.Bits.{bit_of};
ghost use Rattle.code_model.specs.Code.{code_512, IsNearest, Decodes};
ghost use Rattle.bch_decode.specs.Answers.{answer_of, step_and_parity};

use bch_solver::decode_word;
use gf2_poly::generator;
use gf13::Field13;

/// What the decoder answers.
#[derive(Clone, Copy, PartialEq, Eq, Debug)]
pub enum Decoded {
    /// Step and parity hold the nearest code word; so many of their bits were wrong.
    Corrected(u32),
    /// No code word is as near as the code can correct.
    Failed,
}

// The bytes of a step and then of its parity, and zeros behind them.
fn joined(step: &[u8; 512], parity: &[u8]) -> [u8; 538]
    requires { length parity.now ≤ 26 }
    ensures { take (512 + length parity.now) result ≡ step.now ++ parity.now }
{
    let mut word = [0u8; 538];
    word[..512].copy_from_slice(step);
    word[512..512 + parity.len()].copy_from_slice(parity);
    word
}

// The bytes of a word, back in a step and its parity.
fn part(word: &[u8], step: &mut [u8; 512], parity: &mut [u8])
    requires { length word.now ≡ 512 + length parity.old }
    ensures { step.new ++ parity.new ≡ word.now }
{
    step.copy_from_slice(&word[..512]);
    parity.copy_from_slice(&word[512..]);
}

/// Decodes a step of 512 bytes in place by its parity of ⌈13 t / 8⌉ bytes, for t from 1 to 16. The
/// code is that of lib/bch. Its word has the 4096 bits of the step, the highest bit of byte 0
/// first, and then 13 t bits of the parity without the mask; the padding bits behind them are
/// neither looked at nor changed. `Corrected(n)`: a code word lies within t bits of the word; step
/// and parity now hold it, and n of their bits were wrong. `Failed`: no code word lies within t
/// bits, and both are unchanged. It takes no memory.
pub fn decode(t: u32, step: &mut [u8; 512], parity: &mut [u8]) -> Decoded
    requires strength { (0 < t) × (t ≤ 16) }
    requires room { length parity.old ≡ (13 * t + 7) / 8 }
    ensures decodes { Decodes (code_512 t) (step_and_parity t step.old parity.old)
        (answer_of result (step_and_parity t step.new parity.new)) }
    ensures finds { (c : List ℕ) (n : ℕ) →
        IsNearest (code_512 t) (step_and_parity t step.old parity.old) c n
        → (result ≡ Decoded.Corrected n) × (step_and_parity t step.new parity.new ≡ c) }
    ensures padding { (k : ℕ) → 13 * t ≤ k → bit_of parity.new k ≡ bit_of parity.old k }
    ensures unchanged { result ≡ Decoded.Failed → (step.new ≡ step.old)
        × (parity.new ≡ parity.old) }
{
    let end = 512 + parity.len();
    let mut word = joined(step, parity);
    match decode_word::<Field13>(t, generator(t).bits(), 512, &mut word[..end]) {
        None => Decoded::Failed,
        Some(wrong) => {
            part(&word[..end], step, parity);
            Decoded::Corrected(wrong)
        }
    }
}
