// Words that no guess puts right: a proof by the locator that no code word is near, or a search,
// with products by tables.
ghost use Rattle.std.specs.Prelude.{◌≡◌, ◌<◌, ◌≤◌, ◌+◌, ◌*◌, ◌/◌, ◌++◌, ℕ, List, length, take, IsTrue};
ghost use Rattle.code_model.specs.Bits.{bit_of};
ghost use Rattle.code_model.specs.Code.{IsNearest, NoneNear, Decodes};
ghost use Rattle.bch_decode.specs.Answers.{answer_of, joined_word};
ghost use Rattle.bch_solver.specs.Words.{code_over};

use crate::copies::{joined, part};
use crate::register::remainder_quick;
use bch_decode::Decoded;
use bch_solver::{decode_word, is_far, parity_bits};
use bch_tables::StepCode;

// Decodes a step in place by its parity, by the search of `bch_solver`.
fn decode_searched<C: StepCode>(t: u32, step: &mut [u8], parity: &mut [u8]) -> Decoded
    requires strength { (0 < t) × (t ≤ 16) }
    requires whole { length step.old ≡ C.STEP }
    requires room { length parity.old ≡ (C.DEGREE * t + 7) / 8 }
    ensures decodes { let code = code_over C.DEGREE C.MODULUS t C.STEP in
        Decodes code (joined_word code step.old parity.old)
        (answer_of result (joined_word code step.new parity.new)) }
    ensures finds { let code = code_over C.DEGREE C.MODULUS t C.STEP in (c : List ℕ) (n : ℕ)
        → IsNearest code (joined_word code step.old parity.old) c n
        → (result ≡ Decoded.Corrected n) × (joined_word code step.new parity.new ≡ c) }
    ensures padding { (k : ℕ) → C.DEGREE * t ≤ k → bit_of parity.new k ≡ bit_of parity.old k }
    ensures unchanged { result ≡ Decoded.Failed
        → (step.new ≡ step.old) × (parity.new ≡ parity.old) }
{
    let end = step.len() + parity.len();
    let mut word = joined(step, parity);
    match decode_word::<C>(t, C::generator(t), C::STEP, &mut word[..end]) {
        None => Decoded::Failed,
        Some(wrong) => {
            part(&word[..end], step, parity);
            Decoded::Corrected(wrong)
        }
    }
}

// Whether no code word is near, by the locator of the wrong bits. True is sure. `degree` is a guess
// at a root of the locator outside the word.
fn is_word_far<C: StepCode>(t: u32, step: &[u8], parity: &[u8], degree: u32) -> bool
    requires strength { (0 < t) × (t ≤ 16) }
    requires whole { length step.now ≡ C.STEP }
    requires room { length parity.now ≡ (C.DEGREE * t + 7) / 8 }
    ensures { let code = code_over C.DEGREE C.MODULUS t C.STEP in
        IsTrue result → NoneNear code (joined_word code step.now parity.now) }
{
    let count = 8 * C::STEP + parity_bits::<C>(t) as usize;
    is_far::<C>(t, remainder_quick::<C>(t, step, parity), count, degree)
}

/// Decodes a step in place by its parity where no guess was right. `degree` is a guess at a root of
/// the locator outside the word.
pub(crate) fn decode_unguessed<C: StepCode>(
    t: u32,
    step: &mut [u8],
    parity: &mut [u8],
    degree: u32,
) -> Decoded
    requires strength { (0 < t) × (t ≤ 16) }
    requires whole { length step.old ≡ C.STEP }
    requires room { length parity.old ≡ (C.DEGREE * t + 7) / 8 }
    ensures decodes { let code = code_over C.DEGREE C.MODULUS t C.STEP in
        Decodes code (joined_word code step.old parity.old)
        (answer_of result (joined_word code step.new parity.new)) }
    ensures finds { let code = code_over C.DEGREE C.MODULUS t C.STEP in (c : List ℕ) (n : ℕ)
        → IsNearest code (joined_word code step.old parity.old) c n
        → (result ≡ Decoded.Corrected n) × (joined_word code step.new parity.new ≡ c) }
    ensures padding { (k : ℕ) → C.DEGREE * t ≤ k → bit_of parity.new k ≡ bit_of parity.old k }
    ensures unchanged { result ≡ Decoded.Failed
        → (step.new ≡ step.old) × (parity.new ≡ parity.old) }
{
    if is_word_far::<C>(t, step, parity, degree) {
        Decoded::Failed
    } else {
        decode_searched::<C>(t, step, parity)
    }
}
