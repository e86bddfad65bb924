// A word in one run of bytes: those of a step, and then its parity.
ghost use Rattle.std.specs.Prelude.{◌≡◌, ◌≢◌, ◌<◌, ◌≤◌, ◌*◌, ◌+◌, ◌-◌, ◌/◌, ℕ, length, IsTrue, IfOk};
ghost use Rattle.code_model.specs.Bits.{bit_of, bits_from};
ghost use Rattle.code_model.specs.Code.{IsCodeWord, IsNearest};
ghost use Rattle.code_model.specs.Word.{distance};
ghost use Rattle.bch_decode.specs.Answers.{joined_word};
ghost use Rattle.bch_solver.specs.Words.{code_over, word_of};

use crate::encoder::write_parity;
use bch_guess::likely_places;
use bch_solver::parity_bits;
use bch_tables::StepCode;

// Whether two parities are the same but for the last bits.
fn is_same(own: &[u8], parity: &[u8], padding: u32) -> bool
    requires long { length own.now ≡ length parity.now }
    requires some { 0 < length parity.now }
    requires padding { padding < 8 }
    ensures { IsTrue result
        → (k : ℕ) → k + padding < 8 * length parity.now → bit_of own.now k ≡ bit_of parity.now k }
{
    let last = parity.len() - 1;
    for i in 0..last {
        if own[i] != parity[i] {
            return false;
        }
    }
    own[last] >> padding == parity[last] >> padding
}

/// Writes the parity of a step, and tells whether it is this one.
pub(crate) fn has_parity<C: StepCode>(t: u32, step: &[u8], parity: &[u8], own: &mut [u8]) -> bool
    requires strength { (0 < t) × (t ≤ 16) }
    requires whole { length step.now ≡ C.STEP }
    requires parity { length parity.now ≡ (C.DEGREE * t + 7) / 8 }
    requires room { length own.old ≡ (C.DEGREE * t + 7) / 8 }
    ensures { let code = code_over C.DEGREE C.MODULUS t C.STEP in
        IsTrue result → IsCodeWord code (joined_word code step.now parity.now) }
{
    write_parity::<C>(t, step, own);
    is_same(own, parity, 8 * parity.len() as u32 - parity_bits::<C>(t))
}

// Writes the parity of a word's step, and tells whether the word has it.
fn is_code_word<C: StepCode>(t: u32, word: &[u8], own: &mut [u8]) -> bool
    requires strength { (0 < t) × (t ≤ 16) }
    requires whole { length word.now ≡ C.STEP + (C.DEGREE * t + 7) / 8 }
    requires room { length own.old ≡ (C.DEGREE * t + 7) / 8 }
    ensures { let code = code_over C.DEGREE C.MODULUS t C.STEP in
        IsTrue result → IsCodeWord code (word_of code word.now) }
{
    has_parity::<C>(t, &word[..C::STEP], &word[C::STEP..], own)
}

// Turns one bit over.
fn flip(bytes: &mut [u8], place: usize)
    requires { place < 8 * length bytes.old }
    ensures turned { bit_of bytes.new place ≡ 1 - bit_of bytes.old place }
    ensures others { (k : ℕ) → k ≢ place → bit_of bytes.new k ≡ bit_of bytes.old k }
{
    bytes[place / 8] ^= 128u8 >> (place % 8);
}

// Turns over the bits of these degrees among the first `count` bits, the last of which has the
// degree 0, and tells whether the degrees were below `count` and rose.
fn turn_over(bytes: &mut [u8], count: usize, degrees: &[u16]) -> bool
    requires room { count ≤ 8 * length bytes.old }
    ensures distance { IsTrue result
        → length degrees.now ≡ distance (bits_from bytes.old 0 count)
        (bits_from bytes.new 0 count) }
    ensures padding { (k : ℕ) → count ≤ k → bit_of bytes.new k ≡ bit_of bytes.old k }
{
    let mut seen = 0usize;
    for degree in degrees {
        let degree = *degree as usize;
        if degree < seen || degree >= count {
            return false;
        }
        flip(bytes, count - 1 - degree);
        seen = degree + 1;
    }
    true
}

// Turns over the bits of these degrees, and tests the word that comes out.
fn is_put_right<C: StepCode>(t: u32, word: &mut [u8], degrees: &[u16], own: &mut [u8]) -> bool
    requires strength { (0 < t) × (t ≤ 16) }
    requires whole { length word.old ≡ C.STEP + (C.DEGREE * t + 7) / 8 }
    requires few { length degrees.now ≤ t }
    requires room { length own.old ≡ (C.DEGREE * t + 7) / 8 }
    ensures nearest { let code = code_over C.DEGREE C.MODULUS t C.STEP in
        IsTrue result
        → IsNearest code (word_of code word.old) (word_of code word.new) (length degrees.now) }
    ensures padding { (k : ℕ) → 8 * C.STEP + C.DEGREE * t ≤ k → bit_of word.new k ≡ bit_of word.old k }
{
    let count = 8 * C::STEP + parity_bits::<C>(t) as usize;
    turn_over(word, count, degrees) && is_code_word::<C>(t, word, own)
}

// What is left of a word by its own parity, in place of that parity: 0 in the padding bits.
fn take_off(own: &mut [u8], parity: &[u8], padding: u32)
    requires long { length own.old ≡ length parity.now }
    requires some { 0 < length parity.now }
    requires padding { padding < 8 }
{
    for i in 0..own.len() {
        own[i] ^= parity[i];
    }
    let last = own.len() - 1;
    own[last] = (own[last] >> padding) << padding;
}

/// Decodes a word in place where a guess of its wrong bits is right, by the parity of its own step.
/// Ok(n): the word is the nearest code word, in which n bits were wrong, and the padding is as
/// received. Err: nothing is known, and the word is left as it may be; the number is the greatest
/// degree of the guess, which may lie outside the word, or 0.
pub(crate) fn decode_guessed<C: StepCode>(
    t: u32,
    word: &mut [u8],
    own: &mut [u8],
) -> Result<u32, u32>
    requires strength { (0 < t) × (t ≤ 16) }
    requires whole { length word.old ≡ C.STEP + (C.DEGREE * t + 7) / 8 }
    requires room { length own.old ≡ (C.DEGREE * t + 7) / 8 }
    ensures nearest { let code = code_over C.DEGREE C.MODULUS t C.STEP in
        IfOk result (IsNearest code (word_of code word.old) (word_of code word.new)) }
    ensures padding { (k : ℕ) → 8 * C.STEP + C.DEGREE * t ≤ k → bit_of word.new k ≡ bit_of word.old k }
{
    let degree = parity_bits::<C>(t);
    take_off(own, &word[C::STEP..], 8 * own.len() as u32 - degree);
    match likely_places::<C>(t, 8 * C::STEP + degree as usize, own) {
        None => Err(0),
        Some(found) => {
            if found.count > t as usize || found.count == 0 {
                return Err(0);
            }
            if is_put_right::<C>(t, word, &found.places[..found.count], own) {
                Ok(found.count as u32)
            } else {
                Err(u32::from(found.places[found.count - 1]))
            }
        }
    }
}
