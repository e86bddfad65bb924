// The decoding of a word: its correction by its remainder, and the last test.
ghost use Rattle.std.specs.Prelude.{◌≡◌, ◌<◌, ◌≤◌, ◌+◌, ◌*◌, ◌/◌, ◌^◌, ℕ, List, length, take, IfSome, IfNone};
ghost use Rattle.code_model.specs.Binary.{remainder, HasDegree};
ghost use Rattle.code_model.specs.Bits.{bit_of, bits_of, bits_from};
ghost use Rattle.code_model.specs.Code.{IsNearest, NoneNear};
ghost use Rattle.code_model.specs.Generator.{generator_of};
ghost use Rattle.code_model.specs.Word.{number_from, distance};
ghost use Rattle.bch_solver.specs.Words.{IsNear, code_over, word_of};

use crate::locator::solve;
use crate::search::correct;
use crate::syndrome::syndromes;
use bch_register::remainder_of_word;
use binary_field::FieldProducts;
use u256::U256;

/// The parity bits of a code for up to 16 errors: the degree of its generator.
pub fn parity_bits<F: FieldProducts>(strength: u32) -> u32
    requires { strength ≤ 16 }
    ensures value { result ≡ F.DEGREE * strength }
    ensures small { result ≤ 14 * strength }
{
    F::DEGREE * strength
}

// The remainder of a word by the generator, of `degree`.
fn remainder_of(word: &[u8], body_len: usize, generator: U256, degree: u32) -> U256
    requires degree { (0 < degree) × (degree < 256) }
    requires generator { HasDegree degree generator }
    requires room { length word.now ≡ body_len + (degree + 7) / 8 }
    ensures value { result ≡ remainder degree generator
        (number_from 0 (take (8 * body_len + degree) (bits_of word.now))) }
    ensures small { result < 2 ^ degree }
{
    remainder_of_word(&word[..body_len], &word[body_len..], generator, degree)
}

// Turns over the bits of a word of `count` bits in which a code word for `strength` errors differs,
// where one lies within `strength` bits, and says how many. Where none is so near, the word may
// become one that is no code word.
fn correct_word<F: FieldProducts>(
    strength: u32,
    word_remainder: U256,
    word: &mut [u8],
    count: usize,
) -> Option<u32>
    requires strength { strength ≤ 16 }
    requires room { count ≤ 8 * length word.old }
    requires below_order { count < 2 ^ F.DEGREE }
    requires remainder { word_remainder
        ≡ remainder (F.DEGREE * strength) (generator_of F.DEGREE F.MODULUS strength)
        (number_from 0 (bits_from word.old 0 count)) }
    ensures distance { IfSome result
        (λ n. n ≡ distance (bits_from word.old 0 count) (bits_from word.new 0 count)) }
    ensures padding { (k : ℕ) → count ≤ k → bit_of word.new k ≡ bit_of word.old k }
    ensures complete { (c : List ℕ) →
        IsNear F.DEGREE F.MODULUS strength (bits_from word.old 0 count) c
        → (result ≡ Some (distance (bits_from word.old 0 count) c))
        × (bits_from word.new 0 count ≡ c) }
{
    let syndrome_count = 2 * strength as usize;
    let values = syndromes::<F>(word_remainder, parity_bits::<F>(strength), syndrome_count);
    match solve::<F>(strength as usize, &values) {
        None => None,
        Some(locator) => Some(correct::<F>(word, count, &locator)),
    }
}

/// Decodes a word in place: a body of `body_len` bytes, and then its parity with the padding bits
/// in its last byte. Some(n): the word is the nearest code word, in which n bits were wrong, and
/// the padding is as received. None: no code word lies within `strength` bits, and the word is left
/// as it may be.
pub fn decode_word<F: FieldProducts>(
    strength: u32,
    generator: U256,
    body_len: usize,
    word: &mut [u8],
) -> Option<u32>
    requires strength { (0 < strength) × (strength ≤ 16) }
    requires generator { generator ≡ generator_of F.DEGREE F.MODULUS strength }
    requires room { length word.old ≡ body_len + (F.DEGREE * strength + 7) / 8 }
    requires below_order { 8 * body_len + F.DEGREE * strength < 2 ^ F.DEGREE }
    ensures corrected { let code = code_over F.DEGREE F.MODULUS strength body_len in
        IfSome result (IsNearest code (word_of code word.old) (word_of code word.new)) }
    ensures none { let code = code_over F.DEGREE F.MODULUS strength body_len in
        IfNone result (NoneNear code (word_of code word.old)) }
    ensures complete { let code = code_over F.DEGREE F.MODULUS strength body_len in
        (c : List ℕ) (d : ℕ) → IsNearest code (word_of code word.old) c d
        → (result ≡ Some d) × (word_of code word.new ≡ c) }
    ensures padding { (k : ℕ) → 8 * body_len + F.DEGREE * strength ≤ k
        → bit_of word.new k ≡ bit_of word.old k }
{
    let degree = parity_bits::<F>(strength);
    let word_remainder = remainder_of(word, body_len, generator, degree);
    if word_remainder.is_zero() {
        return Some(0);
    }
    let count = 8 * body_len + degree as usize;
    match correct_word::<F>(strength, word_remainder, word, count) {
        None => None,
        Some(flips) => {
            if flips <= strength && remainder_of(word, body_len, generator, degree).is_zero() {
                Some(flips)
            } else {
                None
            }
        }
    }
}
