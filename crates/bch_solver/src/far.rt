// Words near which no code word lies: their locator has a root outside the word, or fewer roots
// than its degree.
ghost use Rattle.std.specs.Prelude.{◌≡◌, ◌<◌, ◌≤◌, ◌*◌, ◌^◌, ℕ, IsTrue, slice_index};
ghost use Rattle.bch_solver.specs.Words.{HasNoneNear};
ghost use Rattle.bch_solver.specs.Rows.{AllBelow};
ghost use Rattle.bch_solver.specs.Residues.{IsModulus, IsRootBeyond, LacksRoots};

use crate::correction::parity_bits;
use crate::locator::{Locator, solve};
use crate::residue::{Residue, squared_up};
use crate::search::value_of;
use crate::syndrome::syndromes;
use binary_field::{FieldProducts, power_of_x};
use u256::U256;

// Whether the locator is 0 at a power of x that belongs to no bit of a word of `count` bits.
fn has_root_beyond<F: FieldProducts>(locator: &Locator, count: usize, degree: u32) -> bool
    requires room { locator.now.degree < 17 }
    requires small_locator { AllBelow (2 ^ F.DEGREE) locator.now.coefficients }
    ensures { IsTrue result
        → IsRootBeyond F.DEGREE F.MODULUS count degree locator.now.degree locator.now.coefficients }
{
    if (degree as usize) < count || degree >= (1 << F::DEGREE) - 1 {
        return false;
    }
    value_of::<F>(locator, power_of_x::<F>(degree)) == 0
}

// Whether a residue is 1.
fn is_one(residue: &Residue) -> bool
    ensures { slice_index residue.now 0 ≡ 1
        → ((l : ℕ) → 0 < l → slice_index residue.now l ≡ 0) → IsTrue result }
{
    for l in 1..17 {
        if residue[l] != 0 {
            return false;
        }
    }
    residue[0] == 1
}

// Whether x^(2^m - 1) modulo the locator is not 1, where the field has 2^m elements: then the
// locator has fewer roots other than 0 than its degree.
fn lacks_roots<F: FieldProducts>(locator: &Locator) -> bool
    requires locator { IsModulus F.DEGREE locator.now.degree locator.now.coefficients }
    ensures { IsTrue result
        → LacksRoots F.DEGREE F.MODULUS locator.now.degree locator.now.coefficients }
{
    let mut power = [0u16; 17];
    power[0] = 1;
    for i in 0u32..F::DEGREE {
        power = squared_up::<F>(&power, locator);
    }
    !is_one(&power)
}

/// Whether no code word for `strength` errors lies within `strength` bits of a word of `count`
/// bits, by the word's remainder by the generator. True is sure; false says nothing. `degree` is a
/// guess at a root of the locator outside the word, as a power of x.
pub fn is_far<F: FieldProducts>(
    strength: u32,
    word_remainder: U256,
    count: usize,
    degree: u32,
) -> bool
    requires strength { strength ≤ 16 }
    requires below_order { count < 2 ^ F.DEGREE }
    requires small { word_remainder < 2 ^ (F.DEGREE * strength) }
    ensures { IsTrue result → HasNoneNear F.DEGREE F.MODULUS strength count word_remainder }
{
    let syndrome_count = 2 * strength as usize;
    let values = syndromes::<F>(word_remainder, parity_bits::<F>(strength), syndrome_count);
    match solve::<F>(strength as usize, &values) {
        None => true,
        Some(locator) => {
            locator.degree > 0
                && (has_root_beyond::<F>(&locator, count, degree) || lacks_roots::<F>(&locator))
        }
    }
}
