// The search for the places of wrong bits: the roots of the error locator.
ghost use Rattle.std.specs.Prelude.{◌≡◌, ◌≢◌, ◌<◌, ◌≤◌, ◌*◌, ◌-◌, ◌^◌, ℕ, suc, length};
ghost use Rattle.code_model.specs.Binary.{times, power};
ghost use Rattle.code_model.specs.Bits.{bit_of, bits_from};
ghost use Rattle.code_model.specs.Poly.{value};
ghost use Rattle.code_model.specs.Word.{distance};
ghost use Rattle.bch_solver.specs.Words.{TurnsAtZero};
ghost use Rattle.bch_solver.specs.Rows.{AllBelow, polynomial_of};

use crate::locator::Locator;
use binary_field::FieldProducts;

// The value of a polynomial at x.
pub(crate) fn value_of<F: FieldProducts>(locator: &Locator, x: u16) -> u16
    requires room { locator.now.degree < 17 }
    requires small_x { x < 2 ^ F.DEGREE }
    requires small_locator { AllBelow (2 ^ F.DEGREE) locator.now.coefficients }
    ensures value { result ≡ value (times F.DEGREE F.MODULUS)
        (polynomial_of locator.now.coefficients locator.now.degree) x }
    ensures small { result < 2 ^ F.DEGREE }
{
    let mut sum = 0u16;
    for i in 0..locator.degree + 1 {
        sum = locator.coefficients[locator.degree - i] ^ F::product(x, sum);
    }
    sum
}

// Turns one bit over.
fn flip(bytes: &mut [u8], place: usize)
    requires { place < 8 * length bytes.old }
    ensures turned { bit_of bytes.new place ≡ 1 - bit_of bytes.old place }
    ensures others { (k : ℕ) → k ≢ place → bit_of bytes.new k ≡ bit_of bytes.old k }
{
    bytes[place / 8] ^= 128u8 >> (place % 8);
}

/// Turns over each of the first `count` bits at whose power of x the locator is 0, and says how
/// many. The last of these bits has the power 0.
pub fn correct<F: FieldProducts>(bytes: &mut [u8], count: usize, locator: &Locator) -> u32
    requires room { count ≤ 8 * length bytes.old }
    requires below_order { count < 2 ^ F.DEGREE }
    requires small_degree { locator.now.degree < 17 }
    requires small_locator { AllBelow (2 ^ F.DEGREE) locator.now.coefficients }
    ensures turned { (k : ℕ) → k < count → TurnsAtZero
        (value (times F.DEGREE F.MODULUS)
        (polynomial_of locator.now.coefficients locator.now.degree)
        (power F.DEGREE F.MODULUS 2 (count - suc k)))
        (bit_of bytes.old k) (bit_of bytes.new k) }
    ensures padding { (k : ℕ) → count ≤ k → bit_of bytes.new k ≡ bit_of bytes.old k }
    ensures number { result ≡ distance (bits_from bytes.old 0 count) (bits_from bytes.new 0 count) }
{
    let mut power = 1u16;
    let mut flips = 0u32;
    for k in 0..count {
        if value_of::<F>(locator, power) == 0 {
            flip(bytes, count - 1 - k);
            flips += 1;
        }
        power = F::product(power, 2);
    }
    flips
}
