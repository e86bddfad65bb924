// Values of a polynomial over two elements at powers of x.
ghost use Rattle.std.specs.Prelude.{◌≡◌, ◌<◌, ◌≤◌, ◌^◌, ℕ, suc, slice_index};
ghost use Rattle.code_model.specs.Binary.{power, value_at};
ghost use Rattle.bch_solver.specs.Rows.{AllBelow};

use binary_field::FieldProducts;
use u256::U256;

// The value at x of a polynomial of degree below `degree`, where bit k is the coefficient of x^k.
fn value_of_bits<F: FieldProducts>(polynomial: U256, degree: u32, x: u16) -> u16
    requires degree { degree ≤ 256 }
    requires small { polynomial < 2 ^ degree }
    requires small_x { x < 2 ^ F.DEGREE }
    ensures value { result ≡ value_at F.DEGREE F.MODULUS x polynomial }
    ensures small { result < 2 ^ F.DEGREE }
{
    let mut sum = 0u16;
    for k in 0u32..degree {
        sum = F::product(sum, x);
        if polynomial.bit(degree - 1 - k) {
            sum ^= 1;
        }
    }
    sum
}

/// The values of a polynomial of degree below `degree`, where bit k is the coefficient of x^k, at
/// the first `count` powers of x, from x on: the syndromes of a word whose remainder it is.
pub fn syndromes<F: FieldProducts>(polynomial: U256, degree: u32, count: usize) -> [u16; 32]
    requires degree { degree ≤ 256 }
    requires small { polynomial < 2 ^ degree }
    requires few { count ≤ 32 }
    ensures small { AllBelow (2 ^ F.DEGREE) result }
    ensures values { (j : ℕ) → j < count → slice_index result j
        ≡ value_at F.DEGREE F.MODULUS (power F.DEGREE F.MODULUS 2 (suc j)) polynomial }
{
    let mut all = [0u16; 32];
    let mut power = 2u16;
    for j in 0..count {
        all[j] = value_of_bits::<F>(polynomial, degree, power);
        power = F::product(power, 2);
    }
    all
}
