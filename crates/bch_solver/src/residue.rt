// Polynomials modulo a locator.
ghost use Rattle.std.specs.Prelude.{◌≡◌, ◌<◌, ◌^◌, ℕ};
ghost use Rattle.code_model.specs.Binary.{times};
ghost use Rattle.bch_solver.specs.Residues.{value_17, square_times, IsModulus, IsResidue};

use crate::locator::Locator;
use binary_field::FieldProducts;

/// A polynomial of a degree below that of a locator: coefficient l is that of x^l, and those from
/// the locator's degree on are 0.
pub type Residue = [u16; 17];

// A residue times x.
fn moved_up<F: FieldProducts>(residue: &Residue, locator: &Locator) -> Residue
    requires locator { IsModulus F.DEGREE locator.now.degree locator.now.coefficients }
    requires residue { IsResidue F.DEGREE locator.now.degree residue.now }
    ensures residue { IsResidue F.DEGREE locator.now.degree result }
    ensures value { (x : ℕ) → value_17 F.DEGREE F.MODULUS locator.now.coefficients x ≡ 0
        → value_17 F.DEGREE F.MODULUS result x
        ≡ times F.DEGREE F.MODULUS x (value_17 F.DEGREE F.MODULUS residue.now x) }
{
    let lead = residue[locator.degree - 1];
    let mut next = [0u16; 17];
    next[0] = F::product(lead, locator.coefficients[0]);
    for i in 1..locator.degree {
        next[i] = residue[i - 1] ^ F::product(lead, locator.coefficients[i]);
    }
    next
}

/// The square of a residue times x, at each root of the locator.
pub fn squared_up<F: FieldProducts>(residue: &Residue, locator: &Locator) -> Residue
    requires locator { IsModulus F.DEGREE locator.now.degree locator.now.coefficients }
    requires residue { IsResidue F.DEGREE locator.now.degree residue.now }
    ensures residue { IsResidue F.DEGREE locator.now.degree result }
    ensures value { (x : ℕ) → value_17 F.DEGREE F.MODULUS locator.now.coefficients x ≡ 0
        → let v = value_17 F.DEGREE F.MODULUS residue.now x in
        value_17 F.DEGREE F.MODULUS result x ≡ square_times F.DEGREE F.MODULUS v x }
{
    let mut sum = [0u16; 17];
    for i in 0..locator.degree {
        let coefficient = residue[locator.degree - 1 - i];
        sum = moved_up::<F>(&sum, locator);
        sum = moved_up::<F>(&sum, locator);
        sum[0] ^= F::product(coefficient, coefficient);
    }
    moved_up::<F>(&sum, locator)
}
