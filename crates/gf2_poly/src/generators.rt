// Minimal polynomials of powers of x, and the products of them that generate the code.
ghost use Rattle.std.specs.Prelude.{◌≡◌, ◌<◌, ◌≤◌, ◌*◌, ◌%◌, ℕ, slice_index};
ghost use Rattle.std.specs.Int.{bit_at};
ghost use Rattle.code_model.specs.Binary.{HasDegree};
ghost use Rattle.code_model.specs.Generator.{minimal_of, generator_of};
ghost use Rattle.gf2_poly.specs.Minimal.{minimal_coefficients};

use crate::poly::Poly;
use crate::tables::{GENERATORS, MINIMALS};

/// The minimal polynomial of the power j of x, for odd j up to 31: the product of X + x^(j 2^k) for
/// k from 0 to 12, whose coefficients are all 0 or 1, in the field of 2^13 elements of lib/bch. Its
/// degree is 13.
pub fn minimal(j: u32) -> Poly
    requires odd { j % 2 ≡ 1 }
    requires range { j ≤ 31 }
    ensures product { result ≡ minimal_of 13 0x201b j }
    ensures coefficients { (k : ℕ) → slice_index (minimal_coefficients 13 0x201b j) k
        ≡ bit_at result k }
    ensures degree { HasDegree 13 result }
{
    Poly::from_halves(0, u128::from(MINIMALS[(j / 2) as usize]))
}

/// The generator of the code for t errors, from 1 to 16: the product of the minimal polynomials of
/// the powers 1, 3 and so on to 2 t - 1, as in lib/bch. Its degree is 13 t.
pub fn generator(t: u32) -> Poly
    requires { (0 < t) × (t ≤ 16) }
    ensures product { result ≡ generator_of 13 0x201b t }
    ensures degree { HasDegree (13 * t) result }
{
    let halves = GENERATORS[(t - 1) as usize];
    Poly::from_halves(halves[0], halves[1])
}
