// Laws of minimal polynomials and generators, over every field of 2^m elements whose modulus f is
// primitive.
ghost use Rattle.std.specs.Prelude.{◌≡◌, ◌<◌, ◌≤◌, ◌*◌, ℕ};
ghost use Rattle.code_model.specs.Binary.{product, power, value_at, HasDegree, IsPrimitive};
ghost use Rattle.code_model.specs.Generator.{generator_of};
ghost use Rattle.code_model.specs.Word.{AreBits};
ghost use Rattle.gf2_poly.specs.Minimal.{minimal_coefficients};

/// A law: the coefficients of each minimal polynomial, as elements of the field, are 0 or 1.
pub fn minimal_coefficients_are_bits()
    ensures { (m f j : ℕ) → IsPrimitive m f → AreBits (minimal_coefficients m f j) }
{}

/// A law: the generator for t errors has degree m t.
pub fn generator_degree()
    ensures { (m f t : ℕ) → IsPrimitive m f → HasDegree (m * t) (generator_of m f t) }
{}

/// A law: a multiple of the generator for t errors is 0 at the powers 1 to 2 t of x, at odd ones by
/// its factors and at even ones by squaring.
pub fn generator_roots()
    ensures { (m f t j q : ℕ) → IsPrimitive m f → 0 < j → j ≤ 2 * t
        → value_at m f (power m f 2 j) (product q (generator_of m f t)) ≡ 0 }
{}
