// Fields with tables of powers and logarithms.
ghost use Rattle.std.specs.Prelude.{◌≡◌, ◌<◌, ◌≤◌, ◌*◌, ◌^◌, ℕ};
ghost use Rattle.code_model.specs.Binary.{power};

use binary_field::BinaryField;

/// A field with tables of the powers of x and of their logarithms. It has `SIZE` elements.
pub trait PowerTables: BinaryField {
    ghost SIZE: { ℕ };

    const SIZE: usize;

    ghost wide: { 2 < SIZE };

    ghost few: { SIZE ≤ 16384 };

    /// The i-th power of x.
    fn power_of(i: usize) -> u16
        requires { i < 2 * SIZE }
        ensures { result ≡ power Self.DEGREE Self.MODULUS 2 i };

    /// An exponent below `SIZE`, by the table of logarithms. That x to this exponent is the element
    /// is not claimed, and so tested where it matters.
    fn likely_logarithm(a: u16) -> usize
        ensures { result < SIZE };

    ghost size: { SIZE ≡ 2 ^ Self.BinaryField.DEGREE };
}
