// Codes over steps, with their tables.
ghost use Rattle.std.specs.Prelude.{◌≡◌, ◌<◌, ◌≤◌, ◌+◌, ◌*◌, ◌%◌, ◌^◌, ℕ};
ghost use Rattle.code_model.specs.Generator.{generator_of};
ghost use Rattle.bch_tables.specs.Rows.{aligned, AreRows, AreWideRows};

use crate::powers::PowerTables;
use binary_field::FieldProducts;
use std::simd::prelude::*;
use u256::U256;

/// A code over steps of `STEP` bytes, for 1 to 16 wrong bits, with its tables.
pub trait StepCode: PowerTables + FieldProducts {
    ghost STEP: { ℕ };

    const STEP: usize;

    ghost fours: { STEP % 4 ≡ 0 };

    ghost whole: { STEP ≤ 1024 };

    /// The generator for t wrong bits.
    fn generator(t: u32) -> U256
        requires { (0 < t) × (t ≤ 16) }
        ensures { result ≡ generator_of Self.DEGREE Self.MODULUS t };

    /// The remainders of bytes, moved up by 64, 72, 80 and 88 places, by the generator for t wrong
    /// bits moved up to degree 64.
    fn narrow_rows(t: u32) -> &'static [[u64; 256]; 4]
        requires { (0 < t) × (t ≤ 4) }
        ensures { AreRows 64 (aligned Self.DEGREE Self.MODULUS 64 t) result.now };

    /// The remainders of bytes, moved up by 128, 136, 144 and 152 places, by the generator for t
    /// wrong bits moved up to degree 128.
    fn middle_rows(t: u32) -> &'static [[u128; 256]; 4]
        requires { (5 ≤ t) × (t ≤ 9) }
        ensures { AreRows 128 (aligned Self.DEGREE Self.MODULUS 128 t) result.now };

    /// The remainders of bytes, moved up by 256, 264, 272 and 280 places, by the generator for t
    /// wrong bits moved up to degree 256, in two halves.
    fn wide_rows(t: u32) -> &'static [[[u128; 2]; 256]; 4]
        requires { (10 ≤ t) × (t ≤ 16) }
        ensures { AreWideRows 256 (aligned Self.DEGREE Self.MODULUS 256 t) result.now };

    /// The k-th powers of x, x^3, x^5 and so on to x^31. That they are is not claimed.
    fn odd_powers(k: usize) -> [u16; 16]
        requires { k < 16 * Self.DEGREE };

    /// Sixteen elements times x^j, where j is at most 9. That they are is not claimed.
    fn moved_lanes(lanes: u16x16, j: u16) -> u16x16
        requires { j ≤ 9 };

    ghost short: { 8 * STEP + 16 * Self.BinaryField.DEGREE < 2 ^ Self.BinaryField.DEGREE };
}
