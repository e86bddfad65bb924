// The code and what its tables hold.
ghost use Rattle.std.specs.Prelude.{◌≡◌};
ghost use Rattle.code_model.proofs.Instances.{primitive_13};
ghost use Rattle.std.proofs.Common.{refl};

use crate::powers::{LOGARITHMS, ODD_POWERS, POWERS};
use crate::rows::{MIDDLE, NARROW, WIDE};
use bch_tables::{PowerTables, StepCode, inverse_by_tables, product_by_tables};
use binary_field::{BinaryField, FieldProducts};
use std::simd::prelude::*;
use u256::U256;

/// The code over steps of 512 bytes, and its field of 2^13 elements.
pub struct Steps512;

impl BinaryField for Steps512 {
    ghost DEGREE = { 13 };

    ghost MODULUS = { 0x201b };

    const DEGREE: u32 = 13;

    const MODULUS: u16 = 0x201b;

    ghost primitive = { primitive_13 };

    ghost use Rattle.std.proofs.Common.{lit≤};

    ghost small = { lit≤ tt };
}

impl PowerTables for Steps512 {
    ghost SIZE = { 8192 };

    const SIZE: usize = 8192;

    ghost use Rattle.std.proofs.Common.{lit<, lit≤};

    ghost wide = { lit< tt };

    ghost few = { lit≤ tt };

    #[inline(always)]
    fn power_of(i: usize) -> u16 {
        POWERS[i]
    }

    #[inline(always)]
    fn likely_logarithm(a: u16) -> usize {
        (LOGARITHMS[(a & 8191) as usize] & 8191) as usize
    }

    ghost size = { refl };
}

impl FieldProducts for Steps512 {
    fn product(a: u16, b: u16) -> u16 {
        product_by_tables::<Steps512>(a, b)
    }

    fn inverse(a: u16) -> u16 {
        inverse_by_tables::<Steps512>(a)
    }
}

impl StepCode for Steps512 {
    ghost STEP = { 512 };

    const STEP: usize = 512;

    ghost use Rattle.std.proofs.Common.{lit<, lit≤};

    ghost fours = { refl };

    ghost whole = { lit≤ tt };

    fn generator(t: u32) -> U256 {
        gf2_poly::generator(t).bits()
    }

    #[inline(always)]
    fn narrow_rows(t: u32) -> &'static [[u64; 256]; 4] {
        &NARROW[(t - 1) as usize]
    }

    #[inline(always)]
    fn middle_rows(t: u32) -> &'static [[u128; 256]; 4] {
        &MIDDLE[(t - 5) as usize]
    }

    #[inline(always)]
    fn wide_rows(t: u32) -> &'static [[[u128; 2]; 256]; 4] {
        &WIDE[(t - 10) as usize]
    }

    #[inline(always)]
    fn odd_powers(k: usize) -> [u16; 16] {
        ODD_POWERS[k]
    }

    // The j high bits come down times x^4 + x^3 + x + 1, which is (x + 1)(x^3 + 1).
    #[inline(always)]
    fn moved_lanes(lanes: u16x16, j: u16) -> u16x16 {
        let high = lanes >> u16x16::splat(13 - j);
        let low = (lanes << u16x16::splat(j)) & u16x16::splat(8191);
        let twice = high ^ (high << u16x16::splat(1));
        low ^ twice ^ (twice << u16x16::splat(3))
    }

    ghost short = { lit< tt };
}
