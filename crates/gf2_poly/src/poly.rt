// Polynomials over two elements.
ghost use Rattle.std.specs.Prelude.{◌≡◌, ◌≢◌, ◌<◌, ◌≤◌, ◌*◌, ◌+◌, ◌-◌, ◌/◌, ◌%◌, ◌^◌, ℕ, ◌↔◌, IsTrue, IsNone, IfSome, bit_xor, if◌then◌else◌};
ghost use Rattle.std.specs.Int.{bit_at};
ghost use Rattle.code_model.specs.Binary.{product, reduced, remainder, HasDegree};
ghost use Rattle.gf2_poly.specs.Division.{IsRemainder};
ghost use Rattle.gf2_poly.specs.Degree.{DegreeSumAtMost};

use std::marker::Model;
use u256::U256;

/// A polynomial over two elements of degree up to 255. As a number, bit k is the coefficient of
/// x^k.
#[derive(Clone, Copy, PartialEq, Eq, Debug)]
pub struct Poly {
    bits: U256,
}

impl Model for Poly {
    ghost use Rattle.std.specs.Prelude.{◌<◌, ◌^◌, ℕ};

    ghost Value = { ℕ };

    ghost view = { λ p. p.bits };

    ghost invariant = { λ p. p.bits < 2 ^ 256 };

    ghost inverse = { λ n. record { bits = n } };
}

impl Poly {
    /// The polynomial with these coefficients, that of x^k in bit k: `high` from x^128 on, `low`
    /// below.
    pub fn from_halves(high: u128, low: u128) -> Poly
        ensures { result ≡ high * 2 ^ 128 + low }
    {
        Poly {
            bits: U256::from_halves(high, low),
        }
    }

    /// The coefficients, that of x^k in bit k.
    pub fn bits(&self) -> U256
        ensures value { result ≡ self.now }
        ensures small { result < 2 ^ 256 }
    {
        self.bits
    }

    /// Whether the coefficient of x^n is 1. Past the degree none is.
    pub fn coefficient(&self, n: u32) -> bool
        ensures { IsTrue result ↔ (bit_at self.now n ≡ 1) }
    {
        let bits = self.bits;
        n < 256 && bits.bit(n)
    }

    /// The degree, and none for the polynomial 0.
    pub fn degree(&self) -> Option<u32>
        ensures none { IsNone result ↔ (self.now ≡ 0) }
        ensures some { IfSome result (λ degree. (degree < 256) × HasDegree degree self.now) }
    {
        let bits = self.bits;
        let mut degree = None;
        for n in 0u32..256u32 {
            if bits.bit(n) {
                degree = Some(n);
            }
        }
        degree
    }

    /// The product, of a degree that is the sum of the degrees.
    pub fn mul(&self, other: &Poly) -> Poly
        requires { DegreeSumAtMost 255 self.now other.now }
        ensures { result ≡ product self.now other.now }
    {
        let left = self.bits;
        let right = other.bits;
        let mut sum = U256::from_halves(0, 0);
        for i in 0u32..256u32 {
            sum = sum << 1;
            if left.bit(255 - i) {
                sum = sum ^ right;
            }
        }
        Poly { bits: sum }
    }

    /// The remainder by `by`: the one polynomial of lower degree than `by` that differs from `self`
    /// by a multiple of `by`.
    pub fn remainder(&self, by: &Poly) -> Poly
        requires { by.now ≢ 0 }
        ensures remainder { IsRemainder self.now by.now result }
        ensures only { (r : ℕ) → IsRemainder self.now by.now r → r ≡ result }
    {
        let degree = by.degree().unwrap();
        let dividend = self.bits;
        let divisor = by.bits;
        let mut rest = U256::from_halves(0, 0);
        for i in 0u32..256u32 {
            let next = with_digit(rest, dividend.bit(255 - i));
            rest = less(next, divisor, degree);
        }
        Poly { bits: rest }
    }
}

// One more coefficient, below the others.
fn with_digit(number: U256, digit: bool) -> U256
    requires { number < 2 ^ 255 }
    ensures value { result ≡ 2 * number + (if digit then 1 else 0) }
    ensures small { result < 2 ^ 256 }
{
    let moved = number << 1;
    if digit {
        moved ^ U256::from_halves(0, 1)
    } else {
        moved
    }
}

// A polynomial of degree at most that of `by`, less `by` where the degrees are equal.
fn less(number: U256, by: U256, degree: u32) -> U256
    requires degree { degree < 256 }
    requires by { HasDegree degree by }
    requires number { number < 2 ^ (degree + 1) }
    ensures value { result ≡ reduced degree by number }
    ensures small { result < 2 ^ degree }
{
    if number.bit(degree) {
        number ^ by
    } else {
        number
    }
}
