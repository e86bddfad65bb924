// Elements of the field, with their arithmetic.
ghost use Rattle.std.specs.Prelude.{◌≡◌, ◌≢◌, ◌<◌, bit_xor};
ghost use Rattle.code_model.specs.Binary.{times, power};

use crate::field::Field13;
use binary_field::{inverse, logarithm, power_of_x, product};
use std::marker::Model;

/// An element of the field: a polynomial over two elements of degree below 13. Contracts see it as
/// the number whose bit k is the coefficient of x^k.
#[derive(Clone, Copy, PartialEq, Eq, Debug)]
pub struct Elem {
    bits: u16,
}

impl Model for Elem {
    ghost use Rattle.std.specs.Prelude.{ℕ, ◌<◌};

    ghost Value = { ℕ };

    ghost view = { λ e. e.bits };

    ghost invariant = { λ e. e.bits < 8192 };

    ghost inverse = { λ n. record { bits = n } };
}

impl Elem {
    /// The element with these coefficients, bit k being that of x^k. They are below 8192.
    pub fn of(bits: u16) -> Elem
        requires { bits < 8192 }
        ensures { result ≡ bits }
    {
        Elem { bits }
    }

    /// The coefficients, bit k being that of x^k.
    pub fn bits(self) -> u16
        ensures value { result ≡ self }
        ensures small { result < 8192 }
    {
        self.bits
    }

    /// The sum, by coefficients.
    pub fn add(self, other: Elem) -> Elem
        ensures { result ≡ bit_xor self other }
    {
        Elem {
            bits: self.bits ^ other.bits,
        }
    }

    /// The product: the remainder of the polynomials' product by the modulus.
    pub fn mul(self, other: Elem) -> Elem
        ensures { result ≡ times 13 0x201b self other }
    {
        Elem {
            bits: product::<Field13>(self.bits, other.bits),
        }
    }

    /// The inverse of an element other than 0.
    pub fn inv(self) -> Elem
        requires { self ≢ 0 }
        ensures { times 13 0x201b self result ≡ 1 }
    {
        Elem {
            bits: inverse::<Field13>(self.bits),
        }
    }

    /// The n-th power of α, the class of x.
    pub fn pow_alpha(n: u32) -> Elem
        ensures { result ≡ power 13 0x201b 2 n }
    {
        Elem {
            bits: power_of_x::<Field13>(n),
        }
    }

    /// The logarithm of an element other than 0: the one n below 8191 with α^n equal to it.
    pub fn log(self) -> u32
        requires { self ≢ 0 }
        ensures power { power 13 0x201b 2 result ≡ self }
        ensures small { result < 8191 }
    {
        logarithm::<Field13>(self.bits)
    }
}
