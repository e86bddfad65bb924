// Numbers of 256 bits, in two halves.
ghost use Rattle.std.specs.Prelude.{◌≡◌, ◌<◌, ◌≤◌, ◌*◌, ◌+◌, ◌-◌, ◌/◌, ◌%◌, ◌^◌, ℕ, ◌↔◌, IsTrue, bit_xor};
ghost use Rattle.std.specs.Int.{bit_at};

use std::marker::Model;
use std::ops::{BitXor, Shl, Shr};

/// A number below 2^256.
#[derive(Clone, Copy, PartialEq, Eq, Debug)]
pub struct U256 {
    high: u128,
    low: u128,
}

impl Model for U256 {
    ghost use Rattle.std.specs.Prelude.{◌≡◌, ◌<◌, ◌*◌, ◌+◌, ◌/◌, ◌%◌, ◌^◌, ℕ};
    ghost use Rattle.u256.specs.Halves.{halves_back};

    ghost Value = { ℕ };

    ghost view = { λ n. n.high * 2 ^ 128 + n.low };

    ghost invariant = { λ n. (n.high < 2 ^ 128) × (n.low < 2 ^ 128) };

    ghost inverse = { λ v. record { high = v / 2 ^ 128; low = v % 2 ^ 128 } };

    ghost inverse_ok = { λ n h. halves_back n h };
}

impl U256 {
    /// The number of these halves of 128 bits.
    pub fn from_halves(high: u128, low: u128) -> U256
        ensures value { result ≡ high * 2 ^ 128 + low }
        ensures small { result < 2 ^ 256 }
    {
        U256 { high, low }
    }

    /// Whether the number is 0.
    pub fn is_zero(self) -> bool
        ensures { IsTrue result ↔ (self ≡ 0) }
    {
        self.high == 0 && self.low == 0
    }

    /// Whether bit n, of value 2^n, is 1.
    pub fn bit(self, n: u32) -> bool
        requires { n < 256 }
        ensures { IsTrue result ↔ (bit_at self n ≡ 1) }
    {
        (self >> n).low & 1 == 1
    }

    /// Byte i of the 32, where byte 0 is the highest.
    pub fn byte(self, i: u32) -> u8
        requires { i < 32 }
        ensures { result ≡ self / 2 ^ (248 - 8 * i) % 256 }
    {
        ((self >> (248 - 8 * i)).low & 0xff) as u8
    }
}

impl BitXor<U256> for U256 {
    type Output = U256;

    ghost bitxor_gives = { λ a b r. (r ≡ bit_xor a b) × (r < 2 ^ 256) × (a < 2 ^ 256) × (b < 2 ^ 256) };

    fn bitxor(self, rhs: U256) -> U256 {
        U256 {
            high: self.high ^ rhs.high,
            low: self.low ^ rhs.low,
        }
    }
}

impl Shl<u32> for U256 {
    type Output = U256;

    ghost can_shl = { λ _ n. n < 256 };

    ghost shl_gives = { λ a n r. (r ≡ a * 2 ^ n % 2 ^ 256) × (r < 2 ^ 256) × (a < 2 ^ 256) };

    fn shl(self, rhs: u32) -> U256 {
        if rhs == 0 {
            self
        } else if rhs < 128 {
            U256 {
                high: (self.high << rhs) | (self.low >> (128 - rhs)),
                low: self.low << rhs,
            }
        } else {
            U256 {
                high: self.low << (rhs - 128),
                low: 0,
            }
        }
    }
}

impl Shr<u32> for U256 {
    type Output = U256;

    ghost can_shr = { λ _ n. n < 256 };

    ghost shr_gives = { λ a n r. (r ≡ a / 2 ^ n) × (r < 2 ^ 256) × (a < 2 ^ 256) };

    fn shr(self, rhs: u32) -> U256 {
        if rhs == 0 {
            self
        } else if rhs < 128 {
            U256 {
                high: self.high >> rhs,
                low: (self.high << (128 - rhs)) | (self.low >> rhs),
            }
        } else {
            U256 {
                high: 0,
                low: self.high >> (rhs - 128),
            }
        }
    }
}
