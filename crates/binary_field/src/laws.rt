// The laws of a field, for code above to cite.
ghost use Rattle.std.specs.Prelude.{◌≡◌, ◌<◌, ◌-◌, ◌^◌, ℕ, bit_xor};
ghost use Rattle.code_model.specs.Binary.{times, power};

use crate::field::BinaryField;

/// The sum, `^` of numbers, is associative and commutative, with 0 as its zero, and each element is
/// its own negative.
pub fn sum_laws<F: BinaryField>()
    ensures small { (a b : ℕ) → a < 2 ^ F.DEGREE → b < 2 ^ F.DEGREE → bit_xor a b < 2 ^ F.DEGREE }
    ensures associative { (a b c : ℕ) → bit_xor (bit_xor a b) c ≡ bit_xor a (bit_xor b c) }
    ensures commutative { (a b : ℕ) → bit_xor a b ≡ bit_xor b a }
    ensures zero { (a : ℕ) → bit_xor a 0 ≡ a }
    ensures negative { (a : ℕ) → bit_xor a a ≡ 0 }
{}

/// The product is associative and commutative, with 1 as its one, and distributes over the sum.
pub fn product_laws<F: BinaryField>()
    ensures small { (a b : ℕ) → times F.DEGREE F.MODULUS a b < 2 ^ F.DEGREE }
    ensures associative { (a b c : ℕ)
        → times F.DEGREE F.MODULUS (times F.DEGREE F.MODULUS a b) c
        ≡ times F.DEGREE F.MODULUS a (times F.DEGREE F.MODULUS b c) }
    ensures commutative { (a b : ℕ) → times F.DEGREE F.MODULUS a b ≡ times F.DEGREE F.MODULUS b a }
    ensures one { (a : ℕ) → a < 2 ^ F.DEGREE → times F.DEGREE F.MODULUS a 1 ≡ a }
    ensures distributes { (a b c : ℕ)
        → times F.DEGREE F.MODULUS a (bit_xor b c)
        ≡ bit_xor (times F.DEGREE F.MODULUS a b) (times F.DEGREE F.MODULUS a c) }
{}

/// Each element other than 0 has one inverse.
pub fn inverse_laws<F: BinaryField>()
    ensures exists { (a : ℕ) → 0 < a → a < 2 ^ F.DEGREE
        → (b : ℕ) × (b < 2 ^ F.DEGREE) × (times F.DEGREE F.MODULUS a b ≡ 1) }
    ensures unique { (a b c : ℕ) → b < 2 ^ F.DEGREE → c < 2 ^ F.DEGREE
        → times F.DEGREE F.MODULUS a b ≡ 1 → times F.DEGREE F.MODULUS a c ≡ 1 → b ≡ c }
{}

/// The powers of x below 2^m - 1 differ, are all elements other than 0, and then begin again with
/// 1.
pub fn power_laws<F: BinaryField>()
    ensures returns { power F.DEGREE F.MODULUS 2 (2 ^ F.DEGREE - 1) ≡ 1 }
    ensures differ { (i j : ℕ) → i < 2 ^ F.DEGREE - 1 → j < 2 ^ F.DEGREE - 1
        → power F.DEGREE F.MODULUS 2 i ≡ power F.DEGREE F.MODULUS 2 j → i ≡ j }
    ensures all { (a : ℕ) → 0 < a → a < 2 ^ F.DEGREE
        → (n : ℕ) × (n < 2 ^ F.DEGREE - 1) × (power F.DEGREE F.MODULUS 2 n ≡ a) }
{}
