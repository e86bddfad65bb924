// The laws of the field, in the numbers that contracts see elements as.
ghost use Rattle.std.specs.Prelude.{◌≡◌, ◌<◌, ℕ, bit_xor};
ghost use Rattle.code_model.specs.Binary.{times, power};

use crate::field::Field13;

/// The sum is associative and commutative, 0 is its zero, and each element is its own negative.
pub fn sum_laws()
    ensures associative { (a b c : ℕ) → bit_xor (bit_xor a b) c ≡ bit_xor a (bit_xor b c) }
    ensures commutative { (a b : ℕ) → bit_xor a b ≡ bit_xor b a }
    ensures zero { (a : ℕ) → bit_xor a 0 ≡ a }
    ensures negative { (a : ℕ) → bit_xor a a ≡ 0 }
{
    binary_field::sum_laws::<Field13>()
}

/// The product is associative and commutative, 1 is its one, and it distributes over the sum.
pub fn product_laws()
    ensures associative { (a b c : ℕ)
        → times 13 0x201b (times 13 0x201b a b) c ≡ times 13 0x201b a (times 13 0x201b b c) }
    ensures commutative { (a b : ℕ) → times 13 0x201b a b ≡ times 13 0x201b b a }
    ensures one { (a : ℕ) → a < 8192 → times 13 0x201b a 1 ≡ a }
    ensures distributes { (a b c : ℕ)
        → times 13 0x201b a (bit_xor b c) ≡ bit_xor (times 13 0x201b a b) (times 13 0x201b a c) }
{
    binary_field::product_laws::<Field13>()
}

/// Each element other than 0 has an inverse, and only one.
pub fn inverse_laws()
    ensures exists { (a : ℕ) → 0 < a → a < 8192 → (b : ℕ) × (b < 8192) × (times 13 0x201b a b ≡ 1) }
    ensures unique { (a b c : ℕ) → b < 8192 → c < 8192
        → times 13 0x201b a b ≡ 1 → times 13 0x201b a c ≡ 1 → b ≡ c }
{
    binary_field::inverse_laws::<Field13>()
}

/// The powers of α below 8191 differ and are all elements other than 0, and α^8191 is 1.
pub fn power_laws()
    ensures returns { power 13 0x201b 2 8191 ≡ 1 }
    ensures differ { (i j : ℕ) → i < 8191 → j < 8191 → power 13 0x201b 2 i ≡ power 13 0x201b 2 j →
        i ≡ j }
    ensures all { (a : ℕ) → 0 < a → a < 8192 → (n : ℕ) × (n < 8191) × (power 13 0x201b 2 n ≡ a) }
{
    binary_field::power_laws::<Field13>()
}
