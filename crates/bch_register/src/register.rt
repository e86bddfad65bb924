// The register: the remainder of what was taken in, moved up by 256 places.
ghost use Rattle.std.specs.Prelude.{◌≡◌, ◌<◌, ◌≤◌, ◌*◌, ◌+◌, ◌^◌, ℕ, length, bit_xor};
ghost use Rattle.code_model.specs.Binary.{reduced, remainder};
ghost use Rattle.code_model.specs.Bits.{bits_of};
ghost use Rattle.code_model.specs.Word.{number_from};
ghost use Rattle.bch_register.specs.Division.{with_top};

use u256::U256;

// One place up.
fn moved_up(register: U256, modulus: U256) -> U256
    ensures value { result ≡ reduced 256 (with_top modulus) (2 * register) }
    ensures small { modulus < 2 ^ 256 }
{
    let moved = register << 1;
    let reduced = moved ^ modulus;
    if register.bit(255) { reduced } else { moved }
}

// One more byte, and so eight places up.
fn taken_in(register: U256, byte: u8, modulus: U256) -> U256
    ensures value { result
        ≡ remainder 256 (with_top modulus) (bit_xor register (byte * 2 ^ 248) * 2 ^ 8) }
    ensures small { modulus < 2 ^ 256 }
{
    let mut register = register ^ U256::from_halves(u128::from(byte) << 120, 0);
    for _ in 0u32..8u32 {
        register = moved_up(register, modulus);
    }
    register
}

/// The remainder of the bytes' bits, as a polynomial with the highest coefficient first, moved up
/// by 256 places, by x^256 + `modulus`.
pub fn divide(bytes: &[u8], modulus: U256) -> U256
    ensures { result
        ≡ remainder 256 (with_top modulus) (number_from 0 (bits_of bytes.now) * 2 ^ 256) }
{
    let mut register = U256::from_halves(0, 0);
    for byte in bytes {
        register = taken_in(register, *byte, modulus);
    }
    register
}
