// Bodies and words divided by a generator of any degree below 256.
ghost use Rattle.std.specs.Prelude.{◌≡◌, ◌<◌, ◌≤◌, ◌*◌, ◌+◌, ◌-◌, ◌/◌, ◌^◌, ◌++◌, ℕ, length, take};
ghost use Rattle.code_model.specs.Binary.{remainder, HasDegree};
ghost use Rattle.code_model.specs.Bits.{bits_of};
ghost use Rattle.code_model.specs.Word.{number_from};
ghost use Rattle.bch_register.specs.Division.{with_top, parity_number_of, parity_bytes_of};

use crate::register::divide;
use u256::U256;

// The generator with its leading coefficient moved up to x^256, and left out there.
fn aligned(generator: U256, degree: u32) -> U256
    requires degree { (0 < degree) × (degree < 256) }
    requires generator { HasDegree degree generator }
    ensures { with_top result ≡ generator * 2 ^ (256 - degree) }
{
    generator << (256 - degree)
}

/// The parity of a body as a number: the remainder of the body's polynomial, moved up by the
/// generator's degree, by the generator.
pub fn parity_number(body: &[u8], generator: U256, degree: u32) -> U256
    requires degree { (0 < degree) × (degree < 256) }
    requires generator { HasDegree degree generator }
    ensures value { result ≡ parity_number_of degree generator body.now }
    ensures small { result < 2 ^ degree }
{
    divide(body, aligned(generator, degree)) >> (256 - degree)
}

/// The number that bytes spell, the highest first.
pub fn number_of(bytes: &[u8]) -> U256
    requires { length bytes.now ≤ 32 }
    ensures { result ≡ number_from 0 (bits_of bytes.now) }
{
    let mut number = U256::from_halves(0, 0);
    for byte in bytes {
        number = (number << 8) ^ U256::from_halves(0, u128::from(*byte));
    }
    number
}

/// The remainder of a word by the generator: that of the body's bits and then the parity's, without
/// the padding in the parity's last byte.
pub fn remainder_of_word(body: &[u8], parity: &[u8], generator: U256, degree: u32) -> U256
    requires degree { (0 < degree) × (degree < 256) }
    requires generator { HasDegree degree generator }
    requires parity { length parity.now ≡ (degree + 7) / 8 }
    ensures value { result
        ≡ remainder degree generator
        (number_from 0 (bits_of body.now ++ take degree (bits_of parity.now))) }
    ensures small { result < 2 ^ degree }
{
    let padding = 8 * parity.len() as u32 - degree;
    parity_number(body, generator, degree) ^ (number_of(parity) >> padding)
}

/// Writes a body's parity into (degree + 7) / 8 bytes, the highest coefficient first, with 0 in the
/// padding bits of the last byte.
pub fn put_parity(body: &[u8], generator: U256, degree: u32, out: &mut [u8])
    requires degree { (0 < degree) × (degree < 256) }
    requires generator { HasDegree degree generator }
    requires room { length out.old ≡ (degree + 7) / 8 }
    ensures { out.new ≡ parity_bytes_of degree generator body.now }
{
    let len = out.len() as u32;
    let number = parity_number(body, generator, degree) << (8 * len - degree);
    for (i, byte) in out.iter_mut().enumerate() {
        *byte = number.byte(32 - len + i as u32);
    }
}
