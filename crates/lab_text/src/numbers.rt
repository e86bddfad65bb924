// Numbers.
ghost use Rattle.std.specs.Prelude.{◌≡◌, ◌+◌, ◌*◌, ◌^◌, ◌<◌, ◌++◌, ◌≤◌, OnOk, decimal};
ghost use Rattle.std.specs.Option.{SomeIff};
ghost use Rattle.std.specs.Int.{to_be_bytes, w32};
ghost use Rattle.hex.specs.Hex.{encode_lower};
ghost use Rattle.lab_text.specs.Text.{number_of, number_in};

use itoa::Buffer;
use nand_model::Bytes;
use std::alloc::AllocError;

// The value with one digit more, where it has at most 64 bits.
fn with_digit(value: u64, base: u32, digit: u32) -> Option<u64>
    ensures { SomeIff result (value * base + digit < 2 ^ 64) (value * base + digit) }
{
    value
        .checked_mul(u64::from(base))?
        .checked_add(u64::from(digit))
}

// The number that digits write in this base, where it has at most 64 bits.
fn value_of(digits: &[u8], base: u32) -> Option<u64>
    requires binary { 2 ≤ base }
    requires letters { base ≤ 36 }
    ensures { result ≡ number_in base digits.now }
{
    if digits.is_empty() {
        return None;
    }
    let mut value = 0u64;
    for digit in digits {
        let digit = char::from(*digit).to_digit(base)?;
        value = with_digit(value, base, digit)?;
    }
    Some(value)
}

/// The number of a word: decimal digits, or `0x` and hexadecimal digits of either case. None comes
/// exactly where the word is no number or one above 2^64 - 1. It takes no memory.
pub fn number(word: &[u8]) -> Option<u64>
    ensures { result ≡ number_of word.now }
{
    match word.strip_prefix(b"0x") {
        Some(digits) => value_of(digits, 16),
        None => decimal(word),
    }
}

/// The number of decimal digits. None comes exactly where the word is no such number or one above
/// 2^64 - 1. It takes no memory.
pub fn decimal(word: &[u8]) -> Option<u64>
    ensures { result ≡ number_in 10 word.now }
{
    value_of(word, 10)
}

/// Appends the decimal digits of a number, without leading zeros. Where memory runs out, a part of
/// them may be there.
pub fn put_number(out: &mut Bytes, n: u64) -> Result<(), AllocError>
    ensures { OnOk result (out.new ≡ out.old ++ decimal n) }
{
    let mut buffer = Buffer::new();
    out.push_slice(buffer.format(n).as_bytes())
}

/// Appends the eight hexadecimal digits of a number, in lower case. Where memory runs out, a part
/// of them may be there.
pub fn put_hex8(out: &mut Bytes, n: u32) -> Result<(), AllocError>
    ensures { OnOk result (out.new ≡ out.old ++ encode_lower (to_be_bytes w32 n)) }
{
    let mut digits = [0u8; 8];
    let _whole = hex::encode_to_slice(n.to_be_bytes(), &mut digits);
    out.push_slice(&digits)
}
