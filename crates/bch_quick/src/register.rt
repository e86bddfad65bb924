// Registers of three widths, which take in four bytes at a time by tables of remainders.
ghost use Rattle.std.specs.Prelude.{◌≡◌, ◌<◌, ◌≤◌, ◌*◌, ◌+◌, ◌-◌, ◌/◌, ◌%◌, ◌^◌, ℕ, length, slice_index};
ghost use Rattle.code_model.specs.Binary.{remainder};
ghost use Rattle.code_model.specs.Bits.{bits_of, bytes_of};
ghost use Rattle.code_model.specs.Code.{parity_number};
ghost use Rattle.code_model.specs.Generator.{generator_of};
ghost use Rattle.code_model.specs.Word.{number_from};
ghost use Rattle.bch_decode.specs.Answers.{joined_word};
ghost use Rattle.bch_solver.specs.Words.{code_over};
ghost use Rattle.bch_tables.specs.Rows.{AreRows, AreWideRows};

use bch_register::number_of;
use bch_solver::parity_bits;
use bch_tables::StepCode;
use u256::U256;

// Four bytes of a body, the first the highest.
fn four_bytes(body: &[u8], i: usize) -> u32
    requires { 4 * i + 4 ≤ length body.now }
    ensures { result ≡ ((slice_index body.now (4 * i) * 256 + slice_index body.now (4 * i + 1)) *
        256
        + slice_index body.now (4 * i + 2)) * 256 + slice_index body.now (4 * i + 3) }
{
    let first = u32::from(body[4 * i]) << 24;
    let second = u32::from(body[4 * i + 1]) << 16;
    let third = u32::from(body[4 * i + 2]) << 8;
    first + second + third + u32::from(body[4 * i + 3])
}

// The sum of the rows of the four bytes of a number: its remainder, moved up by 64 places, by the
// polynomial of the rows, of degree 64.
fn narrow_sum(rows: &[[u64; 256]; 4], top: u32) -> u64
    ensures { (f : ℕ) → AreRows 64 f rows.now → result ≡ remainder 64 f (top * 2 ^ 64) }
{
    let mut sum: u64 = 0;
    for j in 0u32..4 {
        let byte = (top >> (8 * j)) % 256;
        sum ^= rows[j as usize][byte as usize];
    }
    sum
}

// The remainder of a body, moved up by 64 places, by the polynomial of the rows, of degree 64.
fn narrow(rows: &[[u64; 256]; 4], body: &[u8]) -> u64
    requires { length body.now % 4 ≡ 0 }
    ensures { (f : ℕ) → AreRows 64 f rows.now
        → result ≡ remainder 64 f (number_from 0 (bits_of body.now) * 2 ^ 64) }
{
    let mut register: u64 = 0;
    for i in 0..body.len() / 4 {
        let top = (register >> 32) as u32;
        let sum = narrow_sum(rows, top ^ four_bytes(body, i));
        register = (register << 32) ^ sum;
    }
    register
}

// The sum of the rows of the four bytes of a number: its remainder, moved up by 128 places, by the
// polynomial of the rows, of degree 128.
fn middle_sum(rows: &[[u128; 256]; 4], top: u32) -> u128
    ensures { (f : ℕ) → AreRows 128 f rows.now → result ≡ remainder 128 f (top * 2 ^ 128) }
{
    let mut sum: u128 = 0;
    for j in 0u32..4 {
        let byte = (top >> (8 * j)) % 256;
        sum ^= rows[j as usize][byte as usize];
    }
    sum
}

// The remainder of a body, moved up by 128 places, by the polynomial of the rows, of degree 128.
fn middle(rows: &[[u128; 256]; 4], body: &[u8]) -> u128
    requires { length body.now % 4 ≡ 0 }
    ensures { (f : ℕ) → AreRows 128 f rows.now
        → result ≡ remainder 128 f (number_from 0 (bits_of body.now) * 2 ^ 128) }
{
    let mut register: u128 = 0;
    for i in 0..body.len() / 4 {
        let top = (register >> 96) as u32;
        let sum = middle_sum(rows, top ^ four_bytes(body, i));
        register = (register << 32) ^ sum;
    }
    register
}

// The four highest bytes of a register.
fn top_of(register: U256) -> u32
    requires { register < 2 ^ 256 }
    ensures { result ≡ register / 2 ^ 224 }
{
    let first = u32::from(register.byte(0)) << 24;
    let second = u32::from(register.byte(1)) << 16;
    let third = u32::from(register.byte(2)) << 8;
    first + second + third + u32::from(register.byte(3))
}

// As `narrow_sum`, for a register of 256 bits.
fn wide_sum(rows: &[[[u128; 2]; 256]; 4], top: u32) -> U256
    ensures { (f : ℕ) → AreWideRows 256 f rows.now → result ≡ remainder 256 f (top * 2 ^ 256) }
{
    let mut sum = U256::from_halves(0, 0);
    for j in 0u32..4 {
        let byte = (top >> (8 * j)) % 256;
        let row = &rows[j as usize][byte as usize];
        sum = sum ^ U256::from_halves(row[0], row[1]);
    }
    sum
}

// As `narrow`, for a register of 256 bits.
fn wide(rows: &[[[u128; 2]; 256]; 4], body: &[u8]) -> U256
    requires { length body.now % 4 ≡ 0 }
    ensures { (f : ℕ) → AreWideRows 256 f rows.now
        → result ≡ remainder 256 f (number_from 0 (bits_of body.now) * 2 ^ 256) }
{
    let mut register = U256::from_halves(0, 0);
    for i in 0..body.len() / 4 {
        let top = top_of(register);
        let sum = wide_sum(rows, top ^ four_bytes(body, i));
        register = (register << 32) ^ sum;
    }
    register
}

/// The parity of a body as a number.
pub(crate) fn parity_number_quick<C: StepCode>(t: u32, body: &[u8]) -> U256
    requires strength { (0 < t) × (t ≤ 16) }
    requires whole { length body.now ≡ C.STEP }
    ensures value { result ≡ parity_number (code_over C.DEGREE C.MODULUS t C.STEP) body.now }
    ensures small { result < 2 ^ (C.DEGREE * t) }
{
    let degree = parity_bits::<C>(t);
    if t <= 4 {
        U256::from_halves(
            0,
            u128::from(narrow(C::narrow_rows(t), body) >> (64 - degree)),
        )
    } else if t <= 9 {
        U256::from_halves(0, middle(C::middle_rows(t), body) >> (128 - degree))
    } else {
        wide(C::wide_rows(t), body) >> (256 - degree)
    }
}

/// The remainder of the word of a step and its parity by the generator.
pub(crate) fn remainder_quick<C: StepCode>(t: u32, step: &[u8], parity: &[u8]) -> U256
    requires strength { (0 < t) × (t ≤ 16) }
    requires whole { length step.now ≡ C.STEP }
    requires room { length parity.now ≡ (C.DEGREE * t + 7) / 8 }
    ensures value { let code = code_over C.DEGREE C.MODULUS t C.STEP in
        result ≡ remainder (C.DEGREE * t) (generator_of C.DEGREE C.MODULUS t)
        (number_from 0 (joined_word code step.now parity.now)) }
    ensures small { result < 2 ^ (C.DEGREE * t) }
{
    let padding = 8 * parity.len() as u32 - parity_bits::<C>(t);
    parity_number_quick::<C>(t, step) ^ (number_of(parity) >> padding)
}

/// Writes a number of `degree` bits into (degree + 7) / 8 bytes, the highest first, with 0 in the
/// padding bits of the last byte.
pub(crate) fn put_number(number: U256, degree: u32, out: &mut [u8])
    requires degree { (0 < degree) × (degree < 256) }
    requires small { number < 2 ^ degree }
    requires room { length out.old ≡ (degree + 7) / 8 }
    ensures { let len = (degree + 7) / 8 in
        out.new ≡ bytes_of len (number * 2 ^ (8 * len - degree)) }
{
    let len = out.len() as u32;
    let moved = number << (8 * len - degree);
    for (i, byte) in out.iter_mut().enumerate() {
        *byte = moved.byte(32 - len + i as u32);
    }
}
