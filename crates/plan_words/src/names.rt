// The names of data, devices and chips, and the kinds of weak places.
ghost use Rattle.std.specs.Prelude.{◌≡◌};
ghost use Rattle.std.specs.List.{list_all};
ghost use Rattle.plan_grammar.specs.Forms.{is_name, is_name_byte, begins_with_letter, device_number, chip_numbers, weak_kind};

use crate::forms::halves;
use lab_text::{decimal, number};
use nand_model::WeakKind;

/// The greatest number of bytes of a NAME.
const LONGEST_NAME: usize = 32;

// Whether the first byte is a letter.
fn begins_with_letter(word: &[u8]) -> bool
    ensures { result ≡ begins_with_letter word.now }
{
    match word {
        [] => false,
        [first, ..] => first.is_ascii_alphabetic(),
    }
}

// Whether each byte is a letter, a digit or `_`.
fn are_name_bytes(word: &[u8]) -> bool
    ensures { result ≡ list_all is_name_byte word.now }
{
    word.iter()
        .all(|byte| byte.is_ascii_alphanumeric() || *byte == b'_')
}

/// Whether a word is a NAME: 1 to 32 letters, digits and `_`, the first of them a letter.
#[tactic(auto, unfolding(plan_grammar::specs::Forms::is_name))]
pub fn is_name(word: &[u8]) -> bool
    ensures { result ≡ is_name word.now }
{
    begins_with_letter(word) && are_name_bytes(word) && word.len() <= LONGEST_NAME
}

/// J of a word `mtdJ`, in decimal digits without leading zeros, from 0 to 2^64 - 1. None comes
/// exactly where the word is not so.
#[tactic(auto, unfolding(plan_grammar::specs::Forms::device_number, plan_grammar::specs::Forms::after_front))]
pub fn device_number(word: &[u8]) -> Option<u64>
    ensures { result ≡ device_number word.now }
{
    let digits = word.strip_prefix(b"mtd")?;
    if digits.len() > 1 && digits[0] == b'0' {
        return None;
    }
    decimal(digits)
}

/// C and K of a word `C.K`: chip K of controller C, numbers of any form from 0 to 2^64 - 1. None
/// comes exactly where the word is not so.
#[tactic(auto, unfolding(plan_grammar::specs::Forms::chip_numbers))]
pub fn chip_numbers(word: &[u8]) -> Option<(u64, u64)>
    ensures { result ≡ chip_numbers word.now }
{
    let (controller, chip) = halves(word, b'.')?;
    Some((number(controller)?, number(chip)?))
}

/// What fails at a weak place: `program` or `erase`. None comes exactly where the word is neither.
pub fn weak_kind(word: &[u8]) -> Option<WeakKind>
    ensures { result ≡ weak_kind word.now }
{
    if word == b"program".as_slice() {
        Some(WeakKind::Program)
    } else if word == b"erase".as_slice() {
        Some(WeakKind::Erase)
    } else {
        None
    }
}
