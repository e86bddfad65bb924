// Pieces of data.
ghost use Rattle.std.specs.Prelude.{◌≡◌};
ghost use Rattle.plan_grammar.specs.Forms.{byte_of, fill_piece, seed_piece, hex_piece, piece};
ghost use Rattle.plan_words.specs.Answer.{Answers};

use crate::forms::halves;
use crate::{LineError, number};
use hex::FromHexError;
use nand_model::Bytes;
use plan_grammar::{Piece, PlanKind};
use std::alloc::Global;

// The byte of two hexadecimal digits.
#[tactic(auto, unfolding(plan_grammar::specs::Forms::byte_of))]
fn byte_of(digits: &[u8]) -> Option<u8>
    ensures { result ≡ byte_of digits.now }
{
    let mut byte = [0u8; 1];
    hex::decode_to_slice(digits, &mut byte).ok()?;
    Some(byte[0])
}

// What follows `fill:`.
#[tactic(auto, unfolding(plan_grammar::specs::Forms::fill_piece))]
fn fill_piece(text: &[u8]) -> Result<Piece, PlanKind>
    ensures { result ≡ fill_piece text.now }
{
    let (digits, len) = halves(text, b':').ok_or(PlanKind::BadNumber)?;
    let byte = byte_of(digits).ok_or(PlanKind::BadNumber)?;
    let len = number(len)?;
    Ok(Piece::Fill { byte, len })
}

// What follows `seed:`.
#[tactic(auto, unfolding(plan_grammar::specs::Forms::seed_piece))]
fn seed_piece(text: &[u8]) -> Result<Piece, PlanKind>
    ensures { result ≡ seed_piece text.now }
{
    let (seed, len) = halves(text, b':').ok_or(PlanKind::BadNumber)?;
    let seed = number(seed)?;
    let len = number(len)?;
    Ok(Piece::Seed { seed, len })
}

// What follows `hex:`.
#[tactic(auto, unfolding(plan_grammar::specs::Forms::hex_piece))]
fn hex_piece(alloc: Global, text: &[u8]) -> Result<Piece, LineError>
    ensures { Answers result (hex_piece text.now) }
{
    let mut bytes = Bytes::filled(alloc, 0, text.len() / 2)?;
    match hex::decode_to_slice(text, bytes.as_mut_slice()) {
        Ok(()) => Ok(Piece::Hex(bytes)),
        Err(_) => Err(LineError::Broken(PlanKind::BadNumber)),
    }
}

/// A piece: `fill:XX:LEN`, so many bytes XX, `seed:N:LEN`, so many seed bytes of N, or `hex:` and
/// pairs of hexadecimal digits. `BadNumber` comes exactly where the word is none.
#[tactic(auto, unfolding(plan_grammar::specs::Forms::piece, plan_grammar::specs::Forms::after_front))]
pub fn piece(alloc: Global, word: &[u8]) -> Result<Piece, LineError>
    ensures { Answers result (piece word.now) }
{
    if let Some(text) = word.strip_prefix(b"fill:") {
        return Ok(fill_piece(text)?);
    }
    if let Some(text) = word.strip_prefix(b"seed:") {
        return Ok(seed_piece(text)?);
    }
    if let Some(text) = word.strip_prefix(b"hex:") {
        return hex_piece(alloc, text);
    }
    Err(LineError::Broken(PlanKind::BadNumber))
}
