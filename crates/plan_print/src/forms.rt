// Tears, pieces and chips.
ghost use Rattle.std.specs.Prelude.{◌≡◌, [], ◌∷◌, ◌++◌, OnOk, map};
ghost use Rattle.hex.specs.Hex.{encode_lower};
ghost use Rattle.plan_grammar.specs.Canonical.{chip_name, joined, piece_text, span_text, tear_text};

use crate::words::put_text;
use lab_text::put_number;
use nand_model::{Bytes, SpanList, Tear};
use plan_grammar::Piece;
use std::alloc::AllocError;

// Appends a span of bytes.
fn put_span(out: &mut Bytes, span: (u32, u32)) -> Result<(), AllocError>
    ensures { OnOk result (out.new ≡ out.old ++ span_text span) }
{
    put_number(out, u64::from(span.0))?;
    put_text(out, "-")?;
    put_number(out, u64::from(span.1))
}

// Appends spans with commas between them.
fn put_spans(out: &mut Bytes, spans: &SpanList) -> Result<(), AllocError>
    ensures { OnOk result (out.new ≡ out.old ++ joined 44 (map span_text spans.now)) }
{
    let mut others = spans.iter();
    let Some(first) = others.next() else {
        return Ok(());
    };
    put_span(out, *first)?;
    for span in others {
        put_text(out, ",")?;
        put_span(out, *span)?;
    }
    Ok(())
}

/// Appends a tear.
pub fn put_tear(out: &mut Bytes, tear: &Tear) -> Result<(), AllocError>
    ensures { OnOk result (out.new ≡ out.old ++ tear_text tear.now) }
{
    match tear {
        Tear::Nothing => put_text(out, "none"),
        Tear::Everything => put_text(out, "all"),
        Tear::Seed(seed) => {
            put_text(out, "seed:")?;
            put_number(out, *seed)
        }
        Tear::Spans(spans) => {
            put_text(out, "spans:")?;
            put_spans(out, spans)
        }
    }
}

// The two hexadecimal digits of a byte.
fn digits_of(byte: u8) -> [u8; 2]
    ensures { result ≡ encode_lower (byte ∷ []) }
{
    let mut digits = [0u8; 2];
    let _whole = hex::encode_to_slice([byte], &mut digits);
    digits
}

// Appends the two hexadecimal digits of each byte.
fn put_digits(out: &mut Bytes, bytes: &[u8]) -> Result<(), AllocError>
    ensures { OnOk result (out.new ≡ out.old ++ encode_lower bytes.now) }
{
    for byte in bytes {
        out.push_slice(&digits_of(*byte))?;
    }
    Ok(())
}

/// Appends a piece of data.
pub fn put_piece(out: &mut Bytes, piece: &Piece) -> Result<(), AllocError>
    ensures { OnOk result (out.new ≡ out.old ++ piece_text piece.now) }
{
    match piece {
        Piece::Fill { byte, len } => {
            put_text(out, "fill:")?;
            put_digits(out, &[*byte])?;
            put_text(out, ":")?;
            put_number(out, *len)
        }
        Piece::Seed { seed, len } => {
            put_text(out, "seed:")?;
            put_number(out, *seed)?;
            put_text(out, ":")?;
            put_number(out, *len)
        }
        Piece::Hex(bytes) => {
            put_text(out, "hex:")?;
            put_digits(out, bytes.as_slice())
        }
    }
}

/// Appends the name of chip K of controller C, `C.K`, behind a blank.
pub fn put_chip_name(out: &mut Bytes, controller: u32, chip: u32) -> Result<(), AllocError>
    ensures { OnOk result (out.new ≡ out.old ++ 32 ∷ chip_name controller chip) }
{
    put_text(out, " ")?;
    put_number(out, u64::from(controller))?;
    put_text(out, ".")?;
    put_number(out, u64::from(chip))
}
