// The lines of data.
ghost use Rattle.std.specs.Prelude.{◌≡◌, ◌++◌, OnOk, map};
ghost use Rattle.plan_grammar.specs.Canonical.{data_words, piece_text};
ghost use Rattle.plan_print.specs.Lines.{behind_blanks, line_of, text_of};

use crate::forms::put_piece;
use crate::words::{put_text, put_word};
use nand_model::{Bytes, ItemList};
use plan_grammar::{DataLine, Piece};
use std::alloc::AllocError;

// Appends pieces, each behind a blank.
fn put_pieces(out: &mut Bytes, pieces: &ItemList<Piece>) -> Result<(), AllocError>
    ensures { OnOk result (out.new ≡ out.old ++ behind_blanks (map piece_text pieces.now)) }
{
    for piece in pieces {
        put_text(out, " ")?;
        put_piece(out, piece)?;
    }
    Ok(())
}

// Appends the line of data.
fn put_payload(out: &mut Bytes, payload: &DataLine) -> Result<(), AllocError>
    ensures { OnOk result (out.new ≡ out.old ++ line_of (data_words payload.now)) }
{
    put_text(out, "data")?;
    put_word(out, payload.name.as_slice())?;
    put_pieces(out, &payload.pieces)?;
    put_text(out, "\n")
}

/// Appends the lines of data.
pub fn put_payloads(out: &mut Bytes, payloads: &ItemList<DataLine>) -> Result<(), AllocError>
    ensures { OnOk result (out.new ≡ out.old ++ text_of (map data_words payloads.now)) }
{
    for payload in payloads {
        put_payload(out, payload)?;
    }
    Ok(())
}
