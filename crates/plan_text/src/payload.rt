// The bytes of data.
ghost use Rattle.std.specs.Prelude.{◌≡◌, ◌++◌, OnOk, IfOk, map};
ghost use Rattle.nand_model.specs.Seeds.{seed_byte};
ghost use Rattle.nand_model.specs.Sizes.{numbers_from};
ghost use Rattle.plan_grammar.specs.Devices.{data_bytes, data_named};
ghost use Rattle.plan_grammar.specs.Forms.{piece_bytes};
ghost use Rattle.plan_grammar.specs.Costs.{bytes_of};

use nand_model::{Bytes, mix};
use plan_grammar::{DataLine, Piece};
use plan_store::PlanDraft;
use std::alloc::{AllocError, Global};

// The byte of a seed and an index.
fn seed_byte(seed: u64, index: u64) -> u8
    ensures { result ≡ seed_byte seed index }
{
    (mix(seed, index) % 256) as u8
}

// Appends so many seed bytes.
fn put_seed(out: &mut Bytes, seed: u64, len: u64) -> Result<(), AllocError>
    ensures { OnOk result (out.new ≡ out.old ++ map (seed_byte seed) (numbers_from 0 len)) }
{
    for index in 0..len {
        out.push_slice(&[seed_byte(seed, index)])?;
    }
    Ok(())
}

// Appends the bytes of a piece.
fn put_piece(out: &mut Bytes, alloc: Global, piece: &Piece) -> Result<(), AllocError>
    ensures { OnOk result (out.new ≡ out.old ++ piece_bytes piece.now) }
{
    match piece {
        Piece::Fill { byte, len } => {
            let filled = Bytes::filled(alloc, *byte, *len as usize)?;
            out.push_slice(filled.as_slice())
        }
        Piece::Seed { seed, len } => put_seed(out, *seed, *len),
        Piece::Hex(bytes) => out.push_slice(bytes.as_slice()),
    }
}

// The bytes of data.
fn data_bytes(alloc: Global, payload: &DataLine) -> Result<Bytes, AllocError>
    ensures { IfOk result (λ bytes. bytes ≡ data_bytes payload.now) }
{
    let mut bytes = Bytes::with_room(alloc, 0)?;
    for piece in &payload.pieces {
        put_piece(&mut bytes, alloc, piece)?;
    }
    Ok(bytes)
}

/// The bytes of the data of a NAME; none where no line has it.
pub fn bytes_named(alloc: Global, draft: &PlanDraft, name: &[u8]) -> Result<Bytes, AllocError>
    ensures { IfOk result (λ bytes. bytes ≡ bytes_of (data_named draft.now name.now)) }
{
    match draft.payload(name) {
        Some(payload) => data_bytes(alloc, payload),
        None => Bytes::with_room(alloc, 0),
    }
}
