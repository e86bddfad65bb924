// The blocks of a table that are bad.
ghost use Rattle.std.specs.Prelude.{◌≡◌, ◌++◌, OnOk, IfOk};
ghost use Rattle.report_model.specs.Report.{bad_entries, joined_by_commas};
ghost use Rattle.report_text.specs.Printing.{entry_text, any_after};

use crate::words::{put_count, put_text};
use nand_model::Bytes;
use std::alloc::AllocError;

// Appends a block with its letter where its state is worn or factory bad, after a comma where one
// came before; answers whether one came by now.
fn put_bad_block(out: &mut Bytes, any: bool, block: usize, state: u8) -> Result<bool, AllocError>
    ensures text { OnOk result (out.new ≡ out.old ++ entry_text any block state) }
    ensures any { IfOk result (λ now. now ≡ any_after any state) }
{
    let letter = match state {
        1 => "w",
        3 => "f",
        _ => return Ok(any),
    };
    put_count(out, if any { "," } else { "" }, block as u64)?;
    put_text(out, letter)?;
    Ok(true)
}

/// Appends the blocks of a table that are worn or factory bad, each with its letter, parted by
/// commas; `-` where there is none.
pub fn put_bad_blocks(out: &mut Bytes, states: &[u8]) -> Result<(), AllocError>
    ensures { OnOk result (out.new ≡ out.old ++ joined_by_commas (bad_entries 0 states.now)) }
{
    let mut any = false;
    for (block, state) in states.iter().enumerate() {
        any = put_bad_block(out, any, block, *state)?;
    }
    if any { Ok(()) } else { put_text(out, "-") }
}
