// The summary of the replay of the plan of a number.
ghost use Rattle.std.specs.Prelude.{IfOk};
ghost use Rattle.made_replay.specs.Summary.{IsSummaryOf};

use crate::replay::replay_totals;
use made_plan::{made, put_summary};
use nand_model::Bytes;
use std::alloc::{AllocError, Global};

/// Replays the plan of a number, and gives the text of its summary (the form is this project's
/// own).
pub fn made_summary(alloc: Global, n: u64) -> Result<Bytes, AllocError>
    ensures { IfOk result (IsSummaryOf n) }
{
    let plan = made(alloc, n)?;
    let totals = replay_totals(alloc, &plan)?;
    let mut text = Bytes::with_room(alloc, 0)?;
    put_summary(&mut text, n, &totals.sums, totals.bad_blocks)?;
    Ok(text)
}
