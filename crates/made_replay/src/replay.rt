// The replay of a plan, added up.
ghost use Rattle.std.specs.Prelude.{IfOk};
ghost use Rattle.plan_grammar.specs.Meaning.{plan_of};
ghost use Rattle.made_replay.specs.AddedUp.{AreTotalsOf};

use crate::boot::add_boot;
use made_plan::Sums;
use plan_replay::new_flashes;
use plan_text::Plan;
use std::alloc::{AllocError, Global};

/// What a replay adds up to.
#[derive(Clone, Copy, Debug, PartialEq, Eq)]
pub struct Totals {
    /// The sums of the answers over all boots.
    pub sums: Sums,
    /// The number of blocks of all chips that are worn or factory bad after the last boot.
    pub bad_blocks: u64,
}

/// Replays a plan: each controller's boots one after the other, each boot from the flashes that the
/// one before it left, by the boot's schedule and then rounds of all its sessions. Gives what the
/// answers add up to, and the bad blocks after the last boot. No text of a report is made.
pub fn replay_totals(alloc: Global, plan: &Plan) -> Result<Totals, AllocError>
    ensures { IfOk result (AreTotalsOf (plan_of plan.now)) }
{
    let mut totals = Totals {
        sums: Sums::new(),
        bad_blocks: 0,
    };
    let mut flashes = new_flashes(alloc, plan)?;
    for boot in 0..plan.boots() {
        let left = add_boot(alloc, &mut totals.sums, plan, boot, flashes)?;
        totals.bad_blocks = left.bad_blocks;
        flashes = left.flashes;
    }
    Ok(totals)
}
