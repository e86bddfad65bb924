// The replay of a plan.
ghost use Rattle.std.specs.Prelude.{◌≡◌, map, IfOk};
ghost use Rattle.onfi_bus.specs.Lab.{lab_state};
ghost use Rattle.plan_model.specs.Plan.{new_chips};
ghost use Rattle.plan_grammar.specs.Meaning.{plan_of};
ghost use Rattle.headline_model.specs.Headline.{IsReplayOf};
ghost use Rattle.plan_replay.specs.Buses.{AreAllOnTheirBuses};

use crate::boot::{Flashes, run_boot};
use crate::chips::new_chips;
use nand_model::Bytes;
use plan_text::Plan;
use std::alloc::{AllocError, Global};

/// The new chips of each controller of a plan, each behind a bus where its lines say so.
pub fn new_flashes(alloc: Global, plan: &Plan) -> Result<Flashes, AllocError>
    ensures states { IfOk result (λ flashes. map (map lab_state) flashes
        ≡ map new_chips (plan_of plan.now).controllers) }
    ensures buses { IfOk result (AreAllOnTheirBuses plan.now) }
{
    let mut flashes = Flashes::new(alloc);
    for controller in 0..plan.controllers() {
        flashes.append(new_chips(alloc, plan, controller)?)?;
    }
    Ok(flashes)
}

/// Replays a plan: each controller's boots one after the other, each boot from the flashes that the
/// one before it left, by the boot's schedule and then rounds of all its sessions. Gives the text
/// of the plan's report (the format is this project's own).
pub fn replay_report(alloc: Global, plan: &Plan) -> Result<Bytes, AllocError>
    ensures { IfOk result (IsReplayOf (plan_of plan.now)) }
{
    let mut out = Bytes::with_room(alloc, 0)?;
    let mut flashes = new_flashes(alloc, plan)?;
    for boot in 0..plan.boots() {
        flashes = run_boot(alloc, &mut out, plan, boot, flashes)?;
    }
    Ok(out)
}
