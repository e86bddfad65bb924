// A boot of all controllers, whose answers are added up.
ghost use Rattle.std.specs.Prelude.{◌≡◌, ◌<◌, ◌≤◌, ◌+◌, ◌*◌, ◌^◌, length, map, IfOk};
ghost use Rattle.onfi_bus.specs.Lab.{lab_state};
ghost use Rattle.plan_grammar.specs.Meaning.{plan_of};
ghost use Rattle.plan_replay.specs.Boots.{AllHaveSizes};
ghost use Rattle.made_replay.specs.AddedUp.{AddsUpBoot};

use made_plan::Sums;
use plan_replay::{Flashes, go_through};
use plan_text::Plan;
use std::alloc::{AllocError, Global};

/// What all controllers leave of a boot.
#[derive(Drop)]
pub struct Left {
    /// The flashes of each controller.
    pub flashes: Flashes,
    /// The number of blocks of all chips that are worn or factory bad.
    pub bad_blocks: u64,
}

// The bad blocks of some controllers and those of one more.
fn bad_with(bad_blocks: u64, more: u32) -> u64
    requires { bad_blocks ≤ 8 * 2 ^ 32 }
    ensures sum { result ≡ bad_blocks + more }
    ensures few { more < 2 ^ 32 }
{
    bad_blocks + u64::from(more)
}

/// Runs a boot of all controllers on these flashes, and adds their answers to the sums. The notes
/// of a controller are given back as soon as they are added.
pub fn add_boot(
    alloc: Global,
    sums: &mut Sums,
    plan: &Plan,
    boot: u32,
    flashes: Flashes,
) -> Result<Left, AllocError>
    requires boots { boot < length (plan_of plan.now).boots }
    requires sizes { AllHaveSizes (plan_of plan.now) (map (map lab_state) flashes) }
    ensures { IfOk result (λ left. AddsUpBoot (plan_of plan.now) boot (map (map lab_state) flashes)
        (map (map lab_state) left.flashes) sums.old sums.new left.bad_blocks) }
{
    plan.was_read();
    let mut left = Left {
        flashes: Flashes::new(alloc),
        bad_blocks: 0,
    };
    let mut rest = flashes;
    while let Some(own) = rest.take_first() {
        let controller = left.flashes.len() as u32;
        let (ended, notes) = go_through(alloc, plan, boot, controller, own)?;
        sums.add_notes(&notes);
        left.bad_blocks = bad_with(left.bad_blocks, ended.bad);
        left.flashes.append(ended.flashes)?;
    }
    Ok(left)
}
