// A boot of all controllers.
ghost use Rattle.std.specs.Prelude.{◌≡◌, ◌<◌, length, map, IfOk};
ghost use Rattle.onfi_bus.specs.Lab.{lab_state};
ghost use Rattle.plan_grammar.specs.Meaning.{plan_of};
ghost use Rattle.plan_replay.specs.Boots.{AllHaveSizes, EndBoot, GoThroughBoot, states_left};

use crate::controller::{EndedController, run_controller};
use crate::devices::put_all_devices;
use crate::sessions::put_sessions;
use nand_model::{Bytes, ItemList};
use onfi_bus::LabChip;
use plan_text::Plan;
use report_text::{put_boot, put_boot_end};
use std::alloc::{AllocError, Global};
use tool_steps::FlashList;

/// The flashes of each controller.
pub type Flashes = ItemList<FlashList<LabChip>>;

// Runs each controller's part of a boot on its flashes, and appends the controllers' lines.
fn run_controllers(
    alloc: Global,
    out: &mut Bytes,
    plan: &Plan,
    boot: u32,
    flashes: Flashes,
) -> Result<ItemList<EndedController>, AllocError>
    requires boots { boot < length (plan_of plan.now).boots }
    requires sizes { AllHaveSizes (plan_of plan.now) (map (map lab_state) flashes) }
    ensures { IfOk result (λ ends. GoThroughBoot (plan_of plan.now) boot
        (map (map lab_state) flashes) ends out.old out.new) }
{
    plan.was_read();
    let mut ends = ItemList::new(alloc);
    let mut rest = flashes;
    while let Some(own) = rest.take_first() {
        let controller = ends.len() as u32;
        ends.append(run_controller(alloc, out, plan, boot, controller, own)?)?;
    }
    Ok(ends)
}

// The flashes that controllers left.
fn flashes_left(alloc: Global, ends: ItemList<EndedController>) -> Result<Flashes, AllocError>
    ensures { IfOk result (λ flashes. map (map lab_state) flashes ≡ states_left ends) }
{
    let mut flashes = Flashes::new(alloc);
    let mut rest = ends;
    while let Some(ended) = rest.take_first() {
        flashes.append(ended.flashes)?;
    }
    Ok(flashes)
}

/// Runs a boot of all controllers on these flashes, and appends its text: the controllers with
/// their notes, then the sessions, then the devices.
pub fn run_boot(
    alloc: Global,
    out: &mut Bytes,
    plan: &Plan,
    boot: u32,
    flashes: Flashes,
) -> Result<Flashes, AllocError>
    requires boots { boot < length (plan_of plan.now).boots }
    requires sizes { AllHaveSizes (plan_of plan.now) (map (map lab_state) flashes) }
    ensures { IfOk result (λ left. EndBoot (plan_of plan.now) boot (map (map lab_state) flashes)
        (map (map lab_state) left) out.old out.new) }
{
    put_boot(out, boot)?;
    let ends = run_controllers(alloc, out, plan, boot, flashes)?;
    put_sessions(alloc, out, plan, boot, &ends)?;
    put_all_devices(out, &ends)?;
    put_boot_end(out, boot)?;
    flashes_left(alloc, ends)
}
