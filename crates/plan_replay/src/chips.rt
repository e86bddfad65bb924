// The new chips of a controller, plain or behind a bus.
ghost use Rattle.std.specs.Prelude.{◌≡◌, ◌<◌, ◌≤◌, length, map, IfOk};
ghost use Rattle.chip_sim.specs.State.{sim_state};
ghost use Rattle.onfi_bus.specs.Lab.{lab_state};
ghost use Rattle.plan_model.specs.Plan.{new_chips};
ghost use Rattle.plan_grammar.specs.Meaning.{plan_of};
ghost use Rattle.plan_laws.specs.Ready.{chips_at};
ghost use Rattle.plan_replay.specs.Buses.{AreOnTheirBuses, is_bus_chip};

use chip_sim::SimChip;
use onfi_bus::{BusChip, LabChip};
use plan_text::Plan;
use std::alloc::{AllocError, Global};
use tool_steps::FlashList;

// A chip, plain or behind a bus.
fn lab_chip(chip: SimChip, on_bus: bool) -> LabChip
    ensures state { lab_state result ≡ sim_state chip }
    ensures bus { is_bus_chip result ≡ on_bus }
{
    if on_bus {
        LabChip::Bus(BusChip::new(chip))
    } else {
        LabChip::Plain(chip)
    }
}

// The chips of a controller, each behind a bus where its lines say so.
fn lab_chips(
    alloc: Global,
    plan: &Plan,
    controller: u32,
    chips: FlashList<SimChip>,
) -> Result<FlashList<LabChip>, AllocError>
    requires { length chips ≤ 8 }
    ensures states { IfOk result (λ flashes. map lab_state flashes ≡ map sim_state chips) }
    ensures buses { IfOk result (AreOnTheirBuses plan.now controller) }
{
    let mut flashes = FlashList::new(alloc);
    let mut rest = chips;
    while let Some(chip) = rest.take_first() {
        let number = flashes.len() as u32;
        let on_bus = plan.on_bus(controller, number);
        flashes.append(lab_chip(chip, on_bus))?;
    }
    Ok(flashes)
}

/// The new chips of a controller of a plan, each behind a bus where its lines say so.
pub fn new_chips(
    alloc: Global,
    plan: &Plan,
    controller: u32,
) -> Result<FlashList<LabChip>, AllocError>
    requires { controller < length (plan_of plan.now).controllers }
    ensures states { IfOk result (λ flashes. map lab_state flashes
        ≡ new_chips (chips_at (plan_of plan.now) controller)) }
    ensures buses { IfOk result (AreOnTheirBuses plan.now controller) }
{
    plan.was_read();
    let chips = plan.chips(alloc, controller)?;
    lab_chips(alloc, plan, controller, chips)
}
