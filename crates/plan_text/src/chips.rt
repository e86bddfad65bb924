// The new chips of a plan.
ghost use Rattle.std.specs.Prelude.{◌≡◌, ◌<◌, ◌++◌, length, map, All, IfOk, OnOk};
ghost use Rattle.chip_sim.specs.State.{sim_state};
ghost use Rattle.nand_model.specs.Chip.{new_chip};
ghost use Rattle.plan_model.specs.Plan.{new_chips};
ghost use Rattle.plan_grammar.specs.Devices.{bad_blocks, has_bus, weak_places};
ghost use Rattle.plan_grammar.specs.Meaning.{chip_plan, plan_of};
ghost use Rattle.plan_laws.specs.Ready.{chips_at};
ghost use Rattle.plan_text.specs.Plan.{IsMadeChip, on_bus};

use crate::faults::copy_of_tear;
use crate::plan::Plan;
use chip_sim::SimChip;
use fault_plan::{Weak, WeakList};
use nand_model::{BlockList, ItemList};
use plan_grammar::{ChipLines, DetailLine};
use std::alloc::{AllocError, Global};
use tool_steps::FlashList;

// Appends blocks.
fn put_blocks(out: &mut BlockList, blocks: &BlockList) -> Result<(), AllocError>
    ensures { OnOk result (out.new ≡ out.old ++ blocks.now) }
{
    for block in blocks {
        out.append(*block)?;
    }
    Ok(())
}

// The factory-bad blocks of a chip.
fn bad_blocks(alloc: Global, chip: &ChipLines) -> Result<BlockList, AllocError>
    ensures { IfOk result (λ bad. bad ≡ bad_blocks chip.now) }
{
    let mut bad = BlockList::new(alloc);
    for detail in &chip.details {
        if let DetailLine::Bad(blocks) = detail {
            put_blocks(&mut bad, blocks)?;
        }
    }
    Ok(bad)
}

// A copy of a weak place.
fn copy_of_weak(alloc: Global, weak: &Weak) -> Result<Weak, AllocError>
    ensures { IfOk result (λ copy. copy ≡ weak.now) }
{
    Ok(Weak {
        kind: weak.kind,
        at: weak.at,
        after: weak.after,
        tear: copy_of_tear(alloc, &weak.tear)?,
    })
}

// The weak places of a chip.
fn weak_places(alloc: Global, chip: &ChipLines) -> Result<WeakList, AllocError>
    ensures { IfOk result (λ weak. weak ≡ weak_places chip.now) }
{
    let mut places = WeakList::new(alloc);
    for detail in &chip.details {
        if let DetailLine::Weak(weak) = detail {
            places.push(copy_of_weak(alloc, weak)?)?;
        }
    }
    Ok(places)
}

// Whether a chip is behind a bus.
fn has_bus(chip: &ChipLines) -> bool
    ensures { result ≡ has_bus chip.now }
{
    chip.details
        .iter()
        .any(|detail| matches!(detail, DetailLine::Bus))
}

// A new chip.
fn new_chip(alloc: Global, chip: &ChipLines) -> Result<SimChip, AllocError>
    requires { IsMadeChip chip.now }
    ensures { IfOk result (λ made. sim_state made
        ≡ new_chip chip.now.geometry (bad_blocks chip.now) (weak_places chip.now)) }
{
    let bad = bad_blocks(alloc, chip)?;
    SimChip::new(alloc, chip.geometry, &bad, weak_places(alloc, chip)?)
}

// New chips.
fn new_chips(alloc: Global, chips: &ItemList<ChipLines>) -> Result<FlashList<SimChip>, AllocError>
    requires { All IsMadeChip chips.now }
    ensures { IfOk result (λ flashes. map sim_state flashes ≡ new_chips (map chip_plan chips.now)) }
{
    let mut flashes = FlashList::new(alloc);
    for chip in chips {
        flashes.append(new_chip(alloc, chip)?)?;
    }
    Ok(flashes)
}

impl Plan {
    /// The new chips of a controller.
    pub fn chips(&self, alloc: Global, controller: u32) -> Result<FlashList<SimChip>, AllocError>
        requires { controller < length (plan_of self.now).controllers }
        ensures { IfOk result (λ flashes. map sim_state flashes
            ≡ new_chips (chips_at (plan_of self.now) controller)) }
    {
        let _kept = &self.commands;
        new_chips(alloc, self.lines().controllers.get(controller as usize))
    }

    /// Whether a chip of a controller is behind a bus. A chip that is not there is not.
    pub fn on_bus(&self, controller: u32, chip: u32) -> bool
        ensures { result ≡ on_bus self.now controller chip }
    {
        match self.draft.chip(u64::from(controller), u64::from(chip)) {
            Some(chip) => has_bus(chip),
            None => false,
        }
    }
}
