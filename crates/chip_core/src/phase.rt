// What a chip is at.
ghost use Rattle.std.specs.Prelude.{◌≡◌, ◌≤◌, ◌<◌, ◌+◌, ℕ, List, Option, length};
ghost use Rattle.nand_model.specs.Chip.{after_trace, flip_events};
ghost use Rattle.nand_model.specs.Flips.{FitsBits};
ghost use Rattle.nand_model.specs.declared.geometry.Geometry.{Geometry};

use crate::attach_run::AttachRun;
use crate::task::Task;
use nand_iface::Flash;
use nand_model::{BlockList, Geometry};

/// What a chip is at.
#[derive(Drop)]
pub enum Phase {
    /// It is being attached.
    Attaching(AttachRun),
    /// It is attached, and nothing is in flight.
    Resting,
    /// An operation is in flight.
    Working(Task),
}

impl Phase {
    ghost use Rattle.chip_core.specs.Phase.{KnowsQuiet, PhaseFits, pending_note_in, phase_stage, programs_left};
    ghost use Rattle.chip_core.specs.declared.attach_run.Finding.{Finding};
    ghost use Rattle.chip_core.specs.declared.knowledge.Knowledge.{Knowledge};
    ghost use Rattle.chip_core.specs.declared.sums.DeviceSums.{DeviceSums};

    /// The pages that may still be programmed.
    pub fn programs(&self, g: &Geometry) -> u32
        ensures { result ≡ programs_left g.now self.now }
    {
        match self {
            Phase::Attaching(run) => run.programs,
            Phase::Resting => 0,
            Phase::Working(task) => task.programs(g),
        }
    }

    /// Turns these bits of a page, as the flash does. What a chip is at stays.
    pub fn flip<F: Flash>(&mut self, flash: &mut F, page: u32, bits: &BlockList)
        requires place { FitsBits (F.state flash.old).geometry page bits.now }
        requires room { 0 < F.room flash.old }
        requires bits { length bits.now ≤ F.bit_room flash.old }
        requires knows { KnowsQuiet (F.state flash.old) self.old }
        ensures state { F.state flash.new
            ≡ after_trace F.fault_model (F.state flash.old) (flip_events page bits.now) }
        ensures knows { KnowsQuiet (F.state flash.new) self.new }
        ensures stage { (known : Knowledge) → phase_stage known self.new
            ≡ phase_stage known self.old }
        ensures note { (finding : Option Finding) → pending_note_in self.new finding
            ≡ pending_note_in self.old finding }
        ensures programs { (g : Geometry) → programs_left g self.new ≡ programs_left g self.old }
        ensures fits { (g : Geometry) (table : List ℕ) (sums : List DeviceSums)
            → PhaseFits g table sums self.old → PhaseFits g table sums self.new }
        ensures room { F.room flash.old ≤ F.room flash.new + 1 }
        ensures bits { F.bit_room flash.old ≤ F.bit_room flash.new + length bits.now }
    {
        match self {
            Phase::Attaching(run) => run.flip(flash, page, bits),
            Phase::Resting => flash.flip(page, bits),
            Phase::Working(_) => flash.flip(page, bits),
        }
    }
}
