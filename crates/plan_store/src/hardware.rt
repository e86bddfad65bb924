// What is kept of the controllers' lines.
ghost use Rattle.std.specs.Prelude.{◌≡◌, [], ◌∷◌, ◌++◌, List, IfOk, IsSome};
ghost use Rattle.plan_grammar.specs.declared.lines.ChipLines.{ChipLines as Chip};
ghost use Rattle.plan_store.specs.Hardware.{HardwareInStep};

use nand_model::Geometry;
use plan_index::{ChipMarks, DeviceSize};
use std::alloc::{AllocError, Global};

/// What is kept of the lines of controllers.
#[derive(Drop)]
pub struct HardwareIndex {
    /// The pages of all chips.
    pub pages: u32,
    /// The places of the last chip.
    pub marks: ChipMarks,
    /// The devices.
    pub devices: Vec<DeviceSize>,
}

impl HardwareIndex {
    /// Of no lines. It takes no memory.
    pub fn new(alloc: Global) -> HardwareIndex
        ensures { HardwareInStep [] result }
    {
        HardwareIndex {
            pages: 0,
            marks: ChipMarks::none(alloc),
            devices: Vec::new(alloc),
        }
    }
}
