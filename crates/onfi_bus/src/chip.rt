// A simulated chip behind a bus.
ghost use Rattle.std.specs.Prelude.{◌≡◌};

use crate::transfer::{erase_by_cycles, program_by_cycles, read_by_cycles};
use chip_sim::SimChip;
use nand_iface::{EraseFailed, Flash, ProgramFailed};
use nand_model::{BlockList, Geometry, Tear};
use std::alloc::AllocError;

/// A simulated chip that is reached by the cycles of a bus: pages are read and programmed and
/// blocks are erased by whole phrases, and failures are told by the status. The other calls go to
/// the chip.
#[derive(Drop)]
pub struct BusChip {
    chip: SimChip,
}

impl BusChip {
    ghost use Rattle.chip_sim.specs.State.{sim_bit_room, sim_room, sim_state};
    ghost use Rattle.onfi_bus.specs.Chips.{bus_bit_room, bus_room, bus_state};

    /// Puts a chip behind a bus.
    pub fn new(chip: SimChip) -> BusChip
        ensures state { bus_state result ≡ sim_state chip }
        ensures room { bus_room result ≡ sim_room chip }
        ensures bit_room { bus_bit_room result ≡ sim_bit_room chip }
    {
        BusChip { chip }
    }
}

impl Flash for BusChip {
    ghost use Rattle.nand_model.specs.Chip.{SimFaults, sim_faults};
    ghost use Rattle.chip_sim.specs.FaultCode.{sim_fault_code};
    ghost use Rattle.onfi_bus.specs.Chips.{bus_bit_room, bus_room, bus_state};

    ghost FaultState = { SimFaults };

    ghost fault_code = { sim_fault_code };

    ghost fault_model = { sim_faults };

    ghost state = { bus_state };

    ghost room = { bus_room };

    ghost bit_room = { bus_bit_room };

    fn geometry(&self) -> Geometry {
        self.chip.geometry()
    }

    fn reserve(&mut self, pages: u32, bits: u32) -> Result<(), AllocError> {
        self.chip.reserve(pages, bits)
    }

    fn read_page(&self, page: u32, out: &mut [u8]) {
        read_by_cycles(&self.chip, page, out);
    }

    fn program_page(&mut self, page: u32, image: &[u8]) -> Result<(), ProgramFailed> {
        program_by_cycles(&mut self.chip, page, image)
    }

    fn erase_block(&mut self, block: u32) -> Result<(), EraseFailed> {
        erase_by_cycles(&mut self.chip, block)
    }

    fn torn_program(&mut self, page: u32, image: &[u8], tear: &Tear) {
        self.chip.torn_program(page, image, tear);
    }

    fn torn_erase(&mut self, block: u32, tear: &Tear) {
        self.chip.torn_erase(block, tear);
    }

    fn flip(&mut self, page: u32, bits: &BlockList) {
        self.chip.flip(page, bits);
    }

    fn flips(&self, page: u32, from: u32, to: u32) -> u32 {
        self.chip.flips(page, from, to)
    }

    fn torn(&self, page: u32) -> bool {
        self.chip.torn(page)
    }

    fn flipped_since(&self, page: u32) -> bool {
        self.chip.flipped_since(page)
    }
}
