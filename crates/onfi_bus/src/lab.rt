// A simulated chip, plain or behind a bus.
use crate::chip::BusChip;
use chip_sim::SimChip;
use nand_iface::{EraseFailed, Flash, ProgramFailed};
use nand_model::{BlockList, Geometry, Tear};
use std::alloc::AllocError;

/// A simulated chip, plain or behind a bus.
#[derive(Drop)]
pub enum LabChip {
    /// Its calls are done at once.
    Plain(SimChip),
    /// Its calls are done by the cycles of a bus.
    Bus(BusChip),
}

impl Flash for LabChip {
    ghost use Rattle.nand_model.specs.Chip.{SimFaults, sim_faults};
    ghost use Rattle.chip_sim.specs.FaultCode.{sim_fault_code};
    ghost use Rattle.onfi_bus.specs.Lab.{lab_bit_room, lab_room, lab_state};

    ghost FaultState = { SimFaults };

    ghost fault_code = { sim_fault_code };

    ghost fault_model = { sim_faults };

    ghost state = { lab_state };

    ghost room = { lab_room };

    ghost bit_room = { lab_bit_room };

    fn geometry(&self) -> Geometry {
        match self {
            LabChip::Plain(chip) => chip.geometry(),
            LabChip::Bus(chip) => chip.geometry(),
        }
    }

    fn reserve(&mut self, pages: u32, bits: u32) -> Result<(), AllocError> {
        match self {
            LabChip::Plain(chip) => chip.reserve(pages, bits),
            LabChip::Bus(chip) => chip.reserve(pages, bits),
        }
    }

    fn read_page(&self, page: u32, out: &mut [u8]) {
        match self {
            LabChip::Plain(chip) => chip.read_page(page, out),
            LabChip::Bus(chip) => chip.read_page(page, out),
        }
    }

    fn program_page(&mut self, page: u32, image: &[u8]) -> Result<(), ProgramFailed> {
        match self {
            LabChip::Plain(chip) => chip.program_page(page, image),
            LabChip::Bus(chip) => chip.program_page(page, image),
        }
    }

    fn erase_block(&mut self, block: u32) -> Result<(), EraseFailed> {
        match self {
            LabChip::Plain(chip) => chip.erase_block(block),
            LabChip::Bus(chip) => chip.erase_block(block),
        }
    }

    fn torn_program(&mut self, page: u32, image: &[u8], tear: &Tear) {
        match self {
            LabChip::Plain(chip) => chip.torn_program(page, image, tear),
            LabChip::Bus(chip) => chip.torn_program(page, image, tear),
        }
    }

    fn torn_erase(&mut self, block: u32, tear: &Tear) {
        match self {
            LabChip::Plain(chip) => chip.torn_erase(block, tear),
            LabChip::Bus(chip) => chip.torn_erase(block, tear),
        }
    }

    fn flip(&mut self, page: u32, bits: &BlockList) {
        match self {
            LabChip::Plain(chip) => chip.flip(page, bits),
            LabChip::Bus(chip) => chip.flip(page, bits),
        }
    }

    fn flips(&self, page: u32, from: u32, to: u32) -> u32 {
        match self {
            LabChip::Plain(chip) => chip.flips(page, from, to),
            LabChip::Bus(chip) => chip.flips(page, from, to),
        }
    }

    fn torn(&self, page: u32) -> bool {
        match self {
            LabChip::Plain(chip) => chip.torn(page),
            LabChip::Bus(chip) => chip.torn(page),
        }
    }

    fn flipped_since(&self, page: u32) -> bool {
        match self {
            LabChip::Plain(chip) => chip.flipped_since(page),
            LabChip::Bus(chip) => chip.flipped_since(page),
        }
    }
}
