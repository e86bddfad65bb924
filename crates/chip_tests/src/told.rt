// A flash of the tests' own.
ghost use Rattle.std.specs.Prelude.{◌≡◌, ◌<◌, [], length, All, IfOk};
ghost use Rattle.chip_sim.specs.State.{sim_state};
ghost use Rattle.nand_model.specs.Chip.{new_chip};
ghost use Rattle.chip_tests.specs.Failures.{told_of};

use crate::failures::{Failures, is_told};
use chip_sim::SimChip;
use fault_plan::WeakList;
use nand_iface::{EraseFailed, Flash, ProgramFailed};
use nand_model::{BlockList, Geometry, Tear};
use std::alloc::{AllocError, Global};

/// A simulated flash whose programs and erases fail where it was told, in the order of its life.
/// Calls that a power cut tears count too.
#[derive(Drop)]
pub struct ToldChip {
    chip: SimChip,
    failures: Failures,
    faults: u64,
    ghost no_weak_place: { length (sim_state chip).fault_state.weak ≡ 0 },
}

impl ToldChip {
    ghost use Rattle.chip_tests.specs.Told.{told_state};

    /// A new chip with these factory-bad blocks.
    pub fn new(
        alloc: Global,
        g: Geometry,
        bad: &BlockList,
        failures: Failures,
    ) -> Result<ToldChip, AllocError>
        requires { All (λ block. block < g.blocks) bad.now }
        ensures { IfOk result (λ chip. told_state chip
            ≡ told_of (new_chip g bad.now []) failures 0) }
    {
        Ok(ToldChip {
            chip: SimChip::new(alloc, g, bad, WeakList::new(alloc))?,
            failures,
            faults: 0,
        })
    }
}

impl Flash for ToldChip {
    ghost use Rattle.chip_tests.specs.Failures.{told_fault_code, told_faults};
    ghost use Rattle.chip_tests.specs.Told.{told_bit_room, told_room, told_state};
    ghost use Rattle.chip_tests.specs.declared.failures.Failures.{Failures};

    ghost FaultState = { Failures };

    ghost fault_code = { told_fault_code };

    ghost fault_model = { told_faults };

    ghost state = { told_state };

    ghost room = { told_room };

    ghost bit_room = { told_bit_room };

    fn geometry(&self) -> Geometry {
        self.chip.geometry()
    }

    fn reserve(&mut self, pages: u32, bits: u32) -> Result<(), AllocError> {
        self.chip.reserve(pages, bits)
    }

    fn read_page(&self, page: u32, out: &mut [u8]) {
        self.chip.read_page(page, out);
    }

    fn program_page(&mut self, page: u32, image: &[u8]) -> Result<(), ProgramFailed> {
        let fails = is_told(self.failures.programs);
        self.failures.programs /= 2;
        if fails {
            self.faults = self.faults.saturating_add(1);
            self.chip.torn_program(page, image, &self.failures.tear());
            return Err(ProgramFailed);
        }
        self.chip.program_page(page, image)
    }

    fn erase_block(&mut self, block: u32) -> Result<(), EraseFailed> {
        let fails = is_told(self.failures.erases);
        self.failures.erases /= 2;
        if fails {
            self.faults = self.faults.saturating_add(1);
            self.chip.torn_erase(block, &self.failures.tear());
            return Err(EraseFailed);
        }
        self.chip.erase_block(block)
    }

    fn torn_program(&mut self, page: u32, image: &[u8], tear: &Tear) {
        self.failures.programs /= 2;
        self.chip.torn_program(page, image, tear);
    }

    fn torn_erase(&mut self, block: u32, tear: &Tear) {
        self.failures.erases /= 2;
        self.chip.torn_erase(block, tear);
    }

    fn flip(&mut self, page: u32, bits: &BlockList) {
        self.chip.flip(page, bits);
    }

    fn flips(&self, page: u32, from: u32, to: u32) -> u32 {
        self.chip.flips(page, from, to)
    }

    fn torn(&self, page: u32) -> bool {
        self.chip.torn(page)
    }

    fn flipped_since(&self, page: u32) -> bool {
        self.chip.flipped_since(page)
    }
}
