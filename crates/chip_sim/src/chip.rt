// A simulated chip.
ghost use Rattle.std.specs.Prelude.{◌≡◌, ◌<◌, All, IfOk, true};
ghost use Rattle.fault_plan.specs.WeakPlaces.{are_apart};

use crate::page_store::PageStore;
use crate::weak_places::WeakPlaces;
use fault_plan::{WeakKind, WeakList};
use nand_iface::{EraseFailed, Flash, ProgramFailed};
use nand_model::{BlockList, Geometry, Tear};
use std::alloc::{AllocError, Global};

/// A simulated NAND flash chip, after nandsim. It keeps cells only for the pages that were
/// programmed or flipped since their last good erase. A program or erase fails exactly where its
/// page or block is a weak place of that kind that has had the calls that succeed first, counted
/// over the chip's whole life; calls that a power cut tears count too.
#[derive(Drop)]
pub struct SimChip {
    store: PageStore,
    weak: WeakPlaces,
    faults: u64,
}

impl SimChip {
    ghost use Rattle.nand_model.specs.Chip.{new_chip};
    ghost use Rattle.chip_sim.specs.State.{sim_state};

    /// A chip that is erased, except that spare byte 0 of the first page of each block of `bad` is
    /// 0x00, and that has these weak places.
    pub fn new(
        alloc: Global,
        g: Geometry,
        bad: &BlockList,
        weak: WeakList,
    ) -> Result<SimChip, AllocError>
        requires bad { All (λ block. block < g.blocks) bad.now }
        requires apart { are_apart weak ≡ true }
        ensures { IfOk result (λ chip. sim_state chip ≡ new_chip g bad.now weak) }
    {
        Ok(SimChip {
            store: PageStore::new(alloc, g, bad)?,
            weak: WeakPlaces::new(alloc, weak)?,
            faults: 0,
        })
    }
}

impl Flash for SimChip {
    ghost use Rattle.nand_model.specs.Chip.{SimFaults, sim_faults};
    ghost use Rattle.chip_sim.specs.FaultCode.{sim_fault_code};
    ghost use Rattle.chip_sim.specs.State.{sim_state, sim_room, sim_bit_room};

    ghost FaultState = { SimFaults };

    ghost fault_code = { sim_fault_code };

    ghost fault_model = { sim_faults };

    ghost state = { sim_state };

    ghost room = { sim_room };

    ghost bit_room = { sim_bit_room };

    fn geometry(&self) -> Geometry {
        self.store.geometry()
    }

    fn reserve(&mut self, pages: u32, bits: u32) -> Result<(), AllocError> {
        self.store.reserve(pages, bits)
    }

    fn read_page(&self, page: u32, out: &mut [u8]) {
        self.store.read(page, out);
    }

    fn program_page(&mut self, page: u32, image: &[u8]) -> Result<(), ProgramFailed> {
        let kind = WeakKind::Program;
        let Some(weakness) = self.weak.failing(kind, page) else {
            self.store.program(page, image);
            self.weak.count(kind, page);
            return Ok(());
        };
        self.store.tear_program(page, image, weakness);
        self.weak.count(kind, page);
        self.faults = self.faults.saturating_add(1);
        Err(ProgramFailed)
    }

    fn erase_block(&mut self, block: u32) -> Result<(), EraseFailed> {
        let kind = WeakKind::Erase;
        let Some(weakness) = self.weak.failing(kind, block) else {
            self.store.erase(block);
            self.weak.count(kind, block);
            return Ok(());
        };
        self.store.tear_erase(block, weakness);
        self.weak.count(kind, block);
        self.faults = self.faults.saturating_add(1);
        Err(EraseFailed)
    }

    fn torn_program(&mut self, page: u32, image: &[u8], tear: &Tear) {
        self.store.tear_program(page, image, tear);
        self.weak.count(WeakKind::Program, page);
    }

    fn torn_erase(&mut self, block: u32, tear: &Tear) {
        self.store.tear_erase(block, tear);
        self.weak.count(WeakKind::Erase, block);
    }

    fn flip(&mut self, page: u32, bits: &BlockList) {
        self.store.flip(page, bits);
    }

    fn flips(&self, page: u32, from: u32, to: u32) -> u32 {
        self.store.flips(page, from, to)
    }

    fn torn(&self, page: u32) -> bool {
        self.store.torn(page)
    }

    fn flipped_since(&self, page: u32) -> bool {
        self.store.flipped_since(page)
    }
}

#[cfg(test)]
mod tests;
