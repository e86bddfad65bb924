// The pages of a simulated chip.
ghost use Rattle.std.specs.Prelude.{◌≡◌, ℕ, ◌<◌, ◌≤◌, ◌+◌, ◌-◌, ◌^◌, min, length, fold, All, OnOk, IfOk};
ghost use Rattle.nand_model.specs.Chip.{blank_page, done_bits, flipped, good_program, new_page, torn_erase, torn_program, with_block, with_page};
ghost use Rattle.nand_model.specs.Flips.{FitsBits, flips_between};
ghost use Rattle.nand_model.specs.Sizes.{page_count, raw_len};
ghost use Rattle.nand_iface.specs.Flash.{FitsPage};
ghost use Rattle.chip_sim.specs.Slots.{IsWholeSlot};

use crate::blank_pages::BlankPages;
use crate::flip_log::FlipLog;
use crate::slots::{
    Slot, clear_slots, flip_slot, new_slots, program_slot, tear_slot_program, tear_slots,
};
use nand_model::{BlockList, Geometry, Tear};
use std::alloc::{AllocError, Global};

/// The pages of a chip of these sizes, with cells only for those that were programmed or flipped
/// since their last good erase, and the flips of all.
#[derive(Drop)]
pub struct PageStore {
    geometry: Geometry,
    slots: Vec<Slot>,
    blanks: BlankPages,
    log: FlipLog,
    ghost all_there: { length slots.items ≡ page_count geometry },
    ghost whole: { All (IsWholeSlot (raw_len geometry)) slots.items },
    ghost blanks_fit: { blanks.raw ≡ raw_len geometry },
    ghost flips_fit: { length log.flips ≡ page_count geometry },
}

impl PageStore {
    ghost use Rattle.chip_sim.specs.Store.{stored_pages};

    /// Erased pages, except that spare byte 0 of the first page of each block of `bad` is 0x00.
    pub fn new(alloc: Global, g: Geometry, bad: &BlockList) -> Result<PageStore, AllocError>
        requires { All (λ block. block < g.blocks) bad.now }
        ensures geometry { IfOk result (λ store. store.geometry ≡ g) }
        ensures pages { IfOk result
            (λ store. (page : ℕ) → stored_pages store page ≡ new_page g bad.now page) }
    {
        let slots = new_slots(alloc, g, bad)?;
        let log = FlipLog::new(alloc, slots.len())?;
        Ok(PageStore {
            geometry: g,
            slots,
            blanks: BlankPages::new(alloc, g.raw_len() as usize),
            log,
        })
    }

    /// The sizes of the chip.
    pub fn geometry(&self) -> Geometry
        ensures sizes { result ≡ self.now.geometry }
        ensures whole { (page : ℕ) → page < page_count self.now.geometry →
            length (stored_pages self.now page).cells ≡ raw_len self.now.geometry }
    {
        self.geometry
    }

    /// Makes room for at least `pages` erased pages that get cells, and for at least `bits` flips.
    /// Where memory runs out, there is no less than before.
    pub fn reserve(&mut self, pages: u32, bits: u32) -> Result<(), AllocError>
        ensures room { OnOk result (pages ≤ self.new.blanks.left) }
        ensures bit_room { OnOk result (bits ≤ self.new.log.room) }
        ensures no_less { self.old.blanks.left ≤ self.new.blanks.left }
        ensures no_fewer_bits { self.old.log.room ≤ self.new.log.room }
        ensures geometry { self.new.geometry ≡ self.old.geometry }
        ensures pages { (page : ℕ) → stored_pages self.new page ≡ stored_pages self.old page }
    {
        self.blanks.reserve(pages as usize)?;
        self.log.reserve(bits as usize)
    }

    /// Reads a page: `out` becomes its cells.
    pub fn read(&self, page: u32, out: &mut [u8])
        requires { FitsPage self.now.geometry page out.old }
        ensures { out.new ≡ (stored_pages self.now page).cells }
    {
        match &self.slots[page as usize] {
            Slot::Kept(page) => out.copy_from_slice(page.cells.as_slice()),
            Slot::Blank { .. } => out.fill(0xff),
        }
    }

    /// Programs a page.
    pub fn program(&mut self, page: u32, image: &[u8])
        requires place { FitsPage self.old.geometry page image.now }
        requires room { 0 < self.old.blanks.left }
        ensures pages { (p : ℕ) → stored_pages self.new p ≡ with_page (stored_pages self.old) page
            (good_program (stored_pages self.old page) image.now) p }
        ensures geometry { self.new.geometry ≡ self.old.geometry }
        ensures room { self.old.blanks.left ≤ self.new.blanks.left + 1 }
        ensures bit_room { self.old.log.room ≤ self.new.log.room }
    {
        program_slot(&mut self.slots[page as usize], &mut self.blanks, image);
    }

    /// Programs a page by the bits that a tear did.
    pub fn tear_program(&mut self, page: u32, image: &[u8], tear: &Tear)
        requires place { FitsPage self.old.geometry page image.now }
        requires room { 0 < self.old.blanks.left }
        ensures pages { (p : ℕ) → stored_pages self.new p ≡ with_page (stored_pages self.old) page
            (torn_program (stored_pages self.old page) image.now
            (done_bits (raw_len self.old.geometry) tear.now)) p }
        ensures geometry { self.new.geometry ≡ self.old.geometry }
        ensures room { self.old.blanks.left ≤ self.new.blanks.left + 1 }
        ensures bit_room { self.old.log.room ≤ self.new.log.room }
    {
        let raw_len = self.geometry.raw_len();
        let slot = &mut self.slots[page as usize];
        tear_slot_program(slot, &mut self.blanks, image, tear, raw_len);
    }

    /// Erases a block.
    pub fn erase(&mut self, block: u32)
        requires { block < self.old.geometry.blocks }
        ensures pages { (p : ℕ) → stored_pages self.new p
            ≡ with_block self.old.geometry (stored_pages self.old) block
            (λ q old. blank_page self.old.geometry) p }
        ensures geometry { self.new.geometry ≡ self.old.geometry }
        ensures room { self.old.blanks.left ≤ self.new.blanks.left }
        ensures bit_room { self.old.log.room ≤ self.new.log.room }
    {
        let first = block * self.geometry.pages_per_block;
        let end = first + self.geometry.pages_per_block;
        clear_slots(&mut self.slots, first as usize, end as usize);
        self.log.forget(first, end);
    }

    /// Erases a block by the bits that a tear did.
    pub fn tear_erase(&mut self, block: u32, tear: &Tear)
        requires { block < self.old.geometry.blocks }
        ensures pages { (p : ℕ) → stored_pages self.new p
            ≡ with_block self.old.geometry (stored_pages self.old) block
            (torn_erase (done_bits (raw_len self.old.geometry) tear.now)) p }
        ensures geometry { self.new.geometry ≡ self.old.geometry }
        ensures room { self.old.blanks.left ≤ self.new.blanks.left }
        ensures bit_room { self.old.log.room ≤ self.new.log.room }
    {
        let pages_per_block = self.geometry.pages_per_block;
        let first = (block * pages_per_block) as usize;
        let raw_len = self.geometry.raw_len();
        tear_slots(&mut self.slots, first, pages_per_block, tear, raw_len);
    }

    /// Turns bits of a page one after the other.
    pub fn flip(&mut self, page: u32, bits: &BlockList)
        requires place { FitsBits self.old.geometry page bits.now }
        requires room { 0 < self.old.blanks.left }
        requires bit_room { length bits.now ≤ self.old.log.room }
        ensures pages { (p : ℕ) → stored_pages self.new p ≡ with_page (stored_pages self.old) page
            (fold flipped (stored_pages self.old page) bits.now) p }
        ensures geometry { self.new.geometry ≡ self.old.geometry }
        ensures room { self.old.blanks.left ≤ self.new.blanks.left + 1 }
        ensures bit_room { self.old.log.room ≤ self.new.log.room + length bits.now }
    {
        if bits.len() > 0 {
            flip_slot(&mut self.slots[page as usize], &mut self.blanks, bits);
            self.log.add(page, bits);
        }
    }

    /// The number of flips of a page in bits `from` up to but not including `to`; 2^32 - 1 where
    /// there are more.
    pub fn flips(&self, page: u32, from: u32, to: u32) -> u32
        ensures { result ≡ min (flips_between (stored_pages self.now page).flips from to)
            (2 ^ 32 - 1) }
    {
        self.log.count(page, from, to)
    }

    /// Whether the last program or erase that touched a page was torn or failed.
    pub fn torn(&self, page: u32) -> bool
        requires { page < page_count self.now.geometry }
        ensures { result ≡ (stored_pages self.now page).torn }
    {
        match &self.slots[page as usize] {
            Slot::Kept(page) => page.torn,
            Slot::Blank { torn } => *torn,
        }
    }

    /// Whether a bit of a page was flipped since its last good program or erase, or since the first
    /// torn or failed one after that.
    pub fn flipped_since(&self, page: u32) -> bool
        requires { page < page_count self.now.geometry }
        ensures { result ≡ (stored_pages self.now page).flipped_since }
    {
        match &self.slots[page as usize] {
            Slot::Kept(page) => page.flipped_since,
            Slot::Blank { .. } => false,
        }
    }
}
