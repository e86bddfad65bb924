// The slots of a chip's pages.
ghost use Rattle.std.specs.Prelude.{◌≡◌, ℕ, ◌+◌, ◌-◌, ◌*◌, ◌≤◌, ◌<◌, ◌&&◌, nat_le, nat_lt, if◌then◌else◌, false, [], replicate, length, slice_set, All, IfOk};
ghost use Rattle.nand_model.specs.Chip.{new_page};
ghost use Rattle.nand_model.specs.Sizes.{page_count, raw_len};
ghost use Rattle.chip_sim.specs.declared.slots.Slot.TheVariants.{Blank};
ghost use Rattle.chip_sim.specs.Blanks.{blank_cells};
ghost use Rattle.chip_sim.specs.Slots.{IsWholeSlot, cells_of, erase_torn, flipped_slot, is_flipped_since, is_torn, page_of, program_torn, programmed_slot, slot_at};

use crate::blank_pages::BlankPages;
use crate::page::Page;
use nand_model::{BlockList, Bytes, Geometry, Tear};
use std::alloc::{AllocError, Global};
use std::mem;

/// What is kept of a page.
#[derive(Drop)]
pub enum Slot {
    /// The page is erased, and no cells are kept. `torn` tells whether its last erase was torn or
    /// failed.
    Blank { torn: bool },
    /// The page was programmed or flipped since its last good erase.
    Kept(Page),
}

// So many slots of erased pages.
fn empty_slots(alloc: Global, count: usize) -> Result<Vec<Slot>, AllocError>
    ensures { IfOk result (λ slots. slots.items ≡ replicate count (Blank false)) }
{
    let mut slots = Vec::with_capacity(alloc, count)?;
    for _ in 0..count {
        slots.push(Slot::Blank { torn: false })?;
    }
    Ok(slots)
}

// The first page of a factory-bad block: 0xFF throughout, but 0x00 in spare byte 0.
fn factory_bad_page(alloc: Global, g: Geometry) -> Result<Page, AllocError>
    ensures { IfOk result (λ page. page ≡ record {
      cells = slice_set (blank_cells (raw_len g)) g.page 0;
      torn = false;
      flipped_since = false;
    }) }
{
    let mut cells = Bytes::filled(alloc, 0xff, g.raw_len() as usize)?;
    cells.as_mut_slice()[g.page as usize] = 0;
    Ok(Page {
        cells,
        torn: false,
        flipped_since: false,
    })
}

/// The slots of a new chip, of which these blocks are factory-bad.
pub fn new_slots(alloc: Global, g: Geometry, bad: &BlockList) -> Result<Vec<Slot>, AllocError>
    requires { All (λ block. block < g.blocks) bad.now }
    ensures count { IfOk result (λ slots. length slots.items ≡ page_count g) }
    ensures whole { IfOk result (λ slots. All (IsWholeSlot (raw_len g)) slots.items) }
    ensures pages { IfOk result
        (λ slots. (page : ℕ) → page_of (raw_len g) [] (slot_at slots.items page)
        ≡ new_page g bad.now page) }
{
    let pages_per_block = g.pages_per_block as usize;
    let mut slots = empty_slots(alloc, g.blocks as usize * pages_per_block)?;
    for &block in bad {
        let first_page = block as usize * pages_per_block;
        slots[first_page] = Slot::Kept(factory_bad_page(alloc, g)?);
    }
    Ok(slots)
}

// Takes the page of a slot out. Where it has no cells, they are a blank page's.
fn take_page(slot: &mut Slot, blanks: &mut BlankPages) -> Page
    requires { 0 < blanks.old.left }
    ensures page { result ≡ record {
      cells = cells_of blanks.old.raw slot.old;
      torn = is_torn slot.old;
      flipped_since = is_flipped_since slot.old;
    } }
    ensures raw { blanks.new.raw ≡ blanks.old.raw }
    ensures left { blanks.old.left ≤ blanks.new.left + 1 }
{
    match mem::replace(slot, Slot::Blank { torn: false }) {
        Slot::Kept(page) => page,
        Slot::Blank { torn } => Page {
            cells: blanks.take(),
            torn,
            flipped_since: false,
        },
    }
}

/// Programs the page of a slot. Where it has no cells, it takes a blank page.
pub fn program_slot(slot: &mut Slot, blanks: &mut BlankPages, image: &[u8])
    requires whole { IsWholeSlot blanks.old.raw slot.old }
    requires image { length image.now ≡ blanks.old.raw }
    requires left { 0 < blanks.old.left }
    ensures programmed { slot.new ≡ programmed_slot blanks.old.raw image.now slot.old }
    ensures raw { blanks.new.raw ≡ blanks.old.raw }
    ensures left { blanks.old.left ≤ blanks.new.left + 1 }
{
    let mut page = take_page(slot, blanks);
    page.program(image);
    *slot = Slot::Kept(page);
}

/// Programs the page of a slot by the bits that a tear did, in pages of `raw_len` bytes. Where it
/// has no cells, it takes a blank page.
pub fn tear_slot_program(
    slot: &mut Slot,
    blanks: &mut BlankPages,
    image: &[u8],
    tear: &Tear,
    raw_len: u32,
)
    requires raw { blanks.old.raw ≡ raw_len }
    requires whole { IsWholeSlot raw_len slot.old }
    requires image { length image.now ≡ raw_len }
    requires left { 0 < blanks.old.left }
    ensures torn { slot.new ≡ program_torn raw_len image.now tear.now slot.old }
    ensures raw { blanks.new.raw ≡ blanks.old.raw }
    ensures left { blanks.old.left ≤ blanks.new.left + 1 }
{
    let mut page = take_page(slot, blanks);
    page.tear_program(image, tear, raw_len);
    *slot = Slot::Kept(page);
}

/// Turns bits of the page of a slot one after the other. Where it has no cells, it takes a blank
/// page.
pub fn flip_slot(slot: &mut Slot, blanks: &mut BlankPages, bits: &BlockList)
    requires whole { IsWholeSlot blanks.old.raw slot.old }
    requires bits { All (λ bit. bit < 8 * blanks.old.raw) bits.now }
    requires left { 0 < blanks.old.left }
    ensures flipped { slot.new ≡ flipped_slot blanks.old.raw bits.now slot.old }
    ensures raw { blanks.new.raw ≡ blanks.old.raw }
    ensures left { blanks.old.left ≤ blanks.new.left + 1 }
{
    let mut page = take_page(slot, blanks);
    page.flip(bits);
    *slot = Slot::Kept(page);
}

/// Gives up the pages of the slots from `first` up to but not including `end`.
pub fn clear_slots(slots: &mut [Slot], first: usize, end: usize)
    requires order { first ≤ end }
    requires there { end ≤ length slots.old }
    ensures { (page : ℕ) → slot_at slots.new page
        ≡ (if nat_le first page && nat_lt page end then Blank false else slot_at slots.old page) }
{
    for page in first..end {
        slots[page] = Slot::Blank { torn: false };
    }
}

// Erases the page of a slot by the bits that a tear did in this page of a block.
fn tear_slot_erase(slot: &mut Slot, page_in_block: u32, tear: &Tear, raw_len: u32)
    requires { IsWholeSlot raw_len slot.old }
    ensures { slot.new ≡ erase_torn raw_len tear.now page_in_block slot.old }
{
    if let Slot::Kept(mut page) = mem::replace(slot, Slot::Blank { torn: true }) {
        page.tear_erase(page_in_block, tear, raw_len);
        *slot = Slot::Kept(page);
    }
}

/// Erases the pages of a block by the bits that a tear did, in `pages` slots from `first` on.
pub fn tear_slots(slots: &mut [Slot], first: usize, pages: u32, tear: &Tear, raw_len: u32)
    requires there { first + pages ≤ length slots.old }
    requires whole { All (IsWholeSlot raw_len) slots.old }
    ensures { (page : ℕ) → slot_at slots.new page
        ≡ (if nat_le first page && nat_lt page (first + pages)
        then erase_torn raw_len tear.now (page - first) (slot_at slots.old page)
        else slot_at slots.old page) }
{
    for q in 0..pages {
        tear_slot_erase(&mut slots[first + q as usize], q, tear, raw_len);
    }
}
