// A chip as the layers above it see it.
ghost use Rattle.std.specs.Prelude.{◌≡◌, ◌≤◌, ◌<◌, ◌+◌, ◌-◌, ◌^◌, ℕ, length, min, OnOk, is_none, is_ok};
ghost use Rattle.std.specs.Coded.{Coded};
ghost use Rattle.nand_model.specs.Chip.{ChipState, FaultModel, ProgramCall, EraseCall, Complete, PowerCut, ProgramEvent, EraseEvent, after_trace, done_bits, failure_of, flip_events, happens};
ghost use Rattle.nand_model.specs.Flips.{flips_between, FitsBits};
ghost use Rattle.nand_model.specs.Sizes.{page_count, raw_len};
ghost use Rattle.nand_iface.specs.Flash.{FitsPage, HasWholePages};

use nand_model::{BlockList, Geometry, Tear};
use std::alloc::AllocError;

/// A program failed, and its page is torn.
#[derive(Clone, Copy, Debug, PartialEq, Eq)]
pub struct ProgramFailed;

/// An erase failed, and the pages of its block are torn.
#[derive(Clone, Copy, Debug, PartialEq, Eq)]
pub struct EraseFailed;

/// A NAND flash chip, by page reads, page programs and block erases.
///
/// Pages are counted from 0 over the whole chip, blocks from 0. A page is read and programmed with
/// its spare area, in slices of `raw_len` bytes. Contracts see a chip as its `state`: the cells of
/// each page and what befell them, the data from which it follows which call fails, and a count of
/// faults.
pub trait Flash: Drop {
    /// The data of an implementation's own, by which calls fail.
    ghost FaultState: { Type 0 };

    /// By this code a proof tells the values of that data apart.
    ghost fault_code: { Coded FaultState };

    /// Which call fails, with which done bits, and what each call makes of the data.
    ghost fault_model: { FaultModel FaultState };

    /// The state of the chip.
    ghost state: { Self → ChipState FaultState };

    /// How many pages may still be programmed or flipped before memory has to be asked for.
    ghost room: { Self → ℕ };

    /// How many bits may still be flipped before memory has to be asked for.
    ghost bit_room: { Self → ℕ };

    /// The sizes of the chip, which no call changes.
    fn geometry(&self) -> Geometry
        ensures sizes { result ≡ (state self.now).geometry }
        ensures whole_pages { HasWholePages (state self.now) };

    /// Makes the room at least `pages` and the bit room at least `bits`, and changes nothing else.
    /// Where memory runs out, neither is less than before.
    fn reserve(&mut self, pages: u32, bits: u32) -> Result<(), AllocError>
        ensures room { OnOk result (pages ≤ room self.new) }
        ensures bit_room { OnOk result (bits ≤ bit_room self.new) }
        ensures no_less { room self.old ≤ room self.new }
        ensures no_fewer_bits { bit_room self.old ≤ bit_room self.new }
        ensures state { state self.new ≡ state self.old };

    /// Reads a page: `out` becomes its cells.
    fn read_page(&self, page: u32, out: &mut [u8])
        requires { FitsPage (state self.now).geometry page out.old }
        ensures { out.new ≡ ((state self.now).pages page).cells };

    /// Programs a page: its cells become `old AND image`. It takes at most one page of the room.
    ///
    /// `ProgramFailed` comes exactly where the chip's fault model fails this call. The count of
    /// faults then rises, and the page is torn.
    fn program_page(&mut self, page: u32, image: &[u8]) -> Result<(), ProgramFailed>
        requires place { FitsPage (state self.old).geometry page image.now }
        requires room { 0 < room self.old }
        ensures state { state self.new
            ≡ happens fault_model (state self.old) (Complete (ProgramEvent page image.now)) }
        ensures ok { is_ok result
            ≡ is_none (failure_of fault_model (state self.old) (ProgramCall page)) }
        ensures faults { (state self.old).faults ≤ (state self.new).faults }
        ensures room { room self.old ≤ room self.new + 1 }
        ensures bit_room { bit_room self.old ≤ bit_room self.new };

    /// Erases a block: the cells of its pages become 0xFF throughout. It takes no room.
    ///
    /// `EraseFailed` comes exactly where the chip's fault model fails this call. The count of
    /// faults then rises, and the pages of the block are torn.
    fn erase_block(&mut self, block: u32) -> Result<(), EraseFailed>
        requires { block < (state self.old).geometry.blocks }
        ensures state { state self.new
            ≡ happens fault_model (state self.old) (Complete (EraseEvent block)) }
        ensures ok { is_ok result
            ≡ is_none (failure_of fault_model (state self.old) (EraseCall block)) }
        ensures faults { (state self.old).faults ≤ (state self.new).faults }
        ensures room { room self.old ≤ room self.new }
        ensures bit_room { bit_room self.old ≤ bit_room self.new };

    /// Programs a page while the power is cut, so that only the bits that the tear says are done.
    /// It counts as a program of the page, and as no fault. It takes at most one page of the room.
    fn torn_program(&mut self, page: u32, image: &[u8], tear: &Tear)
        requires place { FitsPage (state self.old).geometry page image.now }
        requires room { 0 < room self.old }
        ensures state { state self.new ≡ happens fault_model (state self.old) (PowerCut
            (ProgramEvent page image.now) (done_bits (raw_len (state self.old).geometry) tear.now)) }
        ensures room { room self.old ≤ room self.new + 1 }
        ensures bit_room { bit_room self.old ≤ bit_room self.new };

    /// Erases a block while the power is cut, so that only the bits that the tear says are done. It
    /// counts as an erase of the block, and as no fault. It takes no room.
    fn torn_erase(&mut self, block: u32, tear: &Tear)
        requires { block < (state self.old).geometry.blocks }
        ensures state { state self.new ≡ happens fault_model (state self.old) (PowerCut
            (EraseEvent block) (done_bits (raw_len (state self.old).geometry) tear.now)) }
        ensures room { room self.old ≤ room self.new }
        ensures bit_room { bit_room self.old ≤ bit_room self.new };

    /// Turns these bits of a page one after the other; bit 0 is the highest of byte 0. Each counts
    /// as one flip, and a bit that stands twice is turned twice. It takes at most one page of the
    /// room, and of the bit room at most the number of the bits.
    fn flip(&mut self, page: u32, bits: &BlockList)
        requires place { FitsBits (state self.old).geometry page bits.now }
        requires room { 0 < room self.old }
        requires bit_room { length bits.now ≤ bit_room self.old }
        ensures state { state self.new
            ≡ after_trace fault_model (state self.old) (flip_events page bits.now) }
        ensures room { room self.old ≤ room self.new + 1 }
        ensures bit_room { bit_room self.old ≤ bit_room self.new + length bits.now };

    /// The number of flips that were made in bits `from` up to but not including `to` of a page
    /// since its last erase that answered Ok, or since the chip was made; 2^32 - 1 where there are
    /// more.
    fn flips(&self, page: u32, from: u32, to: u32) -> u32
        requires { page < page_count (state self.now).geometry }
        ensures { result ≡ min (flips_between ((state self.now).pages page).flips from to)
            (2 ^ 32 - 1) };

    /// Whether the last program or erase that touched a page was torn or failed.
    fn torn(&self, page: u32) -> bool
        requires { page < page_count (state self.now).geometry }
        ensures { result ≡ ((state self.now).pages page).torn };

    /// Whether a bit of a page was flipped since its last good program or erase, or since the first
    /// torn or failed one after that.
    fn flipped_since(&self, page: u32) -> bool
        requires { page < page_count (state self.now).geometry }
        ensures { result ≡ ((state self.now).pages page).flipped_since };
}
