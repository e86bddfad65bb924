// What the clauses of a flash chip come to, page by page, proved from them alone for every chip.
ghost use Rattle.std.specs.Prelude.{◌≡◌, ◌≢◌, ◌<◌, ◌≤◌, ◌+◌, ◌/◌, ◌%◌, ◌++◌, ◌∷◌, [], ℕ, List, fold, length, replicate, OnOk, OnErr};
ghost use Rattle.nand_model.specs.Chip.{ChipState, ChipEvent, Complete, PowerCut, ProgramEvent, EraseEvent, after_trace, done_bits, flip_events, programmed, torn_erase, torn_program};
ghost use Rattle.nand_model.specs.Flips.{with_bit_turned, FitsBits};
ghost use Rattle.nand_model.specs.Sizes.{raw_len};
ghost use Rattle.nand_iface.specs.Flash.{FitsPage};
ghost use Rattle.nand_model.specs.Counts.{HasRisen};

use crate::{EraseFailed, Flash, ProgramFailed};
use nand_model::{BlockList, Tear};

/// Programs a page as `Flash::program_page` does. Its clauses say what a caller sees of the pages,
/// and that the state is still the fold of its trace.
pub fn program_one_page<F: Flash>(
    flash: &mut F,
    page: u32,
    image: &[u8],
) -> Result<(), ProgramFailed>
    requires place { FitsPage (F.state flash.old).geometry page image.now }
    requires room { 0 < F.room flash.old }
    ensures written { OnOk result
        (((F.state flash.new).pages page).cells
        ≡ programmed ((F.state flash.old).pages page).cells image.now) }
    ensures others { (p : ℕ) → p ≢ page → (F.state flash.new).pages p
        ≡ (F.state flash.old).pages p }
    ensures failed { OnErr result (HasRisen (F.state flash.old).faults (F.state flash.new).faults) }
    ensures geometry { (F.state flash.new).geometry ≡ (F.state flash.old).geometry }
    ensures room { F.room flash.old ≤ F.room flash.new + 1 }
    ensures bit_room { F.bit_room flash.old ≤ F.bit_room flash.new }
    ensures trace { (start : ChipState F.FaultState) (events : List ChipEvent) → F.state flash.old
        ≡ after_trace F.fault_model start events
        → F.state flash.new ≡ after_trace F.fault_model start
        (events ++ Complete (ProgramEvent page image.now) ∷ []) }
{
    flash.program_page(page, image)
}

/// Erases a block as `Flash::erase_block` does. Its clauses say what a caller sees of the pages,
/// and that the state is still the fold of its trace.
pub fn erase_one_block<F: Flash>(flash: &mut F, block: u32) -> Result<(), EraseFailed>
    requires { block < (F.state flash.old).geometry.blocks }
    ensures erased { OnOk result ((p : ℕ) → p / (F.state flash.old).geometry.pages_per_block ≡ block
        → ((F.state flash.new).pages p).cells
        ≡ replicate (raw_len (F.state flash.old).geometry) 0xff) }
    ensures others { (p : ℕ) → p / (F.state flash.old).geometry.pages_per_block ≢ block →
        (F.state flash.new).pages p ≡ (F.state flash.old).pages p }
    ensures failed { OnErr result (HasRisen (F.state flash.old).faults (F.state flash.new).faults) }
    ensures geometry { (F.state flash.new).geometry ≡ (F.state flash.old).geometry }
    ensures room { F.room flash.old ≤ F.room flash.new }
    ensures bit_room { F.bit_room flash.old ≤ F.bit_room flash.new }
    ensures trace { (start : ChipState F.FaultState) (events : List ChipEvent) → F.state flash.old
        ≡ after_trace F.fault_model start events
        → F.state flash.new ≡ after_trace F.fault_model start
        (events ++ Complete (EraseEvent block) ∷ []) }
{
    flash.erase_block(block)
}

/// Tears a program as `Flash::torn_program` does. Its clauses say what a caller sees of the pages,
/// and that the state is still the fold of its trace.
pub fn tear_one_program<F: Flash>(flash: &mut F, page: u32, image: &[u8], tear: &Tear)
    requires place { FitsPage (F.state flash.old).geometry page image.now }
    requires room { 0 < F.room flash.old }
    ensures torn { (F.state flash.new).pages page
        ≡ torn_program ((F.state flash.old).pages page) image.now
        (done_bits (raw_len (F.state flash.old).geometry) tear.now) }
    ensures others { (p : ℕ) → p ≢ page → (F.state flash.new).pages p
        ≡ (F.state flash.old).pages p }
    ensures geometry { (F.state flash.new).geometry ≡ (F.state flash.old).geometry }
    ensures faults { (F.state flash.new).faults ≡ (F.state flash.old).faults }
    ensures trace { (start : ChipState F.FaultState) (events : List ChipEvent) → F.state flash.old
        ≡ after_trace F.fault_model start events
        → F.state flash.new ≡ after_trace F.fault_model start
        (events ++ PowerCut (ProgramEvent page image.now)
        (done_bits (raw_len (F.state flash.old).geometry) tear.now) ∷ []) }
{
    flash.torn_program(page, image, tear)
}

/// Tears an erase as `Flash::torn_erase` does. Its clauses say what a caller sees of the pages, and
/// that the state is still the fold of its trace.
pub fn tear_one_erase<F: Flash>(flash: &mut F, block: u32, tear: &Tear)
    requires { block < (F.state flash.old).geometry.blocks }
    ensures torn { (p : ℕ) → p / (F.state flash.old).geometry.pages_per_block ≡ block
        → (F.state flash.new).pages p
        ≡ torn_erase (done_bits (raw_len (F.state flash.old).geometry) tear.now)
        (p % (F.state flash.old).geometry.pages_per_block) ((F.state flash.old).pages p) }
    ensures others { (p : ℕ) → p / (F.state flash.old).geometry.pages_per_block ≢ block →
        (F.state flash.new).pages p ≡ (F.state flash.old).pages p }
    ensures geometry { (F.state flash.new).geometry ≡ (F.state flash.old).geometry }
    ensures faults { (F.state flash.new).faults ≡ (F.state flash.old).faults }
    ensures trace { (start : ChipState F.FaultState) (events : List ChipEvent) → F.state flash.old
        ≡ after_trace F.fault_model start events
        → F.state flash.new ≡ after_trace F.fault_model start
        (events ++ PowerCut (EraseEvent block)
        (done_bits (raw_len (F.state flash.old).geometry) tear.now) ∷ []) }
{
    flash.torn_erase(block, tear)
}

/// Turns bits of a page as `Flash::flip` does. Its clauses say what a caller sees of the pages, and
/// that the state is still the fold of its trace.
pub fn turn_bits<F: Flash>(flash: &mut F, page: u32, bits: &BlockList)
    requires place { FitsBits (F.state flash.old).geometry page bits.now }
    requires room { 0 < F.room flash.old }
    requires bit_room { length bits.now ≤ F.bit_room flash.old }
    ensures turned { ((F.state flash.new).pages page).cells
        ≡ fold with_bit_turned ((F.state flash.old).pages page).cells bits.now }
    ensures counted { ((F.state flash.new).pages page).flips
        ≡ ((F.state flash.old).pages page).flips ++ bits.now }
    ensures others { (p : ℕ) → p ≢ page → (F.state flash.new).pages p
        ≡ (F.state flash.old).pages p }
    ensures geometry { (F.state flash.new).geometry ≡ (F.state flash.old).geometry }
    ensures faults { (F.state flash.new).faults ≡ (F.state flash.old).faults }
    ensures trace { (start : ChipState F.FaultState) (events : List ChipEvent) → F.state flash.old
        ≡ after_trace F.fault_model start events
        → F.state flash.new ≡ after_trace F.fault_model start
        (events ++ flip_events page bits.now) }
{
    flash.flip(page, bits)
}
