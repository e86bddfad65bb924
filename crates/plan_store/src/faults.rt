// What the lines of faults name.
ghost use Rattle.std.specs.Prelude.{◌≡◌, ◌≤◌, ◌*◌, nat_lt, length, slice_get};
ghost use Rattle.nand_model.specs.Sizes.{page_count, raw_len};
ghost use Rattle.std.specs.Option.{option_copied};
ghost use Rattle.std.specs.List.{list_all, list_any};
ghost use Rattle.lab_text.specs.Text.{number_of};
ghost use Rattle.plan_grammar.specs.Faults.{chip_at, has_bits, cuts_controller};

use nand_model::{BlockList, Geometry, ItemList};
use plan_grammar::{BootLines, ChipLines, FaultLine, PlanLines};

// Lends the item of a place, where there is one.
fn item_at<T>(list: &ItemList<T>, place: u64) -> Option<&T>
    ensures { option_copied result ≡ slice_get list.now place }
{
    if place < list.len() as u64 {
        Some(list.get(place as usize))
    } else {
        None
    }
}

/// Whether there is a controller of this number.
pub fn has_controller(lines: &PlanLines, controller: u64) -> bool
    ensures { result ≡ nat_lt controller (length lines.now.controllers) }
{
    controller < lines.controllers.len() as u64
}

/// The chip of these two numbers. None comes exactly where there is none.
pub fn chip_at(lines: &PlanLines, controller: u64, chip: u64) -> Option<&ChipLines>
    ensures { option_copied result ≡ chip_at lines.now (controller, chip) }
{
    let chips = item_at(&lines.controllers, controller)?;
    item_at(chips, chip)
}

// Whether numbers are below a limit.
fn are_below(numbers: &BlockList, limit: u32) -> bool
    ensures { result ≡ list_all (λ n. nat_lt n limit) numbers.now }
{
    numbers.iter().all(|number| *number < limit)
}

/// Whether the page and the bits of a flip are the chip's.
pub fn has_bits(chip: &ChipLines, page: u32, bits: &BlockList) -> bool
    ensures { result ≡ has_bits chip.now page bits.now }
{
    page < page_count(&chip.geometry) && are_below(bits, page_bits(&chip.geometry))
}

/// The pages of a chip.
pub fn page_count(g: &Geometry) -> u32
    ensures pages { result ≡ page_count g.now }
    ensures few { result ≤ 524288 }
{
    g.blocks * g.pages_per_block
}

// The bits of a page with its spare.
fn page_bits(g: &Geometry) -> u32
    ensures { result ≡ 8 * raw_len g.now }
{
    8 * g.raw_len()
}

// Whether a fault is the cut of this controller.
fn cuts_controller(fault: &FaultLine, controller: Option<u64>) -> bool
    ensures { result ≡ cuts_controller controller fault.now }
{
    match fault {
        FaultLine::Flip { .. } => false,
        FaultLine::Cut {
            controller: cut,
            ..
        } => controller == Some(u64::from(*cut)),
    }
}

/// Whether a boot has a cut of the controller that a word names.
pub fn has_cut(boot: &BootLines, word: &[u8]) -> bool
    ensures { result ≡ list_any (cuts_controller (number_of word.now)) boot.now.faults }
{
    let controller = lab_text::number(word);
    boot.faults
        .iter()
        .any(|fault| cuts_controller(fault, controller))
}
