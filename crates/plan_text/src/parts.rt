// The partitions of a plan's controllers.
ghost use Rattle.std.specs.Prelude.{◌≡◌, ◌<◌, ◌≤◌, ◌+◌, ◌-◌, ◌++◌, ◌^◌, length, map, sum_by, All, Any, IfOk, OnOk};
ghost use Rattle.nand_model.specs.Partitions.{LiesWithin};
ghost use Rattle.mtd_part.specs.Blocks.{AreApart, SharesBlock, with_part};
ghost use Rattle.plan_model.specs.Plan.{part_count};
ghost use Rattle.plan_grammar.specs.Meaning.{chip_plan};
ghost use Rattle.plan_text.specs.Boot.{HasPartsWithin, devices_before, devices_on, parts_of, placed, with_parts};

use mtd_part::{PartError, Parts};
use nand_model::{ItemList, Part};
use plan_grammar::{ChipLines, PartLine};
use std::alloc::{AllocError, Global};

// The number of devices of these chips.
fn devices_on(chips: &ItemList<ChipLines>) -> usize
    requires { devices_on chips.now < 2 ^ 32 }
    ensures { result ≡ devices_on chips.now }
{
    let mut count = 0;
    for chip in chips {
        count += chip.parts.len();
    }
    count
}

/// The number of devices of the controllers before this one.
pub fn devices_before(controllers: &ItemList<ItemList<ChipLines>>, controller: usize) -> usize
    requires controllers { controller ≤ length controllers.now }
    requires few { sum_by part_count (map (map chip_plan) controllers.now) < 2 ^ 32 }
    ensures { result ≡ devices_before controller controllers.now }
{
    let mut count = 0;
    for n in 0..controller {
        count += devices_on(controllers.get(n));
    }
    count
}

// Adds a partition that lies within its chip and shares no block with an earlier one.
fn add_part(parts: &mut Parts, part: Part, blocks: u32) -> Result<(), AllocError>
    requires blocks { blocks ≤ 4096 }
    requires within { LiesWithin blocks part }
    requires free { Any (SharesBlock part) parts.old.parts → ⊥ }
    requires numbers { parts.old.first + length parts.old.parts < 2 ^ 32 - 1 }
    ensures { OnOk result (parts.new ≡ with_part parts.old part) }
{
    match parts.add(part, blocks) {
        Ok(_) => Ok(()),
        Err(PartError::Memory) => Err(AllocError),
        Err(PartError::OutOfChip) => unreachable!(),
        Err(PartError::Overlap) => unreachable!(),
    }
}

// Adds the partitions of the chip of this number.
fn add_parts(parts: &mut Parts, number: u32, chip: &ChipLines) -> Result<(), AllocError>
    requires within { HasPartsWithin chip.now }
    requires apart { AreApart (parts.old.parts ++ placed number chip.now.parts) }
    requires few { parts.old.first + length parts.old.parts + length chip.now.parts < 2 ^ 32 - 1 }
    ensures { OnOk result (parts.new ≡ with_parts parts.old (placed number chip.now.parts)) }
{
    for line in &chip.parts {
        let PartLine { start, count } = *line;
        let part = Part {
            chip: number,
            start,
            count,
        };
        add_part(parts, part, chip.geometry.blocks)?;
    }
    Ok(())
}

/// The partitions of a controller's chips, the first of which has this device number.
pub fn parts_of(alloc: Global, first: u32, chips: &ItemList<ChipLines>) -> Result<Parts, AllocError>
    requires few_chips { length chips.now ≤ 8 }
    requires within { All HasPartsWithin chips.now }
    requires apart { AreApart (parts_of chips.now) }
    requires few { first + devices_on chips.now < 2 ^ 32 - 1 }
    ensures { IfOk result (λ parts. parts
        ≡ record { first = first; parts = parts_of chips.now }) }
{
    let mut parts = Parts::new(alloc, first);
    let mut number = 0;
    for chip in chips {
        add_parts(&mut parts, number, chip)?;
        number += 1;
    }
    Ok(parts)
}
