// The chips of the plan of a number.
ghost use Rattle.std.specs.Prelude.{◌≡◌, replicate, IfOk};
ghost use Rattle.made_plan.specs.Made.{made_chip, made_controllers, made_geometry};

use nand_model::{Geometry, ItemList};
use plan_grammar::{ChipLines, PartLine};
use std::alloc::{AllocError, Global};

// The sizes of each chip.
fn made_geometry() -> Geometry
    ensures { result ≡ made_geometry }
{
    Geometry {
        page: 2048,
        spare: 64,
        pages_per_block: 64,
        blocks: 32,
        t: 4,
        bbt: 1,
        threshold: 3,
    }
}

// A chip with its two partitions.
fn made_chip(alloc: Global) -> Result<ChipLines, AllocError>
    ensures { IfOk result (λ chip. chip ≡ made_chip) }
{
    let mut parts = ItemList::new(alloc);
    parts.append(PartLine {
        start: 0,
        count: 14,
    })?;
    parts.append(PartLine {
        start: 14,
        count: 14,
    })?;
    Ok(ChipLines {
        geometry: made_geometry(),
        details: ItemList::new(alloc),
        parts,
    })
}

// The chips of a controller.
fn made_chips(alloc: Global) -> Result<ItemList<ChipLines>, AllocError>
    ensures { IfOk result (λ chips. chips ≡ replicate 4 made_chip) }
{
    let mut chips = ItemList::new(alloc);
    for _chip in 0..4_u32 {
        chips.append(made_chip(alloc)?)?;
    }
    Ok(chips)
}

/// The chips of both controllers.
#[tactic(auto, unfolding(crate::specs::Made::made_controllers))]
pub fn made_controllers(alloc: Global) -> Result<ItemList<ItemList<ChipLines>>, AllocError>
    ensures { IfOk result (λ controllers. controllers ≡ made_controllers) }
{
    let mut controllers = ItemList::new(alloc);
    controllers.append(made_chips(alloc)?)?;
    controllers.append(made_chips(alloc)?)?;
    Ok(controllers)
}
