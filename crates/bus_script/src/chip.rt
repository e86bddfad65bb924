// The sizes of a chip's line.
ghost use Rattle.std.specs.Prelude.{◌≡◌};
ghost use Rattle.plan_grammar.specs.Hardware.{geometry as geometry_of_line, sizes};
ghost use Rattle.plan_words.specs.Answer.{Answers};
ghost use Rattle.bus_script.specs.Script.{chip_sizes};

use nand_model::{Geometry, GeometryError};
use plan_grammar::PlanKind;
use plan_words::{LineError, Words, small_numbers};
use std::alloc::Global;

// The sizes of numbers, with the threshold or 0.
fn geometry_of(
    page: u32,
    spare: u32,
    pages_per_block: u32,
    blocks: u32,
    t: u32,
    bbt: u32,
    threshold: u32,
) -> Result<Geometry, PlanKind>
    ensures { result
        ≡ geometry_of_line page spare pages_per_block blocks t bbt threshold }
{
    match Geometry::new(page, spare, pages_per_block, blocks, t, bbt, threshold) {
        Ok(geometry) => Ok(geometry),
        Err(error) => match error {
            GeometryError::BadSize => Err(PlanKind::BadSize),
            GeometryError::SpareTooSmall => Err(PlanKind::SpareTooSmall),
        },
    }
}

// The sizes of six numbers, or of seven with the threshold.
#[tactic(auto, unfolding(plan_grammar::specs::Hardware::sizes))]
fn sizes(numbers: &[u32]) -> Result<Geometry, PlanKind>
    ensures { result ≡ sizes numbers.now }
{
    match numbers {
        [page, spare, pages_per_block, blocks, t, bbt] => {
            geometry_of(*page, *spare, *pages_per_block, *blocks, *t, *bbt, 0)
        }
        [page, spare, pages_per_block, blocks, t, bbt, threshold] => geometry_of(
            *page,
            *spare,
            *pages_per_block,
            *blocks,
            *t,
            *bbt,
            *threshold,
        ),
        _ => Err(PlanKind::BadWords),
    }
}

/// The sizes of a chip's line, by the words after the first.
#[tactic(auto, unfolding(crate::specs::Script::chip_sizes))]
pub fn chip_sizes(alloc: Global, words: Words<'_>) -> Result<Geometry, LineError>
    ensures { Answers result (chip_sizes words.entry) }
{
    let count = words.len();
    if count != 6 && count != 7 {
        return Err(LineError::Broken(PlanKind::BadWords));
    }
    let numbers = small_numbers(alloc, words)?.into_vec();
    Ok(sizes(&numbers)?)
}
