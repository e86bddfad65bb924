// The last four blocks of a chip, in which its tables stand.
ghost use Rattle.std.specs.Prelude.{◌≡◌, ◌==◌, length, slice_index, unwrap_or};
ghost use Rattle.chip_paths.specs.Copies.{first_other, is_other};
ghost use Rattle.chip_paths.specs.Writing.{next_place};
ghost use Rattle.nand_model.specs.Table.{table_blocks};

use bbt_ram::BlockTable;
use nand_model::Geometry;

/// The last four blocks, from the last downwards.
pub fn table_blocks(g: &Geometry) -> [u32; 4]
    ensures { result ≡ table_blocks g.now }
{
    let blocks = g.blocks;
    [blocks - 1, blocks - 2, blocks - 3, blocks - 4]
}

/// The block that takes the place of one that failed: the highest of the last four that is reserved
/// and not the other copy's place.
pub fn next_place(g: &Geometry, table: &BlockTable, other: u32) -> Option<u32>
    requires { length table.now ≡ g.now.blocks }
    ensures { result ≡ next_place g.now table.now other }
{
    let blocks = table_blocks(g);
    blocks
        .iter()
        .copied()
        .find(|block| is_reserved(table, *block) && *block != other)
}

/// The highest of the last four blocks that is not the other copy's place.
pub fn any_other(g: &Geometry, other: Option<u32>) -> u32
    ensures { result ≡ unwrap_or (first_other other (table_blocks g.now)) 0 }
{
    first_other(g, other).unwrap_or(0)
}

// The same, where there is one.
fn first_other(g: &Geometry, other: Option<u32>) -> Option<u32>
    ensures { result ≡ first_other other (table_blocks g.now) }
{
    let blocks = table_blocks(g);
    blocks.iter().copied().find(|block| is_other(other, *block))
}

/// Whether a block is not the other copy's place.
pub fn is_other(other: Option<u32>, block: u32) -> bool
    ensures { result ≡ is_other other block }
{
    match other {
        Some(taken) => taken != block,
        None => true,
    }
}

// Whether a block is reserved; a block past the table is not.
fn is_reserved(table: &BlockTable, block: u32) -> bool
    ensures { result ≡ (slice_index table.now block == 2) }
{
    block < table.len() && table.is_reserved(block)
}
