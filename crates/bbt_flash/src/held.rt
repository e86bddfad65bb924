// A copy of a table that was read.
ghost use Rattle.std.specs.Prelude.{◌≡◌};
ghost use Rattle.nand_model.specs.Table.{calls_bad, same_which};

use bbt_ram::BlockTable;
use nand_model::Which;

/// A copy of a table with the block whose first page holds it.
#[derive(Drop)]
pub struct Held {
    pub block: u32,
    pub which: Which,
    pub version: u8,
    pub table: BlockTable,
}

impl Held {
    ghost use Rattle.bbt_flash.specs.Held.{calls_other_bad};

    /// Whether the copy calls a block bad: its state is worn or factory bad.
    pub fn calls_bad(&self, block: u32) -> bool
        ensures { result ≡ calls_bad self.now.table block }
    {
        block < self.table.len() && matches!(self.table.get(block), 1 | 3)
    }

    /// Whether the copy stands in another block, and calls this one bad.
    pub fn calls_other_bad(&self, block: u32) -> bool
        ensures { result ≡ calls_other_bad block self.now }
    {
        self.block != block && self.calls_bad(block)
    }
}

/// Whether two copies are of one kind.
pub fn is_same(one: Which, other: Which) -> bool
    ensures { result ≡ same_which one other }
{
    match one {
        Which::Primary => matches!(other, Which::Primary),
        Which::Mirror => matches!(other, Which::Mirror),
    }
}
