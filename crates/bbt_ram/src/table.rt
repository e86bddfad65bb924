// The table in memory.
ghost use Rattle.std.specs.Prelude.{◌≡◌, ◌≢◌, ◌↔◌, ◌<◌, ◌≤◌, ◌+◌, ◌*◌, ◌/◌, ◌%◌, ◌++◌, length, take, drop, replicate, count_by, slice_index, slice_range, slice_set, bit_or, All, IsTrue, IfOk};
ghost use Rattle.nand_model.specs.Table.{entries_of, packed_bytes};
ghost use Rattle.nand_model.specs.Table.{is_bad_state};
ghost use Rattle.bbt_ram.specs.Packed.{is_not_good};

use crate::entry::{entry, with_entry};
use nand_model::Bytes;
use std::alloc::{AllocError, Global};
use std::marker::Model;

/// The state of each block of a chip: 0 good, 1 worn, 2 reserved, 3 factory bad. Contracts see it
/// as the list of these states.
///
/// It is packed four states to a byte, the first in the lowest bits, as in nand_bbt. Blocks are
/// counted from 0, and so are bytes.
#[derive(Drop)]
pub struct BlockTable {
    packed: Bytes,
}

impl Model for BlockTable {
    ghost use Rattle.std.specs.Prelude.{List, ℕ, ◌≤◌, length};
    ghost use Rattle.bbt_ram.specs.Packed.{unpacked};

    ghost Value = { List ℕ };

    ghost view = { λ t. unpacked t.packed };

    ghost invariant = { λ t. length t.packed ≤ 1024 };
}

impl BlockTable {
    /// A table of so many blocks, all good.
    pub fn new(alloc: Global, blocks: u32) -> Result<BlockTable, AllocError>
        requires whole { blocks % 4 ≡ 0 }
        requires few { blocks ≤ 4096 }
        ensures { IfOk result (λ table. table ≡ replicate blocks 0) }
    {
        let packed = Bytes::filled(alloc, 0, (blocks / 4) as usize)?;
        Ok(BlockTable { packed })
    }

    /// The number of blocks, which is a multiple of 4 and at most 4,096.
    pub fn len(&self) -> u32
        ensures count { result ≡ length self.now }
        ensures whole { result % 4 ≡ 0 }
        ensures few { result ≤ 4096 }
        ensures states { All (λ state. state < 4) self.now }
    {
        4 * self.packed.as_slice().len() as u32
    }

    /// The state of a block.
    pub fn get(&self, block: u32) -> u32
        requires { block < length self.now }
        ensures state { result ≡ slice_index self.now block }
        ensures small { result < 4 }
    {
        let byte = self.packed.as_slice()[(block / 4) as usize];
        u32::from(entry(byte, block % 4))
    }

    /// Changes the state of a block.
    pub fn set(&mut self, block: u32, state: u32)
        requires block { block < length self.old }
        requires state { state < 4 }
        ensures { self.new ≡ slice_set self.old block state }
    {
        let byte = &mut self.packed.as_mut_slice()[(block / 4) as usize];
        *byte = with_entry(*byte, block % 4, state as u8);
    }

    /// ORs bits into the state of a block: a good block that is marked with 1 is worn, with 2
    /// reserved, with 3 factory bad.
    pub fn mark(&mut self, block: u32, bits: u32)
        requires block { block < length self.old }
        requires bits { bits < 4 }
        ensures { self.new ≡ slice_set self.old block (bit_or (slice_index self.old block) bits) }
    {
        let state = self.get(block) | bits;
        self.set(block, state);
    }

    /// Whether a block is bad for all that write and erase: its state is not 0.
    pub fn is_bad(&self, block: u32) -> bool
        requires { block < length self.now }
        ensures { IsTrue result ↔ (slice_index self.now block ≢ 0) }
    {
        self.get(block) != 0
    }

    /// Whether a block is reserved: its state is 2.
    pub fn is_reserved(&self, block: u32) -> bool
        requires { block < length self.now }
        ensures { IsTrue result ↔ (slice_index self.now block ≡ 2) }
    {
        self.get(block) == 2
    }

    /// The n-th byte, with the states of the blocks from 4 n on.
    pub fn byte(&self, n: u32) -> u8
        requires { n < length self.now / 4 }
        ensures packed { result ≡ slice_index (packed_bytes self.now) n }
        ensures entries { entries_of result ≡ slice_range self.now (4 * n) (4 * n + 4) }
    {
        self.packed.as_slice()[n as usize]
    }

    /// Changes the n-th byte: the states of the blocks from 4 n on become its four entries.
    pub fn set_byte(&mut self, n: u32, byte: u8)
        requires { n < length self.old / 4 }
        ensures { self.new ≡ take (4 * n) self.old ++ entries_of byte ++ drop (4 * n + 4) self.old }
    {
        self.packed.as_mut_slice()[n as usize] = byte;
    }

    /// Makes all blocks good.
    pub fn clear(&mut self)
        ensures { self.new ≡ replicate (length self.old) 0 }
    {
        self.packed.as_mut_slice().fill(0);
    }

    /// The number of blocks that are not good, from the block `from` up to but not including `to`.
    pub fn count_bad(&self, from: u32, to: u32) -> u32
        requires order { from ≤ to }
        requires end { to ≤ length self.now }
        ensures { result ≡ count_by is_not_good (slice_range self.now from to) }
    {
        let mut bad = 0;
        for block in from..to {
            if self.is_bad(block) {
                bad += 1;
            }
        }
        bad
    }

    /// The number of worn and factory-bad blocks.
    pub fn count_marked(&self) -> u32
        ensures { result ≡ count_by is_bad_state self.now }
    {
        let mut marked = 0;
        for block in 0..self.len() {
            if matches!(self.get(block), 1 | 3) {
                marked += 1;
            }
        }
        marked
    }
}

#[cfg(test)]
mod tests {
    use super::*;
    use std::test::Fail;

    fn mark(table: &mut BlockTable, block: u32, bits: u32) {
        if block < table.len() && bits < 4 {
            table.mark(block, bits);
        }
    }

    fn byte(table: &BlockTable, n: u32) -> u8 {
        if n < table.len() / 4 {
            table.byte(n)
        } else {
            0
        }
    }

    // Sixteen blocks, of which 5 is worn, 7 factory bad and the last four reserved.
    #[test]
    fn packs_sixteen_blocks(rt: HostRuntime) -> Result<(), Fail> {
        let mut table = BlockTable::new(rt.alloc(), 16)?;
        for (block, bits) in [
            (5u32, 1u32),
            (7, 1),
            (7, 2),
            (12, 2),
            (13, 2),
            (14, 2),
            (15, 2),
        ] {
            mark(&mut table, block, bits);
        }
        for (n, packed) in [(0u32, 0u8), (1, 0xc4), (2, 0), (3, 0xaa)] {
            assert!(rt; byte(&table, n) == packed);
        }
        Ok(())
    }
}
