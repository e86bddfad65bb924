// Memory for the tables of the copies that a search reads.
ghost use Rattle.std.specs.Prelude.{◌≡◌, ◌<◌, ◌≤◌, ◌+◌, length, IfOk};

use bbt_ram::BlockTable;
use std::alloc::{AllocError, Global};
use std::marker::Model;

/// A store of tables. Contracts see it as the blocks of each table and the number of tables that
/// are left.
#[derive(Drop)]
pub struct SpareTables {
    blocks: u32,
    tables: Vec<BlockTable>,
}

impl Model for SpareTables {
    ghost use Rattle.std.specs.Prelude.{◌≡◌, All, length, vec_len};
    ghost use Rattle.bbt_flash.specs.Spares.{SparesLeft};

    ghost Value = { SparesLeft };

    ghost view = { λ s. record { blocks = s.blocks; left = vec_len s.tables } };

    ghost invariant = { λ s. All (λ table. length table ≡ s.blocks) s.tables.items };
}

impl SpareTables {
    ghost use Rattle.std.specs.Prelude.{◌%◌};

    /// A store of so many tables of `blocks` blocks each.
    pub fn new(alloc: Global, blocks: u32, count: u32) -> Result<SpareTables, AllocError>
        requires whole { blocks % 4 ≡ 0 }
        requires few { blocks ≤ 4096 }
        ensures blocks { IfOk result (λ spares. spares.blocks ≡ blocks) }
        ensures left { IfOk result (λ spares. spares.left ≡ count) }
    {
        let mut tables = Vec::new(alloc);
        for _ in 0..count {
            tables.push(BlockTable::new(alloc, blocks)?)?;
        }
        Ok(SpareTables { blocks, tables })
    }

    /// Takes a table out.
    pub fn take(&mut self) -> BlockTable
        requires { 0 < self.old.left }
        ensures whole { length result ≡ self.old.blocks }
        ensures blocks { self.new.blocks ≡ self.old.blocks }
        ensures left { self.old.left ≡ self.new.left + 1 }
    {
        self.tables.pop().unwrap()
    }
}
