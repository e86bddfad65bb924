// What is known of a chip.
ghost use Rattle.std.specs.Prelude.{◌≡◌, ◌+◌, ◌<◌, ◌≤◌, ◌==◌, [], length, count_by, slice_index, ℕ, List, IsSome, IfOk, OnOk, Some};
ghost use Rattle.nand_model.specs.Table.{is_bad_state};
ghost use Rattle.chip_paths.specs.Operation.{after_writing, bad_count, mark_reply, writing_reply};
ghost use Rattle.chip_paths.specs.Writing.{marked};
ghost use Rattle.bbt_flash.specs.Attach.{attaching_in};
ghost use Rattle.bbt_flash.specs.Events.{answer_of};
ghost use Rattle.bbt_flash.specs.Update.{update_sizes, update_writing};
ghost use Rattle.chip_core.specs.Begin.{read_device};
ghost use Rattle.chip_core.specs.Sums.{place_of, stats_in};

use crate::sums::Sums;
use crate::table_writing::TableWriting;
use bbt_flash::{Attached, Places};
use bbt_ram::BlockTable;
use nand_iface::{Op, Reply, Which};
use nand_model::{Geometry, Part};
use std::alloc::{AllocError, Global};

/// The sizes of a chip, its table in memory, the version, the places and the number of the whole
/// copies of its tables on flash, and the statistics of its devices.
#[derive(Drop)]
pub struct Knowledge {
    pub geometry: Geometry,
    pub table: BlockTable,
    pub version: u8,
    pub places: Places,
    pub copies: u32,
    pub sums: Sums,
    ghost all_there: { length table ≡ geometry.blocks },
    ghost primary_there: { places.primary < geometry.blocks },
    ghost mirror_there: { places.mirror < geometry.blocks },
}

impl Knowledge {
    ghost use Rattle.chip_core.specs.Knowledge.{KnowsFound, known_in, known_with};

    /// What is known before the attach: each block counts as good, and no copy as whole.
    pub fn new(alloc: Global, geometry: Geometry) -> Result<Knowledge, AllocError>
        ensures geometry { IfOk result (λ known. known.geometry ≡ geometry) }
        ensures sums { IfOk result (λ known. known.sums ≡ []) }
    {
        let places = Places {
            primary: 0,
            mirror: 0,
        };
        Ok(Knowledge {
            geometry,
            table: BlockTable::new(alloc, geometry.blocks)?,
            version: 0,
            places,
            copies: 0,
            sums: Sums::new(alloc),
        })
    }

    /// Takes in what an attach of the chip found.
    pub fn take_found(&mut self, found: Attached)
        requires blocks { length found.table ≡ self.old.geometry.blocks }
        requires primary { found.places.primary < self.old.geometry.blocks }
        requires mirror { found.places.mirror < self.old.geometry.blocks }
        ensures { KnowsFound self.old self.new (attaching_in found) }
    {
        self.table = found.table;
        self.version = found.version;
        self.places = found.places;
        self.copies = found.copies;
    }

    /// Takes in what the writing of a mark's tables has come to, which is over, and gives the reply
    /// to the mark.
    pub fn take_written(&mut self, writing: TableWriting) -> Reply
        requires { update_sizes writing.update ≡ self.old.geometry }
        ensures known { known_in self.new ≡ after_writing (known_in self.old)
            (update_writing writing.update self.old.table) }
        ensures reply { (table : List ℕ) → result ≡ mark_reply (answer_of writing.marker)
            (writing_reply (update_writing writing.update table).failed) }
        ensures geometry { self.new.geometry ≡ self.old.geometry }
        ensures table { self.new.table ≡ self.old.table }
        ensures sums { self.new.sums ≡ self.old.sums }
    {
        let update = writing.update;
        self.version = update.version();
        self.places = update.places();
        self.copies = update.copies();
        mark_reply(writing.marker, update.failed())
    }

    /// The state of a block.
    pub fn state(&self, block: u32) -> u32
        requires { block < self.now.geometry.blocks }
        ensures state { result ≡ slice_index self.now.table block }
        ensures small { result < 4 }
    {
        self.table.get(block)
    }

    /// Whether a block is good.
    pub fn is_good(&self, block: u32) -> bool
        requires { block < self.now.geometry.blocks }
        ensures { result ≡ (slice_index self.now.table block == 0) }
    {
        self.state(block) == 0
    }

    /// Whether a block is reserved.
    pub fn is_reserved(&self, block: u32) -> bool
        requires { block < self.now.geometry.blocks }
        ensures { result ≡ (slice_index self.now.table block == 2) }
    {
        self.state(block) == 2
    }

    /// Marks a block: a good one is worn then.
    pub fn mark(&mut self, block: u32)
        requires { block < self.old.geometry.blocks }
        ensures geometry { self.new.geometry ≡ self.old.geometry }
        ensures table { self.new.table ≡ marked self.old.table block }
        ensures others { known_with self.new ≡ known_with self.old }
        ensures sums { self.new.sums ≡ self.old.sums }
    {
        self.table.mark(block, 1);
    }

    /// Makes an entry for the statistics that an operation adds to, and leaves all that is known as
    /// it is.
    pub fn expect(&mut self, op: &Op) -> Result<(), AllocError>
        ensures there { OnOk result
            ((dev : ℕ) → read_device op.now ≡ Some dev → IsSome (place_of self.new.sums dev)) }
        ensures geometry { self.new.geometry ≡ self.old.geometry }
        ensures table { self.new.table ≡ self.old.table }
        ensures known { known_with self.new ≡ known_with self.old }
        ensures stats { stats_in self.new.sums ≡ stats_in self.old.sums }
    {
        match op {
            Op::Read { dev, .. } => self.sums.make_entry(*dev),
            _ => Ok(()),
        }
    }

    /// The number of worn and factory-bad blocks.
    pub fn bad(&self) -> u32
        ensures count { result ≡ count_by is_bad_state self.now.table }
        ensures few { result ≤ self.now.geometry.blocks }
    {
        self.table.count_marked()
    }

    /// The number of a partition's blocks that are not good.
    pub fn bad_in(&self, part: &Part) -> u32
        requires { part.now.start + part.now.count ≤ self.now.geometry.blocks }
        ensures { result ≡ bad_count self.now.table part.now }
    {
        self.table.count_bad(part.start, part.start + part.count)
    }

    /// Writes the state of each block into a list of bytes, one to a block.
    pub fn put_states(&self, states: &mut [u8])
        requires { length states.old ≡ self.now.geometry.blocks }
        ensures { states.new ≡ self.now.table }
    {
        for block in 0..self.geometry.blocks {
            states[block as usize] = self.state(block) as u8;
        }
    }
}

// The reply to a mark, the marker of whose block was good or failed, and whose writing has failed
// for this copy or not.
fn mark_reply(marker: bool, failed: Option<Which>) -> Reply
    ensures { result ≡ mark_reply (answer_of marker) (writing_reply failed) }
{
    if !marker {
        return Reply::MarkerFailed;
    }
    match failed {
        Some(which) => Reply::TableFailed(which),
        None => Reply::Done,
    }
}
