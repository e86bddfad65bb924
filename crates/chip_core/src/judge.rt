// What a failed event leaves of a table page.
ghost use Rattle.std.specs.Prelude.{◌≡◌, ◌≤◌, ◌<◌, ◌+◌, ◌&&◌, ◌==◌, length, Some, IfOk, bytes_eq, true};
ghost use Rattle.nand_iface.specs.Flash.{FitsPage};
ghost use Rattle.nand_model.specs.Chip.{EraseEvent, ProgramEvent};
ghost use Rattle.nand_model.specs.Quiet.{fairness_if, is_table_block, is_table_page, judged};
ghost use Rattle.nand_model.specs.Sizes.{first_page, page_count, raw_len};
ghost use Rattle.nand_model.specs.Table.{copy_in, has_tables, same_which};
ghost use Rattle.chip_core.specs.Events.{IsDone};
ghost use Rattle.chip_core.specs.Torn.{IsTorn};

use crate::table_pages::{is_table_block, is_table_page};
use bbt_image::take;
use bbt_ram::BlockTable;
use nand_iface::{EraseFailed, Fairness, Flash, PageCode, ProgramFailed, Which};
use nand_model::{Bytes, Geometry, Tear};
use std::alloc::{AllocError, Global};

/// Programs pages and erases blocks, and judges what is left of a table page where this fails, by
/// the copy that was wanted there and the copy that is seen. It has the memory that judging needs.
#[derive(Drop)]
pub struct Judge {
    pub geometry: Geometry,
    wanted: Bytes,
    wanted_table: BlockTable,
    seen: Bytes,
    seen_table: BlockTable,
    ghost wanted_whole: { length wanted ≡ raw_len geometry },
    ghost wanted_states: { length wanted_table ≡ geometry.blocks },
    ghost seen_whole: { length seen ≡ raw_len geometry },
    ghost seen_states: { length seen_table ≡ geometry.blocks },
}

impl Judge {
    /// A judge of events on a chip of these sizes.
    pub fn new(alloc: Global, g: Geometry) -> Result<Judge, AllocError>
        ensures { IfOk result (λ judge. judge.geometry ≡ g) }
    {
        Ok(Judge {
            geometry: g,
            wanted: Bytes::filled(alloc, 0, g.raw_len() as usize)?,
            wanted_table: BlockTable::new(alloc, g.blocks)?,
            seen: Bytes::filled(alloc, 0, g.raw_len() as usize)?,
            seen_table: BlockTable::new(alloc, g.blocks)?,
        })
    }

    /// Programs a page. Some comes exactly where this fails, with what is left. It takes at most one
    /// page of the room.
    pub fn program<F: Flash, C: PageCode>(
        &mut self,
        flash: &mut F,
        code: &C,
        page: u32,
        image: &[u8],
    ) -> Option<Fairness>
        requires sizes { self.old.geometry ≡ (F.state flash.old).geometry }
        requires place { FitsPage (F.state flash.old).geometry page image.now }
        requires room { 1 ≤ F.room flash.old }
        ensures done { IsDone F.fault_model (F.state flash.old) (F.state flash.new)
            (ProgramEvent page image.now) result }
        ensures room { F.room flash.old ≤ F.room flash.new + 1 }
        ensures bits { F.bit_room flash.old ≤ F.bit_room flash.new }
        ensures geometry { self.new.geometry ≡ self.old.geometry }
    {
        match flash.program_page(page, image) {
            Ok(()) => None,
            Err(ProgramFailed) => Some(self.program_left(flash, code, page, image)),
        }
    }

    /// Erases a block. Some comes exactly where this fails, with what is left. It takes no room.
    pub fn erase<F: Flash, C: PageCode>(
        &mut self,
        flash: &mut F,
        code: &C,
        block: u32,
    ) -> Option<Fairness>
        requires sizes { self.old.geometry ≡ (F.state flash.old).geometry }
        requires place { block < (F.state flash.old).geometry.blocks }
        ensures done { IsDone F.fault_model (F.state flash.old) (F.state flash.new)
            (EraseEvent block) result }
        ensures room { F.room flash.old ≤ F.room flash.new }
        ensures bits { F.bit_room flash.old ≤ F.bit_room flash.new }
        ensures geometry { self.new.geometry ≡ self.old.geometry }
    {
        self.look_at(flash, block);
        match flash.erase_block(block) {
            Ok(()) => None,
            Err(EraseFailed) => Some(self.erase_left(flash, code, block)),
        }
    }

    /// Programs a page while the power is cut, and tells what is left. It takes at most one page of
    /// the room.
    pub fn tear_program<F: Flash, C: PageCode>(
        &mut self,
        flash: &mut F,
        code: &C,
        page: u32,
        image: &[u8],
        tear: &Tear,
    ) -> Fairness
        requires sizes { self.old.geometry ≡ (F.state flash.old).geometry }
        requires place { FitsPage (F.state flash.old).geometry page image.now }
        requires room { 1 ≤ F.room flash.old }
        ensures torn { IsTorn F.fault_model tear.now (F.state flash.old) (F.state flash.new)
            result (ProgramEvent page image.now) }
        ensures room { F.room flash.old ≤ F.room flash.new + 1 }
        ensures bits { F.bit_room flash.old ≤ F.bit_room flash.new }
        ensures geometry { self.new.geometry ≡ self.old.geometry }
    {
        flash.torn_program(page, image, tear);
        self.program_left(flash, code, page, image)
    }

    /// Erases a block while the power is cut, and tells what is left. It takes no room.
    pub fn tear_erase<F: Flash, C: PageCode>(
        &mut self,
        flash: &mut F,
        code: &C,
        block: u32,
        tear: &Tear,
    ) -> Fairness
        requires sizes { self.old.geometry ≡ (F.state flash.old).geometry }
        requires place { block < (F.state flash.old).geometry.blocks }
        ensures torn { IsTorn F.fault_model tear.now (F.state flash.old) (F.state flash.new)
            result (EraseEvent block) }
        ensures room { F.room flash.old ≤ F.room flash.new }
        ensures bits { F.bit_room flash.old ≤ F.bit_room flash.new }
        ensures geometry { self.new.geometry ≡ self.old.geometry }
    {
        self.look_at(flash, block);
        flash.torn_erase(block, tear);
        self.erase_left(flash, code, block)
    }

    // What a program of this image has left of a page.
    fn program_left<F: Flash, C: PageCode>(
        &mut self,
        flash: &F,
        code: &C,
        page: u32,
        image: &[u8],
    ) -> Fairness
        requires sizes { self.old.geometry ≡ (F.state flash.now).geometry }
        requires place { FitsPage self.old.geometry page image.now }
        ensures left { result ≡ fairness_if (is_table_page self.old.geometry page)
            self.old.geometry ((F.state flash.now).pages page).cells image.now }
        ensures geometry { self.new.geometry ≡ self.old.geometry }
    {
        if !is_table_page(&self.geometry, page) {
            return Fairness::Plain;
        }
        self.wanted.as_mut_slice().copy_from_slice(image);
        self.judge(flash, code, page)
    }

    // Looks at the first page of a table block, which is wanted after an erase that fails.
    fn look_at<F: Flash>(&mut self, flash: &F, block: u32)
        requires sizes { self.old.geometry ≡ (F.state flash.now).geometry }
        requires place { block < self.old.geometry.blocks }
        ensures wanted { is_table_block self.old.geometry block ≡ true → self.new.wanted
            ≡ ((F.state flash.now).pages (first_page self.old.geometry block)).cells }
        ensures geometry { self.new.geometry ≡ self.old.geometry }
    {
        if is_table_block(&self.geometry, block) {
            let page = block * self.geometry.pages_per_block;
            flash.read_page(page, self.wanted.as_mut_slice());
        }
    }

    // What an erase has left of the first page of a block, at which was looked before.
    fn erase_left<F: Flash, C: PageCode>(&mut self, flash: &F, code: &C, block: u32) -> Fairness
        requires sizes { self.old.geometry ≡ (F.state flash.now).geometry }
        requires place { block < self.old.geometry.blocks }
        ensures left { result ≡ fairness_if (is_table_block self.old.geometry block)
            self.old.geometry ((F.state flash.now).pages
            (first_page self.old.geometry block)).cells self.old.wanted }
        ensures geometry { self.new.geometry ≡ self.old.geometry }
    {
        if is_table_block(&self.geometry, block) {
            self.judge(flash, code, block * self.geometry.pages_per_block)
        } else {
            Fairness::Plain
        }
    }

    // Judges a table page by what was wanted there.
    fn judge<F: Flash, C: PageCode>(&mut self, flash: &F, code: &C, page: u32) -> Fairness
        requires sizes { self.old.geometry ≡ (F.state flash.now).geometry }
        requires tables { has_tables self.old.geometry ≡ true }
        requires page { page < page_count self.old.geometry }
        ensures judged { result
            ≡ judged (copy_in self.old.geometry ((F.state flash.now).pages page).cells)
            (copy_in self.old.geometry self.old.wanted) }
        ensures geometry { self.new.geometry ≡ self.old.geometry }
    {
        let g = self.geometry;
        let seen_page = self.seen.as_mut_slice();
        flash.read_page(page, seen_page);
        let Ok(seen) = take(&g, code, seen_page, &mut self.seen_table) else {
            return Fairness::Missing;
        };
        let wanted_page = self.wanted.as_mut_slice();
        let Ok(wanted) = take(&g, code, wanted_page, &mut self.wanted_table) else {
            return Fairness::Foul;
        };
        if is_same(seen, wanted) && is_same_table(&self.seen_table, &self.wanted_table) {
            Fairness::Whole
        } else {
            Fairness::Foul
        }
    }
}

// Whether two copies are of one kind and version.
fn is_same(seen: (Which, u8), wanted: (Which, u8)) -> bool
    ensures { result ≡ (same_which seen.0 wanted.0 && (seen.1 == wanted.1)) }
{
    seen.0 == wanted.0 && seen.1 == wanted.1
}

// Whether two tables have the same states.
fn is_same_table(seen: &BlockTable, wanted: &BlockTable) -> bool
    requires { length seen.now ≡ length wanted.now }
    ensures { result ≡ bytes_eq seen.now wanted.now }
{
    for block in 0..seen.len() {
        if seen.get(block) != wanted.get(block) {
            return false;
        }
    }
    true
}
