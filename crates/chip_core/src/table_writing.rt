// The writing of a table's copies that ends a mark.
ghost use Rattle.std.specs.Prelude.{◌≡◌, ◌≤◌, ◌<◌, ◌+◌, Some, None, true, length, option_map, IsSome, IfSome};
ghost use Rattle.chip_paths.specs.ChipRun.{name_of};
ghost use Rattle.chip_paths.specs.Writing.{next_writing_event};
ghost use Rattle.nand_model.specs.Sizes.{page_count};
ghost use Rattle.nand_model.specs.declared.words.Event.TheVariants.{Program as NamesProgram, Erase as NamesErase};
ghost use Rattle.bbt_flash.specs.Update.{update_writing};

use crate::judge::Judge;
use bbt_flash::Update;
use bbt_ram::BlockTable;
use nand_iface::{Event, Fairness, Flash, PageCode};
use nand_model::{Bytes, Tear};
use std::snapshot::Snapshot;

/// A mark whose block was marked, and whose copies of the table are written.
#[derive(Drop)]
pub struct TableWriting {
    pub update: Update,
    /// Whether the marker of the block was good.
    pub marker: bool,
    /// The pages that it may still program.
    pub programs: u32,
    /// Room for a page that is programmed.
    pub image: Bytes,
    /// The table from before the mark.
    pub before: Snapshot<BlockTable>,
}

impl TableWriting {
    ghost use Rattle.chip_core.specs.Task.{WritingAdvances, WritingFits};
    ghost use Rattle.chip_core.specs.Torn.{IsTorn};

    /// Does the next event of the writing of this table, which is there. Some comes exactly where it
    /// failed, with what is left.
    pub fn advance<F: Flash, C: PageCode>(
        &mut self,
        flash: &mut F,
        table: &mut BlockTable,
        code: &C,
        judge: &mut Judge,
    ) -> Option<Fairness>
        requires event { IsSome (next_writing_event judge.old.geometry
            (update_writing self.old.update table.old)) }
        requires sizes { judge.old.geometry ≡ (F.state flash.old).geometry }
        requires fits { WritingFits judge.old.geometry table.old self.old }
        requires states { length table.old ≡ judge.old.geometry.blocks }
        requires room { self.old.programs ≤ F.room flash.old }
        ensures advanced { IfSome (next_writing_event judge.old.geometry
            (update_writing self.old.update table.old)) (WritingAdvances F.fault_model
            (F.state flash.old) (F.state flash.new) (update_writing self.old.update table.old)
            (update_writing self.new.update table.new) result) }
        ensures fits { WritingFits judge.old.geometry table.new self.new }
        ensures states { length table.new ≡ length table.old }
        ensures marker { self.new.marker ≡ self.old.marker }
        ensures before { self.new.before ≡ self.old.before }
        ensures room { F.room flash.old + self.new.programs ≤ F.room flash.new
            + self.old.programs }
        ensures bits { F.bit_room flash.old ≤ F.bit_room flash.new }
        ensures judge { judge.new.geometry ≡ judge.old.geometry }
    {
        match self.update.event() {
            Some(Event::Program(page)) => self.program(flash, table, code, judge, page),
            Some(Event::Erase(block)) => {
                let told = judge.erase(flash, code, block);
                self.update.did(told.is_none(), table);
                told
            }
            Some(Event::Read(_)) => unreachable!(),
            None => unreachable!(),
        }
    }

    // Programs this page, which is the next event.
    fn program<F: Flash, C: PageCode>(
        &mut self,
        flash: &mut F,
        table: &mut BlockTable,
        code: &C,
        judge: &mut Judge,
        page: u32,
    ) -> Option<Fairness>
        requires event { option_map name_of (next_writing_event judge.old.geometry
            (update_writing self.old.update table.old)) ≡ Some (NamesProgram page) }
        requires there { page < page_count judge.old.geometry }
        requires sizes { judge.old.geometry ≡ (F.state flash.old).geometry }
        requires fits { WritingFits judge.old.geometry table.old self.old }
        requires states { length table.old ≡ judge.old.geometry.blocks }
        requires room { self.old.programs ≤ F.room flash.old }
        ensures advanced { IfSome (next_writing_event judge.old.geometry
            (update_writing self.old.update table.old)) (WritingAdvances F.fault_model
            (F.state flash.old) (F.state flash.new) (update_writing self.old.update table.old)
            (update_writing self.new.update table.new) result) }
        ensures fits { WritingFits judge.old.geometry table.new self.new }
        ensures states { length table.new ≡ length table.old }
        ensures marker { self.new.marker ≡ self.old.marker }
        ensures before { self.new.before ≡ self.old.before }
        ensures room { F.room flash.old + self.new.programs ≤ F.room flash.new
            + self.old.programs }
        ensures bits { F.bit_room flash.old ≤ F.bit_room flash.new }
        ensures judge { judge.new.geometry ≡ judge.old.geometry }
    {
        let image = self.image.as_mut_slice();
        self.update.image(code, table, image);
        let told = judge.program(flash, code, page, image);
        self.update.did(told.is_none(), table);
        self.programs -= 1;
        told
    }

    /// Does the next event of the writing of this table, which is there, while the power is cut, and
    /// tells what is left. It takes at most one page of the room.
    pub fn tear<F: Flash, C: PageCode>(
        &mut self,
        flash: &mut F,
        table: &BlockTable,
        code: &C,
        judge: &mut Judge,
        tear: &Tear,
    ) -> Fairness
        requires event { IsSome (next_writing_event judge.old.geometry
            (update_writing self.old.update table.now)) }
        requires sizes { judge.old.geometry ≡ (F.state flash.old).geometry }
        requires fits { WritingFits judge.old.geometry table.now self.old }
        requires states { length table.now ≡ judge.old.geometry.blocks }
        requires room { 1 ≤ F.room flash.old }
        ensures torn { IfSome (next_writing_event judge.old.geometry
            (update_writing self.old.update table.now)) (IsTorn F.fault_model tear.now
            (F.state flash.old) (F.state flash.new) result) }
        ensures update { self.new.update ≡ self.old.update }
        ensures image { length self.new.image ≡ length self.old.image }
        ensures marker { self.new.marker ≡ self.old.marker }
        ensures programs { self.new.programs ≡ self.old.programs }
        ensures before { self.new.before ≡ self.old.before }
        ensures room { F.room flash.old ≤ F.room flash.new + 1 }
        ensures bits { F.bit_room flash.old ≤ F.bit_room flash.new }
        ensures judge { judge.new.geometry ≡ judge.old.geometry }
    {
        match self.update.event() {
            Some(Event::Program(page)) => {
                let image = self.image.as_mut_slice();
                self.update.image(code, table, image);
                judge.tear_program(flash, code, page, image, tear)
            }
            Some(Event::Erase(block)) => judge.tear_erase(flash, code, block, tear),
            Some(Event::Read(_)) => unreachable!(),
            None => unreachable!(),
        }
    }
}
