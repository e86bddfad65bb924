// The attach of a chip.
ghost use Rattle.std.specs.Prelude.{◌≡◌, ◌≤◌, ◌<◌, ◌+◌, length, Some, None, true, option_map, IsSome, IfSome, IfOk};
ghost use Rattle.chip_paths.specs.Attach.{attach_path};
ghost use Rattle.chip_paths.specs.ChipRun.{name_of};
ghost use Rattle.nand_model.specs.Chip.{after_trace, flip_events};
ghost use Rattle.nand_model.specs.Flips.{FitsBits};
ghost use Rattle.nand_model.specs.Path.{Over, first_event};
ghost use Rattle.nand_model.specs.Sizes.{page_count};
ghost use Rattle.nand_model.specs.declared.geometry.Geometry.{Geometry};
ghost use Rattle.nand_model.specs.declared.words.Event.TheVariants.{Read as NamesRead, Program as NamesProgram, Erase as NamesErase};
ghost use Rattle.bbt_flash.specs.Attach.{attach_left};
ghost use Rattle.chip_core.specs.Knowledge.{KnowsFound};

use crate::judge::Judge;
use crate::knowledge::Knowledge;
use crate::quiet::{QuietWatch, block_is_quiet};
use bbt_flash::{Attach, Places};
use nand_iface::{Event, Fairness, Flash, Origin, PageCode};
use nand_model::{BlockList, Bytes, Geometry, Tear};
use std::alloc::{AllocError, Global};

/// The pages that an attach with tables programs at most: two copies of the table, and both again for each of
/// two blocks that fail.
const MOST_PROGRAMS: u32 = 6;

/// An attach that is not over, with all the memory that it needs.
#[derive(Drop)]
pub struct AttachRun {
    pub attach: Attach,
    pub watch: QuietWatch,
    /// The pages that it may still program.
    pub programs: u32,
    /// Room for a page that is read or programmed.
    pub cells: Bytes,
    /// Room for the states of all blocks in its note.
    pub states: Bytes,
}

/// What an attach found, for its note: whether it was quiet, where its table came from, the version
/// and the places of the tables on flash, how many copies are whole, and the state of each block.
#[derive(Drop)]
pub struct Finding {
    pub quiet: bool,
    pub origin: Origin,
    pub version: u8,
    pub places: Places,
    pub copies: u32,
    pub states: Bytes,
}

impl AttachRun {
    ghost use Rattle.chip_core.specs.AttachRun.{AttachAdvances, RunFits, Watches, attaching_found, quiet_to_next};
    ghost use Rattle.chip_core.specs.Torn.{IsTorn};

    /// An attach that has had no event on this flash.
    pub fn start<F: Flash>(alloc: Global, flash: &F, g: Geometry) -> Result<AttachRun, AllocError>
        requires { (F.state flash.now).geometry ≡ g }
        ensures left { IfOk result (λ run. attach_left run.attach ≡ attach_path g) }
        ensures quiet { IfOk result (λ run. run.watch.so_far ≡ true) }
        ensures watches { IfOk result (λ run. Watches (F.state flash.now) run) }
        ensures fits { IfOk result (λ run. RunFits g run) }
    {
        let programs = if g.bbt == 0 { 0 } else { MOST_PROGRAMS };
        Ok(AttachRun {
            attach: Attach::start(alloc, g)?,
            watch: QuietWatch::start(flash, &g),
            programs,
            cells: Bytes::filled(alloc, 0, g.raw_len() as usize)?,
            states: Bytes::filled(alloc, 0, g.blocks as usize)?,
        })
    }

    /// Does the next event, which is there. Some comes exactly where it failed, with what is left.
    pub fn advance<F: Flash, C: PageCode>(
        &mut self,
        flash: &mut F,
        code: &C,
        judge: &mut Judge,
    ) -> Option<Fairness>
        requires event { IsSome (first_event (attach_left self.old.attach)) }
        requires sizes { judge.old.geometry ≡ (F.state flash.old).geometry }
        requires fits { RunFits (F.state flash.old).geometry self.old }
        requires watches { Watches (F.state flash.old) self.old }
        requires room { self.old.programs ≤ F.room flash.old }
        ensures advanced { IfSome (first_event (attach_left self.old.attach))
            (AttachAdvances F.fault_model (F.state flash.old) (F.state flash.new) self.old
            self.new result) }
        ensures fits { RunFits (F.state flash.old).geometry self.new }
        ensures watches { Watches (F.state flash.new) self.new }
        ensures room { F.room flash.old + self.new.programs ≤ F.room flash.new
            + self.old.programs }
        ensures bits { F.bit_room flash.old ≤ F.bit_room flash.new }
        ensures sizes { judge.new.geometry ≡ judge.old.geometry }
    {
        match self.attach.event() {
            Some(Event::Read(page)) => {
                self.read(flash, code, page);
                None
            }
            Some(Event::Program(page)) => self.program(flash, code, judge, page),
            Some(Event::Erase(block)) => self.erase(flash, code, judge, block),
            None => unreachable!(),
        }
    }

    // Reads this page, which is the next event.
    fn read<F: Flash, C: PageCode>(&mut self, flash: &F, code: &C, page: u32)
        requires event { option_map name_of (first_event (attach_left self.old.attach))
            ≡ Some (NamesRead page) }
        requires there { page < page_count (F.state flash.now).geometry }
        requires fits { RunFits (F.state flash.now).geometry self.old }
        requires watches { Watches (F.state flash.now) self.old }
        ensures advanced { IfSome (first_event (attach_left self.old.attach))
            (AttachAdvances F.fault_model (F.state flash.now) (F.state flash.now) self.old
            self.new None) }
        ensures fits { RunFits (F.state flash.now).geometry self.new }
        ensures watches { Watches (F.state flash.now) self.new }
        ensures programs { self.new.programs ≡ self.old.programs }
    {
        self.watch.event_comes();
        let cells = self.cells.as_mut_slice();
        flash.read_page(page, cells);
        self.attach.did_read(code, cells);
    }

    // Programs this page, which is the next event.
    fn program<F: Flash, C: PageCode>(
        &mut self,
        flash: &mut F,
        code: &C,
        judge: &mut Judge,
        page: u32,
    ) -> Option<Fairness>
        requires event { option_map name_of (first_event (attach_left self.old.attach))
            ≡ Some (NamesProgram page) }
        requires there { page < page_count (F.state flash.old).geometry }
        requires sizes { judge.old.geometry ≡ (F.state flash.old).geometry }
        requires fits { RunFits (F.state flash.old).geometry self.old }
        requires watches { Watches (F.state flash.old) self.old }
        requires room { self.old.programs ≤ F.room flash.old }
        ensures advanced { IfSome (first_event (attach_left self.old.attach))
            (AttachAdvances F.fault_model (F.state flash.old) (F.state flash.new) self.old
            self.new result) }
        ensures fits { RunFits (F.state flash.old).geometry self.new }
        ensures watches { Watches (F.state flash.new) self.new }
        ensures room { F.room flash.old + self.new.programs ≤ F.room flash.new
            + self.old.programs }
        ensures bits { F.bit_room flash.old ≤ F.bit_room flash.new }
        ensures sizes { judge.new.geometry ≡ judge.old.geometry }
    {
        let g = judge.geometry;
        let block = page / g.pages_per_block;
        let was = block_is_quiet(flash, &g, block);
        self.watch.event_comes();
        let image = self.cells.as_mut_slice();
        self.attach.image(code, image);
        let told = judge.program(flash, code, page, image);
        self.watch.saw(was, block_is_quiet(flash, &g, block));
        self.attach.did(told.is_none());
        self.programs -= 1;
        told
    }

    // Erases this block, which is the next event.
    fn erase<F: Flash, C: PageCode>(
        &mut self,
        flash: &mut F,
        code: &C,
        judge: &mut Judge,
        block: u32,
    ) -> Option<Fairness>
        requires event { option_map name_of (first_event (attach_left self.old.attach))
            ≡ Some (NamesErase block) }
        requires there { block < (F.state flash.old).geometry.blocks }
        requires sizes { judge.old.geometry ≡ (F.state flash.old).geometry }
        requires fits { RunFits (F.state flash.old).geometry self.old }
        requires watches { Watches (F.state flash.old) self.old }
        ensures advanced { IfSome (first_event (attach_left self.old.attach))
            (AttachAdvances F.fault_model (F.state flash.old) (F.state flash.new) self.old
            self.new result) }
        ensures fits { RunFits (F.state flash.old).geometry self.new }
        ensures watches { Watches (F.state flash.new) self.new }
        ensures programs { self.new.programs ≡ self.old.programs }
        ensures room { F.room flash.old ≤ F.room flash.new }
        ensures bits { F.bit_room flash.old ≤ F.bit_room flash.new }
        ensures sizes { judge.new.geometry ≡ judge.old.geometry }
    {
        let g = judge.geometry;
        let was = block_is_quiet(flash, &g, block);
        self.watch.event_comes();
        let told = judge.erase(flash, code, block);
        self.watch.saw(was, block_is_quiet(flash, &g, block));
        self.attach.did(told.is_none());
        told
    }

    /// Does the next event, which is there, while the power is cut, and tells what is left. It takes
    /// at most one page of the room.
    pub fn tear<F: Flash, C: PageCode>(
        &mut self,
        flash: &mut F,
        code: &C,
        judge: &mut Judge,
        tear: &Tear,
    ) -> Fairness
        requires event { IsSome (first_event (attach_left self.old.attach)) }
        requires sizes { judge.old.geometry ≡ (F.state flash.old).geometry }
        requires fits { RunFits (F.state flash.old).geometry self.old }
        requires watches { Watches (F.state flash.old) self.old }
        requires room { 1 ≤ F.room flash.old }
        ensures torn { IfSome (first_event (attach_left self.old.attach)) (IsTorn F.fault_model
            tear.now (F.state flash.old) (F.state flash.new) result) }
        ensures left { attach_left self.new.attach ≡ attach_left self.old.attach }
        ensures quiet { self.new.watch.so_far ≡ quiet_to_next self.old }
        ensures fits { RunFits (F.state flash.old).geometry self.new }
        ensures watches { Watches (F.state flash.new) self.new }
        ensures programs { self.new.programs ≡ self.old.programs }
        ensures room { F.room flash.old ≤ F.room flash.new + 1 }
        ensures bits { F.bit_room flash.old ≤ F.bit_room flash.new }
        ensures sizes { judge.new.geometry ≡ judge.old.geometry }
    {
        match self.attach.event() {
            Some(Event::Read(_)) => {
                self.watch.event_comes();
                Fairness::Plain
            }
            Some(Event::Program(page)) => self.tear_program(flash, code, judge, page, tear),
            Some(Event::Erase(block)) => self.tear_erase(flash, code, judge, block, tear),
            None => unreachable!(),
        }
    }

    // Programs this page, which is the next event, while the power is cut.
    fn tear_program<F: Flash, C: PageCode>(
        &mut self,
        flash: &mut F,
        code: &C,
        judge: &mut Judge,
        page: u32,
        tear: &Tear,
    ) -> Fairness
        requires event { option_map name_of (first_event (attach_left self.old.attach))
            ≡ Some (NamesProgram page) }
        requires there { page < page_count (F.state flash.old).geometry }
        requires sizes { judge.old.geometry ≡ (F.state flash.old).geometry }
        requires fits { RunFits (F.state flash.old).geometry self.old }
        requires watches { Watches (F.state flash.old) self.old }
        requires room { 1 ≤ F.room flash.old }
        ensures torn { IfSome (first_event (attach_left self.old.attach)) (IsTorn F.fault_model
            tear.now (F.state flash.old) (F.state flash.new) result) }
        ensures left { attach_left self.new.attach ≡ attach_left self.old.attach }
        ensures quiet { self.new.watch.so_far ≡ quiet_to_next self.old }
        ensures fits { RunFits (F.state flash.old).geometry self.new }
        ensures watches { Watches (F.state flash.new) self.new }
        ensures programs { self.new.programs ≡ self.old.programs }
        ensures room { F.room flash.old ≤ F.room flash.new + 1 }
        ensures bits { F.bit_room flash.old ≤ F.bit_room flash.new }
        ensures sizes { judge.new.geometry ≡ judge.old.geometry }
    {
        let g = judge.geometry;
        let block = page / g.pages_per_block;
        let was = block_is_quiet(flash, &g, block);
        self.watch.event_comes();
        let image = self.cells.as_mut_slice();
        self.attach.image(code, image);
        let fairness = judge.tear_program(flash, code, page, image, tear);
        self.watch.saw(was, block_is_quiet(flash, &g, block));
        fairness
    }

    // Erases this block, which is the next event, while the power is cut.
    fn tear_erase<F: Flash, C: PageCode>(
        &mut self,
        flash: &mut F,
        code: &C,
        judge: &mut Judge,
        block: u32,
        tear: &Tear,
    ) -> Fairness
        requires event { option_map name_of (first_event (attach_left self.old.attach))
            ≡ Some (NamesErase block) }
        requires there { block < (F.state flash.old).geometry.blocks }
        requires sizes { judge.old.geometry ≡ (F.state flash.old).geometry }
        requires fits { RunFits (F.state flash.old).geometry self.old }
        requires watches { Watches (F.state flash.old) self.old }
        ensures torn { IfSome (first_event (attach_left self.old.attach)) (IsTorn F.fault_model
            tear.now (F.state flash.old) (F.state flash.new) result) }
        ensures left { attach_left self.new.attach ≡ attach_left self.old.attach }
        ensures quiet { self.new.watch.so_far ≡ quiet_to_next self.old }
        ensures fits { RunFits (F.state flash.old).geometry self.new }
        ensures watches { Watches (F.state flash.new) self.new }
        ensures programs { self.new.programs ≡ self.old.programs }
        ensures room { F.room flash.old ≤ F.room flash.new }
        ensures bits { F.bit_room flash.old ≤ F.bit_room flash.new }
        ensures sizes { judge.new.geometry ≡ judge.old.geometry }
    {
        let g = judge.geometry;
        let was = block_is_quiet(flash, &g, block);
        self.watch.event_comes();
        let fairness = judge.tear_erase(flash, code, block, tear);
        self.watch.saw(was, block_is_quiet(flash, &g, block));
        fairness
    }

    /// Turns these bits of a page, as the flash does, between two events.
    pub fn flip<F: Flash>(&mut self, flash: &mut F, page: u32, bits: &BlockList)
        requires place { FitsBits (F.state flash.old).geometry page bits.now }
        requires room { 0 < F.room flash.old }
        requires bits { length bits.now ≤ F.bit_room flash.old }
        requires watches { Watches (F.state flash.old) self.old }
        ensures state { F.state flash.new
            ≡ after_trace F.fault_model (F.state flash.old) (flip_events page bits.now) }
        ensures watches { Watches (F.state flash.new) self.new }
        ensures left { attach_left self.new.attach ≡ attach_left self.old.attach }
        ensures so_far { self.new.watch.so_far ≡ self.old.watch.so_far }
        ensures programs { self.new.programs ≡ self.old.programs }
        ensures fits { (g : Geometry) → RunFits g self.old → RunFits g self.new }
        ensures room { F.room flash.old ≤ F.room flash.new + 1 }
        ensures bits { F.bit_room flash.old ≤ F.bit_room flash.new + length bits.now }
    {
        let g = flash.geometry();
        let block = page / g.pages_per_block;
        let was = block_is_quiet(flash, &g, block);
        flash.flip(page, bits);
        self.watch.saw(was, block_is_quiet(flash, &g, block));
    }

    /// What the attach found, which is over. It is known of the chip then.
    pub fn into_finding(self, known: &mut Knowledge) -> Finding
        requires over { first_event (attach_left self.attach) ≡ None }
        requires fits { RunFits known.old.geometry self }
        ensures found { attach_left self.attach ≡ Over (attaching_found result) }
        ensures quiet { result.quiet ≡ self.watch.so_far }
        ensures known { KnowsFound known.old known.new (attaching_found result) }
    {
        let AttachRun {
            attach,
            watch,
            states,
            ..
        } = self;
        let attached = attach.finish();
        let mut states = states;
        let (origin, version) = (attached.origin, attached.version);
        let (places, copies) = (attached.places, attached.copies);
        known.take_found(attached);
        known.put_states(states.as_mut_slice());
        Finding {
            quiet: watch.so_far,
            origin,
            version,
            places,
            copies,
            states,
        }
    }
}
