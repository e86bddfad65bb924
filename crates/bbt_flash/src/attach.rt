// The attach of a chip.
ghost use Rattle.std.specs.Prelude.{◌≡◌, ◌<◌, ℕ, List, true, None, option_map, length, IfOk, IfSome};
ghost use Rattle.chip_paths.specs.Attach.{attach_path, rewrite_copies};
ghost use Rattle.chip_paths.specs.ChipRun.{name_of};
ghost use Rattle.chip_paths.specs.Stage.{path_after};
ghost use Rattle.nand_model.specs.Chip.{ReadEvent};
ghost use Rattle.nand_model.specs.Path.{Data, Over, first_event};
ghost use Rattle.nand_model.specs.Sizes.{first_page, raw_len};
ghost use Rattle.nand_model.specs.Table.{has_tables};
ghost use Rattle.bbt_flash.specs.Copies.{places_in};
ghost use Rattle.bbt_flash.specs.Events.{IsOnChip, answer_of, image_of, is_change, is_program, is_read};
ghost use Rattle.bbt_flash.specs.Held.{copies_of, use_copies};
ghost use Rattle.bbt_flash.specs.Step.{ScanFits, SearchFits, StepFits, StepFits-prop, step_left};
ghost use Rattle.bbt_flash.specs.declared.step.Step.TheVariants.{Searching, Scanning, Over as IsOver};

use crate::choices::{origin_of, used};
use crate::copies::Places;
use crate::markers::{marker_state, reserve_last};
use crate::search::Search;
use crate::step::{Rewriting, Scan, Step};
use crate::update::Update;
use bbt_image::{Choice, choose};
use bbt_ram::BlockTable;
use nand_iface::{Event, Origin, PageCode, Which};
use nand_model::Geometry;
use std::alloc::{AllocError, Global};
use std::mem;

/// The attach of a chip (nand_bbt; which copies are written again, where and under which version is
/// this project's own rule). With tables on flash, the last four blocks are searched for the two
/// copies of the table, and those that need it are written; without them, the markers of all blocks
/// are the table.
///
/// Contracts see it as what is left of its path (`attach_left`). Blocks and pages are counted from 0
/// over the whole chip. Only `start` takes memory.
#[derive(Drop)]
pub struct Attach {
    geometry: Geometry,
    table: BlockTable,
    step: Step,
    ghost all_there: { length table ≡ geometry.blocks },
    ghost fits: { StepFits geometry step } by { StepFits-prop geometry step },
}

/// What an attach found: the state of each block, where it came from, and of the tables on flash
/// their version, their places and the number of whole copies; these are 0 on a chip without tables.
#[derive(Drop)]
pub struct Attached {
    pub table: BlockTable,
    pub origin: Origin,
    pub version: u8,
    pub places: Places,
    pub copies: u32,
}

impl Attach {
    ghost use Rattle.bbt_flash.specs.Attach.{attach_left, attach_sizes, attaching_in};

    /// An attach at its start, with room for the tables of four copies.
    pub fn start(alloc: Global, g: Geometry) -> Result<Attach, AllocError>
        ensures sizes { IfOk result (λ attach. attach_sizes attach ≡ g) }
        ensures path { IfOk result (λ attach. attach_left attach ≡ attach_path g) }
    {
        Ok(Attach {
            geometry: g,
            table: BlockTable::new(alloc, g.blocks)?,
            step: first_step(alloc, g)?,
        })
    }

    /// The next event, which is of a page or a block of the chip. None comes exactly where attaching
    /// is over.
    pub fn event(&self) -> Option<Event>
        ensures next { result ≡ option_map name_of (first_event (attach_left self.now)) }
        ensures there { IfSome result (IsOnChip (attach_sizes self.now)) }
    {
        match &self.step {
            Step::Searching(search) => Some(self.read_of(search.block())),
            Step::Scanning(scan) => Some(self.read_of(scan.next)),
            Step::Writing(rewriting) => rewriting.update.event(),
            Step::Over => None,
        }
    }

    /// Writes the image of the next event, a program: the page of a copy with its parities, of
    /// `raw_len` bytes.
    pub fn image<C: PageCode>(&self, code: &C, out: &mut [u8])
        requires program { is_program (first_event (attach_left self.now)) ≡ true }
        requires whole { length out.old ≡ raw_len (attach_sizes self.now) }
        ensures { out.new ≡ image_of (first_event (attach_left self.now)) }
    {
        match &self.step {
            Step::Writing(rewriting) => rewriting.update.image(code, &self.table, out),
            Step::Searching(_) => unreachable!(),
            Step::Scanning(_) => unreachable!(),
            Step::Over => unreachable!(),
        }
    }

    /// Is told the page of the next event, a read, as it was read raw: `raw_len` bytes. Nothing is
    /// said of the bytes then.
    pub fn did_read<C: PageCode>(&mut self, code: &C, image: &mut [u8])
        requires read { is_read (first_event (attach_left self.old)) ≡ true }
        requires whole { length image.old ≡ raw_len (attach_sizes self.old) }
        ensures left { attach_left self.new ≡ path_after (Data image.old) (attach_left self.old) }
        ensures sizes { attach_sizes self.new ≡ attach_sizes self.old }
    {
        match mem::replace(&mut self.step, Step::Over) {
            Step::Searching(search) => self.search_on(search, code, image),
            Step::Scanning(scan) => self.scan_on(scan, image),
            Step::Writing(_) => unreachable!(),
            Step::Over => unreachable!(),
        }
    }

    /// Is told whether the next event, a program or an erase, was good.
    pub fn did(&mut self, ok: bool)
        requires { is_change (first_event (attach_left self.old)) ≡ true }
        ensures left { attach_left self.new ≡ path_after (answer_of ok) (attach_left self.old) }
        ensures sizes { attach_sizes self.new ≡ attach_sizes self.old }
    {
        match mem::replace(&mut self.step, Step::Over) {
            Step::Writing(rewriting) => {
                let mut rewriting = rewriting;
                rewriting.update.did(ok, &mut self.table);
                self.step = Step::Writing(rewriting);
            }
            Step::Searching(_) => unreachable!(),
            Step::Scanning(_) => unreachable!(),
            Step::Over => unreachable!(),
        }
    }

    /// What was found, with a state for each block. The attach is over.
    pub fn finish(self) -> Attached
        requires { first_event (attach_left self) ≡ None }
        ensures found { attach_left self ≡ Over (attaching_in result) }
        ensures blocks { length result.table ≡ (attach_sizes self).blocks }
        ensures primary { result.places.primary < (attach_sizes self).blocks }
        ensures mirror { result.places.mirror < (attach_sizes self).blocks }
    {
        let Attach { table, step, .. } = self;
        match step {
            Step::Writing(rewriting) => {
                let update = rewriting.update;
                Attached {
                    table,
                    origin: rewriting.origin,
                    version: update.version(),
                    places: update.places(),
                    copies: update.copies(),
                }
            }
            Step::Over => Attached {
                table,
                origin: Origin::Markers,
                version: 0,
                places: Places {
                    primary: 0,
                    mirror: 0,
                },
                copies: 0,
            },
            Step::Searching(_) => unreachable!(),
            Step::Scanning(_) => unreachable!(),
        }
    }

    // The read of a block's first page.
    fn read_of(&self, block: u32) -> Event
        requires { block < self.now.geometry.blocks }
        ensures read { result ≡ name_of (ReadEvent (first_page self.now.geometry block)) }
        ensures there { IsOnChip self.now.geometry result }
    {
        Event::Read(block * self.geometry.pages_per_block)
    }

    // Takes in the first page of the next of the last four blocks; after the last one it is known
    // which copies there are.
    fn search_on<C: PageCode>(&mut self, search: Search, code: &C, image: &mut [u8])
        requires rests { self.old.step ≡ IsOver }
        requires fits { SearchFits self.old.geometry search }
        requires whole { length image.old ≡ raw_len self.old.geometry }
        ensures left { step_left self.new.geometry self.new.table self.new.step
            ≡ path_after (Data image.old)
            (step_left self.old.geometry self.old.table (Searching search)) }
        ensures sizes { self.new.geometry ≡ self.old.geometry }
    {
        let mut search = search;
        search.read(code, image);
        if search.next < 4 {
            self.step = Step::Searching(search);
        } else {
            self.decide(search);
        }
    }

    // Takes the table from the copy that is used, or begins to read the markers where there is none.
    fn decide(&mut self, search: Search)
        requires rests { self.old.step ≡ IsOver }
        requires sizes { search.geometry ≡ self.old.geometry }
        ensures left { step_left self.new.geometry self.new.table self.new.step
            ≡ use_copies self.old.geometry (copies_of search.helds.items)
            search.candidates.items }
        ensures sizes { self.new.geometry ≡ self.old.geometry }
    {
        let primary = search.found(Which::Primary);
        let mirror = search.found(Which::Mirror);
        let places = search.places(primary, mirror);
        let choice = choose(search.version_of(primary), search.version_of(mirror));
        match used(choice, primary, mirror) {
            Some(n) => {
                let copy = search.into_copy(n);
                self.table = copy.table;
                self.write_again(places, choice, copy.version);
            }
            None => self.step = Step::Scanning(Scan { next: 0, places }),
        }
    }

    // Takes in the first page of the next block; after the last one all markers are known.
    fn scan_on(&mut self, scan: Scan, image: &[u8])
        requires rests { self.old.step ≡ IsOver }
        requires fits { ScanFits self.old.geometry scan }
        requires whole { length image.now ≡ raw_len self.old.geometry }
        ensures left { step_left self.new.geometry self.new.table self.new.step
            ≡ path_after (Data image.now)
            (step_left self.old.geometry self.old.table (Scanning scan)) }
        ensures sizes { self.new.geometry ≡ self.old.geometry }
    {
        let state = marker_state(&self.geometry, image);
        self.table.set(scan.next, state);
        let next = scan.next + 1;
        if next < self.geometry.blocks {
            let places = scan.places;
            self.step = Step::Scanning(Scan { next, places });
        } else if self.geometry.bbt != 0 {
            self.write_again(scan.places, Choice::Neither, 1);
        }
    }

    // Reserves the last four blocks, and begins to write the copies again that a choice names.
    fn write_again(&mut self, places: Places, choice: Choice, version: u8)
        requires rests { self.old.step ≡ IsOver }
        requires tables { has_tables self.old.geometry ≡ true }
        requires primary { places.primary < self.old.geometry.blocks }
        requires mirror { places.mirror < self.old.geometry.blocks }
        ensures left { step_left self.new.geometry self.new.table self.new.step
            ≡ rewrite_copies self.old.geometry (places_in places) choice version self.old.table }
        ensures sizes { self.new.geometry ≡ self.old.geometry }
    {
        reserve_last(&self.geometry, &mut self.table);
        self.step = Step::Writing(Rewriting {
            update: Update::rewriting(self.geometry, places, version, choice),
            origin: origin_of(choice),
        });
    }
}

// The step with which an attach begins.
fn first_step(alloc: Global, g: Geometry) -> Result<Step, AllocError>
    ensures fits { IfOk result (StepFits g) }
    ensures left { IfOk result (λ step. (table : List ℕ) → step_left g table step ≡ attach_path g) }
{
    if g.bbt == 0 {
        let places = Places {
            primary: 0,
            mirror: 0,
        };
        Ok(Step::Scanning(Scan { next: 0, places }))
    } else {
        Ok(Step::Searching(Search::start(alloc, g)?))
    }
}
