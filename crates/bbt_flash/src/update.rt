// A writing of a table's copies.
ghost use Rattle.std.specs.Prelude.{◌≡◌, ◌<◌, ℕ, List, true, None, Some, option_map, length, IfSome};
ghost use Rattle.chip_paths.specs.ChipRun.{name_of};
ghost use Rattle.chip_paths.specs.Copies.{rewritten};
ghost use Rattle.chip_paths.specs.Attach.{whole_at_first};
ghost use Rattle.chip_paths.specs.Writing.{after_event, after_good, event_once, moved, next_writing_event, place_of, whole_count, with_retired, writing_after, writing_of};
ghost use Rattle.chip_paths.specs.Stage.{path_after};
ghost use Rattle.nand_model.specs.Path.{first_event};
ghost use Rattle.nand_model.specs.Sizes.{raw_len};
ghost use Rattle.nand_model.specs.Table.{has_tables};
ghost use Rattle.bbt_flash.specs.Copies.{copies_in, places_in, whole_in};
ghost use Rattle.bbt_flash.specs.Events.{IsOnChip, answer_of, image_of, is_program};

use crate::blocks::next_place;
use crate::choices::{rewritten, whole_at_first};
use crate::copies::{CopiesLeft, Places, WholeCopies, other_of};
use bbt_image::{Choice, put_encoded};
use bbt_ram::BlockTable;
use nand_iface::{Event, PageCode, Which};
use nand_model::Geometry;

/// A writing of copies of a table (this project's own rules): each copy is an erase of its block and
/// a program of the block's first page. A block that fails is called bad in the table, another of
/// the last four takes its place, and the copies are written under the next version, the moved one
/// first.
///
/// It keeps no table: its calls are handed the table, which `did` alone changes. Contracts see it,
/// with a table, as the definition's writing (`update_writing`). All versions are of 8 bits, and
/// blocks and pages are counted from 0 over the whole chip. No call takes memory.
#[derive(Debug, Drop)]
pub struct Update {
    geometry: Geometry,
    version: u8,
    places: Places,
    whole: WholeCopies,
    left: CopiesLeft,
    erased: bool,
    chances: u8,
    failed: Option<Which>,
    ghost tables: { has_tables geometry ≡ true },
    ghost primary_there: { places.primary < geometry.blocks },
    ghost mirror_there: { places.mirror < geometry.blocks },
}

impl Update {
    ghost use Rattle.bbt_flash.specs.Update.{update_sizes, update_writing, writing_left, writing_of_both};

    /// The writing of a mark: the primary and then the mirror under this version, which is the
    /// raised one. Both copies are whole at its start.
    pub fn start(g: Geometry, places: Places, version: u8) -> Update
        requires tables { has_tables g ≡ true }
        requires primary { places.primary < g.blocks }
        requires mirror { places.mirror < g.blocks }
        ensures sizes { update_sizes result ≡ g }
        ensures writing { (table : List ℕ) → update_writing result table
            ≡ writing_of_both table version (places_in places) }
    {
        let whole = WholeCopies {
            primary: true,
            mirror: true,
        };
        let left = CopiesLeft::Both {
            first: Which::Primary,
        };
        Update::of(g, places, version, whole, left)
    }

    /// The writing of an attach: the copies that are written again by what was chosen. The found
    /// copies that are not among these are whole at its start.
    pub(crate) fn rewriting(g: Geometry, places: Places, version: u8, choice: Choice) -> Update
        requires tables { has_tables g ≡ true }
        requires primary { places.primary < g.blocks }
        requires mirror { places.mirror < g.blocks }
        ensures sizes { update_sizes result ≡ g }
        ensures writing { (table : List ℕ) → update_writing result table
            ≡ writing_of table version (places_in places) (whole_at_first choice)
            (rewritten choice) }
    {
        Update::of(
            g,
            places,
            version,
            whole_at_first(choice),
            rewritten(choice),
        )
    }

    // A writing of these copies at its start.
    fn of(g: Geometry, places: Places, version: u8, whole: WholeCopies, left: CopiesLeft) -> Update
        requires tables { has_tables g ≡ true }
        requires primary { places.primary < g.blocks }
        requires mirror { places.mirror < g.blocks }
        ensures sizes { update_sizes result ≡ g }
        ensures writing { (table : List ℕ) → update_writing result table
            ≡ writing_of table version (places_in places) (whole_in whole) (copies_in left) }
    {
        Update {
            geometry: g,
            version,
            places,
            whole,
            left,
            erased: false,
            chances: 2,
            failed: None,
        }
    }

    /// The next event, which is of a page or a block of the chip. None comes exactly where the
    /// writing is over.
    pub fn event(&self) -> Option<Event>
        ensures next { (table : List ℕ) → result ≡ option_map name_of
            (next_writing_event (update_sizes self.now) (update_writing self.now table)) }
        ensures path { (table : List ℕ) → result ≡ option_map name_of
            (first_event (writing_left (update_sizes self.now) (update_writing self.now table))) }
        ensures there { IfSome result (IsOnChip (update_sizes self.now)) }
    {
        match self.left {
            CopiesLeft::Nothing => None,
            CopiesLeft::Last(which) => Some(self.event_for(which)),
            CopiesLeft::Both { first } => Some(self.event_for(first)),
        }
    }

    /// Writes the image of the next event, a program: the page of the copy with its parities, of
    /// `raw_len` bytes.
    pub fn image<C: PageCode>(&self, code: &C, table: &BlockTable, out: &mut [u8])
        requires program { is_program
            (next_writing_event (update_sizes self.now) (update_writing self.now table.now))
            ≡ true }
        requires blocks { length table.now ≡ (update_sizes self.now).blocks }
        requires whole { length out.old ≡ raw_len (update_sizes self.now) }
        ensures { out.new ≡ image_of
            (next_writing_event (update_sizes self.now) (update_writing self.now table.now)) }
    {
        match self.left {
            CopiesLeft::Nothing => unreachable!(),
            CopiesLeft::Last(which) => self.put_copy(code, which, table, out),
            CopiesLeft::Both { first } => self.put_copy(code, first, table, out),
        }
    }

    /// Is told whether the next event, a program or an erase, was good. Where it failed, 1 is ORed
    /// into the entry of its block. Once the writing is over, nothing changes.
    pub fn did(&mut self, ok: bool, table: &mut BlockTable)
        requires blocks { length table.old ≡ (update_sizes self.old).blocks }
        ensures step { update_writing self.new table.new
            ≡ writing_after (update_sizes self.old) (update_writing self.old table.old)
            (answer_of ok) }
        ensures path { writing_left (update_sizes self.old) (update_writing self.new table.new)
            ≡ path_after (answer_of ok)
            (writing_left (update_sizes self.old) (update_writing self.old table.old)) }
        ensures sizes { update_sizes self.new ≡ update_sizes self.old }
        ensures blocks { length table.new ≡ length table.old }
    {
        match self.left {
            CopiesLeft::Nothing => {}
            CopiesLeft::Last(which) => self.go_on(which, CopiesLeft::Nothing, ok, table),
            CopiesLeft::Both { first } => {
                self.go_on(first, CopiesLeft::Last(other_of(first)), ok, table);
            }
        }
    }

    /// The copy for which the writing has failed. Some comes exactly where the writing has ended as
    /// failed.
    pub fn failed(&self) -> Option<Which>
        ensures { (table : List ℕ) → result ≡ (update_writing self.now table).failed }
    {
        self.failed
    }

    /// The places of the copies after the events so far, which are blocks of the chip.
    pub fn places(&self) -> Places
        ensures places { (table : List ℕ) → places_in result
            ≡ (update_writing self.now table).places }
        ensures primary { result.primary < (update_sizes self.now).blocks }
        ensures mirror { result.mirror < (update_sizes self.now).blocks }
    {
        self.places
    }

    /// The version that is being written after the events so far.
    pub fn version(&self) -> u8
        ensures { (table : List ℕ) → result ≡ (update_writing self.now table).version }
    {
        self.version
    }

    /// The number of whole copies after the events so far.
    pub fn copies(&self) -> u32
        ensures { (table : List ℕ) → result
            ≡ whole_count (update_writing self.now table).whole }
    {
        self.whole.count()
    }

    // The block of a copy.
    fn place(&self, which: Which) -> u32
        ensures place { result ≡ place_of (places_in self.now.places) which }
        ensures there { result < self.now.geometry.blocks }
    {
        match which {
            Which::Primary => self.places.primary,
            Which::Mirror => self.places.mirror,
        }
    }

    // The next event of a copy.
    fn event_for(&self, which: Which) -> Event
        ensures event { (table : List ℕ) → result ≡ name_of
            (event_once self.now.erased self.now.geometry (update_writing self.now table) which) }
        ensures there { IsOnChip self.now.geometry result }
    {
        let block = self.place(which);
        if self.erased {
            Event::Program(block * self.geometry.pages_per_block)
        } else {
            Event::Erase(block)
        }
    }

    // Writes the page of a copy.
    fn put_copy<C: PageCode>(&self, code: &C, which: Which, table: &BlockTable, out: &mut [u8])
        requires blocks { length table.now ≡ self.now.geometry.blocks }
        requires whole { length out.old ≡ raw_len self.now.geometry }
        requires erased { self.now.erased ≡ true }
        ensures { out.new ≡ image_of (Some (event_once self.now.erased self.now.geometry
            (update_writing self.now table.now) which)) }
    {
        put_encoded(&self.geometry, code, which, self.version, table, out);
    }

    // An event of this copy was good or failed; these copies come after it.
    fn go_on(&mut self, which: Which, more: CopiesLeft, ok: bool, table: &mut BlockTable)
        requires blocks { length table.old ≡ self.old.geometry.blocks }
        ensures step { update_writing self.new table.new
            ≡ after_event self.old.geometry (update_writing self.old table.old) which
            (copies_in more) ok }
        ensures sizes { self.new.geometry ≡ self.old.geometry }
        ensures blocks { length table.new ≡ length table.old }
    {
        if ok {
            self.was_good(which, more);
        } else {
            self.retire(which, table);
        }
    }

    // The erase or the program of this copy was good; these copies come after it.
    fn was_good(&mut self, which: Which, more: CopiesLeft)
        ensures step { (table : List ℕ) → update_writing self.new table
            ≡ after_good (update_writing self.old table) which (copies_in more) self.old.erased }
        ensures sizes { self.new.geometry ≡ self.old.geometry }
    {
        if self.erased {
            self.whole.set(which, true);
            self.left = more;
            self.erased = false;
        } else {
            self.whole.set(which, false);
            self.erased = true;
        }
    }

    // The block of this copy has failed: it is called bad, and the copy moves.
    fn retire(&mut self, which: Which, table: &mut BlockTable)
        requires blocks { length table.old ≡ self.old.geometry.blocks }
        ensures step { update_writing self.new table.new
            ≡ with_retired self.old.geometry (update_writing self.old table.old) which }
        ensures sizes { self.new.geometry ≡ self.old.geometry }
        ensures blocks { length table.new ≡ length table.old }
    {
        table.mark(self.place(which), 1);
        self.whole.set(which, false);
        self.erased = false;
        match next_place(&self.geometry, table, self.place(other_of(which))) {
            Some(block) => self.move_to(which, block),
            None => self.give_up(which),
        }
    }

    // This copy goes to another block under the next version, unless too many blocks have failed.
    fn move_to(&mut self, which: Which, block: u32)
        requires { block < self.old.geometry.blocks }
        ensures step { (table : List ℕ) → update_writing self.new table
            ≡ moved (update_writing self.old table) which (Some block) self.old.chances }
        ensures sizes { self.new.geometry ≡ self.old.geometry }
    {
        if self.chances == 0 {
            self.give_up(which);
        } else {
            self.chances -= 1;
            self.version = self.version.wrapping_add(1);
            self.places.set(which, block);
            self.left = CopiesLeft::Both { first: which };
        }
    }

    // The writing ends as failed for this copy.
    fn give_up(&mut self, which: Which)
        ensures step { (table : List ℕ) (chances : ℕ) → update_writing self.new table
            ≡ moved (update_writing self.old table) which None chances }
        ensures sizes { self.new.geometry ≡ self.old.geometry }
    {
        self.left = CopiesLeft::Nothing;
        self.failed = Some(which);
    }
}
