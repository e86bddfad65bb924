// What is left of an operation.
ghost use Rattle.std.specs.Prelude.{◌≡◌, ◌≤◌, ◌<◌, ◌+◌, ℕ, List, Some, None, true, option_map, is_none, IsSome, IfSome};
ghost use Rattle.nand_iface.specs.Flash.{FitsPage};
ghost use Rattle.chip_paths.specs.ChipRun.{AfterOne, name_of};
ghost use Rattle.chip_paths.specs.Operation.{Known, after_read, done_or, raw_reply};
ghost use Rattle.nand_model.specs.Page.{decoded};
ghost use Rattle.nand_model.specs.Path.{Answer, Over};
ghost use Rattle.nand_model.specs.declared.words.Reply.TheVariants.{ProgramFailed as RepliesProgramFailed, EraseFailed as RepliesEraseFailed};
ghost use Rattle.bbt_flash.specs.Events.{answer_of};
ghost use Rattle.nand_model.specs.Table.{has_tables};
ghost use Rattle.chip_core.specs.Torn.{IsTorn};
ghost use Rattle.chip_core.specs.Task.{Advances, FitsMark, FollowsMarker, HasMarked, KeepsKnown, StaysSo, TaskFits, counted_by, marker_event, programs_of, table_before, task_event, task_left, task_progress};
ghost use Rattle.chip_core.specs.declared.task.Task.TheVariants.{Ended, Marker};

use crate::judge::Judge;
use crate::knowledge::Knowledge;
use crate::table_writing::TableWriting;
use bbt_flash::Update;
use bbt_ram::BlockTable;
use nand_iface::{Event, Fairness, Flash, PageCode, Reply};
use nand_model::{Bytes, Geometry, PageKind, PageRead, Tear};
use std::snapshot::Snapshot;

/// What is left of an operation: its next event with all that it needs, or its reply.
#[derive(Drop)]
pub enum Task {
    /// A page is to be read as it stands into these bytes.
    Reading {
        page: u32,
        cells: Bytes,
    },
    /// A page of a device is to be read into these bytes and decoded.
    Decoding {
        dev: u32,
        page: u32,
        cells: Bytes,
    },
    /// This image is to be programmed into a page.
    Programming {
        page: u32,
        image: Bytes,
    },
    /// A block is to be erased.
    Erasing {
        block: u32,
    },
    /// A block that is to be marked is to be erased. Its marker will be put together in these
    /// bytes.
    Marking {
        block: u32,
        image: Bytes,
    },
    /// The marker of a block is to be put together in these bytes and programmed.
    Marker {
        block: u32,
        image: Bytes,
    },
    /// A block was marked, on the chip and in the table, whose copies are written.
    Writing(TableWriting),
    /// A block was marked, on the chip and then in the table, which was this before. No event is
    /// left.
    Marked {
        block: u32,
        before: Snapshot<BlockTable>,
    },
    /// The marker of a block failed. No event is left, and the table is as before.
    MarkerFailed,
    /// A page of a device was decoded. No event is left, and its counts are still to be added to
    /// the device's statistics.
    Decoded {
        dev: u32,
        kind: PageKind,
        read: PageRead,
        image: Bytes,
    },
    /// The operation has no event.
    AtOnce(Reply),
    /// The operation's one event was done.
    Ended(Reply),
}

impl Task {
    /// The next event. None comes exactly where no event is left.
    pub fn event(&self, g: &Geometry) -> Option<Event>
        requires { (table : List ℕ) × TaskFits g.now table self.now }
        ensures { (table : List ℕ) → result ≡ option_map name_of (task_event g.now table self.now) }
    {
        match self {
            Task::Reading { page, .. } | Task::Decoding { page, .. } => Some(Event::Read(*page)),
            Task::Programming { page, .. } => Some(Event::Program(*page)),
            Task::Erasing { block } | Task::Marking { block, .. } => Some(Event::Erase(*block)),
            Task::Marker { block, .. } => Some(Event::Program(*block * g.pages_per_block)),
            Task::Writing(writing) => writing.update.event(),
            Task::Marked { .. } | Task::MarkerFailed => None,
            Task::Decoded { .. } | Task::AtOnce(_) | Task::Ended(_) => None,
        }
    }

    /// The pages that may still be programmed.
    pub fn programs(&self, g: &Geometry) -> u32
        ensures { result ≡ programs_of g.now self.now }
    {
        match self {
            Task::Programming { .. } => 1,
            Task::Marking { .. } | Task::Marker { .. } => { if g.bbt == 0 { 1 } else { 7 } }
            Task::Writing(writing) => writing.programs,
            _ => 0,
        }
    }

    /// Does the next event, which is there. What is left is a reply, beside what is told of an
    /// event that failed.
    ///
    /// The block of a marker is marked in the table; without tables, only where the marker did not
    /// fail. Of a writing of tables, a block that failed is marked too. No other event changes what
    /// is known.
    pub fn advance<F: Flash, C: PageCode>(
        self,
        flash: &mut F,
        known: &mut Knowledge,
        code: &C,
        judge: &mut Judge,
    ) -> (Task, Option<Fairness>)
        requires sizes { (F.state flash.old).geometry ≡ known.old.geometry }
        requires judge { judge.old.geometry ≡ known.old.geometry }
        requires fits { TaskFits known.old.geometry known.old.table self }
        requires room { programs_of known.old.geometry self ≤ F.room flash.old }
        requires event { IsSome (task_event known.old.geometry known.old.table self) }
        ensures advanced { IfSome (task_event known.old.geometry known.old.table self)
            (Advances F.fault_model (F.state flash.old) (F.state flash.new) known.old known.new
            self result.0 result.1) }
        ensures known { KeepsKnown known.old known.new self result.0 }
        ensures fits { TaskFits known.old.geometry known.new.table result.0 }
        ensures counted { counted_by result.0 ≡ counted_by self }
        ensures room { F.room flash.old + programs_of known.old.geometry result.0
            ≤ F.room flash.new + programs_of known.old.geometry self }
        ensures bits { F.bit_room flash.old ≤ F.bit_room flash.new }
        ensures judge { judge.new.geometry ≡ judge.old.geometry }
    {
        match self {
            Task::Reading { page, cells } => (read(flash, page, cells), None),
            Task::Decoding { dev, page, cells } => (decode(flash, code, dev, page, cells), None),
            Task::Programming { page, image } => {
                let told = judge.program(flash, code, page, image.as_slice());
                (Task::Ended(program_reply(told)), told)
            }
            Task::Erasing { block } => {
                let told = judge.erase(flash, code, block);
                (Task::Ended(erase_reply(told)), told)
            }
            Task::Marking { block, image } => {
                let told = judge.erase(flash, code, block);
                (Task::Marker { block, image }, told)
            }
            Task::Marker { block, image } => put_marker(flash, known, code, judge, block, image),
            Task::Writing(writing) => {
                let mut writing = writing;
                let told = writing.advance(flash, &mut known.table, code, judge);
                (Task::Writing(writing), told)
            }
            Task::Marked { .. } | Task::MarkerFailed => unreachable!(),
            Task::Decoded { .. } | Task::AtOnce(_) | Task::Ended(_) => unreachable!(),
        }
    }
}

impl Task {
    /// Does the next event, which is there, while the power is cut, and tells what is left. The task
    /// stays as it is. It takes at most one page of the room.
    pub fn tear<F: Flash, C: PageCode>(
        self,
        flash: &mut F,
        known: &Knowledge,
        code: &C,
        judge: &mut Judge,
        tear: &Tear,
    ) -> (Task, Fairness)
        requires sizes { (F.state flash.old).geometry ≡ known.now.geometry }
        requires judge { judge.old.geometry ≡ known.now.geometry }
        requires fits { TaskFits known.now.geometry known.now.table self }
        requires room { 1 ≤ F.room flash.old }
        requires event { IsSome (task_event known.now.geometry known.now.table self) }
        ensures torn { IfSome (task_event known.now.geometry known.now.table self) (IsTorn
            F.fault_model tear.now (F.state flash.old) (F.state flash.new) result.1) }
        ensures stays { StaysSo known.now.geometry known.now.table self result.0 }
        ensures room { F.room flash.old ≤ F.room flash.new + 1 }
        ensures bits { F.bit_room flash.old ≤ F.bit_room flash.new }
        ensures judge { judge.new.geometry ≡ judge.old.geometry }
    {
        match self {
            Task::Reading { page, cells } => (Task::Reading { page, cells }, Fairness::Plain),
            Task::Decoding { dev, page, cells } => {
                (Task::Decoding { dev, page, cells }, Fairness::Plain)
            }
            Task::Programming { page, image } => {
                let fairness = judge.tear_program(flash, code, page, image.as_slice(), tear);
                (Task::Programming { page, image }, fairness)
            }
            Task::Erasing { block } => {
                (
                    Task::Erasing { block },
                    judge.tear_erase(flash, code, block, tear),
                )
            }
            Task::Marking { block, image } => {
                let fairness = judge.tear_erase(flash, code, block, tear);
                (Task::Marking { block, image }, fairness)
            }
            Task::Marker { block, image } => tear_marker(flash, code, judge, block, image, tear),
            Task::Writing(writing) => {
                let mut writing = writing;
                let fairness = writing.tear(flash, &known.table, code, judge, tear);
                (Task::Writing(writing), fairness)
            }
            Task::Marked { .. } | Task::MarkerFailed => unreachable!(),
            Task::Decoded { .. } | Task::AtOnce(_) | Task::Ended(_) => unreachable!(),
        }
    }
}

// Programs the marker of a block while the power is cut.
fn tear_marker<F: Flash, C: PageCode>(
    flash: &mut F,
    code: &C,
    judge: &mut Judge,
    block: u32,
    image: Bytes,
    tear: &Tear,
) -> (Task, Fairness)
    requires judge { judge.old.geometry ≡ (F.state flash.old).geometry }
    requires fits { FitsMark judge.old.geometry block image }
    requires room { 1 ≤ F.room flash.old }
    ensures torn { IsTorn F.fault_model tear.now (F.state flash.old) (F.state flash.new) result.1
        (marker_event judge.old.geometry block) }
    ensures stays { (table : List ℕ) → StaysSo judge.old.geometry table (Marker block image)
        result.0 }
    ensures room { F.room flash.old ≤ F.room flash.new + 1 }
    ensures bits { F.bit_room flash.old ≤ F.bit_room flash.new }
    ensures sizes { judge.new.geometry ≡ judge.old.geometry }
{
    let g = judge.geometry;
    let mut image = image;
    page_ops::put_marker(&g, image.as_mut_slice());
    let page = block * g.pages_per_block;
    let fairness = judge.tear_program(flash, code, page, image.as_slice(), tear);
    (Task::Marker { block, image }, fairness)
}

// Reads a page into these bytes, and replies with them.
fn read<F: Flash>(flash: &F, page: u32, cells: Bytes) -> Task
    requires { FitsPage (F.state flash.now).geometry page cells }
    ensures { result ≡ Ended (raw_reply ((F.state flash.now).pages page).cells) }
{
    let mut image = cells;
    flash.read_page(page, image.as_mut_slice());
    Task::Ended(Reply::Page {
        kind: PageKind::Raw,
        read: PageRead {
            corrected: 0,
            greatest: 0,
            failed: 0,
        },
        image,
    })
}

// Reads a page of a device, and decodes what the read saw.
fn decode<F: Flash, C: PageCode>(flash: &F, code: &C, dev: u32, page: u32, cells: Bytes) -> Task
    requires { FitsPage (F.state flash.now).geometry page cells }
    ensures left { (k : Known) (table : List ℕ) → task_left (F.state flash.now).geometry table k result
        ≡ Over (after_read (F.state flash.now).geometry k dev
        (decoded (F.state flash.now).geometry ((F.state flash.now).pages page).cells)) }
    ensures fits { (table : List ℕ) → TaskFits (F.state flash.now).geometry table result }
    ensures progress { task_progress result ≡ AfterOne }
    ensures counted { counted_by result ≡ Some dev }
    ensures programs { programs_of (F.state flash.now).geometry result ≡ 0 }
    ensures before { (table : List ℕ) → table_before table result ≡ table }
    ensures marked { (table : List ℕ) → HasMarked table result }
{
    let mut image = cells;
    let (kind, read) = page_ops::read(flash, code, page, image.as_mut_slice());
    Task::Decoded {
        dev,
        kind,
        read,
        image,
    }
}

// The reply to a program, by what is told of its failure.
fn program_reply(told: Option<Fairness>) -> Reply
    ensures { (outcome : Answer) → outcome ≡ answer_of (is_none told) → result
        ≡ done_or RepliesProgramFailed outcome }
{
    match told {
        None => Reply::Done,
        Some(_) => Reply::ProgramFailed,
    }
}

// The reply to an erase, by what is told of its failure.
fn erase_reply(told: Option<Fairness>) -> Reply
    ensures { (outcome : Answer) → outcome ≡ answer_of (is_none told) → result
        ≡ done_or RepliesEraseFailed outcome }
{
    match told {
        None => Reply::Done,
        Some(_) => Reply::EraseFailed,
    }
}

// Programs the marker of a block. The block is then marked in the table, whose copies are to be
// written; without tables, only where the marker did not fail.
fn put_marker<F: Flash, C: PageCode>(
    flash: &mut F,
    known: &mut Knowledge,
    code: &C,
    judge: &mut Judge,
    block: u32,
    image: Bytes,
) -> (Task, Option<Fairness>)
    requires sizes { (F.state flash.old).geometry ≡ known.old.geometry }
    requires judge { judge.old.geometry ≡ known.old.geometry }
    requires fits { FitsMark known.old.geometry block image }
    requires room { 1 ≤ F.room flash.old }
    ensures advanced { Advances F.fault_model (F.state flash.old) (F.state flash.new) known.old
        known.new (Marker block image) result.0 result.1
        (marker_event known.old.geometry block) }
    ensures known { KeepsKnown known.old known.new (Marker block image) result.0 }
    ensures fits { TaskFits known.old.geometry known.new.table result.0 }
    ensures counted { counted_by result.0 ≡ None }
    ensures room { F.room flash.old + programs_of known.old.geometry result.0 ≤ F.room flash.new
        + programs_of known.old.geometry (Marker block image) }
    ensures bits { F.bit_room flash.old ≤ F.bit_room flash.new }
    ensures judge { judge.new.geometry ≡ judge.old.geometry }
{
    let g = judge.geometry;
    let mut image = image;
    page_ops::put_marker(&g, image.as_mut_slice());
    let told = judge.program(flash, code, block * g.pages_per_block, image.as_slice());
    (after_marker(known, block, image, told.is_none()), told)
}

// What is left of a mark, the marker of whose block was good or failed.
fn after_marker(known: &mut Knowledge, block: u32, image: Bytes, marker: bool) -> Task
    requires { FitsMark known.old.geometry block image }
    ensures { FollowsMarker known.old known.new block image marker result }
{
    if known.geometry.bbt == 0 {
        after_marker_alone(known, block, image, marker)
    } else {
        begin_writing(known, block, image, marker)
    }
}

// Without tables the block is marked in the table where its marker was good, and the mark is over.
fn after_marker_alone(known: &mut Knowledge, block: u32, image: Bytes, marker: bool) -> Task
    requires fits { FitsMark known.old.geometry block image }
    requires without_tables { known.old.geometry.bbt ≡ 0 }
    ensures { FollowsMarker known.old known.new block image marker result }
{
    if !marker {
        return Task::MarkerFailed;
    }
    let before = Snapshot::of(&known.table);
    known.mark(block);
    Task::Marked { block, before }
}

// With tables the block is marked in the table in any case, and the copies are to be written.
fn begin_writing(known: &mut Knowledge, block: u32, image: Bytes, marker: bool) -> Task
    requires fits { FitsMark known.old.geometry block image }
    requires tables { has_tables known.old.geometry ≡ true }
    ensures { FollowsMarker known.old known.new block image marker result }
{
    let before = Snapshot::of(&known.table);
    known.mark(block);
    let version = known.version.wrapping_add(1);
    Task::Writing(TableWriting {
        update: Update::start(known.geometry, known.places, version),
        marker,
        programs: 6,
        image,
        before,
    })
}
