// One chip.
ghost use Rattle.std.specs.Prelude.{◌≡◌, ◌≤◌, ◌+◌, min, length, None, true, option_map, IsSome, IfSome, IfOk, OnOk, OnErr, is_some};
ghost use Rattle.nand_model.specs.Chip.{Complete, after_trace, flip_events, happens};
ghost use Rattle.chip_paths.specs.ChipRun.{name_of, bad_blocks_in};
ghost use Rattle.nand_model.specs.Counts.{HasRisen};
ghost use Rattle.nand_model.specs.Path.{answer_to, first_event, is_failure};
ghost use Rattle.nand_model.specs.Quiet.{is_quiet};
ghost use Rattle.nand_model.specs.Flips.{FitsBits};
ghost use Rattle.chip_paths.specs.Stage.{Rests, failure_told, finished_in, first_stage, is_attached, is_resting, is_working, pending_note_after, note_of_attach, stage_after, stage_begun, stage_event, stage_statistics, stage_table};
ghost use Rattle.chip_core.specs.Begin.{CanBegin};
ghost use Rattle.chip_core.specs.Torn.{stage_torn, state_torn, tear_told};
ghost use Rattle.chip_core.specs.Phase.{AttachFits, AttachGoesOn, KnowsQuiet, KnowsQuiet-prop, PhaseFits, PhaseFits-prop, most_page_room, pending_note_in, phase_stage, programs_left};
ghost use Rattle.chip_core.specs.AttachRun.{Watches};
ghost use Rattle.bbt_flash.specs.Attach.{attach_left};
ghost use Rattle.chip_core.specs.declared.phase.Phase.TheVariants.{Resting};

use crate::attach_run::{AttachRun, Finding};
use crate::beginning::begin;
use crate::judge::Judge;
use crate::knowledge::Knowledge;
use crate::phase::Phase;
use crate::task::Task;
use mtd_part::Parts;
use nand_iface::{Event, Fairness, Flash, Note, Op, PageCode, Reply, Stats};
use nand_model::{BlockList, Geometry, Tear};
use std::alloc::{AllocError, Global};
use std::mem;

/// The greatest page room: what may still be programmed in flight fits beside it in 32 bits.
const MOST_PAGE_ROOM: u32 = 4_294_967_288;

/// A chip with its attach or its operation, which is held from its begin to its answer.
///
/// Contracts see the state of its flash (`chip_state`); its stage (`chip_stage`): what is left of
/// its attach or of its operation, or what is known of it at rest; its page room
/// (`chip_page_room`): how many pages may be programmed or flipped beyond those of the attach or
/// the operation; its bits (`chip_bits`): how many bits may be flipped; and its pending note
/// (`chip_pending_note`): the attach whose note was not handed out yet.
#[derive(Drop)]
pub struct Chip<F: Flash, C: PageCode> {
    alloc: Global,
    flash: F,
    code: C,
    known: Knowledge,
    judge: Judge,
    finding: Option<Finding>,
    phase: Phase,
    page_room: u32,
    ghost sizes: { (F.state flash).geometry ≡ known.geometry },
    ghost judge_sizes: { judge.geometry ≡ known.geometry },
    ghost quiet: { KnowsQuiet (F.state flash) phase } by { KnowsQuiet-prop (F.state flash) phase },
    ghost fits: { PhaseFits known.geometry known.table known.sums phase } by { PhaseFits-prop known.geometry known.table known.sums phase },
    ghost few: { page_room ≤ most_page_room },
    ghost room: { page_room + programs_left known.geometry phase ≤ F.room flash },
}

impl<F: Flash, C: PageCode> Chip<F, C> {
    ghost use Rattle.chip_core.specs.Chip.{chip_bits, chip_pending_note, chip_page_room, chip_stage, chip_state};

    /// A chip at the start of its attach, with all the memory that attaching needs.
    pub fn attach_start(alloc: Global, flash: F, code: C) -> Result<Chip<F, C>, AllocError>
        ensures state { IfOk result (λ chip. chip_state chip ≡ F.state flash) }
        ensures stage { IfOk result
            (λ chip. chip_stage chip ≡ first_stage (F.state flash).geometry) }
        ensures pending_note { IfOk result (λ chip. chip_pending_note chip ≡ None) }
    {
        let mut flash = flash;
        let geometry = flash.geometry();
        let known = Knowledge::new(alloc, geometry)?;
        let judge = Judge::new(alloc, geometry)?;
        let run = AttachRun::start(alloc, &flash, geometry)?;
        flash.reserve(run.programs, 0)?;
        Ok(Chip {
            alloc,
            flash,
            code,
            known,
            judge,
            finding: None,
            phase: Phase::Attaching(run),
            page_room: 0,
        })
    }

    /// The sizes of the chip.
    pub fn geometry(&self) -> Geometry
        ensures { result ≡ (chip_state self.now).geometry }
    {
        self.known.geometry
    }

    /// The next event of the attach or of the operation in flight. None comes exactly where neither
    /// has an event left.
    pub fn next_event(&self) -> Option<Event>
        ensures { result ≡ option_map name_of (stage_event (chip_stage self.now)) }
    {
        match &self.phase {
            Phase::Attaching(run) => run.attach.event(),
            Phase::Resting => None,
            Phase::Working(task) => task.event(&self.known.geometry),
        }
    }

    /// Makes the page room at least `pages`, up to 2^32 - 8 pages, and the bits at least `bits`,
    /// and leaves all else as it is. Where memory runs out, neither is less than before.
    pub fn reserve(&mut self, pages: u32, bits: u32) -> Result<(), AllocError>
        ensures page_room { OnOk result (min pages most_page_room ≤ chip_page_room self.new) }
        ensures bits { OnOk result (bits ≤ chip_bits self.new) }
        ensures no_less { chip_page_room self.old ≤ chip_page_room self.new }
        ensures no_fewer_bits { chip_bits self.old ≤ chip_bits self.new }
        ensures state { chip_state self.new ≡ chip_state self.old }
        ensures stage { chip_stage self.new ≡ chip_stage self.old }
        ensures pending_note { chip_pending_note self.new ≡ chip_pending_note self.old }
    {
        let page_room = pages.min(MOST_PAGE_ROOM).max(self.page_room);
        let programs = self.phase.programs(&self.known.geometry);
        self.flash.reserve(page_room + programs, bits)?;
        self.page_room = page_room;
        Ok(())
    }

    /// Turns these bits of a page one after the other; bit 0 is the highest of byte 0. It takes at
    /// most one page of the page room, and at most as many bits of the room as these are.
    pub fn flip(&mut self, page: u32, bits: &BlockList)
        requires place { FitsBits (chip_state self.old).geometry page bits.now }
        requires page_room { 1 ≤ chip_page_room self.old }
        requires bits { length bits.now ≤ chip_bits self.old }
        ensures state { chip_state self.new
            ≡ after_trace F.fault_model (chip_state self.old) (flip_events page bits.now) }
        ensures stage { chip_stage self.new ≡ chip_stage self.old }
        ensures pending_note { chip_pending_note self.new ≡ chip_pending_note self.old }
        ensures page_room { chip_page_room self.old ≤ chip_page_room self.new + 1 }
        ensures bits { chip_bits self.old ≤ chip_bits self.new + length bits.now }
    {
        self.page_room -= 1;
        self.phase.flip(&mut self.flash, page, bits);
    }

    /// Hands out the note of the attach, under this number of the chip. None comes exactly where
    /// attaching is not over or the note was handed out before.
    pub fn attach_note(&mut self, chip: u32) -> Option<Note>
        ensures note { result ≡ option_map (note_of_attach chip) (chip_pending_note self.old) }
        ensures once { chip_pending_note self.new ≡ None }
        ensures state { chip_state self.new ≡ chip_state self.old }
        ensures stage { chip_stage self.new ≡ chip_stage self.old }
        ensures page_room { chip_page_room self.new ≡ chip_page_room self.old }
        ensures bits { chip_bits self.old ≤ chip_bits self.new }
    {
        if let Phase::Attaching(_) = &self.phase {
            return None;
        }
        let finding = self.finding.take()?;
        Some(Note::Attached {
            chip,
            origin: finding.origin,
            version: finding.version,
            copies: finding.copies,
            quiet: finding.quiet,
            states: finding.states,
        })
    }

    /// Whether attaching is over.
    pub fn is_attached(&self) -> bool
        ensures { result ≡ is_attached (chip_stage self.now) }
    {
        !matches!(self.phase, Phase::Attaching(_))
    }

    /// Whether an operation is in flight.
    pub fn busy(&self) -> bool
        ensures { result ≡ is_working (chip_stage self.now) }
    {
        matches!(self.phase, Phase::Working(_))
    }

    /// The statistics of a device since the start of the boot, over its answered reads.
    pub fn stats(&self, dev: u32) -> Stats
        ensures { result ≡ stage_statistics (chip_stage self.now) dev }
    {
        self.known.sums.get(dev)
    }

    /// The number of blocks that are worn or factory bad; 0 while attaching is not over.
    pub fn bad(&self) -> u32
        ensures count { result ≡ bad_blocks_in (stage_table (chip_stage self.now)) }
        ensures few { result ≤ (chip_state self.now).geometry.blocks }
    {
        match &self.phase {
            Phase::Attaching(_) => 0,
            _ => self.known.bad(),
        }
    }

    /// Begins an operation, and takes all the memory that it needs. Nothing is in flight before.
    /// Where memory runs out, all is as before.
    pub fn begin(&mut self, parts: &Parts, op: &Op) -> Result<(), AllocError>
        requires rests { is_resting (chip_stage self.old) ≡ true }
        requires can { CanBegin (chip_state self.old).geometry parts.now
            (chip_stage self.old) op.now }
        ensures begun { OnOk result
            (chip_stage self.new
            ≡ stage_begun (chip_state self.old).geometry parts.now op.now (chip_stage self.old)) }
        ensures no_memory { OnErr result (chip_stage self.new ≡ chip_stage self.old) }
        ensures state { chip_state self.new ≡ chip_state self.old }
        ensures pending_note { chip_pending_note self.new ≡ chip_pending_note self.old }
        ensures page_room { chip_page_room self.new ≡ chip_page_room self.old }
        ensures bits { chip_bits self.old ≤ chip_bits self.new }
    {
        self.known.expect(op)?;
        let task = begin(self.alloc, &self.code, &self.known, parts, op)?;
        let programs = task.programs(&self.known.geometry);
        self.flash.reserve(self.page_room + programs, 0)?;
        self.phase = Phase::Working(task);
        Ok(())
    }

    /// Does the next event, which is there. Some comes exactly where the event failed, with what is
    /// left of a table page that it touched. It takes no memory.
    pub fn advance(&mut self) -> Option<Fairness>
        requires { IsSome (stage_event (chip_stage self.old)) }
        ensures state { IfSome (stage_event (chip_stage self.old))
            (λ e. chip_state self.new ≡ happens F.fault_model (chip_state self.old) (Complete e)) }
        ensures stage { IfSome (stage_event (chip_stage self.old)) (λ e. chip_stage self.new
            ≡ stage_after (is_quiet (chip_state self.old).geometry (chip_state self.old).pages)
            (answer_to F.fault_model (chip_state self.old) e)
            (chip_stage self.old)) }
        ensures pending_note { IfSome (stage_event (chip_stage self.old))
            (λ e. chip_pending_note self.new
            ≡ pending_note_after (is_quiet (chip_state self.old).geometry
            (chip_state self.old).pages) (answer_to F.fault_model (chip_state self.old) e)
            (chip_stage self.old) (chip_pending_note self.old)) }
        ensures told { IfSome (stage_event (chip_stage self.old))
            (λ e. result ≡ failure_told F.fault_model (chip_state self.old) e) }
        ensures failed { IfSome (stage_event (chip_stage self.old))
            (λ e. is_some result ≡ is_failure (answer_to F.fault_model (chip_state self.old) e)) }
        ensures risen { IfSome result
            (λ fairness. HasRisen (chip_state self.old).faults (chip_state self.new).faults) }
        ensures page_room { chip_page_room self.new ≡ chip_page_room self.old }
        ensures bits { chip_bits self.old ≤ chip_bits self.new }
    {
        match mem::replace(&mut self.phase, Phase::Resting) {
            Phase::Attaching(run) => self.attach_on(run),
            Phase::Resting => unreachable!(),
            Phase::Working(task) => {
                let (left, told) = task.advance(
                    &mut self.flash,
                    &mut self.known,
                    &self.code,
                    &mut self.judge,
                );
                self.phase = Phase::Working(left);
                told
            }
        }
    }

    /// Does the next event, which is there, while the power is cut, and tells what is left of a table
    /// page. The attach or the operation stays at this event. It takes no memory, and at most one
    /// page of the page room.
    pub fn torn(&mut self, tear: &Tear) -> Fairness
        requires event { IsSome (stage_event (chip_stage self.old)) }
        requires page_room { 1 ≤ chip_page_room self.old }
        ensures state { IfSome (stage_event (chip_stage self.old))
            (λ e. chip_state self.new ≡ state_torn F.fault_model tear.now e
            (chip_state self.old)) }
        ensures stage { IfSome (stage_event (chip_stage self.old)) (λ e. chip_stage self.new
            ≡ stage_torn (is_quiet (chip_state self.old).geometry (chip_state self.old).pages)
            (chip_stage self.old)) }
        ensures pending_note { chip_pending_note self.new ≡ chip_pending_note self.old }
        ensures told { IfSome (stage_event (chip_stage self.old))
            (λ e. result ≡ tear_told F.fault_model tear.now (chip_state self.old) e) }
        ensures page_room { chip_page_room self.old ≤ chip_page_room self.new + 1 }
        ensures bits { chip_bits self.old ≤ chip_bits self.new }
    {
        self.page_room -= 1;
        match mem::replace(&mut self.phase, Phase::Resting) {
            Phase::Attaching(run) => {
                let mut run = run;
                let told = run.tear(&mut self.flash, &self.code, &mut self.judge, tear);
                self.phase = Phase::Attaching(run);
                told
            }
            Phase::Resting => unreachable!(),
            Phase::Working(task) => {
                let (task, told) = task.tear(
                    &mut self.flash,
                    &self.known,
                    &self.code,
                    &mut self.judge,
                    tear,
                );
                self.phase = Phase::Working(task);
                told
            }
        }
    }

    /// The reply to the operation in flight, which has no event left. The chip rests then. It takes
    /// no memory.
    pub fn answer(&mut self) -> Reply
        requires { IsSome (finished_in (chip_stage self.old)) }
        ensures reply { IfSome (finished_in (chip_stage self.old))
            (λ finished. result ≡ finished.reply) }
        ensures stage { IfSome (finished_in (chip_stage self.old))
            (λ finished. chip_stage self.new ≡ Rests finished.known) }
        ensures state { chip_state self.new ≡ chip_state self.old }
        ensures pending_note { chip_pending_note self.new ≡ chip_pending_note self.old }
        ensures page_room { chip_page_room self.new ≡ chip_page_room self.old }
        ensures bits { chip_bits self.old ≤ chip_bits self.new }
    {
        match mem::replace(&mut self.phase, Phase::Resting) {
            Phase::Working(Task::AtOnce(reply) | Task::Ended(reply)) => reply,
            Phase::Working(Task::Marked { .. }) => Reply::Done,
            Phase::Working(Task::MarkerFailed) => Reply::MarkerFailed,
            Phase::Working(Task::Writing(writing)) => self.known.take_written(writing),
            Phase::Working(
                Task::Decoded {
                    dev,
                    kind,
                    read,
                    image,
                },
            ) => {
                self.known.sums.add(dev, read.corrected, read.failed);
                Reply::Page { kind, read, image }
            }
            _ => unreachable!(),
        }
    }

    /// Gives the flash back. It takes no memory.
    pub fn stop(self) -> F
        ensures { F.state result ≡ chip_state self }
    {
        let Chip { flash, .. } = self;
        flash
    }

    // Does the next event of an attach; after the last one the chip is attached, and there is a note
    // to be handed out.
    fn attach_on(&mut self, run: AttachRun) -> Option<Fairness>
        requires rests { self.old.phase ≡ Resting }
        requires fits { AttachFits self.old.known.geometry self.old.known.sums run }
        requires watches { Watches (F.state self.old.flash) run }
        requires room { self.old.page_room + run.programs ≤ F.room self.old.flash }
        requires event { IsSome (first_event (attach_left run.attach)) }
        ensures advanced { IfSome (first_event (attach_left run.attach))
            (AttachGoesOn F.fault_model (F.state self.old.flash) (F.state self.new.flash) run
            (phase_stage self.new.known self.new.phase)
            (pending_note_in self.new.phase self.new.finding) result) }
        ensures page_room { self.new.page_room ≡ self.old.page_room }
        ensures bits { F.bit_room self.old.flash ≤ F.bit_room self.new.flash }
    {
        let mut run = run;
        let told = run.advance(&mut self.flash, &self.code, &mut self.judge);
        if run.attach.event().is_some() {
            self.phase = Phase::Attaching(run);
            return told;
        }
        self.finding = Some(run.into_finding(&mut self.known));
        told
    }
}
