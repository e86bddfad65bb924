// A controller in one boot.
ghost use Rattle.std.specs.Prelude.{◌≡◌, ◌≤◌, ◌+◌, ◌*◌, ◌↔◌, map, length, true, false, not, None, IsTrue, OnOk, IfOk};
ghost use Rattle.run_model.specs.Course.{attach_step, end_states, is_idle, is_over, unattached};
ghost use Rattle.run_model.specs.Run.{AreInOrder, CoursesAreFaithful};
ghost use Rattle.tool_steps.specs.Boot.{session_number};
ghost use Rattle.turn_laws.specs.Laws.{events_of_attaches};
ghost use Rattle.ctl_core.specs.Answer.{is_did, turn_answer, attach_answer, after_turn, after_attach_turn};
ghost use Rattle.ctl_core.specs.Ended.{all_bad_blocks, end_of_run, ends_by_notes};
ghost use Rattle.run_model.specs.Statistics.{device_statistics};
ghost use Rattle.ctl_core.specs.Past.{turn_limit, at_start, starts_of, sizes_in, course_of, next_course, takes_turns};
ghost use Rattle.ctl_core.specs.Start.{CanStart, HasSession};

use crate::Turn;
use crate::board::Board;
use crate::ending::{Ended, all_bad, all_statistics, end_all, stop_all};
use crate::journal::Journal;
use crate::starting::{first_sessions, first_slots};
use nand_iface::{Flash, History, PageCode};
use std::alloc::{AllocError, Global};
use std::marker::Model;
use std::snapshot::Snapshot;
use tool_steps::{ControllerBoot, FlashList};

/// A controller in one boot: its chips, its sessions and its notes, one step a turn.
///
/// Contracts see what it did so far (`Past`): its boot, the flashes with which it was started, the
/// number of its attach steps, and the sessions whose turns did something, in order. From these
/// follows the course that it is on (`course_of`), with its notes, chips and sessions.
#[derive(Drop)]
pub struct Core<F: Flash, C: PageCode> {
    journal: Journal<F>,
    board: Board<F, C>,
}

impl<F: Flash, C: PageCode> Model for Core<F, C> {
    ghost use Rattle.ctl_core.specs.Past.{Past};

    ghost Value = { Past F };

    ghost use Rattle.ctl_core.specs.Board.{past_of, IsOnCourse};

    ghost view = { λ c. past_of c.journal };

    ghost invariant = { λ c. IsOnCourse (past_of c.journal) c.board };
}

impl<F: Flash, C: PageCode> Core<F, C> {
    /// A controller at the start of its part of a boot. It takes the memory that the attaches of
    /// its chips need.
    ///
    /// There are at most eight flashes, whose pages are in this code. The partitions lie on these
    /// chips, and the flips turn bits of their pages; the commands name devices that are there, with
    /// their sizes, and can be run; the sessions' numbers ascend; and the commands cost at most
    /// 16,777,216 operations together.
    pub fn start(
        alloc: Global,
        boot: ControllerBoot,
        flashes: FlashList<F>,
        code: C,
    ) -> Result<Core<F, C>, AllocError>
        requires { CanStart boot (map F.state flashes) }
        ensures { IfOk result (λ core. core ≡ at_start boot flashes) }
    {
        let started = Snapshot::of(&flashes);
        let sessions = first_sessions(alloc, &boot)?;
        let slots = first_slots(alloc, flashes, code)?;
        Ok(Core {
            journal: Journal {
                boot,
                started,
                attaches: 0,
                turns: Vec::new(alloc),
            },
            board: Board {
                slots,
                events: 0,
                dark: false,
                notes: History::new(alloc),
                sessions,
            },
        })
    }

    /// The flips that are due, and one page event of the first chip that is not attached; the last
    /// one of an attach also puts its note down. Where the cut names the event, it is torn, and the
    /// controller is dark from then on.
    ///
    /// `Dark` comes exactly where the controller was cut before this turn, else `Done` exactly where
    /// all chips are attached, else `Did`. Only `Did` makes anything of the controller: it counts
    /// one more attach step.
    pub fn attach_turn(&mut self) -> Result<Turn, AllocError>
        ensures answer { IfOk result
            (λ turn. turn ≡ attach_answer (course_of F.fault_model F.state self.old)) }
        ensures past { self.new ≡ after_attach_turn result self.old }
        ensures step { OnOk result (course_of F.fault_model F.state self.new
            ≡ attach_step F.fault_model self.old.boot (sizes_in F.state self.old)
            (course_of F.fault_model F.state self.old)) }
        ensures few { self.new.attaches ≤ events_of_attaches (starts_of F.state self.new) }
    {
        if self.board.dark {
            return Ok(Turn::Dark);
        }
        self.board.notes.reserve(2)?;
        let Some(k) = self.board.first_attaching() else {
            return Ok(Turn::Done);
        };
        self.board.do_event(self.journal.boot.faults(), k)?;
        self.journal.attaches += 1;
        Ok(Turn::Did)
    }

    /// One step of a session of this controller, whose chips are all attached or whose power has
    /// failed: its operation in flight does its next page event, after the flips that are due before
    /// it, or is answered, or its next operation begins. Where the cut names the event, it is torn,
    /// and the controller is dark from then on.
    ///
    /// `Dark` comes exactly where the controller was cut before this turn; else `Done` exactly where
    /// the session's commands are over; else `Held(by)` exactly where it has nothing in flight and
    /// session `by` has an operation in flight on the chip of its next operation; else `Did`. Only
    /// `Did` makes anything of the controller: it is one more turn of this session.
    pub fn turn(&mut self, session: u32) -> Result<Turn, AllocError>
        requires takes { takes_turns (course_of F.fault_model F.state self.old) ≡ true }
        requires own { HasSession self.old.boot session }
        ensures answer { IfOk result
            (λ turn. turn
            ≡ turn_answer self.old.boot.partitions (sizes_in F.state self.old)
            (course_of F.fault_model F.state self.old) session) }
        ensures busy { IfOk result
            (λ turn. is_did turn
            ≡ not (is_idle self.old.boot.partitions (sizes_in F.state self.old)
            (course_of F.fault_model F.state self.old) session)) }
        ensures past { self.new ≡ after_turn result session self.old }
        ensures step { OnOk result
            (course_of F.fault_model F.state self.new
            ≡ next_course F.fault_model F.state self.old session) }
        ensures takes { takes_turns (course_of F.fault_model F.state self.new) ≡ true }
        ensures few { length self.new.turns ≤ turn_limit F.state self.new }
    {
        if self.board.dark {
            return Ok(Turn::Dark);
        }
        self.journal.turns.reserve(1)?;
        self.board.notes.reserve(2)?;
        let turn = self.board.step(&self.journal, session)?;
        if let Turn::Did = turn {
            self.journal.turns.push_reserved(session);
        }
        Ok(turn)
    }

    /// Whether the session is one of this controller.
    pub fn has(&self, session: u32) -> bool
        ensures { IsTrue result ↔ HasSession self.now.boot session }
    {
        self.board.place_of(session).is_some()
    }

    /// The number of the session at place `k`, counted from 0. None comes exactly where there is
    /// none.
    pub fn session(&self, k: usize) -> Option<u32>
        ensures { result ≡ session_number self.now.boot k }
    {
        self.journal.boot.session(k)
    }

    /// Lends the notes: they are those of one thread, and the operations of each session are those
    /// of its commands, in order and each once.
    pub fn notes(&self) -> &History
        ensures notes { result.now.notes ≡ (course_of F.fault_model F.state self.now).notes }
        ensures one_thread { CoursesAreFaithful F.fault_model self.now.boot
            (starts_of F.state self.now) self.now.attaches self.now.turns }
        ensures in_order { AreInOrder self.now.boot (starts_of F.state self.now) result.now.notes }
    {
        &self.board.notes
    }

    /// Whether all chips are attached and the commands of all sessions are over, or the controller
    /// is dark.
    pub fn over(&self) -> bool
        ensures { result ≡ is_over (course_of F.fault_model F.state self.now) }
    {
        self.board.is_over(&self.journal)
    }

    /// The number of sessions.
    pub fn session_count(&self) -> usize
        ensures { result ≡ length self.now.boot.sessions }
    {
        self.board.sessions.len()
    }

    /// The number of turns that did something.
    pub fn turn_count(&self) -> usize
        ensures count { result ≡ length self.now.turns }
        ensures few { result ≤ turn_limit F.state self.now }
    {
        self.journal.turns.len()
    }

    /// What a controller that is over leaves: its flashes as the course leaves the chips, its
    /// notes, the outcomes of each session in order, the statistics of each device and the number
    /// of bad blocks.
    pub fn finish(self) -> Result<Ended<F>, AllocError>
        requires { is_over (course_of F.fault_model F.state self) ≡ true }
        ensures flashes { IfOk result
            (λ ended. map F.state ended.flashes
            ≡ end_states (course_of F.fault_model F.state self)) }
        ensures notes { IfOk result
            (λ ended. ended.notes.notes ≡ (course_of F.fault_model F.state self).notes) }
        ensures outcomes { IfOk result
            (λ ended. ended.outcomes
            ≡ map end_of_run (course_of F.fault_model F.state self).sessions) }
        ensures ends { IfOk result
            (λ ended. ended.outcomes
            ≡ ends_by_notes self.boot (starts_of F.state self)
            (course_of F.fault_model F.state self).notes) }
        ensures stats { IfOk result
            (λ ended. ended.stats
            ≡ device_statistics self.boot.partitions (course_of F.fault_model F.state self)) }
        ensures bad { IfOk result
            (λ ended. ended.bad
            ≡ all_bad_blocks self.boot.partitions (course_of F.fault_model F.state self)) }
    {
        let Core { journal, board } = self;
        let alloc = *journal.turns.allocator();
        let stats = all_statistics(alloc, &board.slots, journal.boot.parts())?;
        let bad = all_bad(&board.slots);
        let Board {
            slots,
            notes,
            sessions,
            ..
        } = board;
        let outcomes = end_all(alloc, &journal.boot, sessions, &notes)?;
        let flashes = stop_all(alloc, slots)?;
        Ok(Ended {
            flashes,
            notes,
            outcomes,
            stats,
            bad,
        })
    }
}
