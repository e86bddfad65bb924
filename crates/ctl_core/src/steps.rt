// One step of a session.
ghost use Rattle.std.specs.Prelude.{◌≡◌, ◌≤◌, ◌<◌, ◌-◌, ◌^◌, ◌↔◌, IsTrue, true, false, not, None, IsSome, is_none, length, slice_get, option_map, OnOk, OnErr, IfOk, IfSome};
ghost use Rattle.nand_model.specs.Partitions.{command_device};
ghost use Rattle.run_model.specs.Course.{is_idle, is_over, unattached};
ghost use Rattle.ctl_core.specs.Answer.{is_did, next_chip, turn_answer};
ghost use Rattle.ctl_core.specs.Sessions.{AreAllDone};
ghost use Rattle.ctl_core.specs.SlotState.{SlotState, first_held_by};
ghost use Rattle.ctl_core.specs.Start.{HasSession};
ghost use Rattle.ctl_core.specs.Past.{Past, course_of, next_course, sizes_in, is_done};

use crate::Turn;
use crate::board::Board;
use crate::journal::Journal;
use nand_iface::{Flash, Note, PageCode};
use nand_model::Command;
use std::alloc::AllocError;
use tool_steps::ControllerBoot;

impl<F: Flash, C: PageCode> Board<F, C> {
    ghost use Rattle.ctl_core.specs.Board.{slot_states, finished_at, past_of, IsOnCourse, IsAtTurn, StandsAt};

    // One step of a session of the boot, where the power has not failed and all chips are attached.
    // Where memory runs out, chips, sessions and notes stand where they stood.
    pub fn step(&mut self, journal: &Journal<F>, session: u32) -> Result<Turn, AllocError>
        requires on_course { IsOnCourse (past_of journal.now) self.old }
        requires lit { self.old.dark ≡ false }
        requires attached { unattached (course_of F.fault_model F.state (past_of journal.now))
            ≡ None }
        requires own { HasSession journal.now.boot session }
        requires room { 2 ≤ self.old.notes.room }
        ensures answer { IfOk result
            (λ turn. turn
            ≡ turn_answer journal.now.boot.partitions (sizes_in F.state (past_of journal.now))
            (course_of F.fault_model F.state (past_of journal.now)) session) }
        ensures idle { IfOk result
            (λ turn. is_did turn
            ≡ not (is_idle journal.now.boot.partitions (sizes_in F.state (past_of journal.now))
            (course_of F.fault_model F.state (past_of journal.now)) session)) }
        ensures stands { OnOk result
            (StandsAt (past_of journal.now)
            (next_course F.fault_model F.state (past_of journal.now) session) self.new) }
        ensures no_memory { OnErr result
            (StandsAt (past_of journal.now)
            (course_of F.fault_model F.state (past_of journal.now)) self.new) }
    {
        let Some(place) = self.place_of(session) else {
            unreachable!();
        };
        match self.held_by(session) {
            Some(k) => {
                self.go_on(journal, place, k, session)?;
                Ok(Turn::Did)
            }
            None => self.begin(journal, place, session),
        }
    }

    // Whether the power has failed, or all chips are attached and the commands of all sessions are
    // over.
    pub fn is_over(&self, journal: &Journal<F>) -> bool
        requires { IsOnCourse (past_of journal.now) self.now }
        ensures { result ≡ is_over (course_of F.fault_model F.state (past_of journal.now)) }
    {
        self.dark || self.first_attaching().is_none() && self.all_done(&journal.boot)
    }

    // Whether the commands of all sessions are over.
    fn all_done(&self, boot: &ControllerBoot) -> bool
        requires { length self.now.sessions.items ≤ length boot.now.sessions }
        ensures { IsTrue result ↔ AreAllDone boot.now.sessions self.now.notes.notes
            self.now.sessions.items }
    {
        for k in 0..self.sessions.len() {
            if !self.sessions[k].is_over(boot.commands(k), &self.notes) {
                return false;
            }
        }
        true
    }

    // Does the next event of the operation that a session has in flight on chip `k`, or answers it
    // where no event is left. Where memory runs out, chips, sessions and notes stand where they
    // stood.
    fn go_on(
        &mut self,
        journal: &Journal<F>,
        place: usize,
        k: usize,
        session: u32,
    ) -> Result<(), AllocError>
        requires turn { IsAtTurn (past_of journal.now) session place self.old }
        requires held { first_held_by session (slot_states self.old) ≡ Some k }
        requires room { 2 ≤ self.old.notes.room }
        ensures stands { OnOk result
            (StandsAt (past_of journal.now)
            (next_course F.fault_model F.state (past_of journal.now) session) self.new) }
        ensures no_memory { OnErr result
            (StandsAt (past_of journal.now)
            (course_of F.fault_model F.state (past_of journal.now)) self.new) }
    {
        if self.slots[k].chip.next_event().is_some() {
            self.do_event(journal.boot.faults(), k)?;
        } else {
            self.answer(place, k, session);
        }
        Ok(())
    }

    // Answers the operation in flight on chip `k`, which has no event left, to its session.
    fn answer(&mut self, place: usize, k: usize, session: u32)
        requires finished { IsSome (finished_at self.old k) }
        requires place { place < length self.old.sessions.items }
        requires room { 0 < self.old.notes.room }
        ensures { (past : Past F) → IsAtTurn past session place self.old →
            first_held_by session (slot_states self.old) ≡ Some k →
            StandsAt past (next_course F.fault_model F.state past session) self.new }
    {
        let reply = self.slots[k].answer();
        let at = self.notes.len();
        self.notes.push(Note::Answered { session, reply });
        self.sessions[place].replied(at);
    }

    // Begins the next operation of a session that has none in flight, where its commands are not
    // over and its chip is free. Where memory runs out, chips, sessions and notes stand where they
    // stood.
    fn begin(
        &mut self,
        journal: &Journal<F>,
        place: usize,
        session: u32,
    ) -> Result<Turn, AllocError>
        requires turn { IsAtTurn (past_of journal.now) session place self.old }
        requires free { first_held_by session (slot_states self.old) ≡ None }
        requires room { 0 < self.old.notes.room }
        ensures answer { IfOk result
            (λ turn. turn
            ≡ turn_answer journal.now.boot.partitions (sizes_in F.state (past_of journal.now))
            (course_of F.fault_model F.state (past_of journal.now)) session) }
        ensures idle { IfOk result
            (λ turn. is_did turn
            ≡ not (is_idle journal.now.boot.partitions (sizes_in F.state (past_of journal.now))
            (course_of F.fault_model F.state (past_of journal.now)) session)) }
        ensures stands { OnOk result
            (StandsAt (past_of journal.now)
            (next_course F.fault_model F.state (past_of journal.now) session) self.new) }
        ensures no_memory { OnErr result
            (StandsAt (past_of journal.now)
            (course_of F.fault_model F.state (past_of journal.now)) self.new) }
    {
        let Some(k) = self.next_chip(journal, place, session) else {
            return Ok(Turn::Done);
        };
        if let Some(by) = self.slots[k].holder {
            return Ok(Turn::Held(by));
        }
        self.begin_on(journal, place, k, session)?;
        Ok(Turn::Did)
    }

    // The chip of a session's next operation. None comes exactly where its commands are over.
    fn next_chip(&self, journal: &Journal<F>, place: usize, session: u32) -> Option<usize>
        requires { IsAtTurn (past_of journal.now) session place self.now }
        ensures chip { result ≡ next_chip journal.now.boot.partitions
            (sizes_in F.state (past_of journal.now))
            (course_of F.fault_model F.state (past_of journal.now)) session }
        ensures over { is_none result
            ≡ is_done (course_of F.fault_model F.state (past_of journal.now)) session }
        ensures there { IfSome result (λ k. k < length self.now.slots.items) }
    {
        let _ = session;
        let commands = journal.boot.commands(place);
        let command = self.sessions[place].next_command(commands, &self.notes)?;
        let part = journal.boot.parts().get(command.device())?;
        Some(part.chip as usize)
    }

    // Begins the next operation of a session on its chip, which is free.
    fn begin_on(
        &mut self,
        journal: &Journal<F>,
        place: usize,
        k: usize,
        session: u32,
    ) -> Result<(), AllocError>
        requires turn { IsAtTurn (past_of journal.now) session place self.old }
        requires none { first_held_by session (slot_states self.old) ≡ None }
        requires chip { next_chip journal.now.boot.partitions
            (sizes_in F.state (past_of journal.now))
            (course_of F.fault_model F.state (past_of journal.now)) session ≡ Some k }
        requires free { option_map (λ (c : SlotState F.FaultState). c.holder)
            (slice_get (slot_states self.old) k) ≡ Some None }
        requires room { 0 < self.old.notes.room }
        ensures stands { OnOk result
            (StandsAt (past_of journal.now)
            (next_course F.fault_model F.state (past_of journal.now) session) self.new) }
        ensures no_memory { OnErr result
            (StandsAt (past_of journal.now)
            (course_of F.fault_model F.state (past_of journal.now)) self.new) }
    {
        let commands = journal.boot.commands(place);
        let g = self.slots[k].chip.geometry();
        let op = self.sessions[place].next_op(commands, &g, &self.notes)?;
        self.slots[k].begin(session, journal.boot.parts(), &op)?;
        self.notes.push(Note::Began { session, op });
        Ok(())
    }
}
