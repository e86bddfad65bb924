// The chips, sessions and notes of a controller.
ghost use Rattle.std.specs.Prelude.{◌≡◌, ◌≤◌, ◌<◌, ◌+◌, ◌-◌, ◌^◌, ◌++◌, ◌==◌, ℕ, All, List, true, false, Some, None, not, length, position, slice_get, option_map, IsSome, IfSome, OnOk, OnErr, IfOk};
ghost use Rattle.nand_model.specs.Chip.{ChipState, PageEvent};
ghost use Rattle.chip_paths.specs.ChipRun.{name_of};
ghost use Rattle.chip_paths.specs.Stage.{stage_event, stage_statistics, finished_in, is_attached, is_resting, is_working};
ghost use Rattle.run_model.specs.Start.{AreFewFlips};
ghost use Rattle.chip_core.specs.Begin.{CanBegin};
ghost use Rattle.chip_core.specs.Chip.{chip_page_room, chip_stage};
ghost use Rattle.ctl_core.specs.SlotState.{SlotState, is_held_by, after_event, after_tear, after_begin, after_answer, with_note_written, failure_notes, notes_after, noted};

use crate::Turn;
use crate::flips::make_due_flips;
use chip_core::Chip;
use fault_plan::Faults;
use mtd_part::Parts;
use nand_iface::{Event, Fairness, Flash, History, Note, Op, PageCode, Reply, Stats};
use nand_model::Tear;
use session_steps::Session;
use std::alloc::AllocError;

/// A chip, and the session whose operation is in flight on it.
#[derive(Drop)]
pub struct Slot<F: Flash, C: PageCode> {
    pub chip: Chip<F, C>,
    pub holder: Option<u32>,
}

impl<F: Flash, C: PageCode> Slot<F, C> {
    ghost use Rattle.ctl_core.specs.Board.{slot_state};

    // Does the chip's next event, as event `number` of the controller, and puts down what there is
    // to note of it.
    pub fn advance(&mut self, chip: u32, number: u32, notes: &mut History)
        requires event { IsSome (stage_event (slot_state self.old).stage) }
        requires room { 2 ≤ notes.old.room }
        ensures slot { IfSome (stage_event (slot_state self.old).stage)
            (λ e. slot_state self.new
            ≡ with_note_written (after_event F.fault_model e (slot_state self.old))) }
        ensures notes { IfSome (stage_event (slot_state self.old).stage)
            (λ e. notes.new.notes ≡ notes_after F.fault_model chip number e None
            (slot_state self.old) notes.old.notes) }
    {
        let event = self.chip.next_event();
        let told = self.chip.advance();
        put_down(notes, failure_note(chip, number, event, told));
        put_down(notes, self.chip.attach_note(chip));
    }

    // The power fails within the chip's next event, which is event `number` of the controller, and
    // this is put down.
    pub fn tear(&mut self, chip: u32, number: u32, tear: &Tear, notes: &mut History)
        requires event { IsSome (stage_event (slot_state self.old).stage) }
        requires page_room { 1 ≤ chip_page_room self.old.chip }
        requires room { 0 < notes.old.room }
        ensures slot { IfSome (stage_event (slot_state self.old).stage)
            (λ e. slot_state self.new
            ≡ after_tear F.fault_model e tear.now (slot_state self.old)) }
        ensures notes { IfSome (stage_event (slot_state self.old).stage)
            (λ e. notes.new.notes ≡ notes_after F.fault_model chip number e (Some tear.now)
            (slot_state self.old) notes.old.notes) }
    {
        let Some(event) = self.chip.next_event() else {
            unreachable!();
        };
        let fairness = self.chip.torn(tear);
        notes.push(Note::Torn {
            chip,
            number,
            event,
            cut: true,
            fairness,
        });
    }

    // The session begins an operation on the chip. Where memory runs out, the chip is as before.
    pub fn begin(&mut self, session: u32, parts: &Parts, op: &Op) -> Result<(), AllocError>
        requires rests { is_resting (slot_state self.old).stage ≡ true }
        requires can { CanBegin (slot_state self.old).state.geometry parts.now
            (slot_state self.old).stage op.now }
        ensures begun { OnOk result
            (slot_state self.new ≡ after_begin parts.now session op.now (slot_state self.old)) }
        ensures no_memory { OnErr result (slot_state self.new ≡ slot_state self.old) }
    {
        self.chip.begin(parts, op)?;
        self.holder = Some(session);
        Ok(())
    }

    // The reply to the operation in flight, which has no event left. The chip is free then.
    pub fn answer(&mut self) -> Reply
        requires { IsSome (finished_in (slot_state self.old).stage) }
        ensures reply { IfSome (finished_in (slot_state self.old).stage)
            (λ finished. result ≡ finished.reply) }
        ensures slot { IfSome (finished_in (slot_state self.old).stage)
            (λ finished. slot_state self.new ≡ after_answer finished.known (slot_state self.old)) }
    {
        self.holder = None;
        self.chip.answer()
    }

    // What a device of the chip counted.
    pub fn stats(&self, dev: u32) -> Stats
        ensures { result ≡ stage_statistics (slot_state self.now).stage dev }
    {
        self.chip.stats(dev)
    }
}

// The note of an event of this name that failed, where it did.
fn failure_note(
    chip: u32,
    number: u32,
    event: Option<Event>,
    told: Option<Fairness>,
) -> Option<Note>
    ensures { (e : PageEvent) → event ≡ Some (name_of e) → noted result
        ≡ failure_notes chip number e told }
{
    let fairness = told?;
    Some(Note::Torn {
        chip,
        number,
        event: event?,
        cut: false,
        fairness,
    })
}

// Puts a note down, if there is one.
fn put_down(notes: &mut History, note: Option<Note>)
    requires { 0 < notes.old.room }
    ensures notes { notes.new.notes ≡ notes.old.notes ++ noted note }
    ensures room { notes.old.room ≤ notes.new.room + 1 }
{
    if let Some(note) = note {
        notes.push(note);
    }
}

// Whether the holder is this session.
fn is_held_by(holder: Option<u32>, session: u32) -> bool
    ensures { result ≡ is_held_by session holder }
{
    match holder {
        None => false,
        Some(by) => by == session,
    }
}

/// What the steps of a controller change: its chips, the number of page events so far, whether the
/// power has failed, its notes and its sessions.
#[derive(Drop)]
pub struct Board<F: Flash, C: PageCode> {
    pub slots: Vec<Slot<F, C>>,
    pub events: u32,
    pub dark: bool,
    pub notes: History,
    pub sessions: Vec<Session>,
}

impl<F: Flash, C: PageCode> Board<F, C> {
    ghost use Rattle.session_steps.specs.Standing.{number_of};
    ghost use Rattle.ctl_core.specs.Board.{DidEvent, StandsAlike, event_at, slot_states};
    ghost use Rattle.ctl_core.specs.Flips.{CanFlip, slot_flips_before};

    // The first chip that is not attached.
    pub fn first_attaching(&self) -> Option<usize>
        ensures { result ≡ position
            (λ slot. not (is_attached (chip_stage slot.chip))) self.now.slots.items }
    {
        self.slots.iter().position(|slot| !slot.chip.is_attached())
    }

    // The chip that a session holds.
    pub fn held_by(&self, session: u32) -> Option<usize>
        ensures { result ≡ position (λ slot. is_held_by session slot.holder) self.now.slots.items }
    {
        self.slots
            .iter()
            .position(|slot| is_held_by(slot.holder, session))
    }

    // The place of a session.
    pub fn place_of(&self, session: u32) -> Option<usize>
        ensures { result ≡ position (λ s. number_of s == session) self.now.sessions.items }
    {
        self.sessions.iter().position(|one| one.number() == session)
    }

    // Makes the flips that are due before the next event, and does this event, which is one of chip
    // `k`; where the cut names it, it is torn, and the controller is dark. Memory is taken first;
    // where there is none, chips, notes and sessions stand as they stood.
    pub fn do_event(&mut self, faults: &Faults, k: usize) -> Result<(), AllocError>
        requires few { length self.old.slots.items ≤ 8 }
        requires lit { self.old.dark ≡ false }
        requires event { IsSome (event_at self.old k) }
        requires room { 2 ≤ self.old.notes.room }
        requires number { self.old.events < 2 ^ 32 - 1 }
        requires flips { All (CanFlip (slot_states self.old)) faults.now.flips }
        requires few_flips { AreFewFlips faults.now.flips }
        ensures did { (c : SlotState F.FaultState) (e : PageEvent) →
            slice_get (slot_flips_before F.fault_model faults.now.flips (self.old.events + 1)
            (slot_states self.old)) k ≡ Some c → stage_event c.stage ≡ Some e →
            OnOk result (DidEvent faults.now.flips faults.now.cut k c e self.old self.new) }
        ensures no_memory { OnErr result (StandsAlike self.old self.new) }
    {
        make_due_flips(&mut self.slots, faults, self.events + 1)?;
        self.events += 1;
        let slot = &mut self.slots[k];
        match faults.cut_at(self.events) {
            None => slot.advance(k as u32, self.events, &mut self.notes),
            Some(tear) => {
                slot.tear(k as u32, self.events, tear, &mut self.notes);
                self.dark = true;
            }
        }
        Ok(())
    }
}
