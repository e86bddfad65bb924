// A session that goes through its commands.
ghost use Rattle.std.specs.Prelude.{◌≡◌, ◌≤◌, ◌<◌, ◌+◌, ◌^◌, ◌++◌, ℕ, [], List, length, drop, replicate, slice_get, true, vec_len, vec_capacity, OnOk, IfOk, OnErr, option_copied};
ghost use Rattle.nand_model.specs.declared.geometry.Geometry.{Geometry as Sizes};
ghost use Rattle.nand_model.specs.declared.words.Command.{Command as Ordered};
ghost use Rattle.nand_model.specs.declared.words.Note.{Note as Noted};
ghost use Rattle.nand_model.specs.declared.words.Note.TheVariants.{Answered};
ghost use Rattle.nand_model.specs.declared.words.Reply.{Reply as Replied};
ghost use Rattle.command_model.specs.Command.{script_of};
ghost use Rattle.command_model.specs.Session.{SessionRun, without_finished, with_reply, next_op_of, is_finished};
ghost use Rattle.command_model.specs.Runnable.{Fits};
ghost use Rattle.tool_steps.specs.Steps.{asks_something};
ghost use Rattle.session_steps.specs.Mirrors.{CanAllRun, Mirrors};
ghost use Rattle.session_steps.specs.Standing.{standing, idle_first, nothing_written, outcomes_by, commands_by, op_asked, put_down, begun, standing_alone, reply_at, end_of, number_of, IsBetween, First, IsWaiting};

use crate::SessionEnd;
use nand_iface::History;
use nand_model::{Command, Ending, Geometry, ItemList, Note, Op, Outcome, Reply};
use std::alloc::{AllocError, Global};
use tool_steps::{Step, Tool, has_operation};

/// Where a session of a controller stands: the tool of the command that it began last, the place of
/// that tool's last reply in the controller's notes if the tool does not have it yet, and the
/// outcomes of the commands before. The commands and the notes are handed to each call; they are
/// always those of the session's controller.
#[derive(Drop)]
pub struct Session {
    number: u32,
    tool: Option<Tool>,
    last: Option<usize>,
    outcomes: Vec<Outcome>,
}

impl Session {
    /// A session at its start. It takes no memory.
    pub fn new(alloc: Global, number: u32) -> Session
        ensures { (sizes : Ordered → Sizes) (commands : List Ordered) (notes : List Noted) →
            CanAllRun sizes commands →
            Mirrors sizes commands notes result (without_finished sizes number commands [] []) }
    {
        Session {
            number,
            tool: None,
            last: None,
            outcomes: Vec::new(alloc),
        }
    }

    /// The number of the session.
    pub fn number(&self) -> u32
        ensures { result ≡ number_of self.now }
    {
        self.number
    }

    /// Whether all commands are finished. It takes no memory.
    pub fn is_over(&self, commands: &ItemList<Command>, notes: &History) -> bool
        ensures { result ≡ is_finished
            (commands_by commands.now (standing notes.now.notes self.now)) }
    {
        self.next_command(commands, notes).is_none()
    }

    /// Lends the first command that is not finished, of which the next operation is. None comes
    /// exactly where all are. It takes no memory.
    pub fn next_command<'a>(
        &self,
        commands: &'a ItemList<Command>,
        notes: &History,
    ) -> Option<&'a Command>
        ensures { option_copied result
            ≡ slice_get (commands_by commands.now (standing notes.now.notes self.now)) 0 }
    {
        let finished = self.finished(commands, notes);
        if finished < commands.len() {
            Some(commands.get(finished))
        } else {
            None
        }
    }

    /// The next operation, of the first command that is not finished; `g` are the sizes of that
    /// command's chip. The session stays where it stands, also where memory runs out, so that the
    /// call may be repeated before the reply comes.
    pub fn next_op(
        &mut self,
        commands: &ItemList<Command>,
        g: &Geometry,
        notes: &History,
    ) -> Result<Op, AllocError>
        requires { First (Fits g.now)
            (commands_by commands.now (standing notes.now.notes self.old)) }
        ensures op { IfOk result
            (λ op. (sizes : Ordered → Sizes) (run : SessionRun) →
            Mirrors sizes commands.now notes.now.notes self.old run →
            First (λ c. sizes c ≡ g.now) run.commands → next_op_of sizes run.commands run.replies
            ≡ Some op) }
        ensures mirrors { (sizes : Ordered → Sizes) (run : SessionRun) →
            Mirrors sizes commands.now notes.now.notes self.old run →
            First (λ c. sizes c ≡ g.now) run.commands →
            Mirrors sizes commands.now notes.now.notes self.new run }
        ensures waits { OnOk result (IsWaiting self.new) }
    {
        if let Some(op) = self.resume(notes)? {
            return Ok(op);
        }
        self.put_outcomes_down(commands)?;
        let place = self.outcomes.len();
        self.begin(commands.get(place), g)
    }

    /// Tells the session that the reply to its operation is at place `at` of the notes. It takes no
    /// memory.
    pub fn replied(&mut self, at: usize)
        ensures { (sizes : Ordered → Sizes) (commands : List Ordered) (notes later : List Noted)
            (run : SessionRun) (session : ℕ) (reply : Replied) →
            Mirrors sizes commands notes self.old run → IsWaiting self.old → slice_get later at
            ≡ Some (Answered session reply) →
            Mirrors sizes commands later self.new (with_reply sizes reply run) }
    {
        self.last = Some(at);
    }

    /// The end of the session, with the outcomes of all finished commands; `cut` tells that others
    /// were left. Err comes for want of memory alone.
    pub fn finish(
        self,
        commands: &ItemList<Command>,
        notes: &History,
        cut: bool,
    ) -> Result<SessionEnd, AllocError>
        ensures { IfOk result
            (λ ended. ended ≡ end_of commands.now cut (standing notes.now.notes self)) }
    {
        let mut session = self;
        session.settle(commands, notes)?;
        let Session {
            number,
            outcomes,
            ..
        } = session;
        Ok(SessionEnd::with_outcomes(number, cut, outcomes))
    }

    // The outcomes of all finished commands are put down.
    fn settle(&mut self, commands: &ItemList<Command>, notes: &History) -> Result<(), AllocError>
        ensures number { OnOk result (self.new.number ≡ self.old.number) }
        ensures outcomes { OnOk result (self.new.outcomes.items
            ≡ outcomes_by commands.now (standing notes.now.notes self.old)) }
    {
        if self.resume(notes)?.is_none() {
            self.put_outcomes_down(commands)?;
        }
        Ok(())
    }

    // The number of finished commands.
    fn finished(&self, commands: &ItemList<Command>, notes: &History) -> usize
        ensures { result
            ≡ length (outcomes_by commands.now (standing notes.now.notes self.now)) }
    {
        let put_down = self.outcomes.len();
        match &self.tool {
            None => put_down + idle_from(commands, put_down),
            Some(tool) if tool.ends(last_reply(notes, self.last)) => {
                put_down + 1 + idle_from(commands, put_down + 1)
            }
            Some(_) => put_down,
        }
    }

    // The tool is handed its last reply, if there is one. It gives its operation; None comes
    // exactly where no tool stands or its command is over.
    fn resume(&mut self, notes: &History) -> Result<Option<Op>, AllocError>
        ensures op { IfOk result (λ op. op ≡ op_asked (standing notes.now.notes self.old).script) }
        ensures stands { OnOk result (standing_alone self.new ≡ standing notes.now.notes self.old) }
        ensures taken { OnOk result (self.new.last ≡ None) }
        ensures no_memory { OnErr result (self.new ≡ self.old) }
    {
        let last = last_reply(notes, self.last);
        let Some(tool) = &mut self.tool else {
            self.last = None;
            return Ok(None);
        };
        let step = tool.next(last)?;
        self.last = None;
        match step {
            Step::Do(op) => Ok(Some(op)),
            Step::Done => Ok(None),
        }
    }

    // The outcomes of all finished commands are put down, and no tool stands.
    fn put_outcomes_down(&mut self, commands: &ItemList<Command>) -> Result<(), AllocError>
        requires { IsBetween (standing_alone self.old).script }
        ensures put_down { OnOk result
            (standing_alone self.new ≡ put_down commands.now (standing_alone self.old)) }
        ensures no_memory { OnErr result (standing_alone self.new ≡ standing_alone self.old) }
        ensures last { self.new.last ≡ self.old.last }
    {
        let over = usize::from(self.tool.is_some());
        let idle = idle_from(commands, self.outcomes.len() + over);
        self.outcomes.reserve(over + idle)?;
        if let Some(tool) = self.tool.take() {
            self.outcomes.push_reserved(tool.finish());
        }
        put_idle_down(&mut self.outcomes, idle);
        Ok(())
    }

    // The command is begun: its tool gives the first operation.
    fn begin(&mut self, command: &Command, g: &Geometry) -> Result<Op, AllocError>
        requires fits { Fits g.now command.now }
        requires asks { asks_something command.now ≡ true }
        ensures op { IfOk result (λ op. op_asked (Some (script_of g.now command.now)) ≡ Some op) }
        ensures begun { OnOk result
            (standing_alone self.new
            ≡ begun (script_of g.now command.now) (standing_alone self.old)) }
        ensures no_memory { OnErr result (standing_alone self.new ≡ standing_alone self.old) }
        ensures last { self.new.last ≡ self.old.last }
    {
        let mut tool = Tool::start(*self.outcomes.allocator(), command, g)?;
        match tool.next(None)? {
            Step::Do(op) => {
                self.tool = Some(tool);
                Ok(op)
            }
            Step::Done => unreachable!(),
        }
    }
}

// How many commands from this place on stand before the first that asks for an operation.
fn idle_from(commands: &ItemList<Command>, from: usize) -> usize
    ensures idle { result ≡ idle_first (drop from commands.now) }
    ensures fits { from + result < 2 ^ 64 }
{
    for place in from..commands.len() {
        if has_operation(commands.get(place)) {
            return place - from;
        }
    }
    commands.len().saturating_sub(from)
}

// So many outcomes of commands that ask for no operation are put down.
fn put_idle_down(outcomes: &mut Vec<Outcome>, idle: usize)
    requires { vec_len outcomes.old + idle ≤ vec_capacity outcomes.old }
    ensures { outcomes.new.items ≡ outcomes.old.items ++ replicate idle nothing_written }
{
    for _ in 0..idle {
        outcomes.push_reserved(Outcome::NandWrite {
            pages: 0,
            skipped: 0,
            failed: 0,
            ending: Ending::Whole,
        });
    }
}

// The reply in the note at this place, if a place is given.
fn last_reply(notes: &History, last: Option<usize>) -> Option<&Reply>
    ensures { option_copied result ≡ reply_at notes.now.notes last }
{
    let place = last?;
    if place >= notes.len() {
        return None;
    }
    match notes.get(place) {
        Note::Answered { reply, .. } => Some(reply),
        _ => None,
    }
}
