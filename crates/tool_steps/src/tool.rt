// A command that is resumed at each reply.
ghost use Rattle.std.specs.Prelude.{◌≡◌, ◌++◌, List, true, option_copied, IfOk, OnOk, OnErr};
ghost use Rattle.nand_model.specs.declared.geometry.Geometry.{Geometry as Sizes};
ghost use Rattle.nand_model.specs.declared.words.Command.{Command as Ordered};
ghost use Rattle.nand_model.specs.declared.words.Reply.{Reply as Replied};
ghost use Rattle.command_model.specs.Command.{Over, next_in, script_of};
ghost use Rattle.command_model.specs.Runnable.{Fits, WritesPages};
ghost use Rattle.tool_steps.specs.Steps.{handed, after_last, step_of, is_over, state_left, HasHad};
ghost use Rattle.tool_steps.specs.Work.{work_left};
ghost use Rattle.tool_steps.specs.Writing.{write_from_start, write_mode};

use crate::dumping::Dumping;
use crate::erasing::Erasing;
use crate::step::{State, Step, Turn};
use crate::testing::Testing;
use crate::work::Work;
use crate::writing::Writing;
use crate::{dumping, testing, writing};
use nand_model::{Command, Geometry, Outcome, Reply};
use std::alloc::{AllocError, Global};

/// A command that is resumed at each reply. What is left of it is a script: the end with the
/// outcome, or an operation and what follows each reply to it.
#[derive(Drop)]
pub struct Tool {
    alloc: Global,
    geometry: Geometry,
    state: State<Work>,
}

impl Tool {
    ghost use Rattle.tool_steps.specs.Work.{left_of};

    /// The command at its start, on a device of a chip with these sizes.
    pub fn start(alloc: Global, command: &Command, g: &Geometry) -> Result<Tool, AllocError>
        requires { Fits g.now command.now }
        ensures { IfOk result (λ tool. left_of tool ≡ script_of g.now command.now) }
    {
        Ok(Tool {
            alloc,
            geometry: *g,
            state: first_state(alloc, command, g)?,
        })
    }

    /// The next step: None is handed over at first, and afterwards the reply to the operation that
    /// was given last. Where memory runs out, the tool is as before.
    pub fn next(&mut self, last: Option<&Reply>) -> Result<Step, AllocError>
        ensures step { IfOk result
            (λ step. step
            ≡ step_of (next_in (after_last (option_copied last.entry) (left_of self.old)))) }
        ensures goes_on { OnOk result
            (left_of self.new ≡ after_last (option_copied last.entry) (left_of self.old)) }
        ensures replies { (g : Sizes) (command : Ordered) (replies : List Replied) →
            HasHad g command replies (left_of self.old) →
            OnOk result (HasHad g command (replies ++ handed (option_copied last.entry))
            (left_of self.new)) }
        ensures no_memory { OnErr result (self.new ≡ self.old) }
    {
        self.resume(last)
    }

    // The next step, said of the script that is left.
    fn resume(&mut self, last: Option<&Reply>) -> Result<Step, AllocError>
        ensures step { IfOk result
            (λ step. step
            ≡ step_of (next_in (after_last (option_copied last.entry) (left_of self.old)))) }
        ensures goes_on { OnOk result
            (left_of self.new ≡ after_last (option_copied last.entry) (left_of self.old)) }
        ensures no_memory { OnErr result (self.new ≡ self.old) }
    {
        let State::At(work) = &mut self.state else {
            return Ok(Step::Done);
        };
        let Some(reply) = last else {
            return Ok(Step::Do(work.op(self.alloc, &self.geometry)?));
        };
        match work.answered(self.alloc, &self.geometry, reply)? {
            Turn::Ask(op) => Ok(Step::Do(op)),
            Turn::End(outcome) => {
                self.state = State::Over(outcome);
                Ok(Step::Done)
            }
        }
    }

    /// Whether `next` with this argument answers `Done`. It takes no memory.
    pub fn ends(&self, last: Option<&Reply>) -> bool
        ensures { result ≡ is_over
            (next_in (after_last (option_copied last.entry) (left_of self.now))) }
    {
        match (&self.state, last) {
            (State::Over(_), _) => true,
            (State::At(_), None) => false,
            (State::At(work), Some(reply)) => work.ends_at(&self.geometry, reply),
        }
    }

    /// Lends the outcome of a command that is over.
    pub fn outcome(&self) -> &Outcome
        requires { is_over (next_in (left_of self.now)) ≡ true }
        ensures { next_in (left_of self.now) ≡ Over result.now }
    {
        match &self.state {
            State::Over(outcome) => outcome,
            State::At(_) => unreachable!(),
        }
    }

    /// Hands the outcome of a command that is over out.
    pub fn finish(self) -> Outcome
        requires { is_over (next_in (left_of self)) ≡ true }
        ensures { next_in (left_of self) ≡ Over result }
    {
        let Tool { state, .. } = self;
        match state {
            State::Over(outcome) => outcome,
            State::At(_) => unreachable!(),
        }
    }
}

// Where a command begins.
fn first_state(alloc: Global, command: &Command, g: &Geometry) -> Result<State<Work>, AllocError>
    requires { Fits g.now command.now }
    ensures { IfOk result (λ state. state_left (work_left g.now) state
        ≡ script_of g.now command.now) }
{
    match command {
        Command::FlashErase {
            dev,
            blocks,
            no_scan,
            start,
            count,
        } => Ok(State::At(Work::Erasing(Erasing::start(*dev, *blocks, *no_scan, *start, *count)))),
        Command::NandWrite {
            dev,
            blocks,
            mark,
            raw,
            oob,
            off,
            bytes,
            ..
        } => {
            let called = writing::Called {
                dev: *dev,
                mark: *mark,
                raw: *raw,
                oob: *oob,
            };
            first_write(alloc, g, called, *blocks, *off, bytes.as_slice())
        }
        Command::NandDump {
            dev,
            blocks,
            off,
            len,
            raw,
            oob,
            bad,
        } => {
            let called = dumping::Called {
                dev: *dev,
                raw: *raw,
                oob: *oob,
                bad: *bad,
            };
            let dumping = Dumping::start(alloc, g, called, *blocks, *off, *len)?;
            Ok(State::At(Work::Dumping(dumping)))
        }
        Command::MarkBad { dev, block, .. } => Ok(State::At(Work::Marking {
            dev: *dev,
            block: *block,
        })),
        Command::IsBad { dev, block, .. } => Ok(State::At(Work::Asking {
            dev: *dev,
            block: *block,
        })),
        Command::Stats { dev, .. } => Ok(State::At(Work::Counting { dev: *dev })),
        Command::NandTest {
            dev,
            blocks,
            keep,
            mark,
            seed,
            passes,
            off,
            len,
        } => {
            let called = testing::Called {
                dev: *dev,
                keep: *keep,
                mark: *mark,
                seed: *seed,
                passes: *passes,
            };
            let testing = Testing::start(alloc, g, called, *blocks, *off, *len)?;
            Ok(State::At(Work::Testing(testing)))
        }
    }
}

// Where a nandwrite begins.
fn first_write(
    alloc: Global,
    g: &Geometry,
    called: writing::Called,
    blocks: u32,
    off: u64,
    bytes: &[u8],
) -> Result<State<Work>, AllocError>
    requires { WritesPages g.now blocks off bytes.now }
    ensures { IfOk result (λ state. state_left (work_left g.now) state
        ≡ write_from_start g.now (write_mode called) blocks off bytes.now) }
{
    match Writing::start(alloc, g, called, blocks, off, bytes)? {
        State::At(writing) => Ok(State::At(Work::Writing(writing))),
        State::Over(outcome) => Ok(State::Over(outcome)),
    }
}
