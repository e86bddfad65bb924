// Where a command stands between two replies.
ghost use Rattle.std.specs.Prelude.{◌≡◌, [], ◌∷◌, IfOk, OnErr};

use crate::copies::copy_of;
use crate::dumping::Dumping;
use crate::erasing::Erasing;
use crate::replies::counted;
use crate::step::{State, Turn};
use crate::testing::Testing;
use crate::writing::Writing;
use nand_model::{Geometry, Op, Outcome, Reply};
use std::alloc::{AllocError, Global};

/// A command that is not over, and what it waits for.
#[derive(Drop)]
pub enum Work {
    /// flash_erase.
    Erasing(Erasing),
    /// nandwrite.
    Writing(Writing),
    /// nanddump.
    Dumping(Dumping),
    /// nandtest.
    Testing(Testing),
    /// markbad: the mark of a block.
    Marking { dev: u32, block: u32 },
    /// isbad: the state of a block.
    Asking { dev: u32, block: u32 },
    /// stats: the statistics of a device.
    Counting { dev: u32 },
}

impl Work {
    ghost use Rattle.command_model.specs.Command.{Do, after_replies, next_in};
    ghost use Rattle.tool_steps.specs.Steps.{is_over, TurnsTo};
    ghost use Rattle.tool_steps.specs.Work.{work_left};

    /// The operation whose reply is waited for.
    pub fn op(&self, alloc: Global, g: &Geometry) -> Result<Op, AllocError>
        ensures { IfOk result (λ op. next_in (work_left g.now self.now) ≡ Do op) }
    {
        match self {
            Work::Erasing(erasing) => Ok(erasing.op()),
            Work::Writing(writing) => writing.op(alloc, g),
            Work::Dumping(dumping) => Ok(dumping.op(g)),
            Work::Testing(testing) => testing.op(alloc, g),
            Work::Marking { dev, block } => Ok(Op::Mark {
                dev: *dev,
                block: *block,
            }),
            Work::Asking { dev, block } => Ok(Op::IsBad {
                dev: *dev,
                block: *block,
            }),
            Work::Counting { dev } => Ok(Op::Stats { dev: *dev }),
        }
    }

    /// The command takes the reply. Where memory runs out, it is as before.
    pub fn answered(
        &mut self,
        alloc: Global,
        g: &Geometry,
        reply: &Reply,
    ) -> Result<Turn, AllocError>
        ensures turn { IfOk result (λ turn. TurnsTo turn (work_left g.now self.new)
            (after_replies (reply.now ∷ []) (work_left g.now self.old))) }
        ensures no_memory { OnErr result (self.new ≡ self.old) }
    {
        match self {
            Work::Erasing(erasing) => Ok(erasing.answered(reply)),
            Work::Writing(writing) => writing.answered(alloc, g, reply),
            Work::Dumping(dumping) => dumping.answered(alloc, g, reply),
            Work::Testing(testing) => testing.answered(alloc, g, reply),
            Work::Marking { .. } => Ok(Turn::End(Outcome::MarkBad {
                reply: copy_of(alloc, reply)?,
            })),
            Work::Asking { .. } => Ok(Turn::End(Outcome::IsBad {
                reply: copy_of(alloc, reply)?,
            })),
            Work::Counting { .. } => Ok(Turn::End(counted(reply))),
        }
    }

    /// Whether the command is over after the reply. It takes no memory.
    pub fn ends_at(&self, g: &Geometry, reply: &Reply) -> bool
        ensures { result
            ≡ is_over (next_in (after_replies (reply.now ∷ []) (work_left g.now self.now))) }
    {
        match self {
            Work::Erasing(erasing) => matches!(erasing.after(reply), State::Over(_)),
            Work::Writing(writing) => writing.ends_at(g, reply),
            Work::Dumping(dumping) => dumping.place.ends_at(reply),
            Work::Testing(testing) => testing.place.ends_at(g, reply),
            Work::Marking { .. } | Work::Asking { .. } | Work::Counting { .. } => true,
        }
    }
}
