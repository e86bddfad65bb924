// flash_erase, block after block.
ghost use Rattle.std.specs.Prelude.{◌≡◌, ◌+◌, ◌≤◌, ◌<◌, ◌^◌, suc, [], ◌∷◌};

use crate::replies::{tells_bad, was_done};
use crate::step::{State, Turn};
use nand_model::{Op, Outcome, Reply};

/// A block to which flash_erase has come, the number of blocks after it, and the counts before it.
#[derive(Clone, Copy)]
pub struct EraseAt {
    pub dev: u32,
    pub no_scan: bool,
    pub block: u32,
    pub rest: u32,
    pub erased: u64,
    pub bad: u64,
    pub failed: u64,
    ghost in_device: { block + rest < 2 ^ 32 },
    ghost counted: { erased + bad + failed ≤ block },
}

/// What flash_erase waits for.
#[derive(Clone, Copy)]
pub enum Erasing {
    /// Whether the block is bad.
    Scanning(EraseAt),
    /// The erase of the block.
    Erasing(EraseAt),
}

impl EraseAt {
    ghost use Rattle.command_model.specs.Command.{erase_blocks};
    ghost use Rattle.tool_steps.specs.Steps.{state_left};
    ghost use Rattle.tool_steps.specs.Erasing.{erasing_left};

    /// What comes first in the block: with `-N` it is erased without a question.
    pub fn first(self) -> Erasing
        ensures { erasing_left result
            ≡ erase_blocks self.dev self.no_scan (suc self.rest) self.block self.erased self.bad
            self.failed }
    {
        if self.no_scan {
            Erasing::Erasing(self)
        } else {
            Erasing::Scanning(self)
        }
    }

    // The next block, with these counts, or the end of the range.
    fn next(self, erased: u64, bad: u64, failed: u64) -> State<Erasing>
        requires { erased + bad + failed ≤ self.block + 1 }
        ensures { state_left erasing_left result
            ≡ erase_blocks self.dev self.no_scan self.rest (self.block + 1) erased bad failed }
    {
        if self.rest == 0 {
            return State::Over(Outcome::FlashErase {
                erased,
                bad,
                failed,
            });
        }
        let later = EraseAt {
            dev: self.dev,
            no_scan: self.no_scan,
            block: self.block + 1,
            rest: self.rest - 1,
            erased,
            bad,
            failed,
        };
        State::At(later.first())
    }
}

impl Erasing {
    ghost use Rattle.command_model.specs.Command.{Do, next_in, after_replies, count_or_rest, erase_blocks};
    ghost use Rattle.command_model.specs.Runnable.{ErasesBlocks};
    ghost use Rattle.tool_steps.specs.Steps.{state_left, TurnsTo};
    ghost use Rattle.tool_steps.specs.Erasing.{erasing_left};

    /// flash_erase at its start, of the blocks from `start` on, so many or all.
    pub fn start(dev: u32, blocks: u32, no_scan: bool, start: u32, count: u32) -> Erasing
        requires { ErasesBlocks blocks start count }
        ensures { erasing_left result
            ≡ erase_blocks dev no_scan (count_or_rest count start blocks) start 0 0 0 }
    {
        let all = if count == 0 { blocks - start } else { count };
        let at = EraseAt {
            dev,
            no_scan,
            block: start,
            rest: all - 1,
            erased: 0,
            bad: 0,
            failed: 0,
        };
        at.first()
    }

    /// The operation whose reply is waited for.
    pub fn op(self) -> Op
        ensures { next_in (erasing_left self) ≡ Do result }
    {
        match self {
            Erasing::Scanning(at) => Op::IsBad {
                dev: at.dev,
                block: at.block,
            },
            Erasing::Erasing(at) => Op::Erase {
                dev: at.dev,
                block: at.block,
            },
        }
    }

    /// Where the command stands after the reply.
    pub fn after(self, reply: &Reply) -> State<Erasing>
        ensures { state_left erasing_left result
            ≡ after_replies (reply.now ∷ []) (erasing_left self) }
    {
        match self {
            Erasing::Scanning(at) => {
                if tells_bad(reply) {
                    at.next(at.erased, at.bad + 1, at.failed)
                } else {
                    State::At(Erasing::Erasing(at))
                }
            }
            Erasing::Erasing(at) => {
                if was_done(reply) {
                    at.next(at.erased + 1, at.bad, at.failed)
                } else {
                    at.next(at.erased, at.bad, at.failed + 1)
                }
            }
        }
    }

    /// The command takes the reply.
    pub fn answered(&mut self, reply: &Reply) -> Turn
        ensures { TurnsTo result (erasing_left self.new)
            (after_replies (reply.now ∷ []) (erasing_left self.old)) }
    {
        match self.after(reply) {
            State::At(later) => {
                *self = later;
                Turn::Ask(later.op())
            }
            State::Over(outcome) => Turn::End(outcome),
        }
    }
}
