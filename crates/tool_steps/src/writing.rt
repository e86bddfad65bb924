// nandwrite, block after block and page after page.
ghost use Rattle.std.specs.Prelude.{◌≡◌, ◌+◌, ◌-◌, ◌*◌, ◌≤◌, ◌<◌, ◌++◌, suc, ℕ, List, [], ◌∷◌, replicate, slice_range, if◌then◌else◌, IfOk, OnErr};
ghost use Rattle.nand_model.specs.Sizes.{parity_start};

use crate::copies::{block_len, body_of, padded, part_of, unit_len, with_erased};
use crate::replies::tells_bad;
use crate::step::{State, Turn};
use nand_model::{Bytes, Ending, Geometry, Op, Outcome, Reply};
use std::alloc::{AllocError, Global};

/// How nandwrite was called.
#[derive(Clone, Copy)]
pub struct Called {
    pub dev: u32,
    pub mark: bool,
    pub raw: bool,
    pub oob: bool,
}

/// A block to which nandwrite has come: the place of the first page that it writes there, the
/// number of blocks after it, the units that were written before it, those that are left after its
/// first one, and the counts before it.
#[derive(Clone, Copy)]
pub struct BlockAt {
    pub called: Called,
    pub block: u32,
    pub place: u32,
    pub rest: u32,
    pub first: u32,
    pub more: u32,
    pub skipped: u64,
    pub failed: u64,
    ghost in_device: { block + rest < 32768 },
    ghost in_block: { place ≤ 127 },
    ghost units: { first + more < 4194304 },
    ghost skipped_before: { skipped ≤ block },
    ghost failed_before: { failed ≤ block },
}

/// A page to which nandwrite has come, after so many in its block.
#[derive(Clone, Copy)]
pub struct PageAt {
    pub at: BlockAt,
    pub written: u32,
    ghost units_left: { written ≤ at.more },
}

/// What nandwrite waits for.
#[derive(Clone, Copy)]
pub enum Place {
    /// Whether the block is bad.
    Scanning(BlockAt),
    /// The write of a unit to the page.
    Programming(PageAt),
    /// The erase of the block, a page of which failed.
    Clearing(BlockAt),
    /// The mark of the block, a page of which failed.
    Marking(BlockAt),
}

/// nandwrite under way: where it stands, and its data, filled up with 0xFF to whole units.
#[derive(Drop)]
pub struct Writing {
    pub place: Place,
    pub units: Bytes,
}

impl BlockAt {
    ghost use Rattle.nand_model.specs.declared.geometry.Geometry.{Geometry as Sizes};
    ghost use Rattle.tool_steps.specs.Steps.{state_left};
    ghost use Rattle.tool_steps.specs.Writing.{units_from, later_blocks, failed_left, skipped_left, place_left};

    // The block after this one, with `more` units after the unit `first`, or the end of the device.
    fn next(self, first: u32, more: u32, skipped: u64, failed: u64) -> State<Place>
        requires units { first + more < 4194304 }
        requires skipped_before { skipped ≤ self.block + 1 }
        requires failed_before { failed ≤ self.block + 1 }
        ensures { (g : Sizes) (bytes : List ℕ) → state_left (place_left g bytes) result
            ≡ later_blocks g bytes self (units_from g bytes self.called first (suc more))
            (record { pages = first; skipped = skipped; failed = failed }) }
    {
        if self.rest == 0 {
            return State::Over(Outcome::NandWrite {
                pages: u64::from(first),
                skipped,
                failed,
                ending: Ending::NoSpace,
            });
        }
        State::At(Place::Scanning(BlockAt {
            called: self.called,
            block: self.block + 1,
            place: 0,
            rest: self.rest - 1,
            first,
            more,
            skipped,
            failed,
        }))
    }

    // The units of this block, a page of which failed, go to the next one.
    fn failed(self) -> State<Place>
        ensures { (g : Sizes) (bytes : List ℕ) → state_left (place_left g bytes) result
            ≡ failed_left g bytes self }
    {
        self.next(self.first, self.more, self.skipped, self.failed + 1)
    }

    // The units of this block, which is bad or was refused, go to the next one.
    fn skipped(self) -> State<Place>
        ensures { (g : Sizes) (bytes : List ℕ) → state_left (place_left g bytes) result
            ≡ skipped_left g bytes self }
    {
        self.next(self.first, self.more, self.skipped + 1, self.failed)
    }

    // The end of the command, with so many pages.
    fn ended(self, pages: u32, ending: Ending) -> State<Place>
        ensures { result ≡ State.Over (Outcome.NandWrite pages self.skipped self.failed ending) }
    {
        State::Over(Outcome::NandWrite {
            pages: u64::from(pages),
            skipped: self.skipped,
            failed: self.failed,
            ending,
        })
    }
}

impl PageAt {
    ghost use Rattle.command_model.specs.Command.{unit_size, write_unit, after_replies};
    ghost use Rattle.tool_steps.specs.Steps.{state_left};
    ghost use Rattle.tool_steps.specs.Writing.{unit_at, write_mode, units_from, pages_left, program_left, place_left};

    // The unit that is written.
    fn unit<'a>(&self, g: &Geometry, bytes: &'a [u8]) -> &'a [u8]
        ensures { result.now
            ≡ unit_at (unit_size g.now self.now.at.called.oob) bytes.now
            (self.now.at.first + self.now.written) }
    {
        let len = unit_len(g, self.at.called.oob) as usize;
        part_of(bytes, (self.at.first + self.written) as usize * len, len)
    }

    /// The write of the unit to the page. Without `-o` its spare, or its free bytes, are 0xFF.
    pub fn program(self, alloc: Global, g: &Geometry, bytes: &[u8]) -> Result<Op, AllocError>
        ensures { IfOk result (λ op. op ≡ write_unit g.now (write_mode self.at.called)
            (self.at.block * g.now.pages_per_block + (self.at.place + self.written))
            (unit_at (unit_size g.now self.at.called.oob) bytes.now
            (self.at.first + self.written))) }
    {
        let Called { dev, raw, oob, .. } = self.at.called;
        let page = self.at.block * g.pages_per_block + (self.at.place + self.written);
        let unit = self.unit(g, bytes);
        if raw {
            let image = image_of(alloc, g, oob, unit)?;
            return Ok(Op::RawWrite { dev, page, image });
        }
        let body = body_of(alloc, unit, g.page)?;
        let free = free_of(alloc, g, oob, unit)?;
        Ok(Op::Write {
            dev,
            page,
            body,
            free,
        })
    }

    // The unit goes to the page, or to the next block where this one is full.
    fn next(self, g: &Geometry) -> State<Place>
        ensures { (bytes : List ℕ) → state_left (place_left g.now bytes) result
            ≡ pages_left g.now bytes self.at self.written (self.at.place + self.written)
            (units_from g.now bytes self.at.called (self.at.first + self.written)
            (suc (self.at.more - self.written))) }
    {
        let at = self.at;
        if at.place + self.written == g.pages_per_block {
            return at.next(
                at.first + self.written,
                at.more - self.written,
                at.skipped,
                at.failed,
            );
        }
        State::At(Place::Programming(self))
    }

    // The page is written.
    fn done(self, g: &Geometry) -> State<Place>
        ensures { (bytes : List ℕ) → state_left (place_left g.now bytes) result
            ≡ pages_left g.now bytes self.at (self.written + 1) (self.at.place + self.written + 1)
            (units_from g.now bytes self.at.called (self.at.first + self.written + 1)
            (self.at.more - self.written)) }
    {
        let at = self.at;
        if self.written == at.more {
            return at.ended(at.first + self.written + 1, Ending::Whole);
        }
        let later = PageAt {
            at,
            written: self.written + 1,
        };
        later.next(g)
    }

    // Where the command stands after the reply to the write.
    fn after(self, g: &Geometry, reply: &Reply) -> State<Place>
        ensures { (bytes : List ℕ) → state_left (place_left g.now bytes) result
            ≡ after_replies (reply.now ∷ []) (program_left g.now bytes self) }
    {
        match reply {
            Reply::ProgramFailed => State::At(Place::Clearing(self.at)),
            Reply::BadBlock => self.at.skipped(),
            Reply::MarkerByte => self
                .at
                .ended(self.at.first + self.written, Ending::MarkerByte),
            _ => self.done(g),
        }
    }
}

// The image of a page that takes a unit raw.
fn image_of(alloc: Global, g: &Geometry, oob: bool, unit: &[u8]) -> Result<Bytes, AllocError>
    ensures { IfOk result (λ image. image
        ≡ (if oob then unit.now else unit.now ++ replicate g.now.spare 0xff)) }
{
    if oob {
        Bytes::from_slice(alloc, unit)
    } else {
        with_erased(alloc, unit, g.spare as usize)
    }
}

// The free bytes of a page that takes a unit.
fn free_of(alloc: Global, g: &Geometry, oob: bool, unit: &[u8]) -> Result<Bytes, AllocError>
    ensures { IfOk result (λ free. free ≡ (if oob
        then slice_range unit.now (g.now.page + 2) (g.now.page + parity_start g.now)
        else replicate (parity_start g.now - 2) 0xff)) }
{
    let parities = g.parity_start();
    if oob {
        let from = (g.page + 2) as usize;
        let end = (g.page + parities) as usize;
        Bytes::from_slice(alloc, part_of(unit, from, end - from))
    } else {
        Bytes::filled(alloc, 0xff, parities as usize - 2)
    }
}

impl Place {
    ghost use Rattle.command_model.specs.Command.{Do, after_replies, next_in};
    ghost use Rattle.tool_steps.specs.Steps.{state_left};
    ghost use Rattle.tool_steps.specs.Writing.{place_left};

    /// The operation whose reply is waited for.
    pub fn op(self, alloc: Global, g: &Geometry, bytes: &[u8]) -> Result<Op, AllocError>
        ensures { IfOk result (λ op. next_in (place_left g.now bytes.now self) ≡ Do op) }
    {
        match self {
            Place::Scanning(at) => Ok(Op::IsBad {
                dev: at.called.dev,
                block: at.block,
            }),
            Place::Programming(page) => page.program(alloc, g, bytes),
            Place::Clearing(at) => Ok(Op::Erase {
                dev: at.called.dev,
                block: at.block,
            }),
            Place::Marking(at) => Ok(Op::Mark {
                dev: at.called.dev,
                block: at.block,
            }),
        }
    }

    /// Where the command stands after the reply.
    pub fn after(self, g: &Geometry, reply: &Reply) -> State<Place>
        ensures { (bytes : List ℕ) → state_left (place_left g.now bytes) result
            ≡ after_replies (reply.now ∷ []) (place_left g.now bytes self) }
    {
        match self {
            Place::Scanning(at) => {
                if tells_bad(reply) {
                    at.skipped()
                } else {
                    PageAt { at, written: 0 }.next(g)
                }
            }
            Place::Programming(page) => page.after(g, reply),
            Place::Clearing(at) => {
                if at.called.mark {
                    State::At(Place::Marking(at))
                } else {
                    at.failed()
                }
            }
            Place::Marking(at) => at.failed(),
        }
    }
}

impl Writing {
    ghost use Rattle.command_model.specs.Command.{Do, after_replies, next_in};
    ghost use Rattle.command_model.specs.Runnable.{WritesPages};
    ghost use Rattle.tool_steps.specs.Steps.{is_over, state_left, TurnsTo};
    ghost use Rattle.tool_steps.specs.Writing.{write_from_start, write_mode, writing_left};

    /// nandwrite at its start, of these bytes from the offset `off` on. Without bytes it is over.
    pub fn start(
        alloc: Global,
        g: &Geometry,
        called: Called,
        blocks: u32,
        off: u64,
        bytes: &[u8],
    ) -> Result<State<Writing>, AllocError>
        requires { WritesPages g.now blocks off bytes.now }
        ensures { IfOk result (λ state. state_left (writing_left g.now) state
            ≡ write_from_start g.now (write_mode called) blocks off bytes.now) }
    {
        let len = unit_len(g, called.oob) as usize;
        let count = (bytes.len() + (len - 1)) / len;
        if count == 0 {
            return Ok(State::Over(Outcome::NandWrite {
                pages: 0,
                skipped: 0,
                failed: 0,
                ending: Ending::Whole,
            }));
        }
        let block = (off / block_len(g)) as u32;
        let at = BlockAt {
            called,
            block,
            place: (off / u64::from(g.page) % u64::from(g.pages_per_block)) as u32,
            rest: blocks - block - 1,
            first: 0,
            more: (count - 1) as u32,
            skipped: 0,
            failed: 0,
        };
        let units = padded(alloc, bytes, count * len)?;
        Ok(State::At(Writing {
            place: Place::Scanning(at),
            units,
        }))
    }

    /// The operation whose reply is waited for.
    pub fn op(&self, alloc: Global, g: &Geometry) -> Result<Op, AllocError>
        ensures { IfOk result (λ op. next_in (writing_left g.now self.now) ≡ Do op) }
    {
        self.place.op(alloc, g, self.units.as_slice())
    }

    /// Whether the command is over after the reply.
    pub fn ends_at(&self, g: &Geometry, reply: &Reply) -> bool
        ensures { result
            ≡ is_over (next_in (after_replies (reply.now ∷ []) (writing_left g.now self.now))) }
    {
        matches!(self.place.after(g, reply), State::Over(_))
    }

    /// The command takes the reply. Where memory runs out, it is as before.
    pub fn answered(
        &mut self,
        alloc: Global,
        g: &Geometry,
        reply: &Reply,
    ) -> Result<Turn, AllocError>
        ensures turn { IfOk result (λ turn. TurnsTo turn (writing_left g.now self.new)
            (after_replies (reply.now ∷ []) (writing_left g.now self.old))) }
        ensures no_memory { OnErr result (self.new ≡ self.old) }
    {
        match self.place.after(g, reply) {
            State::At(later) => {
                let op = later.op(alloc, g, self.units.as_slice())?;
                self.place = later;
                Ok(Turn::Ask(op))
            }
            State::Over(outcome) => Ok(Turn::End(outcome)),
        }
    }
}
