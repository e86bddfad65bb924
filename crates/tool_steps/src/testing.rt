// nandtest, pass after pass, block after block and page after page.
ghost use Rattle.std.specs.Prelude.{◌≡◌, ◌+◌, ◌-◌, ◌*◌, ◌≤◌, ◌<◌, ◌++◌, suc, ℕ, List, [], ◌∷◌, replicate, ◌^◌, IfOk, OnErr};
ghost use Rattle.nand_model.specs.Sizes.{parity_start};

use crate::bodies::{is_test_body, kept_body, test_body};
use crate::copies::{block_len, page_body};
use crate::ranges::blocks_in_range;
use crate::replies::tells_bad;
use crate::step::{State, Turn};
use nand_model::{Bytes, Geometry, Op, Outcome, PageRead, Reply};
use std::alloc::{AllocError, Global};

/// How nandtest was called.
#[derive(Clone, Copy)]
pub struct Called {
    pub dev: u32,
    pub keep: bool,
    pub mark: bool,
    pub seed: u64,
    pub passes: u32,
}

/// The counts of nandtest so far.
#[derive(Clone, Copy)]
pub struct Counts {
    pub blocks: u64,
    pub bad: u64,
    pub worn: u64,
    pub mismatched: u64,
    pub corrected: u64,
    pub failed: u64,
}

/// How far nandtest has come: the first block of its range and their number, the passes after this
/// one, the block, and the blocks after it in its pass.
#[derive(Clone, Copy)]
pub struct Walk {
    pub called: Called,
    pub first: u32,
    pub count: u32,
    pub passes: u32,
    pub block: u32,
    pub rest: u32,
    ghost passes_left: { passes < called.passes },
    ghost some: { 1 ≤ count },
    ghost range: { first + count ≤ 32768 },
    ghost in_device: { block + rest < 32768 },
}

/// A block to which nandtest has come, and the counts so far.
#[derive(Clone, Copy)]
pub struct BlockAt {
    pub walk: Walk,
    pub counts: Counts,
}

/// A page to which nandtest has come: its place in the block, and the pages after it there.
#[derive(Clone, Copy)]
pub struct PageAt {
    pub at: BlockAt,
    pub place: u32,
    pub rest: u32,
    ghost in_block: { place + rest < 128 },
}

/// Which bodies are written to a block.
#[derive(Clone, Copy)]
pub enum Bodies {
    /// Those of the pass.
    OfThePass,
    /// With `-k`, those that the block had before.
    Kept,
}

/// What nandtest waits for.
#[derive(Clone, Copy)]
pub enum Place {
    /// Whether the block is bad.
    Looking(BlockAt),
    /// The read of a page whose body is kept.
    Keeping(PageAt),
    /// The erase of the block, before these bodies are written.
    Erasing(BlockAt, Bodies),
    /// The write of one of these bodies to the page.
    Writing(PageAt, Bodies),
    /// The read of a page that is compared, and whether one before it in the block differed.
    Comparing(PageAt, bool),
    /// The mark of the block, which is worn.
    Marking(BlockAt),
}

/// nandtest under way: where it stands, and the bodies of the block that it has kept, one after the
/// other.
#[derive(Drop)]
pub struct Testing {
    pub place: Place,
    pub kept: Bytes,
}

impl Counts {
    ghost use Rattle.command_model.specs.NandTest.{counted, with_test_read, with_page_compared};
    ghost use Rattle.tool_steps.specs.Testing.{counts_of};

    // The counts with the page of a reply.
    fn with_page(self, reply: &Reply) -> Counts
        ensures { counts_of result ≡ with_test_read (counts_of self) reply.now }
    {
        match reply {
            Reply::Page { read, .. } => self.with_read(*read),
            _ => self,
        }
    }

    // The counts with a page that was read.
    fn with_read(self, read: PageRead) -> Counts
        ensures { counts_of result ≡ record (counts_of self) {
          corrected = counted self.corrected read.corrected;
          failed = counted self.failed read.failed;
        } }
    {
        Counts {
            corrected: self.corrected.saturating_add(u64::from(read.corrected)),
            failed: self.failed.saturating_add(u64::from(read.failed)),
            ..self
        }
    }

    // The counts with the page of a reply, whose body was compared.
    fn with_compared(self, differs: bool, reply: &Reply) -> Counts
        ensures { counts_of result ≡ with_page_compared (counts_of self) differs reply.now }
    {
        let counts = Counts {
            mismatched: self.mismatched.saturating_add(u64::from(differs)),
            ..self
        };
        counts.with_page(reply)
    }
}

impl BlockAt {
    ghost use Rattle.nand_model.specs.declared.geometry.Geometry.{Geometry as Sizes};
    ghost use Rattle.command_model.specs.Command.{after_replies};
    ghost use Rattle.command_model.specs.NandTest.{after_change as next_script};
    ghost use Rattle.tool_steps.specs.Steps.{state_left};
    ghost use Rattle.tool_steps.specs.Testing.{change_left, compared_left, counts_of, later_left, look_left, passed_left, pass_seed, place_left, refused_left, worn_left, written_left};

    // The seed of the block's pass.
    fn seed(&self) -> u64
        ensures { result ≡ pass_seed self.now.walk }
    {
        let pass = self.walk.called.passes - 1 - self.walk.passes;
        self.walk.called.seed.wrapping_add(u64::from(pass))
    }

    // The erase of the block.
    fn erase(&self) -> Op
        ensures { result ≡ Op.Erase self.now.walk.called.dev self.now.walk.block }
    {
        Op::Erase {
            dev: self.walk.called.dev,
            block: self.walk.block,
        }
    }

    // The first page of the block.
    fn first_page(self, g: &Geometry) -> PageAt
        ensures at { result.at ≡ self }
        ensures place { result.place ≡ 0 }
        ensures rest { suc result.rest ≡ g.now.pages_per_block }
    {
        PageAt {
            at: self,
            place: 0,
            rest: g.pages_per_block - 1,
        }
    }

    // The next block, with these counts before it: in this pass, at the start of the next one, or
    // the end.
    fn next(self, counts: Counts) -> State<Place>
        ensures { (g : Sizes) (kept : List ℕ) → state_left (place_left g kept) result
            ≡ later_left g self (counts_of counts) }
    {
        let walk = self.walk;
        if walk.rest > 0 {
            let walk = Walk {
                called: walk.called,
                first: walk.first,
                count: walk.count,
                passes: walk.passes,
                block: walk.block + 1,
                rest: walk.rest - 1,
            };
            return State::At(Place::Looking(BlockAt { walk, counts }));
        }
        if walk.passes > 0 {
            let walk = Walk {
                called: walk.called,
                first: walk.first,
                count: walk.count,
                passes: walk.passes - 1,
                block: walk.first,
                rest: walk.count - 1,
            };
            return State::At(Place::Looking(BlockAt { walk, counts }));
        }
        State::Over(self.outcome(counts))
    }

    // The outcome of a nandtest with these counts.
    fn outcome(&self, counts: Counts) -> Outcome
        ensures { result ≡ Outcome.NandTest self.now.walk.called.passes counts.blocks counts.bad
            counts.worn counts.mismatched counts.corrected counts.failed }
    {
        Outcome::NandTest {
            passes: u64::from(self.walk.called.passes),
            blocks: counts.blocks,
            bad: counts.bad,
            worn: counts.worn,
            mismatched: counts.mismatched,
            corrected: counts.corrected,
            failed: counts.failed,
        }
    }

    // The block is bad, or was refused.
    fn refused(self) -> State<Place>
        ensures { (g : Sizes) (kept : List ℕ) → state_left (place_left g kept) result
            ≡ refused_left g self }
    {
        self.next(Counts {
            bad: self.counts.bad.saturating_add(1),
            ..self.counts
        })
    }

    // The block has passed.
    fn passed(self) -> State<Place>
        ensures { (g : Sizes) (kept : List ℕ) → state_left (place_left g kept) result
            ≡ passed_left g self }
    {
        self.next(Counts {
            blocks: self.counts.blocks.saturating_add(1),
            ..self.counts
        })
    }

    // The block failed or read differently: with `-m` it is marked.
    fn worn(self) -> State<Place>
        ensures { (g : Sizes) (kept : List ℕ) → state_left (place_left g kept) result
            ≡ worn_left g self }
    {
        let counts = Counts {
            worn: self.counts.worn.saturating_add(1),
            ..self.counts
        };
        if self.walk.called.mark {
            State::At(Place::Marking(BlockAt { counts, ..self }))
        } else {
            self.next(counts)
        }
    }

    // Where the command stands after the reply to the question for the block's state, where no body
    // is kept.
    fn looked(self, g: &Geometry, reply: &Reply) -> State<Place>
        ensures { state_left (place_left g.now []) result
            ≡ after_replies (reply.now ∷ []) (look_left g.now self) }
    {
        if tells_bad(reply) {
            self.refused()
        } else if self.walk.called.keep {
            State::At(Place::Keeping(self.first_page(g)))
        } else {
            State::At(Place::Erasing(self, Bodies::OfThePass))
        }
    }

    // Where the command stands after the reply to an erase or a write: here, if that was done, else
    // past the block.
    fn changed(self, reply: &Reply, done: State<Place>) -> State<Place>
        ensures { (g : Sizes) (kept : List ℕ) → state_left (place_left g kept) result
            ≡ next_script reply.now (state_left (place_left g kept) done) (worn_left g self)
            (refused_left g self) }
    {
        match reply {
            Reply::ProgramFailed | Reply::EraseFailed => self.worn(),
            Reply::BadBlock => self.refused(),
            _ => done,
        }
    }

    // Where the command stands after the reply to the block's erase.
    fn erased(self, g: &Geometry, bodies: Bodies, reply: &Reply) -> State<Place>
        ensures { (kept : List ℕ) → state_left (place_left g.now kept) result
            ≡ after_replies (reply.now ∷ []) (change_left g.now kept self bodies) }
    {
        let page = self.first_page(g);
        self.changed(reply, State::At(Place::Writing(page, bodies)))
    }

    // Each page is written.
    fn all_written(self, g: &Geometry, bodies: Bodies) -> State<Place>
        ensures { (kept : List ℕ) → state_left (place_left g.now kept) result
            ≡ written_left g.now kept self bodies }
    {
        match bodies {
            Bodies::OfThePass => State::At(Place::Comparing(self.first_page(g), false)),
            Bodies::Kept => self.passed(),
        }
    }

    // Each page is compared: with `-k` the kept bodies are written back, unless one differed.
    fn all_compared(self, differ: bool) -> State<Place>
        ensures { (g : Sizes) (kept : List ℕ) → state_left (place_left g kept) result
            ≡ compared_left g kept self differ (counts_of self.counts) }
    {
        if differ {
            self.worn()
        } else if self.walk.called.keep {
            State::At(Place::Erasing(self, Bodies::Kept))
        } else {
            self.passed()
        }
    }
}

impl PageAt {
    ghost use Rattle.nand_model.specs.declared.geometry.Geometry.{Geometry as Sizes};
    ghost use Rattle.command_model.specs.Command.{Do, after_replies, next_in};
    ghost use Rattle.command_model.specs.NandTest.{page_at};
    ghost use Rattle.tool_steps.specs.Steps.{state_left};
    ghost use Rattle.tool_steps.specs.Testing.{body_left, compare_left, place_left, write_left};

    // The number of the page.
    fn page(&self, g: &Geometry) -> u32
        ensures { result ≡ page_at g.now self.now.at.walk.block self.now.place }
    {
        self.at.walk.block * g.pages_per_block + self.place
    }

    // The read of the page.
    fn read(&self, g: &Geometry) -> Op
        ensures { result ≡ Op.Read self.now.at.walk.called.dev
            (page_at g.now self.now.at.walk.block self.now.place) }
    {
        Op::Read {
            dev: self.at.walk.called.dev,
            page: self.page(g),
        }
    }

    // The write of one of these bodies to the page; its free bytes are 0xFF.
    fn write(
        &self,
        alloc: Global,
        g: &Geometry,
        bodies: Bodies,
        kept: &[u8],
    ) -> Result<Op, AllocError>
        ensures { IfOk result (λ op. next_in (write_left g.now kept.now self.now bodies)
            ≡ Do op) }
    {
        let page = self.page(g);
        let body = match bodies {
            Bodies::OfThePass => test_body(alloc, g, self.at.seed(), page)?,
            Bodies::Kept => kept_body(alloc, g, kept, self.place)?,
        };
        Ok(Op::Write {
            dev: self.at.walk.called.dev,
            page,
            body,
            free: erased_free(alloc, g)?,
        })
    }

    // The next page of the block, with the counts before it.
    fn next(self, counts: Counts) -> PageAt
        requires { 1 ≤ self.rest }
        ensures at { result.at ≡ record self.at { counts = counts } }
        ensures place { result.place ≡ self.place + 1 }
        ensures rest { suc result.rest ≡ self.rest }
    {
        PageAt {
            at: BlockAt { counts, ..self.at },
            place: self.place + 1,
            rest: self.rest - 1,
        }
    }

    // Where the command stands after the reply to the write of the page.
    fn written(self, g: &Geometry, bodies: Bodies, reply: &Reply) -> State<Place>
        ensures { (kept : List ℕ) → state_left (place_left g.now kept) result
            ≡ after_replies (reply.now ∷ []) (write_left g.now kept self bodies) }
    {
        if self.rest == 0 {
            return self.at.changed(reply, self.at.all_written(g, bodies));
        }
        let next = self.next(self.at.counts);
        self.at
            .changed(reply, State::At(Place::Writing(next, bodies)))
    }

    // Where the command stands after the reply to the read of a page that is compared; `differ`
    // tells whether one before it in the block differed.
    fn compared(self, g: &Geometry, differ: bool, reply: &Reply) -> State<Place>
        ensures { (kept : List ℕ) → state_left (place_left g.now kept) result
            ≡ after_replies (reply.now ∷ []) (compare_left g.now kept self differ) }
    {
        let body = page_body(g, reply);
        let differs = !is_test_body(g, self.at.seed(), self.page(g), body);
        let differ = differ | differs;
        let counts = self.at.counts.with_compared(differs, reply);
        if self.rest == 0 {
            return BlockAt { counts, ..self.at }.all_compared(differ);
        }
        State::At(Place::Comparing(self.next(counts), differ))
    }
}

// The free bytes of a page that takes a body alone.
fn erased_free(alloc: Global, g: &Geometry) -> Result<Bytes, AllocError>
    ensures { IfOk result (λ free. free ≡ replicate (parity_start g.now - 2) 0xff) }
{
    Bytes::filled(alloc, 0xff, g.parity_start() as usize - 2)
}

impl Place {
    ghost use Rattle.command_model.specs.Command.{Do, after_replies, next_in};
    ghost use Rattle.tool_steps.specs.Steps.{is_over};
    ghost use Rattle.tool_steps.specs.Testing.{place_left};

    /// The operation whose reply is waited for.
    pub fn op(self, alloc: Global, g: &Geometry, kept: &[u8]) -> Result<Op, AllocError>
        ensures { IfOk result (λ op. next_in (place_left g.now kept.now self) ≡ Do op) }
    {
        match self {
            Place::Looking(at) => Ok(Op::IsBad {
                dev: at.walk.called.dev,
                block: at.walk.block,
            }),
            Place::Keeping(page) | Place::Comparing(page, _) => Ok(page.read(g)),
            Place::Erasing(at, _) => Ok(at.erase()),
            Place::Writing(page, bodies) => page.write(alloc, g, bodies, kept),
            Place::Marking(at) => Ok(Op::Mark {
                dev: at.walk.called.dev,
                block: at.walk.block,
            }),
        }
    }

    /// Whether the command is over after the reply.
    pub fn ends_at(self, g: &Geometry, reply: &Reply) -> bool
        ensures { (kept : List ℕ) → result
            ≡ is_over (next_in (after_replies (reply.now ∷ []) (place_left g.now kept self))) }
    {
        match self {
            Place::Looking(at) => matches!(at.looked(g, reply), State::Over(_)),
            Place::Keeping(_) => false,
            Place::Erasing(at, bodies) => matches!(at.erased(g, bodies, reply), State::Over(_)),
            Place::Writing(page, bodies) => {
                matches!(page.written(g, bodies, reply), State::Over(_))
            }
            Place::Comparing(page, differ) => {
                matches!(page.compared(g, differ, reply), State::Over(_))
            }
            Place::Marking(at) => matches!(at.next(at.counts), State::Over(_)),
        }
    }
}

impl Testing {
    ghost use Rattle.command_model.specs.Command.{Do, after_replies, next_in};
    ghost use Rattle.command_model.specs.Runnable.{TestsBlocks};
    ghost use Rattle.tool_steps.specs.Steps.{state_left, TurnsTo};
    ghost use Rattle.tool_steps.specs.Testing.{keep_left, look_left, place_left, test_from_start, test_mode, testing_left};

    /// nandtest at its start, of the blocks from the offset `off` on, so many bytes of bodies or
    /// all. With `-k` it takes the room of one block's bodies.
    pub fn start(
        alloc: Global,
        g: &Geometry,
        called: Called,
        blocks: u32,
        off: u64,
        len: u64,
    ) -> Result<Testing, AllocError>
        requires { TestsBlocks g.now blocks called.passes off len }
        ensures { IfOk result (λ testing. testing_left g.now testing
            ≡ test_from_start g.now (test_mode called) blocks off len) }
    {
        let first = (off / block_len(g)) as u32;
        let count = blocks_in_range(g, blocks, off, len);
        let walk = Walk {
            called,
            first,
            count,
            passes: called.passes - 1,
            block: first,
            rest: count - 1,
        };
        let counts = Counts {
            blocks: 0,
            bad: 0,
            worn: 0,
            mismatched: 0,
            corrected: 0,
            failed: 0,
        };
        let room = if called.keep {
            block_len(g) as usize
        } else {
            0
        };
        Ok(Testing {
            place: Place::Looking(BlockAt { walk, counts }),
            kept: Bytes::with_room(alloc, room)?,
        })
    }

    /// The operation whose reply is waited for.
    pub fn op(&self, alloc: Global, g: &Geometry) -> Result<Op, AllocError>
        ensures { IfOk result (λ op. next_in (testing_left g.now self.now) ≡ Do op) }
    {
        self.place.op(alloc, g, self.kept.as_slice())
    }

    /// The command takes the reply. Where memory runs out, it is as before.
    pub fn answered(
        &mut self,
        alloc: Global,
        g: &Geometry,
        reply: &Reply,
    ) -> Result<Turn, AllocError>
        ensures turn { IfOk result (λ turn. TurnsTo turn (testing_left g.now self.new)
            (after_replies (reply.now ∷ []) (testing_left g.now self.old))) }
        ensures no_memory { OnErr result (self.new ≡ self.old) }
    {
        match self.place {
            Place::Looking(at) => self.looked(alloc, g, at, reply),
            Place::Keeping(page) => self.page_kept(g, page, reply),
            Place::Erasing(at, bodies) => self.stands(alloc, g, at.erased(g, bodies, reply)),
            Place::Writing(page, bodies) => self.stands(alloc, g, page.written(g, bodies, reply)),
            Place::Comparing(page, differ) => {
                self.stands(alloc, g, page.compared(g, differ, reply))
            }
            Place::Marking(at) => self.stands(alloc, g, at.next(at.counts)),
        }
    }

    // The command stands here, with the bodies that it has kept.
    fn stands(
        &mut self,
        alloc: Global,
        g: &Geometry,
        state: State<Place>,
    ) -> Result<Turn, AllocError>
        ensures turn { IfOk result (λ turn. TurnsTo turn (testing_left g.now self.new)
            (state_left (place_left g.now self.old.kept) state)) }
        ensures no_memory { OnErr result (self.new ≡ self.old) }
    {
        match state {
            State::At(later) => {
                let op = later.op(alloc, g, self.kept.as_slice())?;
                self.place = later;
                Ok(Turn::Ask(op))
            }
            State::Over(outcome) => Ok(Turn::End(outcome)),
        }
    }

    // The block is known to be good or bad, and no body of it is kept.
    fn looked(
        &mut self,
        alloc: Global,
        g: &Geometry,
        at: BlockAt,
        reply: &Reply,
    ) -> Result<Turn, AllocError>
        ensures turn { IfOk result (λ turn. TurnsTo turn (testing_left g.now self.new)
            (after_replies (reply.now ∷ []) (look_left g.now at))) }
        ensures no_memory { OnErr result (self.new ≡ self.old) }
    {
        match at.looked(g, reply) {
            State::At(later) => {
                let op = later.op(alloc, g, &[])?;
                self.kept.clear();
                self.place = later;
                Ok(Turn::Ask(op))
            }
            State::Over(outcome) => Ok(Turn::End(outcome)),
        }
    }

    // The body in the reply is kept.
    fn page_kept(&mut self, g: &Geometry, page: PageAt, reply: &Reply) -> Result<Turn, AllocError>
        ensures turn { IfOk result (λ turn. TurnsTo turn (testing_left g.now self.new)
            (after_replies (reply.now ∷ []) (keep_left g.now self.old.kept page))) }
        ensures no_memory { OnErr result (self.new ≡ self.old) }
    {
        self.kept.push_slice(page_body(g, reply))?;
        let counts = page.at.counts.with_page(reply);
        if page.rest == 0 {
            let at = BlockAt { counts, ..page.at };
            self.place = Place::Erasing(at, Bodies::OfThePass);
            return Ok(Turn::Ask(at.erase()));
        }
        let next = page.next(counts);
        self.place = Place::Keeping(next);
        Ok(Turn::Ask(next.read(g)))
    }
}
