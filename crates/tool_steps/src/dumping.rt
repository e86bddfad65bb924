// nanddump, block after block and page after page.
ghost use Rattle.std.specs.Prelude.{◌≡◌, ◌+◌, ◌-◌, ◌*◌, ◌/◌, ◌≤◌, ◌<◌, ◌++◌, suc, ℕ, List, [], ◌∷◌, IfOk, OnErr};

use crate::copies::unit_len;
use crate::ranges::pages_in_range;
use crate::replies::tells_bad;
use crate::step::Turn;
use nand_model::{BadMode, Bytes, Geometry, Op, Outcome, PageRead, Reply};
use std::alloc::{AllocError, Global};
use std::mem;

/// How nanddump was called.
#[derive(Clone, Copy)]
pub struct Called {
    pub dev: u32,
    pub raw: bool,
    pub oob: bool,
    pub bad: BadMode,
}

/// The counts of nanddump so far.
#[derive(Clone, Copy)]
pub struct Counts {
    pub pages: u64,
    pub bad: u64,
    pub corrected: u64,
    pub failed: u64,
    ghost corrected_few: { corrected ≤ pages * 4294967295 },
    ghost failed_few: { failed ≤ pages * 4294967295 },
}

/// A page to which nanddump has come: its block and its place there, the pages of the range after
/// it in its block and in later blocks, and the counts before it.
#[derive(Clone, Copy)]
pub struct DumpAt {
    pub called: Called,
    pub block: u32,
    pub place: u32,
    pub rest: u32,
    pub later: u32,
    pub counts: Counts,
    ghost in_device: { block + later < 8388608 },
    ghost in_block: { place + rest < 4194304 },
    ghost few: { counts.pages + rest + later < 4194304 },
    ghost bad_before: { counts.bad ≤ block },
}

/// What nanddump waits for.
#[derive(Clone, Copy)]
pub enum Place {
    /// Whether the page's block is bad.
    Looking(DumpAt),
    /// The read of the page.
    Reading(DumpAt),
}

/// nanddump under way: where it stands, and what it has dumped.
#[derive(Drop)]
pub struct Dumping {
    pub place: Place,
    pub dump: Bytes,
}

impl Counts {
    ghost use Rattle.nand_model.specs.declared.geometry.Geometry.{Geometry as Sizes};
    ghost use Rattle.command_model.specs.Command.{with_page_read};
    ghost use Rattle.tool_steps.specs.declared.dumping.Called.{Called as Mode};
    ghost use Rattle.tool_steps.specs.Dumping.{dump_mode, counts_with, page_part};

    // The counts with the page of a reply.
    fn with_page(self, reply: &Reply) -> Counts
        requires { self.pages < 4194304 }
        ensures counts { (g : Sizes) (m : Mode) (dump : List ℕ) →
            counts_with result (dump ++ page_part g m reply.now)
            ≡ with_page_read g (dump_mode m) (counts_with self dump) reply.now }
        ensures pages { result.pages ≤ self.pages + 1 }
        ensures bad { result.bad ≡ self.bad }
    {
        match reply {
            Reply::Page { read, .. } => self.with_read(*read),
            _ => self,
        }
    }

    // The counts with a page that was read.
    fn with_read(self, read: PageRead) -> Counts
        requires { self.pages < 4194304 }
        ensures pages { result.pages ≡ self.pages + 1 }
        ensures bad { result.bad ≡ self.bad }
        ensures corrected { result.corrected ≡ self.corrected + read.corrected }
        ensures failed { result.failed ≡ self.failed + read.failed }
    {
        let PageRead {
            corrected,
            failed,
            ..
        } = read;
        Counts {
            pages: self.pages + 1,
            bad: self.bad,
            corrected: self.corrected + u64::from(corrected),
            failed: self.failed + u64::from(failed),
        }
    }
}

impl DumpAt {
    ghost use Rattle.nand_model.specs.declared.geometry.Geometry.{Geometry as Sizes};
    ghost use Rattle.tool_steps.specs.Dumping.{block_left, counts_with, later_left, pages_left, place_left, read_left};

    /// What comes first in the page's block.
    pub fn first(self) -> Place
        ensures { (g : Sizes) (dump : List ℕ) → place_left g dump result ≡ block_left g self dump }
    {
        match self.called.bad {
            BadMode::DumpBad => Place::Reading(self),
            BadMode::PadBad | BadMode::SkipBad => Place::Looking(self),
        }
    }

    // The next page of the block, with the counts before it.
    fn next(self, counts: Counts) -> DumpAt
        requires some { 1 ≤ self.rest }
        requires pages { counts.pages ≤ self.counts.pages + 1 }
        requires bad { counts.bad ≡ self.counts.bad }
        ensures { (g : Sizes) (dump : List ℕ) → read_left g result dump
            ≡ pages_left g self self.rest (self.block * g.pages_per_block + self.place + 1)
            (counts_with counts dump) }
    {
        DumpAt {
            called: self.called,
            block: self.block,
            place: self.place + 1,
            rest: self.rest - 1,
            later: self.later,
            counts,
        }
    }

    // The next block of the range, with the counts before it.
    fn next_block(self, g: &Geometry, counts: Counts) -> DumpAt
        requires some { 1 ≤ self.later }
        requires pages { counts.pages ≤ self.counts.pages + 1 }
        requires bad { counts.bad ≤ self.block + 1 }
        ensures { (dump : List ℕ) → block_left g.now result dump
            ≡ later_left g.now self (counts_with counts dump) }
    {
        let here = self.later.min(g.pages_per_block);
        DumpAt {
            called: self.called,
            block: self.block + 1,
            place: 0,
            rest: here - 1,
            later: self.later - here,
            counts,
        }
    }
}

impl Place {
    ghost use Rattle.command_model.specs.Command.{Do, after_replies, next_in};
    ghost use Rattle.nand_model.specs.declared.geometry.Geometry.{Geometry as Sizes};
    ghost use Rattle.tool_steps.specs.Steps.{is_over};
    ghost use Rattle.tool_steps.specs.Dumping.{place_left};

    /// The operation whose reply is waited for.
    pub fn op(self, g: &Geometry) -> Op
        ensures { (dump : List ℕ) → next_in (place_left g.now dump self) ≡ Do result }
    {
        match self {
            Place::Looking(at) => Op::IsBad {
                dev: at.called.dev,
                block: at.block,
            },
            Place::Reading(at) => {
                let dev = at.called.dev;
                let page = at.block * g.pages_per_block + at.place;
                if at.called.raw {
                    Op::RawRead { dev, page }
                } else {
                    Op::Read { dev, page }
                }
            }
        }
    }

    /// Whether the command is over after the reply.
    pub fn ends_at(self, reply: &Reply) -> bool
        ensures { (g : Sizes) (dump : List ℕ) → result
            ≡ is_over (next_in (after_replies (reply.now ∷ []) (place_left g dump self))) }
    {
        match self {
            Place::Looking(at) => tells_bad(reply) && at.later == 0,
            Place::Reading(at) => at.rest == 0 && at.later == 0,
        }
    }
}

impl Called {
    ghost use Rattle.tool_steps.specs.Dumping.{page_part, passed_part};

    // The bytes of a reply that are dumped.
    fn part<'a>(&self, g: &Geometry, reply: &'a Reply) -> &'a [u8]
        ensures { result.now ≡ page_part g.now self.now reply.now }
    {
        match reply {
            Reply::Page { image, .. } => {
                let image = image.as_slice();
                if self.oob {
                    image
                } else {
                    &image[..image.len().min(g.page as usize)]
                }
            }
            _ => &[],
        }
    }

    // An empty dump, with room for so many pages.
    fn empty_dump(&self, alloc: Global, g: &Geometry, pages: u32) -> Result<Bytes, AllocError>
        requires { pages ≤ 4194304 }
        ensures { IfOk result (λ bytes. bytes ≡ []) }
    {
        Bytes::with_room(alloc, pages as usize * unit_len(g, self.oob) as usize)
    }

    // What is dumped for so many pages of a bad block.
    fn passed(&self, alloc: Global, g: &Geometry, pages: u32) -> Result<Bytes, AllocError>
        requires { pages ≤ 4194304 }
        ensures { IfOk result (λ bytes. bytes ≡ passed_part g.now self.now pages) }
    {
        let len = match self.bad {
            BadMode::PadBad => pages as usize * unit_len(g, self.oob) as usize,
            BadMode::DumpBad | BadMode::SkipBad => 0,
        };
        Bytes::filled(alloc, 0xff, len)
    }
}

impl Dumping {
    ghost use Rattle.command_model.specs.Command.{Do, after_replies, next_in};
    ghost use Rattle.command_model.specs.Runnable.{DumpsPages};
    ghost use Rattle.tool_steps.specs.Steps.{TurnsTo};
    ghost use Rattle.tool_steps.specs.Dumping.{counts_with, dump_end, dump_from_start, dump_mode, dumping_left, later_left, look_left, place_left, read_left};

    /// nanddump at its start, of the pages from the offset `off` on, so many bytes of bodies or
    /// all. It takes the room of its dump.
    pub fn start(
        alloc: Global,
        g: &Geometry,
        called: Called,
        blocks: u32,
        off: u64,
        len: u64,
    ) -> Result<Dumping, AllocError>
        requires { DumpsPages g.now blocks off len }
        ensures { IfOk result (λ dumping. dumping_left g.now dumping
            ≡ dump_from_start g.now (dump_mode called) blocks off len) }
    {
        let first = (off / u64::from(g.page)) as u32;
        let pages = pages_in_range(g, blocks, off, len);
        let place = first % g.pages_per_block;
        let here = pages.min(g.pages_per_block - place);
        let at = DumpAt {
            called,
            block: first / g.pages_per_block,
            place,
            rest: here - 1,
            later: pages - here,
            counts: Counts {
                pages: 0,
                bad: 0,
                corrected: 0,
                failed: 0,
            },
        };
        Ok(Dumping {
            place: at.first(),
            dump: called.empty_dump(alloc, g, pages)?,
        })
    }

    /// The operation whose reply is waited for.
    pub fn op(&self, g: &Geometry) -> Op
        ensures { next_in (dumping_left g.now self.now) ≡ Do result }
    {
        self.place.op(g)
    }

    /// The command takes the reply. Where memory runs out, it is as before.
    pub fn answered(
        &mut self,
        alloc: Global,
        g: &Geometry,
        reply: &Reply,
    ) -> Result<Turn, AllocError>
        ensures turn { IfOk result (λ turn. TurnsTo turn (dumping_left g.now self.new)
            (after_replies (reply.now ∷ []) (dumping_left g.now self.old))) }
        ensures no_memory { OnErr result (self.new ≡ self.old) }
    {
        match self.place {
            Place::Looking(at) => self.looked(alloc, g, at, reply),
            Place::Reading(at) => self.page_read(alloc, g, at, reply),
        }
    }

    // The page's block is known to be good or bad.
    fn looked(
        &mut self,
        alloc: Global,
        g: &Geometry,
        at: DumpAt,
        reply: &Reply,
    ) -> Result<Turn, AllocError>
        ensures turn { IfOk result (λ turn. TurnsTo turn (dumping_left g.now self.new)
            (after_replies (reply.now ∷ []) (look_left g.now at self.old.dump))) }
        ensures no_memory { OnErr result (self.new ≡ self.old) }
    {
        if !tells_bad(reply) {
            return self.goes_on(g, Place::Reading(at), &[]);
        }
        let mut counts = at.counts;
        counts.bad += 1;
        let part = at.called.passed(alloc, g, at.rest + 1)?;
        self.leave_block(alloc, g, at, counts, part.as_slice())
    }

    // The page is read.
    fn page_read(
        &mut self,
        alloc: Global,
        g: &Geometry,
        at: DumpAt,
        reply: &Reply,
    ) -> Result<Turn, AllocError>
        ensures turn { IfOk result (λ turn. TurnsTo turn (dumping_left g.now self.new)
            (after_replies (reply.now ∷ []) (read_left g.now at self.old.dump))) }
        ensures no_memory { OnErr result (self.new ≡ self.old) }
    {
        let counts = at.counts.with_page(reply);
        let part = at.called.part(g, reply);
        if at.rest == 0 {
            self.leave_block(alloc, g, at, counts, part)
        } else {
            self.goes_on(g, Place::Reading(at.next(counts)), part)
        }
    }

    // This part is dumped, and the later blocks come, or the end.
    fn leave_block(
        &mut self,
        alloc: Global,
        g: &Geometry,
        at: DumpAt,
        counts: Counts,
        part: &[u8],
    ) -> Result<Turn, AllocError>
        requires pages { counts.pages ≤ at.counts.pages + 1 }
        requires bad { counts.bad ≤ at.block + 1 }
        ensures turn { IfOk result (λ turn. TurnsTo turn (dumping_left g.now self.new)
            (later_left g.now at (counts_with counts (self.old.dump ++ part.now)))) }
        ensures no_memory { OnErr result (self.new ≡ self.old) }
    {
        if at.later == 0 {
            self.ended(alloc, counts, part)
        } else {
            self.goes_on(g, at.next_block(g, counts).first(), part)
        }
    }

    // This part is dumped, and the command stands here.
    fn goes_on(&mut self, g: &Geometry, place: Place, part: &[u8]) -> Result<Turn, AllocError>
        ensures turn { IfOk result (λ turn. TurnsTo turn (dumping_left g.now self.new)
            (place_left g.now (self.old.dump ++ part.now) place)) }
        ensures no_memory { OnErr result (self.new ≡ self.old) }
    {
        self.dump.push_slice(part)?;
        self.place = place;
        Ok(Turn::Ask(place.op(g)))
    }

    // This part is dumped, and the command is over.
    fn ended(&mut self, alloc: Global, counts: Counts, part: &[u8]) -> Result<Turn, AllocError>
        ensures turn { IfOk result (λ turn. turn
            ≡ Turn.End (dump_end (counts_with counts (self.old.dump ++ part.now)))) }
        ensures no_memory { OnErr result (self.new ≡ self.old) }
    {
        let empty = Bytes::with_room(alloc, 0)?;
        self.dump.push_slice(part)?;
        Ok(Turn::End(Outcome::NandDump {
            pages: counts.pages,
            bad: counts.bad,
            corrected: counts.corrected,
            failed: counts.failed,
            dump: mem::replace(&mut self.dump, empty),
        }))
    }
}
