// A device and operations for tests: each operation is tested for what a chip needs of it, and its
// reply is told in short.
ghost use Rattle.std.specs.Prelude.{◌≡◌, ◌<◌, ◌*◌, true, length, All, IfOk, IsTrue};
ghost use Rattle.nand_model.specs.Sizes.{page_count, raw_len};
ghost use Rattle.chip_paths.specs.Stage.{is_resting};
ghost use Rattle.nand_model.specs.Page.{FillsPlaces};
ghost use Rattle.chip_core.specs.Begin.{CanBegin, HasDevice};
ghost use Rattle.chip_core.specs.Chip.{chip_stage, chip_state};
ghost use Rattle.chip_core.specs.Sums.{AreSmall};

use chip_core::{Chip, Fairness, Flash, Op, PageCode, Parts, Reply, Stats, attach, perform};
use nand_iface::PageKind;
use nand_model::{BlockList, Bytes, Geometry, Part, Which};
use std::alloc::{AllocError, Global};
use std::test::Fail;

/// One device, of so many blocks of a chip of eight from this one on.
pub fn device_of(alloc: Global, start: u32, count: u32) -> Result<Parts, Fail> {
    let mut parts = Parts::new(alloc, 0);
    let chip = 0;
    parts.add(Part { chip, start, count }, 8)?;
    Ok(parts)
}

/// An operation on the one device, whose pages have 2,048 bytes, a spare of 64 and 34 free bytes;
/// or flips.
#[derive(Clone, Copy)]
pub enum Ask {
    IsBad(u32),
    Mark(u32),
    Erase(u32),
    Read(u32),
    /// A page whose body and free bytes are all this byte.
    Write(u32, u8),
    RawRead(u32),
    /// A page of 2,112 bytes that are all the last one but for the first.
    RawWrite(u32, u8, u8),
    Stats,
    /// Bits of a page of the chip.
    Flip(u32, &'static [u32]),
}

/// A reply in short.
#[derive(Clone, Copy, Debug, PartialEq, Eq)]
pub enum Told {
    Done,
    OutOfRange,
    BadBlock,
    MarkerByte,
    ProgramFailed,
    EraseFailed,
    MarkerFailed,
    TableFailed(Which),
    Reserved,
    Copies(u32),
    State(u32),
    /// The kind of a page, its corrected bits, the most of a step, its failed steps, and its first
    /// byte.
    Page(PageKind, u32, u32, u32, u8),
    /// The corrected bits, the failed steps, and the bad blocks of the device.
    Counts(u64, u64, u32),
}

// The operation that is asked for.
fn op_of(alloc: Global, ask: Ask) -> Result<Op, AllocError> {
    let dev = 0;
    match ask {
        Ask::IsBad(block) => Ok(Op::IsBad { dev, block }),
        Ask::Mark(block) => Ok(Op::Mark { dev, block }),
        Ask::Erase(block) => Ok(Op::Erase { dev, block }),
        Ask::Read(page) => Ok(Op::Read { dev, page }),
        Ask::Write(page, byte) => {
            let body = Bytes::filled(alloc, byte, 2048)?;
            let free = Bytes::filled(alloc, byte, 34)?;
            Ok(Op::Write {
                dev,
                page,
                body,
                free,
            })
        }
        Ask::RawRead(page) => Ok(Op::RawRead { dev, page }),
        Ask::RawWrite(page, first, rest) => {
            let mut image = Bytes::filled(alloc, rest, 2112)?;
            image.as_mut_slice()[0] = first;
            Ok(Op::RawWrite { dev, page, image })
        }
        Ask::Stats | Ask::Flip(..) => Ok(Op::Stats { dev }),
    }
}

// Whether the device is there, within the chip.
fn has_device(g: &Geometry, parts: &Parts, dev: u32) -> bool
    ensures { IsTrue result → HasDevice g.now parts.now dev }
{
    match parts.get(dev) {
        Some(part) => part.start + part.count <= g.blocks,
        None => false,
    }
}

// Whether statistics have room for the counts of one more page.
fn are_small(stats: Stats) -> bool
    ensures { IsTrue result → AreSmall stats }
{
    stats.corrected < 1000 && stats.failed < 1000
}

// Whether a body and free bytes fill their places in a page.
fn fills_places(g: &Geometry, body: &[u8], free: &[u8]) -> bool
    ensures { IsTrue result → FillsPlaces g.now body.now free.now }
{
    body.len() == g.page as usize && 2 + free.len() == g.parity_start() as usize
}

/// Whether a chip takes the operation.
pub fn can_begin<F: Flash, C: PageCode>(chip: &Chip<F, C>, parts: &Parts, op: &Op) -> bool
    ensures { IsTrue result →
        CanBegin (chip_state chip.now).geometry parts.now (chip_stage chip.now) op.now }
{
    let g = chip.geometry();
    match op {
        Op::Read { dev, .. } => has_device(&g, parts, *dev) && are_small(chip.stats(*dev)),
        Op::Write {
            dev,
            body,
            free,
            ..
        } => has_device(&g, parts, *dev) && fills_places(&g, body.as_slice(), free.as_slice()),
        Op::RawRead { dev, .. } => has_device(&g, parts, *dev),
        Op::RawWrite { dev, image, .. } => {
            has_device(&g, parts, *dev) && image.as_slice().len() == g.raw_len() as usize
        }
        Op::Erase { dev, .. } => has_device(&g, parts, *dev),
        Op::IsBad { dev, .. } => has_device(&g, parts, *dev),
        Op::Stats { dev } => has_device(&g, parts, *dev),
        Op::Mark { dev, .. } => has_device(&g, parts, *dev),
    }
}

// The operation that is asked for, which the chip takes.
fn op_for<F: Flash, C: PageCode>(
    alloc: Global,
    chip: &Chip<F, C>,
    parts: &Parts,
    ask: Ask,
) -> Result<Op, Fail>
    ensures { IfOk result (λ op. CanBegin (chip_state chip.now).geometry parts.now
        (chip_stage chip.now) op) }
{
    let op = op_of(alloc, ask)?;
    if !can_begin(chip, parts, &op) {
        return Err("the chip does not take the operation".into());
    }
    Ok(op)
}

/// Performs an operation, and tells its reply in short; or flips bits.
pub fn reply_to<F: Flash, C: PageCode>(
    chip: &mut Chip<F, C>,
    alloc: Global,
    parts: &Parts,
    ask: Ask,
) -> Result<Told, Fail>
    requires { is_resting (chip_stage chip.old) ≡ true }
    ensures { is_resting (chip_stage chip.new) ≡ true }
{
    if let Ask::Flip(page, bits) = ask {
        flip_all(chip, alloc, page, bits)?;
        return Ok(Told::Done);
    }
    let op = op_for(alloc, chip, parts, ask)?;
    Ok(in_short(&perform(chip, parts, &op)?))
}

/// Performs operations on a chip without tables, and gives the place of the first one whose reply is
/// another than the one beside it, with that reply.
pub fn first_other_reply<F: Flash, C: PageCode>(
    alloc: Global,
    flash: F,
    code: C,
    rows: &[(Ask, Told)],
) -> Result<Option<(usize, Told)>, Fail>
    requires { (F.state flash).geometry.bbt ≡ 0 }
{
    let parts = device_of(alloc, 4, 2)?;
    let mut chip = attach(alloc, flash, code)?;
    first_other_of(&mut chip, alloc, &parts, rows)
}

// The same of a chip that is attached.
fn first_other_of<F: Flash, C: PageCode>(
    chip: &mut Chip<F, C>,
    alloc: Global,
    parts: &Parts,
    rows: &[(Ask, Told)],
) -> Result<Option<(usize, Told)>, Fail>
    requires { is_resting (chip_stage chip.old) ≡ true }
{
    for (place, (ask, want)) in rows.iter().enumerate() {
        let told = reply_to(chip, alloc, parts, *ask)?;
        if told != *want {
            return Ok(Some((place, told)));
        }
    }
    Ok(None)
}

/// Begins an operation.
pub fn begin<F: Flash, C: PageCode>(
    chip: &mut Chip<F, C>,
    alloc: Global,
    parts: &Parts,
    ask: Ask,
) -> Result<(), Fail>
    requires { is_resting (chip_stage chip.old) ≡ true }
{
    let op = op_for(alloc, chip, parts, ask)?;
    chip.begin(parts, &op)?;
    Ok(())
}

/// Does the first event of an operation on a chip without tables, and gives what is told of its
/// failure.
pub fn told_of_failure<F: Flash, C: PageCode>(
    alloc: Global,
    flash: F,
    code: C,
    ask: Ask,
) -> Result<Option<Fairness>, Fail>
    requires { (F.state flash).geometry.bbt ≡ 0 }
{
    let parts = device_of(alloc, 4, 2)?;
    let mut chip = attach(alloc, flash, code)?;
    failure_of(&mut chip, alloc, &parts, ask)
}

// The same of a chip that is attached.
fn failure_of<F: Flash, C: PageCode>(
    chip: &mut Chip<F, C>,
    alloc: Global,
    parts: &Parts,
    ask: Ask,
) -> Result<Option<Fairness>, Fail>
    requires { is_resting (chip_stage chip.old) ≡ true }
{
    begin(chip, alloc, parts, ask)?;
    if chip.next_event().is_none() {
        return Err("the operation has no event".into());
    }
    Ok(chip.advance())
}

/// Flips bits of a page of a chip of 512 pages of 2,112 bytes.
pub fn flip_all<F: Flash, C: PageCode>(
    chip: &mut Chip<F, C>,
    alloc: Global,
    page: u32,
    bits: &[u32],
) -> Result<(), Fail>
    ensures { chip_stage chip.new ≡ chip_stage chip.old }
{
    for bit in bits {
        flip(chip, alloc, page, *bit)?;
    }
    Ok(())
}

// Flips a bit.
fn flip<F: Flash, C: PageCode>(
    chip: &mut Chip<F, C>,
    alloc: Global,
    page: u32,
    bit: u32,
) -> Result<(), Fail>
    ensures { chip_stage chip.new ≡ chip_stage chip.old }
{
    if !has_bit(&chip.geometry(), page, bit) {
        return Err("the chip has no such bit".into());
    }
    let mut bits = BlockList::new(alloc);
    bits.push(bit)?;
    chip.reserve(1, 1)?;
    chip.flip(page, &bits);
    Ok(())
}

// Whether a chip of 512 pages of 2,112 bytes has this bit.
fn has_bit(g: &Geometry, page: u32, bit: u32) -> bool
    ensures page { IsTrue result → page < page_count g.now }
    ensures bit { IsTrue result → bit < 8 * raw_len g.now }
{
    let sizes = (g.blocks, g.pages_per_block, g.page, g.spare);
    sizes == (8, 64, 2048, 64) && page < 512 && bit < 16896
}

/// A reply in short.
pub fn in_short(reply: &Reply) -> Told {
    match reply {
        Reply::Done => Told::Done,
        Reply::OutOfRange => Told::OutOfRange,
        Reply::BadBlock => Told::BadBlock,
        Reply::MarkerByte => Told::MarkerByte,
        Reply::ProgramFailed => Told::ProgramFailed,
        Reply::EraseFailed => Told::EraseFailed,
        Reply::MarkerFailed => Told::MarkerFailed,
        Reply::TableFailed(which) => Told::TableFailed(*which),
        Reply::Reserved => Told::Reserved,
        Reply::Copies(copies) => Told::Copies(*copies),
        Reply::State(state) => Told::State(*state),
        Reply::Page { kind, read, image } => {
            let first = image.as_slice().first().copied().unwrap_or(0);
            Told::Page(*kind, read.corrected, read.greatest, read.failed, first)
        }
        Reply::Counts {
            corrected,
            failed,
            bad,
        } => Told::Counts(*corrected, *failed, *bad),
    }
}
