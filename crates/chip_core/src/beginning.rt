// How an operation begins: with its refusal, with its reply, or with its first event.
ghost use Rattle.std.specs.Prelude.{◌≡◌, ◌<◌, ◌≤◌, ◌+◌, ℕ, Some, None, length, slice_range, take, IfSome, IfOk};
ghost use Rattle.chip_paths.specs.Operation.{Known, Finished, mark_block};
ghost use Rattle.nand_model.specs.Partitions.{device_of, part_of};
ghost use Rattle.nand_model.specs.Page.{page_image, FillsPlaces};
ghost use Rattle.nand_model.specs.Path.{Path};
ghost use Rattle.nand_model.specs.Sizes.{page_count, raw_len};
ghost use Rattle.nand_model.specs.declared.words.Op.TheVariants.{Stats as AsksStats};
ghost use Rattle.command_model.specs.Taken.{IsTaken};
ghost use Rattle.chip_core.specs.Begin.{HasDevice, read_device};
ghost use Rattle.chip_core.specs.Beginning.{Begins, StandsFor, erase_from, in_range, on_page, raw_read_from, raw_write_from, read_from, state_from, write_from};

use crate::knowledge::Knowledge;
use crate::task::Task;
use mtd_part::Parts;
use nand_iface::{Op, PageCode, Reply};
use nand_model::{Bytes, Geometry};
use std::alloc::{AllocError, Global};

/// An operation on a chip of which this is known, with all the memory that it needs.
pub fn begin<C: PageCode>(
    alloc: Global,
    code: &C,
    known: &Knowledge,
    parts: &Parts,
    op: &Op,
) -> Result<Task, AllocError>
    requires device { HasDevice known.now.geometry parts.now (device_of op.now) }
    requires taken { IsTaken known.now.geometry op.now }
    ensures { IfOk result (λ task. Begins known.now parts.now op.now task) }
{
    let g = &known.geometry;
    match op {
        Op::Read { dev, page } => read(alloc, known, *dev, page_of(g, parts, *dev, *page)),
        Op::Write {
            dev,
            page,
            body,
            free,
        } => {
            let page = page_of(g, parts, *dev, *page);
            write(alloc, code, known, page, body.as_slice(), free.as_slice())
        }
        Op::RawRead { dev, page } => raw_read(alloc, known, page_of(g, parts, *dev, *page)),
        Op::RawWrite { dev, page, image } => {
            let page = page_of(g, parts, *dev, *page);
            raw_write(alloc, known, page, image.as_slice())
        }
        Op::Erase { dev, block } => Ok(erase(known, parts.block(*dev, *block))),
        Op::IsBad { dev, block } => Ok(is_bad(known, parts.block(*dev, *block))),
        Op::Stats { dev } => Ok(stats(known, parts, *dev)),
        Op::Mark { dev, block } => mark(alloc, known, parts.block(*dev, *block)),
    }
}

// The chip's page of a page of a device. None comes exactly where the device has no such page.
fn page_of(g: &Geometry, parts: &Parts, dev: u32, page: u32) -> Option<u32>
    requires { HasDevice g.now parts.now dev }
    ensures place { (k : Known) (go_on : ℕ → Path Finished) → in_range k result go_on
        ≡ on_page g.now k (part_of parts.now dev) page go_on }
    ensures there { IfSome result (λ p. p < page_count g.now) }
{
    parts.page(dev, page, g.pages_per_block)
}

// A read of a page through its code.
fn read(alloc: Global, known: &Knowledge, dev: u32, page: Option<u32>) -> Result<Task, AllocError>
    requires { IfSome page (λ p. p < page_count known.now.geometry) }
    ensures { IfOk result (λ task. StandsFor known.now
        (λ k. in_range k page (read_from known.now.geometry k dev)) (Some dev) task) }
{
    let Some(page) = page else {
        return Ok(Task::AtOnce(Reply::OutOfRange));
    };
    let cells = Bytes::filled(alloc, 0, known.geometry.raw_len() as usize)?;
    Ok(Task::Decoding { dev, page, cells })
}

// A write of a body and free bytes, whose image is made here.
fn write<C: PageCode>(
    alloc: Global,
    code: &C,
    known: &Knowledge,
    page: Option<u32>,
    body: &[u8],
    free: &[u8],
) -> Result<Task, AllocError>
    requires page { IfSome page (λ p. p < page_count known.now.geometry) }
    requires filled { FillsPlaces known.now.geometry body.now free.now }
    ensures { IfOk result (λ task. StandsFor known.now
        (λ k. in_range k page (write_from known.now.geometry k body.now free.now)) None task) }
{
    let Some(page) = page else {
        return Ok(Task::AtOnce(Reply::OutOfRange));
    };
    let g = &known.geometry;
    if !known.is_good(page / g.pages_per_block) {
        return Ok(Task::AtOnce(Reply::BadBlock));
    }
    let image = image_of(alloc, code, g, body, free)?;
    Ok(Task::Programming { page, image })
}

// The image of a page with this body and these free bytes.
fn image_of<C: PageCode>(
    alloc: Global,
    code: &C,
    g: &Geometry,
    body: &[u8],
    free: &[u8],
) -> Result<Bytes, AllocError>
    requires { FillsPlaces g.now body.now free.now }
    ensures image { IfOk result (λ image. image ≡ page_image g.now body.now free.now) }
    ensures whole { IfOk result (λ image. length image ≡ raw_len g.now) }
{
    let mut image = Bytes::filled(alloc, 0xff, g.raw_len() as usize)?;
    let bytes = image.as_mut_slice();
    put(bytes, body, free);
    code.encode(g, bytes);
    Ok(image)
}

// Puts a body and free bytes into their places in a page: two marker bytes stand between them.
fn put(image: &mut [u8], body: &[u8], free: &[u8])
    requires { length body.now + 2 + length free.now ≤ length image.old }
    ensures body { take (length body.now) image.new ≡ body.now }
    ensures free { slice_range image.new (length body.now + 2)
        (length body.now + 2 + length free.now) ≡ free.now }
{
    let start = body.len() + 2;
    image[..body.len()].copy_from_slice(body);
    image[start..start + free.len()].copy_from_slice(free);
}

// A read of a page as it stands.
fn raw_read(alloc: Global, known: &Knowledge, page: Option<u32>) -> Result<Task, AllocError>
    requires { IfSome page (λ p. p < page_count known.now.geometry) }
    ensures { IfOk result (λ task. StandsFor known.now
        (λ k. in_range k page (raw_read_from k)) None task) }
{
    let Some(page) = page else {
        return Ok(Task::AtOnce(Reply::OutOfRange));
    };
    let cells = Bytes::filled(alloc, 0, known.geometry.raw_len() as usize)?;
    Ok(Task::Reading { page, cells })
}

// A write of a whole page as it is. A bad block is refused before a marker byte in the image.
fn raw_write(
    alloc: Global,
    known: &Knowledge,
    page: Option<u32>,
    image: &[u8],
) -> Result<Task, AllocError>
    requires page { IfSome page (λ p. p < page_count known.now.geometry) }
    requires whole { length image.now ≡ raw_len known.now.geometry }
    ensures { IfOk result (λ task. StandsFor known.now
        (λ k. in_range k page (raw_write_from known.now.geometry k image.now)) None task) }
{
    let Some(page) = page else {
        return Ok(Task::AtOnce(Reply::OutOfRange));
    };
    let g = &known.geometry;
    if !known.is_good(page / g.pages_per_block) {
        return Ok(Task::AtOnce(Reply::BadBlock));
    }
    if image[g.page as usize] != 0xff {
        return Ok(Task::AtOnce(Reply::MarkerByte));
    }
    let image = Bytes::from_slice(alloc, image)?;
    Ok(Task::Programming { page, image })
}

// An erase of a block.
fn erase(known: &Knowledge, block: Option<u32>) -> Task
    requires { IfSome block (λ b. b < known.now.geometry.blocks) }
    ensures { StandsFor known.now (λ k. in_range k block (erase_from k)) None result }
{
    match block {
        None => Task::AtOnce(Reply::OutOfRange),
        Some(block) if known.is_good(block) => Task::Erasing { block },
        Some(_) => Task::AtOnce(Reply::BadBlock),
    }
}

// A mark of a block. A reserved block is refused, and so is one of a chip with tables of which fewer
// than two copies are whole. A block that is bad already is done at once.
fn mark(alloc: Global, known: &Knowledge, block: Option<u32>) -> Result<Task, AllocError>
    requires { IfSome block (λ b. b < known.now.geometry.blocks) }
    ensures { IfOk result (λ task. StandsFor known.now
        (λ k. in_range k block (mark_block known.now.geometry k)) None task) }
{
    let Some(block) = block else {
        return Ok(Task::AtOnce(Reply::OutOfRange));
    };
    if known.is_reserved(block) {
        return Ok(Task::AtOnce(Reply::Reserved));
    }
    if known.geometry.bbt != 0 && known.copies < 2 {
        return Ok(Task::AtOnce(Reply::Copies(known.copies)));
    }
    if !known.is_good(block) {
        return Ok(Task::AtOnce(Reply::Done));
    }
    let image = Bytes::filled(alloc, 0, known.geometry.raw_len() as usize)?;
    Ok(Task::Marking { block, image })
}

// A question for the state of a block.
fn is_bad(known: &Knowledge, block: Option<u32>) -> Task
    requires { IfSome block (λ b. b < known.now.geometry.blocks) }
    ensures { StandsFor known.now (λ k. in_range k block (state_from k)) None result }
{
    match block {
        None => Task::AtOnce(Reply::OutOfRange),
        Some(block) => Task::AtOnce(Reply::State(known.state(block))),
    }
}

// A question for the statistics of a device.
fn stats(known: &Knowledge, parts: &Parts, dev: u32) -> Task
    requires { HasDevice known.now.geometry parts.now dev }
    ensures { Begins known.now parts.now (AsksStats dev) result }
{
    match parts.get(dev) {
        None => Task::AtOnce(Reply::OutOfRange),
        Some(part) => {
            let stats = known.sums.get(dev);
            Task::AtOnce(Reply::Counts {
                corrected: stats.corrected,
                failed: stats.failed,
                bad: known.bad_in(part),
            })
        }
    }
}
