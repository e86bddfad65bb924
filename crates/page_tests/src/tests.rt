// Every call of a page's code and of page_ops at a simulated chip, through the traits' bounds.
ghost use Rattle.std.specs.Prelude.{◌≡◌, ◌≤◌, ◌<◌, ◌+◌, IfOk};
ghost use Rattle.nand_iface.specs.Flash.{FitsPage};
ghost use Rattle.chip_sim.specs.State.{sim_room, sim_state};

use chip_sim::SimChip;
use ecc_page::{EccPage, erased_check, mask};
use fault_plan::WeakList;
use nand_iface::{Flash, PageCode, PageKind, PageRead, ProgramFailed};
use nand_model::{BlockList, Geometry};
use page_ops::{EraseError, WriteError, erase, marker, read, read_raw, write, write_raw};
use std::alloc::{AllocError, Global};
use std::test::Fail;

// Writes a page and reads it again.
fn write_and_read<F: Flash, C: PageCode>(
    flash: &mut F,
    code: &C,
    page: u32,
    state: u32,
    image: &mut [u8],
) -> Result<(PageKind, PageRead), WriteError>
    requires place { FitsPage (F.state flash.old).geometry page image.old }
    requires room { 0 < F.room flash.old }
    ensures geometry { (F.state flash.new).geometry ≡ (F.state flash.old).geometry }
    ensures room { F.room flash.old ≤ F.room flash.new + 1 }
{
    write(flash, code, page, state, image)?;
    Ok(read(flash, code, page, image))
}

// Programs a page with an image as it is, and reads it through the code.
fn write_raw_and_read<F: Flash, C: PageCode>(
    flash: &mut F,
    code: &C,
    page: u32,
    state: u32,
    image: &mut [u8],
) -> Result<(PageKind, PageRead), WriteError>
    requires place { FitsPage (F.state flash.old).geometry page image.old }
    requires room { 0 < F.room flash.old }
    ensures geometry { (F.state flash.new).geometry ≡ (F.state flash.old).geometry }
    ensures room { F.room flash.old ≤ F.room flash.new + 1 }
{
    write_raw(flash, page, state, image)?;
    Ok(read(flash, code, page, image))
}

// Marks a block, and reads a page.
fn mark_and_read<F: Flash>(
    flash: &mut F,
    block: u32,
    page: u32,
    image: &mut [u8],
) -> Result<(), ProgramFailed>
    requires block { block < (F.state flash.old).geometry.blocks }
    requires place { FitsPage (F.state flash.old).geometry page image.old }
    requires room { 0 < F.room flash.old }
    ensures geometry { (F.state flash.new).geometry ≡ (F.state flash.old).geometry }
    ensures room { F.room flash.old ≤ F.room flash.new + 1 }
{
    marker(flash, block, image)?;
    read_raw(flash, page, image);
    Ok(())
}

// Erases a block, and reads a page.
fn erase_and_read<F: Flash>(
    flash: &mut F,
    block: u32,
    state: u32,
    page: u32,
    image: &mut [u8],
) -> Result<(), EraseError>
    requires block { block < (F.state flash.old).geometry.blocks }
    requires place { FitsPage (F.state flash.old).geometry page image.old }
    ensures geometry { (F.state flash.new).geometry ≡ (F.state flash.old).geometry }
    ensures room { F.room flash.old ≤ F.room flash.new }
{
    erase(flash, block, state)?;
    read_raw(flash, page, image);
    Ok(())
}

// An erased chip of these sizes, with room for so many pages.
fn erased_chip(alloc: Global, g: Geometry, pages: u32) -> Result<SimChip, AllocError>
    ensures sizes { IfOk result (λ chip. (sim_state chip).geometry ≡ g) }
    ensures room { IfOk result (λ chip. pages ≤ sim_room chip) }
{
    let mut chip = SimChip::new(alloc, g, &BlockList::new(alloc), WeakList::new(alloc))?;
    chip.reserve(pages, 0)?;
    Ok(chip)
}

// The counts of a page without failed steps.
fn counts(corrected: u32, greatest: u32) -> PageRead {
    PageRead {
        corrected,
        greatest,
        failed: 0,
    }
}

// Turns over the bits of a mask in one byte.
fn turn(bytes: &mut [u8], place: usize, bits: u8) {
    if place < bytes.len() {
        bytes[place] ^= bits;
    }
}

// A page is written and read; two and then three bits are turned over in raw writes of it, where
// the threshold is 3.
#[test]
fn writes_and_reads(rt: HostRuntime) -> Result<(), Fail> {
    let alloc = rt.alloc();
    let mut chip = erased_chip(alloc, Geometry::new(2048, 64, 64, 8, 4, 0, 0)?, 4)?;
    let mut image = [0x5au8; 2112];
    let read = write_and_read(&mut chip, &EccPage, 70, 0, &mut image)?;
    assert!(rt; read == (PageKind::Clean, counts(0, 0)));
    assert!(rt; image.get(2047..2051) == Some(&[0x5a, 0xff, 0xff, 0x5a][..]));
    let refused = write_and_read(&mut chip, &EccPage, 71, 1, &mut image);
    assert!(rt; refused == Err(WriteError::BadBlock));

    turn(&mut image, 0, 0x18);
    let read = write_raw_and_read(&mut chip, &EccPage, 71, 0, &mut image)?;
    assert!(rt; read == (PageKind::Clean, counts(2, 2)));
    turn(&mut image, 512, 0x07);
    let read = write_raw_and_read(&mut chip, &EccPage, 72, 0, &mut image)?;
    assert!(rt; read == (PageKind::Bitflips, counts(3, 3)));
    assert!(rt; image.get(0) == Some(&0x5a) && image.get(512) == Some(&0x5a));

    chip.reserve(1, 0)?;
    turn(&mut image, 2048, 0xff);
    let refused = write_raw_and_read(&mut chip, &EccPage, 73, 0, &mut image);
    assert!(rt; refused == Err(WriteError::MarkerByte));
    Ok(())
}

// A block is erased, another is marked.
#[test]
fn erases_and_marks(rt: HostRuntime) -> Result<(), Fail> {
    let alloc = rt.alloc();
    let mut chip = erased_chip(alloc, Geometry::new(2048, 64, 64, 8, 4, 0, 0)?, 2)?;
    let mut image = [0x5au8; 2112];
    write_and_read(&mut chip, &EccPage, 70, 0, &mut image)?;
    assert!(rt; erase_and_read(&mut chip, 1, 2, 70, &mut image) == Err(EraseError::BadBlock));
    erase_and_read(&mut chip, 1, 0, 70, &mut image)?;
    assert!(rt; image == [0xff; 2112]);
    mark_and_read(&mut chip, 3, 192, &mut image)?;
    turn(&mut image, 2048, 0xff);
    assert!(rt; image == [0xff; 2112]);
    Ok(())
}

// An erased page in which a word of six flips has no code word near it, at t = 5.
#[test]
fn reads_an_uncorrectable_page(rt: HostRuntime) -> Result<(), Fail> {
    let alloc = rt.alloc();
    let mut chip = erased_chip(alloc, Geometry::new(4096, 224, 64, 8, 5, 0, 0)?, 1)?;
    let mut image = [0xffu8; 4320];
    for bit in [2095usize, 612, 177, 2731, 1903, 4085] {
        turn(&mut image, bit / 8, 0x80 >> (bit % 8));
    }
    let sent = image;
    let (kind, read) = write_raw_and_read(&mut chip, &EccPage, 5, 0, &mut image)?;
    assert!(rt; kind == PageKind::Uncorrectable);
    assert!(rt; (read.corrected, read.greatest, read.failed) == (0, 0, 1));
    assert!(rt; image == sent);
    Ok(())
}

#[test]
fn knows_an_erased_step(rt: HostRuntime) {
    let mut step = [0xffu8; 512];
    let parity = [0xffu8; 7];
    step[100] = 0xfd;
    assert!(rt; erased_check(4, &step, &parity) == Some(1));
    let mut masks = [0u8; 7];
    mask(4, &mut masks);
    assert!(rt; masks == [0x28, 0x13, 0xcc, 0x39, 0x96, 0xac, 0x7f]);
}
