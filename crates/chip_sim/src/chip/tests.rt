// Simulated chips with pages of 2,048 bytes and a spare of 64, through the trait.
ghost use Rattle.std.specs.Prelude.{◌≡◌, ◌≤◌, ◌<◌, ◌^◌, true, length, All, IfOk};
ghost use Rattle.nand_model.specs.Flips.{FitsBits};
ghost use Rattle.nand_iface.specs.Flash.{FitsPage};
ghost use Rattle.chip_sim.specs.State.{sim_state};
ghost use Rattle.fault_plan.specs.WeakPlaces.{are_apart};

use super::*;
use fault_plan::Weak;
use nand_iface::{erase_one_block, program_one_page, tear_one_erase, tear_one_program, turn_bits};
use nand_model::SpanList;
use std::test::Fail;

// Programs two images into a page, and reads it.
fn program_twice<F: Flash>(
    flash: &mut F,
    page: u32,
    first: &[u8],
    second: &[u8],
    out: &mut [u8],
) -> Result<(), ProgramFailed>
    requires place { FitsPage (F.state flash.old).geometry page first.now }
    requires second { length second.now ≡ length first.now }
    requires out { length out.old ≡ length first.now }
    requires room { 2 ≤ F.room flash.old }
    ensures geometry { (F.state flash.new).geometry ≡ (F.state flash.old).geometry }
{
    program_one_page(flash, page, first)?;
    program_one_page(flash, page, second)?;
    flash.read_page(page, out);
    Ok(())
}

// Erases a block, and reads a page.
fn erase_and_read<F: Flash>(
    flash: &mut F,
    block: u32,
    page: u32,
    out: &mut [u8],
) -> Result<(), EraseFailed>
    requires block { block < (F.state flash.old).geometry.blocks }
    requires place { FitsPage (F.state flash.old).geometry page out.old }
    ensures geometry { (F.state flash.new).geometry ≡ (F.state flash.old).geometry }
{
    erase_one_block(flash, block)?;
    flash.read_page(page, out);
    Ok(())
}

#[test]
fn programs_and_erases(rt: HostRuntime) -> Result<(), Fail> {
    let alloc = rt.alloc();
    let g = Geometry::new(2048, 64, 64, 8, 1, 0, 0)?;
    let mut chip = SimChip::new(alloc, g, &BlockList::new(alloc), WeakList::new(alloc))?;
    let first = vec![in alloc; 0xf0u8; 2112]?;
    let second = vec![in alloc; 0x3cu8; 2112]?;
    let mut out = vec![in alloc; 0u8; 2112]?;
    chip.reserve(2, 0)?;
    program_twice(&mut chip, 70, &first, &second, &mut out)?;
    assert_eq!(rt; out[2111], 0x30);
    chip.read_page(71, &mut out);
    assert_eq!(rt; out[0], 0xff);
    erase_and_read(&mut chip, 1, 70, &mut out)?;
    assert_eq!(rt; out[2111], 0xff);
    Ok(())
}

// A list of one bit of a page of 2,112 bytes.
fn one_bit(alloc: Global, bit: u32) -> Result<BlockList, Fail>
    requires { bit < 16896 }
    ensures one { IfOk result (λ bits. length bits ≡ 1) }
    ensures there { IfOk result (All (λ bit. bit < 16896)) }
{
    let mut bits = BlockList::new(alloc);
    bits.push(bit)?;
    Ok(bits)
}

// Flips bits of a page, and reads it.
fn flip_and_read<F: Flash>(
    flash: &mut F,
    page: u32,
    bits: &BlockList,
    out: &mut [u8],
) -> Result<(), AllocError>
    requires bits { FitsBits (F.state flash.old).geometry page bits.now }
    requires few { length bits.now < 2 ^ 32 }
    requires place { FitsPage (F.state flash.old).geometry page out.old }
    ensures geometry { (F.state flash.new).geometry ≡ (F.state flash.old).geometry }
{
    flash.reserve(1, bits.len() as u32)?;
    turn_bits(flash, page, bits);
    flash.read_page(page, out);
    Ok(())
}

#[test]
fn flips_bits(rt: HostRuntime) -> Result<(), Fail> {
    let alloc = rt.alloc();
    let g = Geometry::new(2048, 64, 64, 8, 1, 0, 0)?;
    let mut chip = SimChip::new(alloc, g, &BlockList::new(alloc), WeakList::new(alloc))?;
    let mut out = vec![in alloc; 0u8; 2112]?;
    // Each row: a bit of page 70, the byte that it is in, that byte after the flip, and the flips
    // of bits 0 to 7 so far.
    let rows = [
        (0, 0, 0x7f, 1),
        (7, 0, 0x7e, 2),
        (8, 1, 0x7f, 2),
        (0, 0, 0xfe, 3),
        (16895, 2111, 0xfe, 3),
    ];
    for (bit, byte, cell, count) in rows {
        assert!(rt; bit < 16896);
        flip_and_read(&mut chip, 70, &one_bit(alloc, bit)?, &mut out)?;
        assert_eq!(rt; out.get(byte), Some(&cell), "after bit {bit}");
        assert_eq!(rt; chip.flips(70, 0, 8), count, "after bit {bit}");
    }
    assert!(rt; chip.flipped_since(70) && !chip.flipped_since(71));
    let zeros = vec![in alloc; 0u8; 2112]?;
    chip.reserve(2, 0)?;
    program_twice(&mut chip, 70, &zeros, &zeros, &mut out)?;
    assert!(rt; chip.flips(70, 0, 16896) == 5 && !chip.flipped_since(70));
    erase_and_read(&mut chip, 1, 70, &mut out)?;
    assert!(rt; chip.flips(70, 0, 16896) == 0);
    Ok(())
}

// Spare byte 0 of a page.
fn marker(chip: &SimChip, page: u32, out: &mut [u8]) -> u8
    requires place { FitsPage (sim_state chip.now).geometry page out.old }
    requires spare { 2048 < length out.old }
{
    chip.read_page(page, out);
    out[2048]
}

#[test]
fn shows_factory_bad_blocks(rt: HostRuntime) -> Result<(), Fail> {
    let alloc = rt.alloc();
    let g = Geometry::new(2048, 64, 64, 1024, 4, 1, 0)?;
    let mut bad = BlockList::new(alloc);
    bad.push(3)?;
    bad.push(1000)?;
    let chip = SimChip::new(alloc, g, &bad, WeakList::new(alloc))?;
    let mut out = vec![in alloc; 0u8; 2112]?;
    assert_eq!(rt; marker(&chip, 0, &mut out), 0xff);
    assert_eq!(rt; marker(&chip, 3 * 64, &mut out), 0);
    assert_eq!(rt; out[2047], 0xff);
    assert_eq!(rt; marker(&chip, 1000 * 64, &mut out), 0);
    Ok(())
}

// The weak places of a chip on which page 70 and block 1 take one call each. A program that fails
// does all of its bits, an erase none.
fn two_weak_places(alloc: Global) -> Result<WeakList, AllocError>
    ensures { IfOk result (λ weak. are_apart weak ≡ true) }
{
    let mut weak = WeakList::new(alloc);
    weak.push(Weak {
        kind: WeakKind::Program,
        at: 70,
        after: 1,
        tear: Tear::Everything,
    })?;
    weak.push(Weak {
        kind: WeakKind::Erase,
        at: 1,
        after: 1,
        tear: Tear::Nothing,
    })?;
    Ok(weak)
}

// Whether two programs of a page and two erases of its block are good, the first erase before the
// second program, and its first byte and whether it is torn at last.
fn wear<F: Flash>(flash: &mut F, page: u32, block: u32, image: &[u8], out: &mut [u8]) -> [bool; 5]
    requires place { FitsPage (F.state flash.old).geometry page image.now }
    requires out { FitsPage (F.state flash.old).geometry page out.old }
    requires block { block < (F.state flash.old).geometry.blocks }
    requires room { 2 ≤ F.room flash.old }
{
    let first = program_one_page(flash, page, image).is_ok();
    let cleared = erase_one_block(flash, block).is_ok();
    let second = program_one_page(flash, page, image).is_ok();
    let kept = erase_one_block(flash, block).is_err();
    flash.read_page(page, out);
    [first, cleared, second, kept, flash.torn(page)]
}

#[test]
fn fails_at_weak_places(rt: HostRuntime) -> Result<(), Fail> {
    let alloc = rt.alloc();
    let g = Geometry::new(2048, 64, 64, 8, 1, 0, 0)?;
    let mut chip = SimChip::new(alloc, g, &BlockList::new(alloc), two_weak_places(alloc)?)?;
    chip.reserve(2, 0)?;
    let image = vec![in alloc; 0x3cu8; 2112]?;
    let mut out = vec![in alloc; 0u8; 2112]?;
    let told = wear(&mut chip, 70, 1, &image, &mut out);
    assert_eq!(rt; told, [true, true, false, true, true]);
    assert_eq!(rt; out[0], 0x3c);
    Ok(())
}

// A torn program of a page, and then a torn erase of its block that sets its second byte; the first
// three bytes in between and at last.
fn tear_twice<F: Flash>(
    flash: &mut F,
    page: u32,
    block: u32,
    image: &[u8],
    tears: (&Tear, &Tear),
    out: &mut [u8],
) -> [u8; 6]
    requires place { FitsPage (F.state flash.old).geometry page image.now }
    requires out { FitsPage (F.state flash.old).geometry page out.old }
    requires bytes { 2 < length out.old }
    requires block { block < (F.state flash.old).geometry.blocks }
    requires room { 0 < F.room flash.old }
{
    tear_one_program(flash, page, image, tears.0);
    flash.read_page(page, out);
    let [first, second, third] = [out[0], out[1], out[2]];
    tear_one_erase(flash, block, tears.1);
    flash.read_page(page, out);
    [first, second, third, out[0], out[1], out[2]]
}

#[test]
fn tears_by_seeds_and_spans(rt: HostRuntime) -> Result<(), Fail> {
    let alloc = rt.alloc();
    let g = Geometry::new(2048, 64, 64, 8, 1, 0, 0)?;
    let mut chip = SimChip::new(alloc, g, &BlockList::new(alloc), WeakList::new(alloc))?;
    chip.reserve(1, 0)?;
    let image = vec![in alloc; 0u8; 2112]?;
    let mut out = vec![in alloc; 0u8; 2112]?;
    let mut spans = SpanList::new(alloc);
    spans.push((1, 2))?;
    let erase = Tear::Spans(spans);
    let told = tear_twice(&mut chip, 70, 1, &image, (&Tear::Seed(0), &erase), &mut out);
    // The seed bytes of seed 0 begin af, f4, 4f, and those bits were programmed to 0.
    assert_eq!(rt; told, [0x50, 0x0b, 0xb0, 0x50, 0xff, 0xb0]);
    Ok(())
}
