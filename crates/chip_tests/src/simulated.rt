// A simulated chip of eight blocks, with pages of 2,048 bytes and a spare of 64.
ghost use Rattle.std.specs.Prelude.{◌≡◌, IfOk};
ghost use Rattle.chip_sim.specs.State.{sim_state};
ghost use Rattle.chip_core.specs.Chip.{chip_state};

use crate::asking::Ask::{Erase, Flip, IsBad, Mark, RawRead, RawWrite, Read, Stats, Write};
use crate::asking::Told::{BadBlock, Counts, Done, MarkerByte, OutOfRange, Page, State};
use crate::asking::{first_other_reply, flip_all};
use chip_core::{Chip, Event, Flash, Note, PageCode, attach};
use chip_sim::SimChip;
use ecc_page::EccPage;
use fault_plan::WeakList;
use nand_iface::PageKind::{Bitflips, Clean, Raw, Uncorrectable};
use nand_model::{BlockList, Geometry};
use std::alloc::{AllocError, Global};
use std::test::Fail;

// A new chip whose block 5 is factory-bad. Its code corrects four bits of a step, and its threshold
// is 3.
fn small_chip(alloc: Global) -> Result<SimChip, Fail>
    ensures { IfOk result (λ chip. (sim_state chip).geometry.bbt ≡ 0) }
{
    let g = Geometry::new(2048, 64, 64, 8, 4, 0, 0)?;
    let mut bad = BlockList::new(alloc);
    bad.push(5)?;
    Ok(SimChip::new(alloc, g, &bad, WeakList::new(alloc))?)
}

#[test]
fn performs_operations(rt: HostRuntime) -> Result<(), Fail> {
    let rows = [
        (IsBad(0), State(0)),
        (IsBad(1), State(3)),
        (IsBad(2), OutOfRange),
        (RawWrite(63, 0x3c, 0xff), Done),
        (RawWrite(63, 0xf0, 0xff), Done),
        (RawWrite(128, 0xff, 0xff), OutOfRange),
        (RawWrite(64, 0, 0), BadBlock),
        (RawWrite(63, 0, 0), MarkerByte),
        (RawRead(63), Page(Raw, 0, 0, 0, 0x30)),
        (RawRead(65), Page(Raw, 0, 0, 0, 0xff)),
        (RawRead(128), OutOfRange),
        (Erase(1), BadBlock),
        (Erase(2), OutOfRange),
        (Erase(0), Done),
        (RawRead(63), Page(Raw, 0, 0, 0, 0xff)),
        (Stats, Counts(0, 0, 1)),
        (Write(0, 0x5a), Done),
        (Write(64, 0x5a), BadBlock),
        (Write(128, 0x5a), OutOfRange),
        (Read(0), Page(Clean, 0, 0, 0, 0x5a)),
        (Read(128), OutOfRange),
        (RawWrite(1, 0xfe, 0xff), Done),
        (Read(1), Page(Clean, 1, 1, 0, 0xff)),
        (Stats, Counts(1, 0, 1)),
        (Flip(256, &[0, 9]), Done),
        (RawRead(0), Page(Raw, 0, 0, 0, 0xda)),
        (Read(0), Page(Clean, 2, 2, 0, 0x5a)),
        (Flip(256, &[2047, 4096]), Done),
        (Read(0), Page(Bitflips, 4, 3, 0, 0x5a)),
        (Stats, Counts(7, 0, 1)),
        (Erase(0), Done),
        (Flip(257, &[16724, 16725, 16726, 16727]), Done),
        (Read(1), Page(Clean, 0, 0, 0, 0xff)),
        (
            Flip(
                258,
                &[
                    4069, 4072, 4073, 4075, 4077, 4079, 4083, 4085, 4087, 4089, 4092, 4094, 4095,
                ],
            ),
            Done,
        ),
        (Read(2), Page(Uncorrectable, 0, 0, 1, 0xff)),
        (Stats, Counts(7, 1, 1)),
        (Mark(2), OutOfRange),
        (Mark(1), Done),
        (IsBad(1), State(3)),
        (Mark(0), Done),
        (IsBad(0), State(1)),
        (Read(1), Page(Clean, 0, 0, 0, 0xff)),
        (Mark(0), Done),
        (IsBad(0), State(1)),
        (Erase(0), BadBlock),
        (Write(0, 0x5a), BadBlock),
        (RawWrite(63, 0xfe, 0xff), BadBlock),
        (Stats, Counts(7, 1, 2)),
    ];
    let alloc = rt.alloc();
    let other = first_other_reply(alloc, small_chip(alloc)?, EccPage, &rows)?;
    assert_eq!(rt; other, None);
    Ok(())
}

// What a chip tells at one moment.
#[derive(Clone, Copy, Debug, PartialEq, Eq)]
struct Moment {
    next_event: Option<Event>,
    attached: bool,
    busy: bool,
    bad: u32,
    corrected: u64,
    quiet: Option<bool>,
}

// What a chip tells; it hands out its note.
fn moment_of<F: Flash, C: PageCode>(chip: &mut Chip<F, C>) -> Moment {
    Moment {
        next_event: chip.next_event(),
        attached: chip.is_attached(),
        busy: chip.busy(),
        bad: chip.bad(),
        corrected: chip.stats(0).corrected,
        quiet: match chip.attach_note(3) {
            Some(Note::Attached { chip: 3, quiet, .. }) => Some(quiet),
            _ => None,
        },
    }
}

// Makes a chip's spare at least three pages, and stops it.
fn stopped<F: Flash, C: PageCode>(chip: Chip<F, C>) -> Result<F, AllocError>
    ensures { IfOk result (λ flash. F.state flash ≡ chip_state chip) }
{
    let mut chip = chip;
    chip.reserve(3, 0)?;
    Ok(chip.stop())
}

// What a chip without tables tells after its attach, and after it handed out its note. It was stopped
// at the start of an attach before.
fn moments_of<F: Flash, C: PageCode>(
    alloc: Global,
    flash: F,
    code: C,
) -> Result<(Moment, Moment), Fail>
    requires { (F.state flash).geometry.bbt ≡ 0 }
{
    let starting = Chip::attach_start(alloc, flash, code)?;
    let mut chip = attach(alloc, stopped(starting)?, code)?;
    let first = moment_of(&mut chip);
    Ok((first, moment_of(&mut chip)))
}

#[test]
fn tells_its_stage(rt: HostRuntime) -> Result<(), Fail> {
    let alloc = rt.alloc();
    let first = Moment {
        next_event: None,
        attached: true,
        busy: false,
        bad: 1,
        corrected: 0,
        quiet: Some(true),
    };
    let second = Moment {
        quiet: None,
        ..first
    };
    let told = moments_of(alloc, small_chip(alloc)?, EccPage)?;
    assert_eq!(rt; told, (first, second));
    Ok(())
}

// What a chip of eight blocks tells after its attach, of which a bit of a page is flipped after so
// many events.
fn moment_after_flip<F: Flash, C: PageCode>(
    alloc: Global,
    flash: F,
    code: C,
    page: u32,
    bit: u32,
    events: u32,
) -> Result<Moment, Fail> {
    let mut chip = Chip::attach_start(alloc, flash, code)?;
    for done in 0..9 {
        if done == events {
            flip_all(&mut chip, alloc, page, &[bit])?;
        }
        if chip.next_event().is_some() {
            let _ = chip.advance();
        }
    }
    Ok(moment_of(&mut chip))
}

#[test]
fn attach_tells_of_flips(rt: HostRuntime) -> Result<(), Fail> {
    let alloc = rt.alloc();
    let rows = [
        (256, 16384, 0, false, 2),
        (256, 16391, 4, false, 2),
        (256, 16384, 5, false, 1),
        (256, 16384, 7, false, 1),
        (256, 16384, 8, true, 1),
        (256, 16383, 0, true, 1),
        (256, 16392, 0, true, 1),
        (257, 16384, 0, true, 1),
    ];
    for (page, bit, events, quiet, bad) in rows {
        let told = moment_after_flip(alloc, small_chip(alloc)?, EccPage, page, bit, events)?;
        assert_eq!(rt; (told.quiet, told.bad), (Some(quiet), bad));
    }
    Ok(())
}
