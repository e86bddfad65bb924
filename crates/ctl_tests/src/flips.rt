// Flips between the events of a controller, seen by dumps and attach notes.
ghost use Rattle.std.specs.Prelude.{◌≡◌, ◌≤◌, All, IfOk, length};
ghost use Rattle.ctl_tests.specs.Small.{IsSmallFlip};

use crate::driving::{attach_all, take_turn};
use crate::small::reading_core;
use fault_plan::{Faults, Flip};
use nand_iface::History;
use nand_model::{BlockList, Note, Reply};
use std::alloc::Global;
use std::test::Fail;

// A bit that turns over before an event.
#[derive(Clone, Copy)]
struct OneFlip {
    chip: u32,
    page: u32,
    before: u32,
    bit: u32,
}

// A bit of a page of a chip, before this event.
fn before(event: u32, chip: u32, page: u32, bit: u32) -> OneFlip {
    OneFlip {
        chip,
        page,
        before: event,
        bit,
    }
}

// The flip of one bit, if there is such a bit.
fn flip_of(alloc: Global, one: OneFlip) -> Result<Flip, Fail>
    ensures { IfOk result IsSmallFlip }
{
    if one.chip >= 2 || one.page >= 512 || one.bit >= 16896 {
        return Err("there is no such bit".into());
    }
    let mut bits = BlockList::new(alloc);
    bits.append(one.bit)?;
    Ok(Flip {
        chip: one.chip,
        page: one.page,
        before: one.before,
        bits,
    })
}

// The flips of these bits, in this order.
fn faults_of(alloc: Global, flips: &[OneFlip]) -> Result<Faults, Fail>
    ensures small { IfOk result (λ faults. All IsSmallFlip faults.flips) }
    ensures count { IfOk result (λ faults. length faults.flips ≡ length flips.now) }
{
    let mut faults = Faults::new(alloc);
    for one in flips {
        faults.push(flip_of(alloc, *one)?)?;
    }
    Ok(faults)
}

// The first byte of a page that was read.
fn first_byte(note: &Note) -> Option<u8> {
    match note {
        Note::Answered {
            reply: Reply::Page { image, .. },
            ..
        } => image.as_slice().first().copied(),
        _ => None,
    }
}

// Whether an attach was quiet.
fn is_quiet(note: &Note) -> Option<bool> {
    match note {
        Note::Attached { quiet, .. } => Some(*quiet),
        _ => None,
    }
}

// Whether the attaches of both chips, and then the first bytes of the three dumps, are these. Each
// attach note is one of two, and each dump has two notes.
fn tells(history: &History, quiet: [bool; 2], seen: [u8; 3]) -> bool {
    if history.len() != 8 {
        return false;
    }
    is_quiet(history.get(0)) == Some(quiet[0])
        && is_quiet(history.get(1)) == Some(quiet[1])
        && first_byte(history.get(3)) == Some(seen[0])
        && first_byte(history.get(5)) == Some(seen[1])
        && first_byte(history.get(7)) == Some(seen[2])
}

// Attaches two chips of eight blocks, by events 1 to 8 and 9 to 16, and dumps the first page of
// chip 0 by events 17, 18 and 19. Whether that is told.
fn shows(alloc: Global, flips: &[OneFlip], quiet: [bool; 2], seen: [u8; 3]) -> Result<bool, Fail>
    requires { length flips.now ≤ 65536 }
{
    let mut core = reading_core(alloc, faults_of(alloc, flips)?)?;
    attach_all(&mut core)?;
    for _ in 0..9u32 {
        take_turn(&mut core, 0)?;
    }
    Ok(core.over() && tells(core.notes(), quiet, seen))
}

#[test]
fn flips_come_before_their_events(rt: HostRuntime) -> Result<(), Fail> {
    let alloc = rt.alloc();
    let quiet = [true, true];
    assert!(rt; shows(alloc, &[], quiet, [0xff, 0xff, 0xff])?);
    let once = [before(18, 0, 0, 0)];
    assert!(rt; shows(alloc, &once, quiet, [0xff, 0x7f, 0x7f])?);
    let in_any_order = [
        before(19, 0, 0, 1),
        before(17, 0, 0, 0),
        before(18, 0, 0, 0),
    ];
    assert!(rt; shows(alloc, &in_any_order, quiet, [0x7f, 0xff, 0xbf])?);
    let several_at_once = [
        before(18, 0, 0, 0),
        before(18, 1, 0, 3),
        before(18, 0, 0, 7),
    ];
    assert!(rt; shows(alloc, &several_at_once, quiet, [0xff, 0x7e, 0x7e])?);
    let of_others = [
        before(17, 1, 0, 0),
        before(17, 0, 1, 0),
        before(20, 0, 0, 0),
    ];
    assert!(rt; shows(alloc, &of_others, quiet, [0xff, 0xff, 0xff])?);
    Ok(())
}

#[test]
fn flips_of_markers_end_the_quiet(rt: HostRuntime) -> Result<(), Fail> {
    let alloc = rt.alloc();
    let seen = [0xff, 0xff, 0xff];
    let marker = 16384;
    let rows = [
        (before(1, 0, 0, marker), [false, true]),
        (before(8, 0, 0, marker), [false, true]),
        (before(9, 0, 0, marker), [true, true]),
        (before(5, 1, 64, marker), [true, false]),
        (before(16, 1, 448, marker), [true, false]),
        (before(17, 1, 0, marker), [true, true]),
        (before(3, 0, 64, marker + 8), [true, true]),
        (before(3, 0, 65, marker), [true, true]),
    ];
    for (flip, quiet) in rows {
        assert!(rt; shows(alloc, &[flip], quiet, seen)?);
    }
    Ok(())
}
