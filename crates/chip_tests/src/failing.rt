// Chips of which a page is weak.
ghost use Rattle.std.specs.Prelude.{◌≡◌, IfOk};
ghost use Rattle.chip_sim.specs.State.{sim_state};

use crate::asking::Ask::{Erase, IsBad, RawRead, RawWrite, Read, Stats, Write};
use crate::asking::Told::{Counts, Done, Page, ProgramFailed, State};
use crate::asking::{first_other_reply, told_of_failure};
use chip_core::Fairness;
use chip_sim::SimChip;
use ecc_page::EccPage;
use fault_plan::{Weak, WeakKind, WeakList};
use nand_iface::PageKind::{Clean, Raw};
use nand_model::{BlockList, Geometry, Tear};
use std::alloc::Global;
use std::test::Fail;

// A chip of eight blocks. Page 1 of the device takes so many programs; one that fails does all of
// its bits.
fn worn_chip(alloc: Global, after: u32) -> Result<SimChip, Fail>
    ensures { IfOk result (λ chip. (sim_state chip).geometry.bbt ≡ 0) }
{
    let g = Geometry::new(2048, 64, 64, 8, 4, 0, 0)?;
    let mut weak = WeakList::new(alloc);
    weak.push(Weak {
        kind: WeakKind::Program,
        at: 257,
        after,
        tear: Tear::Everything,
    })?;
    Ok(SimChip::new(alloc, g, &BlockList::new(alloc), weak)?)
}

#[test]
fn answers_failures(rt: HostRuntime) -> Result<(), Fail> {
    let rows = [
        (Write(0, 0x3c), Done),
        (Write(1, 0x3c), ProgramFailed),
        (IsBad(0), State(0)),
        (RawRead(1), Page(Raw, 0, 0, 0, 0x3c)),
        (Write(2, 0x3c), Done),
        (Read(2), Page(Clean, 0, 0, 0, 0x3c)),
        (RawWrite(1, 0xf0, 0xff), ProgramFailed),
        (RawRead(1), Page(Raw, 0, 0, 0, 0x30)),
        (Erase(0), Done),
        (RawRead(1), Page(Raw, 0, 0, 0, 0xff)),
        (Stats, Counts(0, 0, 0)),
    ];
    let alloc = rt.alloc();
    let other = first_other_reply(alloc, worn_chip(alloc, 0)?, EccPage, &rows)?;
    assert_eq!(rt; other, None);
    Ok(())
}

#[test]
fn tells_failures(rt: HostRuntime) -> Result<(), Fail> {
    let alloc = rt.alloc();
    for (after, want) in [(0, Some(Fairness::Plain)), (1, None)] {
        let told = told_of_failure(alloc, worn_chip(alloc, after)?, EccPage, Write(1, 0x3c))?;
        assert_eq!(rt; told, want);
    }
    Ok(())
}
