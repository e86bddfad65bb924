// The cycles of a bus at a simulated chip with pages of 2,048 bytes and a spare of 64.
ghost use Rattle.std.specs.Prelude.{◌≡◌};
ghost use Rattle.onfi_bus.specs.State.{sizes_of};

use crate::{BusState, Cycle, Illegal};
use chip_sim::SimChip;
use fault_plan::WeakList;
use nand_iface::Flash;
use nand_model::{BlockList, Geometry};
use std::alloc::AllocError;
use std::test::Fail;

// Whether cycles are taken, each with this answer.
fn takes<F: Flash>(
    bus: &mut BusState,
    flash: &mut F,
    rows: &[(Cycle, Option<u8>)],
) -> Result<bool, AllocError>
    requires { (F.state flash.old).geometry ≡ sizes_of bus.old }
    ensures { (F.state flash.new).geometry ≡ sizes_of bus.new }
{
    let mut right = true;
    for (cycle, answer) in rows {
        flash.reserve(1, 0)?;
        let given = bus.step(flash, *cycle);
        right = right && given == Ok(*answer);
    }
    Ok(right)
}

#[test]
fn programs_and_reads_back(rt: HostRuntime) -> Result<(), Fail> {
    let g = Geometry::new(2048, 64, 64, 8, 1, 0, 0)?;
    let mut chip = SimChip::new(
        rt.alloc(),
        g,
        &BlockList::new(rt.alloc()),
        WeakList::new(rt.alloc()),
    )?;
    let mut bus = BusState::new(chip.geometry());
    let rows = [
        (Cycle::Command(0x80), None),
        (Cycle::Address(0x02), None),
        (Cycle::Address(0x00), None),
        (Cycle::Address(0x01), None),
        (Cycle::Address(0x00), None),
        (Cycle::Address(0x00), None),
        (Cycle::In(0x5a), None),
        (Cycle::Command(0x10), None),
        (Cycle::Command(0x70), None),
        (Cycle::Out, Some(0xe0)),
        (Cycle::Command(0x00), None),
        (Cycle::Address(0x02), None),
        (Cycle::Address(0x00), None),
        (Cycle::Address(0x01), None),
        (Cycle::Address(0x00), None),
        (Cycle::Address(0x00), None),
        (Cycle::Command(0x30), None),
        (Cycle::Out, Some(0x5a)),
        (Cycle::Out, Some(0xff)),
    ];
    assert!(rt; takes(&mut bus, &mut chip, &rows)?);
    Ok(())
}

#[test]
fn refuses_a_confirm_after_one_address(rt: HostRuntime) -> Result<(), Fail> {
    let g = Geometry::new(2048, 64, 64, 8, 1, 0, 0)?;
    let mut chip = SimChip::new(
        rt.alloc(),
        g,
        &BlockList::new(rt.alloc()),
        WeakList::new(rt.alloc()),
    )?;
    let mut bus = BusState::new(chip.geometry());
    let rows = [(Cycle::Command(0x00), None), (Cycle::Address(0x00), None)];
    assert!(rt; takes(&mut bus, &mut chip, &rows)?);
    assert!(rt; bus.step_read(&chip, Cycle::Command(0x30)) == Err(Illegal));
    Ok(())
}
