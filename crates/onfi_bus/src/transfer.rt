// Reads, programs and erases by whole phrases.
ghost use Rattle.std.specs.Prelude.{◌≡◌, ◌≢◌, ◌≤◌, ◌<◌, ◌+◌, ◌*◌, IfSome, Some, is_none, is_ok, length};
ghost use Rattle.nand_model.specs.Chip.{ProgramCall, EraseCall, Complete, ProgramEvent, EraseEvent, failure_of, happens};
ghost use Rattle.nand_model.specs.Sizes.{page_count, raw_len};
ghost use Rattle.nand_iface.specs.Flash.{FitsPage};
ghost use Rattle.onfi_bus.specs.Device.{answer};
ghost use Rattle.onfi_bus.specs.Moves.{with_column, with_row};
ghost use Rattle.onfi_bus.specs.State.{Follows, device_of, failed_of, move_of, phase_of, register_of, sizes_of};
ghost use Rattle.onfi_bus.specs.declared.phase.Act.{Act};
ghost use Rattle.onfi_bus.specs.declared.phase.ColumnUse.{ColumnUse};
ghost use Rattle.onfi_bus.specs.declared.phase.Phase.{Phase};
ghost use Rattle.onfi_bus.specs.declared.phase.Phase.TheVariants.{ColumnLow, Idle, Loading, Reading, RowLow};
ghost use Rattle.onfi_bus.specs.declared.phase.RowUse.{RowUse};

use crate::cycle::Cycle;
use crate::state::BusState;
use crate::status::has_fail_bit;
use nand_iface::{EraseFailed, Flash, ProgramFailed};

// Sends a cycle that gives no byte.
fn send<F: Flash>(bus: &mut BusState, flash: &F, cycle: Cycle)
    requires sizes { (F.state flash.now).geometry ≡ sizes_of bus.old }
    requires no_program { cycle ≢ Cycle.Command 0x10 }
    requires no_erase { cycle ≢ Cycle.Command 0xd0 }
    ensures sizes { sizes_of bus.new ≡ sizes_of bus.old }
    ensures follows { Follows F.fault_model (F.state flash.now) (F.state flash.now)
        bus.old bus.new cycle }
{
    let _ = bus.step_read(flash, cycle);
}

// Takes a byte out.
fn byte_out<F: Flash>(bus: &mut BusState, flash: &F) -> u8
    requires { (F.state flash.now).geometry ≡ sizes_of bus.old }
    ensures sizes { sizes_of bus.new ≡ sizes_of bus.old }
    ensures follows { Follows F.fault_model (F.state flash.now) (F.state flash.now)
        bus.old bus.new Cycle.Out }
    ensures byte { (next : Phase) (act : Act) → move_of bus.old Cycle.Out ≡ Some (next, act) →
        IfSome (answer (device_of (F.state flash.now) bus.old) act) (λ byte. result ≡ byte) }
{
    match bus.step_read(flash, Cycle::Out) {
        Ok(Some(byte)) => byte,
        Ok(None) => 0xff,
        Err(_) => 0xff,
    }
}

// Sends the address cycles of column 0.
fn send_column<F: Flash>(bus: &mut BusState, flash: &F)
    requires { (F.state flash.now).geometry ≡ sizes_of bus.old }
    ensures sizes { sizes_of bus.new ≡ sizes_of bus.old }
    ensures phase { (to : ColumnUse) → phase_of bus.old ≡ ColumnLow to
        → phase_of bus.new ≡ with_column to 0 }
    ensures device { (to : ColumnUse) → phase_of bus.old ≡ ColumnLow to
        → device_of (F.state flash.now) bus.new ≡ device_of (F.state flash.now) bus.old }
{
    send(bus, flash, Cycle::Address(0));
    send(bus, flash, Cycle::Address(0));
}

// Sends the address cycles of a page.
fn send_row<F: Flash>(bus: &mut BusState, flash: &F, page: u32)
    requires sizes { (F.state flash.now).geometry ≡ sizes_of bus.old }
    requires page { page < page_count (sizes_of bus.old) }
    ensures sizes { sizes_of bus.new ≡ sizes_of bus.old }
    ensures phase { (to : RowUse) → phase_of bus.old ≡ RowLow to
        → phase_of bus.new ≡ with_row to page }
    ensures device { (to : RowUse) → phase_of bus.old ≡ RowLow to
        → device_of (F.state flash.now) bus.new ≡ device_of (F.state flash.now) bus.old }
{
    send(bus, flash, Cycle::Address((page % 256) as u8));
    send(bus, flash, Cycle::Address((page / 256 % 256) as u8));
    send(bus, flash, Cycle::Address((page / 65536) as u8));
}

// Sends a read of a page, up to its first byte out.
fn begin_read<F: Flash>(bus: &mut BusState, flash: &F, page: u32)
    requires sizes { (F.state flash.now).geometry ≡ sizes_of bus.old }
    requires idle { phase_of bus.old ≡ Idle }
    requires page { page < page_count (sizes_of bus.old) }
    ensures sizes { sizes_of bus.new ≡ sizes_of bus.old }
    ensures phase { phase_of bus.new ≡ Reading 0 }
    ensures register { register_of bus.new ≡ ((F.state flash.now).pages page).cells }
{
    send(bus, flash, Cycle::Command(0x00));
    send_column(bus, flash);
    send_row(bus, flash, page);
    send(bus, flash, Cycle::Command(0x30));
}

// Sends a program of a page, up to its first byte in.
fn begin_program<F: Flash>(bus: &mut BusState, flash: &F, page: u32)
    requires sizes { (F.state flash.now).geometry ≡ sizes_of bus.old }
    requires idle { phase_of bus.old ≡ Idle }
    requires page { page < page_count (sizes_of bus.old) }
    ensures sizes { sizes_of bus.new ≡ sizes_of bus.old }
    ensures phase { phase_of bus.new ≡ Loading page 0 }
    ensures register { length (register_of bus.new) ≡ raw_len (sizes_of bus.old) }
{
    send(bus, flash, Cycle::Command(0x80));
    send_column(bus, flash);
    send_row(bus, flash, page);
}

// Sends the bytes of an image in.
fn load<F: Flash>(bus: &mut BusState, flash: &F, page: u32, image: &[u8])
    requires sizes { (F.state flash.now).geometry ≡ sizes_of bus.old }
    requires phase { phase_of bus.old ≡ Loading page 0 }
    requires register { length (register_of bus.old) ≡ raw_len (sizes_of bus.old) }
    requires image { length image.now ≡ raw_len (sizes_of bus.old) }
    ensures sizes { sizes_of bus.new ≡ sizes_of bus.old }
    ensures phase { phase_of bus.new ≡ Loading page (length image.now) }
    ensures register { register_of bus.new ≡ image.now }
{
    for byte in image {
        send(bus, flash, Cycle::In(*byte));
    }
}

// Asks for the status: whether it has the fail bit.
fn has_failed<F: Flash>(bus: &mut BusState, flash: &F) -> bool
    requires sizes { (F.state flash.now).geometry ≡ sizes_of bus.old }
    requires idle { phase_of bus.old ≡ Idle }
    ensures { result ≡ failed_of bus.old }
{
    send(bus, flash, Cycle::Command(0x70));
    has_fail_bit(byte_out(bus, flash))
}

/// Reads a page by the cycles of a read.
pub fn read_by_cycles<F: Flash>(flash: &F, page: u32, out: &mut [u8])
    requires { FitsPage (F.state flash.now).geometry page out.old }
    ensures { out.new ≡ ((F.state flash.now).pages page).cells }
{
    let mut bus = BusState::new(flash.geometry());
    begin_read(&mut bus, flash, page);
    for byte in out.iter_mut() {
        *byte = byte_out(&mut bus, flash);
    }
}

/// Programs a page by the cycles of a program and of a status.
pub fn program_by_cycles<F: Flash>(
    flash: &mut F,
    page: u32,
    image: &[u8],
) -> Result<(), ProgramFailed>
    requires place { FitsPage (F.state flash.old).geometry page image.now }
    requires room { 0 < F.room flash.old }
    ensures state { F.state flash.new
        ≡ happens F.fault_model (F.state flash.old) (Complete (ProgramEvent page image.now)) }
    ensures ok { is_ok result
        ≡ is_none (failure_of F.fault_model (F.state flash.old) (ProgramCall page)) }
    ensures faults { (F.state flash.old).faults ≤ (F.state flash.new).faults }
    ensures room { F.room flash.old ≤ F.room flash.new + 1 }
    ensures bit_room { F.bit_room flash.old ≤ F.bit_room flash.new }
{
    let mut bus = BusState::new(flash.geometry());
    begin_program(&mut bus, flash, page);
    load(&mut bus, flash, page, image);
    let _ = bus.step(flash, Cycle::Command(0x10));
    if has_failed(&mut bus, flash) {
        Err(ProgramFailed)
    } else {
        Ok(())
    }
}

/// Erases a block by the cycles of an erase, at its first page, and of a status.
pub fn erase_by_cycles<F: Flash>(flash: &mut F, block: u32) -> Result<(), EraseFailed>
    requires { block < (F.state flash.old).geometry.blocks }
    ensures state { F.state flash.new
        ≡ happens F.fault_model (F.state flash.old) (Complete (EraseEvent block)) }
    ensures ok { is_ok result
        ≡ is_none (failure_of F.fault_model (F.state flash.old) (EraseCall block)) }
    ensures faults { (F.state flash.old).faults ≤ (F.state flash.new).faults }
    ensures room { F.room flash.old ≤ F.room flash.new }
    ensures bit_room { F.bit_room flash.old ≤ F.bit_room flash.new }
{
    let g = flash.geometry();
    let mut bus = BusState::new(g);
    send(&mut bus, flash, Cycle::Command(0x60));
    send_row(&mut bus, flash, block * g.pages_per_block);
    let _ = bus.step(flash, Cycle::Command(0xd0));
    if has_failed(&mut bus, flash) {
        Err(EraseFailed)
    } else {
        Ok(())
    }
}
