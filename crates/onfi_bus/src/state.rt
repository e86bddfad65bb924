// A chip behind the cycles of a bus, one cycle at a time.
ghost use Rattle.std.specs.Prelude.{◌≡◌, ◌≢◌, ◌≤◌, ◌<◌, ◌+◌, ◌↔◌, true, false, replicate, Some, None, IfSome, IsErr, OnErr};
ghost use Rattle.nand_model.specs.Sizes.{raw_len};
ghost use Rattle.onfi_bus.specs.Device.{after_act, answer};
ghost use Rattle.onfi_bus.specs.Moves.{ActFits, LookFits, NumbersFit, PhaseFits, PhaseFits-prop, changes_page};

use crate::cycle::{BusEvent, Cycle, Illegal};
use crate::phase::{Act, Phase};
use crate::register::Register;
use crate::status::status;
use nand_iface::Flash;
use nand_model::Geometry;

/// What a bus keeps between cycles: how far the phrase under way has come, the page register, and
/// whether the last program or erase since the last reset failed.
#[derive(Drop)]
pub struct BusState {
    geometry: Geometry,
    phase: Phase,
    failed: bool,
    register: Register,
    ghost fits: { PhaseFits geometry phase } by { PhaseFits-prop geometry phase },
}

impl BusState {
    ghost use Rattle.onfi_bus.specs.Runs.{event_in};
    ghost use Rattle.onfi_bus.specs.State.{device_of, failed_of, move_of, phase_of, register_of, sizes_of};

    /// A bus for chips of these sizes, with no phrase under way, 0xFF throughout the page register,
    /// and without a fail bit.
    pub fn new(g: Geometry) -> BusState
        ensures sizes { sizes_of result ≡ g }
        ensures phase { phase_of result ≡ Phase.Idle }
        ensures register { register_of result ≡ replicate (raw_len g) 0xff }
        ensures fail_bit { failed_of result ≡ false }
    {
        BusState {
            geometry: g,
            phase: Phase::Idle,
            failed: false,
            register: Register::new(),
        }
    }

    /// The event that this cycle does next at the chip; None where it does none or is illegal.
    pub fn event(&self, cycle: Cycle) -> Option<BusEvent>
        ensures { result ≡ event_in (move_of self.now cycle) }
    {
        let (_, act) = self.phase.step(&self.geometry, cycle)?;
        act.event()
    }

    /// Takes one cycle, which is none of the commands 10h and D0h, and gives a byte exactly where
    /// the cycle is `Out`.
    ///
    /// `Illegal` comes exactly where no list of phrases goes on with this cycle, and then nothing
    /// changes.
    pub fn step_read<F: Flash>(&mut self, flash: &F, cycle: Cycle) -> Result<Option<u8>, Illegal>
        requires sizes { (F.state flash.now).geometry ≡ sizes_of self.old }
        requires no_program { cycle ≢ Cycle.Command 0x10 }
        requires no_erase { cycle ≢ Cycle.Command 0xd0 }
        ensures illegal { IsErr result ↔ (move_of self.old cycle ≡ None) }
        ensures unchanged { OnErr result (self.new ≡ self.old) }
        ensures sizes { sizes_of self.new ≡ sizes_of self.old }
        ensures phase { IfSome (move_of self.old cycle) (λ move. phase_of self.new ≡ move.0) }
        ensures device { IfSome (move_of self.old cycle)
            (λ move. device_of (F.state flash.now) self.new
            ≡ after_act F.fault_model (device_of (F.state flash.now) self.old) move.1) }
        ensures answer { IfSome (move_of self.old cycle)
            (λ move. result ≡ Ok (answer (device_of (F.state flash.now) self.old) move.1)) }
    {
        let sizes = self.geometry;
        match self.phase.step(&sizes, cycle) {
            None => Err(Illegal),
            Some((phase, act)) => {
                let byte = self.look(flash, act);
                self.phase = phase;
                Ok(byte)
            }
        }
    }

    /// Takes one cycle, and gives a byte exactly where the cycle is `Out`. A program or an erase of
    /// the chip that fails sets the fail bit, and one that is good clears it. The command 10h takes
    /// at most one page of the room.
    ///
    /// `Illegal` comes exactly where no list of phrases goes on with this cycle, and then nothing
    /// changes.
    pub fn step<F: Flash>(&mut self, flash: &mut F, cycle: Cycle) -> Result<Option<u8>, Illegal>
        requires sizes { (F.state flash.old).geometry ≡ sizes_of self.old }
        requires room { cycle ≡ Cycle.Command 0x10 → 0 < F.room flash.old }
        ensures illegal { IsErr result ↔ (move_of self.old cycle ≡ None) }
        ensures unchanged { OnErr result (self.new ≡ self.old) }
        ensures unchanged_chip { OnErr result (F.state flash.new ≡ F.state flash.old) }
        ensures sizes { sizes_of self.new ≡ sizes_of self.old }
        ensures chip_sizes { (F.state flash.new).geometry ≡ (F.state flash.old).geometry }
        ensures phase { IfSome (move_of self.old cycle) (λ move. phase_of self.new ≡ move.0) }
        ensures device { IfSome (move_of self.old cycle)
            (λ move. device_of (F.state flash.new) self.new
            ≡ after_act F.fault_model (device_of (F.state flash.old) self.old) move.1) }
        ensures answer { IfSome (move_of self.old cycle)
            (λ move. result ≡ Ok (answer (device_of (F.state flash.old) self.old) move.1)) }
        ensures faults { (F.state flash.old).faults ≤ (F.state flash.new).faults }
        ensures room { F.room flash.old ≤ F.room flash.new + 1 }
        ensures room_kept { cycle ≢ Cycle.Command 0x10 → F.room flash.old ≤ F.room flash.new }
        ensures bit_room { F.bit_room flash.old ≤ F.bit_room flash.new }
    {
        let sizes = self.geometry;
        match self.phase.step(&sizes, cycle) {
            None => Err(Illegal),
            Some((phase, act)) => {
                let byte = self.perform(flash, act);
                self.phase = phase;
                Ok(byte)
            }
        }
    }

    // Does what an act does.
    fn perform<F: Flash>(&mut self, flash: &mut F, act: Act) -> Option<u8>
        requires sizes { (F.state flash.old).geometry ≡ self.old.geometry }
        requires fits { NumbersFit self.old.geometry act }
        requires room { changes_page act ≡ true → 0 < F.room flash.old }
        ensures sizes { self.new.geometry ≡ self.old.geometry }
        ensures chip_sizes { (F.state flash.new).geometry ≡ (F.state flash.old).geometry }
        ensures phase { self.new.phase ≡ self.old.phase }
        ensures device { device_of (F.state flash.new) self.new
            ≡ after_act F.fault_model (device_of (F.state flash.old) self.old) act }
        ensures answer { result ≡ answer (device_of (F.state flash.old) self.old) act }
        ensures faults { (F.state flash.old).faults ≤ (F.state flash.new).faults }
        ensures room { F.room flash.old ≤ F.room flash.new + 1 }
        ensures room_kept { changes_page act ≡ false → F.room flash.old ≤ F.room flash.new }
        ensures bit_room { F.bit_room flash.old ≤ F.bit_room flash.new }
    {
        match act {
            Act::ProgramPage(page) => {
                let sizes = self.geometry;
                let programmed = flash.program_page(page, self.register.page(sizes.raw_len()));
                self.failed = programmed.is_err();
                None
            }
            Act::EraseBlock(block) => {
                let erased = flash.erase_block(block);
                self.failed = erased.is_err();
                None
            }
            act => self.look(flash, act),
        }
    }

    // Does what an act does that changes no chip.
    fn look<F: Flash>(&mut self, flash: &F, act: Act) -> Option<u8>
        requires sizes { (F.state flash.now).geometry ≡ self.old.geometry }
        requires fits { LookFits self.old.geometry act }
        ensures sizes { self.new.geometry ≡ self.old.geometry }
        ensures phase { self.new.phase ≡ self.old.phase }
        ensures device { device_of (F.state flash.now) self.new
            ≡ after_act F.fault_model (device_of (F.state flash.now) self.old) act }
        ensures answer { result ≡ answer (device_of (F.state flash.now) self.old) act }
    {
        match act {
            Act::Wait => None,
            Act::Clear => {
                self.register = Register::new();
                None
            }
            Act::Put(column, byte) => {
                self.register.put(column, byte);
                None
            }
            Act::ReadPage(page) => {
                let sizes = self.geometry;
                self.register.read(flash, page, sizes.raw_len());
                None
            }
            Act::GiveByte(column) => Some(self.register.byte(column)),
            Act::GiveStatus => Some(status(self.failed)),
            Act::Reset => {
                self.failed = false;
                None
            }
            Act::ProgramPage(_) | Act::EraseBlock(_) => unreachable!(),
        }
    }
}
