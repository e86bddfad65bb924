// A controller of two small chips with one device each.
ghost use Rattle.std.specs.Prelude.{◌≡◌, ◌<◌, ◌≤◌, ◌++◌, ◌∷◌, [], All, length, map, IfOk, OnOk};
ghost use Rattle.chip_sim.specs.State.{sim_state};
ghost use Rattle.tool_steps.specs.Boot.{with_command};
ghost use Rattle.ctl_tests.specs.Small.{IsSmall, IsSmallFlip, ArePairOfSmall, asking, boot_of, dumping, erasing, marking, no_faults, reading_sessions, small_parts, small_sessions, small_sizes};

use chip_sim::SimChip;
use ctl_core::{ControllerBoot, Core, FlashList};
use ecc_page::EccPage;
use fault_plan::{Faults, WeakList};
use mtd_part::Parts;
use nand_model::{BadMode, BlockList, Command, Geometry, Part};
use std::alloc::{AllocError, Global};
use std::test::Fail;

/// A controller of two chips of eight blocks, with device 0 on the first block of chip 0 and device
/// 1 on that of chip 1. Session 0 erases device 0 and asks for the state of device 1's block;
/// session 1 asks for that of device 0's block and marks device 1's.
pub fn small_core(alloc: Global) -> Result<Core<SimChip, EccPage>, Fail> {
    let boot = small_boot(alloc)?;
    let flashes = small_flashes(alloc)?;
    Ok(Core::start(alloc, boot, flashes, EccPage)?)
}

/// A controller of the same chips and devices with these faults. Session 0 dumps the first page of
/// device 0 three times, by its cells alone.
pub fn reading_core(alloc: Global, faults: Faults) -> Result<Core<SimChip, EccPage>, Fail>
    requires small { All IsSmallFlip faults.flips }
    requires few { length faults.flips ≤ 65536 }
{
    let boot = reading_boot(alloc, faults)?;
    let flashes = small_flashes(alloc)?;
    Ok(Core::start(alloc, boot, flashes, EccPage)?)
}

// The sizes of the chips.
fn sizes() -> Geometry
    ensures { result ≡ small_sizes }
{
    Geometry {
        page: 2048,
        spare: 64,
        pages_per_block: 64,
        blocks: 8,
        t: 1,
        bbt: 0,
        threshold: 1,
    }
}

// A new chip of these sizes.
fn small_chip(alloc: Global) -> Result<SimChip, Fail>
    ensures { IfOk result (λ chip. IsSmall (sim_state chip)) }
{
    Ok(SimChip::new(alloc, sizes(), &BlockList::new(alloc), WeakList::new(alloc))?)
}

// Two such chips.
fn small_flashes(alloc: Global) -> Result<FlashList<SimChip>, Fail>
    ensures { IfOk result (λ flashes. ArePairOfSmall (map sim_state flashes)) }
{
    let mut flashes = FlashList::new(alloc);
    flashes.append(small_chip(alloc)?)?;
    flashes.append(small_chip(alloc)?)?;
    Ok(flashes)
}

// One device of one block on each chip.
fn small_parts(alloc: Global) -> Result<Parts, Fail>
    ensures { IfOk result (λ parts. parts ≡ small_parts) }
{
    let mut parts = Parts::new(alloc, 0);
    let (start, count) = (0, 1);
    parts.add(
        Part {
            chip: 0,
            start,
            count,
        },
        8,
    )?;
    parts.add(
        Part {
            chip: 1,
            start,
            count,
        },
        8,
    )?;
    Ok(parts)
}

// The two sessions that erase, ask and mark.
fn small_boot(alloc: Global) -> Result<ControllerBoot, Fail>
    ensures { IfOk result (λ boot. boot ≡ boot_of no_faults small_sessions) }
{
    let mut boot = ControllerBoot::new(alloc, small_parts(alloc)?, Faults::new(alloc));
    boot.add_session(0)?;
    add(&mut boot, erase(0))?;
    add(&mut boot, ask(1))?;
    boot.add_session(1)?;
    add(&mut boot, ask(0))?;
    add(&mut boot, mark(1))?;
    Ok(boot)
}

// The session that dumps.
fn reading_boot(alloc: Global, faults: Faults) -> Result<ControllerBoot, Fail>
    ensures { IfOk result (λ boot. boot ≡ boot_of faults reading_sessions) }
{
    let mut boot = ControllerBoot::new(alloc, small_parts(alloc)?, faults);
    boot.add_session(0)?;
    add(&mut boot, dump(0))?;
    add(&mut boot, dump(0))?;
    add(&mut boot, dump(0))?;
    Ok(boot)
}

// Adds a command to the last session.
fn add(boot: &mut ControllerBoot, command: Command) -> Result<(), AllocError>
    requires { 0 < length boot.old.sessions }
    ensures { OnOk result (boot.new ≡ with_command boot.old command) }
{
    match boot.add_command(command) {
        Ok(()) => Ok(()),
        Err((_, refused)) => Err(refused),
    }
}

// Erases a device of one block.
fn erase(dev: u32) -> Command
    ensures { result ≡ erasing dev }
{
    Command::FlashErase {
        dev,
        blocks: 1,
        no_scan: true,
        start: 0,
        count: 0,
    }
}

// Asks for the state of the block of a device of one block.
fn ask(dev: u32) -> Command
    ensures { result ≡ asking dev }
{
    Command::IsBad {
        dev,
        blocks: 1,
        block: 0,
    }
}

// Marks the block of a device of one block.
fn mark(dev: u32) -> Command
    ensures { result ≡ marking dev }
{
    Command::MarkBad {
        dev,
        blocks: 1,
        block: 0,
    }
}

// Dumps the cells of the first page of a device of one block, whatever the block's state.
fn dump(dev: u32) -> Command
    ensures { result ≡ dumping dev }
{
    Command::NandDump {
        dev,
        blocks: 1,
        off: 0,
        len: 2048,
        raw: true,
        oob: false,
        bad: BadMode::DumpBad,
    }
}
