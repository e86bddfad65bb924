// What is kept of all commands so far.
ghost use Rattle.std.specs.Prelude.{◌≡◌, ◌+◌, ◌*◌, ◌<◌, ◌^◌, ◌++◌, ◌∷◌, ◌==◌, if◌then◌else◌, [], ℕ, false, Some, IfOk, IfSome, OnOk};
ghost use Rattle.std.specs.Ordering.{nat_cmp};
ghost use Rattle.std.specs.BTreeMap.{get};
ghost use Rattle.plan_grammar.specs.declared.lines.PlanLines.{PlanLines};
ghost use Rattle.plan_grammar.specs.declared.lines.BootLines.{BootLines};
ghost use Rattle.plan_grammar.specs.Costs.{device_in};
ghost use Rattle.plan_grammar.specs.Commands.{with_command};
ghost use Rattle.plan_costs.specs.Room.{in_long, marks_of, room_of};
ghost use Rattle.plan_costs.specs.Kept.{troubles_in, troubles_of};
ghost use Rattle.plan_costs.specs.Costs.{AreCosts, IsNext, TakesCosts};

use crate::base::{base_cost, room_at};
use crate::troubles::DeviceTroubles;
use plan_grammar::{CommandLine, PlanKind};
use plan_index::DeviceSize;
use plan_words::LineError;
use std::alloc::{AllocError, Global};
use std::collections::BTreeMap;

/// The greatest cost of all commands.
const MOST_OPERATIONS: u64 = 65_536;

/// What is kept of all commands so far.
#[derive(Drop)]
pub struct CostIndex {
    /// What they cost.
    pub cost: u64,
    /// What is kept of those of the last boot, by the device's number.
    pub devices: BTreeMap<u64, DeviceTroubles>,
}

impl CostIndex {
    /// Of no boot. It takes no memory.
    pub fn new(alloc: Global) -> CostIndex
        ensures { (plan : PlanLines) → plan.boots ≡ [] → AreCosts plan result }
    {
        CostIndex {
            cost: 0,
            devices: BTreeMap::new(alloc),
        }
    }

    /// With one more boot. It takes no memory.
    pub fn with_boot(self, alloc: Global) -> CostIndex
        ensures { (plan : PlanLines) (boot : BootLines) → boot.sessions ≡ [] → AreCosts plan self
            → AreCosts (record plan { boots = plan.boots ++ boot ∷ [] }) result }
    {
        CostIndex {
            cost: self.cost,
            devices: BTreeMap::new(alloc),
        }
    }

    /// With one more command of the last session, on a device of this size, with data of so many
    /// bytes. `TooLarge` comes exactly where all commands take more operations than a plan may.
    pub fn with_command(
        self,
        alloc: Global,
        command: &CommandLine,
        size: &DeviceSize,
        len: u32,
        sessions: usize,
    ) -> Result<CostIndex, LineError>
        ensures { (plan : PlanLines) → AreCosts plan self
            → IsNext plan command.now size.now len sessions
            → TakesCosts result (with_command command.now plan) }
    {
        let mut devices = self.devices;
        let dev = device_in(command);
        let kept = take_out(alloc, &mut devices, dev, size, sessions)?;
        let (kept, lost) = kept.with(alloc, marks_of(size, command), room_of(size, command))?;
        let base = base_cost(size, command, len);
        let cost = cost_with(self.cost, base, size.geometry.pages_per_block, lost);
        if cost > MOST_OPERATIONS {
            return Err(LineError::Broken(PlanKind::TooLarge));
        }
        put(&mut devices, dev, kept)?;
        Ok(CostIndex { cost, devices })
    }
}

// A cost with one more command, whose pages and others may be lost; at most 2^64 - 1.
fn cost_with(cost: u64, base: u64, pages_per_block: u32, lost: u64) -> u64
    ensures { result ≡ in_long (cost + base + in_long ((pages_per_block + 2) * lost)) }
{
    let each = u64::from(pages_per_block) + 2;
    cost.saturating_add(base)
        .saturating_add(each.saturating_mul(lost))
}

/// The device that a command names.
pub fn device_in(command: &CommandLine) -> u64
    ensures { result ≡ device_in command.now }
{
    match command {
        CommandLine::FlashErase { dev, .. } => *dev,
        CommandLine::NandWrite { dev, .. } => *dev,
        CommandLine::NandDump { dev, .. } => *dev,
        CommandLine::NandTest { dev, .. } => *dev,
        CommandLine::MarkBad { dev, .. } => *dev,
        CommandLine::IsBad { dev, .. } => *dev,
        CommandLine::Stats { dev } => *dev,
    }
}

// How many blocks of its device a command may mark.
fn marks_of(size: &DeviceSize, command: &CommandLine) -> u32
    ensures { result ≡ marks_of size.now command.now }
{
    match command {
        CommandLine::NandWrite { mark: true, .. } => size.blocks,
        CommandLine::NandTest { mark: true, .. } => size.blocks,
        CommandLine::MarkBad { .. } => 1,
        _ => 0,
    }
}

// The blocks to which a nandwrite comes.
fn room_of(size: &DeviceSize, command: &CommandLine) -> Option<u32>
    ensures room { result ≡ room_of size.now command.now }
    ensures fits { IfSome result (λ room. room < 2 ^ 32) }
{
    match command {
        CommandLine::NandWrite { off, .. } => Some(room_at(size, *off)),
        _ => None,
    }
}

// Takes out what is kept of a device, as it is where the boot has so many sessions.
fn take_out(
    alloc: Global,
    devices: &mut BTreeMap<u64, DeviceTroubles>,
    dev: u64,
    size: &DeviceSize,
    sessions: usize,
) -> Result<DeviceTroubles, AllocError>
    ensures troubles { IfOk result (λ kept. troubles_of kept
        ≡ troubles_in sessions size.now (get nat_cmp devices.old dev)) }
    ensures sessions { IfOk result (λ kept. kept.sessions ≡ sessions) }
    ensures others { (other : ℕ) → (dev == other) ≡ false → get nat_cmp devices.new other
        ≡ get nat_cmp devices.old other }
{
    match devices.remove(&dev) {
        Some(kept) => kept.at(sessions),
        None => Ok(DeviceTroubles::new(alloc, size, sessions)),
    }
}

// Puts in what is kept of a device.
fn put(
    devices: &mut BTreeMap<u64, DeviceTroubles>,
    dev: u64,
    kept: DeviceTroubles,
) -> Result<(), AllocError>
    ensures { (other : ℕ) → OnOk result (get nat_cmp devices.new other
        ≡ (if dev == other then Some kept else get nat_cmp devices.old other)) }
{
    devices.insert(dev, kept)?;
    Ok(())
}
