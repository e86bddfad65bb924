// The boots of the plan of a number.
ghost use Rattle.std.specs.Prelude.{◌≡◌, ◌++◌, ◌/◌, map, IfOk, OnOk};
ghost use Rattle.made_plan.specs.Made.{flipped_bits, made_devices, made_flip, made_flips, reading_boot, reading_session, writing_boot, writing_session};

use crate::payloads::data_name;
use nand_model::{BadMode, BlockList, Flip, ItemList};
use plan_grammar::{BootLines, CommandLine, FaultLine, SessionLines};
use std::alloc::{AllocError, Global};

/// The number of devices.
const DEVICES: u32 = 16;

/// The bits that may flip.
const FLIPPED: [u32; 4] = [100, 200, 300, 400];

// The controller of a device.
fn controller_of(dev: u32) -> u32
    ensures { result ≡ dev / 8 }
{
    dev / 8
}

// The session of a device in the first boot.
fn writing_session(alloc: Global, dev: u32) -> Result<SessionLines, AllocError>
    ensures { IfOk result (λ session. session ≡ writing_session dev) }
{
    let device = u64::from(dev);
    let mut commands = ItemList::new(alloc);
    commands.append(CommandLine::FlashErase {
        dev: device,
        no_scan: false,
        start: 0,
        count: 0,
    })?;
    commands.append(CommandLine::NandWrite {
        dev: device,
        mark: false,
        raw: false,
        oob: false,
        pad: false,
        off: 0,
        name: data_name(alloc, dev)?,
    })?;
    commands.append(CommandLine::NandTest {
        dev: device,
        keep: false,
        mark: false,
        seed: 0,
        passes: 1,
        off: 131_072,
        len: 131_072,
    })?;
    commands.append(CommandLine::MarkBad {
        dev: device,
        block: 13,
    })?;
    Ok(SessionLines {
        controller: controller_of(dev),
        commands,
    })
}

// The session of a device in the second boot.
fn reading_session(alloc: Global, dev: u32) -> Result<SessionLines, AllocError>
    ensures { IfOk result (λ session. session ≡ reading_session dev) }
{
    let device = u64::from(dev);
    let mut commands = ItemList::new(alloc);
    commands.append(CommandLine::NandDump {
        dev: device,
        off: 0,
        len: 131_072,
        raw: false,
        oob: false,
        bad: BadMode::PadBad,
    })?;
    commands.append(CommandLine::IsBad {
        dev: device,
        block: 13,
    })?;
    commands.append(CommandLine::Stats { dev: device })?;
    Ok(SessionLines {
        controller: controller_of(dev),
        commands,
    })
}

// The sessions of the first boot.
fn writing_sessions(alloc: Global) -> Result<ItemList<SessionLines>, AllocError>
    ensures { IfOk result (λ sessions. sessions ≡ map writing_session made_devices) }
{
    let mut sessions = ItemList::new(alloc);
    for dev in 0..DEVICES {
        sessions.append(writing_session(alloc, dev)?)?;
    }
    Ok(sessions)
}

// The sessions of the second boot.
fn reading_sessions(alloc: Global) -> Result<ItemList<SessionLines>, AllocError>
    ensures { IfOk result (λ sessions. sessions ≡ map reading_session made_devices) }
{
    let mut sessions = ItemList::new(alloc);
    for dev in 0..DEVICES {
        sessions.append(reading_session(alloc, dev)?)?;
    }
    Ok(sessions)
}

// The bits that flip on a device.
fn flipped_bits(alloc: Global, n: u64, dev: u32) -> Result<BlockList, AllocError>
    ensures { IfOk result (λ bits. bits ≡ flipped_bits n dev) }
{
    let count = ((n % 5 + u64::from(dev)) % 5) as usize;
    Ok(ItemList::from_vec(FLIPPED[..count].to_vec(alloc)?))
}

// Appends the line of the flip on a device, where there is one.
fn put_flip(
    faults: &mut ItemList<FaultLine>,
    alloc: Global,
    n: u64,
    dev: u32,
) -> Result<(), AllocError>
    ensures { OnOk result (faults.new ≡ faults.old ++ made_flip n dev) }
{
    let bits = flipped_bits(alloc, n, dev)?;
    if bits.len() == 0 {
        return Ok(());
    }
    faults.append(FaultLine::Flip {
        controller: controller_of(dev),
        flip: Flip {
            chip: dev % 8 / 2,
            page: 896 * (dev % 2),
            before: 1,
            bits,
        },
    })
}

// The flips on all devices.
fn made_flips(alloc: Global, n: u64) -> Result<ItemList<FaultLine>, AllocError>
    ensures { IfOk result (λ faults. faults ≡ made_flips n) }
{
    let mut faults = ItemList::new(alloc);
    for dev in 0..DEVICES {
        put_flip(&mut faults, alloc, n, dev)?;
    }
    Ok(faults)
}

/// The first boot.
#[tactic(auto, unfolding(crate::specs::Made::writing_boot))]
pub fn writing_boot(alloc: Global) -> Result<BootLines, AllocError>
    ensures { IfOk result (λ boot. boot ≡ writing_boot) }
{
    Ok(BootLines {
        faults: ItemList::new(alloc),
        sessions: writing_sessions(alloc)?,
        schedule: ItemList::new(alloc),
    })
}

/// The second boot.
#[tactic(auto, unfolding(crate::specs::Made::reading_boot))]
pub fn reading_boot(alloc: Global, n: u64) -> Result<BootLines, AllocError>
    ensures { IfOk result (λ boot. boot ≡ reading_boot n) }
{
    Ok(BootLines {
        faults: made_flips(alloc, n)?,
        sessions: reading_sessions(alloc)?,
        schedule: ItemList::new(alloc),
    })
}
