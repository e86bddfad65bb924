// What a controller that is over leaves.
ghost use Rattle.std.specs.Prelude.{◌≡◌, ◌≤◌, ◌<◌, All, length, map, sum_by, IfOk};
ghost use Rattle.nand_model.specs.declared.words.Part.{Part as Partition};
ghost use Rattle.nand_model.specs.Partitions.{chip_of};
ghost use Rattle.ctl_core.specs.Ended.{ends_beside, slot_flash, slot_bad_blocks, slot_statistics, slot_statistics_at};
ghost use Rattle.run_model.specs.Statistics.{device_numbers};
ghost use Rattle.ctl_core.specs.Board.{slot_state};

use crate::board::Slot;
use mtd_part::Parts;
use nand_iface::{Flash, History, PageCode, Stats};
use session_steps::{OutcomeList, Session, StatsList};
use std::alloc::{AllocError, Global};
use tool_steps::{ControllerBoot, FlashList};

/// What a controller that is over leaves.
#[derive(Drop)]
pub struct Ended<F> {
    /// The flashes, by the number of their chip.
    pub flashes: FlashList<F>,
    /// The notes.
    pub notes: History,
    /// How each session ended, in order.
    pub outcomes: OutcomeList,
    /// The ECC statistics of each device, in order.
    pub stats: StatsList,
    /// The number of blocks of all chips that are worn or factory bad.
    pub bad: u32,
}

// The flashes of the chips.
pub fn stop_all<F: Flash, C: PageCode>(
    alloc: Global,
    slots: Vec<Slot<F, C>>,
) -> Result<FlashList<F>, AllocError>
    ensures { IfOk result (λ flashes. map F.state flashes
        ≡ map slot_flash (map slot_state slots.items)) }
{
    let mut flashes = FlashList::new(alloc);
    for slot in slots {
        let Slot { chip, .. } = slot;
        flashes.append(chip.stop())?;
    }
    Ok(flashes)
}

// How the sessions of the boot ended: cut short where a command is left.
pub fn end_all(
    alloc: Global,
    boot: &ControllerBoot,
    sessions: Vec<Session>,
    notes: &History,
) -> Result<OutcomeList, AllocError>
    requires { length sessions.items ≤ length boot.now.sessions }
    ensures { IfOk result
        (λ ends. ends ≡ ends_beside boot.now.sessions notes.now.notes sessions.items) }
{
    let mut ends = OutcomeList::new(alloc);
    for session in sessions {
        let commands = boot.commands(ends.len());
        let cut = !session.is_over(commands, notes);
        let end = session.finish(commands, notes, cut)?;
        ends.append(end)?;
    }
    Ok(ends)
}

// The statistics of each device.
pub fn all_statistics<F: Flash, C: PageCode>(
    alloc: Global,
    slots: &[Slot<F, C>],
    parts: &Parts,
) -> Result<StatsList, AllocError>
    requires { All (λ (part : Partition). part.chip < length slots.now) parts.now.parts }
    ensures { IfOk result (λ stats. stats
        ≡ slot_statistics parts.now (map slot_state slots.now) (device_numbers parts.now)) }
{
    let mut stats = StatsList::new(alloc);
    for n in 0..parts.len() {
        let dev = parts.first() + n as u32;
        stats.append((dev, statistics(slots, parts, dev)))?;
    }
    Ok(stats)
}

// The statistics of a device.
fn statistics<F: Flash, C: PageCode>(slots: &[Slot<F, C>], parts: &Parts, dev: u32) -> Stats
    requires { All (λ (part : Partition). part.chip < length slots.now) parts.now.parts }
    ensures { result ≡ slot_statistics_at (map slot_state slots.now) (chip_of parts.now dev) dev }
{
    match parts.get(dev) {
        Some(part) => slots[part.chip as usize].stats(dev),
        None => Stats {
            corrected: 0,
            failed: 0,
        },
    }
}

// The number of bad blocks of all chips.
pub fn all_bad<F: Flash, C: PageCode>(slots: &[Slot<F, C>]) -> u32
    requires { length slots.now ≤ 8 }
    ensures { result ≡ sum_by slot_bad_blocks (map slot_state slots.now) }
{
    let mut bad = 0;
    for slot in slots {
        bad += slot.chip.bad();
    }
    bad
}
