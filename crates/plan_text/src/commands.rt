// The commands of a plan's lines.
ghost use Rattle.std.specs.Prelude.{◌≡◌, ◌<◌, ◌^◌, IfOk, All, map};
ghost use Rattle.plan_grammar.specs.Costs.{device_in};
ghost use Rattle.plan_grammar.specs.Devices.{device_at};
ghost use Rattle.plan_grammar.specs.Meaning.{blocks_of, command_of};
ghost use Rattle.plan_text.specs.Plan.{HasSmallDevice, HaveSmallDevices, all_commands, session_commands};

use crate::payload::bytes_named;
use nand_model::{Command, ItemList};
use plan_grammar::{BootLines, CommandLine, SessionLines};
use plan_store::PlanDraft;
use std::alloc::{AllocError, Global};

// The blocks of a device; none where there is no such device.
fn blocks_of(draft: &PlanDraft, dev: u64) -> u32
    ensures { result ≡ blocks_of (device_at draft.now dev) }
{
    match draft.device(dev) {
        Some(device) => device.blocks,
        None => 0,
    }
}

/// The command of a line.
pub fn command_of(
    alloc: Global,
    draft: &PlanDraft,
    line: &CommandLine,
) -> Result<Command, AllocError>
    requires { HasSmallDevice line.now }
    ensures { IfOk result (λ command. command ≡ command_of draft.now line.now) }
{
    match line {
        CommandLine::FlashErase {
            dev,
            no_scan,
            start,
            count,
        } => Ok(Command::FlashErase {
            dev: *dev as u32,
            blocks: blocks_of(draft, *dev),
            no_scan: *no_scan,
            start: *start,
            count: *count,
        }),
        CommandLine::NandWrite {
            dev,
            mark,
            raw,
            oob,
            pad,
            off,
            name,
        } => Ok(Command::NandWrite {
            dev: *dev as u32,
            blocks: blocks_of(draft, *dev),
            mark: *mark,
            raw: *raw,
            oob: *oob,
            pad: *pad,
            off: *off,
            bytes: bytes_named(alloc, draft, name.as_slice())?,
        }),
        CommandLine::NandDump {
            dev,
            off,
            len,
            raw,
            oob,
            bad,
        } => Ok(Command::NandDump {
            dev: *dev as u32,
            blocks: blocks_of(draft, *dev),
            off: *off,
            len: *len,
            raw: *raw,
            oob: *oob,
            bad: *bad,
        }),
        CommandLine::NandTest {
            dev,
            keep,
            mark,
            seed,
            passes,
            off,
            len,
        } => Ok(Command::NandTest {
            dev: *dev as u32,
            blocks: blocks_of(draft, *dev),
            keep: *keep,
            mark: *mark,
            seed: *seed,
            passes: *passes,
            off: *off,
            len: *len,
        }),
        CommandLine::MarkBad { dev, block } => Ok(Command::MarkBad {
            dev: *dev as u32,
            blocks: blocks_of(draft, *dev),
            block: *block,
        }),
        CommandLine::IsBad { dev, block } => Ok(Command::IsBad {
            dev: *dev as u32,
            blocks: blocks_of(draft, *dev),
            block: *block,
        }),
        CommandLine::Stats { dev } => Ok(Command::Stats {
            dev: *dev as u32,
            blocks: blocks_of(draft, *dev),
        }),
    }
}

/// The commands of these lines.
pub fn commands_of(
    alloc: Global,
    draft: &PlanDraft,
    lines: &ItemList<CommandLine>,
) -> Result<ItemList<Command>, AllocError>
    requires { All HasSmallDevice lines.now }
    ensures { IfOk result (λ commands. commands ≡ map (command_of draft.now) lines.now) }
{
    let mut commands = ItemList::new(alloc);
    for line in lines {
        commands.append(command_of(alloc, draft, line)?)?;
    }
    Ok(commands)
}

// The commands of a boot's sessions.
fn session_commands(
    alloc: Global,
    draft: &PlanDraft,
    boot: &BootLines,
) -> Result<ItemList<ItemList<Command>>, AllocError>
    requires { HaveSmallDevices boot.now }
    ensures { IfOk result (λ commands. commands ≡ session_commands draft.now boot.now) }
{
    let mut commands = ItemList::new(alloc);
    for session in &boot.sessions {
        commands.append(commands_of(alloc, draft, &session.commands)?)?;
    }
    Ok(commands)
}

/// The commands of each session of each boot.
pub fn all_commands(
    alloc: Global,
    draft: &PlanDraft,
) -> Result<ItemList<ItemList<ItemList<Command>>>, AllocError>
    requires { All HaveSmallDevices draft.now.boots }
    ensures { IfOk result (λ commands. commands ≡ all_commands draft.now) }
{
    let mut commands = ItemList::new(alloc);
    for boot in &draft.lines().boots {
        commands.append(session_commands(alloc, draft, boot)?)?;
    }
    Ok(commands)
}
