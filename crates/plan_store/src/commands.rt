// The lines of commands.
ghost use Rattle.std.specs.Prelude.{◌≡◌, ◌+◌, ◌&&◌, ◌<◌, ◌^◌, nat_lt, nat_le, map, slice_get, Ok, Err, Some, MatchResult};
ghost use Rattle.std.specs.Option.{option_copied};
ghost use Rattle.command_model.specs.Command.{device_bytes};
ghost use Rattle.plan_grammar.specs.declared.lines.PlanLines.{PlanLines};
ghost use Rattle.plan_grammar.specs.Devices.{devices};
ghost use Rattle.plan_grammar.specs.Rules.{there};
ghost use Rattle.plan_grammar.specs.Commands.{command_line, device_of, range_rules};
ghost use Rattle.plan_index.specs.Data.{AreData};
ghost use Rattle.plan_index.specs.Devices.{size_of};
ghost use Rattle.plan_words.specs.Answer.{Answers};
ghost use Rattle.plan_store.specs.CommandRules.{command_rules, named_length, rules_on, write_rules_on, HasSession, IsDevice};

use crate::data::data_len;
use crate::draft::PlanDraft;
use crate::places::{last_session, rule, running_boot};
use plan_commands::command_words;
use plan_costs::{block_len, device_in, unit_len};
use plan_grammar::{CommandLine, LineKind, PlanKind};
use plan_index::{DataIndex, DeviceSize, add_command};
use plan_words::{LineError, Words};
use std::alloc::Global;

impl PlanDraft {
    /// A command, in a session: with it the commands of all boots take no more operations than a
    /// plan may.
    #[tactic(auto, unfolding(plan_grammar::specs::Commands::command_line))]
    pub fn command_line(
        self,
        alloc: Global,
        kind: LineKind,
        words: Words<'_>,
    ) -> Result<PlanDraft, LineError>
        ensures { Answers result (command_line kind self words.entry) }
    {
        let boot = running_boot(&self.lines)?;
        let sessions = boot.sessions.len();
        let controller = last_session(boot)?.controller;
        let command = command_words(alloc, kind, words)?;
        self.add_command(alloc, controller, sessions, command)
    }

    // Adds a command to the last of so many sessions, which is on this controller.
    fn add_command(
        self,
        alloc: Global,
        controller: u32,
        sessions: usize,
        command: CommandLine,
    ) -> Result<PlanDraft, LineError>
        requires { HasSession self sessions }
        ensures { Answers result (command_rules self controller command) }
    {
        let PlanDraft {
            mut lines,
            hardware,
            flips,
            data,
            costs,
        } = self;
        let size = *device_of(&hardware.devices, controller, device_in(&command))?;
        let len = named_length(&data, &command);
        rules_on(&size, len, &command)?;
        let costs = costs.with_command(alloc, &command, &size, len.unwrap_or(0), sessions)?;
        add_command(&mut lines, command)?;
        Ok(PlanDraft {
            lines,
            hardware,
            flips,
            data,
            costs,
        })
    }
}

/// Lends what is kept of the device of a number. None comes exactly where there is none.
pub fn size_at(sizes: &[DeviceSize], dev: u64) -> Option<&DeviceSize>
    ensures { option_copied result ≡ slice_get sizes.now dev }
{
    sizes.get(dev as usize)
}

// The device of a number, of this controller.
fn device_of(sizes: &[DeviceSize], controller: u32, dev: u64) -> Result<&DeviceSize, PlanKind>
    ensures { (plan : PlanLines) → sizes.now ≡ map size_of (devices plan) → MatchResult result
        (λ size. IsDevice plan controller dev size.now)
        (λ kind. device_of plan controller dev ≡ Err kind) }
{
    let size = size_at(sizes, dev).ok_or(PlanKind::UnknownDevice)?;
    if size.controller != controller as usize {
        return Err(PlanKind::UnknownDevice);
    }
    Ok(size)
}

// How many bytes the data are that a nandwrite names.
fn named_length(data: &DataIndex, command: &CommandLine) -> Option<u32>
    ensures { (plan : PlanLines) → AreData plan.payloads data.now
        → result ≡ named_length plan command.now }
{
    match command {
        CommandLine::NandWrite { name, .. } => data_len(data, name.as_slice()),
        _ => None,
    }
}

// The bytes of a device.
fn device_bytes(size: &DeviceSize) -> u64
    ensures { result ≡ device_bytes size.now.geometry size.now.blocks }
{
    u64::from(size.blocks) * block_len(&size.geometry)
}

// Whether a range begins within so many bytes and ends within them.
fn is_within(size: u64, off: u64, len: u64) -> bool
    ensures { result ≡ (nat_lt off size && nat_le (off + len) size) }
{
    off < size && len <= size - off
}

// The rules of a range of bytes, in units of one size.
#[tactic(auto, unfolding(plan_grammar::specs::Commands::range_rules))]
fn range_rules(unit: u64, size: u64, off: u64, len: u64) -> Result<(), PlanKind>
    requires { 0 < unit }
    ensures { result ≡ range_rules unit size off len }
{
    rule(off % unit == 0 && len % unit == 0, PlanKind::NotMultiple)?;
    rule(is_within(size, off, len), PlanKind::OutOfChip)
}

// The rules of a nandwrite.
#[tactic(auto, unfolding(crate::specs::CommandRules::write_rules_on))]
fn write_rules_on(
    size: &DeviceSize,
    oob: bool,
    pad: bool,
    off: u64,
    len: Option<u32>,
) -> Result<(), PlanKind>
    ensures { result ≡ write_rules_on size.now oob pad off len }
{
    let len = len.ok_or(PlanKind::UnknownName)?;
    let begins = off % u64::from(size.geometry.page) == 0;
    rule(
        begins && (pad || len % unit_len(&size.geometry, oob) == 0),
        PlanKind::NotMultiple,
    )?;
    rule(off < device_bytes(size), PlanKind::OutOfChip)
}

// The rules of a command's names and numbers on its device.
fn rules_on(size: &DeviceSize, len: Option<u32>, command: &CommandLine) -> Result<(), PlanKind>
    ensures { result ≡ rules_on size.now len command.now }
{
    match command {
        CommandLine::FlashErase { start, count, .. } => rule(
            is_within(u64::from(size.blocks), u64::from(*start), u64::from(*count)),
            PlanKind::OutOfChip,
        ),
        CommandLine::NandWrite { oob, pad, off, .. } => {
            write_rules_on(size, *oob, *pad, *off, len)
        }
        CommandLine::NandDump { off, len, .. } => range_rules(
            u64::from(size.geometry.page),
            device_bytes(size),
            *off,
            *len,
        ),
        CommandLine::NandTest { off, len, .. } => {
            range_rules(block_len(&size.geometry), device_bytes(size), *off, *len)
        }
        CommandLine::MarkBad { .. } | CommandLine::IsBad { .. } | CommandLine::Stats { .. } => {
            Ok(())
        }
    }
}
