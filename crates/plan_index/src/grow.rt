// Lines added to the last chip, the last boot and the last session.
ghost use Rattle.std.specs.Prelude.{◌≡◌, ◌∷◌, ◌++◌, [], List, OnOk};
ghost use Rattle.plan_grammar.specs.declared.lines.ChipLines.{ChipLines as Chip};
ghost use Rattle.plan_grammar.specs.Rules.{with_last};
ghost use Rattle.plan_grammar.specs.Hardware.{with_chip, with_detail, with_part};
ghost use Rattle.plan_grammar.specs.Faults.{with_fault, with_last_boot};
ghost use Rattle.plan_grammar.specs.Sessions.{with_session};
ghost use Rattle.plan_grammar.specs.Commands.{with_command};
ghost use Rattle.plan_index.specs.Chip.{with_detail_line, with_part_line};
ghost use Rattle.plan_index.specs.Boots.{with_fault_line, with_session_line, with_schedule_line, with_command_line, with_boot_command};

use nand_model::ItemList;
use plan_grammar::{
    BootLines, ChipLines, CommandLine, DetailLine, FaultLine, PartLine, PlanLines, SessionLines,
};
use std::alloc::AllocError;

// Adds a chip to the last of these controllers.
fn add_controller_chip(
    controllers: &mut [ItemList<ChipLines>],
    chip: ChipLines,
) -> Result<(), AllocError>
    ensures { OnOk result (controllers.new
        ≡ with_last (λ (chips : List Chip). chips ++ chip ∷ []) controllers.old) }
{
    match controllers.last_mut() {
        Some(chips) => chips.append(chip),
        None => Ok(()),
    }
}

/// Adds a chip to the last controller.
pub fn add_chip(plan: &mut PlanLines, chip: ChipLines) -> Result<(), AllocError>
    ensures { OnOk result (plan.new ≡ with_chip chip plan.old) }
{
    add_controller_chip(plan.controllers.as_mut_slice(), chip)
}

// Adds a line that tells more of it to the last of these chips.
fn add_chip_detail(chips: &mut [ChipLines], detail: DetailLine) -> Result<(), AllocError>
    ensures { OnOk result (chips.new ≡ with_last (with_detail_line detail) chips.old) }
{
    match chips.last_mut() {
        Some(chip) => chip.details.append(detail),
        None => Ok(()),
    }
}

// Adds a line that tells more of it to the last of these chips.
fn add_list_detail(chips: &mut ItemList<ChipLines>, detail: DetailLine) -> Result<(), AllocError>
    ensures { OnOk result (chips.new ≡ with_last (with_detail_line detail) chips.old) }
{
    add_chip_detail(chips.as_mut_slice(), detail)
}

// Adds a line that tells more of it to the last chip of the last of these controllers.
fn add_controller_detail(
    controllers: &mut [ItemList<ChipLines>],
    detail: DetailLine,
) -> Result<(), AllocError>
    ensures { OnOk result (controllers.new
        ≡ with_last (with_last (with_detail_line detail)) controllers.old) }
{
    match controllers.last_mut() {
        Some(chips) => add_list_detail(chips, detail),
        None => Ok(()),
    }
}

/// Adds a line that tells more of it to the last chip.
pub fn add_detail(plan: &mut PlanLines, detail: DetailLine) -> Result<(), AllocError>
    ensures { OnOk result (plan.new ≡ with_detail detail plan.old) }
{
    add_controller_detail(plan.controllers.as_mut_slice(), detail)
}

// Adds a partition to the last of these chips.
fn add_chip_part(chips: &mut [ChipLines], part: PartLine) -> Result<(), AllocError>
    ensures { OnOk result (chips.new ≡ with_last (with_part_line part) chips.old) }
{
    match chips.last_mut() {
        Some(chip) => chip.parts.append(part),
        None => Ok(()),
    }
}

// Adds a partition to the last of these chips.
fn add_list_part(chips: &mut ItemList<ChipLines>, part: PartLine) -> Result<(), AllocError>
    ensures { OnOk result (chips.new ≡ with_last (with_part_line part) chips.old) }
{
    add_chip_part(chips.as_mut_slice(), part)
}

// Adds a partition to the last chip of the last of these controllers.
fn add_controller_part(
    controllers: &mut [ItemList<ChipLines>],
    part: PartLine,
) -> Result<(), AllocError>
    ensures { OnOk result (controllers.new
        ≡ with_last (with_last (with_part_line part)) controllers.old) }
{
    match controllers.last_mut() {
        Some(chips) => add_list_part(chips, part),
        None => Ok(()),
    }
}

/// Adds a partition to the last chip.
pub fn add_part(plan: &mut PlanLines, part: PartLine) -> Result<(), AllocError>
    ensures { OnOk result (plan.new ≡ with_part part plan.old) }
{
    add_controller_part(plan.controllers.as_mut_slice(), part)
}

// Adds a fault to the last of these boots.
fn add_boot_fault(boots: &mut [BootLines], fault: FaultLine) -> Result<(), AllocError>
    ensures { OnOk result (boots.new ≡ with_last (with_fault_line fault) boots.old) }
{
    match boots.last_mut() {
        Some(boot) => boot.faults.append(fault),
        None => Ok(()),
    }
}

/// Adds a fault to the last boot.
pub fn add_fault(plan: &mut PlanLines, fault: FaultLine) -> Result<(), AllocError>
    ensures { OnOk result (plan.new ≡ with_fault fault plan.old) }
{
    add_boot_fault(plan.boots.as_mut_slice(), fault)
}

// Adds a session to the last of these boots.
fn add_boot_session(boots: &mut [BootLines], session: SessionLines) -> Result<(), AllocError>
    ensures { OnOk result (boots.new ≡ with_last (with_session_line session) boots.old) }
{
    match boots.last_mut() {
        Some(boot) => boot.sessions.append(session),
        None => Ok(()),
    }
}

/// Adds a session to the last boot.
pub fn add_session(plan: &mut PlanLines, session: SessionLines) -> Result<(), AllocError>
    ensures { OnOk result (plan.new ≡ with_session session plan.old) }
{
    add_boot_session(plan.boots.as_mut_slice(), session)
}

// The schedule of the last of these boots is this.
fn set_boot_schedule(boots: &mut [BootLines], schedule: ItemList<u32>)
    ensures { boots.new ≡ with_last (with_schedule_line schedule) boots.old }
{
    if let Some(boot) = boots.last_mut() {
        boot.schedule = schedule;
    }
}

/// The schedule of the last boot is this.
pub fn set_schedule(plan: &mut PlanLines, schedule: ItemList<u32>)
    ensures { plan.new ≡ with_last_boot (with_schedule_line schedule) plan.old }
{
    set_boot_schedule(plan.boots.as_mut_slice(), schedule)
}

// Adds a command to the last of these sessions.
fn add_session_command(
    sessions: &mut [SessionLines],
    command: CommandLine,
) -> Result<(), AllocError>
    ensures { OnOk result (sessions.new ≡ with_last (with_command_line command) sessions.old) }
{
    match sessions.last_mut() {
        Some(session) => session.commands.append(command),
        None => Ok(()),
    }
}

// Adds a command to the last of these sessions.
fn add_list_command(
    sessions: &mut ItemList<SessionLines>,
    command: CommandLine,
) -> Result<(), AllocError>
    ensures { OnOk result (sessions.new ≡ with_last (with_command_line command) sessions.old) }
{
    add_session_command(sessions.as_mut_slice(), command)
}

// Adds a command to the last session of the last of these boots.
fn add_boot_command(boots: &mut [BootLines], command: CommandLine) -> Result<(), AllocError>
    ensures { OnOk result (boots.new ≡ with_last (with_boot_command command) boots.old) }
{
    match boots.last_mut() {
        Some(boot) => add_list_command(&mut boot.sessions, command),
        None => Ok(()),
    }
}

/// Adds a command to the last session of the last boot.
pub fn add_command(plan: &mut PlanLines, command: CommandLine) -> Result<(), AllocError>
    ensures { OnOk result (plan.new ≡ with_command command plan.old) }
{
    add_boot_command(plan.boots.as_mut_slice(), command)
}
