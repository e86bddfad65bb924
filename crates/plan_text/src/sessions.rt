// The sessions of a plan's controllers.
ghost use Rattle.std.specs.Prelude.{◌≡◌, ◌<◌, ◌≤◌, ◌∷◌, [], length, All, OnOk};
ghost use Rattle.tool_steps.specs.Boot.{with_command};
ghost use Rattle.plan_text.specs.Boot.{AreBelow, AreSmall, sessions_for, with_sessions};

use crate::commands::command_of;
use nand_model::{Command, ItemList};
use plan_grammar::SessionLines;
use plan_store::PlanDraft;
use std::alloc::{AllocError, Global};
use tool_steps::ControllerBoot;

// Adds a command to the last session.
fn add_command(boot: &mut ControllerBoot, command: Command) -> Result<(), AllocError>
    requires { 0 < length boot.old.sessions }
    ensures { OnOk result (boot.new ≡ with_command boot.old command) }
{
    boot.add_command(command).map_err(|refused| refused.1)
}

// Adds the session of this number, where it is one of this controller.
fn add_session(
    alloc: Global,
    draft: &PlanDraft,
    boot: &mut ControllerBoot,
    controller: u32,
    number: u32,
    session: &SessionLines,
) -> Result<(), AllocError>
    requires later { AreBelow number boot.old.sessions }
    requires small { AreSmall session.now }
    ensures { OnOk result (boot.new
        ≡ with_sessions boot.old (sessions_for draft.now controller number (session.now ∷ []))) }
{
    if session.controller != controller {
        return Ok(());
    }
    boot.add_session(number)?;
    for line in &session.commands {
        let command = command_of(alloc, draft, line)?;
        add_command(boot, command)?;
    }
    Ok(())
}

/// Adds the sessions of a controller among these, with their commands. They are numbered from 0.
pub fn add_sessions(
    alloc: Global,
    draft: &PlanDraft,
    boot: &mut ControllerBoot,
    controller: u32,
    sessions: &ItemList<SessionLines>,
) -> Result<(), AllocError>
    requires none_yet { boot.old.sessions ≡ [] }
    requires few { length sessions.now ≤ 64 }
    requires small { All AreSmall sessions.now }
    ensures { OnOk result (boot.new
        ≡ with_sessions boot.old (sessions_for draft.now controller 0 sessions.now)) }
{
    let mut number = 0;
    for session in sessions {
        add_session(alloc, draft, boot, controller, number, session)?;
        number += 1;
    }
    Ok(())
}
