// A plan that was read.
ghost use Rattle.std.specs.Prelude.{◌≡◌, ◌<◌, Some, length, slice_get, IfOk, option_copied};
ghost use Rattle.plan_grammar.specs.Meaning.{plan_of};
ghost use Rattle.plan_laws.specs.Ready.{boot_at};
ghost use Rattle.plan_text.specs.Plan.{IsOfBytes, command_at};

use crate::commands::all_commands;
use nand_model::{Command, ItemList};
use plan_grammar::{BootLines, PlanLines};
use plan_store::PlanDraft;
use std::alloc::{AllocError, Global};
use std::marker::Model;

/// A plan that was read. Contracts see it as its lines; what they stand for is `plan_of`. Numbers
/// of controllers, boots, sessions and commands are counted from 0.
#[derive(Drop)]
pub struct Plan {
    pub(crate) draft: PlanDraft,
    pub(crate) commands: ItemList<ItemList<ItemList<Command>>>,
}

impl Model for Plan {
    ghost use Rattle.plan_grammar.specs.declared.lines.PlanLines.{PlanLines};

    ghost Value = { PlanLines };

    ghost view = { λ p. p.draft };

    ghost use Rattle.plan_text.specs.Plan.{IsKept};

    ghost invariant = { λ p. IsKept p.draft p.commands };
}

impl Plan {
    /// The plan of these lines.
    pub(crate) fn of(alloc: Global, draft: PlanDraft) -> Result<Plan, AllocError>
        requires { IsOfBytes draft }
        ensures { IfOk result (λ plan. plan ≡ draft) }
    {
        let commands = all_commands(alloc, &draft)?;
        Ok(Plan { draft, commands })
    }

    /// Some bytes were read as it, so that what holds of every plan that is read holds of it.
    pub fn was_read(&self)
        ensures { IsOfBytes self.now }
    {
        let _kept = &self.commands;
    }

    /// Lends its lines.
    pub fn lines(&self) -> &PlanLines
        ensures { result.now ≡ self.now }
    {
        self.draft.lines()
    }

    /// The number of controllers.
    pub fn controllers(&self) -> u32
        ensures { result ≡ length (plan_of self.now).controllers }
    {
        let _kept = &self.commands;
        self.lines().controllers.len() as u32
    }

    /// The number of boots.
    pub fn boots(&self) -> u32
        ensures { result ≡ length (plan_of self.now).boots }
    {
        let _kept = &self.commands;
        self.lines().boots.len() as u32
    }

    /// Lends the lines of a boot.
    pub(crate) fn boot_lines(&self, boot: u32) -> &BootLines
        requires { boot < length (plan_of self.now).boots }
        ensures { slice_get self.now.boots boot ≡ Some result.now }
    {
        self.lines().boots.get(boot as usize)
    }

    /// The number of a boot's sessions.
    pub fn sessions(&self, boot: u32) -> u32
        requires { boot < length (plan_of self.now).boots }
        ensures { result ≡ length (boot_at (plan_of self.now) boot).sessions }
    {
        let _kept = &self.commands;
        self.boot_lines(boot).sessions.len() as u32
    }

    /// Lends a boot's schedule, which is empty where it has no such line.
    pub fn schedule(&self, boot: u32) -> &ItemList<u32>
        requires { boot < length (plan_of self.now).boots }
        ensures { result.now ≡ (boot_at (plan_of self.now) boot).schedule }
    {
        &self.boot_lines(boot).schedule
    }

    /// Lends the `n`-th command of a boot's session. None comes exactly where there is none.
    pub fn command(&self, boot: u32, session: u32, n: usize) -> Option<&Command>
        requires boots { boot < length (plan_of self.now).boots }
        requires sessions { session < length (boot_at (plan_of self.now) boot).sessions }
        ensures { option_copied result ≡ command_at (plan_of self.now) boot session n }
    {
        let commands = self.commands.get(boot as usize).get(session as usize);
        if n < commands.len() {
            Some(commands.get(n))
        } else {
            None
        }
    }
}
