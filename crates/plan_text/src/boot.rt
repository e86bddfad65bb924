// A controller's part of a boot of a plan.
ghost use Rattle.std.specs.Prelude.{◌≡◌, ◌<◌, length, IfOk};
ghost use Rattle.plan_grammar.specs.Meaning.{plan_of};
ghost use Rattle.plan_laws.specs.Ready.{part_at};

use crate::faults::faults_for;
use crate::parts::{devices_before, parts_of};
use crate::plan::Plan;
use crate::sessions::add_sessions;
use std::alloc::{AllocError, Global};
use tool_steps::ControllerBoot;

impl Plan {
    /// A controller's part of a boot: its partitions, whose device numbers go on from those of the
    /// controllers before it, its flips and its cut, and its sessions, by their numbers in the boot,
    /// with their commands.
    pub fn boot(
        &self,
        alloc: Global,
        boot: u32,
        controller: u32,
    ) -> Result<ControllerBoot, AllocError>
        requires boots { boot < length (plan_of self.now).boots }
        requires controllers { controller < length (plan_of self.now).controllers }
        ensures { IfOk result (λ part. part ≡ part_at (plan_of self.now) boot controller) }
    {
        let _kept = &self.commands;
        let controllers = &self.lines().controllers;
        let lines = self.boot_lines(boot);
        let first = devices_before(controllers, controller as usize) as u32;
        let parts = parts_of(alloc, first, controllers.get(controller as usize))?;
        let faults = faults_for(alloc, controller, &lines.faults)?;
        let mut part = ControllerBoot::new(alloc, parts, faults);
        add_sessions(alloc, &self.draft, &mut part, controller, &lines.sessions)?;
        Ok(part)
    }
}
