// A controller's part of one boot.
ghost use Rattle.std.specs.Prelude.{◌≡◌, ◌<◌, [], ℕ, List, length, All, OnOk, OnErr, IfErr, option_copied};
ghost use Rattle.nand_model.specs.declared.words.Command.{Command as Ordered};
ghost use Rattle.tool_steps.specs.Boot.{boot_with, faults_of, with_session, with_command, session_number, commands_at, command_at};

use fault_plan::Faults;
use mtd_part::Parts;
use nand_model::{Command, ItemList};
use std::alloc::{AllocError, Global};
use std::marker::Model;

/// The chips of a controller, by number.
pub type FlashList<F> = ItemList<F>;

/// The sessions whose turns come, in order.
pub type Schedule = ItemList<u32>;

/// A session and its commands, in order.
#[derive(Drop)]
struct Session {
    number: u32,
    commands: ItemList<Command>,
}

/// A controller's part of one boot: its partitions, its faults, and its sessions with their
/// commands.
#[derive(Drop)]
pub struct ControllerBoot {
    partitions: Parts,
    faults: Faults,
    order: Vec<Session>,
}

impl Model for ControllerBoot {
    ghost use Rattle.std.specs.Prelude.{map};
    ghost use Rattle.command_model.specs.Boot.{Boot};
    ghost use Rattle.tool_steps.specs.declared.boot.Session.{Session};
    ghost use Rattle.tool_steps.specs.Boot.{boot_with};

    ghost Value = { Boot };

    ghost view = { λ b. boot_with b.partitions b.faults (map (λ (s : Session). (s.number, s.commands)) b.order.items) };
}

impl ControllerBoot {
    /// These partitions and faults, and no session. It takes no memory.
    pub fn new(alloc: Global, parts: Parts, faults: Faults) -> ControllerBoot
        ensures { result ≡ boot_with parts faults [] }
    {
        ControllerBoot {
            partitions: parts,
            faults,
            order: Vec::new(alloc),
        }
    }

    /// Adds a session without commands. Where memory runs out, all is as before.
    pub fn add_session(&mut self, session: u32) -> Result<(), AllocError>
        requires { All (λ (earlier : ℕ × List Ordered). earlier.0 < session) self.old.sessions }
        ensures ok { OnOk result (self.new ≡ with_session self.old session) }
        ensures err { OnErr result (self.new ≡ self.old) }
    {
        let alloc = *self.order.allocator();
        self.order.push(Session {
            number: session,
            commands: ItemList::new(alloc),
        })?;
        Ok(())
    }

    /// Adds a command to the last session. Where memory runs out, the command is handed back and
    /// all is as before.
    pub fn add_command(&mut self, command: Command) -> Result<(), (Command, AllocError)>
        requires { 0 < length self.old.sessions }
        ensures ok { OnOk result (self.new ≡ with_command self.old command) }
        ensures err { OnErr result (self.new ≡ self.old) }
        ensures handed_back { IfErr result (λ refused. refused.0 ≡ command) }
    {
        let last = self.order.len() - 1;
        self.order[last].commands.push(command)
    }

    /// Lends the partitions.
    pub fn parts(&self) -> &Parts
        ensures { result.now ≡ self.now.partitions }
    {
        &self.partitions
    }

    /// Lends the faults.
    pub fn faults(&self) -> &Faults
        ensures { result.now ≡ faults_of self.now }
    {
        &self.faults
    }

    /// The number of the session at place `k`, counted from 0. None comes exactly where there is
    /// none.
    pub fn session(&self, k: usize) -> Option<u32>
        ensures { result ≡ session_number self.now k }
    {
        if k < self.order.len() {
            Some(self.order[k].number)
        } else {
            None
        }
    }

    /// Lends the commands of the session at place `k`, counted from 0.
    pub fn commands(&self, k: usize) -> &ItemList<Command>
        requires { k < length self.now.sessions }
        ensures { commands_at self.now k ≡ Some result.now }
    {
        &self.order[k].commands
    }

    /// Lends the command at place `n` of the session at place `k`, both counted from 0. None comes
    /// exactly where there is none.
    pub fn command(&self, k: usize, n: usize) -> Option<&Command>
        ensures { option_copied result ≡ command_at self.now k n }
    {
        if k >= self.order.len() {
            return None;
        }
        let session = &self.order[k];
        if n < session.commands.len() {
            Some(session.commands.get(n))
        } else {
            None
        }
    }
}

#[cfg(test)]
mod tests {
    use super::*;
    use fault_plan::Flip;
    use nand_model::BlockList;
    use std::test::Fail;

    #[test]
    fn keeps_faults_sessions_and_commands(rt: HostRuntime) -> Result<(), Fail> {
        let mut faults = Faults::new(rt.alloc());
        faults.push(Flip {
            chip: 0,
            page: 5,
            before: 18,
            bits: BlockList::new(rt.alloc()),
        })?;
        let mut boot = ControllerBoot::new(rt.alloc(), Parts::new(rt.alloc(), 0), faults);
        assert!(rt; boot.add_session(3).is_ok());
        let command = Command::IsBad {
            dev: 0,
            blocks: 8,
            block: 5,
        };
        assert!(rt; boot.add_command(command).is_ok());
        assert_eq!(rt; boot.faults().due(18, 0), Some(0));
        assert_eq!(rt; boot.session(0), Some(3));
        assert_eq!(rt; boot.session(1), None);
        assert_eq!(rt; boot.commands(0).len(), 1);
        assert!(rt; matches!(boot.command(0, 0), Some(Command::IsBad { block: 5, .. })));
        assert!(rt; boot.command(0, 1).is_none());
        Ok(())
    }
}
