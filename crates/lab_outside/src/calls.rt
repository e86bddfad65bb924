// The calls of a source or a sink in memory.
ghost use Rattle.std.specs.Prelude.{◌≡◌, ◌↔◌, ◌<◌, ◌^◌, IsErr, IsTrue, OnOk, OnErr, Contains};
ghost use Rattle.lab_outside.specs.Outside.{raised};

use crate::Failed;
use nand_model::BlockList;

/// How many calls were made, how many of them failed, and the numbers of those that are to fail,
/// counted from 1.
#[derive(Drop)]
pub struct Calls {
    made: u64,
    faults: u64,
    failing: BlockList,
    ghost counted: { faults < 2 ^ 64 },
}

impl Calls {
    pub fn new(failing: BlockList) -> Self
        ensures made { result.made ≡ 0 }
        ensures faults { result.faults ≡ 0 }
        ensures failing { result.failing ≡ failing }
    {
        Calls {
            made: 0,
            faults: 0,
            failing,
        }
    }

    /// Counts one more call, which fails exactly where it is one of those that are to fail.
    pub fn begin(&mut self) -> Result<(), Failed>
        ensures fails { IsErr result ↔ Contains self.old.failing self.new.made }
        ensures made { self.new.made ≡ raised self.old.made }
        ensures ok { OnOk result (self.new.faults ≡ self.old.faults) }
        ensures err { OnErr result (self.new.faults ≡ raised self.old.faults) }
        ensures failing { self.new.failing ≡ self.old.failing }
    {
        self.made = self.made.saturating_add(1);
        if has_number(&self.failing, self.made) {
            return Err(self.fail());
        }
        Ok(())
    }

    /// Counts the fault of the call that was begun last.
    pub fn fail(&mut self) -> Failed
        ensures faults { self.new.faults ≡ raised self.old.faults }
        ensures made { self.new.made ≡ self.old.made }
        ensures failing { self.new.failing ≡ self.old.failing }
    {
        self.faults = self.faults.saturating_add(1);
        Failed
    }
}

fn has_number(numbers: &BlockList, number: u64) -> bool
    ensures { IsTrue result ↔ Contains numbers.now number }
{
    numbers.iter().any(|n| u64::from(*n) == number)
}
