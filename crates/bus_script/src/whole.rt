// A script from its bytes to the text of what it comes to.
ghost use Rattle.std.specs.Prelude.{IfErr, IfOk};
ghost use Rattle.bus_script.specs.Answer.{IsErrorOf, IsTextOf};

use crate::cycles::run_cycles;
use crate::error::ScriptError;
use crate::reader::read_script;
use crate::text::run_text;
use chip_sim::SimChip;
use fault_plan::WeakList;
use nand_model::{BlockList, Bytes};
use std::alloc::Global;

/// Runs the script of these bytes at a new chip of its sizes, without bad blocks and weak places:
/// the text of the events that its cycles do and the bytes that they give. `Refused` comes exactly where the bytes
/// are no script, and `Illegal` exactly where they are one with an illegal cycle.
pub fn run_script(alloc: Global, bytes: &[u8]) -> Result<Bytes, ScriptError>
    ensures text { IfOk result (IsTextOf bytes.now) }
    ensures refused { IfErr result (IsErrorOf bytes.now) }
{
    let script = read_script(alloc, bytes)?;
    let weak = WeakList::new(alloc);
    let mut chip = SimChip::new(alloc, script.geometry, &BlockList::new(alloc), weak)?;
    let cycles = script.cycles.into_vec();
    let run = run_cycles(alloc, &mut chip, &cycles)?;
    Ok(run_text(alloc, &run)?)
}
