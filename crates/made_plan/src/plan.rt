// The plan of a number.
ghost use Rattle.std.specs.Prelude.{◌≡◌, IfOk};
ghost use Rattle.plan_grammar.specs.Canonical.{canonical_text};
ghost use Rattle.made_plan.specs.Made.{made_lines};

use crate::boots::{reading_boot, writing_boot};
use crate::chips::made_controllers;
use crate::payloads::made_payloads;
use nand_model::{Bytes, ItemList};
use plan_grammar::PlanLines;
use plan_print::put_lines;
use plan_text::{Plan, PlanError, read_plan};
use std::alloc::{AllocError, Global};

/// The room with which the text begins, in bytes.
const ROOM: usize = 4096;

// The lines of the plan.
fn made_lines(alloc: Global, n: u64) -> Result<PlanLines, AllocError>
    ensures { IfOk result (λ lines. lines ≡ made_lines n) }
{
    let mut boots = ItemList::new(alloc);
    boots.append(writing_boot(alloc)?)?;
    boots.append(reading_boot(alloc, n)?)?;
    Ok(PlanLines {
        begun: true,
        controllers: made_controllers(alloc)?,
        payloads: made_payloads(alloc, n)?,
        boots,
    })
}

// Their text.
fn made_text(alloc: Global, n: u64) -> Result<Bytes, AllocError>
    ensures { IfOk result (λ text. text ≡ canonical_text (made_lines n)) }
{
    let lines = made_lines(alloc, n)?;
    let mut text = Bytes::with_room(alloc, ROOM)?;
    put_lines(&mut text, &lines)?;
    Ok(text)
}

/// The plan of a number: two controllers, each with four chips of two partitions, so sixteen
/// devices. In the first boot a session for each device erases it, writes a block of data to it,
/// tests its second block and marks its last one; in the second boot, after flips, another one
/// dumps the data, and asks for the marked block and the counts. The number gives the seeds of the
/// data, and how many bits flip on each device: none to four. The plan is this project's own.
pub fn made(alloc: Global, n: u64) -> Result<Plan, AllocError>
    ensures { IfOk result (λ plan. plan ≡ made_lines n) }
{
    let text = made_text(alloc, n)?;
    match read_plan(alloc, text.as_slice()) {
        Ok(plan) => Ok(plan),
        Err(PlanError::Memory) => Err(AllocError),
        Err(PlanError::Refused { .. }) => unreachable!(),
    }
}
