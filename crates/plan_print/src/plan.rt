// The text of a plan.
ghost use Rattle.std.specs.Prelude.{◌≡◌, ◌++◌, OnOk};
ghost use Rattle.plan_grammar.specs.Canonical.{canonical_text, header_lines};
ghost use Rattle.plan_print.specs.Lines.{text_of};

use crate::boots::put_boots;
use crate::hardware::put_controllers;
use crate::payloads::put_payloads;
use crate::words::put_text;
use nand_model::Bytes;
use plan_grammar::PlanLines;
use std::alloc::AllocError;

// Appends the header, where it was there.
fn put_header(out: &mut Bytes, begun: bool) -> Result<(), AllocError>
    ensures { OnOk result (out.new ≡ out.old ++ text_of (header_lines begun)) }
{
    if begun {
        put_text(out, "nandlab 1\n")?;
    }
    Ok(())
}

/// Appends the canonical text of a plan: its lines in the order read, each ended by LF. Where
/// memory runs out, a part of it may be there.
pub fn put_lines(out: &mut Bytes, plan: &PlanLines) -> Result<(), AllocError>
    ensures { OnOk result (out.new ≡ out.old ++ canonical_text plan.now) }
{
    put_header(out, plan.begun)?;
    put_controllers(out, &plan.controllers)?;
    put_payloads(out, &plan.payloads)?;
    put_boots(out, &plan.boots)
}
