// The canonical text of a plan.
ghost use Rattle.std.specs.Prelude.{◌≡◌, ◌++◌, OnOk};
ghost use Rattle.plan_grammar.specs.Canonical.{canonical_text};

use crate::plan::Plan;
use nand_model::Bytes;
use plan_print::put_lines;
use std::alloc::AllocError;

/// Appends the canonical text of a plan: each line once in the order read, without comments and
/// empty lines, words separated by one space, numbers decimal, hexadecimal digits in lower case, a
/// chip's threshold and a partition's count as they are in force, options in one order and left out
/// where they have their default, and LF after each line. Where memory runs out, a part of the text
/// may be there. The form is this project's own.
pub fn put_plan(out: &mut Bytes, plan: &Plan) -> Result<(), AllocError>
    ensures { OnOk result (out.new ≡ out.old ++ canonical_text plan.now) }
{
    put_lines(out, plan.lines())
}
