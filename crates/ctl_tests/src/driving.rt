// Turns of a controller, one after the other.
ghost use Rattle.std.specs.Prelude.{◌≡◌, true, OnOk};
ghost use Rattle.ctl_core.specs.Past.{course_of, takes_turns};

use ctl_core::{Core, Turn};
use nand_iface::{Flash, PageCode};
use std::alloc::AllocError;

/// Attaches all chips, unless the power fails.
pub fn attach_all<F: Flash, C: PageCode>(core: &mut Core<F, C>) -> Result<(), AllocError>
    ensures { OnOk result (takes_turns (course_of F.fault_model F.state core.new) ≡ true) }
{
    loop {
        match core.attach_turn()? {
            Turn::Did => {}
            _ => return Ok(()),
        }
    }
}

/// A turn of a session, if it is one of this controller.
pub fn take_turn<F: Flash, C: PageCode>(
    core: &mut Core<F, C>,
    session: u32,
) -> Result<Turn, AllocError>
    requires { takes_turns (course_of F.fault_model F.state core.old) ≡ true }
    ensures { takes_turns (course_of F.fault_model F.state core.new) ≡ true }
{
    if core.has(session) {
        core.turn(session)
    } else {
        Ok(Turn::Dark)
    }
}
