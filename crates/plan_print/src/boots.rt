// The lines of boots.
ghost use Rattle.std.specs.Prelude.{◌≡◌, ◌++◌, OnOk, flat_map, map};
ghost use Rattle.plan_grammar.specs.Canonical.{boot_lines, fault_words, schedule_lines, session_lines};
ghost use Rattle.plan_print.specs.Lines.{line_of, text_of};

use crate::commands::put_commands;
use crate::forms::{put_chip_name, put_tear};
use crate::words::{put_decimal, put_decimals, put_list, put_text};
use nand_model::{BlockList, Bytes, CutAt, Flip, ItemList};
use plan_grammar::{BootLines, FaultLine, SessionLines};
use std::alloc::AllocError;

// Appends the line of a flip.
fn put_flip(out: &mut Bytes, controller: u32, flip: &Flip) -> Result<(), AllocError>
    ensures { OnOk result
        (out.new ≡ out.old ++ line_of (fault_words (FaultLine.Flip controller flip.now))) }
{
    put_text(out, "flip")?;
    put_chip_name(out, controller, flip.chip)?;
    put_decimals(out, &[flip.page, flip.before])?;
    put_list(out, &flip.bits)?;
    put_text(out, "\n")
}

// Appends the line of a cut.
fn put_cut(out: &mut Bytes, controller: u32, cut: &CutAt) -> Result<(), AllocError>
    ensures { OnOk result
        (out.new ≡ out.old ++ line_of (fault_words (FaultLine.Cut controller cut.now))) }
{
    put_text(out, "cut")?;
    put_decimals(out, &[controller, cut.event])?;
    put_text(out, " ")?;
    put_tear(out, &cut.tear)?;
    put_text(out, "\n")
}

// Appends the lines of flips and cuts.
fn put_faults(out: &mut Bytes, faults: &ItemList<FaultLine>) -> Result<(), AllocError>
    ensures { OnOk result (out.new ≡ out.old ++ text_of (map fault_words faults.now)) }
{
    for fault in faults {
        match fault {
            FaultLine::Flip { controller, flip } => put_flip(out, *controller, flip)?,
            FaultLine::Cut { controller, cut } => put_cut(out, *controller, cut)?,
        }
    }
    Ok(())
}

// Appends the lines of a session.
fn put_session(out: &mut Bytes, session: &SessionLines) -> Result<(), AllocError>
    ensures { OnOk result (out.new ≡ out.old ++ text_of (session_lines session.now)) }
{
    put_text(out, "session")?;
    put_decimal(out, u64::from(session.controller))?;
    put_text(out, "\n")?;
    put_commands(out, &session.commands)
}

// Appends the lines of sessions.
fn put_sessions(out: &mut Bytes, sessions: &ItemList<SessionLines>) -> Result<(), AllocError>
    ensures { OnOk result (out.new ≡ out.old ++ text_of (flat_map session_lines sessions.now)) }
{
    for session in sessions {
        put_session(out, session)?;
    }
    Ok(())
}

// Appends the line of a schedule, where there is one.
fn put_schedule(out: &mut Bytes, numbers: &BlockList) -> Result<(), AllocError>
    ensures { OnOk result (out.new ≡ out.old ++ text_of (schedule_lines numbers.now)) }
{
    if numbers.len() == 0 {
        return Ok(());
    }
    put_text(out, "schedule")?;
    put_list(out, numbers)?;
    put_text(out, "\n")
}

// Appends the lines of a boot.
fn put_boot(out: &mut Bytes, boot: &BootLines) -> Result<(), AllocError>
    ensures { OnOk result (out.new ≡ out.old ++ text_of (boot_lines boot.now)) }
{
    put_text(out, "boot\n")?;
    put_faults(out, &boot.faults)?;
    put_sessions(out, &boot.sessions)?;
    put_schedule(out, &boot.schedule)
}

/// Appends the lines of boots.
pub fn put_boots(out: &mut Bytes, boots: &ItemList<BootLines>) -> Result<(), AllocError>
    ensures { OnOk result (out.new ≡ out.old ++ text_of (flat_map boot_lines boots.now)) }
{
    for boot in boots {
        put_boot(out, boot)?;
    }
    Ok(())
}
