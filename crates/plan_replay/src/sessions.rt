// The lines of a boot's sessions.
ghost use Rattle.std.specs.Prelude.{◌≡◌, ◌<◌, ◌++◌, length, map, OnOk};
ghost use Rattle.report_model.specs.Report.{outcome_lines, session_lines};
ghost use Rattle.plan_grammar.specs.Meaning.{plan_of};
ghost use Rattle.plan_laws.specs.Ready.{boot_at};
ghost use Rattle.plan_text.specs.Plan.{session_at};
ghost use Rattle.plan_replay.specs.Ends.{ended_text};
ghost use Rattle.plan_replay.specs.Boots.{EndByNotes, notes_of};

use crate::controller::EndedController;
use nand_model::{Bytes, ItemList};
use plan_text::Plan;
use report_text::{put_cut, put_outcome, put_session};
use session_steps::SessionEnd;
use std::alloc::{AllocError, Global};

// Appends the lines of the finished commands of a session that ended so.
fn put_outcomes(
    out: &mut Bytes,
    plan: &Plan,
    boot: u32,
    session: u32,
    end: &SessionEnd,
) -> Result<(), AllocError>
    requires boots { boot < length (plan_of plan.now).boots }
    requires sessions { session < length (boot_at (plan_of plan.now) boot).sessions }
    ensures { OnOk result (out.new ≡ out.old
        ++ outcome_lines (session_at (plan_of plan.now) boot session).commands end.now.outcomes) }
{
    for n in 0..end.len() {
        let Some(command) = plan.command(boot, session, n) else {
            return Ok(());
        };
        put_outcome(out, command, end.get(n))?;
    }
    Ok(())
}

// Appends the lines of a session that ended so.
fn put_end(
    out: &mut Bytes,
    plan: &Plan,
    boot: u32,
    session: u32,
    end: &SessionEnd,
) -> Result<(), AllocError>
    requires boots { boot < length (plan_of plan.now).boots }
    requires sessions { session < length (boot_at (plan_of plan.now) boot).sessions }
    ensures { OnOk result (out.new ≡ out.old
        ++ ended_text session (session_at (plan_of plan.now) boot session).commands end.now) }
{
    put_session(out, session)?;
    put_outcomes(out, plan, boot, session, end)?;
    if end.cut() {
        put_cut(out, end.len())?;
    }
    Ok(())
}

/// Appends the lines of a boot's sessions in order. Each controller's sessions stand in the order
/// of their numbers, so a place for each controller goes forward.
pub fn put_sessions(
    alloc: Global,
    out: &mut Bytes,
    plan: &Plan,
    boot: u32,
    ends: &ItemList<EndedController>,
) -> Result<(), AllocError>
    requires boots { boot < length (plan_of plan.now).boots }
    requires ended { EndByNotes (plan_of plan.now) boot ends.now }
    ensures { OnOk result (out.new ≡ out.old
        ++ session_lines (plan_of plan.now) 0 (boot_at (plan_of plan.now) boot).sessions
        (map notes_of ends.now)) }
{
    plan.was_read();
    let sessions = &plan.lines().boots.get(boot as usize).sessions;
    let mut places = vec![in alloc; 0u32; ends.len()]?;
    for session in 0..plan.sessions(boot) {
        let controller = sessions.get(session as usize).controller as usize;
        let place = places[controller];
        let end = ends.get(controller).outcomes.get(place as usize);
        put_end(out, plan, boot, session, end)?;
        places[controller] = place + 1;
    }
    Ok(())
}
