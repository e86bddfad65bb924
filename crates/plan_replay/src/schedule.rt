// The turns of a schedule that are a controller's own.
ghost use Rattle.std.specs.Prelude.{◌≡◌, ◌<◌, ◌++◌, ◌==◌, [], ◌∷◌, if◌then◌else◌, length, IfOk, OnOk};
ghost use Rattle.plan_grammar.specs.Meaning.{plan_of};
ghost use Rattle.plan_laws.specs.Ready.{boot_at};
ghost use Rattle.headline_laws.specs.Replays.{own_schedule};

use plan_text::Plan;
use std::alloc::{AllocError, Global};
use tool_steps::Schedule;

// Adds a session where it is of this controller.
fn add_own(own: &mut Schedule, session: u32, of: u32, controller: u32) -> Result<(), AllocError>
    ensures { OnOk result (own.new
        ≡ own.old ++ (if of == controller then session ∷ [] else [])) }
{
    if of == controller {
        own.append(session)?;
    }
    Ok(())
}

/// The turns of a boot's schedule that are of a controller's sessions, in order.
pub fn own_schedule(
    alloc: Global,
    plan: &Plan,
    boot: u32,
    controller: u32,
) -> Result<Schedule, AllocError>
    requires { boot < length (plan_of plan.now).boots }
    ensures { IfOk result (λ own. own
        ≡ own_schedule (boot_at (plan_of plan.now) boot) controller) }
{
    plan.was_read();
    let sessions = &plan.lines().boots.get(boot as usize).sessions;
    let mut own = Schedule::new(alloc);
    for session in plan.schedule(boot) {
        let of = sessions.get(*session as usize).controller;
        add_own(&mut own, *session, of, controller)?;
    }
    Ok(own)
}
