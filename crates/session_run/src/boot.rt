// A controller's boot, replayed.
ghost use Rattle.std.specs.Prelude.{◌≡◌, ◌<◌, ◌≤◌, ◌+◌, ◌*◌, [], true, false, All, length, IfOk, OnOk, OnErr};
ghost use Rattle.run_model.specs.Course.{is_over, turns_taken};
ghost use Rattle.ctl_core.specs.Past.{turn_limit, starts_of, course_of, takes_turns};
ghost use Rattle.ctl_core.specs.Start.{CanStart, HasSession};
ghost use Rattle.session_run.specs.Replay.{IsReplayed, IsOfTheSameStart, TakesTurn, session_numbers};

use ctl_core::{Core, Turn};
use nand_iface::{Flash, PageCode};
use std::alloc::AllocError;
use tool_steps::Schedule;

// Attaches all chips, unless the power fails.
fn attach_all<F: Flash, C: PageCode>(core: &mut Core<F, C>) -> Result<(), AllocError>
    requires { core.old.turns ≡ [] }
    ensures takes { OnOk result (takes_turns (course_of F.fault_model F.state core.new) ≡ true) }
    ensures same { IsOfTheSameStart core.old core.new }
    ensures turns { core.new.turns ≡ [] }
{
    while core.attach_turn()? == Turn::Did {}
    Ok(())
}

// Takes the turns of these sessions.
fn take_turns<F: Flash, C: PageCode>(
    core: &mut Core<F, C>,
    sessions: &Schedule,
) -> Result<(), AllocError>
    requires takes { takes_turns (course_of F.fault_model F.state core.old) ≡ true }
    requires own { All (HasSession core.old.boot) sessions.now }
    ensures course { OnOk result (course_of F.fault_model F.state core.new
        ≡ turns_taken F.fault_model core.old.boot (starts_of F.state core.old) sessions.now
        (course_of F.fault_model F.state core.old)) }
    ensures takes { OnOk result (takes_turns (course_of F.fault_model F.state core.new) ≡ true) }
    ensures same { IsOfTheSameStart core.old core.new }
    ensures attaches { core.new.attaches ≡ core.old.attaches }
{
    for n in 0..sessions.len() {
        core.turn(*sessions.get(n))?;
    }
    Ok(())
}

// Takes a turn of the session at place `k`.
fn take_turn_at<F: Flash, C: PageCode>(core: &mut Core<F, C>, k: usize) -> Result<(), AllocError>
    requires takes { takes_turns (course_of F.fault_model F.state core.old) ≡ true }
    requires place { k < length core.old.boot.sessions }
    ensures taken { OnOk result (TakesTurn F.fault_model F.state k core.old core.new) }
    ensures no_memory { OnErr result (core.new ≡ core.old) }
{
    match core.session(k) {
        Some(session) => {
            core.turn(session)?;
            Ok(())
        }
        None => unreachable!(),
    }
}

// Takes a turn of each session, in their order; some turn does something.
fn take_round<F: Flash, C: PageCode>(core: &mut Core<F, C>) -> Result<(), AllocError>
    requires takes { takes_turns (course_of F.fault_model F.state core.old) ≡ true }
    requires can { CanStart core.old.boot (starts_of F.state core.old) }
    requires goes { is_over (course_of F.fault_model F.state core.old) ≡ false }
    ensures course { OnOk result (course_of F.fault_model F.state core.new
        ≡ turns_taken F.fault_model core.old.boot (starts_of F.state core.old)
        (session_numbers core.old.boot) (course_of F.fault_model F.state core.old)) }
    ensures takes { OnOk result (takes_turns (course_of F.fault_model F.state core.new) ≡ true) }
    ensures same { IsOfTheSameStart core.old core.new }
    ensures attaches { core.new.attaches ≡ core.old.attaches }
    ensures more { OnOk result (length core.old.turns < length core.new.turns) }
    ensures few { OnOk result (length core.new.turns ≤ turn_limit F.state core.new) }
{
    for k in 0..core.session_count() {
        take_turn_at(core, k)?;
    }
    let _few = core.turn_count();
    Ok(())
}

/// Runs a controller's boot to its end: its chips are attached, the turns of the schedule are
/// taken, and then those of all sessions in their order, round after round, until all is over or
/// the power fails.
///
/// The controller has just been started, and the schedule names sessions of its own. It waits for
/// nobody.
pub fn replay<F: Flash, C: PageCode>(
    core: Core<F, C>,
    schedule: &Schedule,
) -> Result<Core<F, C>, AllocError>
    requires can { CanStart core.boot (starts_of F.state core) }
    requires attaches { core.attaches ≡ 0 }
    requires turns { core.turns ≡ [] }
    requires own { All (HasSession core.boot) schedule.now }
    ensures replayed { IfOk result
        (λ done. IsReplayed F.fault_model core.boot (starts_of F.state core) schedule.now
        (course_of F.fault_model F.state done)) }
    ensures same { IfOk result (IsOfTheSameStart core) }
{
    let mut core = core;
    attach_all(&mut core)?;
    take_turns(&mut core, schedule)?;
    while !core.over() {
        take_round(&mut core)?;
    }
    Ok(core)
}
