// A controller that goes through a boot.
ghost use Rattle.std.specs.Prelude.{◌≡◌, ◌<◌, ◌++◌, length, map, IfOk};
ghost use Rattle.nand_model.specs.Chip.{SimFaults};
ghost use Rattle.run_model.specs.Course.{Course};
ghost use Rattle.onfi_bus.specs.Lab.{lab_state};
ghost use Rattle.plan_grammar.specs.Meaning.{plan_of};
ghost use Rattle.plan_laws.specs.Ready.{HaveSizes, boot_at, chips_at, part_at};
ghost use Rattle.headline_laws.specs.Replays.{own_schedule};
ghost use Rattle.plan_replay.specs.Ends.{notes_text};
ghost use Rattle.plan_replay.specs.Boots.{EndsReplay, EndsBoot, notes_of};

use crate::schedule::own_schedule;
use ctl_core::{Core, Ended, OutcomeList, StatsList};
use ecc_page::EccPage;
use nand_iface::History;
use nand_model::Bytes;
use onfi_bus::LabChip;
use plan_text::Plan;
use report_text::{put_controller, put_notes};
use session_run::replay;
use std::alloc::{AllocError, Global};
use std::snapshot::Snapshot;
use tool_steps::FlashList;

/// What a controller leaves of a boot once its notes are printed. They take no memory any more:
/// they are kept for contracts alone.
#[derive(Drop)]
pub struct EndedController {
    /// The notes.
    pub notes: Snapshot<History>,
    /// The flashes, by the number of their chip.
    pub flashes: FlashList<LabChip>,
    /// How each of its sessions ended, in order.
    pub outcomes: OutcomeList,
    /// The ECC statistics of each device, in order.
    pub stats: StatsList,
    /// The number of blocks of its chips that are worn or factory bad.
    pub bad: u32,
}

// A controller's part of a boot, run to its end on these flashes.
fn replayed(
    alloc: Global,
    plan: &Plan,
    boot: u32,
    controller: u32,
    flashes: FlashList<LabChip>,
) -> Result<Ended<LabChip>, AllocError>
    requires boots { boot < length (plan_of plan.now).boots }
    requires controllers { controller < length (plan_of plan.now).controllers }
    requires sizes { HaveSizes (chips_at (plan_of plan.now) controller) (map lab_state flashes) }
    ensures { IfOk result (λ ended. EndsReplay (part_at (plan_of plan.now) boot controller)
        (map lab_state flashes) (own_schedule (boot_at (plan_of plan.now) boot) controller)
        (map lab_state ended.flashes) ended.notes.notes ended.outcomes ended.stats ended.bad) }
{
    plan.was_read();
    let schedule = own_schedule(alloc, plan, boot, controller)?;
    let part = plan.boot(alloc, boot, controller)?;
    let core = Core::start(alloc, part, flashes, EccPage)?;
    let core = replay(core, &schedule)?;
    core.finish()
}

/// Runs a controller's part of a boot to its end on these flashes. Gives its notes back beside what
/// else it leaves.
pub fn go_through(
    alloc: Global,
    plan: &Plan,
    boot: u32,
    controller: u32,
    flashes: FlashList<LabChip>,
) -> Result<(EndedController, History), AllocError>
    requires boots { boot < length (plan_of plan.now).boots }
    requires controllers { controller < length (plan_of plan.now).controllers }
    requires sizes { HaveSizes (chips_at (plan_of plan.now) controller) (map lab_state flashes) }
    ensures ends { IfOk result (λ both. (course : Course SimFaults)
        × EndsBoot (plan_of plan.now) boot controller (map lab_state flashes) course both.0) }
    ensures notes { IfOk result (λ both. both.1.notes ≡ notes_of both.0) }
{
    let Ended {
        flashes,
        notes,
        outcomes,
        stats,
        bad,
    } = replayed(alloc, plan, boot, controller, flashes)?;
    let ended = EndedController {
        notes: Snapshot::of(&notes),
        flashes,
        outcomes,
        stats,
        bad,
    };
    Ok((ended, notes))
}

/// Runs a controller's part of a boot to its end on these flashes, and appends the controller's
/// lines. Its notes are given back as soon as they are printed.
pub fn run_controller(
    alloc: Global,
    out: &mut Bytes,
    plan: &Plan,
    boot: u32,
    controller: u32,
    flashes: FlashList<LabChip>,
) -> Result<EndedController, AllocError>
    requires boots { boot < length (plan_of plan.now).boots }
    requires controllers { controller < length (plan_of plan.now).controllers }
    requires sizes { HaveSizes (chips_at (plan_of plan.now) controller) (map lab_state flashes) }
    ensures ends { IfOk result (λ ended. (course : Course SimFaults)
        × EndsBoot (plan_of plan.now) boot controller (map lab_state flashes) course ended) }
    ensures text { IfOk result
        (λ ended. out.new ≡ out.old ++ notes_text controller (notes_of ended)) }
{
    let (ended, notes) = go_through(alloc, plan, boot, controller, flashes)?;
    put_controller(out, controller)?;
    put_notes(out, controller, &notes)?;
    Ok(ended)
}
