// Chips and sessions at the start of a boot.
ghost use Rattle.std.specs.Prelude.{◌≡◌, map, IfOk};
ghost use Rattle.ctl_core.specs.SlotState.{slot_first};
ghost use Rattle.ctl_core.specs.Board.{slot_state};
ghost use Rattle.ctl_core.specs.Sessions.{HaveNotBegun};

use crate::board::Slot;
use chip_core::Chip;
use nand_iface::{Flash, PageCode};
use session_steps::Session;
use std::alloc::{AllocError, Global};
use tool_steps::{ControllerBoot, FlashList};

// The chips of these flashes at the start of their attaches, none of them held.
pub fn first_slots<F: Flash, C: PageCode>(
    alloc: Global,
    flashes: FlashList<F>,
    code: C,
) -> Result<Vec<Slot<F, C>>, AllocError>
    ensures { IfOk result (λ slots. map slot_state slots.items
        ≡ map slot_first (map F.state flashes)) }
{
    let mut rest = flashes;
    let mut slots = Vec::new(alloc);
    while let Some(flash) = rest.take_first() {
        slots.push(first_slot(alloc, flash, code)?)?;
    }
    Ok(slots)
}

// A chip at the start of its attach.
fn first_slot<F: Flash, C: PageCode>(
    alloc: Global,
    flash: F,
    code: C,
) -> Result<Slot<F, C>, AllocError>
    ensures { IfOk result (λ slot. slot_state slot ≡ slot_first (F.state flash)) }
{
    Ok(Slot {
        chip: Chip::attach_start(alloc, flash, code)?,
        holder: None,
    })
}

// The sessions of a boot at their start.
pub fn first_sessions(alloc: Global, boot: &ControllerBoot) -> Result<Vec<Session>, AllocError>
    ensures { IfOk result (λ sessions. HaveNotBegun boot.now.sessions sessions.items) }
{
    let mut sessions = Vec::new(alloc);
    while let Some(number) = boot.session(sessions.len()) {
        sessions.push(Session::new(alloc, number))?;
    }
    Ok(sessions)
}
