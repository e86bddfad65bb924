// A whole attach and a whole operation of one chip, by its calls alone.
ghost use Rattle.std.specs.Prelude.{◌≡◌, ◌≤◌, Some, true, IfSome, IfOk, OnErr};
ghost use Rattle.nand_model.specs.Partitions.{device_of, part_of};
ghost use Rattle.nand_model.specs.Quiet.{is_quiet};
ghost use Rattle.chip_paths.specs.Stage.{Rests, is_resting};
ghost use Rattle.chip_core.specs.Begin.{CanBegin};
ghost use Rattle.chip_core.specs.Chip.{chip_bits, chip_pending_note, chip_page_room, chip_stage, chip_state};
ghost use Rattle.bbt_flash.specs.Step.{attached_by_markers};
ghost use Rattle.chip_core.specs.Markers.{known_by_markers};
ghost use Rattle.chip_core.specs.Whole.{HasCause, HasPerformed, known_at_rest, marker_states, refusal_of};

use crate::Chip;
use mtd_part::Parts;
use nand_iface::{Flash, Op, PageCode, Reply};
use std::alloc::{AllocError, Global};

// A mark of a chip with tables has the most events: an erase and a program of its block, the same
// for each copy of the table, and both copies again for each of two blocks that fail.
const MOST_EVENTS: u32 = 14;

/// Attaches a chip without tables. Its table is that of its markers, and the note of the attach is
/// still to be handed out. The attach was quiet exactly where the flash is.
pub fn attach<F: Flash, C: PageCode>(
    alloc: Global,
    flash: F,
    code: C,
) -> Result<Chip<F, C>, AllocError>
    requires { (F.state flash).geometry.bbt ≡ 0 }
    ensures state { IfOk result (λ chip. chip_state chip ≡ F.state flash) }
    ensures stage { IfOk result
        (λ chip. chip_stage chip ≡ Rests (known_by_markers (marker_states (F.state flash)))) }
    ensures pending_note { IfOk result (λ chip. chip_pending_note chip
        ≡ Some (
          is_quiet (F.state flash).geometry (F.state flash).pages,
          attached_by_markers
              (marker_states (F.state flash)),
        )) }
{
    let mut chip = Chip::attach_start(alloc, flash, code)?;
    for _ in 0..chip.geometry().blocks {
        let _ = chip.advance();
    }
    Ok(chip)
}

/// Performs an operation from its begin to its answer.
pub fn perform<F: Flash, C: PageCode>(
    chip: &mut Chip<F, C>,
    parts: &Parts,
    op: &Op,
) -> Result<Reply, AllocError>
    requires rests { is_resting (chip_stage chip.old) ≡ true }
    requires can { CanBegin (chip_state chip.old).geometry parts.now (chip_stage chip.old) op.now }
    ensures performed { IfOk result (λ reply. IfSome (known_at_rest (chip_stage chip.old))
        (λ k. HasPerformed F.fault_model parts.now k op.now (chip_state chip.old)
        (chip_state chip.new) (chip_stage chip.new) reply)) }
    ensures causes { IfOk result (λ reply. IfSome (known_at_rest (chip_stage chip.old))
        (λ k. HasCause (refusal_of (chip_state chip.old).geometry k
        (part_of parts.now (device_of op.now)) op.now) (chip_state chip.old) (chip_state chip.new)
        reply)) }
    ensures no_memory { OnErr result (chip_state chip.new ≡ chip_state chip.old) }
    ensures no_memory_stage { OnErr result (chip_stage chip.new ≡ chip_stage chip.old) }
    ensures rests { is_resting (chip_stage chip.new) ≡ true }
    ensures pending_note { chip_pending_note chip.new ≡ chip_pending_note chip.old }
    ensures page_room { chip_page_room chip.new ≡ chip_page_room chip.old }
    ensures bits { chip_bits chip.old ≤ chip_bits chip.new }
{
    chip.begin(parts, op)?;
    for _ in 0..MOST_EVENTS {
        if chip.next_event().is_some() {
            let _ = chip.advance();
        }
    }
    Ok(chip.answer())
}
