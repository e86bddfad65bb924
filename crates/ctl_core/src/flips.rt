// The flips that are due before an event.
ghost use Rattle.std.specs.Prelude.{◌≡◌, ◌≤◌, ◌∷◌, List, All, length, map, OnOk, OnErr};
ghost use Rattle.ctl_core.specs.Board.{HasRoom, HasRoomFor, slot_state};
ghost use Rattle.ctl_core.specs.Flips.{CanFlip, bit_count, flips_on, slot_flip, slot_flips_before};
ghost use Rattle.fault_plan.specs.Due.{first_due};
ghost use Rattle.nand_model.specs.Flips.{due_flips};
ghost use Rattle.nand_model.specs.declared.words.Flip.{Flip as FlipLine};
ghost use Rattle.run_model.specs.Start.{AreFewFlips};

use crate::board::Slot;
use fault_plan::{Faults, Flip};
use nand_iface::{Flash, PageCode};
use std::alloc::AllocError;

// Makes the flips that are due before an event, in the order of their lines, and leaves room for a
// page that is torn. Memory is taken first; where there is none, no bit is turned.
pub fn make_due_flips<F: Flash, C: PageCode>(
    slots: &mut Vec<Slot<F, C>>,
    faults: &Faults,
    event: u32,
) -> Result<(), AllocError>
    requires there { All (CanFlip (map slot_state slots.old.items)) faults.now.flips }
    requires few { AreFewFlips faults.now.flips }
    ensures made { OnOk result
        (map slot_state slots.new.items
        ≡ slot_flips_before F.fault_model faults.now.flips event (map slot_state slots.old.items)) }
    ensures room { OnOk result (All (HasRoom 1 0) slots.new.items) }
    ensures no_memory { OnErr result
        (map slot_state slots.new.items ≡ map slot_state slots.old.items) }
{
    reserve_for(slots, faults, event)?;
    make_flips(slots, faults, event);
    Ok(())
}

// Makes the room of each chip large enough for its own flips that are due before an event, and one
// page more.
fn reserve_for<F: Flash, C: PageCode>(
    slots: &mut Vec<Slot<F, C>>,
    faults: &Faults,
    event: u32,
) -> Result<(), AllocError>
    requires { AreFewFlips faults.now.flips }
    ensures room { OnOk result
        (HasRoomFor (due_flips faults.now.flips event) slots.new.items) }
    ensures same { map slot_state slots.new.items ≡ map slot_state slots.old.items }
{
    let first = faults.due(event, 0);
    for k in 0..slots.len() {
        let (pages, bits) = due_counts(faults, event, first, k);
        slots[k].chip.reserve(pages + 1, bits)?;
    }
    Ok(())
}

// How many flips of a chip are due before an event, and how many bits they turn; `first` is the
// place of the first of all that are due.
fn due_counts(faults: &Faults, event: u32, first: Option<usize>, chip: usize) -> (u32, u32)
    requires few { AreFewFlips faults.now.flips }
    requires first { first ≡ first_due faults.now.flips event 0 }
    ensures pages { result.0 ≡ length (flips_on chip (due_flips faults.now.flips event)) }
    ensures bits { result.1 ≡ bit_count (flips_on chip (due_flips faults.now.flips event)) }
    ensures few { result.0 ≤ 65536 }
{
    let mut pages = 0u32;
    let mut bits = 0u32;
    let mut next = first;
    while let Some(n) = next {
        let one = faults.flip(n);
        if one.chip as usize == chip {
            pages += 1;
            bits += one.bits.len() as u32;
        }
        next = faults.due(event, n + 1);
    }
    (pages, bits)
}

// Makes the flips that are due before an event, in the order of their lines. One page of the room
// is left.
fn make_flips<F: Flash, C: PageCode>(slots: &mut Vec<Slot<F, C>>, faults: &Faults, event: u32)
    requires there { All (CanFlip (map slot_state slots.old.items)) faults.now.flips }
    requires few { AreFewFlips faults.now.flips }
    requires room { HasRoomFor (due_flips faults.now.flips event) slots.old.items }
    ensures made { map slot_state slots.new.items
        ≡ slot_flips_before F.fault_model faults.now.flips event (map slot_state slots.old.items) }
    ensures room { All (HasRoom 1 0) slots.new.items }
{
    let mut next = faults.due(event, 0);
    while let Some(n) = next {
        make_flip(slots, faults.flip(n));
        next = faults.due(event, n + 1);
    }
}

// Makes a flip.
fn make_flip<F: Flash, C: PageCode>(slots: &mut Vec<Slot<F, C>>, flip: &Flip)
    requires there { CanFlip (map slot_state slots.old.items) flip.now }
    requires room { (rest : List FlipLine) × HasRoomFor (flip.now ∷ rest) slots.old.items }
    ensures chips { map slot_state slots.new.items
        ≡ slot_flip F.fault_model (map slot_state slots.old.items) flip.now }
    ensures room { (rest : List FlipLine) → HasRoomFor (flip.now ∷ rest) slots.old.items →
        HasRoomFor rest slots.new.items }
{
    slots[flip.chip as usize].chip.flip(flip.page, &flip.bits);
}
