// Lives of a chip with tables, boot by boot and step by step.
ghost use Rattle.std.specs.Prelude.{◌≡◌, true, IsTrue, IsSome};
ghost use Rattle.chip_paths.specs.Stage.{finished_in, is_resting};
ghost use Rattle.chip_core.specs.Chip.{chip_stage};

use crate::asking::{Ask, Told, begin, device_of, flip_all, in_short, reply_to};
use chip_core::{Chip, Event, Fairness, Flash, Note, PageCode, Parts};
use nand_model::Origin;
use std::alloc::Global;
use std::test::Fail;

/// What befalls a chip of eight blocks, and what it tells then.
#[derive(Clone, Copy)]
pub enum Step {
    /// These are the next events, and they are good.
    Does(&'static [Event]),
    /// This is the next event, which fails and leaves so much.
    Fails(Event, Fairness),
    /// The attach is over: where it took the table from, the version, the whole copies, whether it
    /// was quiet, and the state of each block.
    Finds(Origin, u8, u32, bool, [u8; 8]),
    /// This operation begins.
    Begins(Ask),
    /// The operation is over, and answered so.
    Answers(Told),
    /// A whole operation, or flips, and the answer.
    Asks(Ask, Told),
}

/// Goes through a life on this flash, and gives the boot and the place in it of the first step that
/// goes otherwise.
pub fn first_other_step<F: Flash, C: PageCode>(
    alloc: Global,
    flash: F,
    code: C,
    boots: &[&[Step]],
) -> Result<Option<(usize, usize)>, Fail> {
    let parts = device_of(alloc, 0, 8)?;
    let mut flash = flash;
    for (boot, steps) in boots.iter().enumerate() {
        let (left, other) = after_boot(alloc, flash, code, &parts, steps)?;
        if let Some(step) = other {
            return Ok(Some((boot, step)));
        }
        flash = left;
    }
    Ok(None)
}

// The flash after a boot, and the first step in it that goes otherwise.
fn after_boot<F: Flash, C: PageCode>(
    alloc: Global,
    flash: F,
    code: C,
    parts: &Parts,
    steps: &[Step],
) -> Result<(F, Option<usize>), Fail> {
    let mut chip = Chip::attach_start(alloc, flash, code)?;
    let other = first_other_in(&mut chip, alloc, parts, steps)?;
    Ok((chip.stop(), other))
}

// The same of a chip that attaches.
fn first_other_in<F: Flash, C: PageCode>(
    chip: &mut Chip<F, C>,
    alloc: Global,
    parts: &Parts,
    steps: &[Step],
) -> Result<Option<usize>, Fail> {
    for (place, step) in steps.iter().enumerate() {
        if !goes(chip, alloc, parts, *step)? {
            return Ok(Some(place));
        }
    }
    Ok(None)
}

// Whether a step goes so.
fn goes<F: Flash, C: PageCode>(
    chip: &mut Chip<F, C>,
    alloc: Global,
    parts: &Parts,
    step: Step,
) -> Result<bool, Fail> {
    match step {
        Step::Does(events) => Ok(does(chip, events)),
        Step::Fails(event, left) => Ok(next_tells(chip, event, Some(left))),
        Step::Finds(origin, version, copies, quiet, states) => {
            Ok(found_by(chip) == Some((origin, version, copies, quiet, states)))
        }
        Step::Begins(ask) => begins(chip, alloc, parts, ask),
        Step::Answers(told) => Ok(answered(chip) == Some(told)),
        Step::Asks(ask, told) => asks(chip, alloc, parts, ask, told),
    }
}

// Whether these are the next events, and good.
fn does<F: Flash, C: PageCode>(chip: &mut Chip<F, C>, events: &[Event]) -> bool {
    for event in events {
        if !next_tells(chip, *event, None) {
            return false;
        }
    }
    true
}

// Does the next event if it is this one, and gives whether it is and tells this of its failure.
fn next_tells<F: Flash, C: PageCode>(
    chip: &mut Chip<F, C>,
    event: Event,
    left: Option<Fairness>,
) -> bool {
    match chip.next_event() {
        Some(next) if next == event => chip.advance() == left,
        _ => false,
    }
}

// What an attach has found that is over; it is told once.
fn found_by<F: Flash, C: PageCode>(
    chip: &mut Chip<F, C>,
) -> Option<(Origin, u8, u32, bool, [u8; 8])> {
    match chip.attach_note(0) {
        Some(
            Note::Attached {
                origin,
                version,
                copies,
                quiet,
                states,
                ..
            },
        ) => {
            let mut of_eight = [0xff; 8];
            for (to, from) in of_eight.iter_mut().zip(states.as_slice()) {
                *to = *from;
            }
            Some((origin, version, copies, quiet, of_eight))
        }
        _ => None,
    }
}

// Whether a chip is attached, with nothing in flight.
fn rests<F: Flash, C: PageCode>(chip: &Chip<F, C>) -> bool
    ensures { IsTrue result → is_resting (chip_stage chip.now) ≡ true }
{
    chip.is_attached() && !chip.busy()
}

// Whether an operation is in flight and has no event left.
fn is_over<F: Flash, C: PageCode>(chip: &Chip<F, C>) -> bool
    ensures { IsTrue result → IsSome (finished_in (chip_stage chip.now)) }
{
    chip.busy() && chip.next_event().is_none()
}

// Begins an operation, if the chip rests.
fn begins<F: Flash, C: PageCode>(
    chip: &mut Chip<F, C>,
    alloc: Global,
    parts: &Parts,
    ask: Ask,
) -> Result<bool, Fail> {
    if !rests(chip) {
        return Ok(false);
    }
    begin(chip, alloc, parts, ask)?;
    Ok(true)
}

// The reply to the operation in flight, if it is over.
fn answered<F: Flash, C: PageCode>(chip: &mut Chip<F, C>) -> Option<Told> {
    if is_over(chip) {
        Some(in_short(&chip.answer()))
    } else {
        None
    }
}

// Whether a whole operation is answered so; flips are made between events too.
fn asks<F: Flash, C: PageCode>(
    chip: &mut Chip<F, C>,
    alloc: Global,
    parts: &Parts,
    ask: Ask,
    told: Told,
) -> Result<bool, Fail> {
    if let Ask::Flip(page, bits) = ask {
        flip_all(chip, alloc, page, bits)?;
        return Ok(told == Told::Done);
    }
    if !rests(chip) {
        return Ok(false);
    }
    Ok(reply_to(chip, alloc, parts, ask)? == told)
}
