// The flips and cuts of a plan's controllers.
ghost use Rattle.std.specs.Prelude.{◌≡◌, ◌∷◌, ◌++◌, [], None, IfOk, OnOk};
ghost use Rattle.plan_text.specs.Boot.{cut_for, faults_for, flips_for};

use fault_plan::Faults;
use nand_model::{BlockList, CutAt, Flip, ItemList, SpanList, Tear};
use plan_grammar::FaultLine;
use std::alloc::{AllocError, Global};

// A copy of numbers.
fn copy_of_numbers(alloc: Global, numbers: &BlockList) -> Result<BlockList, AllocError>
    ensures { IfOk result (λ copy. copy ≡ numbers.now) }
{
    let mut copy = BlockList::new(alloc);
    for number in numbers {
        copy.append(*number)?;
    }
    Ok(copy)
}

// A copy of bits that turn over.
fn copy_of_flip(alloc: Global, flip: &Flip) -> Result<Flip, AllocError>
    ensures { IfOk result (λ copy. copy ≡ flip.now) }
{
    let bits = copy_of_numbers(alloc, &flip.bits)?;
    Ok(Flip {
        chip: flip.chip,
        page: flip.page,
        before: flip.before,
        bits,
    })
}

// A copy of spans.
fn copy_of_spans(alloc: Global, spans: &SpanList) -> Result<SpanList, AllocError>
    ensures { IfOk result (λ copy. copy ≡ spans.now) }
{
    let mut copy = SpanList::new(alloc);
    for span in spans {
        copy.append(*span)?;
    }
    Ok(copy)
}

/// A copy of a tear.
pub fn copy_of_tear(alloc: Global, tear: &Tear) -> Result<Tear, AllocError>
    ensures { IfOk result (λ copy. copy ≡ tear.now) }
{
    match tear {
        Tear::Nothing => Ok(Tear::Nothing),
        Tear::Everything => Ok(Tear::Everything),
        Tear::Seed(seed) => Ok(Tear::Seed(*seed)),
        Tear::Spans(spans) => Ok(Tear::Spans(copy_of_spans(alloc, spans)?)),
    }
}

// Adds the flip of a line, where it is one of this controller.
fn add_flip(
    flips: &mut Faults,
    alloc: Global,
    controller: u32,
    line: &FaultLine,
) -> Result<(), AllocError>
    ensures flips { OnOk result
        (flips.new.flips ≡ flips.old.flips ++ flips_for controller (line.now ∷ [])) }
    ensures cut { flips.new.cut ≡ flips.old.cut }
{
    match line {
        FaultLine::Flip {
            controller: own,
            flip,
        } => {
            if *own == controller {
                return flips.push(copy_of_flip(alloc, flip)?);
            }
            Ok(())
        }
        FaultLine::Cut { .. } => Ok(()),
    }
}

// The flips of a controller among these lines, in their order.
fn flips_for(
    alloc: Global,
    controller: u32,
    lines: &ItemList<FaultLine>,
) -> Result<Faults, AllocError>
    ensures flips { IfOk result (λ faults. faults.flips ≡ flips_for controller lines.now) }
    ensures uncut { IfOk result (λ faults. faults.cut ≡ None) }
{
    let mut flips = Faults::new(alloc);
    for line in lines {
        add_flip(&mut flips, alloc, controller, line)?;
    }
    Ok(flips)
}

// The cut of a controller among these lines.
fn cut_for(
    alloc: Global,
    controller: u32,
    lines: &ItemList<FaultLine>,
) -> Result<Option<CutAt>, AllocError>
    ensures { IfOk result (λ cut. cut ≡ cut_for controller lines.now) }
{
    for line in lines {
        if let FaultLine::Cut {
            controller: owner,
            cut,
        } = line
        {
            if *owner == controller {
                let tear = copy_of_tear(alloc, &cut.tear)?;
                return Ok(Some(CutAt {
                    event: cut.event,
                    tear,
                }));
            }
        }
    }
    Ok(None)
}

/// The faults of a controller among these lines: its flips, in their order, and its cut.
pub fn faults_for(
    alloc: Global,
    controller: u32,
    lines: &ItemList<FaultLine>,
) -> Result<Faults, AllocError>
    ensures { IfOk result (λ faults. faults ≡ faults_for controller lines.now) }
{
    let mut faults = flips_for(alloc, controller, lines)?;
    if let Some(cut) = cut_for(alloc, controller, lines)? {
        faults.set_cut(cut);
    }
    Ok(faults)
}
