// Steps and outcomes in short.
ghost use Rattle.std.specs.Prelude.{◌≡◌};

use nand_model::{Geometry, Op, Outcome, Reply};
use std::alloc::{AllocError, Global};
use tool_steps::Step;

/// Sizes with pages of 2,048 bytes and a spare of 64.
pub fn sizes() -> Geometry
    ensures page { result.page ≡ 2048 }
    ensures block { result.pages_per_block ≡ 64 }
{
    Geometry {
        page: 2048,
        spare: 64,
        pages_per_block: 64,
        blocks: 16,
        t: 4,
        bbt: 0,
        threshold: 3,
    }
}

// The name of an operation, its device, its page or block, and the number of bytes that it
// programs.
fn op_parts(op: &Op) -> (&'static str, u32, u32, usize) {
    match op {
        Op::Read { dev, page } => ("read", *dev, *page, 0),
        Op::Write {
            dev,
            page,
            body,
            free,
        } => (
            "write",
            *dev,
            *page,
            body.as_slice().len().saturating_add(free.as_slice().len()),
        ),
        Op::RawRead { dev, page } => ("raw read", *dev, *page, 0),
        Op::RawWrite { dev, page, image } => ("raw write", *dev, *page, image.as_slice().len()),
        Op::Erase { dev, block } => ("erase", *dev, *block, 0),
        Op::IsBad { dev, block } => ("isbad", *dev, *block, 0),
        Op::Mark { dev, block } => ("mark", *dev, *block, 0),
        Op::Stats { dev } => ("stats", *dev, 0, 0),
    }
}

/// An operation: its name, device, page or block, and the number of bytes that it programs.
pub fn op_told(alloc: Global, op: &Op) -> Result<String, AllocError> {
    let (name, dev, place, len) = op_parts(op);
    format!(in alloc; "{name} {dev} {place} {len}")
}

/// The operation of a step, or that the command is over.
pub fn step_told(alloc: Global, step: &Step) -> Result<String, AllocError> {
    match step {
        Step::Do(op) => op_told(alloc, op),
        Step::Done => String::from_str(alloc, "done"),
    }
}

/// The counts of an outcome, in the order of its fields.
pub fn outcome_told(alloc: Global, outcome: &Outcome) -> Result<String, AllocError> {
    match outcome {
        Outcome::FlashErase {
            erased,
            bad,
            failed,
        } => format!(in alloc; "{erased} {bad} {failed}"),
        Outcome::NandWrite {
            pages,
            skipped,
            failed,
            ending,
        } => format!(in alloc; "{pages} {skipped} {failed} {ending:?}"),
        Outcome::NandDump {
            pages,
            bad,
            corrected,
            failed,
            dump,
        } => format!(in alloc;
            "{pages} {bad} {corrected} {failed} of {}",
            dump.as_slice().len()
        ),
        Outcome::NandTest {
            passes,
            blocks,
            bad,
            worn,
            mismatched,
            corrected,
            failed,
        } => format!(in alloc; "{passes} {blocks} {bad} {worn} {mismatched} {corrected} {failed}"),
        Outcome::Stats {
            corrected,
            failed,
            bad,
        } => format!(in alloc; "{corrected} {failed} {bad}"),
        Outcome::IsBad {
            reply: Reply::State(state),
        } => format!(in alloc; "state {state}"),
        _ => String::from_str(alloc, "another"),
    }
}

/// Adds a line to a text.
pub fn add(text: &mut String, line: &str) -> Result<(), AllocError> {
    text.push_str(line)?;
    text.push_str("\n")
}
