// How many operations a command takes at most.
ghost use Rattle.std.specs.Prelude.{◌≡◌, [], ◌+◌, ◌-◌, ◌/◌, ◌*◌, ◌^◌, ◌<◌, ◌≤◌, if◌then◌else◌, not};
ghost use Rattle.nand_model.specs.declared.geometry.Geometry.{Geometry as Sizes};
ghost use Rattle.command_model.specs.Command.{block_size, blocks_touched, cost_of, next_step, unit_count};
ghost use Rattle.command_model.specs.Cost.{troubled_blocks};
ghost use Rattle.command_model.specs.Laws.{CommandsEnd};
ghost use Rattle.command_model.specs.Runnable.{DumpsPages, Fits, TestsBlocks, WritesPages};
ghost use Rattle.command_model.specs.Command.{command_blocks};
ghost use Rattle.tool_steps.specs.Ranges.{range_blocks, range_pages};
ghost use Rattle.tool_steps.specs.Steps.{asks_something, is_over, EndsAtLast};

use crate::copies::{block_len, unit_len};
use crate::ranges::{blocks_in_range, pages_in_range};
use nand_model::{Command, Geometry, Part};

/// Whether a command asks for an operation: false exactly for a nandwrite of no data. It takes no
/// memory.
pub fn has_operation(command: &Command) -> bool
    ensures asked { result ≡ asks_something command.now }
    ensures first { (g : Sizes) → Fits g command.now → result
        ≡ not (is_over (next_step g command.now [])) }
{
    match command {
        Command::NandWrite { bytes, .. } => !bytes.as_slice().is_empty(),
        Command::FlashErase { .. } => true,
        Command::NandDump { .. } => true,
        Command::NandTest { .. } => true,
        Command::MarkBad { .. } => true,
        Command::IsBad { .. } => true,
        Command::Stats { .. } => true,
    }
}

/// The most operations that a command takes, where at most `weak` of its written pages fail or are
/// refused.
///
/// For a nandwrite with the number of the device's blocks from the one of its offset on as `weak`
/// it bounds the operations whatever the replies are.
pub fn cost(command: &Command, g: &Geometry, part: &Part, weak: u32) -> u64
    requires runs { Fits g.now command.now }
    requires blocks { command_blocks command.now ≡ part.now.count }
    ensures bound { result ≡ cost_of g.now command.now weak }
    ensures ends { CommandsEnd g.now command.now }
    ensures ends_at_last { EndsAtLast g.now command.now (troubled_blocks g.now command.now) }
{
    most(command, g, part.count, weak)
}

// The bound, by command.
fn most(command: &Command, g: &Geometry, blocks: u32, weak: u32) -> u64
    requires runs { Fits g.now command.now }
    requires blocks { command_blocks command.now ≡ blocks }
    ensures { result ≡ cost_of g.now command.now weak }
{
    match command {
        Command::FlashErase { start, count, .. } => {
            let blocks = if *count == 0 { blocks - *start } else { *count };
            2 * u64::from(blocks)
        }
        Command::NandWrite {
            oob,
            off,
            bytes,
            ..
        } => {
            write_cost(g, blocks, *oob, *off, bytes.as_slice())
                + trouble_cost(g.pages_per_block, weak)
        }
        Command::NandDump { off, len, .. } => dump_cost(g, blocks, *off, *len),
        Command::IsBad { .. } | Command::MarkBad { .. } | Command::Stats { .. } => 1,
        Command::NandTest {
            keep,
            passes,
            off,
            len,
            ..
        } => test_cost(g, blocks, *passes, *off, *len, *keep),
    }
}

// The operations of a nandwrite without trouble: a question for each block, and a write of each
// unit.
fn write_cost(g: &Geometry, blocks: u32, oob: bool, off: u64, bytes: &[u8]) -> u64
    requires { WritesPages g.now blocks off bytes.now }
    ensures cost { result ≡ (blocks - off / block_size g.now) + unit_count g.now oob bytes.now }
    ensures small { result < 2 ^ 40 }
{
    let len = u64::from(unit_len(g, oob));
    u64::from(blocks) - off / block_len(g) + (bytes.len() as u64 + (len - 1)) / len
}

// The operations that the troubles of a nandwrite cost: the rest of a block, with its erase and its
// mark, is written again in another one.
fn trouble_cost(pages_per_block: u32, weak: u32) -> u64
    requires { pages_per_block ≤ 128 }
    ensures cost { result ≡ (pages_per_block + 2) * weak }
    ensures small { result < 2 ^ 40 }
{
    (u64::from(pages_per_block) + 2) * u64::from(weak)
}

// The operations of a nanddump: a question for each block that it touches, and a read of each page.
fn dump_cost(g: &Geometry, blocks: u32, off: u64, len: u64) -> u64
    requires { DumpsPages g.now blocks off len }
    ensures { let pages = range_pages g.now blocks off len in
        result ≡ pages + blocks_touched g.now pages (off / g.now.page) }
{
    let pages = u64::from(pages_in_range(g, blocks, off, len));
    let first = off / u64::from(g.page);
    let per_block = u64::from(g.pages_per_block);
    pages + ((first + pages + (per_block - 1)) / per_block - first / per_block)
}

// The operations of a nandtest: for each block in each pass a question, an erase, a write and a
// read of each page, and a mark; with `-k` a read of each page before, and an erase and a write of
// each page after.
fn test_cost(g: &Geometry, blocks: u32, passes: u32, off: u64, len: u64, keep: bool) -> u64
    requires { TestsBlocks g.now blocks passes off len }
    ensures { let count = range_blocks g.now blocks off len in
        result ≡ passes * count * (2 * g.now.pages_per_block + 3)
        + (if keep then passes * count * (2 * g.now.pages_per_block + 1) else 0) }
{
    let tests = tests_of(passes, blocks_in_range(g, blocks, off, len));
    let pages = u64::from(g.pages_per_block);
    let for_keeping = if keep {
        tests_cost(tests, 2 * pages + 1)
    } else {
        0
    };
    tests_cost(tests, 2 * pages + 3) + for_keeping
}

// How often a block is tested.
fn tests_of(passes: u32, blocks: u32) -> u64
    requires { blocks ≤ 32768 }
    ensures tests { result ≡ passes * blocks }
    ensures few { result < 2 ^ 47 }
{
    u64::from(passes) * u64::from(blocks)
}

// The operations of so many tests of a block.
fn tests_cost(tests: u64, each: u64) -> u64
    requires tests { tests < 2 ^ 47 }
    requires each { each ≤ 259 }
    ensures cost { result ≡ tests * each }
    ensures small { result < 2 ^ 56 }
{
    tests * each
}
