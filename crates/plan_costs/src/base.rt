// What a command costs where no page fails.
ghost use Rattle.std.specs.Prelude.{◌≡◌, ◌+◌, ◌-◌, ◌/◌, ◌<◌, ◌≤◌, ◌^◌, ℕ, Bool};
ghost use Rattle.nand_model.specs.declared.words.BadMode.{BadMode};
ghost use Rattle.nand_model.specs.declared.words.Command.TheVariants.{NandDump, NandTest};
ghost use Rattle.command_model.specs.Command.{block_size, count_or_rest, cost_of, unit_size};
ghost use Rattle.plan_grammar.specs.Costs.{command_on};
ghost use Rattle.plan_grammar.specs.declared.lines.PlanLines.{PlanLines};
ghost use Rattle.plan_costs.specs.Costs.{data_of};
ghost use Rattle.plan_costs.specs.Room.{in_long, room_at};

use nand_model::Geometry;
use plan_grammar::CommandLine;
use plan_index::DeviceSize;

/// The bytes of a block.
pub fn block_len(g: &Geometry) -> u64
    ensures len { result ≡ block_size g.now }
    ensures some { 2048 ≤ result }
    ensures small { result < 2 ^ 20 }
{
    u64::from(g.pages_per_block) * u64::from(g.page)
}

// The blocks from the one of an offset to the end of a device of so many.
fn blocks_behind(g: &Geometry, blocks: u32, off: u64) -> u32
    ensures { result ≡ blocks - off / block_size g.now }
{
    u64::from(blocks).saturating_sub(off / block_len(g)) as u32
}

/// The blocks from the one of an offset to the device's end.
pub fn room_at(size: &DeviceSize, off: u64) -> u32
    ensures { result ≡ room_at size.now off }
{
    blocks_behind(&size.geometry, size.blocks, off)
}

// A count, or all that is left behind the first ones where it is 0.
fn count_or_rest(count: u64, first: u64, all: u64) -> u64
    ensures { result ≡ count_or_rest count first all }
{
    if count == 0 {
        all.saturating_sub(first)
    } else {
        count
    }
}

/// The bytes of a page that a command handles: its body, with `-o` its spare too.
pub fn unit_len(g: &Geometry, oob: bool) -> u32
    ensures { result ≡ unit_size g.now oob }
{
    if oob { g.raw_len() } else { g.page }
}

// How many units so many bytes of data fill.
fn unit_count(g: &Geometry, oob: bool, len: u32) -> u64
    ensures count { result
        ≡ (len + (unit_size g.now oob - 1)) / unit_size g.now oob }
    ensures small { result < 2 ^ 34 }
{
    let unit = u64::from(unit_len(g, oob));
    (u64::from(len) + (unit - 1)) / unit
}

// The operations of a nanddump on a device of so many blocks.
fn dump_cost(g: &Geometry, blocks: u32, off: u64, len: u64) -> u64
    ensures cost { (dev : ℕ) (raw oob : Bool) (bad : BadMode)
        → result ≡ cost_of g.now (NandDump dev blocks off len raw oob bad) 0 }
    ensures small { result < 2 ^ 60 }
{
    let page = u64::from(g.page);
    let per_block = u64::from(g.pages_per_block);
    let first = off / page;
    let pages = count_or_rest(len / page, first, u64::from(blocks) * per_block);
    let end = (first + pages + (per_block - 1)) / per_block;
    pages + end.saturating_sub(first / per_block)
}

// The operations of a nandtest on a device of so many blocks, at most 2^64 - 1.
fn test_cost(g: &Geometry, blocks: u32, keep: bool, passes: u32, off: u64, len: u64) -> u64
    ensures { (dev seed : ℕ) (mark : Bool) → result
        ≡ in_long (cost_of g.now (NandTest dev blocks keep mark seed passes off len) 0) }
{
    let block = block_len(g);
    let count = count_or_rest(len / block, off / block, u64::from(blocks));
    let runs = u64::from(passes).saturating_mul(count);
    let pages = 2 * u64::from(g.pages_per_block);
    if keep {
        return runs.saturating_mul(pages + 3 + (pages + 1));
    }
    runs.saturating_mul(pages + 3)
}

/// What a command on a device costs where no page fails, with data of so many bytes; at most 2^64 -
/// 1.
pub fn base_cost(size: &DeviceSize, command: &CommandLine, len: u32) -> u64
    ensures { (plan : PlanLines) → data_of plan command.now ≡ len → result ≡ in_long
        (cost_of size.now.geometry (command_on plan size.now.blocks command.now) 0) }
{
    match command {
        CommandLine::FlashErase { start, count, .. } => {
            2 * count_or_rest(u64::from(*count), u64::from(*start), u64::from(size.blocks))
        }
        CommandLine::NandWrite { oob, off, .. } => {
            u64::from(room_at(size, *off)) + unit_count(&size.geometry, *oob, len)
        }
        CommandLine::NandDump { off, len, .. } => dump_cost(
            &size.geometry,
            size.blocks,
            *off,
            *len,
        ),
        CommandLine::NandTest {
            keep,
            passes,
            off,
            len,
            ..
        } => test_cost(&size.geometry, size.blocks, *keep, *passes, *off, *len),
        CommandLine::MarkBad { .. } | CommandLine::IsBad { .. } | CommandLine::Stats { .. } => 1,
    }
}
