// Ranges of pages and of blocks.
ghost use Rattle.std.specs.Prelude.{◌≡◌, ◌+◌, ◌*◌, ◌/◌, ◌≤◌, ◌<◌};
ghost use Rattle.command_model.specs.Runnable.{DumpsPages, IsDeviceSize};
ghost use Rattle.command_model.specs.Command.{block_size, device_bytes};
ghost use Rattle.tool_steps.specs.Ranges.{range_blocks, range_pages};

use crate::copies::block_len;
use nand_model::Geometry;

/// The pages of a range of a device, where the length 0 means to the end.
pub fn pages_in_range(g: &Geometry, blocks: u32, off: u64, len: u64) -> u32
    requires { DumpsPages g.now blocks off len }
    ensures pages { result ≡ range_pages g.now blocks off len }
    ensures some { 1 ≤ result }
    ensures few { off / g.now.page + result ≤ blocks * g.now.pages_per_block }
    ensures small { result ≤ 4194304 }
{
    let page = u64::from(g.page);
    let first = off / page;
    let pages = len / page;
    if pages == 0 {
        (u64::from(blocks) * u64::from(g.pages_per_block) - first) as u32
    } else {
        pages as u32
    }
}

/// The blocks of a range of a device, where the length 0 means to the end.
pub fn blocks_in_range(g: &Geometry, blocks: u32, off: u64, len: u64) -> u32
    requires size { IsDeviceSize blocks }
    requires first { off < device_bytes g.now blocks }
    requires last { off + len ≤ device_bytes g.now blocks }
    ensures blocks { result ≡ range_blocks g.now blocks off len }
    ensures some { 1 ≤ result }
    ensures few { off / block_size g.now + result ≤ blocks }
{
    let block = block_len(g);
    let first = off / block;
    let count = len / block;
    if count == 0 {
        blocks - first as u32
    } else {
        count as u32
    }
}
