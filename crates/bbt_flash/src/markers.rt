// Markers of blocks, and the reservation of the last four.
ghost use Rattle.std.specs.Prelude.{◌≡◌, ◌<◌, ◌==◌, length};
ghost use Rattle.chip_paths.specs.Attach.{with_reserved};
ghost use Rattle.nand_model.specs.Page.{marker_byte};
ghost use Rattle.nand_model.specs.Sizes.{raw_len};
ghost use Rattle.bbt_flash.specs.Markers.{marker_state};

use bbt_ram::BlockTable;
use nand_model::Geometry;

/// Whether the marker of a block is good, by its first page.
pub fn is_marker_good(g: &Geometry, image: &[u8]) -> bool
    requires { length image.now ≡ raw_len g.now }
    ensures { result ≡ (marker_byte g.now image.now == 0xff) }
{
    image[g.page as usize] == 0xff
}

/// The state of a block by its first page.
pub fn marker_state(g: &Geometry, image: &[u8]) -> u32
    requires { length image.now ≡ raw_len g.now }
    ensures state { result ≡ marker_state g.now image.now }
    ensures small { result < 4 }
{
    if is_marker_good(g, image) { 0 } else { 3 }
}

/// Makes the last four blocks reserved, beside what else they are.
pub fn reserve_last(g: &Geometry, table: &mut BlockTable)
    requires { length table.old ≡ g.now.blocks }
    ensures states { table.new ≡ with_reserved g.now table.old }
    ensures whole { length table.new ≡ length table.old }
{
    for block in g.blocks - 4..g.blocks {
        table.mark(block, 2);
    }
}
