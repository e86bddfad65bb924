// The pages in which tables stand.
ghost use Rattle.std.specs.Prelude.{◌≡◌, ◌<◌};
ghost use Rattle.nand_model.specs.Quiet.{is_table_block, is_table_page};
ghost use Rattle.nand_model.specs.Sizes.{page_count};

use nand_model::Geometry;

/// Whether tables stand in a block: it is one of the last four of a chip with tables.
pub fn is_table_block(g: &Geometry, block: u32) -> bool
    requires { block < g.now.blocks }
    ensures { result ≡ is_table_block g.now block }
{
    g.bbt != 0 && g.blocks - 4 <= block
}

/// Whether a page is the first one of such a block.
pub fn is_table_page(g: &Geometry, page: u32) -> bool
    requires { page < page_count g.now }
    ensures { result ≡ is_table_page g.now page }
{
    page % g.pages_per_block == 0 && is_table_block(g, page / g.pages_per_block)
}
