// What is written for a table.
ghost use Rattle.std.specs.Prelude.{◌≡◌, ◌≤◌, ◌+◌, ◌/◌, [], ◌∷◌, ◌++◌, length, replicate, true};
ghost use Rattle.nand_model.specs.Sizes.{raw_len};
ghost use Rattle.nand_model.specs.Table.{has_tables, padded, pattern, table_bytes, table_layout, table_page};

use crate::header::put_header;
use crate::states::put_states;
use bbt_ram::BlockTable;
use nand_iface::PageCode;
use nand_model::{Geometry, Which};

/// Writes the page of a table before its parities: the states, the pattern of this copy and its
/// version in their places, and 0xFF in all other bytes.
///
/// The header stands in the spare (`bbt` 1) or at the head of the body (`bbt` 2). Reserved blocks
/// are written as good ones. The page has `raw_len` bytes. No memory is taken.
pub fn put(g: &Geometry, which: Which, version: u8, table: &BlockTable, image: &mut [u8])
    requires tables { has_tables g.now ≡ true }
    requires whole { length image.old ≡ raw_len g.now }
    requires blocks { length table.now ≡ g.now.blocks }
    ensures { image.new ≡ table_layout g.now which version table.now }
{
    let (body, spare) = image.split_at_mut(g.page as usize);
    if g.bbt == 1 {
        put_states(table, body);
        put_spare_header(which, version, spare);
    } else {
        put_body(which, version, table, body);
        spare.fill(0xff);
    }
}

/// Writes the page of a table with its parities, as it is programmed. No memory is taken.
pub fn put_encoded<C: PageCode>(
    g: &Geometry,
    code: &C,
    which: Which,
    version: u8,
    table: &BlockTable,
    image: &mut [u8],
)
    requires tables { has_tables g.now ≡ true }
    requires whole { length image.old ≡ raw_len g.now }
    requires blocks { length table.now ≡ g.now.blocks }
    ensures { image.new ≡ table_page g.now which version table.now }
{
    put(g, which, version, table, image);
    code.encode(g, image);
}

// Writes a header into bytes 8 to 12 of the spare, and 0xFF into all others.
fn put_spare_header(which: Which, version: u8, spare: &mut [u8])
    requires { 13 ≤ length spare.old }
    ensures { spare.new
        ≡ padded (length spare.old) (replicate 8 0xff ++ pattern which ++ version ∷ []) }
{
    spare.fill(0xff);
    put_header(which, version, &mut spare[8..13]);
}

// Writes a header, the states behind it, and 0xFF behind these.
fn put_body(which: Which, version: u8, table: &BlockTable, body: &mut [u8])
    requires { length table.now / 4 + 5 ≤ length body.old }
    ensures { body.new
        ≡ padded (length body.old) (pattern which ++ (version ∷ []) ++ table_bytes table.now) }
{
    let (header, states) = body.split_at_mut(5);
    put_header(which, version, header);
    put_states(table, states);
}
