// The header of a table's page: four bytes of pattern, then the version.
ghost use Rattle.std.specs.Prelude.{◌≡◌, ◌≤◌, ◌+◌, ◌/◌, [], ◌∷◌, ◌++◌, length, slice_index, slice_range};
ghost use Rattle.nand_model.specs.Sizes.{raw_len};
ghost use Rattle.nand_model.specs.Table.{header_at, kind_in, pattern, table_at, which_of};

use nand_model::{Geometry, Which};

// The pattern of a copy: `Bbt0` or `1tbB`.
fn pattern(which: Which) -> [u8; 4]
    ensures { result ≡ pattern which }
{
    match which {
        Which::Primary => *b"Bbt0",
        Which::Mirror => *b"1tbB",
    }
}

// Writes a header: the pattern of a copy, and its version.
pub(crate) fn put_header(which: Which, version: u8, out: &mut [u8])
    requires { length out.old ≡ 5 }
    ensures { out.new ≡ pattern which ++ version ∷ [] }
{
    out[..4].copy_from_slice(&pattern(which));
    out[4] = version;
}

// The copy whose pattern these four bytes are.
fn which_of(bytes: &[u8]) -> Option<Which>
    ensures { result ≡ which_of bytes.now }
{
    if bytes == &pattern(Which::Primary)[..] {
        Some(Which::Primary)
    } else if bytes == &pattern(Which::Mirror)[..] {
        Some(Which::Mirror)
    } else {
        None
    }
}

// Where the header stands in a page.
fn header_at(g: &Geometry) -> usize
    ensures place { result ≡ header_at g.now }
    ensures within { result + 5 ≤ raw_len g.now }
{
    if g.bbt == 1 { g.page as usize + 8 } else { 0 }
}

// The copy that the header of a page names.
pub(crate) fn kind_in(g: &Geometry, image: &[u8]) -> Option<Which>
    requires { length image.now ≡ raw_len g.now }
    ensures { result ≡ kind_in g.now image.now }
{
    let start = header_at(g);
    which_of(&image[start..start + 4])
}

// The version in the header of a page.
pub(crate) fn version_in(g: &Geometry, image: &[u8]) -> u8
    requires { length image.now ≡ raw_len g.now }
    ensures { result ≡ slice_index image.now (header_at g.now + 4) }
{
    image[header_at(g) + 4]
}

// Where the bytes of the table stand in a page.
fn table_at(g: &Geometry) -> usize
    ensures place { result ≡ table_at g.now }
    ensures within { result + g.now.blocks / 4 ≤ g.now.page }
{
    if g.bbt == 1 { 0 } else { 5 }
}

// The bytes of the table in a page.
pub(crate) fn table_in<'a>(g: &Geometry, image: &'a [u8]) -> &'a [u8]
    requires { length image.now ≡ raw_len g.now }
    ensures bytes { result.now
        ≡ slice_range image.now (table_at g.now) (table_at g.now + g.now.blocks / 4) }
    ensures len { length result.now ≡ g.now.blocks / 4 }
{
    let start = table_at(g);
    &image[start..start + (g.blocks / 4) as usize]
}
